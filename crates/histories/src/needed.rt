//! The calls that a refused event needs.
ghost use Rattle.std.specs.Prelude.{◌≡◌, ◌<◌, ◌++◌, IfOk, IfSome, IsTrue, OnOk, length};
ghost use Rattle.histories.specs.Advances.{IsCut};
ghost use Rattle.histories.specs.Frontier.{IsIdle};
ghost use Rattle.histories.specs.Histories.{IsExplained, IsHistory};
ghost use Rattle.histories.specs.Windows.{AreIdle, AreNeeded, HasCut, IsRest, IsWellFormed, call_of, events_of, is_kept, states_of};

use super::follow::follow;
use super::front::{Advance, Config, Event};
use super::gather::start;
use super::machine::Machine;
use super::step::advance;
use super::window::{Cut, Window};
use std::alloc::{AllocError, Global};

/// How many configurations are followed at most to leave out one call after the other. A
/// configuration counts once for each event with which it is followed.
pub const MAX_TRIED: usize = 262_144;

/// The call that the event is of.
fn call_of(event: Event) -> usize
    ensures { result ≡ call_of event }
{
    match event {
        Event::Begin(call) => call,
        Event::End(call) => call,
        Event::Crash(call) => call,
    }
}

/// Whether the call of this number is not left out.
pub fn is_kept(left_out: &[bool], call: usize) -> bool
    ensures { result ≡ is_kept left_out.now call }
{
    !(call < left_out.len() && left_out[call])
}

/// The events of the calls that are not left out.
fn rest_of(alloc: Global, events: &[Event], left_out: &[bool]) -> Result<Vec<Event>, AllocError>
    ensures { IfOk result (λ rest. rest.items ≡ events_of (is_kept left_out.now) events.now) }
{
    let mut rest = Vec::new(alloc);
    for event in events {
        if is_kept(left_out, call_of(*event)) {
            rest.push(*event)?;
        }
    }
    Ok(rest)
}

/// Whether it is found that no order explains the events, and that one explains those before the
/// last one. The answer is also no where more configurations would be followed than are left. Those
/// that were followed are no longer left.
fn is_refused<M: Machine>(
    alloc: Global,
    machine: &M,
    states: &[M::State],
    events: &[Event],
    left: &mut usize,
) -> Result<bool, AllocError>
    requires formed { IsWellFormed events.now }
    ensures { IfOk result (λ refused. IsTrue refused
        → ¬ (IsExplained (M.Step machine.now) events.now states.now)) }
{
    let mut front = start(alloc, machine, states)?;
    for at in 0..events.len() {
        if front.configs.len() > *left {
            return Ok(false);
        }
        *left -= front.configs.len();
        match advance(alloc, machine, &mut front, events[at])? {
            Advance::Done => (),
            Advance::Refused => return Ok(at + 1 == events.len()),
            Advance::ManyConfigs | Advance::ManyOpen | Advance::NoEvent => return Ok(false),
        }
    }
    Ok(false)
}

/// Leaves the call of this number out too, where it is found that no order explains the rest.
fn leave_out<M: Machine>(
    alloc: Global,
    machine: &M,
    states: &[M::State],
    events: &[Event],
    left_out: &mut Vec<bool>,
    call: usize,
    left: &mut usize,
) -> Result<(), AllocError>
    requires formed { IsWellFormed events.now }
    requires within { call < length left_out.old.items }
    requires idle { IsIdle (M.Step machine.now) call }
    ensures { OnOk result (
        IsRest (M.Step machine.now) states.now events.now (is_kept left_out.old.items)
        → IsRest (M.Step machine.now) states.now events.now (is_kept left_out.new.items)) }
{
    let was = left_out[call];
    left_out[call] = true;
    let rest = rest_of(alloc, events, left_out)?;
    if is_refused(alloc, machine, states, &rest, left)? {
        return Ok(());
    }
    left_out[call] = was;
    Ok(())
}

/// Leaves out the call that begins with the event, if it is known to change nothing, and it is
/// found that no order explains the rest. It is not tried where fewer configurations are left than
/// there are events.
#[tactic(auto, using(crate::proofs::Leaving::left_out_is))]
fn leave_out_begun<M: Machine>(
    alloc: Global,
    machine: &M,
    states: &[M::State],
    events: &[Event],
    idle: &[bool],
    event: Event,
    left_out: &mut Vec<bool>,
    left: &mut usize,
) -> Result<(), AllocError>
    requires formed { IsWellFormed events.now }
    requires idle { AreIdle (M.Step machine.now) idle.now }
    ensures { OnOk result (
        IsRest (M.Step machine.now) states.now events.now (is_kept left_out.old.items)
        → IsRest (M.Step machine.now) states.now events.now (is_kept left_out.new.items)) }
{
    let Event::Begin(call) = event else {
        return Ok(());
    };
    if call >= left_out.len() || is_kept(idle, call) {
        return Ok(());
    }
    if events.len() > *left {
        return Ok(());
    }
    leave_out(alloc, machine, states, events, left_out, call, left)
}

/// The calls that are left out one after the other.
fn one_by_one<M: Machine>(
    alloc: Global,
    machine: &M,
    states: &[M::State],
    events: &[Event],
    idle: &[bool],
) -> Result<Vec<bool>, AllocError>
    requires formed { IsWellFormed events.now }
    requires idle { AreIdle (M.Step machine.now) idle.now }
    requires refused { ¬ (IsExplained (M.Step machine.now) events.now states.now) }
    ensures { IfOk result (λ left_out.
        IsRest (M.Step machine.now) states.now events.now (is_kept left_out.items)) }
{
    let mut left_out = vec![in alloc; false; idle.len()]?;
    let mut left = MAX_TRIED;
    for event in events {
        leave_out_begun(
            alloc,
            machine,
            states,
            events,
            idle,
            *event,
            &mut left_out,
            &mut left,
        )?;
    }
    Ok(left_out)
}

/// The calls that are left out: all that change nothing, or else one after the other.
fn shrink<M: Machine>(
    alloc: Global,
    machine: &M,
    states: &[M::State],
    events: &[Event],
    idle: &[bool],
) -> Result<Vec<bool>, AllocError>
    requires formed { IsWellFormed events.now }
    requires idle { AreIdle (M.Step machine.now) idle.now }
    requires refused { ¬ (IsExplained (M.Step machine.now) events.now states.now) }
    ensures { IfOk result (λ left_out.
        IsRest (M.Step machine.now) states.now events.now (is_kept left_out.items)) }
{
    let rest = rest_of(alloc, events, idle)?;
    let mut left = usize::MAX;
    if is_refused(alloc, machine, states, &rest, &mut left)? {
        return Vec::from_slice(alloc, idle);
    }
    one_by_one(alloc, machine, states, events, idle)
}

/// The states of the configurations.
fn states_of<S: Drop>(alloc: Global, configs: Vec<Config<S>>) -> Result<Vec<S>, AllocError>
    ensures { IfOk result (λ states. states.items ≡ states_of configs.items) }
{
    let mut states = Vec::new(alloc);
    for config in configs {
        states.push(config.state)?;
    }
    Ok(states)
}

/// The states that the events have left, where a window begins after them.
fn states_left<M: Machine>(
    alloc: Global,
    machine: &M,
    states: &[M::State],
    past: &[Event],
) -> Result<Option<Vec<M::State>>, AllocError>
    requires some { 0 < length states.now }
    requires history { IsHistory past.now }
    ensures { IfOk result (λ found. IfSome found
        (λ left. IsCut (M.Step machine.now) states.now past.now left.items)) }
{
    let Ok(window) = follow(alloc, machine, states, past, Cut::WhereQuiet)? else {
        return Ok(None);
    };
    let Window { begin, front } = window;
    if begin != past.len() {
        return Ok(None);
    }
    Ok(Some(states_of(alloc, front.configs)?))
}

/// Which calls of a window are left out, where no order explains the events in it and those before
/// it: calls that change nothing, as long as no order explains the rest. `idle` says by its number
/// whether a call is known to change nothing. First all of these are left out together, and where
/// that does not do, one after the other. The events before the window are followed once more.
///
/// Once `MAX_TRIED` configurations were followed one after the other, the calls that were not tried
/// stay.
pub fn calls_left_out<M: Machine>(
    alloc: Global,
    machine: &M,
    states: &[M::State],
    past: &[Event],
    window: &[Event],
    idle: &[bool],
) -> Result<Vec<bool>, AllocError>
    requires some { 0 < length states.now }
    requires history { IsHistory (past.now ++ window.now) }
    requires cut { HasCut (M.Step machine.now) states.now past.now }
    requires refused { ¬ (IsExplained (M.Step machine.now) (past.now ++ window.now) states.now) }
    requires idle { AreIdle (M.Step machine.now) idle.now }
    ensures { IfOk result (λ left_out. AreNeeded (M.Step machine.now) states.now past.now
        window.now (is_kept left_out.items)) }
{
    match states_left(alloc, machine, states, past)? {
        Some(left) => shrink(alloc, machine, &left, window, idle),
        None => vec![in alloc; false; idle.len()],
    }
}
