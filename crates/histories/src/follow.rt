//! Following a history event by event, also while replies are still to come.
ghost use Rattle.std.specs.Prelude.{◌≡◌, ◌<◌, IfErr, IfOk, OnOk, length, []};
ghost use Rattle.histories.specs.Frontier.{IsFrontOf};
ghost use Rattle.histories.specs.Histories.{IsExplained, IsHistory};
ghost use Rattle.histories.specs.Windows.{CutsAt, GoesOn, HasPast, IsBusyFrom, IsFrontAfter, IsMadeNext, IsStop, IsWindowOf};

use super::front::{Advance, Event, Front};
use super::gather::start;
use super::machine::Machine;
use super::step::{advance, begin_anew, make_alone};
use super::window::{Cut, Stop, Window};
use std::alloc::{AllocError, Global};

/// Begins a new window after so many events, where no call is open and the history is cut.
fn cut_at<M: Machine>(machine: &M, window: &mut Window<M::State>, count: usize, cut: Cut)
    ensures { CutsAt (M.Step machine.now) cut count window.old window.new }
{
    match cut {
        Cut::WhereQuiet => {
            if !begin_anew(machine, &mut window.front) {
                return;
            }
            window.begin = count;
        }
        Cut::Never => (),
    }
}

/// Goes on with the event at this index and the next one, if they are the begin and the end of a
/// call that can be made in place. Returns whether it did; else nothing changed.
fn make_next<M: Machine>(
    machine: &M,
    front: &mut Front<M::State>,
    events: &[Event],
    at: usize,
) -> Result<bool, AllocError>
    requires { at < length events.now }
    ensures { IfOk result (IsMadeNext M.Step machine.now events.now at front.old front.new) }
{
    let Event::Begin(call) = events[at] else {
        return Ok(false);
    };
    match events.get(at + 1) {
        Some(Event::End(ended)) if *ended == call => make_alone(machine, front, call),
        _ => Ok(false),
    }
}

/// Follows the events. Returns the window that they end in, or the index of the event at which they
/// are not followed further, and why.
pub(super) fn follow<M: Machine>(
    alloc: Global,
    machine: &M,
    states: &[M::State],
    events: &[Event],
    cut: Cut,
) -> Result<Result<Window<M::State>, (usize, Stop)>, AllocError>
    requires some { 0 < length states.now }
    requires history { IsHistory events.now }
    ensures all { IfOk result (λ end. IfOk end
        (IsWindowOf (M.Step machine.now) states.now events.now)) }
    ensures latest { cut ≡ Cut.WhereQuiet → IfOk result (λ end. IfOk end
        (λ window. IsBusyFrom window.begin events.now)) }
    ensures whole { cut ≡ Cut.Never → IfOk result (λ end. IfOk end
        (λ window. IsFrontOf (M.Step machine.now) window.front events.now states.now)) }
    ensures explained { IfOk result (λ end. OnOk end
        (IsExplained (M.Step machine.now) events.now states.now)) }
    ensures stop { IfOk result (λ end. IfErr end
        (λ stop. IsStop (M.Step machine.now) states.now events.now stop.0 stop.1)) }
{
    let front = start(alloc, machine, states)?;
    let mut window = Window { begin: 0, front };
    let mut at = 0;
    while at < events.len() {
        if make_next(machine, &mut window.front, events, at)? {
            at += 2;
            cut_at(machine, &mut window, at, cut);
            continue;
        }
        match advance(alloc, machine, &mut window.front, events[at])? {
            Advance::Done => (),
            Advance::Refused => return Ok(Err((at, Stop::Refused))),
            Advance::ManyConfigs => return Ok(Err((at, Stop::ManyConfigs))),
            Advance::ManyOpen => return Ok(Err((at, Stop::ManyOpen))),
            Advance::NoEvent => unreachable!(),
        }
        at += 1;
        cut_at(machine, &mut window, at, cut);
    }
    Ok(Ok(window))
}

/// The front before any event, in these states. It is that of each machine: no call has begun.
pub fn first_front<M: Machine>(
    alloc: Global,
    machine: &M,
    states: &[M::State],
) -> Result<Front<M::State>, AllocError>
    requires { 0 < length states.now }
    ensures { IfOk result (λ front. (whole : M)
        → IsFrontAfter (M.Step whole) states.now [] front) }
{
    start(alloc, machine, states)
}

/// Goes on with more events of the history that the front is of. Returns whether orders explain
/// all. Where it returns false, or memory was refused, the front is of no history any more. False
/// is returned also where a bound is passed.
///
/// The machine needs only the calls that are open in the front or begin in these events, with their
/// replies. So a history is judged while it is still written, and what is kept grows with the calls
/// that are open and with the links, which are dropped where no call is open.
pub fn go_on<M: Machine>(
    alloc: Global,
    machine: &M,
    front: &mut Front<M::State>,
    events: &[Event],
) -> Result<bool, AllocError>
    requires { HasPast M.Step machine.now front.old events.now }
    ensures { IfOk result (GoesOn M.Step machine.now front.old events.now front.new) }
{
    let mut at = 0;
    while at < events.len() {
        if make_next(machine, front, events, at)? {
            at += 2;
            begin_anew(machine, front);
            continue;
        }
        match advance(alloc, machine, front, events[at])? {
            Advance::Done => (),
            _ => return Ok(false),
        }
        at += 1;
        begin_anew(machine, front);
    }
    Ok(true)
}
