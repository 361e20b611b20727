//! The calls that a refused reply needs.
ghost use Rattle.std.specs.Prelude.{◌≡◌, ◌<◌, ◌≤◌, ◌++◌, ◌∷◌, [], ℕ, IfOk, IsTrue, OnOk, length};
ghost use Rattle.std.specs.Prelude.{take};
ghost use Rattle.std.specs.List.{flat_map};
ghost use Rattle.histories.specs.declared.front.Event.TheVariants.{Begin, End};
ghost use Rattle.histories.specs.Frontier.{IsIdle};
ghost use Rattle.histories.specs.Histories.{StandsAt};
ghost use Rattle.histories.specs.declared.window.Stop.TheVariants as stop;
ghost use Rattle.histories.specs.Windows.{AreIdle, HasCut, IsStop, events_of, is_kept};
ghost use Rattle.service_conformance.specs.Judged.{WindowStep};
ghost use Rattle.history_logs.specs.Good.{IsOrderly};
ghost use Rattle.history_logs.specs.Judging.{BeginBelow};
ghost use Rattle.history_logs.specs.Logs.{AreNeededLines, StepOf, line_begun, lines_begun, news};

use super::service::LogService;
use histories::{Event, Machine, calls_left_out, is_kept};
use service_conformance::conformance::{Calls, JudgedCall, WatchedService};
use std::alloc::{AllocError, Global};

/// What the service is before its first call, alone.
pub(super) fn first_states(
    alloc: Global,
    service: &LogService,
) -> Result<Vec<WatchedService>, AllocError>
    ensures { IfOk result (λ states. states.items ≡ news service.now) }
{
    let mut states = Vec::new(alloc);
    states.push(WatchedService::new(alloc, service.start())?)?;
    Ok(states)
}

/// Whether the call of this number is known to change nothing, and is not the refused one.
fn is_idle(calls: &[JudgedCall], number: usize, refused: usize) -> bool
    requires { number < length calls.now }
    ensures { IsTrue result → IsIdle (WindowStep 0 calls.now) number }
{
    if number == refused {
        return false;
    }
    calls[number].changes_nothing()
}

/// Which of the calls are known to change nothing, but for the refused one.
fn idle_calls(alloc: Global, calls: &[JudgedCall], refused: usize) -> Result<Vec<bool>, AllocError>
    ensures { IfOk result (λ idle. AreIdle (WindowStep 0 calls.now) idle.items) }
{
    let mut idle = Vec::new(alloc);
    for number in 0..calls.len() {
        idle.push(is_idle(calls, number, refused))?;
    }
    Ok(idle)
}

/// Adds the line in which the call of the event begins, if it begins with it and is not left out.
fn add_begun(
    begins: &[usize],
    left_out: &[bool],
    event: Event,
    lines: &mut Vec<usize>,
) -> Result<(), AllocError>
    requires { (call : ℕ) → event ≡ Begin call → call < length begins.now }
    ensures { OnOk result (lines.new.items ≡ lines.old.items ++ flat_map (line_begun begins.now)
        (events_of (is_kept left_out.now) (event ∷ []))) }
{
    match event {
        Event::Begin(call) => {
            if !is_kept(left_out, call) {
                return Ok(());
            }
            lines.push(begins[call])?;
            Ok(())
        }
        Event::End(_) | Event::Crash(_) => Ok(()),
    }
}

/// The lines in which the calls of the events begin that are not left out, each once.
fn lines_begun(
    alloc: Global,
    begins: &[usize],
    left_out: &[bool],
    events: &[Event],
) -> Result<Vec<usize>, AllocError>
    requires { BeginBelow events.now (length begins.now) }
    ensures { IfOk result (λ lines. lines.items
        ≡ lines_begun begins.now (events_of (is_kept left_out.now) events.now)) }
{
    let mut lines = Vec::new(alloc);
    for event in events {
        add_begun(begins, left_out, *event, &mut lines)?;
    }
    lines.dedup();
    Ok(lines)
}

/// The reply in the event of this index is refused, in the window that begins after so many events.
/// Returns the lines in which the calls begin that are needed there.
pub(super) fn lines_needed(
    alloc: Global,
    service: &LogService,
    begin: usize,
    index: usize,
    refused: usize,
) -> Result<Vec<usize>, AllocError>
    requires orderly { IsOrderly service.now }
    requires stops { IsStop (StepOf service.now) (news service.now) service.now.events index
        stop.Refused }
    requires within { begin ≤ index }
    requires cut { HasCut (StepOf service.now) (news service.now) (take begin service.now.events) }
    requires ended { StandsAt service.now.events index (End refused) }
    ensures { IfOk result (λ lines.
        AreNeededLines service.now begin index refused lines.items) }
{
    let machine = Calls {
        alloc,
        first: 0,
        calls: service.calls(),
    };
    let states = first_states(alloc, service)?;
    let idle = idle_calls(alloc, service.calls(), refused)?;
    let events = &service.events()[..index + 1];
    let past = &events[..begin];
    let window = &events[begin..];
    let left_out = calls_left_out(alloc, &machine, &states, past, window, &idle)?;
    lines_begun(alloc, service.begins(), &left_out, window)
}
