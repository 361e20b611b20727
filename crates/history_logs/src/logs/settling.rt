//! Judging what was seen of services while it is read.
ghost use Rattle.std.specs.Prelude.{◌≡◌, ◌≤◌, ◌<◌, ◌⊎◌, ℕ, IfOk, IfSome, IsTrue, None, Some, length, take};
ghost use Rattle.histories.specs.declared.front.Event.TheVariants.{Begin};
ghost use Rattle.histories.specs.Advances.{Ends};
ghost use Rattle.histories.specs.Frontier.{HasSlot};
ghost use Rattle.histories.specs.Histories.{HasEnded};
ghost use Rattle.history_logs.specs.Settling.{AreOver, GoesShort, HasShort, IsBehind, IsBehindBegun, IsOverIn};
ghost use Rattle.history_logs.specs.Settling.{IsRightShort, MayFollowAt, Stays};

use super::needed::first_states;
use super::service::LogService;
use histories::{Event, Front, first_front, go_on};
use service_conformance::conformance::{Calls, WatchedService};
use std::alloc::{AllocError, Global};

/// Whether the call ends with the event.
fn ends(event: Event, call: usize) -> bool
    ensures { IsTrue result → Ends event call }
{
    match event {
        Event::End(ended) => ended == call,
        Event::Crash(ended) => ended == call,
        Event::Begin(_) => false,
    }
}

/// Whether the call is over in these events.
fn is_over(events: &[Event], call: usize) -> bool
    ensures { IsTrue result → HasEnded events.now call }
{
    for at in 0..events.len() {
        if ends(events[at], call) {
            return true;
        }
    }
    false
}

/// Whether the call is over in these events, and the weak listing too that starts with it, if one
/// does. Then its reply is known.
fn is_known(service: &LogService, events: &[Event], call: usize) -> bool
    ensures { IsTrue result → IsOverIn service.now events.now call }
{
    if !is_over(events, call) {
        return false;
    }
    let Some(next) = call.checked_add(1) else {
        return false;
    };
    match service.start_of(next) {
        Some(start) if start == call => is_over(events, next),
        _ => true,
    }
}

/// Whether the event at this index may be followed: the reply is known of the call that it begins.
fn may_follow(service: &LogService, at: usize) -> bool
    requires { at < length service.now.events }
    ensures { IsTrue result → MayFollowAt service.now at }
{
    let events = service.events();
    match events[at] {
        Event::Begin(call) => is_known(service, &events[at..], call),
        Event::End(_) | Event::Crash(_) => true,
    }
}

/// How many events may be followed.
fn count_settled(service: &LogService) -> usize
    ensures most { result ≤ length service.now.events }
    ensures over { AreOver service.now (take result service.now.events) }
{
    let events = service.events();
    for at in 0..events.len() {
        if !may_follow(service, at) {
            return at;
        }
    }
    events.len()
}

/// The least number of a call that has a slot, or this one.
fn first_open(slots: &[Option<usize>], most: usize) -> usize
    ensures most { result ≤ most }
    ensures each { (slot : ℕ) (call : ℕ) → HasSlot slots.now slot call → result ≤ call }
    ensures is { (result ≡ most) ⊎ ((slot : ℕ) × HasSlot slots.now slot result) }
{
    slots
        .iter()
        .copied()
        .flatten()
        .fold(most, |first, call| first.min(call))
}

/// The number behind the call that the event begins, if it begins one.
fn behind_begun(event: Event) -> Option<usize>
    ensures { IfSome result (λ behind. (call : ℕ) × (event ≡ Begin call) × IsBehind call behind) }
{
    match event {
        Event::Begin(begun) => Some(begun.saturating_add(1)),
        Event::End(_) | Event::Crash(_) => None,
    }
}

/// The number behind that of the last call that begins in the events, or this one, where none does.
#[tactic(auto, using(crate::proofs::Settled::begins_at))]
fn behind_last(events: &[Event], first: usize) -> usize
    ensures { IsBehindBegun first events.now result }
{
    events
        .iter()
        .rev()
        .find_map(|event| behind_begun(*event))
        .unwrap_or(first)
}

/// The front goes on with so many of the events that are kept. Returns whether orders explain them.
fn go_short(
    alloc: Global,
    service: &LogService,
    front: &mut Front<WatchedService>,
    count: usize,
) -> Result<bool, AllocError>
    requires within { count ≤ length service.now.events }
    requires short { HasShort service.now (Some front.old) }
    ensures { IfOk result (λ yes. IsTrue yes
        → GoesShort service.now front.old count front.new) }
{
    let machine = Calls {
        alloc,
        first: service.first(),
        calls: service.kept(),
    };
    go_on(alloc, &machine, front, &service.events()[..count])
}

/// Follows the events of which the replies are known, and forgets them. Returns whether orders
/// explain them.
fn follow(
    alloc: Global,
    service: &mut LogService,
    front: &mut Front<WatchedService>,
) -> Result<bool, AllocError>
    requires { HasShort service.old (Some front.old) }
    ensures { IfOk result (λ yes. IsTrue yes
        → Stays service.old (Some front.old) service.new (Some front.new)) }
{
    let count = count_settled(service);
    let most = behind_last(&service.events()[..count], service.first());
    if !go_short(alloc, service, front, count)? {
        return Ok(false);
    }
    let first = first_open(&front.slots, most);
    service.forget(first, count);
    Ok(true)
}

/// The front before any call on the service.
fn begin(alloc: Global, service: &LogService) -> Result<Front<WatchedService>, AllocError>
    requires some { 0 < length service.now.calls }
    ensures { IfOk result (λ front. Stays service.now None service.now (Some front)) }
{
    let machine = Calls {
        alloc,
        first: service.first(),
        calls: service.kept(),
    };
    let states = first_states(alloc, service)?;
    first_front(alloc, &machine, &states)
}

/// The front of a service, or that before any call on it, where there is none yet.
fn front_or_begin(
    alloc: Global,
    service: &LogService,
    front: Option<Front<WatchedService>>,
) -> Result<Front<WatchedService>, AllocError>
    requires some { 0 < length service.now.calls }
    ensures { IfOk result (λ last. Stays service.now front service.now (Some last)) }
{
    match front {
        Some(last) => Ok(last),
        None => begin(alloc, service),
    }
}

/// Settles what was seen of a service. Returns whether orders explain what is settled.
pub(super) fn settle(
    alloc: Global,
    service: &mut LogService,
    front: &mut Option<Front<WatchedService>>,
) -> Result<bool, AllocError>
    requires { HasShort service.old front.old }
    ensures { IfOk result (λ yes. IsTrue yes
        → Stays service.old front.old service.new front.new) }
{
    if !service.has_calls() || service.events().is_empty() {
        return Ok(true);
    }
    let mut next = front_or_begin(alloc, service, front.take())?;
    if !follow(alloc, service, &mut next)? {
        return Ok(false);
    }
    *front = Some(next);
    Ok(true)
}

/// Whether orders explain all that was seen of a service, where no more comes.
pub(super) fn is_explained(
    alloc: Global,
    service: &LogService,
    front: Option<Front<WatchedService>>,
) -> Result<bool, AllocError>
    requires { HasShort service.now front }
    ensures { IfOk result (λ yes. IsTrue yes → IsRightShort service.now front) }
{
    if !service.has_calls() {
        return Ok(true);
    }
    let mut last = front_or_begin(alloc, service, front)?;
    go_short(alloc, service, &mut last, service.events().len())
}
