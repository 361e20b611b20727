//! Histories of a register, with what is found of each.
use super::register::{Access, Recorded};
use histories::{Advance, Event, Front, MAX_OPEN, advance, start};
use std::alloc::{AllocError, Global};
use std::process::Abort;
use std::test::Fail;

/// What is found: how many configurations are left, or at which event the search ends, and why.
#[derive(Clone, Copy, Debug, PartialEq, Eq)]
pub enum Found {
    Left(usize),
    Stopped(usize, Advance),
}

/// A register with 0, on which these calls are made.
pub fn recorded(alloc: Global, calls: &[Access]) -> Result<Recorded, AllocError> {
    let calls = Vec::from_slice(alloc, calls)?;
    Ok(Recorded { calls })
}

/// The front before any call.
pub fn first(alloc: Global, machine: &Recorded) -> Result<Box<Front<u64>>, AllocError> {
    Ok(Box::new(alloc, start(alloc, machine, &[0])?)?)
}

/// What is found of these calls, from a register with 0 on.
pub fn judged(alloc: Global, calls: &[Access], events: &[Event]) -> Result<Found, AllocError> {
    let machine = recorded(alloc, calls)?;
    let mut front = first(alloc, &machine)?;
    for at in 0..events.len() {
        if front.slots.len() > MAX_OPEN {
            return Ok(Found::Stopped(at, Advance::ManyOpen));
        }
        let done = advance(alloc, &machine, &mut front, events[at])?;
        if done != Advance::Done {
            return Ok(Found::Stopped(at, done));
        }
    }
    Ok(Found::Left(front.configs.len()))
}

/// Calls, their events, and what is found.
type Row = (&'static [Access], &'static [Event], Found);

/// This is found of each row.
fn are_found(rt: &(impl Abort + AllocGlobal), rows: &[Row]) -> Result<(), Fail> {
    for (calls, events, found) in rows {
        assert_eq!(rt; judged(rt.alloc(), calls, events)?, *found);
    }
    Ok(())
}

/// While the first call goes on, the second one begins and ends, and then the third one.
const IN_TURN: &[Event] = &[
    Event::Begin(0),
    Event::Begin(1),
    Event::End(1),
    Event::Begin(2),
    Event::End(2),
];

const NEW_AFTER_OLD: &[Access] = &[Access::Write(1), Access::Read(0), Access::Read(1)];

const OLD_AFTER_NEW: &[Access] = &[Access::Write(1), Access::Read(1), Access::Read(0)];

/// A writes 1. Within it B reads, and C reads afterwards.
static REAL_TIME: [Row; 3] = [
    (NEW_AFTER_OLD, IN_TURN, Found::Left(1)),
    // The second read begins when the first one, of the new value, is over.
    (OLD_AFTER_NEW, IN_TURN, Found::Stopped(4, Advance::Refused)),
    // The same replies, where the reads overlap.
    (
        OLD_AFTER_NEW,
        &[
            Event::Begin(0),
            Event::Begin(1),
            Event::Begin(2),
            Event::End(1),
            Event::End(2),
        ],
        Found::Left(1),
    ),
];

#[test]
fn real_time_decides(rt: HostRuntime) -> Result<(), Fail> {
    are_found(&rt, &REAL_TIME)
}

/// The first call never ends.
const OPEN: &[Event] = &[Event::Begin(0), Event::Begin(1), Event::End(1)];

static NEVER_ENDING: [Row; 5] = [
    // A write that never ends may have been made or not.
    (&[Access::Write(1), Access::Read(1)], OPEN, Found::Left(1)),
    (&[Access::Write(1), Access::Read(0)], OPEN, Found::Left(1)),
    (
        &[Access::Write(1), Access::Read(2)],
        OPEN,
        Found::Stopped(2, Advance::Refused),
    ),
    // A read that never ends has any reply, and is made at once.
    (&[Access::Unanswered, Access::Read(0)], OPEN, Found::Left(1)),
    // A chain of overlaps that never closes. The read saw the first write: the second one stands
    // before that, or after the read.
    (
        &[
            Access::Write(1),
            Access::Write(2),
            Access::Read(1),
            Access::Write(3),
        ],
        &[
            Event::Begin(0),
            Event::Begin(1),
            Event::End(0),
            Event::Begin(2),
            Event::End(1),
            Event::Begin(3),
            Event::End(2),
        ],
        Found::Left(2),
    ),
];

#[test]
fn calls_that_never_end(rt: HostRuntime) -> Result<(), Fail> {
    are_found(&rt, &NEVER_ENDING)
}

/// A crashes. Then B reads, and C after it.
const CRASHED: &[Event] = &[
    Event::Begin(0),
    Event::Crash(0),
    Event::Begin(1),
    Event::End(1),
    Event::Begin(2),
    Event::End(2),
];

static CRASHES: [Row; 4] = [
    // The write took effect before the crash, or never.
    (
        &[Access::Write(1), Access::Read(1), Access::Read(1)],
        CRASHED,
        Found::Left(1),
    ),
    (
        &[Access::Write(1), Access::Read(0), Access::Read(0)],
        CRASHED,
        Found::Left(1),
    ),
    (NEW_AFTER_OLD, CRASHED, Found::Stopped(5, Advance::Refused)),
    // Without the crash, it may take effect between the reads.
    (NEW_AFTER_OLD, IN_TURN, Found::Left(1)),
];

#[test]
fn callers_that_crash(rt: HostRuntime) -> Result<(), Fail> {
    are_found(&rt, &CRASHES)
}

const ONE_WRITE: &[Access] = &[Access::Write(1)];

static NOT_OPEN: [Row; 3] = [
    (
        ONE_WRITE,
        &[Event::End(0), Event::Begin(0), Event::End(0)],
        Found::Stopped(0, Advance::NoEvent),
    ),
    (
        ONE_WRITE,
        &[Event::Begin(0), Event::End(0), Event::End(0)],
        Found::Stopped(2, Advance::NoEvent),
    ),
    (
        ONE_WRITE,
        &[Event::Begin(0), Event::End(0), Event::Crash(0)],
        Found::Stopped(2, Advance::NoEvent),
    ),
];

#[test]
fn a_call_that_is_not_open_does_not_end(rt: HostRuntime) -> Result<(), Fail> {
    are_found(&rt, &NOT_OPEN)
}
