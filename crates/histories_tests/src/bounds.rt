//! The bounds of the search.
use super::register::Access;
use super::worked::{Found, judged};
use histories::{Advance, Event, MAX_OPEN};
use std::alloc::{AllocError, Global};
use std::test::Fail;

/// So many writes that are open at a time, of which the first one ends.
fn writes(alloc: Global, count: usize) -> Result<Found, AllocError> {
    let mut calls = Vec::new(alloc);
    let mut events = Vec::new(alloc);
    for call in 0..count {
        calls.push(Access::Write(call as u64))?;
        events.push(Event::Begin(call))?;
    }
    events.push(Event::End(0))?;
    judged(alloc, &calls, &events)
}

#[test]
fn calls_that_are_open(rt: HostRuntime) -> Result<(), Fail> {
    let alloc = rt.alloc();
    // The first write was made after each set of the others.
    assert_eq!(rt; writes(alloc, 1)?, Found::Left(1));
    assert_eq!(rt; writes(alloc, 4)?, Found::Left(8));
    assert_eq!(rt; writes(alloc, 10)?, Found::Left(512));
    assert_eq!(rt;
        writes(alloc, MAX_OPEN + 1)?,
        Found::Stopped(MAX_OPEN, Advance::ManyOpen)
    );
    Ok(())
}
