//! Fronts that go on event by event.
use super::register::Access;
use super::worked::{first, recorded};
use histories::{Advance, Event, Front, MAX_OPEN, advance, begin_anew, order_up_to};
use std::alloc::{AllocError, Global};
use std::test::Fail;

/// The orders of all configurations, one behind the other.
fn all_orders(alloc: Global, front: &Front<u64>) -> Result<Vec<usize>, AllocError> {
    let mut calls_in_order = Vec::new(alloc);
    for config in &front.configs {
        let order = order_up_to(alloc, &front.links, config.base)?;
        for call in &order {
            calls_in_order.push(*call)?;
        }
    }
    Ok(calls_in_order)
}

#[test]
fn orders_are_read(rt: HostRuntime) -> Result<(), Fail> {
    let alloc = rt.alloc();
    let calls = [Access::Write(1), Access::Write(2), Access::Read(1)];
    let machine = recorded(alloc, &calls)?;
    let mut front = first(alloc, &machine)?;
    let mut done = true;
    for event in [
        Event::Begin(0),
        Event::Begin(1),
        Event::Begin(2),
        Event::End(2),
        Event::End(1),
        Event::End(0),
    ] {
        assert!(rt; front.slots.len() <= MAX_OPEN);
        let found = advance(alloc, &machine, &mut front, event)?;
        done = done && found == Advance::Done;
    }
    assert!(rt; done);
    // The read saw the first write: the second one stands before that, or after the read.
    let calls_in_order = all_orders(alloc, &front)?;
    assert_eq!(rt; calls_in_order.as_slice(), [1, 0, 2, 0, 2, 1].as_slice());
    // No call is open: the links go, and the states stay.
    assert!(rt; begin_anew(&machine, &mut front));
    assert_eq!(rt; (front.links.len(), front.configs.len()), (0, 2));
    Ok(())
}

#[test]
fn an_open_call_keeps_its_links(rt: HostRuntime) -> Result<(), Fail> {
    let alloc = rt.alloc();
    let calls = [Access::Read(0), Access::Write(1)];
    let machine = recorded(alloc, &calls)?;
    let mut front = first(alloc, &machine)?;
    for event in [Event::Begin(0), Event::Begin(1), Event::End(0)] {
        assert!(rt; front.slots.len() <= MAX_OPEN);
        assert_eq!(rt; advance(alloc, &machine, &mut front, event)?, Advance::Done);
    }
    assert!(rt; !begin_anew(&machine, &mut front));
    assert_eq!(rt; front.links.len(), 1);
    assert!(rt; front.slots.len() <= MAX_OPEN);
    // A call ends once.
    assert_eq!(rt;
        advance(alloc, &machine, &mut front, Event::End(0))?,
        Advance::NoEvent
    );
    Ok(())
}

/// Four calls write one value. When one ends, it alone is made: the others can be made after it.
#[test]
fn calls_that_commute_are_followed_in_one_order(rt: HostRuntime) -> Result<(), Fail> {
    let alloc = rt.alloc();
    let calls = [
        Access::Write(7),
        Access::Write(7),
        Access::Write(7),
        Access::Write(8),
    ];
    let machine = recorded(alloc, &calls)?;
    let mut front = first(alloc, &machine)?;
    for event in [
        Event::Begin(0),
        Event::Begin(1),
        Event::Begin(2),
        Event::End(1),
    ] {
        assert!(rt; front.slots.len() <= MAX_OPEN);
        assert_eq!(rt; advance(alloc, &machine, &mut front, event)?, Advance::Done);
    }
    assert_eq!(rt; front.configs.len(), 1);
    // Another value is written before or after: both orders are followed.
    for event in [Event::Begin(3), Event::End(3)] {
        assert!(rt; front.slots.len() <= MAX_OPEN);
        assert_eq!(rt; advance(alloc, &machine, &mut front, event)?, Advance::Done);
    }
    assert!(rt; front.configs.len() > 1);
    Ok(())
}
