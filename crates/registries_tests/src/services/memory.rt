//! Services where memory is refused. With ample memory they are made;
//! where one request is refused (`bench/refuse_memory` does that), the
//! maker says so. No call on a service that was made takes memory.
use super::patterns::*;
use super::rows::{Handle, Row, are_answered};
use crate::nodes::A;
use iox2_dynamic::dynamic_config::*;
use std::alloc::{AllocError, Global};
use std::env::Env;
use std::process::Abort;
use std::test::Fail;
use test_support::memory::may_be_refused;

/// One ticket of each kind.
pub(super) static EACH_KIND_HAS_ONE: [Row; 10] = [
    Row::Register(A, Ok(Handle(7, Kind::Node, 0, 0))),
    Row::Attach(Kind::First, 9, A, Ok(Handle(7, Kind::First, 0, 0))),
    Row::Attach(Kind::Second, 10, A, Ok(Handle(7, Kind::Second, 0, 0))),
    Row::Nodes(1),
    Row::Ports(Kind::First, Some(&[9])),
    Row::Release(Handle(7, Kind::First, 0, 0), Ok(())),
    Row::Deregister(
        Handle(7, Kind::Node, 0, 0),
        Err(DeregisterError::PortsStillAttached),
    ),
    Row::Recover(A, &[], &[10], false),
    Row::Nodes(0),
    Row::Ports(Kind::Second, Some(&[])),
];

/// A port and then its node leave.
static ALL_LEAVE: [Row; 5] = [
    Row::Register(A, Ok(Handle(7, Kind::Node, 0, 0))),
    Row::Attach(Kind::Second, 9, A, Ok(Handle(7, Kind::Second, 0, 0))),
    Row::Release(Handle(7, Kind::Second, 0, 0), Ok(())),
    Row::Deregister(Handle(7, Kind::Node, 0, 0), Ok(false)),
    Row::Nodes(0),
];

/// Makes the calls of the rows on a new service of this pattern, where there is memory for it.
fn is_made_whole_or_not_at_all(
    rt: &(impl Abort + AllocGlobal + Env),
    pattern: &Pattern,
    rows: &[Row],
) -> Result<(), Fail> {
    let Ok(mut service) = service_by_tickets(rt.alloc(), pattern.kind, (4, 4, 4), 1) else {
        assert!(rt; may_be_refused(rt));
        return Ok(());
    };
    are_answered(rt, &mut service, pattern, rows)
}

/// Whatever requests for memory are refused, a service is made whole or not at all.
#[test]
fn a_service_is_made_whole_or_not_at_all(rt: HostRuntime) -> Result<(), Fail> {
    for pattern in &PATTERNS {
        is_made_whole_or_not_at_all(&rt, pattern, &EACH_KIND_HAS_ONE)?;
        is_made_whole_or_not_at_all(&rt, pattern, &ALL_LEAVE)?;
    }
    Ok(())
}

/// With this many slots, no memory holds a service of this pattern.
fn no_memory_holds(
    rt: &impl Abort,
    alloc: Global,
    pattern: &Pattern,
    capacities: (usize, usize, usize),
) {
    let made = service(alloc, pattern.kind, capacities).is_ok();
    let made_by_tickets = service_by_tickets(alloc, pattern.kind, capacities, 1).is_ok();
    assert_eq!(rt; (made, made_by_tickets), (false, false));
}

/// Whichever of the three kinds of slots finds no memory, there is no service.
#[test]
fn places_that_no_memory_holds(rt: HostRuntime) {
    let most = usize::MAX;
    for pattern in &PATTERNS {
        for capacities in [(most, 1, 1), (1, most, 1), (1, 1, most)] {
            no_memory_holds(&rt, rt.alloc(), pattern, capacities);
        }
    }
}

/// How many publishers new ports of publish-subscribe have, with four slots for either kind.
pub(super) fn publishers(alloc: Global) -> Result<usize, AllocError> {
    let settings = publish_subscribe::DynamicConfigSettings {
        number_of_publishers: 4,
        number_of_subscribers: 4,
    };
    Ok(publish_subscribe::DynamicConfig::new(alloc, &settings, 7)?.number_of_publishers())
}

/// How many listeners new ports of event have, with four slots for either kind.
pub(super) fn listeners(alloc: Global) -> Result<usize, AllocError> {
    let settings = event::DynamicConfigSettings {
        number_of_listeners: 4,
        number_of_notifiers: 4,
    };
    Ok(event::DynamicConfig::new(alloc, &settings, 7)?.number_of_listeners())
}

/// How many servers new ports of request-response have, with four slots for either kind.
pub(super) fn servers(alloc: Global) -> Result<usize, AllocError> {
    let settings = request_response::DynamicConfigSettings {
        number_of_servers: 4,
        number_of_clients: 4,
    };
    Ok(request_response::DynamicConfig::new(alloc, &settings, 7)?.number_of_servers())
}

/// How many readers new ports of blackboard have, with four slots for either kind.
pub(super) fn readers(alloc: Global) -> Result<usize, AllocError> {
    let settings = blackboard::DynamicConfigSettings {
        number_of_readers: 4,
        number_of_writers: 4,
    };
    Ok(blackboard::DynamicConfig::new(alloc, &settings, 7)?.number_of_readers())
}

/// Each pattern's own maker.
#[test]
fn the_ports_of_each_pattern_are_made(rt: HostRuntime) {
    let alloc = rt.alloc();
    for count in [
        publishers(alloc),
        listeners(alloc),
        servers(alloc),
        readers(alloc),
    ] {
        assert!(rt; count == Ok(0) || (count == Err(AllocError) && may_be_refused(&rt)));
    }
}
