//! What a service answers to those who ask before they act.
use super::patterns::*;
use super::rows::{Handle, Row, are_answered, counter_of, each_pattern_answers};
use crate::nodes::{A, Node, ONE_OF_FIVE, TWO_OF_FIVE};
use arrayvec::ArrayVec;
use iox2_container::container::Role;
use iox2_dynamic::dynamic_config::*;
use std::process::Abort;
use std::test::Fail;

/// There is room as long as a slot is left, and none without a lock or with one.
static ROOM_BY_PLACES: [Row; 8] = [
    Row::Room([true, true, true], false),
    Row::Register(A, Ok(Handle(7, Kind::Node, 0, 0))),
    Row::Room([false, true, true], false),
    Row::Attach(Kind::First, 8, A, Ok(Handle(7, Kind::First, 0, 0))),
    Row::Room([false, false, true], false),
    Row::Attach(Kind::Second, 9, A, Ok(Handle(7, Kind::Second, 0, 0))),
    Row::Release(Handle(7, Kind::First, 0, 0), Ok(())),
    Row::Room([false, true, false], false),
];

#[test]
fn room_goes_by_places(rt: HostRuntime) -> Result<(), Fail> {
    each_pattern_answers(&rt, rt.alloc(), (1, 1, 1), &ROOM_BY_PLACES)
}

/// A service that is locked has no room, although slots and tickets are left.
static NO_ROOM_WITH_A_LOCK: [Row; 4] = [
    Row::Room([true, true, true], false),
    Row::Register(A, Ok(Handle(7, Kind::Node, 0, 0))),
    Row::Deregister(Handle(7, Kind::Node, 0, 0), Ok(false)),
    Row::Room([false, false, false], true),
];

#[test]
fn a_locked_service_has_no_room(rt: HostRuntime) -> Result<(), Fail> {
    each_pattern_answers(&rt, rt.alloc(), (2, 2, 2), &NO_ROOM_WITH_A_LOCK)
}

/// Without a ticket there is no room, although slots are left.
static ROOM_BY_TICKETS: [Row; 4] = [
    Row::Register(A, Ok(Handle(7, Kind::Node, 0, 0))),
    Row::Room([false, true, true], false),
    Row::Attach(Kind::Second, 9, A, Ok(Handle(7, Kind::Second, 0, 0))),
    Row::Room([false, true, false], false),
];

#[test]
fn room_goes_by_tickets(rt: HostRuntime) -> Result<(), Fail> {
    for pattern in &PATTERNS {
        let mut service = service_by_tickets(rt.alloc(), pattern.kind, (9, 9, 9), 1)?;
        are_answered(&rt, &mut service, pattern, &ROOM_BY_TICKETS)?;
    }
    Ok(())
}

/// A handle stands for what was given it, by its service, its kind, its
/// slot and its ticket, until that goes.
static HANDLES: [Row; 11] = [
    Row::Register(A, Ok(Handle(7, Kind::Node, 0, 0))),
    Row::Attach(Kind::Second, 9, A, Ok(Handle(7, Kind::Second, 0, 0))),
    Row::StandsFor(Handle(7, Kind::Node, 0, 0), Some(1)),
    Row::StandsFor(Handle(7, Kind::Second, 0, 0), Some(9)),
    Row::StandsFor(Handle(7, Kind::First, 0, 0), None),
    Row::StandsFor(Handle(7, Kind::Other, 0, 0), None),
    Row::StandsFor(Handle(8, Kind::Second, 0, 0), None),
    Row::StandsFor(Handle(7, Kind::Second, 1, 0), None),
    Row::StandsFor(Handle(7, Kind::Second, 0, 1), None),
    Row::Release(Handle(7, Kind::Second, 0, 0), Ok(())),
    Row::StandsFor(Handle(7, Kind::Second, 0, 0), None),
];

#[test]
fn a_handle_stands_for_what_was_given_it(rt: HostRuntime) -> Result<(), Fail> {
    each_pattern_answers(&rt, rt.alloc(), (2, 2, 2), &HANDLES)
}

/// Two nodes that share an owner id, and ports of both of each kind.
static ALL_ARE_ATTACHED: [Row; 6] = [
    Row::Register(ONE_OF_FIVE, Ok(Handle(7, Kind::Node, 0, 0))),
    Row::Register(TWO_OF_FIVE, Ok(Handle(7, Kind::Node, 1, 1))),
    Row::Attach(
        Kind::Second,
        8,
        ONE_OF_FIVE,
        Ok(Handle(7, Kind::Second, 0, 0)),
    ),
    Row::Attach(
        Kind::First,
        9,
        TWO_OF_FIVE,
        Ok(Handle(7, Kind::First, 0, 0)),
    ),
    Row::Attach(
        Kind::First,
        7,
        ONE_OF_FIVE,
        Ok(Handle(7, Kind::First, 1, 1)),
    ),
    Row::Attach(
        Kind::Second,
        6,
        TWO_OF_FIVE,
        Ok(Handle(7, Kind::Second, 1, 1)),
    ),
];

/// The counters of ports. No list here has more.
fn counters(ports: &[PortDetails]) -> ArrayVec<u128, 4> {
    let mut counters = ArrayVec::new();
    for details in ports {
        let _ = counters.try_push(counter_of(details.port_id().value()));
    }
    counters
}

/// Compares the list of nodes.
fn nodes_are(
    rt: &(impl Abort + AllocGlobal),
    service: &DynamicConfig,
    wanted: [Node; 2],
) -> Result<(), Fail> {
    let [first, second] = wanted;
    let nodes = service.nodes(rt.alloc())?;
    assert_eq!(rt; nodes.as_slice(), [first.id()?, second.id()?].as_slice());
    Ok(())
}

/// Compares the list of the ports of a role, which is none where the pattern lacks the role.
fn ports_are(
    rt: &(impl Abort + AllocGlobal),
    service: &DynamicConfig,
    role: Role,
    wanted: Option<&[u128]>,
) -> Result<(), Fail> {
    let ports = service
        .ports(rt.alloc(), role)?
        .map(|ports| counters(&ports));
    assert_eq!(rt; ports.as_ref().map(|counters| counters.as_slice()), wanted);
    Ok(())
}

/// Compares the list of the ports of a node.
fn ports_of_are(
    rt: &(impl Abort + AllocGlobal),
    service: &DynamicConfig,
    node: Node,
    wanted: &[u128],
) -> Result<(), Fail> {
    let ports = service.ports_of(rt.alloc(), &node.id()?)?;
    assert_eq!(rt; counters(&ports).as_slice(), wanted);
    Ok(())
}

/// Compares the lists of a service to which all are attached.
fn all_are_listed(
    rt: &(impl Abort + AllocGlobal),
    service: &DynamicConfig,
    pattern: &Pattern,
) -> Result<(), Fail> {
    nodes_are(rt, service, [ONE_OF_FIVE, TWO_OF_FIVE])?;
    ports_are(rt, service, pattern.first, Some(&[9, 7]))?;
    ports_are(rt, service, pattern.second, Some(&[8, 6]))?;
    ports_are(rt, service, pattern.other, None)?;
    ports_of_are(rt, service, ONE_OF_FIVE, &[7, 8])?;
    ports_of_are(rt, service, A, &[])
}

#[test]
fn who_is_there_is_listed_at_once(rt: HostRuntime) -> Result<(), Fail> {
    for pattern in &PATTERNS {
        let mut service = service(rt.alloc(), pattern.kind, (2, 2, 2))?;
        are_answered(&rt, &mut service, pattern, &ALL_ARE_ATTACHED)?;
        all_are_listed(&rt, &service, pattern)?;
    }
    Ok(())
}

/// Compares the numbers of a service: its own, its nodes,
/// and how many nodes and ports there may be.
fn numbers_are(rt: &impl Abort, service: &DynamicConfig, pattern: &Pattern, nodes: usize) {
    assert_eq!(rt;
        (
            service.service_number(),
            service.number_of_nodes(),
            service.max_nodes()
        ),
        (7, nodes, 5)
    );
    assert_eq!(rt;
        [pattern.first, pattern.second, pattern.other].map(|role| service.max_ports(role)),
        [Some(3), Some(2), None]
    );
}

#[test]
fn a_service_knows_its_numbers(rt: HostRuntime) -> Result<(), Fail> {
    for pattern in &PATTERNS {
        let mut service = service(rt.alloc(), pattern.kind, (5, 3, 2))?;
        numbers_are(&rt, &service, pattern, 0);
        service.register_node_id(A.id()?)?;
        numbers_are(&rt, &service, pattern, 1);
    }
    Ok(())
}

#[test]
fn roles_are_in_the_order_of_recovery(rt: HostRuntime) {
    for pattern in &PATTERNS {
        let (kind, first, second) = (pattern.kind, pattern.first, pattern.second);
        assert_eq!(rt; kind.port_roles(), (first, second));
        let sides = [kind.side(first), kind.side(second), kind.side(Role::Node)];
        assert_eq!(rt; sides, [Some(true), Some(false), None]);
    }
}
