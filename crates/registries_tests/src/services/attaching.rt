//! Ports that come.
use super::patterns::*;
use super::rows::{Handle, NOT_A_PORT, Row, are_answered, each_pattern_answers};
use crate::nodes::{A, B, C, ONE_OF_FIVE, TWO_OF_FIVE};
use iox2_dynamic::dynamic_config::*;
use std::alloc::Global;
use std::process::Abort;
use std::test::Fail;

/// One slot for nodes, and none for the first ports.
static A_NODE_COMES_AND_GOES: [Row; 5] = [
    Row::Attach(Kind::First, 9, A, Err(AttachError::NodeNotRegistered)),
    Row::Register(A, Ok(Handle(7, Kind::Node, 0, 0))),
    Row::Attach(Kind::First, 9, A, Err(AttachError::OutOfSpace)),
    Row::Deregister(Handle(7, Kind::Node, 0, 0), Ok(false)),
    Row::Attach(Kind::First, 9, A, Err(AttachError::ServiceIsLocked)),
];

#[test]
fn ports_want_a_registered_node_of_an_unlocked_service(rt: HostRuntime) -> Result<(), Fail> {
    each_pattern_answers(&rt, rt.alloc(), (1, 0, 2), &A_NODE_COMES_AND_GOES)
}

/// One slot for the first ports and two for the others.
static A_PLACE_IS_USED_AGAIN: [Row; 11] = [
    Row::Register(A, Ok(Handle(7, Kind::Node, 0, 0))),
    Row::Attach(Kind::First, 7, A, Ok(Handle(7, Kind::First, 0, 0))),
    Row::Attach(Kind::First, 8, A, Err(AttachError::OutOfSpace)),
    Row::Attach(Kind::Second, 9, A, Ok(Handle(7, Kind::Second, 0, 0))),
    Row::Release(Handle(7, Kind::First, 0, 0), Ok(())),
    Row::Attach(Kind::First, 8, A, Ok(Handle(7, Kind::First, 0, 1))),
    Row::Release(Handle(7, Kind::First, 0, 0), NOT_A_PORT),
    Row::Ports(Kind::First, Some(&[8])),
    Row::Ports(Kind::Second, Some(&[9])),
    Row::Ports(Kind::Other, None),
    Row::Ports(Kind::Node, None),
];

#[test]
fn a_place_is_taken_again_by_a_new_handle(rt: HostRuntime) -> Result<(), Fail> {
    each_pattern_answers(&rt, rt.alloc(), (2, 1, 2), &A_PLACE_IS_USED_AGAIN)
}

/// One of two nodes that share an owner id.
static ONE_OF_AN_OWNER_IS_REGISTERED: [Row; 3] = [
    Row::Register(ONE_OF_FIVE, Ok(Handle(7, Kind::Node, 0, 0))),
    Row::Attach(
        Kind::First,
        9,
        TWO_OF_FIVE,
        Err(AttachError::NodeNotRegistered),
    ),
    Row::Attach(
        Kind::Second,
        9,
        ONE_OF_FIVE,
        Ok(Handle(7, Kind::Second, 0, 0)),
    ),
];

#[test]
fn another_node_of_the_same_owner_id_is_not_registered(rt: HostRuntime) -> Result<(), Fail> {
    let (registered, other) = (ONE_OF_FIVE.id()?, TWO_OF_FIVE.id()?);
    assert_eq!(rt; registered.owner_id(), other.owner_id());
    each_pattern_answers(&rt, rt.alloc(), (2, 2, 2), &ONE_OF_AN_OWNER_IS_REGISTERED)
}

/// Two tickets of each kind.
static TWO_TICKETS_ARE_USED: [Row; 7] = [
    Row::Register(A, Ok(Handle(7, Kind::Node, 0, 0))),
    Row::Register(B, Ok(Handle(7, Kind::Node, 1, 1))),
    Row::Deregister(Handle(7, Kind::Node, 1, 1), Ok(true)),
    Row::Register(C, Err(RegisterNodeResult::ExceedsMaxNumberOfNodes)),
    Row::Attach(Kind::First, 9, A, Ok(Handle(7, Kind::First, 0, 0))),
    Row::Attach(Kind::First, 10, A, Ok(Handle(7, Kind::First, 1, 1))),
    Row::Attach(Kind::First, 11, A, Err(AttachError::OutOfSpace)),
];

static NO_TICKET_IS_LEFT: [Row; 1] = [Row::Register(
    A,
    Err(RegisterNodeResult::ExceedsMaxNumberOfNodes),
)];

/// Makes the calls of the rows on a new service of each pattern,
/// with three slots of each kind and this many tickets.
fn each_pattern_answers_by_tickets(
    rt: &impl Abort,
    alloc: Global,
    tickets: u64,
    rows: &[Row],
) -> Result<(), Fail> {
    for pattern in &PATTERNS {
        let mut service = service_by_tickets(alloc, pattern.kind, (3, 3, 3), tickets)?;
        are_answered(rt, &mut service, pattern, rows)?;
    }
    Ok(())
}

#[test]
fn tickets_run_out(rt: HostRuntime) -> Result<(), Fail> {
    each_pattern_answers_by_tickets(&rt, rt.alloc(), 2, &TWO_TICKETS_ARE_USED)?;
    each_pattern_answers_by_tickets(&rt, rt.alloc(), 0, &NO_TICKET_IS_LEFT)
}
