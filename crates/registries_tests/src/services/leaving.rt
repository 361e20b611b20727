//! Nodes that leave.
use super::patterns::*;
use super::rows::{Handle, Row, each_pattern_answers};
use crate::nodes::{A, ONE_OF_FIVE, TWO_OF_FIVE};
use iox2_dynamic::dynamic_config::*;
use std::test::Fail;

/// A node with two handles, of which the last is kept by a port of this kind.
fn the_last_handle_is_kept(kind: Kind) -> [Row<'static>; 10] {
    [
        Row::Register(A, Ok(Handle(7, Kind::Node, 0, 0))),
        Row::Register(A, Ok(Handle(7, Kind::Node, 1, 1))),
        Row::Attach(kind, 9, A, Ok(Handle(7, kind, 0, 0))),
        Row::Deregister(Handle(7, Kind::Node, 0, 0), Ok(true)),
        Row::Deregister(
            Handle(7, Kind::Node, 1, 1),
            Err(DeregisterError::PortsStillAttached),
        ),
        Row::Deregister(
            Handle(7, Kind::Node, 0, 0),
            Err(DeregisterError::ContainerHandleNotOwnedByContainer),
        ),
        Row::Release(Handle(7, kind, 0, 0), Ok(())),
        Row::Deregister(Handle(7, Kind::Node, 1, 1), Ok(false)),
        Row::Attach(kind, 9, A, Err(AttachError::ServiceIsLocked)),
        Row::Register(A, Err(RegisterNodeResult::MarkedForDestruction)),
    ]
}

#[test]
fn a_node_does_not_leave_its_first_ports_behind(rt: HostRuntime) -> Result<(), Fail> {
    each_pattern_answers(
        &rt,
        rt.alloc(),
        (2, 2, 2),
        &the_last_handle_is_kept(Kind::First),
    )
}

#[test]
fn a_node_does_not_leave_its_other_ports_behind(rt: HostRuntime) -> Result<(), Fail> {
    each_pattern_answers(
        &rt,
        rt.alloc(),
        (2, 2, 2),
        &the_last_handle_is_kept(Kind::Second),
    )
}

/// The ports of one node keep no other.
static A_NODE_WITHOUT_PORTS_LEAVES: [Row; 5] = [
    Row::Register(ONE_OF_FIVE, Ok(Handle(7, Kind::Node, 0, 0))),
    Row::Register(TWO_OF_FIVE, Ok(Handle(7, Kind::Node, 1, 1))),
    Row::Attach(
        Kind::First,
        9,
        ONE_OF_FIVE,
        Ok(Handle(7, Kind::First, 0, 0)),
    ),
    Row::Deregister(Handle(7, Kind::Node, 1, 1), Ok(true)),
    Row::Deregister(
        Handle(7, Kind::Node, 0, 0),
        Err(DeregisterError::PortsStillAttached),
    ),
];

#[test]
fn a_node_without_ports_leaves_beside_one_with_ports(rt: HostRuntime) -> Result<(), Fail> {
    each_pattern_answers(&rt, rt.alloc(), (2, 2, 2), &A_NODE_WITHOUT_PORTS_LEAVES)
}
