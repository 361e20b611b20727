//! Handles that do not belong.
use super::patterns::*;
use super::rows::{Handle, NOT_A_PORT, Row, each_pattern_answers};
use crate::nodes::A;
use iox2_dynamic::dynamic_config::*;
use std::test::Fail;

const NOT_A_NODE: Result<bool, DeregisterError> = Err(
    DeregisterError::ContainerHandleNotOwnedByContainer,
);

/// Registers the node twice and attaches two ports of it, and takes the first of either out again.
/// With a node and a port left in slot 1 with ticket 1, neither kind has the handles that differ in
/// one part, the stale one of slot 0, or that of the other kind.
static STRANGERS_ARE_REFUSED: [Row; 22] = [
    Row::Register(A, Ok(Handle(7, Kind::Node, 0, 0))),
    Row::Register(A, Ok(Handle(7, Kind::Node, 1, 1))),
    Row::Attach(Kind::First, 8, A, Ok(Handle(7, Kind::First, 0, 0))),
    Row::Attach(Kind::First, 9, A, Ok(Handle(7, Kind::First, 1, 1))),
    Row::Deregister(Handle(7, Kind::Node, 0, 0), Ok(true)),
    Row::Release(Handle(7, Kind::First, 0, 0), Ok(())),
    Row::Deregister(Handle(8, Kind::Node, 1, 1), NOT_A_NODE),
    Row::Deregister(Handle(7, Kind::Node, 2, 1), NOT_A_NODE),
    Row::Deregister(Handle(7, Kind::Node, usize::MAX, 1), NOT_A_NODE),
    Row::Deregister(Handle(7, Kind::Node, 1, u64::MAX), NOT_A_NODE),
    Row::Deregister(Handle(7, Kind::Node, 0, 0), NOT_A_NODE),
    Row::Deregister(Handle(7, Kind::First, 1, 1), NOT_A_NODE),
    Row::Release(Handle(8, Kind::First, 1, 1), NOT_A_PORT),
    Row::Release(Handle(7, Kind::Second, 1, 1), NOT_A_PORT),
    Row::Release(Handle(7, Kind::Other, 1, 1), NOT_A_PORT),
    Row::Release(Handle(7, Kind::First, 2, 1), NOT_A_PORT),
    Row::Release(Handle(7, Kind::First, usize::MAX, 1), NOT_A_PORT),
    Row::Release(Handle(7, Kind::First, 1, u64::MAX), NOT_A_PORT),
    Row::Release(Handle(7, Kind::First, 0, 0), NOT_A_PORT),
    Row::Release(Handle(7, Kind::Node, 1, 1), NOT_A_PORT),
    Row::Release(Handle(7, Kind::First, 1, 1), Ok(())),
    Row::Deregister(Handle(7, Kind::Node, 1, 1), Ok(false)),
];

#[test]
fn handles_that_do_not_belong_change_nothing(rt: HostRuntime) -> Result<(), Fail> {
    each_pattern_answers(&rt, rt.alloc(), (2, 2, 2), &STRANGERS_ARE_REFUSED)
}
