//! Nodes that die, and what becomes of their ports.
use super::patterns::*;
use super::rows::{Handle, Row, are_answered, each_pattern_answers};
use crate::nodes::{A, ONE_OF_FIVE, TWO_OF_FIVE};
use arrayvec::ArrayVec;
use iox2_dynamic::dynamic_config::*;
use iox2_ids::identifiers::{UniqueNodeId, UniquePortId, UniquePublisherId, UniqueSubscriberId};
use std::test::Fail;

/// A node with two ports of each kind. The callback keeps
/// one port of each, and none when it is asked again.
static A_CALLBACK_IS_ASKED_AGAIN: [Row; 13] = [
    Row::Register(A, Ok(Handle(7, Kind::Node, 0, 0))),
    Row::Attach(Kind::First, 11, A, Ok(Handle(7, Kind::First, 0, 0))),
    Row::Attach(Kind::First, 12, A, Ok(Handle(7, Kind::First, 1, 1))),
    Row::Attach(Kind::Second, 13, A, Ok(Handle(7, Kind::Second, 0, 0))),
    Row::Attach(Kind::Second, 14, A, Ok(Handle(7, Kind::Second, 1, 1))),
    Row::Recover(A, &[12, 13], &[11, 12, 13, 14], true),
    Row::Ports(Kind::First, Some(&[12])),
    Row::Ports(Kind::Second, Some(&[13])),
    Row::Nodes(1),
    Row::Recover(A, &[], &[12, 13], false),
    Row::Ports(Kind::First, Some(&[])),
    Row::Ports(Kind::Second, Some(&[])),
    Row::Nodes(0),
];

#[test]
fn a_callback_sees_each_port_once_and_keeps_two(rt: HostRuntime) -> Result<(), Fail> {
    each_pattern_answers(&rt, rt.alloc(), (2, 2, 2), &A_CALLBACK_IS_ASKED_AGAIN)
}

/// A dead node has ports 10 and 11, and another node of its owner id port 12. The callback keeps
/// port 10, and is not asked about that of the other node.
static ONE_PORT_IS_KEPT: [Row; 12] = [
    Row::Register(ONE_OF_FIVE, Ok(Handle(7, Kind::Node, 0, 0))),
    Row::Register(TWO_OF_FIVE, Ok(Handle(7, Kind::Node, 1, 1))),
    Row::Attach(
        Kind::First,
        10,
        ONE_OF_FIVE,
        Ok(Handle(7, Kind::First, 0, 0)),
    ),
    Row::Attach(
        Kind::Second,
        11,
        ONE_OF_FIVE,
        Ok(Handle(7, Kind::Second, 0, 0)),
    ),
    Row::Attach(
        Kind::First,
        12,
        TWO_OF_FIVE,
        Ok(Handle(7, Kind::First, 1, 1)),
    ),
    Row::Recover(ONE_OF_FIVE, &[10], &[10, 11], true),
    Row::Ports(Kind::First, Some(&[10, 12])),
    Row::Ports(Kind::Second, Some(&[])),
    Row::Nodes(2),
    Row::Recover(ONE_OF_FIVE, &[], &[10], true),
    Row::Recover(TWO_OF_FIVE, &[], &[12], false),
    Row::Attach(
        Kind::First,
        13,
        TWO_OF_FIVE,
        Err(AttachError::ServiceIsLocked),
    ),
];

#[test]
fn a_kept_port_keeps_its_node_and_another_node_stays(rt: HostRuntime) -> Result<(), Fail> {
    each_pattern_answers(&rt, rt.alloc(), (4, 4, 4), &ONE_PORT_IS_KEPT)
}

/// One slot for nodes.
static NO_NODE_IS_RECOVERED: [Row; 2] = [
    Row::Recover(A, &[], &[], true),
    Row::Register(A, Ok(Handle(7, Kind::Node, 0, 0))),
];

/// No slot for nodes.
static NO_NODE_FITS: [Row; 2] = [
    Row::Register(A, Err(RegisterNodeResult::ExceedsMaxNumberOfNodes)),
    Row::Recover(A, &[], &[], true),
];

#[test]
fn a_node_that_was_never_registered_locks_nothing(rt: HostRuntime) -> Result<(), Fail> {
    each_pattern_answers(&rt, rt.alloc(), (1, 2, 2), &NO_NODE_IS_RECOVERED)?;
    each_pattern_answers(&rt, rt.alloc(), (0, 2, 2), &NO_NODE_FITS)
}

/// Both handles of a node go at once, and with the last node the service closes.
static ALL_HANDLES_GO: [Row; 6] = [
    Row::Register(A, Ok(Handle(7, Kind::Node, 0, 0))),
    Row::Register(A, Ok(Handle(7, Kind::Node, 1, 1))),
    Row::Attach(Kind::First, 9, A, Ok(Handle(7, Kind::First, 0, 0))),
    Row::Recover(A, &[], &[9], false),
    Row::Attach(Kind::First, 9, A, Err(AttachError::ServiceIsLocked)),
    Row::Register(A, Err(RegisterNodeResult::MarkedForDestruction)),
];

#[test]
fn a_dead_node_leaves_with_all_its_handles(rt: HostRuntime) -> Result<(), Fail> {
    each_pattern_answers(&rt, rt.alloc(), (2, 2, 2), &ALL_HANDLES_GO)
}

/// A publisher and a subscriber of one node.
static ONE_OF_EACH_KIND: [Row; 3] = [
    Row::Register(ONE_OF_FIVE, Ok(Handle(7, Kind::Node, 0, 0))),
    Row::Attach(
        Kind::First,
        10,
        ONE_OF_FIVE,
        Ok(Handle(7, Kind::First, 0, 0)),
    ),
    Row::Attach(
        Kind::Second,
        11,
        ONE_OF_FIVE,
        Ok(Handle(7, Kind::Second, 0, 0)),
    ),
];

/// The ports that the recovery of a dead node asks about, none of which stays, and whether the
/// service still has owners.
#[tactic(auto, using(iox2_dynamic::proofs::Callbacks::callbacks))]
fn recovered(
    service: &mut DynamicConfig,
    dead: &UniqueNodeId,
) -> (ArrayVec<Option<UniquePortId>, 4>, bool) {
    let mut asked = ArrayVec::new();
    let mut clean = |id: UniquePortId| {
        // What is asked about too often shows as one port more.
        let _ = asked.try_push(Some(id));
        PortCleanupAction::RemovePort
    };
    let owned = has_owners(service.remove_dead_node_id(dead, &mut clean));
    (asked, owned)
}

/// The callback sees the publisher and then the subscriber, each by its kind and its whole id.
#[test]
fn a_callback_sees_ports_by_kind_and_id(rt: HostRuntime) -> Result<(), Fail> {
    let mut service = service(rt.alloc(), PUBLISH_SUBSCRIBE.kind, (2, 2, 2))?;
    are_answered(&rt, &mut service, &PUBLISH_SUBSCRIBE, &ONE_OF_EACH_KIND)?;
    let (asked, owned) = recovered(&mut service, &ONE_OF_FIVE.id()?);
    let publisher = UniquePortId::Publisher(UniquePublisherId::new(1, 0, 0, 10));
    let subscriber = UniquePortId::Subscriber(UniqueSubscriberId::new(1, 0, 0, 11));
    assert_eq!(rt;
        (owned, asked.as_slice()),
        (false, [Some(publisher), Some(subscriber)].as_slice())
    );
    Ok(())
}
