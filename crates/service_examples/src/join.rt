//! Joining a service: a node comes with its first port, or nobody does.
ghost use Rattle.std.specs.Prelude.{IfErr, IfOk, OnErr};
ghost use Rattle.service_examples.specs.Joining.{CanJoin, JoinStep, MayJoin, RefusesToJoin};

use iox2_container::container::ContainerHandle;
use iox2_dynamic::dynamic_config::{DynamicConfig, PortDetails};
use iox2_ids::identifiers::UniqueNodeId;

/// A node that joined a service, and its port.
#[derive(Clone, Copy, Debug, PartialEq, Eq)]
pub struct Joined {
    /// The handle of the node.
    pub node: ContainerHandle,
    /// The handle of the port.
    pub port: ContainerHandle,
}

/// Why a node did not join. The first cause is reported, and nothing has changed.
#[derive(Clone, Copy, Debug, PartialEq, Eq)]
pub enum JoinError {
    /// The service's pattern has no ports of this role.
    NoSuchRole,
    /// The port belongs to another node.
    PortOfAnotherNode,
    /// The service is locked for good, since its last node left.
    ServiceIsLocked,
    /// There are as many nodes as there may be, or every ticket for nodes is used.
    NoRoomForNode,
    /// There are as many ports of this role as there may be, or every ticket for them is used.
    NoRoomForPort,
}

/// Registers the node and attaches this port of it, or changes nothing at all.
///
/// It checks first: a registration that is undone, since the port cannot be attached, would lock
/// for good a service that has no other node.
pub fn join(
    service: &mut DynamicConfig,
    node: UniqueNodeId,
    port: PortDetails,
) -> Result<Joined, JoinError>
    ensures step { JoinStep service.old node port result service.new }
    ensures exact { OnErr result (¬ CanJoin service.old node port) }
{
    check_can_join(service, node, &port)?;
    let Ok(node) = service.register_node_id(node) else {
        unreachable!();
    };
    let Ok(port) = service.attach(port) else {
        unreachable!();
    };
    Ok(Joined { node, port })
}

/// Whether the node may join with this port, or the first cause for which it may not.
fn check_can_join(
    service: &DynamicConfig,
    node: UniqueNodeId,
    port: &PortDetails,
) -> Result<(), JoinError>
    ensures free { IfOk result (λ _. MayJoin service.now node port.now) }
    ensures cause { IfErr result (RefusesToJoin service.now node port.now) }
{
    if !service.has_role(port.role()) {
        return Err(JoinError::NoSuchRole);
    }
    if port.node_id() != node {
        return Err(JoinError::PortOfAnotherNode);
    }
    if service.is_locked() {
        return Err(JoinError::ServiceIsLocked);
    }
    if !service.has_room_for_node() {
        return Err(JoinError::NoRoomForNode);
    }
    if !service.has_room(port.role()) {
        return Err(JoinError::NoRoomForPort);
    }
    Ok(())
}
