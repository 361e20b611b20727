//! The results of the calls on a service, and of the callback of one of them.
ghost use Rattle.std.specs.Prelude.{◌≡◌};
ghost use Rattle.iox2_dynamic.specs.Steps.{state_of};

use iox2_container::container::ReleaseState;

/// Why a node was not registered.
#[derive(Clone, Copy, Debug, PartialEq, Eq)]
pub enum RegisterNodeResult {
    /// The service is locked for good, since its last node left.
    MarkedForDestruction,
    /// There are as many nodes as there may be, or every ticket is used.
    ExceedsMaxNumberOfNodes,
}

/// Whether a service still has nodes, or may have some again.
#[derive(Clone, Copy, PartialEq, Eq)]
pub enum DeregisterNodeState {
    /// The service is not locked.
    HasOwners,
    /// The last node left: the service is locked for good.
    NoMoreOwners,
}

impl DeregisterNodeState {
    /// Whether the nodes are locked now, as a deregistering reports it.
    pub(super) fn of(state: ReleaseState) -> Self
        ensures { state ≡ state_of result }
    {
        match state {
            ReleaseState::Unlocked => Self::HasOwners,
            ReleaseState::Locked => Self::NoMoreOwners,
        }
    }
}

/// Why a node was not deregistered.
#[derive(Clone, Copy, Debug, PartialEq, Eq)]
pub enum DeregisterError {
    /// No node of the service has this handle. This is reported first.
    ContainerHandleNotOwnedByContainer,
    /// The handle is the only one of its node, and some port has that node.
    PortsStillAttached,
}

/// Why a port was not attached. The first cause is reported.
#[derive(Clone, Copy, Debug, PartialEq, Eq)]
pub enum AttachError {
    /// The service is locked for good, since its last node left.
    ServiceIsLocked,
    /// The port's node is not registered.
    NodeNotRegistered,
    /// There are as many ports of this kind as there may be, or every ticket is used.
    OutOfSpace,
}

/// What becomes of a port whose node is dead.
#[derive(Clone, Copy, Debug, PartialEq, Eq)]
pub enum PortCleanupAction {
    /// It is removed.
    RemovePort,
    /// It stays, and so does its node.
    SkipPort,
}
