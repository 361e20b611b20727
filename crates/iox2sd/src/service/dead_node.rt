//! The removal of dead nodes.
ghost use Rattle.std.specs.Prelude.{◌≡◌, All};
ghost use Rattle.iox2_dynamic.specs.Steps.{DeadStep};
ghost use Rattle.iox2sd.specs.Answers.{removal_answer};
ghost use Rattle.iox2sd.specs.DeadNodes.{action_for, counted, Keeps, RemovesNode, Went, port_role};
ghost use Rattle.iox2sd.specs.Objects.{IsSoundObject, At};
ghost use Rattle.iox2sd.specs.declared.values.NodeRemoval.TheVariants as removal;

use super::Service;
use super::kept::{Kept, are_ports};
use super::roles::Counts;
use crate::values::{DeadNodeRemoval, NodeRemoval, PortId};
use iox2_dynamic::dynamic_config::{DeregisterNodeState, DynamicConfig, PortCleanupAction};
use iox2_ids::identifiers::{UniqueNodeId, UniquePortId};
use iox2sd_common::id::Id;
use iox2sd_common::status::Status;

/// The number of the role of a port's id.
fn port_role(port: &UniquePortId) -> u64
    ensures { result ≡ port_role port.now }
{
    match port {
        UniquePortId::Publisher(_) => 1,
        UniquePortId::Subscriber(_) => 2,
        UniquePortId::Notifier(_) => 3,
        UniquePortId::Listener(_) => 4,
        UniquePortId::Client(_) => 5,
        UniquePortId::Server(_) => 6,
        UniquePortId::Reader(_) => 7,
        UniquePortId::Writer(_) => 8,
    }
}

/// The answer on a port, where these ports stay.
fn answer(kept: &Kept<'_>, port: &UniquePortId) -> PortCleanupAction
    ensures { result ≡ action_for kept.now port.now }
{
    if kept.has(port_role(port), port.value()) {
        PortCleanupAction::SkipPort
    } else {
        PortCleanupAction::RemovePort
    }
}

/// Removes a dead node, and those of its ports that are not kept.
#[tactic(auto, using(iox2_dynamic::proofs::Callbacks::callbacks))]
fn clean_up(
    service: &mut DynamicConfig,
    dead: &UniqueNodeId,
    kept: &[PortId],
) -> DeregisterNodeState
    ensures { DeadStep (Keeps kept.now) service.old tt dead.now result service.new tt }
{
    let kept = &Kept::of(kept);
    let mut answers = move |port: UniquePortId| -> PortCleanupAction
        ensures first { result ≡ action_for kept.entry.now port }
        ensures same { kept.exit.now ≡ kept.entry.now }
    { answer(kept, &port) };
    service.remove_dead_node_id(dead, &mut answers)
}

/// The same, and how many ports went.
fn count_gone(
    service: &mut DynamicConfig,
    dead: &UniqueNodeId,
    kept: &[PortId],
) -> (DeregisterNodeState, Counts)
    ensures step { DeadStep (Keeps kept.now) service.old tt dead.now result.0 service.new tt }
    ensures went { Went (counted service.old) result.1 (counted service.new) }
{
    let before = Counts::of(service);
    let state = clean_up(service, dead, kept);
    let after = Counts::of(service);
    let gone = Counts {
        first: before.first - after.first,
        second: before.second - after.second,
    };
    (state, gone)
}

/// Removes a dead node of these parts, and those of its ports that are not kept.
fn remove_dead(service: &mut DynamicConfig, dead: Id, kept: &[PortId]) -> NodeRemoval
    ensures { RemovesNode dead kept.now service.old result service.new }
{
    let Some(dead) = dead.of_node() else {
        return NodeRemoval::Refused(Status::NoNode);
    };
    if !are_ports(kept) {
        return NodeRemoval::Refused(Status::UnknownRole);
    }
    let (state, gone) = count_gone(service, &dead, kept);
    match state {
        DeregisterNodeState::HasOwners => NodeRemoval::Open(gone),
        DeregisterNodeState::NoMoreOwners => NodeRemoval::Locked(gone),
    }
}

/// Removes those ports of a dead node that are not among `kept`, by their kinds and their ids, and
/// returns how many it removed. Where none of its ports is left, the node is removed too, with all
/// its handles; if it was the last one, the service is locked for good. The status reports a locked
/// service also where it was locked before.
///
/// Errors, in this order: NULL, an object without a service, an id of no node, a role of `kept`
/// that is not that of a port.
#[unsafe(no_mangle)]
pub extern "C" fn iox2sd_remove_dead_node_id_at(
    objects: &mut [Service],
    dead: Id,
    kept: &[PortId],
) -> DeadNodeRemoval
    requires { All IsSoundObject objects.old }
    ensures { At removal_answer removal.Refused (RemovesNode dead kept.now)
        objects.old result objects.new }
{
    let service = lent_or_return!(objects, status =>
        DeadNodeRemoval::of(NodeRemoval::Refused(status)));
    DeadNodeRemoval::of(remove_dead(service, dead, kept))
}
