//! A liveness monitor: takes dead nodes out of a service.
ghost use Rattle.std.specs.Prelude.{◌≡◌, [], ◌∷◌, MatchOption};
ghost use Rattle.iox2_container.specs.Steps.{release_state};
ghost use Rattle.iox2_dynamic.specs.Steps.{state_of};
ghost use Rattle.service_examples.specs.Removal.{OnlyOthersStay};

use iox2_dynamic::dynamic_config::{DeregisterNodeState, DynamicConfig, PortCleanupAction};
use iox2_ids::identifiers::{UniqueNodeId, UniquePortId};

/// Removes all ports and all entries of the dead nodes, and nothing else. Where the last node of
/// the service is among them, the service is locked for good.
///
/// Says whether the service has nodes left or may have some again, or `None` where no node is dead.
pub fn remove_dead_nodes(
    service: &mut DynamicConfig,
    dead: &[UniqueNodeId],
) -> Option<DeregisterNodeState>
    ensures removed { OnlyOthersStay dead.now service.old service.new }
    ensures reported { MatchOption result (dead.now ≡ [])
        (λ state. state_of state ≡ release_state service.new.nodes.registry.locked) }
{
    let mut reported = None;
    for id in dead {
        reported = Some(remove_dead_node(service, id));
    }
    reported
}

/// Removes all ports and all entries of one dead node, and says whether the service has nodes left
/// or may have some again.
fn remove_dead_node(service: &mut DynamicConfig, dead: &UniqueNodeId) -> DeregisterNodeState
    ensures removed { OnlyOthersStay (dead.now ∷ []) service.old service.new }
    ensures reported { state_of result ≡ release_state service.new.nodes.registry.locked }
{
    let mut remove = |_port: UniquePortId| -> PortCleanupAction
        ensures { result ≡ PortCleanupAction.RemovePort }
    { PortCleanupAction::RemovePort };
    service.remove_dead_node_id(dead, &mut remove)
}
