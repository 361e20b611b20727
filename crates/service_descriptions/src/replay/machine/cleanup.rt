//! Recoveries with the decisions of a cleanup.
ghost use Rattle.std.specs.Prelude.{◌≡◌, ◌==◌};
ghost use Rattle.std.specs.List.{list_any};
ghost use Rattle.iox2_dynamic.specs.Service.{IsService};
ghost use Rattle.iox2_ids.specs.PortId.{port_value};
ghost use Rattle.service_descriptions.specs.Steps.{CleanedUp, action_for, first_action};
ghost use Rattle.service_descriptions.specs.Steps.{other_actions};
ghost use Rattle.service_descriptions.specs.declared.replay.machine.command.Cleanup.TheVariants as cleanups;

use iox2_dynamic::dynamic_config::{DeregisterNodeState, DynamicConfig, PortCleanupAction};
use iox2_ids::identifiers::{UniqueNodeId, UniquePortId};
use std::marker::Model;

/// The values of ids, of which it is known whether they are sorted.
#[derive(Drop)]
struct Kept<'a> {
    values: &'a [u128],
    is_sorted: bool,
}

impl<'a> Model for Kept<'a> {
    ghost use Rattle.std.specs.Prelude.{ℕ, List, IsTrue};
    ghost use Rattle.std.specs.List.Sorted.{IsNonDecreasing};

    ghost Value = { List ℕ };

    ghost view = { λ kept. kept.values.now };

    ghost invariant = { λ kept. IsTrue kept.is_sorted → IsNonDecreasing kept.values.now };
}

impl Kept<'_> {
    /// These values. Whether they are sorted is looked at once.
    fn of(values: &[u128]) -> Kept<'_>
        ensures { result ≡ values.now }
    {
        Kept {
            values,
            is_sorted: values.is_sorted(),
        }
    }

    /// Whether this is one of the values: sorted ones are looked up by halves.
    fn has(&self, value: u128) -> bool
        ensures { result ≡ list_any (λ k. k == value) self.now }
    {
        if self.is_sorted {
            self.values.binary_search(&value).is_ok()
        } else {
            self.values.contains(&value)
        }
    }
}

/// Removes a dead node, with decisions in order.
#[inline(always)]
#[tactic(auto, using(iox2_dynamic::proofs::Callbacks::callbacks))]
pub(super) fn by_order(
    service: &mut DynamicConfig,
    dead: &UniqueNodeId,
    actions: &Vec<PortCleanupAction>,
) -> DeregisterNodeState
    ensures cleaned { CleanedUp service.old dead.now
        (cleanups.ByOrder actions.now) result service.new }
    ensures kept { IsService service.new }
{
    let mut left = actions.as_slice();
    let mut answer = move |_port: UniquePortId| -> PortCleanupAction
        ensures first { result ≡ first_action left.entry.now }
        ensures rest { left.exit.now ≡ other_actions left.entry.now }
    {
        match left.split_first() {
            Some((action, rest)) => {
                left = rest;
                *action
            }
            None => PortCleanupAction::RemovePort,
        }
    };
    service.remove_dead_node_id(dead, &mut answer)
}

/// Removes a dead node, with decisions by the value of the port.
#[inline(always)]
#[tactic(auto, using(iox2_dynamic::proofs::Callbacks::callbacks))]
pub(super) fn by_port(
    service: &mut DynamicConfig,
    dead: &UniqueNodeId,
    kept: &Vec<u128>,
) -> DeregisterNodeState
    ensures cleaned { CleanedUp service.old dead.now (cleanups.ByPort kept.now) result service.new }
    ensures kept { IsService service.new }
{
    let kept = &Kept::of(kept.as_slice());
    let mut answer = move |port: UniquePortId| -> PortCleanupAction
        ensures first { result ≡ action_for kept.entry.now (port_value port) }
        ensures same { kept.exit.now ≡ kept.entry.now }
    {
        if kept.has(port.value()) {
            PortCleanupAction::SkipPort
        } else {
            PortCleanupAction::RemovePort
        }
    };
    service.remove_dead_node_id(dead, &mut answer)
}
