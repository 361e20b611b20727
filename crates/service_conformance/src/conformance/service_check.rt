//! What a service must hold, by the commands and replies that were seen.
ghost use Rattle.std.specs.Prelude.{◌≡◌, ◌↔◌, ◌-◌, ◌^◌, ◌<◌, ◌||◌, IfNone, IfOk, IfSome, IsTrue, OnErr};
ghost use Rattle.std.specs.List.{list_any};
ghost use Rattle.iox2_dynamic.specs.Ports.{has_ports_of, side_of};
ghost use Rattle.iox2_dynamic.specs.Service.{IsService, capacities_in, entries_of_node, fresh_service};
ghost use Rattle.iox2_dynamic.specs.Steps.{is_last_of_ports};
ghost use Rattle.service_conformance.specs.Dead.{after_dead, ports_after, stays};
ghost use Rattle.service_conformance.specs.Given.{Becomes, GivesNode, GivesNodes, GivesPort};
ghost use Rattle.service_conformance.specs.Given.{GivesPorts};
ghost use Rattle.service_conformance.specs.Quiet.{ports_at_rest, quiet};
ghost use Rattle.service_conformance.specs.Sides.{HasPart, LacksPart, ports_at};
ghost use Rattle.service_conformance.specs.Entries.{service_hash};

mod following;
mod replies_possible;

use super::possible::Part;
use super::registry_check::RegistryCheck;
use iox2_config::hash::PatternKind;
use iox2_container::container::Role;
use iox2_dynamic::dynamic_config::{MessagingPatternSettings, PortDetails, PortRoles};
use iox2_ids::identifiers::UniqueNodeId;
use std::alloc::{AllocError, Global};
use std::marker::Model;

/// What a service must hold, by what was seen of it.
#[derive(Drop)]
pub struct ServiceCheck {
    pattern: PatternKind,
    nodes: RegistryCheck<UniqueNodeId>,
    first: RegistryCheck<PortDetails>,
    second: RegistryCheck<PortDetails>,
}

impl Model for ServiceCheck {
    ghost use Rattle.iox2_dynamic.specs.Service.{Service};
    ghost use Rattle.service_conformance.specs.ServiceFields.{service_of, IsSoundService};

    ghost Value = { Service };

    ghost view = { service_of };

    ghost invariant = { IsSoundService };
}

/// Whether one of these ports has the node.
fn has_ports_in(
    first: &RegistryCheck<PortDetails>,
    second: &RegistryCheck<PortDetails>,
    node: &UniqueNodeId,
) -> bool
    ensures { result ≡ has_ports_of node.now (ports_at_rest first.now second.now) }
{
    first.count(node) > 0 || second.count(node) > 0
}

/// Whether one of these ports is one of the dead node that stays.
fn has_left_in(
    first: &RegistryCheck<PortDetails>,
    second: &RegistryCheck<PortDetails>,
    dead: &UniqueNodeId,
    kept: &[u128],
) -> bool
    ensures { result ≡ (list_any (λ e. stays dead.now kept.now e.details) first.now.entries
        || list_any (λ e. stays dead.now kept.now e.details) second.now.entries) }
{
    first.has_left(dead, kept) || second.has_left(dead, kept)
}

impl ServiceCheck {
    /// A new service.
    #[tactic(auto, using(iox2_dynamic::proofs::Keeping::fresh_is_service))]
    pub fn new(
        alloc: Global,
        settings: &MessagingPatternSettings,
        max_nodes: usize,
        number: u64,
    ) -> Self
        ensures new { result ≡ fresh_service (capacities_in settings.now) max_nodes number
            (2 ^ 64 - 1) }
        ensures kept { IsService result }
        ensures rest { quiet result ≡ result }
    {
        let (pattern, first, second) = settings.capacities();
        let roles = pattern.port_roles();
        ServiceCheck {
            pattern,
            nodes: RegistryCheck::new(alloc, number, Role::Node, max_nodes, u64::MAX),
            first: RegistryCheck::new(alloc, number, roles.0, first, u64::MAX),
            second: RegistryCheck::new(alloc, number, roles.1, second, u64::MAX),
        }
    }

    /// A copy.
    pub(super) fn copied(&self, alloc: Global) -> Result<Self, AllocError>
        ensures copy { IfOk result (λ copy. copy ≡ self.now) }
        ensures rest { quiet self.now ≡ self.now }
    {
        Ok(ServiceCheck {
            pattern: self.kind(),
            nodes: self.nodes.copied(alloc)?,
            first: self.first.copied(alloc)?,
            second: self.second.copied(alloc)?,
        })
    }

    /// The number by which the service is found among many: the slots count that are taken.
    pub(super) fn hash(&self) -> u64
        ensures { result ≡ service_hash self.now }
    {
        self.second
            .hash_after(self.first.hash_after(self.nodes.hash_after(0)))
    }

    /// Whether two services hold the same. The pattern says what the roles of the ports do, and is
    /// compared last.
    pub(super) fn same(&self, other: &Self) -> bool
        ensures { IsTrue result ↔ (self.now ≡ other.now) }
    {
        self.nodes.same(&other.nodes)
            && self.first.same(&other.first)
            && self.second.same(&other.second)
            && self.pattern == other.pattern
    }

    /// The ports of one kind.
    fn ports(&self, first: bool) -> &RegistryCheck<PortDetails>
        ensures ports { result.now ≡ (ports_at self.now (side_of first)).registry }
        ensures kept { IsService self.now }
    {
        if first { &self.first } else { &self.second }
    }

    /// Whether some port has the node, and the node has one entry. Most nodes that leave have no
    /// port any more, and then their entries need not be counted.
    #[inline(always)]
    fn is_last_of_ports(&self, node: &UniqueNodeId) -> bool
        ensures { result ≡ is_last_of_ports node.now self.now }
    {
        has_ports_in(&self.first, &self.second, node) && self.nodes.count(node) == 1
    }

    /// The pattern.
    pub(super) fn kind(&self) -> PatternKind
        ensures pattern { result ≡ self.now.pattern }
        ensures kept { IsService self.now }
        ensures rest { quiet self.now ≡ self.now }
    {
        self.pattern
    }

    /// The part that a role names, if the pattern has it.
    pub fn part_of(&self, role: Role) -> Option<Part>
        ensures none { IfNone result (LacksPart self.now.pattern role) }
        ensures some { IfSome result (HasPart self.now.pattern role) }
    {
        if role == Role::Node {
            return Some(Part::Nodes);
        }
        let Some(first) = self.pattern.side(role) else {
            return None;
        };
        Some(Part::of_ports(first))
    }

    /// The nodes.
    fn nodes(&self) -> &RegistryCheck<UniqueNodeId>
        ensures nodes { result.now ≡ self.now.nodes.registry }
        ensures kept { IsService self.now }
    {
        &self.nodes
    }

    /// Whether a port of the dead node is left, where those of these values stay.
    fn has_left(&self, dead: &UniqueNodeId, kept: &[u128]) -> bool
        ensures { result ≡ has_ports_of dead.now (ports_after self.now dead.now kept.now) }
    {
        has_left_in(&self.first, &self.second, dead, kept)
    }

    /// Whether the service is locked once a dead node was removed, where the ports of these values
    /// stay.
    fn locks_without(&self, dead: &UniqueNodeId, kept: &[u128]) -> bool
        ensures locks { result ≡ (after_dead self.now dead.now kept.now).nodes.registry.locked }
        ensures kept { IsService self.now }
    {
        let nodes = self.nodes();
        if self.has_left(dead, kept) {
            return nodes.is_locked();
        }
        nodes.locks_without(dead)
    }

    /// Whether the node is registered.
    fn has_node(&self, node: &UniqueNodeId) -> bool
        ensures yes { IsTrue result → 0 < entries_of_node node.now self.now.nodes.registry }
        ensures no { 0 < entries_of_node node.now self.now.nodes.registry → IsTrue result }
    {
        self.nodes.count(node) > 0
    }

    /// So many tickets of its nodes were used, and it is locked or not. Returns whether it can be
    /// so, of a service of which nothing was given; else nothing changes.
    pub fn give_nodes(&mut self, used: u64, locked: bool) -> bool
        ensures gives { Becomes (GivesNodes self.old used locked) self.old result self.new }
        ensures kept { IsService self.new }
    {
        self.nodes.give_used(used, locked)
    }

    /// So many tickets of its ports of this role were used. Returns whether it can be so, where
    /// nothing was given of them; else nothing changes.
    pub fn give_ports(&mut self, role: Role, used: u64) -> bool
        ensures gives { Becomes (GivesPorts self.old role used) self.old result self.new }
        ensures kept { IsService self.new }
    {
        let Some(first) = self.pattern.side(role) else {
            return false;
        };
        if first {
            return self.first.give_used(used, false);
        }
        self.second.give_used(used, false)
    }

    /// The node has an entry in this slot, behind those that were given, with this ticket. Returns
    /// whether it can be so: the slot is below the capacity, and the ticket one that was used and
    /// that no other entry has. Else, and where memory is refused, nothing changes.
    pub fn give_node(
        &mut self,
        slot: usize,
        ticket: u64,
        id: UniqueNodeId,
    ) -> Result<bool, AllocError>
        ensures gives { IfOk result (λ yes.
            Becomes (GivesNode self.old slot ticket id) self.old yes self.new) }
        ensures err { OnErr result (self.new ≡ self.old) }
        ensures kept { IsService self.new }
    {
        self.nodes.give_entry(slot, ticket, id)
    }

    /// The port stands in this slot, behind those of its role that were given, with this ticket.
    /// Returns whether it can be so: the pattern has the role, the node is registered, the slot is
    /// below the capacity, and the ticket one that was used and that no other port of the role has.
    /// Else, and where memory is refused, nothing changes.
    pub fn give_port(
        &mut self,
        slot: usize,
        ticket: u64,
        details: PortDetails,
    ) -> Result<bool, AllocError>
        ensures gives { IfOk result (λ yes.
            Becomes (GivesPort self.old slot ticket details) self.old yes self.new) }
        ensures err { OnErr result (self.new ≡ self.old) }
        ensures kept { IsService self.new }
    {
        // For the proof: what is true of every check.
        let _pattern = &self.pattern;
        if !self.has_node(&details.node_id()) {
            return Ok(false);
        }
        let Some(first) = self.pattern.side(details.role()) else {
            return Ok(false);
        };
        if first {
            return self.first.give_entry(slot, ticket, details);
        }
        self.second.give_entry(slot, ticket, details)
    }
}
