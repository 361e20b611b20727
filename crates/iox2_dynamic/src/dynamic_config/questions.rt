//! Queries of a service.
ghost use Rattle.std.specs.Prelude.{◌≡◌, ◌↔◌, IfOk, IfSome, IsTrue, MatchOption, length, map, vec_capacity};
ghost use Rattle.iox2_container.specs.Steps.{IsUnknownHandle, HasEntry, TakesEntry, listed};
ghost use Rattle.iox2_dynamic.specs.Details.{port_of};
ghost use Rattle.iox2_dynamic.specs.Ports.{IsNoPort, OfRole, StandsAmong};
ghost use Rattle.iox2_dynamic.specs.Ports.{port_ids_of_node, ports_of_node};
ghost use Rattle.iox2_dynamic.specs.Service.{HasRole, IsService, TakesPort};
ghost use Rattle.iox2_dynamic.specs.Service.{first_role, second_role};

use super::pattern::{MessagingPattern, of_any_pattern};
use super::port_details::PortDetails;
use super::service::DynamicConfig;
use iox2_container::container::{ContainerHandle, Registry, Role, entries};
use iox2_ids::identifiers::UniqueNodeId;
use std::alloc::{AllocError, Global};

impl DynamicConfig {
    /// Whether the service is locked: it has no node and no port then, and takes none any more.
    pub fn is_locked(&self) -> bool
        ensures locked { result ≡ self.now.nodes.registry.locked }
        ensures kept { IsService self.now }
    {
        self.nodes.is_locked()
    }

    /// How many handles of nodes there are: a node that is registered twice counts twice.
    pub fn number_of_nodes(&self) -> usize
        ensures count { result ≡ length self.now.nodes.registry.entries }
        ensures kept { IsService self.now }
    {
        self.nodes.len()
    }

    /// How many handles of nodes there may be at a time.
    pub fn max_nodes(&self) -> usize
        ensures capacity { result ≡ self.now.nodes.registry.capacity }
        ensures kept { IsService self.now }
    {
        self.nodes.capacity()
    }

    /// The number of the service, which each of its handles has.
    pub fn service_number(&self) -> u64
        ensures number { result ≡ self.now.nodes.registry.service }
        ensures kept { IsService self.now }
    {
        self.nodes.service()
    }

    /// How many ports of the role there may be at a
    /// time; `None` where the pattern has no such ports.
    pub fn max_ports(&self, role: Role) -> Option<usize>
        ensures capacity { OfRole (λ r n. n ≡ r.capacity) (first_role self.now.pattern)
            (second_role self.now.pattern) self.now.ports role result }
        ensures kept { IsService self.now }
    {
        of_any_pattern!(&self.pattern, ports => ports.capacity(role))
    }

    /// Whether `register_node_id` would register a node: the service is not locked, and a slot and
    /// a ticket are left.
    pub fn has_room_for_node(&self) -> bool
        ensures room { IsTrue result ↔ TakesEntry self.now.nodes.registry }
        ensures kept { IsService self.now }
    {
        self.nodes.has_room()
    }

    /// Whether `attach` would attach a port of the role, if its node is registered: the service is
    /// not locked, and a slot and a ticket are left for such ports. The role is one of the
    /// pattern's, as `has_role` says.
    pub fn has_room(&self, role: Role) -> bool
        requires { HasRole self.now.pattern role }
        ensures room { IsTrue result ↔ TakesPort self.now role }
        ensures kept { IsService self.now }
    {
        !self.nodes.is_locked() && self.pattern.has_room(role)
    }

    /// The node that was registered with this handle and
    /// is still there; `None` for each other handle.
    pub fn node(&self, handle: ContainerHandle) -> Option<UniqueNodeId>
        ensures node { MatchOption result (IsUnknownHandle self.now.nodes.registry handle)
            (HasEntry self.now.nodes.registry handle) }
        ensures kept { IsService self.now }
    {
        self.nodes.get(handle)
    }

    /// The port that was attached with this handle and is still there; `None` for each other
    /// handle, a node's too.
    pub fn port(&self, handle: ContainerHandle) -> Option<PortDetails>
        ensures port { MatchOption result (IsNoPort self.now.ports handle)
            (StandsAmong self.now.ports handle) }
        ensures kept { IsService self.now }
    {
        of_any_pattern!(&self.pattern, ports => ports.get(handle))
    }

    /// The ids of the nodes by rising slot, one for each handle. The list has capacity for exactly
    /// them; refused where there is no memory for it.
    pub fn nodes(&self, alloc: Global) -> Result<Vec<UniqueNodeId>, AllocError>
        ensures listed { IfOk result (λ ids. ids.items ≡ listed self.now.nodes.registry) }
        ensures exact { IfOk result (λ ids. vec_capacity ids ≡ length ids.items) }
        ensures kept { IsService self.now }
    {
        entries(alloc, &self.nodes)
    }

    /// The ports of the role by rising slot; `None` where the pattern has no such ports. The list
    /// has capacity for exactly them; refused where there is no memory for it.
    pub fn ports(&self, alloc: Global, role: Role) -> Result<Option<Vec<PortDetails>>, AllocError>
        ensures listed { IfOk result (OfRole (λ r list. list.items ≡ listed r)
            (first_role self.now.pattern) (second_role self.now.pattern) self.now.ports role) }
        ensures exact { IfOk result (λ found.
            IfSome found (λ list. vec_capacity list ≡ length list.items)) }
        ensures kept { IsService self.now }
    {
        of_any_pattern!(&self.pattern, ports => ports.ports(alloc, role))
    }

    /// The ports of the node, by its whole id, in the order of `remove_dead_node_id`: those of the
    /// pattern's first kind before those of its second, each kind by rising slot. The list has
    /// capacity for exactly them; refused where there is no memory for it.
    pub fn ports_of(
        &self,
        alloc: Global,
        node: &UniqueNodeId,
    ) -> Result<Vec<PortDetails>, AllocError>
        ensures listed { IfOk result (λ ports.
            ports.items ≡ ports_of_node node.now self.now.ports) }
        ensures ids { IfOk result (λ ports.
            map port_of ports.items ≡ port_ids_of_node node.now self.now.ports) }
        ensures exact { IfOk result (λ ports. vec_capacity ports ≡ length ports.items) }
        ensures kept { IsService self.now }
    {
        of_any_pattern!(&self.pattern, ports => ports.ports_of(alloc, node))
    }
}
