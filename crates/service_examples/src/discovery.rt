//! Discovery: who is attached to a service.
ghost use Rattle.std.specs.Prelude.{◌≡◌, ◌+◌, ◌≤◌, ◌<◌, ◌^◌, [], ◌∷◌, IfOk, OnOk, OnErr};
ghost use Rattle.std.specs.Prelude.{length, max, vec_capacity, vec_len};
ghost use Rattle.iox2_dynamic.specs.Service.{first_role, second_role};
ghost use Rattle.service_examples.specs.Members.{Appends, IsRoster, members_of, nodes_in, ports_in};
ghost use Rattle.service_examples.specs.Members.{node_of_member};

use crate::census::take_census;
use iox2_container::container::Role;
use iox2_dynamic::dynamic_config::{DynamicConfig, PortDetails, PortRoles};
use iox2_ids::identifiers::UniqueNodeId;
use iox2_texts::bounded::CallbackProgression;
use std::alloc::{AllocError, Global};
use std::mem;

/// Who is attached to a service.
#[derive(Clone, Copy, Debug, PartialEq, Eq)]
pub enum Member {
    /// A node, once for each time that it is registered.
    Node(UniqueNodeId),
    /// A port.
    Port(PortDetails),
}

impl Member {
    /// The node, or the one that the port belongs to.
    pub fn node_id(&self) -> UniqueNodeId
        ensures { result ≡ node_of_member self.now }
    {
        match self {
            Member::Node(id) => *id,
            Member::Port(details) => details.node_id(),
        }
    }
}

/// Replaces the contents of the list by all who are attached to the service: each node and each
/// port once, by rising node, and for each node first the node and then its ports.
///
/// A list with too small a capacity gets just the capacity that they need, in one request. Sorting
/// takes memory for as long as it lasts. Where memory is refused, the list is empty.
pub fn list_attached(
    alloc: Global,
    service: &DynamicConfig,
    members: &mut Vec<Member>,
) -> Result<(), AllocError>
    ensures listed { OnOk result (IsRoster service.now members.new.items) }
    ensures cleared { OnErr result (members.new.items ≡ []) }
    ensures exact { OnOk result (vec_capacity members.new
        ≡ max (vec_capacity members.old) (length (members_of service.now))) }
{
    let mut list = mem::replace(members, Vec::new(alloc));
    list.clear();
    list.reserve_exact(number_attached(service)?)?;
    let (first, second) = service.kind().port_roles();
    let mut roster = Roster { members: list };
    append_nodes(service, &mut roster);
    append_ports(service, first, &mut roster);
    append_ports(service, second, &mut roster);
    roster
        .members
        .sort_by_key(|member| member.node_id().value())?;
    *members = roster.members;
    Ok(())
}

/// Who was found so far, in a list with the capacity for all.
#[derive(Drop)]
struct Roster<T: Copy> {
    members: Vec<T>,
}

impl<T: Copy> Roster<T> {
    /// Puts a member at the end.
    fn put(&mut self, member: T)
        requires { vec_len self.old.members < vec_capacity self.old.members }
        ensures { Appends (member ∷ []) self.old.members self.new.members }
    {
        self.members.push_reserved(member);
    }
}

/// How many nodes and ports there are. Refused where no list can have so many.
fn number_attached(service: &DynamicConfig) -> Result<usize, AllocError>
    ensures number { IfOk result (λ number. number ≡ length (members_of service.now)) }
    ensures refused { OnErr result (2 ^ 64 ≤ length (members_of service.now)) }
{
    let census = take_census(service);
    let ports = census.first.count.checked_add(census.second.count);
    census
        .nodes
        .checked_add(ports.ok_or(AllocError)?)
        .ok_or(AllocError)
}

/// Puts each entry of a node at the end.
fn append_nodes(service: &DynamicConfig, roster: &mut Roster<Member>)
    requires { vec_len roster.old.members + length (nodes_in service.now)
        ≤ vec_capacity roster.old.members }
    ensures { Appends (nodes_in service.now) roster.old.members roster.new.members }
{
    let mut note = |id: &UniqueNodeId| -> CallbackProgression
        requires { vec_len roster.now.members < vec_capacity roster.now.members }
        ensures noted { Appends (Member.Node id.now ∷ [])
            roster.entry.now.members roster.exit.now.members }
        ensures same { roster.exit.ghost_name ≡ roster.entry.ghost_name }
        ensures goes_on { result ≡ CallbackProgression.Continue }
    {
        roster.put(Member::Node(*id));
        CallbackProgression::Continue
    };
    service.list_node_ids(&mut note);
}

/// Puts each port of one of the pattern's roles at the end.
fn append_ports(service: &DynamicConfig, role: Role, roster: &mut Roster<Member>)
    requires first { role ≡ first_role service.now.pattern
        → vec_len roster.old.members + length (ports_in service.now.ports.first)
        ≤ vec_capacity roster.old.members }
    requires second { role ≡ second_role service.now.pattern
        → vec_len roster.old.members + length (ports_in service.now.ports.second)
        ≤ vec_capacity roster.old.members }
    ensures first { role ≡ first_role service.now.pattern
        → Appends (ports_in service.now.ports.first) roster.old.members roster.new.members }
    ensures second { role ≡ second_role service.now.pattern
        → Appends (ports_in service.now.ports.second) roster.old.members roster.new.members }
{
    let mut note = |details: &PortDetails| -> CallbackProgression
        requires { vec_len roster.now.members < vec_capacity roster.now.members }
        ensures noted { Appends (Member.Port details.now ∷ [])
            roster.entry.now.members roster.exit.now.members }
        ensures same { roster.exit.ghost_name ≡ roster.entry.ghost_name }
        ensures goes_on { result ≡ CallbackProgression.Continue }
    {
        roster.put(Member::Port(*details));
        CallbackProgression::Continue
    };
    service.list_ports(role, &mut note);
}
