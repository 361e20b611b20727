//! The ports of a service, by its pattern: a registry for each of two kinds of ports.
ghost use Rattle.std.specs.Prelude.{◌≡◌, ◌↔◌, IfNone, IfOk, IfSome, IsTrue, MatchOption, length, vec_capacity};
ghost use Rattle.std.specs.Fn.{CalledAt, TakesAt};
ghost use Rattle.iox2_container.specs.Steps.{CanBeCalled, CanVisit, Visit, listed};
ghost use Rattle.iox2_dynamic.specs.Details.{role_of};
ghost use Rattle.iox2_dynamic.specs.Patterns.{kind_of_service, ports_of};
ghost use Rattle.iox2_dynamic.specs.Ports.{ports_as, empty_ports, has_ports_of, IsNoPort, OfRole};
ghost use Rattle.iox2_dynamic.specs.Ports.{RemovesFrom, RecoversBoth, CountsIn, CanListIn, ListsIn};
ghost use Rattle.iox2_dynamic.specs.Ports.{StandsAmong, TakesIn, TouchesFew, port_ids_of_node};
ghost use Rattle.iox2_dynamic.specs.Ports.{ports_of_node};
ghost use Rattle.iox2_dynamic.specs.Service.{HasRole, LacksRole, first_role, second_role, capacities_in, fresh_ports};
ghost use Rattle.iox2_dynamic.specs.Steps.{Admits, AttachesTo};

use super::answers::{AttachError, PortCleanupAction};
use super::blackboard::DynamicConfig as BlackboardPorts;
use super::event::DynamicConfig as EventPorts;
use super::port_details::{PortDetails, PortKind};
use super::port_registry::{append_details_of, details, list_details, recover_ports};
use super::publish_subscribe::DynamicConfig as PublishSubscribePorts;
use super::request_response::DynamicConfig as RequestResponsePorts;
use super::settings::MessagingPatternSettings;
use iox2_config::hash::PatternKind;
use iox2_container::container::{
    ContainerHandle, ContainerRemoveError, ListContainer, Registry, ReleaseMode, ReleaseState, Role,
};
use iox2_ids::identifiers::{UniqueNodeId, UniquePortId};
use iox2_texts::bounded::CallbackProgression;
use std::alloc::{AllocError, Global};
use std::marker::Model;

/// A registry of a service's nodes, or of its ports of one kind.
pub(super) type ServiceRegistry<T> = ListContainer<T>;

/// A registry for each of two kinds of ports, of which the first is recovered first. A port's
/// removal locks neither.
#[derive(Debug, Drop)]
pub struct PortRegistries<A: Copy, B: Copy> {
    pub(super) first: ServiceRegistry<A>,
    pub(super) second: ServiceRegistry<B>,
}

impl<A: Copy, B: Copy> Model for PortRegistries<A, B> {
    ghost use Rattle.iox2_dynamic.specs.Ports.{PortsState};

    ghost Value = { PortsState A B };

    ghost view = { λ p. record { first = p.first; second = p.second } };
}

/// Refuses a port of the node where the service is locked, and else where the node is not
/// registered. A locked service has no node: where the node is registered, the lock is not read.
#[tactic(auto, using(crate::proofs::Rooms::admitted))]
fn admit(nodes: &ServiceRegistry<UniqueNodeId>, node: &UniqueNodeId) -> Result<(), AttachError>
    ensures { Admits nodes.now node.now result }
{
    if !nodes.has_entry_of(node) {
        if nodes.is_locked() {
            return Err(AttachError::ServiceIsLocked);
        }
        return Err(AttachError::NodeNotRegistered);
    }
    Ok(())
}

impl<A: PortKind, B: PortKind> PortRegistries<A, B> {
    /// No port yet, for this many of each kind at a time, and this many of each kind in all.
    pub(super) fn with_capacities(
        alloc: Global,
        service_number: u64,
        first: usize,
        second: usize,
        tickets: u64,
    ) -> Result<Self, AllocError>
        ensures { IfOk result (λ p.
            p ≡ empty_ports A.ROLE B.ROLE service_number first second tickets) }
    {
        Ok(PortRegistries {
            first: ServiceRegistry::new(alloc, service_number, A::ROLE, first, tickets)?,
            second: ServiceRegistry::new(alloc, service_number, B::ROLE, second, tickets)?,
        })
    }

    /// Calls the callback on the details of the ports that are recovered first by rising slot, up
    /// to and with the first `Stop`. Code for all patterns lists both kinds so, each with the
    /// details of its own.
    pub fn list_first<F: FnMut(&A) -> CallbackProgression>(&self, f: &mut F)
        requires { CanVisit (TakesAt F.FnMut) (CalledAt F.FnMut) f.old
            (listed self.now.first.registry) }
        ensures { Visit (CalledAt F.FnMut) f.old (listed self.now.first.registry) f.new }
    {
        self.first.for_each(f);
    }

    /// Calls the callback on the details of the other ports by rising slot, up to and with the
    /// first `Stop`.
    pub fn list_second<F: FnMut(&B) -> CallbackProgression>(&self, f: &mut F)
        requires { CanVisit (TakesAt F.FnMut) (CalledAt F.FnMut) f.old
            (listed self.now.second.registry) }
        ensures { Visit (CalledAt F.FnMut) f.old (listed self.now.second.registry) f.new }
    {
        self.second.for_each(f);
    }

    /// Whether some port has the node.
    pub(super) fn has_ports_of(&self, node: &UniqueNodeId) -> bool
        ensures { result ≡ has_ports_of node.now (ports_as A.details B.details self.now) }
    {
        if self.first.has_entry_of(node) {
            return true;
        }
        self.second.has_entry_of(node)
    }

    /// Attaches a port of the first kind to a service with these nodes.
    pub(super) fn attach_first(
        &mut self,
        nodes: &ServiceRegistry<UniqueNodeId>,
        port: A,
    ) -> Result<ContainerHandle, AttachError>
        ensures attached { AttachesTo A.ROLE B.ROLE nodes.now
            (ports_as A.details B.details self.old) (A.details port) result
            (ports_as A.details B.details self.new) }
        ensures few { TouchesFew self.old self.new }
    {
        admit(nodes, &port.node_id())?;
        self.first.add(port).or(Err(AttachError::OutOfSpace))
    }

    /// Attaches a port of the second kind to a service with these nodes.
    pub(super) fn attach_second(
        &mut self,
        nodes: &ServiceRegistry<UniqueNodeId>,
        port: B,
    ) -> Result<ContainerHandle, AttachError>
        ensures attached { AttachesTo A.ROLE B.ROLE nodes.now
            (ports_as A.details B.details self.old) (B.details port) result
            (ports_as A.details B.details self.new) }
        ensures few { TouchesFew self.old self.new }
    {
        admit(nodes, &port.node_id())?;
        self.second.add(port).or(Err(AttachError::OutOfSpace))
    }

    /// Removes the port with this handle.
    pub(super) fn remove(
        &mut self,
        handle: ContainerHandle,
    ) -> Result<ReleaseState, ContainerRemoveError>
        ensures removed { RemovesFrom A.ROLE B.ROLE (ports_as A.details B.details self.old)
            handle result (ports_as A.details B.details self.new) }
        ensures few { TouchesFew self.old self.new }
    {
        if handle.role() == A::ROLE {
            return self.first.remove(handle, ReleaseMode::Default);
        }
        if handle.role() == B::ROLE {
            return self.second.remove(handle, ReleaseMode::Default);
        }
        let of_neither_kind = ContainerRemoveError::ContainerHandleNotOwnedByContainer;
        Err(of_neither_kind)
    }

    /// Calls the callback for each port of a dead node, first for those of the first kind, and
    /// returns whether one is left.
    pub(super) fn recover<F>(&mut self, dead: &UniqueNodeId, f: &mut F) -> bool
    where
        F: FnMut(UniquePortId) -> PortCleanupAction,
        requires { CanBeCalled F.pre F.step f.old
            (port_ids_of_node dead.now (ports_as A.details B.details self.old)) }
        ensures recovered { RecoversBoth F.step dead.now
            (ports_as A.details B.details self.old) f.old
            (ports_as A.details B.details self.new) f.new }
        ensures left { result ≡ has_ports_of dead.now (ports_as A.details B.details self.new) }
    {
        let first = recover_ports(&mut self.first, dead, f);
        let second = recover_ports(&mut self.second, dead, f);
        first || second
    }

    /// How many ports of the role there are; `None` for a role of neither kind.
    pub(super) fn count(&self, role: Role) -> Option<usize>
        ensures { CountsIn A.ROLE B.ROLE (ports_as A.details B.details self.now) role result }
    {
        if role == A::ROLE {
            return Some(self.first.len());
        }
        if role == B::ROLE {
            return Some(self.second.len());
        }
        None
    }

    /// How many ports of the role there may be; `None` for a role of neither kind.
    pub(super) fn capacity(&self, role: Role) -> Option<usize>
        ensures { OfRole (λ r n. n ≡ r.capacity) A.ROLE B.ROLE
            (ports_as A.details B.details self.now) role result }
    {
        if role == A::ROLE {
            return Some(self.first.capacity());
        }
        if role == B::ROLE {
            return Some(self.second.capacity());
        }
        None
    }

    /// Whether a port of the role would be added.
    pub(super) fn has_room(&self, role: Role) -> bool
        ensures { IsTrue result
            ↔ TakesIn A.ROLE B.ROLE (ports_as A.details B.details self.now) role }
    {
        (role == A::ROLE && self.first.has_room()) || (role == B::ROLE && self.second.has_room())
    }

    /// The port with this handle.
    pub(super) fn get(&self, handle: ContainerHandle) -> Option<PortDetails>
        ensures { MatchOption result (IsNoPort (ports_as A.details B.details self.now) handle)
            (StandsAmong (ports_as A.details B.details self.now) handle) }
    {
        match self.first.get(handle) {
            Some(port) => Some(port.into_details()),
            None => match self.second.get(handle) {
                Some(port) => Some(port.into_details()),
                None => None,
            },
        }
    }

    /// The ports of the role; `None` for a role of neither kind.
    pub(super) fn ports(
        &self,
        alloc: Global,
        role: Role,
    ) -> Result<Option<Vec<PortDetails>>, AllocError>
        ensures listed { IfOk result (OfRole (λ r list. list.items ≡ listed r) A.ROLE B.ROLE
            (ports_as A.details B.details self.now) role) }
        ensures exact { IfOk result (λ found.
            IfSome found (λ list. vec_capacity list ≡ length list.items)) }
    {
        if role == A::ROLE {
            return Ok(Some(details(alloc, &self.first)?));
        }
        if role == B::ROLE {
            return Ok(Some(details(alloc, &self.second)?));
        }
        Ok(None)
    }

    /// The ports of the node, those of the first kind before those of the second.
    pub(super) fn ports_of(
        &self,
        alloc: Global,
        node: &UniqueNodeId,
    ) -> Result<Vec<PortDetails>, AllocError>
        ensures listed { IfOk result (λ list.
            list.items ≡ ports_of_node node.now (ports_as A.details B.details self.now)) }
        ensures exact { IfOk result (λ list. vec_capacity list ≡ length list.items) }
    {
        let first = self.first.entries_of(node);
        let Some(count) = first.checked_add(self.second.entries_of(node)) else {
            return Err(AllocError);
        };
        let mut list = Vec::with_capacity(alloc, count)?;
        append_details_of(&self.first, node, &mut list);
        append_details_of(&self.second, node, &mut list);
        Ok(list)
    }

    /// Shows the ports of the role; `false` for a role of neither kind.
    pub(super) fn list<F: FnMut(&PortDetails) -> CallbackProgression>(
        &self,
        role: Role,
        f: &mut F,
    ) -> bool
        requires { CanListIn (TakesAt F.FnMut) (CalledAt F.FnMut) A.ROLE B.ROLE
            (ports_as A.details B.details self.now) role f.old }
        ensures { ListsIn (CalledAt F.FnMut) A.ROLE B.ROLE
            (ports_as A.details B.details self.now) role f.old result f.new }
    {
        if role == A::ROLE {
            list_details(&self.first, f);
            return true;
        }
        if role == B::ROLE {
            list_details(&self.second, f);
            return true;
        }
        false
    }
}

/// Matches on a pattern, with the same expression for the ports of each.
macro_rules! of_any_pattern {
    ($pattern:expr, $ports:ident => $value:expr) => {
        match $pattern {
            MessagingPattern::RequestResponse($ports) => $value,
            MessagingPattern::PublishSubscribe($ports) => $value,
            MessagingPattern::Event($ports) => $value,
            MessagingPattern::Blackboard($ports) => $value,
        }
    };
}

pub(super) use of_any_pattern;

/// The messaging pattern of a service, with its ports.
#[derive(Debug, Drop)]
pub enum MessagingPattern {
    /// Clients send requests, and servers respond.
    RequestResponse(RequestResponsePorts),
    /// Publishers send samples to all subscribers.
    PublishSubscribe(PublishSubscribePorts),
    /// Notifiers wake listeners.
    Event(EventPorts),
    /// Writers update values that readers look up.
    Blackboard(BlackboardPorts),
}

impl MessagingPattern {
    /// A pattern without ports.
    pub(super) fn with_tickets(
        alloc: Global,
        settings: &MessagingPatternSettings,
        service_number: u64,
        tickets: u64,
    ) -> Result<Self, AllocError>
        ensures kind { IfOk result (λ p.
            kind_of_service p ≡ (capacities_in settings.now).pattern) }
        ensures ports { IfOk result (λ p.
            ports_of p ≡ fresh_ports (capacities_in settings.now) service_number tickets) }
    {
        let (kind, first, second) = settings.capacities();
        Ok(match kind {
            PatternKind::RequestResponse => MessagingPattern::RequestResponse(
                PortRegistries::with_capacities(alloc, service_number, first, second, tickets)?,
            ),
            PatternKind::PublishSubscribe => MessagingPattern::PublishSubscribe(
                PortRegistries::with_capacities(alloc, service_number, first, second, tickets)?,
            ),
            PatternKind::Event => MessagingPattern::Event(PortRegistries::with_capacities(
                alloc,
                service_number,
                first,
                second,
                tickets,
            )?),
            PatternKind::Blackboard => MessagingPattern::Blackboard(PortRegistries::with_capacities(
                alloc,
                service_number,
                first,
                second,
                tickets,
            )?),
        })
    }

    /// Whether some port has the node.
    pub(super) fn has_ports_of(&self, id: &UniqueNodeId) -> bool
        ensures { result ≡ has_ports_of id.now (ports_of self.now) }
    {
        of_any_pattern!(self, ports => ports.has_ports_of(id))
    }

    /// Whether a port of the role would be added.
    pub(super) fn has_room(&self, role: Role) -> bool
        ensures { IsTrue result ↔ TakesIn (first_role (kind_of_service self.now))
            (second_role (kind_of_service self.now)) (ports_of self.now) role }
    {
        of_any_pattern!(self, ports => ports.has_room(role))
    }

    /// Attaches a port to a service with these nodes; `None` where the pattern has no such ports.
    pub(super) fn attach(
        &mut self,
        nodes: &ServiceRegistry<UniqueNodeId>,
        details: PortDetails,
    ) -> Option<Result<ContainerHandle, AttachError>>
        ensures some { IfSome result (λ answer.
            HasRole (kind_of_service self.old) (role_of details)
            × AttachesTo (first_role (kind_of_service self.old))
            (second_role (kind_of_service self.old)) nodes.now
            (ports_of self.old) details answer (ports_of self.new)) }
        ensures none { IfNone result (LacksRole (kind_of_service self.old) (role_of details)
            × (ports_of self.new ≡ ports_of self.old)) }
        ensures few { TouchesFew (ports_of self.old) (ports_of self.new) }
        ensures kind { kind_of_service self.new ≡ kind_of_service self.old }
    {
        Some(match (self, details) {
            (MessagingPattern::RequestResponse(ports), PortDetails::Server(port)) =>
                ports.attach_first(nodes, port),
            (MessagingPattern::RequestResponse(ports), PortDetails::Client(port)) =>
                ports.attach_second(nodes, port),
            (MessagingPattern::PublishSubscribe(ports), PortDetails::Publisher(port)) =>
                ports.attach_first(nodes, port),
            (MessagingPattern::PublishSubscribe(ports), PortDetails::Subscriber(port)) =>
                ports.attach_second(nodes, port),
            (MessagingPattern::Event(ports), PortDetails::Listener(port)) => ports.attach_first(
                nodes, port,
            ),
            (MessagingPattern::Event(ports), PortDetails::Notifier(port)) => ports.attach_second(
                nodes, port,
            ),
            (MessagingPattern::Blackboard(ports), PortDetails::Reader(port)) => ports.attach_first(
                nodes, port,
            ),
            (MessagingPattern::Blackboard(ports), PortDetails::Writer(port)) => ports.attach_second(
                nodes, port,
            ),
            _ => return None,
        })
    }

    /// Removes the port with this handle.
    pub(super) fn remove(
        &mut self,
        handle: ContainerHandle,
    ) -> Result<ReleaseState, ContainerRemoveError>
        ensures removed { RemovesFrom
            (first_role (kind_of_service self.old)) (second_role (kind_of_service self.old))
            (ports_of self.old) handle result (ports_of self.new) }
        ensures few { TouchesFew (ports_of self.old) (ports_of self.new) }
        ensures kind { kind_of_service self.new ≡ kind_of_service self.old }
    {
        of_any_pattern!(self, ports => ports.remove(handle))
    }

    /// Calls the callback for each port of a dead node, and returns whether one is left.
    pub(super) fn recover<F: FnMut(UniquePortId) -> PortCleanupAction>(
        &mut self,
        dead: &UniqueNodeId,
        f: &mut F,
    ) -> bool
        requires { CanBeCalled F.pre F.step f.old (port_ids_of_node dead.now (ports_of self.old)) }
        ensures recovered { RecoversBoth F.step dead.now
            (ports_of self.old) f.old (ports_of self.new) f.new }
        ensures left { result ≡ has_ports_of dead.now (ports_of self.new) }
        ensures kind { kind_of_service self.new ≡ kind_of_service self.old }
    {
        of_any_pattern!(self, ports => ports.recover(dead, f))
    }
}
