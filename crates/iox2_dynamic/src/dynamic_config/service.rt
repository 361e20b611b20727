//! A service: its nodes and the ports of its pattern.
ghost use Rattle.std.specs.Prelude.{◌≡◌, ◌+◌, ◌≤◌, ◌↔◌, IfNone, IfOk, IfSome, IsTrue, true};
ghost use Rattle.std.specs.Fn.{CalledAt, TakesAt};
ghost use Rattle.iox2_config.specs.declared.hash.input.PatternKind.TheVariants as kind;
ghost use Rattle.iox2_container.specs.Steps.{CanBeCalled, CanVisit, Visit, listed, release_state};
ghost use Rattle.iox2_dynamic.specs.declared.dynamic_config.port_details.PortDetails.TheVariants as of;
ghost use Rattle.iox2_dynamic.specs.Details.{role_of};
ghost use Rattle.iox2_dynamic.specs.Patterns.{kind_of_service, ports_of};
ghost use Rattle.iox2_dynamic.specs.Ports.{ports_as, port_ids_of_node, CountsIn, CanListIn, ListsIn};
ghost use Rattle.iox2_dynamic.specs.Ports.{RecoversNodes, TouchesFew};
ghost use Rattle.iox2_dynamic.specs.Service.{IsService, HasRole, LacksRole, first_role, second_role};
ghost use Rattle.iox2_dynamic.specs.Service.{capacities_in, fresh_service};
ghost use Rattle.iox2_dynamic.specs.Steps.{RegisterStep, DeregisterStep, AttachStep, ReleaseStep};
ghost use Rattle.iox2_dynamic.specs.Steps.{DeadStep, is_last_of_ports, state_of};

use super::answers::{
    AttachError, DeregisterError, DeregisterNodeState, PortCleanupAction, RegisterNodeResult,
};
use super::pattern::{MessagingPattern, ServiceRegistry, of_any_pattern};
use super::port_details::PortDetails;
use super::settings::{MessagingPatternSettings, PortRoles};
use super::{blackboard, event, publish_subscribe, request_response};
use iox2_config::hash::PatternKind;
use iox2_container::container::{
    ContainerAddFailure, ContainerHandle, ContainerRemoveError, Registry, ReleaseMode,
    ReleaseState, Role,
};
use iox2_ids::identifiers::{UniqueNodeId, UniquePortId};
use iox2_texts::bounded::CallbackProgression;
use std::alloc::{AllocError, Global};
use std::marker::Model;

/// The nodes of a service and the ports of its pattern.
///
/// The node of every port is registered. A service is locked for good when its last node leaves; so
/// a locked service has no port. A refused call changes no entry, no lock and no ticket. Of the
/// calls on a service that was made only `nodes`, `ports` and `ports_of` take memory, for their
/// lists.
///
/// From `crates/services_tests/src/examples/services.rt`:
///
/// ```
/// let settings = MessagingPatternSettings::new(PatternKind::PublishSubscribe, 2, 2);
/// Ok(Box::new(alloc, DynamicConfig::new(alloc, &settings, nodes, 7)?)?)
/// ```
#[derive(Debug, Drop)]
pub struct DynamicConfig {
    pub(super) pattern: MessagingPattern,
    pub(super) nodes: ServiceRegistry<UniqueNodeId>,
}

impl Model for DynamicConfig {
    ghost use Rattle.iox2_dynamic.specs.Patterns.{service_in};
    ghost use Rattle.iox2_dynamic.specs.Service.{Service, IsService};

    ghost Value = { Service };

    ghost view = { service_in };

    ghost invariant = { λ c. IsService (service_in c) };
}

/// Whether one entry of the node is all that it has, and some port has the node.
fn is_last_of_ports(
    pattern: &MessagingPattern,
    nodes: &ServiceRegistry<UniqueNodeId>,
    id: &UniqueNodeId,
) -> bool
    ensures { result ≡ is_last_of_ports id.now (record {
      pattern = kind_of_service pattern.now;
      ports = ports_of pattern.now;
      nodes = nodes.now;
    }) }
{
    pattern.has_ports_of(id) && nodes.entries_of(id) == 1
}

/// Removes each entry of the node.
#[tactic(auto, using(iox2_container::proofs::Callable::callbacks))]
fn recover_nodes(nodes: &mut ServiceRegistry<UniqueNodeId>, dead: &UniqueNodeId) -> ReleaseState
    ensures { RecoversNodes dead.now nodes.old result nodes.new }
{
    let mut goes = |_id: &UniqueNodeId| -> bool
        ensures { result ≡ true }
    { true };
    nodes.recover(dead, &mut goes, ReleaseMode::LockIfLastIndex)
}

impl DynamicConfig {
    /// A service without nodes and ports, for at most `max_nodes` nodes at a time and as many ports
    /// of each kind as the settings say, with all the tickets that there are. Refused where there
    /// is no memory for all of them.
    pub fn new(
        alloc: Global,
        settings: &MessagingPatternSettings,
        max_nodes: usize,
        service_number: u64,
    ) -> Result<Self, AllocError>
        ensures new { IfOk result (λ c.
            c ≡ fresh_service (capacities_in settings.now) max_nodes service_number u64.MAX) }
        ensures kept { IfOk result IsService }
    {
        DynamicConfig::with_tickets(alloc, settings, max_nodes, service_number, u64::MAX)
    }

    /// As `new`, but there are this many tickets for nodes in all, and this many for each kind of
    /// ports: each registering and each attaching takes one, and none comes back.
    #[tactic(auto, using(crate::proofs::Keeping::new_service))]
    pub fn with_tickets(
        alloc: Global,
        settings: &MessagingPatternSettings,
        max_nodes: usize,
        service_number: u64,
        tickets: u64,
    ) -> Result<Self, AllocError>
        ensures new { IfOk result (λ c.
            c ≡ fresh_service (capacities_in settings.now) max_nodes service_number tickets) }
        ensures kept { IfOk result IsService }
    {
        let nodes = ServiceRegistry::new(alloc, service_number, Role::Node, max_nodes, tickets)?;
        let pattern = MessagingPattern::with_tickets(alloc, settings, service_number, tickets)?;
        Ok(DynamicConfig { pattern, nodes })
    }

    /// Registers a node, which may have several handles. Refused where the service is locked, and
    /// else where there are `max_nodes` nodes or no ticket is left.
    pub fn register_node_id(
        &mut self,
        id: UniqueNodeId,
    ) -> Result<ContainerHandle, RegisterNodeResult>
        ensures step { RegisterStep self.old id result self.new }
        ensures few { self.new.nodes.touches ≤ self.old.nodes.touches + 2 }
        ensures kept { IsService self.new }
    {
        match self.nodes.add(id) {
            Ok(handle) => Ok(handle),
            Err(ContainerAddFailure::IsLocked) => Err(RegisterNodeResult::MarkedForDestruction),
            Err(ContainerAddFailure::OutOfSpace) => Err(
                RegisterNodeResult::ExceedsMaxNumberOfNodes,
            ),
        }
    }

    /// Takes out the node with this handle. Where it was the last one, the service is locked for
    /// good. Refused for each handle that is not that of a node here, and else where it is the only
    /// one of its node and some port has that node.
    pub fn deregister_node_id(
        &mut self,
        handle: ContainerHandle,
    ) -> Result<DeregisterNodeState, DeregisterError>
        ensures step { DeregisterStep self.old handle result self.new }
        ensures few { self.new.nodes.touches ≤ self.old.nodes.touches + 2 }
        ensures kept { IsService self.new }
    {
        let Some(id) = self.nodes.get(handle) else {
            return Err(DeregisterError::ContainerHandleNotOwnedByContainer);
        };
        if is_last_of_ports(&self.pattern, &self.nodes, &id) {
            return Err(DeregisterError::PortsStillAttached);
        }
        match self.nodes.remove(handle, ReleaseMode::LockIfLastIndex) {
            Ok(state) => Ok(DeregisterNodeState::of(state)),
            Err(_) => unreachable!(),
        }
    }

    /// Calls the callback on the nodes by rising slot, one time for each handle, up to and with the
    /// first `Stop`.
    pub fn list_node_ids<F: FnMut(&UniqueNodeId) -> CallbackProgression>(&self, f: &mut F)
        requires { CanVisit (TakesAt F.FnMut) (CalledAt F.FnMut) f.old
            (listed self.now.nodes.registry) }
        ensures visit { Visit (CalledAt F.FnMut) f.old (listed self.now.nodes.registry) f.new }
        ensures kept { IsService self.now }
    {
        self.nodes.for_each(f);
    }

    /// Whether the pattern has ports of the role.
    #[tactic(auto, using(crate::proofs::Rooms::has_side))]
    pub fn has_role(&self, role: Role) -> bool
        ensures role { IsTrue result ↔ HasRole self.now.pattern role }
        ensures kept { IsService self.now }
    {
        self.kind().side(role).is_some()
    }

    /// Attaches a port of one of the pattern's roles, as `has_role` says. Errors, in this order:
    /// the service is locked, the port's node is not registered, by its whole id, no slot or no
    /// ticket is left for the port.
    pub fn attach(&mut self, details: PortDetails) -> Result<ContainerHandle, AttachError>
        requires { HasRole self.old.pattern (role_of details) }
        ensures step { AttachStep self.old details result self.new }
        ensures few { TouchesFew self.old.ports self.new.ports }
        ensures kept { IsService self.new }
    {
        self.attach_if_has_role(details).unwrap()
    }

    /// As `attach`, for a port of whatever role: `None`, and no change, where the pattern has no
    /// such ports.
    pub fn attach_if_has_role(
        &mut self,
        details: PortDetails,
    ) -> Option<Result<ContainerHandle, AttachError>>
        ensures some { IfSome result (λ answer. HasRole self.old.pattern (role_of details)
            × AttachStep self.old details answer self.new) }
        ensures none { IfNone result
            (LacksRole self.old.pattern (role_of details) × (self.new ≡ self.old)) }
        ensures few { TouchesFew self.old.ports self.new.ports }
        ensures kept { IsService self.new }
    {
        self.pattern.attach(&self.nodes, details)
    }

    /// Releases the port with this handle. Refused for each
    /// handle that is not that of a port here, a node's too.
    pub fn release_port(&mut self, handle: ContainerHandle) -> Result<(), ContainerRemoveError>
        ensures step { ReleaseStep self.old handle result self.new }
        ensures few { TouchesFew self.old.ports self.new.ports }
        ensures kept { IsService self.new }
    {
        match self.pattern.remove(handle) {
            Ok(_) => Ok(()),
            Err(error) => Err(error),
        }
    }

    /// Calls the callback once for each port of the dead node, those of the pattern's first kind
    /// before those of its second and each kind by rising slot, and removes exactly those for which
    /// it returns `RemovePort`. Where none of its ports is left, the node is removed too, with all
    /// its handles; if it was the last one, the service is locked for good. Where one is left, no
    /// node is removed.
    ///
    /// From `crates/service_examples/src/monitor.rt`:
    ///
    /// ```
    /// let mut remove = |_port: UniquePortId| -> PortCleanupAction
    ///     ensures { result ≡ PortCleanupAction.RemovePort }
    /// { PortCleanupAction::RemovePort };
    /// service.remove_dead_node_id(dead, &mut remove)
    /// ```
    pub fn remove_dead_node_id<F: FnMut(UniquePortId) -> PortCleanupAction>(
        &mut self,
        dead: &UniqueNodeId,
        f: &mut F,
    ) -> DeregisterNodeState
        requires { CanBeCalled F.pre F.step f.old (port_ids_of_node dead.now self.old.ports) }
        ensures step { DeadStep F.step self.old f.old dead.now result self.new f.new }
        ensures lock { state_of result ≡ release_state self.new.nodes.registry.locked }
        ensures kept { IsService self.new }
    {
        if self.pattern.recover(dead, f) {
            return DeregisterNodeState::HasOwners;
        }
        DeregisterNodeState::of(recover_nodes(&mut self.nodes, dead))
    }

    /// The pattern of the service.
    pub fn kind(&self) -> PatternKind
        ensures kind { result ≡ self.now.pattern }
        ensures kept { IsService self.now }
    {
        match &self.pattern {
            MessagingPattern::RequestResponse(_) => PatternKind::RequestResponse,
            MessagingPattern::PublishSubscribe(_) => PatternKind::PublishSubscribe,
            MessagingPattern::Event(_) => PatternKind::Event,
            MessagingPattern::Blackboard(_) => PatternKind::Blackboard,
        }
    }

    /// How many ports of the role there are; `None` where the pattern has no such ports.
    pub fn count_ports(&self, role: Role) -> Option<usize>
        ensures count { CountsIn (first_role self.now.pattern) (second_role self.now.pattern)
            self.now.ports role result }
        ensures kept { IsService self.now }
    {
        of_any_pattern!(&self.pattern, ports => ports.count(role))
    }

    /// Calls the callback on the details of the ports of the role by rising slot, up to and with
    /// the first `Stop`. `false`, and no call, where the pattern has no such ports.
    pub fn list_ports<F: FnMut(&PortDetails) -> CallbackProgression>(
        &self,
        role: Role,
        f: &mut F,
    ) -> bool
        requires { CanListIn (TakesAt F.FnMut) (CalledAt F.FnMut) (first_role self.now.pattern)
            (second_role self.now.pattern) self.now.ports role f.old }
        ensures visit { ListsIn (CalledAt F.FnMut) (first_role self.now.pattern)
            (second_role self.now.pattern) self.now.ports role f.old result f.new }
        ensures kept { IsService self.now }
    {
        of_any_pattern!(&self.pattern, ports => ports.list(role, f))
    }

    /// Whether the pattern is request-response.
    pub fn is_request_response(&self) -> bool
        ensures pattern { IsTrue result ↔ (self.now.pattern ≡ kind.RequestResponse) }
        ensures kept { IsService self.now }
    {
        matches!(&self.pattern, MessagingPattern::RequestResponse(_))
    }

    /// The servers and clients, on the condition that `is_request_response` says yes.
    pub fn request_response(&self) -> &request_response::DynamicConfig
        requires { self.now.pattern ≡ kind.RequestResponse }
        ensures ports { self.now.ports ≡ ports_as of.Server of.Client result.now }
        ensures kept { IsService self.now }
    {
        match &self.pattern {
            MessagingPattern::RequestResponse(config) => config,
            _ => unreachable!(),
        }
    }

    /// Whether the pattern is publish-subscribe.
    pub fn is_publish_subscribe(&self) -> bool
        ensures pattern { IsTrue result ↔ (self.now.pattern ≡ kind.PublishSubscribe) }
        ensures kept { IsService self.now }
    {
        matches!(&self.pattern, MessagingPattern::PublishSubscribe(_))
    }

    /// The publishers and subscribers, on the condition that `is_publish_subscribe` says yes.
    pub fn publish_subscribe(&self) -> &publish_subscribe::DynamicConfig
        requires { self.now.pattern ≡ kind.PublishSubscribe }
        ensures ports { self.now.ports ≡ ports_as of.Publisher of.Subscriber result.now }
        ensures kept { IsService self.now }
    {
        match &self.pattern {
            MessagingPattern::PublishSubscribe(config) => config,
            _ => unreachable!(),
        }
    }

    /// Whether the pattern is event.
    pub fn is_event(&self) -> bool
        ensures pattern { IsTrue result ↔ (self.now.pattern ≡ kind.Event) }
        ensures kept { IsService self.now }
    {
        matches!(&self.pattern, MessagingPattern::Event(_))
    }

    /// The listeners and notifiers, on the condition that `is_event` says yes.
    pub fn event(&self) -> &event::DynamicConfig
        requires { self.now.pattern ≡ kind.Event }
        ensures ports { self.now.ports ≡ ports_as of.Listener of.Notifier result.now }
        ensures kept { IsService self.now }
    {
        match &self.pattern {
            MessagingPattern::Event(config) => config,
            _ => unreachable!(),
        }
    }

    /// Whether the pattern is blackboard.
    pub fn is_blackboard(&self) -> bool
        ensures pattern { IsTrue result ↔ (self.now.pattern ≡ kind.Blackboard) }
        ensures kept { IsService self.now }
    {
        matches!(&self.pattern, MessagingPattern::Blackboard(_))
    }

    /// The readers and writers, on the condition that `is_blackboard` says yes.
    pub fn blackboard(&self) -> &blackboard::DynamicConfig
        requires { self.now.pattern ≡ kind.Blackboard }
        ensures ports { self.now.ports ≡ ports_as of.Reader of.Writer result.now }
        ensures kept { IsService self.now }
    {
        match &self.pattern {
            MessagingPattern::Blackboard(config) => config,
            _ => unreachable!(),
        }
    }
}
