//! A service under commands, without what describes it, and the reply to one command.
ghost use Rattle.std.specs.Prelude.{◌≡◌, ℕ, IfOk, IfSome, Option, OnErr};
ghost use Rattle.iox2_dynamic.specs.Service.{IsService, capacities_in};
ghost use Rattle.service_descriptions.specs.Steps.{ServesDead, reply_of_owners, ServesCount};
ghost use Rattle.service_descriptions.specs.Steps.{ServesList, ServesAdd, ServesDeregister};
ghost use Rattle.service_descriptions.specs.Steps.{ServesRegister, ServesRelease, ServiceStep};
ghost use Rattle.service_descriptions.specs.Steps.{IsState, handle_in, new_state};
ghost use Rattle.service_descriptions.specs.Fields.{described};
ghost use Rattle.service_descriptions.specs.Fields.{handle_at, handles_in};
ghost use Rattle.service_descriptions.specs.Steps.{named};
ghost use Rattle.service_descriptions.specs.LineAnswers.{LineStep, handle_given};
ghost use Rattle.service_descriptions.specs.Lines.{command_of};
ghost use Rattle.service_descriptions.specs.Replies.{reply_of};
ghost use Rattle.service_descriptions.specs.declared.replay.machine.command.Cleanup.TheVariants as cleanup;

use super::cleanup::{by_order, by_port};
use super::command::{Cleanup, Command, LineCommand};
use super::description::{compatible, layout, places, verify};
use super::reply::{LineAnswer, LineReply, Reply};
use iox2_container::container::{ContainerHandle, Role};
use iox2_dynamic::dynamic_config::{
    AttachError, DeregisterError, DeregisterNodeState, DynamicConfig, MessagingPatternSettings,
    PortDetails, RegisterNodeResult,
};
use iox2_ids::identifiers::UniqueNodeId;
use iox2_static::static_config::StaticConfig;
use std::alloc::{AllocError, Global};
use std::marker::Model;
use std::mem::size_of;

/// What is kept of the reply to an earlier command: 24 bytes.
#[derive(Clone, Copy)]
enum Earlier {
    /// A reply without a handle.
    Nothing,
    /// The role, slot and ticket of the handle that was given.
    Given(Role, usize, u64),
}

const _: () = prove!(size_of::<Earlier>() == 24);

impl Earlier {
    /// What is kept of an answer.
    fn of(answer: &LineAnswer) -> Self
        ensures { (number : ℕ) → IfSome (handle_given answer.now) (λ h. h.service ≡ number)
            → handle_at number result ≡ handle_given answer.now }
    {
        match answer {
            LineAnswer::Reply(LineReply::Handle(handle)) => {
                let (_, role, slot, ticket) = handle.into_parts();
                Earlier::Given(role, slot, ticket)
            }
            _ => Earlier::Nothing,
        }
    }

    /// What is kept of a reply.
    fn of_reply(reply: &Reply) -> Self
        ensures { (number : ℕ) → IfSome (handle_in reply.now) (λ h. h.service ≡ number)
            → handle_at number result ≡ handle_in reply.now }
    {
        match reply {
            Reply::Handle(handle) => {
                let (_, role, slot, ticket) = handle.into_parts();
                Earlier::Given(role, slot, ticket)
            }
            _ => Earlier::Nothing,
        }
    }
}

/// A service, and for each earlier command the handle that it returned. No two of these handles are
/// equal. Scripts run on it: no line of a script needs a description, which takes kilobytes.
#[derive(Drop)]
pub(crate) struct Session {
    service: DynamicConfig,
    number: u64,
    earlier: Vec<Earlier>,
}

impl Model for Session {
    ghost use Rattle.service_descriptions.specs.Fields.{session_of, IsSound};
    ghost use Rattle.service_descriptions.specs.Steps.{State};

    ghost Value = { State };

    ghost view = { session_of };

    ghost invariant = { IsSound };
}

impl Session {
    /// A service without nodes and ports, for at most `max_nodes` entries of nodes at a time, and
    /// for 2^64 - 1 entries of each kind in all. Its handles carry the number. Takes all the memory
    /// of the service itself, and that for what is kept of so many commands, or is refused.
    pub(crate) fn new(
        alloc: Global,
        settings: &MessagingPatternSettings,
        max_nodes: usize,
        service_number: u64,
        commands: usize,
    ) -> Result<Self, AllocError>
        ensures { IfOk result (λ s.
            s ≡ new_state (capacities_in settings.now) max_nodes service_number) }
    {
        let earlier = Vec::with_capacity(alloc, commands)?;
        Ok(Session {
            service: DynamicConfig::new(alloc, settings, max_nodes, service_number)?,
            number: service_number,
            earlier,
        })
    }

    /// One command on the service that is described so. All its memory is taken before anything
    /// changes.
    pub(super) fn serve(
        &mut self,
        alloc: Global,
        about: &Option<StaticConfig>,
        command: &Command,
    ) -> Result<Reply, AllocError>
        ensures ok { IfOk result (λ reply. ServiceStep (described self.old about.now) command.now
            reply (described self.new about.now)) }
        ensures err { OnErr result (self.new ≡ self.old) }
        ensures state { IsState self.new }
    {
        self.earlier.reserve(1)?;
        let reply = match command {
            Command::Register(node) => register(&mut self.service, *node).reply(),
            Command::Deregister(k) => {
                let handle = named(self.number, &self.earlier, *k);
                deregister(&mut self.service, handle).reply()
            }
            Command::Nodes => Reply::Nodes(self.service.nodes(alloc)?),
            Command::Add(details) => add(&mut self.service, *details).reply(),
            Command::Release(k) => {
                let handle = named(self.number, &self.earlier, *k);
                release(&mut self.service, handle).reply()
            }
            Command::List(role) => list(alloc, &self.service, *role)?,
            Command::Count(role) => count(&self.service, *role).reply(),
            Command::Dead(node, cleanup) => dead(&mut self.service, node, cleanup).reply(),
            Command::Verify(required) => verify(about, required),
            Command::Layout(part, n) => layout(about, *part, *n),
            Command::Places(part, header) => places(about, *part, *header),
            Command::Compatible(part, opener) => compatible(about, *part, opener),
        };
        self.earlier.push_reserved(Earlier::of_reply(&reply));
        Ok(reply)
    }

    /// The same for a command that has a line: what its line lists is left to be read off the
    /// service.
    #[inline(always)]
    pub(crate) fn serve_line(&mut self, command: &LineCommand) -> Result<LineAnswer, AllocError>
        ensures ok { IfOk result
            (λ answer. LineStep self.old (command_of command.now) answer self.new) }
        ensures err { OnErr result (self.new ≡ self.old) }
        ensures state { IsState self.new }
    {
        self.earlier.reserve(1)?;
        let answer = match command {
            LineCommand::Register(node) => LineAnswer::Reply(register(&mut self.service, *node)),
            LineCommand::Deregister(k) => {
                let handle = named(self.number, &self.earlier, *k);
                LineAnswer::Reply(deregister(&mut self.service, handle))
            }
            LineCommand::Nodes => LineAnswer::Nodes,
            LineCommand::Add(port) => LineAnswer::Reply(add(&mut self.service, port.details())),
            LineCommand::Release(k) => {
                let handle = named(self.number, &self.earlier, *k);
                LineAnswer::Reply(release(&mut self.service, handle))
            }
            LineCommand::List(role) => LineAnswer::Ports(*role),
            LineCommand::Count(role) => LineAnswer::Reply(count(&self.service, *role)),
            LineCommand::Dead(node, kept) => {
                // A copy is lent, so that the command itself need not lie in memory.
                let node = *node;
                LineAnswer::Reply(dead_but(&mut self.service, &node, kept))
            }
        };
        self.earlier.push_reserved(Earlier::of(&answer));
        Ok(answer)
    }

    /// The service.
    pub(crate) fn service(&self) -> &DynamicConfig
        ensures service { result.now ≡ self.now.service }
        ensures state { IsState self.now }
    {
        &self.service
    }
}

/// The handle that an earlier command returned.
fn named(number: u64, earlier: &[Earlier], k: usize) -> Option<ContainerHandle>
    ensures { result ≡ named (handles_in number earlier.now) k }
{
    match earlier.get(k) {
        Some(Earlier::Given(role, slot, ticket)) => {
            Some(ContainerHandle::from_parts(number, *role, *slot, *ticket))
        }
        _ => None,
    }
}

/// Registers a node.
fn register(service: &mut DynamicConfig, id: UniqueNodeId) -> LineReply
    ensures served { ServesRegister service.old id (reply_of result) service.new }
    ensures kept { IsService service.new }
{
    match service.register_node_id(id) {
        Ok(handle) => LineReply::Handle(handle),
        Err(RegisterNodeResult::MarkedForDestruction) => LineReply::Locked,
        Err(RegisterNodeResult::ExceedsMaxNumberOfNodes) => LineReply::Full,
    }
}

/// Takes out the node with the handle.
#[tactic(auto, using(crate::proofs::Serving::deregister_served))]
fn deregister(service: &mut DynamicConfig, handle: Option<ContainerHandle>) -> LineReply
    requires { IsService service.old }
    ensures served { ServesDeregister service.old handle (reply_of result) service.new }
    ensures kept { IsService service.new }
{
    let Some(handle) = handle else {
        return LineReply::NoHandle;
    };
    match service.deregister_node_id(handle) {
        Ok(state) => reply_of_owners(state),
        Err(DeregisterError::ContainerHandleNotOwnedByContainer) => LineReply::NotOwned,
        Err(DeregisterError::PortsStillAttached) => LineReply::PortsAttached,
    }
}

/// Attaches a port.
fn add(service: &mut DynamicConfig, details: PortDetails) -> LineReply
    requires { IsService service.old }
    ensures served { ServesAdd service.old details (reply_of result) service.new }
    ensures kept { IsService service.new }
{
    match service.attach_if_has_role(details) {
        Some(Ok(handle)) => LineReply::Handle(handle),
        Some(Err(AttachError::ServiceIsLocked)) => LineReply::Locked,
        Some(Err(AttachError::NodeNotRegistered)) => LineReply::NotRegistered,
        Some(Err(AttachError::OutOfSpace)) => LineReply::Full,
        None => LineReply::WrongPattern,
    }
}

/// Releases the port with the handle.
fn release(service: &mut DynamicConfig, handle: Option<ContainerHandle>) -> LineReply
    requires { IsService service.old }
    ensures served { ServesRelease service.old handle (reply_of result) service.new }
    ensures kept { IsService service.new }
{
    let Some(handle) = handle else {
        return LineReply::NoHandle;
    };
    match service.release_port(handle) {
        Ok(()) => LineReply::Released,
        Err(_) => LineReply::NotOwned,
    }
}

/// Lists the ports of the role.
fn list(alloc: Global, service: &DynamicConfig, role: Role) -> Result<Reply, AllocError>
    ensures { IfOk result (ServesList service.now role) }
{
    Ok(match service.ports(alloc, role)? {
        Some(ports) => Reply::Ports(ports),
        None => Reply::WrongPattern,
    })
}

/// Counts the ports of the role.
fn count(service: &DynamicConfig, role: Role) -> LineReply
    ensures { ServesCount service.now role (reply_of result) }
{
    match service.count_ports(role) {
        Some(n) => LineReply::Count(n),
        None => LineReply::WrongPattern,
    }
}

/// Removes a dead node, with its ports but for those that the cleanup keeps.
#[tactic(auto, using(crate::proofs::Serving::dead_served))]
fn dead(service: &mut DynamicConfig, node: &UniqueNodeId, cleanup: &Cleanup) -> LineReply
    ensures served { ServesDead service.old node.now cleanup.now (reply_of result) service.new }
    ensures kept { IsService service.new }
{
    match cleanup {
        Cleanup::ByOrder(actions) => reply_of_owners(by_order(service, node, actions)),
        Cleanup::ByPort(kept) => dead_but(service, node, kept),
    }
}

/// Removes a dead node, and all its ports but those of these values.
#[tactic(auto, using(crate::proofs::Serving::dead_served))]
#[inline(always)]
fn dead_but(service: &mut DynamicConfig, node: &UniqueNodeId, kept: &Vec<u128>) -> LineReply
    ensures served { ServesDead service.old node.now (cleanup.ByPort kept.now) (reply_of result)
        service.new }
    ensures kept { IsService service.new }
{
    reply_of_owners(by_port(service, node, kept))
}

/// What is replied where entries of a node were removed.
fn reply_of_owners(state: DeregisterNodeState) -> LineReply
    ensures { reply_of result ≡ reply_of_owners state }
{
    match state {
        DeregisterNodeState::HasOwners => LineReply::HasOwners,
        DeregisterNodeState::NoMoreOwners => LineReply::NoMoreOwners,
    }
}
