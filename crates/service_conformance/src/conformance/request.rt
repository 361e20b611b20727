//! Commands as they were called.
ghost use Rattle.std.specs.Prelude.{◌≡◌};
ghost use Rattle.service_conformance.specs.Calls.{request_command, request_handle};
ghost use Rattle.service_conformance.specs.Calls.{at_first, command_adds, handle_for, is_query};
ghost use Rattle.service_descriptions.specs.Lines.{command_of};

use iox2_container::container::{ContainerHandle, Role};
use iox2_ids::identifiers::UniqueNodeId;
use service_descriptions::replay::{LineCommand, ScriptPort};

/// A command that has a line, as the variant of `LineCommand` of this name. A removal has the
/// handle that it names, or none, in place of the number of a command.
pub(super) enum Request {
    Register(UniqueNodeId),
    Deregister(Option<ContainerHandle>),
    Nodes,
    Add(ScriptPort),
    Release(Option<ContainerHandle>),
    List(Role),
    Count(Role),
    Dead(UniqueNodeId, Vec<u128>),
}

impl Drop for Request {
    #[inline(always)]
    fn drop(self) {
        match self {
            Request::Dead(_, _kept) => {}
            Request::Register(_) | Request::Add(_) => {}
            Request::Deregister(_) | Request::Release(_) => {}
            Request::Nodes | Request::List(_) | Request::Count(_) => {}
        }
    }
}

impl Request {
    /// The command, which names this handle or none if it is a removal.
    #[inline(always)]
    pub(super) fn new(command: LineCommand, handle: Option<ContainerHandle>) -> Self
        ensures command { request_command result ≡ at_first (command_of command) }
        ensures handle { request_handle result ≡ handle_for (command_of command) handle }
    {
        match command {
            LineCommand::Register(id) => Request::Register(id),
            LineCommand::Deregister(_) => Request::Deregister(handle),
            LineCommand::Nodes => Request::Nodes,
            LineCommand::Add(port) => Request::Add(port),
            LineCommand::Release(_) => Request::Release(handle),
            LineCommand::List(role) => Request::List(role),
            LineCommand::Count(role) => Request::Count(role),
            LineCommand::Dead(node, kept) => Request::Dead(node, kept),
        }
    }

    /// The role of the entry that the command adds, if it adds one.
    pub(super) fn adds(&self) -> Option<Role>
        ensures { result ≡ command_adds (request_command self.now) }
    {
        match self {
            Request::Register(_) => Some(Role::Node),
            Request::Add(port) => Some(port.details().role()),
            _ => None,
        }
    }

    /// Whether the command is a query, which changes nothing.
    #[inline(always)]
    pub(super) fn is_query(&self) -> bool
        ensures { result ≡ is_query (request_command self.now) }
    {
        match self {
            Request::Nodes | Request::List(_) | Request::Count(_) => true,
            _ => false,
        }
    }
}
