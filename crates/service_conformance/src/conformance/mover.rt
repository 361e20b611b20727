//! Calls that can be made before others, wherever they can be made right after them.
ghost use Rattle.std.specs.Prelude.{IfSome, IsTrue, Some};
ghost use Rattle.service_conformance.specs.Calls.{request_command, request_handle};
ghost use Rattle.service_conformance.specs.Movers.{CanPrecede, IsChange};
ghost use Rattle.service_conformance.specs.Seen.{seen_text};

use super::request::Request;
use super::seen_reply::{ReplyWord, SeenReply};
use iox2_container::container::Role;

/// What a call changed that was answered, as far as it matters which of two calls was made first.
#[derive(Clone, Copy)]
pub(super) enum Change {
    /// An entry of a node was removed, and others are left.
    NodeRemoved,
    /// A port of this role was removed.
    PortRemoved(Role),
    /// The node whose id has this number was registered.
    NodeRegistered(u128),
    /// A port of this role was added, of the node whose id has this number.
    PortAdded(Role, u128),
}

/// What a call with this request and this reply changed, if it is one of the changes.
pub(super) fn change_of(request: &Request, seen: &SeenReply) -> Option<Change>
    ensures { IfSome result (λ change. IsChange change (record {
      command = request_command request.now;
      handle = request_handle request.now;
      words = Some (seen_text seen.now);
    })) }
{
    match (request, seen) {
        (Request::Deregister(_), SeenReply::Word(ReplyWord::HasOwners)) => {
            Some(Change::NodeRemoved)
        }
        (Request::Release(Some(handle)), SeenReply::Word(ReplyWord::Released)) => {
            Some(Change::PortRemoved(handle.role()))
        }
        (Request::Register(id), SeenReply::Handle(_, _)) => {
            Some(Change::NodeRegistered(id.value()))
        }
        (Request::Add(port), SeenReply::Handle(_, _)) => {
            let details = port.details();
            Some(Change::PortAdded(details.role(), details.node_id().value()))
        }
        _ => None,
    }
}

impl Change {
    /// Whether a call with this change, wherever it can be made right after one with the other
    /// change, can be made right before it, and both leave the same. A no says nothing. Ports of
    /// two roles stand in two registries.
    pub(super) fn moves_before(self, other: Change) -> bool
        ensures { IsTrue result → CanPrecede self other }
    {
        match (self, other) {
            (Change::NodeRemoved, Change::NodeRemoved) => true,
            (Change::PortRemoved(_), Change::NodeRemoved) => true,
            (Change::PortRemoved(_), Change::PortRemoved(_)) => true,
            (Change::PortRemoved(_), Change::NodeRegistered(_)) => true,
            (Change::PortRemoved(role), Change::PortAdded(added, _)) => role != added,
            (Change::NodeRegistered(_), Change::PortRemoved(_)) => true,
            (Change::NodeRegistered(_), Change::PortAdded(_, _)) => true,
            (Change::PortAdded(_, _), Change::NodeRemoved) => true,
            (Change::PortAdded(role, _), Change::PortRemoved(removed)) => role != removed,
            (Change::PortAdded(_, node), Change::NodeRegistered(id)) => node != id,
            (Change::PortAdded(role, _), Change::PortAdded(added, _)) => role != added,
            _ => false,
        }
    }
}
