//! Replies to commands that have a line.
ghost use Rattle.std.specs.Prelude.{◌≡◌, IfNone, IfSome, None};
ghost use Rattle.service_conformance.specs.Possible.{reply_in, reply_named, reply_of_owners};
ghost use Rattle.service_conformance.specs.Quiet.{is_removal};
ghost use Rattle.service_descriptions.specs.Steps.{handle_in};

use super::seen_reply::ReplyWord;
use iox2_container::container::ContainerHandle;
use iox2_dynamic::dynamic_config::PortDetails;
use iox2_ids::identifiers::UniqueNodeId;
use service_descriptions::replay::Reply;

/// A reply to a command that has a line, as the variant of `Reply` of this name or of that of the
/// word. Without the other variants it is small.
#[derive(Debug, Drop)]
pub(super) enum LineReply {
    Handle(ContainerHandle),
    Word(ReplyWord),
    Nodes(Vec<UniqueNodeId>),
    Ports(Vec<PortDetails>),
    Count(usize),
}

/// The reply without numbers that has this name.
fn reply_named(word: ReplyWord) -> Reply
    ensures { result ≡ reply_named word }
{
    match word {
        ReplyWord::Locked => Reply::Locked,
        ReplyWord::Full => Reply::Full,
        ReplyWord::NotRegistered => Reply::NotRegistered,
        ReplyWord::HasOwners => Reply::HasOwners,
        ReplyWord::NoMoreOwners => Reply::NoMoreOwners,
        ReplyWord::PortsAttached => Reply::PortsAttached,
        ReplyWord::Released => Reply::Released,
        ReplyWord::NotOwned => Reply::NotOwned,
        ReplyWord::NoHandle => Reply::NoHandle,
        ReplyWord::WrongPattern => Reply::WrongPattern,
    }
}

impl LineReply {
    /// The reply itself.
    pub(super) fn reply(self) -> Reply
        ensures { result ≡ reply_in self }
    {
        match self {
            LineReply::Handle(handle) => Reply::Handle(handle),
            LineReply::Word(word) => reply_named(word),
            LineReply::Nodes(nodes) => Reply::Nodes(nodes),
            LineReply::Ports(ports) => Reply::Ports(ports),
            LineReply::Count(n) => Reply::Count(n),
        }
    }
}

/// How a service answers whether it is locked, when entries were removed.
pub(super) fn reply_of_owners(locked: bool) -> LineReply
    ensures { result ≡ reply_of_owners locked }
{
    if locked {
        LineReply::Word(ReplyWord::NoMoreOwners)
    } else {
        LineReply::Word(ReplyWord::HasOwners)
    }
}

/// The handle that a reply gives.
pub(super) fn given(reply: &LineReply) -> Option<ContainerHandle>
    ensures handle { result ≡ handle_in (reply_in reply.now) }
    ensures none { IfNone result (handle_in (reply_in reply.now) ≡ None) }
    ensures some { IfSome result (λ handle. reply_in reply.now ≡ Reply.Handle handle) }
{
    match reply {
        LineReply::Handle(handle) => Some(*handle),
        _ => None,
    }
}

/// Whether a reply says that an entry was removed.
pub(super) fn is_removal(reply: &LineReply) -> bool
    ensures { result ≡ is_removal (reply_in reply.now) }
{
    match reply {
        LineReply::Word(ReplyWord::HasOwners) => true,
        LineReply::Word(ReplyWord::NoMoreOwners) => true,
        LineReply::Word(ReplyWord::Released) => true,
        _ => false,
    }
}
