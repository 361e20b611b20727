//! The replies that a run could give.
ghost use Rattle.std.specs.Prelude.{◌≡◌};
ghost use Rattle.iox2_dynamic.specs.Ports.{side_of};
ghost use Rattle.service_conformance.specs.Possible.{possible_add};
ghost use Rattle.service_conformance.specs.Sides.{part_at};

use super::line_reply::LineReply;
use super::seen_reply::ReplyWord;
use iox2_container::container::ContainerAddFailure;
use service_descriptions::replay::Reply;

/// One of the three registries of a service.
#[derive(Clone, Copy, Debug, PartialEq, Eq)]
pub enum Part {
    /// The nodes.
    Nodes,
    /// The ports of the pattern's first kind.
    First,
    /// The ports of its second kind.
    Second,
}

impl Part {
    /// The part of a service that the first or the second ports are.
    pub(super) fn of_ports(first: bool) -> Part
        ensures { result ≡ part_at (side_of first) }
    {
        if first { Part::First } else { Part::Second }
    }
}

/// The replies that a run could give to a command.
#[derive(Debug, Drop)]
pub(super) enum Possible {
    /// This one alone.
    One(LineReply),
    /// Each handle of a free slot of this registry, with its next ticket.
    Given(Part),
}

/// The possible replies to an add, by why it is refused.
pub(super) fn possible_add(why: Option<ContainerAddFailure>, part: Part) -> Possible
    ensures { result ≡ possible_add why part }
{
    match why {
        None => Possible::Given(part),
        Some(ContainerAddFailure::IsLocked) => Possible::One(LineReply::Word(ReplyWord::Locked)),
        Some(ContainerAddFailure::OutOfSpace) => Possible::One(LineReply::Word(ReplyWord::Full)),
    }
}

/// The handles that an add may give: each of a free slot, with the next ticket.
#[derive(Debug, Drop)]
pub struct NextHandle {
    /// The ticket.
    pub ticket: u64,
    /// How many slots there are. They are numbered from 0.
    pub capacity: usize,
    /// The slots that are not free, rising, each below the capacity.
    pub taken: Vec<usize>,
}

/// The ids for which the reply to a weak listing is refused.
#[derive(Debug, Drop)]
pub struct PossibleList {
    /// Those that the reply has not, and that were there all the while.
    pub missing: Vec<u128>,
    /// Those that the reply has, and of which none was there.
    pub unseen: Vec<u128>,
}

/// The replies that a run could give, for readers of logs.
#[derive(Debug, Drop)]
pub enum PossibleReplies {
    /// This one alone.
    One(Reply),
    /// Each of these handles.
    Handle(NextHandle),
    /// The list that was seen, with the missing ids and without the unseen ones.
    List(PossibleList),
}
