//! The replies that a command may have, and who is there.
ghost use Rattle.std.specs.Option.{option_map};
ghost use Rattle.std.specs.Prelude.{◌≡◌, ◌++◌, ◌<◌, IfNone, IfOk, IfSome, List, Option, map, true};
ghost use Rattle.iox2_container.specs.State.{Handle};
ghost use Rattle.iox2_container.specs.Steps.{listed};
ghost use Rattle.iox2_dynamic.specs.Service.{IsService};
ghost use Rattle.service_conformance.specs.Looks.{ids_in};
ghost use Rattle.service_conformance.specs.Possible.{ArePossible, MayGiveIn, reply_in};
ghost use Rattle.service_conformance.specs.Quiet.{Reports, quiet};
ghost use Rattle.service_conformance.specs.Calls.{ServesRequest, CanAsk, is_query};
ghost use Rattle.service_conformance.specs.Seen.{seen_text};
ghost use Rattle.service_conformance.specs.Words.{ArePossibleWords, IsNextIn, ReadsReply, ReadsReplyHandle, handle_words};
ghost use Rattle.service_descriptions.specs.Steps.{ServesDead, ServesCount, ServesList};
ghost use Rattle.service_descriptions.specs.Steps.{ServesNodes, ServesAdd, ServesDeregister};
ghost use Rattle.service_descriptions.specs.Steps.{ServesRegister, ServesRelease};
ghost use Rattle.service_descriptions.specs.declared.replay.machine.command.Cleanup.TheVariants as cleanup;
ghost use Rattle.service_descriptions.specs.declared.replay.machine.command.Command.{Command};

use super::super::line_reply::{LineReply, reply_of_owners};
use super::super::possible::{NextHandle, Part, Possible, PossibleReplies, possible_add};
use super::super::request::Request;
use super::super::says::says;
use super::super::seen_reply::{ReplyWord, SeenReply};
use super::ServiceCheck;
use iox2_container::container::{Attached, ContainerHandle, Role};
use iox2_dynamic::dynamic_config::{PortDetails, PortRoles};
use iox2_ids::identifiers::UniqueNodeId;
use std::alloc::{AllocError, Global};

/// The ids that are printed of the items.
fn ids_of<T: Attached>(alloc: Global, items: &[T]) -> Result<Vec<u128>, AllocError>
    ensures { IfOk result (λ ids. ids.items ≡ map T.number items.now) }
{
    let mut ids = Vec::with_capacity(alloc, items.len())?;
    for item in items {
        ids.push(item.key())?;
    }
    Ok(ids)
}

impl ServiceCheck {
    /// The replies that registering a node may have.
    #[inline(always)]
    fn possible_register(&self, _id: UniqueNodeId) -> Possible
        ensures { ArePossible self.now (ServesRegister self.now _id) result }
    {
        let why = self.nodes.refusal();
        possible_add(why, Part::Nodes)
    }

    /// The replies that attaching a port may have.
    #[inline(always)]
    fn possible_attach(&self, details: PortDetails) -> Possible
        ensures { ArePossible self.now (ServesAdd self.now details) result }
    {
        let Some(first) = self.pattern.side(details.role()) else {
            return Possible::One(LineReply::Word(ReplyWord::WrongPattern));
        };
        if self.nodes.is_locked() {
            return Possible::One(LineReply::Word(ReplyWord::Locked));
        }
        if self.nodes.count(&details.node_id()) == 0 {
            return Possible::One(LineReply::Word(ReplyWord::NotRegistered));
        }
        let why = self.ports(first).refusal();
        possible_add(why, Part::of_ports(first))
    }

    /// The replies that removing a node's entry may have.
    #[inline(always)]
    fn possible_deregister(&self, handle: Option<ContainerHandle>) -> Possible
        ensures { ArePossible self.now (ServesDeregister self.now handle) result }
    {
        let nodes = self.nodes();
        let Some(handle) = handle else {
            return Possible::One(LineReply::Word(ReplyWord::NoHandle));
        };
        let Some(id) = nodes.get(handle) else {
            return Possible::One(LineReply::Word(ReplyWord::NotOwned));
        };
        if self.is_last_of_ports(&id) {
            return Possible::One(LineReply::Word(ReplyWord::PortsAttached));
        }
        let locks = nodes.len() == 1;
        Possible::One(reply_of_owners(locks))
    }

    /// The replies that releasing a port may have.
    #[inline(always)]
    fn possible_release(&self, handle: Option<ContainerHandle>) -> Possible
        ensures { ArePossible self.now (ServesRelease self.now handle) result }
    {
        let kind = self.kind();
        let Some(handle) = handle else {
            return Possible::One(LineReply::Word(ReplyWord::NoHandle));
        };
        let Some(first) = kind.side(handle.role()) else {
            return Possible::One(LineReply::Word(ReplyWord::NotOwned));
        };
        let Some(_details) = self.ports(first).get(handle) else {
            return Possible::One(LineReply::Word(ReplyWord::NotOwned));
        };
        Possible::One(LineReply::Word(ReplyWord::Released))
    }

    /// The replies that removing a dead node may have, where the ports of these values stay.
    #[tactic(auto, using(crate::proofs::Dying::dead_possible))]
    fn possible_dead(&self, dead: &UniqueNodeId, kept: &Vec<u128>) -> Possible
        ensures { ArePossible self.now (ServesDead self.now dead.now (cleanup.ByPort kept.now))
            result }
    {
        let locked = self.locks_without(dead, kept);
        Possible::One(reply_of_owners(locked))
    }

    /// The replies that a list of the nodes may be.
    fn possible_nodes(&self, alloc: Global) -> Result<Possible, AllocError>
        ensures { IfOk result (ArePossible self.now (Reports self.now (ServesNodes self.now))) }
    {
        let nodes = self.nodes().listed(alloc)?;
        Ok(Possible::One(LineReply::Nodes(nodes)))
    }

    /// The replies that a list of the ports of a role may be.
    fn possible_list(&self, alloc: Global, role: Role) -> Result<Possible, AllocError>
        ensures { IfOk result (ArePossible self.now (Reports self.now (ServesList self.now role))) }
    {
        let kind = self.kind();
        let Some(first) = kind.side(role) else {
            return Ok(Possible::One(LineReply::Word(ReplyWord::WrongPattern)));
        };
        let ports = self.ports(first).listed(alloc)?;
        Ok(Possible::One(LineReply::Ports(ports)))
    }

    /// The replies that a count of the ports of a role may be.
    fn possible_count(&self, role: Role) -> Possible
        ensures { ArePossible self.now (Reports self.now (ServesCount self.now role)) result }
    {
        let kind = self.kind();
        let Some(first) = kind.side(role) else {
            return Possible::One(LineReply::Word(ReplyWord::WrongPattern));
        };
        let n = self.ports(first).len();
        Possible::One(LineReply::Count(n))
    }

    /// The replies that a command may have.
    #[inline(always)]
    pub(in super::super) fn possible_for(
        &self,
        alloc: Global,
        request: &Request,
    ) -> Result<Possible, AllocError>
        ensures possible { IfOk result
            (ArePossible self.now (ServesRequest request.now self.now)) }
        ensures kept { IsService self.now }
        ensures rest { quiet self.now ≡ self.now }
    {
        // For the proof: what is true of every check.
        let _pattern = &self.pattern;
        match request {
            Request::Register(id) => Ok(self.possible_register(*id)),
            Request::Deregister(handle) => Ok(self.possible_deregister(*handle)),
            Request::Nodes => self.possible_nodes(alloc),
            Request::Add(port) => Ok(self.possible_attach(port.details())),
            Request::Release(handle) => Ok(self.possible_release(*handle)),
            Request::List(role) => self.possible_list(alloc, *role),
            Request::Count(role) => Ok(self.possible_count(*role)),
            Request::Dead(dead, kept) => Ok(self.possible_dead(dead, kept)),
        }
    }

    /// Each query has a reply now, which changes nothing.
    #[inline(always)]
    pub(in super::super) fn answers_queries(&self)
        ensures asked { (c : Command) (handles : List (Option Handle)) → is_query c ≡ true
            → CanAsk self.now handles c }
        ensures kept { IsService self.now }
        ensures rest { quiet self.now ≡ self.now }
    {
        self.nodes.can_list();
        self.first.can_list();
        self.second.can_list();
    }

    /// How many slots the registry of the part has.
    pub(in super::super) fn capacity(&self, part: Part) -> usize
        ensures below { (handle : Handle) → MayGiveIn self.now part handle
            → handle.slot < result }
        ensures kept { IsService self.now }
        ensures rest { quiet self.now ≡ self.now }
    {
        match part {
            Part::Nodes => self.nodes.capacity(),
            Part::First => self.first.capacity(),
            Part::Second => self.second.capacity(),
        }
    }

    /// The handle that the registry of the part may give next where it gives this slot.
    pub(in super::super) fn next_in_slot(&self, part: Part, slot: usize) -> Option<ContainerHandle>
        ensures some { IfSome result (λ h. (h.slot ≡ slot) × MayGiveIn self.now part h) }
        ensures none { IfNone result
            ((h : Handle) → h.slot ≡ slot → ¬ (MayGiveIn self.now part h)) }
    {
        match part {
            Part::Nodes => self.nodes.next(slot),
            Part::First => self.first.next(slot),
            Part::Second => self.second.next(slot),
        }
    }

    /// The handle of this slot and this ticket that the registry of the part may give next.
    #[inline(always)]
    fn handle_at(&self, part: Part, slot: usize, ticket: u64) -> Option<ContainerHandle>
        ensures { ReadsReplyHandle (MayGiveIn self.now part) (handle_words slot ticket) result }
    {
        match part {
            Part::Nodes => self.nodes.handle_at(slot, ticket),
            Part::First => self.first.handle_at(slot, ticket),
            Part::Second => self.second.handle_at(slot, ticket),
        }
    }

    /// Of the possible replies, the one that says what was seen.
    #[inline(always)]
    pub(in super::super) fn reply_seen(
        &self,
        possible: Possible,
        seen: &SeenReply,
    ) -> Option<LineReply>
        ensures { ReadsReply self.now possible (seen_text seen.now)
            (option_map reply_in result) }
    {
        match possible {
            Possible::One(one) => { if says(&one, seen) { Some(one) } else { None } }
            Possible::Given(part) => {
                let SeenReply::Handle(slot, ticket) = seen else {
                    return None;
                };
                let Some(handle) = self.handle_at(part, *slot, *ticket) else {
                    return None;
                };
                Some(LineReply::Handle(handle))
            }
        }
    }

    /// The ids that a list of the part has.
    pub(in super::super) fn ids_in(
        &self,
        alloc: Global,
        part: Part,
    ) -> Result<Vec<u128>, AllocError>
        ensures { IfOk result (λ ids. ids.items ≡ ids_in self.now part) }
    {
        match part {
            Part::Nodes => ids_of(alloc, &self.nodes.listed(alloc)?),
            Part::First => ids_of(alloc, &self.first.listed(alloc)?),
            Part::Second => ids_of(alloc, &self.second.listed(alloc)?),
        }
    }

    /// The handles that the registry of the part may give next, where an add is not refused.
    fn next_in(&self, alloc: Global, part: Part) -> Result<NextHandle, AllocError>
        ensures { IfOk result (IsNextIn self.now part) }
    {
        match part {
            Part::Nodes => self.nodes.next_handle(alloc),
            Part::First => self.first.next_handle(alloc),
            Part::Second => self.second.next_handle(alloc),
        }
    }

    /// The replies that a command may have.
    pub(in super::super) fn possible_replies(
        &self,
        alloc: Global,
        request: &Request,
    ) -> Result<PossibleReplies, AllocError>
        ensures replies { IfOk result (ArePossibleWords (ServesRequest request.now self.now)) }
        ensures kept { IsService self.now }
        ensures rest { quiet self.now ≡ self.now }
    {
        match self.possible_for(alloc, request)? {
            Possible::One(one) => Ok(PossibleReplies::One(one.reply())),
            Possible::Given(part) => Ok(PossibleReplies::Handle(self.next_in(alloc, part)?)),
        }
    }

    /// The nodes that are registered now, by rising slot.
    pub fn nodes_listed(&self, alloc: Global) -> Result<Vec<UniqueNodeId>, AllocError>
        ensures { IfOk result (λ nodes. nodes.items ≡ listed self.now.nodes.registry) }
    {
        self.nodes.listed(alloc)
    }

    /// The ports that are attached now: those of the pattern's first kind by rising slot, and then
    /// the others.
    pub fn ports_listed(&self, alloc: Global) -> Result<Vec<PortDetails>, AllocError>
        ensures { IfOk result (λ ports. ports.items ≡ listed self.now.ports.first.registry
            ++ listed self.now.ports.second.registry) }
    {
        let mut ports = self.first.listed(alloc)?;
        let others = self.second.listed(alloc)?;
        ports.extend_from_slice(&others)?;
        Ok(ports)
    }
}
