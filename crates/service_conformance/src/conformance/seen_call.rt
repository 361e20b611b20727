//! Calls that were seen.
ghost use Rattle.std.specs.Prelude.{◌≡◌, ◌+◌, IfNone, IfOk, IfSome, IsTrue, None, OnErr, OnOk, Some};
ghost use Rattle.histories.specs.Frontier.{IsMade, states_in};
ghost use Rattle.histories.specs.Histories.{AreEnough};
ghost use Rattle.service_conformance.specs.Calls.{AreGivenBelow, AreRepliesOf, CallStep, ChangesNothing};
ghost use Rattle.service_conformance.specs.Calls.{IsIdleCall, ServesCall};
ghost use Rattle.service_conformance.specs.Calls.{answered, call_of, command_adds};
ghost use Rattle.service_conformance.specs.Movers.{IsChange};
ghost use Rattle.service_conformance.specs.Possible.{ArePossible, reply_in};
ghost use Rattle.service_conformance.specs.Quiet.{CanServe, LeadsTo, quiet};
ghost use Rattle.service_conformance.specs.Seen.{changes_nothing, seen_text};
ghost use Rattle.iox2_dynamic.specs.Service.{IsService, Service};
ghost use Rattle.service_descriptions.specs.Lines.{command_of};
ghost use Rattle.service_conformance.specs.declared.conformance.possible.Possible.TheVariants as possible;

use super::line_reply::LineReply;
use super::mover::{Change, change_of};
use super::possible::{Part, Possible, PossibleReplies};
use super::request::Request;
use super::seen_reply::{SeenReply, changes_nothing};
use super::service_check::ServiceCheck;
use histories::{Left, MAX_CONFIGS};
use iox2_container::container::{ContainerHandle, Role};
use service_descriptions::replay::LineCommand;
use std::alloc::{AllocError, Global};
use std::marker::Model;

/// A call: its command, with the handle that a removal names, if it names one, and the reply that
/// was seen, or none.
pub struct SeenCall {
    request: Request,
    seen: Option<SeenReply>,
}

impl Drop for SeenCall {
    #[inline(always)]
    fn drop(self) {
        let SeenCall {
            request: _request,
            seen: _seen,
        } = self;
    }
}

impl Model for SeenCall {
    ghost use Rattle.service_conformance.specs.Calls.{Call, seen_as};

    ghost Value = { Call };

    ghost view = { seen_as };
}

impl SeenCall {
    /// A call whose reply was not seen. The command of a removal names the handle, whatever its
    /// number; where it names none, and for other commands, there is none.
    #[inline(always)]
    pub fn new(command: LineCommand, handle: Option<ContainerHandle>) -> Self
        ensures { result ≡ call_of (command_of command) handle }
    {
        SeenCall {
            request: Request::new(command, handle),
            seen: None,
        }
    }

    /// This reply was seen.
    #[inline(always)]
    pub fn answer(&mut self, reply: SeenReply)
        ensures { self.new ≡ answered self.old (seen_text reply) }
    {
        self.seen = Some(reply);
    }

    /// The role of the entry that its command adds, if it adds one.
    pub(super) fn adds(&self) -> Option<Role>
        ensures { result ≡ command_adds self.now.command }
    {
        self.request.adds()
    }

    /// The reply that was seen.
    #[inline(always)]
    fn seen(&self) -> Option<&SeenReply>
        ensures some { IfSome result (λ seen. self.now.words ≡ Some (seen_text seen.now)) }
        ensures none { IfNone result (self.now.words ≡ None) }
    {
        match &self.seen {
            Some(seen) => Some(seen),
            None => None,
        }
    }

    /// The replies that the call may have in this state.
    #[inline(always)]
    fn possible(&self, alloc: Global, state: &ServiceCheck) -> Result<Possible, AllocError>
        ensures possible { IfOk result (ArePossible state.now (ServesCall self.now state.now)) }
        ensures kept { IsService state.now }
        ensures rest { quiet state.now ≡ state.now }
    {
        state.possible_for(alloc, &self.request)
    }

    /// Makes the call in this state, with this reply. Where memory is refused, nothing changes.
    #[inline(always)]
    fn make_with(&self, state: &mut ServiceCheck, reply: &LineReply) -> Result<(), AllocError>
        requires { CanServe (ServesCall self.now state.old) (reply_in reply.now) }
        ensures ok { OnOk result (LeadsTo (ServesCall self.now state.old) (reply_in reply.now)
            state.new) }
        ensures err { OnErr result (state.new ≡ state.old) }
    {
        state.follow_request(&self.request, reply)
    }

    /// The state that the call leaves with this reply.
    fn state_after(
        &self,
        alloc: Global,
        state: &ServiceCheck,
        reply: &LineReply,
    ) -> Result<ServiceCheck, AllocError>
        requires { CanServe (ServesCall self.now state.now) (reply_in reply.now) }
        ensures { IfOk result (LeadsTo (ServesCall self.now state.now) (reply_in reply.now)) }
    {
        let mut next = state.copied(alloc)?;
        self.make_with(&mut next, reply)?;
        Ok(next)
    }

    /// Makes the call in this state, if it was answered and can be made. Returns whether it did;
    /// else nothing changed.
    pub(super) fn make(&self, alloc: Global, state: &mut ServiceCheck) -> Result<bool, AllocError>
        ensures { IfOk result (IsMade (CallStep self.now state.old) state.old state.new) }
    {
        let Some(seen) = self.seen() else {
            return Ok(false);
        };
        let possible = self.possible(alloc, state)?;
        let Some(reply) = state.reply_seen(possible, seen) else {
            return Ok(false);
        };
        self.make_with(state, &reply)?;
        Ok(true)
    }

    /// Adds the state that an add leaves where it gives this slot, if it is free.
    fn follow_slot(
        &self,
        alloc: Global,
        state: &ServiceCheck,
        part: Part,
        slot: usize,
        found: &mut Vec<ServiceCheck>,
    ) -> Result<(), AllocError>
        requires all { ArePossible state.now (ServesCall self.now state.now) (possible.Given part) }
        ensures { OnOk result (AreGivenBelow self.now state.now part slot found.old.items
            → AreGivenBelow self.now state.now part (slot + 1) found.new.items) }
    {
        let Some(handle) = state.next_in_slot(part, slot) else {
            return Ok(());
        };
        let next = self.state_after(alloc, state, &LineReply::Handle(handle))?;
        found.push(next)?;
        Ok(())
    }

    /// The states that an add leaves: one for each free slot of the registry of the part, but no
    /// more than one above `MAX_CONFIGS`.
    fn follow_add(
        &self,
        alloc: Global,
        state: &ServiceCheck,
        part: Part,
    ) -> Result<Vec<ServiceCheck>, AllocError>
        requires words { self.now.words ≡ None }
        requires all { ArePossible state.now (ServesCall self.now state.now) (possible.Given part) }
        ensures { IfOk result (λ found. AreEnough (CallStep self.now state.now) found.items) }
    {
        let mut found = Vec::new(alloc);
        for slot in 0..state.capacity(part) {
            if found.len() > MAX_CONFIGS {
                return Ok(found);
            }
            self.follow_slot(alloc, state, part, slot, &mut found)?;
        }
        Ok(found)
    }

    /// The states that the call leaves with any reply: all, or more than `MAX_CONFIGS`, each once.
    fn follow_any(
        &self,
        alloc: Global,
        state: &ServiceCheck,
    ) -> Result<Left<ServiceCheck>, AllocError>
        requires { self.now.words ≡ None }
        ensures { IfOk result (λ left. AreEnough (CallStep self.now state.now) (states_in left)) }
    {
        match self.possible(alloc, state)? {
            Possible::One(reply) => Ok(Left::One(self.state_after(alloc, state, &reply)?)),
            Possible::Given(part) => Ok(Left::All(self.follow_add(alloc, state, part)?)),
        }
    }

    /// The states that the call leaves: with a reply that was seen one, or none.
    pub(super) fn follow(
        &self,
        alloc: Global,
        state: &ServiceCheck,
    ) -> Result<Left<ServiceCheck>, AllocError>
        ensures { IfOk result (λ left. AreEnough (CallStep self.now state.now) (states_in left)) }
    {
        let Some(seen) = self.seen() else {
            return self.follow_any(alloc, state);
        };
        let possible = self.possible(alloc, state)?;
        let Some(reply) = state.reply_seen(possible, seen) else {
            return Ok(Left::Nothing);
        };
        Ok(Left::One(self.state_after(alloc, state, &reply)?))
    }

    /// Whether the call is a query whose reply was not seen. Such a call can be made in each state:
    /// no list is made to find that out.
    #[inline(always)]
    fn is_open_query(&self, state: &ServiceCheck) -> bool
        ensures { IsTrue result → self.now.words ≡ None → IsIdleCall self.now state.now }
    {
        state.answers_queries();
        self.request.is_query()
    }

    /// Whether the call can be made in this state, and changes nothing in whatever state it is
    /// made. A no says nothing.
    pub(super) fn is_idle(&self, alloc: Global, state: &ServiceCheck) -> Result<bool, AllocError>
        ensures { IfOk result (λ idle. IsTrue idle → IsIdleCall self.now state.now) }
    {
        let Some(seen) = self.seen() else {
            return Ok(self.is_open_query(state));
        };
        if !changes_nothing(seen) {
            return Ok(false);
        }
        let possible = self.possible(alloc, state)?;
        let Some(_reply) = state.reply_seen(possible, seen) else {
            return Ok(false);
        };
        Ok(true)
    }

    /// Whether a reply was seen, and the call cannot be made in this state. A no says nothing.
    pub(super) fn is_blocked(&self, alloc: Global, state: &ServiceCheck) -> Result<bool, AllocError>
        ensures { IfOk result (λ blocked. IsTrue blocked
            → (new : Service) → ¬ (CallStep self.now state.now new)) }
    {
        let Some(seen) = self.seen() else {
            return Ok(false);
        };
        let possible = self.possible(alloc, state)?;
        Ok(state.reply_seen(possible, seen).is_none())
    }

    /// Whether the reply that was seen says that nothing changed, or the call is a query whose
    /// reply was not seen. Such a call changes nothing, in whatever state it is made. A no says
    /// nothing.
    pub(super) fn changes_nothing(&self) -> bool
        ensures { IsTrue result → ChangesNothing self.now }
    {
        let Some(seen) = &self.seen else {
            return self.request.is_query();
        };
        changes_nothing(seen)
    }

    /// What the call changed, if it was answered and is one of the changes.
    pub(super) fn change(&self) -> Option<Change>
        ensures { IfSome result (λ change. IsChange change self.now) }
    {
        match &self.seen {
            Some(seen) => change_of(&self.request, seen),
            None => None,
        }
    }

    /// The replies that the call may have in this state.
    pub(super) fn replies(
        &self,
        alloc: Global,
        state: &ServiceCheck,
    ) -> Result<PossibleReplies, AllocError>
        ensures { IfOk result (AreRepliesOf state.now self.now) }
    {
        state.possible_replies(alloc, &self.request)
    }
}
