//! What is judged of a service: calls, and weak listings that start and stop.
ghost use Rattle.std.specs.Option.{option_map};
ghost use Rattle.std.specs.Prelude.{◌≡◌, ℕ, IfOk, IfSome, IsTrue, None, OnErr, OnOk, map};
ghost use Rattle.histories.specs.Frontier.{IsMade, states_in};
ghost use Rattle.histories.specs.Histories.{AreEnough};
ghost use Rattle.service_conformance.specs.Judged.{AreJudgedReplies, IsIdleJudged, JudgedStep};
ghost use Rattle.service_conformance.specs.Judged.{MayStop, StartsLook, ids_seen, judged_answered};
ghost use Rattle.service_conformance.specs.Judged.{role_added, shown, stopped};
ghost use Rattle.service_conformance.specs.Judged.Judged.{call, starts, stops};
ghost use Rattle.service_conformance.specs.Looks.{Watched, watched};
ghost use Rattle.service_conformance.specs.Movers.{MakesChange};

use super::mover::Change;
use super::possible::{Part, PossibleList, PossibleReplies};
use super::seen_call::SeenCall;
use super::seen_reply::SeenReply;
use super::service_check::ServiceCheck;
use super::watched::WatchedService;
use histories::Left;
use iox2_container::container::Role;
use std::alloc::{AllocError, Global};
use std::marker::Model;

/// What is judged.
enum What {
    /// A call.
    Call(SeenCall),
    /// A weak listing of a part starts to look; with the ids of its reply, if one was seen.
    Starts(Part, Option<Vec<u128>>),
    /// The weak listing that began with this number stops; with its reply, if one was seen.
    Stops(usize, Option<SeenReply>),
}

// By hand, as those of what a call has, to be inlined: where calls are forgotten, it then looks
// only at what owns memory.
impl Drop for What {
    #[inline(always)]
    fn drop(self) {
        match self {
            What::Call(_seen) => {}
            What::Starts(_, _seen) => {}
            What::Stops(_, _seen) => {}
        }
    }
}

/// What is judged of a service: a call, or that a weak listing starts to look or stops.
pub struct JudgedCall {
    what: What,
}

impl Drop for JudgedCall {
    #[inline(always)]
    fn drop(self) {
        let JudgedCall { what: _what } = self;
    }
}

impl Model for JudgedCall {
    ghost use Rattle.service_conformance.specs.Judged.{Judged, judged_of};

    ghost Value = { Judged };

    ghost view = { judged_of };
}

/// A copy of the ids in a reply, if it is a list.
fn ids_seen(alloc: Global, reply: &SeenReply) -> Result<Vec<u128>, AllocError>
    ensures { IfOk result (λ ids. ids.items ≡ ids_seen reply.now) }
{
    match reply {
        SeenReply::List(ids) => Vec::from_slice(alloc, ids),
        _ => Ok(Vec::new(alloc)),
    }
}

/// Whether the weak listing that began with this number may stop.
fn may_stop(state: &WatchedService, start: usize, reply: &Option<SeenReply>) -> bool
    ensures yes { IsTrue result → MayStop start reply.now state.now }
    ensures no { MayStop start reply.now state.now → IsTrue result }
{
    match reply {
        None => true,
        Some(SeenReply::List(_)) => state.lacks_nothing(start),
        Some(_) => false,
    }
}

/// The service with the weak listings of another after each of these.
fn watched_all(
    alloc: Global,
    state: &WatchedService,
    services: &[ServiceCheck],
) -> Result<Vec<WatchedService>, AllocError>
    ensures { IfOk result (λ states. states.items
        ≡ map (λ s. watched s state.now.looks) services.now) }
{
    let mut states = Vec::new(alloc);
    for service in services {
        states.push(WatchedService::watched(alloc, service.copied(alloc)?, state.looks())?)?;
    }
    Ok(states)
}

/// The states that the call leaves: all, or more than are followed.
fn follow_call(
    alloc: Global,
    number: usize,
    made: &SeenCall,
    state: &WatchedService,
) -> Result<Left<WatchedService>, AllocError>
    ensures { IfOk result (λ left.
        AreEnough (JudgedStep number (call made.now) state.now) (states_in left)) }
{
    match made.follow(alloc, state.service())? {
        Left::Nothing => Ok(Left::Nothing),
        Left::One(service) => {
            let next = WatchedService::watched(alloc, service, state.looks())?;
            Ok(Left::One(next))
        }
        Left::All(services) => Ok(Left::All(watched_all(alloc, state, &services)?)),
    }
}

/// A weak listing of a part with this number starts to look at the state.
fn start(
    alloc: Global,
    number: usize,
    part: Part,
    reply: &Option<Vec<u128>>,
    state: &mut WatchedService,
) -> Result<(), AllocError>
    ensures { OnOk result
        (StartsLook number part (option_map (λ ids. ids.items) reply.now) state.old state.new) }
{
    match reply {
        Some(ids) => state.start(alloc, number, part, ids),
        None => Ok(()),
    }
}

/// The state that is left where a weak listing starts to look at it.
fn follow_start(
    alloc: Global,
    number: usize,
    part: Part,
    reply: &Option<Vec<u128>>,
    state: &WatchedService,
) -> Result<WatchedService, AllocError>
    ensures { IfOk result
        (StartsLook number part (option_map (λ ids. ids.items) reply.now) state.now) }
{
    let mut next = state.copied(alloc)?;
    start(alloc, number, part, reply, &mut next)?;
    Ok(next)
}

impl JudgedCall {
    /// A call.
    #[inline(always)]
    pub fn call(seen: SeenCall) -> Self
        ensures { result ≡ call seen }
    {
        JudgedCall {
            what: What::Call(seen),
        }
    }

    /// A weak listing of a part that starts to look, whose reply was not seen.
    pub fn starts(part: Part) -> Self
        ensures { result ≡ starts part None }
    {
        JudgedCall {
            what: What::Starts(part, None),
        }
    }

    /// The weak listing that began with this number stops. Its reply was not seen.
    pub fn stops(start: usize) -> Self
        ensures { result ≡ stops start None }
    {
        JudgedCall {
            what: What::Stops(start, None),
        }
    }

    /// The number of the weak listing that stops.
    pub fn stopped(&self) -> Option<usize>
        ensures { result ≡ stopped self.now }
    {
        match self.what {
            What::Stops(start, _) => Some(start),
            What::Call(_) | What::Starts(_, _) => None,
        }
    }

    /// The role of the entry that it adds, if it is a call that adds one.
    pub fn adds(&self) -> Option<Role>
        ensures { result ≡ role_added self.now }
    {
        match &self.what {
            What::Call(seen) => seen.adds(),
            What::Starts(_, _) | What::Stops(_, _) => None,
        }
    }

    /// This is the reply to the weak listing that starts. Where memory is refused, nothing changes.
    pub fn show(&mut self, alloc: Global, reply: &SeenReply) -> Result<(), AllocError>
        ensures ok { OnOk result (self.new ≡ shown self.old reply.now) }
        ensures err { OnErr result (self.new ≡ self.old) }
    {
        match &mut self.what {
            What::Starts(_, seen) => {
                *seen = Some(ids_seen(alloc, reply)?);
                Ok(())
            }
            What::Call(_) | What::Stops(_, _) => Ok(()),
        }
    }

    /// This reply was seen.
    #[inline(always)]
    pub fn answer(&mut self, reply: SeenReply)
        ensures { self.new ≡ judged_answered self.old reply }
    {
        match &mut self.what {
            What::Call(seen) => seen.answer(reply),
            What::Stops(_, seen) => *seen = Some(reply),
            What::Starts(_, _) => {}
        }
    }

    /// Makes it in this state, as `histories::Machine::make` says.
    pub(super) fn make(
        &self,
        alloc: Global,
        number: usize,
        state: &mut WatchedService,
    ) -> Result<bool, AllocError>
        ensures { IfOk result
            (IsMade (JudgedStep number self.now state.old) state.old state.new) }
    {
        match &self.what {
            What::Call(made) => state.make(alloc, made),
            What::Starts(part, reply) => {
                start(alloc, number, *part, reply, state)?;
                Ok(true)
            }
            What::Stops(start, reply) => Ok(may_stop(state, *start, reply)),
        }
    }

    /// The states that it leaves: all, or more than are followed.
    pub(super) fn follow(
        &self,
        alloc: Global,
        number: usize,
        state: &WatchedService,
    ) -> Result<Left<WatchedService>, AllocError>
        ensures { IfOk result (λ left.
            AreEnough (JudgedStep number self.now state.now) (states_in left)) }
    {
        match &self.what {
            What::Call(made) => follow_call(alloc, number, made, state),
            What::Starts(part, reply) => {
                let next = follow_start(alloc, number, *part, reply, state)?;
                Ok(Left::One(next))
            }
            What::Stops(start, reply) => {
                if !may_stop(state, *start, reply) {
                    return Ok(Left::Nothing);
                }
                Ok(Left::One(state.copied(alloc)?))
            }
        }
    }

    /// Whether it can be made in this state, and changes nothing in whatever state it is made. A no
    /// says nothing.
    pub(super) fn is_idle(
        &self,
        alloc: Global,
        number: usize,
        state: &WatchedService,
    ) -> Result<bool, AllocError>
        ensures { IfOk result (λ idle. IsTrue idle
            → JudgedStep number self.now state.now state.now × IsIdleJudged number self.now) }
    {
        match &self.what {
            What::Call(made) => made.is_idle(alloc, state.service()),
            What::Starts(_, reply) => Ok(reply.is_none()),
            What::Stops(start, reply) => Ok(may_stop(state, *start, reply)),
        }
    }

    /// Whether it cannot be made in this state. A no says nothing.
    pub(super) fn is_blocked(
        &self,
        alloc: Global,
        state: &WatchedService,
    ) -> Result<bool, AllocError>
        ensures { IfOk result (λ blocked. IsTrue blocked
            → (number : ℕ) (new : Watched) → ¬ (JudgedStep number self.now state.now new)) }
    {
        match &self.what {
            What::Call(made) => made.is_blocked(alloc, state.service()),
            What::Starts(_, _) | What::Stops(_, _) => Ok(false),
        }
    }

    /// What it changed, if it is a call that was answered and is one of the changes.
    pub(super) fn change(&self) -> Option<Change>
        ensures { IfSome result (λ change. MakesChange change self.now) }
    {
        match &self.what {
            What::Call(made) => made.change(),
            What::Starts(_, _) | What::Stops(_, _) => None,
        }
    }

    /// Whether it is known to change nothing, in whatever state it is made. A no says nothing.
    pub fn changes_nothing(&self) -> bool
        ensures { IsTrue result → (number : ℕ) → IsIdleJudged number self.now }
    {
        match &self.what {
            What::Call(made) => made.changes_nothing(),
            What::Starts(_, reply) => reply.is_none(),
            What::Stops(_, _) => true,
        }
    }
}

/// The replies with which it leads on from this state.
pub fn possible_replies(
    alloc: Global,
    state: &WatchedService,
    judged: &JudgedCall,
) -> Result<PossibleReplies, AllocError>
    ensures { IfOk result (AreJudgedReplies state.now judged.now) }
{
    match &judged.what {
        What::Call(made) => made.replies(alloc, state.service()),
        What::Stops(start, _) => Ok(PossibleReplies::List(state.lacking(alloc, *start)?)),
        What::Starts(_, _) => Ok(PossibleReplies::List(PossibleList {
            missing: Vec::new(alloc),
            unseen: Vec::new(alloc),
        })),
    }
}
