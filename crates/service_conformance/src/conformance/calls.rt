//! The calls of a history, as a machine.
ghost use Rattle.std.specs.Prelude.{IfNone, IfSome};
ghost use Rattle.service_conformance.specs.Calls.{HasNumber, LacksNumber};
ghost use Rattle.service_conformance.specs.Entries.{service_hash};
ghost use Rattle.service_conformance.specs.Judged.{WindowStep};
ghost use Rattle.service_conformance.specs.Movers.{ChangesAt};

use super::judged_call::JudgedCall;
use super::mover::Change;
use super::watched::WatchedService;
use histories::{Left, Machine};
use std::alloc::{AllocError, Global};

/// The calls of a history, or some that follow one another: the first of them has the first number.
/// A state is what the service must hold, with the weak listings that look at it.
#[derive(Drop)]
pub struct Calls<'a> {
    pub alloc: Global,
    pub first: usize,
    pub calls: &'a [JudgedCall],
}

/// The call of this number.
fn call_at(calls: &[JudgedCall], first: usize, number: usize) -> Option<&JudgedCall>
    ensures some { IfSome result (λ call. HasNumber first calls.now number call.now) }
    ensures none { IfNone result (LacksNumber first calls.now number) }
{
    if number < first {
        return None;
    }
    calls.get(number - first)
}

/// What the call of this number changed, if it was answered and is one of the changes.
fn change_at(calls: &[JudgedCall], first: usize, number: usize) -> Option<Change>
    ensures { IfSome result (ChangesAt first calls.now number) }
{
    match call_at(calls, first, number) {
        Some(made) => made.change(),
        None => None,
    }
}

impl<'a> Machine for Calls<'a> {
    type State = WatchedService;

    ghost Step = { λ m old call new. WindowStep m.first m.calls.now old call new };

    ghost hash = { λ state. service_hash state.service };

    #[tactic(auto, using(crate::proofs::Judged::window_followed))]
    fn follow(
        &self,
        state: &WatchedService,
        call: usize,
    ) -> Result<Left<WatchedService>, AllocError> {
        match call_at(self.calls, self.first, call) {
            Some(made) => made.follow(self.alloc, call, state),
            None => Ok(Left::Nothing),
        }
    }

    #[tactic(auto, using(crate::proofs::Judged::window_made))]
    fn make(&self, state: &mut WatchedService, call: usize) -> Result<bool, AllocError> {
        match call_at(self.calls, self.first, call) {
            Some(made) => made.make(self.alloc, call, state),
            None => Ok(false),
        }
    }

    #[tactic(auto, using(crate::proofs::Judged::window_idle))]
    fn is_idle(&self, state: &WatchedService, call: usize) -> Result<bool, AllocError> {
        match call_at(self.calls, self.first, call) {
            Some(made) => made.is_idle(self.alloc, call, state),
            None => Ok(false),
        }
    }

    fn is_blocked(&self, state: &WatchedService, call: usize) -> Result<bool, AllocError> {
        match call_at(self.calls, self.first, call) {
            Some(made) => made.is_blocked(self.alloc, state),
            None => Ok(false),
        }
    }

    fn moves_before(&self, call: usize, other: usize) -> bool {
        let Some(change) = change_at(self.calls, self.first, call) else {
            return false;
        };
        let Some(other) = change_at(self.calls, self.first, other) else {
            return false;
        };
        change.moves_before(other)
    }

    fn copied(&self, state: &WatchedService) -> Result<WatchedService, AllocError> {
        state.copied(self.alloc)
    }

    fn hash_of(&self, state: &WatchedService) -> u64 {
        state.service().hash()
    }

    fn same(&self, one: &WatchedService, other: &WatchedService) -> bool {
        one.same(other)
    }
}
