//! A register that is written and read.
ghost use Rattle.std.specs.Prelude.{◌≡◌, ℕ, IfNone, IfSome, IsTrue, slice_get};
ghost use Rattle.histories.specs.Frontier.{IsMade, states_in};
ghost use Rattle.histories.specs.Histories.{AreEnough};
ghost use Rattle.histories_tests.specs.Register.{Makes, MakesCall};

use histories::{Left, Machine};
use std::alloc::AllocError;

/// A call on the register, with the reply that was seen.
#[derive(Clone, Copy)]
pub enum Access {
    /// The value that was written.
    Write(u64),
    /// The value that was read.
    Read(u64),
    /// A read that was never answered.
    Unanswered,
}

/// Recorded calls on the register.
#[derive(Drop)]
pub struct Recorded {
    pub calls: Vec<Access>,
}

/// The value after a call, or `None` where the reply is not that of a register with this value.
fn after(access: &Access, value: u64) -> Option<u64>
    ensures some { IfSome result (λ new. Makes access.now value new
        × ((other : ℕ) → Makes access.now value other → other ≡ new)) }
    ensures none { IfNone result ((other : ℕ) → ¬ (Makes access.now value other)) }
{
    match access {
        Access::Write(written) => Some(*written),
        Access::Read(seen) if *seen == value => Some(value),
        Access::Read(_) => None,
        Access::Unanswered => Some(value),
    }
}

/// All values after a call: one, or none.
fn all_after(access: &Access, value: u64) -> Left<u64>
    ensures { AreEnough (Makes access.now value) (states_in result) }
{
    let Some(new) = after(access, value) else {
        return Left::Nothing;
    };
    Left::One(new)
}

/// Makes the call with this value, if it can be. Returns whether it did; else nothing changed.
fn make(access: &Access, value: &mut u64) -> bool
    ensures { IsMade (Makes access.now value.old) value.old value.new result }
{
    let Some(new) = after(access, *value) else {
        return false;
    };
    *value = new;
    true
}

/// Whether the call can be made with this value, and is no write.
fn reads(access: &Access, value: u64) -> bool
    ensures { IsTrue result → Makes access.now value value
        × ((old new : ℕ) → Makes access.now old new → new ≡ old) }
{
    match access {
        Access::Write(_) => false,
        Access::Read(seen) => *seen == value,
        Access::Unanswered => true,
    }
}

/// Whether the call reads another value.
fn reads_other(access: &Access, value: u64) -> bool
    ensures { IsTrue result → (new : ℕ) → ¬ (Makes access.now value new) }
{
    match access {
        Access::Read(seen) => *seen != value,
        _ => false,
    }
}

/// Whether both write one value.
fn write_alike(access: &Access, other: &Access) -> bool
    ensures { IsTrue result → (old mid new : ℕ) → Makes other.now old mid
        → Makes access.now mid new
        → (between : ℕ) × Makes access.now old between × Makes other.now between new }
{
    match (access, other) {
        (Access::Write(value), Access::Write(written)) => *value == *written,
        _ => false,
    }
}

impl Machine for Recorded {
    type State = u64;

    ghost Step = { λ m value call new. MakesCall (slice_get m.calls.items call) value new };

    ghost hash = { λ value. value };

    fn follow(&self, value: &u64, call: usize) -> Result<Left<u64>, AllocError> {
        match self.calls.get(call) {
            Some(access) => Ok(all_after(access, *value)),
            None => Ok(Left::Nothing),
        }
    }

    fn make(&self, value: &mut u64, call: usize) -> Result<bool, AllocError> {
        match self.calls.get(call) {
            Some(access) => Ok(make(access, value)),
            None => Ok(false),
        }
    }

    fn is_idle(&self, value: &u64, call: usize) -> Result<bool, AllocError> {
        match self.calls.get(call) {
            Some(access) => Ok(reads(access, *value)),
            None => Ok(false),
        }
    }

    fn is_blocked(&self, value: &u64, call: usize) -> Result<bool, AllocError> {
        match self.calls.get(call) {
            Some(access) => Ok(reads_other(access, *value)),
            None => Ok(false),
        }
    }

    fn moves_before(&self, call: usize, other: usize) -> bool {
        match (self.calls.get(call), self.calls.get(other)) {
            (Some(access), Some(before)) => write_alike(access, before),
            _ => false,
        }
    }

    fn copied(&self, value: &u64) -> Result<u64, AllocError> {
        Ok(*value)
    }

    fn hash_of(&self, value: &u64) -> u64 {
        *value
    }

    fn same(&self, one: &u64, other: &u64) -> bool {
        *one == *other
    }
}
