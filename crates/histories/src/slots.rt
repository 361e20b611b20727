//! The slots of the calls that are open, and sets of slots: the bit of each slot of a set is set.
ghost use Rattle.std.specs.Prelude.{◌≡◌, ◌<◌, ◌≤◌, None, IfNone, IfOk, IfSome, IsFalse, IsTrue, ℕ, length, get_or, ◌↔◌};
ghost use Rattle.histories.specs.Frontier.{HasSlot, cleared, put};
ghost use Rattle.histories.specs.Gathering.{AreTaken, FreesSlot, TakesSlot};
ghost use Rattle.std.specs.Int.{bit_at};

use super::front::MAX_OPEN;
use std::alloc::AllocError;

/// The first slot that is free.
fn free_slot(slots: &[Option<usize>]) -> Option<usize>
    ensures some { IfSome result (λ slot. (slot < length slots.now)
        × (get_or slots.now slot None ≡ None)) }
    ensures none { IfNone result ((slot : ℕ) → slot < length slots.now
        → get_or slots.now slot None ≡ None → ⊥) }
{
    slots.iter().position(|slot| slot.is_none())
}

/// The slot of the call.
pub(super) fn slot_of(slots: &[Option<usize>], call: usize) -> Option<usize>
    ensures some { IfSome result (λ slot. (slot < length slots.now)
        × HasSlot slots.now slot call) }
    ensures none { IfNone result ((slot : ℕ) → HasSlot slots.now slot call → ⊥) }
{
    slots.iter().position(|slot| *slot == Some(call))
}

/// Gives the call a slot, or returns `None` where none is left.
pub(super) fn take_slot(
    slots: &mut Vec<Option<usize>>,
    call: usize,
) -> Result<Option<usize>, AllocError>
    requires few { length slots.old.items ≤ 64 }
    ensures some { IfOk result (λ taken. IfSome taken
        (λ slot. TakesSlot slots.old.items call slot slots.new.items)) }
    ensures none { IfOk result (λ taken. IfNone taken (AreTaken slots.old.items)) }
{
    if let Some(slot) = free_slot(slots) {
        slots[slot] = Some(call);
        return Ok(Some(slot));
    }
    let slot = slots.len();
    if slot >= MAX_OPEN {
        return Ok(None);
    }
    slots.push(Some(call))?;
    Ok(Some(slot))
}

/// Makes the slot free.
pub(super) fn free(slots: &mut Vec<Option<usize>>, slot: usize)
    requires { slot < length slots.old.items }
    ensures { FreesSlot slots.old.items slot slots.new.items }
{
    slots[slot] = None;
}

/// Whether all slots are free.
pub(super) fn are_free(slots: &[Option<usize>]) -> bool
    ensures yes { IsTrue result → (slot call : ℕ) → HasSlot slots.now slot call → ⊥ }
    ensures no { IsFalse result → (slot : ℕ) × (call : ℕ) × HasSlot slots.now slot call }
{
    for slot in slots {
        if slot.is_some() {
            return false;
        }
    }
    true
}

/// The set of all slots.
pub(super) const ALL: u64 = u64::MAX;

/// Whether the slot is in the set.
pub(super) fn has(set: u64, slot: usize) -> bool
    requires { slot < 64 }
    ensures { IsTrue result ↔ (bit_at set slot ≡ 1) }
{
    set >> slot & 1 == 1
}

/// The set without the slot.
#[tactic(auto, unfolding(crate::specs::Frontier::cleared))]
pub(super) fn without(set: u64, slot: usize) -> u64
    requires { slot < 64 }
    ensures { result ≡ cleared set slot }
{
    set & !(1 << slot)
}

/// The set with the slot.
#[tactic(auto, unfolding(crate::specs::Frontier::put))]
pub(super) fn with(set: u64, slot: usize) -> u64
    requires { slot < 64 }
    ensures { result ≡ put set slot }
{
    set | 1 << slot
}
