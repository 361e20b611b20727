//! How free slots are found: by a list of those that were freed, which is linked through the slots,
//! or by a scan for the lowest.
ghost use Rattle.std.specs.Prelude.{◌≡◌, ◌≢◌, ◌+◌, ◌*◌, ◌≤◌, ◌<◌, ℕ, List, [], ◌∷◌, Some, None};
ghost use Rattle.std.specs.Prelude.{length, map, replicate, slice_get, slice_set};
ghost use Rattle.iox2_container.specs.declared.container.slot_map.slots.Cell.{Cell};
ghost use Rattle.iox2_container.specs.declared.container.slot_map.slots.Cell.TheVariants.{Free};
ghost use Rattle.iox2_container.specs.Cells.{occupant, shown, IsTakenAt, NoneFrom, entries_from};
ghost use Rattle.iox2_container.specs.FreeList.{AreFreed, IsFreeList, PutsFirst};

use super::slot_map::slots::{Cell, EntrySlots};
use std::fmt::Debug;

/// Finds free slots, by what it keeps and what the slots keep.
pub trait SlotAllocator<T: Copy>: Drop {
    /// What a free slot keeps.
    type Next: Copy + Debug;

    /// It fits these cells.
    ghost fits: { Self → List (Cell T Self.Next) → Type 0 };

    /// The most touches of a put, by the number of slots.
    ghost most_for_put: { ℕ → ℕ };

    /// Which of the free slots a put takes, and what it keeps of the others.
    ghost puts: { Self → List (Cell T Self.Next) → ℕ → Self → List (Cell T Self.Next) → Type 0 };

    /// The allocator for any number of free slots, and what each of them keeps.
    fn all_free() -> (Self, Self::Next)
        ensures { (n : ℕ) → fits result.0 (replicate n (Free result.1)) };

    /// A slot from which on none is taken, so that a pass may end there.
    fn end(&self, slots: &EntrySlots<T, Self::Next>) -> usize
        requires { fits self.now slots.now.cells }
        ensures within { result ≤ length slots.now.cells }
        ensures free { NoneFrom (map shown slots.now.cells) result };

    /// Puts an entry into a free slot of its choice.
    fn put(&mut self, slots: &mut EntrySlots<T, Self::Next>, ticket: u64, details: T) -> usize
        requires fits { fits self.old slots.old.cells }
        requires room { length (entries_from 0 (map shown slots.old.cells))
            < length slots.old.cells }
        ensures fits { fits self.new slots.new.cells }
        ensures free { slice_get (map shown slots.old.cells) result ≡ Some None }
        ensures chosen { puts self.old slots.old.cells result self.new slots.new.cells }
        ensures cells { map shown slots.new.cells ≡
            slice_set (map shown slots.old.cells) result (Some (occupant ticket details)) }
        ensures touched { slots.new.touches ≤ slots.old.touches + 2 * length slots.old.cells }
        ensures few { slots.new.touches ≤
            slots.old.touches + most_for_put (length slots.old.cells) }
        ensures counted { slots.old.touches ≤ slots.new.touches };

    /// Takes the entry out of a slot.
    fn clear(&mut self, slots: &mut EntrySlots<T, Self::Next>, slot: usize)
        requires fits { fits self.old slots.old.cells }
        requires taken { IsTakenAt (map shown slots.old.cells) slot }
        ensures fits { fits self.new slots.new.cells }
        ensures cells { map shown slots.new.cells ≡
            slice_set (map shown slots.old.cells) slot None }
        ensures touched { slots.new.touches ≡ slots.old.touches + 1 };
}

/// Slots of which a free one has the index of the one that was freed before it.
type LinkedSlots<T> = EntrySlots<T, Option<usize>>;

/// Where the free slots are.
#[derive(Debug, Drop)]
pub struct FreeList {
    // The slot that was freed last, of those that are free again.
    head: Option<usize>,
    // The first slot that was never used.
    fresh: usize,
}

impl<T: Copy> SlotAllocator<T> for FreeList {
    type Next = Option<usize>;

    ghost fits = { IsFreeList };

    ghost most_for_put = { λ n. 2 };

    ghost puts = { PutsFirst };

    #[tactic(auto, using(crate::proofs::FreeList::threaded_new))]
    fn all_free() -> (Self, Option<usize>)
        ensures fits { (n : ℕ) → IsFreeList {T = T} result.0 (replicate n (Free result.1)) }
        ensures none_freed { (n : ℕ) → AreFreed {T = T} result.0 (replicate n (Free result.1)) [] }
        ensures none_used { result.0.fresh ≡ 0 }
    {
        let list = FreeList {
            head: None,
            fresh: 0,
        };
        (list, None)
    }

    fn end(&self, _: &LinkedSlots<T>) -> usize {
        self.fresh
    }

    /// Puts an entry into the slot that was freed last, or else into the first that was never used.
    fn put(&mut self, slots: &mut LinkedSlots<T>, ticket: u64, details: T) -> usize {
        // For the proof: the number of slots fits a `usize`.
        let _fits = slots.len();
        let slot = match self.head {
            Some(freed) => {
                let Cell::Free(next) = slots.read(freed) else {
                    unreachable!()
                };
                self.head = next;
                freed
            }
            None => {
                let slot = self.fresh;
                self.fresh = slot + 1;
                slot
            }
        };
        slots.write(slot, Cell::Taken { ticket, details });
        slot
    }

    /// Takes the entry out of a slot, which is then the next to be used.
    #[tactic(auto, using(crate::proofs::CellEntries::writes))]
    fn clear(&mut self, slots: &mut LinkedSlots<T>, slot: usize)
        requires fits { IsFreeList self.old slots.old.cells }
        requires taken { IsTakenAt (map shown slots.old.cells) slot }
        ensures fits { IsFreeList self.new slots.new.cells }
        ensures cells { map shown slots.new.cells ≡
            slice_set (map shown slots.old.cells) slot None }
        ensures freed { (freed : List ℕ) → AreFreed self.old slots.old.cells freed
            → AreFreed self.new slots.new.cells (slot ∷ freed) }
        ensures fresh { self.new.fresh ≡ self.old.fresh }
        ensures touched { slots.new.touches ≡ slots.old.touches + 1 }
    {
        slots.write(slot, Cell::Free(self.head));
        self.head = Some(slot);
    }
}

/// Finds free slots by a scan. It keeps nothing, so it fits any slots.
#[derive(Debug, Drop)]
pub struct LowestFree;

impl<T: Copy> SlotAllocator<T> for LowestFree {
    type Next = ();

    ghost fits = { λ _ _. Unit {0} };

    ghost most_for_put = { λ n. n + 1 };

    ghost puts = { λ _ cells slot _ _. (k : ℕ) → k < slot
        → slice_get (map shown cells) k ≢ Some None };

    fn all_free() -> (Self, ()) {
        (LowestFree, ())
    }

    fn end(&self, slots: &EntrySlots<T, ()>) -> usize {
        slots.len()
    }

    /// Puts an entry into the lowest free slot.
    #[tactic(auto, using(crate::proofs::CellEntries::writes))]
    fn put(&mut self, slots: &mut EntrySlots<T, ()>, ticket: u64, details: T) -> usize {
        for slot in 0..slots.len() {
            if slots.look(slot).is_none() {
                slots.write(slot, Cell::Taken { ticket, details });
                return slot;
            }
        }
        unreachable!()
    }

    #[tactic(auto, using(crate::proofs::CellEntries::writes))]
    fn clear(&mut self, slots: &mut EntrySlots<T, ()>, slot: usize) {
        slots.write(slot, Cell::Free(()));
    }
}
