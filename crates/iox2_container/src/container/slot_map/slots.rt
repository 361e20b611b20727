//! Numbered slots, and what is in their cells. No slot's cell is reached but here, where each
//! function of slots reads or writes one once. Changes of a container touch its slots, and queries
//! look at them.
ghost use Rattle.std.specs.Prelude.{◌≡◌, ◌==◌, ◌≢◌, ◌+◌, ◌<◌, Some, IfOk, MatchOption};
ghost use Rattle.std.specs.Prelude.{false, length, map, replicate, slice_get, slice_set};
ghost use Rattle.iox2_container.specs.Cells.{occupant, shown};
ghost use Rattle.iox2_container.specs.Passes.{CellHas, IsAt, SlotIsOf, cell_is_of};

use super::Touches;
use crate::container::registry::Attached;
use iox2_ids::identifiers::UniqueNodeId;
use std::alloc::{AllocError, Global};
use std::marker::Model;

/// Whether two numbers are equal. Where this is inlined, both halves are compared at once again.
#[cold]
#[inline(never)]
fn is_equal(one: u64, other: u64) -> bool
    ensures { result ≡ (one == other) }
{
    one == other
}

/// The entry of a slot: details and ticket.
#[derive(Clone, Copy)]
pub struct Occupant<T: Copy> {
    pub(crate) ticket: u64,
    pub(crate) details: T,
}

/// A slot's cell. A free one keeps what its container finds free slots by.
#[derive(Clone, Copy, Debug)]
pub enum Cell<T: Copy, N: Copy> {
    Free(N),
    Taken { ticket: u64, details: T },
}

impl<T: Copy, N: Copy> Cell<T, N> {
    /// Its entry, if it is taken.
    pub(crate) fn occupant(self) -> Option<Occupant<T>>
        ensures { result ≡ shown self }
    {
        match self {
            Cell::Taken { ticket, details } => Some(Occupant { ticket, details }),
            Cell::Free(_) => None,
        }
    }
}

impl<T: Attached + Copy, N: Copy> Cell<T, N> {
    /// Whether its entry is the node's. Of the numbers of two ids the lower halves, which differ
    /// most since the counters are there, are compared first.
    #[inline(always)]
    pub(crate) fn is_of(&self, node: &UniqueNodeId) -> bool
        ensures { result ≡ cell_is_of T.node node.now (shown self.now) }
    {
        const HALF: u128 = 1 << 64;
        match self {
            Cell::Taken { details, .. } => {
                let (one, other) = (details.node_id().value(), node.value());
                (one % HALF) as u64 == (other % HALF) as u64
                    && is_equal((one / HALF) as u64, (other / HALF) as u64)
            }
            Cell::Free(_) => false,
        }
    }

    /// The details of its entry, if they are the node's. No others are copied.
    #[inline(always)]
    pub(crate) fn of_node(&self, node: &UniqueNodeId) -> Option<T>
        ensures { MatchOption result
            (false ≡ cell_is_of T.node node.now (shown self.now))
            (CellHas T.node node.now (shown self.now)) }
    {
        if !self.is_of(node) {
            return None;
        }
        match self {
            Cell::Taken { details, .. } => Some(*details),
            Cell::Free(_) => None,
        }
    }
}

/// The details in a cell, if they have the ticket.
pub(crate) fn with_ticket<T: Copy>(cell: Option<Occupant<T>>, ticket: u64) -> Option<T>
    ensures { MatchOption result ((details : T) → cell ≢ Some (occupant ticket details))
        (λ details. cell ≡ Some (occupant ticket details)) }
{
    match cell {
        Some(occupant) => {
            if occupant.ticket == ticket {
                Some(occupant.details)
            } else {
                None
            }
        }
        None => None,
    }
}

/// A fixed number of slots, each with a cell in it.
///
/// Contracts see the cells, how many of them there is memory for, and how often one was read or
/// written. The count takes no bytes.
#[derive(Debug, Drop)]
pub struct Slots<C: Copy> {
    cells: Vec<C>,
    touches: Touches,
}

impl<C: Copy> Model for Slots<C> {
    ghost use Rattle.std.specs.Prelude.{vec_capacity};
    ghost use Rattle.iox2_container.specs.Cells.{Cells};

    ghost Value = { Cells C };

    ghost view = { λ s. record {
      cells = s.cells.items;
      room = vec_capacity s.cells;
      touches = s.touches.count;
    } };
}

impl<C: Copy> Slots<C> {
    /// So many slots, each with this cell in it, untouched so far. It takes memory for exactly
    /// them; refused where there is none.
    pub fn new(alloc: Global, capacity: usize, fill: C) -> Result<Self, AllocError>
        ensures cells { IfOk result (λ s. s.cells ≡ replicate capacity fill) }
        ensures room { IfOk result (λ s. s.room ≡ capacity) }
        ensures touches { IfOk result (λ s. s.touches ≡ 0) }
    {
        let mut cells = Vec::with_capacity(alloc, capacity)?;
        for _ in 0..capacity {
            cells.push_reserved(fill);
        }
        Ok(Slots {
            cells,
            touches: Touches::none(),
        })
    }

    /// How many slots there are.
    pub fn len(&self) -> usize
        ensures { result ≡ length self.now.cells }
    {
        self.cells.len()
    }

    /// The cell in a slot. This is a touch.
    pub fn read(&mut self, index: usize) -> C
        requires { index < length self.old.cells }
        ensures cell { slice_get self.old.cells index ≡ Some result }
        ensures cells { self.new.cells ≡ self.old.cells }
        ensures room { self.new.room ≡ self.old.room }
        ensures touches { self.new.touches ≡ self.old.touches + 1 }
    {
        let cell = self.cells[index];
        self.touches = self.touches.one_more();
        cell
    }

    /// Puts a cell into a slot, in place of the one that was there. This is a touch.
    pub fn write(&mut self, index: usize, cell: C)
        requires { index < length self.old.cells }
        ensures cells { self.new.cells ≡ slice_set self.old.cells index cell }
        ensures room { self.new.room ≡ self.old.room }
        ensures touches { self.new.touches ≡ self.old.touches + 1 }
    {
        self.touches = self.touches.one_more();
        self.cells[index] = cell;
    }
}

/// Slots with entries, each with its ticket. A free slot keeps an `N`. Each call but `len` is a
/// touch, or, where it is given a count of looks, a look.
pub type EntrySlots<T, N> = Slots<Cell<T, N>>;

impl<T: Copy, N: Copy> EntrySlots<T, N> {
    /// The entry of a slot. This is a touch.
    pub(crate) fn look(&mut self, slot: usize) -> Option<Occupant<T>>
        requires { slot < length self.old.cells }
        ensures cell { slice_get (map shown self.old.cells) slot ≡ Some result }
        ensures cells { self.new.cells ≡ self.old.cells }
        ensures touched { self.new.touches ≡ self.old.touches + 1 }
    {
        self.read(slot).occupant()
    }

    /// The entry of a slot. This is a look.
    pub(crate) fn peek_at(&self, slot: usize, looks: &mut Touches) -> Option<Occupant<T>>
        requires { slot < length self.now.cells }
        ensures cell { slice_get (map shown self.now.cells) slot ≡ Some result }
        ensures looks { looks.new.count ≡ looks.old.count + 1 }
    {
        *looks = looks.one_more();
        self.cells[slot].occupant()
    }
}

impl<T: Attached + Copy, N: Copy> EntrySlots<T, N> {
    /// The details in a slot, if they are the node's. This is a touch.
    #[inline(always)]
    pub(crate) fn look_for(&mut self, slot: usize, node: &UniqueNodeId) -> Option<T>
        requires { slot < length self.old.cells }
        ensures cells { self.new.cells ≡ self.old.cells }
        ensures touches { self.new.touches ≡ self.old.touches + 1 }
        ensures found { MatchOption result
            (SlotIsOf T.node node.now (map shown self.old.cells) slot false)
            (IsAt T.node node.now (map shown self.old.cells) slot) }
    {
        self.touches = self.touches.one_more();
        self.cells[slot].of_node(node)
    }

    /// Whether the entry in a slot is the node's. This is a look.
    #[inline(always)]
    pub(crate) fn has_at(&self, slot: usize, node: &UniqueNodeId, looks: &mut Touches) -> bool
        requires { slot < length self.now.cells }
        ensures has { SlotIsOf T.node node.now (map shown self.now.cells) slot result }
        ensures looks { looks.new.count ≡ looks.old.count + 1 }
    {
        *looks = looks.one_more();
        self.cells[slot].is_of(node)
    }
}
