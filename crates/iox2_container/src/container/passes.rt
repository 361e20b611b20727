//! What changes do with the slots of a container: passes over all of them, and a removal.
ghost use Rattle.std.specs.Prelude.{◌≡◌, ◌+◌, ◌≤◌, ◌<◌, IfNone, IfSome, IsSome, IsTrue, None, false};
ghost use Rattle.std.specs.Prelude.{MatchOption, length, map, slice_set, if◌then◌else◌};
ghost use Rattle.std.specs.Fn.{CalledAt, TakesAt};
ghost use Rattle.iox2_container.specs.Cells.{shown, Finds, IsTakenAt, entries_from};
ghost use Rattle.iox2_container.specs.Steps.{CanBeCalled, candidates, is_of};
ghost use Rattle.iox2_container.specs.Passes.{AreOthers, IsNextOf, Swept, looked_at};

use super::free::SlotAllocator;
use super::handle::ContainerHandle;
use super::registry::Attached;
use super::slot_map::slots::{EntrySlots, with_ticket};
use iox2_ids::identifiers::UniqueNodeId;

/// An entry that a search found, and where.
#[derive(Clone, Copy)]
struct Found<T: Copy> {
    slot: usize,
    details: T,
}

/// Whether one of this many slots from one on has an entry of the node. The first that is found is
/// written where the caller says, so that nothing is written where nothing is found.
#[inline(always)]
fn has_next<T: Attached + Copy, N: Copy>(
    slots: &mut EntrySlots<T, N>,
    start: usize,
    number: usize,
    node: &UniqueNodeId,
    found: &mut Option<Found<T>>,
) -> bool
    requires within { start + number ≤ length slots.old.cells }
    requires nothing { found.old ≡ None }
    ensures cells { slots.new.cells ≡ slots.old.cells }
    ensures touches { slots.new.touches
        ≡ slots.old.touches + looked_at start (start + number) found.new }
    ensures some { IsTrue result → IsSome found.new }
    ensures none { result ≡ false → found.new ≡ None }
    ensures found { MatchOption found.new
        (AreOthers T.node node.now (map shown slots.old.cells) start (start + number))
        (IsNextOf T.node node.now (map shown slots.old.cells) start (start + number)) }
{
    // For the proof: the number of slots fits a `usize`.
    let _fits = slots.len();
    for i in 0..number {
        let slot = start + i;
        if let Some(details) = slots.look_for(slot, node) {
            *found = Some(Found { slot, details });
            return true;
        }
    }
    false
}

/// The same as [`next_of`], for the few slots that are left.
fn next_of_few<T: Attached + Copy, N: Copy>(
    slots: &mut EntrySlots<T, N>,
    start: usize,
    end: usize,
    node: &UniqueNodeId,
) -> Option<Found<T>>
    requires order { start ≤ end }
    requires within { end ≤ length slots.old.cells }
    ensures cells { slots.new.cells ≡ slots.old.cells }
    ensures touches { slots.new.touches ≡ slots.old.touches + looked_at start end result }
    ensures found { MatchOption result
        (AreOthers T.node node.now (map shown slots.old.cells) start end)
        (IsNextOf T.node node.now (map shown slots.old.cells) start end) }
{
    let mut found = None;
    has_next(slots, start, end - start, node, &mut found);
    found
}

/// The first entry of the node from one slot on and before the end. It reads each slot up to that
/// of the entry once, or each slot before the end, and no other. Eight are read in one turn.
fn next_of<T: Attached + Copy, N: Copy>(
    slots: &mut EntrySlots<T, N>,
    start: usize,
    end: usize,
    node: &UniqueNodeId,
) -> Option<Found<T>>
    requires order { start ≤ end }
    requires within { end ≤ length slots.old.cells }
    ensures cells { slots.new.cells ≡ slots.old.cells }
    ensures touches { slots.new.touches ≡ slots.old.touches + looked_at start end result }
    ensures found { MatchOption result
        (AreOthers T.node node.now (map shown slots.old.cells) start end)
        (IsNextOf T.node node.now (map shown slots.old.cells) start end) }
{
    let mut found = None;
    let mut slot = start;
    while end - slot >= 8 {
        if has_next(slots, slot, 8, node, &mut found) {
            return found;
        }
        slot += 8;
    }
    next_of_few(slots, slot, end, node)
}

/// Clears the slot of an entry that was found, if the callback says so.
fn sweep_found<T: Attached + Copy, S: SlotAllocator<T>, F: FnMut(&T) -> bool>(
    slots: &mut EntrySlots<T, S::Next>,
    free: &mut S,
    found: Found<T>,
    f: &mut F,
) -> bool
    requires fits { S.fits free.old slots.old.cells }
    requires taken { IsTakenAt (map shown slots.old.cells) found.slot }
    requires callable { TakesAt F.FnMut f.old found.details }
    ensures fits { S.fits free.new slots.new.cells }
    ensures called { CalledAt F.FnMut f.old found.details result f.new }
    ensures cells { map shown slots.new.cells ≡
        (if result then slice_set (map shown slots.old.cells) found.slot None
        else map shown slots.old.cells) }
    ensures touches { slots.new.touches ≡ slots.old.touches + (if result then 1 else 0) }
{
    let goes = f(&found.details);
    if goes {
        free.clear(slots, found.slot);
    }
    goes
}

/// Clears the slots of the dead node's entries for which the callback says so, and counts them. It
/// makes at most as many accesses as there are slots and entries that it clears, together.
pub(super) fn sweep<T: Attached + Copy, S: SlotAllocator<T>, F: FnMut(&T) -> bool>(
    slots: &mut EntrySlots<T, S::Next>,
    free: &mut S,
    dead: &UniqueNodeId,
    f: &mut F,
) -> usize
    requires fits { S.fits free.old slots.old.cells }
    requires callable { CanBeCalled (TakesAt F.FnMut) (CalledAt F.FnMut) f.old
        (map (λ e. e.details)
        (candidates (is_of T.node dead.now)
        (entries_from 0 (map shown slots.old.cells)))) }
    ensures fits { S.fits free.new slots.new.cells }
    ensures swept { Swept (CalledAt F.FnMut) (is_of T.node dead.now)
        f.old (entries_from 0 (map shown slots.old.cells))
        f.new (entries_from 0 (map shown slots.new.cells)) result }
    ensures len { length (map shown slots.new.cells) ≡ length (map shown slots.old.cells) }
    ensures touched { slots.new.touches ≤ slots.old.touches + length slots.old.cells + result }
    ensures counted { slots.old.touches ≤ slots.new.touches }
{
    let end = free.end(slots);
    let mut gone = 0;
    let mut start = 0;
    while let Some(found) = next_of(slots, start, end, dead) {
        if sweep_found(slots, free, found, f) {
            gone += 1;
        }
        start = found.slot + 1;
    }
    gone
}

/// Takes the entry out of the handle's slot, if it has its ticket.
pub(super) fn take_out<T: Copy, S: SlotAllocator<T>>(
    slots: &mut EntrySlots<T, S::Next>,
    free: &mut S,
    handle: ContainerHandle,
) -> Option<T>
    requires slot { handle.slot < length slots.old.cells }
    requires fits { S.fits free.old slots.old.cells }
    ensures fits { S.fits free.new slots.new.cells }
    ensures found { Finds (map shown slots.old.cells) handle result }
    ensures gone { IfSome result (λ _.
        map shown slots.new.cells ≡ slice_set (map shown slots.old.cells) handle.slot None) }
    ensures kept { IfNone result (map shown slots.new.cells ≡ map shown slots.old.cells) }
    ensures touched { slots.new.touches ≤ slots.old.touches + 2 }
    ensures counted { slots.old.touches ≤ slots.new.touches }
{
    let slot = handle.slot();
    match with_ticket(slots.look(slot), handle.ticket()) {
        Some(details) => {
            free.clear(slots, slot);
            Some(details)
        }
        None => None,
    }
}
