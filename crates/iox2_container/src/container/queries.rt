//! What queries do with the slots of a container. None of them changes one.
ghost use Rattle.std.specs.Prelude.{◌≡◌, ◌+◌, ◌≤◌, ◌<◌, ℕ, length, map, nat_lt, true};
ghost use Rattle.std.specs.Bool.{MatchBool};
ghost use Rattle.std.specs.Fn.{CalledAt, TakesAt};
ghost use Rattle.iox2_container.specs.Cells.{shown, Finds, NoneFrom, details_in, entries_from};
ghost use Rattle.iox2_container.specs.Steps.{CanVisit, Visit, candidates, is_of};
ghost use Rattle.iox2_container.specs.Passes.{AreOthers, CalledOnCell, IsLastOf, SlotIsOf};
ghost use Rattle.iox2_container.specs.Passes.{TakesCell};

use super::handle::ContainerHandle;
use super::registry::Attached;
use super::slot_map::Touches;
use super::slot_map::slots::{EntrySlots, Occupant, with_ticket};
use iox2_ids::identifiers::UniqueNodeId;
use iox2_texts::bounded::CallbackProgression;

/// Calls the callback once.
fn call<T: Copy, F: FnMut(&T) -> CallbackProgression>(details: T, f: &mut F) -> CallbackProgression
    requires { TakesAt F.FnMut f.old details }
    ensures { CalledAt F.FnMut f.old details result f.new }
{
    f(&details)
}

/// Calls the callback with the entry of a slot, if it has one.
fn show<T: Copy, F: FnMut(&T) -> CallbackProgression>(
    cell: Option<Occupant<T>>,
    f: &mut F,
) -> CallbackProgression
    requires { TakesCell (TakesAt F.FnMut) f.old cell }
    ensures { CalledOnCell (CalledAt F.FnMut) f.old cell result f.new }
{
    match cell {
        Some(occupant) => call(occupant.details, f),
        None => CallbackProgression::Continue,
    }
}

/// Calls the callback with each entry in turn, until it stops. No slot from the end on has an
/// entry. It makes at most as many looks as there are slots.
pub(super) fn visit<T: Copy, N: Copy, F: FnMut(&T) -> CallbackProgression>(
    slots: &EntrySlots<T, N>,
    end: usize,
    f: &mut F,
    looks: &mut Touches,
)
    requires within { end ≤ length slots.now.cells }
    requires free { NoneFrom (map shown slots.now.cells) end }
    requires callable { CanVisit (TakesAt F.FnMut) (CalledAt F.FnMut) f.old
        (details_in (map shown slots.now.cells)) }
    ensures visit { Visit (CalledAt F.FnMut) f.old (details_in (map shown slots.now.cells)) f.new }
    ensures looks { looks.new.count ≤ looks.old.count + length slots.now.cells }
{
    for slot in 0..end {
        if let CallbackProgression::Stop = show(slots.peek_at(slot, looks), f) {
            return;
        }
    }
}

/// The details in the handle's slot, if they have its ticket. It looks at that slot alone, once.
pub(super) fn find<T: Copy, N: Copy>(
    slots: &EntrySlots<T, N>,
    handle: ContainerHandle,
    looks: &mut Touches,
) -> Option<T>
    requires { handle.slot < length slots.now.cells }
    ensures found { Finds (map shown slots.now.cells) handle result }
    ensures looks { looks.new.count ≡ looks.old.count + 1 }
{
    with_ticket(slots.peek_at(handle.slot(), looks), handle.ticket())
}

/// Whether some slot from one on and before the end has an entry of the node. It looks at them from
/// the last one down to the first that has, each once, and at no other.
fn has_between<T: Attached + Copy, N: Copy>(
    slots: &EntrySlots<T, N>,
    start: usize,
    end: usize,
    node: &UniqueNodeId,
    looks: &mut Touches,
) -> bool
    requires order { start ≤ end }
    requires within { end ≤ length slots.now.cells }
    ensures looks { looks.new.count + start ≤ looks.old.count + end }
    ensures has { MatchBool result
        (IsLastOf T.node node.now (map shown slots.now.cells) start end
        looks.old.count looks.new.count)
        (AreOthers T.node node.now (map shown slots.now.cells) start end) }
{
    let mut slot = end;
    while slot > start {
        slot -= 1;
        if slots.has_at(slot, node, looks) {
            return true;
        }
    }
    false
}

/// Whether the node has an entry. No slot from the end on has one. It looks at the slots before
/// `newest_end` first, from the last one down, and makes at most as many looks as there are slots.
/// Where the slot just before `newest_end` has an entry of the node, it looks at no other.
#[inline(always)]
pub(super) fn has_entry<T: Attached + Copy, N: Copy>(
    slots: &EntrySlots<T, N>,
    newest_end: usize,
    end: usize,
    node: &UniqueNodeId,
    looks: &mut Touches,
) -> bool
    requires within { end ≤ length slots.now.cells }
    requires free { NoneFrom (map shown slots.now.cells) end }
    ensures has { result ≡ nat_lt 0
        (length (candidates (is_of T.node node.now)
        (entries_from 0 (map shown slots.now.cells)))) }
    ensures looks { looks.new.count ≤ looks.old.count + length slots.now.cells }
    ensures newest { (slot : ℕ) → newest_end ≡ slot + 1
        → SlotIsOf T.node node.now (map shown slots.now.cells) slot true
        → looks.new.count ≡ looks.old.count + 1 }
{
    let middle = newest_end.min(end);
    has_between(slots, 0, middle, node, looks) || has_between(slots, middle, end, node, looks)
}

/// How many entries are those of the node. No slot from the end on has an entry. It makes at most
/// as many looks as there are slots.
pub(super) fn count_of<T: Attached + Copy, N: Copy>(
    slots: &EntrySlots<T, N>,
    end: usize,
    node: &UniqueNodeId,
    looks: &mut Touches,
) -> usize
    requires within { end ≤ length slots.now.cells }
    requires free { NoneFrom (map shown slots.now.cells) end }
    ensures looks { looks.new.count ≤ looks.old.count + length slots.now.cells }
    ensures count { result ≡
        length (candidates (is_of T.node node.now) (entries_from 0 (map shown slots.now.cells))) }
{
    let mut count = 0;
    for slot in 0..end {
        if slots.has_at(slot, node, looks) {
            count += 1;
        }
    }
    count
}
