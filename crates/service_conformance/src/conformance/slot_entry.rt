//! Entries by rising slot.
ghost use Rattle.std.specs.Prelude.{◌≡◌, ◌≢◌, ◌<◌, All, AllPairs, IfNone, IfSome};
ghost use Rattle.std.specs.Prelude.{◌↔◌, IfOk, IsTrue, map};
ghost use Rattle.iox2_container.specs.Steps.{is_of};
ghost use Rattle.service_conformance.specs.Dead.{goes, is_kept, stays};
ghost use Rattle.service_conformance.specs.Entries.{HasAt, IsAt, IsFreePosition, entries_hash};

use super::same::Same;
use iox2_container::container::Attached;
use iox2_dynamic::dynamic_config::PortDetails;
use iox2_ids::identifiers::UniqueNodeId;
use std::alloc::{AllocError, Global};
use std::marker::Model;

/// Details in a slot, and the ticket that they were given.
#[derive(Clone, Copy, Debug)]
pub(super) struct SlotEntry<T: Copy> {
    pub(super) slot: usize,
    pub(super) ticket: u64,
    pub(super) details: T,
}

impl<T: Copy> Model for SlotEntry<T> {
    ghost use Rattle.iox2_container.specs.State.{Entry};

    ghost Value = { Entry T };

    ghost view = { λ p. record { slot = p.slot; ticket = p.ticket; details = p.details } };

    ghost inverse = { λ e. record { slot = e.slot; ticket = e.ticket; details = e.details } };
}

impl<T: Copy> SlotEntry<T> {
    /// The slot.
    pub(super) fn slot(&self) -> usize
        ensures { result ≡ self.now.slot }
    {
        self.slot
    }

    /// The details.
    pub(super) fn details(&self) -> T
        ensures { result ≡ self.now.details }
    {
        self.details
    }

    /// Whether these are its slot and its ticket.
    fn is_at(&self, slot: usize, ticket: u64) -> bool
        ensures { IsTrue result ↔ IsAt slot ticket self.now }
    {
        self.slot == slot && self.ticket == ticket
    }
}

impl<T: Copy + Same> Same for SlotEntry<T> {
    fn same(&self, other: &Self) -> bool {
        self.slot == other.slot && self.ticket == other.ticket && self.details.same(&other.details)
    }
}

/// The number with the slots of these entries in turn.
pub(super) fn entries_hash<T: Copy>(start: u64, entries: &[SlotEntry<T>]) -> u64
    ensures { result ≡ entries_hash start entries.now }
{
    entries.iter().fold(start, |hash, entry| {
        (hash % 1021 * 31 + entry.slot() as u64 % 1021) % 1021
    })
}

/// The position that an entry of this slot would have, or `None` where the slot is taken.
pub(super) fn free_position<T: Copy>(entries: &[SlotEntry<T>], slot: usize) -> Option<usize>
    requires { AllPairs (λ a b. a.slot < b.slot) entries.now }
    ensures none { IfNone result (¬ (All (λ e. e.slot ≢ slot) entries.now)) }
    ensures some { IfSome result (IsFreePosition entries.now slot) }
{
    let found = entries.binary_search_by_key(&slot, |entry| entry.slot());
    found.err()
}

/// The position of the entry with this slot and this ticket, or `None` where there is none.
pub(super) fn position_with<T: Copy>(
    entries: &[SlotEntry<T>],
    slot: usize,
    ticket: u64,
) -> Option<usize>
    requires { AllPairs (λ a b. a.slot < b.slot) entries.now }
    ensures none { IfNone result (All (λ e. ¬ (IsAt slot ticket e)) entries.now) }
    ensures some { IfSome result (HasAt entries.now slot ticket) }
{
    entries.iter().position(|entry| entry.is_at(slot, ticket))
}

/// The details of the entries.
pub(super) fn details_of<T: Copy>(
    alloc: Global,
    entries: &[SlotEntry<T>],
) -> Result<Vec<T>, AllocError>
    ensures { IfOk result (λ list. list.items ≡ map (λ e. e.details) entries.now) }
{
    // `collect` would ask for less room where the first request is refused.
    let mut list = Vec::with_capacity(alloc, entries.len())?;
    for entry in entries {
        list.push(entry.details())?;
    }
    Ok(list)
}

/// The slots of the entries.
pub(super) fn slots_of<T: Copy>(
    alloc: Global,
    entries: &[SlotEntry<T>],
) -> Result<Vec<usize>, AllocError>
    ensures { IfOk result (λ list. list.items ≡ map (λ e. e.slot) entries.now) }
{
    let mut list = Vec::with_capacity(alloc, entries.len())?;
    for entry in entries {
        list.push(entry.slot())?;
    }
    Ok(list)
}

impl<T: Copy + Attached> SlotEntry<T> {
    /// Whether it is an entry of the node.
    pub(super) fn is_of(&self, node: &UniqueNodeId) -> bool
        ensures { result ≡ is_of T.node node.now self.now.details }
    {
        self.details.node_id() == *node
    }
}

impl SlotEntry<PortDetails> {
    /// Whether its port has one of these values.
    fn is_kept(&self, kept: &[u128]) -> bool
        ensures { result ≡ is_kept kept.now self.now.details }
    {
        kept.contains(&self.details.key())
    }

    /// Whether it is a port of the dead node that stays.
    pub(super) fn stays(&self, dead: &UniqueNodeId, kept: &[u128]) -> bool
        ensures { result ≡ stays dead.now kept.now self.now.details }
    {
        self.is_of(dead) && self.is_kept(kept)
    }

    /// Whether it is a port of the dead node that goes.
    pub(super) fn goes(&self, dead: &UniqueNodeId, kept: &[u128]) -> bool
        ensures { result ≡ goes dead.now kept.now self.now.details }
    {
        self.is_of(dead) && !self.is_kept(kept)
    }
}
