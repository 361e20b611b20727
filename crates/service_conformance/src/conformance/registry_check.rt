//! What a registry must hold, by the calls on it that were seen.
ghost use Rattle.std.specs.Prelude.{◌≡◌, ◌↔◌, All, IsTrue, Ok, IfOk, IfNone, IfSome, OnOk, OnErr, filter, length, not};
ghost use Rattle.std.specs.List.{list_any};
ghost use Rattle.iox2_container.specs.State.{fresh, IsRegistry, RegistryState, Handle};
ghost use Rattle.iox2_container.specs.Steps.{AddStep, HasEntry, IsUnknownHandle, RemoveStep, TakesEntry};
ghost use Rattle.iox2_container.specs.Steps.{entries_of, is_of, listed, lock_after};
ghost use Rattle.iox2_container.specs.declared.container.registry.ReleaseState.{ReleaseState};
ghost use Rattle.service_conformance.specs.Dead.{stays, without_node, without_ports};
ghost use Rattle.service_conformance.specs.Entries.{CanList, MayGive, Refuses, StandsAt, slot_entry};
ghost use Rattle.service_conformance.specs.Given.{Becomes, IsBefore, IsUnused, MayStand, StandsLast};
ghost use Rattle.service_conformance.specs.Given.{UsedSo};
ghost use Rattle.service_conformance.specs.Entries.{entries_hash};
ghost use Rattle.service_conformance.specs.Words.{IsNextHandle, ReadsReplyHandle, handle_words};

use super::possible::NextHandle;
use super::same::{Same, are_same};
use super::slot_entry::{
    SlotEntry, details_of, entries_hash, free_position, position_with, slots_of,
};
use iox2_container::container::{
    Attached, ContainerAddFailure, ContainerHandle, ReleaseMode, Role,
};
use iox2_dynamic::dynamic_config::PortDetails;
use iox2_ids::identifiers::UniqueNodeId;
use std::alloc::{AllocError, Global};
use std::marker::Model;

/// The lock after a call, where there were so many entries before, and so many are left.
fn lock_after(mode: ReleaseMode, before: usize, left: usize, locked: bool) -> bool
    ensures { result ≡ lock_after mode before left locked }
{
    match mode {
        ReleaseMode::LockIfLastIndex => before > 0 && left == 0 || locked,
        ReleaseMode::Default => locked,
    }
}

impl<T: Copy> SlotEntry<T> {
    /// Whether it stands before this slot, and has another ticket.
    fn is_before(&self, slot: usize, ticket: u64) -> bool
        ensures yes { IsTrue result → IsBefore slot ticket self.now }
        ensures no { IsBefore slot ticket self.now → IsTrue result }
    {
        self.slot < slot && self.ticket != ticket
    }
}

/// Whether all entries stand before this slot, and none has this ticket.
fn are_before<T: Copy>(entries: &[SlotEntry<T>], slot: usize, ticket: u64) -> bool
    ensures yes { IsTrue result → All (IsBefore slot ticket) entries.now }
    ensures no { All (IsBefore slot ticket) entries.now → IsTrue result }
{
    entries.iter().all(|entry| entry.is_before(slot, ticket))
}

/// What a registry must hold, by what was seen of it.
#[derive(Debug, Drop)]
pub(super) struct RegistryCheck<T: Copy> {
    service: u64,
    role: Role,
    capacity: usize,
    tickets: u64,
    used: u64,
    locked: bool,
    entries: Vec<SlotEntry<T>>,
}

impl<T: Copy> Model for RegistryCheck<T> {
    ghost use Rattle.iox2_container.specs.State.{RegistryState};
    ghost use Rattle.service_conformance.specs.Fields.{registry_of, IsSound};

    ghost Value = { RegistryState T };

    ghost view = { registry_of };

    ghost invariant = { IsSound };
}

impl<T: Copy> RegistryCheck<T> {
    /// An empty registry.
    pub(super) fn new(
        alloc: Global,
        service: u64,
        role: Role,
        capacity: usize,
        tickets: u64,
    ) -> Self
        ensures { result ≡ (fresh service role capacity tickets).registry }
    {
        RegistryCheck {
            service,
            role,
            capacity,
            tickets,
            used: 0,
            locked: false,
            entries: Vec::new(alloc),
        }
    }

    /// A copy.
    pub(super) fn copied(&self, alloc: Global) -> Result<Self, AllocError>
        ensures { IfOk result (λ copy. copy ≡ self.now) }
    {
        Ok(RegistryCheck {
            service: self.service,
            role: self.role,
            capacity: self.capacity,
            tickets: self.tickets,
            used: self.used,
            locked: self.locked,
            entries: Vec::from_slice(alloc, &self.entries)?,
        })
    }

    /// The number with the slots of its entries in turn.
    pub(super) fn hash_after(&self, hash: u64) -> u64
        ensures { result ≡ entries_hash hash self.now.entries }
    {
        entries_hash(hash, &self.entries)
    }

    /// Whether it is locked.
    pub(super) fn is_locked(&self) -> bool
        ensures { result ≡ self.now.locked }
    {
        self.locked
    }

    /// How many entries there are.
    pub(super) fn len(&self) -> usize
        ensures { result ≡ length self.now.entries }
    {
        self.entries.len()
    }

    /// A list may have the details of its entries. None is made: a proof alone looks at it.
    #[inline(always)]
    pub(super) fn can_list(&self)
        ensures { CanList self.now }
    {
        let _entries = &self.entries;
    }

    /// How many slots there are. They are numbered from 0.
    pub(super) fn capacity(&self) -> usize
        ensures { result ≡ self.now.capacity }
    {
        self.capacity
    }

    /// Why an add is refused now, or `None` where it is not.
    pub(super) fn refusal(&self) -> Option<ContainerAddFailure>
        ensures { Refuses self.now result }
    {
        if self.locked {
            return Some(ContainerAddFailure::IsLocked);
        }
        if self.entries.len() >= self.capacity || self.used >= self.tickets {
            return Some(ContainerAddFailure::OutOfSpace);
        }
        None
    }

    /// The handle that the next add may give where it takes this slot, or `None` where the slot is
    /// not free.
    pub(super) fn next(&self, slot: usize) -> Option<ContainerHandle>
        ensures some { IfSome result (λ h. (h.slot ≡ slot) × MayGive self.now h) }
        ensures none { IfNone result ((h : Handle) → h.slot ≡ slot → ¬ (MayGive self.now h)) }
    {
        if slot >= self.capacity {
            return None;
        }
        let Some(_position) = free_position(&self.entries, slot) else {
            return None;
        };
        Some(ContainerHandle::from_parts(self.service, self.role, slot, self.used))
    }

    /// The handles that the next add may give, where it is not refused.
    pub(super) fn next_handle(&self, alloc: Global) -> Result<NextHandle, AllocError>
        ensures { IfOk result (IsNextHandle self.now) }
    {
        Ok(NextHandle {
            ticket: self.used,
            capacity: self.capacity,
            taken: slots_of(alloc, &self.entries)?,
        })
    }

    /// The handle of this slot and this ticket that the next add may give, or `None` where it may
    /// not.
    pub(super) fn handle_at(&self, slot: usize, ticket: u64) -> Option<ContainerHandle>
        ensures { ReadsReplyHandle (MayGive self.now) (handle_words slot ticket) result }
    {
        // For the proof: slots and tickets are numbers of 64 bits.
        let (_capacity, _used) = (self.capacity, self.used);
        let Some(handle) = self.next(slot) else {
            return None;
        };
        if handle.ticket() != ticket {
            return None;
        }
        Some(handle)
    }

    /// Adds an entry with this handle.
    pub(super) fn enter(&mut self, handle: ContainerHandle, details: T) -> Result<(), AllocError>
        requires takes { TakesEntry self.old }
        requires may { MayGive self.old handle }
        ensures ok { OnOk result (AddStep self.old details (Ok handle) self.new) }
        ensures err { OnErr result (self.new ≡ self.old) }
        ensures kept { IsRegistry self.new }
    {
        let slot = handle.slot();
        let Some(position) = free_position(&self.entries, slot) else {
            return Ok(());
        };
        let ticket = handle.ticket();
        self.entries.insert(
            position,
            SlotEntry {
                slot,
                ticket,
                details,
            },
        )?;
        self.used += 1;
        Ok(())
    }

    /// The position of the entry with the handle, or `None` where no entry has it.
    fn position(&self, handle: ContainerHandle) -> Option<usize>
        ensures none { IfNone result (IsUnknownHandle self.now handle) }
        ensures some { IfSome result (StandsAt self.now handle) }
    {
        if handle.service() != self.service {
            return None;
        }
        if handle.role() != self.role {
            return None;
        }
        let Some(position) = position_with(&self.entries, handle.slot(), handle.ticket()) else {
            return None;
        };
        Some(position)
    }

    /// The details of the entry with the handle, or `None` where no entry has it.
    pub(super) fn get(&self, handle: ContainerHandle) -> Option<T>
        ensures none { IfNone result (IsUnknownHandle self.now handle) }
        ensures some { IfSome result (HasEntry self.now handle) }
    {
        let Some(position) = self.position(handle) else {
            return None;
        };
        Some(self.entries[position].details())
    }

    /// Removes the entry with the handle, if there is one.
    pub(super) fn remove(&mut self, handle: ContainerHandle, mode: ReleaseMode)
        ensures { (state : ReleaseState) (new : RegistryState T)
            → RemoveStep self.old handle mode (Ok state) new → new ≡ self.new }
    {
        let Some(position) = self.position(handle) else {
            return;
        };
        let before = self.entries.len();
        self.entries.remove(position);
        self.locked = lock_after(mode, before, before - 1, self.locked);
    }

    /// Whether it is as a new one.
    fn is_unused(&self) -> bool
        ensures yes { IsTrue result → IsUnused self.now }
        ensures no { IsUnused self.now → IsTrue result }
    {
        self.entries.is_empty() && self.used == 0 && !self.locked
    }

    /// Whether an entry of this slot and ticket may stand behind the others.
    fn may_stand(&self, slot: usize, ticket: u64) -> bool
        ensures yes { IsTrue result → MayStand self.now slot ticket }
        ensures no { MayStand self.now slot ticket → IsTrue result }
    {
        !self.locked
            && slot < self.capacity
            && ticket < self.used
            && are_before(&self.entries, slot, ticket)
    }

    /// So many of its tickets were used, and it is locked or not. Returns whether it can be so: it
    /// is as a new one, and has so many tickets.
    pub(super) fn give_used(&mut self, used: u64, locked: bool) -> bool
        ensures { Becomes (UsedSo self.old used locked) self.old result self.new }
    {
        if !self.is_unused() || used > self.tickets {
            return false;
        }
        self.used = used;
        self.locked = locked;
        true
    }

    /// These details stand in this slot, behind the other entries, and were given this ticket.
    /// Returns whether it can be so.
    pub(super) fn give_entry(
        &mut self,
        slot: usize,
        ticket: u64,
        details: T,
    ) -> Result<bool, AllocError>
        ensures gives { IfOk result (λ yes.
            Becomes (StandsLast self.old (slot_entry slot ticket details)) self.old yes self.new) }
        ensures err { OnErr result (self.new ≡ self.old) }
    {
        if !self.may_stand(slot, ticket) {
            return Ok(false);
        }
        self.entries.push(SlotEntry {
            slot,
            ticket,
            details,
        })?;
        Ok(true)
    }

    /// The details by rising slot.
    pub(super) fn listed(&self, alloc: Global) -> Result<Vec<T>, AllocError>
        ensures { IfOk result (λ list. list.items ≡ listed self.now) }
    {
        details_of(alloc, &self.entries)
    }
}

impl<T: Copy + Same> RegistryCheck<T> {
    /// Whether two registries hold the same.
    pub(super) fn same(&self, other: &Self) -> bool
        ensures { IsTrue result ↔ (self.now ≡ other.now) }
    {
        self.used == other.used
            && are_same(&self.entries, &other.entries)
            && self.locked == other.locked
            && self.service == other.service
            && self.role == other.role
            && self.capacity == other.capacity
            && self.tickets == other.tickets
    }
}

impl<T: Copy + Attached> RegistryCheck<T> {
    /// How many entries the node has.
    pub(super) fn count(&self, node: &UniqueNodeId) -> usize
        ensures { result ≡ entries_of T.node node.now self.now }
    {
        self.entries.iter().filter(|e| e.is_of(node)).count()
    }
}

impl RegistryCheck<UniqueNodeId> {
    /// How many entries other nodes have.
    fn others(&self, node: &UniqueNodeId) -> usize
        ensures { result ≡ length
            (filter (λ e. not (is_of (λ i. i) node.now e.details)) self.now.entries) }
    {
        self.entries.iter().filter(|e| !e.is_of(node)).count()
    }

    /// Whether it is locked once all entries of the node are removed.
    pub(super) fn locks_without(&self, dead: &UniqueNodeId) -> bool
        ensures { result ≡ (without_node dead.now self.now).locked }
    {
        let left = self.others(dead);
        lock_after(
            ReleaseMode::LockIfLastIndex,
            self.len(),
            left,
            self.is_locked(),
        )
    }

    /// Removes all entries of the dead node.
    pub(super) fn recover(&mut self, dead: &UniqueNodeId)
        ensures { self.new ≡ without_node dead.now self.old }
    {
        let before = self.entries.len();
        self.entries.retain(|e| !e.is_of(dead));
        let mode = ReleaseMode::LockIfLastIndex;
        self.locked = lock_after(mode, before, self.entries.len(), self.locked);
    }
}

impl RegistryCheck<PortDetails> {
    /// Whether a port of the dead node is left, where those of these values stay.
    pub(super) fn has_left(&self, dead: &UniqueNodeId, kept: &[u128]) -> bool
        ensures { result ≡ list_any (λ e. stays dead.now kept.now e.details)
            self.now.entries }
    {
        self.entries.iter().any(|e| e.stays(dead, kept))
    }

    /// Removes the ports of the dead node, except those of these values.
    pub(super) fn recover(&mut self, dead: &UniqueNodeId, kept: &[u128])
        ensures { self.new ≡ without_ports dead.now kept.now self.old }
    {
        self.entries.retain(|e| !e.goes(dead, kept));
    }
}
