//! A container as its changes see it.
ghost use Rattle.std.specs.Prelude.{◌≡◌, ◌+◌, ◌-◌, ◌≤◌, ◌<◌, ◌↔◌, IfOk, IsTrue, length};
ghost use Rattle.std.specs.Fn.{CalledAt, TakesAt};
ghost use Rattle.iox2_container.specs.Steps.{CanBeCalled, Adds, Removes, RecoversBy, details_where};
ghost use Rattle.iox2_container.specs.Steps.{is_of, lock_after, release_state};
ghost use Rattle.iox2_container.specs.State.{fresh, IsRegistry};

use super::free::SlotAllocator;
use super::handle::{ContainerHandle, Role};
use super::passes::{sweep, take_out};
use super::registry::{
    Attached, ContainerAddFailure, ContainerRemoveError, ReleaseMode, ReleaseState,
};
use super::slot_map::slots::{Cell, EntrySlots, Slots};
use iox2_ids::identifiers::UniqueNodeId;
use std::alloc::{AllocError, Global};
use std::marker::Model;

/// What a container knows beside its slots: whose it is, how many entries it has, how many tickets
/// it issued and may issue, and whether it is locked.
#[derive(Debug, Drop)]
pub struct RegistryHeader {
    pub(super) service: u64,
    pub(super) role: Role,
    pub(super) budget: u64,
    pub(super) count: usize,
    pub(super) locked: bool,
    pub(super) used: u64,
}

impl RegistryHeader {
    /// Whether an entry of the container may have the handle, by all parts but its ticket.
    pub(super) fn may_have(&self, handle: ContainerHandle, capacity: usize) -> bool
        ensures { IsTrue result ↔
            ((handle.service ≡ self.now.service) × (handle.role ≡ self.now.role)
            × (handle.slot < capacity)) }
    {
        handle.service() == self.service && handle.role() == self.role && handle.slot() < capacity
    }

    /// Counts this many entries less, locks where the last one was removed and the mode says so,
    /// and returns whether the container is locked then.
    pub(super) fn leave(&mut self, gone: usize, mode: ReleaseMode) -> ReleaseState
        requires { gone ≤ self.old.count }
        ensures left { self.new ≡ record self.old {
          count = self.old.count - gone;
          locked = lock_after mode self.old.count (self.old.count - gone) self.old.locked;
        } }
        ensures state { result ≡ release_state self.new.locked }
    {
        self.count -= gone;
        if gone > 0 {
            self.locked = mode.lock_after(self.count, self.locked);
        }
        ReleaseState::of(self.locked)
    }
}

/// A container as its changes see it: whatever they do with a slot is a touch, since the calls of
/// [`EntrySlots`] are. No query is in reach of them.
#[derive(Debug, Drop)]
pub struct CountedMap<T: Copy, S: SlotAllocator<T>> {
    pub(super) header: RegistryHeader,
    pub(super) slots: EntrySlots<T, S::Next>,
    pub(super) free: S,
    // Just behind the slot of the entry that came last: the next query is likely about its node.
    pub(super) newest_end: usize,
}

impl<T: Copy, S: SlotAllocator<T>> Model for CountedMap<T, S> {
    ghost use Rattle.std.specs.Prelude.{map};
    ghost use Rattle.iox2_container.specs.Cells.{shown, registry_of, AreRegistry};
    ghost use Rattle.iox2_container.specs.State.{ContainerState};

    ghost Value = { ContainerState T };

    ghost view = { λ m. record {
      registry = registry_of m.header (map shown m.slots.cells);
      touches = m.slots.touches;
    } };

    ghost invariant = { λ m.
        AreRegistry m.header (map shown m.slots.cells) m.newest_end
        × S.fits m.free m.slots.cells };
}

impl<T: Copy, S: SlotAllocator<T>> CountedMap<T, S> {
    /// An empty container of a service, for this many entries at a time and this many in all.
    /// Refused where there is no memory for its slots; no call on it takes memory afterwards.
    pub(super) fn new(
        alloc: Global,
        service: u64,
        role: Role,
        capacity: usize,
        tickets: u64,
    ) -> Result<Self, AllocError>
        ensures { IfOk result (λ m. m ≡ fresh service role capacity tickets) }
    {
        let (free, next) = S::all_free();
        let slots = Slots::new(alloc, capacity, Cell::Free(next))?;
        Ok(CountedMap {
            header: RegistryHeader {
                service,
                role,
                budget: tickets,
                count: 0,
                locked: false,
                used: 0,
            },
            slots,
            free,
            newest_end: 0,
        })
    }
}

impl<T: Attached + Copy, S: SlotAllocator<T>> CountedMap<T, S> {
    /// Adds an entry, as [`Registry::add`](super::registry::Registry::add) says.
    #[tactic(auto, using(crate::proofs::Keeping::slots_of_add))]
    pub(super) fn add(&mut self, details: T) -> Result<ContainerHandle, ContainerAddFailure>
        ensures known { IsRegistry self.old.registry }
        ensures adds { Adds self.old details result self.new }
        ensures few { self.new.touches ≤
            self.old.touches + S.most_for_put self.old.registry.capacity }
    {
        if self.header.locked {
            return Err(ContainerAddFailure::IsLocked);
        }
        if self.header.used >= self.header.budget || self.header.count == self.slots.len() {
            return Err(ContainerAddFailure::OutOfSpace);
        }
        let ticket = self.header.used;
        self.header.used = ticket + 1;
        self.header.count += 1;
        let slot = self.free.put(&mut self.slots, ticket, details);
        self.newest_end = slot + 1;
        Ok(ContainerHandle::from_parts(self.header.service, self.header.role, slot, ticket))
    }

    /// Removes an entry, as [`Registry::remove`](super::registry::Registry::remove) says.
    pub(super) fn remove(
        &mut self,
        handle: ContainerHandle,
        mode: ReleaseMode,
    ) -> Result<ReleaseState, ContainerRemoveError>
        ensures known { IsRegistry self.old.registry }
        ensures removes { Removes self.old handle mode result self.new }
        ensures few { self.new.touches ≤ self.old.touches + 2 }
    {
        let refused = Err(ContainerRemoveError::ContainerHandleNotOwnedByContainer);
        if !self.header.may_have(handle, self.slots.len()) {
            return refused;
        }
        match take_out(&mut self.slots, &mut self.free, handle) {
            Some(_) => Ok(self.header.leave(1, mode)),
            None => refused,
        }
    }

    /// Recovers entries, as [`Registry::recover`](super::registry::Registry::recover) says.
    pub(super) fn recover<F: FnMut(&T) -> bool>(
        &mut self,
        dead: &UniqueNodeId,
        f: &mut F,
        mode: ReleaseMode,
    ) -> ReleaseState
        requires { CanBeCalled (TakesAt F.FnMut) (CalledAt F.FnMut) f.old
            (details_where (is_of T.node dead.now) self.old.registry) }
        ensures known { IsRegistry self.old.registry }
        ensures recovers { RecoversBy (CalledAt F.FnMut) (is_of T.node dead.now)
            self.old f.old mode result self.new f.new }
        ensures few { self.new.touches + length self.new.registry.entries ≤
            self.old.touches + self.old.registry.capacity + length self.old.registry.entries }
    {
        if self.header.count == 0 {
            return ReleaseState::of(self.header.locked);
        }
        let gone = sweep(&mut self.slots, &mut self.free, dead, f);
        self.header.leave(gone, mode)
    }
}
