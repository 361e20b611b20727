//! The one container, whatever finds its free slots.
ghost use Rattle.std.specs.Prelude.{◌≡◌, ◌+◌, ℕ, IfOk};
ghost use Rattle.std.specs.Borrow.{ftrue};
ghost use Rattle.iox2_container.specs.State.{fresh};

use super::counted_map::CountedMap;
use super::free::{FreeList, LowestFree, SlotAllocator};
use super::handle::{ContainerHandle, Role};
use super::queries::{count_of, find, has_entry, visit};
use super::registry::{
    Attached, ContainerAddFailure, ContainerRemoveError, Registry, ReleaseMode, ReleaseState,
};
use iox2_ids::identifiers::UniqueNodeId;
use iox2_texts::bounded::CallbackProgression;
use std::alloc::{AllocError, Global};
use std::marker::Model;

pub(super) mod slots;

/// A count for proofs: how often slots were read or written, or, in a call that changes nothing,
/// how often it looked at one. It takes no bytes, and its functions do nothing when they run. They
/// are private, so that new slots and the calls of a registry alone begin a count, and the calls of
/// slots alone raise one.
#[derive(Debug, Drop)]
pub(crate) struct Touches {
    pub(crate) ghost count: { ℕ },
}

impl Model for Touches {
    ghost also_owns = { λ _. ftrue };
}

impl Touches {
    /// None so far.
    fn none() -> Self
        ensures { result.count ≡ 0 }
    {
        Touches {}
    }

    /// One more.
    fn one_more(&self) -> Self
        ensures { result.count ≡ self.now.count + 1 }
    {
        Touches {}
    }
}

/// A registry that puts each entry into the lowest free slot, which it
/// finds by reading the slots from the first on. Adding touches at most
/// one slot more often than there are slots, removing at most two slots.
///
/// From `crates/registries_tests/src/containers/comparison.rt`:
///
/// ```
/// let mut scan = Container::new(alloc, 1, Role::Node, capacity, tickets)?;
/// ```
pub type Container<T> = SlotMap<T, LowestFree>;

/// A registry that puts each entry into the slot that was freed last, or else into the lowest that
/// was never used. Adding and removing touch at most two slots.
///
/// From `crates/registries_tests/src/containers/comparison.rt`:
///
/// ```
/// let mut list = ListContainer::new(alloc, 2, Role::Reader, capacity, tickets)?;
/// ```
pub type ListContainer<T> = SlotMap<T, FreeList>;

/// A registry, by what finds its free slots. An add touches slots at most as often as
/// `most_for_put` of that says, a removal at most twice.
#[derive(Debug, Drop)]
pub struct SlotMap<T: Copy, S: SlotAllocator<T>> {
    map: CountedMap<T, S>,
}

impl<T: Copy, S: SlotAllocator<T>> Model for SlotMap<T, S> {
    ghost use Rattle.iox2_container.specs.State.{ContainerState};

    ghost Value = { ContainerState T };

    ghost view = { λ m. m.map };
}

impl<T: Copy, S: SlotAllocator<T>> SlotMap<T, S> {
    /// An empty container of a service, for this many entries at a time and this many in all.
    /// Refused where there is no memory for its slots; no call on it takes memory afterwards.
    pub fn new(
        alloc: Global,
        service: u64,
        role: Role,
        capacity: usize,
        tickets: u64,
    ) -> Result<Self, AllocError>
        ensures { IfOk result (λ m. m ≡ fresh service role capacity tickets) }
    {
        let map = CountedMap::new(alloc, service, role, capacity, tickets)?;
        Ok(SlotMap { map })
    }
}

/// Each change is one call of the map of the same name, which counts it. Queries do not change the
/// map, and count their looks.
impl<T: Attached + Copy, S: SlotAllocator<T>> Registry<T> for SlotMap<T, S> {
    ghost state = { λ m. m };

    ghost most_for_add = { S.most_for_put };

    ghost most_for_remove = { 2 };

    fn add(&mut self, details: T) -> Result<ContainerHandle, ContainerAddFailure> {
        self.map.add(details)
    }

    fn remove(
        &mut self,
        handle: ContainerHandle,
        mode: ReleaseMode,
    ) -> Result<ReleaseState, ContainerRemoveError> {
        self.map.remove(handle, mode)
    }

    fn recover<F: FnMut(&T) -> bool>(
        &mut self,
        dead: &UniqueNodeId,
        f: &mut F,
        mode: ReleaseMode,
    ) -> ReleaseState {
        self.map.recover(dead, f, mode)
    }

    fn for_each<F: FnMut(&T) -> CallbackProgression>(&self, f: &mut F) {
        if self.map.header.count > 0 {
            let end = self.map.free.end(&self.map.slots);
            visit(&self.map.slots, end, f, &mut Touches::none());
        }
    }

    fn get(&self, handle: ContainerHandle) -> Option<T> {
        if !self.map.header.may_have(handle, self.map.slots.len()) {
            return None;
        }
        find(&self.map.slots, handle, &mut Touches::none())
    }

    fn entries_of(&self, node: &UniqueNodeId) -> usize {
        if self.map.header.count == 0 {
            return 0;
        }
        let end = self.map.free.end(&self.map.slots);
        count_of(&self.map.slots, end, node, &mut Touches::none())
    }

    fn has_entry_of(&self, node: &UniqueNodeId) -> bool {
        if self.map.header.count == 0 {
            return false;
        }
        let end = self.map.free.end(&self.map.slots);
        has_entry(
            &self.map.slots,
            self.map.newest_end,
            end,
            node,
            &mut Touches::none(),
        )
    }

    fn len(&self) -> usize {
        self.map.header.count
    }

    fn has_room(&self) -> bool {
        !self.map.header.locked
            && self.map.header.used < self.map.header.budget
            && self.map.header.count < self.map.slots.len()
    }

    fn service(&self) -> u64 {
        self.map.header.service
    }

    fn capacity(&self) -> usize {
        self.map.slots.len()
    }

    fn is_locked(&self) -> bool {
        self.map.header.locked
    }
}
