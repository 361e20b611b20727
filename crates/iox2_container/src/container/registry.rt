//! The contract of a registry, on which everything above rests: of the details in it, of why it
//! refuses, and of how entries leave and what that does to the lock.
ghost use Rattle.std.specs.Prelude.{◌≡◌, ℕ, ◌+◌, ◌≤◌, ◌<◌, ◌↔◌, ◌++◌, ◌∷◌, [], IfOk, IsTrue, MatchOption};
ghost use Rattle.std.specs.Prelude.{length, nat_lt, vec_capacity, vec_len};
ghost use Rattle.std.specs.Fn.{CalledAt, TakesAt};
ghost use Rattle.iox2_container.specs.Steps.{Adds, CanBeCalled, CanVisit, HasEntry};
ghost use Rattle.iox2_container.specs.Steps.{IsUnknownHandle};
ghost use Rattle.iox2_container.specs.Steps.{RecoversBy, Removes, TakesEntry, Visit, details_where};
ghost use Rattle.iox2_container.specs.Steps.{entries_of, is_of, listed, lock_after, release_state};
ghost use Rattle.iox2_container.specs.State.{ContainerState, IsRegistry};

use super::handle::ContainerHandle;
use iox2_ids::identifiers::UniqueNodeId;
use iox2_texts::bounded::CallbackProgression;
use std::alloc::{AllocError, Global};

/// Details of something that is attached to a service. Its key and its node are functions of the
/// value alone.
pub trait Attached {
    /// The number of the node's id.
    ghost node: { Self → ℕ };

    /// The number of its own id.
    ghost number: { Self → ℕ };

    /// The id of the node that it belongs to.
    fn node_id(&self) -> UniqueNodeId
        ensures { result ≡ node self.now };

    /// The number of its own id.
    fn key(&self) -> u128
        ensures { result ≡ number self.now };
}

/// A node belongs to itself.
impl Attached for UniqueNodeId {
    ghost node = { λ id. id };

    ghost number = { λ id. id };

    fn node_id(&self) -> UniqueNodeId {
        *self
    }

    fn key(&self) -> u128 {
        self.value()
    }
}

/// Why a container takes no entry. A locked one says so, full or not.
#[derive(Clone, Copy, Debug, PartialEq, Eq)]
pub enum ContainerAddFailure {
    /// The container is locked for good.
    IsLocked,
    /// Every slot is taken, or every ticket is used.
    OutOfSpace,
}

/// Why a container removes no entry.
#[derive(Clone, Copy, Debug, PartialEq, Eq)]
pub enum ContainerRemoveError {
    /// No entry of the container has this handle.
    ContainerHandleNotOwnedByContainer,
}

/// Whether a container is locked when its last entry leaves.
#[derive(Clone, Copy, Debug, PartialEq, Eq)]
pub enum ReleaseMode {
    /// It stays as it is.
    Default,
    /// It is locked for good.
    LockIfLastIndex,
}

impl ReleaseMode {
    /// The lock after an entry was removed, where this many are left.
    pub(super) fn lock_after(self, left: usize, locked: bool) -> bool
        ensures { (before : ℕ) → left < before → result ≡ lock_after self before left locked }
    {
        match self {
            ReleaseMode::LockIfLastIndex => left == 0 || locked,
            ReleaseMode::Default => locked,
        }
    }
}

/// Whether a container is locked after entries left.
#[derive(Clone, Copy, Debug, PartialEq, Eq)]
pub enum ReleaseState {
    /// It is empty, and takes no entry any more.
    Locked,
    /// It takes entries, as far as its capacity allows.
    Unlocked,
}

impl ReleaseState {
    /// The state by whether the container is locked.
    pub(super) fn of(locked: bool) -> Self
        ensures { result ≡ release_state locked }
    {
        if locked {
            ReleaseState::Locked
        } else {
            ReleaseState::Unlocked
        }
    }
}

/// A bounded map from handles, of which none is given twice, to details.
///
/// No change touches its slots more than twice as often as it has slots. No call takes memory, and
/// a refused one changes no entry, no lock and no ticket.
///
/// From `crates/iox2_dynamic/src/dynamic_config/service.rt`:
///
/// ```
/// match self.nodes.add(id) {
///     Ok(handle) => Ok(handle),
///     Err(ContainerAddFailure::IsLocked) => Err(RegisterNodeResult::MarkedForDestruction),
///     Err(ContainerAddFailure::OutOfSpace) => Err(
///         RegisterNodeResult::ExceedsMaxNumberOfNodes,
///     ),
/// }
/// ```
pub trait Registry<T: Attached + Copy> {
    /// What the registry holds, and how often changes touched its slots.
    ghost state: { Self → ContainerState T };

    /// The most touches of an add, by the capacity.
    ghost most_for_add: { ℕ → ℕ };

    /// The most touches of a removal.
    ghost most_for_remove: { ℕ };

    /// Adds an entry in a free slot, with the next ticket. Refused where the registry is locked,
    /// and else where every slot is taken or every ticket is used.
    fn add(&mut self, details: T) -> Result<ContainerHandle, ContainerAddFailure>
        ensures known { IsRegistry (state self.old).registry }
        ensures adds { Adds (state self.old) details result (state self.new) }
        ensures few { (state self.new).touches ≤
            (state self.old).touches + most_for_add (state self.old).registry.capacity };

    /// Removes the entry of a handle, and says whether the registry is locked then. Refused for
    /// each handle that is not that of an entry.
    fn remove(
        &mut self,
        handle: ContainerHandle,
        mode: ReleaseMode,
    ) -> Result<ReleaseState, ContainerRemoveError>
        ensures known { IsRegistry (state self.old).registry }
        ensures removes { Removes (state self.old) handle mode result (state self.new) }
        ensures few { (state self.new).touches ≤ (state self.old).touches + most_for_remove };

    /// Calls the callback once for each entry of the dead node, by rising slot, and removes those
    /// for which it returns `true`. Returns whether the registry is locked then. Where no entry is
    /// removed, nothing is locked. It touches slots at most as often as there are slots, and once
    /// more for each entry that it removes. The callback must be callable on those entries in turn,
    /// each time as the call before left it.
    fn recover<F: FnMut(&T) -> bool>(
        &mut self,
        dead: &UniqueNodeId,
        f: &mut F,
        mode: ReleaseMode,
    ) -> ReleaseState
        requires { CanBeCalled (TakesAt F.FnMut) (CalledAt F.FnMut) f.old
            (details_where (is_of T.node dead.now) (state self.old).registry) }
        ensures known { IsRegistry (state self.old).registry }
        ensures recovers { RecoversBy (CalledAt F.FnMut) (is_of T.node dead.now)
            (state self.old) f.old mode result (state self.new) f.new }
        ensures few { (state self.new).touches + length (state self.new).registry.entries ≤
            (state self.old).touches + (state self.old).registry.capacity
            + length (state self.old).registry.entries };

    /// Calls the callback on the details by rising slot, each once, up to and with the first
    /// `Stop`. It must be callable on them in turn, each time as the call before left it.
    fn for_each<F: FnMut(&T) -> CallbackProgression>(&self, f: &mut F)
        requires { CanVisit (TakesAt F.FnMut) (CalledAt F.FnMut) f.old
            (listed (state self.now).registry) }
        ensures visit { Visit (CalledAt F.FnMut) f.old (listed (state self.now).registry) f.new }
        ensures kept { IsRegistry (state self.now).registry };

    /// The details of the entry with this handle, or `None` where no entry has it.
    fn get(&self, handle: ContainerHandle) -> Option<T>
        ensures details { MatchOption result
            (IsUnknownHandle (state self.now).registry handle)
            (HasEntry (state self.now).registry handle) }
        ensures kept { IsRegistry (state self.now).registry };

    /// Whether the node has an entry.
    fn has_entry_of(&self, node: &UniqueNodeId) -> bool
        ensures has { result ≡
            nat_lt 0 (entries_of T.node node.now (state self.now).registry) }
        ensures kept { IsRegistry (state self.now).registry };

    /// How many entries are those of the node.
    fn entries_of(&self, node: &UniqueNodeId) -> usize
        ensures count { result ≡ entries_of T.node node.now (state self.now).registry }
        ensures kept { IsRegistry (state self.now).registry };

    /// How many entries there are.
    fn len(&self) -> usize
        ensures count { result ≡ length (state self.now).registry.entries }
        ensures kept { IsRegistry (state self.now).registry };

    /// Whether an add would be taken: it is not locked, a slot is free and a ticket is left.
    fn has_room(&self) -> bool
        ensures room { IsTrue result ↔ TakesEntry (state self.now).registry }
        ensures kept { IsRegistry (state self.now).registry };

    /// The number of the service whose registry it is.
    fn service(&self) -> u64
        ensures number { result ≡ (state self.now).registry.service }
        ensures kept { IsRegistry (state self.now).registry };

    /// How many entries there may be.
    fn capacity(&self) -> usize
        ensures capacity { result ≡ (state self.now).registry.capacity }
        ensures kept { IsRegistry (state self.now).registry };

    /// Whether it is locked: it is empty then, and takes no entry any more.
    fn is_locked(&self) -> bool
        ensures locked { result ≡ (state self.now).registry.locked }
        ensures kept { IsRegistry (state self.now).registry };
}

/// The details in a registry, by rising slot. The list has capacity for exactly them; refused where
/// there is no memory for it.
pub fn entries<T: Attached + Copy, R: Registry<T>>(
    alloc: Global,
    registry: &R,
) -> Result<Vec<T>, AllocError>
    ensures listed { IfOk result (λ list. list.items ≡ listed (R.state registry.now).registry) }
    ensures exact { IfOk result (λ list. vec_capacity list ≡ length list.items) }
{
    let mut list = Vec::with_capacity(alloc, registry.len())?;
    let mut put = |details: &T| -> CallbackProgression
        requires { vec_len list < vec_capacity list }
        ensures put { list.exit.items ≡ list.entry.items ++ details.now ∷ [] }
        ensures len { vec_len list.exit ≡ vec_len list.entry + 1 }
        ensures capacity { vec_capacity list.exit ≡ vec_capacity list.entry }
        ensures goes_on { result ≡ CallbackProgression.Continue }
    {
        list.push_reserved(*details);
        CallbackProgression::Continue
    };
    registry.for_each(&mut put);
    Ok(list)
}
