//! What holds of a container over every list of changes, from a new one on, and how `==` and
//! `clone` see the values that it takes and gives.
ghost use Rattle.std.specs.Prelude.{◌≡◌, ◌↔◌, ◌≢◌, Bool, IsTrue, IsOkAnd, List, AllPairs, Any};
ghost use Rattle.std.specs.Fn.{CalledAt};
ghost use Rattle.iox2_container.specs.State.{Handle, IsRegistry, RegistryState};
ghost use Rattle.iox2_container.specs.Steps.{RecoverStep, HasEntry};
ghost use Rattle.iox2_container.specs.Histories.{Change, History, IsNew, IsRecoveryChange};
ghost use Rattle.iox2_container.specs.Histories.{IsRefused, Remains, TakesOut, handles_given};
ghost use Rattle.iox2_container.specs.Calls.{IsSameReplyBy};
ghost use Rattle.iox2_container.specs.ServiceNumbers.{NumbersRise};

use crate::container::{
    ContainerAddFailure, ContainerHandle, ContainerRemoveError, RegistryReply, ReleaseMode,
    ReleaseState, Role,
};
use std::alloc::AllocError;

/// A recovery is exactly one of the changes, with the results of its callback in turn and the
/// handles of the entries that were removed.
pub fn recoveries_are_changes<T, F: FnMut(&T) -> bool>()
    ensures { (is_dead : T → Bool) (old new : RegistryState T)
        (f left : F) (mode : ReleaseMode) (state : ReleaseState)
        → RecoverStep (CalledAt F.FnMut) is_dead old f mode state new left
        ↔ IsRecoveryChange (CalledAt F.FnMut) is_dead old f mode state new left }
{}

/// A handle that was removed or recovered is refused for good, whatever changes follow.
#[tactic(auto, using(crate::proofs::Histories::gone_for_good))]
pub fn gone_handles_are_refused<T>()
    ensures { (start now : RegistryState T) (changes : List (Change T)) (handle : Handle)
        → IsNew start → History start changes now
        → Any (TakesOut handle) changes → IsRefused now handle }
{}

/// The entries are exactly those that were added and not since removed or recovered.
pub fn entries_are_what_remains<T>()
    ensures { (start now : RegistryState T) (changes : List (Change T))
        (handle : Handle) (details : T)
        → IsNew start → History start changes now
        → HasEntry now handle details ↔ Remains changes handle details }
{}

/// No two adds of one registry give the same handle.
pub fn handles_are_not_reused<T>()
    ensures { (start now : RegistryState T) (changes : List (Change T))
        → History start changes now → AllPairs ◌≢◌ (handles_given changes) }
{}

/// A locked registry stays as it is, whatever changes follow: nothing is added to it any more.
#[tactic(auto, using(crate::proofs::Histories::locked_for_good))]
pub fn locked_registries_stay<T>()
    ensures { (start now : RegistryState T) (changes : List (Change T))
        → IsRegistry start → IsTrue start.locked → History start changes now → now ≡ start }
{}

/// Numbers for services that are returned one after another rise, so no two of them are the same.
pub fn service_numbers_rise()
    ensures { NumbersRise }
{}

/// Handles are equal exactly where service, role, slot and ticket are, and a clone is the same.
pub fn handles_go_by_fields(
    one: &ContainerHandle,
    other: &ContainerHandle,
) -> (bool, Result<ContainerHandle, AllocError>)
    ensures equal { IsTrue result.0 ↔ (one.now ≡ other.now) }
    ensures cloned { IsOkAnd result.1 (λ copy. copy ≡ one.now) }
{
    (one == other, one.clone())
}

/// A role, a mode and a state of release, and an error of an add and of a removal.
pub type Variants = (
    Role,
    ReleaseMode,
    ReleaseState,
    ContainerAddFailure,
    ContainerRemoveError,
);

/// Roles, modes, states and errors are equal exactly where they are the same. A clone of one is the
/// same and takes no memory.
pub fn values_go_by_variant(
    one: &Variants,
    other: &Variants,
) -> (bool, Result<Variants, AllocError>)
    ensures equal { IsTrue result.0 ↔ (one.now ≡ other.now) }
    ensures cloned { IsOkAnd result.1 (λ copy. copy ≡ one.now) }
{
    (one == other, one.clone())
}

/// Replies are equal by variant and what is in them, details by their own `==`.
pub fn replies_go_by_fields<T: Copy + Eq>(one: &RegistryReply<T>, other: &RegistryReply<T>) -> bool
    ensures { IsTrue result ↔ IsSameReplyBy T.eq one.now other.now }
{
    one == other
}
