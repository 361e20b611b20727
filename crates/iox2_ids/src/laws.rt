//! Laws of ids: what their parts make, and how `==`, `<`, hashing and `clone` see them.
ghost use Rattle.std.specs.Prelude.{◌≡◌, ◌↔◌, IsTrue, IsOkAnd, fold};
ghost use Rattle.std.specs.Ordering.{nat_cmp};
ghost use Rattle.std.specs.Hash.{u128};
ghost use Rattle.iox2_ids.specs.Laws.{PartsArePacked, PackedIsWhole};
ghost use Rattle.iox2_ids.specs.Time.{moment_writes};

use crate::identifiers::{ProcessId, Time, UniqueId, UniqueNodeId, UniquePortId};
use std::alloc::AllocError;
use std::cmp::Ordering;
use std::hash::{Hash, Hasher};

/// Parts that fit 32 bits are those of the number that they make, so no two quadruples of such
/// parts make one number.
pub fn parts_are_packed()
    ensures { PartsArePacked }
{}

/// Each number is made of its parts.
pub fn packed_is_whole()
    ensures { PackedIsWhole }
{}

/// Ids of one kind are equal, ordered and hashed by their numbers, and a clone is the same.
pub fn ids_go_by_value<K, H: Hasher>(
    one: &UniqueId<K>,
    other: &UniqueId<K>,
    state: &mut H,
) -> (bool, Ordering, Result<UniqueId<K>, AllocError>)
    ensures equal { IsTrue result.0 ↔ (one.now ≡ other.now) }
    ensures ordered { result.1 ≡ nat_cmp one.now other.now }
    ensures cloned { IsOkAnd result.2 (λ copy. copy ≡ one.now) }
    ensures hashed { state.new ≡ fold H.write state.old (u128 one.now) }
{
    one.hash(state);
    (one == other, one.cmp(other), one.clone())
}

/// Ids of nodes are equal, ordered and hashed by their numbers, and a clone is the same.
pub fn node_ids_go_by_value<H: Hasher>(
    one: &UniqueNodeId,
    other: &UniqueNodeId,
    state: &mut H,
) -> (bool, Ordering, Result<UniqueNodeId, AllocError>)
    ensures equal { IsTrue result.0 ↔ (one.now ≡ other.now) }
    ensures ordered { result.1 ≡ nat_cmp one.now other.now }
    ensures cloned { IsOkAnd result.2 (λ copy. copy ≡ one.now) }
    ensures hashed { state.new ≡ fold H.write state.old (u128 one.now) }
{
    one.hash(state);
    (one == other, one.cmp(other), one.clone())
}

/// The id of a port of any kind, a process, and a time.
pub type Values = (UniquePortId, ProcessId, Time);

/// Ids of ports are equal by kind and number, processes by their number, times by seconds and
/// nanoseconds, and a clone of one is the same and takes no memory.
pub fn values_go_by_fields(one: &Values, other: &Values) -> (bool, Result<Values, AllocError>)
    ensures equal { IsTrue result.0 ↔ (one.now ≡ other.now) }
    ensures cloned { IsOkAnd result.1 (λ copy. copy ≡ one.now) }
{
    (one == other, one.clone())
}

/// Times are hashed by seconds and nanoseconds.
pub fn times_are_hashed_by_fields<H: Hasher>(time: &Time, state: &mut H)
    ensures { state.new ≡ fold H.write state.old (moment_writes time.now) }
{
    time.hash(state);
}

/// The default time is 0 seconds and 0 nanoseconds.
pub fn default_time_is_zero() -> Time
    ensures { result ≡ record { seconds = 0; nanoseconds = 0 } }
{
    Time::default()
}
