//! One list of calls on two registries.
ghost use Rattle.std.specs.Prelude.{◌≡◌, ◌↔◌, ◌<◌, [], IsTrue, IfOk, OnErr, OnOk, count_by, length};
ghost use Rattle.std.specs.List.{AllZip};
ghost use Rattle.iox2_container.specs.State.{IsRegistry};
ghost use Rattle.iox2_container.specs.Steps.{is_of};
ghost use Rattle.iox2_container.specs.Histories.{IsNew};
ghost use Rattle.iox2_container.specs.Calls.{Answered, CallStep, Made, RecoversBut, SameKind};
ghost use Rattle.iox2_container.specs.Calls.{handle_given};
ghost use Rattle.iox2_container.specs.Calls.{AgreesBy, EquallyMany};

use super::handle::ContainerHandle;
use super::registry::{
    Attached, ContainerAddFailure, Registry, ReleaseMode, ReleaseState, entries,
};
use iox2_ids::identifiers::UniqueNodeId;
use std::alloc::{AllocError, Global};

/// A call on a registry. In a list of calls each one is named by its index.
#[derive(Debug, Drop)]
pub enum RegistryCall<T: Copy> {
    /// Adds an entry with these details.
    Add(T),
    /// Removes the entry whose handle the earlier call with this number gave.
    Remove(usize, ReleaseMode),
    /// Recovers the entries of a dead node, but keeps those whose key is in the list.
    Recover(UniqueNodeId, Vec<u128>, ReleaseMode),
    /// Lists the details of all entries by rising slot.
    List,
    /// Counts the entries.
    Len,
}

/// What a registry replied to a [`RegistryCall`].
#[derive(Debug, Drop, PartialEq, Eq)]
pub enum RegistryReply<T: Copy> {
    /// An add gave this handle.
    Handle(ContainerHandle),
    /// An add was refused.
    Refused(ContainerAddFailure),
    /// A removal or a recovery left the registry locked or not.
    State(ReleaseState),
    /// A removal was refused, since its handle is not one of the registry's.
    NotOwned,
    /// A removal named a call that is not an earlier one or that gave no handle.
    NoHandle,
    /// The details of all entries by rising slot.
    Entries(Vec<T>),
    /// How many entries there are.
    Count(usize),
}

/// The handle that call `k` gave.
fn given<T: Copy>(earlier: &[RegistryReply<T>], k: usize) -> Option<ContainerHandle>
    ensures { result ≡ handle_given earlier.now k }
{
    match earlier.get(k) {
        Some(RegistryReply::Handle(handle)) => Some(*handle),
        _ => None,
    }
}

/// Recovers the entries of the dead node but those with these keys.
#[tactic(auto, using(crate::proofs::Callable::callbacks))]
fn recover_but<T: Attached + Copy, R: Registry<T>>(
    registry: &mut R,
    dead: &UniqueNodeId,
    keys: &[u128],
    mode: ReleaseMode,
) -> ReleaseState
    ensures step { RecoversBut (is_of T.node dead.now) T.number keys.now
        (R.state registry.old) mode result (R.state registry.new) }
    ensures kept { IsRegistry (R.state registry.new).registry }
{
    let mut goes = |details: &T| !keys.contains(&details.key());
    registry.recover(dead, &mut goes, mode)
}

/// One call on one registry. Only a listing takes memory.
fn serve<T: Attached + Copy, R: Registry<T>>(
    alloc: Global,
    registry: &mut R,
    earlier: &[RegistryReply<T>],
    call: &RegistryCall<T>,
) -> Result<RegistryReply<T>, AllocError>
    requires { IsRegistry (R.state registry.old).registry }
    ensures step { IfOk result (λ reply. CallStep T.node T.number
        (R.state registry.old) earlier.now call.now reply (R.state registry.new)) }
    ensures kept { IsRegistry (R.state registry.new).registry }
    ensures err { OnErr result ((R.state registry.new ≡ R.state registry.old)
        × (call.now ≡ RegistryCall.List)) }
{
    match call {
        RegistryCall::Add(details) => match registry.add(*details) {
            Ok(handle) => Ok(RegistryReply::Handle(handle)),
            Err(failure) => Ok(RegistryReply::Refused(failure)),
        },
        RegistryCall::Remove(k, mode) => match given(earlier, *k) {
            Some(handle) => match registry.remove(handle, *mode) {
                Ok(state) => Ok(RegistryReply::State(state)),
                Err(_) => Ok(RegistryReply::NotOwned),
            },
            None => Ok(RegistryReply::NoHandle),
        },
        RegistryCall::Recover(dead, keys, mode) => {
            let state = recover_but(registry, dead, keys, *mode);
            Ok(RegistryReply::State(state))
        }
        RegistryCall::List => {
            let entries = entries(alloc, registry)?;
            Ok(RegistryReply::Entries(entries))
        }
        RegistryCall::Len => Ok(RegistryReply::Count(registry.len())),
    }
}

/// One call on both registries. All memory is taken before either changes.
fn serve_both<T: Attached + Copy, A: Registry<T>, B: Registry<T>>(
    alloc: Global,
    a: &mut A,
    b: &mut B,
    call: &RegistryCall<T>,
    replies_a: &mut Vec<RegistryReply<T>>,
    replies_b: &mut Vec<RegistryReply<T>>,
) -> Result<(), AllocError>
    requires { IsRegistry (A.state a.old).registry × IsRegistry (B.state b.old).registry }
    ensures ok_a { OnOk result (Answered T.node T.number
        (A.state a.old) replies_a.old.items call.now
        replies_a.new.items (A.state a.new)) }
    ensures ok_b { OnOk result (Answered T.node T.number
        (B.state b.old) replies_b.old.items call.now
        replies_b.new.items (B.state b.new)) }
    ensures err_a { OnErr result
        ((A.state a.new ≡ A.state a.old)
        × (replies_a.new.items ≡ replies_a.old.items)) }
    ensures err_b { OnErr result
        ((B.state b.new ≡ B.state b.old)
        × (replies_b.new.items ≡ replies_b.old.items)) }
{
    replies_a.reserve(1)?;
    replies_b.reserve(1)?;
    let one = serve(alloc, a, replies_a, call)?;
    let other = serve(alloc, b, replies_b, call)?;
    replies_a.push_reserved(one);
    replies_b.push_reserved(other);
    Ok(())
}

/// How many of the items equal this one.
fn count_of<T: Eq>(items: &[T], item: &T) -> usize
    ensures { result ≡ count_by (T.eq item.now) items.now }
{
    items.iter().filter(|other| item == *other).count()
}

/// Whether the lists have the same items, whatever their order.
fn is_permutation<T: Eq>(ones: &[T], others: &[T]) -> bool
    ensures { IsTrue result ↔ EquallyMany T.eq ones.now others.now }
{
    ones.len() == others.len()
        && ones
            .iter()
            .all(|item| count_of(ones, item) == count_of(others, item))
}

/// Whether the replies are the same, but for handles and the order of listings.
fn is_same_reply<T: Copy + Eq>(one: &RegistryReply<T>, other: &RegistryReply<T>) -> bool
    ensures { IsTrue result ↔ AgreesBy T.eq one.now other.now }
{
    match (one, other) {
        (RegistryReply::Handle(_), RegistryReply::Handle(_)) => true,
        (RegistryReply::Entries(ones), RegistryReply::Entries(others)) => {
            is_permutation(ones, others)
        }
        _ => one == other,
    }
}

/// Whether the replies are the same in turn.
fn is_same_kind<T: Copy + Eq>(ones: &[RegistryReply<T>], others: &[RegistryReply<T>]) -> bool
    ensures { IsTrue result ↔ AllZip (AgreesBy T.eq) ones.now others.now }
{
    let mut ones_left = ones;
    let mut others_left = others;
    while let Some((one, ones_rest)) = ones_left.split_first() {
        let Some((other, others_rest)) = others_left.split_first() else {
            return false;
        };
        if !is_same_reply(one, other) {
            return false;
        }
        ones_left = ones_rest;
        others_left = others_rest;
    }
    others_left.is_empty()
}

/// Makes the same calls on two new registries of the same capacity and number of tickets; their
/// services and roles may differ.
///
/// Each list, empty at first, gets the replies of its registry. It returns `true`: the replies are
/// the same but for handles and the order of listings. The memory of each call is taken for both
/// lists before either registry changes, so after an error both have made the same number of calls,
/// fewer than all, and have as many replies.
///
/// From `crates/registries_tests/src/containers/comparison.rt`:
///
/// ```
/// let mut scan = Container::new(alloc, 1, Role::Node, capacity, tickets)?;
/// let mut list = ListContainer::new(alloc, 2, Role::Reader, capacity, tickets)?;
/// let mut of_scan = Vec::new(alloc);
/// let mut of_list = Vec::new(alloc);
/// let same = compare(
///     alloc,
///     &mut scan,
///     &mut list,
///     calls,
///     &mut of_scan,
///     &mut of_list,
/// );
/// ```
pub fn compare<T: Attached + Copy + Eq, A: Registry<T>, B: Registry<T>>(
    alloc: Global,
    a: &mut A,
    b: &mut B,
    calls: &[RegistryCall<T>],
    replies_a: &mut Vec<RegistryReply<T>>,
    replies_b: &mut Vec<RegistryReply<T>>,
) -> Result<bool, AllocError>
    requires new { IsNew (A.state a.old).registry × IsNew (B.state b.old).registry }
    requires same_capacity { (A.state a.old).registry.capacity ≡ (B.state b.old).registry.capacity }
    requires same_budget { (A.state a.old).registry.budget ≡ (B.state b.old).registry.budget }
    requires empty { (replies_a.old.items ≡ []) × (replies_b.old.items ≡ []) }
    ensures made_a { Made T.node T.number
        (A.state a.old) calls.now replies_a.new.items (A.state a.new) }
    ensures made_b { Made T.node T.number
        (B.state b.old) calls.now replies_b.new.items (B.state b.new) }
    ensures same_kind { SameKind replies_a.new.items replies_b.new.items }
    ensures answer { IfOk result IsTrue }
    ensures all { OnOk result ((length replies_a.new.items ≡ length calls.now)
        × (length replies_b.new.items ≡ length calls.now)) }
    ensures some { OnErr result ((length replies_a.new.items ≡ length replies_b.new.items)
        × (length replies_a.new.items < length calls.now)) }
{
    for call in calls {
        serve_both(alloc, a, b, call, replies_a, replies_b)?;
    }
    Ok(is_same_kind(replies_a, replies_b))
}
