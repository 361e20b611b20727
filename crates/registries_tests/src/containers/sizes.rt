//! What a free list costs depends on what stands in it, and not on its capacity.
use crate::nodes::{A, B};
use iox2_container::container::*;
use iox2_ids::identifiers::UniqueNodeId;
use iox2_texts::bounded::CallbackProgression;
use std::test::Fail;

/// Passes over all slots, a million each time, would take minutes.
#[test]
#[tactic(auto, using(iox2_container::proofs::Callable::callbacks))]
fn a_million_places_with_three_entries(rt: HostRuntime) -> Result<(), Fail> {
    let id = A.id()?;
    let other = B.id()?;
    let mut list = ListContainer::new(rt.alloc(), 7, Role::Node, 1_000_000, u64::MAX)?;
    for added in [id, other, id] {
        list.add(added)?;
    }
    let mut seen = 0u64;
    let mut asked = 0u64;
    let mut count = |_: &UniqueNodeId| {
        seen = seen.wrapping_add(1);
        CallbackProgression::Continue
    };
    let mut keep = |_: &UniqueNodeId| {
        asked = asked.wrapping_add(1);
        false
    };
    for _ in 0..100_000 {
        list.for_each(&mut count);
        list.recover(&id, &mut keep, ReleaseMode::LockIfLastIndex);
        assert_eq!(rt; list.entries_of(&id), 2);
    }
    assert_eq!(rt; (seen, asked, list.len()), (300_000, 200_000, 3));
    Ok(())
}

/// An add and a removal go through no entries: 200,000 each time would take minutes.
#[test]
fn changes_of_a_full_list(rt: HostRuntime) -> Result<(), Fail> {
    let id = A.id()?;
    let mut list = ListContainer::new(rt.alloc(), 7, Role::Node, 200_000, u64::MAX)?;
    let mut newest = list.add(id)?;
    for _ in 1..200_000 {
        newest = list.add(id)?;
    }
    for _ in 0..200_000 {
        list.remove(newest, ReleaseMode::Default)?;
        newest = list.add(id)?;
    }
    assert_eq!(rt; list.len(), 200_000);
    Ok(())
}
