//! What `Debug` prints of containers, calls and answers: some text of each, which fails where its
//! writer does.
use super::registries::{Entry, list, scan};
use super::rows::{Handle, Row, are_answered};
use crate::nodes::{A, B, C};
use iox2_container::container::*;
use iox2_ids::identifiers::UniqueNodeId;
use std::alloc::Global;
use std::fmt::Debug;
use std::process::Abort;
use std::test::Fail;
use test_support::printing::is_shown;

static ALL_STAY: [Row; 3] = [
    Row::Add(Entry(1, A), Ok(Handle(7, Role::Node, 0, 0))),
    Row::Add(Entry(2, B), Ok(Handle(7, Role::Node, 1, 1))),
    Row::Add(Entry(3, C), Ok(Handle(7, Role::Node, 2, 2))),
];

static ONE_LEAVES: [Row; 4] = [
    Row::Add(Entry(1, A), Ok(Handle(7, Role::Node, 0, 0))),
    Row::Add(Entry(2, B), Ok(Handle(7, Role::Node, 1, 1))),
    Row::Remove(
        Handle(7, Role::Node, 1, 1),
        ReleaseMode::Default,
        Ok(ReleaseState::Unlocked),
    ),
    Row::Add(Entry(3, C), Ok(Handle(7, Role::Node, 1, 2))),
];

/// Makes the calls of the rows on a registry, which is then shown.
fn is_shown_then<R: Registry<UniqueNodeId> + Debug>(
    rt: &impl Abort,
    alloc: Global,
    registry: &mut R,
    rows: &[Row],
) -> Result<(), Fail> {
    are_answered(rt, alloc, registry, rows)?;
    assert!(rt; is_shown(registry));
    Ok(())
}

#[test]
fn a_scan_is_shown_with_its_entries(rt: HostRuntime) -> Result<(), Fail> {
    let mut scan = scan(rt.alloc(), Role::Node, (4, 9))?;
    is_shown_then(&rt, rt.alloc(), &mut scan, &ALL_STAY)
}

#[test]
fn a_list_is_shown_with_its_entries(rt: HostRuntime) -> Result<(), Fail> {
    let mut list = list(rt.alloc(), Role::Node, (4, 9))?;
    is_shown_then(&rt, rt.alloc(), &mut list, &ONE_LEAVES)
}

#[test]
fn an_empty_list_is_shown(rt: HostRuntime) -> Result<(), Fail> {
    let mut list = list(rt.alloc(), Role::Node, (0, 9))?;
    is_shown_then(&rt, rt.alloc(), &mut list, &[])
}

#[test]
fn slots_are_shown(rt: HostRuntime) -> Result<(), Fail> {
    assert!(rt; is_shown(&Slots::new(rt.alloc(), 3, 5u64)?));
    Ok(())
}

#[test]
fn calls_are_shown(rt: HostRuntime) -> Result<(), Fail> {
    let id = A.id()?;
    let kept = vec![in rt.alloc(); 7u128, u128::MAX]?;
    let calls = [
        RegistryCall::Add(id),
        RegistryCall::Remove(3, ReleaseMode::Default),
        RegistryCall::Recover(id, kept, ReleaseMode::LockIfLastIndex),
        RegistryCall::List,
        RegistryCall::Len,
    ];
    for call in &calls {
        assert!(rt; is_shown(call));
    }
    Ok(())
}

#[test]
fn replies_are_shown(rt: HostRuntime) -> Result<(), Fail> {
    let id = A.id()?;
    let entries = vec![in rt.alloc(); id, id]?;
    let replies = [
        RegistryReply::Handle(ContainerHandle::from_parts(7, Role::Reader, 2, 3)),
        RegistryReply::Refused(ContainerAddFailure::IsLocked),
        RegistryReply::State(ReleaseState::Locked),
        RegistryReply::NotOwned,
        RegistryReply::NoHandle,
        RegistryReply::Entries(entries),
        RegistryReply::Count(2),
    ];
    for reply in &replies {
        assert!(rt; is_shown(reply));
    }
    assert!(rt; is_shown(&ContainerRemoveError::ContainerHandleNotOwnedByContainer));
    Ok(())
}
