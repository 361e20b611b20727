//! What `Debug` prints of registries, calls and answers: each variant by name, each field by name
//! and value.
use super::registries::{Entry, list, scan};
use super::rows::{Handle, Row, are_answered};
use crate::nodes::Node;
use iox2_container::container::*;
use iox2_ids::identifiers::UniqueNodeId;
use std::fmt::Debug;
use std::process::Abort;
use std::test::Fail;
use test_support::printing::{are_shown_as, is_shown_as};

static ROLES: [(Role, &str); 9] = [
    (Role::Node, "Node"),
    (Role::Publisher, "Publisher"),
    (Role::Subscriber, "Subscriber"),
    (Role::Notifier, "Notifier"),
    (Role::Listener, "Listener"),
    (Role::Client, "Client"),
    (Role::Server, "Server"),
    (Role::Reader, "Reader"),
    (Role::Writer, "Writer"),
];

static MODES: [(ReleaseMode, &str); 2] = [
    (ReleaseMode::Default, "Default"),
    (ReleaseMode::LockIfLastIndex, "LockIfLastIndex"),
];

static STATES: [(ReleaseState, &str); 2] = [
    (ReleaseState::Locked, "Locked"),
    (ReleaseState::Unlocked, "Unlocked"),
];

static FAILURES: [(ContainerAddFailure, &str); 2] = [
    (ContainerAddFailure::IsLocked, "IsLocked"),
    (ContainerAddFailure::OutOfSpace, "OutOfSpace"),
];

static REMOVALS: [(ContainerRemoveError, &str); 1] = [(
    ContainerRemoveError::ContainerHandleNotOwnedByContainer,
    "ContainerHandleNotOwnedByContainer",
)];

#[test]
fn variants_are_shown_by_name(rt: HostRuntime) {
    assert_eq!(rt;
        [
            are_shown_as(&ROLES),
            are_shown_as(&MODES),
            are_shown_as(&STATES),
            are_shown_as(&FAILURES),
            are_shown_as(&REMOVALS),
        ],
        [true; 5]
    );
}

#[test]
fn handles_and_slots_are_shown_by_field(rt: HostRuntime) -> Result<(), Fail> {
    let handle = ContainerHandle::from_parts(7, Role::Reader, 2, 3);
    assert_eq!(rt;
        [
            is_shown_as(
                &handle,
                "ContainerHandle { service: 7, role: Reader, slot: 2, ticket: 3 }",
            ),
            is_shown_as(
                &Slots::new(rt.alloc(), 2, 5u64)?,
                "Slots { cells: [5, 5], touches: Touches }",
            ),
            is_shown_as(&ServiceNumbers::after(7), "ServiceNumbers { last: 7 }"),
        ],
        [true; 3]
    );
    Ok(())
}

const FIVE: Node = Node(0, 0, 5);

const SIX: Node = Node(0, 0, 6);

/// Five and six come, and five leaves.
static SIX_STAYS: [Row; 3] = [
    Row::Add(Entry(1, FIVE), Ok(Handle(7, Role::Node, 0, 0))),
    Row::Add(Entry(2, SIX), Ok(Handle(7, Role::Node, 1, 1))),
    Row::Remove(
        Handle(7, Role::Node, 0, 0),
        ReleaseMode::Default,
        Ok(ReleaseState::Unlocked),
    ),
];

/// Checks that a registry is shown by this text once six stays.
fn is_shown_with_six<R: Registry<UniqueNodeId> + Debug>(
    rt: &(impl Abort + AllocGlobal),
    registry: &mut R,
    text: &str,
) -> Result<(), Fail> {
    are_answered(rt, rt.alloc(), registry, &SIX_STAYS)?;
    assert!(rt; is_shown_as(registry, text));
    Ok(())
}

#[test]
fn a_scan_is_shown_by_field(rt: HostRuntime) -> Result<(), Fail> {
    is_shown_with_six(
        &rt,
        &mut scan(rt.alloc(), Role::Node, (3, 9))?,
        "SlotMap { map: CountedMap { header: RegistryHeader { service: 7, role: Node, budget: 9, \
        count: 1, locked: false, used: 2 }, slots: Slots { cells: [Free(()), Taken { ticket: 1, \
        details: UniqueNodeId { id: UniqueId { value: 6, kind: PhantomData<_> } } }, Free(())], \
        touches: Touches }, free: LowestFree, newest_end: 2 } }",
    )
}

#[test]
fn a_list_is_shown_by_field(rt: HostRuntime) -> Result<(), Fail> {
    is_shown_with_six(
        &rt,
        &mut list(rt.alloc(), Role::Node, (3, 9))?,
        "SlotMap { map: CountedMap { header: RegistryHeader { service: 7, role: Node, budget: 9, \
        count: 1, locked: false, used: 2 }, slots: Slots { cells: [Free(None), Taken { ticket: 1, \
        details: UniqueNodeId { id: UniqueId { value: 6, kind: PhantomData<_> } } }, \
        Free(None)], touches: Touches }, free: FreeList { head: Some(0), fresh: 2 }, \
        newest_end: 2 } }",
    )
}

#[test]
fn calls_are_shown_with_what_they_are_given(rt: HostRuntime) -> Result<(), Fail> {
    let id = FIVE.id()?;
    let kept = vec![in rt.alloc(); 7u128, 8]?;
    let table = [
        (
            RegistryCall::Add(id),
            "Add(UniqueNodeId { id: UniqueId { value: 5, kind: PhantomData<_> } })",
        ),
        (
            RegistryCall::Remove(3, ReleaseMode::Default),
            "Remove(3, Default)",
        ),
        (
            RegistryCall::Recover(id, kept, ReleaseMode::LockIfLastIndex),
            "Recover(UniqueNodeId { id: UniqueId { value: 5, kind: PhantomData<_> } }, [7, 8], \
            LockIfLastIndex)",
        ),
        (RegistryCall::List, "List"),
        (RegistryCall::Len, "Len"),
    ];
    assert!(rt; are_shown_as(&table));
    Ok(())
}

#[test]
fn replies_are_shown_with_what_is_in_them(rt: HostRuntime) -> Result<(), Fail> {
    let entries = vec![in rt.alloc(); FIVE.id()?, SIX.id()?]?;
    let table = [
        (
            RegistryReply::Handle(ContainerHandle::from_parts(7, Role::Reader, 2, 3)),
            "Handle(ContainerHandle { service: 7, role: Reader, slot: 2, ticket: 3 })",
        ),
        (
            RegistryReply::Refused(ContainerAddFailure::IsLocked),
            "Refused(IsLocked)",
        ),
        (RegistryReply::State(ReleaseState::Locked), "State(Locked)"),
        (RegistryReply::NotOwned, "NotOwned"),
        (RegistryReply::NoHandle, "NoHandle"),
        (
            RegistryReply::Entries(entries),
            "Entries([UniqueNodeId { id: UniqueId { value: 5, kind: PhantomData<_> } }, \
            UniqueNodeId { id: UniqueId { value: 6, kind: PhantomData<_> } }])",
        ),
        (RegistryReply::Count(2), "Count(2)"),
    ];
    assert!(rt; are_shown_as(&table));
    Ok(())
}
