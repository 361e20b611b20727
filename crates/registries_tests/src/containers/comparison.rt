//! `compare` of a scan and a free list.
use super::calls::{Call, Reply, whole_calls, whole_replies};
use crate::nodes::{A, B, C, Node};
use iox2_container::container::*;
use iox2_ids::identifiers::UniqueNodeId;
use std::alloc::{AllocError, Global};
use std::process::Abort;
use std::test::Fail;

/// The service and the role of a scan that is compared.
pub(super) const OF_SCAN: (u64, Role) = (1, Role::Node);

/// Those of a free list.
const OF_LIST: (u64, Role) = (2, Role::Reader);

/// What was told of a new scan and a new free list that are compared.
#[derive(Drop)]
pub(super) struct Comparison {
    /// The answer.
    pub(super) same: Result<bool, AllocError>,
    pub(super) of_scan: Vec<RegistryReply<UniqueNodeId>>,
    pub(super) of_list: Vec<RegistryReply<UniqueNodeId>>,
    /// How many entries either has then.
    pub(super) entries: (usize, usize),
}

/// Makes the calls on a new scan and a new free list with these slots and tickets.
pub(super) fn compared(
    alloc: Global,
    (capacity, tickets): (usize, u64),
    calls: &[RegistryCall<UniqueNodeId>],
) -> Result<Comparison, AllocError> {
    let mut scan = Container::new(alloc, 1, Role::Node, capacity, tickets)?;
    let mut list = ListContainer::new(alloc, 2, Role::Reader, capacity, tickets)?;
    let mut of_scan = Vec::new(alloc);
    let mut of_list = Vec::new(alloc);
    let same = compare(
        alloc,
        &mut scan,
        &mut list,
        calls,
        &mut of_scan,
        &mut of_list,
    );
    let entries = (scan.len(), list.len());
    Ok(Comparison {
        same,
        of_scan,
        of_list,
        entries,
    })
}

/// Compares the replies to the calls, for registries of these slots and tickets.
fn are_compared(
    rt: &impl Abort,
    alloc: Global,
    size: (usize, u64),
    calls: &[Call],
    [of_scan, of_list]: [&[Reply]; 2],
) -> Result<(), Fail> {
    let found = compared(alloc, size, &whole_calls(alloc, calls)?)?;
    let of_scan = whole_replies(alloc, OF_SCAN, of_scan)?;
    let of_list = whole_replies(alloc, OF_LIST, of_list)?;
    assert_eq!(rt;
        (found.same, found.of_scan, found.of_list),
        (Ok(true), of_scan, of_list)
    );
    Ok(())
}

const UNLOCKED: Reply = Reply::State(ReleaseState::Unlocked);

const D: Node = Node(4, 0, 1);

const E: Node = Node(5, 0, 1);

static TWO_COME_AGAIN: [Call; 10] = [
    Call::Add(A),
    Call::Add(B),
    Call::Add(C),
    Call::Remove(0, ReleaseMode::Default),
    Call::Remove(1, ReleaseMode::Default),
    Call::Add(D),
    Call::Add(E),
    Call::List,
    Call::Len,
    Call::Remove(3, ReleaseMode::Default),
];

static TWO_COME_TO_A_SCAN: [Reply; 10] = [
    Reply::Handle(0, 0),
    Reply::Handle(1, 1),
    Reply::Handle(2, 2),
    UNLOCKED,
    UNLOCKED,
    Reply::Handle(0, 3),
    Reply::Handle(1, 4),
    Reply::Entries(&[D, E, C]),
    Reply::Count(3),
    Reply::NoHandle,
];

static TWO_COME_TO_A_LIST: [Reply; 10] = [
    Reply::Handle(0, 0),
    Reply::Handle(1, 1),
    Reply::Handle(2, 2),
    UNLOCKED,
    UNLOCKED,
    Reply::Handle(1, 3),
    Reply::Handle(0, 4),
    Reply::Entries(&[E, D, C]),
    Reply::Count(3),
    Reply::NoHandle,
];

/// Adds three entries, removes the first two and adds two again, each in a slot of its own.
#[test]
fn freed_places_are_taken_in_other_orders(rt: HostRuntime) -> Result<(), Fail> {
    are_compared(
        &rt,
        rt.alloc(),
        (3, u64::MAX),
        &TWO_COME_AGAIN,
        [&TWO_COME_TO_A_SCAN, &TWO_COME_TO_A_LIST],
    )
}

/// Two recoveries keep an entry or take it, the last one
/// locks, and removals name calls that gave no live handle.
static TWO_ARE_RECOVERED: [Call; 9] = [
    Call::Add(A),
    Call::Add(B),
    Call::Recover(A, &[], ReleaseMode::LockIfLastIndex),
    Call::Remove(0, ReleaseMode::LockIfLastIndex),
    Call::Recover(B, &[B], ReleaseMode::LockIfLastIndex),
    Call::Recover(B, &[A], ReleaseMode::LockIfLastIndex),
    Call::Add(A),
    Call::List,
    Call::Remove(9, ReleaseMode::Default),
];

static BOTH_RECOVER: [Reply; 9] = [
    Reply::Handle(0, 0),
    Reply::Handle(1, 1),
    UNLOCKED,
    Reply::NotOwned,
    UNLOCKED,
    Reply::State(ReleaseState::Locked),
    Reply::Refused(ContainerAddFailure::IsLocked),
    Reply::Entries(&[]),
    Reply::NoHandle,
];

#[test]
fn both_recover_and_lock(rt: HostRuntime) -> Result<(), Fail> {
    are_compared(
        &rt,
        rt.alloc(),
        (3, u64::MAX),
        &TWO_ARE_RECOVERED,
        [&BOTH_RECOVER, &BOTH_RECOVER],
    )
}

/// With two tickets.
static THREE_COME: [Call; 3] = [Call::Add(A), Call::Add(A), Call::Add(A)];

static TWO_FIND_A_TICKET: [Reply; 3] = [
    Reply::Handle(0, 0),
    Reply::Handle(1, 1),
    Reply::Refused(ContainerAddFailure::OutOfSpace),
];

#[test]
fn both_run_out_of_tickets(rt: HostRuntime) -> Result<(), Fail> {
    are_compared(
        &rt,
        rt.alloc(),
        (3, 2),
        &THREE_COME,
        [&TWO_FIND_A_TICKET, &TWO_FIND_A_TICKET],
    )
}

/// Of five entries the first two go, and two come in their slots.
static FIVE_ARE_LISTED: [Call; 10] = [
    Call::Add(A),
    Call::Add(A),
    Call::Add(B),
    Call::Add(C),
    Call::Add(C),
    Call::Remove(0, ReleaseMode::Default),
    Call::Remove(1, ReleaseMode::Default),
    Call::Add(B),
    Call::Add(A),
    Call::List,
];

static FIVE_OF_A_SCAN: [Reply; 10] = [
    Reply::Handle(0, 0),
    Reply::Handle(1, 1),
    Reply::Handle(2, 2),
    Reply::Handle(3, 3),
    Reply::Handle(4, 4),
    UNLOCKED,
    UNLOCKED,
    Reply::Handle(0, 5),
    Reply::Handle(1, 6),
    Reply::Entries(&[B, A, B, C, C]),
];

static FIVE_OF_A_LIST: [Reply; 10] = [
    Reply::Handle(0, 0),
    Reply::Handle(1, 1),
    Reply::Handle(2, 2),
    Reply::Handle(3, 3),
    Reply::Handle(4, 4),
    UNLOCKED,
    UNLOCKED,
    Reply::Handle(1, 5),
    Reply::Handle(0, 6),
    Reply::Entries(&[A, B, B, C, C]),
];

/// Listings of five entries, two of them equal, in two orders.
#[test]
fn listings_of_five(rt: HostRuntime) -> Result<(), Fail> {
    are_compared(
        &rt,
        rt.alloc(),
        (5, u64::MAX),
        &FIVE_ARE_LISTED,
        [&FIVE_OF_A_SCAN, &FIVE_OF_A_LIST],
    )
}
