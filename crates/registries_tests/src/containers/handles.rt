//! Handles that do not belong, and handles of another registry that do.
use super::registries::{Entry, list, nodes_are_answered, scan};
use super::rows::{Handle, NOT_OWNED, Row, are_answered};
use crate::nodes::{A, B};
use iox2_container::container::*;
use iox2_ids::identifiers::UniqueNodeId;
use std::alloc::Global;
use std::process::Abort;
use std::test::Fail;

const FIRST: Handle = Handle(7, Role::Node, 0, 0);

const LIVE: Handle = Handle(7, Role::Node, 1, 1);

/// On a registry of three slots, with a live entry in slot 1.
static STRANGERS_ARE_REFUSED: [Row; 18] = [
    Row::Add(Entry(1, A), Ok(FIRST)),
    Row::Add(Entry(1, A), Ok(LIVE)),
    Row::Remove(FIRST, ReleaseMode::Default, Ok(ReleaseState::Unlocked)),
    Row::Add(Entry(1, A), Ok(Handle(7, Role::Node, 0, 2))),
    Row::Get(FIRST, None),
    Row::Remove(FIRST, ReleaseMode::LockIfLastIndex, NOT_OWNED),
    Row::Get(Handle(7, Role::Node, 1, u64::MAX), None),
    Row::Remove(
        Handle(7, Role::Node, 1, u64::MAX),
        ReleaseMode::LockIfLastIndex,
        NOT_OWNED,
    ),
    Row::Get(Handle(7, Role::Node, 3, 1), None),
    Row::Remove(
        Handle(7, Role::Node, 3, 1),
        ReleaseMode::LockIfLastIndex,
        NOT_OWNED,
    ),
    Row::Get(Handle(7, Role::Node, usize::MAX, 1), None),
    Row::Remove(
        Handle(7, Role::Node, usize::MAX, 1),
        ReleaseMode::LockIfLastIndex,
        NOT_OWNED,
    ),
    Row::Get(Handle(7, Role::Listener, 1, 1), None),
    Row::Remove(
        Handle(7, Role::Listener, 1, 1),
        ReleaseMode::LockIfLastIndex,
        NOT_OWNED,
    ),
    Row::Get(Handle(8, Role::Node, 1, 1), None),
    Row::Remove(
        Handle(8, Role::Node, 1, 1),
        ReleaseMode::LockIfLastIndex,
        NOT_OWNED,
    ),
    Row::Get(LIVE, Some(Entry(1, A))),
    Row::Holds(2, false),
];

#[test]
fn handles_that_do_not_belong(rt: HostRuntime) -> Result<(), Fail> {
    nodes_are_answered(
        &rt,
        rt.alloc(),
        (3, u64::MAX),
        &STRANGERS_ARE_REFUSED,
        [&[]; 2],
    )
}

static A_COMES: [Row; 1] = [Row::Add(Entry(1, A), Ok(FIRST))];

static B_COMES: [Row; 1] = [Row::Add(Entry(2, B), Ok(FIRST))];

/// By the handle that the other registry gave.
static A_GOES: [Row; 3] = [
    Row::Get(FIRST, Some(Entry(1, A))),
    Row::Remove(FIRST, ReleaseMode::Default, Ok(ReleaseState::Unlocked)),
    Row::Holds(0, false),
];

/// By the handle that the first registry gave.
static B_GOES: [Row; 2] = [
    Row::Remove(FIRST, ReleaseMode::Default, Ok(ReleaseState::Unlocked)),
    Row::Holds(0, false),
];

/// On two registries of one service number and role.
fn handles_are_values<R: Registry<UniqueNodeId>>(
    rt: &impl Abort,
    alloc: Global,
    a: &mut R,
    b: &mut R,
) -> Result<(), Fail> {
    are_answered(rt, alloc, a, &A_COMES)?;
    are_answered(rt, alloc, b, &B_COMES)?;
    are_answered(rt, alloc, a, &A_GOES)?;
    are_answered(rt, alloc, b, &B_GOES)
}

#[test]
fn scans_of_one_service_and_role_accept_each_others_handles(rt: HostRuntime) -> Result<(), Fail> {
    let mut one = scan(rt.alloc(), Role::Node, (1, u64::MAX))?;
    let mut other = scan(rt.alloc(), Role::Node, (1, u64::MAX))?;
    handles_are_values(&rt, rt.alloc(), &mut one, &mut other)
}

#[test]
fn lists_of_one_service_and_role_accept_each_others_handles(rt: HostRuntime) -> Result<(), Fail> {
    let mut one = list(rt.alloc(), Role::Node, (1, u64::MAX))?;
    let mut other = list(rt.alloc(), Role::Node, (1, u64::MAX))?;
    handles_are_values(&rt, rt.alloc(), &mut one, &mut other)
}

#[test]
fn numbers_for_services_rise_to_the_greatest(rt: HostRuntime) {
    let mut numbers = ServiceNumbers::after(0);
    let mut last = ServiceNumbers::after(u64::MAX - 1);
    assert_eq!(rt;
        [
            numbers.next_number(),
            numbers.next_number(),
            last.next_number(),
            last.next_number(),
            last.next_number(),
        ],
        [Some(1), Some(2), Some(u64::MAX), None, None]
    );
    assert_eq!(rt; [numbers.last(), last.last()], [2, u64::MAX]);
}
