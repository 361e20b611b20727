//! Recoveries and listings, which pass over the entries.
use super::registries::{Entry, nodes_are_answered, ports_are_answered};
use super::rows::{Handle, IS_LOCKED, NOT_OWNED, OUT_OF_SPACE, Row};
use crate::nodes::{A, Node, ONE_OF_FIVE, TWO_OF_FIVE};
use iox2_container::container::*;
use std::test::Fail;

const OTHER: Node = Node(2, 0, 2);

/// On a registry of three slots, of which a recovery frees the first and the last.
static TWO_PLACES_ARE_RECOVERED: [Row; 5] = [
    Row::Add(Entry(10, A), Ok(Handle(7, Role::Publisher, 0, 0))),
    Row::Add(Entry(11, OTHER), Ok(Handle(7, Role::Publisher, 1, 1))),
    Row::Add(Entry(12, A), Ok(Handle(7, Role::Publisher, 2, 2))),
    Row::Recover(
        A,
        &[true, true],
        ReleaseMode::Default,
        &[Entry(10, A), Entry(12, A)],
        ReleaseState::Unlocked,
    ),
    Row::EntriesOf(A, 0),
];

/// The scan takes the lowest slot first.
static THE_SCAN_USES_THEM_AGAIN: [Row; 5] = [
    Row::Add(Entry(13, A), Ok(Handle(7, Role::Publisher, 0, 3))),
    Row::Add(Entry(14, OTHER), Ok(Handle(7, Role::Publisher, 2, 4))),
    Row::Add(Entry(15, A), OUT_OF_SPACE),
    Row::EntriesOf(OTHER, 2),
    Row::List(
        usize::MAX,
        &[Entry(13, A), Entry(11, OTHER), Entry(14, OTHER)],
    ),
];

/// The list takes the slot first that was freed last.
static THE_LIST_USES_THEM_AGAIN: [Row; 5] = [
    Row::Add(Entry(13, A), Ok(Handle(7, Role::Publisher, 2, 3))),
    Row::Add(Entry(14, OTHER), Ok(Handle(7, Role::Publisher, 0, 4))),
    Row::Add(Entry(15, A), OUT_OF_SPACE),
    Row::EntriesOf(OTHER, 2),
    Row::List(
        usize::MAX,
        &[Entry(14, OTHER), Entry(11, OTHER), Entry(13, A)],
    ),
];

#[test]
fn recovery_frees_by_rising_slots(rt: HostRuntime) -> Result<(), Fail> {
    ports_are_answered(
        &rt,
        rt.alloc(),
        (3, u64::MAX),
        &TWO_PLACES_ARE_RECOVERED,
        [&THE_SCAN_USES_THEM_AGAIN, &THE_LIST_USES_THEM_AGAIN],
    )
}

/// With two tickets: a recovery asks and goes by the whole id.
static ONE_OF_AN_OWNER_IS_RECOVERED: [Row; 9] = [
    Row::Recover(
        ONE_OF_FIVE,
        &[true],
        ReleaseMode::LockIfLastIndex,
        &[],
        ReleaseState::Unlocked,
    ),
    Row::Add(Entry(1, ONE_OF_FIVE), Ok(Handle(7, Role::Node, 0, 0))),
    Row::Add(Entry(2, TWO_OF_FIVE), Ok(Handle(7, Role::Node, 1, 1))),
    Row::Recover(
        ONE_OF_FIVE,
        &[false],
        ReleaseMode::LockIfLastIndex,
        &[Entry(1, ONE_OF_FIVE)],
        ReleaseState::Unlocked,
    ),
    Row::Recover(
        ONE_OF_FIVE,
        &[true],
        ReleaseMode::LockIfLastIndex,
        &[Entry(1, ONE_OF_FIVE)],
        ReleaseState::Unlocked,
    ),
    Row::EntriesOf(ONE_OF_FIVE, 0),
    Row::EntriesOf(TWO_OF_FIVE, 1),
    Row::Recover(
        TWO_OF_FIVE,
        &[true],
        ReleaseMode::LockIfLastIndex,
        &[Entry(2, TWO_OF_FIVE)],
        ReleaseState::Locked,
    ),
    Row::Add(Entry(2, TWO_OF_FIVE), IS_LOCKED),
];

#[test]
fn nodes_that_share_an_owner_id(rt: HostRuntime) -> Result<(), Fail> {
    let (one, two) = (ONE_OF_FIVE.id()?, TWO_OF_FIVE.id()?);
    assert_eq!(rt; one.owner_id(), two.owner_id());
    nodes_are_answered(
        &rt,
        rt.alloc(),
        (4, 2),
        &ONE_OF_AN_OWNER_IS_RECOVERED,
        [&[]; 2],
    )
}

/// On a registry of three slots.
static A_LISTING_STOPS: [Row; 4] = [
    Row::Add(Entry(10, A), Ok(Handle(7, Role::Publisher, 0, 0))),
    Row::Add(Entry(11, A), Ok(Handle(7, Role::Publisher, 1, 1))),
    Row::Add(Entry(12, A), Ok(Handle(7, Role::Publisher, 2, 2))),
    Row::List(2, &[Entry(10, A), Entry(11, A)]),
];

#[test]
fn a_listing_stops_at_its_second_entry(rt: HostRuntime) -> Result<(), Fail> {
    ports_are_answered(&rt, rt.alloc(), (3, u64::MAX), &A_LISTING_STOPS, [&[]; 2])
}

/// On a registry of four slots, three of them with entries of one node.
static ANSWERS_GO_BY_TURN: [Row; 7] = [
    Row::Add(Entry(10, A), Ok(Handle(7, Role::Publisher, 0, 0))),
    Row::Add(Entry(11, OTHER), Ok(Handle(7, Role::Publisher, 1, 1))),
    Row::Add(Entry(12, A), Ok(Handle(7, Role::Publisher, 2, 2))),
    Row::Add(Entry(13, A), Ok(Handle(7, Role::Publisher, 3, 3))),
    Row::Recover(
        A,
        &[true, false, true],
        ReleaseMode::LockIfLastIndex,
        &[Entry(10, A), Entry(12, A), Entry(13, A)],
        ReleaseState::Unlocked,
    ),
    Row::List(usize::MAX, &[Entry(11, OTHER), Entry(12, A)]),
    Row::EntriesOf(A, 1),
];

#[test]
fn three_candidates_answered_yes_no_yes(rt: HostRuntime) -> Result<(), Fail> {
    ports_are_answered(
        &rt,
        rt.alloc(),
        (4, u64::MAX),
        &ANSWERS_GO_BY_TURN,
        [&[]; 2],
    )
}

/// On a registry of three slots.
static THE_LAST_THAT_LEAVES_LOCKS: [Row; 6] = [
    Row::Add(Entry(1, A), Ok(Handle(7, Role::Node, 0, 0))),
    Row::Remove(
        Handle(7, Role::Node, 0, 0),
        ReleaseMode::LockIfLastIndex,
        Ok(ReleaseState::Locked),
    ),
    Row::Recover(A, &[true], ReleaseMode::Default, &[], ReleaseState::Locked),
    Row::Holds(0, true),
    Row::Add(Entry(1, A), IS_LOCKED),
    Row::Remove(Handle(7, Role::Node, 0, 0), ReleaseMode::Default, NOT_OWNED),
];

#[test]
fn a_removal_locks_and_a_recovery_finds_it_locked(rt: HostRuntime) -> Result<(), Fail> {
    nodes_are_answered(
        &rt,
        rt.alloc(),
        (3, u64::MAX),
        &THE_LAST_THAT_LEAVES_LOCKS,
        [&[]; 2],
    )
}
