//! Which slots and tickets entries take.
use super::registries::{Entry, Port, list, nodes_are_answered, scan};
use super::rows::{Handle, NOT_OWNED, OUT_OF_SPACE, Row, are_answered};
use crate::nodes::{A, Node};
use iox2_container::container::*;
use iox2_ids::identifiers::UniqueNodeId;
use std::alloc::Global;
use std::process::Abort;
use std::test::Fail;

/// On a registry of three slots and two tickets.
static TICKETS_RUN_OUT: [Row; 5] = [
    Row::Add(Entry(1, A), Ok(Handle(7, Role::Node, 0, 0))),
    Row::Add(Entry(1, A), Ok(Handle(7, Role::Node, 1, 1))),
    Row::Add(Entry(1, A), OUT_OF_SPACE),
    Row::Holds(2, false),
    Row::Capacity(3),
];

#[test]
fn a_third_entry_wants_a_ticket(rt: HostRuntime) -> Result<(), Fail> {
    nodes_are_answered(&rt, rt.alloc(), (3, 2), &TICKETS_RUN_OUT, [&[]; 2])
}

/// On a registry of three slots, where the entries of the lower two leave.
static TWO_PLACES_ARE_FREED: [Row; 5] = [
    Row::Add(Entry(1, A), Ok(Handle(7, Role::Node, 0, 0))),
    Row::Add(Entry(1, A), Ok(Handle(7, Role::Node, 1, 1))),
    Row::Add(Entry(1, A), Ok(Handle(7, Role::Node, 2, 2))),
    Row::Remove(
        Handle(7, Role::Node, 0, 0),
        ReleaseMode::Default,
        Ok(ReleaseState::Unlocked),
    ),
    Row::Remove(
        Handle(7, Role::Node, 1, 1),
        ReleaseMode::Default,
        Ok(ReleaseState::Unlocked),
    ),
];

static THE_LOWEST_IS_TAKEN: [Row; 2] = [
    Row::Add(Entry(1, A), Ok(Handle(7, Role::Node, 0, 3))),
    Row::Holds(2, false),
];

static THE_LAST_FREED_IS_TAKEN: [Row; 2] = [
    Row::Add(Entry(1, A), Ok(Handle(7, Role::Node, 1, 3))),
    Row::Holds(2, false),
];

#[test]
fn the_scan_takes_the_lowest_and_the_list_the_last_freed(rt: HostRuntime) -> Result<(), Fail> {
    nodes_are_answered(
        &rt,
        rt.alloc(),
        (3, u64::MAX),
        &TWO_PLACES_ARE_FREED,
        [&THE_LOWEST_IS_TAKEN, &THE_LAST_FREED_IS_TAKEN],
    )
}

/// On a registry with no slot or no ticket.
static NOTHING_FITS: [Row; 4] = [
    Row::Add(Entry(1, A), OUT_OF_SPACE),
    Row::Get(Handle(7, Role::Node, 0, 0), None),
    Row::Remove(
        Handle(7, Role::Node, 0, 0),
        ReleaseMode::LockIfLastIndex,
        NOT_OWNED,
    ),
    Row::Recover(
        A,
        &[true],
        ReleaseMode::LockIfLastIndex,
        &[],
        ReleaseState::Unlocked,
    ),
];

#[test]
fn no_place_or_no_ticket(rt: HostRuntime) -> Result<(), Fail> {
    nodes_are_answered(&rt, rt.alloc(), (0, 2), &NOTHING_FITS, [&[]; 2])?;
    nodes_are_answered(&rt, rt.alloc(), (2, 0), &NOTHING_FITS, [&[]; 2])
}

#[test]
fn places_that_no_memory_holds(rt: HostRuntime) {
    let most = usize::MAX;
    let scan = scan::<Port>(rt.alloc(), Role::Publisher, (most, 1)).is_err();
    let list = list::<Port>(rt.alloc(), Role::Publisher, (most, 1)).is_err();
    let slots = Slots::new(rt.alloc(), most, 0u16).is_err();
    assert_eq!(rt; [scan, list, slots], [true; 3]);
}

#[test]
fn slots_are_read_and_written(rt: HostRuntime) -> Result<(), Fail> {
    let mut slots = Slots::new(rt.alloc(), 3, b'-')?;
    assert_eq!(rt; slots.len(), 3);
    slots.write(1, b'a');
    assert_eq!(rt;
        (slots.read(0), slots.read(1), slots.read(2)),
        (b'-', b'a', b'-')
    );
    Ok(())
}

/// The rows in which the entry of this slot comes.
fn one_comes(slot: u32) -> [Row<'static>; 1] {
    let handle = Handle(7, Role::Node, slot as usize, slot as u64);
    [Row::Add(Entry(1, Node(1, 0, slot.wrapping_add(1))), Ok(handle))]
}

static NO_PLACE_IS_LEFT: [Row; 2] = [Row::Add(Entry(1, A), OUT_OF_SPACE), Row::Holds(100, false)];

/// The entry of this slot goes, and locks where it is the last.
fn one_goes(slot: usize) -> [Row<'static>; 3] {
    let handle = Handle(7, Role::Node, slot, slot as u64);
    let state = if slot == 99 {
        ReleaseState::Locked
    } else {
        ReleaseState::Unlocked
    };
    [
        Row::Holds(100usize.wrapping_sub(slot), false),
        Row::Remove(handle, ReleaseMode::LockIfLastIndex, Ok(state)),
        Row::Get(handle, None),
    ]
}

/// On a registry of 100 slots, which are taken from the first on.
fn all_places_are_filled_and_drained<R: Registry<UniqueNodeId>>(
    rt: &impl Abort,
    alloc: Global,
    registry: &mut R,
) -> Result<(), Fail> {
    for slot in 0..100 {
        are_answered(rt, alloc, registry, &one_comes(slot))?;
    }
    are_answered(rt, alloc, registry, &NO_PLACE_IS_LEFT)?;
    for slot in 0..100 {
        are_answered(rt, alloc, registry, &one_goes(slot))?;
    }
    are_answered(rt, alloc, registry, &[Row::Holds(0, true)])
}

#[test]
fn a_hundred_places_of_a_scan(rt: HostRuntime) -> Result<(), Fail> {
    let mut scan = scan(rt.alloc(), Role::Node, (100, u64::MAX))?;
    all_places_are_filled_and_drained(&rt, rt.alloc(), &mut scan)
}

#[test]
fn a_hundred_places_of_a_list(rt: HostRuntime) -> Result<(), Fail> {
    let mut list = list(rt.alloc(), Role::Node, (100, u64::MAX))?;
    all_places_are_filled_and_drained(&rt, rt.alloc(), &mut list)
}
