//! Registries of both kinds, and what stands in them.
use super::rows::{Row, are_answered};
use crate::nodes::Node;
use iox2_container::container::*;
use iox2_ids::identifiers::UniqueNodeId;
use std::alloc::{AllocError, Global};
use std::fmt::Debug;
use std::process::Abort;
use std::test::Fail;

/// A port with its own number, and its node.
#[derive(Clone, Copy, Debug, PartialEq, Eq)]
pub(super) struct Port {
    number: u64,
    node: UniqueNodeId,
}

impl Attached for Port {
    ghost node = { λ port. port.node };

    ghost number = { λ port. port.number };

    fn node_id(&self) -> UniqueNodeId {
        self.node
    }

    fn key(&self) -> u128 {
        self.number as u128
    }
}

/// What stands in a registry, in words that are the same for nodes and ports.
#[derive(Clone, Copy)]
pub(super) struct Entry(pub(super) u64, pub(super) Node);

/// Nodes and ports.
pub(super) trait Details: Attached + Copy + Debug + PartialEq {
    /// The port of this number and node, or the node.
    fn of(number: u64, node: UniqueNodeId) -> Self;
}

impl Details for Port {
    fn of(number: u64, node: UniqueNodeId) -> Self {
        Port { number, node }
    }
}

impl Details for UniqueNodeId {
    fn of(_number: u64, node: UniqueNodeId) -> Self {
        node
    }
}

impl Entry {
    pub(super) fn details<T: Details>(self) -> Result<T, Fail> {
        let Entry(number, node) = self;
        Ok(T::of(number, node.id()?))
    }
}

/// The details of all the entries.
pub(super) fn all_details<T: Details>(alloc: Global, entries: &[Entry]) -> Result<Vec<T>, Fail> {
    let mut all = Vec::new(alloc);
    for entry in entries {
        all.push(entry.details()?)?;
    }
    Ok(all)
}

/// A new scan of service 7, with this capacity and these tickets.
pub(super) fn scan<T: Details>(
    alloc: Global,
    role: Role,
    (capacity, tickets): (usize, u64),
) -> Result<Container<T>, AllocError> {
    Container::new(alloc, 7, role, capacity, tickets)
}

/// A new free list of service 7, with this capacity and these tickets.
pub(super) fn list<T: Details>(
    alloc: Global,
    role: Role,
    (capacity, tickets): (usize, u64),
) -> Result<ListContainer<T>, AllocError> {
    ListContainer::new(alloc, 7, role, capacity, tickets)
}

/// Makes the calls of the rows on a registry, and then those that it answers in its own way.
fn are_all_answered<T: Details, R: Registry<T>>(
    rt: &impl Abort,
    alloc: Global,
    registry: &mut R,
    rows: &[Row],
    of_its_own: &[Row],
) -> Result<(), Fail> {
    are_answered(rt, alloc, registry, rows)?;
    are_answered(rt, alloc, registry, of_its_own)
}

/// Makes the calls of the rows on a new scan.
fn a_scan_answers<T: Details>(
    rt: &impl Abort,
    alloc: Global,
    (role, size): (Role, (usize, u64)),
    rows: &[Row],
    of_scan: &[Row],
) -> Result<(), Fail> {
    let mut scan: Container<T> = scan(alloc, role, size)?;
    are_all_answered(rt, alloc, &mut scan, rows, of_scan)
}

/// Makes the calls of the rows on a new free list.
fn a_list_answers<T: Details>(
    rt: &impl Abort,
    alloc: Global,
    (role, size): (Role, (usize, u64)),
    rows: &[Row],
    of_list: &[Row],
) -> Result<(), Fail> {
    let mut list: ListContainer<T> = list(alloc, role, size)?;
    are_all_answered(rt, alloc, &mut list, rows, of_list)
}

/// Makes the calls of the rows on a new scan and a new free list
/// of nodes, and then those that either answers in its own way.
pub(super) fn nodes_are_answered(
    rt: &impl Abort,
    alloc: Global,
    size: (usize, u64),
    rows: &[Row],
    [of_scan, of_list]: [&[Row]; 2],
) -> Result<(), Fail> {
    a_scan_answers::<UniqueNodeId>(rt, alloc, (Role::Node, size), rows, of_scan)?;
    a_list_answers::<UniqueNodeId>(rt, alloc, (Role::Node, size), rows, of_list)
}

/// As `nodes_are_answered`, of ports.
pub(super) fn ports_are_answered(
    rt: &impl Abort,
    alloc: Global,
    size: (usize, u64),
    rows: &[Row],
    [of_scan, of_list]: [&[Row]; 2],
) -> Result<(), Fail> {
    a_scan_answers::<Port>(rt, alloc, (Role::Publisher, size), rows, of_scan)?;
    a_list_answers::<Port>(rt, alloc, (Role::Publisher, size), rows, of_list)
}
