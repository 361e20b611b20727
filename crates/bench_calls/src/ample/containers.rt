//! Both containers, their slots, and the comparison of the two.
use super::{Called, is_given};
use iox2_container::container::{
    Container, ListContainer, RegistryCall, RegistryReply, Role, Slots, compare,
};
use iox2_ids::identifiers::UniqueNodeId;
use std::alloc::{AllocError, Global};

/// A scan takes time by the square of its entries, so that no more are compared.
const MOST_ENTRIES: usize = 4_097;

type Call = RegistryCall<UniqueNodeId>;

/// The replies of one registry.
type Replies = Vec<RegistryReply<UniqueNodeId>>;

fn scan(alloc: Global, capacity: usize, tickets: u64) -> bool {
    is_given(Container::<UniqueNodeId>::new(alloc, 7, Role::Node, capacity, tickets))
}

fn list(alloc: Global, capacity: usize, tickets: u64) -> bool {
    is_given(ListContainer::<UniqueNodeId>::new(alloc, 7, Role::Node, capacity, tickets))
}

/// Makes the calls on a new scan and a new list.
fn compared(alloc: Global, capacity: usize, calls: &[Call]) -> Result<bool, AllocError> {
    let mut scan = Container::new(alloc, 1, Role::Node, capacity, u64::MAX)?;
    let mut list = ListContainer::new(alloc, 2, Role::Node, capacity, u64::MAX)?;
    let mut of_scan: Replies = Vec::new(alloc);
    let mut of_list: Replies = Vec::new(alloc);
    compare(
        alloc,
        &mut scan,
        &mut list,
        calls,
        &mut of_scan,
        &mut of_list,
    )
}

/// So many calls.
fn compared_by_calls(alloc: Global, calls: usize) -> Result<bool, AllocError> {
    let mut all: Vec<Call> = Vec::new(alloc);
    for _ in 0..calls {
        all.push(RegistryCall::Len)?;
    }
    compared(alloc, 1, &all)
}

/// A listing of this many entries.
fn compared_by_entries(alloc: Global, entries: usize) -> Result<bool, AllocError> {
    let mut all: Vec<Call> = Vec::new(alloc);
    if let Some(node) = UniqueNodeId::new(1, 0, 0, 1) {
        for _ in 0..entries {
            all.push(RegistryCall::Add(node))?;
        }
    }
    all.push(RegistryCall::List)?;
    compared(alloc, entries, &all)
}

pub(super) fn calls(alloc: Global, size: usize) -> [Called; 7] {
    let tickets = size as u64;
    let entries = size.min(MOST_ENTRIES);
    [
        ("Slots::new", is_given(Slots::new(alloc, size, 0u64))),
        ("Container::new by capacity", scan(alloc, size, u64::MAX)),
        ("Container::new by tickets", scan(alloc, 1, tickets)),
        (
            "ListContainer::new by capacity",
            list(alloc, size, u64::MAX),
        ),
        ("ListContainer::new by tickets", list(alloc, 1, tickets)),
        ("compare by calls", compared_by_calls(alloc, size).is_ok()),
        (
            "compare by entries",
            compared_by_entries(alloc, entries).is_ok(),
        ),
    ]
}
