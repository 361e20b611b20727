//! Calls on a service as rows of a table, each with what
//! it must answer. One table serves for all patterns.
use super::patterns::*;
use crate::nodes::Node;
use arrayvec::ArrayVec;
use iox2_container::container::{ContainerHandle, ContainerRemoveError, Role};
use iox2_dynamic::dynamic_config::*;
use iox2_ids::identifiers::{UniqueNodeId, UniquePortId};
use iox2_texts::bounded::CallbackProgression;
use std::alloc::Global;
use std::process::Abort;
use std::test::Fail;

/// The handle of these parts: the number of its service, its kind, its slot and its ticket.
#[derive(Clone, Copy)]
pub(super) struct Handle(
    pub(super) u64,
    pub(super) Kind,
    pub(super) usize,
    pub(super) u64,
);

impl Handle {
    fn on(self, pattern: &Pattern) -> ContainerHandle {
        let Handle(service, kind, slot, ticket) = self;
        ContainerHandle::from_parts(service, pattern.role(kind), slot, ticket)
    }
}

/// What is answered for a handle that is not a port's here.
pub(super) const NOT_A_PORT: Result<(), ContainerRemoveError> = Err(
    ContainerRemoveError::ContainerHandleNotOwnedByContainer,
);

/// A call, and its answer.
#[derive(Clone, Copy)]
pub(super) enum Row<'a> {
    /// Registers a node.
    Register(Node, Result<Handle, RegisterNodeResult>),
    /// Takes out a node, and answers whether the service still has owners.
    Deregister(Handle, Result<bool, DeregisterError>),
    /// Attaches a port of this counter and node.
    Attach(Kind, u32, Node, Result<Handle, AttachError>),
    /// Releases a port.
    Release(Handle, Result<(), ContainerRemoveError>),
    /// Recovers a dead node by a callback that keeps the ports of the first counters. Answers the
    /// ports that it was asked about, in order, and whether the service still has owners.
    Recover(Node, &'a [u128], &'a [u128], bool),
    /// How many nodes are listed.
    Nodes(u64),
    /// The ports of a kind by rising slot, or `None` where the pattern lacks the kind.
    Ports(Kind, Option<&'a [u128]>),
    /// Whether there is room for a node, for a first port and for another,
    /// and whether the service is locked.
    Room([bool; 3], bool),
    /// The counter of the node or port that a handle stands for, if it stands for one.
    StandsFor(Handle, Option<u128>),
}

/// The counter of a port of process 1, by the number of its id.
pub(super) fn counter_of(number_of_id: u128) -> u128 {
    number_of_id.wrapping_sub(number(0))
}

/// Recovers a dead node by a callback that keeps the
/// ports of some counters, in the row of this index.
#[tactic(auto, using(iox2_dynamic::proofs::Callbacks::callbacks))]
fn recovers(
    rt: &impl Abort,
    service: &mut DynamicConfig,
    at: usize,
    dead: &UniqueNodeId,
    kept: &[u128],
    wanted: (&[u128], bool),
) {
    let mut asked: ArrayVec<u128, 8> = ArrayVec::new();
    let mut clean = |id: UniquePortId| {
        let counter = counter_of(id.value());
        // No row has so many ports.
        let _ = asked.try_push(counter);
        if kept.contains(&counter) {
            PortCleanupAction::SkipPort
        } else {
            PortCleanupAction::RemovePort
        }
    };
    let owned = has_owners(service.remove_dead_node_id(dead, &mut clean));
    assert_eq!(rt; (at, asked.as_slice(), owned), (at, wanted.0, wanted.1));
}

/// Lists the ports of a role in the row of this index, and checks whether the service has the role
/// and how many ports of it there are.
#[tactic(auto, using(iox2_dynamic::proofs::Callbacks::callbacks))]
fn lists(rt: &impl Abort, service: &DynamicConfig, at: usize, role: Role, wanted: Option<&[u128]>) {
    let mut listed: ArrayVec<u128, 8> = ArrayVec::new();
    let mut note = |details: &PortDetails| {
        // No row has so many ports.
        let _ = listed.try_push(counter_of(details.port_id().value()));
        CallbackProgression::Continue
    };
    let reported = service.list_ports(role, &mut note);
    let is_there = wanted.is_some();
    assert_eq!(rt;
        (at, listed.as_slice(), reported),
        (at, wanted.unwrap_or(&[]), is_there)
    );
    assert_eq!(rt;
        (at, service.has_role(role), service.count_ports(role)),
        (at, is_there, wanted.map(|ports| ports.len()))
    );
}

/// How many nodes are listed.
#[tactic(auto, using(iox2_dynamic::proofs::Callbacks::callbacks))]
fn count_nodes(service: &DynamicConfig) -> u64 {
    let mut count = 0u64;
    service.list_node_ids(&mut |_: &UniqueNodeId| {
        count = count.wrapping_add(1);
        CallbackProgression::Continue
    });
    count
}

/// Asks a service for room and for its lock, in the row of this index.
fn has_room(
    rt: &impl Abort,
    service: &DynamicConfig,
    pattern: &Pattern,
    at: usize,
    wanted: ([bool; 3], bool),
) {
    assert!(rt; service.has_role(pattern.first));
    assert!(rt; service.has_role(pattern.second));
    let room = [
        service.has_room_for_node(),
        service.has_room(pattern.first),
        service.has_room(pattern.second),
    ];
    assert_eq!(rt; (at, (room, service.is_locked())), (at, wanted));
}

/// Asks a service what a handle stands for, in the row of this index.
fn stands_for(
    rt: &impl Abort,
    service: &DynamicConfig,
    at: usize,
    handle: ContainerHandle,
    wanted: Option<u128>,
) {
    let node = service.node(handle).map(|id| counter_of(id.value()));
    let port = service
        .port(handle)
        .map(|details| counter_of(details.port_id().value()));
    let is_node = handle.role() == Role::Node;
    let found = if is_node {
        (wanted, None)
    } else {
        (None, wanted)
    };
    assert_eq!(rt; (at, (node, port)), (at, found));
}

/// Registers a node in the row of this index, and compares the answer.
fn registers(
    rt: &impl Abort,
    service: &mut DynamicConfig,
    pattern: &Pattern,
    at: usize,
    row: (Node, Result<Handle, RegisterNodeResult>),
) -> Result<(), Fail> {
    let (node, wanted) = row;
    let answer = service.register_node_id(node.id()?);
    assert_eq!(rt; (at, answer), (at, wanted.map(|handle| handle.on(pattern))));
    Ok(())
}

/// Takes out a node in the row of this index, and compares the answer.
fn deregisters(
    rt: &impl Abort,
    service: &mut DynamicConfig,
    at: usize,
    handle: ContainerHandle,
    wanted: Result<bool, DeregisterError>,
) {
    let answer = service.deregister_node_id(handle).map(has_owners);
    assert_eq!(rt; (at, answer), (at, wanted));
}

/// Attaches a port in the row of this index, and compares the answer.
fn attaches(
    rt: &impl Abort,
    service: &mut DynamicConfig,
    pattern: &Pattern,
    at: usize,
    row: (Kind, u32, Node, Result<Handle, AttachError>),
) -> Result<(), Fail> {
    let (kind, counter, node, wanted) = row;
    let answer = attach(rt, service, pattern.role(kind), counter, node.id()?)?;
    assert_eq!(rt; (at, answer), (at, wanted.map(|handle| handle.on(pattern))));
    Ok(())
}

/// Releases a port in the row of this index, and compares the answer.
fn releases(
    rt: &impl Abort,
    service: &mut DynamicConfig,
    at: usize,
    handle: ContainerHandle,
    wanted: Result<(), ContainerRemoveError>,
) {
    assert_eq!(rt; (at, service.release_port(handle)), (at, wanted));
}

/// Compares how many nodes are listed in the row of this index.
fn has_nodes(rt: &impl Abort, service: &DynamicConfig, at: usize, count: u64) {
    assert_eq!(rt; (at, count_nodes(service)), (at, count));
}

/// Makes the call of the row of this index, and compares its answer. No call takes memory.
fn is_answered(
    rt: &impl Abort,
    service: &mut DynamicConfig,
    pattern: &Pattern,
    at: usize,
    row: &Row,
) -> Result<(), Fail> {
    match *row {
        Row::Register(node, wanted) => registers(rt, service, pattern, at, (node, wanted))?,
        Row::Deregister(handle, wanted) => {
            deregisters(rt, service, at, handle.on(pattern), wanted);
        }
        Row::Attach(kind, counter, node, wanted) => {
            attaches(rt, service, pattern, at, (kind, counter, node, wanted))?;
        }
        Row::Release(handle, wanted) => releases(rt, service, at, handle.on(pattern), wanted),
        Row::Recover(dead, kept, asked, owned) => {
            recovers(rt, service, at, &dead.id()?, kept, (asked, owned));
        }
        Row::Nodes(count) => has_nodes(rt, service, at, count),
        Row::Ports(kind, wanted) => lists(rt, service, at, pattern.role(kind), wanted),
        Row::Room(room, is_locked) => has_room(rt, service, pattern, at, (room, is_locked)),
        Row::StandsFor(handle, wanted) => {
            stands_for(rt, service, at, handle.on(pattern), wanted);
        }
    }
    Ok(())
}

/// Makes the calls of the rows one after the other.
pub(super) fn are_answered(
    rt: &impl Abort,
    service: &mut DynamicConfig,
    pattern: &Pattern,
    rows: &[Row],
) -> Result<(), Fail> {
    for (at, row) in rows.iter().enumerate() {
        is_answered(rt, service, pattern, at, row)?;
    }
    Ok(())
}

/// Makes the calls of the rows on a new service of each pattern, with this many slots for nodes,
/// for the first ports and for the others.
pub(super) fn each_pattern_answers(
    rt: &impl Abort,
    alloc: Global,
    capacities: (usize, usize, usize),
    rows: &[Row],
) -> Result<(), Fail> {
    for pattern in &PATTERNS {
        let mut service = service(alloc, pattern.kind, capacities)?;
        are_answered(rt, &mut service, pattern, rows)?;
    }
    Ok(())
}
