//! The life of a service.
use super::services::*;
use iox2_dynamic::dynamic_config::{DeregisterNodeState, DynamicConfig};
use service_examples::builder::open_service;
use service_examples::discovery::{Member, list_attached};
use service_examples::factory::attach_publisher;
use service_examples::monitor::remove_dead_nodes;
use std::alloc::Global;
use std::process::Abort;
use std::test::Fail;

/// Who is attached: the counter of each node, and for a port that of the port behind it.
fn attached(alloc: Global, service: &DynamicConfig) -> Result<Vec<(u128, Option<u128>)>, Fail> {
    let mut members = Vec::new(alloc);
    list_attached(alloc, service, &mut members)?;
    let mut counters = Vec::with_capacity(alloc, members.len())?;
    for member in &members {
        let port = match member {
            Member::Node(_) => None,
            Member::Port(details) => Some(counter(details.port_id().value())),
        };
        counters.push((counter(member.node_id().value()), port))?;
    }
    Ok(counters)
}

/// Opens the service by the node with this counter.
fn open(rt: &impl Abort, service: &mut DynamicConfig, counter: u32) {
    let opened = open_service(&description(rt, 3), service, &opener(rt, "red", counter));
    assert!(rt; opened.is_ok());
}

/// Attaches a publisher of the node.
fn publish(rt: &impl Abort, service: &mut DynamicConfig, counter: u32, node: u32) {
    let red = description(rt, 3);
    assert!(rt; red.is_publish_subscribe());
    let made = attach_publisher(
        red.publish_subscribe(),
        service,
        &publisher(rt, counter, node),
    );
    assert!(rt; made.is_ok());
}

/// Whether these are attached: the counter of each node, and for a port that of the port behind it.
fn are_attached(
    alloc: Global,
    service: &DynamicConfig,
    expected: &[(u128, Option<u128>)],
) -> Result<bool, Fail> {
    Ok(attached(alloc, service)?.as_slice() == expected)
}

/// Two nodes open the service, and ports of theirs are attached.
fn come(rt: &impl Abort, service: &mut DynamicConfig) {
    open(rt, service, 2);
    open(rt, service, 1);
    attach(rt, service, subscriber(rt, 31, 2));
    publish(rt, service, 21, 2);
    publish(rt, service, 22, 1);
}

/// What is seen while the nodes come and go.
fn seen(rt: &impl Abort, alloc: Global, service: &mut DynamicConfig) -> Result<[bool; 6], Fail> {
    come(rt, service);
    let first = are_attached(
        alloc,
        service,
        &[
            (1, None),
            (1, Some(22)),
            (2, None),
            (2, Some(21)),
            (2, Some(31)),
        ],
    )?;
    let nobody = remove_dead_nodes(service, &[]).is_none();
    let some = remove_dead_nodes(service, &[node(rt, 1), node(rt, 3)]);
    let second = are_attached(alloc, service, &[(2, None), (2, Some(21)), (2, Some(31))])?;
    let all = remove_dead_nodes(service, &[node(rt, 2)]);
    let last = are_attached(alloc, service, &[])?;
    Ok([
        first,
        nobody,
        some == Some(DeregisterNodeState::HasOwners),
        second,
        all == Some(DeregisterNodeState::NoMoreOwners),
        last,
    ])
}

/// Node 2 opens before node 1, each has ports, and node 1 dies before node 2; nobody knows node 3.
#[test]
fn two_nodes_come_and_go(rt: HostRuntime) -> Result<(), Fail> {
    let mut service = service(rt.alloc(), 3)?;
    let seen = seen(&rt, rt.alloc(), &mut service)?;
    assert_eq!(rt; seen, [true; 6]);
    Ok(())
}

/// The death of node 1 leaves node 2, nobody knows node 3, and that of node 2 is the last.
#[test]
fn the_last_of_some_deaths_ends_a_service(rt: HostRuntime) -> Result<(), Fail> {
    let mut service = service(rt.alloc(), 3)?;
    come(&rt, &mut service);
    let dead = [node(&rt, 1), node(&rt, 3), node(&rt, 2)];
    let reported = remove_dead_nodes(&mut service, &dead);
    assert!(rt; reported == Some(DeregisterNodeState::NoMoreOwners));
    assert!(rt; are_attached(rt.alloc(), &service, &[])?);
    Ok(())
}
