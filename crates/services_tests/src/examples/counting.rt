//! Counts of who is attached.
use super::services::*;
use iox2_container::container::Role;
use iox2_dynamic::dynamic_config::DynamicConfig;
use iox2_ids::identifiers::UniqueNodeId;
use iox2_texts::bounded::CallbackProgression;
use service_examples::census::{Census, PortCount, take_census};
use std::alloc::Global;
use std::process::Abort;
use std::test::Fail;

/// Node 1, which is registered twice, with a publisher
/// and a subscriber, and node 2 with a publisher.
fn peopled(rt: &impl Abort, alloc: Global) -> Result<Box<DynamicConfig>, Fail> {
    let mut service = service(alloc, 3)?;
    service.register_node_id(node(rt, 1))?;
    service.register_node_id(node(rt, 2))?;
    service.register_node_id(node(rt, 1))?;
    attach(rt, &mut service, publisher_details(rt, 21, 1));
    attach(rt, &mut service, publisher_details(rt, 22, 2));
    attach(rt, &mut service, subscriber(rt, 31, 1));
    Ok(service)
}

#[test]
fn a_census_counts_nodes_and_ports(rt: HostRuntime) -> Result<(), Fail> {
    let service = peopled(&rt, rt.alloc())?;
    assert_eq!(rt;
        take_census(&service),
        Census {
            nodes: 3,
            first: PortCount {
                role: Role::Publisher,
                count: 2
            },
            second: PortCount {
                role: Role::Subscriber,
                count: 1
            },
        }
    );
    Ok(())
}

/// How many handles of nodes there are, counted one by one by a closure that states nothing.
#[tactic(auto, using(iox2_dynamic::proofs::Callbacks::callbacks))]
fn count_handles(service: &DynamicConfig) -> usize {
    let _bound = service.number_of_nodes();
    let mut count = 0usize;
    let mut one_more = |_: &UniqueNodeId| {
        count += 1;
        CallbackProgression::Continue
    };
    service.list_node_ids(&mut one_more);
    count
}

#[test]
fn a_callback_counts_by_one_more(rt: HostRuntime) -> Result<(), Fail> {
    let service = peopled(&rt, rt.alloc())?;
    assert_eq!(rt; count_handles(&service), 3);
    Ok(())
}
