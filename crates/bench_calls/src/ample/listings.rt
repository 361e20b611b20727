//! Lists of who is attached to a service of each pattern, and of what stands in a container.
use super::Called;
use iox2_container::container::{Container, ListContainer, Registry, Role, entries};
use iox2_dynamic::dynamic_config::{
    ClientDetails, DynamicConfig, ListenerDetails, MessagingPatternSettings, NotifierDetails,
    PortDetails, PortRoles, PublisherDetails, ReaderDetails, ServerDetails, SubscriberDetails,
    WriterDetails,
};
use iox2_ids::identifiers::*;
use service_descriptions::config::DataSegmentType;
use service_descriptions::hash::PatternKind;
use service_examples::discovery::list_attached;
use std::alloc::{AllocError, Global};

/// Of each kind no more are attached, since a list of all takes memory by their number.
const MOST_MEMBERS: usize = 65_537;

/// A scan takes time by the square of its entries, so that no more are added.
const MOST_ENTRIES: usize = 4_097;

/// A port of this role and node; none is a node.
pub(super) fn port(role: Role, node_id: UniqueNodeId) -> Option<PortDetails> {
    Some(match role {
        Role::Node => return None,
        Role::Publisher => PortDetails::Publisher(PublisherDetails {
            publisher_id: UniquePublisherId::new(1, 0, 0, 9),
            node_id,
            number_of_samples: 1,
            max_slice_len: 1,
            data_segment_type: DataSegmentType::Static,
            max_number_of_segments: 1,
        }),
        Role::Subscriber => PortDetails::Subscriber(SubscriberDetails {
            subscriber_id: UniqueSubscriberId::new(1, 0, 0, 9),
            node_id,
            buffer_size: 1,
        }),
        Role::Listener => PortDetails::Listener(ListenerDetails {
            listener_id: UniqueListenerId::new(1, 0, 0, 9),
            node_id,
        }),
        Role::Notifier => PortDetails::Notifier(NotifierDetails {
            notifier_id: UniqueNotifierId::new(1, 0, 0, 9),
            node_id,
        }),
        Role::Server => PortDetails::Server(ServerDetails {
            server_id: UniqueServerId::new(1, 0, 0, 9),
            node_id,
            request_buffer_size: 1,
            number_of_responses: 1,
            max_slice_len: 1,
            data_segment_type: DataSegmentType::Static,
            max_number_of_segments: 1,
        }),
        Role::Client => PortDetails::Client(ClientDetails {
            client_id: UniqueClientId::new(1, 0, 0, 9),
            node_id,
            number_of_requests: 1,
            response_buffer_size: 1,
            max_slice_len: 1,
            data_segment_type: DataSegmentType::Static,
            max_number_of_segments: 1,
        }),
        Role::Reader => PortDetails::Reader(ReaderDetails {
            reader_id: UniqueReaderId::new(1, 0, 0, 9),
            node_id,
        }),
        Role::Writer => PortDetails::Writer(WriterDetails {
            writer_id: UniqueWriterId::new(1, 0, 0, 9),
            node_id,
        }),
    })
}

/// Attaches a port of this role to the node.
fn attach(service: &mut DynamicConfig, role: Role, node: UniqueNodeId) {
    if let Some(details) = port(role, node) {
        if service.has_role(details.role()) {
            // There is a slot for it.
            let _ = service.attach(details);
        }
    }
}

/// Registers the node, and attaches a port of both kinds to it, each this many times.
fn fill(service: &mut DynamicConfig, node: UniqueNodeId, members: usize) {
    let (first, second) = service.kind().port_roles();
    for _ in 0..members {
        // There is a slot for it.
        let _ = service.register_node_id(node);
        attach(service, first, node);
        attach(service, second, node);
    }
}

/// Lists the nodes, the ports of each kind, those of a node, and all members.
fn list(alloc: Global, service: &DynamicConfig, node: &UniqueNodeId) -> [bool; 5] {
    let (first, second) = service.kind().port_roles();
    let mut members = Vec::new(alloc);
    [
        service.nodes(alloc).is_ok(),
        service.ports(alloc, first).is_ok(),
        service.ports(alloc, second).is_ok(),
        service.ports_of(alloc, node).is_ok(),
        list_attached(alloc, service, &mut members).is_ok(),
    ]
}

/// A service of a pattern with this many nodes and ports of both kinds, which are listed.
fn listed(
    alloc: Global,
    pattern: PatternKind,
    node: UniqueNodeId,
    members: usize,
) -> Result<[bool; 5], AllocError> {
    let settings = MessagingPatternSettings::new(pattern, members, members);
    let mut service = Box::new(alloc, DynamicConfig::new(alloc, &settings, members, 7)?)?;
    fill(&mut service, node, members);
    Ok(list(alloc, &service, &node))
}

/// Which listings are given for each pattern.
fn all_listed(alloc: Global, node: UniqueNodeId, members: usize) -> Result<[bool; 5], AllocError> {
    let mut all = [true; 5];
    for pattern in PatternKind::ALL {
        let given = listed(alloc, pattern, node, members)?;
        for at in 0..5 {
            all[at] = all[at] && given[at];
        }
    }
    Ok(all)
}

/// Adds the node this many times, and lists the entries.
fn has_entries<R: Registry<UniqueNodeId>>(
    alloc: Global,
    registry: &mut R,
    node: UniqueNodeId,
    count: usize,
) -> bool {
    for _ in 0..count {
        // There is a slot for it.
        let _ = registry.add(node);
    }
    entries(alloc, registry).is_ok()
}

/// A scan of this many entries, which are listed.
fn scanned(alloc: Global, node: UniqueNodeId, count: usize) -> Result<bool, AllocError> {
    let mut scan = Container::new(alloc, 7, Role::Node, count, u64::MAX)?;
    Ok(has_entries(alloc, &mut scan, node, count))
}

/// A free list of this many entries, which are listed.
fn linked(alloc: Global, node: UniqueNodeId, count: usize) -> Result<bool, AllocError> {
    let mut list = ListContainer::new(alloc, 7, Role::Node, count, u64::MAX)?;
    Ok(has_entries(alloc, &mut list, node, count))
}

pub(super) fn calls(alloc: Global, size: usize) -> [Called; 7] {
    let members = size.min(MOST_MEMBERS);
    let Some(node) = UniqueNodeId::new(1, 0, 0, 1) else {
        return [("a node", false); 7];
    };
    let [nodes, first, second, of_node, attached] = all_listed(alloc, node, members).unwrap_or(
        [false; 5],
    );
    [
        ("nodes", nodes),
        ("ports of the first kind", first),
        ("ports of the second kind", second),
        ("ports_of", of_node),
        ("list_attached", attached),
        (
            "entries of a scan",
            scanned(alloc, node, size.min(MOST_ENTRIES)) == Ok(true),
        ),
        (
            "entries of a list",
            linked(alloc, node, members) == Ok(true),
        ),
    ]
}
