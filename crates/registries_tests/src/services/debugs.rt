//! What `Debug` prints of services, details, settings and answers: each variant by name, each field
//! by name and value.
use super::patterns::*;
use super::rows::{Handle, Row, are_answered};
use crate::nodes::A;
use iox2_config::config::DataSegmentType;
use iox2_config::hash::PatternKind;
use iox2_container::container::Role;
use iox2_dynamic::dynamic_config::*;
use iox2_ids::identifiers::*;
use std::process::Abort;
use std::test::Fail;
use test_support::printing::{are_shown_as, is_shown_as};

static REGISTRATIONS: [(RegisterNodeResult, &str); 2] = [
    (
        RegisterNodeResult::MarkedForDestruction,
        "MarkedForDestruction",
    ),
    (
        RegisterNodeResult::ExceedsMaxNumberOfNodes,
        "ExceedsMaxNumberOfNodes",
    ),
];

static DEREGISTRATIONS: [(DeregisterError, &str); 2] = [
    (
        DeregisterError::ContainerHandleNotOwnedByContainer,
        "ContainerHandleNotOwnedByContainer",
    ),
    (DeregisterError::PortsStillAttached, "PortsStillAttached"),
];

static ATTACHMENTS: [(AttachError, &str); 3] = [
    (AttachError::ServiceIsLocked, "ServiceIsLocked"),
    (AttachError::NodeNotRegistered, "NodeNotRegistered"),
    (AttachError::OutOfSpace, "OutOfSpace"),
];

static ACTIONS: [(PortCleanupAction, &str); 2] = [
    (PortCleanupAction::RemovePort, "RemovePort"),
    (PortCleanupAction::SkipPort, "SkipPort"),
];

#[test]
fn answers_are_shown_by_name(rt: HostRuntime) {
    assert_eq!(rt;
        [
            are_shown_as(&REGISTRATIONS),
            are_shown_as(&DEREGISTRATIONS),
            are_shown_as(&ATTACHMENTS),
            are_shown_as(&ACTIONS),
        ],
        [true; 4]
    );
}

#[test]
fn settings_are_shown_by_field(rt: HostRuntime) {
    let table = [
        (
            MessagingPatternSettings::new(PatternKind::PublishSubscribe, 3, 5),
            "PublishSubscribe(DynamicConfigSettings { \
            number_of_subscribers: 5, number_of_publishers: 3 })",
        ),
        (
            MessagingPatternSettings::new(PatternKind::Event, 3, 5),
            "Event(DynamicConfigSettings { number_of_listeners: 3, number_of_notifiers: 5 })",
        ),
        (
            MessagingPatternSettings::new(PatternKind::RequestResponse, 3, 5),
            "RequestResponse(DynamicConfigSettings { number_of_servers: 3, number_of_clients: 5 })",
        ),
        (
            MessagingPatternSettings::new(PatternKind::Blackboard, 3, 5),
            "Blackboard(DynamicConfigSettings { number_of_readers: 3, number_of_writers: 5 })",
        ),
    ];
    assert!(rt; are_shown_as(&table));
}

/// Details whose numbers are all different, of the ports of samples and events.
fn ports_of_samples_and_events(node_id: UniqueNodeId) -> [(PortDetails, &'static str); 4] {
    [
        (
            PortDetails::Publisher(PublisherDetails {
                publisher_id: UniquePublisherId::new(0, 0, 0, 6),
                node_id,
                number_of_samples: 1,
                max_slice_len: 2,
                data_segment_type: DataSegmentType::Dynamic,
                max_number_of_segments: 3,
            }),
            "Publisher(PublisherDetails { \
            publisher_id: UniqueId { value: 6, kind: PhantomData<_> }, \
            node_id: UniqueNodeId { id: UniqueId { value: 5, kind: PhantomData<_> } }, \
            number_of_samples: 1, max_slice_len: 2, data_segment_type: Dynamic, \
            max_number_of_segments: 3 })",
        ),
        (
            PortDetails::Subscriber(SubscriberDetails {
                subscriber_id: UniqueSubscriberId::new(0, 0, 0, 6),
                node_id,
                buffer_size: 1,
            }),
            "Subscriber(SubscriberDetails { \
            subscriber_id: UniqueId { value: 6, kind: PhantomData<_> }, \
            node_id: UniqueNodeId { id: UniqueId { value: 5, kind: PhantomData<_> } }, \
            buffer_size: 1 })",
        ),
        (
            PortDetails::Listener(ListenerDetails {
                listener_id: UniqueListenerId::new(0, 0, 0, 6),
                node_id,
            }),
            "Listener(ListenerDetails { \
            listener_id: UniqueId { value: 6, kind: PhantomData<_> }, \
            node_id: UniqueNodeId { id: UniqueId { value: 5, kind: PhantomData<_> } } })",
        ),
        (
            PortDetails::Notifier(NotifierDetails {
                notifier_id: UniqueNotifierId::new(0, 0, 0, 6),
                node_id,
            }),
            "Notifier(NotifierDetails { \
            notifier_id: UniqueId { value: 6, kind: PhantomData<_> }, \
            node_id: UniqueNodeId { id: UniqueId { value: 5, kind: PhantomData<_> } } })",
        ),
    ]
}

/// Details whose numbers are all different, of the ports of requests and blackboards.
fn ports_of_requests_and_blackboards(node_id: UniqueNodeId) -> [(PortDetails, &'static str); 4] {
    [
        (
            PortDetails::Server(ServerDetails {
                server_id: UniqueServerId::new(0, 0, 0, 6),
                node_id,
                request_buffer_size: 1,
                number_of_responses: 2,
                max_slice_len: 3,
                data_segment_type: DataSegmentType::Static,
                max_number_of_segments: 4,
            }),
            "Server(ServerDetails { server_id: UniqueId { value: 6, kind: PhantomData<_> }, \
            node_id: UniqueNodeId { id: UniqueId { value: 5, kind: PhantomData<_> } }, \
            request_buffer_size: 1, number_of_responses: 2, max_slice_len: 3, \
            data_segment_type: Static, max_number_of_segments: 4 })",
        ),
        (
            PortDetails::Client(ClientDetails {
                client_id: UniqueClientId::new(0, 0, 0, 6),
                node_id,
                number_of_requests: 1,
                response_buffer_size: 2,
                max_slice_len: 3,
                data_segment_type: DataSegmentType::Dynamic,
                max_number_of_segments: 4,
            }),
            "Client(ClientDetails { client_id: UniqueId { value: 6, kind: PhantomData<_> }, \
            node_id: UniqueNodeId { id: UniqueId { value: 5, kind: PhantomData<_> } }, \
            number_of_requests: 1, response_buffer_size: 2, max_slice_len: 3, \
            data_segment_type: Dynamic, max_number_of_segments: 4 })",
        ),
        (
            PortDetails::Reader(ReaderDetails {
                reader_id: UniqueReaderId::new(0, 0, 0, 6),
                node_id,
            }),
            "Reader(ReaderDetails { reader_id: UniqueId { value: 6, kind: PhantomData<_> }, \
            node_id: UniqueNodeId { id: UniqueId { value: 5, kind: PhantomData<_> } } })",
        ),
        (
            PortDetails::Writer(WriterDetails {
                writer_id: UniqueWriterId::new(0, 0, 0, 6),
                node_id,
            }),
            "Writer(WriterDetails { writer_id: UniqueId { value: 6, kind: PhantomData<_> }, \
            node_id: UniqueNodeId { id: UniqueId { value: 5, kind: PhantomData<_> } } })",
        ),
    ]
}

#[test]
fn details_are_shown_by_field(rt: HostRuntime) {
    let node_id = UniqueNodeId::new(0, 0, 0, 5).expect(&rt, "an id");
    assert_eq!(rt;
        [
            are_shown_as(&ports_of_samples_and_events(node_id)),
            are_shown_as(&ports_of_requests_and_blackboards(node_id)),
        ],
        [true; 2]
    );
}

/// The text of a registry of service 7 that has two slots and nine tickets, with this count of
/// entries, which was given as many, and these cells, list of free slots and end of the newest.
fn registry(
    rt: &(impl Abort + AllocGlobal),
    role: Role,
    count: usize,
    [cells, free, newest_end]: [&str; 3],
) -> String {
    format!(in rt.alloc();
        "SlotMap {{ map: CountedMap {{ header: RegistryHeader {{ service: 7, role: {role:?}, \
        budget: 9, count: {count}, locked: false, used: {count} }}, \
        slots: Slots {{ cells: [{cells}], touches: Touches }}, \
        free: FreeList {{ {free} }}, newest_end: {newest_end} }} }}"
    )
    .expect(rt, "memory for a text")
}

/// Nothing stands in two slots.
const NONE: [&str; 3] = ["Free(None), Free(None)", "head: None, fresh: 0", "0"];

/// Checks that a service of a pattern is shown by its two kinds of ports and its nodes.
fn is_shown_by_parts(
    rt: &(impl Abort + AllocGlobal),
    service: &DynamicConfig,
    pattern: &Pattern,
    [first, second, nodes]: [(usize, [&str; 3]); 3],
) {
    let kind = pattern.kind;
    let first = registry(rt, pattern.first, first.0, first.1);
    let second = registry(rt, pattern.second, second.0, second.1);
    let nodes = registry(rt, Role::Node, nodes.0, nodes.1);
    let text = format!(in rt.alloc();
        "DynamicConfig {{ pattern: {kind:?}(PortRegistries {{ first: {first}, \
        second: {second} }}), nodes: {nodes} }}"
    )
    .expect(rt, "memory for a text");
    assert!(rt; is_shown_as(service, text.as_str()));
}

/// A node, and two ports of the second kind.
static SOME_ARE_ATTACHED: [Row; 3] = [
    Row::Register(A, Ok(Handle(7, Kind::Node, 0, 0))),
    Row::Attach(Kind::Second, 8, A, Ok(Handle(7, Kind::Second, 0, 0))),
    Row::Attach(Kind::Second, 9, A, Ok(Handle(7, Kind::Second, 1, 1))),
];

#[test]
fn services_are_shown_by_their_ports_and_nodes(rt: HostRuntime) -> Result<(), Fail> {
    for pattern in &PATTERNS {
        let service = service_by_tickets(rt.alloc(), pattern.kind, (2, 2, 2), 9)?;
        is_shown_by_parts(&rt, &service, pattern, [(0, NONE); 3]);
    }
    Ok(())
}

#[test]
fn a_service_is_shown_with_who_is_attached(rt: HostRuntime) -> Result<(), Fail> {
    let mut service = service_by_tickets(rt.alloc(), EVENT.kind, (2, 2, 2), 9)?;
    are_answered(&rt, &mut service, &EVENT, &SOME_ARE_ATTACHED)?;
    let node = "UniqueNodeId { id: UniqueId { value: 79228162514264337593543950337, \
        kind: PhantomData<_> } }";
    let id = "UniqueId { value: 79228162514264337593543950344, kind: PhantomData<_> }";
    let next_id = "UniqueId { value: 79228162514264337593543950345, kind: PhantomData<_> }";
    let ports = format!(in rt.alloc();
        "Taken {{ ticket: 0, details: NotifierDetails {{ notifier_id: {id}, node_id: {node} }} }}, \
        Taken {{ ticket: 1, details: NotifierDetails {{ notifier_id: {next_id}, \
        node_id: {node} }} }}"
    )
    .expect(&rt, "memory for a text");
    let nodes = format!(in rt.alloc(); "Taken {{ ticket: 0, details: {node} }}, Free(None)").expect(
        &rt,
        "memory for a text",
    );
    is_shown_by_parts(
        &rt,
        &service,
        &EVENT,
        [
            (0, NONE),
            (2, [ports.as_str(), "head: None, fresh: 2", "2"]),
            (1, [nodes.as_str(), "head: None, fresh: 1", "1"]),
        ],
    );
    Ok(())
}
