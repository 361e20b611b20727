//! What `Debug` prints of settings, types and hash texts: each variant by name, each field by name
//! and value.
use iox2_config::config::{
    AllocationStrategy, BackpressureStrategy, Blackboard, Config, DataSegmentType, Event, EventId,
    Global, Node, PublishSubscribe, RequestResonse, Service,
};
use iox2_config::hash::{
    Hash, HashError, HashValue, PatternKind, ServiceHash, ServiceHashError, Sha1Hasher,
};
use iox2_config::types::{
    Difference, Incompatibility, MessageTypeDetails, Places, TypeDetail, TypeDetailError,
    TypeVariant,
};
use iox2_texts::bounded::StringModificationError;
use iox2_texts::paths::{FileName, Path};
use iox2_texts::service_name::ServiceName;
use std::process::Abort;
use std::time::Duration;
use test_support::printing::{are_shown_as, is_shown_as};

static BACKPRESSURES: [(BackpressureStrategy, &str); 2] = [
    (
        BackpressureStrategy::RetryUntilDelivered,
        "RetryUntilDelivered",
    ),
    (BackpressureStrategy::DiscardData, "DiscardData"),
];

static ALLOCATIONS: [(AllocationStrategy, &str); 3] = [
    (AllocationStrategy::BestFit, "BestFit"),
    (AllocationStrategy::PowerOfTwo, "PowerOfTwo"),
    (AllocationStrategy::Static, "Static"),
];

static SEGMENTS: [(DataSegmentType, &str); 2] = [
    (DataSegmentType::Dynamic, "Dynamic"),
    (DataSegmentType::Static, "Static"),
];

static KINDS: [(PatternKind, &str); 4] = [
    (PatternKind::PublishSubscribe, "PublishSubscribe"),
    (PatternKind::Event, "Event"),
    (PatternKind::RequestResponse, "RequestResponse"),
    (PatternKind::Blackboard, "Blackboard"),
];

static VARIANTS: [(TypeVariant, &str); 2] = [
    (TypeVariant::FixedSize, "FixedSize"),
    (TypeVariant::Dynamic, "Dynamic"),
];

static DETAIL_ERRORS: [(TypeDetailError, &str); 2] = [
    (
        TypeDetailError::Name(StringModificationError::InvalidCharacter),
        "Name(InvalidCharacter)",
    ),
    (
        TypeDetailError::AlignmentNotPowerOfTwo,
        "AlignmentNotPowerOfTwo",
    ),
];

static INCOMPATIBILITIES: [(Incompatibility, &str); 4] = [
    (Incompatibility::Header(Difference::Name), "Header(Name)"),
    (
        Incompatibility::UserHeader(Difference::Variant),
        "UserHeader(Variant)",
    ),
    (Incompatibility::Payload(Difference::Size), "Payload(Size)"),
    (
        Incompatibility::Payload(Difference::Alignment),
        "Payload(Alignment)",
    ),
];

static HASH_ERRORS: [(ServiceHashError, &str); 2] = [
    (ServiceHashError::HasherFailed, "HasherFailed"),
    (ServiceHashError::IllegalText, "IllegalText"),
];

#[test]
fn choices_and_errors_are_shown_by_name(rt: HostRuntime) {
    assert_eq!(rt;
        [
            are_shown_as(&BACKPRESSURES),
            are_shown_as(&ALLOCATIONS),
            are_shown_as(&SEGMENTS),
            are_shown_as(&KINDS),
            are_shown_as(&VARIANTS),
            are_shown_as(&DETAIL_ERRORS),
            are_shown_as(&INCOMPATIBILITIES),
            are_shown_as(&HASH_ERRORS),
            is_shown_as(&HashError::HasherFailed, "HasherFailed"),
        ],
        [true; 9]
    );
}

#[test]
fn ids_and_places_are_shown_by_field(rt: HostRuntime) {
    let places = Places {
        user_header: 7,
        payload: 8,
    };
    assert_eq!(rt;
        [
            is_shown_as(&EventId::new(7), "EventId { value: 7 }"),
            is_shown_as(&places, "Places { user_header: 7, payload: 8 }"),
        ],
        [true; 2]
    );
}

fn path(rt: &impl Abort, text: &str) -> Path {
    Path::try_from(text).expect(rt, "a path")
}

fn file_name(rt: &impl Abort, text: &str) -> FileName {
    FileName::try_from(text).expect(rt, "a name")
}

#[test]
fn settings_of_publish_subscribe_are_shown_by_field(rt: HostRuntime) {
    let settings = PublishSubscribe {
        max_subscribers: 1,
        max_publishers: 2,
        max_nodes: 3,
        subscriber_max_buffer_size: 4,
        subscriber_max_borrowed_samples: 5,
        publisher_max_loaned_samples: 6,
        publisher_history_size: 7,
        enable_safe_overflow: false,
        backpressure_strategy: BackpressureStrategy::DiscardData,
        subscriber_expired_connection_buffer: 8,
        publisher_allocation_strategy: AllocationStrategy::BestFit,
    };
    assert!(rt;
        is_shown_as(
            &settings,
            "PublishSubscribe { max_subscribers: 1, max_publishers: 2, max_nodes: 3, \
            subscriber_max_buffer_size: 4, subscriber_max_borrowed_samples: 5, \
            publisher_max_loaned_samples: 6, publisher_history_size: 7, \
            enable_safe_overflow: false, backpressure_strategy: DiscardData, \
            subscriber_expired_connection_buffer: 8, publisher_allocation_strategy: BestFit }",
        )
    );
}

#[test]
fn settings_of_events_are_shown_by_field(rt: HostRuntime) {
    let settings = Event {
        max_listeners: 1,
        max_notifiers: 2,
        max_nodes: 3,
        event_id_max_value: 4,
        deadline: Some(Duration::from_millis(5)),
        notifier_created_event: Some(6),
        notifier_dropped_event: None,
        notifier_dead_event: Some(7),
    };
    assert!(rt;
        is_shown_as(
            &settings,
            "Event { max_listeners: 1, max_notifiers: 2, max_nodes: 3, event_id_max_value: 4, \
            deadline: Some(5ms), notifier_created_event: Some(6), notifier_dropped_event: None, \
            notifier_dead_event: Some(7) }",
        )
    );
}

#[test]
fn settings_of_request_response_are_shown_by_field(rt: HostRuntime) {
    let settings = RequestResonse {
        enable_safe_overflow_for_requests: true,
        enable_safe_overflow_for_responses: false,
        max_active_requests_per_client: 1,
        max_response_buffer_size: 2,
        max_servers: 3,
        max_clients: 4,
        max_nodes: 5,
        max_borrowed_responses_per_pending_response: 6,
        max_loaned_requests: 7,
        server_max_loaned_responses_per_request: 8,
        client_backpressure_strategy: BackpressureStrategy::DiscardData,
        server_backpressure_strategy: BackpressureStrategy::RetryUntilDelivered,
        client_expired_connection_buffer: 9,
        server_expired_connection_buffer: 10,
        enable_fire_and_forget_requests: true,
        client_allocation_strategy: AllocationStrategy::BestFit,
        server_allocation_strategy: AllocationStrategy::PowerOfTwo,
    };
    assert!(rt;
        is_shown_as(
            &settings,
            "RequestResonse { enable_safe_overflow_for_requests: true, \
            enable_safe_overflow_for_responses: false, max_active_requests_per_client: 1, \
            max_response_buffer_size: 2, max_servers: 3, max_clients: 4, max_nodes: 5, \
            max_borrowed_responses_per_pending_response: 6, max_loaned_requests: 7, \
            server_max_loaned_responses_per_request: 8, \
            client_backpressure_strategy: DiscardData, \
            server_backpressure_strategy: RetryUntilDelivered, \
            client_expired_connection_buffer: 9, server_expired_connection_buffer: 10, \
            enable_fire_and_forget_requests: true, client_allocation_strategy: BestFit, \
            server_allocation_strategy: PowerOfTwo }",
        )
    );
}

#[test]
fn settings_of_blackboards_are_shown_by_field(rt: HostRuntime) {
    let settings = Blackboard {
        max_readers: 1,
        max_nodes: 2,
    };
    assert!(rt; is_shown_as(&settings, "Blackboard { max_readers: 1, max_nodes: 2 }"));
}

#[test]
fn files_of_services_are_shown_by_field(rt: HostRuntime) {
    let files = Service {
        directory: path(&rt, "a"),
        data_segment_suffix: file_name(&rt, "b"),
        static_config_storage_suffix: file_name(&rt, "c"),
        dynamic_config_storage_suffix: file_name(&rt, "d"),
        connection_suffix: file_name(&rt, "e"),
        event_connection_suffix: file_name(&rt, "f"),
        blackboard_mgmt_suffix: file_name(&rt, "g"),
        blackboard_data_suffix: file_name(&rt, "h"),
        cleanup_dead_nodes_on_open: true,
    };
    assert!(rt;
        is_shown_as(
            &files,
            "Service { directory: SemanticString { text: StaticString { bytes: [97] }, .. }, \
            data_segment_suffix: SemanticString { text: StaticString { bytes: [98] }, .. }, \
            static_config_storage_suffix: \
            SemanticString { text: StaticString { bytes: [99] }, .. }, \
            dynamic_config_storage_suffix: \
            SemanticString { text: StaticString { bytes: [100] }, .. }, \
            connection_suffix: SemanticString { text: StaticString { bytes: [101] }, .. }, \
            event_connection_suffix: SemanticString { text: StaticString { bytes: [102] }, .. }, \
            blackboard_mgmt_suffix: SemanticString { text: StaticString { bytes: [103] }, .. }, \
            blackboard_data_suffix: SemanticString { text: StaticString { bytes: [104] }, .. }, \
            cleanup_dead_nodes_on_open: true }",
        )
    );
}

#[test]
fn files_of_nodes_are_shown_by_field(rt: HostRuntime) {
    let files = Node {
        directory: path(&rt, "a"),
        monitor_suffix: file_name(&rt, "b"),
        static_config_suffix: file_name(&rt, "c"),
        service_tag_suffix: file_name(&rt, "d"),
        port_tag_suffix: file_name(&rt, "e"),
        global_mgmt_suffix: file_name(&rt, "f"),
        cleanup_dead_nodes_on_creation: true,
        cleanup_dead_nodes_on_destruction: false,
    };
    assert!(rt;
        is_shown_as(
            &files,
            "Node { directory: SemanticString { text: StaticString { bytes: [97] }, .. }, \
            monitor_suffix: SemanticString { text: StaticString { bytes: [98] }, .. }, \
            static_config_suffix: SemanticString { text: StaticString { bytes: [99] }, .. }, \
            service_tag_suffix: SemanticString { text: StaticString { bytes: [100] }, .. }, \
            port_tag_suffix: SemanticString { text: StaticString { bytes: [101] }, .. }, \
            global_mgmt_suffix: SemanticString { text: StaticString { bytes: [102] }, .. }, \
            cleanup_dead_nodes_on_creation: true, cleanup_dead_nodes_on_destruction: false }",
        )
    );
}

#[test]
fn settings_of_a_system_are_shown_by_part(rt: HostRuntime) {
    let mut global = Global::default();
    global.set_root_path(&path(&rt, "a"));
    global.prefix = file_name(&rt, "b");
    let shown = format!(in rt.alloc();
        "Global {{ root_path: SemanticString {{ text: StaticString {{ bytes: [97] }}, .. }}, \
        prefix: SemanticString {{ text: StaticString {{ bytes: [98] }}, .. }}, \
        service: {:?}, node: {:?}, creation_timeout: 500ms }}",
        global.service, global.node,
    )
    .expect(&rt, "memory for a text");
    assert!(rt; is_shown_as(&global, shown.as_str()));
}

#[test]
fn all_settings_are_shown_by_part(rt: HostRuntime) {
    let config = Config::default();
    let defaults = &config.defaults;
    let shown = format!(in rt.alloc();
        "Config {{ global: {:?}, defaults: Defaults {{ publish_subscribe: {:?}, event: {:?}, \
        request_response: {:?}, blackboard: {:?} }} }}",
        config.global,
        defaults.publish_subscribe,
        defaults.event,
        defaults.request_response,
        defaults.blackboard,
    )
    .expect(&rt, "memory for a text");
    assert!(rt; is_shown_as(&config, shown.as_str()));
}

/// Details of a part, each of whose fields has a value of its own.
fn part(rt: &impl Abort, name: &str, size: usize) -> TypeDetail {
    TypeDetail::from_parts(TypeVariant::Dynamic, name, size, 4).expect(rt, "a detail")
}

#[test]
fn details_are_shown_by_field(rt: HostRuntime) {
    let details = MessageTypeDetails {
        header: part(&rt, "a", 1),
        user_header: part(&rt, "b", 2),
        payload: part(&rt, "c", 3),
    };
    assert!(rt;
        is_shown_as(
            &details,
            "MessageTypeDetails { header: TypeDetail { variant: Dynamic, \
            type_name: StaticString { bytes: [97] }, size: 1, alignment: 4 }, \
            user_header: TypeDetail { variant: Dynamic, \
            type_name: StaticString { bytes: [98] }, size: 2, alignment: 4 }, \
            payload: TypeDetail { variant: Dynamic, \
            type_name: StaticString { bytes: [99] }, size: 3, alignment: 4 } }",
        )
    );
}

#[test]
fn a_room_is_shown_by_size_and_alignment(rt: HostRuntime) {
    let details = MessageTypeDetails::from::<i32, bool, i64>(TypeVariant::FixedSize);
    let details = details.expect(&rt, "details");
    assert!(rt; details.has_alignments());
    let layout = details.sample_layout(1).expect(&rt, "room");
    assert!(rt; is_shown_as(&layout, "SampleLayout { size: 20, alignment: 4 }"));
}

#[test]
fn hash_texts_are_shown_by_their_bytes(rt: HostRuntime) {
    let value = HashValue::new(b"ab").expect(&rt, "a text");
    assert_eq!(rt;
        [
            is_shown_as(&value, "HashValue { bytes: [97, 98], names_a_file: false }"),
            // The digest of three letters, as FIPS 180-4 works it out.
            is_shown_as(
                &<Sha1Hasher as Hash>::new(b"abc"),
                "Sha1Hasher { digest: [169, 153, 62, 54, 71, 6, 129, 106, 186, 62, 37, 113, \
                120, 80, 194, 108, 156, 208, 216, 157] }",
            ),
        ],
        [true; 2]
    );
}

#[test]
fn a_hash_of_a_service_is_shown_by_its_text(rt: HostRuntime) {
    let name = ServiceName::new("My/Funk/ServiceName").expect(&rt, "a name");
    let hash = ServiceHash::new::<Sha1Hasher>(&name, PatternKind::Event).expect(&rt, "a hash");
    // The bytes of `thvRXow-oWFGmF6WCQao4SUVanM`.
    assert!(rt;
        is_shown_as(
            &hash,
            "ServiceHash { text: SemanticString { text: StaticString { bytes: [116, 104, 118, 82, \
            88, 111, 119, 45, 111, 87, 70, 71, 109, 70, 54, 87, 67, 81, 97, 111, 52, 83, 85, 86, \
            97, 110, 77] }, .. } }",
        )
    );
}
