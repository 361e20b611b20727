//! What `Debug` prints of causes, counts and what is given and answered: each variant by name, each
//! field by name and value.
use super::services::types;
use iox2_config::config::Config;
use iox2_config::types::SampleLayout;
use iox2_container::container::{ContainerHandle, Role};
use iox2_dynamic::dynamic_config::{AttachError, PortDetails, ReaderDetails, RegisterNodeResult};
use iox2_ids::identifiers::{UniqueNodeId, UniquePublisherId, UniqueReaderId};
use iox2_static::static_config::publish_subscribe::StaticConfig;
use iox2_static::static_config::setting::Setting;
use iox2_texts::attribute::{AttributeKey, AttributeVerificationError, AttributeVerifier};
use service_examples::builder::{OpenError, OpenedService, Opener};
use service_examples::census::{Census, PortCount};
use service_examples::discovery::Member;
use service_examples::factory::{DataSegment, Publisher, PublisherError, PublisherSettings};
use service_examples::join::{JoinError, Joined};
use std::process::Abort;
use test_support::printing::{are_shown_as, is_shown_as};

const OPENING: [(OpenError, &str); 6] = [
    (
        OpenError::IncompatibleMessagingPattern,
        "IncompatibleMessagingPattern",
    ),
    (OpenError::NotAsDescribed, "NotAsDescribed"),
    (OpenError::IncompatibleTypes, "IncompatibleTypes"),
    (
        OpenError::UnmetSetting(Setting::MaxNodes),
        "UnmetSetting(MaxNodes)",
    ),
    (OpenError::MessageTooLarge, "MessageTooLarge"),
    (
        OpenError::NodeRefused(RegisterNodeResult::MarkedForDestruction),
        "NodeRefused(MarkedForDestruction)",
    ),
];

static JOINING: [(JoinError, &str); 5] = [
    (JoinError::NoSuchRole, "NoSuchRole"),
    (JoinError::PortOfAnotherNode, "PortOfAnotherNode"),
    (JoinError::ServiceIsLocked, "ServiceIsLocked"),
    (JoinError::NoRoomForNode, "NoRoomForNode"),
    (JoinError::NoRoomForPort, "NoRoomForPort"),
];

static PUBLISHING: [(PublisherError, &str); 6] = [
    (PublisherError::NotAsDescribed, "NotAsDescribed"),
    (PublisherError::TypesNotGiven, "TypesNotGiven"),
    (PublisherError::TooManyChunks, "TooManyChunks"),
    (PublisherError::MessageTooLarge, "MessageTooLarge"),
    (PublisherError::SegmentTooLarge, "SegmentTooLarge"),
    (
        PublisherError::NotAttached(AttachError::OutOfSpace),
        "NotAttached(OutOfSpace)",
    ),
];

#[test]
fn causes_are_shown_by_name(rt: HostRuntime) {
    let key = AttributeKey::new(b"k").expect(&rt, "a key");
    let lacks = OpenError::IncompatibleAttributes(AttributeVerificationError::NonExistingKey(key));
    assert_eq!(rt;
        [
            are_shown_as(&OPENING),
            are_shown_as(&JOINING),
            are_shown_as(&PUBLISHING),
            is_shown_as(
                &lacks,
                "IncompatibleAttributes(NonExistingKey(\
                SemanticString { text: StaticString { bytes: [107] }, .. }))",
            ),
        ],
        [true; 4]
    );
}

#[test]
fn handles_and_counts_are_shown_by_field(rt: HostRuntime) {
    let joined = Joined {
        node: ContainerHandle::from_parts(7, Role::Node, 1, 2),
        port: ContainerHandle::from_parts(7, Role::Reader, 3, 4),
    };
    let census = Census {
        nodes: 1,
        first: PortCount {
            role: Role::Reader,
            count: 2,
        },
        second: PortCount {
            role: Role::Writer,
            count: 3,
        },
    };
    assert_eq!(rt;
        [
            is_shown_as(
                &joined,
                "Joined { node: ContainerHandle { service: 7, role: Node, slot: 1, ticket: 2 }, \
                port: ContainerHandle { service: 7, role: Reader, slot: 3, ticket: 4 } }",
            ),
            is_shown_as(
                &census,
                "Census { nodes: 1, first: PortCount { role: Reader, count: 2 }, \
                second: PortCount { role: Writer, count: 3 } }",
            ),
        ],
        [true; 2]
    );
}

/// The node with this counter.
fn node(rt: &impl Abort, counter: u32) -> UniqueNodeId {
    UniqueNodeId::new(0, 0, 0, counter).expect(rt, "an id")
}

#[test]
fn members_are_shown_by_name(rt: HostRuntime) {
    let node_id = node(&rt, 5);
    let reader_id = UniqueReaderId::new(0, 0, 0, 6);
    let table = [
        (
            Member::Node(node_id),
            "Node(UniqueNodeId { id: UniqueId { value: 5, kind: PhantomData<_> } })",
        ),
        (
            Member::Port(PortDetails::Reader(ReaderDetails { reader_id, node_id })),
            "Port(Reader(ReaderDetails { reader_id: UniqueId { value: 6, kind: PhantomData<_> }, \
            node_id: UniqueNodeId { id: UniqueId { value: 5, kind: PhantomData<_> } } }))",
        ),
    ];
    assert!(rt; are_shown_as(&table));
}

/// The room of a message of two numbers behind a header of 40 bytes.
fn message(rt: &impl Abort) -> SampleLayout {
    let types = types(rt, 8);
    assert!(rt; types.has_alignments());
    types.sample_layout(2).expect(rt, "room")
}

#[test]
fn openers_and_what_they_get_are_shown_by_field(rt: HostRuntime) {
    let opener = Opener {
        verifier: AttributeVerifier::new(),
        required: StaticConfig::new(&Config::default()),
        elements: 2,
        node: node(&rt, 5),
    };
    let opened = OpenedService {
        node: ContainerHandle::from_parts(7, Role::Node, 1, 2),
        message: message(&rt),
    };
    assert_eq!(rt;
        [
            is_shown_as(
                &opener,
                "Opener { verifier: AttributeVerifier { attributes: AttributeSet { \
                attributes: [] }, keys: [] }, required: StaticConfig { max_subscribers: 8, \
                max_publishers: 2, max_nodes: 20, history_size: 0, subscriber_max_buffer_size: 2, \
                subscriber_max_borrowed_samples: 2, enable_safe_overflow: true, \
                message_type_details: MessageTypeDetails { header: TypeDetail { \
                variant: FixedSize, type_name: StaticString { bytes: [] }, size: 0, \
                alignment: 0 }, user_header: TypeDetail { variant: FixedSize, \
                type_name: StaticString { bytes: [] }, size: 0, alignment: 0 }, \
                payload: TypeDetail { variant: FixedSize, type_name: StaticString { bytes: [] }, \
                size: 0, alignment: 0 } } }, elements: 2, \
                node: UniqueNodeId { id: UniqueId { value: 5, kind: PhantomData<_> } } }",
            ),
            is_shown_as(
                &opened,
                "OpenedService { node: ContainerHandle { service: 7, role: Node, slot: 1, \
                ticket: 2 }, message: SampleLayout { size: 64, alignment: 8 } }",
            ),
        ],
        [true; 2]
    );
}

#[test]
fn publishers_and_their_memory_are_shown_by_field(rt: HostRuntime) {
    let settings = PublisherSettings {
        publisher: UniquePublisherId::new(0, 0, 0, 6),
        node: node(&rt, 5),
        max_loaned_samples: 1,
        max_elements: 2,
    };
    let publisher = Publisher {
        handle: ContainerHandle::from_parts(7, Role::Publisher, 1, 2),
        segment: DataSegment {
            block: message(&rt),
            blocks: 3,
            size: 192,
        },
    };
    assert_eq!(rt;
        [
            is_shown_as(
                &settings,
                "PublisherSettings { publisher: UniqueId { value: 6, kind: PhantomData<_> }, \
                node: UniqueNodeId { id: UniqueId { value: 5, kind: PhantomData<_> } }, \
                max_loaned_samples: 1, max_elements: 2 }",
            ),
            is_shown_as(
                &publisher,
                "Publisher { handle: ContainerHandle { service: 7, role: Publisher, slot: 1, \
                ticket: 2 }, segment: DataSegment { block: SampleLayout { size: 64, \
                alignment: 8 }, blocks: 3, size: 192 } }",
            ),
        ],
        [true; 2]
    );
}
