//! A service for the callers: its description, its types, its nodes and its ports.
use iox2_config::config::{Config, DataSegmentType};
use iox2_config::hash::{PatternKind, Sha1Hasher};
use iox2_config::types::{MessageTypeDetails, TypeDetail, TypeVariant};
use iox2_dynamic::dynamic_config::{
    DynamicConfig, MessagingPatternSettings, PortDetails, PublisherDetails, SubscriberDetails,
};
use iox2_ids::identifiers::{UniqueNodeId, UniquePublisherId, UniqueServiceId, UniqueSubscriberId};
use iox2_static::static_config::{StaticConfig, publish_subscribe};
use iox2_texts::attribute::{AttributeKey, AttributeSet, AttributeValue, AttributeVerifier};
use iox2_texts::service_name::ServiceName;
use service_examples::builder::Opener;
use service_examples::factory::PublisherSettings;
use std::alloc::{AllocError, Global};
use std::process::Abort;

/// The node of process 1 with this counter.
pub(super) fn node(rt: &impl Abort, counter: u32) -> UniqueNodeId {
    UniqueNodeId::new(1, 0, 0, counter).expect(rt, "process 1 has nodes")
}

fn part(rt: &impl Abort, name: &str, variant: TypeVariant, layout: (usize, usize)) -> TypeDetail {
    TypeDetail::from_parts(variant, name, layout.0, layout.1).expect(rt, "a name and an alignment")
}

/// A header of 40 bytes, no user header, and numbers of 64
/// bits, whose offsets are multiples of 8 and of `alignment`.
pub(super) fn types(rt: &impl Abort, alignment: usize) -> MessageTypeDetails {
    MessageTypeDetails {
        header: part(rt, "Header", TypeVariant::FixedSize, (40, 8)),
        user_header: part(rt, "()", TypeVariant::FixedSize, (0, 1)),
        payload: part(rt, "u64", TypeVariant::Dynamic, (8, alignment)),
    }
}

pub(super) fn color(rt: &impl Abort, value: &str) -> (AttributeKey, AttributeValue) {
    (
        AttributeKey::try_from("color").expect(rt, "a key"),
        AttributeValue::try_from(value).expect(rt, "a value"),
    )
}

/// The default settings for this many nodes and for two subscribers, with messages of numbers.
pub(super) fn settings(rt: &impl Abort, nodes: usize) -> publish_subscribe::StaticConfig {
    let mut settings = publish_subscribe::StaticConfig::new(&Config::default());
    settings.max_nodes = nodes;
    settings.max_subscribers = 2;
    settings.message_type_details = types(rt, 8);
    settings
}

/// A publish-subscribe service of the color red, for this many nodes.
pub(super) fn description(rt: &impl Abort, nodes: usize) -> StaticConfig {
    let name = ServiceName::new("My/Funk/ServiceName").expect(rt, "a name");
    let mut service = StaticConfig::new_publish_subscribe::<Sha1Hasher>(
        &name,
        &Config::default(),
        UniqueServiceId::new(1, 0, 0, 9),
    ).expect(rt, "a description");
    assert!(rt; service.is_publish_subscribe());
    service.publish_subscribe_mut().message_type_details = types(rt, 8);
    assert!(rt; service.is_publish_subscribe());
    *service.publish_subscribe_mut() = settings(rt, nodes);
    let mut attributes = AttributeSet::new();
    let (key, value) = color(rt, "red");
    attributes.add(&key, &value).expect(rt, "room");
    service.with_attributes(&attributes)
}

/// A service of number 7 with this many slots for
/// nodes, two for publishers and two for subscribers.
pub(super) fn service(alloc: Global, nodes: usize) -> Result<Box<DynamicConfig>, AllocError> {
    let settings = MessagingPatternSettings::new(PatternKind::PublishSubscribe, 2, 2);
    Ok(Box::new(alloc, DynamicConfig::new(alloc, &settings, nodes, 7)?)?)
}

/// Somebody who wants messages of two numbers from a service of this color.
pub(super) fn opener(rt: &impl Abort, wanted: &str, counter: u32) -> Opener {
    let (key, value) = color(rt, wanted);
    Opener {
        verifier: AttributeVerifier::new()
            .require(&key, &value)
            .expect(rt, "room"),
        required: settings(rt, 1),
        elements: 2,
        node: node(rt, counter),
    }
}

/// A publisher of the node with this counter, with two samples loaned of two numbers each.
pub(super) fn publisher(rt: &impl Abort, counter: u32, node_counter: u32) -> PublisherSettings {
    PublisherSettings {
        publisher: UniquePublisherId::new(1, 0, 0, counter),
        node: node(rt, node_counter),
        max_loaned_samples: 2,
        max_elements: 2,
    }
}

/// The details of a publisher of the node with this counter.
pub(super) fn publisher_details(rt: &impl Abort, counter: u32, node_counter: u32) -> PortDetails {
    PortDetails::Publisher(PublisherDetails {
        publisher_id: UniquePublisherId::new(1, 0, 0, counter),
        node_id: node(rt, node_counter),
        number_of_samples: 1,
        max_slice_len: 1,
        data_segment_type: DataSegmentType::Static,
        max_number_of_segments: 1,
    })
}

/// A subscriber of the node with this counter.
pub(super) fn subscriber(rt: &impl Abort, counter: u32, node_counter: u32) -> PortDetails {
    PortDetails::Subscriber(SubscriberDetails {
        subscriber_id: UniqueSubscriberId::new(1, 0, 0, counter),
        node_id: node(rt, node_counter),
        buffer_size: 2,
    })
}

/// Attaches a port for which there is room.
pub(super) fn attach(rt: &impl Abort, service: &mut DynamicConfig, port: PortDetails) {
    assert!(rt; service.has_role(port.role()));
    assert!(rt; service.attach(port).is_ok());
}

/// The counter of an id.
pub(super) fn counter(id: u128) -> u128 {
    id % (1 << 32)
}
