use iox2_config::config::{AllocationStrategy, Config};
use iox2_config::hash::{PatternKind, ServiceHash, Sha1Hasher};
use iox2_config::laws::*;
use iox2_config::types::{
    Difference, Incompatibility, MessageTypeDetails, TypeDetail, TypeVariant,
};
use iox2_texts::service_name::ServiceName;
use std::cmp::Ordering;
use std::hash::DefaultHasher;
use std::time::Duration;

/// A configuration that differs from the default one in each part.
fn other_config() -> Config {
    let mut other = Config::default();
    other.global.creation_timeout = Duration::from_millis(501);
    other.global.service.cleanup_dead_nodes_on_open = false;
    other.global.node.cleanup_dead_nodes_on_destruction = false;
    other
        .defaults
        .publish_subscribe
        .publisher_allocation_strategy = AllocationStrategy::BestFit;
    other.defaults.event.notifier_dead_event = Some(0);
    other.defaults.request_response.server_allocation_strategy = AllocationStrategy::BestFit;
    other.defaults.blackboard.max_nodes = 3;
    other
}

#[test]
fn settings_that_differ_are_unequal(rt: HostRuntime) {
    let config = Config::default();
    let other = other_config();
    let (one, two) = (&config.defaults, &other.defaults);
    assert_eq!(rt;
        [
            config.global.service == other.global.service,
            config.global.node == other.global.node,
            config.global == other.global,
            one.publish_subscribe == two.publish_subscribe,
            one.event == two.event,
            one.request_response == two.request_response,
            one.blackboard == two.blackboard,
            one == two,
            config == other,
        ],
        [false; 9]
    );
}

#[test]
fn variants_of_types_go_by_variant(rt: HostRuntime) {
    let dynamic = TypeVariant::Dynamic;
    let mut hasher = DefaultHasher::new();
    assert_eq!(rt;
        type_variants_go_by_variant(&dynamic, &TypeVariant::FixedSize, &mut hasher),
        (false, Ok(dynamic))
    );
}

#[test]
fn laws_of_hash_texts_can_be_called(rt: HostRuntime) {
    let name = ServiceName::new("a").expect(&rt, "a name");
    let hash = ServiceHash::new::<Sha1Hasher>(&name, PatternKind::Event).expect(&rt, "a hash");
    let other = ServiceHash::new::<Sha1Hasher>(&name, PatternKind::Blackboard);
    let mut hasher = DefaultHasher::new();
    assert_eq!(rt;
        service_hashes_go_by_bytes(&hash, &hash.copied(), &mut hasher),
        (true, Ordering::Equal)
    );
    assert!(rt; other.expect(&rt, "a hash") != hash);
    let made = sha1_refuses_nothing(&name, PatternKind::Event);
    assert!(rt; made.expect(&rt, "a hash") == hash);
}

#[test]
fn laws_of_types_can_be_called(rt: HostRuntime) {
    let detail = TypeDetail::default();
    let number = TypeDetail::new::<u32>(TypeVariant::FixedSize).expect(&rt, "a detail");
    let details = MessageTypeDetails::default();
    let mut with_payload = details.copied();
    with_payload.payload = number.copied();
    let mut hasher = DefaultHasher::new();
    assert_eq!(rt;
        [
            type_details_go_by_parts(&detail, &detail.copied(), &mut hasher),
            type_details_go_by_parts(&detail, &number, &mut hasher),
            message_details_go_by_parts(&details, &details.copied(), &mut hasher),
            message_details_go_by_parts(&details, &with_payload, &mut hasher),
        ],
        [true, false, true, false]
    );
}

#[test]
fn incompatibilities_go_by_their_variant(rt: HostRuntime) {
    let one = Incompatibility::Payload(Difference::Size);
    let other = Incompatibility::Payload(Difference::Name);
    assert_eq!(rt;
        incompatibilities_go_by_variant(&one, &other),
        (false, Ok(one))
    );
}
