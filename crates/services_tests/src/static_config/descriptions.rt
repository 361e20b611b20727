use iox2_config::config::Config;
use iox2_config::hash::{Hash, HashError, HashValue, PatternKind, ServiceHashError, Sha1Hasher};
use iox2_ids::identifiers::UniqueServiceId;
use iox2_static::static_config::messaging_pattern::MessagingPattern;
use iox2_static::static_config::{
    StaticConfig, blackboard, event, publish_subscribe, request_response,
};
use iox2_texts::attribute::{AttributeKey, AttributeSet, AttributeValue};
use iox2_texts::service_name::ServiceName;
use std::hash::{DefaultHasher, Hash as _, Hasher};
use std::process::Abort;
use test_support::printing::{is_printed, is_printed_as};

/// A hasher that refuses each input.
#[derive(Drop)]
struct RefusingHasher {}

impl Hash for RefusingHasher {
    ghost use Rattle.std.specs.Prelude.{⊤};

    ghost meaning = { λ input. input };

    ghost may_refuse = { λ input. ⊤ };

    ghost takes = { λ hasher input. ⊤ };

    fn new(_bytes: &[u8]) -> Self {
        RefusingHasher {}
    }

    fn value(&self) -> Result<HashValue, HashError> {
        Err(HashError::HasherFailed)
    }
}

fn service_name(rt: &impl Abort) -> ServiceName {
    ServiceName::new("My/Funk/ServiceName").expect(rt, "a name")
}

fn service_id() -> UniqueServiceId {
    UniqueServiceId::new(1, 2, 3, 4)
}

fn new_publish_subscribe(rt: &impl Abort, config: &Config) -> StaticConfig {
    StaticConfig::new_publish_subscribe::<Sha1Hasher>(
        &service_name(rt),
        config,
        service_id(),
    ).expect(rt, "a description")
}

fn new_event(rt: &impl Abort, config: &Config) -> StaticConfig {
    StaticConfig::new_event::<Sha1Hasher>(&service_name(rt), config, service_id()).expect(
        rt,
        "a description",
    )
}

fn new_request_response(rt: &impl Abort, config: &Config) -> StaticConfig {
    StaticConfig::new_request_response::<Sha1Hasher>(
        &service_name(rt),
        config,
        service_id(),
    ).expect(rt, "a description")
}

fn new_blackboard(rt: &impl Abort, config: &Config) -> StaticConfig {
    StaticConfig::new_blackboard::<Sha1Hasher>(&service_name(rt), config, service_id()).expect(
        rt,
        "a description",
    )
}

fn describes(rt: &impl Abort, service: &StaticConfig, kind: PatternKind, text: &str, hash: &str) {
    let pattern = service.messaging_pattern();
    assert_eq!(rt;
        [service.name().as_str(), service.service_hash().as_str()],
        ["My/Funk/ServiceName", hash]
    );
    assert_eq!(rt;
        (
            service.unique_service_id(),
            service.attributes().number_of_attributes(),
            pattern.kind(),
        ),
        (service_id(), 0, kind)
    );
    assert!(rt; service.copied() == *service);
    assert!(rt; is_printed_as(pattern, text));
    assert!(rt; is_printed(pattern));
}

#[test]
fn publish_subscribe_is_described(rt: HostRuntime) {
    let config = Config::default();
    let service = new_publish_subscribe(&rt, &config);
    describes(
        &rt,
        &service,
        PatternKind::PublishSubscribe,
        "PublishSubscribe",
        "Tqyt8mlaP0suuVSFdZJGzhoqqQY",
    );
    assert!(rt; service.is_publish_subscribe());
    assert!(rt; service.publish_subscribe() == &publish_subscribe::StaticConfig::new(&config));
}

#[test]
fn event_is_described(rt: HostRuntime) {
    let config = Config::default();
    let service = new_event(&rt, &config);
    describes(
        &rt,
        &service,
        PatternKind::Event,
        "Event",
        "thvRXow-oWFGmF6WCQao4SUVanM",
    );
    assert!(rt; service.is_event());
    assert!(rt; service.event() == &event::StaticConfig::new(&config));
}

#[test]
fn request_response_is_described(rt: HostRuntime) {
    let config = Config::default();
    let service = new_request_response(&rt, &config);
    describes(
        &rt,
        &service,
        PatternKind::RequestResponse,
        "RequestResponse",
        "vjffPeotq3NP6AxuLKUysKbzTsY",
    );
    assert!(rt; service.is_request_response());
    assert!(rt; service.request_response() == &request_response::StaticConfig::new(&config));
}

#[test]
fn blackboard_is_described(rt: HostRuntime) {
    let config = Config::default();
    let service = new_blackboard(&rt, &config);
    describes(
        &rt,
        &service,
        PatternKind::Blackboard,
        "Blackboard",
        "8ZRQL1Kpi704mo5NDmLcXtD9lzI",
    );
    assert!(rt; service.is_blackboard());
    assert!(rt; service.blackboard() == &blackboard::StaticConfig::new(&config));
}

fn kinds_told(service: &StaticConfig) -> [bool; 4] {
    [
        service.is_publish_subscribe(),
        service.is_event(),
        service.is_request_response(),
        service.is_blackboard(),
    ]
}

#[test]
fn each_service_is_of_one_kind(rt: HostRuntime) {
    let config = Config::default();
    assert_eq!(rt;
        [
            kinds_told(&new_publish_subscribe(&rt, &config)),
            kinds_told(&new_event(&rt, &config)),
            kinds_told(&new_request_response(&rt, &config)),
            kinds_told(&new_blackboard(&rt, &config)),
        ],
        [
            [true, false, false, false],
            [false, true, false, false],
            [false, false, true, false],
            [false, false, false, true],
        ]
    );
}

#[test]
fn each_maker_tells_that_the_hasher_refused(rt: HostRuntime) {
    let config = Config::default();
    let name = service_name(&rt);
    let id = service_id();
    assert_eq!(rt;
        [
            StaticConfig::new_publish_subscribe::<RefusingHasher>(&name, &config, id).err(),
            StaticConfig::new_event::<RefusingHasher>(&name, &config, id).err(),
            StaticConfig::new_request_response::<RefusingHasher>(&name, &config, id).err(),
            StaticConfig::new_blackboard::<RefusingHasher>(&name, &config, id).err(),
        ],
        [Some(ServiceHashError::HasherFailed); 4]
    );
}

fn hash_of(pattern: &MessagingPattern) -> u64 {
    let mut state = DefaultHasher::new();
    pattern.hash(&mut state);
    state.finish()
}

fn patterns(config: &Config) -> [MessagingPattern; 4] {
    [
        MessagingPattern::PublishSubscribe(publish_subscribe::StaticConfig::new(config)),
        MessagingPattern::Event(event::StaticConfig::new(config)),
        MessagingPattern::RequestResponse(request_response::StaticConfig::new(config)),
        MessagingPattern::Blackboard(blackboard::StaticConfig::new(config)),
    ]
}

fn same_as(one: &MessagingPattern, patterns: &[MessagingPattern; 4]) -> [bool; 4] {
    [
        one.is_same_pattern(&patterns[0]),
        one.is_same_pattern(&patterns[1]),
        one.is_same_pattern(&patterns[2]),
        one.is_same_pattern(&patterns[3]),
    ]
}

#[test]
fn patterns_are_the_same_by_kind(rt: HostRuntime) {
    let patterns = patterns(&Config::default());
    assert_eq!(rt;
        [
            same_as(&patterns[0], &patterns),
            same_as(&patterns[1], &patterns),
            same_as(&patterns[2], &patterns),
            same_as(&patterns[3], &patterns),
        ],
        [
            [true, false, false, false],
            [false, true, false, false],
            [false, false, true, false],
            [false, false, false, true],
        ]
    );
}

#[test]
fn patterns_are_the_same_whatever_they_set(rt: HostRuntime) {
    let mut config = Config::default();
    let one = MessagingPattern::PublishSubscribe(publish_subscribe::StaticConfig::new(&config));
    config.defaults.publish_subscribe.max_nodes = 19;
    let smaller = MessagingPattern::PublishSubscribe(publish_subscribe::StaticConfig::new(&config));
    assert!(rt; one != smaller);
    assert!(rt; one.is_same_pattern(&smaller));
}

#[test]
fn copies_of_patterns_have_the_same_hash(rt: HostRuntime) {
    for pattern in patterns(&Config::default()).iter() {
        assert_eq!(rt; hash_of(pattern), hash_of(&pattern.copied()), "{pattern}");
    }
}

fn attributes(rt: &impl Abort) -> AttributeSet {
    let key = AttributeKey::new(b"a").expect(rt, "a key");
    let value = AttributeValue::new(b"1").expect(rt, "a value");
    let mut attributes = AttributeSet::new();
    attributes.add(&key, &value).expect(rt, "room");
    attributes
}

#[test]
fn settings_of_publish_subscribe_can_be_changed(rt: HostRuntime) {
    let mut config = Config::default();
    let mut service = new_publish_subscribe(&rt, &config).with_attributes(&attributes(&rt));
    assert!(rt; service.is_publish_subscribe());
    service.publish_subscribe_mut().max_nodes = 19;
    config.defaults.publish_subscribe.max_nodes = 19;
    let wanted = new_publish_subscribe(&rt, &config).with_attributes(&attributes(&rt));
    assert!(rt; service == wanted);
}

#[test]
fn settings_of_event_can_be_changed(rt: HostRuntime) {
    let mut config = Config::default();
    let mut service = new_event(&rt, &config).with_attributes(&attributes(&rt));
    assert!(rt; service.is_event());
    service.event_mut().max_nodes = 18;
    config.defaults.event.max_nodes = 18;
    let wanted = new_event(&rt, &config).with_attributes(&attributes(&rt));
    assert!(rt; service == wanted);
}

#[test]
fn settings_of_request_response_can_be_changed(rt: HostRuntime) {
    let mut config = Config::default();
    let mut service = new_request_response(&rt, &config).with_attributes(&attributes(&rt));
    assert!(rt; service.is_request_response());
    service.request_response_mut().max_nodes = 17;
    config.defaults.request_response.max_nodes = 17;
    let wanted = new_request_response(&rt, &config).with_attributes(&attributes(&rt));
    assert!(rt; service == wanted);
}

#[test]
fn settings_of_blackboard_can_be_changed(rt: HostRuntime) {
    let mut config = Config::default();
    let mut service = new_blackboard(&rt, &config).with_attributes(&attributes(&rt));
    assert!(rt; service.is_blackboard());
    service.blackboard_mut().max_nodes = 16;
    config.defaults.blackboard.max_nodes = 16;
    let wanted = new_blackboard(&rt, &config).with_attributes(&attributes(&rt));
    assert!(rt; service == wanted);
}

#[test]
fn changed_settings_do_not_make_patterns_the_same(rt: HostRuntime) {
    let mut one = new_publish_subscribe(&rt, &Config::default());
    let mut other = new_event(&rt, &Config::default());
    assert!(rt; one.is_publish_subscribe());
    assert!(rt; other.is_event());
    one.publish_subscribe_mut().max_nodes = 19;
    other.event_mut().max_nodes = 18;
    assert!(rt; !one.has_same_messaging_pattern(&other));
}

#[test]
fn services_have_the_same_pattern_whatever_they_set(rt: HostRuntime) {
    let mut config = Config::default();
    let one = new_event(&rt, &config);
    config.defaults.event.max_nodes = 18;
    let other = new_event(&rt, &config).with_attributes(&attributes(&rt));
    assert!(rt; one != other);
    assert!(rt; one.has_same_messaging_pattern(&other));
}

#[test]
fn attributes_can_be_changed(rt: HostRuntime) {
    let attributes = attributes(&rt);
    let service = new_blackboard(&rt, &Config::default()).with_attributes(&attributes);
    assert!(rt; service.attributes() == &attributes);
    let service = service.with_attributes(&AttributeSet::new());
    assert_eq!(rt; service.attributes().number_of_attributes(), 0);
}
