use iox2_config::config::Config;
use iox2_static::laws::*;
use iox2_static::static_config::messaging_pattern::MessagingPattern;
use iox2_static::static_config::setting::Setting;
use iox2_static::static_config::{blackboard, event, publish_subscribe, request_response};
use std::hash::DefaultHasher;

#[test]
fn settings_that_differ_are_unequal(rt: HostRuntime) {
    let mut config = Config::default();
    let samples = publish_subscribe::StaticConfig::new(&config);
    let requests = request_response::StaticConfig::new(&config);
    let events = event::StaticConfig::new(&config);
    let values = blackboard::StaticConfig::new(&config);
    config.defaults.publish_subscribe.enable_safe_overflow = false;
    config
        .defaults
        .request_response
        .max_borrowed_responses_per_pending_response = 3;
    config.defaults.event.notifier_dead_event = Some(0);
    config.defaults.blackboard.max_nodes = 19;
    assert_eq!(rt;
        [
            samples == publish_subscribe::StaticConfig::new(&config),
            requests == request_response::StaticConfig::new(&config),
            events == event::StaticConfig::new(&config),
            values == blackboard::StaticConfig::new(&config),
        ],
        [false; 4]
    );
}

#[test]
fn laws_of_patterns_can_be_called(rt: HostRuntime) {
    let mut config = Config::default();
    let pattern = MessagingPattern::Event(event::StaticConfig::new(&config));
    config.defaults.event.max_nodes = 35;
    let other = MessagingPattern::Event(event::StaticConfig::new(&config));
    let mut hasher = DefaultHasher::new();
    assert_eq!(rt;
        [
            patterns_go_by_fields(&pattern, &pattern.copied(), &mut hasher),
            patterns_go_by_fields(&pattern, &other, &mut hasher),
        ],
        [true, false]
    );
}

#[test]
fn settings_go_by_their_variant(rt: HostRuntime) {
    let (one, other) = (Setting::MaxNodes, Setting::MaxReaders);
    assert_eq!(rt; settings_go_by_variant(&one, &other), (false, Ok(one)));
}
