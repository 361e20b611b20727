use iox2_config::config::{Config, EventId};
use iox2_config::types::{MessageTypeDetails, TypeDetail};
use iox2_ids::identifiers::Time;
use iox2_static::static_config::event::Deadline;
use iox2_static::static_config::{blackboard, event, publish_subscribe, request_response};
use std::time::Duration;

#[test]
fn of_publish_subscribe(rt: HostRuntime) {
    let config = publish_subscribe::StaticConfig::new(&Config::default());
    for (found, wanted) in [
        (config.max_subscribers(), 8),
        (config.max_publishers(), 2),
        (config.max_nodes(), 20),
        (config.history_size(), 0),
        (config.subscriber_max_buffer_size(), 2),
        (config.subscriber_max_borrowed_samples(), 2),
    ] {
        assert_eq!(rt; found, wanted);
    }
    assert!(rt; config.has_safe_overflow());
}

#[test]
fn of_request_response(rt: HostRuntime) {
    let config = request_response::StaticConfig::new(&Config::default());
    for (found, wanted) in [
        (config.max_active_requests_per_client(), 4),
        (config.max_loaned_requests(), 2),
        (config.max_response_buffer_size(), 2),
        (config.max_servers(), 2),
        (config.max_clients(), 8),
        (config.max_nodes(), 20),
        (config.max_borrowed_responses_per_pending_response(), 2),
    ] {
        assert_eq!(rt; found, wanted);
    }
}

#[test]
fn requests_overflow_and_may_be_forgotten(rt: HostRuntime) {
    let config = request_response::StaticConfig::new(&Config::default());
    assert_eq!(rt;
        [
            config.has_safe_overflow_for_requests(),
            config.has_safe_overflow_for_responses(),
            config.does_support_fire_and_forget_requests(),
        ],
        [true; 3]
    );
}

#[test]
fn of_event(rt: HostRuntime) {
    let config = event::StaticConfig::new(&Config::default());
    assert_eq!(rt;
        [
            config.max_notifiers(),
            config.max_listeners(),
            config.max_nodes(),
            config.event_id_max_value(),
        ],
        [16, 16, 36, 255]
    );
    assert_eq!(rt;
        (config.deadline(), reported_events(&config)),
        (None, [None; 3])
    );
}

#[test]
fn deadline_and_events_are_those_of_the_configuration(rt: HostRuntime) {
    let mut defaults = Config::default();
    let value = Duration::from_millis(5);
    defaults.defaults.event.deadline = Some(value);
    defaults.defaults.event.notifier_created_event = Some(1);
    defaults.defaults.event.notifier_dropped_event = Some(2);
    defaults.defaults.event.notifier_dead_event = Some(3);
    let config = event::StaticConfig::new(&defaults);
    let deadline = Deadline {
        creation_time: Time::new(0, 0),
        value,
    };
    assert_eq!(rt;
        (config.deadline, config.deadline()),
        (Some(deadline), Some(value))
    );
    assert_eq!(rt;
        reported_events(&config),
        [
            Some(EventId::new(1)),
            Some(EventId::new(2)),
            Some(EventId::new(3)),
        ]
    );
}

#[test]
fn of_blackboard(rt: HostRuntime) {
    let config = blackboard::StaticConfig::new(&Config::default());
    assert_eq!(rt;
        [config.max_readers(), config.max_writers, config.max_nodes()],
        [8, 1, 20]
    );
    assert!(rt; config.type_details() == &TypeDetail::default());
}

#[test]
fn no_types_of_messages_are_given(rt: HostRuntime) {
    let none_given = MessageTypeDetails::default();
    let samples = publish_subscribe::StaticConfig::new(&Config::default());
    assert!(rt; samples.message_type_details() == &none_given);
    let requests = request_response::StaticConfig::new(&Config::default());
    assert!(rt; requests.request_message_type_details() == &none_given);
    assert!(rt; requests.response_message_type_details() == &none_given);
}

#[test]
fn copies_are_equal(rt: HostRuntime) {
    let samples = publish_subscribe::StaticConfig::new(&Config::default());
    assert!(rt; samples.copied() == samples);
    let requests = request_response::StaticConfig::new(&Config::default());
    assert!(rt; requests.copied() == requests);
    let values = blackboard::StaticConfig::new(&Config::default());
    assert!(rt; values.copied() == values);
}

/// The events that report a new notifier, one that went, and one whose node died.
fn reported_events(config: &event::StaticConfig) -> [Option<EventId>; 3] {
    [
        config.notifier_created_event(),
        config.notifier_dropped_event(),
        config.notifier_dead_event(),
    ]
}
