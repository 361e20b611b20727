//! What `Debug` prints of descriptions: each pattern by name, each field by name and value.
use iox2_config::config::Config;
use iox2_config::hash::Sha1Hasher;
use iox2_config::types::{MessageTypeDetails, TypeDetail, TypeVariant};
use iox2_ids::identifiers::{Time, UniqueServiceId};
use iox2_static::static_config::event::Deadline;
use iox2_static::static_config::messaging_pattern::MessagingPattern;
use iox2_static::static_config::{
    StaticConfig, blackboard, event, publish_subscribe, request_response,
};
use iox2_texts::service_name::ServiceName;
use std::fmt::Debug;
use std::process::Abort;
use std::time::Duration;
use test_support::printing::is_shown_as;

fn detail(rt: &impl Abort, size: usize) -> TypeDetail {
    TypeDetail::from_parts(TypeVariant::Dynamic, "a", size, 8).expect(rt, "a detail")
}

/// Details of messages whose headers have this size.
fn message_details(rt: &impl Abort, size: usize) -> MessageTypeDetails {
    MessageTypeDetails {
        header: detail(rt, size),
        ..MessageTypeDetails::default()
    }
}

#[test]
fn a_deadline_is_shown_by_field(rt: HostRuntime) {
    let deadline = Deadline {
        creation_time: Time::new(7, 8),
        value: Duration::from_millis(9),
    };
    assert!(rt;
        is_shown_as(
            &deadline,
            "Deadline { creation_time: Time { seconds: 7, nanoseconds: 8 }, value: 9ms }",
        )
    );
}

#[test]
fn settings_of_events_are_shown_by_field(rt: HostRuntime) {
    let settings = event::StaticConfig {
        max_notifiers: 1,
        max_listeners: 2,
        max_nodes: 3,
        event_id_max_value: 4,
        deadline: None,
        notifier_created_event: Some(5),
        notifier_dropped_event: None,
        notifier_dead_event: Some(6),
    };
    assert!(rt;
        is_shown_as(
            &settings,
            "StaticConfig { max_notifiers: 1, max_listeners: 2, max_nodes: 3, \
            event_id_max_value: 4, deadline: None, notifier_created_event: Some(5), \
            notifier_dropped_event: None, notifier_dead_event: Some(6) }",
        )
    );
}

#[test]
fn settings_of_publish_subscribe_are_shown_by_field(rt: HostRuntime) {
    let details = message_details(&rt, 7);
    let shown = format!(in rt.alloc();
        "StaticConfig {{ max_subscribers: 1, max_publishers: 2, max_nodes: 3, history_size: 4, \
        subscriber_max_buffer_size: 5, subscriber_max_borrowed_samples: 6, \
        enable_safe_overflow: true, message_type_details: {details:?} }}"
    )
    .expect(&rt, "memory for a text");
    let settings = publish_subscribe::StaticConfig {
        max_subscribers: 1,
        max_publishers: 2,
        max_nodes: 3,
        history_size: 4,
        subscriber_max_buffer_size: 5,
        subscriber_max_borrowed_samples: 6,
        enable_safe_overflow: true,
        message_type_details: details,
    };
    assert!(rt; is_shown_as(&settings, shown.as_str()));
}

#[test]
fn settings_of_request_response_are_shown_by_field(rt: HostRuntime) {
    let (request, response) = (message_details(&rt, 7), message_details(&rt, 8));
    let shown = format!(in rt.alloc();
        "StaticConfig {{ enable_safe_overflow_for_requests: true, \
        enable_safe_overflow_for_responses: false, enable_fire_and_forget_requests: true, \
        max_active_requests_per_client: 1, max_loaned_requests: 2, max_response_buffer_size: 3, \
        max_servers: 4, max_clients: 5, max_nodes: 6, \
        max_borrowed_responses_per_pending_response: 9, \
        request_message_type_details: {request:?}, \
        response_message_type_details: {response:?} }}"
    )
    .expect(&rt, "memory for a text");
    let settings = request_response::StaticConfig {
        enable_safe_overflow_for_requests: true,
        enable_safe_overflow_for_responses: false,
        enable_fire_and_forget_requests: true,
        max_active_requests_per_client: 1,
        max_loaned_requests: 2,
        max_response_buffer_size: 3,
        max_servers: 4,
        max_clients: 5,
        max_nodes: 6,
        max_borrowed_responses_per_pending_response: 9,
        request_message_type_details: request,
        response_message_type_details: response,
    };
    assert!(rt; is_shown_as(&settings, shown.as_str()));
}

#[test]
fn settings_of_blackboards_are_shown_by_field(rt: HostRuntime) {
    let settings = blackboard::StaticConfig {
        max_readers: 1,
        max_writers: 2,
        max_nodes: 3,
        type_details: detail(&rt, 4),
    };
    assert!(rt;
        is_shown_as(
            &settings,
            "StaticConfig { max_readers: 1, max_writers: 2, max_nodes: 3, \
            type_details: TypeDetail { variant: Dynamic, \
            type_name: StaticString { bytes: [97] }, size: 4, alignment: 8 } }",
        )
    );
}

/// Checks that a pattern is shown by this name, with these settings in it.
fn is_shown_by_name(
    rt: &(impl Abort + AllocGlobal),
    pattern: &MessagingPattern,
    name: &str,
    settings: &impl Debug,
) {
    let shown = format!(in rt.alloc(); "{name}({settings:?})").expect(rt, "memory for a text");
    assert!(rt; is_shown_as(pattern, shown.as_str()));
}

#[test]
fn the_pattern_of_samples_is_shown_by_name(rt: HostRuntime) {
    let settings = publish_subscribe::StaticConfig::new(&Config::default());
    let pattern = MessagingPattern::PublishSubscribe(settings.copied());
    is_shown_by_name(&rt, &pattern, "PublishSubscribe", &settings);
}

#[test]
fn the_pattern_of_events_is_shown_by_name(rt: HostRuntime) {
    let settings = event::StaticConfig::new(&Config::default());
    let pattern = MessagingPattern::Event(settings);
    is_shown_by_name(&rt, &pattern, "Event", &settings);
}

#[test]
fn the_pattern_of_requests_is_shown_by_name(rt: HostRuntime) {
    let settings = request_response::StaticConfig::new(&Config::default());
    let pattern = MessagingPattern::RequestResponse(settings.copied());
    is_shown_by_name(&rt, &pattern, "RequestResponse", &settings);
}

#[test]
fn the_pattern_of_a_blackboard_is_shown_by_name(rt: HostRuntime) {
    let settings = blackboard::StaticConfig::new(&Config::default());
    let pattern = MessagingPattern::Blackboard(settings.copied());
    is_shown_by_name(&rt, &pattern, "Blackboard", &settings);
}

#[test]
fn a_description_is_shown_by_field(rt: HostRuntime) {
    let name = ServiceName::new("a").expect(&rt, "a name");
    let id = UniqueServiceId::new(0, 0, 0, 5);
    let description = StaticConfig::new_event::<Sha1Hasher>(&name, &Config::default(), id);
    let description = description.expect(&rt, "a description");
    let shown = format!(in rt.alloc();
        "StaticConfig {{ service_hash: {:?}, \
        service_name: ServiceName {{ text: StaticString {{ bytes: [97] }} }}, \
        unique_service_id: UniqueId {{ value: 5, kind: PhantomData<_> }}, \
        attributes: AttributeSet {{ attributes: [] }}, messaging_pattern: {:?} }}",
        description.service_hash(),
        description.messaging_pattern(),
    )
    .expect(&rt, "memory for a text");
    assert!(rt; is_shown_as(&description, shown.as_str()));
}
