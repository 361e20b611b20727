//! The settings that services get where nothing else is said, as plain values.
ghost use Rattle.std.specs.Prelude.{◌≡◌};
ghost use Rattle.iox2sd_common.specs.Settings.{c_duration, c_event_id, c_global, c_global_with};
ghost use Rattle.iox2sd_common.specs.Settings.{c_publish_subscribe, c_event, c_request_response};
ghost use Rattle.iox2sd_common.specs.Settings.{c_blackboard};

use iox2_config::config::{
    Blackboard, Event, Global, Node, PublishSubscribe, RequestResonse, Service,
};
use std::time::Duration;

/// A span of time, or none.
#[repr(C)]
#[derive(Clone, Copy, Default)]
pub struct OptionalDuration {
    /// Whole seconds; 0 where there is none.
    pub seconds: u64,
    /// The nanoseconds beside the seconds, below 1,000,000,000; 0 where there is none.
    pub nanoseconds: u32,
    /// Whether there is one.
    pub is_some: bool,
}

/// A span of time.
#[repr(C)]
#[derive(Clone, Copy)]
pub struct PlainDuration {
    /// Whole seconds.
    pub seconds: u64,
    /// The nanoseconds beside the seconds, below 1,000,000,000.
    pub nanoseconds: u32,
}

/// The number of an event, or none.
#[repr(C)]
#[derive(Clone, Copy, Default)]
pub struct OptionalEventId {
    /// The number; 0 where there is none.
    pub number: usize,
    /// Whether there is one.
    pub is_some: bool,
}

/// The settings that all services and nodes of one system share, beside its texts.
#[repr(C)]
#[derive(Clone, Copy)]
pub struct GlobalSettings {
    /// For how long somebody who opens a thing waits until its creator has made it.
    pub creation_timeout: PlainDuration,
    /// Whether somebody who opens a service first removes what dead nodes left in it.
    pub cleanup_dead_nodes_on_open: bool,
    /// Whether somebody who creates a node first removes what dead nodes left.
    pub cleanup_dead_nodes_on_creation: bool,
    /// Whether a node that goes removes what dead nodes left.
    pub cleanup_dead_nodes_on_destruction: bool,
}

/// The settings of a publish-subscribe service.
#[repr(C)]
#[derive(Clone, Copy)]
pub struct PublishSubscribeSettings {
    /// How many subscribers may be attached at once.
    pub max_subscribers: usize,
    /// How many publishers may be attached at once.
    pub max_publishers: usize,
    /// How many nodes may use the service at once.
    pub max_nodes: usize,
    /// The capacity of a subscriber's buffer, in samples.
    pub subscriber_max_buffer_size: usize,
    /// How many samples a subscriber may hold at once.
    pub subscriber_max_borrowed_samples: usize,
    /// How many samples a publisher may have under way, taken and not yet sent.
    pub publisher_max_loaned_samples: usize,
    /// How many of the last samples a publisher keeps for subscribers that come later.
    pub publisher_history_size: usize,
    /// How many connections of publishers that are gone a subscriber keeps.
    pub subscriber_expired_connection_buffer: usize,
    /// What a publisher does where a buffer is full. 0: it tries again. 1: it leaves the receiver
    /// out.
    pub backpressure_strategy: u32,
    /// How a publisher's data segment grows. 0: by what is needed. 1: to the next power of two. 2:
    /// it does not.
    pub publisher_allocation_strategy: u32,
    /// Whether a new sample replaces the oldest one where a buffer is full.
    pub enable_safe_overflow: bool,
}

/// The settings of an event service.
#[repr(C)]
#[derive(Clone, Copy)]
pub struct EventSettings {
    /// How many listeners may be attached at once.
    pub max_listeners: usize,
    /// How many notifiers may be attached at once.
    pub max_notifiers: usize,
    /// How many nodes may use the service at once.
    pub max_nodes: usize,
    /// The greatest number of an event.
    pub event_id_max_value: usize,
    /// The longest time that may pass between two events, if there is such a limit.
    pub deadline: OptionalDuration,
    /// The number of the event that reports a new notifier, if any does.
    pub notifier_created_event: OptionalEventId,
    /// The number of the event that reports a notifier that left, if any does.
    pub notifier_dropped_event: OptionalEventId,
    /// The number of the event that reports a notifier whose node died, if any does.
    pub notifier_dead_event: OptionalEventId,
}

/// The settings of a request-response service.
#[repr(C)]
#[derive(Clone, Copy)]
pub struct RequestResponseSettings {
    /// How many requests of one client may be open at each server at once.
    pub max_active_requests_per_client: usize,
    /// The capacity of a client's buffer for the responses to one request.
    pub max_response_buffer_size: usize,
    /// How many servers may be attached at once.
    pub max_servers: usize,
    /// How many clients may be attached at once.
    pub max_clients: usize,
    /// How many nodes may use the service at once.
    pub max_nodes: usize,
    /// How many responses to one request a client may hold at once.
    pub max_borrowed_responses_per_pending_response: usize,
    /// How many requests a client may have under way, taken and not yet sent.
    pub max_loaned_requests: usize,
    /// How many responses to one request a server may have under way, taken and not yet sent.
    pub server_max_loaned_responses_per_request: usize,
    /// How many connections of servers that are gone a client keeps.
    pub client_expired_connection_buffer: usize,
    /// How many connections of clients that are gone a server keeps.
    pub server_expired_connection_buffer: usize,
    /// What a client does where a buffer is full. 0: it tries again. 1: it leaves the receiver out.
    pub client_backpressure_strategy: u32,
    /// The same of a server.
    pub server_backpressure_strategy: u32,
    /// How a client's data segment grows. 0: by what is needed. 1: to the next power of two. 2: it
    /// does not.
    pub client_allocation_strategy: u32,
    /// The same of a server.
    pub server_allocation_strategy: u32,
    /// Whether a new request replaces the oldest one where a server's buffer is full.
    pub enable_safe_overflow_for_requests: bool,
    /// Whether a new response replaces the oldest one where a client's buffer is full.
    pub enable_safe_overflow_for_responses: bool,
    /// Whether a client may send a request and take no response.
    pub enable_fire_and_forget_requests: bool,
}

/// The settings of a blackboard service.
#[repr(C)]
#[derive(Clone, Copy)]
pub struct BlackboardSettings {
    /// How many readers may be attached at once.
    pub max_readers: usize,
    /// How many nodes may use the service at once.
    pub max_nodes: usize,
}

/// The span of time, if there is one.
pub fn duration_of(duration: Option<Duration>) -> OptionalDuration
    ensures { result ≡ c_duration duration }
{
    match duration {
        Some(duration) => OptionalDuration {
            seconds: duration.as_secs(),
            nanoseconds: duration.subsec_nanos(),
            is_some: true,
        },
        None => OptionalDuration::default(),
    }
}

/// The number of the event, if there is one.
pub fn event_id_of(event: Option<usize>) -> OptionalEventId
    ensures { result ≡ c_event_id event }
{
    match event {
        Some(number) => OptionalEventId {
            number,
            is_some: true,
        },
        None => OptionalEventId::default(),
    }
}

/// The settings of a system, beside its texts.
pub fn global_of(settings: &Global) -> GlobalSettings
    ensures { result ≡ c_global settings.now }
{
    global_with(settings.creation_timeout, &settings.service, &settings.node)
}

/// The same of a system with this timeout and these settings of files.
pub fn global_with(timeout: Duration, service: &Service, node: &Node) -> GlobalSettings
    ensures { result ≡ c_global_with timeout service.now node.now }
{
    GlobalSettings {
        creation_timeout: PlainDuration {
            seconds: timeout.as_secs(),
            nanoseconds: timeout.subsec_nanos(),
        },
        cleanup_dead_nodes_on_open: service.cleanup_dead_nodes_on_open,
        cleanup_dead_nodes_on_creation: node.cleanup_dead_nodes_on_creation,
        cleanup_dead_nodes_on_destruction: node.cleanup_dead_nodes_on_destruction,
    }
}

/// The settings of a publish-subscribe service.
pub fn publish_subscribe_of(settings: &PublishSubscribe) -> PublishSubscribeSettings
    ensures { result ≡ c_publish_subscribe settings.now }
{
    PublishSubscribeSettings {
        max_subscribers: settings.max_subscribers,
        max_publishers: settings.max_publishers,
        max_nodes: settings.max_nodes,
        subscriber_max_buffer_size: settings.subscriber_max_buffer_size,
        subscriber_max_borrowed_samples: settings.subscriber_max_borrowed_samples,
        publisher_max_loaned_samples: settings.publisher_max_loaned_samples,
        publisher_history_size: settings.publisher_history_size,
        subscriber_expired_connection_buffer: settings.subscriber_expired_connection_buffer,
        backpressure_strategy: settings.backpressure_strategy as u32,
        publisher_allocation_strategy: settings.publisher_allocation_strategy as u32,
        enable_safe_overflow: settings.enable_safe_overflow,
    }
}

/// The settings of an event service.
pub fn event_of(settings: &Event) -> EventSettings
    ensures { result ≡ c_event settings.now }
{
    EventSettings {
        max_listeners: settings.max_listeners,
        max_notifiers: settings.max_notifiers,
        max_nodes: settings.max_nodes,
        event_id_max_value: settings.event_id_max_value,
        deadline: duration_of(settings.deadline),
        notifier_created_event: event_id_of(settings.notifier_created_event),
        notifier_dropped_event: event_id_of(settings.notifier_dropped_event),
        notifier_dead_event: event_id_of(settings.notifier_dead_event),
    }
}

/// The settings of a request-response service.
pub fn request_response_of(settings: &RequestResonse) -> RequestResponseSettings
    ensures { result ≡ c_request_response settings.now }
{
    RequestResponseSettings {
        max_active_requests_per_client: settings.max_active_requests_per_client,
        max_response_buffer_size: settings.max_response_buffer_size,
        max_servers: settings.max_servers,
        max_clients: settings.max_clients,
        max_nodes: settings.max_nodes,
        max_borrowed_responses_per_pending_response: settings.max_borrowed_responses_per_pending_response,
        max_loaned_requests: settings.max_loaned_requests,
        server_max_loaned_responses_per_request: settings.server_max_loaned_responses_per_request,
        client_expired_connection_buffer: settings.client_expired_connection_buffer,
        server_expired_connection_buffer: settings.server_expired_connection_buffer,
        client_backpressure_strategy: settings.client_backpressure_strategy as u32,
        server_backpressure_strategy: settings.server_backpressure_strategy as u32,
        client_allocation_strategy: settings.client_allocation_strategy as u32,
        server_allocation_strategy: settings.server_allocation_strategy as u32,
        enable_safe_overflow_for_requests: settings.enable_safe_overflow_for_requests,
        enable_safe_overflow_for_responses: settings.enable_safe_overflow_for_responses,
        enable_fire_and_forget_requests: settings.enable_fire_and_forget_requests,
    }
}

/// The settings of a blackboard service.
pub fn blackboard_of(settings: &Blackboard) -> BlackboardSettings
    ensures { result ≡ c_blackboard settings.now }
{
    BlackboardSettings {
        max_readers: settings.max_readers,
        max_nodes: settings.max_nodes,
    }
}
