//! The settings that services get by default.
ghost use Rattle.std.specs.Prelude.{◌≡◌};

use super::choices::{AllocationStrategy, BackpressureStrategy};
use std::time::Duration;

/// The settings that a publish-subscribe service gets by default.
#[derive(Debug, Drop, PartialEq, Eq)]
pub struct PublishSubscribe {
    /// How many subscribers may be attached at once.
    pub max_subscribers: usize,
    /// How many publishers may be attached at once.
    pub max_publishers: usize,
    /// How many nodes may use the service at once.
    pub max_nodes: usize,
    /// The capacity of a subscriber's buffer, in samples.
    pub subscriber_max_buffer_size: usize,
    /// How many samples a subscriber may hold at once.
    pub subscriber_max_borrowed_samples: usize,
    /// How many samples a publisher may have under way, taken and not yet sent.
    pub publisher_max_loaned_samples: usize,
    /// How many of the last samples a publisher keeps for subscribers that come later.
    pub publisher_history_size: usize,
    /// Whether a new sample replaces the oldest one where a buffer is full.
    pub enable_safe_overflow: bool,
    /// What a publisher does where a buffer is full and may not overflow.
    pub backpressure_strategy: BackpressureStrategy,
    /// How many connections of publishers that are gone
    /// a subscriber keeps, since samples lie in them.
    pub subscriber_expired_connection_buffer: usize,
    /// How a publisher's data segment grows for payloads whose length is known only at run time.
    pub publisher_allocation_strategy: AllocationStrategy,
}

impl Default for PublishSubscribe {
    ghost use Rattle.iox2_config.specs.Defaults.{default_publish_subscribe};

    ghost is_default = { λ settings. settings ≡ default_publish_subscribe };

    fn default() -> Self {
        PublishSubscribe {
            max_subscribers: 8,
            max_publishers: 2,
            max_nodes: 20,
            subscriber_max_buffer_size: 2,
            subscriber_max_borrowed_samples: 2,
            publisher_max_loaned_samples: 2,
            publisher_history_size: 0,
            enable_safe_overflow: true,
            backpressure_strategy: BackpressureStrategy::RetryUntilDelivered,
            subscriber_expired_connection_buffer: 128,
            publisher_allocation_strategy: AllocationStrategy::Static,
        }
    }
}

impl PublishSubscribe {
    /// Equal settings.
    pub fn copied(&self) -> Self
        ensures { result ≡ self.now }
    {
        PublishSubscribe { ..*self }
    }
}

/// The settings that an event service gets by default.
#[derive(Debug, Drop, PartialEq, Eq)]
pub struct Event {
    /// How many listeners may be attached at once.
    pub max_listeners: usize,
    /// How many notifiers may be attached at once.
    pub max_notifiers: usize,
    /// How many nodes may use the service at once.
    pub max_nodes: usize,
    /// The greatest number of an event.
    pub event_id_max_value: usize,
    /// The longest time that may pass between two events, if there is such a limit.
    pub deadline: Option<Duration>,
    /// The number of the event that reports a new notifier, if any does.
    pub notifier_created_event: Option<usize>,
    /// The number of the event that reports that a notifier left, if any does.
    pub notifier_dropped_event: Option<usize>,
    /// The number of the event that reports a notifier whose node died, if any does.
    pub notifier_dead_event: Option<usize>,
}

impl Default for Event {
    ghost use Rattle.iox2_config.specs.Defaults.{default_event};

    ghost is_default = { λ settings. settings ≡ default_event };

    fn default() -> Self {
        Event {
            max_listeners: 16,
            max_notifiers: 16,
            max_nodes: 36,
            event_id_max_value: 255,
            deadline: None,
            notifier_created_event: None,
            notifier_dropped_event: None,
            notifier_dead_event: None,
        }
    }
}

impl Event {
    /// Equal settings.
    pub fn copied(&self) -> Self
        ensures { result ≡ self.now }
    {
        Event { ..*self }
    }
}

/// The settings that a request-response service gets by default.
#[derive(Debug, Drop, PartialEq, Eq)]
pub struct RequestResonse {
    /// Whether a new request replaces the oldest one where a server's buffer is full.
    pub enable_safe_overflow_for_requests: bool,
    /// Whether a new response replaces the oldest one where a client's buffer is full.
    pub enable_safe_overflow_for_responses: bool,
    /// How many requests of one client may be open at each server at once.
    pub max_active_requests_per_client: usize,
    /// The capacity of a client's buffer for the responses to one request.
    pub max_response_buffer_size: usize,
    /// How many servers may be attached at once.
    pub max_servers: usize,
    /// How many clients may be attached at once.
    pub max_clients: usize,
    /// How many nodes may use the service at once.
    pub max_nodes: usize,
    /// How many responses to one request a client may hold at once.
    pub max_borrowed_responses_per_pending_response: usize,
    /// How many requests a client may have under way, taken and not yet sent.
    pub max_loaned_requests: usize,
    /// How many responses to one request a server may have under way, taken and not yet sent.
    pub server_max_loaned_responses_per_request: usize,
    /// What a client does where a server's buffer is full and may not overflow.
    pub client_backpressure_strategy: BackpressureStrategy,
    /// What a server does where a client's buffer is full and may not overflow.
    pub server_backpressure_strategy: BackpressureStrategy,
    /// How many connections of servers that are gone a client keeps, since responses lie in them.
    pub client_expired_connection_buffer: usize,
    /// How many connections of clients that are gone a server keeps, since requests lie in them.
    pub server_expired_connection_buffer: usize,
    /// Whether a client may send a request and take no response.
    pub enable_fire_and_forget_requests: bool,
    /// How a client's data segment grows for requests whose length is known only at run time.
    pub client_allocation_strategy: AllocationStrategy,
    /// How a server's data segment grows for responses whose length is known only at run time.
    pub server_allocation_strategy: AllocationStrategy,
}

impl Default for RequestResonse {
    ghost use Rattle.iox2_config.specs.Defaults.{default_request_response};

    ghost is_default = { λ settings. settings ≡ default_request_response };

    fn default() -> Self {
        RequestResonse {
            enable_safe_overflow_for_requests: true,
            enable_safe_overflow_for_responses: true,
            max_active_requests_per_client: 4,
            max_response_buffer_size: 2,
            max_servers: 2,
            max_clients: 8,
            max_nodes: 20,
            max_borrowed_responses_per_pending_response: 2,
            max_loaned_requests: 2,
            server_max_loaned_responses_per_request: 2,
            client_backpressure_strategy: BackpressureStrategy::RetryUntilDelivered,
            server_backpressure_strategy: BackpressureStrategy::RetryUntilDelivered,
            client_expired_connection_buffer: 128,
            server_expired_connection_buffer: 128,
            enable_fire_and_forget_requests: true,
            client_allocation_strategy: AllocationStrategy::Static,
            server_allocation_strategy: AllocationStrategy::Static,
        }
    }
}

impl RequestResonse {
    /// Equal settings.
    pub fn copied(&self) -> Self
        ensures { result ≡ self.now }
    {
        RequestResonse { ..*self }
    }
}

/// The settings that a blackboard service gets by default.
#[derive(Debug, Drop, PartialEq, Eq)]
pub struct Blackboard {
    /// How many readers may be attached at once.
    pub max_readers: usize,
    /// How many nodes may use the service at once.
    pub max_nodes: usize,
}

impl Default for Blackboard {
    ghost use Rattle.iox2_config.specs.Defaults.{default_blackboard};

    ghost is_default = { λ settings. settings ≡ default_blackboard };

    fn default() -> Self {
        Blackboard {
            max_readers: 8,
            max_nodes: 20,
        }
    }
}

impl Blackboard {
    /// Equal settings.
    pub fn copied(&self) -> Self
        ensures { result ≡ self.now }
    {
        Blackboard {
            max_readers: self.max_readers,
            max_nodes: self.max_nodes,
        }
    }
}

/// The settings that a service gets where its maker says nothing else, for each pattern.
#[derive(Debug, Drop, PartialEq, Eq)]
pub struct Defaults {
    /// The settings of publish-subscribe services.
    pub publish_subscribe: PublishSubscribe,
    /// The settings of event services.
    pub event: Event,
    /// The settings of request-response services.
    pub request_response: RequestResonse,
    /// The settings of blackboard services.
    pub blackboard: Blackboard,
}

impl Default for Defaults {
    ghost use Rattle.iox2_config.specs.Defaults.{default_defaults};

    ghost is_default = { λ settings. settings ≡ default_defaults };

    fn default() -> Self {
        Defaults {
            publish_subscribe: PublishSubscribe::default(),
            event: Event::default(),
            request_response: RequestResonse::default(),
            blackboard: Blackboard::default(),
        }
    }
}

impl Defaults {
    /// Equal settings.
    pub fn copied(&self) -> Self
        ensures { result ≡ self.now }
    {
        Defaults {
            publish_subscribe: self.publish_subscribe.copied(),
            event: self.event.copied(),
            request_response: self.request_response.copied(),
            blackboard: self.blackboard.copied(),
        }
    }
}
