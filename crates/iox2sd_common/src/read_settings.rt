//! Settings and numbers of patterns that a caller gave: which field is invalid, if one is.
ghost use Rattle.std.specs.Prelude.{◌≡◌};
ghost use Rattle.iox2_config.specs.Hashing.{ReadsPattern};
ghost use Rattle.iox2sd_common.specs.Settings.{c_blackboard};
ghost use Rattle.iox2sd_common.specs.ReadSettings.{field_status, field_answer};
ghost use Rattle.iox2sd_common.specs.ReadSettings.{no_field, ReadsBackpressure, ReadsAllocation};
ghost use Rattle.iox2sd_common.specs.ReadSettings.{ReadsDuration, ReadsDeadline, given_event_id};
ghost use Rattle.iox2sd_common.specs.ReadSettings.{ReadsPublishSubscribe, ReadsEvent};
ghost use Rattle.iox2sd_common.specs.ReadSettings.{ReadsRequestResponse, ReadsGlobal};

use super::settings::{
    BlackboardSettings, EventSettings, GlobalSettings, OptionalDuration, OptionalEventId,
    PlainDuration, PublishSubscribeSettings, RequestResponseSettings,
};
use crate::status::Status;
use iox2_config::config::{
    AllocationStrategy, BackpressureStrategy, Blackboard, Event, PublishSubscribe, RequestResonse,
};
use iox2_config::hash::PatternKind;
use std::time::Duration;

/// A field of settings that may be invalid.
#[derive(Clone, Copy)]
pub enum Field {
    /// What a publisher does where a buffer is full.
    BackpressureStrategy,
    /// How a publisher's data segment grows.
    PublisherAllocationStrategy,
    /// The longest time between two events.
    Deadline,
    /// What a client does where a buffer is full.
    ClientBackpressureStrategy,
    /// What a server does where a buffer is full.
    ServerBackpressureStrategy,
    /// How a client's data segment grows.
    ClientAllocationStrategy,
    /// How a server's data segment grows.
    ServerAllocationStrategy,
    /// For how long an opener waits.
    CreationTimeout,
}

/// Which field of settings is invalid, and why.
#[repr(C)]
#[derive(Clone, Copy)]
pub struct FieldAnswer {
    /// The number of a [`Status`].
    pub status: u32,
    /// The field of which the status speaks; 0 where it speaks of none.
    ///
    /// 0: `backpressure_strategy`. 1: `publisher_allocation_strategy`. 2: `deadline`.
    /// 3: `client_backpressure_strategy`. 4: `server_backpressure_strategy`.
    /// 5: `client_allocation_strategy`. 6: `server_allocation_strategy`. 7: `creation_timeout`.
    /// From 8 on: what is fixed of a service, as `iox2sd_values` numbers it.
    pub field: u32,
    /// The number of the [`Status`] that says why a text is refused; 0 where no text is.
    pub cause: u32,
}

impl Field {
    /// What is wrong with it where it is invalid.
    fn status(self) -> Status
        ensures { result ≡ field_status self }
    {
        match self {
            Field::Deadline | Field::CreationTimeout => Status::BadDuration,
            _ => Status::UnknownStrategy,
        }
    }

    /// The answer where it is invalid.
    pub fn answer(self) -> FieldAnswer
        ensures { result ≡ field_answer self }
    {
        FieldAnswer {
            status: self.status().code(),
            field: self as u32,
            cause: 0,
        }
    }
}

/// The answer of a status that speaks of no field.
pub fn no_field(status: Status) -> FieldAnswer
    ensures { result ≡ no_field status }
{
    FieldAnswer {
        status: status.code(),
        field: 0,
        cause: 0,
    }
}

/// The messaging pattern of a number.
pub fn pattern_of(number: u64) -> Option<PatternKind>
    ensures { ReadsPattern number result }
{
    if number < 4 {
        PatternKind::of_number(number as u32)
    } else {
        None
    }
}

/// The strategy of this number.
fn backpressure_of(number: u32) -> Option<BackpressureStrategy>
    ensures { ReadsBackpressure number result }
{
    match number {
        0 => Some(BackpressureStrategy::RetryUntilDelivered),
        1 => Some(BackpressureStrategy::DiscardData),
        _ => None,
    }
}

/// The strategy of this number.
fn allocation_of(number: u32) -> Option<AllocationStrategy>
    ensures { ReadsAllocation number result }
{
    match number {
        0 => Some(AllocationStrategy::BestFit),
        1 => Some(AllocationStrategy::PowerOfTwo),
        2 => Some(AllocationStrategy::Static),
        _ => None,
    }
}

/// The span of time, where the nanoseconds are below a second.
fn read_duration(given: PlainDuration) -> Option<Duration>
    ensures { ReadsDuration given result }
{
    if given.nanoseconds >= 1_000_000_000 {
        return None;
    }
    Some(Duration::new(given.seconds, given.nanoseconds))
}

/// The deadline, if there is one.
fn read_deadline(given: &OptionalDuration) -> Result<Option<Duration>, Field>
    ensures { ReadsDeadline given.now result }
{
    if !given.is_some {
        return Ok(None);
    }
    let span = PlainDuration {
        seconds: given.seconds,
        nanoseconds: given.nanoseconds,
    };
    Ok(Some(read_duration(span).ok_or(Field::Deadline)?))
}

/// The number of the event, if there is one.
fn read_event_id(given: &OptionalEventId) -> Option<usize>
    ensures { result ≡ given_event_id given.now }
{
    if given.is_some {
        Some(given.number)
    } else {
        None
    }
}

/// The settings of a publish-subscribe service, or the first invalid field.
pub fn read_publish_subscribe(
    settings: &PublishSubscribeSettings,
) -> Result<PublishSubscribe, Field>
    ensures { ReadsPublishSubscribe settings.now result }
{
    Ok(PublishSubscribe {
        max_subscribers: settings.max_subscribers,
        max_publishers: settings.max_publishers,
        max_nodes: settings.max_nodes,
        subscriber_max_buffer_size: settings.subscriber_max_buffer_size,
        subscriber_max_borrowed_samples: settings.subscriber_max_borrowed_samples,
        publisher_max_loaned_samples: settings.publisher_max_loaned_samples,
        publisher_history_size: settings.publisher_history_size,
        enable_safe_overflow: settings.enable_safe_overflow,
        backpressure_strategy: backpressure_of(settings.backpressure_strategy).ok_or(
            Field::BackpressureStrategy,
        )?,
        subscriber_expired_connection_buffer: settings.subscriber_expired_connection_buffer,
        publisher_allocation_strategy: allocation_of(settings.publisher_allocation_strategy).ok_or(
            Field::PublisherAllocationStrategy,
        )?,
    })
}

/// The settings of a blackboard service, which are always valid.
pub fn read_blackboard(settings: &BlackboardSettings) -> Blackboard
    ensures { c_blackboard result ≡ settings.now }
{
    Blackboard {
        max_readers: settings.max_readers,
        max_nodes: settings.max_nodes,
    }
}

/// The settings of an event service, or the first invalid field.
pub fn read_event(settings: &EventSettings) -> Result<Event, Field>
    ensures { ReadsEvent settings.now result }
{
    Ok(Event {
        max_listeners: settings.max_listeners,
        max_notifiers: settings.max_notifiers,
        max_nodes: settings.max_nodes,
        event_id_max_value: settings.event_id_max_value,
        deadline: read_deadline(&settings.deadline)?,
        notifier_created_event: read_event_id(&settings.notifier_created_event),
        notifier_dropped_event: read_event_id(&settings.notifier_dropped_event),
        notifier_dead_event: read_event_id(&settings.notifier_dead_event),
    })
}

/// The settings of a request-response service, or the first invalid field.
pub fn read_request_response(settings: &RequestResponseSettings) -> Result<RequestResonse, Field>
    ensures { ReadsRequestResponse settings.now result }
{
    Ok(RequestResonse {
        enable_safe_overflow_for_requests: settings.enable_safe_overflow_for_requests,
        enable_safe_overflow_for_responses: settings.enable_safe_overflow_for_responses,
        max_active_requests_per_client: settings.max_active_requests_per_client,
        max_response_buffer_size: settings.max_response_buffer_size,
        max_servers: settings.max_servers,
        max_clients: settings.max_clients,
        max_nodes: settings.max_nodes,
        max_borrowed_responses_per_pending_response: settings.max_borrowed_responses_per_pending_response,
        max_loaned_requests: settings.max_loaned_requests,
        server_max_loaned_responses_per_request: settings.server_max_loaned_responses_per_request,
        client_backpressure_strategy: backpressure_of(settings.client_backpressure_strategy).ok_or(
            Field::ClientBackpressureStrategy,
        )?,
        server_backpressure_strategy: backpressure_of(settings.server_backpressure_strategy).ok_or(
            Field::ServerBackpressureStrategy,
        )?,
        client_expired_connection_buffer: settings.client_expired_connection_buffer,
        server_expired_connection_buffer: settings.server_expired_connection_buffer,
        enable_fire_and_forget_requests: settings.enable_fire_and_forget_requests,
        client_allocation_strategy: allocation_of(settings.client_allocation_strategy).ok_or(
            Field::ClientAllocationStrategy,
        )?,
        server_allocation_strategy: allocation_of(settings.server_allocation_strategy).ok_or(
            Field::ServerAllocationStrategy,
        )?,
    })
}

/// The creation timeout of a system.
pub fn read_global(settings: &GlobalSettings) -> Result<Duration, Field>
    ensures { ReadsGlobal settings.now result }
{
    read_duration(settings.creation_timeout).ok_or(Field::CreationTimeout)
}
