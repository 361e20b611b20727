//! Settings as plain values: those that services get where nothing else is said, and which field of
//! those that a caller filled is invalid, if one is; how many nodes and ports a service with some
//! can have at a time, and how many chunks the data segment of a port needs.
ghost use Rattle.std.specs.Prelude.{◌≡◌};
ghost use Rattle.iox2_config.specs.Defaults.{default_publish_subscribe, default_event};
ghost use Rattle.iox2_config.specs.Defaults.{default_request_response, default_blackboard};
ghost use Rattle.iox2sd_common.specs.Settings.{c_publish_subscribe, c_event, c_request_response};
ghost use Rattle.iox2sd_common.specs.Settings.{c_blackboard};
ghost use Rattle.iox2sd_common.specs.ReadSettings.{ReadsPublishSubscribe, ReadsEvent, ReadsGlobal};
ghost use Rattle.iox2sd_common.specs.ReadSettings.{ReadsRequestResponse};
ghost use Rattle.iox2sd_values.specs.Settings.{ReportsGlobalDefaults, checked, ChecksBy};
ghost use Rattle.iox2sd_values.specs.Settings.{CapacitiesBy, publish_subscribe_capacities};
ghost use Rattle.iox2sd_values.specs.Settings.{event_capacities, request_response_capacities};
ghost use Rattle.iox2sd_values.specs.Settings.{blackboard_capacities};
ghost use Rattle.iox2_static.specs.PublishSubscribe.{sample_limits};
ghost use Rattle.iox2_static.specs.RequestResponse.{client_limits, server_limits};
ghost use Rattle.iox2sd_values.specs.Settings.{Counts, counted, publish_subscribe, request_response};

use iox2_config::config::{Blackboard, Event, Node, PublishSubscribe, RequestResonse, Service};
use iox2_config::types::MessageTypeDetails;
use iox2_static::static_config::{blackboard, publish_subscribe, request_response};
use iox2sd_common::answers::{CountAnswer, count};
use iox2sd_common::given_or_return;
use iox2sd_common::read_settings::{
    Field, FieldAnswer, no_field, read_blackboard, read_event, read_global, read_publish_subscribe,
    read_request_response,
};
use iox2sd_common::settings::{
    BlackboardSettings, EventSettings, GlobalSettings, PublishSubscribeSettings,
    RequestResponseSettings, blackboard_of, event_of, global_with, publish_subscribe_of,
    request_response_of,
};
use iox2sd_common::status::Status;
use std::time::Duration;

/// The settings that a system has by default. Those with all their texts would take too much of the
/// stack.
#[unsafe(no_mangle)]
pub extern "C" fn iox2sd_global_defaults() -> GlobalSettings
    ensures { ReportsGlobalDefaults result }
{
    let timeout = Duration::from_millis(500);
    global_with(timeout, &Service::default(), &Node::default())
}

/// The settings that a publish-subscribe service gets by default.
#[unsafe(no_mangle)]
pub extern "C" fn iox2sd_publish_subscribe_defaults() -> PublishSubscribeSettings
    ensures { result ≡ c_publish_subscribe default_publish_subscribe }
{
    publish_subscribe_of(&PublishSubscribe::default())
}

/// The settings that an event service gets by default.
#[unsafe(no_mangle)]
pub extern "C" fn iox2sd_event_defaults() -> EventSettings
    ensures { result ≡ c_event default_event }
{
    event_of(&Event::default())
}

/// The settings that a request-response service gets by default.
#[unsafe(no_mangle)]
pub extern "C" fn iox2sd_request_response_defaults() -> RequestResponseSettings
    ensures { result ≡ c_request_response default_request_response }
{
    request_response_of(&RequestResonse::default())
}

/// The settings that a blackboard service gets by default.
#[unsafe(no_mangle)]
pub extern "C" fn iox2sd_blackboard_defaults() -> BlackboardSettings
    ensures { result ≡ c_blackboard default_blackboard }
{
    blackboard_of(&Blackboard::default())
}

/// The answer on what the reading gave.
fn checked<T: Drop>(read: Result<T, Field>) -> FieldAnswer
    ensures { result ≡ checked read }
{
    match read {
        Ok(_) => no_field(Status::Done),
        Err(field) => field.answer(),
    }
}

/// Whether the settings of a publish-subscribe service are valid.
///
/// Refused are, in this order, NULL (`Null`), and the first number that is not that of a strategy,
/// with its field (`UnknownStrategy`).
#[unsafe(no_mangle)]
pub extern "C" fn iox2sd_publish_subscribe_settings_check_at(
    settings: &[PublishSubscribeSettings],
) -> FieldAnswer
    ensures { ChecksBy ReadsPublishSubscribe settings.now result }
{
    let settings = given_or_return!(settings, no_field(Status::Null));
    checked(read_publish_subscribe(settings))
}

/// Whether the settings of an event service are valid.
///
/// Refused are, in this order, NULL (`Null`), and a deadline whose nanoseconds are a second or more
/// (`BadDuration`).
#[unsafe(no_mangle)]
pub extern "C" fn iox2sd_event_settings_check_at(settings: &[EventSettings]) -> FieldAnswer
    ensures { ChecksBy ReadsEvent settings.now result }
{
    let settings = given_or_return!(settings, no_field(Status::Null));
    checked(read_event(settings))
}

/// Whether the settings of a request-response service are valid. Refused as those of a
/// publish-subscribe service are.
#[unsafe(no_mangle)]
pub extern "C" fn iox2sd_request_response_settings_check_at(
    settings: &[RequestResponseSettings],
) -> FieldAnswer
    ensures { ChecksBy ReadsRequestResponse settings.now result }
{
    let settings = given_or_return!(settings, no_field(Status::Null));
    checked(read_request_response(settings))
}

/// Whether the settings of a system are valid.
///
/// Refused are, in this order, NULL (`Null`), and a creation timeout whose nanoseconds are a second
/// or more (`BadDuration`).
#[unsafe(no_mangle)]
pub extern "C" fn iox2sd_global_settings_check_at(settings: &[GlobalSettings]) -> FieldAnswer
    ensures { ChecksBy ReadsGlobal settings.now result }
{
    let settings = given_or_return!(settings, no_field(Status::Null));
    checked(read_global(settings))
}

/// How many nodes and ports a publish-subscribe service can have at a time.
#[repr(C)]
#[derive(Clone, Copy, Default)]
pub struct PublishSubscribeCapacities {
    /// How many nodes.
    pub nodes: usize,
    /// How many publishers.
    pub publishers: usize,
    /// How many subscribers.
    pub subscribers: usize,
}

/// How many nodes and ports an event service can have at a time.
#[repr(C)]
#[derive(Clone, Copy, Default)]
pub struct EventCapacities {
    /// How many nodes.
    pub nodes: usize,
    /// How many listeners.
    pub listeners: usize,
    /// How many notifiers.
    pub notifiers: usize,
}

/// How many nodes and ports a request-response service can have at a time.
#[repr(C)]
#[derive(Clone, Copy, Default)]
pub struct RequestResponseCapacities {
    /// How many nodes.
    pub nodes: usize,
    /// How many servers.
    pub servers: usize,
    /// How many clients.
    pub clients: usize,
}

/// How many nodes and ports a blackboard service can have at a time.
#[repr(C)]
#[derive(Clone, Copy, Default)]
pub struct BlackboardCapacities {
    /// How many nodes.
    pub nodes: usize,
    /// How many readers.
    pub readers: usize,
    /// How many writers.
    pub writers: usize,
}

/// The capacities of a publish-subscribe service with these settings; all 0 for NULL.
#[unsafe(no_mangle)]
pub extern "C" fn iox2sd_publish_subscribe_capacities_of_settings_at(
    settings: &[PublishSubscribeSettings],
) -> PublishSubscribeCapacities
    ensures { CapacitiesBy publish_subscribe_capacities
        (record { nodes = 0; publishers = 0; subscribers = 0 }) settings.now result }
{
    let settings = given_or_return!(settings, PublishSubscribeCapacities::default());
    PublishSubscribeCapacities {
        nodes: settings.max_nodes,
        publishers: settings.max_publishers,
        subscribers: settings.max_subscribers,
    }
}

/// The capacities of an event service with these settings; all 0 for NULL.
#[unsafe(no_mangle)]
pub extern "C" fn iox2sd_event_capacities_of_settings_at(
    settings: &[EventSettings],
) -> EventCapacities
    ensures { CapacitiesBy event_capacities (record { nodes = 0; listeners = 0; notifiers = 0 })
        settings.now result }
{
    let settings = given_or_return!(settings, EventCapacities::default());
    EventCapacities {
        nodes: settings.max_nodes,
        listeners: settings.max_listeners,
        notifiers: settings.max_notifiers,
    }
}

/// The capacities of a request-response service with these settings; all 0 for NULL.
#[unsafe(no_mangle)]
pub extern "C" fn iox2sd_request_response_capacities_of_settings_at(
    settings: &[RequestResponseSettings],
) -> RequestResponseCapacities
    ensures { CapacitiesBy request_response_capacities
        (record { nodes = 0; servers = 0; clients = 0 }) settings.now result }
{
    let settings = given_or_return!(settings, RequestResponseCapacities::default());
    RequestResponseCapacities {
        nodes: settings.max_nodes,
        servers: settings.max_servers,
        clients: settings.max_clients,
    }
}

/// The capacities of a blackboard service with these settings, with one writer; all 0 for NULL.
#[unsafe(no_mangle)]
pub extern "C" fn iox2sd_blackboard_capacities_of_settings_at(
    settings: &[BlackboardSettings],
) -> BlackboardCapacities
    ensures { CapacitiesBy blackboard_capacities (record { nodes = 0; readers = 0; writers = 0 })
        settings.now result }
{
    let settings = given_or_return!(settings, BlackboardCapacities::default());
    let fixed = blackboard::StaticConfig::with_settings(&read_blackboard(settings));
    BlackboardCapacities {
        nodes: fixed.max_nodes,
        readers: fixed.max_readers,
        writers: fixed.max_writers,
    }
}

/// The number of chunks, which may be too large.
fn chunks(number: Option<usize>) -> CountAnswer
    ensures { result ≡ counted number }
{
    match number {
        Some(number) => count(Status::Done, number),
        None => count(Status::TooLarge, 0),
    }
}

/// The greatest number of one publisher's samples that can be in use at once, where the publisher
/// loans up to `loaned_samples` of them to be written.
///
/// Refused is a number that would pass 2^64 - 1 (`TooLarge`).
#[unsafe(no_mangle)]
pub extern "C" fn iox2sd_required_amount_of_samples_per_data_segment(
    max_subscribers: usize,
    subscriber_max_buffer_size: usize,
    subscriber_max_borrowed_samples: usize,
    history_size: usize,
    loaned_samples: usize,
) -> CountAnswer
    ensures { Counts (sample_limits (publish_subscribe max_subscribers subscriber_max_buffer_size
        subscriber_max_borrowed_samples history_size) loaned_samples) result }
{
    let config = publish_subscribe::StaticConfig {
        max_subscribers,
        max_publishers: 0,
        max_nodes: 0,
        history_size,
        subscriber_max_buffer_size,
        subscriber_max_borrowed_samples,
        enable_safe_overflow: false,
        message_type_details: MessageTypeDetails::default(),
    };
    chunks(config.required_amount_of_samples_per_data_segment(loaned_samples))
}

/// The greatest number of one client's requests that can be in use at once, where the client loans
/// up to `loaned_requests` of them to be written.
///
/// Refused is a number that would pass 2^64 - 1 (`TooLarge`).
#[unsafe(no_mangle)]
pub extern "C" fn iox2sd_required_amount_of_chunks_per_client_data_segment(
    max_servers: usize,
    max_active_requests_per_client: usize,
    loaned_requests: usize,
) -> CountAnswer
    ensures { Counts (client_limits
        (request_response max_servers 0 max_active_requests_per_client 0 0)
        loaned_requests) result }
{
    let config = request_response::StaticConfig {
        enable_safe_overflow_for_requests: false,
        enable_safe_overflow_for_responses: false,
        enable_fire_and_forget_requests: false,
        max_active_requests_per_client,
        max_loaned_requests: 0,
        max_response_buffer_size: 0,
        max_servers,
        max_clients: 0,
        max_nodes: 0,
        max_borrowed_responses_per_pending_response: 0,
        request_message_type_details: MessageTypeDetails::default(),
        response_message_type_details: MessageTypeDetails::default(),
    };
    chunks(config.required_amount_of_chunks_per_client_data_segment(loaned_requests))
}

/// The greatest number of one server's responses that can be in use at once, where the server loans
/// up to `loaned_responses` of them to be written for each request.
///
/// Refused is a number that would pass 2^64 - 1 (`TooLarge`).
#[unsafe(no_mangle)]
pub extern "C" fn iox2sd_required_amount_of_chunks_per_server_data_segment(
    max_clients: usize,
    max_active_requests_per_client: usize,
    max_response_buffer_size: usize,
    max_borrowed_responses_per_pending_response: usize,
    loaned_responses: usize,
) -> CountAnswer
    ensures { Counts (server_limits (request_response
        0 max_clients max_active_requests_per_client max_response_buffer_size
        max_borrowed_responses_per_pending_response) loaned_responses) result }
{
    let config = request_response::StaticConfig {
        enable_safe_overflow_for_requests: false,
        enable_safe_overflow_for_responses: false,
        enable_fire_and_forget_requests: false,
        max_active_requests_per_client,
        max_loaned_requests: 0,
        max_response_buffer_size,
        max_servers: 0,
        max_clients,
        max_nodes: 0,
        max_borrowed_responses_per_pending_response,
        request_message_type_details: MessageTypeDetails::default(),
        response_message_type_details: MessageTypeDetails::default(),
    };
    chunks(config.required_amount_of_chunks_per_server_data_segment(loaned_responses))
}
