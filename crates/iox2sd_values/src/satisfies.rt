//! Whether a service meets what an opener requires.
ghost use Rattle.std.specs.Prelude.{◌≡◌};
ghost use Rattle.iox2sd_values.specs.Satisfies.{setting_number, satisfied, ReadsFixed, settings_of};
ghost use Rattle.iox2sd_values.specs.Satisfies.{ComparesEvents, SatisfiesPublishSubscribe};
ghost use Rattle.iox2sd_values.specs.Satisfies.{SatisfiesEvent, SatisfiesRequestResponse};
ghost use Rattle.iox2sd_values.specs.Satisfies.{SatisfiesBlackboard, fixed_publish_subscribe};
ghost use Rattle.iox2sd_values.specs.Satisfies.{fixed_request_response, fixed_blackboard};

use super::descriptions::{
    BlackboardConfig, EventConfig, PublishSubscribeConfig, RequestResponseConfig,
};
use iox2_config::types::{MessageTypeDetails, TypeDetail};
use iox2_static::static_config::setting::Setting;
use iox2_static::static_config::{blackboard, event, publish_subscribe, request_response};
use iox2sd_common::given_or_return;
use iox2sd_common::read_settings::{Field, FieldAnswer, no_field, read_event};
use iox2sd_common::settings::EventSettings;
use iox2sd_common::status::Status;

/// The number of a setting that C sees: from 8 on in their order, but for the deadline.
fn setting_number(setting: Setting) -> u32
    ensures { result ≡ setting_number setting }
{
    let place = setting as u32;
    match setting {
        Setting::Deadline => 2,
        _ if place < Setting::Deadline as u32 => place + 8,
        _ => place + 7,
    }
}

/// The answer on the first setting that is not met.
fn satisfied(unmet: Option<Setting>) -> FieldAnswer
    ensures { result ≡ satisfied unmet }
{
    match unmet {
        None => no_field(Status::Done),
        Some(first) => FieldAnswer {
            status: Status::Unmet.code(),
            field: setting_number(first),
            cause: 0,
        },
    }
}

/// What is fixed of a publish-subscribe service, beside the types of its messages.
fn fixed_publish_subscribe(config: &PublishSubscribeConfig) -> publish_subscribe::StaticConfig
    ensures { result ≡ fixed_publish_subscribe config.now }
{
    publish_subscribe::StaticConfig {
        max_subscribers: config.max_subscribers,
        max_publishers: config.max_publishers,
        max_nodes: config.max_nodes,
        history_size: config.history_size,
        subscriber_max_buffer_size: config.subscriber_max_buffer_size,
        subscriber_max_borrowed_samples: config.subscriber_max_borrowed_samples,
        enable_safe_overflow: config.enable_safe_overflow,
        message_type_details: MessageTypeDetails::default(),
    }
}

/// Whether a publish-subscribe service meets what an opener requires: each number is at least the
/// required one, and each choice the same.
///
/// Refused are, in this order, NULL (`Null`), and a service that does not (`Unmet`), with the first
/// setting that it does not meet, in the order of the structs.
#[unsafe(no_mangle)]
pub extern "C" fn iox2sd_publish_subscribe_satisfies_at(
    service: &[PublishSubscribeConfig],
    required: &[PublishSubscribeConfig],
) -> FieldAnswer
    ensures { SatisfiesPublishSubscribe service.now required.now result }
{
    let service = given_or_return!(service, no_field(Status::Null));
    let required = given_or_return!(required, no_field(Status::Null));
    satisfied(fixed_publish_subscribe(service).first_unmet(&fixed_publish_subscribe(required)))
}

/// The settings by which this is fixed of an event service.
fn settings_of(config: &EventConfig) -> EventSettings
    ensures { result ≡ settings_of config.now }
{
    EventSettings {
        max_listeners: config.max_listeners,
        max_notifiers: config.max_notifiers,
        max_nodes: config.max_nodes,
        event_id_max_value: config.event_id_max_value,
        deadline: config.deadline,
        notifier_created_event: config.notifier_created_event,
        notifier_dropped_event: config.notifier_dropped_event,
        notifier_dead_event: config.notifier_dead_event,
    }
}

/// What is fixed of an event service, or the field that is invalid.
fn read_event_config(config: &EventConfig) -> Result<event::StaticConfig, Field>
    ensures { ReadsFixed config.now result }
{
    let settings = read_event(&settings_of(config))?;
    Ok(event::StaticConfig::with_settings(&settings))
}

/// The answer on what is fixed of an event service, and on what an opener requires.
fn compare_events(service: &EventConfig, required: &EventConfig) -> FieldAnswer
    ensures { ComparesEvents service.now required.now result }
{
    let service = match read_event_config(service) {
        Ok(service) => service,
        Err(field) => return field.answer(),
    };
    match read_event_config(required) {
        Ok(required) => satisfied(service.first_unmet(&required)),
        Err(field) => field.answer(),
    }
}

/// Whether an event service meets what an opener requires: each number is at least the required
/// one, and the deadline and each event are the same.
///
/// Refused are, in this order, NULL (`Null`), a deadline whose nanoseconds are a second or more
/// (`BadDuration`), that of the service first, and a service that does not (`Unmet`), with the
/// first setting that it does not meet, in the order of the structs.
#[unsafe(no_mangle)]
pub extern "C" fn iox2sd_event_satisfies_at(
    service: &[EventConfig],
    required: &[EventConfig],
) -> FieldAnswer
    ensures { SatisfiesEvent service.now required.now result }
{
    let service = given_or_return!(service, no_field(Status::Null));
    let required = given_or_return!(required, no_field(Status::Null));
    compare_events(service, required)
}

/// What is fixed of a request-response service, beside the types of its messages.
fn fixed_request_response(config: &RequestResponseConfig) -> request_response::StaticConfig
    ensures { result ≡ fixed_request_response config.now }
{
    request_response::StaticConfig {
        enable_safe_overflow_for_requests: config.enable_safe_overflow_for_requests,
        enable_safe_overflow_for_responses: config.enable_safe_overflow_for_responses,
        enable_fire_and_forget_requests: config.enable_fire_and_forget_requests,
        max_active_requests_per_client: config.max_active_requests_per_client,
        max_loaned_requests: config.max_loaned_requests,
        max_response_buffer_size: config.max_response_buffer_size,
        max_servers: config.max_servers,
        max_clients: config.max_clients,
        max_nodes: config.max_nodes,
        max_borrowed_responses_per_pending_response: config.max_borrowed_responses_per_pending_response,
        request_message_type_details: MessageTypeDetails::default(),
        response_message_type_details: MessageTypeDetails::default(),
    }
}

/// Whether a request-response service meets what an opener requires, as of a publish-subscribe
/// service. The choices are compared before the numbers.
#[unsafe(no_mangle)]
pub extern "C" fn iox2sd_request_response_satisfies_at(
    service: &[RequestResponseConfig],
    required: &[RequestResponseConfig],
) -> FieldAnswer
    ensures { SatisfiesRequestResponse service.now required.now result }
{
    let service = given_or_return!(service, no_field(Status::Null));
    let required = given_or_return!(required, no_field(Status::Null));
    satisfied(fixed_request_response(service).first_unmet(&fixed_request_response(required)))
}

/// What is fixed of a blackboard service, beside the type of its keys.
fn fixed_blackboard(config: &BlackboardConfig) -> blackboard::StaticConfig
    ensures { result ≡ fixed_blackboard config.now }
{
    blackboard::StaticConfig {
        max_readers: config.max_readers,
        max_writers: config.max_writers,
        max_nodes: config.max_nodes,
        type_details: TypeDetail::default(),
    }
}

/// Whether a blackboard service meets what an opener requires, as of a publish-subscribe service.
#[unsafe(no_mangle)]
pub extern "C" fn iox2sd_blackboard_satisfies_at(
    service: &[BlackboardConfig],
    required: &[BlackboardConfig],
) -> FieldAnswer
    ensures { SatisfiesBlackboard service.now required.now result }
{
    let service = given_or_return!(service, no_field(Status::Null));
    let required = given_or_return!(required, no_field(Status::Null));
    satisfied(fixed_blackboard(service).first_unmet(&fixed_blackboard(required)))
}
