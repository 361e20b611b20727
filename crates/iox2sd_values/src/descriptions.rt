//! What is fixed of a service, as plain values: descriptions of services from their names and
//! settings.
ghost use Rattle.std.specs.Prelude.{◌≡◌, [], Ok};
ghost use Rattle.iox2_config.specs.Hashing.{pattern_number};
ghost use Rattle.iox2sd_common.specs.Ids.{number_of};
ghost use Rattle.iox2sd_values.specs.Descriptions.{c_description, ComparesPatterns, DescribesAs};
ghost use Rattle.iox2sd_values.specs.Descriptions.{publish_subscribe_config, event_config};
ghost use Rattle.iox2sd_values.specs.Descriptions.{request_response_config, blackboard_config};
ghost use Rattle.iox2sd_values.specs.Descriptions.{Fills, FillsOf, FillsNamed, MakesBlackboard};
ghost use Rattle.iox2sd_values.specs.Descriptions.{MakesPublishSubscribe, MakesEvent};
ghost use Rattle.iox2sd_values.specs.Descriptions.{MakesRequestResponse};

use super::refusals::Refusal;
use super::texts::{any_service_name, hash_text};
use iox2_config::hash::{PatternKind, ServiceHash};
use iox2_static::static_config::messaging_pattern::MessagingPattern;
use iox2_static::static_config::{blackboard, event, publish_subscribe, request_response};
use iox2_texts::service_name::ServiceName;
use iox2sd_common::answers::{FlagAnswer, zero_padded};
use iox2sd_common::given_or_return;
use iox2sd_common::id::Id;
use iox2sd_common::read_settings::{
    Field, FieldAnswer, no_field, pattern_of, read_blackboard, read_event, read_publish_subscribe,
    read_request_response,
};
use iox2sd_common::settings::{
    BlackboardSettings, EventSettings, OptionalDuration, OptionalEventId, PublishSubscribeSettings,
    RequestResponseSettings, duration_of, event_id_of,
};
use iox2sd_common::status::Status;

/// What is fixed of a publish-subscribe service, beside the types of its messages.
#[repr(C)]
#[derive(Clone, Copy, Default)]
pub struct PublishSubscribeConfig {
    /// How many subscribers may be attached at once.
    pub max_subscribers: usize,
    /// How many publishers may be attached at once.
    pub max_publishers: usize,
    /// How many nodes may use the service at once.
    pub max_nodes: usize,
    /// How many of the last samples a publisher keeps for subscribers that come later.
    pub history_size: usize,
    /// The capacity of a subscriber's buffer, in samples.
    pub subscriber_max_buffer_size: usize,
    /// How many samples a subscriber may hold at once.
    pub subscriber_max_borrowed_samples: usize,
    /// Whether a new sample replaces the oldest one where a buffer is full.
    pub enable_safe_overflow: bool,
}

/// What is fixed of an event service.
#[repr(C)]
#[derive(Clone, Copy, Default)]
pub struct EventConfig {
    /// How many notifiers may be attached at once.
    pub max_notifiers: usize,
    /// How many listeners may be attached at once.
    pub max_listeners: usize,
    /// How many nodes may use the service at once.
    pub max_nodes: usize,
    /// The greatest number of an event.
    pub event_id_max_value: usize,
    /// The longest time that may pass between two events, if there is such a limit.
    pub deadline: OptionalDuration,
    /// The number of the event that reports a new notifier, if any does.
    pub notifier_created_event: OptionalEventId,
    /// The number of the event that reports a notifier that left, if any does.
    pub notifier_dropped_event: OptionalEventId,
    /// The number of the event that reports a notifier whose node died, if any does.
    pub notifier_dead_event: OptionalEventId,
}

/// What is fixed of a request-response service, beside the types of its messages.
#[repr(C)]
#[derive(Clone, Copy, Default)]
pub struct RequestResponseConfig {
    /// How many requests of one client may be open at each server at once.
    pub max_active_requests_per_client: usize,
    /// How many requests a client may have under way, taken and not yet sent.
    pub max_loaned_requests: usize,
    /// The capacity of a client's buffer for the responses to one request.
    pub max_response_buffer_size: usize,
    /// How many servers may be attached at once.
    pub max_servers: usize,
    /// How many clients may be attached at once.
    pub max_clients: usize,
    /// How many nodes may use the service at once.
    pub max_nodes: usize,
    /// How many responses to one request a client may hold at once.
    pub max_borrowed_responses_per_pending_response: usize,
    /// Whether a new request replaces the oldest one where a server's buffer is full.
    pub enable_safe_overflow_for_requests: bool,
    /// Whether a new response replaces the oldest one where a client's buffer is full.
    pub enable_safe_overflow_for_responses: bool,
    /// Whether a client may send a request and take no response.
    pub enable_fire_and_forget_requests: bool,
}

/// What is fixed of a blackboard service, beside the type of its keys.
#[repr(C)]
#[derive(Clone, Copy, Default)]
pub struct BlackboardConfig {
    /// How many readers may be attached at once.
    pub max_readers: usize,
    /// How many writers may be attached at once.
    pub max_writers: usize,
    /// How many nodes may use the service at once.
    pub max_nodes: usize,
}

/// What is fixed of a service, beside its attributes and the types of its messages.
#[repr(C)]
#[derive(Clone, Copy)]
pub struct ServiceDescription {
    /// The bytes of the service's name, and then zeros.
    pub name: [u8; 256],
    /// How many bytes the name has, from 1 to 255.
    pub name_length: usize,
    /// The id of the service.
    pub id: Id,
    /// The bytes of the hash text, and then zeros.
    pub hash: [u8; 64],
    /// How many bytes the hash text has, from 1 to 64.
    pub hash_length: usize,
    /// The number of the pattern.
    pub pattern: u64,
    /// What is fixed of a publish-subscribe service; all 0 for another pattern, as the next three
    /// are for others than theirs.
    pub publish_subscribe: PublishSubscribeConfig,
    /// What is fixed of an event service.
    pub event: EventConfig,
    /// What is fixed of a request-response service.
    pub request_response: RequestResponseConfig,
    /// What is fixed of a blackboard service.
    pub blackboard: BlackboardConfig,
}

/// The number of a pattern.
fn kind_number(kind: PatternKind) -> u64
    ensures { result ≡ pattern_number kind }
{
    kind as u64
}

/// What is fixed of a publish-subscribe service, or zeros.
fn publish_subscribe_config(pattern: &MessagingPattern) -> PublishSubscribeConfig
    ensures { result ≡ publish_subscribe_config pattern.now }
{
    match pattern {
        MessagingPattern::PublishSubscribe(config) => PublishSubscribeConfig {
            max_subscribers: config.max_subscribers,
            max_publishers: config.max_publishers,
            max_nodes: config.max_nodes,
            history_size: config.history_size,
            subscriber_max_buffer_size: config.subscriber_max_buffer_size,
            subscriber_max_borrowed_samples: config.subscriber_max_borrowed_samples,
            enable_safe_overflow: config.enable_safe_overflow,
        },
        _ => PublishSubscribeConfig::default(),
    }
}

/// What is fixed of an event service, or zeros.
fn event_config(pattern: &MessagingPattern) -> EventConfig
    ensures { result ≡ event_config pattern.now }
{
    match pattern {
        MessagingPattern::Event(config) => EventConfig {
            max_notifiers: config.max_notifiers,
            max_listeners: config.max_listeners,
            max_nodes: config.max_nodes,
            event_id_max_value: config.event_id_max_value,
            deadline: duration_of(config.deadline()),
            notifier_created_event: event_id_of(config.notifier_created_event),
            notifier_dropped_event: event_id_of(config.notifier_dropped_event),
            notifier_dead_event: event_id_of(config.notifier_dead_event),
        },
        _ => EventConfig::default(),
    }
}

/// What is fixed of a request-response service, or zeros.
fn request_response_config(pattern: &MessagingPattern) -> RequestResponseConfig
    ensures { result ≡ request_response_config pattern.now }
{
    match pattern {
        MessagingPattern::RequestResponse(config) => RequestResponseConfig {
            max_active_requests_per_client: config.max_active_requests_per_client,
            max_loaned_requests: config.max_loaned_requests,
            max_response_buffer_size: config.max_response_buffer_size,
            max_servers: config.max_servers,
            max_clients: config.max_clients,
            max_nodes: config.max_nodes,
            max_borrowed_responses_per_pending_response: config.max_borrowed_responses_per_pending_response,
            enable_safe_overflow_for_requests: config.enable_safe_overflow_for_requests,
            enable_safe_overflow_for_responses: config.enable_safe_overflow_for_responses,
            enable_fire_and_forget_requests: config.enable_fire_and_forget_requests,
        },
        _ => RequestResponseConfig::default(),
    }
}

/// What is fixed of a blackboard service, or zeros.
fn blackboard_config(pattern: &MessagingPattern) -> BlackboardConfig
    ensures { result ≡ blackboard_config pattern.now }
{
    match pattern {
        MessagingPattern::Blackboard(config) => BlackboardConfig {
            max_readers: config.max_readers,
            max_writers: config.max_writers,
            max_nodes: config.max_nodes,
        },
        _ => BlackboardConfig::default(),
    }
}

/// The description of the service that has these. Not inlined, it takes no stack while the hash
/// text is made.
#[inline(never)]
fn described(
    name: &ServiceName,
    hash: &ServiceHash,
    pattern: &MessagingPattern,
    id: Id,
) -> Result<ServiceDescription, FieldAnswer>
    ensures { result ≡ Ok (c_description (record {
      name = name.now;
      id = number_of id;
      hash = hash.now;
      attributes = [];
      pattern = pattern.now;
    }) id) }
{
    let name = name.as_str().as_bytes();
    let hash = hash.as_str().as_bytes();
    // Made here as a `Result`: to wrap it later would take as much of the stack again.
    Ok(ServiceDescription {
        name: zero_padded(name),
        name_length: name.len(),
        id,
        hash: zero_padded(hash),
        hash_length: hash.len(),
        pattern: kind_number(pattern.kind()),
        publish_subscribe: publish_subscribe_config(pattern),
        event: event_config(pattern),
        request_response: request_response_config(pattern),
        blackboard: blackboard_config(pattern),
    })
}

/// The description of a service with this name and this pattern, each of which may be refused.
fn describe(
    name: &Result<ServiceName, Refusal>,
    pattern: &Result<MessagingPattern, Field>,
    id: Id,
) -> Result<ServiceDescription, FieldAnswer>
    ensures { DescribesAs name.now pattern.now id result }
{
    let name = match name {
        Ok(name) => name,
        Err(refusal) => return Err(refusal.field()),
    };
    match pattern {
        Ok(pattern) => {
            let hash = match hash_text(pattern.kind(), name) {
                Ok(hash) => hash,
                Err(refusal) => return Err(refusal.field()),
            };
            described(name, &hash, pattern, id)
        }
        Err(field) => Err(field.answer()),
    }
}

/// Fills the first struct with what was made, or leaves it as it is.
fn fill(
    made: &Result<ServiceDescription, FieldAnswer>,
    out: &mut [ServiceDescription],
) -> FieldAnswer
    ensures { Fills out.old made.now result out.new }
{
    match out {
        [] => no_field(Status::Null),
        [first, ..] => match made {
            Ok(description) => {
                *first = *description;
                no_field(Status::Done)
            }
            Err(answer) => *answer,
        },
    }
}

/// Describes the service with this pattern, or reports why not.
fn describe_as(
    pattern: &Result<MessagingPattern, Field>,
    name: &[u8],
    internal: bool,
    id: Id,
    out: &mut [ServiceDescription],
) -> FieldAnswer
    ensures { FillsOf pattern.now internal name.now id out.old result out.new }
{
    let name = any_service_name(name, internal);
    fill(&describe(&name, pattern, id), out)
}

/// The pattern of a publish-subscribe service with these settings, or the first invalid field.
#[tactic(auto, unfolding(crate::specs::Descriptions::MakesPublishSubscribe))]
fn publish_subscribe_pattern(settings: &PublishSubscribeSettings) -> Result<MessagingPattern, Field>
    ensures { MakesPublishSubscribe settings.now result }
{
    let settings = read_publish_subscribe(settings)?;
    let config = publish_subscribe::StaticConfig::with_settings(&settings);
    Ok(MessagingPattern::PublishSubscribe(config))
}

/// Describes a publish-subscribe service. Its name may be one of the system's own where `internal`
/// is true, and is one that a user gives where it is false.
///
/// Refused are, in this order, NULL (`Null`); a name that is not UTF-8 (`NotUtf8`); one that
/// `iox2sd_service_name_check`, or `iox2sd_internal_service_name_check` where `internal` is true,
/// refuses (`BadServiceName`); settings that `iox2sd_publish_subscribe_settings_check_at` refuses,
/// for the same cause and field; and a hash text that cannot be the name of a file
/// (`IllegalHash`). Then the struct is as it was.
#[unsafe(no_mangle)]
pub extern "C" fn iox2sd_describe_publish_subscribe_at(
    settings: &[PublishSubscribeSettings],
    name: &[u8],
    internal: bool,
    id: Id,
    out: &mut [ServiceDescription],
) -> FieldAnswer
    ensures { FillsNamed MakesPublishSubscribe settings.now internal name.now id out.old result
        out.new }
{
    let settings = given_or_return!(settings, no_field(Status::Null));
    let pattern = publish_subscribe_pattern(settings);
    describe_as(&pattern, name, internal, id, out)
}

/// The pattern of an event service with these settings, or the first invalid field.
#[tactic(auto, unfolding(crate::specs::Descriptions::MakesEvent))]
fn event_pattern(settings: &EventSettings) -> Result<MessagingPattern, Field>
    ensures { MakesEvent settings.now result }
{
    let settings = read_event(settings)?;
    Ok(MessagingPattern::Event(event::StaticConfig::with_settings(&settings)))
}

/// Describes an event service. Names are read, and calls refused, as of a publish-subscribe
/// service.
#[unsafe(no_mangle)]
pub extern "C" fn iox2sd_describe_event_at(
    settings: &[EventSettings],
    name: &[u8],
    internal: bool,
    id: Id,
    out: &mut [ServiceDescription],
) -> FieldAnswer
    ensures { FillsNamed MakesEvent settings.now internal name.now id out.old result
        out.new }
{
    let settings = given_or_return!(settings, no_field(Status::Null));
    describe_as(&event_pattern(settings), name, internal, id, out)
}

/// The pattern of a request-response service with these settings, or the first invalid field.
#[tactic(auto, unfolding(crate::specs::Descriptions::MakesRequestResponse))]
fn request_response_pattern(settings: &RequestResponseSettings) -> Result<MessagingPattern, Field>
    ensures { MakesRequestResponse settings.now result }
{
    let settings = read_request_response(settings)?;
    Ok(MessagingPattern::RequestResponse(request_response::StaticConfig::with_settings(&settings)))
}

/// Describes a request-response service. Names are read, and calls refused, as of a
/// publish-subscribe service.
#[unsafe(no_mangle)]
pub extern "C" fn iox2sd_describe_request_response_at(
    settings: &[RequestResponseSettings],
    name: &[u8],
    internal: bool,
    id: Id,
    out: &mut [ServiceDescription],
) -> FieldAnswer
    ensures { FillsNamed MakesRequestResponse settings.now internal name.now id out.old result
        out.new }
{
    let settings = given_or_return!(settings, no_field(Status::Null));
    describe_as(&request_response_pattern(settings), name, internal, id, out)
}

/// The pattern of a blackboard service with these settings, which are always valid.
#[tactic(auto, unfolding(crate::specs::Descriptions::MakesBlackboard))]
fn blackboard_pattern(settings: &BlackboardSettings) -> Result<MessagingPattern, Field>
    ensures { MakesBlackboard settings.now result }
{
    let settings = read_blackboard(settings);
    Ok(MessagingPattern::Blackboard(blackboard::StaticConfig::with_settings(&settings)))
}

/// Describes a blackboard service. Names are read, and calls refused, as of a publish-subscribe
/// service, but for the settings, which are always valid.
#[unsafe(no_mangle)]
pub extern "C" fn iox2sd_describe_blackboard_at(
    settings: &[BlackboardSettings],
    name: &[u8],
    internal: bool,
    id: Id,
    out: &mut [ServiceDescription],
) -> FieldAnswer
    ensures { FillsNamed MakesBlackboard settings.now internal name.now id out.old result
        out.new }
{
    let settings = given_or_return!(settings, no_field(Status::Null));
    describe_as(&blackboard_pattern(settings), name, internal, id, out)
}

/// Whether two numbers are those of one pattern. Refused is a number that is not that of a pattern
/// (`UnknownPattern`).
#[unsafe(no_mangle)]
pub extern "C" fn iox2sd_has_same_messaging_pattern(left: u64, right: u64) -> FlagAnswer
    ensures { ComparesPatterns left right result }
{
    match (pattern_of(left), pattern_of(right)) {
        (Some(left), Some(right)) => FlagAnswer::of(Ok(left == right)),
        _ => FlagAnswer::of(Err(Status::UnknownPattern)),
    }
}
