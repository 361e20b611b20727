//! Replies of a service's description.
ghost use Rattle.std.specs.Prelude.{◌≡◌, None, Some, IfErr, IfNone, IfOk, IfSome, Ok, Err};
ghost use Rattle.service_descriptions.specs.Descriptions.{details_in, details_of};
ghost use Rattle.service_descriptions.specs.Descriptions.{ServesCompatible, ServesLayout};
ghost use Rattle.service_descriptions.specs.Descriptions.{ServesMessages, ServesPlaces};
ghost use Rattle.service_descriptions.specs.Descriptions.{ServesVerify};

use super::command::MessagePart;
use super::reply::Reply;
use iox2_config::types::MessageTypeDetails;
use iox2_static::static_config::StaticConfig;
use iox2_static::static_config::messaging_pattern::MessagingPattern;
use iox2_texts::attribute::AttributeVerifier;

/// The details of a kind of messages; `None` where the pattern has no such messages.
fn details_in(pattern: &MessagingPattern, part: MessagePart) -> Option<&MessageTypeDetails>
    ensures some { IfSome result (λ details. details_in pattern.now part ≡ Some details.now) }
    ensures none { IfNone result (details_in pattern.now part ≡ None) }
{
    match pattern {
        MessagingPattern::PublishSubscribe(config) => match part {
            MessagePart::Message => Some(&config.message_type_details),
            _ => None,
        },
        MessagingPattern::RequestResponse(config) => match part {
            MessagePart::Request => Some(&config.request_message_type_details),
            MessagePart::Response => Some(&config.response_message_type_details),
            MessagePart::Message => None,
        },
        _ => None,
    }
}

/// The details of a kind of messages, or the reply that says why there are none.
fn details_of(about: &Option<StaticConfig>, part: MessagePart) -> Result<&MessageTypeDetails, Reply>
    ensures ok { IfOk result (λ details. details_of about.now part ≡ Ok details.now) }
    ensures err { IfErr result (λ reply. details_of about.now part ≡ Err reply) }
{
    match about {
        Some(description) => match details_in(description.messaging_pattern(), part) {
            Some(details) => Ok(details),
            None => Err(Reply::WrongPattern),
        },
        None => Err(Reply::NoDescription),
    }
}

/// Verifies the attributes.
pub(super) fn verify(about: &Option<StaticConfig>, required: &AttributeVerifier) -> Reply
    ensures { ServesVerify required.now about.now result }
{
    let Some(description) = about else {
        return Reply::NoDescription;
    };
    match required.verify_requirements(description.attributes()) {
        Ok(()) => Reply::Verified,
        Err(fault) => Reply::Refused(fault),
    }
}

/// The layout of a message with this many elements.
pub(super) fn layout(about: &Option<StaticConfig>, part: MessagePart, n: usize) -> Reply
    ensures { ServesMessages (ServesLayout n) about.now part result }
{
    let details = match details_of(about, part) {
        Ok(details) => details,
        Err(reply) => return reply,
    };
    if !details.has_alignments() {
        return Reply::NoAlignments;
    }
    match details.sample_layout(n) {
        Some(room) => Reply::Layout(room),
        None => Reply::NoLayout,
    }
}

/// The offsets of user header and payload in a message with its header at this offset.
pub(super) fn places(about: &Option<StaticConfig>, part: MessagePart, header: usize) -> Reply
    ensures { ServesMessages (ServesPlaces header) about.now part result }
{
    let details = match details_of(about, part) {
        Ok(details) => details,
        Err(reply) => return reply,
    };
    if !details.has_alignments() {
        return Reply::NoAlignments;
    }
    match details.places(header) {
        Some(places) => Reply::Places(places.user_header, places.payload),
        None => Reply::NoPlaces,
    }
}

/// Whether an opener with these details may use the service.
pub(super) fn compatible(
    about: &Option<StaticConfig>,
    part: MessagePart,
    opener: &MessageTypeDetails,
) -> Reply
    ensures { ServesMessages (ServesCompatible opener.now) about.now part result }
{
    match details_of(about, part) {
        Ok(details) => Reply::Compatible(opener.is_compatible_to(details)),
        Err(reply) => reply,
    }
}
