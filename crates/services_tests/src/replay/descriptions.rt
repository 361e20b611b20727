//! Commands on the description of a service.

use super::serving::{new_service, serve};
use service_descriptions::attribute::{
    AttributeKey, AttributeSet, AttributeValue, AttributeVerifier,
};
use service_descriptions::config::Config;
use service_descriptions::container::Role;
use service_descriptions::hash::Sha1Hasher;
use service_descriptions::identifiers::{UniqueNodeId, UniqueServiceId};
use service_descriptions::replay::{Command, MessagePart, ServiceState};
use service_descriptions::service_name::ServiceName;
use service_descriptions::static_config::StaticConfig;
use service_descriptions::types::{MessageTypeDetails, TypeDetail, TypeVariant};
use std::alloc::{AllocError, Global};
use std::test::Fail;

/// A publish-subscribe service with these messages and the attribute (a, 1).
fn described(messages: MessageTypeDetails) -> Option<StaticConfig> {
    let name = ServiceName::new("a").ok()?;
    let id = UniqueServiceId::new(1, 0, 0, 1);
    let config = Config::default();
    let made = StaticConfig::new_publish_subscribe::<Sha1Hasher>(&name, &config, id);
    let mut description = made.ok()?;
    if description.is_publish_subscribe() {
        description.publish_subscribe_mut().message_type_details = messages;
    }
    let mut attributes = AttributeSet::new();
    let key = AttributeKey::new(b"a").ok()?;
    let value = AttributeValue::new(b"1").ok()?;
    attributes.add(&key, &value).ok()?;
    Some(description.with_attributes(&attributes))
}

/// A request-response service whose requests are three numbers, and whose responses are bytes.
fn of_requests() -> Option<StaticConfig> {
    let name = ServiceName::new("a").ok()?;
    let id = UniqueServiceId::new(1, 0, 0, 1);
    let config = Config::default();
    let made = StaticConfig::new_request_response::<Sha1Hasher>(&name, &config, id);
    let mut description = made.ok()?;
    let (requests, responses) = (eights()?, bytes()?);
    if description.is_request_response() {
        let settings = description.request_response_mut();
        settings.request_message_type_details = requests;
        settings.response_message_type_details = responses;
    }
    Some(description)
}

/// Describes the service so.
fn describe(
    state: &mut ServiceState,
    description: Option<StaticConfig>,
) -> Result<(), &'static str> {
    let Some(description) = description else {
        return Err("no description");
    };
    if description.messaging_pattern().kind() != state.kind() {
        return Err("another pattern");
    }
    state.describe(description);
    Ok(())
}

/// Details of size 8 with this alignment.
fn eight(alignment: usize) -> Option<TypeDetail> {
    TypeDetail::from_parts(TypeVariant::FixedSize, "i64", 8, alignment).ok()
}

/// Messages of three numbers of 8 bytes.
fn eights() -> Option<MessageTypeDetails> {
    MessageTypeDetails::from::<i64, i64, i64>(TypeVariant::FixedSize).ok()
}

/// Messages of bytes alone.
fn bytes() -> Option<MessageTypeDetails> {
    MessageTypeDetails::from::<(), (), u8>(TypeVariant::Dynamic).ok()
}

/// The same with greater alignments.
fn opener() -> Option<MessageTypeDetails> {
    let header = eight(8)?;
    let user_header = eight(16)?;
    let payload = eight(16)?;
    Some(MessageTypeDetails {
        header,
        user_header,
        payload,
    })
}

/// What requires the key b.
fn requires_b() -> Option<AttributeVerifier> {
    let b = AttributeKey::new(b"b").ok()?;
    AttributeVerifier::new().require_key(&b).ok()
}

/// Before there is a description.
fn undescribed(
    alloc: Global,
    state: &mut ServiceState,
    out: &mut Vec<u8>,
) -> Result<(), AllocError> {
    if let Some(node) = UniqueNodeId::new(1, 0, 0, 1) {
        serve(alloc, state, &[Command::Register(node)], out)?;
    }
    let commands = [
        Command::Layout(MessagePart::Request, 1),
        Command::Places(MessagePart::Message, 0),
        Command::Compatible(MessagePart::Message, MessageTypeDetails::default()),
        Command::Verify(AttributeVerifier::new()),
        Command::List(Role::Node),
        Command::Count(Role::Node),
    ];
    serve(alloc, state, &commands, out)
}

/// With the description of the defaults.
fn of_defaults(
    alloc: Global,
    state: &mut ServiceState,
    out: &mut Vec<u8>,
) -> Result<(), AllocError> {
    let layout = Command::Layout(MessagePart::Message, 1);
    serve(alloc, state, &[layout], out)?;
    let layout = Command::Layout(MessagePart::Request, 1);
    serve(alloc, state, &[layout], out)?;
    let places = Command::Places(MessagePart::Message, 0);
    serve(alloc, state, &[places], out)?;
    let of_requests = [
        Command::Places(MessagePart::Request, 0),
        Command::Compatible(MessagePart::Request, MessageTypeDetails::default()),
    ];
    serve(alloc, state, &of_requests, out)
}

/// With that of three numbers: a layout, and places for headers at these places.
fn of_eights(alloc: Global, state: &mut ServiceState, out: &mut Vec<u8>) -> Result<(), AllocError> {
    for elements in [2, usize::MAX] {
        let layout = Command::Layout(MessagePart::Message, elements);
        serve(alloc, state, &[layout], out)?;
    }
    for header in [0, 18446744073709551592, 18446744073709551600] {
        let places = Command::Places(MessagePart::Message, header);
        serve(alloc, state, &[places], out)?;
    }
    Ok(())
}

/// With that of three numbers: an opener, and what verifiers say. The handle that the first command
/// was answered with is still named.
fn for_openers(
    alloc: Global,
    state: &mut ServiceState,
    out: &mut Vec<u8>,
) -> Result<(), AllocError> {
    if let Some(types) = eights() {
        let compatible = Command::Compatible(MessagePart::Message, types);
        serve(alloc, state, &[compatible], out)?;
    }
    if let Some(types) = opener() {
        let compatible = Command::Compatible(MessagePart::Message, types);
        serve(alloc, state, &[compatible], out)?;
    }
    if let Some(required) = requires_b() {
        serve(alloc, state, &[Command::Verify(required)], out)?;
    }
    let nothing = AttributeVerifier::new();
    serve(alloc, state, &[Command::Verify(nothing)], out)?;
    serve(alloc, state, &[Command::Deregister(0)], out)
}

/// The description changes between calls.
fn serve_all(alloc: Global, state: &mut ServiceState, out: &mut Vec<u8>) -> Result<(), Fail> {
    undescribed(alloc, state, out)?;
    describe(state, described(MessageTypeDetails::default()))?;
    of_defaults(alloc, state, out)?;
    describe(state, described(eights().ok_or("legal names")?))?;
    of_eights(alloc, state, out)?;
    for_openers(alloc, state, out)?;
    Ok(())
}

#[test]
fn a_service_is_described_between_calls(rt: HostRuntime) -> Result<(), Fail> {
    let mut state = new_service(rt.alloc(), "service publish-subscribe 9 2 2 2")?;
    let mut out = Vec::new(rt.alloc());
    serve_all(rt.alloc(), &mut state, &mut out)?;
    assert_eq!(rt;
        out.as_slice(),
        b"handle 0 0\nno-description\nno-description\nno-description\nno-description\nwrong-pattern\nwrong-pattern\nno-alignments\nwrong-pattern\nno-alignments\nwrong-pattern\nwrong-pattern\nlayout 48 8\nno-layout\nplaces 8 16\nplaces 18446744073709551600 18446744073709551608\nno-places\ncompatible\nincompatible\nrefused AttributeVerificationError::NonExistingKey(\"b\")\nverified\nno-owners\n".as_slice()
    );
    Ok(())
}

/// Each part of an exchange has messages of its own.
fn of_exchange(
    alloc: Global,
    state: &mut ServiceState,
    out: &mut Vec<u8>,
) -> Result<(), AllocError> {
    let layouts = [
        Command::Layout(MessagePart::Request, 1),
        Command::Layout(MessagePart::Response, 4),
        Command::Layout(MessagePart::Message, 1),
        Command::Places(MessagePart::Request, 0),
        Command::Places(MessagePart::Response, 0),
    ];
    serve(alloc, state, &layouts, out)?;
    for part in [MessagePart::Request, MessagePart::Response] {
        if let Some(types) = bytes() {
            serve(alloc, state, &[Command::Compatible(part, types)], out)?;
        }
    }
    Ok(())
}

#[test]
fn requests_and_responses_have_messages_of_their_own(rt: HostRuntime) -> Result<(), Fail> {
    let mut state = new_service(rt.alloc(), "service request-response 9 2 2 2")?;
    let mut out = Vec::new(rt.alloc());
    describe(&mut state, of_requests())?;
    of_exchange(rt.alloc(), &mut state, &mut out)?;
    assert_eq!(rt;
        out.as_slice(),
        b"layout 40 8\nlayout 4 1\nwrong-pattern\nplaces 8 16\nplaces 0 0\nincompatible\ncompatible\n".as_slice()
    );
    Ok(())
}
