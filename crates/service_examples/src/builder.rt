//! A service builder: opens a service that its creator has described.
ghost use Rattle.std.specs.Prelude.{◌↔◌, IsTrue, OnErr, IfOk, IfErr};
ghost use Rattle.iox2_config.specs.Blocks.{MayOpen};
ghost use Rattle.service_examples.specs.Opening.{LaysOut, Opens, Refuses};
ghost use Rattle.service_examples.specs.Unchanged.{SameAttached};

use crate::described::is_as_described;
use iox2_config::types::{MessageTypeDetails, SampleLayout};
use iox2_container::container::ContainerHandle;
use iox2_dynamic::dynamic_config::{DynamicConfig, RegisterNodeResult};
use iox2_ids::identifiers::UniqueNodeId;
use iox2_static::static_config::setting::Setting;
use iox2_static::static_config::{StaticConfig, publish_subscribe};
use iox2_texts::attribute::{AttributeVerificationError, AttributeVerifier};

/// What an opener wants of a publish-subscribe service.
#[derive(Debug, Drop)]
pub struct Opener {
    /// The attributes that the service must have.
    pub verifier: AttributeVerifier,
    /// The settings that it must have, with the types of the opener's messages.
    pub required: publish_subscribe::StaticConfig,
    /// How many elements the payload of a message has.
    pub elements: usize,
    /// The node that opens the service.
    pub node: UniqueNodeId,
}

/// A service that was opened.
#[derive(Clone, Copy, Debug)]
pub struct OpenedService {
    /// The handle of the opener's node.
    pub node: ContainerHandle,
    /// The layout of a message, in which all its parts lie as the service and the opener align
    /// them.
    pub message: SampleLayout,
}

/// Why a service was not opened. The first cause is reported, and nothing is registered.
#[derive(Debug, Drop, PartialEq, Eq)]
pub enum OpenError {
    /// It is not described as a publish-subscribe service.
    IncompatibleMessagingPattern,
    /// It has another pattern, or other capacities, than its description says.
    NotAsDescribed,
    /// It lacks an attribute that the opener requires.
    IncompatibleAttributes(AttributeVerificationError),
    /// The opener's types were not given, or do not suit those of the service.
    IncompatibleTypes,
    /// This setting is not what the opener requires.
    UnmetSetting(Setting),
    /// A message would need more than 2^63 - 1 bytes.
    MessageTooLarge,
    /// The node was not registered.
    NodeRefused(RegisterNodeResult),
}

/// Opens the service with this description: verifies its attributes, compares the types and the
/// settings, lays out a message, and registers the opener's node.
pub fn open_service(
    description: &StaticConfig,
    service: &mut DynamicConfig,
    opener: &Opener,
) -> Result<OpenedService, OpenError>
    ensures opened { IfOk result (λ opened.
        Opens description.now opener.now service.old opened service.new) }
    ensures cause { IfErr result (Refuses description.now opener.now service.old) }
    ensures unchanged { OnErr result (SameAttached service.old service.new) }
{
    let message = room_for(description, service, opener)?;
    match service.register_node_id(opener.node) {
        Ok(node) => Ok(OpenedService { node, message }),
        Err(why) => Err(OpenError::NodeRefused(why)),
    }
}

/// The layout of a message of the opener's, where the service is as it requires.
fn room_for(
    description: &StaticConfig,
    service: &DynamicConfig,
    opener: &Opener,
) -> Result<SampleLayout, OpenError>
    ensures { LaysOut description.now opener.now service.now result }
{
    if !description.is_publish_subscribe() {
        return Err(OpenError::IncompatibleMessagingPattern);
    }
    let settings = description.publish_subscribe();
    if !is_as_described(settings, service) {
        return Err(OpenError::NotAsDescribed);
    }
    if let Err(missing) = opener
        .verifier
        .verify_requirements(description.attributes())
    {
        return Err(OpenError::IncompatibleAttributes(missing));
    }
    let types = &settings.message_type_details;
    if !may_open(&opener.required.message_type_details, types) {
        return Err(OpenError::IncompatibleTypes);
    }
    if let Some(unmet) = settings.first_unmet(&opener.required) {
        return Err(OpenError::UnmetSetting(unmet));
    }
    match types.sample_layout(opener.elements) {
        Some(message) => Ok(message),
        None => Err(OpenError::MessageTooLarge),
    }
}

/// Whether an opener with these types may use the messages of the service: its types were given,
/// and suit the service's.
fn may_open(opener: &MessageTypeDetails, service: &MessageTypeDetails) -> bool
    ensures { IsTrue result ↔ MayOpen opener.now service.now }
{
    opener.header.alignment().is_power_of_two()
        && opener.user_header.alignment().is_power_of_two()
        && opener.payload.alignment().is_power_of_two()
        && opener.is_compatible_to(service)
}
