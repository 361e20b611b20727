//! What a service builder answers.
use super::services::*;
use iox2_config::config::Config;
use iox2_config::hash::{PatternKind, Sha1Hasher};
use iox2_config::types::MessageTypeDetails;
use iox2_dynamic::dynamic_config::{DynamicConfig, MessagingPatternSettings, RegisterNodeResult};
use iox2_ids::identifiers::UniqueServiceId;
use iox2_static::static_config::StaticConfig;
use iox2_static::static_config::setting::Setting;
use iox2_texts::service_name::ServiceName;
use service_examples::builder::{OpenError, Opener, open_service};
use service_examples::monitor::remove_dead_nodes;
use std::alloc::{AllocError, Global};
use std::process::Abort;
use std::test::Fail;

/// A cause in one word.
fn word(error: OpenError) -> &'static str {
    match error {
        OpenError::IncompatibleMessagingPattern => "pattern",
        OpenError::NotAsDescribed => "described",
        OpenError::IncompatibleAttributes(_) => "attributes",
        OpenError::IncompatibleTypes => "types",
        OpenError::UnmetSetting(Setting::MaxNodes) => "max nodes",
        OpenError::UnmetSetting(_) => "settings",
        OpenError::MessageTooLarge => "too large",
        OpenError::NodeRefused(RegisterNodeResult::ExceedsMaxNumberOfNodes) => "full",
        OpenError::NodeRefused(RegisterNodeResult::MarkedForDestruction) => "locked",
    }
}

/// The slot of the opener's node and the size of a message, or the cause in one word.
fn open(
    description: &StaticConfig,
    service: &mut DynamicConfig,
    opener: &Opener,
) -> Result<(usize, usize), &'static str> {
    match open_service(description, service, opener) {
        Ok(opened) => Ok((opened.node.slot(), opened.message.size())),
        Err(error) => Err(word(error)),
    }
}

/// What the red service answers to an opener that wants this color,
/// messages of these types, so many nodes, and so many elements.
fn reported(
    rt: &impl Abort,
    service: &mut DynamicConfig,
    color: &str,
    types: MessageTypeDetails,
    (nodes, elements): (usize, usize),
) -> Result<(usize, usize), &'static str> {
    let mut faulty = opener(rt, color, 1);
    faulty.required.message_type_details = types;
    faulty.required.max_nodes = nodes;
    faulty.elements = elements;
    open(&description(rt, 1), service, &faulty)
}

/// What an event service answers to an opener with each fault.
fn reported_by_event(
    rt: &impl Abort,
    service: &mut DynamicConfig,
) -> Result<(usize, usize), &'static str> {
    let name = ServiceName::new("alarms").expect(rt, "a name");
    let id = UniqueServiceId::new(1, 0, 0, 10);
    let event = StaticConfig::new_event::<Sha1Hasher>(&name, &Config::default(), id).expect(
        rt,
        "a description",
    );
    open(&event, service, &opener(rt, "blue", 1))
}

/// What a service of this pattern and with this room for ports of its
/// two kinds answers to an opener, where the red one is described.
fn reported_by_other(
    rt: &impl Abort,
    alloc: Global,
    pattern: PatternKind,
    first: usize,
    second: usize,
) -> Result<Result<(usize, usize), &'static str>, AllocError> {
    let settings = MessagingPatternSettings::new(pattern, first, second);
    let mut service = Box::new(alloc, DynamicConfig::new(alloc, &settings, 1, 7)?)?;
    Ok(open(&description(rt, 1), &mut service, &opener(rt, "blue", 1)))
}

/// Each opener has one fault less than the one before; the last has none, and gets the first slot.
/// A message of two numbers behind a header of 40 bytes takes 64.
#[test]
fn the_first_cause_is_told_and_nothing_stays(rt: HostRuntime) -> Result<(), Fail> {
    let mut service = service(rt.alloc(), 1)?;
    let most = usize::MAX;
    let answers = [
        reported_by_event(&rt, &mut service),
        open(&description(&rt, 2), &mut service, &opener(&rt, "blue", 1)),
        reported(&rt, &mut service, "blue", types(&rt, 16), (2, most)),
        reported(&rt, &mut service, "red", types(&rt, 16), (2, most)),
        reported(
            &rt,
            &mut service,
            "red",
            MessageTypeDetails::default(),
            (2, most),
        ),
        reported(&rt, &mut service, "red", types(&rt, 8), (2, most)),
        reported(&rt, &mut service, "red", types(&rt, 8), (1, most)),
        reported(&rt, &mut service, "red", types(&rt, 8), (1, 2)),
    ];
    assert_eq!(rt;
        answers,
        [
            Err("pattern"),
            Err("described"),
            Err("attributes"),
            Err("types"),
            Err("types"),
            Err("max nodes"),
            Err("too large"),
            Ok((0, 64)),
        ]
    );
    Ok(())
}

/// The pattern, the room for publishers and that for subscribers are those of the description.
#[test]
fn another_service_than_the_described_one_is_not_opened(rt: HostRuntime) -> Result<(), Fail> {
    let alloc = rt.alloc();
    let answers = [
        reported_by_other(&rt, alloc, PatternKind::Event, 2, 2)?,
        reported_by_other(&rt, alloc, PatternKind::PublishSubscribe, 1, 2)?,
        reported_by_other(&rt, alloc, PatternKind::PublishSubscribe, 2, 1)?,
        reported_by_other(&rt, alloc, PatternKind::PublishSubscribe, 2, 2)?,
    ];
    assert_eq!(rt;
        answers,
        [
            Err("described"),
            Err("described"),
            Err("described"),
            Err("attributes"),
        ]
    );
    Ok(())
}

/// One slot for a node; after it was taken and its node died, the service is over.
#[test]
fn no_node_is_taken_beyond_the_places_nor_after_the_last(rt: HostRuntime) -> Result<(), Fail> {
    let mut service = service(rt.alloc(), 1)?;
    let red = description(&rt, 1);
    let first = open(&red, &mut service, &opener(&rt, "red", 1));
    let second = open(&red, &mut service, &opener(&rt, "red", 2));
    remove_dead_nodes(&mut service, &[node(&rt, 1)]);
    let third = open(&red, &mut service, &opener(&rt, "red", 3));
    assert_eq!(rt;
        [first, second, third],
        [Ok((0, 64)), Err("full"), Err("locked")]
    );
    Ok(())
}
