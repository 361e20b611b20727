//! What a factory of publishers answers.
use super::services::*;
use iox2_config::config::Config;
use iox2_dynamic::dynamic_config::{AttachError, DynamicConfig};
use iox2_static::static_config::publish_subscribe::StaticConfig;
use service_examples::factory::{
    PublisherError, PublisherSettings, attach_publisher, data_segment,
};
use service_examples::monitor::remove_dead_nodes;
use std::process::Abort;
use std::test::Fail;

/// The ticket of the publisher, how many blocks its segment has, and how many bytes.
fn attach(
    settings: &StaticConfig,
    service: &mut DynamicConfig,
    publisher: &PublisherSettings,
) -> Result<(u64, usize, usize), PublisherError> {
    attach_publisher(settings, service, publisher).map(|made| (
        made.handle.ticket(),
        made.segment.blocks,
        made.segment.size,
    ))
}

/// What is answered to a publisher of node 1 with this counter.
fn reported(
    rt: &impl Abort,
    service: &mut DynamicConfig,
    counter: u32,
) -> Result<(u64, usize, usize), PublisherError> {
    attach(&settings(rt, 1), service, &publisher(rt, counter, 1))
}

/// What is answered to a publisher with the settings of another service, and to
/// publishers of node 1 before it is registered, while it is, and after its death.
fn all_told(
    rt: &impl Abort,
    service: &mut DynamicConfig,
) -> [Result<(u64, usize, usize), PublisherError>; 6] {
    let other = attach(&settings(rt, 2), service, &publisher(rt, 19, 1));
    let unknown = reported(rt, service, 20);
    assert!(rt; service.register_node_id(node(rt, 1)).is_ok());
    let first = reported(rt, service, 21);
    let second = reported(rt, service, 22);
    let third = reported(rt, service, 23);
    remove_dead_nodes(service, &[node(rt, 1)]);
    let late = reported(rt, service, 24);
    [other, unknown, first, second, third, late]
}

/// 10 samples can be in use by two subscribers, and a message
/// of two numbers behind a header of 40 bytes takes 64.
#[test]
fn a_publisher_has_a_block_for_each_sample_in_use(rt: HostRuntime) -> Result<(), Fail> {
    let mut service = service(rt.alloc(), 1)?;
    let reported = all_told(&rt, &mut service);
    assert_eq!(rt;
        reported,
        [
            Err(PublisherError::NotAsDescribed),
            Err(PublisherError::NotAttached(AttachError::NodeNotRegistered)),
            Ok((0, 10, 640)),
            Ok((1, 10, 640)),
            Err(PublisherError::NotAttached(AttachError::OutOfSpace)),
            Err(PublisherError::NotAttached(AttachError::ServiceIsLocked)),
        ]
    );
    Ok(())
}

/// Blocks of 2^59 numbers and some more bytes are no larger than memory may be, but 10 of them are.
#[test]
fn a_segment_is_refused_for_the_first_cause(rt: HostRuntime) {
    let most = usize::MAX;
    let not_given = StaticConfig::new(&Config::default());
    let mut crowded = settings(&rt, 1);
    crowded.subscriber_max_buffer_size = most;
    assert_eq!(rt;
        [
            data_segment(&not_given, most, most),
            data_segment(&crowded, 2, most),
            data_segment(&settings(&rt, 1), 2, most),
            data_segment(&settings(&rt, 1), 2, 1 << 59),
        ],
        [
            Err(PublisherError::TypesNotGiven),
            Err(PublisherError::TooManyChunks),
            Err(PublisherError::MessageTooLarge),
            Err(PublisherError::SegmentTooLarge),
        ]
    );
}
