//! The part of a port factory that attaches publishers and says which memory each of them needs.
ghost use Rattle.std.specs.Prelude.{◌≡◌, ◌≤◌, ◌<◌, ◌*◌, ◌^◌, OnErr, IfOk, IfErr, MatchOption};
ghost use Rattle.service_examples.specs.Publishing.{AttachesPublisher, RefusesPublisher, GivesSegment};
ghost use Rattle.service_examples.specs.Unchanged.{SameAttached};

use crate::described::is_as_described;
use iox2_config::config::DataSegmentType;
use iox2_config::types::SampleLayout;
use iox2_container::container::ContainerHandle;
use iox2_dynamic::dynamic_config::{AttachError, DynamicConfig, PortDetails, PublisherDetails};
use iox2_ids::identifiers::{UniqueNodeId, UniquePublisherId};
use iox2_static::static_config::publish_subscribe::StaticConfig;

/// What a publisher is to be.
#[derive(Clone, Copy, Debug)]
pub struct PublisherSettings {
    /// Its id.
    pub publisher: UniquePublisherId,
    /// The node that it belongs to.
    pub node: UniqueNodeId,
    /// How many samples it may have loaned at once, to be written.
    pub max_loaned_samples: usize,
    /// How many elements the payload of a sample has at most.
    pub max_elements: usize,
}

/// The memory of a publisher: blocks of one size that lie
/// end to end, one for each chunk that can be in use.
#[derive(Clone, Copy, Debug, PartialEq, Eq)]
pub struct DataSegment {
    /// The layout of one message. The segment begins at a multiple of its alignment.
    pub block: SampleLayout,
    /// How many blocks there are.
    pub blocks: usize,
    /// How many bytes they take together, at most 2^63 - 1.
    pub size: usize,
}

/// A publisher that was attached.
#[derive(Clone, Copy, Debug)]
pub struct Publisher {
    /// Its handle.
    pub handle: ContainerHandle,
    /// Its memory.
    pub segment: DataSegment,
}

/// Why a publisher was not attached. The first cause is reported, and nothing is attached.
#[derive(Clone, Copy, Debug, PartialEq, Eq)]
pub enum PublisherError {
    /// The service has another pattern, or other capacities, than the settings say.
    NotAsDescribed,
    /// The types of the service's messages were not given.
    TypesNotGiven,
    /// More than 2^64 - 1 chunks could be in use at once.
    TooManyChunks,
    /// A message would need more than 2^63 - 1 bytes.
    MessageTooLarge,
    /// All blocks together would need more than 2^63 - 1 bytes.
    SegmentTooLarge,
    /// The service did not take it.
    NotAttached(AttachError),
}

/// The greatest size of a block of memory, 2^63 - 1.
const GREATEST_SIZE: usize = isize::MAX as usize;

/// Attaches a publisher to the publish-subscribe service
/// with these settings, and gives its data segment.
pub fn attach_publisher(
    settings: &StaticConfig,
    service: &mut DynamicConfig,
    publisher: &PublisherSettings,
) -> Result<Publisher, PublisherError>
    ensures attached { IfOk result (λ made.
        AttachesPublisher settings.now publisher.now service.old made service.new) }
    ensures cause { IfErr result (RefusesPublisher settings.now publisher.now service.old) }
    ensures unchanged { OnErr result (SameAttached service.old service.new) }
{
    if !is_as_described(settings, service) {
        return Err(PublisherError::NotAsDescribed);
    }
    let segment = data_segment(
        settings,
        publisher.max_loaned_samples,
        publisher.max_elements,
    )?;
    let details = PublisherDetails {
        publisher_id: publisher.publisher,
        node_id: publisher.node,
        number_of_samples: segment.blocks,
        max_slice_len: publisher.max_elements,
        data_segment_type: DataSegmentType::Static,
        max_number_of_segments: 1,
    };
    match service.attach(PortDetails::Publisher(details)) {
        Ok(handle) => Ok(Publisher { handle, segment }),
        Err(why) => Err(PublisherError::NotAttached(why)),
    }
}

/// The memory of a publisher that has up to this many
/// samples loaned at once, each of up to this many elements.
pub fn data_segment(
    settings: &StaticConfig,
    max_loaned_samples: usize,
    max_elements: usize,
) -> Result<DataSegment, PublisherError>
    ensures { GivesSegment settings.now max_loaned_samples max_elements result }
{
    let types = settings.message_type_details();
    if !types.has_alignments() {
        return Err(PublisherError::TypesNotGiven);
    }
    let Some(blocks) = settings.required_amount_of_samples_per_data_segment(max_loaned_samples)
    else {
        return Err(PublisherError::TooManyChunks);
    };
    let Some(block) = types.sample_layout(max_elements) else {
        return Err(PublisherError::MessageTooLarge);
    };
    match size_of_row(block.size(), blocks) {
        Some(size) => Ok(DataSegment {
            block,
            blocks,
            size,
        }),
        None => Err(PublisherError::SegmentTooLarge),
    }
}

/// How many bytes this many blocks of a size take, or `None` where these are more than 2^63 - 1.
fn size_of_row(size: usize, blocks: usize) -> Option<usize>
    ensures { MatchOption result (2 ^ 63 ≤ blocks * size)
        (λ bytes. (bytes ≡ blocks * size) × (bytes < 2 ^ 63)) }
{
    match blocks.checked_mul(size) {
        Some(bytes) if bytes <= GREATEST_SIZE => Some(bytes),
        _ => None,
    }
}
