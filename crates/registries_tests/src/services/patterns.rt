//! Services of each pattern, their ports, and what their calls answer.
use iox2_config::config::DataSegmentType;
use iox2_config::hash::PatternKind;
use iox2_container::container::{ContainerHandle, Role};
use iox2_dynamic::dynamic_config::*;
use iox2_ids::identifiers::*;
use std::alloc::{AllocError, Global};
use std::process::Abort;
use std::test::Fail;

/// What a handle is of, in words that are the same for each pattern.
#[derive(Clone, Copy)]
pub(super) enum Kind {
    Node,
    /// The ports that are recovered first.
    First,
    /// The other ports.
    Second,
    /// Some ports that the pattern lacks.
    Other,
}

/// A pattern, with the roles of its two kinds of ports and a role that it lacks.
#[derive(Clone, Copy)]
pub(super) struct Pattern {
    pub(super) kind: PatternKind,
    pub(super) first: Role,
    pub(super) second: Role,
    pub(super) other: Role,
}

impl Pattern {
    pub(super) fn role(&self, kind: Kind) -> Role {
        match kind {
            Kind::Node => Role::Node,
            Kind::First => self.first,
            Kind::Second => self.second,
            Kind::Other => self.other,
        }
    }
}

pub(super) const PUBLISH_SUBSCRIBE: Pattern = Pattern {
    kind: PatternKind::PublishSubscribe,
    first: Role::Publisher,
    second: Role::Subscriber,
    other: Role::Listener,
};

pub(super) const EVENT: Pattern = Pattern {
    kind: PatternKind::Event,
    first: Role::Listener,
    second: Role::Notifier,
    other: Role::Publisher,
};

pub(super) const REQUEST_RESPONSE: Pattern = Pattern {
    kind: PatternKind::RequestResponse,
    first: Role::Server,
    second: Role::Client,
    other: Role::Reader,
};

pub(super) const BLACKBOARD: Pattern = Pattern {
    kind: PatternKind::Blackboard,
    first: Role::Reader,
    second: Role::Writer,
    other: Role::Client,
};

pub(super) static PATTERNS: [Pattern; 4] = [PUBLISH_SUBSCRIBE, EVENT, REQUEST_RESPONSE, BLACKBOARD];

/// A service of number 7 with this many slots for nodes, for the first ports and for the others.
pub(super) fn service(
    alloc: Global,
    pattern: PatternKind,
    capacities: (usize, usize, usize),
) -> Result<Box<DynamicConfig>, AllocError> {
    let (nodes, first, second) = capacities;
    let settings = MessagingPatternSettings::new(pattern, first, second);
    Ok(Box::new(alloc, DynamicConfig::new(alloc, &settings, nodes, 7)?)?)
}

/// As `service`, with this many tickets of each kind.
pub(super) fn service_by_tickets(
    alloc: Global,
    pattern: PatternKind,
    capacities: (usize, usize, usize),
    tickets: u64,
) -> Result<Box<DynamicConfig>, AllocError> {
    let (nodes, first, second) = capacities;
    let settings = MessagingPatternSettings::new(pattern, first, second);
    Ok(Box::new(
        alloc,
        DynamicConfig::with_tickets(alloc, &settings, nodes, 7, tickets)?,
    )?)
}

/// The number of the port of process 1 with this counter.
pub(super) fn number(counter: u32) -> u128 {
    UniquePublisherId::new(1, 0, 0, counter).value()
}

/// A port of process 1 with this role and counter.
pub(super) fn port(role: Role, counter: u32, node_id: UniqueNodeId) -> Result<PortDetails, Fail> {
    Ok(match role {
        Role::Node => return Err("no port is a node".into()),
        Role::Publisher => PortDetails::Publisher(PublisherDetails {
            publisher_id: UniquePublisherId::new(1, 0, 0, counter),
            node_id,
            number_of_samples: 0,
            max_slice_len: 0,
            data_segment_type: DataSegmentType::Static,
            max_number_of_segments: 1,
        }),
        Role::Subscriber => PortDetails::Subscriber(SubscriberDetails {
            subscriber_id: UniqueSubscriberId::new(1, 0, 0, counter),
            node_id,
            buffer_size: 0,
        }),
        Role::Listener => PortDetails::Listener(ListenerDetails {
            listener_id: UniqueListenerId::new(1, 0, 0, counter),
            node_id,
        }),
        Role::Notifier => PortDetails::Notifier(NotifierDetails {
            notifier_id: UniqueNotifierId::new(1, 0, 0, counter),
            node_id,
        }),
        Role::Server => PortDetails::Server(ServerDetails {
            server_id: UniqueServerId::new(1, 0, 0, counter),
            node_id,
            request_buffer_size: 0,
            number_of_responses: 0,
            max_slice_len: 0,
            data_segment_type: DataSegmentType::Static,
            max_number_of_segments: 1,
        }),
        Role::Client => PortDetails::Client(ClientDetails {
            client_id: UniqueClientId::new(1, 0, 0, counter),
            node_id,
            number_of_requests: 0,
            response_buffer_size: 0,
            max_slice_len: 0,
            data_segment_type: DataSegmentType::Static,
            max_number_of_segments: 1,
        }),
        Role::Reader => PortDetails::Reader(ReaderDetails {
            reader_id: UniqueReaderId::new(1, 0, 0, counter),
            node_id,
        }),
        Role::Writer => PortDetails::Writer(WriterDetails {
            writer_id: UniqueWriterId::new(1, 0, 0, counter),
            node_id,
        }),
    })
}

/// Attaches a port of a role that the service must have.
pub(super) fn attach(
    rt: &impl Abort,
    service: &mut DynamicConfig,
    role: Role,
    counter: u32,
    node: UniqueNodeId,
) -> Result<Result<ContainerHandle, AttachError>, Fail> {
    let details = port(role, counter, node)?;
    assert!(rt; service.has_role(details.role()));
    Ok(service.attach(details))
}

/// Whether the service still has owners, by an answer that has no debug text.
pub(super) fn has_owners(state: DeregisterNodeState) -> bool {
    state == DeregisterNodeState::HasOwners
}
