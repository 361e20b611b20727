//! Handles, ports and answers as plain values. An answer says beside its status what was made or
//! found.
ghost use Rattle.std.specs.Prelude.{◌≡◌, None, IfErr};
ghost use Rattle.iox2sd.specs.Answers.{handle_answer, number_answer, roles_answer, id_answer};
ghost use Rattle.iox2sd.specs.Answers.{port_answer, removal_with, removal_answer};
ghost use Rattle.iox2sd.specs.Ports.{ReadsRole, c_handle, ReadsHandle};
ghost use Rattle.iox2sd.specs.Ports.{ReadsSegment, ReadsPort, blank, c_port};

use crate::service::roles::Counts;
use iox2_config::config::DataSegmentType;
use iox2_container::container::{ContainerHandle, Role};
use iox2_dynamic::dynamic_config::{
    ClientDetails, ListenerDetails, NotifierDetails, PortDetails, PublisherDetails, ReaderDetails,
    ServerDetails, SubscriberDetails, WriterDetails,
};
use iox2sd_common::id::Id;
use iox2sd_common::status::Status;

/// The handle that stands for nothing: its role is that of no entry.
const NO_HANDLE: Handle = Handle {
    service: 0,
    role: u64::MAX,
    slot: 0,
    ticket: 0,
};

/// The answer with what was found in this field, or with the status of an error and this value.
macro_rules! answer_with {
    ($answer:ident { $field:ident } or $nothing:expr, $found:expr) => {
        match $found {
            Ok($field) => $answer {
                status: Status::Done.code(),
                $field,
            },
            Err(status) => $answer {
                status: status.code(),
                $field: $nothing,
            },
        }
    };
}

/// What registering and attaching give, and what a call by handle is given. It has no padding, so C
/// may compare its bytes.
#[repr(C)]
#[derive(Clone, Copy)]
pub struct Handle {
    /// The number of the service.
    pub service: u64,
    /// The number of the role.
    pub role: u64,
    /// The slot of the entry.
    pub slot: usize,
    /// The ticket of the entry.
    pub ticket: u64,
}

/// The role of a number.
pub(crate) fn role_of(number: u64) -> Option<Role>
    ensures { ReadsRole number result }
{
    match number {
        0 => Some(Role::Node),
        1 => Some(Role::Publisher),
        2 => Some(Role::Subscriber),
        3 => Some(Role::Notifier),
        4 => Some(Role::Listener),
        5 => Some(Role::Client),
        6 => Some(Role::Server),
        7 => Some(Role::Reader),
        8 => Some(Role::Writer),
        _ => None,
    }
}

impl Handle {
    /// The handle as C sees it.
    pub(crate) fn of(handle: ContainerHandle) -> Handle
        ensures { result ≡ c_handle handle }
    {
        let (service, role, slot, ticket) = handle.into_parts();
        Handle {
            service,
            role: role as u64,
            slot,
            ticket,
        }
    }

    /// What C's handle says, where its role is one.
    pub(crate) fn read(self) -> Option<ContainerHandle>
        ensures { ReadsHandle self result }
    {
        let role = role_of(self.role)?;
        Some(ContainerHandle::from_parts(self.service, role, self.slot, self.ticket))
    }
}

/// The id of a port, and what the port is. It has no padding, so C may compare its bytes.
#[repr(C)]
#[derive(Clone, Copy)]
pub struct PortId {
    /// The number of the role.
    pub role: u64,
    /// The id.
    pub port: Id,
}

/// The details of a port. A field that its kind does not have is not checked, and is returned as 0.
#[repr(C)]
#[derive(Clone, Copy, Default)]
pub struct Port {
    /// The number of the role: what the port is.
    pub role: u64,
    /// Its id.
    pub port: Id,
    /// The id of its node.
    pub node: Id,
    /// Of publishers.
    pub number_of_samples: usize,
    /// Of subscribers.
    pub buffer_size: usize,
    /// Of servers.
    pub request_buffer_size: usize,
    /// Of servers.
    pub number_of_responses: usize,
    /// Of clients.
    pub number_of_requests: usize,
    /// Of clients.
    pub response_buffer_size: usize,
    /// Of publishers, servers and clients.
    pub max_slice_len: usize,
    /// Of publishers, servers and clients. 0: it may be replaced by a larger one. 1: it keeps its
    /// size.
    pub data_segment: u32,
    /// Of publishers, servers and clients.
    pub max_number_of_segments: u8,
}

/// The kind of data segment of this number.
fn segment_of(number: u32) -> Option<DataSegmentType>
    ensures { ReadsSegment number result }
{
    match number {
        0 => Some(DataSegmentType::Dynamic),
        1 => Some(DataSegmentType::Static),
        _ => None,
    }
}

impl Port {
    /// What the details of every kind have; all other fields are 0.
    #[inline]
    fn blank(details: &PortDetails) -> Port
        ensures { result ≡ blank details.now }
    {
        Port {
            role: details.role() as u64,
            port: Id::of_number(details.port_id().value()),
            node: Id::of_number(details.node_id().value()),
            ..Port::default()
        }
    }

    /// The port with these details.
    #[inline]
    pub(crate) fn of(details: &PortDetails) -> Port
        ensures { result ≡ c_port details.now }
    {
        let blank = Port::blank(details);
        match details {
            PortDetails::Publisher(details) => Port {
                number_of_samples: details.number_of_samples,
                max_slice_len: details.max_slice_len,
                data_segment: details.data_segment_type as u32,
                max_number_of_segments: details.max_number_of_segments,
                ..blank
            },
            PortDetails::Subscriber(details) => Port {
                buffer_size: details.buffer_size,
                ..blank
            },
            PortDetails::Server(details) => Port {
                request_buffer_size: details.request_buffer_size,
                number_of_responses: details.number_of_responses,
                max_slice_len: details.max_slice_len,
                data_segment: details.data_segment_type as u32,
                max_number_of_segments: details.max_number_of_segments,
                ..blank
            },
            PortDetails::Client(details) => Port {
                number_of_requests: details.number_of_requests,
                response_buffer_size: details.response_buffer_size,
                max_slice_len: details.max_slice_len,
                data_segment: details.data_segment_type as u32,
                max_number_of_segments: details.max_number_of_segments,
                ..blank
            },
            _ => blank,
        }
    }

    /// The details of the port.
    pub(crate) fn read(&self) -> Result<PortDetails, Status>
        ensures { ReadsPort self.now result }
    {
        let node_id = self.node.of_node().ok_or(Status::NoNode)?;
        let role = role_of(self.role).ok_or(Status::UnknownRole)?;
        match role {
            Role::Node => Err(Status::UnknownRole),
            Role::Publisher => Ok(PortDetails::Publisher(PublisherDetails {
                publisher_id: self.port.of_kind(),
                node_id,
                number_of_samples: self.number_of_samples,
                max_slice_len: self.max_slice_len,
                data_segment_type: segment_of(self.data_segment).ok_or(Status::UnknownSegment)?,
                max_number_of_segments: self.max_number_of_segments,
            })),
            Role::Subscriber => Ok(PortDetails::Subscriber(SubscriberDetails {
                subscriber_id: self.port.of_kind(),
                node_id,
                buffer_size: self.buffer_size,
            })),
            Role::Notifier => Ok(PortDetails::Notifier(NotifierDetails {
                notifier_id: self.port.of_kind(),
                node_id,
            })),
            Role::Listener => Ok(PortDetails::Listener(ListenerDetails {
                listener_id: self.port.of_kind(),
                node_id,
            })),
            Role::Client => Ok(PortDetails::Client(ClientDetails {
                client_id: self.port.of_kind(),
                node_id,
                number_of_requests: self.number_of_requests,
                response_buffer_size: self.response_buffer_size,
                max_slice_len: self.max_slice_len,
                data_segment_type: segment_of(self.data_segment).ok_or(Status::UnknownSegment)?,
                max_number_of_segments: self.max_number_of_segments,
            })),
            Role::Server => Ok(PortDetails::Server(ServerDetails {
                server_id: self.port.of_kind(),
                node_id,
                request_buffer_size: self.request_buffer_size,
                number_of_responses: self.number_of_responses,
                max_slice_len: self.max_slice_len,
                data_segment_type: segment_of(self.data_segment).ok_or(Status::UnknownSegment)?,
                max_number_of_segments: self.max_number_of_segments,
            })),
            Role::Reader => Ok(PortDetails::Reader(ReaderDetails {
                reader_id: self.port.of_kind(),
                node_id,
            })),
            Role::Writer => Ok(PortDetails::Writer(WriterDetails {
                writer_id: self.port.of_kind(),
                node_id,
            })),
        }
    }
}

/// The handle of what was registered or attached.
#[repr(C)]
#[derive(Clone, Copy)]
pub struct HandleAnswer {
    /// The number of a [`Status`].
    pub status: u32,
    /// The handle; where the status is not that of `Done`, one that stands for nothing.
    pub handle: Handle,
}

impl HandleAnswer {
    /// The answer with what was made, or why nothing was: its handle has the role of no entry
    /// then, so each call refuses it.
    #[inline(always)]
    pub(crate) fn of(made: Result<Handle, Status>) -> HandleAnswer
        ensures answer { result ≡ handle_answer made }
        ensures refused { IfErr made (λ _. ReadsHandle result.handle None) }
    {
        answer_with!(HandleAnswer { handle } or NO_HANDLE, made)
    }
}

/// A number of the service.
#[repr(C)]
#[derive(Clone, Copy)]
pub struct NumberAnswer {
    /// The number of a [`Status`].
    pub status: u32,
    /// The number; 0 where the status is not that of `Done`.
    pub number: u64,
}

impl NumberAnswer {
    /// The answer with a number, or why there is none.
    pub(crate) fn of(found: Result<u64, Status>) -> NumberAnswer
        ensures { result ≡ number_answer found }
    {
        answer_with!(NumberAnswer { number } or 0, found)
    }
}

/// The roles of the two kinds of ports of a pattern, that first which is recovered first.
#[repr(C)]
#[derive(Clone, Copy, Default)]
pub struct RolesAnswer {
    /// The number of a [`Status`].
    pub status: u32,
    /// The role of publishers, listeners, servers or readers; 0 where the status is not that of
    /// `Done`.
    pub first: u64,
    /// The role of subscribers, notifiers, clients or writers; 0 where the status is not that of
    /// `Done`.
    pub second: u64,
}

/// The numbers of two roles.
#[derive(Clone, Copy)]
pub(crate) struct Roles {
    pub(crate) first: u64,
    pub(crate) second: u64,
}

impl RolesAnswer {
    /// The answer with two roles, or why there are none.
    pub(crate) fn of(found: Result<Roles, Status>) -> RolesAnswer
        ensures { result ≡ roles_answer found }
    {
        match found {
            Ok(roles) => RolesAnswer {
                status: Status::Done.code(),
                first: roles.first,
                second: roles.second,
            },
            Err(status) => RolesAnswer {
                status: status.code(),
                ..RolesAnswer::default()
            },
        }
    }
}

/// An id.
#[repr(C)]
#[derive(Clone, Copy)]
pub struct IdAnswer {
    /// The number of a [`Status`].
    pub status: u32,
    /// Its id; all 0 where the status is not that of `Done`.
    pub id: Id,
}

impl IdAnswer {
    /// The answer with an id, or why there is none.
    #[inline(always)]
    pub(crate) fn of(found: Result<Id, Status>) -> IdAnswer
        ensures { result ≡ id_answer found }
    {
        answer_with!(IdAnswer { id } or Id::default(), found)
    }
}

/// A port.
#[repr(C)]
#[derive(Clone, Copy)]
pub struct PortAnswer {
    /// The number of a [`Status`].
    pub status: u32,
    /// The port; all 0 where the status is not that of `Done`.
    pub port: Port,
}

impl PortAnswer {
    /// The answer with a port, or why there is none.
    #[inline(always)]
    pub(crate) fn of(found: Result<Port, Status>) -> PortAnswer
        ensures { result ≡ port_answer found }
    {
        answer_with!(PortAnswer { port } or Port::default(), found)
    }
}

/// How many ports went with a dead node.
#[repr(C)]
#[derive(Clone, Copy)]
pub struct DeadNodeRemoval {
    /// The number of a [`Status`].
    pub status: u32,
    /// How many publishers, listeners, servers or readers went.
    pub first: usize,
    /// How many subscribers, notifiers, clients or writers went.
    pub second: usize,
}

/// What became of a dead node.
pub(crate) enum NodeRemoval {
    /// The service stays open; so many ports went.
    Open(Counts),
    /// The service is locked for good; so many ports went.
    Locked(Counts),
    /// The call was refused.
    Refused(Status),
}

impl DeadNodeRemoval {
    /// The answer of this status with these numbers.
    fn new(status: Status, gone: Counts) -> DeadNodeRemoval
        ensures { result ≡ removal_with status gone }
    {
        DeadNodeRemoval {
            status: status.code(),
            first: gone.first,
            second: gone.second,
        }
    }

    /// The answer with it.
    pub(crate) fn of(removal: NodeRemoval) -> DeadNodeRemoval
        ensures { result ≡ removal_answer removal }
    {
        match removal {
            NodeRemoval::Open(gone) => DeadNodeRemoval::new(Status::Done, gone),
            NodeRemoval::Locked(gone) => DeadNodeRemoval::new(Status::DoneLocked, gone),
            NodeRemoval::Refused(status) => DeadNodeRemoval {
                status: status.code(),
                first: 0,
                second: 0,
            },
        }
    }
}
