//! The ids of nodes, of the ports of each kind, and of services.

mod hexadecimal;
mod port_id;
mod time;
mod unique_id;

pub use hexadecimal::Hexadecimal;
pub use port_id::UniquePortId;
pub use time::{ProcessId, Time};
pub use unique_id::{
    ClientKind, ListenerKind, NotifierKind, PublisherKind, ReaderKind, ServerKind, ServiceKind,
    SubscriberKind, UniqueClientId, UniqueId, UniqueListenerId, UniqueNodeId, UniqueNotifierId,
    UniquePublisherId, UniqueReaderId, UniqueServerId, UniqueServiceId, UniqueSubscriberId,
    UniqueWriterId, WriterKind,
};
