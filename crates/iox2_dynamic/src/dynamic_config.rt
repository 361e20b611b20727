//! The nodes and the ports of a service. A port exists only with a registered node of an unlocked
//! service, and a node cannot leave its ports behind.

mod answers;
pub mod blackboard;
pub mod event;
mod pattern;
mod port_details;
mod port_registry;
pub mod publish_subscribe;
mod questions;
pub mod request_response;
mod service;
mod settings;

pub use answers::{
    AttachError, DeregisterError, DeregisterNodeState, PortCleanupAction, RegisterNodeResult,
};
pub use pattern::{MessagingPattern, PortRegistries};
pub use port_details::{
    ClientDetails, ListenerDetails, NotifierDetails, PortDetails, PortKind, PublisherDetails,
    ReaderDetails, ServerDetails, SubscriberDetails, WriterDetails,
};
pub use service::DynamicConfig;
pub use settings::{MessagingPatternSettings, PortRoles};
