//! Types of messages, where the parts of a message lie, and who may open them.

mod incompatibility;
mod layout;
mod message_details;
mod type_detail;
mod zero_copy_send;

pub use incompatibility::{Difference, Incompatibility};
pub use layout::{Places, SampleLayout};
pub use message_details::MessageTypeDetails;
pub use type_detail::{MAX_TYPE_NAME_LENGTH, TypeDetail, TypeDetailError, TypeName, TypeVariant};
pub use zero_copy_send::ZeroCopySend;
