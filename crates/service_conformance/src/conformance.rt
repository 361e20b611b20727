//! The calls that were seen of a service, as a machine whose steps are those of services.

mod calls;
mod id_word;
mod judged_call;
mod line_reply;
mod look;
mod mover;
mod possible;
mod registry_check;
mod request;
mod same;
mod says;
mod seen_call;
mod seen_reply;
mod service_check;
mod slot_entry;
mod watched;

pub use calls::Calls;
pub use judged_call::{JudgedCall, possible_replies};
pub use possible::{NextHandle, Part, PossibleList, PossibleReplies};
pub use seen_call::SeenCall;
pub use seen_reply::{ReplyWord, SeenReply, read_reply};
pub use service_check::ServiceCheck;
pub use watched::WatchedService;
