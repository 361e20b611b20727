//! One service, the commands on it in turn, and the reply to each.

mod cleanup;
mod command;
mod description;
mod reply;
mod session;
mod state;

pub(crate) use command::Parts;
pub use command::{Cleanup, Command, LineCommand, MessagePart, ScriptPort};
pub use reply::Reply;
pub(crate) use reply::{LineAnswer, LineReply};
pub(crate) use session::Session;
pub use state::{ServiceState, replay};
