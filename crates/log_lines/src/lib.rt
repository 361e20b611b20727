//! The lines of logs of services: the calls, the replies that were seen, and states that are given.
#![tactic(auto)]

mod command;
mod form;
pub mod laws;
mod line;
mod state;

pub use command::{BegunCall, LogCommand, read_command};
pub use form::{LogForm, form_of};
pub use line::{LogLine, is_note, read_log_line};
pub use state::LogState;
