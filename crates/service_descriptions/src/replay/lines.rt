//! The language of scripts: how commands and replies are written, a line each.

mod line;
mod reply_line;
mod script;

pub use line::{RoleName, ServiceLine, command_before, read_line, service_before};
pub use reply_line::write_reply;
pub use script::{ScriptError, run_script, run_streams};
