//! Scripts of commands on one service, and the replies to them.

mod lines;
mod machine;

pub use lines::{
    RoleName, ScriptError, ServiceLine, command_before, read_line, run_script, run_streams,
    service_before, write_reply,
};
pub use machine::{
    Cleanup, Command, LineCommand, MessagePart, Reply, ScriptPort, ServiceState, replay,
};
