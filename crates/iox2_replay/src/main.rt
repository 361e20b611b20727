//! Runs the script on standard input, and writes the replies to standard output. Arguments are
//! ignored.
#![tactic(auto)]

use service_descriptions::replay::run_streams;
use std::process::ExitCode;

fn main(rt: HostRuntime) -> ExitCode {
    ExitCode::from(run_streams(
        rt.alloc(),
        &mut rt.stdin(),
        &mut rt.stdout(),
        &mut rt.stderr(),
    ))
}
