//! Draws the service that is described on standard input:
//! as text, or with the argument `svg` as a picture.
#![tactic(auto)]

use service_drawing::describe_streams;
use std::env;
use std::process::ExitCode;

fn main(rt: HostRuntime) -> ExitCode {
    ExitCode::from(describe_streams(
        rt.alloc(),
        env::args(&rt),
        &mut rt.stdin(),
        &mut rt.stdout(),
        &mut rt.stderr(),
    ))
}
