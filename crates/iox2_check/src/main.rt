//! Checks files of settings, and writes what is wrong in them, where, and what was probably meant.
#![tactic(auto)]

use settings_check::check_streams;
use std::env;
use std::io::IsTerminal;
use std::process::ExitCode;

fn main(rt: HostRuntime) -> ExitCode {
    let coloured = rt.stdout().is_terminal();
    ExitCode::from(check_streams(
        rt.alloc(),
        coloured,
        env::args(&rt),
        &rt,
        &mut rt.stdin(),
        &mut rt.stdout(),
        &mut rt.stderr(),
    ))
}
