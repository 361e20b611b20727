//! One line on a service that a caller keeps.

use super::serving::{new_service, write_replies};
use service_descriptions::replay::{ServiceState, read_line, replay};
use std::alloc::{AllocError, Global};
use std::process::Abort;
use std::test::Fail;
use test_support::scripts::ROWS;

/// Appends the reply line to the line, or `?` where it spells no command.
fn serve_line(
    alloc: Global,
    state: &mut ServiceState,
    line: &str,
    out: &mut Vec<u8>,
) -> Result<(), AllocError> {
    let Some(command) = read_line(alloc, line.as_bytes())? else {
        return out.extend_from_slice(b"?\n");
    };
    let mut replies = Vec::new(alloc);
    replay(alloc, state, &[command], &mut replies)?;
    write_replies(&replies, out)
}

/// Makes the service of a script's first line, and appends its reply lines to the others.
fn serve_script(alloc: Global, script: &str, out: &mut Vec<u8>) -> Result<(), Fail> {
    let (service, rest) = script.split_once('\n').ok_or("a service line")?;
    let mut state = new_service(alloc, service)?;
    for line in rest.split_terminator('\n') {
        serve_line(alloc, &mut state, line, out)?;
    }
    Ok(())
}

/// Asserts that a script gives these lines.
fn assert_serves(rt: &(impl Abort + AllocGlobal), script: &str, lines: &str) -> Result<(), Fail> {
    let mut out = Vec::new(rt.alloc());
    serve_script(rt.alloc(), script, &mut out)?;
    assert_eq!(rt; (script, out.as_slice()), (script, lines.as_bytes()));
    Ok(())
}

#[test]
fn worked_scripts(rt: HostRuntime) -> Result<(), Fail> {
    for (script, lines) in &ROWS {
        assert_serves(&rt, script, lines)?;
    }
    Ok(())
}

/// Lines of all kinds, good and bad, on a new service.
fn serve_lines(alloc: Global, out: &mut Vec<u8>) -> Result<(), Fail> {
    let lines = [
        "register 1.0.0.1",
        // A bad line is not a command: the next handle is that of command 1.
        "register 1.0.0.1 ",
        "register 1.0.0.1\n",
        "",
        "add notifier 1.0.0.9 1.0.0.1",
        "list notifier",
        "count listener",
        "deregister 0",
        "release 1",
        "release 2",
        "dead 1.0.0.1 skip",
        "add notifier 2.0.0.9 1.0.0.1",
        "dead 1.0.0.1 skip 2.0.0.9",
        "dead 1.0.0.1",
        "register 3.0.0.1",
    ];
    let mut state = new_service(alloc, "service event 7 2 2 2")?;
    for line in lines {
        serve_line(alloc, &mut state, line, out)?;
    }
    Ok(())
}

#[test]
fn lines_on_one_state(rt: HostRuntime) -> Result<(), Fail> {
    let mut out = Vec::new(rt.alloc());
    serve_lines(rt.alloc(), &mut out)?;
    assert_eq!(rt;
        out.as_slice(),
        b"handle 0 0\n?\n?\n?\nhandle 0 0\nlist 1000000000000000000000009\ncount 0\nports-attached\nreleased\nno-handle\n?\nhandle 0 1\nhas-owners\nno-owners\nlocked\n".as_slice()
    );
    Ok(())
}
