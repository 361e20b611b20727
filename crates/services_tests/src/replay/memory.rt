//! Calls that are refused memory. With ample memory they give their full answers; where one request
//! is refused (`bench/refuse_memory` does that), they give a beginning of these, and the rest when
//! they are called again.

use super::deaths;
use super::serving::write_replies;
use service_descriptions::dynamic_config::{MessagingPatternSettings, publish_subscribe};
use service_descriptions::identifiers::UniqueNodeId;
use service_descriptions::replay::{
    Command, Reply, ScriptError, ServiceState, read_line, replay, run_script, run_streams,
    write_reply,
};
use std::alloc::{AllocError, Global};
use std::env::Env;
use std::process::Abort;
use std::test::Fail;
use test_support::memory::may_be_refused;
use test_support::scripts::{DIED_TWICE, SKIPPED, STORED};

const SETTINGS: MessagingPatternSettings = MessagingPatternSettings::PublishSubscribe(
    publish_subscribe::DynamicConfigSettings {
        number_of_subscribers: 2,
        number_of_publishers: 2,
    },
);

/// The lines of replies.
fn lines(alloc: Global, replies: &[Reply]) -> Result<Vec<u8>, AllocError> {
    let mut out = Vec::new(alloc);
    write_replies(replies, &mut out)?;
    Ok(out)
}

/// Gives the commands to the service, and the rest again where memory was refused.
fn run(
    alloc: Global,
    state: &mut ServiceState,
    commands: &[Command],
    replies: &mut Vec<Reply>,
) -> Result<(), AllocError> {
    match replay(alloc, state, commands, replies) {
        Ok(()) => Ok(()),
        Err(_) => {
            let rest = commands.get(replies.len()..).unwrap_or(&[]);
            replay(alloc, state, rest, replies)
        }
    }
}

/// The lines of a run of the commands.
fn lines_of(
    alloc: Global,
    state: &mut ServiceState,
    commands: &[Command],
) -> Result<Vec<u8>, AllocError> {
    let mut replies = Vec::new(alloc);
    run(alloc, state, commands, &mut replies)?;
    match lines(alloc, &replies) {
        Ok(text) => Ok(text),
        Err(_) => lines(alloc, &replies),
    }
}

/// The commands, made again where memory was refused.
fn commands_at_last(alloc: Global, dead: UniqueNodeId) -> Result<Vec<Command>, AllocError> {
    match deaths::commands(alloc, dead) {
        Ok(commands) => Ok(commands),
        Err(_) => deaths::commands(alloc, dead),
    }
}

/// A new service with room for two nodes and two ports of each kind.
fn state(alloc: Global) -> Result<Box<ServiceState>, AllocError> {
    Ok(Box::new(alloc, ServiceState::new(alloc, &SETTINGS, 2, 9)?)?)
}

/// The service, made again where memory was refused.
fn state_at_last(alloc: Global) -> Result<Box<ServiceState>, AllocError> {
    match state(alloc) {
        Ok(state) => Ok(state),
        Err(_) => state(alloc),
    }
}

/// The lines of a run of the commands on a new service.
fn run_lines(alloc: Global, commands: &[Command]) -> Result<Vec<u8>, AllocError> {
    let mut state = state_at_last(alloc)?;
    lines_of(alloc, &mut state, commands)
}

#[test]
fn a_run_goes_on_where_it_was_refused(rt: HostRuntime) -> Result<(), Fail> {
    let node = UniqueNodeId::new(1, 0, 0, 1).ok_or("an id")?;
    let commands = commands_at_last(rt.alloc(), node)?;
    let text = run_lines(rt.alloc(), &commands)?;
    assert_eq!(rt; text.as_slice(), DIED_TWICE.as_bytes());
    Ok(())
}

/// The status of a run of the program, and what it writes
/// to its output and its errors, which have room for it.
fn streamed(alloc: Global, script: &str) -> Result<(u8, Vec<u8>, Vec<u8>), AllocError> {
    let mut output = Vec::with_capacity(alloc, 400)?;
    let mut errors = Vec::with_capacity(alloc, 40)?;
    let status = run_streams(alloc, &mut script.as_bytes(), &mut output, &mut errors);
    Ok((status, output, errors))
}

/// Whether this is the text of some first lines.
fn begins(lines: &str, text: &[u8]) -> bool {
    lines.as_bytes().starts_with(text) && (text.is_empty() || text.ends_with(b"\n"))
}

/// The script gives all its lines, or is refused memory after some first ones. So does the program,
/// and after the same ones where both are refused.
fn gives_whole_lines(rt: &(impl Abort + AllocGlobal + Env), script: &str, lines: &str) {
    let mut text = Vec::new(rt.alloc());
    let end = run_script(rt.alloc(), script.as_bytes(), &mut text);
    let Ok((status, output, errors)) = streamed(rt.alloc(), script) else {
        assert!(rt; may_be_refused(rt));
        return;
    };
    assert!(rt; (end.is_ok() && status == 0) || may_be_refused(rt));
    match end {
        Ok(()) => assert_eq!(rt; text.as_slice(), lines.as_bytes()),
        Err(ScriptError::BadLine(line)) => assert!(rt; false, "bad line {line}"),
        Err(ScriptError::NoMemory(_)) => {
            assert!(rt; begins(lines, &text));
            assert!(rt; status == 0 || output == text);
        }
    }
    match status {
        0 => assert_eq!(rt; (output.as_slice(), errors.len()), (lines.as_bytes(), 0)),
        2 => assert!(rt; begins(lines, &output) && errors.as_slice() == b"no memory\n".as_slice()),
        _ => assert!(rt; false, "status {status}"),
    }
}

#[test]
fn the_stored_run_gives_whole_lines(rt: HostRuntime) {
    gives_whole_lines(&rt, STORED.0, STORED.1);
}

#[test]
fn a_script_with_ports_gives_whole_lines(rt: HostRuntime) {
    gives_whole_lines(&rt, SKIPPED.0, SKIPPED.1);
}

#[test]
fn a_reply_is_written_whole_or_not_at_all(rt: HostRuntime) -> Result<(), Fail> {
    let alloc = rt.alloc();
    let node = UniqueNodeId::new(1, 0, 0, 1).ok_or("an id")?;
    let nodes = match vec![in alloc; node, node] {
        Ok(nodes) => nodes,
        Err(_) => vec![in alloc; node, node]?,
    };
    let listing = Reply::Nodes(nodes);
    let mut out = Vec::new(alloc);
    for _ in 0..20 {
        let before = out.len();
        let line = match write_reply(&listing, &mut out) {
            Ok(()) => "list 1000000000000000000000001 1000000000000000000000001\n",
            Err(_) => "",
        };
        assert_eq!(rt; &out[before..], line.as_bytes());
        assert!(rt; !line.is_empty() || may_be_refused(&rt));
    }
    Ok(())
}

#[test]
fn a_line_wants_memory_for_its_list_alone(rt: HostRuntime) {
    let rows = [
        ("register 1.0.0.1", true),
        ("deregister 0", true),
        ("nodes", true),
        ("add listener 1.0.0.9 1.0.0.1", true),
        ("release 0", true),
        ("list listener", true),
        ("count listener", true),
        ("dead 1.0.0.1", true),
        ("dead 1.0.0.1 skip 1.0.0.9", false),
    ];
    for (line, sure) in rows {
        match read_line(rt.alloc(), line.as_bytes()) {
            Ok(found) => assert!(rt; found.is_some(), "at {line}"),
            Err(_) => assert!(rt; !sure && may_be_refused(&rt), "at {line}"),
        }
    }
}

#[test]
fn no_service_has_room_for_all_nodes(rt: HostRuntime) {
    assert!(rt; ServiceState::new(rt.alloc(), &SETTINGS, usize::MAX, 7).is_err());
}
