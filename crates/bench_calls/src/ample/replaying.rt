//! Commands in one call and over many, their listings, and the lines of these; lines and scripts.
use super::Called;
use super::listings::port;
use service_descriptions::container::Role;
use service_descriptions::dynamic_config::MessagingPatternSettings;
use service_descriptions::hash::PatternKind;
use service_descriptions::identifiers::UniqueNodeId;
use service_descriptions::replay::{
    Command, ServiceState, read_line, replay, run_script, run_streams, write_reply,
};
use std::alloc::{AllocError, Global};

/// A service with this capacity for nodes, for listeners and for notifiers.
fn state(alloc: Global, capacities: usize) -> Result<Box<ServiceState>, AllocError> {
    let settings = MessagingPatternSettings::new(PatternKind::Event, capacities, capacities);
    Ok(Box::new(alloc, ServiceState::new(alloc, &settings, capacities, 7)?)?)
}

/// So many commands in one call.
fn at_once(alloc: Global, commands: usize) -> Result<(), AllocError> {
    let mut all = Vec::new(alloc);
    for _ in 0..commands {
        all.push(Command::Count(Role::Listener))?;
    }
    let mut state = state(alloc, 1)?;
    in_turn(alloc, &mut state, &all, 1)
}

/// So many calls of the same commands.
fn in_turn(
    alloc: Global,
    state: &mut ServiceState,
    commands: &[Command],
    calls: usize,
) -> Result<(), AllocError> {
    let mut replies = Vec::new(alloc);
    for _ in 0..calls {
        replies.clear();
        replay(alloc, state, commands, &mut replies)?;
    }
    Ok(())
}

/// So many calls of one command.
fn over_many(alloc: Global, calls: usize) -> Result<(), AllocError> {
    let mut state = state(alloc, 1)?;
    in_turn(alloc, &mut state, &[Command::Count(Role::Listener)], calls)
}

/// A node and a port of each kind come.
fn coming() -> Option<[Command; 3]> {
    let node_id = UniqueNodeId::new(1, 0, 0, 1)?;
    let listener = port(Role::Listener, node_id)?;
    let notifier = port(Role::Notifier, node_id)?;
    Some([
        Command::Register(node_id),
        Command::Add(listener),
        Command::Add(notifier),
    ])
}

/// Listings of this many nodes and ports of each kind, and their lines.
fn listed(alloc: Global, entries: usize) -> Result<(), AllocError> {
    let mut state = state(alloc, entries)?;
    if let Some(commands) = coming() {
        in_turn(alloc, &mut state, &commands, entries)?;
    }
    let listings = [
        Command::Nodes,
        Command::List(Role::Listener),
        Command::List(Role::Notifier),
    ];
    let mut replies = Vec::new(alloc);
    replay(alloc, &mut state, &listings, &mut replies)?;
    let mut out = Vec::new(alloc);
    for reply in &replies {
        write_reply(reply, &mut out)?;
    }
    Ok(())
}

pub(super) fn calls(alloc: Global, size: usize) -> [Called; 3] {
    [
        ("replay by commands", at_once(alloc, size).is_ok()),
        ("replay by earlier commands", over_many(alloc, size).is_ok()),
        (
            "replay and write_reply by entries",
            listed(alloc, size).is_ok(),
        ),
    ]
}

/// Appends a text this many times.
fn append(out: &mut Vec<u8>, text: &[u8], times: usize) -> Result<(), AllocError> {
    for _ in 0..times {
        out.extend_from_slice(text)?;
    }
    Ok(())
}

/// Appends the line of a dead node with this many ports to skip, of which none is there.
fn append_dead(out: &mut Vec<u8>, ports: usize) -> Result<(), AllocError> {
    append(out, b"dead 1.0.0.1", 1)?;
    append(out, b" skip", ports.min(1))?;
    append(out, b" 1.0.0.9", ports)
}

/// A line with this many ports.
fn reads(alloc: Global, ports: usize) -> Result<bool, AllocError> {
    let mut line = Vec::new(alloc);
    append_dead(&mut line, ports)?;
    Ok(read_line(alloc, &line)?.is_some())
}

/// A script, and the program on it.
fn runs(alloc: Global, script: &[u8]) -> bool {
    let mut out = Vec::new(alloc);
    let mut output = Vec::new(alloc);
    let mut errors = Vec::new(alloc);
    let mut input = script;
    run_script(alloc, script, &mut out).is_ok()
        && run_streams(alloc, &mut input, &mut output, &mut errors) == 0
}

/// A script of this many commands.
fn runs_lines(alloc: Global, commands: usize) -> Result<bool, AllocError> {
    let mut script = Vec::new(alloc);
    append(&mut script, b"service event 7 1 1 1\n", 1)?;
    append(&mut script, b"count listener\n", commands)?;
    Ok(runs(alloc, &script))
}

/// A script whose one command has this many ports to skip.
fn runs_long_line(alloc: Global, ports: usize) -> Result<bool, AllocError> {
    let mut script = Vec::new(alloc);
    append(&mut script, b"service event 7 1 1 1\n", 1)?;
    append_dead(&mut script, ports)?;
    append(&mut script, b"\n", 1)?;
    Ok(runs(alloc, &script))
}

pub(super) fn calls_on_scripts(alloc: Global, size: usize) -> [Called; 3] {
    [
        ("read_line by ports", reads(alloc, size) == Ok(true)),
        (
            "run_script and run_streams by lines",
            runs_lines(alloc, size) == Ok(true),
        ),
        (
            "run_script and run_streams by ports",
            runs_long_line(alloc, size) == Ok(true),
        ),
    ]
}
