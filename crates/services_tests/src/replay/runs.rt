//! Commands in one call or in many.

use super::deaths;
use super::serving::{new_service, serve, spell};
use service_descriptions::container::Role;
use service_descriptions::identifiers::UniqueNodeId;
use service_descriptions::replay::{Command, Reply, ServiceState, replay};
use std::alloc::{AllocError, Global};
use std::test::Fail;
use test_support::scripts::DIED_TWICE;

/// Appends the reply lines of the commands that these lines spell, given in one call.
fn serve_lines(
    alloc: Global,
    state: &mut ServiceState,
    lines: &[&str],
    out: &mut Vec<u8>,
) -> Result<(), AllocError> {
    let mut commands = Vec::new(alloc);
    spell(alloc, lines, &mut commands)?;
    serve(alloc, state, &commands, out)
}

/// Several calls on a new service, of which one has no command.
fn serve_in_turn(
    alloc: Global,
    state: &mut ServiceState,
    out: &mut Vec<u8>,
) -> Result<(), AllocError> {
    serve_lines(alloc, state, &["register 1.0.0.1", "register 2.0.0.2"], out)?;
    serve_lines(alloc, state, &[], out)?;
    serve_lines(alloc, state, &["deregister 1"], out)?;
    // A removed handle stays named by its command, and a command that gave none names none.
    serve_lines(alloc, state, &["deregister 1", "deregister 2"], out)?;
    serve_lines(alloc, state, &["register 2.0.0.2", "deregister 0"], out)?;
    serve_lines(alloc, state, &["deregister 5", "register 1.0.0.1"], out)
}

#[test]
fn many_calls_on_one_state(rt: HostRuntime) -> Result<(), Fail> {
    let mut state = new_service(rt.alloc(), "service event 7 2 2 2")?;
    let mut out = Vec::new(rt.alloc());
    serve_in_turn(rt.alloc(), &mut state, &mut out)?;
    assert_eq!(rt;
        out.as_slice(),
        b"handle 0 0\nhandle 1 1\nhas-owners\nnot-owned\nno-handle\nhandle 1 2\nhas-owners\nno-owners\nlocked\n".as_slice()
    );
    Ok(())
}

/// Gives the commands to a new service, this many in
/// each call, and appends the lines of its replies.
fn serve_some_at_once(
    alloc: Global,
    commands: &[Command],
    at_once: usize,
    out: &mut Vec<u8>,
) -> Result<(), Fail> {
    let mut state = new_service(alloc, "service publish-subscribe 9 2 2 2")?;
    for some in commands.chunks(at_once.max(1)) {
        serve(alloc, &mut state, some, out)?;
    }
    Ok(())
}

#[test]
fn a_dead_node_whose_ports_are_answered_in_order(rt: HostRuntime) -> Result<(), Fail> {
    let node = UniqueNodeId::new(1, 0, 0, 1).ok_or("an id")?;
    let commands = deaths::commands(rt.alloc(), node)?;
    for at_once in [1, 2, 5, commands.len()] {
        let mut out = Vec::new(rt.alloc());
        serve_some_at_once(rt.alloc(), &commands, at_once, &mut out)?;
        assert_eq!(rt; out.as_slice(), DIED_TWICE.as_bytes(), "{at_once} at once");
    }
    Ok(())
}

#[test]
fn queries_are_replied_to_in_turn(rt: HostRuntime) -> Result<(), Fail> {
    let alloc = rt.alloc();
    let commands = [Command::Count(Role::Listener), Command::List(Role::Reader)];
    let good = [Reply::Count(0), Reply::WrongPattern];
    let mut state = new_service(alloc, "service event 7 2 2 2")?;
    let mut replies = Vec::new(alloc);
    replay(alloc, &mut state, &commands, &mut replies)?;
    assert_eq!(rt; replies.as_slice(), good.as_slice());
    Ok(())
}
