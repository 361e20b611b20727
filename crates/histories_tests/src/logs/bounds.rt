//! The bounds on open calls and on configurations.

use super::rows::{Said, verdict_on};
use std::alloc::{AllocError, Global};
use std::process::Abort;
use std::test::Fail;

/// A log in which so many callers each begin a call, and then end it.
pub(super) fn open_calls(alloc: Global, count: usize) -> Result<String, AllocError> {
    let mut log = String::from_str(alloc, "service event 7 3 2 2\n")?;
    for caller in 0..count {
        writeln!(log, "c{caller}> nodes")?;
    }
    for caller in 0..count {
        writeln!(log, "c{caller}< list")?;
    }
    Ok(log)
}

#[test]
fn at_most_64_calls_are_open(rt: HostRuntime) -> Result<(), Fail> {
    for (count, wanted) in [(64, Said::Conforms(64, 1)), (65, Said::ManyOpen(66))] {
        let log = open_calls(rt.alloc(), count)?;
        assert_eq!(rt;
            (count, verdict_on(rt.alloc(), log.as_bytes())?),
            (count, wanted)
        );
    }
    Ok(())
}

/// Queries, of which the pattern lacks the role of the last one.
static QUERIES: [&str; 4] = ["nodes", "list listener", "count notifier", "list reader"];

/// A log with so many calls of each query that have no reply, in which a node is registered with
/// this reply.
fn open_queries(alloc: Global, count: usize, reply: &str) -> Result<String, AllocError> {
    let mut log = String::from_str(alloc, "service event 7 3 2 2\n")?;
    for caller in 0..count {
        for (kind, query) in QUERIES.iter().enumerate() {
            writeln!(log, "c{caller}q{kind}> {query}")?;
        }
    }
    writeln!(log, "a> register 1.0.0.1\na< {reply}")?;
    Ok(log)
}

#[test]
fn queries_without_a_reply_lead_to_one_configuration(rt: HostRuntime) -> Result<(), Fail> {
    for (reply, wanted) in [
        ("handle 0 0", Said::Conforms(61, 1)),
        ("handle 0 1", Said::Refused(63, 2, 1)),
    ] {
        let log = open_queries(rt.alloc(), 15, reply)?;
        assert_eq!(rt;
            (reply, verdict_on(rt.alloc(), log.as_bytes())?),
            (reply, wanted)
        );
    }
    Ok(())
}

/// A log of 14 nodes, of which so many die while another one is registered: its reply does not say
/// which had died before, so it leads to a configuration for each set of them.
pub(super) fn deaths(alloc: Global, count: usize) -> Result<String, AllocError> {
    let mut log = String::from_str(alloc, "service event 7 20 0 0\n")?;
    for node in 1..15usize {
        let slot = node.saturating_sub(1);
        writeln!(log, "register {node}.0.0.1\n= handle {slot} {slot}")?;
    }
    for node in 1..count.saturating_add(1) {
        writeln!(log, "c{node}> dead {node}.0.0.1")?;
    }
    log.push_str("d> register 15.0.0.1\nd< handle 19 14\n")?;
    Ok(log)
}

/// The verdict on such a log.
fn verdict_with(alloc: Global, count: usize) -> Result<Said, AllocError> {
    let log = deaths(alloc, count)?;
    verdict_on(alloc, log.as_bytes())
}

#[test]
fn as_many_as_4096_configurations_are_followed(rt: HostRuntime) -> Result<(), Fail> {
    assert_eq!(rt; verdict_with(rt.alloc(), 12)?, Said::Conforms(27, 1));
    Ok(())
}

#[test]
fn more_configurations_are_not_followed(rt: HostRuntime) -> Result<(), Fail> {
    assert_eq!(rt; verdict_with(rt.alloc(), 13)?, Said::ManyConfigs(44));
    Ok(())
}

/// The verdict on a log of a service with so many slots of nodes, in which a node is listed that a
/// call without a reply has registered: it may stand in each of them.
fn verdict_with_slots(alloc: Global, slots: u64) -> Result<Said, AllocError> {
    let mut log = String::from_str(alloc, "")?;
    writeln!(log, "service event 7 {slots} 0 0")?;
    log.push_str("A> register 1.0.0.1\nnodes\n= list 1000000000000000000000001\n")?;
    verdict_on(alloc, log.as_bytes())
}

#[test]
fn so_many_slots_are_tried_for_a_call_without_a_reply(rt: HostRuntime) -> Result<(), Fail> {
    for (slots, wanted) in [
        (4096, Said::Conforms(2, 1)),
        (4097, Said::ManyConfigs(4)),
        (u64::MAX, Said::ManyConfigs(4)),
    ] {
        assert_eq!(rt;
            (slots, verdict_with_slots(rt.alloc(), slots)?),
            (slots, wanted)
        );
    }
    Ok(())
}
