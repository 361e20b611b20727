//! The calls that a refusal needs.

use super::overlapping::TWO_NODES;
use history_logs::logs::{Verdict, check_log};
use std::alloc::{AllocError, Global};
use std::process::Abort;
use std::test::Fail;

/// The lines of the calls that the refusal of the log needs, if it is refused.
fn needed_in(alloc: Global, log: &str) -> Result<Vec<usize>, AllocError> {
    match check_log(alloc, log.as_bytes())? {
        Verdict::Refused(reported) => Vec::from_slice(alloc, &reported.needed),
        _ => Ok(Vec::new(alloc)),
    }
}

/// The same of a log of two parts.
fn needed_after(alloc: Global, front: &str, rest: &str) -> Result<Vec<usize>, AllocError> {
    let mut log = String::from_str(alloc, front)?;
    log.push_str(rest)?;
    needed_in(alloc, log.as_str())
}

/// The end of a log, and the lines of the calls that its refusal needs.
type Row = (&'static str, &'static [usize]);

/// Logs that begin so and go on as the rows say need these calls.
fn need(rt: &(impl Abort + AllocGlobal), front: &str, rows: &[Row]) -> Result<(), Fail> {
    for (rest, wanted) in rows {
        let needed = needed_after(rt.alloc(), front, rest)?;
        assert_eq!(rt; (rest, needed.as_slice()), (rest, *wanted));
    }
    Ok(())
}

static NEEDED: [Row; 11] = [
    (
        "nodes\n= list 1000000000000000000000001 2000000000000000000000002\n",
        &[],
    ),
    // What was seen before the window is no part of it.
    ("nodes\n= list\n", &[7]),
    // A query and a call that is refused change nothing.
    (
        "A> register 3.0.0.3\nB> nodes\nB< list 1000000000000000000000001 2000000000000000000000002\nderegister 9\n= no-handle\nB> register 4.0.0.4\nB< handle 2 2\nA< handle 2 2\n",
        &[6, 11],
    ),
    // So does a query without a reply, down to the line that decides or at all.
    (
        "A> register 3.0.0.3\nB> nodes\nC> list listener\nD> count notifier\nE> nodes\nA< handle 2 2\nF> register 4.0.0.4\nF< handle 2 2\nB< list 1000000000000000000000001 2000000000000000000000002\nC< list\nD< count 0\n",
        &[6, 12],
    ),
    // It is needed where its reply is the refused one.
    (
        "B> nodes\nC> nodes\nA> register 3.0.0.3\nA< handle 2 2\nB< list 1000000000000000000000001\n",
        &[6, 8],
    ),
    // That they change nothing may be seen only below.
    (
        "A> register 3.0.0.3\nB> register 4.0.0.4\nA< full\nB< full\n",
        &[6],
    ),
    // The old state was read after the new one: here the query that saw the new one is needed.
    (
        "A> register 3.0.0.3\nB> nodes\nB< list 1000000000000000000000001 2000000000000000000000002 3000000000000000000000003\nB> nodes\nB< list 1000000000000000000000001 2000000000000000000000002\nA< handle 2 2\n",
        &[6, 7, 9],
    ),
    // One that saw the old one before is not.
    (
        "A> register 3.0.0.3\nB> nodes\nB< list 1000000000000000000000001 2000000000000000000000002\nB> nodes\nB< list 1000000000000000000000001 2000000000000000000000002 3000000000000000000000003\nB> nodes\nB< list 1000000000000000000000001 2000000000000000000000002\n",
        &[6, 9, 11],
    ),
    // Two saw the new one: one of them is enough.
    (
        "A> register 3.0.0.3\nB> nodes\nC> nodes\nB< list 1000000000000000000000001 2000000000000000000000002 3000000000000000000000003\nC< list 1000000000000000000000001 2000000000000000000000002 3000000000000000000000003\nB> nodes\nB< list 1000000000000000000000001 2000000000000000000000002\n",
        &[6, 8, 11],
    ),
    // A call that was never answered may have changed something.
    ("A> register 3.0.0.3\nB> nodes\nA!\nB< list\n", &[6, 7]),
    // Calls of another service are none of them.
    (
        "service event 8 2 0 1\n7: A> register 3.0.0.3\n8: B> register 1.0.0.1\n7: C> nodes\nC< list\n",
        &[7, 9],
    ),
];

#[test]
fn calls_that_change_nothing_are_left_out(rt: HostRuntime) -> Result<(), Fail> {
    need(&rt, TWO_NODES, &NEEDED)
}

/// A service with a node and a listener at the last of two places.
const IN_USE: &str =
    "service event 7 2 2 2\nstate nodes 5\nstate listener 3\nstate 1 4 register 1.0.0.1\nstate 1 2 add listener 1.0.0.7 1.0.0.1\n";

static IN_THE_MIDDLE: [Row; 2] = [
    // There is one place.
    (
        "A> add listener 1.0.0.8 1.0.0.1\ncount listener\n= count 1\nB> add listener 1.0.0.9 1.0.0.1\nB< handle 0 3\nA< handle 0 4\n",
        &[6, 9],
    ),
    // The next ticket is 5.
    (
        "nodes\n= list 1000000000000000000000001\nregister 2.0.0.1\n= handle 0 0\n",
        &[9],
    ),
];

#[test]
fn a_log_begins_in_the_middle(rt: HostRuntime) -> Result<(), Fail> {
    need(&rt, IN_USE, &IN_THE_MIDDLE)
}

/// A query that reads the old state, and one that reads the new one.
const OLD: &str = "nodes\n= list 1000000000000000000000001 2000000000000000000000002\n";

const NEW: &str =
    "nodes\n= list 1000000000000000000000001 2000000000000000000000002 3000000000000000000000003\n";

/// The old state is read so often, then the new one, and then the old one again.
fn long_window(alloc: Global, reads: usize) -> Result<String, AllocError> {
    let mut log = String::from_str(alloc, TWO_NODES)?;
    log.push_str("A> register 3.0.0.3\n")?;
    for _ in 0..reads {
        log.push_str(OLD)?;
    }
    log.push_str(NEW)?;
    log.push_str(OLD)?;
    Ok(log)
}

#[test]
fn where_a_window_is_large_some_calls_stay(rt: HostRuntime) -> Result<(), Fail> {
    let few = needed_in(rt.alloc(), long_window(rt.alloc(), 100)?.as_str())?;
    assert_eq!(rt; few.as_slice(), [6, 208, 210].as_slice());
    let many = needed_in(rt.alloc(), long_window(rt.alloc(), 600)?.as_str())?;
    assert!(rt; many.len() > 3 && many.len() < 600, "{}", many.len());
    Ok(())
}
