//! Logs of so many lines that what was seen settles while they are read.

use super::rows::{Row, Said, verdict_on};
use std::alloc::{AllocError, Global};
use std::process::Abort;
use std::test::Fail;

/// Adds 2,500 calls alone, of two lines each.
fn add_calls(log: &mut String) -> Result<(), AllocError> {
    for _ in 0..2500 {
        log.push_str("list notifier\n= list\n")?;
    }
    Ok(())
}

/// The verdict on a log of an event service in which many calls stand before and behind the second
/// part.
fn verdict_between(
    alloc: Global,
    first: &str,
    second: &str,
    last: &str,
) -> Result<Said, AllocError> {
    let mut log = String::from_str(alloc, "service event 7 3 2 2\n")?;
    log.push_str(first)?;
    add_calls(&mut log)?;
    log.push_str(second)?;
    add_calls(&mut log)?;
    log.push_str(last)?;
    verdict_on(alloc, log.as_bytes())
}

/// The first part of a log, the second one, and the last one, and what it must be judged to be.
static PARTS: [(&str, &str, Row); 11] = [
    // A call is open over several settlings, and its reply comes later.
    (
        "A> register 1.0.0.1\n",
        "A< handle 0 0\n",
        (
            "nodes\n= list 1000000000000000000000001\n",
            Said::Conforms(5002, 1),
        ),
    ),
    (
        "A> register 1.0.0.1\n",
        "A< handle 0 0\n",
        ("nodes\n= list\n", Said::Refused(10005, 10005, 1)),
    ),
    // It is open to the end.
    (
        "A> register 1.0.0.1\n",
        "B> nodes\n",
        (
            "B< list 1000000000000000000000001\n",
            Said::Conforms(5002, 1),
        ),
    ),
    // Its caller dies.
    (
        "A> register 1.0.0.1\n",
        "A!\n",
        ("nodes\n= list\n", Said::Conforms(5002, 1)),
    ),
    // A weak listing.
    (
        "A> nodes?\nB> register 1.0.0.1\nB< handle 0 0\n",
        "A< list\n",
        ("", Said::Conforms(5002, 1)),
    ),
    (
        "register 1.0.0.1\n= handle 0 0\nA> nodes?\n",
        "A< list\n",
        ("", Said::Refused(5005, 4, 1)),
    ),
    // A number names a command from which all has settled since.
    (
        "register 1.0.0.1\n= handle 0 0\n",
        "add listener 1.0.0.10 1.0.0.1\n= handle 0 0\n",
        ("deregister 0\n= ports-attached\n", Said::Conforms(5003, 1)),
    ),
    (
        "register 1.0.0.1\n= handle 0 0\n",
        "add listener 1.0.0.10 1.0.0.1\n= handle 0 0\n",
        (
            "release 2501\n= released\nnodes\n= list 1000000000000000000000001\n",
            Said::Conforms(5004, 1),
        ),
    ),
    // The service begins anew.
    (
        "register 1.0.0.1\n= handle 0 0\n",
        "state nodes 20\n",
        ("register 1.0.0.2\n= handle 0 20\n", Said::Conforms(5002, 1)),
    ),
    (
        "register 1.0.0.1\n= handle 0 0\n",
        "state nodes 20\n",
        (
            "register 1.0.0.2\n= handle 0 1\n",
            Said::Refused(10006, 10006, 1),
        ),
    ),
    (
        "A> register 1.0.0.1\nA!\n",
        "state nodes 20\nstate 0 1 register 1.0.0.2\n",
        ("deregister 0 1\n= no-owners\n", Said::Conforms(5002, 1)),
    ),
];

#[test]
fn long_logs_are_judged_as_short_ones(rt: HostRuntime) -> Result<(), Fail> {
    for (first, second, (last, wanted)) in &PARTS {
        assert_eq!(rt;
            (last, verdict_between(rt.alloc(), first, second, last)?),
            (last, *wanted)
        );
    }
    Ok(())
}
