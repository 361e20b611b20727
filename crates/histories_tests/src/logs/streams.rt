//! Logs that come from streams.

use history_logs::logs::{NoProgress, Report, check_streams};
use std::alloc::Global;
use std::io::ErrorKind;
use std::process::Abort;
use test_support::failing_streams::Streams;

/// The status of a run on these streams.
fn status_on(alloc: Global, streams: &mut Streams) -> u8 {
    check_streams(
        alloc,
        &mut streams.input,
        &mut streams.output,
        &mut streams.errors,
        &mut NoProgress,
        Report::Verdict,
    )
}

/// On a log, with these failures, the program ends with this status, output and errors.
fn ends(
    rt: &(impl Abort + AllocGlobal),
    log: &str,
    failing: [Option<u64>; 3],
    (status, output, errors): (u8, &str, &str),
) {
    let (alloc, pieces) = (rt.alloc(), [40, 20]);
    let mut streams = Streams::failing_at(alloc, log.as_bytes(), pieces, failing, ErrorKind::Other);
    let ended = status_on(alloc, &mut streams);
    assert_eq!(rt;
        (
            log,
            ended,
            streams.output.bytes.as_slice(),
            streams.errors.bytes.as_slice()
        ),
        (log, status, output.as_bytes(), errors.as_bytes())
    );
}

/// A good log, whose verdict is written in two pieces.
const GOOD: &str = "service event 7 2 0 1\nregister 1.0.0.1\n= handle 1 0\n";

const CONFORMS: &str = "conforms, 1 call on 1 service\n";

/// Logs, with the status, the output and the errors of each.
static VERDICTS: [(&str, u8, &str, &str); 17] = [
    (GOOD, 0, CONFORMS, ""),
    (
        "service event 7 2 0 1\nservice event 8 2 0 1\n",
        0,
        "conforms, 0 calls on 2 services\n",
        "",
    ),
    (
        "service event 7 2 0 1\nregister 1.0.0.1\n= locked\n",
        1,
        "line 3: no order of the calls explains this reply\nseen: locked\ncall: register 1.0.0.1 (line 2)\nwindow: from line 3\nneeded: lines 3\nmade: none\npossible: handle 0-1 0\nnodes:\nports:\n",
        "",
    ),
    (
        "service event 7 7 0 0\nstate nodes 5\nstate 1 0 register 1.0.0.1\nstate 4 3 register 2.0.0.1\nregister 3.0.0.1\n= locked\n",
        1,
        "line 6: no order of the calls explains this reply\nseen: locked\ncall: register 3.0.0.1 (line 5)\nwindow: from line 6\nneeded: lines 6\nmade: none\npossible: handle 0,2-3,5-6 5\nnodes: 1000000000000000000000001 2000000000000000000000001\nports:\n",
        "",
    ),
    (
        "service event 7 2 1 1\nregister 1.0.0.1\n= handle 1 0\nadd notifier 2.0.0.2 1.0.0.1\n= handle 0 0\nadd listener 2.0.0.1 1.0.0.1\n= handle 0 0\nderegister 0\n= no-owners\n",
        1,
        "line 9: no order of the calls explains this reply\nseen: no-owners\ncall: deregister 0 (line 8)\nwindow: from line 9\nneeded: lines 9\nmade: none\npossible: ports-attached\nnodes: 1000000000000000000000001\nports: 2000000000000000000000001 2000000000000000000000002\n",
        "",
    ),
    (
        "service event 7 2 0 1\nA> register 1.0.0.1\nB> register 1.0.0.2\nB< handle 1 1\nC> nodes\nC< list\n",
        1,
        "line 6: no order of the calls explains this reply\nseen: list\ncall: C> nodes (line 5)\nwindow: from line 2\nneeded: lines 2 3 5\nmade: lines 2\npossible: list 1000000000000000000000001 1000000000000000000000002\nnodes: 1000000000000000000000001 1000000000000000000000002\nports:\n",
        "",
    ),
    (
        "",
        2,
        "",
        "line 1: the line of a service is expected, as service event 7 2 2 0; a pattern is \
        publish-subscribe, event, request-response or blackboard\n",
    ),
    (
        "service event 7 2 0 1\nnode\n",
        2,
        "",
        "line 2: a line that begins with register, deregister, nodes, add, release, list, count, \
        dead, state, service or a caller, whose name has 1 to 16 letters and digits, is expected\n",
    ),
    (
        "service event 7 2 0 1\nnodes\n",
        2,
        "",
        "line 3: a reply is expected, as handle 0 3, list 1000000000000000000000001, count 2 or \
        released; below a call alone with = before it\n",
    ),
    (
        "service event 7 2 0 1\nA> nodes\nA> nodes\n",
        2,
        "",
        "line 3: a caller without an open call is expected\n",
    ),
    (
        "service event 7 2 0 1\nA< list\n",
        2,
        "",
        "line 2: a caller with an open call is expected\n",
    ),
    (
        "service event 7 2 0 1\nA> nodes\nA!\nA!\n",
        2,
        "",
        "line 4: a caller that has not died is expected\n",
    ),
    (
        "service event 7 2 0 1\nA!\n",
        2,
        "",
        "line 2: a caller that has begun a call is expected\n",
    ),
    (
        "service event 7 2 0 1",
        2,
        "",
        "line 1: a newline is expected at the end of the line\n",
    ),
    (
        "service event 7 2 0 1\r\n",
        2,
        "",
        "line 1: no carriage return is expected before the newline\n",
    ),
    (
        "service event 7 2 0 1\n8: nodes\n",
        2,
        "",
        "line 2: a line on a service above, by its number, or a new service is expected\n",
    ),
    (
        "service event 7 2 0 1\nnodes\n= foo\n",
        2,
        "",
        "line 3: a reply is expected, as handle 0 3, list 1000000000000000000000001, count 2 or \
        released; below a call alone with = before it\n",
    ),
];

#[test]
fn verdicts(rt: HostRuntime) {
    for (log, status, output, errors) in &VERDICTS {
        ends(&rt, log, [None; 3], (*status, output, errors));
    }
}

#[test]
fn streams_that_fail(rt: HostRuntime) {
    let reported = "a stream failed\n";
    // The log is read in two pieces, and the last read finds its end.
    for call in 0..3 {
        ends(&rt, GOOD, [Some(call), None, None], (3, "", reported));
    }
    ends(&rt, GOOD, [None, Some(0), None], (3, "", reported));
    ends(
        &rt,
        GOOD,
        [None, Some(1), None],
        (3, "conforms, 1 call on ", reported),
    );
    ends(&rt, GOOD, [None, Some(2), None], (3, CONFORMS, reported));
    ends(&rt, GOOD, [None, None, Some(0)], (3, CONFORMS, reported));
    ends(&rt, "", [None, None, Some(0)], (3, "", reported));
}
