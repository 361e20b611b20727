//! Calls that overlap nothing, whose replies are those of a run or not.

use super::rows::{Row, Said, are_judged};
use std::test::Fail;

/// An event service with room for two nodes and two listeners: one line.
const SERVICE: &str = "service event 7 2 2 2\n";

/// All replies are those of a run.
static RUNS: [Row; 4] = [
    // A registry may take any free slot.
    (
        "register 1.0.0.1\n= handle 1 0\nregister 1.0.0.2\n= handle 0 1\nregister 1.0.0.3\n= full\nnodes\n= list 1000000000000000000000002 1000000000000000000000001\nadd listener 1.0.0.9 1.0.0.1\n= handle 1 0\nadd listener 1.0.0.8 1.0.0.3\n= not-registered\nadd listener 1.0.0.8 1.0.0.2\n= handle 0 1\nadd listener 1.0.0.7 1.0.0.2\n= full\ncount listener\n= count 2\n",
        Said::Conforms(9, 1),
    ),
    // The last node stays while it has a port, and locks the service when it goes.
    (
        "register 1.0.0.1\n= handle 0 0\nadd listener 1.0.0.9 1.0.0.1\n= handle 0 0\nderegister 0\n= ports-attached\nrelease 1\n= released\nrelease 1\n= not-owned\nderegister 0\n= no-owners\nregister 1.0.0.1\n= locked\nadd listener 1.0.0.9 1.0.0.1\n= locked\nnodes\n= list\n",
        Said::Conforms(9, 1),
    ),
    // A dead node whose listener 8 stays first, and goes with it then.
    (
        "register 1.0.0.1\n= handle 0 0\nadd listener 1.0.0.9 1.0.0.1\n= handle 0 0\nadd listener 1.0.0.8 1.0.0.1\n= handle 1 1\ndead 1.0.0.1 skip 1.0.0.8\n= has-owners\ncount listener\n= count 1\nadd listener 1.0.0.7 1.0.0.1\n= handle 0 2\ndead 1.0.0.1 skip 1.0.0.0\n= no-owners\ncount listener\n= count 0\nregister 1.0.0.2\n= locked\n",
        Said::Conforms(9, 1),
    ),
    // A handle of another kind, a command that gave none, and a role of another pattern.
    (
        "register 1.0.0.1\n= handle 0 0\nadd listener 1.0.0.9 1.0.0.1\n= handle 0 0\nderegister 1\n= not-owned\nrelease 0\n= not-owned\nrelease 2\n= no-handle\nlist publisher\n= wrong-pattern\nregister 1.0.0.2\n= handle 1 1\nderegister 0\n= ports-attached\nderegister 6\n= has-owners\n",
        Said::Conforms(9, 1),
    ),
];

/// No run explains the last reply.
static WRONG: [Row; 11] = [
    // No slot has this number.
    ("register 1.0.0.1\n= handle 2 0\n", Said::Refused(3, 3, 1)),
    // The ticket is not the next one.
    ("register 1.0.0.1\n= handle 0 1\n", Said::Refused(3, 3, 1)),
    // There is room.
    ("register 1.0.0.1\n= full\n", Said::Refused(3, 3, 1)),
    // A ticket is given twice.
    (
        "register 1.0.0.1\n= handle 0 0\nderegister 9\n= no-handle\nregister 1.0.0.2\n= handle 1 0\n",
        Said::Refused(7, 7, 1),
    ),
    // The slot is taken.
    (
        "register 1.0.0.1\n= handle 0 0\nregister 1.0.0.2\n= handle 0 1\n",
        Said::Refused(5, 5, 1),
    ),
    // The service is open.
    (
        "register 1.0.0.1\n= handle 0 0\nadd listener 1.0.0.9 1.0.0.2\n= locked\n",
        Said::Refused(5, 5, 1),
    ),
    // A lock opens again.
    (
        "register 1.0.0.1\n= handle 0 0\nderegister 0\n= no-owners\nregister 1.0.0.1\n= handle 0 1\n",
        Said::Refused(7, 7, 1),
    ),
    // Nodes are listed by rising slot.
    (
        "register 1.0.0.1\n= handle 1 0\nregister 1.0.0.2\n= handle 0 1\nnodes\n= list 1000000000000000000000001 1000000000000000000000002\n",
        Said::Refused(7, 7, 1),
    ),
    // The node has a listener.
    (
        "register 1.0.0.1\n= handle 0 0\nadd listener 1.0.0.9 1.0.0.1\n= handle 0 0\nderegister 0\n= no-owners\n",
        Said::Refused(7, 7, 1),
    ),
    // A listener of the dead node stays.
    (
        "register 1.0.0.1\n= handle 0 0\nadd listener 1.0.0.9 1.0.0.1\n= handle 0 0\ndead 1.0.0.1 skip 1.0.0.9\n= no-owners\n",
        Said::Refused(7, 7, 1),
    ),
    // None stays.
    (
        "register 1.0.0.1\n= handle 0 0\nadd listener 1.0.0.9 1.0.0.1\n= handle 0 0\ndead 1.0.0.1 skip 1.0.0.8\n= has-owners\n",
        Said::Refused(7, 7, 1),
    ),
];

#[test]
fn runs_conform(rt: HostRuntime) -> Result<(), Fail> {
    are_judged(&rt, SERVICE, &RUNS)
}

#[test]
fn a_wrong_reply_is_refused_where_it_stands(rt: HostRuntime) -> Result<(), Fail> {
    are_judged(&rt, SERVICE, &WRONG)
}
