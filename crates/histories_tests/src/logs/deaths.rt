//! Calls that were never answered: their callers died, or they are open at the end of the log.

use super::overlapping::TWO_NODES;
use super::rows::{Row, Said, are_judged};
use std::test::Fail;

static DEATHS: [Row; 11] = [
    // The call took effect, or it did not.
    (
        "A> register 3.0.0.3\nA!\nnodes\n= list 1000000000000000000000001 2000000000000000000000002 3000000000000000000000003\n",
        Said::Conforms(4, 1),
    ),
    (
        "A> register 3.0.0.3\nA!\nnodes\n= list 1000000000000000000000001 2000000000000000000000002\n",
        Said::Conforms(4, 1),
    ),
    // It takes no effect after its caller died.
    (
        "A> register 3.0.0.3\nA!\nnodes\n= list 1000000000000000000000001 2000000000000000000000002\nnodes\n= list 1000000000000000000000001 2000000000000000000000002 3000000000000000000000003\n",
        Said::Refused(11, 11, 1),
    ),
    (
        "A> register 3.0.0.3\nB> nodes\nA!\nB< list 1000000000000000000000001 2000000000000000000000002\nB> nodes\nB< list 1000000000000000000000001 2000000000000000000000002 3000000000000000000000003\n",
        Said::Conforms(5, 1),
    ),
    (
        "A> register 3.0.0.3\nA!\nB> nodes\nB< list 1000000000000000000000001 2000000000000000000000002\nB> nodes\nB< list 1000000000000000000000001 2000000000000000000000002 3000000000000000000000003\n",
        Said::Refused(11, 10, 1),
    ),
    // A call that is open at the end takes effect whenever it may, and once.
    ("A> deregister 0\n", Said::Conforms(3, 1)),
    (
        "A> register 3.0.0.3\nnodes\n= list 1000000000000000000000001 2000000000000000000000002\nnodes\n= list 1000000000000000000000001 2000000000000000000000002 3000000000000000000000003\n",
        Said::Conforms(5, 1),
    ),
    (
        "A> register 3.0.0.3\nnodes\n= list 1000000000000000000000001 2000000000000000000000002 3000000000000000000000003\nnodes\n= list 1000000000000000000000001 2000000000000000000000002\n",
        Said::Refused(10, 6, 1),
    ),
    (
        "A> deregister 0\nB> deregister 1\nB!\nregister 3.0.0.3\n= locked\n",
        Said::Conforms(5, 1),
    ),
    // A caller without an open call dies, and others go on.
    (
        "A> nodes\nA< list 1000000000000000000000001 2000000000000000000000002\nA!\nB> count listener\nB< count 0\n",
        Said::Conforms(4, 1),
    ),
    // Its handle is known from nothing but later lines.
    (
        "A> register 3.0.0.3\nA!\nderegister 2\n= no-handle\nderegister 2 2\n= has-owners\n",
        Said::Conforms(5, 1),
    ),
];

#[test]
fn callers_die_and_calls_stay_open(rt: HostRuntime) -> Result<(), Fail> {
    are_judged(&rt, TWO_NODES, &DEATHS)
}

/// An add that is not answered came first: the one below it has ticket 1.
const UNANSWERED: &str =
    "service event 7 1 3 0\nregister 1.0.0.1\n= handle 0 0\nA> add listener 1.0.0.10 1.0.0.1\nadd listener 1.0.0.11 1.0.0.1\n= handle 1 1\n";

/// A later line shows the slot that it took.
static SLOTS: [Row; 7] = [
    ("", Said::Conforms(3, 1)),
    (
        "list listener\n= list 100000000000000000000000a 100000000000000000000000b\n",
        Said::Conforms(4, 1),
    ),
    (
        "list listener\n= list 100000000000000000000000b 100000000000000000000000a\n",
        Said::Conforms(4, 1),
    ),
    (
        "list listener\n= list 100000000000000000000000b\n",
        Said::Refused(8, 4, 2),
    ),
    (
        "list listener\n= list 100000000000000000000000b 100000000000000000000000a\nadd listener 1.0.0.12 1.0.0.1\n= handle 0 2\n",
        Said::Conforms(5, 1),
    ),
    (
        "list listener\n= list 100000000000000000000000a 100000000000000000000000b\nadd listener 1.0.0.12 1.0.0.1\n= handle 0 2\n",
        Said::Refused(10, 4, 1),
    ),
    (
        "release listener 2 0\n= released\nlist listener\n= list 100000000000000000000000b\n",
        Said::Conforms(5, 1),
    ),
];

#[test]
fn a_later_line_shows_the_slot_of_an_add(rt: HostRuntime) -> Result<(), Fail> {
    are_judged(&rt, UNANSWERED, &SLOTS)
}
