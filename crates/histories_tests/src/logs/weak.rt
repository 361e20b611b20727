//! Weak listings: they need not be snapshots.

use super::rows::{Row, Said, are_judged};
use history_logs::logs::{Expected, LogForm};
use std::test::Fail;

/// An event service with a node and a listener in slot 0: five lines.
const ONE_LISTENER: &str =
    "service event 7 3 2 2\nregister 1.0.0.1\n= handle 0 0\nadd listener 1.0.0.10 1.0.0.1\n= handle 0 0\n";

static LISTINGS: [Row; 20] = [
    // It has what was there all through it, and no more is needed.
    (
        "A> list? listener\nA< list 100000000000000000000000a\n",
        Said::Conforms(3, 1),
    ),
    ("A> list? listener\nA< list\n", Said::Refused(7, 6, 1)),
    // It has nothing that never was there during it.
    (
        "release listener 0 0\n= released\nA> list? listener\nA< list 100000000000000000000000a\n",
        Said::Refused(9, 8, 1),
    ),
    (
        "A> list? listener\nA< list 100000000000000000000000a 100000000000000000000000b\nadd listener 1.0.0.11 1.0.0.1\n= handle 1 1\n",
        Said::Refused(7, 6, 1),
    ),
    // One port goes and then another one comes: both were there, and each was away.
    (
        "A> list? listener\nrelease listener 0 0\n= released\nadd listener 1.0.0.11 1.0.0.1\n= handle 0 1\nA< list 100000000000000000000000a 100000000000000000000000b\n",
        Said::Conforms(5, 1),
    ),
    (
        "A> list listener\nrelease listener 0 0\n= released\nadd listener 1.0.0.11 1.0.0.1\n= handle 0 1\nA< list 100000000000000000000000a 100000000000000000000000b\n",
        Said::Refused(11, 6, 1),
    ),
    // One comes and then another one goes: it may have neither.
    (
        "A> list? listener\nadd listener 1.0.0.11 1.0.0.1\n= handle 1 1\nrelease listener 0 0\n= released\nA< list\n",
        Said::Conforms(5, 1),
    ),
    (
        "A> list listener\nadd listener 1.0.0.11 1.0.0.1\n= handle 1 1\nrelease listener 0 0\n= released\nA< list\n",
        Said::Refused(11, 6, 1),
    ),
    // What an earlier one has seen, a later one sees while it stays.
    (
        "B> add listener 1.0.0.11 1.0.0.1\nA> list? listener\nA< list 100000000000000000000000a 100000000000000000000000b\nA> list? listener\nA< list 100000000000000000000000a\nB< handle 1 1\n",
        Said::Refused(10, 6, 1),
    ),
    // A call that was never answered took effect, since the listing has seen it.
    (
        "B> add listener 1.0.0.11 1.0.0.1\nA> list? listener\nA< list 100000000000000000000000a 100000000000000000000000b\nB!\nlist listener\n= list 100000000000000000000000a\n",
        Said::Refused(11, 11, 1),
    ),
    // It asks nothing where it has no reply.
    ("A> list? listener\nA!\n", Said::Conforms(3, 1)),
    ("A> list? listener\n", Said::Conforms(3, 1)),
    // Ports of another pattern.
    (
        "A> list? publisher\nA< wrong-pattern\n",
        Said::Conforms(3, 1),
    ),
    ("A> list? publisher\nA< list\n", Said::Refused(7, 6, 1)),
    (
        "A> list? listener\nA< wrong-pattern\n",
        Said::Refused(7, 6, 1),
    ),
    // Nodes.
    (
        "A> nodes?\nregister 2.0.0.2\n= handle 1 1\nA< list 1000000000000000000000001\n",
        Said::Conforms(4, 1),
    ),
    (
        "A> nodes?\nregister 2.0.0.2\n= handle 1 1\nA< list 2000000000000000000000002 1000000000000000000000001\n",
        Said::Conforms(4, 1),
    ),
    (
        "A> nodes?\nregister 2.0.0.2\n= handle 1 1\nA< list 2000000000000000000000002\n",
        Said::Refused(9, 6, 1),
    ),
    // It is one command, and the next one has the next number.
    (
        "A> list? listener\nB> list? notifier\nA< list 100000000000000000000000a\nregister 2.0.0.2\n= handle 1 1\nderegister 4\n= has-owners\nB< list\n",
        Said::Conforms(6, 1),
    ),
    (
        "A> list? listener\nA< list 100000000000000000000000a\nregister 2.0.0.2\n= handle 1 1\nderegister 4\n= no-handle\n",
        Said::Conforms(5, 1),
    ),
];

#[test]
fn weak_listings_see_what_stays(rt: HostRuntime) -> Result<(), Fail> {
    are_judged(&rt, ONE_LISTENER, &LISTINGS)
}

/// What is no weak listing.
static NONE: [Row; 5] = [
    (
        "list? listener\n",
        Said::BadLine(6, Expected::Form(LogForm::WeakList)),
    ),
    (
        "A> list? node\n",
        Said::BadLine(6, Expected::Form(LogForm::WeakList)),
    ),
    (
        "A> list?  listener\n",
        Said::BadLine(6, Expected::Form(LogForm::WeakList)),
    ),
    (
        "A> nodes?\nA< list 1000000000000000000000001\nA< list\n",
        Said::BadLine(8, Expected::OpenCall),
    ),
    (
        "A> list? listener\nA< list A\n",
        Said::BadLine(7, Expected::Reply),
    ),
];

#[test]
fn other_lines_are_no_weak_listings(rt: HostRuntime) -> Result<(), Fail> {
    are_judged(&rt, ONE_LISTENER, &NONE)
}

/// A service that was in use, whose listener is in slot 1.
const IN_USE: &str =
    "service event 7 2 2 2\nstate nodes 5\nstate listener 3\nstate 1 4 register 1.0.0.1\nstate 1 2 add listener 1.0.0.10 1.0.0.1\n";

static STATES: [Row; 2] = [
    (
        "A> list? listener\nA< list 100000000000000000000000a\n",
        Said::Conforms(1, 1),
    ),
    ("A> list? listener\nA< list\n", Said::Refused(7, 6, 1)),
];

#[test]
fn services_that_were_in_use_are_listed(rt: HostRuntime) -> Result<(), Fail> {
    are_judged(&rt, IN_USE, &STATES)
}
