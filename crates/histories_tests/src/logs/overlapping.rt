//! Calls that overlap.

use super::rows::{Row, Said, are_judged};
use std::test::Fail;

/// An event service with two nodes and room for another one: five lines.
pub(super) const TWO_NODES: &str =
    "service event 7 3 2 2\nregister 1.0.0.1\n= handle 0 0\nregister 2.0.0.2\n= handle 1 1\n";

/// Some order of the calls explains them, or none does.
static ORDERS: [Row; 11] = [
    // Two nodes were registered at the last place.
    (
        "A> register 3.0.0.3\nB> register 4.0.0.4\nA< full\nB< handle 2 2\n",
        Said::Conforms(4, 1),
    ),
    // No order has two that find no place. Down to the first reply the other one may have taken it.
    (
        "A> register 3.0.0.3\nB> register 4.0.0.4\nA< full\nB< full\n",
        Said::RefusedAbove(9, 8, 6, 1),
    ),
    (
        "A> register 3.0.0.3\nB> register 4.0.0.4\nA< handle 2 2\nB< handle 2 2\n",
        Said::Refused(9, 6, 1),
    ),
    // One call was over when the other began.
    (
        "A> register 3.0.0.3\nA< full\nB> register 4.0.0.4\nB< handle 2 2\n",
        Said::Refused(7, 6, 1),
    ),
    // A caller sees a node that is being registered, and another one does not yet.
    (
        "A> register 3.0.0.3\nB> nodes\nC> nodes\nB< list 1000000000000000000000001 2000000000000000000000002 3000000000000000000000003\nC< list 1000000000000000000000001 2000000000000000000000002\nA< handle 2 2\n",
        Said::Conforms(5, 1),
    ),
    // Once one has seen it, no later call misses it: the old state was read after the new one.
    (
        "A> register 3.0.0.3\nB> nodes\nB< list 1000000000000000000000001 2000000000000000000000002 3000000000000000000000003\nB> nodes\nB< list 1000000000000000000000001 2000000000000000000000002\nA< handle 2 2\n",
        Said::Refused(10, 6, 1),
    ),
    (
        "A> register 3.0.0.3\nB> nodes\nB< list 1000000000000000000000001 2000000000000000000000002 3000000000000000000000003\nC> nodes\nC< list 1000000000000000000000001 2000000000000000000000002\nA< handle 2 2\n",
        Said::Refused(10, 6, 1),
    ),
    (
        "A> register 3.0.0.3\nB> nodes\nB< list 1000000000000000000000001 2000000000000000000000002\nC> nodes\nC< list 1000000000000000000000001 2000000000000000000000002 3000000000000000000000003\nA< handle 2 2\n",
        Said::Conforms(5, 1),
    ),
    // A call alone stands between the begin and the end of another one.
    (
        "A> register 3.0.0.3\nregister 4.0.0.4\n= handle 2 2\nA< full\n",
        Said::Conforms(4, 1),
    ),
    // The last node that leaves locks the service, before another call or after it.
    (
        "deregister 0\n= has-owners\nA> deregister 1\nB> register 1.0.0.1\nA< no-owners\nB< locked\n",
        Said::Conforms(5, 1),
    ),
    (
        "deregister 0\n= has-owners\nA> deregister 1\nB> register 1.0.0.1\nA< no-owners\nB< handle 0 2\n",
        Said::Refused(11, 8, 1),
    ),
];

#[test]
fn an_order_explains_calls_or_none_does(rt: HostRuntime) -> Result<(), Fail> {
    are_judged(&rt, TWO_NODES, &ORDERS)
}

/// A removal names its handle, or the call that gave it.
static REMOVALS: [Row; 9] = [
    (
        "A> register 3.0.0.3\nB> deregister 2 2\nA< handle 2 2\nB< has-owners\n",
        Said::Conforms(4, 1),
    ),
    (
        "A> register 3.0.0.3\nB> deregister 2 2\nA< handle 2 2\nB< not-owned\n",
        Said::Conforms(4, 1),
    ),
    (
        "deregister 1 0\n= not-owned\nderegister 1 1\n= has-owners\n",
        Said::Conforms(4, 1),
    ),
    (
        "add listener 1.0.0.10 1.0.0.1\n= handle 1 0\nrelease notifier 1 0\n= not-owned\nrelease listener 1 0\n= released\n",
        Said::Conforms(5, 1),
    ),
    // Above the reply of the call, its number stands for no handle.
    (
        "A> register 3.0.0.3\nB> deregister 2\nA< handle 2 2\nB< no-handle\n",
        Said::Conforms(4, 1),
    ),
    (
        "A> register 3.0.0.3\nB> deregister 2\nA< handle 2 2\nB< has-owners\n",
        Said::Refused(9, 6, 1),
    ),
    (
        "A> register 3.0.0.3\nA< handle 2 2\nB> deregister 2\nB< has-owners\n",
        Said::Conforms(4, 1),
    ),
    // Calls are numbered by their begins.
    (
        "A> register 3.0.0.3\nnodes\n= list 1000000000000000000000001 2000000000000000000000002\nA< handle 2 2\nderegister 2\n= has-owners\n",
        Said::Conforms(5, 1),
    ),
    (
        "A> register 3.0.0.3\nnodes\n= list 1000000000000000000000001 2000000000000000000000002\nA< handle 2 2\nderegister 3\n= no-handle\n",
        Said::Conforms(5, 1),
    ),
];

#[test]
fn removals_name_handles_and_calls(rt: HostRuntime) -> Result<(), Fail> {
    are_judged(&rt, TWO_NODES, &REMOVALS)
}

/// A group of calls after which the service is in one of two states: the first node was registered
/// again before its process died, or after.
const DEAD_AND_REGISTERED: &str =
    "service event 7 3 2 2\nregister 1.0.0.1\n= handle 0 0\nregister 2.0.0.2\n= handle 1 1\nA> dead 1.0.0.1\nB> register 1.0.0.1\nA< has-owners\nB< handle 2 2\n";

static DECIDING: [Row; 6] = [
    ("", Said::Conforms(4, 1)),
    (
        "nodes\n= list 2000000000000000000000002 1000000000000000000000001\n",
        Said::Conforms(5, 1),
    ),
    (
        "nodes\n= list 2000000000000000000000002\n",
        Said::Conforms(5, 1),
    ),
    ("nodes\n= list\n", Said::Refused(11, 11, 2)),
    // What one state alone allows leaves that one.
    (
        "nodes\n= list 2000000000000000000000002\nregister 3.0.0.3\n= handle 2 3\n",
        Said::Conforms(6, 1),
    ),
    (
        "nodes\n= list 2000000000000000000000002\nregister 3.0.0.3\n= handle 2 2\n",
        Said::Refused(13, 13, 1),
    ),
];

#[test]
fn later_lines_decide_on_an_order(rt: HostRuntime) -> Result<(), Fail> {
    are_judged(&rt, DEAD_AND_REGISTERED, &DECIDING)
}
