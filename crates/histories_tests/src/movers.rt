//! Which calls are said to move before others.

use super::overlapping::{Call, calls_of};
use histories::Machine;
use iox2_container::container::Role;
use service_conformance::conformance::Calls;
use std::process::Abort;
use std::test::Fail;

const CALLS: [Call; 9] = [
    ("deregister 0", Some((Role::Node, 0, 0)), "has-owners"),
    ("release 1", Some((Role::Listener, 0, 0)), "released"),
    ("register 1.0.0.1", None, "handle 1 1"),
    ("add listener 1.0.0.7 1.0.0.1", None, "handle 1 1"),
    ("add notifier 2.0.0.7 2.0.0.2", None, "handle 0 0"),
    ("deregister 0", Some((Role::Node, 2, 2)), "no-owners"),
    ("deregister 0", Some((Role::Node, 2, 2)), ""),
    ("register 3.0.0.3", None, "full"),
    ("nodes", None, "list"),
];

/// Whether a call moves before another: a row for each call, a column for each other one.
const MOVES: [&str; 9] = [
    "y........",
    "yyy.y....",
    ".y.yy....",
    "y...y....",
    "yyyy.....",
    ".........",
    ".........",
    ".........",
    ".........",
];

#[test]
fn calls_move_before_others(rt: HostRuntime) -> Result<(), Fail> {
    let calls = calls_of(rt.alloc(), &CALLS)?;
    assert_eq!(rt; calls.len(), 9);
    let machine = Calls {
        alloc: rt.alloc(),
        first: 0,
        calls: &calls,
    };
    for (call, row) in MOVES.iter().enumerate() {
        for (other, expected) in row.as_bytes().iter().enumerate() {
            assert_eq!(rt; machine.moves_before(call, other), *expected == b'y');
        }
    }
    assert!(rt; !machine.moves_before(0, 9));
    Ok(())
}
