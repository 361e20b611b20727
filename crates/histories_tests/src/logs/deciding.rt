//! The line that decides: down to it a log is refused, and down to the line above it is not.

use super::rows::{Row, Said, are_judged, verdict_on};
use history_logs::logs::Expected;
use std::process::Abort;
use std::test::Fail;

const EVENT: &str = "service event 7 3 2 2\n";

/// A listing sees a node whose registration is open.
const SEEN: &str = "A> register 1.0.0.1\nB> nodes\nB< list 1000000000000000000000001\n";

/// What comes then.
static AFTER: [Row; 9] = [
    ("", Said::Conforms(2, 1)),
    ("A< handle 0 0\n", Said::Conforms(2, 1)),
    ("A!\n", Said::Conforms(2, 1)),
    // A reply that the registration cannot have had, or not with that listing.
    ("A< handle 0 5\n", Said::RefusedAbove(5, 4, 2, 1)),
    ("A< full\n", Said::RefusedAbove(5, 4, 2, 1)),
    ("A< handle 0 5\nA> nodes\n", Said::RefusedAbove(5, 4, 2, 1)),
    // Calls between them decide nothing.
    (
        "count listener\n= count 0\n# a note\nB> nodes\ncount notifier\n= count 0\nA< locked\n",
        Said::RefusedAbove(11, 4, 2, 1),
    ),
    // A reply between them is refused, whatever slot the registration took.
    ("C> nodes\nC< list\nA< locked\n", Said::Refused(6, 2, 3)),
    // The log ends above a line that is no reply.
    ("A< handle 0\n", Said::BadLine(5, Expected::Reply)),
];

#[test]
fn a_later_reply_decides(rt: HostRuntime) -> Result<(), Fail> {
    let mut front = String::from_str(rt.alloc(), EVENT)?;
    front.push_str(SEEN)?;
    are_judged(&rt, &front, &AFTER)
}

/// Two registrations are open, and a listing sees both, by rising slot.
static BOTH: [Row; 4] = [
    ("A< handle 0 0\nB< handle 1 1\n", Said::Conforms(3, 1)),
    // The second node may have taken the last slot, until its reply says that it has the first one.
    (
        "A< handle 1 1\nB< handle 0 0\n",
        Said::RefusedAbove(7, 5, 2, 1),
    ),
    (
        "A< handle 0 0\nB< handle 0 1\n",
        Said::RefusedAbove(7, 5, 2, 1),
    ),
    ("A< full\nB< handle 0 0\n", Said::RefusedAbove(6, 5, 2, 1)),
];

#[test]
fn the_first_reply_that_cannot_be_decides(rt: HostRuntime) -> Result<(), Fail> {
    let front = "service event 7 3 2 2\nA> register 1.0.0.1\nB> register 2.0.0.2\nC> nodes\n\
        C< list 1000000000000000000000001 2000000000000000000000002\n";
    are_judged(&rt, front, &BOTH)
}

/// Wherever the reply of the registration stands below that listing, it decides.
#[test]
fn the_reply_may_come_much_later(rt: HostRuntime) -> Result<(), Fail> {
    let alloc = rt.alloc();
    let mut log = String::from_str(alloc, EVENT)?;
    log.push_str(SEEN)?;
    for line in 5usize..40 {
        let mut whole = log.clone()?;
        whole.push_str("A< full\nnodes\n= list\n")?;
        assert_eq!(rt;
            verdict_on(alloc, whole.as_bytes())?,
            Said::RefusedAbove(line, 4, 2, 1)
        );
        log.push_str("\n")?;
    }
    Ok(())
}
