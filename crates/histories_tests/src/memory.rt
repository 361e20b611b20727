//! Logs and calls where memory is refused. With ample memory one is judged and drawn; where one
//! request is refused (`bench/refuse_memory` does that), it is when that is tried again.

use super::overlapping::{Call, NONE_LISTED, ONE_LISTED, REGISTER_1, calls_of, new_service};
use histories::Machine;
use history_drawing::draw_log;
use history_logs::logs::report_log;
use service_conformance::conformance::Calls;
use std::alloc::{AllocError, Global};
use std::process::Abort;
use std::test::Fail;
use test_support::memory::may_be_refused;

/// A log in which a caller reads the old state after the new one, and one that conforms.
static LOGS: [(&str, u8); 2] = [
    (
        "service event 7 3 2 2\nregister 1.0.0.1\n= handle 0 0\nA> register 3.0.0.3\nB> nodes\nB< list 1000000000000000000000001 3000000000000000000000003\nB> nodes\nB< list 1000000000000000000000001\nA!\n",
        1,
    ),
    (
        "service event 7 3 2 2\nA> register 3.0.0.3\nB> nodes\nB< list 3000000000000000000000003\nA< handle 0 0\n",
        0,
    ),
];

#[test]
fn a_log_is_drawn_whole_or_not_at_all(rt: HostRuntime) -> Result<(), Fail> {
    for (log, status) in &LOGS {
        let first = draw_log(rt.alloc(), log.as_bytes());
        assert!(rt; first.is_ok() || may_be_refused(&rt));
        let drawing = match first {
            Ok(drawing) => drawing,
            Err(_) => draw_log(rt.alloc(), log.as_bytes())?,
        };
        assert_eq!(rt;
            (drawing.status.number(), drawing.message.len()),
            (*status, 0)
        );
        assert!(rt; drawing.picture.as_str().ends_with("</text>\n</svg>\n"));
    }
    Ok(())
}

/// A log in which a caller reads the old state after the new one, of a service that began anew.
const LOG: &str =
    "service event 7 3 2 2\nnodes\n= list\nstate nodes 0\nregister 1.0.0.1\n= handle 0 0\nregister 2.0.0.2\n= handle 1 1\nA> register 3.0.0.3\nB> nodes\nB< list 1000000000000000000000001 2000000000000000000000002 3000000000000000000000003\nB> nodes\nB< list 1000000000000000000000001 2000000000000000000000002\nA!\n";

const REPORT: &str =
    "line 13: no order of the calls explains this reply\nseen: list 1000000000000000000000001 2000000000000000000000002\ncall: B> nodes (line 12)\nwindow: from line 9\nneeded: lines 9 10 12\nmade: lines 9\npossible: list 1000000000000000000000001 2000000000000000000000002 3000000000000000000000003\nnodes: 1000000000000000000000001 2000000000000000000000002 3000000000000000000000003\nports:\n";

#[test]
fn a_log_is_judged_whole_or_not_at_all(rt: HostRuntime) -> Result<(), Fail> {
    let first = report_log(rt.alloc(), LOG.as_bytes());
    assert!(rt; first.is_ok() || may_be_refused(&rt));
    let (_verdict, text) = match first {
        Ok(judged) => judged,
        Err(_) => report_log(rt.alloc(), LOG.as_bytes())?,
    };
    assert!(rt; text.as_slice() == REPORT.as_bytes());
    Ok(())
}

/// A node is registered, and is listed, or is not.
const CALLS: [Call; 3] = [REGISTER_1, ONE_LISTED, NONE_LISTED];

/// Whether, once the node is registered, the list that has it changes nothing, and the list that
/// has it not cannot be made.
fn known(alloc: Global) -> Result<(bool, bool), AllocError> {
    let calls = calls_of(alloc, &CALLS)?;
    let machine = Calls {
        alloc,
        first: 0,
        calls: &calls,
    };
    let mut state = new_service(alloc)?;
    machine.make(&mut state, 0)?;
    Ok((machine.is_idle(&state, 1)?, machine.is_blocked(&state, 2)?))
}

#[test]
fn what_a_call_does_is_known_or_not_answered(rt: HostRuntime) -> Result<(), Fail> {
    let first = known(rt.alloc());
    assert!(rt; first.is_ok() || may_be_refused(&rt));
    let found = match first {
        Ok(found) => found,
        Err(_) => known(rt.alloc())?,
    };
    assert_eq!(rt; found, (true, true));
    Ok(())
}
