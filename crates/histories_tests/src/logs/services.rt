//! Several services in one log.

use super::rows::{Row, Said, are_judged};
use history_logs::logs::{Expected, LogForm};
use std::test::Fail;

/// Calls on two services stand between each other, and handles are those of the own service: ten
/// lines.
const BOTH: &str =
    "service event 7 1 1 0\nregister 1.0.0.1\n= handle 0 0\nservice event 8 2 0 1\n8: register 1.0.0.1\n= handle 1 0\n7: add listener 1.0.0.2 1.0.0.1\n= handle 0 0\n8: deregister 0\n= no-owners\n";

static ROWS: [Row; 20] = [
    ("", Said::Conforms(4, 2)),
    (
        "# a\n\n7: nodes\n= list 1000000000000000000000001\n",
        Said::Conforms(5, 2),
    ),
    // A call is numbered among those on its service.
    ("7: release 1\n= released\n", Said::Conforms(5, 2)),
    ("8: release 1\n= released\n", Said::Refused(12, 12, 1)),
    (
        "8: register 1.0.0.1\n= locked\nservice event 9 1 0 0\n",
        Said::Conforms(5, 3),
    ),
    ("7: register 1.0.0.1\n= locked\n", Said::Refused(12, 12, 1)),
    // Without a name, with that of no service, and with one that is spelled otherwise.
    ("nodes\n= list\n", Said::BadLine(11, Expected::Call)),
    ("9: nodes\n= list\n", Said::BadLine(11, Expected::Call)),
    (
        "08: nodes\n= list\n",
        Said::BadLine(11, Expected::Form(LogForm::Numbered)),
    ),
    (
        "8 : nodes\n= list\n",
        Said::BadLine(11, Expected::Form(LogForm::Unknown)),
    ),
    (
        "8:nodes\n= list\n",
        Said::BadLine(11, Expected::Form(LogForm::Numbered)),
    ),
    (
        "8: \n= list\n",
        Said::BadLine(11, Expected::Form(LogForm::Unknown)),
    ),
    (
        "7: service event 9 1 0 0\n",
        Said::BadLine(11, Expected::Form(LogForm::Numbered)),
    ),
    // A number is that of one service.
    (
        "service blackboard 8 1 0 0\n",
        Said::BadLine(11, Expected::NewNumber),
    ),
    ("8: nodes\n8: = list\n", Said::BadLine(12, Expected::Reply)),
    // The begin of a call names its service, and its end does not.
    (
        "7: A> nodes\n8: B> nodes\nB< list\nA< list 1000000000000000000000001\n",
        Said::Conforms(6, 2),
    ),
    ("A> nodes\n", Said::BadLine(11, Expected::Call)),
    (
        "8: A> nodes\n8: A< list\n",
        Said::BadLine(12, Expected::Form(LogForm::End)),
    ),
    // A caller has one call open, on whichever service.
    (
        "7: A> nodes\n8: A> nodes\n",
        Said::BadLine(12, Expected::IdleCaller),
    ),
    // The first line decides, on whichever service it is.
    (
        "7: A> nodes\n8: B> nodes\nB< full\nA< full\n",
        Said::Refused(13, 12, 1),
    ),
];

#[test]
fn services_are_distinguished_by_their_numbers(rt: HostRuntime) -> Result<(), Fail> {
    are_judged(&rt, BOTH, &ROWS)
}

#[test]
fn one_service_needs_no_name(rt: HostRuntime) -> Result<(), Fail> {
    let rows = [(
        "7: nodes\n= list\nnodes\n= list\n7: A> nodes\nA< list\nA> nodes\nA< list\n",
        Said::Conforms(4, 1),
    )];
    are_judged(&rt, "service event 7 1 0 0\n", &rows)
}
