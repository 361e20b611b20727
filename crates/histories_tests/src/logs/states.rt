//! Services that were in use when their log began.

use super::rows::{Row, Said, are_judged};
use history_logs::logs::{Expected, LogForm};
use std::test::Fail;

/// One line.
const SERVICE: &str = "service event 7 3 2 2\n";

/// What the calls find.
static GIVEN: [Row; 12] = [
    // Tickets go on from those that were used.
    (
        "state nodes 20\nregister 1.0.0.1\n= handle 0 20\n",
        Said::Conforms(1, 1),
    ),
    (
        "state nodes 20\nregister 1.0.0.1\n= handle 0 0\n",
        Said::Refused(4, 4, 1),
    ),
    (
        "state listener 4\nregister 1.0.0.1\n= handle 0 0\nadd listener 1.0.0.2 1.0.0.1\n= handle 1 4\n",
        Said::Conforms(2, 1),
    ),
    // A locked service.
    (
        "state nodes 3 locked\nregister 1.0.0.1\n= locked\n",
        Said::Conforms(1, 1),
    ),
    (
        "state nodes 3\nregister 1.0.0.1\n= locked\n",
        Said::Refused(4, 4, 1),
    ),
    // Entries are listed, keep their slots, and leave by their handles.
    (
        "state nodes 20\nstate 0 17 register 1.0.0.1\nnodes\n= list 1000000000000000000000001\n",
        Said::Conforms(1, 1),
    ),
    (
        "state nodes 20\nstate 0 17 register 1.0.0.1\nregister 1.0.0.2\n= handle 0 20\n",
        Said::Refused(5, 5, 1),
    ),
    (
        "state nodes 20\nstate 0 17 register 1.0.0.1\nderegister 0 17\n= no-owners\nregister 1.0.0.2\n= locked\n",
        Said::Conforms(2, 1),
    ),
    (
        "state nodes 20\nstate 0 17 register 1.0.0.1\nstate 2 3 register 1.0.0.2\nderegister 2 3\n= has-owners\n",
        Said::Conforms(1, 1),
    ),
    (
        "state nodes 1\nstate listener 3\nstate 0 0 register 1.0.0.1\nstate 1 2 add listener 1.0.0.2 1.0.0.1\nrelease listener 1 2\n= released\n",
        Said::Conforms(1, 1),
    ),
    // None used is as a new one.
    ("state nodes 0\nstate nodes 3\n", Said::Conforms(0, 1)),
    (
        "service event 8 1 0 0\n7: state nodes 3\n8: state nodes 2 locked\n8: register 1.0.0.1\n= locked\n7: register 1.0.0.1\n= handle 2 3\n",
        Said::Conforms(2, 2),
    ),
];

/// What cannot be so.
static REFUSED: [Row; 17] = [
    // A slot twice, one before another, and one that the service does not have.
    (
        "state nodes 20\nstate 0 17 register 1.0.0.1\nstate 0 18 register 1.0.0.2\n",
        Said::BadLine(4, Expected::State),
    ),
    (
        "state nodes 20\nstate 1 17 register 1.0.0.1\nstate 0 18 register 1.0.0.2\n",
        Said::BadLine(4, Expected::State),
    ),
    (
        "state nodes 20\nstate 3 17 register 1.0.0.1\n",
        Said::BadLine(3, Expected::State),
    ),
    // A ticket that was not used, and one twice.
    (
        "state nodes 17\nstate 0 17 register 1.0.0.1\n",
        Said::BadLine(3, Expected::State),
    ),
    (
        "state nodes 20\nstate 0 17 register 1.0.0.1\nstate 1 17 register 1.0.0.2\n",
        Said::BadLine(4, Expected::State),
    ),
    // An entry of a locked service, a port of an absent node, and a role of another pattern.
    (
        "state nodes 3 locked\nstate 0 1 register 1.0.0.1\n",
        Said::BadLine(3, Expected::State),
    ),
    (
        "state listener 3\nstate 1 2 add listener 1.0.0.2 1.0.0.1\n",
        Said::BadLine(3, Expected::State),
    ),
    ("state publisher 3\n", Said::BadLine(2, Expected::State)),
    // Twice.
    (
        "state nodes 3\nstate nodes 3\n",
        Said::BadLine(3, Expected::State),
    ),
    // Where a call is open, and in place of a reply.
    (
        "A> nodes\nstate nodes 3\n",
        Said::BadLine(3, Expected::State),
    ),
    ("nodes\nstate nodes 3\n", Said::BadLine(3, Expected::Reply)),
    // Of no service.
    ("8: state nodes 3\n", Said::BadLine(2, Expected::Call)),
    (
        "service event 8 1 0 0\nstate nodes 3\n",
        Said::BadLine(3, Expected::Call),
    ),
    // Spelled otherwise.
    (
        "state nodes 03\n",
        Said::BadLine(2, Expected::Form(LogForm::State)),
    ),
    (
        "state nodes 3 open\n",
        Said::BadLine(2, Expected::Form(LogForm::State)),
    ),
    (
        "state 0 0 nodes\n",
        Said::BadLine(2, Expected::Form(LogForm::State)),
    ),
    ("state\n", Said::BadLine(2, Expected::Form(LogForm::State))),
];

#[test]
fn services_that_were_in_use(rt: HostRuntime) -> Result<(), Fail> {
    are_judged(&rt, SERVICE, &GIVEN)
}

#[test]
fn states_of_no_service(rt: HostRuntime) -> Result<(), Fail> {
    are_judged(&rt, SERVICE, &REFUSED)
}

#[test]
fn states_before_a_service(rt: HostRuntime) -> Result<(), Fail> {
    are_judged(
        &rt,
        "",
        &[("state nodes 3\n", Said::BadLine(1, Expected::Service))],
    )
}
