//! Services that begin anew below calls.

use super::bounds::{deaths, open_calls};
use super::rows::{Row, Said, are_judged, verdict_on};
use history_logs::logs::{Expected, order_log};
use std::process::Abort;
use std::test::Fail;

/// A service with a call: three lines.
const CALLED: &str = "service event 7 3 2 2\nregister 1.0.0.1\n= handle 0 0\n";

static ROWS: [Row; 28] = [
    // What was there is gone, and what is given is there.
    (
        "state nodes 4\nregister 1.0.0.2\n= handle 0 4\n",
        Said::Conforms(2, 1),
    ),
    (
        "state nodes 4\nregister 1.0.0.2\n= handle 0 1\n",
        Said::Refused(6, 6, 1),
    ),
    (
        "state nodes 4\nregister 1.0.0.2\n= handle 1 1\n",
        Said::Refused(6, 6, 1),
    ),
    (
        "state nodes 20\nstate 0 17 register 1.0.0.2\nnodes\n= list 1000000000000000000000002\n",
        Said::Conforms(2, 1),
    ),
    (
        "state nodes 0\nregister 1.0.0.1\n= handle 0 0\n",
        Said::Conforms(2, 1),
    ),
    (
        "7: state nodes 4 locked\n7: register 1.0.0.1\n= locked\n",
        Said::Conforms(2, 1),
    ),
    // Each time again, and the calls are told apart by the last one.
    (
        "state nodes 4\nregister 1.0.0.2\n= handle 0 4\nstate nodes 9\nregister 1.0.0.2\n= handle 0 9\n",
        Said::Conforms(3, 1),
    ),
    (
        "state nodes 4\nregister 1.0.0.2\n= handle 0 4\nstate nodes 9\nregister 1.0.0.2\n= handle 0 5\n",
        Said::Refused(9, 9, 1),
    ),
    (
        "state nodes 4\nregister 1.0.0.2\n= handle 0 4\nderegister 0\n= no-owners\n",
        Said::Conforms(3, 1),
    ),
    (
        "state nodes 4\nnodes\n= list\nderegister 0\n= no-owners\n",
        Said::Refused(8, 8, 1),
    ),
    // What stands above is judged for itself, and before what stands below.
    (
        "nodes\n= list\nstate nodes 4\nregister 1.0.0.2\n= handle 0 4\n",
        Said::Refused(5, 5, 1),
    ),
    (
        "nodes\n= list\nstate nodes 4\nregister 1.0.0.2\n= handle 0 0\n",
        Said::Refused(5, 5, 1),
    ),
    // No caller may have a call open on it.
    (
        "A> nodes\nstate nodes 4\n",
        Said::BadLine(5, Expected::State),
    ),
    (
        "A> nodes\nA< list 1000000000000000000000001\nB> nodes\nA> nodes\nA< list 1000000000000000000000001\nstate nodes 4\n",
        Said::BadLine(9, Expected::State),
    ),
    (
        "A> nodes\nA< list 1000000000000000000000001\nstate nodes 4\nA> nodes\nA< list\n",
        Said::Conforms(3, 1),
    ),
    (
        "A> register 1.0.0.2\nA!\nstate nodes 4\nregister 1.0.0.2\n= handle 0 4\n",
        Said::Conforms(3, 1),
    ),
    (
        "A> nodes\nA!\nstate nodes 4\nA> nodes\n",
        Said::BadLine(7, Expected::LiveCaller),
    ),
    ("nodes\nstate nodes 4\n", Said::BadLine(5, Expected::Reply)),
    // It is a state that a service can have, and given once.
    (
        "state 0 0 register 1.0.0.1\n",
        Said::BadLine(4, Expected::State),
    ),
    ("state publisher 3\n", Said::BadLine(4, Expected::State)),
    (
        "state nodes 4\nstate nodes 4\n",
        Said::BadLine(5, Expected::State),
    ),
    // The line of a service needs a number of its own.
    (
        "state nodes 4\nservice event 7 3 2 2\n",
        Said::BadLine(5, Expected::NewNumber),
    ),
    // Other services stay as they are.
    (
        "service event 8 1 0 0\n8: register 1.0.0.1\n= handle 0 0\n7: state nodes 2\n8: register 1.0.0.2\n= full\n7: register 1.0.0.2\n= handle 0 2\n",
        Said::Conforms(4, 2),
    ),
    (
        "service event 8 1 0 0\n8: A> nodes\n7: state nodes 2\n7: nodes\n= list\nA< list\n",
        Said::Conforms(3, 2),
    ),
    (
        "service event 8 1 0 0\n8: A> nodes\n8: state nodes 2\n",
        Said::BadLine(6, Expected::State),
    ),
    (
        "service event 8 1 0 0\n8: nodes\n= list\n8: state nodes 2\n8: state nodes 2\n",
        Said::BadLine(8, Expected::State),
    ),
    (
        "service event 8 1 0 0\nstate nodes 4\n",
        Said::BadLine(5, Expected::Call),
    ),
    (
        "state nodes 4\nservice event 8 1 0 0\nnodes\n= list\n",
        Said::BadLine(6, Expected::Call),
    ),
];

#[test]
fn services_that_begin_anew(rt: HostRuntime) -> Result<(), Fail> {
    are_judged(&rt, CALLED, &ROWS)
}

/// What stands below a log, and what it is judged to be then. A bound is passed in the log.
fn goes_on(
    rt: &(impl Abort + AllocGlobal),
    log: &str,
    bound: Said,
    refused: Said,
) -> Result<(), Fail> {
    for (reply, wanted) in [("handle 0 20", bound), ("handle 0 0", refused)] {
        let mut whole = String::from_str(rt.alloc(), log)?;
        writeln!(whole, "state nodes 20\nregister 1.0.0.1\n= {reply}")?;
        assert_eq!(rt;
            (reply, verdict_on(rt.alloc(), whole.as_bytes())?),
            (reply, wanted)
        );
    }
    Ok(())
}

#[test]
fn a_service_goes_on_below_many_open_calls(rt: HostRuntime) -> Result<(), Fail> {
    // 131 lines.
    let log = open_calls(rt.alloc(), 65)?;
    goes_on(&rt, &log, Said::ManyOpen(66), Said::Refused(134, 134, 1))
}

#[test]
fn a_service_goes_on_below_many_configurations(rt: HostRuntime) -> Result<(), Fail> {
    // 44 lines, and those of the callers that die.
    let mut log = deaths(rt.alloc(), 13)?;
    for caller in 1..14usize {
        writeln!(log, "c{caller}!")?;
    }
    goes_on(&rt, &log, Said::ManyConfigs(44), Said::Refused(60, 60, 1))
}

#[test]
fn another_service_is_judged_below_a_bound(rt: HostRuntime) -> Result<(), Fail> {
    let mut log = open_calls(rt.alloc(), 65)?;
    log.push_str("service event 8 1 0 0\n8: nodes\n= full\n")?;
    assert_eq!(rt;
        verdict_on(rt.alloc(), log.as_bytes())?,
        Said::Refused(134, 134, 1)
    );
    Ok(())
}

#[test]
fn the_first_bound_is_reported(rt: HostRuntime) -> Result<(), Fail> {
    let mut log = open_calls(rt.alloc(), 65)?;
    log.push_str("state nodes 0\n")?;
    for caller in 0..65usize {
        writeln!(log, "d{caller}> nodes")?;
    }
    assert_eq!(rt; verdict_on(rt.alloc(), log.as_bytes())?, Said::ManyOpen(66));
    Ok(())
}

#[test]
fn there_is_an_order_for_each_time(rt: HostRuntime) -> Result<(), Fail> {
    let mut log = String::from_str(rt.alloc(), CALLED)?;
    log.push_str("nodes\n= list 1000000000000000000000001\nstate nodes 4\nnodes\n= list\n")?;
    let (_verdict, orders) = order_log(rt.alloc(), log.as_bytes())?;
    let mut found = Vec::new(rt.alloc());
    for order in &orders {
        found.push(order.service as usize)?;
        found.extend_from_slice(&order.lines)?;
    }
    assert!(rt; found.as_slice() == [7, 3, 5, 7, 8].as_slice());
    Ok(())
}
