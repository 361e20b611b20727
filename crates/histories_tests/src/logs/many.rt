//! Logs of many services, and of the calls of many callers.

use super::rows::{Row, Said, are_judged};
use history_logs::logs::Expected;
use std::alloc::{AllocError, Global};
use std::test::Fail;

/// So many services, and so many callers.
const MANY: usize = 3000;

/// Many services, and a call on each.
fn services(alloc: Global) -> Result<String, AllocError> {
    let mut log = String::new(alloc);
    for number in 0..MANY {
        log.push_str(&format!(in alloc; "service event {number} 1 0 0\n")?)?;
    }
    for number in 0..MANY {
        log.push_str(&format!(in alloc; "{number}: nodes\n= list\n")?)?;
    }
    Ok(log)
}

/// A service, and a call of each of many callers.
fn callers(alloc: Global) -> Result<String, AllocError> {
    let mut log = String::from_str(alloc, "service event 7 1 0 0\n")?;
    for number in 0..MANY {
        log.push_str(&format!(in alloc; "a{number}> nodes\na{number}< list\n")?)?;
    }
    Ok(log)
}

static BEHIND_SERVICES: [Row; 6] = [
    ("2999: nodes\n= list\n", Said::Conforms(3001, 3000)),
    (
        "17: state nodes 3\n17: register 1.0.0.1\n= handle 0 3\n",
        Said::Conforms(3001, 3000),
    ),
    ("17: nodes\n= locked\n", Said::Refused(9002, 9002, 1)),
    (
        "service event 2999 1 0 0\n",
        Said::BadLine(9001, Expected::NewNumber),
    ),
    ("3000: nodes\n= list\n", Said::BadLine(9001, Expected::Call)),
    ("nodes\n= list\n", Said::BadLine(9001, Expected::Call)),
];

#[test]
fn each_of_many_services_is_judged(rt: HostRuntime) -> Result<(), Fail> {
    are_judged(&rt, &services(rt.alloc())?, &BEHIND_SERVICES)
}

static BEHIND_CALLERS: [Row; 4] = [
    ("a17> nodes\na17< list\n", Said::Conforms(3001, 1)),
    ("a17!\na17!\n", Said::BadLine(6003, Expected::LiveCaller)),
    ("a17< list\n", Said::BadLine(6002, Expected::OpenCall)),
    ("a3000!\n", Said::BadLine(6002, Expected::KnownCaller)),
];

#[test]
fn the_calls_of_many_callers_are_judged(rt: HostRuntime) -> Result<(), Fail> {
    are_judged(&rt, &callers(rt.alloc())?, &BEHIND_CALLERS)
}
