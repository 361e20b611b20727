//! Services with far more slots than ports.
use super::patterns::*;
use super::rows::{Handle, Row, are_answered};
use crate::nodes::A;
use iox2_dynamic::dynamic_config::*;
use std::test::Fail;

static TWO_PORTS_COME: [Row; 3] = [
    Row::Register(A, Ok(Handle(7, Kind::Node, 0, 0))),
    Row::Attach(Kind::First, 9, A, Ok(Handle(7, Kind::First, 0, 0))),
    Row::Attach(Kind::Second, 10, A, Ok(Handle(7, Kind::Second, 0, 0))),
];

const WITH_THE_THIRD: Option<&[u128]> = Some(&[9, 11]);

/// A third port comes, which takes this ticket, and goes.
/// Meanwhile its kind is listed and the node asks to leave.
fn one_comes_and_goes(ticket: u64) -> [Row<'static>; 4] {
    let port = Handle(7, Kind::First, 1, ticket);
    [
        Row::Attach(Kind::First, 11, A, Ok(port)),
        Row::Ports(Kind::First, WITH_THE_THIRD),
        Row::Deregister(
            Handle(7, Kind::Node, 0, 0),
            Err(DeregisterError::PortsStillAttached),
        ),
        Row::Release(port, Ok(())),
    ]
}

static ALL_PORTS_GO: [Row; 4] = [
    Row::Attach(Kind::First, 12, A, Ok(Handle(7, Kind::First, 1, 3001))),
    Row::Recover(A, &[], &[9, 12, 10], false),
    Row::Ports(Kind::First, Some(&[])),
    Row::Ports(Kind::Second, Some(&[])),
];

/// With a million slots of each kind. Passes over all slots would take minutes here.
#[test]
fn a_million_places_cost_what_their_ports_cost(rt: HostRuntime) -> Result<(), Fail> {
    let capacities = (1_000_000, 1_000_000, 1_000_000);
    let mut service = service(rt.alloc(), EVENT.kind, capacities)?;
    are_answered(&rt, &mut service, &EVENT, &TWO_PORTS_COME)?;
    for ticket in 1..3001 {
        are_answered(&rt, &mut service, &EVENT, &one_comes_and_goes(ticket))?;
    }
    are_answered(&rt, &mut service, &EVENT, &ALL_PORTS_GO)
}
