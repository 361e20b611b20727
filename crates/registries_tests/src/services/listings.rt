//! The typed listings of each pattern.
use super::patterns::*;
use super::rows::{Handle, Row, are_answered, counter_of};
use crate::nodes::{A, ONE_OF_FIVE, TWO_OF_FIVE};
use arrayvec::ArrayVec;
use iox2_config::hash::PatternKind;
use iox2_container::container::Attached;
use iox2_dynamic::dynamic_config::*;
use iox2_ids::identifiers::UniqueNodeId;
use iox2_texts::bounded::CallbackProgression;
use std::alloc::{AllocError, Global};
use std::process::Abort;
use std::test::Fail;

/// Notes a port, and stops at the second.
fn note_two<T: Attached>(seen: &mut ArrayVec<u128, 4>, details: &T) -> CallbackProgression {
    // What is listed too often shows as one port more.
    let _ = seen.try_push(counter_of(details.key()));
    if seen.len() == 2 {
        CallbackProgression::Stop
    } else {
        CallbackProgression::Continue
    }
}

/// Three ports of the first kind and one of the second, of counters 9 to 12.
static THREE_AND_ONE: [Row; 5] = [
    Row::Register(A, Ok(Handle(7, Kind::Node, 0, 0))),
    Row::Attach(Kind::First, 9, A, Ok(Handle(7, Kind::First, 0, 0))),
    Row::Attach(Kind::First, 10, A, Ok(Handle(7, Kind::First, 1, 1))),
    Row::Attach(Kind::First, 11, A, Ok(Handle(7, Kind::First, 2, 2))),
    Row::Attach(Kind::Second, 12, A, Ok(Handle(7, Kind::Second, 0, 0))),
];

/// Of a service with three ports and one: what listings noted that stop at the second port, and how
/// many ports there are.
fn two_and_one_are_noted(
    rt: &impl Abort,
    first: &ArrayVec<u128, 4>,
    second: &ArrayVec<u128, 4>,
    counts: (usize, usize),
) {
    assert_eq!(rt;
        (first.as_slice(), second.as_slice(), counts),
        ([9, 10].as_slice(), [12].as_slice(), (3, 1))
    );
}

/// The same of any pattern, by listings for both kinds of its ports.
#[tactic(auto, using(iox2_dynamic::proofs::Callbacks::callbacks))]
fn are_noted_by_kind<A: PortKind, B: PortKind>(
    rt: &impl Abort,
    ports: &PortRegistries<A, B>,
    counts: (usize, usize),
) {
    let (mut first, mut second) = (ArrayVec::new(), ArrayVec::new());
    ports.list_first(&mut |details: &A| note_two(&mut first, details));
    ports.list_second(&mut |details: &B| note_two(&mut second, details));
    two_and_one_are_noted(rt, &first, &second, counts);
}

#[test]
#[tactic(auto, using(iox2_dynamic::proofs::Callbacks::callbacks))]
fn publishers_and_subscribers_are_listed(rt: HostRuntime) -> Result<(), Fail> {
    let mut service = service(rt.alloc(), PUBLISH_SUBSCRIBE.kind, (1, 3, 1))?;
    are_answered(&rt, &mut service, &PUBLISH_SUBSCRIBE, &THREE_AND_ONE)?;
    assert!(rt; service.is_publish_subscribe());
    let ports = service.publish_subscribe();
    let (mut first, mut second) = (ArrayVec::new(), ArrayVec::new());
    ports.list_publishers(&mut |details: &PublisherDetails| note_two(&mut first, details));
    ports.list_subscribers(&mut |details: &SubscriberDetails| note_two(&mut second, details));
    let counts = (ports.number_of_publishers(), ports.number_of_subscribers());
    two_and_one_are_noted(&rt, &first, &second, counts);
    are_noted_by_kind(&rt, ports, counts);
    Ok(())
}

#[test]
#[tactic(auto, using(iox2_dynamic::proofs::Callbacks::callbacks))]
fn listeners_and_notifiers_are_listed(rt: HostRuntime) -> Result<(), Fail> {
    let mut service = service(rt.alloc(), EVENT.kind, (1, 3, 1))?;
    are_answered(&rt, &mut service, &EVENT, &THREE_AND_ONE)?;
    assert!(rt; service.is_event());
    let ports = service.event();
    let (mut first, mut second) = (ArrayVec::new(), ArrayVec::new());
    ports.list_listeners(&mut |details: &ListenerDetails| note_two(&mut first, details));
    ports.list_notifiers(&mut |details: &NotifierDetails| note_two(&mut second, details));
    let counts = (ports.number_of_listeners(), ports.number_of_notifiers());
    two_and_one_are_noted(&rt, &first, &second, counts);
    are_noted_by_kind(&rt, ports, counts);
    Ok(())
}

#[test]
#[tactic(auto, using(iox2_dynamic::proofs::Callbacks::callbacks))]
fn servers_and_clients_are_listed(rt: HostRuntime) -> Result<(), Fail> {
    let mut service = service(rt.alloc(), REQUEST_RESPONSE.kind, (1, 3, 1))?;
    are_answered(&rt, &mut service, &REQUEST_RESPONSE, &THREE_AND_ONE)?;
    assert!(rt; service.is_request_response());
    let ports = service.request_response();
    let (mut first, mut second) = (ArrayVec::new(), ArrayVec::new());
    ports.list_servers(&mut |details: &ServerDetails| note_two(&mut first, details));
    ports.list_clients(&mut |details: &ClientDetails| note_two(&mut second, details));
    let counts = (ports.number_of_servers(), ports.number_of_clients());
    two_and_one_are_noted(&rt, &first, &second, counts);
    are_noted_by_kind(&rt, ports, counts);
    Ok(())
}

#[test]
#[tactic(auto, using(iox2_dynamic::proofs::Callbacks::callbacks))]
fn readers_and_writers_are_listed(rt: HostRuntime) -> Result<(), Fail> {
    let mut service = service(rt.alloc(), BLACKBOARD.kind, (1, 3, 1))?;
    are_answered(&rt, &mut service, &BLACKBOARD, &THREE_AND_ONE)?;
    assert!(rt; service.is_blackboard());
    let ports = service.blackboard();
    let (mut first, mut second) = (ArrayVec::new(), ArrayVec::new());
    ports.list_readers(&mut |details: &ReaderDetails| note_two(&mut first, details));
    ports.list_writers(&mut |details: &WriterDetails| note_two(&mut second, details));
    let counts = (ports.number_of_readers(), ports.number_of_writers());
    two_and_one_are_noted(&rt, &first, &second, counts);
    are_noted_by_kind(&rt, ports, counts);
    Ok(())
}

/// What the pattern is, by its number and by the four tests.
fn tells_its_pattern(
    rt: &impl Abort,
    alloc: Global,
    pattern: PatternKind,
    tests: [bool; 4],
) -> Result<(), AllocError> {
    let service = service(alloc, pattern, (1, 1, 1))?;
    let reported = [
        service.is_publish_subscribe(),
        service.is_event(),
        service.is_request_response(),
        service.is_blackboard(),
    ];
    assert_eq!(rt; (service.kind(), reported), (pattern, tests));
    Ok(())
}

#[test]
fn a_service_tells_its_pattern(rt: HostRuntime) -> Result<(), Fail> {
    for (pattern, tests) in [
        (PatternKind::PublishSubscribe, [true, false, false, false]),
        (PatternKind::Event, [false, true, false, false]),
        (PatternKind::RequestResponse, [false, false, true, false]),
        (PatternKind::Blackboard, [false, false, false, true]),
    ] {
        tells_its_pattern(&rt, rt.alloc(), pattern, tests)?;
    }
    Ok(())
}

/// Three nodes, of which two share an owner id.
static THREE_NODES: [Row; 3] = [
    Row::Register(TWO_OF_FIVE, Ok(Handle(7, Kind::Node, 0, 0))),
    Row::Register(A, Ok(Handle(7, Kind::Node, 1, 1))),
    Row::Register(ONE_OF_FIVE, Ok(Handle(7, Kind::Node, 2, 2))),
];

/// The seconds and the counters of these nodes, in one number each.
const LISTED: [u128; 3] = [(2 << 64) + 5, 1, (1 << 64) + 5];

/// How many nodes are asked for, and which are listed.
static UP_TO_A_STOP: [(usize, &[u128]); 4] = [
    (1, &[LISTED[0]]),
    (2, &[LISTED[0], LISTED[1]]),
    (3, &LISTED),
    (4, &LISTED),
];

/// The nodes that are listed up to and with the one of this index.
#[tactic(auto, using(iox2_dynamic::proofs::Callbacks::callbacks))]
fn nodes_up_to(service: &DynamicConfig, most: usize) -> ArrayVec<u128, 4> {
    let mut seen = ArrayVec::new();
    service.list_node_ids(&mut |id: &UniqueNodeId| {
        // What is listed too often shows as one node more.
        let _ = seen.try_push(counter_of(id.value()));
        if seen.len() == most {
            CallbackProgression::Stop
        } else {
            CallbackProgression::Continue
        }
    });
    seen
}

#[test]
fn nodes_are_listed_by_their_ids_up_to_a_stop(rt: HostRuntime) -> Result<(), Fail> {
    let mut service = service(rt.alloc(), EVENT.kind, (3, 1, 1))?;
    are_answered(&rt, &mut service, &EVENT, &THREE_NODES)?;
    for (most, listed) in &UP_TO_A_STOP {
        assert_eq!(rt; nodes_up_to(&service, *most).as_slice(), *listed);
    }
    Ok(())
}
