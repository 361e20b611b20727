//! What is answered to a node that joins with its first port.
use super::services::*;
use iox2_dynamic::dynamic_config::{
    DynamicConfig, ListenerDetails, MessagingPatternSettings, PortDetails, publish_subscribe,
};
use iox2_ids::identifiers::UniqueListenerId;
use service_examples::join::{JoinError, join};
use service_examples::monitor::remove_dead_nodes;
use std::process::Abort;
use std::test::Fail;

/// What is answered to a node: its ticket and that of its port, or why it did not join.
type Joined = Result<(u64, u64), JoinError>;

/// What is answered to the node with this counter.
fn reported(
    rt: &impl Abort,
    service: &mut DynamicConfig,
    counter: u32,
    port: PortDetails,
) -> Joined {
    join(service, node(rt, counter), port).map(|joined| (
        joined.node.ticket(),
        joined.port.ticket(),
    ))
}

/// A listener of the node with this counter.
fn listener(rt: &impl Abort, counter: u32, node_counter: u32) -> PortDetails {
    PortDetails::Listener(ListenerDetails {
        listener_id: UniqueListenerId::new(1, 0, 0, counter),
        node_id: node(rt, node_counter),
    })
}

/// What a service answers whose last node is gone:
/// each port has one fault less than the one before.
fn reported_late(rt: &impl Abort, service: &mut DynamicConfig) -> [Joined; 3] {
    remove_dead_nodes(service, &[node(rt, 1)]);
    [
        reported(rt, service, 2, listener(rt, 41, 3)),
        reported(rt, service, 2, subscriber(rt, 31, 3)),
        reported(rt, service, 2, subscriber(rt, 31, 2)),
    ]
}

/// One slot for a node: the first one joins, with two subscribers there is no room for any more,
/// and its death ends the service.
#[test]
fn the_first_cause_is_told(rt: HostRuntime) -> Result<(), Fail> {
    let mut service = service(rt.alloc(), 1)?;
    let first = reported(&rt, &mut service, 1, subscriber(&rt, 31, 1));
    let second = subscriber(&rt, 32, 1);
    assert!(rt; service.has_role(second.role()));
    service.attach(second)?;
    let full = reported(&rt, &mut service, 2, subscriber(&rt, 33, 2));
    let late = reported_late(&rt, &mut service);
    assert_eq!(rt;
        ([first, full], late),
        (
            [Ok((0, 0)), Err(JoinError::NoRoomForNode)],
            [
                Err(JoinError::NoSuchRole),
                Err(JoinError::PortOfAnotherNode),
                Err(JoinError::ServiceIsLocked),
            ],
        )
    );
    Ok(())
}

/// Two slots for publishers: the third node finds none,
/// uses up no ticket, and joins with a subscriber.
#[test]
fn who_finds_no_room_may_join_otherwise(rt: HostRuntime) -> Result<(), Fail> {
    let mut service = service(rt.alloc(), 3)?;
    let publisher = |counter: u32| publisher_details(&rt, 20 + counter, counter);
    let reported = [
        reported(&rt, &mut service, 1, publisher(1)),
        reported(&rt, &mut service, 2, publisher(2)),
        reported(&rt, &mut service, 3, publisher(3)),
        reported(&rt, &mut service, 3, subscriber(&rt, 31, 3)),
    ];
    assert_eq!(rt;
        reported,
        [
            Ok((0, 0)),
            Ok((1, 1)),
            Err(JoinError::NoRoomForPort),
            Ok((2, 0)),
        ]
    );
    Ok(())
}

/// The only node of a service with no slot for its
/// port does not join, and the service is not locked.
#[test]
fn a_fresh_service_stays_open(rt: HostRuntime) -> Result<(), Fail> {
    let no_ports = publish_subscribe::DynamicConfigSettings {
        number_of_publishers: 0,
        number_of_subscribers: 0,
    };
    let settings = MessagingPatternSettings::PublishSubscribe(no_ports);
    let mut service = DynamicConfig::new(rt.alloc(), &settings, 1, 7)?;
    let refused = reported(&rt, &mut service, 1, subscriber(&rt, 31, 1));
    assert_eq!(rt;
        (refused, service.is_locked(), service.number_of_nodes()),
        (Err(JoinError::NoRoomForPort), false, 0)
    );
    Ok(())
}
