//! Ids.
use iox2_ids::identifiers::*;
use iox2_ids::laws::*;
use std::cmp::Ordering;
use std::hash::DefaultHasher;
use std::process::Abort;
use test_support::printing::{is_printed_and_shown, is_printed_as, is_shown};

#[test]
fn node_ids_have_parts_and_a_text(rt: HostRuntime) {
    let id = UniqueNodeId::new(1, 2, 3, 4).expect(&rt, "an id");
    assert_eq!(rt;
        (
            id.value(),
            id.pid().value(),
            id.creation_time(),
            id.owner_id(),
            Hexadecimal::new(id.value()).as_bytes(),
            Hexadecimal::parse(b"1000000020000000300000004"),
        ),
        (
            0x1_00000002_00000003_00000004u128,
            1,
            Time::new(2, 3),
            4294967300,
            b"1000000020000000300000004".as_slice(),
            Some(0x1_00000002_00000003_00000004),
        )
    );
    assert!(rt; is_printed_as(&id, "1000000020000000300000004"));
    let most = u32::MAX;
    let greatest = UniqueNodeId::new(most, most, most, most).expect(&rt, "an id");
    assert!(rt; is_printed_as(&greatest, "ffffffffffffffffffffffffffffffff"));
}

#[test]
fn node_ids_have_an_owner(rt: HostRuntime) {
    assert!(rt; UniqueNodeId::new(0, 5, 6, 0).is_none());
    assert!(rt; UniqueNodeId::new(0, 0, 0, 1).is_some());
    assert!(rt; UniqueNodeId::new(1, 0, 0, 0).is_some());
}

#[test]
fn parts_at_their_edges_stay_apart(rt: HostRuntime) {
    let most = u32::MAX;
    for ((process, seconds, nanoseconds, counter), number, text) in [
        ((0, 0, 0, 0), 0, "0"),
        ((0, 0, 0, most), 0xffffffff, "ffffffff"),
        ((0, 0, most, 0), 0xffffffff00000000, "ffffffff00000000"),
        (
            (0, most, 0, 0),
            0xffffffff_00000000_00000000,
            "ffffffff0000000000000000",
        ),
        (
            (most, 0, 0, 0),
            0xffffffff_00000000_00000000_00000000,
            "ffffffff000000000000000000000000",
        ),
        (
            (most, most, most, most),
            u128::MAX,
            "ffffffffffffffffffffffffffffffff",
        ),
    ] {
        let id = UniquePublisherId::new(process, seconds, nanoseconds, counter);
        let time = id.creation_time();
        assert_eq!(rt;
            (
                id.value(),
                id.pid().value(),
                time.seconds(),
                time.nanoseconds(),
                is_printed_as(&id, text)
            ),
            (number, process, seconds as u64, nanoseconds, true)
        );
    }
}

#[test]
fn numbers_are_written_in_hexadecimal(rt: HostRuntime) {
    for (number, text) in [
        (0, "0"),
        (15, "f"),
        (16, "10"),
        (0xffffffffffffffff, "ffffffffffffffff"),
        (0x1_0000000000000000, "10000000000000000"),
        (
            0x01020304050607_08090a0b0c0d0e00,
            "102030405060708090a0b0c0d0e00",
        ),
        (u128::MAX, "ffffffffffffffffffffffffffffffff"),
    ] {
        assert_eq!(rt; Hexadecimal::new(number).as_str(), text);
    }
}

fn has_the_number(rt: &impl Abort, port: UniquePortId) {
    assert_eq!(rt; port.value(), 0x1_00000002_00000003_00000004u128);
}

#[test]
fn a_port_id_has_the_number_of_its_id(rt: HostRuntime) {
    has_the_number(
        &rt,
        UniquePortId::Publisher(UniquePublisherId::new(1, 2, 3, 4)),
    );
    has_the_number(
        &rt,
        UniquePortId::Subscriber(UniqueSubscriberId::new(1, 2, 3, 4)),
    );
    has_the_number(
        &rt,
        UniquePortId::Notifier(UniqueNotifierId::new(1, 2, 3, 4)),
    );
    has_the_number(
        &rt,
        UniquePortId::Listener(UniqueListenerId::new(1, 2, 3, 4)),
    );
    has_the_number(&rt, UniquePortId::Client(UniqueClientId::new(1, 2, 3, 4)));
    has_the_number(&rt, UniquePortId::Server(UniqueServerId::new(1, 2, 3, 4)));
    has_the_number(&rt, UniquePortId::Reader(UniqueReaderId::new(1, 2, 3, 4)));
    has_the_number(&rt, UniquePortId::Writer(UniqueWriterId::new(1, 2, 3, 4)));
}

#[test]
fn laws_of_ids(rt: HostRuntime) {
    let state = &mut DefaultHasher::new();
    let one = UniqueServiceId::new(0, 0, 1, 0);
    let other = UniqueServiceId::new(0, 0, 0, 9);
    assert_eq!(rt;
        [
            ids_go_by_value(&one, &other, state),
            ids_go_by_value(&other, &one, state),
            ids_go_by_value(&one, &one, state),
        ],
        [
            (false, Ordering::Greater, Ok(one)),
            (false, Ordering::Less, Ok(other)),
            (true, Ordering::Equal, Ok(one)),
        ]
    );
}

#[test]
fn laws_of_node_ids(rt: HostRuntime) {
    let state = &mut DefaultHasher::new();
    let one = UniqueNodeId::new(1, 0, 0, 0).expect(&rt, "an id");
    let later = UniqueNodeId::new(1, 1, 0, 0).expect(&rt, "an id");
    assert_eq!(rt;
        [
            node_ids_go_by_value(&one, &later, state),
            node_ids_go_by_value(&one, &one, state)
        ],
        [
            (false, Ordering::Less, Ok(one)),
            (true, Ordering::Equal, Ok(one))
        ]
    );
}

#[test]
fn ids_fail_with_their_writer(rt: HostRuntime) {
    let node = UniqueNodeId::new(1, 2, 3, 4).expect(&rt, "an id");
    let port = UniquePublisherId::new(1, 2, 3, 4);
    assert_eq!(rt;
        [
            is_printed_and_shown(&node),
            is_printed_and_shown(&port),
            is_shown(&UniquePortId::Reader(UniqueReaderId::new(1, 2, 3, 4))),
            is_shown(&ProcessId::new(1)),
            is_shown(&Time::new(1, 2)),
        ],
        [true; 5]
    );
}

/// An id of a node and one of a port with these parts are printed as this text.
fn are_printed_as(rt: &impl Abort, process: u32, text: &str) {
    let node = UniqueNodeId::new(process, 2, 3, 4).expect(rt, "an id");
    let port = UniquePublisherId::new(process, 2, 3, 4);
    assert_eq!(rt;
        [is_printed_as(&node, text), is_printed_as(&port, text)],
        [true; 2]
    );
}

#[test]
fn ids_are_printed_of_many_processes(rt: HostRuntime) {
    are_printed_as(&rt, 0, "20000000300000004");
    for process in 1..=300 {
        let text = format!(in rt.alloc(); "{process:x}000000020000000300000004");
        are_printed_as(&rt, process, text.expect(&rt, "memory").as_str());
    }
}
