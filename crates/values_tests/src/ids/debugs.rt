//! What `Debug` prints of ids: each kind by name, each field by name and value.
use iox2_ids::identifiers::*;
use test_support::printing::{are_shown_as, is_shown_as};

#[test]
fn ids_are_shown_by_value(rt: HostRuntime) {
    let node = UniqueNodeId::new(0, 0, 0, 5).expect(&rt, "an id");
    assert_eq!(rt;
        [
            is_shown_as(
                &UniqueServiceId::new(0, 0, 1, 2),
                "UniqueId { value: 4294967298, kind: PhantomData<_> }",
            ),
            is_shown_as(
                &node,
                "UniqueNodeId { id: UniqueId { value: 5, kind: PhantomData<_> } }",
            ),
        ],
        [true; 2]
    );
}

#[test]
fn processes_and_times_are_shown_by_field(rt: HostRuntime) {
    assert_eq!(rt;
        [
            is_shown_as(&ProcessId::new(7), "ProcessId { value: 7 }"),
            is_shown_as(
                &Time::new(u64::MAX, 9),
                "Time { seconds: 18446744073709551615, nanoseconds: 9 }",
            ),
        ],
        [true; 2]
    );
}

#[test]
fn ids_of_ports_are_shown_by_kind(rt: HostRuntime) {
    let table = [
        (
            UniquePortId::Publisher(UniquePublisherId::new(0, 0, 0, 1)),
            "Publisher(UniqueId { value: 1, kind: PhantomData<_> })",
        ),
        (
            UniquePortId::Subscriber(UniqueSubscriberId::new(0, 0, 0, 2)),
            "Subscriber(UniqueId { value: 2, kind: PhantomData<_> })",
        ),
        (
            UniquePortId::Notifier(UniqueNotifierId::new(0, 0, 0, 3)),
            "Notifier(UniqueId { value: 3, kind: PhantomData<_> })",
        ),
        (
            UniquePortId::Listener(UniqueListenerId::new(0, 0, 0, 4)),
            "Listener(UniqueId { value: 4, kind: PhantomData<_> })",
        ),
        (
            UniquePortId::Client(UniqueClientId::new(0, 0, 0, 5)),
            "Client(UniqueId { value: 5, kind: PhantomData<_> })",
        ),
        (
            UniquePortId::Server(UniqueServerId::new(0, 0, 0, 6)),
            "Server(UniqueId { value: 6, kind: PhantomData<_> })",
        ),
        (
            UniquePortId::Reader(UniqueReaderId::new(0, 0, 0, 7)),
            "Reader(UniqueId { value: 7, kind: PhantomData<_> })",
        ),
        (
            UniquePortId::Writer(UniqueWriterId::new(0, 0, 0, 8)),
            "Writer(UniqueId { value: 8, kind: PhantomData<_> })",
        ),
    ];
    assert!(rt; are_shown_as(&table));
}
