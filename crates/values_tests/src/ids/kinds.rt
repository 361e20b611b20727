//! The nine types of ids, of which no two are one.
use iox2_ids::identifiers::*;

/// A type of ids. With two of them one type, two impls would be of one type, which is refused.
trait Kind {
    /// Whose ids they are.
    const OF: &'static str;
}

impl Kind for UniquePublisherId {
    const OF: &'static str = "publisher";
}

impl Kind for UniqueSubscriberId {
    const OF: &'static str = "subscriber";
}

impl Kind for UniqueNotifierId {
    const OF: &'static str = "notifier";
}

impl Kind for UniqueListenerId {
    const OF: &'static str = "listener";
}

impl Kind for UniqueClientId {
    const OF: &'static str = "client";
}

impl Kind for UniqueServerId {
    const OF: &'static str = "server";
}

impl Kind for UniqueReaderId {
    const OF: &'static str = "reader";
}

impl Kind for UniqueWriterId {
    const OF: &'static str = "writer";
}

impl Kind for UniqueServiceId {
    const OF: &'static str = "service";
}

#[test]
fn no_two_types_of_ids_are_one(rt: HostRuntime) {
    assert_eq!(rt;
        [
            UniquePublisherId::OF,
            UniqueSubscriberId::OF,
            UniqueNotifierId::OF,
            UniqueListenerId::OF,
            UniqueClientId::OF,
            UniqueServerId::OF,
            UniqueReaderId::OF,
            UniqueWriterId::OF,
            UniqueServiceId::OF,
        ],
        [
            "publisher",
            "subscriber",
            "notifier",
            "listener",
            "client",
            "server",
            "reader",
            "writer",
            "service",
        ]
    );
}
