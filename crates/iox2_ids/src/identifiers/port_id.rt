//! Ids of ports of any kind.
ghost use Rattle.std.specs.Prelude.{◌≡◌};

use super::unique_id::{
    UniqueClientId, UniqueListenerId, UniqueNotifierId, UniquePublisherId, UniqueReaderId,
    UniqueServerId, UniqueSubscriberId, UniqueWriterId,
};

/// The id of a port, which says its kind.
#[derive(Clone, Copy, Debug, PartialEq, Eq)]
pub enum UniquePortId {
    /// The id of a publisher.
    Publisher(UniquePublisherId),
    /// The id of a subscriber.
    Subscriber(UniqueSubscriberId),
    /// The id of a notifier.
    Notifier(UniqueNotifierId),
    /// The id of a listener.
    Listener(UniqueListenerId),
    /// The id of a client.
    Client(UniqueClientId),
    /// The id of a server.
    Server(UniqueServerId),
    /// The id of a reader.
    Reader(UniqueReaderId),
    /// The id of a writer.
    Writer(UniqueWriterId),
}

impl UniquePortId {
    ghost use Rattle.iox2_ids.specs.PortId.{port_value};

    /// The number of the id in it, whatever its kind.
    pub fn value(&self) -> u128
        ensures { result ≡ port_value self.now }
    {
        match self {
            UniquePortId::Publisher(id) => id.value(),
            UniquePortId::Subscriber(id) => id.value(),
            UniquePortId::Notifier(id) => id.value(),
            UniquePortId::Listener(id) => id.value(),
            UniquePortId::Client(id) => id.value(),
            UniquePortId::Server(id) => id.value(),
            UniquePortId::Reader(id) => id.value(),
            UniquePortId::Writer(id) => id.value(),
        }
    }
}
