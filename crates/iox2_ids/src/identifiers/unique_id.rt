//! Ids of ports and services: one generic type, and nine instances of it; and ids of nodes.
ghost use Rattle.std.specs.Prelude.{◌≡◌, ◌<◌, ◌+◌, ◌↔◌, IfSome, IsNone, Some};
ghost use Rattle.iox2_ids.specs.Packing.{packed, process_of, time_of, owner_of, hexadecimal};

use super::hexadecimal::Hexadecimal;
use super::time::{ProcessId, Time};
use std::fmt;
use std::marker::{Model, PhantomData};

/// The id of something of the kind `K`: two ids of different kinds cannot be taken for one another.
///
/// No part of an id is bounded further than its type; all parts may be 0.
///
/// From `crates/values_tests/src/ids/worked.rt`:
///
/// ```
/// let id = UniquePublisherId::new(process, seconds, nanoseconds, counter);
/// let time = id.creation_time();
/// ```
#[derive_where(Clone, Copy, Debug, PartialEq, Eq, PartialOrd, Ord, Hash)]
pub struct UniqueId<K> {
    value: u128,
    kind: PhantomData<K>,
}

impl<K> Model for UniqueId<K> {
    ghost use Rattle.std.specs.Prelude.{ℕ};

    ghost Value = { ℕ };

    ghost view = { λ id. id.value };

    ghost inverse = { λ n. record { value = n; kind = record {} } };
}

/// The number in lower-case hexadecimal digits without leading zeros.
impl<K> fmt::Display for UniqueId<K> {
    ghost use Rattle.std.specs.Fmt.{styled_text};

    ghost output = { λ id. Some (hexadecimal id) };

    ghost styled_output = { λ id spec. Some (styled_text spec (hexadecimal id)) };

    fn fmt<W: fmt::Write>(&self, f: &mut fmt::Formatter<W>) -> fmt::Result {
        f.pad(Hexadecimal::new(self.value).as_str())
    }
}

impl<K> UniqueId<K> {
    /// The id that these parts make.
    pub fn new(process: u32, seconds: u32, nanoseconds: u32, counter: u32) -> Self
        ensures { result ≡ packed process seconds nanoseconds counter }
    {
        UniqueId {
            value: ((process as u128) << 96)
                + ((seconds as u128) << 64)
                + ((nanoseconds as u128) << 32)
                + counter as u128,
            kind: PhantomData,
        }
    }

    /// The number that the parts make:
    /// process * 2^96 + seconds * 2^64 + nanoseconds * 2^32 + counter.
    pub fn value(&self) -> u128
        ensures { result ≡ self.now }
    {
        self.value
    }

    /// The process that created it.
    pub fn pid(&self) -> ProcessId
        ensures { result ≡ process_of self.now }
    {
        ProcessId::new((self.value >> 96) as u32)
    }

    /// When it was created.
    pub fn creation_time(&self) -> Time
        ensures { result ≡ time_of self.now }
    {
        Time::new(
            ((self.value >> 64) % (1 << 32)) as u64,
            ((self.value >> 32) % (1 << 32)) as u32,
        )
    }
}

/// The kind of a [`UniquePublisherId`].
pub enum PublisherKind {}

/// The kind of a [`UniqueSubscriberId`].
pub enum SubscriberKind {}

/// The kind of a [`UniqueNotifierId`].
pub enum NotifierKind {}

/// The kind of a [`UniqueListenerId`].
pub enum ListenerKind {}

/// The kind of a [`UniqueClientId`].
pub enum ClientKind {}

/// The kind of a [`UniqueServerId`].
pub enum ServerKind {}

/// The kind of a [`UniqueReaderId`].
pub enum ReaderKind {}

/// The kind of a [`UniqueWriterId`].
pub enum WriterKind {}

/// The kind of a [`UniqueServiceId`].
pub enum ServiceKind {}

/// The id of a publisher.
pub type UniquePublisherId = UniqueId<PublisherKind>;

/// The id of a subscriber.
pub type UniqueSubscriberId = UniqueId<SubscriberKind>;

/// The id of a notifier.
pub type UniqueNotifierId = UniqueId<NotifierKind>;

/// The id of a listener.
pub type UniqueListenerId = UniqueId<ListenerKind>;

/// The id of a client.
pub type UniqueClientId = UniqueId<ClientKind>;

/// The id of a server.
pub type UniqueServerId = UniqueId<ServerKind>;

/// The id of a reader.
pub type UniqueReaderId = UniqueId<ReaderKind>;

/// The id of a writer.
pub type UniqueWriterId = UniqueId<WriterKind>;

/// The id of a service.
pub type UniqueServiceId = UniqueId<ServiceKind>;

/// The kind of the id in a [`UniqueNodeId`].
enum NodeKind {}

/// The id of a node. Its process or its counter is not 0.
///
/// From `crates/services_tests/src/examples/services.rt`:
///
/// ```
/// UniqueNodeId::new(1, 0, 0, counter).expect(rt, "process 1 has nodes")
/// ```
#[derive(Clone, Copy, Debug, PartialEq, Eq, PartialOrd, Ord, Hash)]
pub struct UniqueNodeId {
    id: UniqueId<NodeKind>,
}

impl Model for UniqueNodeId {
    ghost use Rattle.std.specs.Prelude.{ℕ, ◌<◌};
    ghost use Rattle.iox2_ids.specs.Packing.{owner_of};

    ghost Value = { ℕ };

    ghost view = { λ node. node.id };

    ghost invariant = { λ node. 0 < owner_of node.id };

    ghost inverse = { λ n. record { id = n } };
}

/// The number in lower-case hexadecimal digits without leading zeros.
impl fmt::Display for UniqueNodeId {
    ghost use Rattle.std.specs.Fmt.{styled_text};

    ghost output = { λ id. Some (hexadecimal id) };

    ghost styled_output = { λ id spec. Some (styled_text spec (hexadecimal id)) };

    fn fmt<W: fmt::Write>(&self, f: &mut fmt::Formatter<W>) -> fmt::Result {
        self.id.fmt(f)
    }
}

impl UniqueNodeId {
    /// The id that these parts make, or `None` exactly where process and counter are both 0.
    pub fn new(process: u32, seconds: u32, nanoseconds: u32, counter: u32) -> Option<Self>
        ensures none { IsNone result ↔ (process + counter ≡ 0) }
        ensures some { IfSome result (λ id. id ≡ packed process seconds nanoseconds counter) }
    {
        if process == 0 && counter == 0 {
            return None;
        }
        Some(UniqueNodeId {
            id: UniqueId::new(process, seconds, nanoseconds, counter),
        })
    }

    /// The number that the parts make:
    /// process * 2^96 + seconds * 2^64 + nanoseconds * 2^32 + counter.
    pub fn value(&self) -> u128
        ensures { result ≡ self.now }
    {
        self.id.value()
    }

    /// The process that created it.
    pub fn pid(&self) -> ProcessId
        ensures { result ≡ process_of self.now }
    {
        self.id.pid()
    }

    /// When it was created.
    pub fn creation_time(&self) -> Time
        ensures { result ≡ time_of self.now }
    {
        self.id.creation_time()
    }

    /// The process and the counter in one number, process * 2^32 + counter, which is never 0.
    ///
    /// Nodes of one process with the same counter share it, so it does not identify a node.
    pub fn owner_id(&self) -> u64
        ensures value { result ≡ owner_of self.now }
        ensures never_zero { 0 < result }
    {
        let value = self.id.value();
        ((value >> 96) << 32) as u64 + (value % (1 << 32)) as u64
    }
}
