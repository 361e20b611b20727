//! Small choices and numbers of settings.
ghost use Rattle.std.specs.Prelude.{◌≡◌};

use std::marker::Model;

/// What a sender does where a receiver's buffer is full and may not overflow.
#[derive(Clone, Copy, Debug, PartialEq, Eq)]
pub enum BackpressureStrategy {
    /// It tries again until the receiver can take the message.
    RetryUntilDelivered,
    /// It leaves the receiver out.
    DiscardData,
}

/// How a data segment grows for messages whose length is known only at run time.
#[derive(Clone, Copy, Debug, PartialEq, Eq)]
pub enum AllocationStrategy {
    /// By as much as the message needs.
    BestFit,
    /// To the next power of two.
    PowerOfTwo,
    /// It does not grow.
    Static,
}

/// Whether a port's data segment may grow.
#[derive(Clone, Copy, Debug, PartialEq, Eq)]
pub enum DataSegmentType {
    /// It may be replaced by a larger one.
    Dynamic,
    /// It keeps its size.
    Static,
}

/// The number by which listeners distinguish the events of one service.
#[derive(Clone, Copy, Debug, PartialEq, Eq)]
pub struct EventId {
    value: usize,
}

impl Model for EventId {
    ghost use Rattle.std.specs.Prelude.{ℕ};

    ghost Value = { ℕ };

    ghost view = { λ event. event.value };

    ghost inverse = { λ n. record { value = n } };
}

impl EventId {
    /// The event of this number.
    pub fn new(value: usize) -> Self
        ensures { result ≡ value }
    {
        EventId { value }
    }

    /// Its number.
    pub fn as_value(&self) -> usize
        ensures { result ≡ self.now }
    {
        self.value
    }
}
