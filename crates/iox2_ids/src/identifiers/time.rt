//! Processes and times.
ghost use Rattle.std.specs.Prelude.{◌≡◌};

use std::marker::Model;

/// The number that the operating system gives a process.
#[derive(Clone, Copy, Debug, PartialEq, Eq)]
pub struct ProcessId {
    value: u32,
}

impl Model for ProcessId {
    ghost use Rattle.std.specs.Prelude.{ℕ};

    ghost Value = { ℕ };

    ghost view = { λ process. process.value };

    ghost inverse = { λ n. record { value = n } };
}

impl ProcessId {
    /// The process of this number.
    pub fn new(value: u32) -> Self
        ensures { result ≡ value }
    {
        ProcessId { value }
    }

    /// Its number.
    pub fn value(&self) -> u32
        ensures { result ≡ self.now }
    {
        self.value
    }
}

/// A time: whole seconds, and the nanoseconds beside them, which may be any number of their type.
/// The default is 0 seconds and 0 nanoseconds.
#[derive(Clone, Copy, Debug, Default, PartialEq, Eq, Hash)]
pub struct Time {
    seconds: u64,
    nanoseconds: u32,
}

impl Model for Time {
    ghost use Rattle.iox2_ids.specs.Time.{Moment};

    ghost Value = { Moment };

    ghost view = { λ time. record { seconds = time.seconds; nanoseconds = time.nanoseconds } };

    ghost inverse = { λ moment. record {
      seconds = moment.seconds;
      nanoseconds = moment.nanoseconds;
    } };
}

impl Time {
    /// The time of these seconds and nanoseconds.
    pub fn new(seconds: u64, nanoseconds: u32) -> Self
        ensures { result ≡ record { seconds = seconds; nanoseconds = nanoseconds } }
    {
        Time {
            seconds,
            nanoseconds,
        }
    }

    /// The whole seconds.
    pub fn seconds(&self) -> u64
        ensures { result ≡ self.now.seconds }
    {
        self.seconds
    }

    /// The nanoseconds beside the seconds.
    pub fn nanoseconds(&self) -> u32
        ensures { result ≡ self.now.nanoseconds }
    {
        self.nanoseconds
    }
}
