//! The patterns of services, and what is hashed of a service.
ghost use Rattle.std.specs.Prelude.{◌≡◌};
ghost use Rattle.iox2_config.specs.Hashing.{hash_input, pattern_word, ReadsPattern};

use iox2_texts::bounded::StaticString;
use iox2_texts::service_name::ServiceName;

/// The pattern by which the ports of a service exchange messages. Its number is part of what is
/// hashed.
#[derive(Clone, Copy, Debug, PartialEq, Eq)]
pub enum PatternKind {
    /// Publishers send samples to subscribers.
    PublishSubscribe = 0,
    /// Notifiers send events to listeners.
    Event = 1,
    /// Clients send requests, to which servers send responses.
    RequestResponse = 2,
    /// A writer keeps values, which readers read.
    Blackboard = 3,
}

impl PatternKind {
    /// All patterns, by their numbers.
    pub const ALL: [PatternKind; 4] = [
        PatternKind::PublishSubscribe,
        PatternKind::Event,
        PatternKind::RequestResponse,
        PatternKind::Blackboard,
    ];

    /// The pattern of this number, if there is one.
    pub fn of_number(number: u32) -> Option<PatternKind>
        ensures { ReadsPattern number result }
    {
        PatternKind::ALL.get(number as usize).copied()
    }

    /// The word for the pattern.
    pub fn word(self) -> &'static str
        ensures { result.now ≡ pattern_word self }
    {
        match self {
            PatternKind::PublishSubscribe => "publish-subscribe",
            PatternKind::Event => "event",
            PatternKind::RequestResponse => "request-response",
            PatternKind::Blackboard => "blackboard",
        }
    }
}

/// What is hashed of a service: the number of its pattern as one digit, and then its name.
pub fn hash_input(kind: PatternKind, name: &ServiceName) -> StaticString<256>
    ensures { result ≡ hash_input kind name.now }
{
    let mut input = StaticString::new();
    input.push_bytes(&[b'0' + kind as u8]);
    input.push_bytes(name.as_str().as_bytes());
    input
}
