//! The pattern of a service, with the configuration that belongs to it.
ghost use Rattle.std.specs.Prelude.{◌≡◌, ◌↔◌, IsTrue};

use super::{blackboard, event, publish_subscribe, request_response};
use iox2_config::hash::PatternKind;
use std::fmt;

/// The pattern of a service, with the configuration that belongs to it.
#[derive(Debug, Drop, PartialEq, Eq, Hash)]
pub enum MessagingPattern {
    /// Clients send requests, and servers answer them.
    RequestResponse(request_response::StaticConfig),
    /// Publishers send samples to all subscribers.
    PublishSubscribe(publish_subscribe::StaticConfig),
    /// Notifiers wake listeners.
    Event(event::StaticConfig),
    /// A writer keeps values that readers look up by key.
    Blackboard(blackboard::StaticConfig),
}

/// The name of the variant.
impl fmt::Display for MessagingPattern {
    ghost use Rattle.std.specs.Prelude.{Some};
    ghost use Rattle.iox2_static.specs.MessagingPattern.{name_of};

    ghost output = { λ pattern. Some (name_of pattern) };

    fn fmt<W: fmt::Write>(&self, f: &mut fmt::Formatter<W>) -> fmt::Result {
        f.write_str(match self {
            MessagingPattern::RequestResponse(_) => "RequestResponse",
            MessagingPattern::PublishSubscribe(_) => "PublishSubscribe",
            MessagingPattern::Event(_) => "Event",
            MessagingPattern::Blackboard(_) => "Blackboard",
        })
    }
}

impl MessagingPattern {
    ghost use Rattle.std.specs.Borrow.{sem};
    ghost use Rattle.iox2_static.specs.MessagingPattern.{kind_of};
    ghost use Rattle.iox2_static.specs.PatternLoans.{LendsRequestResponse, LendsPublishSubscribe};
    ghost use Rattle.iox2_static.specs.PatternLoans.{LendsEvent, LendsBlackboard};

    /// The kind of the pattern, without its configuration.
    pub fn kind(&self) -> PatternKind
        ensures { result ≡ kind_of self.now }
    {
        match self {
            MessagingPattern::RequestResponse(_) => PatternKind::RequestResponse,
            MessagingPattern::PublishSubscribe(_) => PatternKind::PublishSubscribe,
            MessagingPattern::Event(_) => PatternKind::Event,
            MessagingPattern::Blackboard(_) => PatternKind::Blackboard,
        }
    }

    /// Whether both are of one kind, whatever their configurations are.
    pub fn is_same_pattern(&self, rhs: &MessagingPattern) -> bool
        ensures { IsTrue result ↔ (kind_of self.now ≡ kind_of rhs.now) }
    {
        self.kind() == rhs.kind()
    }

    /// The configuration of a request-response service.
    pub fn request_response(&self) -> &request_response::StaticConfig
        requires { kind_of self.now ≡ PatternKind.RequestResponse }
        ensures { self.now ≡ MessagingPattern.RequestResponse result.now }
    {
        match self {
            MessagingPattern::RequestResponse(config) => config,
            _ => unreachable!(),
        }
    }

    /// The configuration of a publish-subscribe service.
    pub fn publish_subscribe(&self) -> &publish_subscribe::StaticConfig
        requires { kind_of self.now ≡ PatternKind.PublishSubscribe }
        ensures { self.now ≡ MessagingPattern.PublishSubscribe result.now }
    {
        match self {
            MessagingPattern::PublishSubscribe(config) => config,
            _ => unreachable!(),
        }
    }

    /// The configuration of a request-response service, to be changed.
    pub(super) fn request_response_mut(&mut self) -> &mut request_response::StaticConfig
        requires { kind_of self.old ≡ PatternKind.RequestResponse }
        ensures* lent { sem 𝓛 (LendsRequestResponse self.entry result) }
        ensures value { self.old ≡ MessagingPattern.RequestResponse result.now }
    {
        match self {
            MessagingPattern::RequestResponse(config) => config,
            _ => unreachable!(),
        }
    }

    /// The configuration of a publish-subscribe service, to be changed.
    pub(super) fn publish_subscribe_mut(&mut self) -> &mut publish_subscribe::StaticConfig
        requires { kind_of self.old ≡ PatternKind.PublishSubscribe }
        ensures* lent { sem 𝓛 (LendsPublishSubscribe self.entry result) }
        ensures value { self.old ≡ MessagingPattern.PublishSubscribe result.now }
    {
        match self {
            MessagingPattern::PublishSubscribe(config) => config,
            _ => unreachable!(),
        }
    }

    /// The configuration of an event service, to be changed.
    pub(super) fn event_mut(&mut self) -> &mut event::StaticConfig
        requires { kind_of self.old ≡ PatternKind.Event }
        ensures* lent { sem 𝓛 (LendsEvent self.entry result) }
        ensures value { self.old ≡ MessagingPattern.Event result.now }
    {
        match self {
            MessagingPattern::Event(config) => config,
            _ => unreachable!(),
        }
    }

    /// The configuration of a blackboard service, to be changed.
    pub(super) fn blackboard_mut(&mut self) -> &mut blackboard::StaticConfig
        requires { kind_of self.old ≡ PatternKind.Blackboard }
        ensures* lent { sem 𝓛 (LendsBlackboard self.entry result) }
        ensures value { self.old ≡ MessagingPattern.Blackboard result.now }
    {
        match self {
            MessagingPattern::Blackboard(config) => config,
            _ => unreachable!(),
        }
    }

    /// An equal pattern.
    pub fn copied(&self) -> Self
        ensures { result ≡ self.now }
    {
        match self {
            MessagingPattern::RequestResponse(config) => MessagingPattern::RequestResponse(
                config.copied(),
            ),
            MessagingPattern::PublishSubscribe(config) => MessagingPattern::PublishSubscribe(
                config.copied(),
            ),
            MessagingPattern::Event(config) => MessagingPattern::Event(*config),
            MessagingPattern::Blackboard(config) => MessagingPattern::Blackboard(config.copied()),
        }
    }
}
