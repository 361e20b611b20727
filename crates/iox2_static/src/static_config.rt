//! What is fixed of a service: its name, its id, its hash text, its pattern with that pattern's
//! settings, and its attributes.
ghost use Rattle.std.specs.Prelude.{◌≡◌, ◌↔◌, ◌+◌, ◌*◌, ℕ, List, IsTrue, sum};
ghost use Rattle.iox2_static.specs.PublishSubscribe.{publish_subscribe_of};
ghost use Rattle.iox2_static.specs.RequestResponse.{request_response_of};
ghost use Rattle.iox2_static.specs.Event.{event_of};
ghost use Rattle.iox2_static.specs.Blackboard.{blackboard_of};
ghost use Rattle.iox2_static.specs.Chunks.{ReportsGreatest};
ghost use Rattle.iox2_static.specs.MessagingPattern.{kind_of};
ghost use Rattle.iox2_static.specs.Description.{Description, Describes};

pub mod blackboard;
pub mod event;
pub mod messaging_pattern;
pub mod publish_subscribe;
pub mod request_response;
pub mod setting;

use iox2_config::config::Config;
use iox2_config::hash::{Hash, PatternKind, ServiceHash, ServiceHashError};
use iox2_ids::identifiers::UniqueServiceId;
use iox2_texts::attribute::AttributeSet;
use iox2_texts::service_name::ServiceName;
use messaging_pattern::MessagingPattern;
use std::marker::Model;

/// What is fixed of a service, as its creator describes it.
///
/// From `crates/services_tests/src/examples/services.rt`:
///
/// ```
/// let mut service = StaticConfig::new_publish_subscribe::<Sha1Hasher>(
///     &name,
///     &Config::default(),
///     UniqueServiceId::new(1, 0, 0, 9),
/// ).expect(rt, "a description");
/// assert!(rt; service.is_publish_subscribe());
/// service.publish_subscribe_mut().message_type_details = types(rt, 8);
/// ```
#[derive(Debug, Drop, PartialEq, Eq)]
pub struct StaticConfig {
    service_hash: ServiceHash,
    service_name: ServiceName,
    unique_service_id: UniqueServiceId,
    attributes: AttributeSet,
    messaging_pattern: MessagingPattern,
}

impl Model for StaticConfig {
    ghost use Rattle.iox2_static.specs.Description.{Description};

    ghost Value = { Description };

    ghost view = { λ s. record {
      name = s.service_name;
      id = s.unique_service_id;
      hash = s.service_hash;
      attributes = s.attributes;
      pattern = s.messaging_pattern;
    } };

    ghost inverse = { λ d. record {
      service_hash = d.hash;
      service_name = d.name;
      unique_service_id = d.id;
      attributes = d.attributes;
      messaging_pattern = d.pattern;
    } };
}

impl StaticConfig {
    ghost use Rattle.std.specs.Borrow.{sem};
    ghost use Rattle.iox2_static.specs.ServiceLoans.{LendsRequestResponse, LendsPublishSubscribe};
    ghost use Rattle.iox2_static.specs.ServiceLoans.{LendsEvent, LendsBlackboard};

    /// The description of a service of this pattern, without attributes.
    fn describe<H: Hash>(
        service_name: &ServiceName,
        unique_service_id: UniqueServiceId,
        messaging_pattern: MessagingPattern,
    ) -> Result<Self, ServiceHashError>
        ensures { Describes H.meaning H.may_refuse service_name.now unique_service_id
            messaging_pattern result }
    {
        let service_hash = ServiceHash::new::<H>(service_name, messaging_pattern.kind())?;
        Ok(StaticConfig {
            service_hash,
            service_name: service_name.copied(),
            unique_service_id,
            attributes: AttributeSet::new(),
            messaging_pattern,
        })
    }

    /// The description of a request-response service with the
    /// defaults of a configuration and without attributes.
    ///
    /// Refuses as [`ServiceHash::new`] does for the name and the pattern: `HasherFailed` only where
    /// `H` may refuse them, and else `IllegalText` exactly where `H` makes no legal text of them.
    pub fn new_request_response<H: Hash>(
        service_name: &ServiceName,
        config: &Config,
        unique_service_id: UniqueServiceId,
    ) -> Result<Self, ServiceHashError>
        ensures { Describes H.meaning H.may_refuse service_name.now unique_service_id
            (MessagingPattern.RequestResponse
            (request_response_of config.now.defaults.request_response)) result }
    {
        let settings = request_response::StaticConfig::new(config);
        Self::describe::<H>(
            service_name,
            unique_service_id,
            MessagingPattern::RequestResponse(settings),
        )
    }

    /// The description of an event service with the
    /// defaults of a configuration and without attributes.
    ///
    /// Refuses as [`StaticConfig::new_request_response`] does.
    pub fn new_event<H: Hash>(
        service_name: &ServiceName,
        config: &Config,
        unique_service_id: UniqueServiceId,
    ) -> Result<Self, ServiceHashError>
        ensures { Describes H.meaning H.may_refuse service_name.now unique_service_id
            (MessagingPattern.Event (event_of config.now.defaults.event)) result }
    {
        let settings = event::StaticConfig::new(config);
        Self::describe::<H>(
            service_name,
            unique_service_id,
            MessagingPattern::Event(settings),
        )
    }

    /// The description of a publish-subscribe service with the
    /// defaults of a configuration and without attributes.
    ///
    /// Refuses as [`StaticConfig::new_request_response`] does.
    pub fn new_publish_subscribe<H: Hash>(
        service_name: &ServiceName,
        config: &Config,
        unique_service_id: UniqueServiceId,
    ) -> Result<Self, ServiceHashError>
        ensures { Describes H.meaning H.may_refuse service_name.now unique_service_id
            (MessagingPattern.PublishSubscribe
            (publish_subscribe_of config.now.defaults.publish_subscribe)) result }
    {
        let settings = publish_subscribe::StaticConfig::new(config);
        Self::describe::<H>(
            service_name,
            unique_service_id,
            MessagingPattern::PublishSubscribe(settings),
        )
    }

    /// The description of a blackboard service with the
    /// defaults of a configuration and without attributes.
    ///
    /// Refuses as [`StaticConfig::new_request_response`] does.
    pub fn new_blackboard<H: Hash>(
        service_name: &ServiceName,
        config: &Config,
        unique_service_id: UniqueServiceId,
    ) -> Result<Self, ServiceHashError>
        ensures { Describes H.meaning H.may_refuse service_name.now unique_service_id
            (MessagingPattern.Blackboard (blackboard_of config.now.defaults.blackboard)) result }
    {
        let settings = blackboard::StaticConfig::new(config);
        Self::describe::<H>(
            service_name,
            unique_service_id,
            MessagingPattern::Blackboard(settings),
        )
    }

    /// The same service with these attributes in place of those that it had.
    pub fn with_attributes(self, attributes: &AttributeSet) -> Self
        ensures { result ≡ record self { attributes = attributes.now } }
    {
        let mut described = self;
        described.attributes = attributes.copied();
        described
    }

    /// The attributes of the service.
    pub fn attributes(&self) -> &AttributeSet
        ensures { result.now ≡ self.now.attributes }
    {
        &self.attributes
    }

    /// The hash text of the service.
    pub fn service_hash(&self) -> &ServiceHash
        ensures { result.now ≡ self.now.hash }
    {
        &self.service_hash
    }

    /// The id of the service.
    pub fn unique_service_id(&self) -> UniqueServiceId
        ensures { result ≡ self.now.id }
    {
        self.unique_service_id
    }

    /// The name of the service.
    pub fn name(&self) -> &ServiceName
        ensures { result.now ≡ self.now.name }
    {
        &self.service_name
    }

    /// The pattern of the service, with its settings.
    pub fn messaging_pattern(&self) -> &MessagingPattern
        ensures { result.now ≡ self.now.pattern }
    {
        &self.messaging_pattern
    }

    /// Whether both services have a pattern of one kind, whatever its settings are.
    pub fn has_same_messaging_pattern(&self, rhs: &StaticConfig) -> bool
        ensures { IsTrue result ↔ (kind_of self.now.pattern ≡ kind_of rhs.now.pattern) }
    {
        self.messaging_pattern
            .is_same_pattern(&rhs.messaging_pattern)
    }

    /// Whether [`StaticConfig::request_response`] may be called.
    pub fn is_request_response(&self) -> bool
        ensures { IsTrue result ↔ (kind_of self.now.pattern ≡ PatternKind.RequestResponse) }
    {
        self.messaging_pattern.kind() == PatternKind::RequestResponse
    }

    /// Whether [`StaticConfig::event`] may be called.
    pub fn is_event(&self) -> bool
        ensures { IsTrue result ↔ (kind_of self.now.pattern ≡ PatternKind.Event) }
    {
        self.messaging_pattern.kind() == PatternKind::Event
    }

    /// Whether [`StaticConfig::publish_subscribe`] may be called.
    pub fn is_publish_subscribe(&self) -> bool
        ensures { IsTrue result ↔ (kind_of self.now.pattern ≡ PatternKind.PublishSubscribe) }
    {
        self.messaging_pattern.kind() == PatternKind::PublishSubscribe
    }

    /// Whether [`StaticConfig::blackboard`] may be called.
    pub fn is_blackboard(&self) -> bool
        ensures { IsTrue result ↔ (kind_of self.now.pattern ≡ PatternKind.Blackboard) }
    {
        self.messaging_pattern.kind() == PatternKind::Blackboard
    }

    /// The settings of a request-response service.
    pub fn request_response(&self) -> &request_response::StaticConfig
        requires { kind_of self.now.pattern ≡ PatternKind.RequestResponse }
        ensures { self.now.pattern ≡ MessagingPattern.RequestResponse result.now }
    {
        self.messaging_pattern.request_response()
    }

    /// The settings of a request-response service, to be changed.
    pub fn request_response_mut(&mut self) -> &mut request_response::StaticConfig
        requires { kind_of self.old.pattern ≡ PatternKind.RequestResponse }
        ensures* lent { sem 𝓛 (LendsRequestResponse self.entry result) }
        ensures value { self.old.pattern ≡ MessagingPattern.RequestResponse result.now }
    {
        self.messaging_pattern.request_response_mut()
    }

    /// The settings of an event service.
    pub fn event(&self) -> &event::StaticConfig
        requires { kind_of self.now.pattern ≡ PatternKind.Event }
        ensures { self.now.pattern ≡ MessagingPattern.Event result.now }
    {
        match &self.messaging_pattern {
            MessagingPattern::Event(config) => config,
            _ => unreachable!(),
        }
    }

    /// The settings of an event service, to be changed.
    pub fn event_mut(&mut self) -> &mut event::StaticConfig
        requires { kind_of self.old.pattern ≡ PatternKind.Event }
        ensures* lent { sem 𝓛 (LendsEvent self.entry result) }
        ensures value { self.old.pattern ≡ MessagingPattern.Event result.now }
    {
        self.messaging_pattern.event_mut()
    }

    /// The settings of a publish-subscribe service.
    pub fn publish_subscribe(&self) -> &publish_subscribe::StaticConfig
        requires { kind_of self.now.pattern ≡ PatternKind.PublishSubscribe }
        ensures { self.now.pattern ≡ MessagingPattern.PublishSubscribe result.now }
    {
        self.messaging_pattern.publish_subscribe()
    }

    /// The settings of a publish-subscribe service, to be changed.
    pub fn publish_subscribe_mut(&mut self) -> &mut publish_subscribe::StaticConfig
        requires { kind_of self.old.pattern ≡ PatternKind.PublishSubscribe }
        ensures* lent { sem 𝓛 (LendsPublishSubscribe self.entry result) }
        ensures value { self.old.pattern ≡ MessagingPattern.PublishSubscribe result.now }
    {
        self.messaging_pattern.publish_subscribe_mut()
    }

    /// The settings of a blackboard service.
    pub fn blackboard(&self) -> &blackboard::StaticConfig
        requires { kind_of self.now.pattern ≡ PatternKind.Blackboard }
        ensures { self.now.pattern ≡ MessagingPattern.Blackboard result.now }
    {
        match &self.messaging_pattern {
            MessagingPattern::Blackboard(config) => config,
            _ => unreachable!(),
        }
    }

    /// The settings of a blackboard service, to be changed.
    pub fn blackboard_mut(&mut self) -> &mut blackboard::StaticConfig
        requires { kind_of self.old.pattern ≡ PatternKind.Blackboard }
        ensures* lent { sem 𝓛 (LendsBlackboard self.entry result) }
        ensures value { self.old.pattern ≡ MessagingPattern.Blackboard result.now }
    {
        self.messaging_pattern.blackboard_mut()
    }

    /// An equal description.
    pub fn copied(&self) -> Self
        ensures { result ≡ self.now }
    {
        StaticConfig {
            service_hash: self.service_hash.copied(),
            service_name: self.service_name.copied(),
            unique_service_id: self.unique_service_id,
            attributes: self.attributes.copied(),
            messaging_pattern: self.messaging_pattern.copied(),
        }
    }
}

/// The greatest number of chunks in use at once, where the limits of all that hold chunks add up to
/// `holders * for_each + others`.
///
/// Only the final number is compared with the greatest `usize`: a huge `for_each` is no error where
/// there are no holders.
#[tactic(auto, using(crate::proofs::Greatest::tells))]
fn amount_of_chunks(holders: u128, for_each: u128, others: u128) -> Option<usize>
    ensures { (limits : List ℕ) → sum limits ≡ holders * for_each + others
        → ReportsGreatest limits result }
{
    let total = holders.checked_mul(for_each)?.checked_add(others)?;
    usize::try_from(total).ok()
}
