//! Static configurations of publish-subscribe services.
ghost use Rattle.std.specs.Prelude.{◌≡◌, ◌↔◌, IsTrue};

use super::amount_of_chunks;
use super::setting::{Requirement, Setting, are_met, first_unmet};
use iox2_config::config::{Config, PublishSubscribe};
use iox2_config::types::MessageTypeDetails;

/// What is fixed of a publish-subscribe service.
#[derive(Debug, Drop, PartialEq, Eq, Hash)]
pub struct StaticConfig {
    /// How many subscribers there may be at once.
    pub max_subscribers: usize,
    /// How many publishers there may be at once.
    pub max_publishers: usize,
    /// How many nodes may have the service open at once.
    pub max_nodes: usize,
    /// How many past samples a publisher keeps for subscribers that come later.
    pub history_size: usize,
    /// How many samples wait for a subscriber at most.
    pub subscriber_max_buffer_size: usize,
    /// How many samples a subscriber reads at once at most.
    pub subscriber_max_borrowed_samples: usize,
    /// Whether a full buffer gives up its oldest sample for a new one.
    pub enable_safe_overflow: bool,
    /// The types of a sample's header, user header and payload.
    pub message_type_details: MessageTypeDetails,
}

impl StaticConfig {
    ghost use Rattle.iox2_static.specs.Requirements.{first_unmet, AreMet};
    ghost use Rattle.iox2_static.specs.Satisfies.{publish_subscribe_requirements};
    ghost use Rattle.iox2_static.specs.Chunks.{ReportsGreatest};
    ghost use Rattle.iox2_static.specs.PublishSubscribe.{publish_subscribe_of, sample_limits};

    /// The publish-subscribe defaults of a configuration, with the default type details.
    pub fn new(config: &Config) -> Self
        ensures { result ≡ publish_subscribe_of config.now.defaults.publish_subscribe }
    {
        Self::with_settings(&config.defaults.publish_subscribe)
    }

    /// What these settings fix of a service, with the default type details.
    pub fn with_settings(settings: &PublishSubscribe) -> Self
        ensures { result ≡ publish_subscribe_of settings.now }
    {
        StaticConfig {
            max_subscribers: settings.max_subscribers,
            max_publishers: settings.max_publishers,
            max_nodes: settings.max_nodes,
            history_size: settings.publisher_history_size,
            subscriber_max_buffer_size: settings.subscriber_max_buffer_size,
            subscriber_max_borrowed_samples: settings.subscriber_max_borrowed_samples,
            enable_safe_overflow: settings.enable_safe_overflow,
            message_type_details: MessageTypeDetails::default(),
        }
    }

    /// The greatest number of one publisher's samples that can be in use at once, where the
    /// publisher loans up to `publisher_max_loaned_samples` of them to be written. `None` exactly
    /// where that number passes a `usize`.
    pub fn required_amount_of_samples_per_data_segment(
        &self,
        publisher_max_loaned_samples: usize,
    ) -> Option<usize>
        ensures { ReportsGreatest (sample_limits self.now publisher_max_loaned_samples) result }
    {
        let for_each = self.subscriber_max_buffer_size as u128
            + self.subscriber_max_borrowed_samples as u128;
        let others = self.history_size as u128 + publisher_max_loaned_samples as u128;
        amount_of_chunks(self.max_subscribers as u128, for_each, others)
    }

    /// How many nodes may have the service open at once.
    pub fn max_nodes(&self) -> usize
        ensures { result ≡ self.now.max_nodes }
    {
        self.max_nodes
    }

    /// How many publishers there may be at once.
    pub fn max_publishers(&self) -> usize
        ensures { result ≡ self.now.max_publishers }
    {
        self.max_publishers
    }

    /// How many subscribers there may be at once.
    pub fn max_subscribers(&self) -> usize
        ensures { result ≡ self.now.max_subscribers }
    {
        self.max_subscribers
    }

    /// How many past samples a publisher keeps for subscribers that come later.
    pub fn history_size(&self) -> usize
        ensures { result ≡ self.now.history_size }
    {
        self.history_size
    }

    /// How many samples wait for a subscriber at most.
    pub fn subscriber_max_buffer_size(&self) -> usize
        ensures { result ≡ self.now.subscriber_max_buffer_size }
    {
        self.subscriber_max_buffer_size
    }

    /// How many samples a subscriber reads at once at most.
    pub fn subscriber_max_borrowed_samples(&self) -> usize
        ensures { result ≡ self.now.subscriber_max_borrowed_samples }
    {
        self.subscriber_max_borrowed_samples
    }

    /// Whether a full buffer gives up its oldest sample for a new one.
    pub fn has_safe_overflow(&self) -> bool
        ensures { result ≡ self.now.enable_safe_overflow }
    {
        self.enable_safe_overflow
    }

    /// The types of a sample's header, user header and payload.
    pub fn message_type_details(&self) -> &MessageTypeDetails
        ensures { result.now ≡ self.now.message_type_details }
    {
        &self.message_type_details
    }

    /// The first setting, in the order of the fields, in which the service does not meet what an
    /// opener requires, or `None` exactly where it meets all.
    ///
    /// Each number must be at least the required one, and each choice the same. The types of
    /// messages and the attributes are no part of it.
    pub fn first_unmet(&self, required: &Self) -> Option<Setting>
        ensures { result ≡ first_unmet (publish_subscribe_requirements self.now required.now) }
    {
        first_unmet(&self.requirements(required))
    }

    /// Whether the service meets all that an opener requires.
    pub fn satisfies(&self, required: &Self) -> bool
        ensures { IsTrue result ↔ AreMet (publish_subscribe_requirements self.now required.now) }
    {
        are_met(&self.requirements(required))
    }

    /// What an opener requires, in the order of the fields.
    #[tactic(auto, unfolding(crate::specs::Satisfies::publish_subscribe_requirements))]
    fn requirements(&self, required: &Self) -> [Requirement; 7]
        ensures { result ≡ publish_subscribe_requirements self.now required.now }
    {
        [
            Requirement::at_least(
                Setting::MaxSubscribers,
                self.max_subscribers,
                required.max_subscribers,
            ),
            Requirement::at_least(
                Setting::MaxPublishers,
                self.max_publishers,
                required.max_publishers,
            ),
            Requirement::at_least(Setting::MaxNodes, self.max_nodes, required.max_nodes),
            Requirement::at_least(
                Setting::HistorySize,
                self.history_size,
                required.history_size,
            ),
            Requirement::at_least(
                Setting::SubscriberMaxBufferSize,
                self.subscriber_max_buffer_size,
                required.subscriber_max_buffer_size,
            ),
            Requirement::at_least(
                Setting::SubscriberMaxBorrowedSamples,
                self.subscriber_max_borrowed_samples,
                required.subscriber_max_borrowed_samples,
            ),
            Requirement::same_choice(
                Setting::EnableSafeOverflow,
                self.enable_safe_overflow,
                required.enable_safe_overflow,
            ),
        ]
    }

    /// An equal configuration.
    pub fn copied(&self) -> Self
        ensures { result ≡ self.now }
    {
        StaticConfig {
            message_type_details: self.message_type_details.copied(),
            ..*self
        }
    }
}
