//! Static configurations of event services.
ghost use Rattle.std.specs.Prelude.{◌≡◌, ◌↔◌, IsTrue};

use super::setting::{Requirement, Setting, are_met, first_unmet};
use iox2_config::config::{Config, Event, EventId};
use iox2_ids::identifiers::Time;
use std::time::Duration;

/// How long listeners wait for a notification before one counts as missed.
#[derive(Clone, Copy, Debug, PartialEq, Eq, Hash)]
pub struct Deadline {
    /// When the deadline was set.
    pub creation_time: Time,
    /// The longest time between two notifications.
    pub value: Duration,
}

/// What is fixed of an event service.
#[derive(Clone, Copy, Debug, PartialEq, Eq, Hash)]
pub struct StaticConfig {
    /// How many notifiers there may be at once.
    pub max_notifiers: usize,
    /// How many listeners there may be at once.
    pub max_listeners: usize,
    /// How many nodes may have the service open at once.
    pub max_nodes: usize,
    /// The greatest number that an event may have.
    pub event_id_max_value: usize,
    /// The deadline, if there is one.
    pub deadline: Option<Deadline>,
    /// The number of the event that reports a new notifier, if there is one.
    pub notifier_created_event: Option<usize>,
    /// The number of the event that reports that a notifier left, if there is one.
    pub notifier_dropped_event: Option<usize>,
    /// The number of the event that reports a notifier whose node died, if there is one.
    pub notifier_dead_event: Option<usize>,
}

impl StaticConfig {
    ghost use Rattle.iox2_static.specs.Requirements.{first_unmet, AreMet};
    ghost use Rattle.iox2_static.specs.Satisfies.{event_requirements};
    ghost use Rattle.iox2_static.specs.Event.{event_of, duration_of};

    /// The event defaults of a configuration. A deadline is made with the default time.
    pub fn new(config: &Config) -> Self
        ensures { result ≡ event_of config.now.defaults.event }
    {
        Self::with_settings(&config.defaults.event)
    }

    /// What these settings fix of a service. A deadline is made with the default time.
    pub fn with_settings(settings: &Event) -> Self
        ensures { result ≡ event_of settings.now }
    {
        StaticConfig {
            max_notifiers: settings.max_notifiers,
            max_listeners: settings.max_listeners,
            max_nodes: settings.max_nodes,
            event_id_max_value: settings.event_id_max_value,
            deadline: match settings.deadline {
                Some(value) => Some(Deadline {
                    creation_time: Time::default(),
                    value,
                }),
                None => None,
            },
            notifier_created_event: settings.notifier_created_event,
            notifier_dropped_event: settings.notifier_dropped_event,
            notifier_dead_event: settings.notifier_dead_event,
        }
    }

    /// The longest time between two notifications, if there is a deadline.
    pub fn deadline(&self) -> Option<Duration>
        ensures { result ≡ duration_of self.now.deadline }
    {
        self.deadline.map(|deadline| deadline.value)
    }

    /// How many nodes may have the service open at once.
    pub fn max_nodes(&self) -> usize
        ensures { result ≡ self.now.max_nodes }
    {
        self.max_nodes
    }

    /// How many notifiers there may be at once.
    pub fn max_notifiers(&self) -> usize
        ensures { result ≡ self.now.max_notifiers }
    {
        self.max_notifiers
    }

    /// How many listeners there may be at once.
    pub fn max_listeners(&self) -> usize
        ensures { result ≡ self.now.max_listeners }
    {
        self.max_listeners
    }

    /// The greatest number that an event may have.
    pub fn event_id_max_value(&self) -> usize
        ensures { result ≡ self.now.event_id_max_value }
    {
        self.event_id_max_value
    }

    /// The event that reports a new notifier, if there is one.
    pub fn notifier_created_event(&self) -> Option<EventId>
        ensures { result ≡ self.now.notifier_created_event }
    {
        self.notifier_created_event.map(EventId::new)
    }

    /// The event that reports that a notifier left, if there is one.
    pub fn notifier_dropped_event(&self) -> Option<EventId>
        ensures { result ≡ self.now.notifier_dropped_event }
    {
        self.notifier_dropped_event.map(EventId::new)
    }

    /// The event that reports a notifier whose node died, if there is one.
    pub fn notifier_dead_event(&self) -> Option<EventId>
        ensures { result ≡ self.now.notifier_dead_event }
    {
        self.notifier_dead_event.map(EventId::new)
    }

    /// The first setting, in the order of the fields, in which the service does not meet what an
    /// opener requires, or `None` exactly where it meets all.
    ///
    /// Each number must be at least the required one, and deadlines and events the same; when a
    /// deadline was set does not count. Attributes are no part of it.
    pub fn first_unmet(&self, required: &Self) -> Option<Setting>
        ensures { result ≡ first_unmet (event_requirements self.now required.now) }
    {
        first_unmet(&self.requirements(required))
    }

    /// Whether the service meets all that an opener requires.
    pub fn satisfies(&self, required: &Self) -> bool
        ensures { IsTrue result ↔ AreMet (event_requirements self.now required.now) }
    {
        are_met(&self.requirements(required))
    }

    /// What an opener requires, in the order of the fields.
    #[tactic(auto, unfolding(crate::specs::Satisfies::event_requirements))]
    fn requirements(&self, required: &Self) -> [Requirement; 8]
        ensures { result ≡ event_requirements self.now required.now }
    {
        [
            Requirement::at_least(
                Setting::MaxNotifiers,
                self.max_notifiers,
                required.max_notifiers,
            ),
            Requirement::at_least(
                Setting::MaxListeners,
                self.max_listeners,
                required.max_listeners,
            ),
            Requirement::at_least(Setting::MaxNodes, self.max_nodes, required.max_nodes),
            Requirement::at_least(
                Setting::EventIdMaxValue,
                self.event_id_max_value,
                required.event_id_max_value,
            ),
            Requirement::same_duration(Setting::Deadline, self.deadline(), required.deadline()),
            Requirement::same_event(
                Setting::NotifierCreatedEvent,
                self.notifier_created_event,
                required.notifier_created_event,
            ),
            Requirement::same_event(
                Setting::NotifierDroppedEvent,
                self.notifier_dropped_event,
                required.notifier_dropped_event,
            ),
            Requirement::same_event(
                Setting::NotifierDeadEvent,
                self.notifier_dead_event,
                required.notifier_dead_event,
            ),
        ]
    }
}
