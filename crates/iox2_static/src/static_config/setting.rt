//! What an opener requires of a service's settings.
ghost use Rattle.std.specs.Prelude.{◌≡◌, ◌↔◌, IsTrue};
ghost use Rattle.iox2_static.specs.Requirements.{at_least, same_choice, same_event, same_duration};
ghost use Rattle.iox2_static.specs.Requirements.{first_unmet, AreMet};

use std::fmt;
use std::time::Duration;

/// A setting of a service, as openers require it. It prints as its name.
#[derive(Clone, Copy, Debug, PartialEq, Eq)]
pub enum Setting {
    /// How many subscribers there may be at once.
    MaxSubscribers,
    /// How many publishers there may be at once.
    MaxPublishers,
    /// How many past samples a publisher keeps.
    HistorySize,
    /// How many samples wait for a subscriber at most.
    SubscriberMaxBufferSize,
    /// How many samples a subscriber reads at once at most.
    SubscriberMaxBorrowedSamples,
    /// Whether a full buffer gives up its oldest sample.
    EnableSafeOverflow,
    /// How many notifiers there may be at once.
    MaxNotifiers,
    /// How many listeners there may be at once.
    MaxListeners,
    /// The greatest number that an event may have.
    EventIdMaxValue,
    /// The longest time between two notifications.
    Deadline,
    /// The event that reports a new notifier.
    NotifierCreatedEvent,
    /// The event that reports that a notifier left.
    NotifierDroppedEvent,
    /// The event that reports a notifier whose node died.
    NotifierDeadEvent,
    /// Whether a server's full buffer gives up its oldest request.
    EnableSafeOverflowForRequests,
    /// Whether a client's full buffer gives up its oldest response.
    EnableSafeOverflowForResponses,
    /// Whether a client may send a request for which it takes no response.
    EnableFireAndForgetRequests,
    /// How many requests of one client may be open at each server at once.
    MaxActiveRequestsPerClient,
    /// How many requests a client loans at once at most.
    MaxLoanedRequests,
    /// How many responses to one request wait for the client at most.
    MaxResponseBufferSize,
    /// How many servers there may be at once.
    MaxServers,
    /// How many clients there may be at once.
    MaxClients,
    /// How many responses to one request a client reads at once at most.
    MaxBorrowedResponsesPerPendingResponse,
    /// How many readers there may be at once.
    MaxReaders,
    /// How many writers there may be at once.
    MaxWriters,
    /// How many nodes may have the service open at once.
    MaxNodes,
}

impl fmt::Display for Setting {
    ghost use Rattle.std.specs.Prelude.{Some};
    ghost use Rattle.iox2_static.specs.Requirements.{name_of};

    ghost output = { λ setting. Some (name_of setting) };

    fn fmt<W: fmt::Write>(&self, f: &mut fmt::Formatter<W>) -> fmt::Result {
        f.write_str(match self {
            Setting::MaxSubscribers => "max_subscribers",
            Setting::MaxPublishers => "max_publishers",
            Setting::HistorySize => "history_size",
            Setting::SubscriberMaxBufferSize => "subscriber_max_buffer_size",
            Setting::SubscriberMaxBorrowedSamples => "subscriber_max_borrowed_samples",
            Setting::EnableSafeOverflow => "enable_safe_overflow",
            Setting::MaxNotifiers => "max_notifiers",
            Setting::MaxListeners => "max_listeners",
            Setting::EventIdMaxValue => "event_id_max_value",
            Setting::Deadline => "deadline",
            Setting::NotifierCreatedEvent => "notifier_created_event",
            Setting::NotifierDroppedEvent => "notifier_dropped_event",
            Setting::NotifierDeadEvent => "notifier_dead_event",
            Setting::EnableSafeOverflowForRequests => "enable_safe_overflow_for_requests",
            Setting::EnableSafeOverflowForResponses => "enable_safe_overflow_for_responses",
            Setting::EnableFireAndForgetRequests => "enable_fire_and_forget_requests",
            Setting::MaxActiveRequestsPerClient => "max_active_requests_per_client",
            Setting::MaxLoanedRequests => "max_loaned_requests",
            Setting::MaxResponseBufferSize => "max_response_buffer_size",
            Setting::MaxServers => "max_servers",
            Setting::MaxClients => "max_clients",
            Setting::MaxBorrowedResponsesPerPendingResponse =>
                "max_borrowed_responses_per_pending_response",
            Setting::MaxReaders => "max_readers",
            Setting::MaxWriters => "max_writers",
            Setting::MaxNodes => "max_nodes",
        })
    }
}

/// A setting that an opener requires, and whether the service meets it.
#[derive(Clone, Copy)]
pub(super) struct Requirement {
    setting: Setting,
    is_met: bool,
}

impl Requirement {
    /// For a number, of which the service has at least as many.
    pub(super) fn at_least(setting: Setting, has: usize, required: usize) -> Self
        ensures { result ≡ at_least setting has required }
    {
        Requirement {
            setting,
            is_met: required <= has,
        }
    }

    /// For a choice, which is the service's own.
    pub(super) fn same_choice(setting: Setting, has: bool, required: bool) -> Self
        ensures { result ≡ same_choice setting has required }
    {
        Requirement {
            setting,
            is_met: has == required,
        }
    }

    /// For an event, which is the service's own, or of which there is none in both.
    pub(super) fn same_event(setting: Setting, has: Option<usize>, required: Option<usize>) -> Self
        ensures { result ≡ same_event setting has required }
    {
        Requirement {
            setting,
            is_met: has == required,
        }
    }

    /// For a span of time, which is the service's own, or of which there is none in both.
    pub(super) fn same_duration(
        setting: Setting,
        has: Option<Duration>,
        required: Option<Duration>,
    ) -> Self
        ensures { result ≡ same_duration setting has required }
    {
        Requirement {
            setting,
            is_met: match (has, required) {
                (None, None) => true,
                (Some(has), Some(required)) => has.as_nanos() == required.as_nanos(),
                _ => false,
            },
        }
    }
}

/// The setting of the first requirement that is not met.
#[tactic(auto, unfolding(crate::specs::Requirements::first_unmet))]
pub(super) fn first_unmet(requirements: &[Requirement]) -> Option<Setting>
    ensures { result ≡ first_unmet requirements.now }
{
    let unmet = requirements.iter().find(|requirement| !requirement.is_met)?;
    Some(unmet.setting)
}

/// Whether each requirement is met.
pub(super) fn are_met(requirements: &[Requirement]) -> bool
    ensures { IsTrue result ↔ AreMet requirements.now }
{
    first_unmet(requirements).is_none()
}
