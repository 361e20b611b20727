//! The ports of a service of the pattern publish-subscribe.
ghost use Rattle.std.specs.Prelude.{◌≡◌, IfOk, length};
ghost use Rattle.std.specs.Fn.{CalledAt, TakesAt};
ghost use Rattle.iox2_container.specs.Steps.{CanVisit, Visit, listed};
ghost use Rattle.iox2_container.specs.declared.container.handle.Role.TheVariants as role;
ghost use Rattle.iox2_dynamic.specs.Ports.{empty_ports};

use super::pattern::PortRegistries;
use super::port_details::{PublisherDetails, SubscriberDetails};
use iox2_container::container::Registry;
use iox2_texts::bounded::CallbackProgression;
use std::alloc::{AllocError, Global};

/// How many ports of each kind may be attached at a time.
#[derive(Clone, Copy, Debug)]
pub struct DynamicConfigSettings {
    /// How many subscribers there may be at a time.
    pub number_of_subscribers: usize,
    /// How many publishers there may be at a time.
    pub number_of_publishers: usize,
}

/// The publishers and the subscribers of a service.
/// The publishers of a dead node are recovered first.
pub type DynamicConfig = PortRegistries<PublisherDetails, SubscriberDetails>;

impl DynamicConfig {
    /// A configuration without ports, and with all the tickets that there are. Refused where there
    /// is no memory for all the ports that the settings allow; no call takes memory afterwards.
    pub fn new(
        alloc: Global,
        settings: &DynamicConfigSettings,
        service_number: u64,
    ) -> Result<Self, AllocError>
        ensures { IfOk result (λ c. c ≡ empty_ports role.Publisher role.Subscriber service_number
            settings.now.number_of_publishers settings.now.number_of_subscribers u64.MAX) }
    {
        PortRegistries::with_capacities(
            alloc,
            service_number,
            settings.number_of_publishers,
            settings.number_of_subscribers,
            u64::MAX,
        )
    }

    /// Calls the callback on the details of the publishers by rising slot, up to and with the first
    /// `Stop`.
    pub fn list_publishers<F: FnMut(&PublisherDetails) -> CallbackProgression>(&self, f: &mut F)
        requires { CanVisit (TakesAt F.FnMut) (CalledAt F.FnMut) f.old
            (listed self.now.first.registry) }
        ensures { Visit (CalledAt F.FnMut) f.old (listed self.now.first.registry) f.new }
    {
        self.list_first(f);
    }

    /// How many publishers there are.
    pub fn number_of_publishers(&self) -> usize
        ensures { result ≡ length self.now.first.registry.entries }
    {
        self.first.len()
    }

    /// Calls the callback on the details of the subscribers by rising slot, up to and with the
    /// first `Stop`.
    pub fn list_subscribers<F: FnMut(&SubscriberDetails) -> CallbackProgression>(&self, f: &mut F)
        requires { CanVisit (TakesAt F.FnMut) (CalledAt F.FnMut) f.old
            (listed self.now.second.registry) }
        ensures { Visit (CalledAt F.FnMut) f.old (listed self.now.second.registry) f.new }
    {
        self.list_second(f);
    }

    /// How many subscribers there are.
    pub fn number_of_subscribers(&self) -> usize
        ensures { result ≡ length self.now.second.registry.entries }
    {
        self.second.len()
    }
}
