//! The ports of a service of the pattern event.
ghost use Rattle.std.specs.Prelude.{◌≡◌, IfOk, length};
ghost use Rattle.std.specs.Fn.{CalledAt, TakesAt};
ghost use Rattle.iox2_container.specs.Steps.{CanVisit, Visit, listed};
ghost use Rattle.iox2_container.specs.declared.container.handle.Role.TheVariants as role;
ghost use Rattle.iox2_dynamic.specs.Ports.{empty_ports};

use super::pattern::PortRegistries;
use super::port_details::{ListenerDetails, NotifierDetails};
use iox2_container::container::Registry;
use iox2_texts::bounded::CallbackProgression;
use std::alloc::{AllocError, Global};

/// How many ports of each kind may be attached at a time.
#[derive(Clone, Copy, Debug)]
pub struct DynamicConfigSettings {
    /// How many listeners there may be at a time.
    pub number_of_listeners: usize,
    /// How many notifiers there may be at a time.
    pub number_of_notifiers: usize,
}

/// The listeners and the notifiers of a service. The listeners of a dead node are recovered first.
pub type DynamicConfig = PortRegistries<ListenerDetails, NotifierDetails>;

impl DynamicConfig {
    /// A configuration without ports, and with all the tickets that there are. Refused where there
    /// is no memory for all the ports that the settings allow; no call takes memory afterwards.
    pub fn new(
        alloc: Global,
        settings: &DynamicConfigSettings,
        service_number: u64,
    ) -> Result<Self, AllocError>
        ensures { IfOk result (λ c. c ≡ empty_ports role.Listener role.Notifier service_number
            settings.now.number_of_listeners settings.now.number_of_notifiers u64.MAX) }
    {
        PortRegistries::with_capacities(
            alloc,
            service_number,
            settings.number_of_listeners,
            settings.number_of_notifiers,
            u64::MAX,
        )
    }

    /// Calls the callback on the details of the listeners by rising slot, up to and with the first
    /// `Stop`.
    pub fn list_listeners<F: FnMut(&ListenerDetails) -> CallbackProgression>(&self, f: &mut F)
        requires { CanVisit (TakesAt F.FnMut) (CalledAt F.FnMut) f.old
            (listed self.now.first.registry) }
        ensures { Visit (CalledAt F.FnMut) f.old (listed self.now.first.registry) f.new }
    {
        self.list_first(f);
    }

    /// How many listeners there are.
    pub fn number_of_listeners(&self) -> usize
        ensures { result ≡ length self.now.first.registry.entries }
    {
        self.first.len()
    }

    /// Calls the callback on the details of the notifiers by rising slot, up to and with the first
    /// `Stop`.
    pub fn list_notifiers<F: FnMut(&NotifierDetails) -> CallbackProgression>(&self, f: &mut F)
        requires { CanVisit (TakesAt F.FnMut) (CalledAt F.FnMut) f.old
            (listed self.now.second.registry) }
        ensures { Visit (CalledAt F.FnMut) f.old (listed self.now.second.registry) f.new }
    {
        self.list_second(f);
    }

    /// How many notifiers there are.
    pub fn number_of_notifiers(&self) -> usize
        ensures { result ≡ length self.now.second.registry.entries }
    {
        self.second.len()
    }
}
