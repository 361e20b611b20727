//! The ports of a service of the pattern blackboard.
ghost use Rattle.std.specs.Prelude.{◌≡◌, IfOk, length};
ghost use Rattle.std.specs.Fn.{CalledAt, TakesAt};
ghost use Rattle.iox2_container.specs.Steps.{CanVisit, Visit, listed};
ghost use Rattle.iox2_container.specs.declared.container.handle.Role.TheVariants as role;
ghost use Rattle.iox2_dynamic.specs.Ports.{empty_ports};

use super::pattern::PortRegistries;
use super::port_details::{ReaderDetails, WriterDetails};
use iox2_container::container::Registry;
use iox2_texts::bounded::CallbackProgression;
use std::alloc::{AllocError, Global};

/// How many ports of each kind may be attached at a time.
#[derive(Clone, Copy, Debug)]
pub struct DynamicConfigSettings {
    /// How many readers there may be at a time.
    pub number_of_readers: usize,
    /// How many writers there may be at a time.
    pub number_of_writers: usize,
}

/// The readers and the writers of a service. The readers of a dead node are recovered first.
pub type DynamicConfig = PortRegistries<ReaderDetails, WriterDetails>;

impl DynamicConfig {
    /// A configuration without ports, and with all the tickets that there are. Refused where there
    /// is no memory for all the ports that the settings allow; no call takes memory afterwards.
    pub fn new(
        alloc: Global,
        settings: &DynamicConfigSettings,
        service_number: u64,
    ) -> Result<Self, AllocError>
        ensures { IfOk result (λ c. c ≡ empty_ports role.Reader role.Writer service_number
            settings.now.number_of_readers settings.now.number_of_writers u64.MAX) }
    {
        PortRegistries::with_capacities(
            alloc,
            service_number,
            settings.number_of_readers,
            settings.number_of_writers,
            u64::MAX,
        )
    }

    /// Calls the callback on the details of the readers by rising slot, up to and with the first
    /// `Stop`.
    pub fn list_readers<F: FnMut(&ReaderDetails) -> CallbackProgression>(&self, f: &mut F)
        requires { CanVisit (TakesAt F.FnMut) (CalledAt F.FnMut) f.old
            (listed self.now.first.registry) }
        ensures { Visit (CalledAt F.FnMut) f.old (listed self.now.first.registry) f.new }
    {
        self.list_first(f);
    }

    /// How many readers there are.
    pub fn number_of_readers(&self) -> usize
        ensures { result ≡ length self.now.first.registry.entries }
    {
        self.first.len()
    }

    /// Calls the callback on the details of the writers by rising slot, up to and with the first
    /// `Stop`.
    pub fn list_writers<F: FnMut(&WriterDetails) -> CallbackProgression>(&self, f: &mut F)
        requires { CanVisit (TakesAt F.FnMut) (CalledAt F.FnMut) f.old
            (listed self.now.second.registry) }
        ensures { Visit (CalledAt F.FnMut) f.old (listed self.now.second.registry) f.new }
    {
        self.list_second(f);
    }

    /// How many writers there are.
    pub fn number_of_writers(&self) -> usize
        ensures { result ≡ length self.now.second.registry.entries }
    {
        self.second.len()
    }
}
