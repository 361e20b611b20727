//! The services that lines name by their numbers.
ghost use Rattle.std.specs.Prelude.{◌≡◌, ◌+◌, ◌≤◌, None, Some, OnOk, IfNone, IfSome, length, slice_get, take};
ghost use Rattle.history_logs.specs.Fields.{AreNumbers};
ghost use Rattle.history_logs.specs.Logs.{services_in};
ghost use Rattle.history_logs.specs.Reading.{IsNamed, IsNameless, IsNew, IsNewBehind};
ghost use Rattle.history_logs.specs.Seen.{Service};

use super::reading::Reading;
use std::alloc::AllocError;

impl Reading {
    /// How many services there are, of which one that began anew is one.
    pub(super) fn count_services(&self) -> usize
        requires { AreNumbers self.now.numbers self.now.services.items }
        ensures { result ≡ services_in self.now.services.items }
    {
        self.numbers.len()
    }

    /// The index of the last service with this number.
    pub(super) fn position_of(&self, number: u64) -> Option<usize>
        requires { AreNumbers self.now.numbers self.now.services.items }
        ensures some { IfSome result (λ at. (s : Service)
            × (slice_get self.now.services.items at ≡ Some s) × (s.line.number ≡ number)
            × IsNewBehind number self.now.services.items at) }
        ensures none { IfNone result (IsNew number self.now.services.items) }
    {
        self.numbers.get(&number).copied()
    }

    /// The index of the last service, where all have one number.
    fn only_service(&self) -> Option<usize>
        requires { AreNumbers self.now.numbers self.now.services.items }
        ensures some { IfSome result (λ at.
            (s : Service) × IsNamed None self.now.services.items at s) }
        ensures none { IfNone result (IsNameless None self.now.services.items) }
    {
        if self.numbers.len() == 1 {
            return Some(self.services.len() - 1);
        }
        None
    }

    /// The index of the service that a call is on, before which this number stands, or none.
    #[inline(always)]
    pub(super) fn service_named(&self, number: Option<u64>) -> Option<usize>
        requires { AreNumbers self.now.numbers self.now.services.items }
        ensures some { IfSome result (λ at.
            (s : Service) × IsNamed number self.now.services.items at s) }
        ensures none { IfNone result (IsNameless number self.now.services.items) }
    {
        match number {
            Some(number) => self.position_of(number),
            None => self.only_service(),
        }
    }

    /// Notes the number of the service behind the first ones, if there is one: of those with this
    /// number it is the last.
    pub(super) fn add_number(&mut self, known: usize) -> Result<(), AllocError>
        requires known { known ≤ length self.old.services.items }
        requires one { length self.old.services.items ≤ known + 1 }
        requires numbers { AreNumbers self.old.numbers (take known self.old.services.items) }
        ensures numbers { OnOk result (AreNumbers self.new.numbers self.new.services.items) }
        ensures same { self.new ≡ record self.old { numbers = self.new.numbers } }
    {
        if known < self.services.len() {
            self.numbers
                .insert(self.services[known].line().number, known)?;
        }
        Ok(())
    }
}
