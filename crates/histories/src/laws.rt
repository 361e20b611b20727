//! What holds of all histories.
ghost use Rattle.histories.specs.Histories.{CallsAloneAreRuns};
ghost use Rattle.histories.specs.Windows.{OrdersExplainTheRest, RefusedRestsRefuse, VerdictsExclude};

use super::machine::Machine;

/// Calls that overlap nothing are a run: one order alone explains them, that in which they were
/// made, and it leads where they lead one after the other.
#[tactic(auto, using(crate::proofs::Alone::calls_alone_are_runs))]
pub fn calls_alone_are_runs<M: Machine>(_machine: &M)
    ensures { CallsAloneAreRuns (M.Step _machine.now) }
{}

/// A history that is explained is not refused, and it is refused at one event.
pub fn verdicts_exclude<M: Machine>(_machine: &M)
    ensures { VerdictsExclude (M.Step _machine.now) }
{}

/// An order that explains all events, without calls that change nothing, explains those of the
/// other calls. So where no order explains these, none explains all.
pub fn rests_decide<M: Machine>(_machine: &M)
    ensures orders { OrdersExplainTheRest (M.Step _machine.now) }
    ensures refused { RefusedRestsRefuse (M.Step _machine.now) }
{}
