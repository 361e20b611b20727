//! What holds of all logs, and of the comparison and the clone of `Expected`.
ghost use Rattle.std.specs.Prelude.{◌≡◌, ◌↔◌, ℕ, List, IsTrue, IsOkAnd};
ghost use Rattle.history_logs.specs.Laws.{EmptyStatesChangeNothing, LogsHaveOneReading};
ghost use Rattle.history_logs.specs.Laws.{LinesAboveAreExplained, OneLineIsRefused};
ghost use Rattle.history_logs.specs.Laws.{VerdictsExclude};

use crate::logs::Expected;
use std::alloc::AllocError;

/// Two of `Expected` are equal exactly where they are the same variant. A clone is the same one,
/// and never fails.
pub fn expected_goes_by_variant(
    one: &Expected,
    other: &Expected,
) -> (bool, Result<Expected, AllocError>)
    ensures equal { IsTrue result.0 ↔ (one.now ≡ other.now) }
    ensures cloned { IsOkAnd result.1 (λ copy. copy ≡ one.now) }
{
    (one == other, one.clone())
}

/// A line that gives an empty registry, of which no ticket was used, leaves what was read as it
/// was, where it may come next, but that a service with calls begins anew. So a log with such lines
/// above its calls is judged as one without.
pub fn empty_states_change_nothing()
    ensures { EmptyStatesChangeNothing }
{}

/// The good lines of a log are read in one way, but for the memory of lists.
pub fn logs_have_one_reading()
    ensures { LogsHaveOneReading }
{}

/// A log that conforms has no bad line, and where it conforms or has one, it is not refused. Its
/// calls and services are counted in one way, and one line of it is bad.
#[tactic(auto, using(crate::proofs::Excluding::verdicts_exclude))]
pub fn verdicts_exclude_each_other()
    ensures { (bytes : List ℕ) → VerdictsExclude bytes }
{}

/// What is explained down to a line of a log is explained down to each line above it, where the
/// calls that are answered further down are open.
pub fn lines_above_are_explained()
    ensures { LinesAboveAreExplained }
{}

/// Where a log is refused at a line, what is seen is explained down to no line from there on. So it
/// is refused at two lines only where a bound is passed above the later one.
#[tactic(auto, using(crate::proofs::Prefixes::one_line_refused))]
pub fn logs_are_refused_at_one_line()
    ensures { (bytes : List ℕ) → OneLineIsRefused bytes }
{}
