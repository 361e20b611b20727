//! Windows, and the verdict on a history.
ghost use Rattle.std.specs.Prelude.{◌≡◌, ◌<◌, IfOk, length};
ghost use Rattle.histories.specs.Histories.{IsHistory};
ghost use Rattle.histories.specs.Windows.{IsFirstOrder, IsStop, IsVerdict, IsWhole};

use super::follow::follow;
use super::front::{Event, Front, order_up_to};
use super::machine::Machine;
use std::alloc::{AllocError, Global};

/// How far a history was followed since no call of it was open.
#[derive(Debug, Drop)]
pub struct Window<S> {
    /// How many events come before the window: no call is open after them.
    pub begin: usize,
    /// The configurations that the window has led to.
    pub front: Front<S>,
}

/// Where a history is cut into windows.
#[derive(Clone, Copy, Debug, PartialEq, Eq)]
pub enum Cut {
    /// Where no call is open: what is kept does not grow with the history.
    WhereQuiet,
    /// Nowhere: all is one window, and the links of all calls are kept. From them an order of all
    /// calls is read (`order_in`).
    Never,
}

/// Whether orders explain a history.
#[derive(Debug, Drop)]
pub enum Verdict<S> {
    /// Some order explains it. The window is that in which it ends.
    Explained(Window<S>),
    /// No order explains the events up to the one at this index, by which a call was answered, and
    /// one explains those before it. The window is that of these.
    Refused(usize, Window<S>),
    /// At the event of this index more than `MAX_CONFIGS` configurations were to be
    /// followed: not decided.
    ManyConfigs(usize),
    /// From the event of this index on more than `MAX_OPEN` calls are open: not decided.
    ManyOpen(usize),
}

/// Why a history is not followed further.
#[derive(Clone, Copy, Debug, PartialEq, Eq)]
pub enum Stop {
    /// No order explains the events up to this one, by which a call was answered.
    Refused,
    /// More than `MAX_CONFIGS` configurations were to be followed: not decided.
    ManyConfigs,
    /// More than `MAX_OPEN` calls are open: not decided.
    ManyOpen,
}

/// The order of the first configuration of the window: the calls since it began, one after the
/// other, as they take effect. A call that was never answered is among them where it did.
#[tactic(auto, using(crate::proofs::Lists::order_first))]
pub fn order_in<S>(alloc: Global, window: &Window<S>) -> Result<Vec<usize>, AllocError>
    requires { 0 < length window.now.front.configs.items }
    ensures { IfOk result (λ order. IsFirstOrder window.now.front order.items) }
{
    let first = &window.front.configs[0];
    let mut order = order_up_to(alloc, &window.front.links, first.base)?;
    order.extend_from_slice(&first.made)?;
    Ok(order)
}

/// The verdict where an event was refused: with the window of the events before it.
fn refused<M: Machine>(
    alloc: Global,
    machine: &M,
    states: &[M::State],
    events: &[Event],
    index: usize,
) -> Result<Verdict<M::State>, AllocError>
    requires some { 0 < length states.now }
    requires history { IsHistory events.now }
    requires stop { IsStop (M.Step machine.now) states.now events.now index Stop.Refused }
    ensures verdict { IfOk result (IsVerdict (M.Step machine.now) states.now events.now) }
    ensures whole { IfOk result (IsWhole (M.Step machine.now) states.now events.now) }
{
    match follow(alloc, machine, states, &events[..index], Cut::WhereQuiet)? {
        Ok(window) => Ok(Verdict::Refused(index, window)),
        Err((_, Stop::Refused)) => unreachable!(),
        Err((at, Stop::ManyConfigs)) => Ok(Verdict::ManyConfigs(at)),
        Err((at, Stop::ManyOpen)) => Ok(Verdict::ManyOpen(at)),
    }
}

/// Judges a history that begins in one of these states: whether some order of its calls explains
/// it. Where it is cut, what is kept grows with what lies between two events after which no call is
/// open, and not with the history. Where it is never cut, the links of all calls are kept.
///
/// Where an event is refused, the events before it are followed once more, and cut.
pub fn judge_windows<M: Machine>(
    alloc: Global,
    machine: &M,
    states: &[M::State],
    events: &[Event],
    cut: Cut,
) -> Result<Verdict<M::State>, AllocError>
    requires some { 0 < length states.now }
    requires history { IsHistory events.now }
    ensures verdict { IfOk result (IsVerdict (M.Step machine.now) states.now events.now) }
    ensures whole { cut ≡ Cut.Never
        → IfOk result (IsWhole (M.Step machine.now) states.now events.now) }
{
    match follow(alloc, machine, states, events, cut)? {
        Ok(window) => Ok(Verdict::Explained(window)),
        Err((at, Stop::Refused)) => refused(alloc, machine, states, events, at),
        Err((at, Stop::ManyConfigs)) => Ok(Verdict::ManyConfigs(at)),
        Err((at, Stop::ManyOpen)) => Ok(Verdict::ManyOpen(at)),
    }
}
