//! What is searched: recorded calls that lead from one state to another.
ghost use Rattle.std.specs.Prelude.{◌≡◌, ◌↔◌, ℕ, IfOk, IsTrue};
ghost use Rattle.histories.specs.Frontier.{IsIdle, IsMade, MovesBefore, states_in};
ghost use Rattle.histories.specs.Histories.{AreEnough};

use std::alloc::AllocError;

/// States that a call may leave.
#[derive(Drop)]
pub enum Left<S> {
    /// None: it cannot be made.
    Nothing,
    /// This one alone.
    One(S),
    /// These, if they are all, or else more than are followed.
    All(Vec<S>),
}

/// Recorded calls. A call is named by its number.
pub trait Machine {
    /// What the calls change.
    type State: Drop;

    /// The call can be made in the first state and leaves the second: with the reply that was
    /// seen, or, where none was seen, with any reply.
    ghost Step: { Self → Self.State → ℕ → Self.State → Type 0 };

    /// A number by which a state is found among many. Other states may have the same.
    ghost hash: { Self.State → ℕ };

    /// The states that the call may leave: all, or more than `MAX_CONFIGS` of them, each once.
    fn follow(&self, state: &Self::State, call: usize) -> Result<Left<Self::State>, AllocError>
        ensures { IfOk result (λ left.
            AreEnough (Step self.now state.now call) (states_in left)) };

    /// Makes the call in this state, if it can leave one state alone. Returns whether it did; else
    /// nothing changed. An answer of no is always right: then the states are listed.
    fn make(&self, state: &mut Self::State, call: usize) -> Result<bool, AllocError>
        ensures { IfOk result (IsMade (Step self.now state.old call) state.old state.new) };

    /// Whether the call can be made in this state, and changes nothing in whatever state it is
    /// made, as a query or a call that was refused. Such a call is made at once. An answer of no is
    /// always right: then more orders are followed. Where memory is refused, there is no answer.
    fn is_idle(&self, state: &Self::State, call: usize) -> Result<bool, AllocError>
        ensures { IfOk result (λ idle. IsTrue idle → Step self.now state.now call state.now
            × IsIdle (Step self.now) call) };

    /// Whether the call cannot be made in this state. An answer of no is always right: then more
    /// orders are followed. Where memory is refused, there is no answer.
    fn is_blocked(&self, state: &Self::State, call: usize) -> Result<bool, AllocError>
        ensures { IfOk result (λ blocked. IsTrue blocked
            → (new : Self.State) → ¬ (Step self.now state.now call new)) };

    /// Whether the first call, wherever it can be made right after the second, can be made right
    /// before it, and both leave the same: whether it is a left mover. An answer of no is always
    /// right: then more orders are followed.
    fn moves_before(&self, call: usize, other: usize) -> bool
        ensures { IsTrue result → MovesBefore (Step self.now) call other };

    /// A copy of the state.
    fn copied(&self, state: &Self::State) -> Result<Self::State, AllocError>
        ensures { IfOk result (λ copy. copy ≡ state.now) };

    /// The number by which the state is found.
    fn hash_of(&self, state: &Self::State) -> u64
        ensures { result ≡ hash state.now };

    /// Whether two states are the same.
    fn same(&self, one: &Self::State, other: &Self::State) -> bool
        ensures { IsTrue result ↔ (one.now ≡ other.now) };
}
