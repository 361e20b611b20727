//! The callers of a log.
ghost use Rattle.std.specs.BTreeMap.{IsUnchanged};
ghost use Rattle.std.specs.Prelude.{◌≡◌, ◌<◌, ℕ, List, None, Some, IfNone, IfOk, IfSome, IsFalse, IsTrue, OnErr, OnOk, get_or, length};
ghost use Rattle.history_logs.specs.Parts.{Puts, callers_of, on_by};
ghost use Rattle.history_logs.specs.Reading.{MayBegin, NoneCalls, RefusesBegin, Sets};

use super::verdict::Expected;
use std::alloc::{AllocError, Global};
use std::collections::BTreeMap;
use std::marker::Model;

/// What a caller does.
#[derive(Clone, Copy, Debug, PartialEq, Eq)]
pub(super) enum CallerState {
    /// It has no call open.
    Idle,
    /// The call of this number on the service at this index is open.
    Calls(usize, usize),
    /// It has died.
    Dead,
}

/// The callers that have begun calls, by their names.
#[derive(Drop)]
pub(super) struct Callers {
    states: BTreeMap<Vec<u8>, CallerState>,
    /// How many of them have a call open on the service at each index, or none behind these.
    /// Without the counts a line that begins a service anew would look at each caller.
    counts: Vec<usize>,
}

impl Model for Callers {
    ghost use Rattle.std.specs.Global.{Vec};
    ghost use Rattle.std.specs.Prelude.{ℕ, List};
    ghost use Rattle.history_logs.specs.declared.logs.callers.CallerState.{CallerState};
    ghost use Rattle.history_logs.specs.Parts.{AreOpen};

    ghost Value = { List (Vec ℕ × CallerState) };

    ghost view = { λ c. c.states.entries };

    ghost invariant = { λ c. AreOpen c.counts.items c.states.entries };
}

/// The index of the service on which a caller that does this has a call open, if it has one.
fn service_of(state: Option<CallerState>) -> Option<usize>
    ensures none { IfNone result ((at : ℕ) → on_by at state ≡ 0) }
    ensures some { IfSome result (λ at. (number : ℕ)
        × (state ≡ Some (CallerState.Calls at number))) }
{
    match state {
        None | Some(CallerState::Idle | CallerState::Dead) => None,
        Some(CallerState::Calls(at, _)) => Some(at),
    }
}

/// There is a count for the service at this index.
fn make_room(counts: &mut Vec<usize>, at: usize) -> Result<(), AllocError>
    ensures room { OnOk result (at < length counts.new.items) }
    ensures same { (k : ℕ) → get_or counts.new.items k 0 ≡ get_or counts.old.items k 0 }
{
    while counts.len() <= at {
        counts.push(0)?;
    }
    Ok(())
}

/// The caller does this from now on. Returns what it did.
fn put(
    alloc: Global,
    states: &mut BTreeMap<Vec<u8>, CallerState>,
    name: &[u8],
    state: CallerState,
) -> Result<Option<CallerState>, AllocError>
    ensures puts { IfOk result (λ was. Puts states.old.entries name.now was state
        states.new.entries) }
    ensures err { OnErr result (IsUnchanged states.old states.new) }
{
    if let Some(known) = states.get_mut(name) {
        let was = *known;
        *known = state;
        return Ok(Some(was));
    }
    let name = Vec::from_slice(alloc, name)?;
    states.insert(name, state)?;
    Ok(None)
}

impl Callers {
    /// None yet.
    pub(super) fn new(alloc: Global) -> Self
        ensures { (name : List ℕ) → callers_of result name ≡ None }
    {
        Callers {
            states: BTreeMap::new(alloc),
            counts: Vec::new(alloc),
        }
    }

    /// What the caller does; `None` where it has begun no call.
    pub(super) fn state_of(&self, name: &[u8]) -> Option<CallerState>
        ensures { result ≡ callers_of self.now name.now }
    {
        self.states.get(name).copied()
    }

    /// Whether a caller has a call open on the service at this index.
    pub(super) fn has_open_on(&self, at: usize) -> bool
        ensures yes { IsTrue result → ¬ (NoneCalls (callers_of self.now) at) }
        ensures no { IsFalse result → NoneCalls (callers_of self.now) at }
    {
        // For the proof: no two callers have one name.
        let _ordered = self.states.len();
        match self.counts.get(at) {
            Some(count) => *count > 0,
            None => false,
        }
    }

    /// The caller has the call of this number open from now on, on the service at this index.
    pub(super) fn begin(
        &mut self,
        alloc: Global,
        name: &[u8],
        at: usize,
        number: usize,
    ) -> Result<(), AllocError>
        requires { MayBegin (callers_of self.old name.now) }
        ensures { OnOk result (Sets (callers_of self.old) name.now (CallerState.Calls at number)
            (callers_of self.new)) }
    {
        make_room(&mut self.counts, at)?;
        put(
            alloc,
            &mut self.states,
            name,
            CallerState::Calls(at, number),
        )?;
        // For the proof: no more calls are open than there are callers.
        let _few = self.states.len();
        self.counts[at] += 1;
        Ok(())
    }

    /// The caller does this from now on, and has no call open.
    pub(super) fn set(
        &mut self,
        alloc: Global,
        name: &[u8],
        state: CallerState,
    ) -> Result<(), AllocError>
        requires { (at : ℕ) → on_by at (Some state) ≡ 0 }
        ensures { OnOk result (Sets (callers_of self.old) name.now state (callers_of self.new)) }
    {
        let was = put(alloc, &mut self.states, name, state)?;
        let Some(at) = service_of(was) else {
            return Ok(());
        };
        self.counts[at] -= 1;
        Ok(())
    }
}

/// What is expected in place of the begin of a call of a caller that does this, if anything is.
pub(super) fn refuses_begin(state: Option<CallerState>) -> Option<Expected>
    ensures none { IfNone result (MayBegin state) }
    ensures some { IfSome result (RefusesBegin state) }
{
    match state {
        None | Some(CallerState::Idle) => None,
        Some(CallerState::Calls(_, _)) => Some(Expected::IdleCaller),
        Some(CallerState::Dead) => Some(Expected::LiveCaller),
    }
}
