//! Calls that wait are made: those that change nothing at once, and one that ends.
ghost use Rattle.std.specs.Prelude.{◌≡◌, ◌<◌, ◌≤◌, ◌++◌, ◌∷◌, [], ℕ, IfNone, IfOk, IfSome, IsTrue, OnOk, length};
ghost use Rattle.std.specs.Int.{bit_at};
ghost use Rattle.histories.specs.Frontier.{HasSlot, IsWaiting};
ghost use Rattle.histories.specs.Gathering.{FromOne, Gathers, GoesOn, IsAlone, IsBeside, IsCloseOutcome, IsClosedInPlace, IsCopy, IsDone, IsDropped, IsMadeFirst, IsMadeIn, IsNextAt, IsNextIn, IsSettled, MovesFirst, Settles, WaitsInNone, spot_of};

use super::front::{Config, MAX_CONFIGS};
use super::gather::{Gathered, add};
use super::machine::{Left, Machine};
use super::slots::{ALL, has, without};
use std::alloc::{AllocError, Global};

/// The capacity that is left for calls that are made later in the same step.
const SPARE: usize = 4;

/// Makes the call in the slot, if it is tried, waits, can be made, and changes nothing.
#[tactic(auto, using(crate::proofs::Closing::path_is, crate::proofs::Alone::settled_call))]
fn settle_slot<M: Machine>(
    machine: &M,
    slots: &[Option<usize>],
    tried: u64,
    slot: usize,
    settled: &mut Config<M::State>,
) -> Result<(), AllocError>
    requires few { length slots.now ≤ 64 }
    requires within { slot < length slots.now }
    ensures { OnOk result (IsSettled (M.Step machine.now) slots.now (spot_of settled.old)
        (spot_of settled.new)) }
{
    if !has(tried, slot) {
        return Ok(());
    }
    let Some(call) = slots[slot] else {
        return Ok(());
    };
    if !has(settled.waiting, slot) || !machine.is_idle(&settled.state, call)? {
        return Ok(());
    }
    settled.made.push(call)?;
    settled.waiting = without(settled.waiting, slot);
    Ok(())
}

/// Makes those of the calls in the slots of the set that can be made and change nothing.
#[tactic(auto, using(crate::proofs::Alone::settled_none, crate::proofs::Alone::settled_then))]
pub(super) fn settle<M: Machine>(
    machine: &M,
    slots: &[Option<usize>],
    tried: u64,
    config: &mut Config<M::State>,
) -> Result<(), AllocError>
    requires few { length slots.now ≤ 64 }
    ensures { OnOk result (IsSettled (M.Step machine.now) slots.now (spot_of config.old)
        (spot_of config.new)) }
{
    for slot in 0..slots.len() {
        settle_slot(machine, slots, tried, slot, config)?;
    }
    Ok(())
}

/// The calls with one more.
fn with_call(alloc: Global, calls: &[usize], call: usize) -> Result<Vec<usize>, AllocError>
    ensures { IfOk result (λ more. more.items ≡ calls.now ++ call ∷ []) }
{
    let mut more = Vec::with_capacity(alloc, calls.len() + SPARE)?;
    more.extend_from_slice(calls)?;
    more.push(call)?;
    Ok(more)
}

/// Makes calls in the configuration that can be made and change nothing, and adds it, unless there
/// is the same.
fn add_settled<M: Machine>(
    alloc: Global,
    machine: &M,
    slots: &[Option<usize>],
    config: Config<M::State>,
    next: &mut Gathered<M>,
) -> Result<(), AllocError>
    requires few { length slots.now ≤ 64 }
    ensures { OnOk result (Settles (M.Step machine.now) slots.now (IsCopy config)
        next.old next.new) }
{
    let mut settled = config;
    settle(machine, slots, ALL, &mut settled)?;
    add(alloc, machine, next, settled)
}

/// Adds the configuration in which the call in the slot was made and left this state, unless there
/// are too many.
#[tactic(auto, using(crate::proofs::Closing::path_is, crate::proofs::Gathering::settles_full, crate::proofs::Gathering::settles_state))]
fn make_state<M: Machine>(
    alloc: Global,
    machine: &M,
    slots: &[Option<usize>],
    config: &Config<M::State>,
    slot: usize,
    call: usize,
    state: M::State,
    next: &mut Gathered<M>,
) -> Result<(), AllocError>
    requires few { length slots.now ≤ 64 }
    requires within { slot < 64 }
    ensures { OnOk result (Settles (M.Step machine.now) slots.now
        (IsNextIn config.now slot call state) next.old next.new) }
{
    if next.is_full() {
        return Ok(());
    }
    let made = with_call(alloc, &config.made, call)?;
    let after = Config {
        state,
        waiting: without(config.waiting, slot),
        base: config.base,
        made,
    };
    add_settled(alloc, machine, slots, after, next)
}

/// The same for each of these states.
#[tactic(auto, using(crate::proofs::Gathering::settles_no_one))]
fn make_states<M: Machine>(
    alloc: Global,
    machine: &M,
    slots: &[Option<usize>],
    config: &Config<M::State>,
    slot: usize,
    call: usize,
    states: Vec<M::State>,
    next: &mut Gathered<M>,
) -> Result<(), AllocError>
    requires few { length slots.now ≤ 64 }
    requires within { slot < 64 }
    ensures { OnOk result (Settles (M.Step machine.now) slots.now
        (FromOne (IsNextIn config.now slot call) states.items) next.old next.new) }
{
    for state in states {
        make_state(alloc, machine, slots, config, slot, call, state, next)?;
    }
    Ok(())
}

/// Makes the call in the configuration. Returns whether it did; else nothing changed.
pub(super) fn make_in<M: Machine>(
    machine: &M,
    config: &mut Config<M::State>,
    call: usize,
) -> Result<bool, AllocError>
    ensures { IfOk result (IsMadeIn (M.Step machine.now) config.old call config.new) }
{
    if !machine.make(&mut config.state, call)? {
        return Ok(false);
    }
    config.made.push(call)?;
    Ok(true)
}

/// The call that has a slot and waits, if this is not the other slot.
fn waits_beside(slots: &[Option<usize>], waiting: u64, slot: usize, at: usize) -> Option<usize>
    requires few { length slots.now ≤ 64 }
    requires within { at < length slots.now }
    ensures some { IfSome result (λ other. IsBeside slots.now waiting slot at other) }
    ensures none { IfNone result ((other : ℕ) → IsBeside slots.now waiting slot at other → ⊥) }
{
    if at == slot || !has(waiting, at) {
        return None;
    }
    slots[at]
}

/// Adds the configurations to which the call in the slot, which waits, leads, unless there are too
/// many.
#[tactic(auto, using(crate::proofs::Gathering::settles_call, crate::proofs::Gathering::settles_full, crate::proofs::Gathering::settles_no_one))]
fn make_call<M: Machine>(
    alloc: Global,
    machine: &M,
    slots: &[Option<usize>],
    config: &Config<M::State>,
    slot: usize,
    call: usize,
    next: &mut Gathered<M>,
) -> Result<(), AllocError>
    requires few { length slots.now ≤ 64 }
    requires within { slot < 64 }
    requires waits { IsWaiting slots.now config.now.waiting slot call }
    ensures { OnOk result (Settles (M.Step machine.now) slots.now
        (IsNextAt (M.Step machine.now) slots.now config.now slot) next.old next.new) }
{
    if next.is_full() {
        return Ok(());
    }
    match machine.follow(&config.state, call)? {
        Left::Nothing => Ok(()),
        Left::One(state) => make_state(alloc, machine, slots, config, slot, call, state, next),
        Left::All(states) => make_states(alloc, machine, slots, config, slot, call, states, next),
    }
}

/// The same. The call is made in place where it leaves one state.
#[tactic(auto, using(crate::proofs::Gathering::settles_made))]
fn make_last<M: Machine>(
    alloc: Global,
    machine: &M,
    slots: &[Option<usize>],
    config: Config<M::State>,
    slot: usize,
    next: &mut Gathered<M>,
) -> Result<(), AllocError>
    requires few { length slots.now ≤ 64 }
    requires within { slot < length slots.now }
    requires waits { bit_at config.waiting slot ≡ 1 }
    ensures { OnOk result (Settles (M.Step machine.now) slots.now
        (IsNextAt (M.Step machine.now) slots.now config slot) next.old next.new) }
{
    let mut config = config;
    let Some(call) = slots[slot] else {
        return Ok(());
    };
    if make_in(machine, &mut config, call)? {
        config.waiting = without(config.waiting, slot);
        return add_settled(alloc, machine, slots, config, next);
    }
    make_call(alloc, machine, slots, &config, slot, call, next)
}

/// Whether the call in the slot is known to move before all others that wait.
fn moves_first<M: Machine>(machine: &M, slots: &[Option<usize>], waiting: u64, slot: usize) -> bool
    requires few { length slots.now ≤ 64 }
    requires within { slot < length slots.now }
    ensures { IsTrue result → MovesFirst (M.Step machine.now) slots.now slot waiting }
{
    let Some(call) = slots[slot] else {
        return false;
    };
    for at in 0..slots.len() {
        if let Some(other) = waits_beside(slots, waiting, slot, at) {
            if !machine.moves_before(call, other) {
                return false;
            }
        }
    }
    true
}

/// Whether no call that waits but that in the slot can be made in the configuration.
fn is_alone<M: Machine>(
    machine: &M,
    slots: &[Option<usize>],
    config: &Config<M::State>,
    slot: usize,
) -> Result<bool, AllocError>
    requires few { length slots.now ≤ 64 }
    ensures { IfOk result (λ alone. IsTrue alone
        → IsAlone (M.Step machine.now) slots.now config.now slot) }
{
    for at in 0..slots.len() {
        if let Some(other) = waits_beside(slots, config.waiting, slot, at) {
            if !machine.is_blocked(&config.state, other)? {
                return Ok(false);
            }
        }
    }
    Ok(true)
}

/// Makes the call in the slot in place, where it waits, is known to be made first or to move before
/// all others that wait, and can leave one state alone. Returns whether it did; else nothing
/// changed.
fn make_first<M: Machine>(
    machine: &M,
    slots: &[Option<usize>],
    config: &mut Config<M::State>,
    slot: usize,
    call: usize,
) -> Result<bool, AllocError>
    requires few { length slots.now ≤ 64 }
    requires within { slot < length slots.now }
    ensures { IfOk result (IsMadeFirst (M.Step machine.now) slots.now slot call config.old
        config.new) }
{
    if !has(config.waiting, slot) {
        return Ok(false);
    }
    if !moves_first(machine, slots, config.waiting, slot)
        && !is_alone(machine, slots, config, slot)?
    {
        return Ok(false);
    }
    if !make_in(machine, config, call)? {
        return Ok(false);
    }
    config.waiting = without(config.waiting, slot);
    Ok(true)
}

/// Whether the call in the slot waits in none of the configurations.
fn waits_in_none<S>(configs: &[Config<S>], slot: usize) -> bool
    requires { slot < 64 }
    ensures { IsTrue result → WaitsInNone slot configs.now }
{
    configs.iter().all(|config| !has(config.waiting, slot))
}

/// Closes the configurations in place, where that can be: the call in the slot waits in none of
/// them, or there is one, in which it comes first. Calls that change nothing are made then. Returns
/// whether it did; else nothing changed, and `close` goes on.
pub(super) fn close_in_place<M: Machine>(
    machine: &M,
    slots: &[Option<usize>],
    configs: &mut [Config<M::State>],
    slot: usize,
    call: usize,
) -> Result<bool, AllocError>
    requires few { length slots.now ≤ 64 }
    requires within { slot < length slots.now }
    requires has { HasSlot slots.now slot call }
    ensures { IfOk result (IsClosedInPlace (M.Step machine.now) slots.now slot configs.old
        configs.new) }
{
    if waits_in_none(configs, slot) {
        return Ok(true);
    }
    if configs.len() != 1 || !make_first(machine, slots, &mut configs[0], slot, call)? {
        return Ok(false);
    }
    settle(machine, slots, ALL, &mut configs[0])?;
    Ok(true)
}

/// Adds the configurations to which one more call leads, that in the slot last, unless there are
/// too many. Where this moves before all others that wait, it is made alone: they can be made after
/// it.
#[tactic(auto, using(crate::proofs::Closing::goes_by, crate::proofs::Closing::goes_full, crate::proofs::Gathering::settles_no_slot))]
fn make_calls<M: Machine>(
    alloc: Global,
    machine: &M,
    slots: &[Option<usize>],
    config: Config<M::State>,
    slot: usize,
    next: &mut Gathered<M>,
) -> Result<(), AllocError>
    requires few { length slots.now ≤ 64 }
    requires within { slot < length slots.now }
    requires waits { bit_at config.waiting slot ≡ 1 }
    ensures { OnOk result (GoesOn (M.Step machine.now) slots.now slot (config ∷ [])
        next.old next.new) }
{
    if next.is_full() {
        return Ok(());
    }
    if moves_first(machine, slots, config.waiting, slot) {
        return make_last(alloc, machine, slots, config, slot, next);
    }
    for other in 0..slots.len() {
        let Some(call) = waits_beside(slots, config.waiting, slot, other) else {
            continue;
        };
        make_call(alloc, machine, slots, &config, other, call, next)?;
    }
    make_last(alloc, machine, slots, config, slot, next)
}

/// Adds the configuration to those that are done where the call in the slot has been made there.
/// Else adds the configurations to which one more call leads to the next ones.
#[tactic(auto, using(crate::proofs::Running::bit_none, crate::proofs::Closing::goes_not, crate::proofs::Gathering::gathers_done, crate::proofs::Gathering::gathers_not_done))]
fn close_one<M: Machine>(
    alloc: Global,
    machine: &M,
    slots: &[Option<usize>],
    config: Config<M::State>,
    slot: usize,
    done: &mut Gathered<M>,
    next: &mut Gathered<M>,
) -> Result<(), AllocError>
    requires few { length slots.now ≤ 64 }
    requires within { slot < length slots.now }
    ensures { OnOk result (Gathers (IsDone slot config) done.old done.new
        × GoesOn (M.Step machine.now) slots.now slot (config ∷ []) next.old next.new) }
{
    if has(config.waiting, slot) {
        return make_calls(alloc, machine, slots, config, slot, next);
    }
    add(alloc, machine, done, config)
}

/// The same for each of these configurations. Returns the next ones: once there are too many, no
/// more.
#[tactic(auto, using(crate::proofs::Closing::goes_none, crate::proofs::Closing::layer_none, crate::proofs::Gathering::gathers_no_one))]
fn close_round<M: Machine>(
    alloc: Global,
    machine: &M,
    slots: &[Option<usize>],
    layer: Vec<Config<M::State>>,
    slot: usize,
    done: &mut Gathered<M>,
) -> Result<Vec<Config<M::State>>, AllocError>
    requires few { length slots.now ≤ 64 }
    requires within { slot < length slots.now }
    ensures { IfOk result (λ next. Gathers (FromOne (IsDone slot) layer.items) done.old done.new
        × GoesOn (M.Step machine.now) slots.now slot layer.items [] next.items) }
{
    if layer.is_empty() {
        return Ok(layer);
    }
    let count = layer.len().saturating_mul(2).saturating_add(2);
    let mut next = Gathered::with_capacity(alloc, count)?;
    for config in layer {
        close_one(alloc, machine, slots, config, slot, done, &mut next)?;
    }
    Ok(next.into_configs())
}

/// Makes waiting calls until the one in this slot is made. Returns the configurations in which it
/// is, or `None` where more than `MAX_CONFIGS` were to be followed.
pub(super) fn close<M: Machine>(
    alloc: Global,
    machine: &M,
    slots: &[Option<usize>],
    configs: Vec<Config<M::State>>,
    slot: usize,
) -> Result<Option<Vec<Config<M::State>>>, AllocError>
    requires few { length slots.now ≤ 64 }
    requires within { slot < 64 }
    requires taken { (call : ℕ) × HasSlot slots.now slot call }
    ensures { IfOk result (IsCloseOutcome (M.Step machine.now) slots.now configs.items slot) }
{
    let mut left = slots.len();
    let mut done = Gathered::with_capacity(alloc, configs.len())?;
    let mut layer = close_round(alloc, machine, slots, configs, slot, &mut done)?;
    while left > 0 {
        if layer.len() > MAX_CONFIGS {
            return Ok(None);
        }
        layer = close_round(alloc, machine, slots, layer, slot, &mut done)?;
        left -= 1;
    }
    let done = done.into_configs();
    if done.len() > MAX_CONFIGS {
        return Ok(None);
    }
    Ok(Some(done))
}

/// Adds the configuration in which the call in the slot is never made, where it waits.
#[tactic(auto, using(crate::proofs::Closing::path_is, crate::proofs::Gathering::gathers_dropped))]
fn drop_one<M: Machine>(
    alloc: Global,
    machine: &M,
    config: &Config<M::State>,
    slot: usize,
    more: &mut Gathered<M>,
) -> Result<(), AllocError>
    requires within { slot < 64 }
    ensures { OnOk result (Gathers (IsDropped slot config.now) more.old more.new) }
{
    if !has(config.waiting, slot) {
        return Ok(());
    }
    let state = machine.copied(&config.state)?;
    let waiting = without(config.waiting, slot);
    let made = Vec::from_slice(alloc, &config.made)?;
    let dropped = Config {
        state,
        waiting,
        base: config.base,
        made,
    };
    add(alloc, machine, more, dropped)
}

/// The configurations in which the call in the slot, which waits there, is never made.
#[tactic(auto, using(crate::proofs::Gathering::gathers_no_one))]
pub(super) fn dropped_all<M: Machine>(
    alloc: Global,
    machine: &M,
    configs: &[Config<M::State>],
    slot: usize,
) -> Result<Vec<Config<M::State>>, AllocError>
    requires within { slot < 64 }
    ensures { IfOk result (λ dropped. Gathers (FromOne (IsDropped slot) configs.now) []
        dropped.items) }
{
    let mut dropped = Gathered::of(alloc, Vec::new(alloc));
    for config in configs {
        drop_one(alloc, machine, config, slot, &mut dropped)?;
    }
    Ok(dropped.into_configs())
}
