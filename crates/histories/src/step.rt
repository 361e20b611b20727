//! One event more, and where no call is open: a call that overlaps nothing, and a new beginning.
ghost use Rattle.std.specs.Prelude.{◌<◌, ◌≤◌, [], IfOk, OnOk, length};
ghost use Rattle.histories.specs.declared.front.Event.TheVariants.{Begin, End, Crash};
ghost use Rattle.histories.specs.Advances.{BeginsAnew, EndsInPlace, IsAdvance, IsMadeAlone};
ghost use Rattle.histories.specs.Frontier.{HasSlot};
ghost use Rattle.histories.specs.Gathering.{AreEach, Finishes, FromOne, IsBegun, IsOpened, IsUnlinked, LaysOut, Settles};

use super::close::{close, close_in_place, dropped_all, make_in, settle};
use super::front::{Advance, Config, Event, Front, MAX_CONFIGS, lay_all};
use super::gather::{Gathered, add, joined};
use super::machine::Machine;
use super::slots::{are_free, free, slot_of, take_slot, with};
use std::alloc::{AllocError, Global};
use std::mem;

/// The call in the slot waits in the configuration, or is made at once, where it changes nothing.
fn open<M: Machine>(
    machine: &M,
    slots: &[Option<usize>],
    slot: usize,
    config: &mut Config<M::State>,
) -> Result<(), AllocError>
    requires few { length slots.now ≤ 64 }
    requires within { slot < 64 }
    ensures { OnOk result (IsBegun (M.Step machine.now) slots.now slot config.old config.new) }
{
    config.waiting = with(config.waiting, slot);
    // The state is as it was, and the other calls were tried in it.
    settle(machine, slots, with(0, slot), config)
}

/// The same in each of the configurations, and each is there once then. There are no more.
fn open_all<M: Machine>(
    alloc: Global,
    machine: &M,
    slots: &[Option<usize>],
    slot: usize,
    configs: Vec<Config<M::State>>,
) -> Result<Vec<Config<M::State>>, AllocError>
    requires few { length slots.now ≤ 64 }
    requires within { slot < 64 }
    ensures settles { IfOk result (λ opened. Settles (M.Step machine.now) slots.now
        (FromOne (IsOpened slot) configs.items) [] opened.items) }
    ensures most { IfOk result (λ opened. length opened.items ≤ length configs.items) }
{
    let mut configs = configs;
    if configs.len() == 1 {
        open(machine, slots, slot, &mut configs[0])?;
        return Ok(configs);
    }
    let mut opened = Gathered::with_capacity(alloc, configs.len())?;
    for config in configs {
        let mut config = config;
        open(machine, slots, slot, &mut config)?;
        add(alloc, machine, &mut opened, config)?;
    }
    Ok(opened.into_configs())
}

/// The calls that were made go into the links. Returns what was done.
#[tactic(auto, using(crate::proofs::Lists::put_back))]
fn lay<S>(front: &mut Front<S>) -> Result<Advance, AllocError>
    ensures { IfOk result (LaysOut front.old front.new) }
{
    lay_all(&mut front.links, &mut front.configs)?;
    if front.configs.is_empty() {
        return Ok(Advance::Refused);
    }
    Ok(Advance::Done)
}

/// A call begins, and waits in each configuration, or is made at once where it changes nothing.
fn begin<M: Machine>(
    alloc: Global,
    machine: &M,
    front: &mut Front<M::State>,
    call: usize,
) -> Result<Advance, AllocError>
    requires few { length front.old.slots.items ≤ 64 }
    requires enough { length front.old.configs.items ≤ 4096 }
    ensures { IfOk result (IsAdvance M.Step machine.now front.old (Begin call) front.new) }
{
    let Some(slot) = take_slot(&mut front.slots, call)? else {
        return Ok(Advance::ManyOpen);
    };
    let configs = mem::replace(&mut front.configs, Vec::new(alloc));
    front.configs = open_all(alloc, machine, &front.slots, slot, configs)?;
    lay(front)
}

/// The call in the slot is over, and these configurations are left.
fn finish<S: Drop>(
    front: &mut Front<S>,
    slot: usize,
    configs: Vec<Config<S>>,
) -> Result<Advance, AllocError>
    requires { slot < length front.old.slots.items }
    ensures { IfOk result (Finishes front.old slot configs.items front.new) }
{
    free(&mut front.slots, slot);
    if configs.len() > MAX_CONFIGS {
        return Ok(Advance::ManyConfigs);
    }
    front.configs = configs;
    lay(front)
}

/// The call in the slot ends, and is made in place, where that can be. Returns what was done then;
/// else nothing changed.
fn end_in_place<M: Machine>(
    machine: &M,
    front: &mut Front<M::State>,
    slot: usize,
    call: usize,
) -> Result<Option<Advance>, AllocError>
    requires few { length front.old.slots.items ≤ 64 }
    requires has { HasSlot front.old.slots.items slot call }
    ensures { IfOk result (EndsInPlace (M.Step machine.now) front.old slot front.new) }
{
    if !close_in_place(machine, &front.slots, &mut front.configs, slot, call)? {
        return Ok(None);
    }
    free(&mut front.slots, slot);
    let done = lay(front)?;
    Ok(Some(done))
}

/// A call ends: it is made in each configuration.
fn end<M: Machine>(
    alloc: Global,
    machine: &M,
    front: &mut Front<M::State>,
    call: usize,
) -> Result<Advance, AllocError>
    requires few { length front.old.slots.items ≤ 64 }
    ensures { IfOk result (IsAdvance M.Step machine.now front.old (End call) front.new) }
{
    let Some(slot) = slot_of(&front.slots, call) else {
        return Ok(Advance::NoEvent);
    };
    if let Some(done) = end_in_place(machine, front, slot, call)? {
        return Ok(done);
    }
    let configs = mem::replace(&mut front.configs, Vec::new(alloc));
    match close(alloc, machine, &front.slots, configs, slot)? {
        Some(closed) => finish(front, slot, closed),
        None => Ok(Advance::ManyConfigs),
    }
}

/// The caller of a call crashed: the call is made in each configuration, or never.
fn crash<M: Machine>(
    alloc: Global,
    machine: &M,
    front: &mut Front<M::State>,
    call: usize,
) -> Result<Advance, AllocError>
    requires few { length front.old.slots.items ≤ 64 }
    ensures { IfOk result (IsAdvance M.Step machine.now front.old (Crash call) front.new) }
{
    let Some(slot) = slot_of(&front.slots, call) else {
        return Ok(Advance::NoEvent);
    };
    let dropped = dropped_all(alloc, machine, &front.configs, slot)?;
    let configs = mem::replace(&mut front.configs, Vec::new(alloc));
    match close(alloc, machine, &front.slots, configs, slot)? {
        Some(closed) => {
            let more = joined(alloc, machine, closed, dropped)?;
            finish(front, slot, more)
        }
        None => Ok(Advance::ManyConfigs),
    }
}

/// Goes on with one event more.
///
/// All orders are followed together. A call that begins waits; when it ends, calls that wait are
/// made until it is. Where several orders have left the same state and the same calls that wait,
/// one is followed. A call that can be made and changes nothing is made at once. A call that ends
/// and moves before all that wait is made alone. What is kept grows with the calls that are open,
/// the configurations and the links, and not with the history.
///
/// Where memory was refused, or the result is not `Done`, the front is of no history any more.
///
/// From `crates/histories_tests/src/fronts.rt`:
///
/// ```
/// let found = advance(alloc, &machine, &mut front, event)?;
/// ```
#[tactic(auto, using(crate::proofs::Frontiers::front_many))]
pub fn advance<M: Machine>(
    alloc: Global,
    machine: &M,
    front: &mut Front<M::State>,
    event: Event,
) -> Result<Advance, AllocError>
    requires few { length front.old.slots.items ≤ 64 }
    ensures { IfOk result (IsAdvance M.Step machine.now front.old event front.new) }
{
    if front.configs.len() > MAX_CONFIGS {
        return Ok(Advance::ManyConfigs);
    }
    match event {
        Event::Begin(call) => begin(alloc, machine, front, call),
        Event::End(call) => end(alloc, machine, front, call),
        Event::Crash(call) => crash(alloc, machine, front, call),
    }
}

/// Goes on with the begin of a call and its end in one step, in place. Returns whether it did: one
/// configuration is followed, no other call is open, and the call can leave one state alone. Else
/// nothing changed, and `advance` goes on with both events.
///
/// Where memory was refused, the front is of no history any more.
#[tactic(auto, using(crate::proofs::Alone::made_none))]
pub(super) fn make_alone<M: Machine>(
    machine: &M,
    front: &mut Front<M::State>,
    call: usize,
) -> Result<bool, AllocError>
    ensures { IfOk result (IsMadeAlone M.Step machine.now front.old call front.new) }
{
    if front.configs.len() != 1 || !are_free(&front.slots) {
        return Ok(false);
    }
    if !make_in(machine, &mut front.configs[0], call)? {
        return Ok(false);
    }
    Ok(true)
}

/// The configurations, of orders of no calls.
fn unlink<S>(configs: &mut [Config<S>])
    ensures { AreEach IsUnlinked configs.old configs.new }
{
    for config in configs.iter_mut() {
        config.base = 0;
        config.made.clear();
    }
}

/// Begins anew with the states that the calls have left, where no call is open, and drops the
/// links. Returns whether it did.
pub fn begin_anew<M: Machine>(_machine: &M, front: &mut Front<M::State>) -> bool
    ensures { (whole : M) → BeginsAnew (M.Step whole) front.old front.new result }
{
    if !are_free(&front.slots) {
        return false;
    }
    unlink(&mut front.configs);
    front.links.clear();
    true
}
