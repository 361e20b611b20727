//! Configurations that are gathered, each once.
//!
//! Where they are many, they are in chains by the calls that wait and the state. A chain goes from
//! its last configuration to the one before it. Links name how many configurations there are up to
//! the one that they lead to, or 0 at the end.
ghost use Rattle.std.specs.Prelude.{◌≡◌, ◌+◌, ◌<◌, ◌≤◌, ◌↔◌, List, [], IfOk, IsFalse, IsTrue, OnOk, get_or, length};
ghost use Rattle.histories.specs.Gathering.{AreChained, AreOther, FromOne, Gathers, HasSame, IsCopy, IsKnown, chain_of};
ghost use Rattle.histories.specs.Frontier.{IsFrontOf, IsSame};

use super::front::{Config, Front, MAX_CONFIGS};
use super::machine::Machine;
use std::alloc::{AllocError, Global};
use std::marker::Model;

/// How many chains there are: a prime number, so that each slot counts.
const CHAINS: usize = 1021;

/// The chain of a configuration.
fn chain_of<M: Machine>(machine: &M, config: &Config<M::State>) -> usize
    ensures { result ≡ chain_of M.hash config.now }
{
    let hash = machine.hash_of(&config.state) % CHAINS as u64;
    ((config.waiting % CHAINS as u64 + hash) % CHAINS as u64) as usize
}

/// Where the chain of this number begins.
fn head_of(heads: &[usize], chain: usize) -> usize
    ensures { result ≡ get_or heads.now chain 0 }
{
    if chain < heads.len() { heads[chain] } else { 0 }
}

/// Whether two orders have come equally far: to one state, with the same calls that wait.
fn is_same<M: Machine>(machine: &M, one: &Config<M::State>, other: &Config<M::State>) -> bool
    ensures { IsTrue result ↔ IsSame one.now other.now }
{
    one.waiting == other.waiting && machine.same(&one.state, &other.state)
}

/// Whether one of the configurations that are in chains is the same.
fn is_in_chain<M: Machine>(
    machine: &M,
    configs: &[Config<M::State>],
    heads: &[usize],
    before: &[usize],
    config: &Config<M::State>,
) -> bool
    requires { AreChained M.hash configs.now heads.now before.now }
    ensures yes { IsTrue result → HasSame configs.now config.now }
    ensures no { IsFalse result → AreOther configs.now 0 (length before.now) config.now }
{
    let mut left = head_of(heads, chain_of(machine, config));
    while left > 0 {
        let at = left - 1;
        if is_same(machine, &configs[at], config) {
            return true;
        }
        left = before[at];
    }
    false
}

/// Puts one more configuration into its chain.
#[tactic(auto, using(crate::proofs::Chains::chained_more))]
fn link<M: Machine>(
    machine: &M,
    configs: &[Config<M::State>],
    heads: &mut [usize],
    before: &mut Vec<usize>,
) -> Result<(), AllocError>
    requires chained { AreChained M.hash configs.now heads.old before.old.items }
    requires more { length before.old.items < length configs.now }
    requires all { length heads.old ≡ 1021 }
    ensures chained { AreChained M.hash configs.now heads.new before.new.items }
    ensures all { length heads.new ≡ 1021 }
    ensures one { OnOk result (length before.new.items ≡ length before.old.items + 1) }
{
    let index = before.len();
    let chain = chain_of(machine, &configs[index]);
    before.push(heads[chain])?;
    heads[chain] = index + 1;
    Ok(())
}

/// Puts all configurations that are in none into their chains.
fn link_rest<M: Machine>(
    machine: &M,
    configs: &[Config<M::State>],
    heads: &mut [usize],
    before: &mut Vec<usize>,
) -> Result<(), AllocError>
    requires chained { AreChained M.hash configs.now heads.old before.old.items }
    requires all { length heads.old ≡ 1021 }
    ensures { AreChained M.hash configs.now heads.new before.new.items }
{
    while before.len() < configs.len() {
        link(machine, configs, heads, before)?;
    }
    Ok(())
}

/// Puts all configurations into their chains.
fn link_all<M: Machine>(
    alloc: Global,
    machine: &M,
    configs: &[Config<M::State>],
    heads: &mut Vec<usize>,
    before: &mut Vec<usize>,
) -> Result<(), AllocError>
    requires { AreChained M.hash configs.now heads.old.items before.old.items }
    ensures { AreChained M.hash configs.now heads.new.items before.new.items }
{
    if heads.len() == CHAINS {
        return link_rest(machine, configs, heads, before);
    }
    *heads = vec![in alloc; 0; CHAINS]?;
    before.clear();
    link_rest(machine, configs, heads, before)
}

/// So many configurations are looked through one by one.
const FEW: usize = 32;

/// Configurations, each once. Where they are many, most are in chains by the calls that wait and
/// the state.
#[derive(Drop)]
pub(super) struct Gathered<M: Machine> {
    configs: Vec<Config<M::State>>,
    heads: Vec<usize>,
    before: Vec<usize>,
}

impl<M: Machine> Model for Gathered<M> {
    ghost use Rattle.std.specs.Prelude.{List};
    ghost use Rattle.histories.specs.declared.front.Config.{Config};
    ghost use Rattle.histories.specs.Gathering.{AreChained};

    ghost Value = { List (Config M.State) };

    ghost view = { λ g. g.configs.items };

    ghost invariant = { λ g. AreChained M.hash g.configs.items g.heads.items g.before.items };
}

impl<M: Machine> Gathered<M> {
    /// No configuration, with the capacity for so many.
    pub(super) fn with_capacity(alloc: Global, count: usize) -> Result<Self, AllocError>
        ensures { IfOk result (λ gathered. gathered ≡ []) }
    {
        Ok(Gathered::of(alloc, Vec::with_capacity(alloc, count)?))
    }

    /// These configurations.
    pub(super) fn of(alloc: Global, configs: Vec<Config<M::State>>) -> Self
        ensures { result ≡ configs.items }
    {
        Gathered {
            configs,
            heads: Vec::new(alloc),
            before: Vec::new(alloc),
        }
    }

    /// The configurations.
    pub(super) fn into_configs(self) -> Vec<Config<M::State>>
        ensures { result.items ≡ self }
    {
        let Gathered {
            configs,
            heads: _,
            before: _,
        } = self;
        configs
    }

    /// Whether these are more than are followed.
    pub(super) fn is_full(&self) -> bool
        ensures { IsTrue result ↔ (4096 < length self.now) }
    {
        self.configs.len() > MAX_CONFIGS
    }

    /// Puts configurations into chains once many of them are in none.
    fn link_many(&mut self, alloc: Global, machine: &M) -> Result<(), AllocError>
        ensures { self.new ≡ self.old }
    {
        if self.configs.len() - self.before.len() < FEW {
            return Ok(());
        }
        link_all(
            alloc,
            machine,
            &self.configs,
            &mut self.heads,
            &mut self.before,
        )
    }
}

/// Whether one of the configurations is the same.
fn is_among<M: Machine>(
    machine: &M,
    configs: &[Config<M::State>],
    config: &Config<M::State>,
) -> bool
    ensures { IsKnown configs.now config.now result }
{
    configs.iter().any(|known| is_same(machine, known, config))
}

/// The same, where the first ones are in chains.
#[tactic(auto, using(crate::proofs::Chains::known_there))]
fn is_known<M: Machine>(
    machine: &M,
    configs: &[Config<M::State>],
    heads: &[usize],
    before: &[usize],
    config: &Config<M::State>,
) -> bool
    requires { AreChained M.hash configs.now heads.now before.now }
    ensures { IsKnown configs.now config.now result }
{
    if is_in_chain(machine, configs, heads, before, config) {
        return true;
    }
    is_among(machine, &configs[before.len()..], config)
}

/// Adds a configuration, unless there is the same.
#[tactic(auto, using(crate::proofs::Gathering::gathers_new))]
pub(super) fn add<M: Machine>(
    alloc: Global,
    machine: &M,
    gathered: &mut Gathered<M>,
    config: Config<M::State>,
) -> Result<(), AllocError>
    ensures gathers { OnOk result (Gathers (IsCopy config) gathered.old gathered.new) }
    ensures most { OnOk result (length gathered.new ≤ length gathered.old + 1) }
{
    if is_known(
        machine,
        &gathered.configs,
        &gathered.heads,
        &gathered.before,
        &config,
    ) {
        return Ok(());
    }
    gathered.configs.push(config)?;
    gathered.link_many(alloc, machine)
}

/// The first configurations, and of the others those that are not there yet.
#[tactic(auto, using(crate::proofs::Gathering::gathers_no_one))]
pub(super) fn joined<M: Machine>(
    alloc: Global,
    machine: &M,
    configs: Vec<Config<M::State>>,
    others: Vec<Config<M::State>>,
) -> Result<Vec<Config<M::State>>, AllocError>
    ensures { IfOk result (λ all. Gathers (FromOne IsCopy others.items) configs.items all.items) }
{
    let mut all = Gathered::of(alloc, configs);
    for config in others {
        add(alloc, machine, &mut all, config)?;
    }
    Ok(all.into_configs())
}

/// The front before any event: these states, each once. Where they are more than `MAX_CONFIGS`, the
/// first event finds that.
#[tactic(auto, using(crate::proofs::Gathering::gathers_no_one))]
pub fn start<M: Machine>(
    alloc: Global,
    machine: &M,
    states: &[M::State],
) -> Result<Front<M::State>, AllocError>
    ensures { IfOk result (λ front. (whole : M)
        → IsFrontOf (M.Step whole) front [] states.now) }
{
    let mut configs = Gathered::of(alloc, Vec::new(alloc));
    for from in states {
        let state = machine.copied(from)?;
        let made = Vec::new(alloc);
        let first = Config {
            state,
            waiting: 0,
            base: 0,
            made,
        };
        add(alloc, machine, &mut configs, first)?;
    }
    let slots = Vec::new(alloc);
    let links = Vec::new(alloc);
    Ok(Front {
        slots,
        configs: configs.into_configs(),
        links,
    })
}
