//! Events, how far the orders of the calls have come, and the orders in links: the calls that were
//! made go into them, and are read from them.
ghost use Rattle.std.specs.Prelude.{IfOk, OnOk, ◌≡◌, ◌<◌, ◌≤◌};
ghost use Rattle.histories.specs.Gathering.{AreLaid, IsLaid, IsLaidOut};
ghost use Rattle.histories.specs.Frontier.{read};

use std::alloc::{AllocError, Global};

/// How many configurations are followed at most.
pub const MAX_CONFIGS: usize = 4096;

/// How many calls are open at most at a time.
pub const MAX_OPEN: usize = 64;

/// An event of a history. Calls are numbered by their begins, from 0.
#[derive(Clone, Copy, Debug)]
pub enum Event {
    /// The call of this number begins.
    Begin(usize),
    /// The call was answered.
    End(usize),
    /// The caller of the call crashed: the call took effect before this event, or never.
    Crash(usize),
}

/// A call of an order, and where the calls before it are.
#[derive(Clone, Copy, Debug)]
pub struct Link {
    /// The number of the call.
    pub call: usize,
    /// How many links there are up to that of the call before it, or 0 where it is the first one.
    pub before: usize,
}

/// What an order has come to. Its calls are those of the links up to `base`, and after them those
/// in `made`.
#[derive(Debug, Drop)]
pub struct Config<S> {
    /// The state that its calls have left.
    pub state: S,
    /// The slots of the open calls that wait to be made: the bit of each is set, and no other.
    pub waiting: u64,
    /// How many links there are up to that of its last call there, or 0 where none is there.
    pub base: usize,
    /// The calls that are not yet in the links, in their order. After `advance` there are none.
    pub made: Vec<usize>,
}

/// How far a search has come.
#[derive(Debug, Drop)]
pub struct Front<S> {
    /// The slots, with the number of the open call that has it, or none.
    pub slots: Vec<Option<usize>>,
    /// The configurations that are followed, each once.
    pub configs: Vec<Config<S>>,
    /// The links, from which the order of each configuration is read.
    pub links: Vec<Link>,
}

/// What an event does to a front.
#[derive(Clone, Copy, Debug, PartialEq, Eq)]
pub enum Advance {
    /// Orders explain the events up to this one.
    Done,
    /// None does, and some did before it.
    Refused,
    /// More than `MAX_CONFIGS` configurations were to be followed: not decided.
    ManyConfigs,
    /// More than `MAX_OPEN` calls are open: not decided.
    ManyOpen,
    /// The call that ends is not open.
    NoEvent,
}

/// Adds the calls that were made in the configuration to the links. Returns how many links there
/// are up to that of the last one.
#[tactic(auto, using(crate::proofs::Lists::laid_out_none))]
fn lay_calls(links: &mut Vec<Link>, base: usize, calls: &[usize]) -> Result<usize, AllocError>
    ensures { IfOk result (IsLaidOut links.old.items base calls.now links.new.items) }
{
    let mut last = base;
    for call in calls {
        links.push(Link {
            call: *call,
            before: last,
        })?;
        last = links.len();
    }
    Ok(last)
}

/// The calls that were made in the configuration go into the links.
fn lay_one<S>(links: &mut Vec<Link>, config: &mut Config<S>) -> Result<(), AllocError>
    ensures { OnOk result (IsLaid links.old.items links.new.items config.old config.new) }
{
    config.base = lay_calls(links, config.base, &config.made)?;
    config.made.clear();
    Ok(())
}

/// The same of each of the configurations.
#[tactic(auto, using(crate::proofs::Lists::grows_none))]
pub(super) fn lay_all<S>(links: &mut Vec<Link>, configs: &mut [Config<S>]) -> Result<(), AllocError>
    ensures { OnOk result (AreLaid links.old.items links.new.items configs.old configs.new) }
{
    for config in configs.iter_mut() {
        lay_one(links, config)?;
    }
    Ok(())
}

/// The number, or 0 where it is above the limit.
fn bounded(number: usize, limit: usize) -> usize
    ensures within { number ≤ limit → result ≡ number }
    ensures above { limit < number → result ≡ 0 }
    ensures bound { result ≤ limit }
{
    if number <= limit { number } else { 0 }
}

/// The calls of the links up to this number of them, in their order.
pub fn order_up_to(alloc: Global, links: &[Link], base: usize) -> Result<Vec<usize>, AllocError>
    ensures { IfOk result (λ order. order.items ≡ read links.now base) }
{
    let mut order = Vec::new(alloc);
    let mut left = bounded(base, links.len());
    while left > 0 {
        let at = left - 1;
        let link = links[at];
        order.push(link.call)?;
        left = bounded(link.before, at);
    }
    order.reverse();
    Ok(order)
}
