//! Tests of what is found of histories, worked out by hand: of the search through the orders of a
//! history, on a register; of the machine of calls that were seen, with words of replies; of logs,
//! with worked rows, texts, refused memory, and streams that fail; and of pictures of logs.
#![tactic(auto)]

#[cfg(test)]
mod bounds;
#[cfg(test)]
mod fronts;
#[cfg(test)]
mod logs;
#[cfg(test)]
mod memory;
#[cfg(test)]
mod movers;
#[cfg(test)]
mod overlapping;
#[cfg(test)]
mod pictures;
#[cfg(test)]
mod seen;
#[cfg(test)]
mod worked;
// It is no test, since `specs/` speaks of its types.
pub mod register;
