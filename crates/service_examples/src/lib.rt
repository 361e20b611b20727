//! Callers of the layer, to be read and copied: a service builder, a liveness monitor, discovery,
//! the part of a port factory that attaches publishers, a node that joins with its first port, a
//! census, and callbacks that count.
//!
//! Each contract follows from the contracts of the calls alone.
#![tactic(auto, using(iox2_dynamic::proofs::Callbacks::callbacks))]

pub mod builder;
pub mod census;
pub mod counting;
mod described;
pub mod discovery;
pub mod factory;
pub mod join;
pub mod laws;
pub mod monitor;
mod sizes;
