//! The ids of nodes, ports and services.
//!
//! An id is one 128-bit number, made of the process that created it,
//! the time of its creation in seconds and nanoseconds, and a counter.
//! Contracts see an id as that number, and so do `==`, `<` and hashing.
#![tactic(auto)]

pub mod identifiers;
pub mod laws;
