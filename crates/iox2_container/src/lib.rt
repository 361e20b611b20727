//! Containers of what is attached to a service: bounded registries that issue a new handle for each
//! entry.
#![tactic(auto)]

pub mod container;
pub mod laws;
