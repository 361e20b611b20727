//! What a service is, as one value, and how many chunks its data segments need.
#![tactic(auto)]

pub mod laws;
pub mod static_config;
