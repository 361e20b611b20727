//! Logs of what was seen of services, judged by the steps of services.
#![tactic(auto)]

pub mod laws;
pub mod logs;
