//! What services are made from: the configuration, hash texts, and the layout of messages.
//!
//! Contracts see a text as its list of bytes, and a
//! struct with private fields as one record of `specs/`.
#![tactic(auto)]

pub mod config;
pub mod hash;
pub mod laws;
pub mod types;
