//! What the tests of several crates share.
#![tactic(auto)]

pub mod failing_streams;
pub mod memory;
pub mod printing;
pub mod scripts;
