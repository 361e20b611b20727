//! Where in a TOML text the values at paths of keys are written.
//!
//! The toolchain's `toml` reads a text to a table and gives no positions. This crate goes over the
//! expressions of a text that is TOML once, by the grammar of `toml`, and finds where each of some
//! paths is first written, one after the other.
#![tactic(auto)]

mod expression;
mod position;

pub use position::{KeyPath, Position, Positions, position_after};
