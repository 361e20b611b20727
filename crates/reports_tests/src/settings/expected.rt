//! What is written, worked out by hand.

pub(super) mod help;
pub(super) mod shown;
