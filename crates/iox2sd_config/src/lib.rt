//! The file of the middleware's settings, for C: text in, plain values out, and back.
//!
//! `include/iox2sd_raw.h` declares the exports for C and C++, and `include/iox2sd_config.h` the
//! functions that call them, with what a caller must ensure.
#![tactic(auto)]

pub mod config;
pub mod fault;
pub mod read;
pub mod unknown;
pub mod write;
