//! The program `iox2-check`: what is wrong in files of settings, where, and what was probably
//! meant; their settings, how two files differ, the default file, and the schema.
#![tactic(auto)]

mod answer;
mod arguments;
mod found;
mod lines;
mod schema;

pub use answer::check_streams;
pub use found::{FileError, Files};
