//! The arguments of programs.

use std::alloc::{AllocError, Global};
use std::env::Args;

/// The arguments, of which the first is the program's name.
pub(super) fn arguments(alloc: Global, program: &str, words: &[&str]) -> Result<Args, AllocError> {
    let mut all = Vec::new(alloc);
    all.push(String::from_str(alloc, program)?)?;
    for word in words {
        all.push(String::from_str(alloc, word)?)?;
    }
    Ok(all.into_iter())
}
