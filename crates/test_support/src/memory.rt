//! Whether memory may be refused.
use std::env;
use std::env::{Env, VarError};

/// Whether a request for memory may be refused: `bench/refuse_memory` names in the variable
/// `REFUSED` which ones are. Where none is, each call is to be given what it wants.
pub fn may_be_refused(rt: &(impl Env + AllocGlobal)) -> bool {
    match env::var(rt, "REFUSED") {
        Ok(named) => !named.is_empty(),
        // The request for this text was refused.
        Err(why) => why == VarError::OutOfMemory,
    }
}
