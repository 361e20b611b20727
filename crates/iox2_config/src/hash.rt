//! Hash texts: under which name a service's files are found, by any hasher.

mod hasher;
mod input;
mod service_hash;

pub use hasher::{Hash, HashError, HashValue, Sha1Hasher};
pub use input::{PatternKind, hash_input};
pub use service_hash::{SERVICE_HASH_CAPACITY, ServiceHash, ServiceHashError};
