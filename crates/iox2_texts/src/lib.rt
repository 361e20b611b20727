//! Bounded texts: names, keys, values and paths, and sets of attributes made of them.
//!
//! Every text lies in the value itself and nothing here takes memory. Contracts see a text as the
//! list of its bytes, a set of attributes as the one sorted list of its pairs, and a verifier as
//! its pairs and its keys.
#![tactic(auto)]

pub mod attribute;
pub mod bounded;
pub mod laws;
pub mod paths;
pub mod service_name;
