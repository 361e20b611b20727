//! Names, keys, values and paths, and sets of attributes.

mod attributes;
mod bounded;
mod debugs;
mod errors;
mod failing;
mod lengths;
mod paths;
mod service_names;
