//! Static configurations and counts of chunks.

mod chunk_counts;
mod debugs;
mod defaults;
mod descriptions;
mod laws;
mod settings;
