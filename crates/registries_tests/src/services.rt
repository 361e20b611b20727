//! Services whose nodes and ports come and go, on each of the four patterns.

mod attaching;
mod dead_nodes;
mod debugs;
mod handles;
mod leaving;
mod listings;
mod making;
mod many_slots;
mod memory;
mod patterns;
mod printing;
mod questions;
mod rows;
