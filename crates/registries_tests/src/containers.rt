//! Registries of both kinds, and two of them under the same calls.

mod calls;
mod comparison;
mod debugs;
mod handles;
mod laws;
mod memory;
mod passes;
mod printing;
mod registries;
mod rows;
mod sizes;
mod slots;
