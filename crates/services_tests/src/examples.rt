//! The callers of the examples: what they answer, cause by cause, and whole lists.

mod counting;
mod debugs;
mod joining;
mod life;
mod memory;
mod openers;
mod publishers;
mod services;
