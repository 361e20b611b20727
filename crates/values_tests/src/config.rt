//! The configuration, hash texts and the layout of messages.

mod debugs;
mod defaults;
mod hash;
mod laws;
mod types;
