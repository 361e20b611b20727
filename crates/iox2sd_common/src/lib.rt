//! What the exports of all libraries for C share: statuses, answers, ids and settings as plain
//! values, and messaging patterns as numbers.
#![tactic(auto)]

pub mod answers;
pub mod id;
pub mod read_settings;
pub mod settings;
pub mod status;
