//! What a file of settings says, for a person: what is wrong with it and what was probably meant,
//! or all settings with the files and the memory that follow.
//!
//! The text, a line for each setting and for each fault, is that of `specs/Text.antt` and
//! `specs/Findings.antt`.
#![tactic(auto)]

mod check;
mod contradiction;
mod contradictions;
mod finding;
pub mod laws;
mod printable;
mod syntax;
mod text;

pub use check::{
    FileConfig, ReportError, Unread, check_file, default_file, parse_file, read_file, settings_text,
};
pub use finding::{Finding, Findings, Severity, Subject, in_line, key_path, key_position};
pub use printable::{write_printable, write_printable_line};
pub use text::{ValuePair, is_same, pair_at, requests, responses, samples};
pub use toml_positions::{Position, Positions};
