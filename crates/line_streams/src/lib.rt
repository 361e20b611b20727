//! Streams of lines: bytes that come whole and go whole, and phrases,
//! of which the readers of a language of lines are built.
#![tactic(auto)]

pub mod laws;
mod phrase;
mod streams;

pub use phrase::{After, LineEnd, Number, Phrase, Then, after_word, before_byte, list_before};
pub use streams::{
    Outcome, Sink, Source, Status, read_all, report_failure, run_filter, write_outcome, write_whole,
};
