//! Pictures of logs: what callers did on a service, as a time line.
#![tactic(auto)]

mod calls;
mod drawing;
mod points;
mod streams;
mod svg;
mod timeline;

pub use drawing::{Drawing, draw_log};
pub use streams::draw_streams;
