//! Commands on a service, scripts and streams.

mod deaths;
mod debugs;
mod descriptions;
mod line_runs;
mod lines;
mod memory;
mod modules;
mod runs;
mod scripts;
mod serving;
mod streams;
