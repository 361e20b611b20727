//! Whole runs of `service_drawing`: the text, the picture, and refusals.

mod expected;
mod failing;
mod good;
mod memory;
mod own;
mod parts;
mod refusals;
mod reports;
mod running;
mod whole;
