//! Worked examples of services: how they are described, what the callers of the examples are
//! answered, and commands, scripts and streams. They are tests of what no contract says: values
//! from outside, printed texts, each public call once with ample memory and with memory refused,
//! and streams that fail.
#![tactic(auto)]

#[cfg(test)]
mod examples;
#[cfg(test)]
mod replay;
#[cfg(test)]
mod static_config;
