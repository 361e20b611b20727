//! Worked examples of ids, texts and the configuration. They are tests of what no contract says,
//! with values from outside: worked rows, vectors of public standards, printed texts, and each
//! public call once.
#![tactic(auto)]

#[cfg(test)]
mod config;
#[cfg(test)]
mod ids;
#[cfg(test)]
mod texts;
