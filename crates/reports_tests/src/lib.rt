//! What is reported of settings and of services: files of settings with what they give, and whole
//! runs of `settings_check` and `service_drawing` on files and streams in memory. They are tests of
//! what no contract says: worked files and drawings, printed faults, each public call once, memory
//! that is refused, and streams that fail.
#![tactic(auto)]

#[cfg(test)]
mod arguments;
#[cfg(test)]
mod drawings;
#[cfg(test)]
mod settings;
