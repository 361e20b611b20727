//! Worked examples of registries, and of the services that are made of them. They are tests of
//! what no contract says: worked rows, and each public call once with ample memory and with memory
//! refused.
#![tactic(auto)]

#[cfg(test)]
mod containers;
#[cfg(test)]
mod nodes;
#[cfg(test)]
mod services;
