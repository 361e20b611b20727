//! Ids of nodes, services and ports.

mod debugs;
mod digits;
mod kinds;
mod worked;
