//! Files of settings, what is reported of them, and runs of `settings_check`.

mod contradictions;
mod debugs;
mod expected;
mod failing;
mod faults;
mod memory;
mod positions;
mod proposals;
mod reports;
mod running;
mod shown;
mod unknown;
mod values;
mod words;
mod written;
