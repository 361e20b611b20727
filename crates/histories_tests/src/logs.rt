//! Logs of what was seen of services, and what each must be judged to be.

mod anew;
mod bounds;
mod commands;
mod cuts;
mod deaths;
mod deciding;
mod lines;
mod many;
mod needed;
mod overlapping;
mod progress;
mod random;
mod rows;
mod runs;
mod scripts;
mod services;
mod settling;
mod states;
mod streams;
mod texts;
mod weak;
