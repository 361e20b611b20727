//! What a service is, for a person to look at: its name and its files,
//! its settings, where the parts of its messages lie, how much memory its
//! ports take, and whether its attributes are what an opener requires.
//!
//! Every number comes from a call whose contract says what it is. `specs/Svg.antt` has the whole
//! text of a picture; how a text is laid out is only tested.
#![tactic(auto)]

mod description;
mod fault;
mod layout;
mod reading;
mod sentences;
mod settings;
mod streams;
mod svg;
mod text;

pub use streams::describe_streams;
