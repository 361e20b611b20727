//! Histories of calls that overlapped in time: whether some order of the calls explains them. A
//! history is followed event by event, or judged window by window: a window begins where no call is
//! open, and what comes in it is judged from the states that were left there.
#![tactic(auto)]

mod close;
mod follow;
mod front;
mod gather;
pub mod laws;
mod machine;
mod needed;
mod slots;
mod step;
mod window;

pub use follow::{first_front, go_on};
pub use front::{Advance, Config, Event, Front, Link, MAX_CONFIGS, MAX_OPEN, order_up_to};
pub use gather::start;
pub use machine::{Left, Machine};
pub use needed::{MAX_TRIED, calls_left_out, is_kept};
pub use step::{advance, begin_anew};
pub use window::{Cut, Stop, Verdict, Window, judge_windows, order_in};
