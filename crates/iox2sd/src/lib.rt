//! The layer for C: its calls under C's calling convention, with plain values, in one static
//! library without global state.
//!
//! `include/iox2sd_raw.h` declares the exports for C and C++, and `include/iox2sd.h`,
//! `include/iox2sd_script.h` and `include/iox2sd_conform.h` the functions that call them, with what
//! a caller must ensure.
#![tactic(auto)]

ghost use Rattle.std.specs.Prelude.{◌≡◌};
ghost use Rattle.iox2sd.specs.About.{the_abi, ReportsStatus};

pub mod conform;
pub mod id;
pub mod script;
pub mod service;
pub mod service_numbers;
pub mod values;

use iox2sd_common::answers::{TextAnswer, no_text, write};
use iox2sd_common::status::{Status, status_of};

/// A number that rises when a struct or an export changes.
#[unsafe(no_mangle)]
pub extern "C" fn iox2sd_abi() -> u32
    ensures { result ≡ the_abi }
{
    2
}

/// Writes what a status says. Refused is a number that is not that of a status.
#[unsafe(no_mangle)]
pub extern "C" fn iox2sd_status_text_at(number: u32, out: &mut [u8]) -> TextAnswer
    ensures { ReportsStatus number out.old result out.new }
{
    match status_of(number) {
        Some(status) => write(status.text().as_bytes(), out),
        None => no_text(Status::UnknownStatus),
    }
}
