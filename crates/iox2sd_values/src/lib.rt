//! A typed interface for C, in one static library without global state.
#![tactic(auto)]

ghost use lib.Chars.{codes};
ghost use Rattle.iox2sd_common.specs.Answers.{Written};

pub mod attributes;
pub mod descriptions;
pub mod laws;
pub mod messages;
pub mod paths;
mod refusals;
pub mod satisfies;
pub mod settings;
pub mod texts;

use iox2sd_common::answers::{TextAnswer, write};

/// Writes the version of this library.
#[unsafe(no_mangle)]
pub extern "C" fn iox2sd_version_at(out: &mut [u8]) -> TextAnswer
    ensures { Written (codes "0.1.0") out.old result out.new }
{
    write(b"0.1.0", out)
}

/// Writes the version of iceoryx2 whose layer this is.
#[unsafe(no_mangle)]
pub extern "C" fn iox2sd_layer_version_at(out: &mut [u8]) -> TextAnswer
    ensures { Written (codes "0.9.3") out.old result out.new }
{
    write(b"0.9.3", out)
}
