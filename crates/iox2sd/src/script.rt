//! Whole scripts.
ghost use Rattle.std.specs.Prelude.{◌≡◌};
ghost use Rattle.iox2sd.specs.Scripts.{end_status, bad_line, end_length, Answers};

use iox2sd_common::answers::put;
use iox2sd_common::status::Status;
use service_descriptions::replay::{ScriptError, run_script};
use std::alloc::Global;

/// How a script ended.
#[repr(C)]
#[derive(Clone, Copy)]
pub struct ScriptAnswer {
    /// The number of a [`Status`].
    pub status: u32,
    /// The number of the [`Status`] that this call would have had with a longer buffer.
    pub verdict: u32,
    /// The number of the bad line, from 1 on, or 0 where no line is bad.
    pub line: usize,
    /// How many bytes the reply lines have, also where they do not fit; 0 where memory was refused
    /// and they do not fit.
    pub length: usize,
}

/// The status of a script that ended so. Where memory was refused, that is reported before the
/// length of the buffer.
fn end_status(fits: bool, end: &Result<(), ScriptError>) -> Status
    ensures { result ≡ end_status fits end.now }
{
    match end {
        Err(ScriptError::NoMemory(_)) => Status::NoMemory,
        _ if !fits => Status::BufferTooShort,
        Ok(()) => Status::Done,
        Err(ScriptError::BadLine(_)) => Status::BadLine,
    }
}

/// The reported length of reply lines of this length.
fn end_length(fits: bool, end: &Result<(), ScriptError>, length: usize) -> usize
    ensures { result ≡ end_length fits end.now length }
{
    match end {
        Err(ScriptError::NoMemory(_)) if !fits => 0,
        _ => length,
    }
}

/// The number of the bad line, or 0.
fn bad_line(end: &Result<(), ScriptError>) -> usize
    ensures { result ≡ bad_line end.now }
{
    match end {
        Err(ScriptError::BadLine(line)) => *line,
        _ => 0,
    }
}

/// Runs a script, and writes its reply lines to the front of the buffer where they all fit; else
/// the buffer stays as it was.
///
/// Refused are, in this order, want of memory (`NoMemory`), with nothing or the whole reply lines
/// of some first commands; too short a buffer (`BufferTooShort`), and a call with a longer one runs
/// the script again from its start; and a bad line (`BadLine`), with the reply lines to the
/// commands before it.
#[unsafe(no_mangle)]
pub extern "C" fn iox2sd_script_run_at(alloc: Global, script: &[u8], out: &mut [u8]) -> ScriptAnswer
    ensures { Answers script.now out.old result out.new }
{
    let mut text = Vec::new(alloc);
    let end = run_script(alloc, script, &mut text);
    let fits = put(&text, out);
    ScriptAnswer {
        status: end_status(fits, &end).code(),
        verdict: end_status(true, &end).code(),
        line: bad_line(&end),
        length: end_length(fits, &end, text.len()),
    }
}
