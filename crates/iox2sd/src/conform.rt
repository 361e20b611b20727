//! Whole logs.
ghost use Rattle.std.specs.Prelude.{◌≡◌};
ghost use Rattle.iox2sd.specs.Verdicts.{Answers, conforming_calls, reported_line};
ghost use Rattle.iox2sd.specs.Verdicts.{expected_status, verdict_status};

use history_logs::logs::{Expected, Verdict, report_log};
use iox2sd_common::answers::put;
use iox2sd_common::status::Status;
use std::alloc::Global;

/// What a log was judged to be.
#[repr(C)]
#[derive(Clone, Copy)]
pub struct ConformAnswer {
    /// The number of a [`Status`]; that of `Done` where the log conforms.
    pub status: u32,
    /// The number of the [`Status`] that this call would have had with a longer buffer.
    pub verdict: u32,
    /// The number, from 1 on, of the line down to which no order explains the log, with which a
    /// bound is passed, or that is not what is expected; 0 where the log conforms or memory was
    /// refused.
    pub line: usize,
    /// How many calls the log has, where it conforms; else 0.
    pub calls: usize,
    /// How many bytes the report has, also where it does not fit; 0 where memory was refused.
    pub length: usize,
}

/// The status of a line that is not what is expected.
fn expected_status(expected: Expected) -> Status
    ensures { result ≡ expected_status expected }
{
    match expected {
        Expected::Service => Status::NoServiceLine,
        Expected::Call => Status::NoCallLine,
        Expected::NewNumber => Status::NoCallLine,
        Expected::CallAlone => Status::NoCallLine,
        Expected::Form(_) => Status::NoCallLine,
        Expected::Reply => Status::NoReplyLine,
        Expected::IdleCaller => Status::CallerIsBusy,
        Expected::OpenCall => Status::NoOpenCall,
        Expected::LiveCaller => Status::CallerIsDead,
        Expected::KnownCaller => Status::UnknownCaller,
        Expected::Newline => Status::NoNewline,
        Expected::NoCarriageReturn => Status::CarriageReturn,
        Expected::State => Status::NoStateLine,
    }
}

/// The status of a verdict.
fn verdict_status(verdict: &Verdict) -> Status
    ensures { result ≡ verdict_status verdict.now }
{
    match verdict {
        Verdict::Conforms(_, _) => Status::Done,
        Verdict::Refused(_) => Status::NoOrder,
        Verdict::ManyConfigs(_) => Status::TooManyConfigurations,
        Verdict::ManyOpen(_) => Status::TooManyOpenCalls,
        Verdict::BadLine(_, expected) => expected_status(*expected),
    }
}

/// The number of the reported line, or 0.
fn reported_line(verdict: &Verdict) -> usize
    ensures { result ≡ reported_line verdict.now }
{
    match verdict {
        Verdict::Conforms(_, _) => 0,
        Verdict::Refused(reported) => reported.line,
        Verdict::ManyConfigs(line) | Verdict::ManyOpen(line) | Verdict::BadLine(line, _) => *line,
    }
}

/// How many calls conform, or 0 where the log does not.
fn conforming_calls(verdict: &Verdict) -> usize
    ensures { result ≡ conforming_calls verdict.now }
{
    match verdict {
        Verdict::Conforms(calls, _) => *calls,
        _ => 0,
    }
}

/// Judges a log, and writes the report to the front of the buffer where it fits; else the buffer
/// stays as it was.
///
/// Refused are, in this order, want of memory (`NoMemory`); too short a buffer (`BufferTooShort`),
/// and a call with a longer one judges the log again from its start; and a log that does not
/// conform: by the first line down to which no order explains it (`NoOrder`), by that with which a
/// bound is passed (`TooManyConfigurations`, `TooManyOpenCalls`), or else by the first line that is
/// not what is expected (`NoServiceLine`, `NoCallLine`, `NoReplyLine`, `CallerIsBusy`,
/// `NoOpenCall`, `CallerIsDead`, `UnknownCaller`, `NoNewline`, `CarriageReturn`, `NoStateLine`).
#[unsafe(no_mangle)]
pub extern "C" fn iox2sd_conform_run_at(alloc: Global, log: &[u8], out: &mut [u8]) -> ConformAnswer
    ensures { Answers log.now out.old result out.new }
{
    let Ok((verdict, text)) = report_log(alloc, log) else {
        return ConformAnswer {
            status: Status::NoMemory.code(),
            verdict: Status::NoMemory.code(),
            line: 0,
            calls: 0,
            length: 0,
        };
    };
    let status = if put(&text, out) {
        verdict_status(&verdict)
    } else {
        Status::BufferTooShort
    };
    ConformAnswer {
        status: status.code(),
        verdict: verdict_status(&verdict).code(),
        line: reported_line(&verdict),
        calls: conforming_calls(&verdict),
        length: text.len(),
    }
}
