//! Logs that come from a stream.
ghost use Rattle.std.specs.Prelude.{◌≡◌, ◌<◌, IfErr, IfOk, IfSome, OnOk};
ghost use Rattle.std.specs.Io.KnownBytes.{IsAtEnd};
ghost use Rattle.line_streams.specs.Filters.{Ends, GivesUp};
ghost use Rattle.line_streams.specs.Streams.{IsFlushed, StreamFails};
ghost use Rattle.history_logs.specs.Logs.{Judged};
ghost use Rattle.history_logs.specs.Orders.{IsTextOf, Reported};
ghost use Rattle.history_logs.specs.Progress.{AddsCounts};
ghost use Rattle.history_logs.specs.Reports.{on_errors, on_output, status_of};

use super::progress::Progress;
use super::report::append_each;
use super::verdict::Verdict;
use super::{check_with, order_with, report_on};
use line_streams::{
    Outcome, Sink, Source, Status, read_all, report_failure, write_outcome, write_whole,
};
use std::alloc::{AllocError, Global};
use std::io;

/// What is reported of a log.
#[derive(Clone, Copy, Debug)]
pub enum Report {
    /// The verdict.
    Verdict,
    /// The verdict, and where the log conforms an order of the calls on each service.
    Witness,
}

/// The verdict on a log, and the text that reports it.
#[derive(Drop)]
struct Judgement {
    verdict: Verdict,
    text: Vec<u8>,
}

impl Outcome for Judgement {
    ghost status = { λ j. status_of j.verdict };

    ghost on_output = { λ j. on_output j.verdict j.text.items };

    ghost on_errors = { λ j. on_errors j.verdict j.text.items };

    fn status(&self) -> u8 {
        let status = match &self.verdict {
            Verdict::Conforms(_, _) => Status::Good,
            Verdict::Refused(_) => Status::Faulty,
            Verdict::ManyConfigs(_) | Verdict::ManyOpen(_) | Verdict::BadLine(_, _) => {
                Status::Unusable
            }
        };
        status.number()
    }

    fn output(&self) -> &[u8] {
        match &self.verdict {
            Verdict::Conforms(_, _) | Verdict::Refused(_) => self.text.as_slice(),
            Verdict::ManyConfigs(_) | Verdict::ManyOpen(_) | Verdict::BadLine(_, _) => &[],
        }
    }

    fn write_errors<E: Sink>(&self, errors: &mut E) -> io::Result<()> {
        match &self.verdict {
            Verdict::Conforms(_, _) | Verdict::Refused(_) => Ok(()),
            Verdict::ManyConfigs(_) | Verdict::ManyOpen(_) | Verdict::BadLine(_, _) => {
                write_whole(errors, &self.text)
            }
        }
    }
}

/// Judges the log: the verdict, and the text of what is to be reported.
fn verdict_on<P: Progress>(
    alloc: Global,
    log: &[u8],
    report: Report,
    progress: &mut P,
) -> Result<Judgement, AllocError>
    ensures judged { IfOk result (λ found. Judged log.now found.verdict) }
    ensures text { IfOk result (λ found.
        IsTextOf report log.now found.verdict found.text.items) }
    ensures progress { AddsCounts (P.contents progress.old) (P.contents progress.new) }
{
    match report {
        Report::Verdict => {
            let verdict = check_with(alloc, log, progress)?;
            let text = report_on(alloc, &verdict)?;
            Ok(Judgement { verdict, text })
        }
        Report::Witness => {
            let (verdict, orders) = order_with(alloc, log, progress)?;
            let mut text = report_on(alloc, &verdict)?;
            append_each(&orders, &mut text)?;
            Ok(Judgement { verdict, text })
        }
    }
}

/// The same, and progress ends.
fn judged<P: Progress>(
    alloc: Global,
    log: &[u8],
    report: Report,
    progress: &mut P,
) -> Result<Judgement, AllocError>
    ensures judged { IfOk result (λ found. Judged log.now found.verdict) }
    ensures text { IfOk result (λ found.
        IsTextOf report log.now found.verdict found.text.items) }
    ensures progress { AddsCounts (P.contents progress.old) (P.contents progress.new) }
{
    let found = verdict_on(alloc, log, report, progress);
    progress.end();
    found
}

/// Judges the log that the reader gives, and returns the status unless a stream fails.
#[tactic(auto, using(crate::proofs::Reports::no_counts))]
fn run<R: Source, W: Sink, E: Sink, P: Progress>(
    alloc: Global,
    input: &mut R,
    output: &mut W,
    errors: &mut E,
    progress: &mut P,
    report: Report,
) -> io::Result<u8>
    ensures ends { IfOk result (λ status. Ends (λ n. IfSome (R.remaining input.old)
        (λ log. Reported report log n (W.contents output.old) (W.contents output.new)
        (E.contents errors.old) (E.contents errors.new))) status
        (W.contents output.old) (W.contents output.new)
        (E.contents errors.old) (E.contents errors.new)) }
    ensures flushed { OnOk result
        (IsFlushed W.Flushes output.new × IsFlushed E.Flushes errors.new) }
    ensures read { IfOk result (λ status. status < 3 → IsAtEnd (R.remaining input.new)) }
    ensures failed { IfErr result (StreamFails R.FailsBy W.Writes W.FailsToFlush E.Writes
        E.FailsToFlush input.new output.old output.new errors.old errors.new) }
    ensures progress { AddsCounts (P.contents progress.old) (P.contents progress.new) }
{
    let end = match read_all(alloc, input)? {
        Ok(log) => judged(alloc, &log, report, progress),
        Err(why) => Err(why),
    };
    write_outcome(output, errors, &end)
}

/// Judges the log that the reader gives, and answers the status of the program.
///
/// - 0: orders of the calls explain the replies. `conforms, N calls on M services` was written to
///   `output`. For a witness there is below that an order for each service, as `order_log` has it:
///   a line `service N`, and then the lines in which the calls on it begin, in the order in which
///   they took effect, one a line.
/// - 1: none do. The first reply that none explains was written to `output`: its line, its words,
///   the command of its call, the line from which the window is open, and the lines of the calls
///   that are needed. Below them stands of each configuration which open calls were made, each
///   reply that the call could have had, and the nodes and ports that are there.
/// - 2: a line is not what it should be, or passes a bound, so the log is not decided. The number
///   of the line was written to `errors`, with what is expected there or the bound.
/// - 3: memory was refused, and `no memory` was written to `errors`. Or a read, a write or a flush
///   failed, for any cause, and `a stream failed` was written to `errors`, if that took it.
///
/// Progress counts the lines as they are read. Where a log does not conform, it counts from the
/// first line again, but for a witness. It ends before the report is written.
pub fn check_streams<R: Source, W: Sink, E: Sink, P: Progress>(
    alloc: Global,
    input: &mut R,
    output: &mut W,
    errors: &mut E,
    progress: &mut P,
    report: Report,
) -> u8
    ensures range { result < 4 }
    // A status below 3 is that of a verdict on the log, and the writers got what fits it.
    ensures reported { result < 3 → IfSome (R.remaining input.old)
        (λ log. Reported report log result (W.contents output.old) (W.contents output.new)
        (E.contents errors.old) (E.contents errors.new)) }
    // Both writers were flushed last.
    ensures flushed { result < 3
        → IsFlushed W.Flushes output.new × IsFlushed E.Flushes errors.new }
    // All input was read.
    ensures read { result < 3 → IsAtEnd (R.remaining input.new) }
    // Memory was refused, or a read, a write or a flush failed, and that was reported. Where the
    // read failed, nothing was written before that.
    ensures failed { result ≡ 3 → GivesUp R.FailsBy W.contents W.Writes W.FailsToFlush E.contents
        E.Writes E.FailsToFlush input.new output.old output.new errors.old errors.new }
    // Progress wrote counts of lines, and nothing else.
    ensures progress { AddsCounts (P.contents progress.old) (P.contents progress.new) }
{
    let end = run(alloc, input, output, errors, progress, report);
    report_failure(errors, end)
}
