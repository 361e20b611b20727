//! Pictures of logs that come from a stream.
ghost use Rattle.std.specs.Prelude.{◌≡◌, ◌<◌, IfErr, IfOk, IfSome, OnOk, string_bytes};
ghost use Rattle.std.specs.Io.KnownBytes.{IsAtEnd};
ghost use Rattle.line_streams.specs.Filters.{Ends, GivesUp, status_number};
ghost use Rattle.line_streams.specs.Streams.{IsFlushed, StreamFails};
ghost use Rattle.history_drawing.specs.Drawings.{DrawnWith};

use crate::drawing::{Drawing, draw_log};
use line_streams::{Outcome, Sink, Source, read_all, report_failure, write_outcome, write_whole};
use std::alloc::{AllocError, Global};
use std::io;

impl Outcome for Drawing {
    ghost status = { λ d. status_number d.status };

    ghost on_output = { λ d. string_bytes d.picture };

    ghost on_errors = { λ d. d.message.items };

    fn status(&self) -> u8 {
        self.status.number()
    }

    fn output(&self) -> &[u8] {
        self.picture.as_bytes()
    }

    fn write_errors<E: Sink>(&self, errors: &mut E) -> io::Result<()> {
        write_whole(errors, &self.message)
    }
}

/// Draws the log that the reader gives, and returns the status unless a stream fails.
fn run<R: Source, W: Sink, E: Sink>(
    alloc: Global,
    input: &mut R,
    output: &mut W,
    errors: &mut E,
) -> io::Result<u8>
    ensures ends { IfOk result (λ status. Ends (λ n. IfSome (R.remaining input.old)
        (λ log. DrawnWith log n (W.contents output.old) (W.contents output.new)
        (E.contents errors.old) (E.contents errors.new))) status
        (W.contents output.old) (W.contents output.new)
        (E.contents errors.old) (E.contents errors.new)) }
    ensures flushed { OnOk result
        (IsFlushed W.Flushes output.new × IsFlushed E.Flushes errors.new) }
    ensures read { IfOk result (λ status. status < 3 → IsAtEnd (R.remaining input.new)) }
    ensures failed { IfErr result (StreamFails R.FailsBy W.Writes W.FailsToFlush E.Writes
        E.FailsToFlush input.new output.old output.new errors.old errors.new) }
{
    let end = match read_all(alloc, input)? {
        Ok(log) => draw_log(alloc, &log),
        Err(why) => Err(why),
    };
    write_outcome(output, errors, &end)
}

/// Draws the log that the reader gives, and answers the status of the program.
///
/// - 0: orders of the calls explain the replies. A picture of all calls was written to `output`.
/// - 1: none do. A picture of the window of the first reply that none explains was written to
///   `output`.
/// - 2: a line is not what it should be, a bound is passed with it, or there are more calls than a
///   picture can have. What is wrong was written to `errors`.
/// - 3: memory was refused, and `no memory` was written to `errors`; or a read, a write or a flush
///   failed, for any cause, and it was tried to write `a stream failed` to `errors`.
pub fn draw_streams<R: Source, W: Sink, E: Sink>(
    alloc: Global,
    input: &mut R,
    output: &mut W,
    errors: &mut E,
) -> u8
    ensures range { result < 4 }
    // A status below 3 says what was drawn of the log, and the writers got it.
    ensures drawn { result < 3 → IfSome (R.remaining input.old)
        (λ log. DrawnWith log result (W.contents output.old) (W.contents output.new)
        (E.contents errors.old) (E.contents errors.new)) }
    // Both writers were flushed last.
    ensures flushed { result < 3
        → IsFlushed W.Flushes output.new × IsFlushed E.Flushes errors.new }
    // All input was read.
    ensures read { result < 3 → IsAtEnd (R.remaining input.new) }
    // Memory was refused, or a read, a write or a flush failed, and that was reported. Where the
    // read failed, nothing was written before that.
    ensures failed { result ≡ 3 → GivesUp R.FailsBy W.contents W.Writes W.FailsToFlush E.contents
        E.Writes E.FailsToFlush input.new output.old output.new errors.old errors.new }
{
    let end = run(alloc, input, output, errors);
    report_failure(errors, end)
}
