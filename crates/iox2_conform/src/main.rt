//! Judges the log on standard input, and writes the verdict to standard output.
#![tactic(auto)]

ghost use Rattle.std.specs.Prelude.{◌≡◌, ◌<◌, ◌⊎◌};
ghost use Rattle.history_logs.specs.Progress.{AddsCounts};
ghost use Rattle.line_streams.specs.Filters.{GivesUp};
ghost use Rattle.line_streams.specs.Streams.{IsFlushed};
ghost use Rattle.iox2_conform.specs.Program.{Ran, RequestsCheck, RequestsProgress, text_on_errors};
ghost use Rattle.iox2_conform.specs.Program.{text_on_output, text_status};

mod request;

use history_drawing::draw_streams;
use history_logs::logs::{Counts, NoProgress, Progress, check_streams};
use line_streams::{Outcome, Sink, Source, Status, report_failure, write_outcome, write_whole};
use request::{Request, RequestError, request_of};
use std::alloc::{AllocError, Global};
use std::env::Args;
use std::io::IsTerminal;
use std::process::ExitCode;
use std::{env, io};

/// How the program is used.
const HELP: &str = "usage: iox2-conform [--witness] [--progress] < LOG
       iox2-conform svg | -h | --help | --version

Reads the log of services from standard input: the line of a service, and then what was seen of it,
in the order of time. `A> COMMAND` begins a call of the caller A, `A< WORDS` ends it with the reply
that was seen, and `A!` says that A died. A command with `= WORDS` below it is a call that overlaps
nothing. Where there are several services, `7: ` before a command or a begin names the one with the
number 7. Writes whether an order of the calls, each between its begin and its end, explains all
replies by the sequential specification. If not, it writes the first line down to which none does,
and of the reply that none explains then, in that line or above it: its call, the line from which
calls overlap, each reply that the call could have had, and who was attached then.

  svg        write a picture instead: the calls of the window of the refused reply, or all calls
             of a log that conforms, with the points at which they took effect
  --witness  write an order of the calls on each service too, where the log conforms: the lines
             in which they begin, one a line
  --progress show how many lines were read, once a second, where standard error is a terminal
  -h, --help write this text and read nothing
  --version  write the version and read nothing

docs/CONFORM.md has the lines of logs, docs/SCRIPT.md has commands and replies. Lines that are empty
or begin with # are notes. The status is 0 where the log conforms, 1 where it does not, 2 after a
bad argument or line, where too many calls are open or orders of them are possible, or where a
picture would have over 200 calls, 3 where memory was refused or reading or writing failed.
";

/// The version of the program, and that of the iceoryx2 whose layer it checks.
const VERSION: &str = "iox2-conform 0.1.0 (iceoryx2 0.9.3)\n";

/// What is reported of arguments that the program does not know.
const BAD_ARGUMENT: &str = "bad argument: expected svg, --witness, --progress, -h, --help, \
    --version, or no argument; the log is read from standard input\n";

/// What is written where no log is read.
#[derive(Drop)]
enum Text {
    /// How the program is used.
    Help,
    /// The version.
    Version,
    /// That the arguments are bad.
    BadArgument,
}

impl Outcome for Text {
    ghost status = { text_status };

    ghost on_output = { text_on_output };

    ghost on_errors = { text_on_errors };

    fn status(&self) -> u8 {
        let status = match self {
            Text::Help | Text::Version => Status::Good,
            Text::BadArgument => Status::Unusable,
        };
        status.number()
    }

    fn output(&self) -> &[u8] {
        match self {
            Text::Help => HELP.as_bytes(),
            Text::Version => VERSION.as_bytes(),
            Text::BadArgument => &[],
        }
    }

    fn write_errors<E: Sink>(&self, errors: &mut E) -> io::Result<()> {
        match self {
            Text::Help | Text::Version => Ok(()),
            Text::BadArgument => write_whole(errors, BAD_ARGUMENT.as_bytes()),
        }
    }
}

/// Judges the log that the reader gives, or writes how the program is used or its version, and
/// returns its status. The first argument is the program's name. What progress writes goes to a
/// writer of its own, which may be standard error too.
///
/// - 0: the log conforms, or the text was written.
/// - 1: the log does not conform.
/// - 2: an argument or a line is bad, a bound on open calls or configurations was passed, or there
///   are more calls than a picture can have.
/// - 3: memory was refused, or a read, a write or a flush failed.
fn conform_streams<R: Source, W: Sink, E: Sink, P: Progress>(
    alloc: Global,
    arguments: io::Result<Args>,
    input: &mut R,
    output: &mut W,
    errors: &mut E,
    progress: &mut P,
) -> u8
    ensures range { result < 4 }
    ensures ran { result < 3 → Ran arguments result
        (R.remaining input.old) (R.remaining input.new)
        (W.contents output.old) (W.contents output.new)
        (E.contents errors.old) (E.contents errors.new) }
    // Nothing was read but for a check or a picture.
    ensures unread { (input.new ≡ input.old) ⊎ RequestsCheck arguments }
    // Both writers were flushed last.
    ensures flushed { result < 3
        → IsFlushed W.Flushes output.new × IsFlushed E.Flushes errors.new }
    // Memory was refused, or a read, a write or a flush failed, and that was reported. Where the
    // read failed, nothing was written before that.
    ensures failed { result ≡ 3 → GivesUp R.FailsBy W.contents W.Writes W.FailsToFlush E.contents
        E.Writes E.FailsToFlush input.new output.old output.new errors.old errors.new }
    // Progress wrote counts of lines alone, and nothing where it was not requested.
    ensures progress { AddsCounts (P.contents progress.old) (P.contents progress.new) }
    ensures still { ¬ (RequestsProgress arguments) → progress.new ≡ progress.old }
{
    let text = match request_of(arguments) {
        Ok(Request::Check(report)) => {
            return check_streams(alloc, input, output, errors, &mut NoProgress, report);
        }
        Ok(Request::CheckWithProgress(report)) => {
            return check_streams(alloc, input, output, errors, progress, report);
        }
        Ok(Request::Picture) => return draw_streams(alloc, input, output, errors),
        Ok(Request::Help) => Ok(Text::Help),
        Ok(Request::Version) => Ok(Text::Version),
        Err(RequestError::BadArgument) => Ok(Text::BadArgument),
        Err(RequestError::NoMemory) => Err(AllocError),
    };
    let end = write_outcome(output, errors, &text);
    report_failure(errors, end)
}

fn main(rt: HostRuntime) -> ExitCode {
    let terminal = rt.stderr().is_terminal();
    ExitCode::from(conform_streams(
        rt.alloc(),
        env::args(&rt),
        &mut rt.stdin(),
        &mut rt.stdout(),
        &mut rt.stderr(),
        &mut Counts::new(rt.alloc(), &rt, rt.stderr(), terminal),
    ))
}
