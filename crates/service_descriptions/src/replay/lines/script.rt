//! Scripts, whole or from a stream.
ghost use Rattle.std.specs.Prelude.{◌≡◌, ◌++◌, ◌<◌, [], List, ℕ, IfErr, IfOk, IfSome, OnErr};
ghost use Rattle.std.specs.Io.KnownBytes.{IsAtEnd};
ghost use Rattle.std.specs.Option.{option_map};
ghost use Rattle.line_streams.specs.Streams.{IsFlushed, StreamFails};
ghost use Rattle.service_descriptions.specs.declared.replay.lines.script.ScriptError.TheVariants.{NoMemory};
ghost use Rattle.service_descriptions.specs.Script.{LinesEnd, RanLine, Scripted};
ghost use Rattle.service_descriptions.specs.Script.{error_text, status_of, Reported};

use super::line::{command_before, service_before};
use super::reply_line::write_line;
use crate::replay::machine::Session;
use iox2_dynamic::dynamic_config::MessagingPatternSettings;
use itoa::Buffer;
use line_streams::{LineEnd, Outcome, Sink, Source, run_filter, write_whole};
use std::alloc::{AllocError, Global};
use std::io;
use std::io::Error;
use thiserror::Error;

/// Why a script was not run to its end.
#[derive(Debug, Drop, Error)]
pub enum ScriptError {
    /// The line of this number is not one that may stand there, or has no newline. Lines are
    /// numbered from 1, and a script without a line is bad at 1.
    #[error("bad line {0}")]
    BadLine(usize),
    /// Memory was refused.
    #[error("no memory")]
    NoMemory(AllocError),
}

impl From<AllocError> for ScriptError {
    ghost from_gives = { λ why e. e ≡ NoMemory why };

    fn from(why: AllocError) -> Self {
        ScriptError::NoMemory(why)
    }
}

/// How many bytes a line has on average, or more.
const BYTES_OF_LINE: usize = 16;

/// How many bytes of lines there are for a byte of replies, or more.
const BYTES_FOR_REPLY: usize = 2;

/// Runs the first line, and gives the lines after it. `None` where it is not a command's line.
#[inline(always)]
fn run_line<'a>(
    alloc: Global,
    session: &mut Session,
    lines: &'a [u8],
    out: &mut Vec<u8>,
) -> Result<Option<&'a [u8]>, AllocError>
    ensures ok { IfOk result (λ found. RanLine session.old lines.now out.old.items
        (option_map (λ rest. rest.now) found) session.new out.new.items) }
    ensures err { OnErr result (out.new.items ≡ out.old.items) }
{
    let Some((command, rest)) = command_before(alloc, lines, LineEnd::Newline)? else {
        return Ok(None);
    };
    match session.serve_line(&command) {
        Ok(answer) => write_line(answer, session.service(), out)?,
        Err(refused) => return Err(refused),
    }
    Ok(Some(rest))
}

/// Runs the lines after the service line.
fn run_lines(
    alloc: Global,
    session: &mut Session,
    lines: &[u8],
    out: &mut Vec<u8>,
) -> Result<(), ScriptError>
    ensures { (text : List ℕ) × (out.new.items ≡ out.old.items ++ text)
        × LinesEnd session.old lines.now result text }
{
    let mut rest = lines;
    let mut count = 0;
    while rest.len() > 0 {
        let Some(tail) = run_line(alloc, session, rest, out)? else {
            return Err(ScriptError::BadLine(count + 2));
        };
        rest = tail;
        count += 1;
    }
    Ok(())
}

/// Runs a script, and appends its reply lines.
///
/// The first line is `service PATTERN NUMBER NODES FIRST SECOND`, where the pattern is
/// `publish-subscribe`, `event`, `request-response` or `blackboard` and the others are the number
/// of the service (`u64`) and the capacities (`usize`) for nodes, for the ports that are recovered
/// first (publishers, listeners, servers, readers) and for the other ports. Each later line is a
/// command as [`read_line`](super::read_line) reads it. Every line ends with a newline.
///
/// At a bad line the replies to all commands before it have been appended. Where memory is refused,
/// nothing has been appended, or the whole reply lines of some first commands.
///
/// From `crates/services_tests/src/replay/scripts.rt`:
///
/// ```
/// let mut out = Vec::new(rt.alloc());
/// let end = match run_script(rt.alloc(), script.as_bytes(), &mut out) {
///     Ok(()) => None,
///     Err(ScriptError::BadLine(line)) => Some(line),
///     Err(ScriptError::NoMemory(_)) => Some(0),
/// };
/// ```
pub fn run_script(alloc: Global, script: &[u8], out: &mut Vec<u8>) -> Result<(), ScriptError>
    ensures { (text : List ℕ) × (out.new.items ≡ out.old.items ++ text)
        × Scripted script.now result text }
{
    let Some((service, lines)) = service_before(script) else {
        return Err(ScriptError::BadLine(1));
    };
    let settings = MessagingPatternSettings::new(service.pattern, service.first, service.second);
    // Memory for what lines and replies are likely to need; more is taken bit by bit.
    let commands = lines.len() / BYTES_OF_LINE;
    out.reserve(lines.len() / BYTES_FOR_REPLY)?;
    let mut session = Session::new(
        alloc,
        &settings,
        service.max_nodes,
        service.number,
        commands,
    )?;
    let end = run_lines(alloc, &mut session, lines, out);
    drop(session);
    end
}

/// The reply lines of a script, and how it ended.
#[derive(Drop)]
struct Replies {
    text: Vec<u8>,
    end: Result<(), ScriptError>,
}

impl Outcome for Replies {
    ghost status = { λ replies. status_of replies.end };

    ghost on_output = { λ replies. replies.text.items };

    ghost on_errors = { λ replies. error_text replies.end };

    fn status(&self) -> u8 {
        match &self.end {
            Ok(()) => 0,
            Err(ScriptError::BadLine(_)) => 1,
            Err(ScriptError::NoMemory(_)) => 2,
        }
    }

    fn output(&self) -> &[u8] {
        &self.text
    }

    fn write_errors<E: Sink>(&self, errors: &mut E) -> io::Result<()> {
        match &self.end {
            Ok(()) => Ok(()),
            Err(ScriptError::BadLine(line)) => {
                let mut digits = Buffer::new();
                write_whole(errors, b"bad line ")?;
                write_whole(errors, digits.format(*line).as_bytes())?;
                write_whole(errors, b"\n")
            }
            Err(ScriptError::NoMemory(_)) => write_whole(errors, b"no memory\n"),
        }
    }
}

/// Runs the script that was read.
fn run(alloc: Global, read: Result<Vec<u8>, AllocError>) -> Replies
    ensures ran { IfOk read (λ script. Scripted script.items result.end result.text.items) }
    ensures refused { IfErr read (λ why.
        (result.end ≡ Err (NoMemory why)) × (result.text.items ≡ [])) }
{
    let mut text = Vec::new(alloc);
    let end = match read {
        Ok(script) => run_script(alloc, &script, &mut text),
        Err(why) => Err(ScriptError::NoMemory(why)),
    };
    Replies { text, end }
}

/// Runs the script of the reader, writes its reply lines to `output`, and returns the status of the
/// program.
///
/// - 0: the whole input was read and run.
/// - 1: it is bad at line N. The replies to all commands before it were written, and `bad line N`
///   to `errors`.
/// - 2: memory was refused. Nothing was written, or the whole reply lines of some first commands,
///   and `no memory` to `errors`.
/// - 3: a read, a write or a flush failed, for any cause. Nothing was done to that stream after it.
///
/// From `crates/iox2_replay/src/main.rt`:
///
/// ```
/// ExitCode::from(run_streams(
///     rt.alloc(),
///     &mut rt.stdin(),
///     &mut rt.stdout(),
///     &mut rt.stderr(),
/// ))
/// ```
pub fn run_streams<R: Source, W: Sink, E: Sink>(
    alloc: Global,
    input: &mut R,
    output: &mut W,
    errors: &mut E,
) -> u8
    ensures range { result < 4 }
    // A status below 3 is that of the script's end, and the writers got what fits it.
    ensures reported { result < 3 → IfSome (R.remaining input.old) (λ script.
        Reported script result
        (W.contents output.old) (W.contents output.new)
        (E.contents errors.old) (E.contents errors.new)) }
    // Both writers were flushed last.
    ensures flushed { result < 3
        → IsFlushed W.Flushes output.new × IsFlushed E.Flushes errors.new }
    // A read, a write or a flush failed, and that stream was left as it was then.
    ensures failed { result ≡ 3 → (e : Error) × StreamFails R.FailsBy W.Writes W.FailsToFlush
        E.Writes E.FailsToFlush input.new output.old output.new errors.old errors.new e }
    // All input was read, unless memory ran out.
    ensures read { result < 2 → IsAtEnd (R.remaining input.new) }
{
    run_filter(alloc, input, output, errors, |script| run(alloc, script)).unwrap_or(3)
}
