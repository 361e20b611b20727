//! Lines of a log, and the names of callers and the numbers of services in them.
ghost use Rattle.std.specs.Prelude.{◌≡◌, ◌≢◌, ◌<◌, ◌^◌, ◌++◌, ℕ, List, Option};
ghost use Rattle.std.specs.Prelude.{IfNone, IfOk, IfSome, IsTrue, codes};
ghost use Rattle.std.specs.Option.{option_map};
ghost use Rattle.line_streams.specs.Spelling.{Reads};
ghost use Rattle.log_lines.specs.Commands.{Begun, HasBegun, begun_text};
ghost use Rattle.log_lines.specs.States.{HasState, State, state_text};
ghost use Rattle.log_lines.specs.Lines.{Comes, HasNone, HasNumber, IsCaller, IsLine, IsLineOf};
ghost use Rattle.log_lines.specs.Lines.{are_letters, is_note, line_seen, line_text, mark, number_text};
ghost use Rattle.service_descriptions.specs.Script.{IsServiceLine, service_line};

use super::command::{BegunCall, LogCommand, read_begun, read_command};
use super::state::{LogState, read_state};
use line_streams::{Number, Phrase, after_word};
use service_descriptions::replay::{ServiceLine, service_before};
use std::alloc::{AllocError, Global};

/// A line of a log that says something.
#[derive(Drop)]
pub enum LogLine<'a> {
    /// A service.
    Service(ServiceLine),
    /// A call alone, of no caller, with the number of its service or without. It begins and ends in
    /// the line of its reply, which follows.
    Call(Option<u64>, LogCommand),
    /// The words of the reply to the call alone above.
    Reply(&'a [u8]),
    /// The begin of a call: the number of its service or none, its caller, and what it begins.
    Begin(Option<u64>, &'a [u8], BegunCall),
    /// The end of a caller's call, with the words of its reply.
    End(&'a [u8], &'a [u8]),
    /// The caller died.
    Crash(&'a [u8]),
    /// What is given of a service that was in use: its number or none, and what it is.
    State(Option<u64>, LogState),
}

/// Whether a line says nothing: it is empty, or begins with `#`.
pub fn is_note(line: &[u8]) -> bool
    ensures { result ≡ is_note line.now }
{
    match line {
        [] => true,
        [first, ..] => *first == b'#',
    }
}

/// How many letters and digits the name of a caller has at most.
const MAX_NAME: usize = 16;

/// The letters and digits that begin the line, and what follows them.
pub(crate) fn split_name(line: &[u8]) -> (&[u8], &[u8])
    ensures { Comes line.now result.0.now result.1.now }
{
    for at in 0..line.len() {
        if !line[at].is_ascii_alphanumeric() {
            return (&line[..at], &line[at..]);
        }
    }
    (line, &[])
}

/// Whether letters and digits are the name of a caller.
pub(crate) fn is_caller(name: &[u8]) -> bool
    requires { IsTrue (are_letters name.now) }
    ensures yes { IsTrue result → IsCaller name.now }
    ensures no { IsCaller name.now → IsTrue result }
{
    !name.is_empty() && name.len() <= MAX_NAME
}

/// The number of a service that begins the line, and what follows it.
pub(crate) fn number_front(line: &[u8]) -> Option<(u64, &[u8])>
    ensures some { IfSome result (λ found.
        (found.0 < 2 ^ 64) × (line.now ≡ number_text found.0 ++ found.1.now)) }
    ensures none { IfNone result ((number : ℕ) (rest : List ℕ) → number < 2 ^ 64
        → line.now ≢ number_text number ++ rest) }
{
    let Some((number, rest)) = Number(u64::MAX).read(line) else {
        return None;
    };
    let Some(rest) = after_word(rest, b": ") else {
        return None;
    };
    Some((number, rest))
}

/// The byte that follows a name, or 0 where none does.
pub(crate) fn mark_of(rest: &[u8]) -> u8
    ensures { result ≡ mark rest.now }
{
    match rest {
        [] => 0,
        [first, ..] => *first,
    }
}

/// What this caller begins with the text.
fn begin_of<'a>(
    alloc: Global,
    number: Option<u64>,
    caller: &'a [u8],
    text: &[u8],
) -> Result<Option<LogLine<'a>>, AllocError>
    requires number { HasNumber number }
    requires letters { IsTrue (are_letters caller.now) }
    ensures some { IfOk result (λ found. IfSome found (λ line. IsLineOf number
        (caller.now ++ (codes "> " ++ text.now)) (line_seen line))) }
    ensures none { IfOk result (λ found. IfNone found ((begun : Begun)
        → IsCaller caller.now → HasBegun begun → text.now ≢ begun_text begun)) }
{
    if !is_caller(caller) {
        return Ok(None);
    }
    match read_begun(alloc, text)? {
        Some(begun) => Ok(Some(LogLine::Begin(number, caller, begun))),
        None => Ok(None),
    }
}

/// The state whose text this is.
#[inline(never)]
fn state_of<'a>(
    alloc: Global,
    number: Option<u64>,
    text: &[u8],
) -> Result<Option<LogLine<'a>>, AllocError>
    requires { HasNumber number }
    ensures some { IfOk result (λ found. IfSome found (λ line. IsLineOf number
        (codes "state " ++ text.now) (line_seen line))) }
    ensures none { IfOk result (λ found. IfNone found ((s : State) → HasState s
        → text.now ≢ state_text s)) }
{
    match read_state(alloc, text)? {
        Some(state) => Ok(Some(LogLine::State(number, state))),
        None => Ok(None),
    }
}

/// The begin of a call, the state or the call alone whose text this is, after the number of its
/// service. It begins with the name, and with what follows that.
#[inline(always)]
fn on_service<'a>(
    alloc: Global,
    number: Option<u64>,
    text: &'a [u8],
    name: &'a [u8],
    rest: &'a [u8],
) -> Result<Option<LogLine<'a>>, AllocError>
    requires number { HasNumber number }
    requires split { Comes text.now name.now rest.now }
    ensures some { IfOk result (λ found. IfSome found (λ line. IsLineOf number text.now
        (line_seen line))) }
    ensures none { IfOk result (λ found. IfNone found (HasNone text.now)) }
{
    if let Some(begun) = after_word(rest, b"> ") {
        return begin_of(alloc, number, name, begun);
    }
    if let Some(given) = after_word(text, b"state ") {
        return state_of(alloc, number, given);
    }
    match read_command(alloc, text)? {
        Some(command) => Ok(Some(LogLine::Call(number, command))),
        None => Ok(None),
    }
}

/// The line of a caller whose call ends, or who died, by its name and what follows that.
fn end_of<'a>(name: &'a [u8], rest: &'a [u8]) -> Option<LogLine<'a>>
    requires { IsTrue (are_letters name.now) }
    ensures some { IfSome result (λ found. IsLine (line_seen found)
        × (name.now ++ rest.now ≡ line_text (line_seen found))) }
    ensures ended { IfNone result ((words : List ℕ) → IsCaller name.now
        → rest.now ≢ codes "< " ++ words) }
    ensures died { IfNone result (IsCaller name.now → rest.now ≢ codes "!") }
{
    if !is_caller(name) {
        return None;
    }
    if let Some(words) = after_word(rest, b"< ") {
        return Some(LogLine::End(name, words));
    }
    if rest != b"!".as_slice() {
        return None;
    }
    Some(LogLine::Crash(name))
}

/// The service whose line this is.
fn service_of(alloc: Global, line: &[u8]) -> Result<Option<ServiceLine>, AllocError>
    ensures { IfOk result (λ found. Reads IsServiceLine service_line found line.now) }
{
    let Some(_) = after_word(line, b"service ") else {
        return Ok(None);
    };
    let mut whole = Vec::from_slice(alloc, line)?;
    whole.push(b'\n')?;
    let Some((service, rest)) = service_before(&whole) else {
        return Ok(None);
    };
    if !rest.is_empty() {
        return Ok(None);
    }
    Ok(Some(service))
}

/// Parses a line without its newline. Returns `None` where no line has this text.
///
/// The lines are those of services, the commands of scripts, `= WORDS`, `CALLER> COMMAND`,
/// `CALLER< WORDS` and `CALLER!`. A caller's name is one to sixteen ASCII letters and digits. A
/// removal may also be `deregister SLOT TICKET` or `release ROLE SLOT TICKET`. A caller may also
/// begin a weak listing, `list? ROLE` or `nodes?`.
///
/// These lines give what is there of a service that was in use: `state nodes USED`,
/// `state nodes USED locked`, `state ROLE USED`, `state SLOT TICKET register NODE` and
/// `state SLOT TICKET add ROLE PORT NODE`.
///
/// `7: ` before a command, the begin of a call or a `state` names the service with this number. No
/// line has two readings.
#[inline(always)]
pub fn read_log_line(alloc: Global, line: &[u8]) -> Result<Option<LogLine<'_>>, AllocError>
    ensures { IfOk result (λ found. Reads IsLine line_text (option_map line_seen found) line.now) }
{
    if let Some(words) = after_word(line, b"= ") {
        return Ok(Some(LogLine::Reply(words)));
    }
    let (name, rest) = split_name(line);
    let mark = mark_of(rest);
    if mark == b'<' || mark == b'!' {
        return Ok(end_of(name, rest));
    }
    if mark == b':' {
        let Some((number, text)) = number_front(line) else {
            return Ok(None);
        };
        let (name, rest) = split_name(text);
        return on_service(alloc, Some(number), text, name, rest);
    }
    if let Some(service) = service_of(alloc, line)? {
        return Ok(Some(LogLine::Service(service)));
    }
    on_service(alloc, None, line, name, rest)
}
