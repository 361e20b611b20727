//! The lines of a log, and its calls by them.
ghost use Rattle.std.specs.Prelude.{◌≡◌, ◌+◌, ℕ, IfNone, IfOk, IfSome, List, Option, drop};
ghost use Rattle.log_lines.specs.Commands.{Begun, NamedCommand};
ghost use Rattle.log_lines.specs.Laws.{IsAlike};
ghost use Rattle.log_lines.specs.Lines.{line_seen};
ghost use Rattle.log_lines.specs.Lines.Line.{begin, call, reply, service};
ghost use Rattle.history_drawing.specs.Calls.{BeginsIn, EndsFrom, EndsIn, IsAlone, IsBehind, IsFirstService};
ghost use Rattle.history_drawing.specs.Calls.{Says, text_above, text_at};
ghost use Rattle.service_descriptions.specs.declared.replay.lines.line.ServiceLine.{ServiceLine};
ghost use Rattle.history_drawing.specs.declared.calls.LogCall.{LogCall};
ghost use Rattle.history_drawing.specs.declared.timeline.BarEnd.{BarEnd};
ghost use Rattle.history_drawing.specs.Drawings.{AreLines};

use crate::timeline::BarEnd;
use line_streams::{after_word, before_byte};
use log_lines::{LogLine, is_note, read_log_line};
use std::alloc::{AllocError, Global};

/// The whole lines of a text, each at the index of its number. At 0 stands an empty one.
pub(crate) fn lines_of(alloc: Global, text: &[u8]) -> Result<Vec<&[u8]>, AllocError>
    ensures { IfOk result (λ lines. AreLines text.now lines.items) }
{
    let mut lines = Vec::new(alloc);
    let none: &[u8] = b"";
    lines.push(none)?;
    let mut rest = text;
    while let Some((line, after)) = before_byte(rest, b'\n') {
        lines.push(line)?;
        rest = after;
    }
    Ok(lines)
}

/// The lines below the one with number 1.
pub(crate) fn below_first<'b, 'a>(lines: &'b [&'a [u8]]) -> &'b [&'a [u8]]
    ensures { result.now ≡ drop 2 lines.now }
{
    match lines {
        [_, _, below @ ..] => below,
        _ => &[],
    }
}

/// A call that begins in a line.
#[derive(Clone, Copy)]
pub(crate) struct LogCall<'a> {
    /// The number of its service, where it is named.
    pub(crate) service: Option<u64>,
    /// Its caller; empty where the call is alone.
    pub(crate) caller: &'a [u8],
    /// The text of its command.
    pub(crate) command: &'a [u8],
    pub(crate) end: BarEnd<'a>,
}

/// The text of a line.
pub(crate) fn text_at<'a>(lines: &[&'a [u8]], line: usize) -> &'a [u8]
    ensures { result.now ≡ text_at lines.now line }
{
    if line < lines.len() { lines[line] } else { b"" }
}

/// What stands behind the first `> `.
fn behind_mark(text: &[u8]) -> &[u8]
    ensures { IsBehind text.now result.now }
{
    let Some((_, rest)) = before_byte(text, b'>') else {
        return b"";
    };
    match after_word(rest, b" ") {
        Some(rest) => rest,
        None => b"",
    }
}

/// The text of the last line above this one that is no note.
fn text_above<'a>(lines: &[&'a [u8]], line: usize) -> &'a [u8]
    ensures { result.now ≡ text_above lines.now line }
{
    let mut at = line;
    while at > 0 {
        at -= 1;
        let text = text_at(lines, at);
        if !is_note(text) {
            return text;
        }
    }
    b""
}

/// How a text, in the line of this number, ends a caller's call.
fn end_in<'a>(text: &'a [u8], line: usize, caller: &[u8]) -> Option<BarEnd<'a>>
    ensures some { IfSome result (λ end. EndsIn text.now line caller.now end) }
    ensures none { IfNone result ((end : BarEnd) → ¬ (EndsIn text.now line caller.now end)) }
{
    let Some(rest) = after_word(text, caller) else {
        return None;
    };
    if let Some(words) = after_word(rest, b"< ") {
        return Some(BarEnd::Answered(line, words));
    }
    let Some(rest) = after_word(rest, b"!") else {
        return None;
    };
    if !rest.is_empty() {
        return None;
    }
    Some(BarEnd::Crashed(line))
}

/// How a caller's call that begins in this line ends, in the lines below it up to the last one.
fn end_below<'a>(lines: &[&'a [u8]], caller: &[u8], line: usize, last: usize) -> BarEnd<'a>
    ensures { EndsFrom lines.now caller.now (line + 1) (last + 1) result }
{
    for above in line..last {
        if let Some(end) = end_in(text_at(lines, above + 1), above + 1, caller) {
            return end;
        }
    }
    BarEnd::Open
}

/// The number of the service and the caller of a line that begins a call.
fn begun<'a>(read: &LogLine<'a>) -> Option<(Option<u64>, &'a [u8])>
    ensures some { IfSome result (λ found. (b : Begun)
        × (line_seen read.now ≡ begin found.0 found.1.now b)) }
    ensures none { IfNone result ((number : Option ℕ) (caller : List ℕ) (b : Begun)
        → ¬ IsAlike (line_seen read.now) (begin number caller b)) }
{
    match read {
        LogLine::Begin(service, caller, _) => Some((*service, caller)),
        _ => None,
    }
}

/// The words of a line that is a reply.
fn replied<'a>(read: &LogLine<'a>) -> Option<&'a [u8]>
    ensures some { IfSome result (λ words. line_seen read.now ≡ reply words.now) }
    ensures none { IfNone result ((words : List ℕ)
        → ¬ IsAlike (line_seen read.now) (reply words)) }
{
    match read {
        LogLine::Reply(words) => Some(words),
        _ => None,
    }
}

/// The number of the service of a line that is a call alone.
fn called(read: &LogLine<'_>) -> Option<Option<u64>>
    ensures some { IfSome result (λ number. (c : NamedCommand)
        × (line_seen read.now ≡ call number c)) }
    ensures none { IfNone result ((number : Option ℕ) (c : NamedCommand)
        → ¬ IsAlike (line_seen read.now) (call number c)) }
{
    match read {
        LogLine::Call(service, _) => Some(*service),
        _ => None,
    }
}

/// The call whose command stands above the line of its reply.
fn alone_in<'a>(
    alloc: Global,
    lines: &[&'a [u8]],
    line: usize,
    words: &'a [u8],
) -> Result<Option<LogCall<'a>>, AllocError>
    requires { Says lines.now line (reply words.now) }
    ensures some { IfOk result (λ found. IfSome found (λ seen. IsAlone lines.now line seen)) }
    ensures none { IfOk result (λ found. IfNone found ((seen : LogCall)
        → ¬ (IsAlone lines.now line seen))) }
{
    let command = text_above(lines, line);
    let Some(read) = read_log_line(alloc, command)? else {
        return Ok(None);
    };
    let Some(service) = called(&read) else {
        return Ok(None);
    };
    Ok(Some(LogCall {
        service,
        caller: b"",
        command,
        end: BarEnd::Answered(line, words),
    }))
}

/// The call that begins in this line, with its end up to the last one.
pub(crate) fn call_at<'a>(
    alloc: Global,
    lines: &[&'a [u8]],
    line: usize,
    last: usize,
) -> Result<Option<LogCall<'a>>, AllocError>
    ensures some { IfOk result (λ found. IfSome found (λ seen.
        BeginsIn lines.now line (last + 1) seen)) }
    ensures none { IfOk result (λ found. IfNone found ((seen : LogCall)
        → ¬ (BeginsIn lines.now line (last + 1) seen))) }
{
    let text = text_at(lines, line);
    let Some(read) = read_log_line(alloc, text)? else {
        return Ok(None);
    };
    if let Some((service, caller)) = begun(&read) {
        return Ok(Some(LogCall {
            service,
            caller,
            command: behind_mark(text),
            end: end_below(lines, caller, line, last),
        }));
    }
    let Some(words) = replied(&read) else {
        return Ok(None);
    };
    let found = alone_in(alloc, lines, line, words)?;
    Ok(found)
}

/// The number of the service that a line names.
fn named(read: &LogLine<'_>) -> Option<u64>
    ensures some { IfSome result (λ number. (s : ServiceLine)
        × (line_seen read.now ≡ service s) × (s.number ≡ number)) }
    ensures none { IfNone result ((s : ServiceLine)
        → ¬ IsAlike (line_seen read.now) (service s)) }
{
    match read {
        LogLine::Service(service) => Some(service.number),
        _ => None,
    }
}

/// The number of the service that the line of this number names.
fn service_in(alloc: Global, lines: &[&[u8]], line: usize) -> Result<Option<u64>, AllocError>
    ensures some { IfOk result (λ found. IfSome found (λ number. (s : ServiceLine)
        × Says lines.now line (service s) × (s.number ≡ number))) }
    ensures none { IfOk result (λ found. IfNone found ((s : ServiceLine)
        → ¬ (Says lines.now line (service s)))) }
{
    let Some(read) = read_log_line(alloc, text_at(lines, line))? else {
        return Ok(None);
    };
    Ok(named(&read))
}

/// The number of the first service.
pub(crate) fn first_service(alloc: Global, lines: &[&[u8]]) -> Result<Option<u64>, AllocError>
    ensures { IfOk result (IsFirstService lines.now) }
{
    for line in 0..lines.len() {
        if let Some(number) = service_in(alloc, lines, line)? {
            return Ok(Some(number));
        }
    }
    Ok(None)
}
