//! Judging what was seen of a service.
ghost use Rattle.std.specs.Prelude.{◌≡◌, ◌+◌, ◌<◌, ◌++◌, ◌≤◌, ◌↔◌, ℕ, IfOk, IsTrue, List, OnOk};
ghost use Rattle.std.specs.Prelude.{Some, length, slice_get, take};
ghost use Rattle.std.specs.Int.{bit_at};
ghost use Rattle.std.specs.List.{AllZip};
ghost use Rattle.histories.specs.declared.window.Stop.TheVariants as stop;
ghost use Rattle.histories.specs.declared.front.Event.TheVariants as event;
ghost use Rattle.histories.specs.Histories.{StandsAt};
ghost use Rattle.histories.specs.Windows.{IsBusyFrom, IsStop, IsVerdict, IsWindowOf};
ghost use Rattle.log_lines.specs.Lines.{IsLine, Line, line_seen, line_text};
ghost use Rattle.service_conformance.specs.Judged.{Judged};
ghost use Rattle.history_logs.specs.Good.{IsOrderly};
ghost use Rattle.history_logs.specs.Judging.{AreBelow, AreLines, AreLinesTo, Explores};
ghost use Rattle.history_logs.specs.Judging.{IsRefusedIn, IsReportOf};
ghost use Rattle.history_logs.specs.Judging.{comes_before, earlier, is_refused};
ghost use Rattle.history_logs.specs.Logs.{IsReported, StepOf, first_lines, news};
ghost use Rattle.history_logs.specs.EventLines.{Answers, HasEventLines, IsCommandOf, IsLineAt, IsNoteOrReply};

use super::needed::{first_states, lines_needed};
use super::service::LogService;
use super::verdict::{Configuration, Refusal, Verdict};
use histories::{Config, Cut, Event, Machine, Verdict as Found, Window, judge_windows};
use line_streams::{after_word, before_byte};
use log_lines::{LogLine, is_note, read_log_line};
use service_conformance::conformance::{Calls, WatchedService, possible_replies};
use std::alloc::{AllocError, Global};

/// Whether the call of the slot waits.
fn is_waiting(waiting: u64, slot: usize) -> bool
    requires { slot < 64 }
    ensures { IsTrue result ↔ (bit_at waiting slot ≡ 1) }
{
    waiting >> slot & 1 == 1
}

/// Adds the line in which the call of the slot begins, if it was made.
fn add_line(
    begins: &[usize],
    slots: &[Option<usize>],
    waiting: u64,
    slot: usize,
    lines: &mut Vec<usize>,
) -> Result<(), AllocError>
    requires within { slot < length slots.now }
    requires few { length slots.now ≤ 64 }
    requires below { AreBelow slots.now (length begins.now) }
    ensures { OnOk result (AreLinesTo begins.now slots.now waiting slot lines.old.items
        → AreLinesTo begins.now slots.now waiting (slot + 1) lines.new.items) }
{
    let Some(call) = slots[slot] else {
        return Ok(());
    };
    if is_waiting(waiting, slot) {
        return Ok(());
    }
    lines.push(begins[call])?;
    Ok(())
}

/// The lines in which the open calls begin that were made in the configuration, in rising order.
fn lines_made(
    alloc: Global,
    begins: &[usize],
    slots: &[Option<usize>],
    waiting: u64,
) -> Result<Vec<usize>, AllocError>
    requires few { length slots.now ≤ 64 }
    requires below { AreBelow slots.now (length begins.now) }
    ensures { IfOk result (λ lines. AreLines begins.now slots.now waiting lines.items) }
{
    let mut lines = Vec::new(alloc);
    for slot in 0..slots.len() {
        add_line(begins, slots, waiting, slot, &mut lines)?;
    }
    lines.sort_unstable();
    lines.dedup();
    Ok(lines)
}

/// What is reported of a configuration in which the call is refused.
fn configuration(
    alloc: Global,
    service: &LogService,
    slots: &[Option<usize>],
    config: &Config<WatchedService>,
    call: usize,
) -> Result<Configuration, AllocError>
    requires few { length slots.now ≤ 64 }
    requires below { AreBelow slots.now (length service.now.begins) }
    requires within { call < length service.now.calls }
    requires whole { service.now.first ≡ 0 }
    ensures { IfOk result (λ reported. (c : Judged) × (slice_get service.now.calls call ≡ Some c)
        × IsReported service.now c slots.now config.now reported) }
{
    Ok(Configuration {
        made: lines_made(alloc, service.begins(), slots, config.waiting)?,
        possible: possible_replies(alloc, &config.state, &service.calls()[call])?,
        nodes: config.state.service().nodes_listed(alloc)?,
        ports: config.state.service().ports_listed(alloc)?,
    })
}

/// What is reported of each configuration.
fn configurations(
    alloc: Global,
    service: &LogService,
    slots: &[Option<usize>],
    configs: &[Config<WatchedService>],
    call: usize,
) -> Result<Vec<Configuration>, AllocError>
    requires few { length slots.now ≤ 64 }
    requires below { AreBelow slots.now (length service.now.begins) }
    requires within { call < length service.now.calls }
    requires whole { service.now.first ≡ 0 }
    ensures { IfOk result (λ reported. (c : Judged) → slice_get service.now.calls call ≡ Some c
        → AllZip (IsReported service.now c slots.now) configs.now reported.items) }
{
    let mut reported = Vec::new(alloc);
    for config in configs {
        reported.push(configuration(alloc, service, slots, config, call)?)?;
    }
    Ok(reported)
}

/// What follows so many lines; nothing, if there are fewer.
pub(super) fn after_lines(log: &[u8], count: usize) -> &[u8]
    ensures { log.now ≡ first_lines count log.now ++ result.now }
{
    let mut rest = log;
    for _ in 0..count {
        let Some((_, after)) = before_byte(rest, b'\n') else {
            return &[];
        };
        rest = after;
    }
    rest
}

/// The words of the reply in a line, or none.
fn words_of<'a>(line: &LogLine<'a>) -> &'a [u8]
    ensures { (words : List ℕ) → Answers (line_seen line.now) words → result.now ≡ words }
{
    match line {
        LogLine::Reply(words) => words,
        LogLine::End(_, words) => words,
        LogLine::Service(_) | LogLine::Call(_, _) => b"",
        LogLine::Begin(_, _, _) | LogLine::Crash(_) | LogLine::State(_, _) => b"",
    }
}

/// The words of the reply that is the text of a line, or none.
fn words_read(alloc: Global, text: &[u8]) -> Result<Vec<u8>, AllocError>
    ensures { IfOk result (λ found. (seen : Line) (words : List ℕ) → IsLine seen
        → Answers seen words → line_text seen ≡ text.now → found.items ≡ words) }
{
    match read_log_line(alloc, text)? {
        Some(line) => Vec::from_slice(alloc, words_of(&line)),
        None => Ok(Vec::new(alloc)),
    }
}

/// The words of the reply in the line of this number.
fn words_in(alloc: Global, log: &[u8], line: usize) -> Result<Vec<u8>, AllocError>
    ensures { IfOk result (λ found. (seen : Line) (words : List ℕ) → IsLine seen
        → Answers seen words → IsLineAt log.now line (line_text seen) → found.items ≡ words) }
{
    if line == 0 {
        return Ok(Vec::new(alloc));
    }
    let rest = after_lines(log, line - 1);
    match before_byte(rest, b'\n') {
        Some((text, _)) => words_read(alloc, text),
        None => Ok(Vec::new(alloc)),
    }
}

/// Whether the line is a note, or the reply to a call alone.
fn is_note_or_reply(text: &[u8]) -> bool
    ensures { IsTrue result ↔ IsNoteOrReply text.now }
{
    is_note(text) || after_word(text, b"= ").is_some()
}

/// The line and the text of the command of the call that begins in this line.
fn command_of(log: &[u8], begin: usize) -> (usize, &[u8])
    ensures { (at : ℕ) (text : List ℕ) → IsCommandOf log.now begin at text
        → (result.0 ≡ at) × (result.1.now ≡ text) }
{
    let mut rest = log;
    let mut command: (usize, &[u8]) = (0, b"");
    for above in 0..begin {
        let Some((text, after)) = before_byte(rest, b'\n') else {
            return command;
        };
        if !is_note_or_reply(text) {
            command = (above + 1, text);
        }
        rest = after;
    }
    command
}

/// The line of the event of this index.
fn line_at(service: &LogService, index: usize) -> usize
    requires { index < length service.now.event_lines }
    ensures { slice_get service.now.event_lines index ≡ Some result }
{
    service.event_lines()[index]
}

/// The line in which the call of this number begins.
fn begin_of(service: &LogService, number: usize) -> usize
    requires { number < length service.now.begins }
    ensures { slice_get service.now.begins number ≡ Some result }
{
    service.begins()[number]
}

/// The call that the event of this index ends.
fn call_ended(service: &LogService, index: usize) -> usize
    requires within { index < length service.now.events }
    requires ended { (call : ℕ) × StandsAt service.now.events index (event.End call) }
    ensures { StandsAt service.now.events index (event.End result) }
{
    match service.events()[index] {
        Event::End(call) => call,
        Event::Begin(_) | Event::Crash(_) => unreachable!(),
    }
}

/// The report on the event of this index, by which a call was answered that no order explains.
fn refused(
    alloc: Global,
    log: &[u8],
    service: &LogService,
    index: usize,
    window: &Window<WatchedService>,
) -> Result<Refusal, AllocError>
    requires orderly { IsOrderly service.now }
    requires located { HasEventLines log.now service.now }
    requires stops { IsStop (StepOf service.now) (news service.now) service.now.events index
        stop.Refused }
    requires window { IsWindowOf (StepOf service.now) (news service.now)
        (take index service.now.events) window.now }
    requires latest { IsBusyFrom window.now.begin (take index service.now.events) }
    ensures { IfOk result (λ reported.
        IsRefusedIn log.now service.now reported.reply reported) }
{
    let number = call_ended(service, index);
    let line = line_at(service, index);
    let words = words_in(alloc, log, line)?;
    let begin = begin_of(service, number);
    let (call, text) = command_of(log, begin);
    let command = Vec::from_slice(alloc, text)?;
    let needed = lines_needed(alloc, service, window.begin, index, number)?;
    let front = &window.front;
    let configurations = configurations(alloc, service, &front.slots, &front.configs, number)?;
    Ok(Refusal {
        line,
        reply: line,
        words,
        call,
        command,
        window: line_at(service, window.begin),
        needed,
        configurations,
    })
}

/// The verdict by what was found of the service, with its line, or the window in which it ends
/// where orders explain all.
fn reported_of(
    alloc: Global,
    log: &[u8],
    service: &LogService,
    found: Found<WatchedService>,
) -> Result<Result<Window<WatchedService>, (usize, Verdict)>, AllocError>
    requires orderly { IsOrderly service.now }
    requires located { HasEventLines log.now service.now }
    requires found { IsVerdict (StepOf service.now) (news service.now) service.now.events found }
    ensures { IfOk result (IsReportOf log.now service.now found) }
{
    match found {
        Found::Explained(window) => Ok(Ok(window)),
        Found::Refused(index, window) => {
            let reported = refused(alloc, log, service, index, &window)?;
            Ok(Err((reported.reply, Verdict::Refused(reported))))
        }
        Found::ManyConfigs(index) => {
            let line = line_at(service, index);
            Ok(Err((line, Verdict::ManyConfigs(line))))
        }
        Found::ManyOpen(index) => {
            let line = line_at(service, index);
            Ok(Err((line, Verdict::ManyOpen(line))))
        }
    }
}

/// Judges what was seen of a service. Returns the window in which it ends, or what was found, with
/// its line, where no order of the calls explains all.
pub(super) fn explore(
    alloc: Global,
    log: &[u8],
    service: &LogService,
    cut: Cut,
) -> Result<Result<Window<WatchedService>, (usize, Verdict)>, AllocError>
    requires orderly { IsOrderly service.now }
    requires located { HasEventLines log.now service.now }
    ensures { IfOk result (Explores log.now service.now cut) }
{
    let machine = Calls {
        alloc,
        first: 0,
        calls: service.calls(),
    };
    let states = first_states(alloc, service)?;
    let found = judge_windows(alloc, &machine, &states, service.events(), cut)?;
    reported_of(alloc, log, service, found)
}

/// Whether a reply is refused.
fn is_refused(verdict: &Verdict) -> bool
    ensures { result ≡ is_refused verdict.now }
{
    matches!(verdict, Verdict::Refused(_))
}

/// Whether something that was found comes before another: a refused reply before a bound that is
/// passed, and else that in the line above.
fn comes_before(one: &(usize, Verdict), other: &(usize, Verdict)) -> bool
    ensures { result ≡ comes_before one.now other.now }
{
    if is_refused(&one.1) {
        !is_refused(&other.1) || one.0 < other.0
    } else {
        !is_refused(&other.1) && one.0 < other.0
    }
}

/// What was found before the other.
pub(super) fn earlier(
    one: Option<(usize, Verdict)>,
    other: Option<(usize, Verdict)>,
) -> Option<(usize, Verdict)>
    ensures { result ≡ earlier one other }
{
    match (one, other) {
        (None, other) => other,
        (Some(one), None) => Some(one),
        (Some(one), Some(other)) => {
            if comes_before(&other, &one) {
                Some(other)
            } else {
                Some(one)
            }
        }
    }
}
