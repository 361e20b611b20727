//! Reading a log line by line. A call alone is read in one function, since to copy a call costs as
//! much as to read it. Other lines are read out of line, so that it does not pay for their locals.
ghost use Rattle.std.specs.Prelude.{◌≡◌, ◌≢◌, ◌<◌, ℕ, List, [], None, Some, IfNone, IfOk, IfSome, IsTrue, OnOk, length, slice_get};
ghost use Rattle.log_lines.specs.Commands.{begun_in, named as named_command};
ghost use Rattle.log_lines.specs.Lines.Line.{service as service_line, call as call_line};
ghost use Rattle.log_lines.specs.Lines.Line.{begin as begin_line, end as end_line, crash as crash_line};
ghost use Rattle.log_lines.specs.Lines.Line.{given as given_line};
ghost use Rattle.log_lines.specs.States.{state_seen};
ghost use Rattle.history_logs.specs.Parts.{callers_of};
ghost use Rattle.history_logs.specs.Fields.{AreNumbers, IsReady, log_of};
ghost use Rattle.log_lines.specs.Lines.{IsLine, Line, line_seen, line_text};
ghost use Rattle.history_logs.specs.Good.{GivesAnew, IsReadTo, SaysIn, Takes, TakesLine};
ghost use Rattle.history_logs.specs.Good.{TakesNext, is_service};
ghost use Rattle.history_logs.specs.Logs.{EndsInReturn, IsMissing, IsWrong, LacksReply};
ghost use Rattle.history_logs.specs.Progress.{AddsCounts};
ghost use Rattle.history_logs.specs.Reading.{Does};
ghost use Rattle.history_logs.specs.Seen.{Service};

use super::callers::{CallerState, Callers, refuses_begin};
use super::progress::Progress;
use super::service::LogService;
use super::verdict::Expected;
use line_streams::{after_word, before_byte};
use log_lines::{
    BegunCall, LogCommand, LogLine, LogState, form_of, is_note, read_command, read_log_line,
};
use service_conformance::conformance::{SeenReply, read_reply};
use service_descriptions::replay::ServiceLine;
use std::alloc::{AllocError, Global};
use std::collections::BTreeMap;

/// What was read of a log.
#[derive(Drop)]
pub(super) struct Reading {
    /// The services, and what was seen of each.
    pub(super) services: Vec<LogService>,
    /// Their numbers, each with the index of the last service that has it. Without these, a line
    /// would look at each service for the one that it names.
    pub(super) numbers: BTreeMap<u64, usize>,
    /// The callers.
    pub(super) callers: Callers,
    /// The index of the service of the call alone that waits for its reply, and its command.
    pub(super) waits: Option<(usize, LogCommand)>,
}

/// Whether a carriage return stands at the end of the line.
fn ends_in_return(text: &[u8]) -> bool
    ensures yes { IsTrue result → EndsInReturn text.now }
    ensures no { EndsInReturn text.now → IsTrue result }
{
    !text.is_empty() && text[text.len() - 1] == b'\r'
}

/// The reply whose words stand in the line of a reply.
#[inline(always)]
fn reply_in(alloc: Global, text: &[u8]) -> Result<Option<SeenReply>, AllocError>
    ensures some { IfOk result (λ found. IfSome found (λ r. SaysIn text.now r)) }
    ensures none { IfOk result (λ found. IfNone found (LacksReply text.now)) }
{
    let Some(words) = after_word(text, b"= ") else {
        return Ok(None);
    };
    read_reply(alloc, words)
}

/// Whether the line begins as commands do, with a small letter. A yes says nothing: other lines may
/// too, as those of services.
fn may_be_command(text: &[u8]) -> bool {
    match text {
        [] => false,
        [first, ..] => first.is_ascii_lowercase(),
    }
}

/// Whether the line is that of a service.
fn is_service(read: &LogLine<'_>) -> bool
    ensures { result ≡ is_service (line_seen read.now) }
{
    matches!(read, LogLine::Service(_))
}

impl Reading {
    /// Nothing yet.
    pub(super) fn new(alloc: Global) -> Self
        ensures services { result.services.items ≡ [] }
        ensures callers { (name : List ℕ) → callers_of result.callers name ≡ None }
        ensures waits { (log_of result).waits ≡ None }
        ensures numbers { AreNumbers result.numbers result.services.items }
    {
        Reading {
            services: Vec::new(alloc),
            numbers: BTreeMap::new(alloc),
            callers: Callers::new(alloc),
            waits: None,
        }
    }

    /// A service. Returns what is expected instead, if it may not come.
    #[inline(never)]
    fn service(&mut self, alloc: Global, line: ServiceLine) -> Result<Option<Expected>, AllocError>
        requires waits { (log_of self.old).waits ≡ None }
        requires ready { IsReady self.old }
        ensures does { IfOk result (λ found. (k : ℕ)
            → Does (log_of self.old) k (service_line line) found (log_of self.new)) }
        ensures numbers { self.new.numbers ≡ self.old.numbers }
    {
        if self.position_of(line.number).is_some() {
            return Ok(Some(Expected::NewNumber));
        }
        self.services.push(LogService::new(alloc, line))?;
        Ok(None)
    }

    /// What is given of the service at this index, below calls on it. Returns what is expected
    /// instead, if it may not begin anew.
    fn give_anew(
        &mut self,
        alloc: Global,
        at: usize,
        given: LogState,
    ) -> Result<Option<Expected>, AllocError>
        requires within { at < length self.old.services.items }
        requires calls { (s : Service) → slice_get self.old.services.items at ≡ Some s
            → 0 < length s.calls }
        ensures does { IfOk result (λ found. (s : Service)
            → slice_get self.old.services.items at ≡ Some s
            → GivesAnew (log_of self.old) at s (state_seen given) found (log_of self.new)) }
        ensures numbers { self.new.numbers ≡ self.old.numbers }
    {
        if self.callers.has_open_on(at) {
            return Ok(Some(Expected::State));
        }
        let mut anew = LogService::new(alloc, *self.services[at].line());
        if !anew.give(given)? {
            return Ok(Some(Expected::State));
        }
        self.services.push(anew)?;
        Ok(None)
    }

    /// What is given of a service that was in use. Returns what is expected instead, if it may not
    /// come.
    #[inline(never)]
    fn given(
        &mut self,
        alloc: Global,
        number: Option<u64>,
        given: LogState,
    ) -> Result<Option<Expected>, AllocError>
        requires waits { (log_of self.old).waits ≡ None }
        requires ready { IsReady self.old }
        ensures does { IfOk result (λ found. (k : ℕ) → Does (log_of self.old) k
            (given_line number (state_seen given)) found (log_of self.new)) }
        ensures numbers { self.new.numbers ≡ self.old.numbers }
    {
        let Some(at) = self.service_named(number) else {
            return Ok(Some(Expected::Call));
        };
        if self.services[at].has_calls() {
            return self.give_anew(alloc, at, given);
        }
        let may = self.services[at].give(given)?;
        if may {
            return Ok(None);
        }
        Ok(Some(Expected::State))
    }

    /// A call alone. Returns what is expected instead, if it may not come.
    #[inline(always)]
    fn call(&mut self, number: Option<u64>, command: LogCommand) -> Option<Expected>
        requires waits { (log_of self.old).waits ≡ None }
        requires ready { IsReady self.old }
        ensures does { (k : ℕ) → Does (log_of self.old) k
            (call_line number (named_command command)) result (log_of self.new) }
        ensures numbers { self.new.numbers ≡ self.old.numbers }
        ensures services { self.new.services ≡ self.old.services }
    {
        let Some(at) = self.service_named(number) else {
            return Some(Expected::Call);
        };
        self.waits = Some((at, command));
        None
    }

    /// The begin of a call in this line. Returns what is expected instead, if it may not come.
    #[inline(never)]
    fn begin(
        &mut self,
        alloc: Global,
        number: Option<u64>,
        caller: &[u8],
        begun: BegunCall,
        line: usize,
    ) -> Result<Option<Expected>, AllocError>
        requires waits { (log_of self.old).waits ≡ None }
        requires ready { IsReady self.old }
        ensures does { IfOk result (λ found. Does (log_of self.old) line
            (begin_line number caller.now (begun_in begun)) found (log_of self.new)) }
        ensures numbers { self.new.numbers ≡ self.old.numbers }
    {
        let Some(at) = self.service_named(number) else {
            return Ok(Some(Expected::Call));
        };
        if let Some(expected) = refuses_begin(self.callers.state_of(caller)) {
            return Ok(Some(expected));
        }
        let number = self.services[at].begin_call(begun, line)?;
        self.callers.begin(alloc, caller, at, number)?;
        Ok(None)
    }

    /// The end of a caller's call in this line. Returns what is expected instead, if it may
    /// not come.
    #[inline(never)]
    fn end(
        &mut self,
        alloc: Global,
        caller: &[u8],
        words: &[u8],
        line: usize,
    ) -> Result<Option<Expected>, AllocError>
        requires waits { (log_of self.old).waits ≡ None }
        requires ready { IsReady self.old }
        ensures does { IfOk result (λ found. Does (log_of self.old) line
            (end_line caller.now words.now) found (log_of self.new)) }
        ensures numbers { self.new.numbers ≡ self.old.numbers }
    {
        match self.callers.state_of(caller) {
            None => Ok(Some(Expected::OpenCall)),
            Some(CallerState::Idle) => Ok(Some(Expected::OpenCall)),
            Some(CallerState::Dead) => Ok(Some(Expected::LiveCaller)),
            Some(CallerState::Calls(at, number)) => {
                let Some(reply) = read_reply(alloc, words)? else {
                    return Ok(Some(Expected::Reply));
                };
                self.services[at].end(alloc, number, reply, line)?;
                self.callers.set(alloc, caller, CallerState::Idle)?;
                Ok(None)
            }
        }
    }

    /// A caller died above this line. Returns what is expected instead, if it may not come.
    #[inline(never)]
    fn crash(
        &mut self,
        alloc: Global,
        caller: &[u8],
        line: usize,
    ) -> Result<Option<Expected>, AllocError>
        requires waits { (log_of self.old).waits ≡ None }
        requires ready { IsReady self.old }
        ensures does { IfOk result (λ found. Does (log_of self.old) line
            (crash_line caller.now) found (log_of self.new)) }
        ensures numbers { self.new.numbers ≡ self.old.numbers }
    {
        match self.callers.state_of(caller) {
            None => Ok(Some(Expected::KnownCaller)),
            Some(CallerState::Dead) => Ok(Some(Expected::LiveCaller)),
            Some(CallerState::Idle) => {
                self.callers.set(alloc, caller, CallerState::Dead)?;
                Ok(None)
            }
            Some(CallerState::Calls(at, number)) => {
                self.services[at].crash(number, line)?;
                self.callers.set(alloc, caller, CallerState::Dead)?;
                Ok(None)
            }
        }
    }

    /// A line of a log, where no call waits. Returns what is expected instead, if it may not
    /// come.
    #[inline(always)]
    fn take(
        &mut self,
        alloc: Global,
        read: LogLine<'_>,
        line: usize,
    ) -> Result<Option<Expected>, AllocError>
        requires waits { (log_of self.old).waits ≡ None }
        requires ready { IsReady self.old }
        ensures does { IfOk result (λ found.
            Does (log_of self.old) line (line_seen read.entry) found (log_of self.new)) }
        ensures numbers { self.new.numbers ≡ self.old.numbers }
    {
        match read {
            LogLine::Service(service) => self.service(alloc, service),
            LogLine::Call(number, command) => Ok(self.call(number, command)),
            LogLine::Reply(_) => Ok(Some(Expected::CallAlone)),
            LogLine::Begin(number, caller, begun) => {
                self.begin(alloc, number, caller, begun, line)
            }
            LogLine::End(caller, words) => self.end(alloc, caller, words, line),
            LogLine::Crash(caller) => self.crash(alloc, caller, line),
            LogLine::State(number, given) => self.given(alloc, number, given),
        }
    }

    /// What is expected in place of what is no line of a log.
    #[tactic(auto, using(crate::proofs::Refused::wrong_none))]
    fn expected(&self, text: &[u8]) -> Expected
        ensures { ((l : Line) → IsLine l → line_text l ≢ text.now)
            → IsWrong (log_of self.now) text.now result }
    {
        if self.services.is_empty() {
            Expected::Service
        } else {
            Expected::Form(form_of(text))
        }
    }

    /// A line that is no note, where no call waits. Returns what is expected instead, if it
    /// may not come.
    #[inline(never)]
    fn other(
        &mut self,
        alloc: Global,
        text: &[u8],
        line: usize,
    ) -> Result<Option<Expected>, AllocError>
        requires waits { (log_of self.old).waits ≡ None }
        requires ready { IsReady self.old }
        ensures takes { IfOk result (λ found.
            TakesNext (log_of self.old) line text.now found (log_of self.new)) }
        ensures numbers { OnOk result (AreNumbers self.new.numbers self.new.services.items) }
    {
        let Some(read) = read_log_line(alloc, text)? else {
            return Ok(Some(self.expected(text)));
        };
        if self.services.is_empty() && !is_service(&read) {
            return Ok(Some(Expected::Service));
        }
        let known = self.services.len();
        let Some(expected) = self.take(alloc, read, line)? else {
            self.add_number(known)?;
            return Ok(None);
        };
        Ok(Some(expected))
    }

    /// A line that is no note, where no call waits. Returns what is expected instead, if it
    /// may not come. A command is read at once, without what other lines take.
    #[inline(always)]
    fn next(
        &mut self,
        alloc: Global,
        text: &[u8],
        line: usize,
    ) -> Result<Option<Expected>, AllocError>
        requires waits { (log_of self.old).waits ≡ None }
        requires ready { IsReady self.old }
        ensures takes { IfOk result (λ found.
            TakesNext (log_of self.old) line text.now found (log_of self.new)) }
        ensures numbers { OnOk result (AreNumbers self.new.numbers self.new.services.items) }
    {
        if self.services.is_empty() || !may_be_command(text) {
            return self.other(alloc, text, line);
        }
        match read_command(alloc, text)? {
            Some(command) => Ok(self.call(None, command)),
            None => self.other(alloc, text, line),
        }
    }

    /// Goes on with a line that is no note. Returns what is expected instead, but for its
    /// carriage return, if it may not come.
    #[tactic(auto, using(crate::proofs::Refused::sane_taken))]
    #[inline(always)]
    fn go(
        &mut self,
        alloc: Global,
        text: &[u8],
        line: usize,
    ) -> Result<Option<Expected>, AllocError>
        requires { IsReady self.old }
        ensures takes { IfOk result (λ found.
            TakesLine (log_of self.old) line text.now found (log_of self.new)) }
        ensures numbers { OnOk result (AreNumbers self.new.numbers self.new.services.items) }
    {
        // To take a call that is not there costs as much as to take one.
        if self.waits.is_none() {
            return self.next(alloc, text, line);
        }
        // The reply is read first: what is taken before it would be saved meanwhile.
        let Some(reply) = reply_in(alloc, text)? else {
            return Ok(Some(Expected::Reply));
        };
        match self.waits.take() {
            Some((at, command)) => {
                self.services[at].alone(command, reply, line)?;
                Ok(None)
            }
            None => unreachable!(),
        }
    }

    /// Goes on with a line. Returns what is expected instead, if it may not come.
    #[inline(always)]
    pub(super) fn read(
        &mut self,
        alloc: Global,
        text: &[u8],
        line: usize,
    ) -> Result<Option<Expected>, AllocError>
        requires { IsReady self.old }
        ensures read { IfOk result (λ found.
            Takes (log_of self.old) line text.now found (log_of self.new)) }
        ensures numbers { OnOk result (AreNumbers self.new.numbers self.new.services.items) }
    {
        if is_note(text) {
            return Ok(None);
        }
        let Some(expected) = self.go(alloc, text, line)? else {
            return Ok(None);
        };
        if ends_in_return(text) {
            return Ok(Some(Expected::NoCarriageReturn));
        }
        Ok(Some(expected))
    }

    /// What is expected where the log ends after good lines, if anything is.
    pub(super) fn at_end(&self) -> Option<Expected>
        ensures none { IfNone result
            (((log_of self.now).waits ≡ None) × (0 < length self.now.services.items)) }
        ensures some { IfSome result (IsMissing (log_of self.now)) }
    {
        if self.waits.is_some() {
            return Some(Expected::Reply);
        }
        if self.services.is_empty() {
            return Some(Expected::Service);
        }
        None
    }
}

/// Reads the good lines of a log, and counts them. Returns what was read, and the first line that
/// is not what is expected, if there is one.
#[tactic(auto, using(crate::proofs::Above::read_missing, crate::proofs::Above::read_whole, crate::proofs::Above::above_room))]
pub(super) fn read_log<P: Progress>(
    alloc: Global,
    log: &[u8],
    progress: &mut P,
) -> Result<(Reading, Option<(usize, Expected)>), AllocError>
    ensures read { IfOk result (λ found. IsReadTo log.now found.0.services.items found.1) }
    ensures numbers { IfOk result (λ found. AreNumbers found.0.numbers found.0.services.items) }
    ensures progress { AddsCounts (P.contents progress.old) (P.contents progress.new) }
{
    let mut reading = Reading::new(alloc);
    let mut rest = log;
    let mut line = 1;
    while let Some((text, after)) = before_byte(rest, b'\n') {
        if let Some(expected) = reading.read(alloc, text, line)? {
            return Ok((reading, Some((line, expected))));
        }
        progress.count(line);
        rest = after;
        line += 1;
    }
    if !rest.is_empty() {
        return Ok((reading, Some((line, Expected::Newline))));
    }
    match reading.at_end() {
        Some(expected) => Ok((reading, Some((line, expected)))),
        None => Ok((reading, None)),
    }
}
