//! What was seen of a service.
ghost use Rattle.std.specs.Prelude.{◌≡◌, ◌↔◌, ◌+◌, ◌++◌, ◌<◌, ◌≤◌, ℕ, IsTrue, drop, replicate, OnOk, IfOk, Some, None, length};
ghost use Rattle.log_lines.specs.Commands.{begun_in, named};
ghost use Rattle.log_lines.specs.Commands.Begun.{weak};
ghost use Rattle.log_lines.specs.States.{state_seen};
ghost use Rattle.service_conformance.specs.Given.{Becomes};
ghost use Rattle.service_descriptions.specs.Lines.{command_of};
ghost use Rattle.service_descriptions.specs.Script.{first_state};
ghost use Rattle.history_logs.specs.Good.{Starts};
ghost use Rattle.history_logs.specs.Reading.{Gives};
ghost use Rattle.history_logs.specs.Seen.{Begins, HasHandles, IsKeptCall, calls_shown_from, called, given_by, given_in};
ghost use Rattle.history_logs.specs.Seen.{handle_in, handle_named, start_of};
ghost use Rattle.history_logs.specs.Seen.{forgetting, forgotten, unseen, with_alone, with_begun, with_crash, with_end};
ghost use Rattle.history_logs.specs.Seen.{with_call, with_look, with_over};

use histories::Event;
use iox2_container::container::{ContainerHandle, Role};
use iox2_dynamic::dynamic_config::MessagingPatternSettings;
use log_lines::{BegunCall, LogCommand, LogState};
use service_conformance::conformance::{JudgedCall, Part, SeenCall, SeenReply, ServiceCheck};
use service_descriptions::replay::{LineCommand, ServiceLine};
use std::alloc::{AllocError, Global};
use std::marker::Model;

/// A service of a log, what it is before its first call, and what was seen of it. So many of its
/// first calls are forgotten. The calls behind those stand by their begins. Each call, also one
/// that is forgotten, has the handle that its reply gave. While none is forgotten, each call has
/// the line in which it begins, and each event its own. Each command has the number of the call
/// with which it begins.
#[derive(Drop)]
pub(super) struct LogService {
    line: ServiceLine,
    start: ServiceCheck,
    first: usize,
    calls: Vec<JudgedCall>,
    given: Vec<Option<ContainerHandle>>,
    begins: Vec<usize>,
    commands: Vec<usize>,
    events: Vec<Event>,
    event_lines: Vec<usize>,
}

impl Model for LogService {
    ghost use Rattle.history_logs.specs.Parts.{service_of};
    ghost use Rattle.history_logs.specs.Seen.{Service};

    ghost Value = { Service };

    ghost view = { service_of };
}

/// A new service of its line.
fn new_service(alloc: Global, line: &ServiceLine) -> ServiceCheck
    ensures { result ≡ (first_state line.now).service }
{
    let settings = MessagingPatternSettings::new(line.pattern, line.first, line.second);
    ServiceCheck::new(alloc, &settings, line.max_nodes, line.number)
}

/// This is the reply to the weak listing that stops with the call at this index, if it is one. The
/// first of the calls has the first number.
fn show(
    alloc: Global,
    calls: &mut Vec<JudgedCall>,
    first: usize,
    at: usize,
    reply: &SeenReply,
) -> Result<(), AllocError>
    requires within { at < length calls.old.items }
    requires kept { (start : ℕ) → start_of calls.old.items at ≡ Some start → first ≤ start }
    ensures { OnOk result (calls.new.items
        ≡ calls_shown_from first calls.old.items (start_of calls.old.items at) reply.now) }
{
    let Some(start) = calls[at].stopped() else {
        return Ok(());
    };
    let position = start - first;
    if position < calls.len() {
        calls[position].show(alloc, reply)?;
    }
    Ok(())
}

/// This is given of a service that was in use. Returns whether it can be so.
fn give(start: &mut ServiceCheck, given: LogState) -> Result<bool, AllocError>
    ensures { IfOk result (λ yes.
        Becomes (Gives start.old (state_seen given)) start.old yes start.new) }
{
    match given {
        LogState::Nodes(used, locked) => Ok(start.give_nodes(used, locked)),
        LogState::Ports(role, used) => Ok(start.give_ports(role, used)),
        LogState::Node(slot, ticket, id) => start.give_node(slot, ticket, id),
        LogState::Port(slot, ticket, port) => start.give_port(slot, ticket, port.details()),
    }
}

/// Leaves the items from this index on, and the capacity.
fn keep_from<T: Drop>(items: &mut Vec<T>, at: usize)
    requires { at ≤ length items.old.items }
    ensures kept { items.new.items ≡ drop at items.old.items }
{
    if at < items.len() {
        items.drain(..at);
    } else {
        items.clear();
    }
}

impl LogService {
    /// A service of which nothing was seen.
    pub(super) fn new(alloc: Global, line: ServiceLine) -> Self
        ensures { result ≡ unseen line }
    {
        let start = new_service(alloc, &line);
        LogService {
            line,
            start,
            first: 0,
            calls: Vec::new(alloc),
            given: Vec::new(alloc),
            begins: Vec::new(alloc),
            commands: Vec::new(alloc),
            events: Vec::new(alloc),
            event_lines: Vec::new(alloc),
        }
    }

    /// The line of the service.
    pub(super) fn line(&self) -> &ServiceLine
        ensures { result.now ≡ self.now.line }
    {
        &self.line
    }

    /// The number of the call with which each command begins.
    pub(super) fn commands(&self) -> &[usize]
        ensures { result.now ≡ self.now.commands }
    {
        &self.commands
    }

    /// What it is before its first call.
    pub(super) fn start(&self) -> &ServiceCheck
        ensures { result.now ≡ self.now.start }
    {
        &self.start
    }

    /// This is given of the service. Returns whether it can be so, before a call on it was seen.
    /// Where memory was refused, the service is not to be used any more.
    pub(super) fn give(&mut self, given: LogState) -> Result<bool, AllocError>
        ensures { IfOk result (λ yes. Starts self.old (state_seen given) yes self.new) }
    {
        if self.has_calls() {
            return Ok(false);
        }
        give(&mut self.start, given)
    }

    /// All calls, by their begins.
    pub(super) fn calls(&self) -> &[JudgedCall]
        requires { self.now.first ≡ 0 }
        ensures { result.now ≡ self.now.calls }
    {
        &self.calls
    }

    /// Whether a call on it has begun.
    pub(super) fn has_calls(&self) -> bool
        ensures { IsTrue result ↔ (0 < length self.now.calls) }
    {
        self.first > 0 || !self.calls.is_empty()
    }

    /// How many of the first calls are forgotten.
    pub(super) fn first(&self) -> usize
        ensures { result ≡ self.now.first }
    {
        self.first
    }

    /// The calls behind those that are forgotten, by their begins.
    pub(super) fn kept(&self) -> &[JudgedCall]
        ensures { self.now.calls ≡ replicate self.now.first forgotten ++ result.now }
    {
        &self.calls
    }

    /// The number with which the weak listing began that stops with the call of this number.
    pub(super) fn start_of(&self, number: usize) -> Option<usize>
        ensures { result ≡ start_of self.now.calls number }
    {
        if number < self.first {
            return None;
        }
        let at = number - self.first;
        if at >= self.calls.len() {
            return None;
        }
        self.calls[at].stopped()
    }

    /// The line in which each call begins, where none is forgotten.
    pub(super) fn begins(&self) -> &[usize]
        ensures { result.now ≡ self.now.begins }
    {
        &self.begins
    }

    /// What happened.
    pub(super) fn events(&self) -> &[Event]
        ensures { result.now ≡ self.now.events }
    {
        &self.events
    }

    /// The line of each event, where no call is forgotten.
    pub(super) fn event_lines(&self) -> &[usize]
        ensures { result.now ≡ self.now.event_lines }
    {
        &self.event_lines
    }

    /// The handle that the command of this number gave, by what is above.
    #[inline(always)]
    fn given_by(&self, number: usize) -> Option<ContainerHandle>
        ensures { result ≡ given_by self.now number }
    {
        let Some(call) = self.commands.get(number) else {
            return None;
        };
        if *call < self.given.len() {
            self.given[*call]
        } else {
            None
        }
    }

    /// The handle that a command names, by what is above.
    #[inline(always)]
    fn named_by(&self, command: &LineCommand) -> Option<ContainerHandle>
        ensures { result ≡ handle_named self.now (command_of command.now) }
    {
        match command {
            LineCommand::Deregister(number) => self.given_by(*number),
            LineCommand::Release(number) => self.given_by(*number),
            _ => None,
        }
    }

    /// A handle of the service.
    #[inline(always)]
    fn handle(&self, role: Role, slot: usize, ticket: u64) -> ContainerHandle
        ensures { result ≡ handle_in self.now.line role slot ticket }
    {
        ContainerHandle::from_parts(self.line.number, role, slot, ticket)
    }

    /// The call of a command, whose reply was not seen.
    #[inline(always)]
    fn call(&self, command: LogCommand) -> JudgedCall
        ensures { result ≡ called self.now (named command) }
    {
        match command {
            LogCommand::Numbered(command) => {
                let handle = self.named_by(&command);
                JudgedCall::call(SeenCall::new(command, handle))
            }
            // Of a removal that names its handle the number of a command is not looked at.
            LogCommand::Deregister(slot, ticket) => JudgedCall::call(SeenCall::new(
                LineCommand::Deregister(0),
                Some(self.handle(Role::Node, slot, ticket)),
            )),
            LogCommand::Release(role, slot, ticket) => JudgedCall::call(SeenCall::new(
                LineCommand::Release(0),
                Some(self.handle(role, slot, ticket)),
            )),
        }
    }

    /// A call begins in this line, and is no command of its own. With it comes the handle that its
    /// reply gives, if that is known. Returns its number. Where memory was refused, the service is
    /// not to be used any more.
    #[inline(always)]
    fn push(
        &mut self,
        call: JudgedCall,
        gives: Option<ContainerHandle>,
        line: usize,
    ) -> Result<usize, AllocError>
        requires { HasHandles self.old }
        ensures begun { OnOk result (self.new ≡ with_call self.old call gives line) }
        ensures number { IfOk result (λ number. number ≡ length self.old.calls) }
    {
        let number = self.given.len();
        self.calls.push(call)?;
        self.given.push(gives)?;
        self.begins.push(line)?;
        self.events.push(Event::Begin(number))?;
        self.event_lines.push(line)?;
        Ok(number)
    }

    /// A call begins in this line. With it comes the handle that its reply gives, if that is known.
    /// Returns its number. Where memory was refused, the service is not to be used any more.
    #[inline(always)]
    fn begin(
        &mut self,
        call: JudgedCall,
        gives: Option<ContainerHandle>,
        line: usize,
    ) -> Result<usize, AllocError>
        requires { HasHandles self.old }
        ensures begun { OnOk result (self.new ≡ with_begun self.old call gives line) }
        ensures number { IfOk result (λ number. number ≡ length self.old.calls) }
    {
        self.commands.push(self.given.len())?;
        self.push(call, gives, line)
    }

    /// The call of this number is over in this line, and has no reply. Where memory was refused,
    /// the service is not to be used any more.
    #[inline(always)]
    fn finish(&mut self, number: usize, line: usize) -> Result<(), AllocError>
        ensures { OnOk result (self.new ≡ with_over self.old number line) }
    {
        self.events.push(Event::End(number))?;
        self.event_lines.push(line)?;
        Ok(())
    }

    /// A weak listing of a part begins in this line. Returns the number of the call that is open.
    /// Where memory was refused, the service is not to be used any more.
    fn look(&mut self, part: Part, line: usize) -> Result<usize, AllocError>
        requires { HasHandles self.old }
        ensures looks { OnOk result (self.new ≡ with_look self.old part line) }
        ensures number { IfOk result (λ number. number ≡ length self.old.calls + 1) }
    {
        let number = self.begin(JudgedCall::starts(part), None, line)?;
        self.finish(number, line)?;
        self.push(JudgedCall::stops(number), None, line)
    }

    /// A weak listing of the ports of a role, or of the nodes, begins in this line. Returns the
    /// number of the call that is open. Where memory was refused, the service is not to be used any
    /// more.
    fn begin_weak(&mut self, role: Role, line: usize) -> Result<usize, AllocError>
        requires { HasHandles self.old }
        ensures { IfOk result (λ current. Begins self.old (weak role) line self.new current) }
    {
        match self.start.part_of(role) {
            Some(part) => self.look(part, line),
            None => {
                let call = self.call(LogCommand::Numbered(LineCommand::List(role)));
                self.begin(call, None, line)
            }
        }
    }

    /// What a caller begins in this line. Returns the number of the call that is open. Where memory
    /// was refused, the service is not to be used any more.
    pub(super) fn begin_call(&mut self, begun: BegunCall, line: usize) -> Result<usize, AllocError>
        requires { HasHandles self.old }
        ensures { IfOk result (λ current. Begins self.old (begun_in begun) line self.new current) }
    {
        match begun {
            BegunCall::Command(command) => {
                let call = self.call(command);
                self.begin(call, None, line)
            }
            BegunCall::Weak(role) => self.begin_weak(role, line),
        }
    }

    /// The handle that a reply gives to a call that adds an entry of this role.
    #[inline(always)]
    fn given_in(&self, adds: Option<Role>, reply: &SeenReply) -> Option<ContainerHandle>
        ensures { result ≡ given_in self.now.line adds reply.now }
    {
        match (adds, reply) {
            (Some(role), SeenReply::Handle(slot, ticket)) => {
                Some(self.handle(role, *slot, *ticket))
            }
            _ => None,
        }
    }

    /// A call alone of this command begins in this line and is answered so. Where memory was
    /// refused, the service is not to be used any more.
    #[inline(always)]
    pub(super) fn alone(
        &mut self,
        command: LogCommand,
        reply: SeenReply,
        line: usize,
    ) -> Result<(), AllocError>
        requires { HasHandles self.old }
        ensures { OnOk result
            (self.new ≡ with_alone self.old (called self.old (named command)) reply line) }
    {
        let mut call = self.call(command);
        let gives = self.given_in(call.adds(), &reply);
        call.answer(reply);
        let number = self.begin(call, gives, line)?;
        self.finish(number, line)?;
        Ok(())
    }

    /// The call of this number was answered in this line. Where memory was refused, the service is
    /// not to be used any more.
    pub(super) fn end(
        &mut self,
        alloc: Global,
        number: usize,
        reply: SeenReply,
        line: usize,
    ) -> Result<(), AllocError>
        requires within { number < length self.old.calls }
        requires handles { HasHandles self.old }
        requires kept { IsKeptCall self.old number }
        ensures { OnOk result (self.new ≡ with_end self.old number reply line) }
    {
        let at = number - self.first;
        let given = self.given_in(self.calls[at].adds(), &reply);
        self.given[number] = given;
        show(alloc, &mut self.calls, self.first, at, &reply)?;
        self.calls[at].answer(reply);
        self.events.push(Event::End(number))?;
        self.event_lines.push(line)?;
        Ok(())
    }

    /// Forgets the calls below this number, so many of the events, and all lines.
    pub(super) fn forget(&mut self, first: usize, followed: usize)
        requires first { self.old.first ≤ first }
        requires within { first ≤ length self.old.calls }
        requires followed { followed ≤ length self.old.events }
        ensures { self.new ≡ forgetting self.old first followed }
    {
        keep_from(&mut self.calls, first - self.first);
        self.first = first;
        keep_from(&mut self.events, followed);
        self.begins.clear();
        self.event_lines.clear();
    }

    /// The caller of the call of this number died above this line. Where memory was refused, the
    /// service is not to be used any more.
    pub(super) fn crash(&mut self, number: usize, line: usize) -> Result<(), AllocError>
        ensures { OnOk result (self.new ≡ with_crash self.old number line) }
    {
        self.events.push(Event::Crash(number))?;
        self.event_lines.push(line)?;
        Ok(())
    }
}
