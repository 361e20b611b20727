//! The texts of verdicts.
ghost use Rattle.std.specs.Prelude.{◌≡◌, ◌++◌, ℕ, IfOk, List, OnOk, codes, decimal};
ghost use Rattle.std.specs.List.{flat_map};
ghost use Rattle.history_logs.specs.Reports.{attached_text, call_text, choice_text, config_text};
ghost use Rattle.history_logs.specs.Reports.{conforms_text, expected_text, for_count, form_text};
ghost use Rattle.history_logs.specs.Reports.{before_next, free_text, ids_text, lists_text};
ghost use Rattle.history_logs.specs.Reports.{line_of, made_text, next_text, number_word, order_text};
ghost use Rattle.history_logs.specs.Reports.{possible_text, range_text, refusal_text, refused_text};
ghost use Rattle.history_logs.specs.Reports.{report_text, which_text, window_text};
ghost use Rattle.service_descriptions.specs.Replies.{id_word, port_word, text_of};

use super::verdict::{Configuration, Expected, Order, Refusal, Verdict};
use iox2_dynamic::dynamic_config::PortDetails;
use iox2_ids::identifiers::{Hexadecimal, UniqueNodeId};
use itoa::Buffer;
use log_lines::LogForm;
use service_conformance::conformance::{NextHandle, PossibleList, PossibleReplies};
use service_descriptions::replay::{Reply, write_reply};
use std::alloc::AllocError;

/// Appends a number.
fn append_decimal(n: u64, out: &mut Vec<u8>) -> Result<(), AllocError>
    ensures { OnOk result (out.new.items ≡ out.old.items ++ decimal n) }
{
    let mut digits = Buffer::new();
    out.extend_from_slice(digits.format(n).as_bytes())
}

/// Appends a space and an id.
fn append_id(id: u128, out: &mut Vec<u8>) -> Result<(), AllocError>
    ensures { OnOk result (out.new.items ≡ out.old.items ++ id_word id) }
{
    let text = Hexadecimal::new(id);
    out.push(b' ')?;
    out.extend_from_slice(text.as_bytes())
}

/// What is reported as a text of its own, of which several may stand one after another.
pub(super) trait Reported {
    /// The text.
    ghost text: { Self → List ℕ };

    /// Appends the text.
    fn append(&self, out: &mut Vec<u8>) -> Result<(), AllocError>
        ensures { OnOk result (out.new.items ≡ out.old.items ++ text self.now) };
}

impl Reported for UniqueNodeId {
    ghost text = { id_word };

    fn append(&self, out: &mut Vec<u8>) -> Result<(), AllocError> {
        append_id(self.value(), out)
    }
}

impl Reported for PortDetails {
    ghost text = { port_word };

    fn append(&self, out: &mut Vec<u8>) -> Result<(), AllocError> {
        append_id(self.port_id().value(), out)
    }
}

impl Reported for u128 {
    ghost text = { id_word };

    fn append(&self, out: &mut Vec<u8>) -> Result<(), AllocError> {
        append_id(*self, out)
    }
}

impl Reported for usize {
    ghost text = { number_word };

    fn append(&self, out: &mut Vec<u8>) -> Result<(), AllocError> {
        out.push(b' ')?;
        append_decimal(*self as u64, out)
    }
}

/// Appends the text of each.
pub(super) fn append_each<T: Reported>(items: &[T], out: &mut Vec<u8>) -> Result<(), AllocError>
    ensures { OnOk result (out.new.items ≡ out.old.items ++ flat_map T.text items.now) }
{
    for item in items {
        item.append(out)?;
    }
    Ok(())
}

/// Appends a name and a number.
pub(super) fn append_number(name: &[u8], n: u64, out: &mut Vec<u8>) -> Result<(), AllocError>
    ensures { OnOk result (out.new.items ≡ out.old.items ++ (name.now ++ decimal n)) }
{
    out.extend_from_slice(name)?;
    append_decimal(n, out)?;
    Ok(())
}

/// Appends the words of a reply.
fn append_words(reply: &Reply, out: &mut Vec<u8>) -> Result<(), AllocError>
    ensures { OnOk result (out.new.items ≡ out.old.items ++ text_of reply.now) }
{
    write_reply(reply, out)?;
    let _newline = out.pop();
    Ok(())
}

/// Appends the slots from one on and below the end, if there are any: the one, or the first and the
/// last. Returns what stands before the next ones.
fn append_range(before: u8, from: u128, end: usize, out: &mut Vec<u8>) -> Result<u8, AllocError>
    ensures text { OnOk result (out.new.items ≡ out.old.items ++ range_text before from end) }
    ensures next { IfOk result (λ next. next ≡ before_next before from end) }
{
    if from >= end as u128 {
        return Ok(before);
    }
    out.push(before)?;
    append_decimal(from as u64, out)?;
    if from + 1 < end as u128 {
        append_number(b"-", end as u64 - 1, out)?;
    }
    Ok(b',')
}

/// Appends the slots below the capacity that are not taken.
fn append_free(taken: &[usize], capacity: usize, out: &mut Vec<u8>) -> Result<(), AllocError>
    ensures { OnOk result
        (out.new.items ≡ out.old.items ++ free_text 32 0 taken.now capacity) }
{
    let mut before = b' ';
    let mut from = 0u128;
    for slot in taken {
        before = append_range(before, from, *slot, out)?;
        from = *slot as u128 + 1;
    }
    append_range(before, from, capacity, out)?;
    Ok(())
}

/// Appends the handles that an add may give.
fn append_next(next: &NextHandle, out: &mut Vec<u8>) -> Result<(), AllocError>
    ensures { OnOk result (out.new.items ≡ out.old.items ++ next_text next.now) }
{
    out.extend_from_slice(b"handle")?;
    append_free(&next.taken, next.capacity, out)?;
    append_number(b" ", next.ticket, out)
}

/// Appends the ids with which, and those without which, a list would do.
#[tactic(auto, unfolding(crate::specs::Reports::ids_text))]
fn append_ids(lists: &PossibleList, out: &mut Vec<u8>) -> Result<(), AllocError>
    ensures { OnOk result (out.new.items
        ≡ out.old.items ++ ids_text lists.now.missing.items lists.now.unseen.items) }
{
    out.extend_from_slice(b"the list with:")?;
    append_each(&lists.missing, out)?;
    out.extend_from_slice(b", without:")?;
    append_each(&lists.unseen, out)?;
    Ok(())
}

/// Appends the ids for which the reply to a weak listing is refused. Where there are none, it is no
/// list.
fn append_list(lists: &PossibleList, out: &mut Vec<u8>) -> Result<(), AllocError>
    ensures { OnOk result (out.new.items ≡ out.old.items ++ lists_text lists.now) }
{
    if !lists.missing.is_empty() {
        return append_ids(lists, out);
    }
    if !lists.unseen.is_empty() {
        return append_ids(lists, out);
    }
    out.extend_from_slice(b"a list")
}

/// Appends the replies that a run gives.
fn append_possible(possible: &PossibleReplies, out: &mut Vec<u8>) -> Result<(), AllocError>
    ensures { OnOk result (out.new.items ≡ out.old.items ++ possible_text possible.now) }
{
    match possible {
        PossibleReplies::One(reply) => append_words(reply, out),
        PossibleReplies::Handle(next) => append_next(next, out),
        PossibleReplies::List(lists) => append_list(lists, out),
    }
}

/// Appends the lines in which the calls begin that were made.
fn append_made(lines: &[usize], out: &mut Vec<u8>) -> Result<(), AllocError>
    ensures { OnOk result (out.new.items ≡ out.old.items ++ made_text lines.now) }
{
    if lines.is_empty() {
        return out.extend_from_slice(b"made: none");
    }
    out.extend_from_slice(b"made: lines")?;
    append_each(lines, out)?;
    Ok(())
}

/// Appends the lines of who is there.
fn append_attached(
    nodes: &[UniqueNodeId],
    ports: &[PortDetails],
    out: &mut Vec<u8>,
) -> Result<(), AllocError>
    ensures { OnOk result (out.new.items ≡ out.old.items ++ attached_text nodes.now ports.now) }
{
    out.extend_from_slice(b"nodes:")?;
    append_each(nodes, out)?;
    out.extend_from_slice(b"\nports:")?;
    append_each(ports, out)?;
    out.extend_from_slice(b"\n")?;
    Ok(())
}

/// Appends the lines of what was made, and of the replies that a call may have.
fn append_choice(
    made: &[usize],
    possible: &PossibleReplies,
    out: &mut Vec<u8>,
) -> Result<(), AllocError>
    ensures { OnOk result (out.new.items ≡ out.old.items ++ choice_text made.now possible.now) }
{
    append_made(made, out)?;
    out.extend_from_slice(b"\npossible: ")?;
    append_possible(possible, out)?;
    out.push(b'\n')?;
    Ok(())
}

impl Reported for Configuration {
    ghost text = { config_text };

    fn append(&self, out: &mut Vec<u8>) -> Result<(), AllocError> {
        append_choice(&self.made, &self.possible, out)?;
        append_attached(&self.nodes, &self.ports, out)?;
        Ok(())
    }
}

/// Appends the line of the command of a call.
#[tactic(auto, unfolding(crate::specs::Reports::call_text))]
fn append_call(line: usize, command: &[u8], out: &mut Vec<u8>) -> Result<(), AllocError>
    ensures { OnOk result (out.new.items ≡ out.old.items ++ call_text line command.now) }
{
    out.extend_from_slice(b"\ncall: ")?;
    out.extend_from_slice(command)?;
    append_number(b" (line ", line as u64, out)?;
    out.push(b')')?;
    Ok(())
}

/// Appends the line from which a window is open, and those of the calls in it that are needed.
fn append_window(window: usize, needed: &[usize], out: &mut Vec<u8>) -> Result<(), AllocError>
    ensures { OnOk result (out.new.items ≡ out.old.items ++ window_text window needed.now) }
{
    append_number(b"\nwindow: from line ", window as u64, out)?;
    out.extend_from_slice(b"\nneeded: lines")?;
    append_each(needed, out)?;
    Ok(())
}

/// Appends which reply no order explains with all that is seen down to a line: that in it, or one
/// above it.
fn append_which(line: usize, reply: usize, out: &mut Vec<u8>) -> Result<(), AllocError>
    ensures { OnOk result (out.new.items ≡ out.old.items ++ which_text line reply) }
{
    if reply == line {
        return out.extend_from_slice(b": no order of the calls explains this reply");
    }
    append_number(
        b": down to here no order of the calls explains the reply in line ",
        reply as u64,
        out,
    )
}

/// Appends that no order explains what is seen down to a line, and the line of the reply if that is
/// another one.
#[tactic(auto, unfolding(crate::specs::Reports::refused_text))]
fn append_refused(line: usize, reply: usize, out: &mut Vec<u8>) -> Result<(), AllocError>
    ensures { OnOk result (out.new.items ≡ out.old.items ++ refused_text line reply) }
{
    append_number(b"line ", line as u64, out)?;
    append_which(line, reply, out)?;
    Ok(())
}

/// Appends the report on a reply that no order explains.
fn append_refusal(reported: &Refusal, out: &mut Vec<u8>) -> Result<(), AllocError>
    ensures { OnOk result (out.new.items ≡ out.old.items ++ refusal_text reported.now) }
{
    append_refused(reported.line, reported.reply, out)?;
    out.extend_from_slice(b"\nseen: ")?;
    out.extend_from_slice(&reported.words)?;
    append_call(reported.call, &reported.command, out)?;
    append_window(reported.window, &reported.needed, out)?;
    out.push(b'\n')?;
    append_each(&reported.configurations, out)?;
    Ok(())
}

/// Appends a line that a text follows.
fn append_line(line: usize, text: &[u8], out: &mut Vec<u8>) -> Result<(), AllocError>
    ensures { OnOk result (out.new.items ≡ out.old.items
        ++ ((codes "line " ++ decimal line) ++ text.now)) }
{
    append_number(b"line ", line as u64, out)?;
    out.extend_from_slice(text)?;
    Ok(())
}

/// What is expected where a text has this form, and is that of no line.
fn form_text(form: LogForm) -> &'static [u8]
    ensures { result.now ≡ form_text form }
{
    match form {
        LogForm::Service => {
            b": service PATTERN NUMBER NODES FIRST SECOND is expected, as service event 7 2 2 0; \
            a pattern is publish-subscribe, event, request-response or blackboard\n"
        }
        LogForm::State => {
            b": state .. is expected, as state nodes 20, state nodes 20 locked, state listener 4, \
            state 0 17 register 1.0.0.1 or state 3 2 add listener 1.0.0.2 1.0.0.1\n"
        }
        LogForm::Register => {
            b": register NODE is expected, as register 1.0.0.1, and no space behind it\n"
        }
        LogForm::Deregister => {
            b": deregister NUMBER or deregister SLOT TICKET is expected, as deregister 0 3, \
            and no space behind it\n"
        }
        LogForm::Nodes => b": nodes is expected, and nothing behind it, not even a space\n",
        LogForm::Add => {
            b": add ROLE PORT NODE is expected, as add listener 1.0.0.2 1.0.0.1, \
            and no space behind it\n"
        }
        LogForm::Release => {
            b": release NUMBER or release ROLE SLOT TICKET is expected, as release listener 1 0, \
            and no space behind it\n"
        }
        LogForm::List => b": list ROLE is expected, as list listener, and no space behind it\n",
        LogForm::Count => {
            b": count ROLE is expected, as count listener, and no space behind it\n"
        }
        LogForm::Dead => {
            b": dead NODE or dead NODE skip PORT .. is expected, as dead 1.0.0.1, \
            and no space behind it\n"
        }
        LogForm::WeakNodes => {
            b": CALLER> nodes? is expected, as A> nodes?, and no space behind it\n"
        }
        LogForm::WeakList => {
            b": CALLER> list? ROLE is expected, as A> list? listener, and no space behind it\n"
        }
        LogForm::Begin => {
            b": CALLER> COMMAND is expected, as A> nodes; a name has 1 to 16 letters and digits\n"
        }
        LogForm::End => {
            b": CALLER< REPLY is expected, as A< list, with no number before it; \
            a name has 1 to 16 letters and digits\n"
        }
        LogForm::Crash => {
            b": CALLER! is expected, as A!, with no number before it; \
            a name has 1 to 16 letters and digits\n"
        }
        LogForm::Numbered => {
            b": NUMBER: COMMAND, NUMBER: CALLER> COMMAND or NUMBER: state .. is expected, \
            as 7: A> nodes; NUMBER is that of a service above\n"
        }
        LogForm::Unknown => {
            b": a line that begins with register, deregister, nodes, add, release, list, count, \
            dead, state, service or a caller, whose name has 1 to 16 letters and digits, \
            is expected\n"
        }
    }
}

/// What a line should have been.
fn expected_text(expected: Expected) -> &'static [u8]
    ensures { result.now ≡ expected_text expected }
{
    match expected {
        Expected::Service => {
            b": the line of a service is expected, as service event 7 2 2 0; \
            a pattern is publish-subscribe, event, request-response or blackboard\n"
        }
        Expected::Call => {
            b": a line on a service above, by its number, or a new service is expected\n"
        }
        Expected::NewNumber => b": another number is expected: a service above has this one\n",
        Expected::CallAlone => {
            b": the command of a call is expected above its reply, as nodes above = list\n"
        }
        Expected::Form(form) => form_text(form),
        Expected::Reply => {
            b": a reply is expected, as handle 0 3, list 1000000000000000000000001, count 2 or \
            released; below a call alone with = before it\n"
        }
        Expected::IdleCaller => b": a caller without an open call is expected\n",
        Expected::OpenCall => b": a caller with an open call is expected\n",
        Expected::LiveCaller => b": a caller that has not died is expected\n",
        Expected::KnownCaller => b": a caller that has begun a call is expected\n",
        Expected::Newline => b": a newline is expected at the end of the line\n",
        Expected::State => b": a state of the service is expected\n",
        Expected::NoCarriageReturn => b": no carriage return is expected before the newline\n",
    }
}

/// The first text where the count is 1, else the second.
fn for_count(count: usize, one: &'static [u8], more: &'static [u8]) -> &'static [u8]
    ensures { result.now ≡ for_count count one.now more.now }
{
    if count == 1 { one } else { more }
}

/// Appends that so many calls conform, on so many services.
fn append_conforms(calls: usize, services: usize, out: &mut Vec<u8>) -> Result<(), AllocError>
    ensures { OnOk result (out.new.items ≡ out.old.items ++ conforms_text calls services) }
{
    append_number(b"conforms, ", calls as u64, out)?;
    append_number(
        for_count(calls, b" call on ", b" calls on "),
        services as u64,
        out,
    )?;
    out.extend_from_slice(for_count(services, b" service", b" services"))?;
    out.push(b'\n')?;
    Ok(())
}

/// What is reported of a line from which orders lead to too many configurations.
const MANY_CONFIGS: &[u8] = b": orders of the calls lead to more than 4,096 configurations\n";

/// What is reported of a line from which too many calls are open.
const MANY_OPEN: &[u8] = b": more than 64 calls are open\n";

/// Appends the text of a verdict.
pub(super) fn append_report(verdict: &Verdict, out: &mut Vec<u8>) -> Result<(), AllocError>
    ensures { OnOk result (out.new.items ≡ out.old.items ++ report_text verdict.now) }
{
    match verdict {
        Verdict::Conforms(calls, services) => append_conforms(*calls, *services, out),
        Verdict::Refused(reported) => append_refusal(reported, out),
        Verdict::ManyConfigs(line) => append_line(*line, MANY_CONFIGS, out),
        Verdict::ManyOpen(line) => append_line(*line, MANY_OPEN, out),
        Verdict::BadLine(line, expected) => append_line(*line, expected_text(*expected), out),
    }
}

/// Appends numbers, each in a line.
fn append_lines(numbers: &[usize], out: &mut Vec<u8>) -> Result<(), AllocError>
    ensures { OnOk result (out.new.items ≡ out.old.items ++ flat_map line_of numbers.now) }
{
    for number in numbers {
        append_decimal(*number as u64, out)?;
        out.push(b'\n')?;
    }
    Ok(())
}

impl Reported for Order {
    ghost text = { order_text };

    fn append(&self, out: &mut Vec<u8>) -> Result<(), AllocError> {
        append_number(b"service ", self.service, out)?;
        out.push(b'\n')?;
        append_lines(&self.lines, out)?;
        Ok(())
    }
}
