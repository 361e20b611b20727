//! The lines of replies, and of what answers commands. A list that answers a command is written as
//! the slots of its items are met.
ghost use Rattle.std.specs.Prelude.{◌≡◌, ◌+◌, ◌≤◌, ◌++◌, ◌∷◌, [], OnErr, OnOk};
ghost use Rattle.std.specs.Prelude.{codes, decimal, drop, length, take, vec_len};
ghost use Rattle.std.specs.List.{flat_map};
ghost use Rattle.iox2_container.specs.Steps.{listed};
ghost use Rattle.iox2_dynamic.specs.Ports.{ports_as};
ghost use Rattle.iox2_texts.specs.VerifyErrors.{verification_error_text};
ghost use Rattle.service_descriptions.specs.LineAnswers.{PutsText, PutsWord, WritesLine};
ghost use Rattle.service_descriptions.specs.LineAnswers.{kind_text, ports_text};
ghost use Rattle.service_descriptions.specs.Replies.{id_word, port_word, reply_line, reply_of};
ghost use Rattle.service_descriptions.specs.declared.replay.machine.reply.LineAnswer.TheVariants as answers;

use crate::replay::machine::{LineAnswer, LineReply, Reply};
use iox2_config::hash::PatternKind;
use iox2_container::container::{Attached, Role};
use iox2_dynamic::dynamic_config::{DynamicConfig, PortKind, PortRegistries, PortRoles};
use iox2_ids::identifiers::{Hexadecimal, UniqueNodeId};
use iox2_texts::attribute::AttributeVerificationError;
use iox2_texts::bounded::CallbackProgression;
use itoa::write_digits;
use std::alloc::AllocError;

/// Writes a word so that it ends at this index, and returns the index where it begins.
#[inline(always)]
fn write_word(word: &[u8], line: &mut [u8], end: usize) -> usize
    requires { (length word.now ≤ end) × (end ≤ length line.old) }
    ensures start { result + length word.now ≡ end }
    ensures written { drop result line.new ≡ word.now ++ drop end line.old }
{
    let at = end - word.len();
    line[at..end].copy_from_slice(word);
    at
}

/// Appends a line of a word and a number. The line is written from its end.
#[tactic(auto, using(crate::proofs::ReplyLines::few_digits))]
fn append_number(word: &[u8], n: u64, out: &mut Vec<u8>) -> Result<(), AllocError>
    requires { length word.now ≤ 16 }
    ensures ok { OnOk result (out.new.items ≡ out.old.items ++ (word.now ++ decimal n ++ 10 ∷ [])) }
    ensures err { OnErr result (out.new.items ≡ out.old.items) }
{
    let mut line = [0u8; 64];
    let at = write_word(b"\n", &mut line, 64);
    let at = write_digits(n, &mut line, at);
    let at = write_word(word, &mut line, at);
    out.extend_from_slice(&line[at..])
}

/// Appends a line of a word and two numbers. The line is written from its end.
#[tactic(auto, using(crate::proofs::ReplyLines::few_digits))]
#[inline(always)]
fn append_numbers(word: &[u8], first: u64, second: u64, out: &mut Vec<u8>) -> Result<(), AllocError>
    requires { length word.now ≤ 16 }
    ensures ok { OnOk result (out.new.items ≡ out.old.items
        ++ (word.now ++ decimal first ++ codes " " ++ decimal second ++ 10 ∷ [])) }
    ensures err { OnErr result (out.new.items ≡ out.old.items) }
{
    let mut line = [0u8; 64];
    let at = write_word(b"\n", &mut line, 64);
    let at = write_digits(second, &mut line, at);
    let at = write_word(b" ", &mut line, at);
    let at = write_digits(first, &mut line, at);
    let at = write_word(word, &mut line, at);
    out.extend_from_slice(&line[at..])
}

/// Appends a space and an id.
#[inline(always)]
fn append_id(id: u128, out: &mut Vec<u8>) -> Result<(), AllocError>
    ensures ok { OnOk result (out.new.items ≡ out.old.items ++ id_word id) }
    ensures err { OnErr result (take (vec_len out.old) out.new.items ≡ out.old.items) }
{
    let text = Hexadecimal::new(id);
    out.extend_from_slice(b" ")?;
    out.extend_from_slice(text.as_bytes())
}

/// Appends the line of a list of nodes or of ports.
fn append_ids<T: Attached>(items: &[T], out: &mut Vec<u8>) -> Result<(), AllocError>
    ensures ok { OnOk result (out.new.items ≡ out.old.items
        ++ (codes "list" ++ flat_map (λ item. id_word (T.number item)) items.now ++ 10 ∷ [])) }
    ensures err { OnErr result (take (vec_len out.old) out.new.items ≡ out.old.items) }
{
    out.extend_from_slice(b"list")?;
    for item in items {
        append_id(item.key(), out)?;
    }
    out.extend_from_slice(b"\n")
}

/// Writes what attributes lack, and a newline, so that the newline ends at this index, and returns
/// the index where it begins.
fn write_fault(fault: &AttributeVerificationError, line: &mut [u8], end: usize) -> usize
    requires { (512 ≤ end) × (end ≤ length line.old) }
    ensures start { (8 ≤ result) × (result ≤ end) }
    ensures written { drop result line.new
        ≡ verification_error_text fault.now ++ 10 ∷ drop end line.old }
{
    match fault {
        AttributeVerificationError::NonExistingKey(key) => {
            let at = write_word(b"\")\n", line, end);
            let at = write_word(key.as_bytes(), line, at);
            write_word(b"AttributeVerificationError::NonExistingKey(\"", line, at)
        }
        AttributeVerificationError::IncompatibleAttribute((key, value)) => {
            let at = write_word(b"\"))\n", line, end);
            let at = write_word(value.as_bytes(), line, at);
            let at = write_word(b"\", \"", line, at);
            let at = write_word(key.as_bytes(), line, at);
            write_word(
                b"AttributeVerificationError::IncompatibleAttribute((\"",
                line,
                at,
            )
        }
    }
}

/// Appends the line of what attributes lack. The line is written from its end.
fn append_fault(fault: &AttributeVerificationError, out: &mut Vec<u8>) -> Result<(), AllocError>
    ensures ok { OnOk result (out.new.items ≡ out.old.items
        ++ (codes "refused " ++ verification_error_text fault.now ++ 10 ∷ [])) }
    ensures err { OnErr result (out.new.items ≡ out.old.items) }
{
    let mut line = [0u8; 512];
    let at = write_fault(fault, &mut line, 512);
    let at = write_word(b"refused ", &mut line, at);
    out.extend_from_slice(&line[at..])
}

/// Appends the line of a reply without a list to a command that
/// has a line, perhaps a part of it where memory is refused.
#[inline(always)]
fn append_reply(reply: LineReply, out: &mut Vec<u8>) -> Result<(), AllocError>
    ensures ok { OnOk result (out.new.items ≡ out.old.items ++ reply_line (reply_of reply)) }
    ensures err { OnErr result (take (vec_len out.old) out.new.items ≡ out.old.items) }
{
    match reply {
        LineReply::Handle(handle) => {
            let (_, _, slot, ticket) = handle.into_parts();
            append_numbers(b"handle ", slot as u64, ticket, out)
        }
        LineReply::Locked => out.extend_from_slice(b"locked\n"),
        LineReply::Full => out.extend_from_slice(b"full\n"),
        LineReply::NotRegistered => out.extend_from_slice(b"not-registered\n"),
        LineReply::HasOwners => out.extend_from_slice(b"has-owners\n"),
        LineReply::NoMoreOwners => out.extend_from_slice(b"no-owners\n"),
        LineReply::PortsAttached => out.extend_from_slice(b"ports-attached\n"),
        LineReply::Released => out.extend_from_slice(b"released\n"),
        LineReply::NotOwned => out.extend_from_slice(b"not-owned\n"),
        LineReply::NoHandle => out.extend_from_slice(b"no-handle\n"),
        LineReply::Count(n) => append_number(b"count ", n as u64, out),
        LineReply::WrongPattern => out.extend_from_slice(b"wrong-pattern\n"),
    }
}

/// Appends the line of a reply, perhaps a part of it where memory is refused.
fn append_line(reply: &Reply, out: &mut Vec<u8>) -> Result<(), AllocError>
    ensures ok { OnOk result (out.new.items ≡ out.old.items ++ reply_line reply.now) }
    ensures err { OnErr result (take (vec_len out.old) out.new.items ≡ out.old.items) }
{
    match reply {
        Reply::Handle(handle) => append_reply(LineReply::Handle(*handle), out),
        Reply::Locked => append_reply(LineReply::Locked, out),
        Reply::Full => append_reply(LineReply::Full, out),
        Reply::NotRegistered => append_reply(LineReply::NotRegistered, out),
        Reply::HasOwners => append_reply(LineReply::HasOwners, out),
        Reply::NoMoreOwners => append_reply(LineReply::NoMoreOwners, out),
        Reply::PortsAttached => append_reply(LineReply::PortsAttached, out),
        Reply::Released => append_reply(LineReply::Released, out),
        Reply::NotOwned => append_reply(LineReply::NotOwned, out),
        Reply::NoHandle => append_reply(LineReply::NoHandle, out),
        Reply::Nodes(ids) => append_ids(ids, out),
        Reply::Ports(ports) => append_ids(ports, out),
        Reply::Count(n) => append_reply(LineReply::Count(*n), out),
        Reply::Verified => out.extend_from_slice(b"verified\n"),
        Reply::Refused(fault) => append_fault(fault, out),
        Reply::Layout(room) => {
            append_numbers(b"layout ", room.size() as u64, room.align() as u64, out)
        }
        Reply::NoLayout => out.extend_from_slice(b"no-layout\n"),
        Reply::Places(user_header, payload) => {
            append_numbers(b"places ", *user_header as u64, *payload as u64, out)
        }
        Reply::NoPlaces => out.extend_from_slice(b"no-places\n"),
        Reply::Compatible(true) => out.extend_from_slice(b"compatible\n"),
        Reply::Compatible(false) => out.extend_from_slice(b"incompatible\n"),
        Reply::NoAlignments => out.extend_from_slice(b"no-alignments\n"),
        Reply::WrongPattern => append_reply(LineReply::WrongPattern, out),
        Reply::NoDescription => out.extend_from_slice(b"no-description\n"),
    }
}

/// Appends the line of a reply with its newline. Where
/// memory is refused, the bytes are left as they were.
///
/// From `crates/services_tests/src/replay/serving.rt`:
///
/// ```
/// for reply in replies {
///     write_reply(reply, out)?;
/// }
/// ```
pub fn write_reply(reply: &Reply, out: &mut Vec<u8>) -> Result<(), AllocError>
    ensures ok { OnOk result (out.new.items ≡ out.old.items ++ reply_line reply.now) }
    ensures err { OnErr result (out.new.items ≡ out.old.items) }
{
    let before = out.len();
    let done = append_line(reply, out);
    if done.is_err() {
        out.truncate(before);
    }
    done
}

/// Appends a space and an id, or stops where memory is refused.
#[inline(always)]
fn put_id(id: u128, out: &mut Vec<u8>, done: &mut Result<(), AllocError>) -> CallbackProgression
    ensures { PutsWord (id_word id) (out.old.items, done.old) result (out.new.items, done.new) }
{
    match append_id(id, out) {
        Ok(()) => CallbackProgression::Continue,
        Err(refused) => {
            *done = Err(refused);
            CallbackProgression::Stop
        }
    }
}

/// Appends the ids of the nodes, up to the first that memory is refused for.
#[tactic(auto, using(iox2_dynamic::proofs::Callbacks::callbacks))]
fn put_nodes(service: &DynamicConfig, out: &mut Vec<u8>, done: &mut Result<(), AllocError>)
    ensures { PutsText (flat_map id_word (listed service.now.nodes.registry))
        (out.old.items, done.old) (out.new.items, done.new) }
{
    let mut put = |id: &UniqueNodeId| -> CallbackProgression
        ensures put { PutsWord (id_word id.now) (out.entry.now.items, done.entry.now)
            result (out.exit.now.items, done.exit.now) }
        ensures same { out.exit.ghost_name ≡ out.entry.ghost_name }
        ensures same_done { done.exit.ghost_name ≡ done.entry.ghost_name }
    { put_id(id.value(), out, done) };
    service.list_node_ids(&mut put);
}

/// Appends the ids of the ports of the first kind, up to the first that memory is refused for.
#[tactic(auto, using(iox2_dynamic::proofs::Callbacks::callbacks))]
fn put_first<A: PortKind, B: PortKind>(
    ports: &PortRegistries<A, B>,
    out: &mut Vec<u8>,
    done: &mut Result<(), AllocError>,
)
    ensures { PutsText (ports_text (ports_as A.details B.details ports.now).first)
        (out.old.items, done.old) (out.new.items, done.new) }
{
    let mut put = |details: &A| -> CallbackProgression
        ensures put { PutsWord (port_word (A.details details.now))
            (out.entry.now.items, done.entry.now) result (out.exit.now.items, done.exit.now) }
        ensures same { out.exit.ghost_name ≡ out.entry.ghost_name }
        ensures same_done { done.exit.ghost_name ≡ done.entry.ghost_name }
    { put_id((*details).into_details().port_id().value(), out, done) };
    ports.list_first(&mut put);
}

/// Appends the ids of the ports of the second kind, up to the first that memory is refused for.
#[tactic(auto, using(iox2_dynamic::proofs::Callbacks::callbacks))]
fn put_second<A: PortKind, B: PortKind>(
    ports: &PortRegistries<A, B>,
    out: &mut Vec<u8>,
    done: &mut Result<(), AllocError>,
)
    ensures { PutsText (ports_text (ports_as A.details B.details ports.now).second)
        (out.old.items, done.old) (out.new.items, done.new) }
{
    let mut put = |details: &B| -> CallbackProgression
        ensures put { PutsWord (port_word (B.details details.now))
            (out.entry.now.items, done.entry.now) result (out.exit.now.items, done.exit.now) }
        ensures same { out.exit.ghost_name ≡ out.entry.ghost_name }
        ensures same_done { done.exit.ghost_name ≡ done.entry.ghost_name }
    { put_id((*details).into_details().port_id().value(), out, done) };
    ports.list_second(&mut put);
}

/// Appends the ids of the ports of one of the two kinds, up to the first that memory is refused
/// for.
fn put_kind<A: PortKind, B: PortKind>(
    ports: &PortRegistries<A, B>,
    is_first: bool,
    out: &mut Vec<u8>,
    done: &mut Result<(), AllocError>,
)
    ensures { PutsText (kind_text is_first (ports_as A.details B.details ports.now))
        (out.old.items, done.old) (out.new.items, done.new) }
{
    if is_first {
        put_first(ports, out, done);
    } else {
        put_second(ports, out, done);
    }
}

/// Appends the ids of the ports of one of the pattern's two kinds, up to the first that memory is
/// refused for. Each kind has a callback of its own, so that no details are copied.
fn put_ports(
    service: &DynamicConfig,
    is_first: bool,
    out: &mut Vec<u8>,
    done: &mut Result<(), AllocError>,
)
    ensures { PutsText (kind_text is_first service.now.ports)
        (out.old.items, done.old) (out.new.items, done.new) }
{
    match service.kind() {
        PatternKind::PublishSubscribe => {
            put_kind(service.publish_subscribe(), is_first, out, done);
        }
        PatternKind::Event => put_kind(service.event(), is_first, out, done),
        PatternKind::RequestResponse => {
            put_kind(service.request_response(), is_first, out, done);
        }
        PatternKind::Blackboard => put_kind(service.blackboard(), is_first, out, done),
    }
}

/// Appends the line that lists the nodes, perhaps a part of it where memory is refused. It is not
/// inlined, so that its loop has all registers.
#[inline(never)]
fn append_nodes(service: &DynamicConfig, out: &mut Vec<u8>) -> Result<(), AllocError>
    ensures ok { OnOk result
        (WritesLine service.now answers.Nodes out.old.items out.new.items) }
    ensures err { OnErr result (take (vec_len out.old) out.new.items ≡ out.old.items) }
{
    out.extend_from_slice(b"list")?;
    let mut done = Ok(());
    put_nodes(service, out, &mut done);
    done?;
    out.extend_from_slice(b"\n")
}

/// Appends the line that lists the ports of a role, or says that the pattern has no such ports;
/// perhaps a part of it where memory is refused. It is not inlined, so that its loops have all
/// registers.
#[inline(never)]
fn append_ports(service: &DynamicConfig, role: Role, out: &mut Vec<u8>) -> Result<(), AllocError>
    ensures ok { OnOk result
        (WritesLine service.now (answers.Ports role) out.old.items out.new.items) }
    ensures err { OnErr result (take (vec_len out.old) out.new.items ≡ out.old.items) }
{
    let Some(is_first) = service.kind().side(role) else {
        return out.extend_from_slice(b"wrong-pattern\n");
    };
    out.extend_from_slice(b"list")?;
    let mut done = Ok(());
    put_ports(service, is_first, out, &mut done);
    done?;
    out.extend_from_slice(b"\n")
}

/// Appends the line of what answers a command on the service.
/// Where memory is refused, the bytes are left as they were.
#[inline(always)]
pub(super) fn write_line(
    answer: LineAnswer,
    service: &DynamicConfig,
    out: &mut Vec<u8>,
) -> Result<(), AllocError>
    ensures ok { OnOk result (WritesLine service.now answer out.old.items out.new.items) }
    ensures err { OnErr result (out.new.items ≡ out.old.items) }
{
    let before = out.len();
    let done = match answer {
        LineAnswer::Reply(reply) => append_reply(reply, out),
        LineAnswer::Nodes => append_nodes(service, out),
        LineAnswer::Ports(role) => append_ports(service, role, out),
    };
    if done.is_err() {
        out.truncate(before);
    }
    done
}
