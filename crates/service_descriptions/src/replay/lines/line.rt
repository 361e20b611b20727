//! The lines of a script: the first one, which makes its service, and command lines.
ghost use Rattle.std.specs.Prelude.{◌++◌, ℕ, IfOk, codes};
ghost use Rattle.std.specs.Option.{option_map};
ghost use Rattle.iox2_config.specs.declared.hash.input.PatternKind.{PatternKind as Kind};
ghost use Rattle.iox2_container.specs.declared.container.handle.Role.{Role as OneRole};
ghost use Rattle.iox2_dynamic.specs.declared.dynamic_config.port_details.PortDetails.{PortDetails as Details};
ghost use Rattle.line_streams.specs.Spelling.{Reads};
ghost use Rattle.service_descriptions.specs.Lines.{command_of, line_of, HasLine, IsLine, line_text};
ghost use Rattle.service_descriptions.specs.Lines.{plain_of, value_of};
ghost use Rattle.service_descriptions.specs.Phrases.{id_one, node_id_one, pattern_one, port_one};
ghost use Rattle.service_descriptions.specs.Phrases.{role_one};
ghost use Rattle.service_descriptions.specs.Phrases.{id_phrase, node_id_phrase, pattern_phrase};
ghost use Rattle.service_descriptions.specs.Phrases.{port_phrase, role_phrase};
ghost use Rattle.service_descriptions.specs.Script.{IsServiceFront, service_front};

use crate::replay::machine::{Command, LineCommand, Parts, ScriptPort};
use iox2_config::hash::PatternKind;
use iox2_container::container::Role;
use iox2_ids::identifiers::{UniqueNodeId, UniqueReaderId};
use line_streams::{After, LineEnd, Number, Phrase, Then, after_word, list_before};
use std::alloc::{AllocError, Global};

/// A number of 64 bits.
const NUMBER: Number = Number(u64::MAX);

/// What the first line of a script says of its service.
#[derive(Clone, Copy)]
pub struct ServiceLine {
    /// The pattern.
    pub pattern: PatternKind,
    /// The number of the service.
    pub number: u64,
    /// How many nodes may be registered at a time.
    pub max_nodes: usize,
    /// How many of the ports that are recovered first may be attached at a time.
    pub first: usize,
    /// How many of the other ports may be attached at a time.
    pub second: usize,
}

/// The word for a pattern, and a space.
#[derive(Clone, Copy)]
struct PatternName;

impl<'a> Phrase<'a> for PatternName {
    type Value = PatternKind;

    ghost Seen = { Kind };

    ghost view = { λ kind. kind };

    ghost spelling = { λ s. pattern_phrase };

    fn read(&self, bytes: &'a [u8]) -> Option<(PatternKind, &'a [u8])> {
        for kind in PatternKind::ALL {
            if let Some(rest) = after_word(bytes, kind.word().as_bytes())
                && let Some(rest) = after_word(rest, b" ")
            {
                return Some((kind, rest));
            }
        }
        None
    }

    ghost one_way = { λ s. pattern_one };
}

/// The service line with its newline that begins these bytes, and what follows the newline.
pub fn service_before(bytes: &[u8]) -> Option<(ServiceLine, &[u8])>
    ensures { Reads IsServiceFront service_front
        (option_map (λ found. (found.0, found.1.now)) result) bytes.now }
{
    let second = After(b" ", Then(NUMBER, LineEnd::Newline));
    let first = After(b" ", Then(NUMBER, second));
    let max_nodes = After(b" ", Then(NUMBER, first));
    let service = After(b"service ", Then(PatternName, Then(NUMBER, max_nodes)));
    let Some(((pattern, (number, (max_nodes, (first, (second, ()))))), rest)) = service.read(bytes)
    else {
        return None;
    };
    let service = ServiceLine {
        pattern,
        number,
        max_nodes: max_nodes as usize,
        first: first as usize,
        second: second as usize,
    };
    Some((service, rest))
}

/// A part of an id.
const PART: Number = Number(u32::MAX as u64);

/// An id: four numbers, joined by dots.
#[derive(Clone, Copy)]
struct Id;

impl<'a> Phrase<'a> for Id {
    type Value = Parts;

    ghost Seen = { ℕ };

    ghost view = { value_of };

    ghost spelling = { λ s. id_phrase };

    #[inline(always)]
    fn read(&self, bytes: &'a [u8]) -> Option<(Parts, &'a [u8])> {
        let four = Then(
            PART,
            After(b".", Then(PART, After(b".", Then(PART, After(b".", PART))))),
        );
        let Some(((process, (seconds, (nanoseconds, counter))), rest)) = four.read(bytes) else {
            return None;
        };
        let parts = Parts {
            process: process as u32,
            seconds: seconds as u32,
            nanoseconds: nanoseconds as u32,
            counter: counter as u32,
        };
        Some((parts, rest))
    }

    ghost one_way = { λ s. id_one };
}

/// An id, as its number.
#[derive(Clone, Copy)]
struct IdNumber;

impl<'a> Phrase<'a> for IdNumber {
    type Value = u128;

    ghost Seen = { ℕ };

    ghost view = { λ n. n };

    ghost spelling = { λ s. id_phrase };

    #[inline(always)]
    fn read(&self, bytes: &'a [u8]) -> Option<(u128, &'a [u8])> {
        let (parts, rest) = Id.read(bytes)?;
        let id: UniqueReaderId = parts.id();
        Some((id.value(), rest))
    }

    ghost one_way = { λ s. id_one };
}

/// The id of a node: process or counter is not 0.
#[derive(Clone, Copy)]
struct NodeId;

impl<'a> Phrase<'a> for NodeId {
    type Value = UniqueNodeId;

    ghost Seen = { ℕ };

    ghost view = { λ id. id };

    ghost spelling = { λ s. node_id_phrase };

    #[inline(always)]
    fn read(&self, bytes: &'a [u8]) -> Option<(UniqueNodeId, &'a [u8])> {
        let Some((parts, rest)) = Id.read(bytes) else {
            return None;
        };
        let Parts {
            process,
            seconds,
            nanoseconds,
            counter,
        } = parts;
        let Some(id) = UniqueNodeId::new(process, seconds, nanoseconds, counter) else {
            return None;
        };
        Some((id, rest))
    }

    ghost one_way = { λ s. node_id_one };
}

/// The name of a role of ports.
#[derive(Clone, Copy)]
pub struct RoleName;

impl<'a> Phrase<'a> for RoleName {
    type Value = Role;

    ghost Seen = { OneRole };

    ghost view = { λ r. r };

    ghost spelling = { λ s. role_phrase };

    #[inline(always)]
    fn read(&self, bytes: &'a [u8]) -> Option<(Role, &'a [u8])> {
        if let Some(rest) = after_word(bytes, b"publisher") {
            Some((Role::Publisher, rest))
        } else if let Some(rest) = after_word(bytes, b"subscriber") {
            Some((Role::Subscriber, rest))
        } else if let Some(rest) = after_word(bytes, b"listener") {
            Some((Role::Listener, rest))
        } else if let Some(rest) = after_word(bytes, b"notifier") {
            Some((Role::Notifier, rest))
        } else if let Some(rest) = after_word(bytes, b"server") {
            Some((Role::Server, rest))
        } else if let Some(rest) = after_word(bytes, b"client") {
            Some((Role::Client, rest))
        } else if let Some(rest) = after_word(bytes, b"reader") {
            Some((Role::Reader, rest))
        } else if let Some(rest) = after_word(bytes, b"writer") {
            Some((Role::Writer, rest))
        } else {
            None
        }
    }

    ghost one_way = { λ s. role_one };
}

/// A port: its role, its id and its node.
#[derive(Clone, Copy)]
struct Port;

impl<'a> Phrase<'a> for Port {
    type Value = ScriptPort;

    ghost Seen = { Details };

    ghost view = { plain_of };

    ghost spelling = { λ s. port_phrase };

    fn read(&self, bytes: &'a [u8]) -> Option<(ScriptPort, &'a [u8])> {
        let three = Then(RoleName, After(b" ", Then(Id, After(b" ", NodeId))));
        let Some(((role, (port, node)), rest)) = three.read(bytes) else {
            return None;
        };
        Some((ScriptPort { role, port, node }, rest))
    }

    ghost one_way = { λ s. port_one };
}

/// The name of an earlier command: how many commands come before it.
const EARLIER: Number = Number(u64::MAX);

/// The command whose line is `dead ` and begins these bytes after that, and what follows its end.
#[inline(always)]
fn dead_before(
    alloc: Global,
    bytes: &[u8],
    end: LineEnd,
) -> Result<Option<(LineCommand, &[u8])>, AllocError>
    ensures { IfOk result (λ found. Reads (IsLine end) (line_text end)
        (option_map (λ found. (command_of found.0, found.1.now)) found)
        (codes "dead " ++ bytes.now)) }
{
    let Some((node, rest)) = NodeId.read(bytes) else {
        return Ok(None);
    };
    let Some((kept, rest)) = list_before(alloc, rest, b" skip ", b' ', &IdNumber)? else {
        return Ok(None);
    };
    let Some(((), rest)) = end.read(rest) else {
        return Ok(None);
    };
    Ok(Some((LineCommand::Dead(node, kept), rest)))
}

/// The command whose line begins these bytes, and what follows its end.
#[inline(always)]
pub fn command_before(
    alloc: Global,
    bytes: &[u8],
    end: LineEnd,
) -> Result<Option<(LineCommand, &[u8])>, AllocError>
    ensures { IfOk result (λ found. Reads (IsLine end) (line_text end)
        (option_map (λ found. (command_of found.0, found.1.now)) found) bytes.now) }
{
    if let Some(((node, ()), rest)) = After(b"register ", Then(NodeId, end)).read(bytes) {
        Ok(Some((LineCommand::Register(node), rest)))
    } else if let Some(((k, ()), rest)) = After(b"deregister ", Then(EARLIER, end)).read(bytes) {
        Ok(Some((LineCommand::Deregister(k as usize), rest)))
    } else if let Some(((port, ()), rest)) = After(b"add ", Then(Port, end)).read(bytes) {
        Ok(Some((LineCommand::Add(port), rest)))
    } else if let Some(((k, ()), rest)) = After(b"release ", Then(EARLIER, end)).read(bytes) {
        Ok(Some((LineCommand::Release(k as usize), rest)))
    } else if let Some(((role, ()), rest)) = After(b"list ", Then(RoleName, end)).read(bytes) {
        Ok(Some((LineCommand::List(role), rest)))
    } else if let Some(((role, ()), rest)) = After(b"count ", Then(RoleName, end)).read(bytes) {
        Ok(Some((LineCommand::Count(role), rest)))
    } else if let Some(rest) = after_word(bytes, b"nodes") {
        let Some(((), rest)) = end.read(rest) else {
            return Ok(None);
        };
        Ok(Some((LineCommand::Nodes, rest)))
    } else if let Some(rest) = after_word(bytes, b"dead ") {
        dead_before(alloc, rest, end)
    } else {
        Ok(None)
    }
}

/// Parses a line without its newline as a command, or returns `None` where it is not the text of
/// one.
///
/// The lines are `register NODE`, `deregister NUMBER`, `nodes`, `add ROLE PORT NODE`, `release
/// NUMBER`, `list ROLE`, `count ROLE`, `dead NODE` and `dead NODE skip PORT ..`. Words are
/// separated by exactly one space, with none at either end. A number has no leading zero and no
/// sign and fits its type; an id is four `u32` numbers joined by three dots (process, seconds,
/// nanoseconds, counter), and of a node's id process or counter is not 0. So each command has one
/// text.
///
/// From `crates/services_tests/src/replay/line_runs.rt`:
///
/// ```
/// let Some(command) = read_line(alloc, line.as_bytes())? else {
///     return out.extend_from_slice(b"?\n");
/// };
/// ```
pub fn read_line(alloc: Global, line: &[u8]) -> Result<Option<Command>, AllocError>
    ensures { IfOk result (λ found. Reads HasLine line_of found line.now) }
{
    match command_before(alloc, line, LineEnd::Bytes)? {
        Some((command, _)) => Ok(Some(command.command())),
        None => Ok(None),
    }
}
