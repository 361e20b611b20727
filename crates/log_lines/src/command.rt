//! Commands as the lines of a log have them.
ghost use Rattle.std.specs.Prelude.{◌≡◌, ◌≢◌, IfNone, IfOk, IfSome};
ghost use Rattle.std.specs.Option.{option_map};
ghost use Rattle.line_streams.specs.Spelling.{Reads};
ghost use Rattle.iox2_container.specs.declared.container.handle.Role.{Role as OneRole};
ghost use Rattle.log_lines.specs.Commands.{HasBegun, HasText, IsHandle, IsRemoval, begun_in};
ghost use Rattle.log_lines.specs.Commands.{begun_text, command_text, handle_text, named, weak_text};

use iox2_container::container::Role;
use line_streams::{After, LineEnd, Number, Phrase, Then, after_word};
use service_descriptions::replay::{LineCommand, RoleName, command_before};
use std::alloc::{AllocError, Global};

/// A command as a line of a log has it.
#[derive(Drop)]
pub enum LogCommand {
    /// A command as scripts have it: a removal names an earlier command by its number.
    Numbered(LineCommand),
    /// Removes the node's entry with this slot and ticket.
    Deregister(usize, u64),
    /// Releases the port with this role, slot and ticket.
    Release(Role, usize, u64),
}

/// What a caller begins.
#[derive(Drop)]
pub enum BegunCall {
    /// A command.
    Command(LogCommand),
    /// A listing of the ports of this role, or of the nodes, that need not be a snapshot.
    Weak(Role),
}

/// A slot, or a ticket.
pub(crate) const NUMBER: Number = Number(u64::MAX);

/// The slot and the ticket that the bytes are.
fn handle_of(bytes: &[u8]) -> Option<(usize, u64)>
    ensures { Reads IsHandle handle_text (option_map (λ found. (found.0, found.1)) result)
        bytes.now }
{
    let two = Then(NUMBER, After(b" ", Then(NUMBER, LineEnd::Bytes)));
    let Some(((slot, (ticket, ())), _)) = two.read(bytes) else {
        return None;
    };
    Some((slot as usize, ticket))
}

/// The removal that names its handle whose text this is.
#[inline(always)]
fn removal_of(line: &[u8]) -> Option<LogCommand>
    ensures { Reads IsRemoval command_text (option_map named result) line.now }
{
    if let Some(rest) = after_word(line, b"deregister ") {
        let Some((slot, ticket)) = handle_of(rest) else {
            return None;
        };
        return Some(LogCommand::Deregister(slot, ticket));
    }
    let Some(rest) = after_word(line, b"release ") else {
        return None;
    };
    let handle = Then(NUMBER, After(b" ", Then(NUMBER, LineEnd::Bytes)));
    let Some(((role, (slot, (ticket, ()))), _)) = Then(RoleName, After(b" ", handle)).read(rest)
    else {
        return None;
    };
    Some(LogCommand::Release(role, slot as usize, ticket))
}

/// Parses the line of a call alone that names no service: a command as scripts have it, or a
/// removal that names its handle. Returns `None` where no command has this text. Most removals in
/// logs name their handle, so these are tried first.
#[inline(always)]
pub fn read_command(alloc: Global, line: &[u8]) -> Result<Option<LogCommand>, AllocError>
    ensures { IfOk result (λ found. Reads HasText command_text (option_map named found) line.now) }
{
    if let Some(removal) = removal_of(line) {
        return Ok(Some(removal));
    }
    match command_before(alloc, line, LineEnd::Bytes)? {
        Some((command, _)) => Ok(Some(LogCommand::Numbered(command))),
        None => Ok(None),
    }
}

/// The role that a weak listing with this text lists.
fn weak_role(line: &[u8]) -> Option<Role>
    ensures some { IfSome result (λ r. weak_text r ≡ line.now) }
    ensures none { IfNone result ((r : OneRole) → line.now ≢ weak_text r) }
{
    if line == b"nodes?".as_slice() {
        return Some(Role::Node);
    }
    let Some(rest) = after_word(line, b"list? ") else {
        return None;
    };
    let Some((role, rest)) = RoleName.read(rest) else {
        return None;
    };
    if !rest.is_empty() {
        return None;
    }
    Some(role)
}

/// What a caller begins with this text.
pub(crate) fn read_begun(alloc: Global, line: &[u8]) -> Result<Option<BegunCall>, AllocError>
    ensures { IfOk result (λ found. Reads HasBegun begun_text (option_map begun_in found)
        line.now) }
{
    if let Some(command) = read_command(alloc, line)? {
        return Ok(Some(BegunCall::Command(command)));
    }
    match weak_role(line) {
        Some(role) => Ok(Some(BegunCall::Weak(role))),
        None => Ok(None),
    }
}
