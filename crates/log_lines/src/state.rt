//! What the lines of a log give of a service that was in use.
ghost use Rattle.std.specs.Prelude.{◌≡◌, ◌≢◌, ℕ, IfNone, IfOk, IfSome};
ghost use Rattle.std.specs.Option.{option_map};
ghost use Rattle.line_streams.specs.Spelling.{Reads};
ghost use Rattle.service_descriptions.specs.declared.replay.machine.command.Command.{Command};
ghost use Rattle.service_descriptions.specs.Lines.{command_of};
ghost use Rattle.log_lines.specs.States.{AddsEntry, HasEntry, HasNodes, HasPorts, HasState};
ghost use Rattle.log_lines.specs.States.State.{entry};
ghost use Rattle.log_lines.specs.States.{entry_text, nodes_text, ports_text, state_seen, state_text};

use super::command::NUMBER;
use iox2_container::container::Role;
use iox2_ids::identifiers::UniqueNodeId;
use line_streams::{After, LineEnd, Phrase, Then, after_word};
use service_descriptions::replay::{LineCommand, RoleName, ScriptPort, command_before};
use std::alloc::{AllocError, Global};

/// What a line gives of a service that was in use.
#[derive(Drop)]
pub enum LogState {
    /// How many tickets of its nodes were used, and whether it is locked.
    Nodes(u64, bool),
    /// The role of ports, and how many of their tickets were used.
    Ports(Role, u64),
    /// An entry of a node: its slot, its ticket and its id.
    Node(usize, u64, UniqueNodeId),
    /// A port: its slot, its ticket and its details.
    Port(usize, u64, ScriptPort),
}

/// The used tickets of the nodes that the text is, and whether the service is locked.
fn nodes_of(text: &[u8]) -> Option<(u64, bool)>
    ensures { Reads HasNodes nodes_text (option_map (λ found. (found.0, found.1)) result)
        text.now }
{
    let Some(rest) = after_word(text, b"nodes ") else {
        return None;
    };
    if let Some(((used, ()), _)) = Then(NUMBER, LineEnd::Bytes).read(rest) {
        return Some((used, false));
    }
    let Some(((used, ()), _)) = Then(NUMBER, After(b" locked", LineEnd::Bytes)).read(rest) else {
        return None;
    };
    Some((used, true))
}

/// The used tickets of the ports of a role that the text is.
fn ports_of(text: &[u8]) -> Option<(Role, u64)>
    ensures { Reads HasPorts ports_text (option_map (λ found. (found.0, found.1)) result)
        text.now }
{
    let line = Then(RoleName, After(b" ", Then(NUMBER, LineEnd::Bytes)));
    let Some(((role, (used, ())), _)) = line.read(text) else {
        return None;
    };
    Some((role, used))
}

/// The entry that a command adds, with this slot and this ticket.
fn added(slot: usize, ticket: u64, command: &LineCommand) -> Option<LogState>
    ensures some { IfSome result (λ given. AddsEntry (command_of command.now)
        × (state_seen given ≡ entry slot ticket (command_of command.now))) }
    ensures none { IfNone result (¬ (AddsEntry (command_of command.now))) }
{
    match command {
        LineCommand::Register(id) => Some(LogState::Node(slot, ticket, *id)),
        LineCommand::Add(port) => Some(LogState::Port(slot, ticket, *port)),
        _ => None,
    }
}

/// The entry that the text is.
fn entry_of(alloc: Global, text: &[u8]) -> Result<Option<LogState>, AllocError>
    ensures some { IfOk result (λ found. IfSome found (λ given.
        HasState (state_seen given) × (text.now ≡ state_text (state_seen given)))) }
    ensures none { IfOk result (λ found. IfNone found ((slot ticket : ℕ) (c : Command)
        → HasEntry slot ticket c → text.now ≢ entry_text slot ticket c)) }
{
    let two = Then(NUMBER, After(b" ", NUMBER));
    let Some(((slot, ticket), rest)) = two.read(text) else {
        return Ok(None);
    };
    let Some(rest) = after_word(rest, b" ") else {
        return Ok(None);
    };
    let Some((command, _)) = command_before(alloc, rest, LineEnd::Bytes)? else {
        return Ok(None);
    };
    Ok(added(slot as usize, ticket, &command))
}

/// What is given by a line whose text this is, behind `state `.
pub(crate) fn read_state(alloc: Global, text: &[u8]) -> Result<Option<LogState>, AllocError>
    ensures { IfOk result (λ found. Reads HasState state_text (option_map state_seen found)
        text.now) }
{
    if let Some((used, locked)) = nodes_of(text) {
        return Ok(Some(LogState::Nodes(used, locked)));
    }
    if let Some((role, used)) = ports_of(text) {
        return Ok(Some(LogState::Ports(role, used)));
    }
    match entry_of(alloc, text)? {
        Some(entry) => Ok(Some(entry)),
        None => Ok(None),
    }
}
