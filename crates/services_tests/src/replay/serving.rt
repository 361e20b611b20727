//! Services that tests make, the commands that lines spell, and the lines of replies.

use service_descriptions::dynamic_config::MessagingPatternSettings;
use service_descriptions::hash::PatternKind;
use service_descriptions::replay::{Command, Reply, ServiceState, read_line, replay, write_reply};
use std::alloc::{AllocError, Global};
use std::str::Split;
use std::test::Fail;

/// The pattern of this word.
fn pattern(word: &str) -> Option<PatternKind> {
    for kind in PatternKind::ALL {
        if kind.word() == word {
            return Some(kind);
        }
    }
    None
}

/// The number that the next word spells.
fn next_number(words: &mut Split<'_, char>) -> Option<usize> {
    words.next()?.parse().ok()
}

/// The number, the room for nodes and the settings that follow the first word of a service line.
fn asked(line: &str) -> Option<(u64, usize, MessagingPatternSettings)> {
    let mut words = line.split(' ');
    let pattern = pattern(words.next()?)?;
    let number = next_number(&mut words)?;
    let max_nodes = next_number(&mut words)?;
    let first = next_number(&mut words)?;
    let second = next_number(&mut words)?;
    let settings = MessagingPatternSettings::new(pattern, first, second);
    Some((number as u64, max_nodes, settings))
}

/// The service that a script's first line asks for.
pub(super) fn new_service(alloc: Global, line: &str) -> Result<Box<ServiceState>, Fail> {
    let words = line.strip_prefix("service ").ok_or("a service line")?;
    let (number, max_nodes, settings) = asked(words).ok_or("a service line")?;
    Ok(Box::new(
        alloc,
        ServiceState::new(alloc, &settings, max_nodes, number)?,
    )?)
}

/// Appends the commands that these lines spell.
pub(super) fn spell(
    alloc: Global,
    lines: &[&str],
    commands: &mut Vec<Command>,
) -> Result<(), AllocError> {
    for line in lines {
        if let Some(command) = read_line(alloc, line.as_bytes())? {
            commands.push(command)?;
        }
    }
    Ok(())
}

/// Appends the lines of replies.
pub(super) fn write_replies(replies: &[Reply], out: &mut Vec<u8>) -> Result<(), AllocError> {
    for reply in replies {
        write_reply(reply, out)?;
    }
    Ok(())
}

/// Gives the commands to the service in one call, and appends the lines of its replies.
pub(super) fn serve(
    alloc: Global,
    state: &mut ServiceState,
    commands: &[Command],
    out: &mut Vec<u8>,
) -> Result<(), AllocError> {
    let mut replies = Vec::new(alloc);
    replay(alloc, state, commands, &mut replies)?;
    write_replies(&replies, out)
}
