//! A node that dies twice: the first time its ports are answered in order and two of them stay, the
//! second time all go.

use super::serving::spell;
use service_descriptions::dynamic_config::PortCleanupAction;
use service_descriptions::dynamic_config::PortCleanupAction::{RemovePort, SkipPort};
use service_descriptions::identifiers::UniqueNodeId;
use service_descriptions::replay::{Cleanup, Command};
use std::alloc::{AllocError, Global};

/// A node and two ports of each kind.
static COMING: [&str; 5] = [
    "register 1.0.0.1",
    "add publisher 1.0.0.11 1.0.0.1",
    "add publisher 1.0.0.12 1.0.0.1",
    "add subscriber 1.0.0.13 1.0.0.1",
    "add subscriber 1.0.0.14 1.0.0.1",
];

static LISTINGS: [&str; 3] = ["list publisher", "list subscriber", "nodes"];

/// Appends the command of a dead node, with these answers in order.
fn die(
    alloc: Global,
    dead: UniqueNodeId,
    answers: &[PortCleanupAction],
    commands: &mut Vec<Command>,
) -> Result<(), AllocError> {
    let mut list = Vec::new(alloc);
    list.extend_from_slice(answers)?;
    commands.push(Command::Dead(dead, Cleanup::ByOrder(list)))?;
    Ok(())
}

/// The commands, of which those of the death have no line. On a service with room for them their
/// replies are `DIED_TWICE` of the worked scripts.
pub(super) fn commands(alloc: Global, dead: UniqueNodeId) -> Result<Vec<Command>, AllocError> {
    let mut commands = Vec::new(alloc);
    spell(alloc, &COMING, &mut commands)?;
    die(
        alloc,
        dead,
        &[RemovePort, SkipPort, SkipPort],
        &mut commands,
    )?;
    spell(alloc, &LISTINGS, &mut commands)?;
    // After the end of its answers a cleanup removes.
    die(alloc, dead, &[], &mut commands)?;
    spell(alloc, &LISTINGS, &mut commands)?;
    Ok(commands)
}
