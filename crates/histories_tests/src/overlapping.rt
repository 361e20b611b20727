//! Histories of calls that overlapped, with what becomes of them.

use histories::{Advance, Event, Front, MAX_OPEN, advance, start};
use iox2_container::container::{ContainerHandle, Role};
use iox2_dynamic::dynamic_config::MessagingPatternSettings;
use iox2_dynamic::dynamic_config::event::DynamicConfigSettings;
use line_streams::LineEnd;
use service_conformance::conformance::{
    Calls, JudgedCall, SeenCall, ServiceCheck, WatchedService, read_reply,
};
use service_descriptions::replay::{LineCommand, command_before};
use std::alloc::{AllocError, Global};
use std::process::Abort;
use std::test::Fail;

/// A command's line, the handle that it names, and the words of its reply; none where it was never
/// answered.
pub(crate) type Call = (&'static str, Option<(Role, usize, u64)>, &'static str);

/// A history of calls on an event service for three nodes, two listeners and two notifiers.
#[derive(Clone, Copy)]
struct Row {
    /// The calls, by their begins.
    calls: &'static [Call],
    /// Their begins and ends.
    events: &'static [Event],
    /// What becomes of it.
    found: Found,
}

/// What becomes of a history.
#[derive(Clone, Copy, Debug, PartialEq, Eq)]
enum Found {
    /// It is explained, and orders have left so many configurations.
    Left(usize),
    /// No order explains it up to this event.
    Refused(usize),
    /// Not decided.
    Other,
}

const LIST_1: &str = "list 1000000000000000000000001";

pub(crate) const REGISTER_1: Call = ("register 1.0.0.1", None, "handle 0 0");

pub(crate) const NONE_LISTED: Call = ("nodes", None, "list");

pub(crate) const ONE_LISTED: Call = ("nodes", None, LIST_1);

/// A node is registered by a call that is never answered.
const OPEN_1: Call = ("register 1.0.0.1", None, "");

const ROWS: [Row; 14] = [
    // A list saw the node while it was registered, and a later list did not.
    Row {
        calls: &[REGISTER_1, ONE_LISTED, NONE_LISTED],
        events: &[
            Event::Begin(0),
            Event::Begin(1),
            Event::End(1),
            Event::Begin(2),
            Event::End(2),
            Event::End(0),
        ],
        found: Found::Refused(4),
    },
    // The other way round.
    Row {
        calls: &[REGISTER_1, NONE_LISTED, ONE_LISTED],
        events: &[
            Event::Begin(0),
            Event::Begin(1),
            Event::End(1),
            Event::Begin(2),
            Event::End(2),
            Event::End(0),
        ],
        found: Found::Left(1),
    },
    // The lists overlapped each other.
    Row {
        calls: &[REGISTER_1, ONE_LISTED, NONE_LISTED],
        events: &[
            Event::Begin(0),
            Event::Begin(1),
            Event::Begin(2),
            Event::End(1),
            Event::End(2),
            Event::End(0),
        ],
        found: Found::Left(1),
    },
    // A caller crashed: its node was registered.
    Row {
        calls: &[OPEN_1, ONE_LISTED],
        events: &[
            Event::Begin(0),
            Event::Crash(0),
            Event::Begin(1),
            Event::End(1),
        ],
        found: Found::Left(3),
    },
    // Or it was not.
    Row {
        calls: &[OPEN_1, NONE_LISTED],
        events: &[
            Event::Begin(0),
            Event::Crash(0),
            Event::Begin(1),
            Event::End(1),
        ],
        found: Found::Left(1),
    },
    // But not after it crashed.
    Row {
        calls: &[OPEN_1, NONE_LISTED, ONE_LISTED],
        events: &[
            Event::Begin(0),
            Event::Crash(0),
            Event::Begin(1),
            Event::End(1),
            Event::Begin(2),
            Event::End(2),
        ],
        found: Found::Refused(5),
    },
    // A caller that says nothing more may register its node at any time.
    Row {
        calls: &[OPEN_1, NONE_LISTED, ONE_LISTED],
        events: &[
            Event::Begin(0),
            Event::Begin(1),
            Event::End(1),
            Event::Begin(2),
            Event::End(2),
        ],
        found: Found::Left(3),
    },
    // A later call shows the slot.
    Row {
        calls: &[
            OPEN_1,
            ("deregister 0", Some((Role::Node, 1, 0)), "no-owners"),
            NONE_LISTED,
        ],
        events: &[
            Event::Begin(0),
            Event::Begin(1),
            Event::End(1),
            Event::Begin(2),
            Event::End(2),
        ],
        found: Found::Left(1),
    },
    // No slot has the number.
    Row {
        calls: &[
            OPEN_1,
            ("deregister 0", Some((Role::Node, 3, 0)), "no-owners"),
        ],
        events: &[Event::Begin(0), Event::Begin(1), Event::End(1)],
        found: Found::Refused(2),
    },
    // A handle that is not known yet, and one that is none.
    Row {
        calls: &[
            ("deregister 0", Some((Role::Node, 0, 0)), "not-owned"),
            ("release 5", None, "no-handle"),
            REGISTER_1,
            ("deregister 9", Some((Role::Node, 0, 0)), "no-owners"),
        ],
        events: &[
            Event::Begin(0),
            Event::End(0),
            Event::Begin(1),
            Event::End(1),
            Event::Begin(2),
            Event::End(2),
            Event::Begin(3),
            Event::End(3),
        ],
        found: Found::Left(1),
    },
    // A node and its listener.
    Row {
        calls: &[
            REGISTER_1,
            ("add listener 1.0.0.9 1.0.0.1", None, "handle 1 0"),
            ("list listener", None, "list 1000000000000000000000009"),
            ("count listener", None, "count 1"),
            ("release 1", Some((Role::Listener, 1, 0)), "released"),
            ("dead 1.0.0.1", None, "no-owners"),
        ],
        events: &[
            Event::Begin(0),
            Event::End(0),
            Event::Begin(1),
            Event::Begin(2),
            Event::End(1),
            Event::Begin(3),
            Event::End(2),
            Event::End(3),
            Event::Begin(4),
            Event::Begin(5),
            Event::End(4),
            Event::End(5),
        ],
        found: Found::Left(1),
    },
    // A list of another node, of more nodes, and another count.
    Row {
        calls: &[
            REGISTER_1,
            ("nodes", None, "list 1000000000000000000000002"),
        ],
        events: &[
            Event::Begin(0),
            Event::End(0),
            Event::Begin(1),
            Event::End(1),
        ],
        found: Found::Refused(3),
    },
    Row {
        calls: &[
            REGISTER_1,
            (
                "nodes",
                None,
                "list 1000000000000000000000001 1000000000000000000000001",
            ),
        ],
        events: &[
            Event::Begin(0),
            Event::End(0),
            Event::Begin(1),
            Event::End(1),
        ],
        found: Found::Refused(3),
    },
    Row {
        calls: &[("count listener", None, "count 1")],
        events: &[Event::Begin(0), Event::End(0)],
        found: Found::Refused(1),
    },
];

/// The command of a line.
fn command(alloc: Global, line: &str) -> Result<Option<LineCommand>, AllocError> {
    match command_before(alloc, line.as_bytes(), LineEnd::Bytes)? {
        Some((command, _)) => Ok(Some(command)),
        None => Ok(None),
    }
}

/// The calls as they were seen.
pub(crate) fn calls_of(alloc: Global, calls: &[Call]) -> Result<Vec<JudgedCall>, AllocError> {
    let mut list = Vec::new(alloc);
    for (line, named, words) in calls {
        let handle = match named {
            Some((role, slot, ticket)) => {
                Some(ContainerHandle::from_parts(7, *role, *slot, *ticket))
            }
            None => None,
        };
        if let Some(command) = command(alloc, line)? {
            let mut call = JudgedCall::call(SeenCall::new(command, handle));
            if let Some(reply) = read_reply(alloc, words.as_bytes())? {
                call.answer(reply);
            }
            list.push(call)?;
        }
    }
    Ok(list)
}

/// What becomes of a history, from this front on.
fn found_on(
    alloc: Global,
    machine: &Calls<'_>,
    front: &mut Front<WatchedService>,
    events: &[Event],
) -> Result<Found, AllocError> {
    for at in 0..events.len() {
        if front.slots.len() > MAX_OPEN {
            return Ok(Found::Other);
        }
        match advance(alloc, machine, front, events[at])? {
            Advance::Done => (),
            Advance::Refused => return Ok(Found::Refused(at)),
            _ => return Ok(Found::Other),
        }
    }
    Ok(Found::Left(front.configs.len()))
}

/// The new service.
pub(crate) fn new_service(alloc: Global) -> Result<WatchedService, AllocError> {
    let settings = MessagingPatternSettings::Event(DynamicConfigSettings {
        number_of_listeners: 2,
        number_of_notifiers: 2,
    });
    let service = ServiceCheck::new(alloc, &settings, 3, 7);
    WatchedService::new(alloc, &service)
}

/// What becomes of a history.
fn judged(alloc: Global, calls: &[JudgedCall], events: &[Event]) -> Result<Found, AllocError> {
    let machine = Calls {
        alloc,
        first: 0,
        calls,
    };
    let states = [new_service(alloc)?];
    let mut front = start(alloc, &machine, &states)?;
    let found = found_on(alloc, &machine, &mut front, events);
    drop(front);
    found
}

/// What becomes of the history of a row.
fn outcome(alloc: Global, row: &Row) -> Result<Found, AllocError> {
    let calls = calls_of(alloc, row.calls)?;
    judged(alloc, &calls, row.events)
}

#[test]
fn histories_are_judged(rt: HostRuntime) -> Result<(), Fail> {
    for row in ROWS {
        assert_eq!(rt; outcome(rt.alloc(), &row)?, row.found);
    }
    Ok(())
}
