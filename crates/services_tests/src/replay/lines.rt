//! Command lines, and the lines of replies.

use service_descriptions::attribute::{AttributeKey, AttributeValue, AttributeVerificationError};
use service_descriptions::config::DataSegmentType;
use service_descriptions::container::{ContainerHandle, Role};
use service_descriptions::dynamic_config::{
    ListenerDetails, PortDetails, PublisherDetails, WriterDetails,
};
use service_descriptions::identifiers::{
    UniqueListenerId, UniqueNodeId, UniquePublisherId, UniqueWriterId,
};
use service_descriptions::replay::{Cleanup, Command, Reply, read_line, write_reply};
use std::alloc::{AllocError, Global};
use std::test::Fail;

const MOST: u32 = u32::MAX;

/// A listener of a node.
fn listener(node_id: UniqueNodeId) -> PortDetails {
    PortDetails::Listener(ListenerDetails {
        listener_id: UniqueListenerId::new(0, 0, 0, 0),
        node_id,
    })
}

/// Whether two commands that have lines are the same.
fn is_same(one: &Command, other: &Command) -> bool {
    match (one, other) {
        (Command::Register(one), Command::Register(other)) => one == other,
        (Command::Deregister(one), Command::Deregister(other)) => one == other,
        (Command::Nodes, Command::Nodes) => true,
        (Command::Add(one), Command::Add(other)) => one == other,
        (Command::Release(one), Command::Release(other)) => one == other,
        (Command::List(one), Command::List(other)) => one == other,
        (Command::Count(one), Command::Count(other)) => one == other,
        (
            Command::Dead(one, Cleanup::ByPort(kept)),
            Command::Dead(other, Cleanup::ByPort(others)),
        ) => one == other && kept == others,
        _ => false,
    }
}

/// Lines, and the commands that they are. A vector owns these, whose drop is a function of its own.
fn command_rows(alloc: Global) -> Result<Vec<(&'static str, Command)>, Fail> {
    let one = UniqueNodeId::new(1, 2, 3, 4).ok_or("an id")?;
    let last = UniqueNodeId::new(MOST, MOST, MOST, MOST).ok_or("an id")?;
    let publisher = PortDetails::Publisher(PublisherDetails {
        publisher_id: UniquePublisherId::new(1, 1, 0, 10),
        node_id: one,
        number_of_samples: 0,
        max_slice_len: 0,
        data_segment_type: DataSegmentType::Static,
        max_number_of_segments: 1,
    });
    let writer = PortDetails::Writer(WriterDetails {
        writer_id: UniqueWriterId::new(MOST, MOST, MOST, MOST),
        node_id: last,
    });
    let kept = vec![in alloc; 0x1_00000002_00000003_00000004u128, 0, 7]?;
    let many_kept = vec![in alloc; u128::MAX, 7, u128::MAX]?;
    let rows = [
        ("register 1.2.3.4", Command::Register(one)),
        (
            "register 4294967295.4294967295.4294967295.4294967295",
            Command::Register(last),
        ),
        ("deregister 0", Command::Deregister(0)),
        ("deregister 10", Command::Deregister(10)),
        (
            "deregister 18446744073709551615",
            Command::Deregister(usize::MAX),
        ),
        ("nodes", Command::Nodes),
        ("add publisher 1.1.0.10 1.2.3.4", Command::Add(publisher)),
        ("add listener 0.0.0.0 1.2.3.4", Command::Add(listener(one))),
        (
            "add writer 4294967295.4294967295.4294967295.4294967295 4294967295.4294967295.4294967295.4294967295",
            Command::Add(writer),
        ),
        ("release 7", Command::Release(7)),
        ("list subscriber", Command::List(Role::Subscriber)),
        ("list notifier", Command::List(Role::Notifier)),
        ("list server", Command::List(Role::Server)),
        ("count client", Command::Count(Role::Client)),
        ("count reader", Command::Count(Role::Reader)),
        ("count writer", Command::Count(Role::Writer)),
        (
            "dead 1.2.3.4",
            Command::Dead(one, Cleanup::ByPort(Vec::new(alloc))),
        ),
        (
            "dead 1.2.3.4 skip 1.2.3.4 0.0.0.0 0.0.0.7",
            Command::Dead(one, Cleanup::ByPort(kept)),
        ),
        (
            "dead 4294967295.4294967295.4294967295.4294967295 skip 4294967295.4294967295.4294967295.4294967295 0.0.0.7 4294967295.4294967295.4294967295.4294967295",
            Command::Dead(last, Cleanup::ByPort(many_kept)),
        ),
    ];
    Ok(Vec::from_array(alloc, rows)?)
}

/// Whether a line is read as this command.
fn is_read_as(alloc: Global, line: &str, command: &Command) -> Result<bool, AllocError> {
    let read = read_line(alloc, line.as_bytes())?;
    Ok(read.is_some_and(|read| is_same(&read, command)))
}

#[test]
fn commands(rt: HostRuntime) -> Result<(), Fail> {
    for (line, command) in &command_rows(rt.alloc())? {
        assert!(rt; is_read_as(rt.alloc(), line, command)?, "at {line}");
    }
    Ok(())
}

static NO_COMMANDS: [&str; 62] = [
    "",
    "register",
    "register ",
    "register 1.0.0",
    "register 1.0.0.1.1",
    "register 1..0.1",
    "register 01.0.0.1",
    "register 00.0.0.1",
    "register 1.0.0.01",
    "register +1.0.0.1",
    "register -1.0.0.1",
    "register 0.5.6.0",
    "register 4294967296.0.0.1",
    "register 1.0.0.4294967296",
    "register  1.0.0.1",
    " register 1.0.0.1",
    "register 1.0.0.1 ",
    "register 1.0.0.1\r",
    "register 1.0.0.1\n",
    "register 1.0.0.1 1.0.0.1",
    "Register 1.0.0.1",
    "registers 1.0.0.1",
    "deregister",
    "deregister ",
    "deregister 00",
    "deregister 01",
    "deregister +1",
    "deregister 0x1",
    "deregister 1 ",
    "deregister 1 1",
    "deregister 18446744073709551616",
    "deregister 100000000000000000000",
    "service event 7 1 2 2",
    "nodes ",
    "nodes 1",
    "node",
    "add listener 1.0.0.9",
    "add listener 1.0.0.9 0.5.6.0",
    "add node 1.0.0.9 1.0.0.1",
    "add listener 1.0.0.9  1.0.0.1",
    "add listener 1.0.0.9 1.0.0.1 ",
    "release",
    "release 07",
    "list",
    "list node",
    "list  listener",
    "list listeners",
    "count listener ",
    "count listener 1",
    "dead",
    "dead 0.5.6.0",
    "dead 1.0.0.1 ",
    "dead 1.0.0.1 skip",
    "dead 1.0.0.1 skip ",
    "dead 1.0.0.1 skip 1.0.0",
    "dead 1.0.0.1 skip 1.0.0.9 ",
    "dead 1.0.0.1 skip  1.0.0.9",
    "dead 1.0.0.1 skip 1.0.0.9  1.0.0.10",
    "dead 1.0.0.1 1.0.0.9",
    "dead 1.0.0.1 skip 4294967295.4294967295.4294967295.4294967295 4294967295.4294967295.4294967295.4294967296",
    "verify",
    "layout message 1",
];

#[test]
fn no_commands(rt: HostRuntime) -> Result<(), Fail> {
    for line in &NO_COMMANDS {
        assert!(rt;
            read_line(rt.alloc(), line.as_bytes())?.is_none(),
            "at {line}"
        );
    }
    Ok(())
}

/// The line of a reply.
fn line_of(alloc: Global, reply: &Reply) -> Result<Vec<u8>, AllocError> {
    let mut out = Vec::new(alloc);
    write_reply(reply, &mut out)?;
    Ok(out)
}

/// Replies, and their lines.
fn reply_rows(alloc: Global) -> Result<Vec<(Reply, &'static str)>, Fail> {
    let one = UniqueNodeId::new(1, 0, 0, 1).ok_or("an id")?;
    let key = AttributeKey::new(b"b").ok().ok_or("a key")?;
    let value = AttributeValue::new(b"1").ok().ok_or("a value")?;
    let pair = (key.copied(), value);
    let most = usize::MAX;
    let nodes = vec![in alloc; one, one]?;
    let ports = vec![in alloc; listener(one)]?;
    let rows = [
        (
            Reply::Handle(ContainerHandle::from_parts(7, Role::Node, 0, 0)),
            "handle 0 0\n",
        ),
        (
            Reply::Handle(ContainerHandle::from_parts(0, Role::Node, most, u64::MAX)),
            "handle 18446744073709551615 18446744073709551615\n",
        ),
        (Reply::Locked, "locked\n"),
        (Reply::Full, "full\n"),
        (Reply::NotRegistered, "not-registered\n"),
        (Reply::HasOwners, "has-owners\n"),
        (Reply::NoMoreOwners, "no-owners\n"),
        (Reply::PortsAttached, "ports-attached\n"),
        (Reply::Released, "released\n"),
        (Reply::NotOwned, "not-owned\n"),
        (Reply::NoHandle, "no-handle\n"),
        (Reply::WrongPattern, "wrong-pattern\n"),
        (Reply::Count(0), "count 0\n"),
        (Reply::Count(most), "count 18446744073709551615\n"),
        (Reply::Nodes(Vec::new(alloc)), "list\n"),
        (
            Reply::Nodes(nodes),
            "list 1000000000000000000000001 1000000000000000000000001\n",
        ),
        (Reply::Ports(ports), "list 0\n"),
        (Reply::Verified, "verified\n"),
        (
            Reply::Refused(AttributeVerificationError::NonExistingKey(key)),
            "refused AttributeVerificationError::NonExistingKey(\"b\")\n",
        ),
        (
            Reply::Refused(AttributeVerificationError::IncompatibleAttribute(pair)),
            "refused AttributeVerificationError::IncompatibleAttribute((\"b\", \"1\"))\n",
        ),
        (Reply::NoLayout, "no-layout\n"),
        (Reply::NoAlignments, "no-alignments\n"),
        (Reply::NoPlaces, "no-places\n"),
        (Reply::Places(0, most), "places 0 18446744073709551615\n"),
        (Reply::Compatible(true), "compatible\n"),
        (Reply::Compatible(false), "incompatible\n"),
        (Reply::NoDescription, "no-description\n"),
    ];
    Ok(Vec::from_array(alloc, rows)?)
}

#[test]
fn reply_lines(rt: HostRuntime) -> Result<(), Fail> {
    for (reply, line) in &reply_rows(rt.alloc())? {
        assert_eq!(rt; line_of(rt.alloc(), reply)?.as_slice(), line.as_bytes());
    }
    Ok(())
}
