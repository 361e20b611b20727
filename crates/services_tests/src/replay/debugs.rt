//! What `Debug` prints of commands, replies and errors: each variant by name, with what is in it.
use service_descriptions::attribute::{
    AttributeKey, AttributeVerificationError, AttributeVerifier,
};
use service_descriptions::container::{ContainerHandle, Role};
use service_descriptions::dynamic_config::{PortCleanupAction, PortDetails, ReaderDetails};
use service_descriptions::identifiers::{UniqueNodeId, UniqueReaderId};
use service_descriptions::replay::{Cleanup, Command, MessagePart, Reply, ScriptError};
use service_descriptions::types::{MessageTypeDetails, SampleLayout, TypeVariant};
use std::alloc::AllocError;
use std::process::Abort;
use std::test::Fail;
use test_support::printing::are_shown_as;

static PARTS: [(MessagePart, &str); 3] = [
    (MessagePart::Message, "Message"),
    (MessagePart::Request, "Request"),
    (MessagePart::Response, "Response"),
];

const ERRORS: [(ScriptError, &str); 2] = [
    (ScriptError::BadLine(7), "BadLine(7)"),
    (ScriptError::NoMemory(AllocError), "NoMemory(AllocError)"),
];

const REPLIES: [(Reply, &str); 18] = [
    (Reply::Locked, "Locked"),
    (Reply::Full, "Full"),
    (Reply::NotRegistered, "NotRegistered"),
    (Reply::HasOwners, "HasOwners"),
    (Reply::NoMoreOwners, "NoMoreOwners"),
    (Reply::PortsAttached, "PortsAttached"),
    (Reply::Released, "Released"),
    (Reply::NotOwned, "NotOwned"),
    (Reply::NoHandle, "NoHandle"),
    (Reply::Count(7), "Count(7)"),
    (Reply::Verified, "Verified"),
    (Reply::NoLayout, "NoLayout"),
    (Reply::Places(7, 8), "Places(7, 8)"),
    (Reply::NoPlaces, "NoPlaces"),
    (Reply::Compatible(true), "Compatible(true)"),
    (Reply::NoAlignments, "NoAlignments"),
    (Reply::WrongPattern, "WrongPattern"),
    (Reply::NoDescription, "NoDescription"),
];

const COMMANDS: [(Command, &str); 7] = [
    (Command::Deregister(7), "Deregister(7)"),
    (Command::Nodes, "Nodes"),
    (Command::Release(7), "Release(7)"),
    (Command::List(Role::Reader), "List(Reader)"),
    (Command::Count(Role::Writer), "Count(Writer)"),
    (
        Command::Layout(MessagePart::Request, 7),
        "Layout(Request, 7)",
    ),
    (
        Command::Places(MessagePart::Response, 8),
        "Places(Response, 8)",
    ),
];

#[test]
fn values_are_shown_by_name(rt: HostRuntime) {
    assert_eq!(rt;
        [
            are_shown_as(&PARTS),
            are_shown_as(&ERRORS),
            are_shown_as(&REPLIES),
            are_shown_as(&COMMANDS),
        ],
        [true; 4]
    );
}

/// A node, and a port of it.
fn node_and_port() -> Result<(UniqueNodeId, PortDetails), Fail> {
    let node_id = UniqueNodeId::new(0, 0, 0, 5).ok_or("an id")?;
    let reader_id = UniqueReaderId::new(0, 0, 0, 6);
    Ok((
        node_id,
        PortDetails::Reader(ReaderDetails { reader_id, node_id }),
    ))
}

#[test]
fn commands_are_shown_with_what_they_are_given(rt: HostRuntime) -> Result<(), Fail> {
    let (node, port) = node_and_port()?;
    let order = vec![in rt.alloc(); PortCleanupAction::SkipPort]?;
    let ports = vec![in rt.alloc(); 7u128]?;
    let table = [
        (
            Command::Register(node),
            "Register(UniqueNodeId { id: UniqueId { value: 5, kind: PhantomData<_> } })",
        ),
        (
            Command::Add(port),
            "Add(Reader(ReaderDetails { reader_id: UniqueId { value: 6, kind: PhantomData<_> }, \
            node_id: UniqueNodeId { id: UniqueId { value: 5, kind: PhantomData<_> } } }))",
        ),
        (
            Command::Dead(node, Cleanup::ByOrder(order)),
            "Dead(UniqueNodeId { id: UniqueId { value: 5, kind: PhantomData<_> } }, \
            ByOrder([SkipPort]))",
        ),
        (
            Command::Dead(node, Cleanup::ByPort(ports)),
            "Dead(UniqueNodeId { id: UniqueId { value: 5, kind: PhantomData<_> } }, ByPort([7]))",
        ),
        (
            Command::Verify(AttributeVerifier::new()),
            "Verify(AttributeVerifier { attributes: AttributeSet { attributes: [] }, keys: [] })",
        ),
        (
            Command::Compatible(MessagePart::Message, MessageTypeDetails::default()),
            "Compatible(Message, MessageTypeDetails { header: TypeDetail { variant: FixedSize, \
            type_name: StaticString { bytes: [] }, size: 0, alignment: 0 }, user_header: \
            TypeDetail { variant: FixedSize, type_name: StaticString { bytes: [] }, size: 0, \
            alignment: 0 }, payload: TypeDetail { variant: FixedSize, type_name: StaticString { \
            bytes: [] }, size: 0, alignment: 0 } })",
        ),
    ];
    assert!(rt; are_shown_as(&table));
    Ok(())
}

/// The room of a message of three `i64`.
fn layout(rt: &impl Abort) -> Result<SampleLayout, Fail> {
    let details = MessageTypeDetails::from::<i64, i64, i64>(TypeVariant::Dynamic)
        .ok()
        .ok_or("details")?;
    assert!(rt; details.has_alignments());
    Ok(details.sample_layout(0).ok_or("room")?)
}

#[test]
fn replies_are_shown_with_what_is_in_them(rt: HostRuntime) -> Result<(), Fail> {
    let (node, port) = node_and_port()?;
    let layout = layout(&rt)?;
    let key = AttributeKey::new(b"k").ok().ok_or("a key")?;
    let nodes = vec![in rt.alloc(); node]?;
    let ports = vec![in rt.alloc(); port]?;
    let table = [
        (
            Reply::Handle(ContainerHandle::from_parts(7, Role::Reader, 2, 3)),
            "Handle(ContainerHandle { service: 7, role: Reader, slot: 2, ticket: 3 })",
        ),
        (
            Reply::Nodes(nodes),
            "Nodes([UniqueNodeId { id: UniqueId { value: 5, kind: PhantomData<_> } }])",
        ),
        (
            Reply::Ports(ports),
            "Ports([Reader(ReaderDetails { reader_id: UniqueId { value: 6, kind: PhantomData<_> \
            }, node_id: UniqueNodeId { id: UniqueId { value: 5, kind: PhantomData<_> } } })])",
        ),
        (
            Reply::Refused(AttributeVerificationError::NonExistingKey(key)),
            "Refused(NonExistingKey(SemanticString { text: StaticString { bytes: [107] }, .. }))",
        ),
        (
            Reply::Layout(layout),
            "Layout(SampleLayout { size: 32, alignment: 8 })",
        ),
    ];
    assert!(rt; are_shown_as(&table));
    Ok(())
}
