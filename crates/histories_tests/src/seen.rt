//! Words of replies, and what they say.
use service_conformance::conformance::{ReplyWord, SeenReply, read_reply};
use std::alloc::{AllocError, Global};
use std::process::Abort;
use std::test::Fail;

/// Words that are those of no reply to a command that has a line.
const NO_REPLIES: [&[u8]; 24] = [
    b"",
    b"foo",
    b"locked ",
    b" locked",
    b"Locked",
    b"lock",
    b"verified",
    b"layout 8 8",
    b"handle",
    b"handle 0",
    b"handle 01 0",
    b"handle 0 00",
    b"handle 0 0 ",
    b"handle 0  0",
    b"handle 18446744073709551616 0",
    b"count",
    b"count 01",
    b"count -1",
    b"list ",
    b"list A",
    b"list 01",
    b"list  a",
    b"list a b g",
    b"list 100000000000000000000000000000000",
];

/// Words, and the reply without numbers that they are.
const WORDS: [(&[u8], ReplyWord); 10] = [
    (b"locked", ReplyWord::Locked),
    (b"full", ReplyWord::Full),
    (b"not-registered", ReplyWord::NotRegistered),
    (b"has-owners", ReplyWord::HasOwners),
    (b"no-owners", ReplyWord::NoMoreOwners),
    (b"ports-attached", ReplyWord::PortsAttached),
    (b"released", ReplyWord::Released),
    (b"not-owned", ReplyWord::NotOwned),
    (b"no-handle", ReplyWord::NoHandle),
    (b"wrong-pattern", ReplyWord::WrongPattern),
];

#[test]
fn other_words_are_no_reply(rt: HostRuntime) -> Result<(), Fail> {
    for words in NO_REPLIES {
        let found = read_reply(rt.alloc(), words)?;
        assert!(rt; found.is_none());
    }
    Ok(())
}

#[test]
fn words_are_read(rt: HostRuntime) -> Result<(), Fail> {
    for (words, word) in WORDS {
        match read_reply(rt.alloc(), words)? {
            Some(SeenReply::Word(found)) => assert_eq!(rt; found, word),
            _ => assert!(rt; false),
        }
    }
    Ok(())
}

/// Whether words are those of a handle with this slot and ticket.
fn is_handle(alloc: Global, words: &[u8], parts: (usize, u64)) -> Result<bool, AllocError> {
    Ok(match read_reply(alloc, words)? {
        Some(SeenReply::Handle(slot, ticket)) => (slot, ticket) == parts,
        _ => false,
    })
}

/// Whether words are those of this count.
fn is_count(alloc: Global, words: &[u8], count: usize) -> Result<bool, AllocError> {
    Ok(match read_reply(alloc, words)? {
        Some(SeenReply::Count(found)) => found == count,
        _ => false,
    })
}

/// Whether words are those of a list of these ids.
fn is_list(alloc: Global, words: &[u8], ids: &[u128]) -> Result<bool, AllocError> {
    Ok(match read_reply(alloc, words)? {
        Some(SeenReply::List(found)) => found.as_slice() == ids,
        _ => false,
    })
}

#[test]
fn numbers_are_read(rt: HostRuntime) -> Result<(), Fail> {
    let alloc = rt.alloc();
    let greatest = b"list 0 ff ffffffffffffffffffffffffffffffff";
    let found = [
        is_handle(alloc, b"handle 18446744073709551615 7", (usize::MAX, 7))?,
        is_count(alloc, b"count 0", 0)?,
        is_list(alloc, b"list", &[])?,
        is_list(alloc, greatest, &[0, 255, u128::MAX])?,
    ];
    assert_eq!(rt; found, [true; 4]);
    Ok(())
}
