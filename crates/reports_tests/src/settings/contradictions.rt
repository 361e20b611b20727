//! Settings that contradict each other, and those that nearly do.

use super::running::{Known, run};
use std::alloc::{AllocError, Global};
use std::test::Fail;

/// Files, and what is said of each, without its name.
const CONTRADICTIONS: [(&[u8], &str); 14] = [
    (
        b"defaults.event.notifier-created-event = 256\n",
        ":1:1: warning: defaults.event.notifier-created-event: is 256, and \
         defaults.event.event-id-max-value is 255: an event above the greatest one is never sent",
    ),
    (
        b"[defaults.event]\nnotifier-dead-event = 5\nevent-id-max-value = 4\n",
        ":3:1: warning: defaults.event.event-id-max-value: is 4, and \
         defaults.event.notifier-dead-event is 5: an event above the greatest one is never sent",
    ),
    (
        b"[defaults.event]\nevent-id-max-value = 0\n\n  notifier-dropped-event = 1\n",
        ":4:3: warning: defaults.event.notifier-dropped-event: is 1, and \
         defaults.event.event-id-max-value is 0: an event above the greatest one is never sent",
    ),
    (
        b"[global]\nroot-path = 'tmp/x'\n",
        ":2:1: warning: global.root-path: is \"tmp/x\": a path that does not begin with / is \
         another one in each working directory",
    ),
    (
        b"[global]\nroot-path = \"/\\temp\\new\"\n",
        ":2:1: warning: global.root-path: is \"/\\temp\\new\": it has a control character",
    ),
    (
        b"[global]\nprefix = \"a\\r\"\n",
        ":2:1: warning: global.prefix: is \"a\\r\": it has a control character",
    ),
    (
        b"global.service.connection-suffix = \"\\u001f\"\n",
        ":1:1: warning: global.service.connection-suffix: is \"\\u001F\": it has a control \
         character",
    ),
    (
        b"[global.node]\n'directory' = \"\\u007f\"\n",
        ":2:1: warning: global.node.directory: is \"\\u007F\": it has a control character",
    ),
    (
        b"global.service.connection-suffix = '.data'\n",
        ":1:1: warning: global.service.connection-suffix: is \".data\", and \
         global.service.data-segment-suffix is \".data\": files of both kinds cannot be \
         distinguished by their names",
    ),
    (
        b"\nglobal = { service = { connection-suffix = '.data' } }\n",
        ":2:1: warning: global.service.connection-suffix: is \".data\", and \
         global.service.data-segment-suffix is \".data\": files of both kinds cannot be \
         distinguished by their names",
    ),
    (
        b"[defaults.publish-subscribe]\npublisher-history-size = 3\nenable-safe-overflow = false\n",
        ":2:1: warning: defaults.publish-subscribe.publisher-history-size: is 3, and \
         defaults.publish-subscribe.subscriber-max-buffer-size is 2: without safe overflow a \
         buffer must hold the whole history",
    ),
    (
        b"[defaults.blackboard]\nmax-nodes = 0\n",
        ":2:1: warning: defaults.blackboard.max-nodes: is 0: a limit of 0 allows none",
    ),
    (
        b"[defaults.publish-subscribe]\r\npublisher-max-loaned-samples = 0\r\n",
        ":2:1: warning: defaults.publish-subscribe.publisher-max-loaned-samples: is 0: a limit of \
         0 allows none",
    ),
    (
        b"[defaults]\nrequest-response = { max-clients = 0 }\n",
        ":2:1: warning: defaults.request-response.max-clients: is 0: a limit of 0 allows none",
    ),
];

/// Files of which nothing is said: each is nearly one that contradicts itself.
const NEARLY: [&[u8]; 9] = [
    b"global = { root-path = '/ ~\\new', prefix = ' ~' }\n",
    b"defaults.event.notifier-created-event = 255\n",
    b"[defaults.event]\nnotifier-dead-event = 5\nevent-id-max-value = 5\n",
    b"defaults.event.event-id-max-value = 0\n",
    b"[global]\nroot-path = '/'\n",
    b"global.node.monitor-suffix = '.data'\n",
    b"[defaults.publish-subscribe]\npublisher-history-size = 2\nenable-safe-overflow = false\n",
    b"[defaults.publish-subscribe]\npublisher-history-size = 3\n",
    b"[defaults.publish-subscribe]\npublisher-history-size = 0\n\
      subscriber-expired-connection-buffer = 0\n",
];

/// What a strict run says of a file that is named `f`.
fn said(alloc: Global, bytes: &[u8]) -> Result<(u8, Vec<u8>), AllocError> {
    let (status, output, _) = run(
        alloc,
        false,
        &["--strict", "f"],
        Known(&[("f", bytes)]),
        b"",
    )?;
    Ok((status, output))
}

/// What is said of a suffix of so many bytes, beside which the prefix has 5 and the hash text 27.
fn said_of_suffix(alloc: Global, length: usize) -> Result<(u8, Vec<u8>), AllocError> {
    let mut text = String::from_str(alloc, "global.service.blackboard-mgmt-suffix = '")?;
    for _ in 0..length {
        text.push('s')?;
    }
    text.push_str("'\n")?;
    said(alloc, text.as_bytes())
}

#[test]
fn contradictions_are_reported(rt: HostRuntime) -> Result<(), Fail> {
    for (bytes, line) in &CONTRADICTIONS {
        let expected = format!(in rt.alloc(); "f{line}\n0 errors, 1 warning\n")?;
        let (status, output) = said(rt.alloc(), bytes)?;
        assert_eq!(rt; (status, output.as_slice()), (1, expected.as_bytes()));
    }
    Ok(())
}

#[test]
fn near_misses_are_not_reported(rt: HostRuntime) -> Result<(), Fail> {
    for bytes in &NEARLY {
        let (status, output) = said(rt.alloc(), bytes)?;
        assert_eq!(rt;
            (status, output.as_slice()),
            (0, b"0 errors, 0 warnings\n".as_slice())
        );
    }
    Ok(())
}

/// Names of 255 bytes can be made, and those of 256 cannot.
#[test]
fn long_names_are_reported(rt: HostRuntime) -> Result<(), Fail> {
    let (status, output) = said_of_suffix(rt.alloc(), 223)?;
    assert_eq!(rt;
        (status, output.as_slice()),
        (0, b"0 errors, 0 warnings\n".as_slice())
    );
    let (status, output) = said_of_suffix(rt.alloc(), 224)?;
    let end =
        b"s\", and global.prefix is \"iox2_\": with a hash text of 27 bytes between them, names \
        of files have more than 255 bytes\n0 errors, 1 warning\n";
    assert_eq!(rt; (status, output.ends_with(end.as_slice())), (1, true));
    Ok(())
}

/// What is said of a directory of so many bytes, of services or of nodes, below a root path of 201
/// bytes.
fn said_of_directory(
    alloc: Global,
    table: &str,
    length: usize,
) -> Result<(u8, Vec<u8>), AllocError> {
    let mut text = String::from_str(alloc, "[global]\nroot-path = '/")?;
    for _ in 0..200 {
        text.push('r')?;
    }
    write!(text, "'\n{table}.directory = '")?;
    for _ in 0..length {
        text.push('d')?;
    }
    text.push_str("'\n")?;
    said(alloc, text.as_bytes())
}

/// Directories whose paths have 255 bytes can be made, and those of 256 cannot.
#[test]
fn long_paths_are_reported(rt: HostRuntime) -> Result<(), Fail> {
    for (table, begin) in [
        (
            "service",
            b"f:3:1: warning: global.service.directory: is \"d".as_slice(),
        ),
        (
            "node",
            b"f:3:1: warning: global.node.directory: is \"d".as_slice(),
        ),
    ] {
        let (status, output) = said_of_directory(rt.alloc(), table, 53)?;
        assert_eq!(rt;
            (status, output.as_slice()),
            (0, b"0 errors, 0 warnings\n".as_slice())
        );
        let (status, output) = said_of_directory(rt.alloc(), table, 54)?;
        let end =
            b"r\": joined they have more than 255 bytes, and the middleware panics as it joins \
            them\n0 errors, 1 warning\n";
        let ends = output.starts_with(begin) && output.ends_with(end.as_slice());
        assert_eq!(rt; (status, ends), (1, true));
    }
    Ok(())
}

/// What is said of two files with one contradiction.
fn said_of_two(alloc: Global, words: &[&str]) -> Result<(u8, Vec<u8>), AllocError> {
    let files = Known(&[
        ("a", b"defaults.event.max-nodes = 0\n"),
        ("b", b"\ndefaults.event.max-nodes = 0\n"),
    ]);
    let (status, output, _) = run(alloc, false, words, files, b"")?;
    Ok((status, output))
}

/// Both files of a comparison are looked at, and an object of JSON has the same words.
#[test]
fn contradictions_are_in_all_forms(rt: HostRuntime) -> Result<(), Fail> {
    let (status, output) = said_of_two(rt.alloc(), &["--compare", "a", "b"])?;
    let expected =
        b"a:1:1: warning: defaults.event.max-nodes: is 0: a limit of 0 allows none\nb:2:1: \
        warning: defaults.event.max-nodes: is 0: a limit of 0 allows none\n0 errors, 2 warnings\n";
    assert_eq!(rt; (status, output.as_slice()), (0, expected.as_slice()));
    let (_, output) = said_of_two(rt.alloc(), &["--format", "json", "a"])?;
    let expected = b"{\"column\":1,\"file\":\"a\",\"key\":\"defaults.event.max-nodes\",\"line\":1,\
        \"message\":\"is 0: a limit of 0 allows none\",\
        \"severity\":\"warning\"}\n";
    assert_eq!(rt; output.as_slice(), expected.as_slice());
    Ok(())
}
