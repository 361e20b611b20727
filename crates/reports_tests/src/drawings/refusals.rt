//! Refused arguments and lines.

use super::running::assert_run;
use std::alloc::{AllocError, Global};
use std::process::Abort;
use std::test::Fail;

/// A service, its types and what may follow them.
const GOOD: &str =
    "publish-subscribe A\nheader 8 8 u64\nuser-header 0 1 ()\npayload fixed 4 4 u32\n";

const SERVICE: &str =
    "config, or PATTERN NAME: publish-subscribe, event, request-response or blackboard, and the name of a service, 1 to 255 bytes";

const SETTING: &str = "set NAME VALUE with a value that the setting may have";

const NUMBER: &str = "set NAME VALUE with a number";

const HEADER: &str =
    "header SIZE ALIGNMENT NAME: two numbers, the second a power of two, and 1 to 256 bytes";

const USER_HEADER: &str =
    "user-header SIZE ALIGNMENT NAME: two numbers, the second a power of two, and 1 to 256 bytes";

const PAYLOAD: &str =
    "payload VARIANT SIZE ALIGNMENT NAME: fixed or dynamic, two numbers, the second a power of two, and 1 to 256 bytes";

const OPENER: &str = "opener HEADER USER-HEADER PAYLOAD: three alignments, each a power of two";

const KEY: &str =
    "key SIZE ALIGNMENT NAME: two numbers, the second a power of two, and 1 to 256 bytes";

const ATTRIBUTE: &str =
    "attribute KEY VALUE: 1 to 64 bytes without a space, and 1 to 256 bytes, at most 16 times";

const REQUIRE: &str =
    "require KEY VALUE or require-key KEY: 1 to 64 bytes without a space, and 1 to 256 bytes, at most 16 times";

const END: &str = "the end, or a line that may follow the one before it";

/// Asserts that a description is refused at the line of this number, where this was expected.
fn assert_bad_line(
    rt: &impl Abort,
    alloc: Global,
    input: &str,
    line: usize,
    expected: &str,
) -> Result<(), AllocError> {
    let error = format!(in alloc; "bad line {line}: expected {expected}\n")?;
    assert_run(rt, alloc, &[], input, (1, "", error.as_str()));
    Ok(())
}

/// Each line after a good start is refused for its own cause,
/// with the number of the line and what was expected there.
#[test]
fn bad_lines(rt: HostRuntime) -> Result<(), Fail> {
    for (begin, rest, line, expected) in [
        ("", "", 1, SERVICE),
        ("", "publish-subscribe \n", 1, SERVICE),
        ("", "Event A\n", 1, SERVICE),
        ("event A\n", "set max_nodes 036\n", 2, NUMBER),
        ("event A\n", "set max-nodes \n", 2, NUMBER),
        ("event A\n", "set max_nodes\n", 2, SETTING),
        ("event A\n", "header 8 8 u64\n", 2, END),
        ("publish-subscribe A\n", "", 2, HEADER),
        ("publish-subscribe A\n", "header 8 3 u64\n", 2, HEADER),
        ("publish-subscribe A\n", "header +8 8 u64\n", 2, HEADER),
        ("publish-subscribe A\n", "header 8 8 \n", 2, HEADER),
        (
            "publish-subscribe A\nheader 8 8 u64\n",
            "payload fixed 4 4 u32\n",
            3,
            USER_HEADER,
        ),
        (
            "publish-subscribe A\nheader 8 8 u64\nuser-header 0 1 ()\n",
            "payload 4 4 u32\n",
            4,
            PAYLOAD,
        ),
        (
            "request-response A\nrequest-header 8 8 u64\nrequest-user-header 0 1 ()\n",
            "request-payload dynamic 4 4 u32\n",
            5,
            "request-elements NUMBER",
        ),
        ("blackboard A\n", "", 2, KEY),
        ("blackboard A\n", "key 4 3 u32\n", 2, KEY),
        (GOOD, "elements 1\n", 5, END),
        (GOOD, "opener 8 1 3\n", 5, OPENER),
        (GOOD, "opener 8 1\n", 5, OPENER),
        (GOOD, "attribute a\n", 5, ATTRIBUTE),
        (GOOD, "attribute a \n", 5, ATTRIBUTE),
        (GOOD, "require-key a b\n", 5, REQUIRE),
        (GOOD, "requires a b\n", 5, REQUIRE),
        (GOOD, "require a b\nattribute a b\n", 6, END),
        (GOOD, "\n", 5, END),
    ] {
        let input = format!(in rt.alloc(); "{begin}{rest}")?;
        assert_bad_line(&rt, rt.alloc(), input.as_str(), line, expected)?;
    }
    Ok(())
}

/// A value that a setting may not have: the values that it may have are reported.
#[test]
fn bad_values(rt: HostRuntime) -> Result<(), Fail> {
    for (pattern, setting, values) in [
        ("event", "deadline true", "none or a number of nanoseconds"),
        ("event", "notifier_dead_event -1", "none or a number"),
        (
            "publish-subscribe",
            "enable_safe_overflow 1",
            "true or false",
        ),
        (
            "publish-subscribe",
            "backpressure-strategy discarddata",
            "RetryUntilDelivered or DiscardData",
        ),
        (
            "request-response",
            "client_allocation_strategy Best",
            "BestFit, PowerOfTwo or Static",
        ),
    ] {
        let alloc = rt.alloc();
        let input = format!(in alloc; "{pattern} A\nset {setting}\n")?;
        let expected = format!(in alloc; "set NAME VALUE with {values}")?;
        assert_bad_line(&rt, alloc, input.as_str(), 2, expected.as_str())?;
    }
    Ok(())
}

/// Two spaces in a name or a value are not why a line is bad, and two between words are.
#[test]
fn two_spaces(rt: HostRuntime) -> Result<(), Fail> {
    let alloc = rt.alloc();
    let two = "two spaces stand where one separates words; ";
    for (begin, line, number, cause, expected) in [
        ("", "Event  A", 1, "", SERVICE),
        ("publish-subscribe A\n", "header 32 3 a  b", 2, "", HEADER),
        ("publish-subscribe A\n", "header 32 3  a", 2, "", HEADER),
        ("publish-subscribe A\n", "header 32  4 a", 2, two, HEADER),
        ("publish-subscribe A\n", "header  32 4 a", 2, two, HEADER),
        (
            "publish-subscribe A\nheader 8 8 u64\n",
            "user-header 0 3 a  b",
            3,
            "",
            USER_HEADER,
        ),
        (
            "publish-subscribe A\nheader 8 8 u64\nuser-header 0 1 ()\n",
            "payload fixed 4 3 a  b",
            4,
            "",
            PAYLOAD,
        ),
        (
            "publish-subscribe A\nheader 8 8 u64\nuser-header 0 1 ()\n",
            "payload fixed 4  4 a",
            4,
            two,
            PAYLOAD,
        ),
        ("blackboard A\n", "key 8 3 a  b", 2, "", KEY),
        ("blackboard A\n", "key 8  8 a", 2, two, KEY),
        (GOOD, "opener 8 1  4", 5, two, OPENER),
        (
            GOOD,
            "attribute 01234567890123456789012345678901234567890123456789012345678901234 a  b",
            5,
            "",
            ATTRIBUTE,
        ),
        (GOOD, "attribute  a b", 5, two, ATTRIBUTE),
        (GOOD, "require  a b", 5, two, REQUIRE),
        (GOOD, "require-key  a", 5, two, REQUIRE),
        (GOOD, "require-key a  b", 5, "", REQUIRE),
        (
            "request-response A\nrequest-header 8 8 u64\nrequest-user-header 0 1 ()\nrequest-payload dynamic 4 4 u32\n",
            "request-elements  4",
            5,
            two,
            "request-elements NUMBER",
        ),
    ] {
        let input = format!(in alloc; "{begin}{line}\n")?;
        let expected = format!(in alloc; "bad line {number}: {cause}expected {expected}\n")?;
        assert_run(&rt, alloc, &[], input.as_str(), (1, "", expected.as_str()));
    }
    Ok(())
}

/// The good start, then 16 lines that begin so and end in a number, then the last line.
fn after_sixteen(alloc: Global, begin: &str, last: &str) -> Result<String, AllocError> {
    let mut input = String::from_str(alloc, GOOD)?;
    for i in 0..16 {
        writeln!(input, "{begin} k {i}")?;
    }
    input.push_str(last)?;
    Ok(input)
}

/// A 17th attribute and a 17th requirement are refused.
#[test]
fn spare_lines(rt: HostRuntime) -> Result<(), Fail> {
    let input = after_sixteen(rt.alloc(), "attribute", "attribute k 16\n")?;
    assert_bad_line(&rt, rt.alloc(), input.as_str(), 21, ATTRIBUTE)?;
    let input = after_sixteen(rt.alloc(), "require", "require-key k\n")?;
    assert_bad_line(&rt, rt.alloc(), input.as_str(), 21, REQUIRE)?;
    Ok(())
}

#[test]
fn bad_arguments(rt: HostRuntime) {
    let error =
        "bad argument: expected svg, -h, --help, --version, or no argument; the description is \
         read from the standard input\n";
    let alloc = rt.alloc();
    let words: [&[&str]; 9] = [
        &["default"],
        &["config"],
        &["config", "default"],
        &["SVG"],
        &["svg", "svg"],
        &["--help", "svg"],
        &["svg", "--version"],
        &["-v"],
        &[""],
    ];
    for words in words {
        assert_run(&rt, alloc, words, "event A\n", (1, "", error));
    }
}

/// Descriptions whose last line is bad for a cause of its own, and what is reported of it.
const CAUSES: [(&str, &str); 14] = [
    (
        "event A",
        "1: no newline ends it; expected config, or PATTERN NAME: publish-subscribe, event, request-response or blackboard, and the name of a service, 1 to 255 bytes",
    ),
    (
        "event A\nset max_nodes 4",
        "2: no newline ends it; expected the end, or a line that may follow the one before it",
    ),
    (
        "event A\nset max_nodes 4\r\n",
        "2: it ends in a carriage return and a newline, and not in a newline alone; expected the end, or a line that may follow the one before it",
    ),
    (
        "blackboard A\nkey 4 4 \u{e9}\n",
        "2: it holds the byte 195, and a line holds bytes from 32 to 126; expected key SIZE ALIGNMENT NAME: two numbers, the second a power of two, and 1 to 256 bytes",
    ),
    (
        "blackboard A\nkey\t4 4 u32\r\n",
        "2: it ends in a carriage return and a newline, and not in a newline alone; expected key SIZE ALIGNMENT NAME: two numbers, the second a power of two, and 1 to 256 bytes",
    ),
    (
        "blackboard A\nkey\t4 4 \u{7f}\n",
        "2: it holds the byte 9, and a line holds bytes from 32 to 126; expected key SIZE ALIGNMENT NAME: two numbers, the second a power of two, and 1 to 256 bytes",
    ),
    (
        "event A\nset max_nodes \u{7f}\n",
        "2: it holds the byte 127, and a line holds bytes from 32 to 126; expected the end, or a line that may follow the one before it",
    ),
    (
        "event iox2://A  B\n",
        "1: names that begin with iox2:// are those of internal services; expected config, or PATTERN NAME: publish-subscribe, event, request-response or blackboard, and the name of a service, 1 to 255 bytes",
    ),
    (
        "event A\nset max_nodes  4\n",
        "2: two spaces stand where one separates words; expected set NAME VALUE with a number",
    ),
    (
        "blackboard A\nkey  4 4 u32\n",
        "2: two spaces stand where one separates words; expected key SIZE ALIGNMENT NAME: two numbers, the second a power of two, and 1 to 256 bytes",
    ),
    (
        "blackboard A\nset max_listeners 4\n",
        "2: the pattern has no such setting; expected set NAME VALUE with one of the names max_readers, max_nodes",
    ),
    (
        "event A\nset max-listener_s 4\n",
        "2: the pattern has no such setting; expected set NAME VALUE with one of the names max_listeners, max_notifiers, max_nodes, event_id_max_value, deadline, notifier_created_event, notifier_dropped_event, notifier_dead_event",
    ),
    (
        "event A\nset max_nodes 36\nset max_nodes 36\n",
        "3: the setting was set before; expected each setting once",
    ),
    (
        "event A\nset deadline 7\nset max-nodes 4\nset max_nodes none\n",
        "4: the setting was set before; expected each setting once",
    ),
];

#[test]
fn causes(rt: HostRuntime) -> Result<(), Fail> {
    for (input, cause) in CAUSES {
        let error = format!(in rt.alloc(); "bad line {cause}\n")?;
        assert_run(&rt, rt.alloc(), &[], input, (1, "", error.as_str()));
    }
    Ok(())
}
