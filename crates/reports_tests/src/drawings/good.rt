//! Good descriptions that are as long or as large as they may be: each is taken.

use super::running::run;
use std::alloc::{AllocError, Global};
use std::process::Abort;
use std::str;
use std::test::Fail;

/// Asserts that a description is drawn, and that this line stands in the drawing.
fn assert_line(rt: &impl Abort, alloc: Global, input: &str, line: &str) {
    let (status, output, errors) = run(rt, alloc, &[], input);
    let Ok(drawing) = str::from_utf8(output.as_slice()) else {
        panic!(rt; "{input}");
    };
    assert_eq!(rt;
        (
            status,
            errors.len(),
            drawing.split('\n').any(|found| found == line)
        ),
        (0, 0, true),
        "{input}"
    );
}

/// A text of this many letters.
fn letters(alloc: Global, letter: char, count: usize) -> Result<String, AllocError> {
    let mut text = String::new(alloc);
    for _ in 0..count {
        text.push(letter)?;
    }
    Ok(text)
}

/// The longest name of a service, name of a type, key and value, with the letter that comes last.
#[test]
fn longest_texts(rt: HostRuntime) -> Result<(), Fail> {
    let alloc = rt.alloc();
    let name = letters(alloc, '~', 255)?;
    let input = format!(in alloc; "event {name}\n")?;
    let line = format!(in alloc; "service    {name}")?;
    assert_line(&rt, alloc, input.as_str(), line.as_str());
    let name = letters(alloc, '~', 256)?;
    let input = format!(in alloc; "blackboard A\nkey 4 4 {name}\n")?;
    let line = format!(in alloc;
        "no messages, but values whose keys are of the type {name}, 4 bytes, alignment 4"
    )?;
    assert_line(&rt, alloc, input.as_str(), line.as_str());
    let key = letters(alloc, '~', 64)?;
    let value = letters(alloc, '~', 256)?;
    let line = format!(in alloc; "  {key} = {value}")?;
    let input = format!(in alloc; "event A\nattribute {key} {value}\n")?;
    assert_line(&rt, alloc, input.as_str(), line.as_str());
    let input = format!(in alloc; "event A\nrequire {key} {value}\n")?;
    assert_line(&rt, alloc, input.as_str(), line.as_str());
    let input = format!(in alloc; "event A\nrequire-key {key}\n")?;
    let line = format!(in alloc; "  {key}")?;
    assert_line(&rt, alloc, input.as_str(), line.as_str());
    Ok(())
}

/// Spaces at both ends of a name and side by side in it, lines of 128 bytes, and the least and the
/// greatest numbers and alignments.
const GOOD: [(&str, &str); 17] = [
    ("event ~\n", "service    ~"),
    ("event  a  b \n", "service     a  b "),
    ("event A\nattribute k  v  w\n", "  k =  v  w"),
    (
        "blackboard A\nkey 1 1  a  b\n",
        "no messages, but values whose keys are of the type  a  b, 1 byte, alignment 1",
    ),
    (
        "publish-subscribe A\nheader 0 1 ()\nuser-header 0 1 ()\npayload fixed 1 1 u8\n",
        "message: 1 byte, alignment 1",
    ),
    (
        "event 45678901234567890123456789012345678901234567890123456789012345678901234567890123456789012345678901234567890123456789~ 4567\n",
        "service    45678901234567890123456789012345678901234567890123456789012345678901234567890123456789012345678901234567890123456789~ 4567",
    ),
    (
        "event A\nattribute k ~ ~56789012345678901234567890123456789012345678901234567890123456789012345678901234567890123456789012345678901234567\n",
        "  k = ~ ~56789012345678901234567890123456789012345678901234567890123456789012345678901234567890123456789012345678901234567",
    ),
    (
        "event A\nset max_nodes 18446744073709551615\n",
        "! max_nodes                                    18446744073709551615, by default 36",
    ),
    (
        "event A\nset deadline 18446744073709551615\n",
        "! deadline                                     18446744073709551615, by default none",
    ),
    (
        "event A\nset max_nodes 36\nset deadline none\n",
        "  max_nodes                                    36",
    ),
    (
        "event A\nset event-id-max-value 7\nset max-nodes 4\n",
        "! event_id_max_value                           7, by default 255",
    ),
    (
        "request-response A\nset max-borrowed-responses-per-pending-response 3\nrequest-header 8 8 u64\nrequest-user-header 0 1 ()\nrequest-payload fixed 4 4 u32\nresponse-header 8 8 u64\nresponse-user-header 0 1 ()\nresponse-payload fixed 4 4 u32\n",
        "! max_borrowed_responses_per_pending_response  3, by default 2",
    ),
    (
        "blackboard A\nkey 0 9223372036854775808 K\n",
        "no messages, but values whose keys are of the type K, 0 bytes, alignment 9223372036854775808",
    ),
    (
        "publish-subscribe A\nheader 0 9223372036854775808 H\nuser-header 0 1 ()\npayload fixed 0 1 ()\nopener 9223372036854775808 1 1\n",
        "message: 0 bytes, alignment 9223372036854775808",
    ),
    (
        "publish-subscribe A\nheader 0 1 ()\nuser-header 0 1 ()\npayload dynamic 1 1 u8\nelements 9223372036854775807\n",
        "message: 9223372036854775807 bytes, alignment 1",
    ),
    (
        "publish-subscribe A\nheader 8 8 u64\nuser-header 0 1 ()\npayload dynamic 8 8 f64\nelements 17\n",
        "         8        136          8               payload 17 of f64",
    ),
    (
        "publish-subscribe A\nheader 8 8 u64\nuser-header 0 1 ()\npayload dynamic 8 8 f64\nelements 0\n",
        "message: 16 bytes, alignment 8",
    ),
];

#[test]
fn greatest_and_longest(rt: HostRuntime) {
    for (input, line) in GOOD {
        assert_line(&rt, rt.alloc(), input, line);
    }
}

/// The service, and then 16 lines that begin so and end in a number.
fn with_sixteen(alloc: Global, begin: &str) -> Result<String, AllocError> {
    let mut input = String::from_str(alloc, "event A\n")?;
    for i in 0..16 {
        writeln!(input, "{begin} k {i}")?;
    }
    Ok(input)
}

#[test]
fn sixteen_lines(rt: HostRuntime) -> Result<(), Fail> {
    let alloc = rt.alloc();
    for begin in ["attribute", "require"] {
        let input = with_sixteen(alloc, begin)?;
        assert_line(&rt, alloc, input.as_str(), "  k = 15");
    }
    Ok(())
}

/// Numbers of elements at which room could run out.
const ELEMENTS: [usize; 20] = [
    0, 1, 2, 5, 6, 7, 16, 17, 100, 101, 1000, 1001, 4095, 4096, 4097, 65535, 65536, 65537, 1000000,
    1000001,
];

/// With ample memory a message of any number of elements is drawn in both forms, and so is a
/// drawing of more than 4,096 bytes.
#[test]
fn sizes(rt: HostRuntime) -> Result<(), Fail> {
    let alloc = rt.alloc();
    let forms: [&[&str]; 2] = [&[], &["svg"]];
    for elements in ELEMENTS {
        let input = format!(in alloc;
            "publish-subscribe A\nheader 8 8 u64\nuser-header 0 1 ()\npayload dynamic 8 8 f64\nelements {elements}\n"
        )?;
        for words in forms {
            let (status, _, errors) = run(&rt, alloc, words, input.as_str());
            assert_eq!(rt; (status, errors.len()), (0, 0), "{elements}");
        }
    }
    let mut input = String::from_str(alloc, "event A\n")?;
    let value = letters(alloc, 'v', 256)?;
    for i in 0..16 {
        writeln!(input, "attribute k{i} {value}")?;
    }
    let (status, output, errors) = run(&rt, alloc, &[], input.as_str());
    assert_eq!(rt; (status, errors.len(), 4096 < output.len()), (0, 0, true));
    Ok(())
}

/// The version is written, and the input is not looked at.
#[test]
fn told_without_a_description(rt: HostRuntime) {
    let alloc = rt.alloc();
    let (status, output, errors) = run(&rt, alloc, &["--version"], "bad");
    assert_eq!(rt;
        (status, output.as_slice(), errors.len()),
        (0, b"iox2-describe 0.1.0 (iceoryx2 0.9.3)\n".as_slice(), 0)
    );
}
