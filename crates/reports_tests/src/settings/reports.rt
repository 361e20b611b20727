//! What is written of files.

use super::expected::help::HELP;
use super::running::{Known, run};
use std::alloc::{AllocError, Global};
use std::test::Fail;

/// A file with a fault, a key that no setting has, and a key with a command to a terminal.
const BAD: &[u8] = b"[global]
prefix = 'a/b'
[defaults.event]
max-node = 3
\"\\u001b[31m\\u009b1m\" = 1
";

/// A file with a key that no setting has.
const DOUBTFUL: &[u8] = b"[defaults.blackboard]\nmax-reader = 3\n";

const FILES: Known<'_> = Known(&[
    ("bad.toml", BAD),
    ("doubtful.toml", DOUBTFUL),
    ("slash", b"global.prefix = '/'\n"),
    ("\x1b]0;title\x07\n\u{9b}2J", b"x"),
    (
        "one",
        b"global.prefix = 'one_'\ndefaults.event.max-nodes = 5\n",
    ),
    ("inline", b"global = { prefix = '\"' }\n"),
    ("lines", b"global.prefix = \"a\\nb\"\n"),
    (
        "other",
        b"[global.node]\nmonitor-suffix = '.seen'\n[global]\nprefix = \"\\u0022\"\n",
    ),
]);

/// Words, the status, the output and the errors.
type Run<'a> = (&'a [&'a str], u8, &'a str, &'a str);

const RUNS: [Run<'_>; 14] = [
    (
        &["bad.toml"],
        1,
        "bad.toml:2:1: error: global.prefix: is no name of a file: it has a `/`\n\
         bad.toml:4:1: warning: defaults.event.max-node: this table has no such key, \
         defaults.event.max-nodes may be meant\n\
         bad.toml:5:1: warning: defaults.event.\"\\u001B[31m\\u{9b}1m\": this table has no such \
         key\n\
         1 error, 2 warnings; contradictions are looked for in files without errors\n",
        "",
    ),
    (
        &["--format", "json", "bad.toml"],
        1,
        "{\"column\":1,\"file\":\"bad.toml\",\"key\":\"global.prefix\",\"line\":2,\"message\":\"is no \
         name of a file: it has a `/`\",\"severity\":\"error\"}\n\
         {\"column\":1,\"file\":\"bad.toml\",\"key\":\"defaults.event.max-node\",\"line\":4,\
         \"message\":\"this table has no such key, defaults.event.max-nodes may be meant\",\
         \"severity\":\"warning\"}\n\
         {\"column\":1,\"file\":\"bad.toml\",\
         \"key\":\"defaults.event.\\\"\\\\u001B[31m\\\\u{9b}1m\\\"\",\"line\":5,\
         \"message\":\"this table has no such key\",\"severity\":\"warning\"}\n",
        "",
    ),
    (
        &["doubtful.toml"],
        0,
        "doubtful.toml:2:1: warning: defaults.blackboard.max-reader: this table has no such key, \
         defaults.blackboard.max-readers may be meant\n0 errors, 1 warning\n",
        "",
    ),
    (
        &["--strict", "--format", "json", "doubtful.toml"],
        1,
        "{\"column\":1,\"file\":\"doubtful.toml\",\"key\":\"defaults.blackboard.max-reader\",\"line\":2,\
         \"message\":\"this table has no such key, defaults.blackboard.max-readers may be meant\",\
         \"severity\":\"warning\"}\n",
        "",
    ),
    (
        &["gone\x1b[0m", "closed", "folder", "broken", "doubtful.toml"],
        2,
        "doubtful.toml:2:1: warning: defaults.blackboard.max-reader: this table has no such key, \
         defaults.blackboard.max-readers may be meant\n\
         0 errors, 1 warning; a file cannot be read\n",
        "gone\\u{1b}[0m: there is no such file\nclosed: it may not be read\n\
         folder: it is a directory\nbroken: it cannot be read\n",
    ),
    (
        &["--show", "bad.toml"],
        1,
        "",
        "bad.toml:2:1: error: global.prefix: is no name of a file: it has a `/`\n\
         bad.toml:4:1: warning: defaults.event.max-node: this table has no such key, \
         defaults.event.max-nodes may be meant\n\
         bad.toml:5:1: warning: defaults.event.\"\\u001B[31m\\u{9b}1m\": this table has no such \
         key\n",
    ),
    (
        &["--compare", "one", "other"],
        1,
        "one:1:1: error: global.prefix: is \"one_\" here and '\"' at other:4:1, and must be the same \
         in all processes of one system\n\
         other:2:1: error: global.node.monitor-suffix: is \".seen\" here and \".node_monitor\" by \
         default in one, and must be the same in all processes of one system\n\
         one:2:1: warning: defaults.event.max-nodes: is 5 here and 36 by default in other\n\
         2 errors, 1 warning\n",
        "",
    ),
    (
        &["--compare", "inline", "other"],
        1,
        "other:2:1: error: global.node.monitor-suffix: is \".seen\" here and \".node_monitor\" by \
         default in inline, and must be the same in all processes of one system\n\
         1 error, 0 warnings\n",
        "",
    ),
    (
        &["--compare", "--format", "json", "lines", "inline"],
        1,
        "{\"column\":1,\"file\":\"lines\",\"key\":\"global.prefix\",\"line\":1,\
         \"message\":\"is \\\"a\\\\nb\\\": it has a control character\",\
         \"severity\":\"warning\"}\n\
         {\"column\":1,\"file\":\"lines\",\"key\":\"global.prefix\",\"line\":1,\
         \"message\":\"is \\\"a\\\\nb\\\" here and '\\\"' at inline:1:1, and must be the same in \
         all processes of one system\",\
         \"severity\":\"error\"}\n",
        "",
    ),
    (
        &["--compare", "one", "one"],
        0,
        "0 errors, 0 warnings\n",
        "",
    ),
    (
        &[
            "--compare",
            "one",
            "doubtful.toml",
            "--strict",
            "--format",
            "text",
        ],
        1,
        "doubtful.toml:2:1: warning: defaults.blackboard.max-reader: this table has no such key, \
         defaults.blackboard.max-readers may be meant\n\
         one:1:1: error: global.prefix: is \"one_\" here and \"iox2_\" by default in doubtful.toml, \
         and must be the same in all processes of one system\n\
         one:2:1: warning: defaults.event.max-nodes: is 5 here and 36 by default in doubtful.toml\n\
         1 error, 2 warnings\n",
        "",
    ),
    (
        &["--compare", "one", "slash"],
        1,
        "slash:1:1: error: global.prefix: is no name of a file: it has a `/`\n\
         1 error, 0 warnings; contradictions are looked for in files without errors; the files are \
         not compared\n",
        "",
    ),
    (
        &["--compare", "gone", "one"],
        2,
        "0 errors, 0 warnings; the files are not compared; a file cannot be read\n",
        "gone: there is no such file\n",
    ),
    (&["--version"], 0, "iox2-check 0.1.0 (iceoryx2 0.9.3)\n", ""),
];

/// Whether a run with some words ends with the status, and writes these texts.
fn reports(
    alloc: Global,
    words: &[&str],
    status: u8,
    output: &str,
    errors: &str,
) -> Result<bool, AllocError> {
    let found = run(alloc, false, words, FILES, b"")?;
    Ok(
        found.0 == status
            && found.1.as_slice() == output.as_bytes()
            && found.2.as_slice() == errors.as_bytes(),
    )
}

#[test]
fn files_are_reported(rt: HostRuntime) -> Result<(), Fail> {
    for (words, status, output, errors) in &RUNS {
        let is_reported = reports(rt.alloc(), words, *status, output, errors)?;
        assert_eq!(rt; is_reported, true);
    }
    Ok(())
}

/// The text of `--help` is written.
#[test]
fn help_is_written(rt: HostRuntime) -> Result<(), Fail> {
    let is_reported = reports(rt.alloc(), &["--help"], 0, HELP, "")?;
    assert_eq!(rt; is_reported, true);
    Ok(())
}

/// The name of a file has commands to a terminal, and its text is no TOML.
#[test]
fn no_name_is_a_command_to_a_terminal(rt: HostRuntime) -> Result<(), Fail> {
    let words = ["\x1b]0;title\x07\n\u{9b}2J"];
    let (status, output, errors) = run(rt.alloc(), false, &words, FILES, b"")?;
    let begin = b"\\u{1b}]0;title\\u{7}\\u{a}\\u{9b}2J:1:".as_slice();
    assert_eq!(rt;
        (status, output.starts_with(begin), errors.len()),
        (1, true, 0)
    );
    Ok(())
}

/// What a run writes to its output.
fn written(
    alloc: Global,
    coloured: bool,
    words: &[&str],
    input: &[u8],
) -> Result<Vec<u8>, AllocError> {
    let (_, output, _) = run(alloc, coloured, words, FILES, input)?;
    Ok(output)
}

/// Lines are in colour on a terminal, and objects of JSON are not.
#[test]
fn colours_are_those_of_findings(rt: HostRuntime) -> Result<(), Fail> {
    let output = written(rt.alloc(), true, &["-"], b"x = 1\n[global]\nprefix = ''\n")?;
    let expected = b"\x1b[33m-:1:1: warning: x: this table has no such key\x1b[0m\n\
        \x1b[31m-:3:1: error: global.prefix: is no name of a file: it is empty\x1b[0m\n\
        1 error, 1 warning; contradictions are looked for in files without errors\n";
    assert_eq!(rt; output.as_slice(), expected.as_slice());
    let json = ["--format", "json", "doubtful.toml"];
    let plain = written(rt.alloc(), false, &json, b"")?;
    let coloured = written(rt.alloc(), true, &json, b"")?;
    assert_eq!(rt; plain.as_slice(), coloured.as_slice());
    Ok(())
}
