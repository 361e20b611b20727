//! What words of the command line lead to.

use super::running::{Known, run};
use std::test::Fail;

/// Words, and the status of a run on files `a` and `b` without settings.
const STATUSES: [(&[&str], u8); 40] = [
    (&["a"], 0),
    (&["a", "b", "a"], 0),
    (&["-"], 0),
    (&["a", "-", "-"], 0),
    (&["--strict", "a"], 0),
    (&["a", "--strict"], 0),
    (&["--strict", "--strict", "a"], 0),
    (&["--format", "text", "a"], 0),
    (&["a", "--format", "json"], 0),
    (&["--format=json", "a"], 0),
    (&["a", "--format=text"], 0),
    (&["--show", "a"], 0),
    (&["a", "--show"], 0),
    (&["--strict", "--show", "a"], 0),
    (&["--compare", "a", "b"], 0),
    (&["a", "--compare", "b"], 0),
    (&["--default"], 0),
    (&["--schema"], 0),
    (&["--help"], 0),
    (&["-h"], 0),
    (&["--help", "--strict"], 0),
    (&["--version"], 0),
    (&[], 2),
    (&["--strict"], 2),
    (&["--show"], 2),
    (&["--show", "a", "b"], 2),
    (&["--show", "--format", "json", "a"], 2),
    (&["--default", "--strict"], 2),
    (&["--schema", "--format", "json"], 2),
    (&["--compare", "a"], 2),
    (&["--compare", "a", "b", "a"], 2),
    (&["--default", "a"], 2),
    (&["--show", "--schema"], 2),
    (&["--format", "a"], 2),
    (&["a", "--format"], 2),
    (&["--format", "json", "--format", "json", "a"], 2),
    (&["--format=json", "--format", "json", "a"], 2),
    (&["--format=xml", "a"], 2),
    (&["--unknown", "a"], 2),
    (&["-s", "a"], 2),
];

const FILES: Known<'_> = Known(&[("a", b""), ("b", b"")]);

#[test]
fn each_list_of_words_has_its_status(rt: HostRuntime) -> Result<(), Fail> {
    for (words, expected) in &STATUSES {
        let (status, output, errors) = run(rt.alloc(), false, words, FILES, b"")?;
        assert_eq!(rt; (status, errors.is_empty()), (*expected, *expected == 0));
        // With bad words nothing is written to the output.
        assert!(rt; *expected == 0 || output.is_empty());
    }
    Ok(())
}

#[test]
fn bad_words_are_reported(rt: HostRuntime) -> Result<(), Fail> {
    let (_, _, errors) = run(rt.alloc(), false, &["--unknown"], FILES, b"")?;
    let expected = b"bad arguments: expected FILE.., --show FILE, --compare FILE FILE, --default, \
        --schema, -h, --help or --version; for files also --strict, --format text or --format \
        json\n";
    assert_eq!(rt; errors.as_slice(), expected.as_slice());
    Ok(())
}
