//! Worked scripts, and the bad lines of others.

use service_descriptions::replay::{ScriptError, run_script};
use std::alloc::{AllocError, Global};
use std::error::Error;
use std::process::Abort;
use std::test::Fail;
use test_support::scripts::{ROWS, SKIPPED};

/// Runs a script, which is to give these lines, and to be bad at a line or at none.
fn gives(rt: &(impl Abort + AllocGlobal), script: &str, lines: &str, bad: Option<usize>) {
    let mut out = Vec::new(rt.alloc());
    let end = match run_script(rt.alloc(), script.as_bytes(), &mut out) {
        Ok(()) => None,
        Err(ScriptError::BadLine(line)) => Some(line),
        Err(ScriptError::NoMemory(_)) => Some(0),
    };
    assert_eq!(rt;
        (script, end, out.as_slice()),
        (script, bad, lines.as_bytes())
    );
}

#[test]
fn worked_scripts(rt: HostRuntime) {
    for (script, lines) in &ROWS {
        gives(&rt, script, lines, None);
    }
}

/// So many first lines of a text.
fn first_lines(text: &str, count: usize) -> &str {
    let mut left = count;
    for (i, c) in text.char_indices() {
        if left == 0 {
            return text.get(..i).unwrap_or(text);
        }
        if c == '\n' {
            left -= 1;
        }
    }
    text
}

#[test]
fn each_beginning_of_a_script(rt: HostRuntime) {
    let (script, lines) = SKIPPED;
    for end in 0..script.len() {
        let beginning = script.get(..end).unwrap_or(script);
        let whole = beginning.chars().filter(|c| *c == '\n').count();
        let bad = if whole > 0 && beginning.ends_with('\n') {
            None
        } else {
            Some(whole + 1)
        };
        gives(&rt, beginning, first_lines(lines, whole.max(1) - 1), bad);
    }
}

#[test]
fn bad_service_lines(rt: HostRuntime) {
    let scripts = [
        "",
        "\n",
        "register 1.0.0.1\n",
        "service event 07 1 2 2\n",
        "service event +7 1 2 2\n",
        "service event -7 1 2 2\n",
        "service  event 7 1 2 2\n",
        " service event 7 1 2 2\n",
        "service event 7 1 2 2 \n",
        "service event 7 1 2 2\r\n",
        "service event 7 1 2 2 2\n",
        "service event 7 1 2\n",
        "service events 7 1 2 2\n",
        "service Event 7 1 2 2\n",
        "service event 18446744073709551616 1 2 2\n",
        "service event 7 18446744073709551616 2 2\n",
        "service event 7 1 2 2",
    ];
    for script in scripts {
        gives(&rt, script, "", Some(1));
    }
}

#[test]
fn bad_second_lines(rt: HostRuntime) {
    let scripts = [
        "service event 7 1 2 2\nregister 01.0.0.1\n",
        "service event 7 1 2 2\nregister 0.5.6.0\n",
        "service event 7 1 2 2\nnodes",
        "service event 7 1 2 2\nregister 1.0.0\n",
        "service event 7 1 2 2\nderegister 00\n",
        "service event 7 1 2 2\ncount node\n",
        "service event 7 1 2 2\nlist  listener\n",
        "service event 7 1 2 2\ndead 1.0.0.1 skip\n",
        "service event 7 1 2 2\ndead 1.0.0.1 skip \n",
        "service event 7 1 2 2\ndead 1.0.0.1 skip 1.0.0.9 \n",
        "service event 7 1 2 2\nregister 1.0.0.1",
        "service event 7 1 2 2\nregister +1.0.0.1\n",
        "service event 7 1 2 2\nregister  1.0.0.1\n",
        "service event 7 1 2 2\n register 1.0.0.1\n",
        "service event 7 1 2 2\nregister 1.0.0.1 \n",
        "service event 7 1 2 2\nregister 1.0.0.1\r\n",
        "service event 7 1 2 2\nregister 1.0.0.1 1.0.0.1\n",
        "service event 7 1 2 2\nregister 4294967296.0.0.1\n",
        "service event 7 1 2 2\nderegister 18446744073709551616\n",
        "service event 7 1 2 2\n\n",
        "service event 7 1 2 2\nȀ\n",
        "service event 7 1 2 2\nservice event 7 1 2 2\n",
    ];
    for script in scripts {
        gives(&rt, script, "", Some(2));
    }
}

#[test]
fn replies_before_a_bad_line(rt: HostRuntime) {
    gives(
        &rt,
        "service event 7 1 2 2\nregister 1.0.0.1\nregister 1.0.0\nnodes\n",
        "handle 0 0\n",
        Some(3),
    );
}

#[test]
fn a_line_that_is_no_text(rt: HostRuntime) {
    let mut out = Vec::new(rt.alloc());
    let end = run_script(rt.alloc(), b"service event 7 1 2 2\n\xc8\n", &mut out);
    assert!(rt; matches!(end, Err(ScriptError::BadLine(2))) && out.is_empty());
}

/// The text of what is known to be an error alone.
fn reported(alloc: Global, error: &impl Error) -> Result<String, AllocError> {
    format!(in alloc; "{error}")
}

#[test]
fn each_end_has_its_text(rt: HostRuntime) -> Result<(), Fail> {
    for (end, text) in [
        (ScriptError::BadLine(1), "bad line 1"),
        (
            ScriptError::BadLine(usize::MAX),
            "bad line 18446744073709551615",
        ),
        (ScriptError::from(AllocError), "no memory"),
    ] {
        assert_eq!(rt; reported(rt.alloc(), &end)?.as_str(), text);
    }
    Ok(())
}
