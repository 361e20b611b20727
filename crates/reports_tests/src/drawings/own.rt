//! Descriptions over settings of their own.

use super::expected::own::{FILES, NO_TOML, OWN, REFUSED};
use super::running::{assert_run, run};
use std::alloc::Global;
use std::process::Abort;

/// Settings in front take the place of the defaults, and the description changes them once more.
#[test]
fn own_settings_are_drawn(rt: HostRuntime) {
    assert_run(&rt, rt.alloc(), &[], OWN.0, (0, OWN.1, ""));
}

/// Asserts that an input is drawn with five nodes, and that these warnings are reported.
fn assert_drawn(rt: &impl Abort, alloc: Global, input: &str, warnings: &str) {
    let (status, output, errors) = run(rt, alloc, &[], input);
    let part = b"\n! max_nodes                                    5, by default 36\n";
    let found = output
        .windows(part.len())
        .any(|piece| piece == part.as_slice());
    assert_eq!(rt;
        (status, errors.as_slice(), found),
        (0, warnings.as_bytes(), true)
    );
}

/// Other forms of such settings, and keys that none has and contradictions, which are reported
/// beside the drawing.
#[test]
fn own_settings_have_any_form(rt: HostRuntime) {
    for (input, warnings) in FILES {
        assert_drawn(&rt, rt.alloc(), input, warnings);
    }
}

/// What is wrong with settings in front is reported, and nothing is drawn.
#[test]
fn own_settings_are_refused(rt: HostRuntime) {
    for (input, report) in REFUSED {
        assert_run(&rt, rt.alloc(), &[], input, (1, "", report));
    }
}

/// The lines of settings in front are counted from the top of the input.
#[test]
fn lines_are_counted_from_the_top(rt: HostRuntime) {
    assert_run(&rt, rt.alloc(), &[], NO_TOML.0, (1, "", NO_TOML.1));
}
