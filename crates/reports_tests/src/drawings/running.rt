//! A run of the program on texts.

use crate::arguments::arguments;
use service_drawing::describe_streams;
use std::alloc::Global;
use std::process::Abort;

/// The status of a run, and what it writes to its output and to its errors.
pub(super) fn run(
    rt: &impl Abort,
    alloc: Global,
    words: &[&str],
    input: &str,
) -> (u8, Vec<u8>, Vec<u8>) {
    let words = arguments(alloc, "iox2-describe", words).expect(rt, "memory");
    let mut output = Vec::new(alloc);
    let mut errors = Vec::new(alloc);
    let mut bytes = input.as_bytes();
    let status = describe_streams(alloc, Ok(words), &mut bytes, &mut output, &mut errors);
    (status, output, errors)
}

/// Asserts that a run has this status, and writes these texts to its output and its errors.
pub(super) fn assert_run(
    rt: &impl Abort,
    alloc: Global,
    words: &[&str],
    input: &str,
    expected: (u8, &str, &str),
) {
    let (status, output, errors) = run(rt, alloc, words, input);
    let (code, drawing, report) = expected;
    assert_eq!(rt;
        (status, output.as_slice(), errors.as_slice()),
        (code, drawing.as_bytes(), report.as_bytes()),
        "{input}"
    );
}
