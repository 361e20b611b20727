//! Streams that fail at a call that the test names.

use crate::arguments::arguments;
use service_drawing::describe_streams;
use std::alloc::{AllocError, Global};
use std::io::ErrorKind;
use std::test::Fail;
use test_support::failing_streams::Streams;

/// The status of a run on these streams.
fn status_on(alloc: Global, streams: &mut Streams) -> Result<u8, AllocError> {
    let words = Ok(arguments(alloc, "iox2-describe", &[])?);
    Ok(describe_streams(
        alloc,
        words,
        &mut streams.input,
        &mut streams.output,
        &mut streams.errors,
    ))
}

/// The status of a run where each stream fails at the
/// call of its own number, and how many calls each had.
fn run(
    alloc: Global,
    input: &str,
    failing: [Option<u64>; 3],
) -> Result<(u8, [u64; 3]), AllocError> {
    let (text, kind) = (input.as_bytes(), ErrorKind::Interrupted);
    let mut streams = Streams::failing_at(alloc, text, [40, 200], failing, kind);
    let status = status_on(alloc, &mut streams)?;
    Ok((status, streams.made()))
}

/// A description of 54 bytes, whose drawing has 686.
const BLACKBOARD: &str = "blackboard A\nkey 4 4 u32\nattribute camera is in front\n";

#[test]
fn reads_and_writes_that_fail(rt: HostRuntime) -> Result<(), Fail> {
    // The input is read in two pieces, and the third read finds its end.
    for call in 0..3 {
        let found = run(rt.alloc(), BLACKBOARD, [Some(call), None, None])?;
        assert_eq!(rt; found, (3, [call + 1, 0, 0]));
    }
    // The drawing is written in four pieces, and then flushed.
    for call in 0..5 {
        let found = run(rt.alloc(), BLACKBOARD, [None, Some(call), None])?;
        assert_eq!(rt; found, (3, [3, call + 1, 0]));
    }
    // The flush of the errors comes last.
    let found = run(rt.alloc(), BLACKBOARD, [None, None, Some(0)])?;
    assert_eq!(rt; found, (3, [3, 5, 1]));
    Ok(())
}

#[test]
fn errors_that_fail(rt: HostRuntime) -> Result<(), Fail> {
    // The line is written in one piece, and then flushed.
    for call in 0..2 {
        let (status, made) = run(rt.alloc(), "", [None, None, Some(call)])?;
        assert_eq!(rt; (status, made[2]), (3, call + 1));
    }
    Ok(())
}
