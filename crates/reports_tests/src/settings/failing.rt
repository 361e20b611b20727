//! Streams that fail at a call that the test names.

use super::running::Known;
use crate::arguments::arguments;
use settings_check::check_streams;
use std::alloc::{AllocError, Global};
use std::io::ErrorKind;
use std::test::Fail;
use test_support::failing_streams::Streams;

/// The status of a run on these streams and a file that is not there.
fn status_on(alloc: Global, streams: &mut Streams) -> Result<u8, AllocError> {
    let words = Ok(arguments(alloc, "iox2-check", &["-", "x"])?);
    Ok(check_streams(
        alloc,
        false,
        words,
        &Known(&[]),
        &mut streams.input,
        &mut streams.output,
        &mut streams.errors,
    ))
}

/// The status of a run on an empty input and a file that is not there, where each stream fails at
/// the call of its own number, how many calls each had, and whether a failure was reported last.
fn run(alloc: Global, failing: [Option<u64>; 3]) -> Result<(u8, [u64; 3], bool), AllocError> {
    let mut streams = Streams::failing_at(alloc, b"", [40, 12], failing, ErrorKind::Interrupted);
    let status = status_on(alloc, &mut streams)?;
    let reported = streams.errors.bytes.ends_with(b"a stream failed\n");
    Ok((status, streams.made(), reported))
}

/// At which call each stream fails, the status, and how many calls each has.
type Row = ([Option<u64>; 3], (u8, [u64; 3], bool));

const ROWS: [Row; 11] = [
    // Nothing fails: the input ends at once, the 44 bytes of the last line and the 25 bytes of the
    // file that is not there are written in four pieces and in three, and both are flushed.
    ([None, None, None], (2, [1, 5, 4], false)),
    // A failure is reported in two pieces.
    ([Some(0), None, None], (3, [1, 0, 2], true)),
    ([None, Some(0), None], (3, [1, 1, 2], true)),
    ([None, Some(1), None], (3, [1, 2, 2], true)),
    ([None, Some(2), None], (3, [1, 3, 2], true)),
    ([None, Some(3), None], (3, [1, 4, 2], true)),
    // The flush of the output comes behind the errors, and theirs last.
    ([None, Some(4), None], (3, [1, 5, 5], true)),
    ([None, None, Some(0)], (3, [1, 4, 3], true)),
    ([None, None, Some(1)], (3, [1, 4, 4], true)),
    ([None, None, Some(2)], (3, [1, 4, 5], true)),
    ([None, None, Some(3)], (3, [1, 5, 6], true)),
];

#[test]
fn each_failed_call_is_the_last_but_for_the_report(rt: HostRuntime) -> Result<(), Fail> {
    for (failing, wanted) in ROWS {
        assert_eq!(rt; run(rt.alloc(), failing)?, wanted);
    }
    Ok(())
}
