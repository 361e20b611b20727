//! The program on streams of a test's own, which fail at a call that the test names.

use service_descriptions::replay::run_streams;
use std::alloc::Global;
use std::io::ErrorKind;
use std::process::Abort;
use std::test::Fail;
use test_support::failing_streams::Streams;
use test_support::scripts::{ROWS, SKIPPED};

/// How many bytes the input gives at a call, and the writers take, at most.
const PIECES: [usize; 2] = [40, 20];

/// The status of a run.
fn run(alloc: Global, streams: &mut Streams) -> u8 {
    run_streams(
        alloc,
        &mut streams.input,
        &mut streams.output,
        &mut streams.errors,
    )
}

/// A run on streams that do not fail gives this output and
/// these errors, and asks for no more than 4,096 bytes at once.
fn gives(
    rt: &(impl Abort + AllocGlobal),
    script: &str,
    pieces: [usize; 2],
    (status, lines, error): (u8, &str, &str),
) {
    let mut streams = Streams::steady(rt.alloc(), script.as_bytes(), pieces);
    let ended = run(rt.alloc(), &mut streams);
    assert_eq!(rt;
        (
            script,
            ended,
            streams.input.greatest,
            streams.output.bytes.as_slice(),
            streams.errors.bytes.as_slice()
        ),
        (script, status, 4096, lines.as_bytes(), error.as_bytes())
    );
}

#[test]
fn worked_scripts(rt: HostRuntime) {
    for (script, lines) in &ROWS {
        for pieces in [[1, 1], [40, 20], [4096, 4096]] {
            gives(&rt, script, pieces, (0, lines, ""));
        }
    }
}

/// A script of 67 bytes, which is bad at line 5, and the 47 bytes of its replies.
const BAD: (&str, &str) = (
    "service event 7 1 2 2\nregister 1.0.0.1\nregister 2.0.0.2\nnodes\nnode\n",
    "handle 0 0\nfull\nlist 1000000000000000000000001\n",
);

#[test]
fn statuses(rt: HostRuntime) {
    let rows = [
        ("service event 7 1 2 2\n", 0, "", ""),
        ("", 1, "", "bad line 1\n"),
        (
            "service event 7 1 2 2\nregister 01.0.0.1\n",
            1,
            "",
            "bad line 2\n",
        ),
        (
            "service event 7 1 2 2\nregister 0.5.6.0\n",
            1,
            "",
            "bad line 2\n",
        ),
        ("service event 7 1 2 2\nnodes", 1, "", "bad line 2\n"),
        (
            "service event 7 1 2 2\nregister 1.0.0.1\nregister 1.0.0\nnodes\n",
            1,
            "handle 0 0\n",
            "bad line 3\n",
        ),
        (BAD.0, 1, BAD.1, "bad line 5\n"),
        // No memory has room for so many nodes.
        (
            "service event 7 18446744073709551615 2 2\nregister 1.0.0.1\n",
            2,
            "",
            "no memory\n",
        ),
    ];
    for (script, status, lines, error) in rows {
        gives(&rt, script, PIECES, (status, lines, error));
    }
}

/// A service with a node that stays and one that comes and goes 2,500 times, and its reply lines.
fn long_script(alloc: Global) -> Result<(String, String), Fail> {
    let mut script = String::from_str(alloc, "service event 7 2 2 2\nregister 1.0.0.1\n")?;
    let mut lines = String::from_str(alloc, "handle 0 0\n")?;
    for turn in 0..2500u64 {
        writeln!(script, "register 2.0.0.2\nderegister {}", turn + turn + 1)?;
        writeln!(lines, "handle 1 {}\nhas-owners", turn + 1)?;
    }
    Ok((script, lines))
}

/// Over 2,000 reads, 5,000 commands, 3,000 writes and 60,000 bytes either way.
#[test]
fn a_long_script(rt: HostRuntime) -> Result<(), Fail> {
    let (script, lines) = long_script(rt.alloc())?;
    let mut streams = Streams::steady(rt.alloc(), script.as_bytes(), PIECES);
    let ended = run(rt.alloc(), &mut streams);
    // The last read finds the end, and both writers are flushed.
    let reads = script.len().div_ceil(40) as u64 + 1;
    let writes = lines.len().div_ceil(20) as u64 + 1;
    assert_eq!(rt; (ended, streams.made()), (0, [reads, writes, 1]));
    assert!(rt; streams.output.bytes.as_slice() == lines.as_bytes());
    assert!(rt; streams.errors.bytes.is_empty());
    Ok(())
}

/// Where a stream fails at a call, whatever the kind of the failure, the status is 3 and the
/// streams have had this many calls.
fn fails(rt: &(impl Abort + AllocGlobal), script: &str, failing: [Option<u64>; 3], made: [u64; 3]) {
    for kind in [ErrorKind::Other, ErrorKind::Interrupted] {
        let text = script.as_bytes();
        let mut streams = Streams::failing_at(rt.alloc(), text, PIECES, failing, kind);
        let ended = run(rt.alloc(), &mut streams);
        assert_eq!(rt; (ended, streams.made()), (3, made));
    }
}

#[test]
fn a_read_that_fails(rt: HostRuntime) {
    // The script is read in six pieces, and the last read finds its end.
    for call in 0..7 {
        fails(&rt, SKIPPED.0, [Some(call), None, None], [call + 1, 0, 0]);
    }
}

#[test]
fn a_write_or_flush_of_a_good_script_that_fails(rt: HostRuntime) {
    // The replies are written in ten pieces, and then flushed.
    for call in 0..11 {
        fails(&rt, SKIPPED.0, [None, Some(call), None], [7, call + 1, 0]);
    }
    // The flush of the errors comes last.
    fails(&rt, SKIPPED.0, [None, None, Some(0)], [7, 11, 1]);
}

/// The output is written, then the errors, then the output is flushed, then the errors.
#[test]
fn a_write_or_flush_of_a_bad_script_that_fails(rt: HostRuntime) {
    // The script is read in two pieces and the replies are
    // written in three, as is the error with its number.
    for call in 0..3 {
        fails(&rt, BAD.0, [None, Some(call), None], [3, call + 1, 0]);
        fails(&rt, BAD.0, [None, None, Some(call)], [3, 3, call + 1]);
    }
    fails(&rt, BAD.0, [None, Some(3), None], [3, 4, 3]);
    fails(&rt, BAD.0, [None, None, Some(3)], [3, 4, 4]);
}

/// A writer that takes no byte fails: it is not asked again.
#[test]
fn a_writer_that_takes_nothing(rt: HostRuntime) {
    for (script, made) in [(SKIPPED.0, [7, 1, 0]), ("", [1, 0, 1])] {
        let mut streams = Streams::steady(rt.alloc(), script.as_bytes(), [40, 0]);
        let ended = run(rt.alloc(), &mut streams);
        assert_eq!(rt; (ended, streams.made()), (3, made));
    }
}
