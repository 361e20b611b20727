//! Counts of the lines that were read.

use history_logs::logs::{Counts, Report, check_streams};
use std::alloc::{AllocError, Global};
use std::cell::Cell;
use std::io;
use std::io::{ErrorKind, Write};
use std::process::Abort;
use std::time::{Clock, Duration};
use test_support::failing_streams::{Calls, Sink, Source};

/// A clock that is so many milliseconds later each time that it is looked at.
#[derive(Drop)]
struct Ticks {
    now: Cell<u64>,
    step: u64,
}

impl Clock for Ticks {
    fn monotonic(&self) -> io::Result<Duration> {
        let now = self.now.get();
        self.now.set(now.wrapping_add(self.step));
        Ok(Duration::from_millis(now))
    }

    fn since_1970(&self) -> io::Result<Duration> {
        self.monotonic()
    }
}

/// A terminal, whose text can be looked at.
#[derive(Drop)]
struct Terminal<'a> {
    shown: &'a mut Sink,
}

impl Write for Terminal<'_> {
    fn write(&mut self, buf: &[u8]) -> io::Result<usize> {
        self.shown.write(buf)
    }

    fn flush(&mut self) -> io::Result<()> {
        self.shown.flush()
    }
}

/// A log of 12,288 lines.
fn long_log(alloc: Global) -> Result<Vec<u8>, AllocError> {
    let mut log = Vec::from_slice(alloc, b"service event 7 1 0 0\n")?;
    for _ in 1..12_288 {
        log.extend_from_slice(b"#\n")?;
    }
    Ok(log)
}

/// What is shown of how far a log is read, by a clock of this step.
fn shown(alloc: Global, log: &[u8], step: u64, is_terminal: bool, failing: Option<u64>) -> Sink {
    let mut input = Source::new(log, 4096, Calls::failing_at(None, ErrorKind::Other));
    let mut output = Sink::new(alloc, 20, Calls::failing_at(None, ErrorKind::Other));
    let mut errors = Sink::new(alloc, 20, Calls::failing_at(None, ErrorKind::Other));
    let mut terminal = Sink::new(alloc, 20, Calls::failing_at(failing, ErrorKind::Other));
    let clock = Ticks {
        now: Cell::new(0),
        step,
    };
    let out = Terminal {
        shown: &mut terminal,
    };
    let mut counts = Counts::new(alloc, clock, out, is_terminal);
    let _status = check_streams(
        alloc,
        &mut input,
        &mut output,
        &mut errors,
        &mut counts,
        Report::Verdict,
    );
    terminal
}

/// The steps of clocks, whether there is a terminal, which of its calls fails, and what is shown.
static SHOWN: [(u64, bool, Option<u64>, &str); 6] = [
    (
        1000,
        true,
        None,
        "\r4096 lines read\r8192 lines read\r12288 lines read\n",
    ),
    (500, true, None, "\r8192 lines read\n"),
    (333, true, None, ""),
    (1000, false, None, ""),
    (1000, true, Some(0), ""),
    (1000, true, Some(1), "\r4096 lines read"),
];

#[test]
fn a_count_is_shown_once_a_second(rt: HostRuntime) -> Result<(), AllocError> {
    let log = long_log(rt.alloc())?;
    for (step, is_terminal, failing, text) in &SHOWN {
        let terminal = shown(rt.alloc(), &log, *step, *is_terminal, *failing);
        assert_eq!(rt; terminal.bytes.as_slice(), text.as_bytes());
    }
    Ok(())
}
