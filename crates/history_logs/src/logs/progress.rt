//! How far a log was read.
ghost use Rattle.std.specs.Prelude.{◌≡◌, ℕ, IfOk, List, None, Option};
ghost use Rattle.history_logs.specs.Progress.{AddsCounts, IsCount, count_text};

use super::report::append_number;
use line_streams::{Sink, write_whole};
use std::alloc::{AllocError, Global};
use std::time::{Clock, Duration, Instant};

/// What is shown of how far a log was read.
pub trait Progress {
    /// The bytes that it wrote, where they are known.
    ghost contents: { Self → Option (List ℕ) };

    /// So many lines were read.
    fn count(&mut self, lines: usize)
        ensures { AddsCounts (contents self.old) (contents self.new) };

    /// No more counts come.
    fn end(&mut self)
        ensures { AddsCounts (contents self.old) (contents self.new) };
}

/// Progress that is not shown.
#[derive(Drop)]
pub struct NoProgress;

impl Progress for NoProgress {
    ghost contents = { λ _. None };

    #[inline(always)]
    fn count(&mut self, _lines: usize) {}

    fn end(&mut self) {}
}

/// Time is looked at once in so many lines.
const LINES_A_LOOK: usize = 4096;

/// Progress on a terminal: a count of lines once a second, each over the one before it. Below the
/// last one a new line begins. After a write that failed, or where there is no time, none come.
#[derive(Drop)]
pub struct Counts<C: Drop, W: Drop> {
    alloc: Global,
    clock: C,
    out: W,
    /// When a count was due the last time; `None` where none come.
    last: Option<Instant>,
    /// Whether one stands in the line of the terminal.
    is_shown: bool,
}

impl<C: Clock + Drop, W: Sink + Drop> Counts<C, W> {
    /// Progress that goes to the writer from now on, if it is a terminal.
    pub fn new(alloc: Global, clock: C, out: W, is_terminal: bool) -> Self {
        let last = if is_terminal {
            Instant::now(&clock).ok()
        } else {
            None
        };
        Counts {
            alloc,
            clock,
            out,
            last,
            is_shown: false,
        }
    }

    /// Whether a second has passed since the last count. The next second begins then.
    fn is_due(&mut self) -> bool
        ensures { self.new.out ≡ self.old.out }
    {
        let Some(last) = self.last else {
            return false;
        };
        let Ok(now) = Instant::now(&self.clock) else {
            return false;
        };
        if now.duration_since(last) < Duration::from_secs(1) {
            return false;
        }
        self.last = Some(now);
        true
    }

    /// The text is written. Where it fails, nothing more is.
    #[tactic(auto, using(crate::proofs::Reports::count_written))]
    fn write(&mut self, text: &[u8])
        requires { IsCount text.now }
        ensures { AddsCounts (W.contents self.old.out) (W.contents self.new.out) }
    {
        self.is_shown = write_whole(&mut self.out, text).is_ok();
        if !self.is_shown {
            self.last = None;
        }
    }
}

/// The text of a count.
fn count_in(alloc: Global, lines: usize) -> Result<Vec<u8>, AllocError>
    ensures { IfOk result (λ text. text.items ≡ count_text lines) }
{
    let mut text = Vec::new(alloc);
    append_number(b"\r", lines as u64, &mut text)?;
    text.extend_from_slice(b" lines read")?;
    Ok(text)
}

impl<C: Clock + Drop, W: Sink + Drop> Progress for Counts<C, W> {
    ghost contents = { λ c. W.contents c.out };

    #[tactic(auto, using(crate::proofs::Reports::no_counts))]
    fn count(&mut self, lines: usize) {
        if lines % LINES_A_LOOK != 0 {
            return;
        }
        if !self.is_due() {
            return;
        }
        if let Ok(text) = count_in(self.alloc, lines) {
            self.write(&text);
        }
    }

    #[tactic(auto, using(crate::proofs::Reports::no_counts))]
    fn end(&mut self) {
        if self.is_shown {
            self.write(b"\n");
            self.is_shown = false;
        }
    }
}
