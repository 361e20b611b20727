//! Streams of a test's own, which fail at a call that the test names.

use std::alloc::Global;
use std::io;
use std::io::{ErrorKind, Read, Write};

/// Counts calls, one of which fails.
#[derive(Clone, Copy)]
pub struct Calls {
    /// How many were made.
    pub made: u64,
    failing: Option<u64>,
    kind: ErrorKind,
}

impl Calls {
    /// None yet; the call of this number is to fail so.
    pub fn failing_at(failing: Option<u64>, kind: ErrorKind) -> Self {
        Calls {
            made: 0,
            failing,
            kind,
        }
    }

    fn next(&mut self) -> io::Result<()> {
        let now = self.made;
        self.made = now.wrapping_add(1);
        if self.failing == Some(now) {
            Err(io::Error::from(self.kind))
        } else {
            Ok(())
        }
    }
}

/// Gives a text in pieces of this many bytes at most,
/// and notes the greatest piece that was requested.
#[derive(Clone, Copy)]
pub struct Source<'a> {
    /// What is left of the text.
    text: &'a [u8],
    piece: usize,
    pub greatest: usize,
    pub calls: Calls,
}

impl<'a> Source<'a> {
    /// Has given nothing yet.
    pub fn new(text: &'a [u8], piece: usize, calls: Calls) -> Self {
        Source {
            text,
            piece,
            greatest: 0,
            calls,
        }
    }
}

impl Read for Source<'_> {
    fn read(&mut self, buf: &mut [u8]) -> io::Result<usize> {
        self.calls.next()?;
        self.greatest = self.greatest.max(buf.len());
        let n = buf.len().min(self.text.len()).min(self.piece);
        buf[..n].copy_from_slice(&self.text[..n]);
        self.text = &self.text[n..];
        Ok(n)
    }
}

/// Takes this many bytes at a call at most.
#[derive(Drop)]
pub struct Sink {
    /// What it took.
    pub bytes: Vec<u8>,
    piece: usize,
    pub calls: Calls,
}

impl Sink {
    /// Has taken nothing yet.
    pub fn new(alloc: Global, piece: usize, calls: Calls) -> Self {
        Sink {
            bytes: Vec::new(alloc),
            piece,
            calls,
        }
    }
}

impl Write for Sink {
    fn write(&mut self, buf: &[u8]) -> io::Result<usize> {
        self.calls.next()?;
        let n = buf.len().min(self.piece);
        self.bytes.extend_from_slice(&buf[..n])?;
        Ok(n)
    }

    fn flush(&mut self) -> io::Result<()> {
        self.calls.next()
    }
}

/// The input, the output and the errors of a run.
#[derive(Drop)]
pub struct Streams<'a> {
    pub input: Source<'a>,
    pub output: Sink,
    pub errors: Sink,
}

impl<'a> Streams<'a> {
    /// The input gives a text in pieces of at most so many bytes, and the others take at most so
    /// many at a call. The call of its own number of each is to fail so.
    pub fn failing_at(
        alloc: Global,
        text: &'a [u8],
        [given, taken]: [usize; 2],
        failing: [Option<u64>; 3],
        kind: ErrorKind,
    ) -> Self {
        let [of_input, of_output, of_errors] = failing.map(|call| Calls::failing_at(call, kind));
        Streams {
            input: Source::new(text, given, of_input),
            output: Sink::new(alloc, taken, of_output),
            errors: Sink::new(alloc, taken, of_errors),
        }
    }

    /// None of them fails.
    pub fn steady(alloc: Global, text: &'a [u8], pieces: [usize; 2]) -> Self {
        Streams::failing_at(alloc, text, pieces, [None; 3], ErrorKind::Other)
    }

    /// How many calls each had.
    pub fn made(&self) -> [u64; 3] {
        [
            self.input.calls.made,
            self.output.calls.made,
            self.errors.calls.made,
        ]
    }
}
