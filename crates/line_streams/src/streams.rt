//! What bytes come from and go to, whole; and programs that read all input, work on it, and write
//! and flush what comes of it.
//!
//! A read or a write that fails is not tried again,
//! whatever its cause: an interrupted one counts as failed.
ghost use Rattle.std.specs.Prelude.{◌≡◌, ◌<◌, ◌⊎◌, [], ℕ, List, Option, Result, Some, ⊤, codes};
ghost use Rattle.std.specs.Prelude.{IfErr, IfOk, IfSome, IsOk, OnErr, OnOk};
ghost use Rattle.std.specs.Io.{ReadsAtMost, WritesAtMost};
ghost use Rattle.std.specs.Io.KnownBytes.{Appends, IsAtEnd, Keeps, ReadConsumes, WriteAppends};
ghost use Rattle.std.specs.declared.io.Error.{Error};
ghost use Rattle.line_streams.specs.Filters.{Ran, either, status_number};
ghost use Rattle.line_streams.specs.Streams.{AppendsBeginning, ConsumesSome, Fails, IsFlushed};
ghost use Rattle.line_streams.specs.Streams.{ReadFails, ReportsFailure, StreamFails, WriteFails};

use std::alloc::{AllocError, Global};
use std::io;
use std::io::{ErrorKind, Read, Write};

/// What bytes are read from. Each reader is one.
pub trait Source {
    /// The bytes that reads will give from here on, where they are known.
    ghost remaining: { Self → Option (List ℕ) };

    /// A read that failed, by what was before it, its error, and what is after it.
    ghost FailsBy: { Self → Error → Self → Type 0 };

    /// Reads some bytes into the front of the piece, and returns how many.
    fn read_piece(&mut self, piece: &mut [u8]) -> io::Result<usize>
        ensures bound { ReadsAtMost result piece.new }
        ensures bytes { ReadConsumes (remaining self.old) (remaining self.new) result piece.new }
        ensures fails { IfErr result (λ e. FailsBy self.old e self.new) };
}

impl<R: Read> Source for R {
    ghost remaining = { R.remaining };

    ghost FailsBy = { λ _ _ _. ⊤ };

    #[inline(always)]
    fn read_piece(&mut self, piece: &mut [u8]) -> io::Result<usize> {
        self.read(piece)
    }
}

/// What bytes are written to. Each writer is one.
pub trait Sink {
    /// The bytes that it holds, where they are known.
    ghost contents: { Self → Option (List ℕ) };

    /// A write, by what was before it, its bytes, what it returned, and what is after it.
    ghost Writes: { Self → List ℕ → Result ℕ Error → Self → Type 0 };

    /// A flush that succeeded, by what was before it and what is after it.
    ghost Flushes: { Self → Self → Type 0 };

    /// A flush that failed, by what was before it, its error, and what is after it.
    ghost FailsToFlush: { Self → Error → Self → Type 0 };

    /// Writes some first bytes of the piece, and returns how many.
    fn write_piece(&mut self, piece: &[u8]) -> io::Result<usize>
        ensures bound { WritesAtMost result piece.now }
        ensures bytes { WriteAppends (contents self.old) (contents self.new) result piece.now }
        ensures writes { Writes self.old piece.now result self.new };

    /// Passes on what was written and is not yet where it goes to.
    fn flush_pieces(&mut self) -> io::Result<()>
        ensures bytes { Keeps (contents self.old) (contents self.new) }
        ensures flushes { OnOk result (Flushes self.old self.new) }
        ensures fails { IfErr result (λ e. FailsToFlush self.old e self.new) };
}

impl<W: Write> Sink for W {
    ghost contents = { W.contents };

    ghost Writes = { λ _ _ _ _. ⊤ };

    ghost Flushes = { λ _ _. ⊤ };

    ghost FailsToFlush = { λ _ _ _. ⊤ };

    #[inline(always)]
    fn write_piece(&mut self, piece: &[u8]) -> io::Result<usize> {
        self.write(piece)
    }

    #[inline(always)]
    fn flush_pieces(&mut self) -> io::Result<()> {
        self.flush()
    }
}

/// All bytes of a reader, in pieces of at most 4096, or the error that memory for them was refused.
///
/// Any other error is the reader's own. What was read before an error is lost. Memory is never
/// refused where there is no byte.
///
/// From `crates/line_streams/src/streams.rt`:
///
/// ```
/// let outcome = work(read_all(alloc, input)?);
/// ```
pub fn read_all<R: Source>(alloc: Global, reader: &mut R) -> io::Result<Result<Vec<u8>, AllocError>>
    ensures bytes { IfOk result (λ read. IfOk read (λ all.
        IfSome (R.remaining reader.old) (λ input. all.items ≡ input))) }
    ensures end { IfOk result (λ read. OnOk read (IsAtEnd (R.remaining reader.new))) }
    ensures nothing { R.remaining reader.old ≡ Some [] → IfOk result (λ read. IsOk read) }
    ensures err { OnErr result (ConsumesSome (R.remaining reader.old) (R.remaining reader.new)) }
    ensures failed { IfErr result (ReadFails R.FailsBy reader.new) }
    ensures refused { IfOk result (λ read. OnErr read
        (ConsumesSome (R.remaining reader.old) (R.remaining reader.new))) }
{
    let mut all = Vec::new(alloc);
    let mut piece = [0u8; 4096];
    'pieces: loop {
        let n = reader.read_piece(&mut piece)?;
        if n == 0 {
            return Ok(Ok(all));
        }
        if let Err(why) = all.extend_from_slice(&piece[..n]) {
            return Ok(Err(why));
        }
        // For the proof that the loop ends: a list has fewer than 2^64 bytes.
        let _fits = all.len();
    }
}

/// Writes all bytes. No bytes are always written.
///
/// An error is the writer's own, or of the kind `WriteZero` where the writer took no byte. Some
/// first bytes were written before it.
pub fn write_whole<W: Sink>(writer: &mut W, bytes: &[u8]) -> io::Result<()>
    ensures whole { OnOk result
        (Appends (W.contents writer.old) (W.contents writer.new) bytes.now) }
    ensures nothing { bytes.now ≡ [] → IsOk result }
    ensures err { OnErr result
        (AppendsBeginning (W.contents writer.old) (W.contents writer.new) bytes.now) }
    ensures failed { IfErr result (WriteFails W.Writes writer.new) }
{
    let mut rest = bytes;
    while rest.len() > 0 {
        let n = writer.write_piece(rest)?;
        if n == 0 {
            return Err(io::Error::from(ErrorKind::WriteZero));
        }
        rest = &rest[n..];
    }
    Ok(())
}

/// How a program ends where memory was not refused and no stream failed.
#[derive(Clone, Copy)]
pub enum Status {
    /// 0: what was requested was written, and the input is as it should be.
    Good,
    /// 1: the same, and the input is not as it should be.
    Faulty,
    /// 2: an argument or the input cannot be used.
    Unusable,
}

impl Status {
    /// The number of a status.
    pub fn number(self) -> u8
        ensures is { result ≡ status_number self }
        ensures range { result < 3 }
    {
        match self {
            Status::Good => 0,
            Status::Faulty => 1,
            Status::Unusable => 2,
        }
    }
}

/// What comes of the work of a program: its status, and what its output and its errors get.
pub trait Outcome {
    /// The number of the status.
    ghost status: { Self → ℕ };

    /// What the output gets.
    ghost on_output: { Self → List ℕ };

    /// What the errors get.
    ghost on_errors: { Self → List ℕ };

    /// The status, which is below 4.
    fn status(&self) -> u8
        ensures is { result ≡ status self.now }
        ensures range { result < 4 };

    /// What the output gets.
    fn output(&self) -> &[u8]
        ensures { result.now ≡ on_output self.now };

    /// Writes what the errors get.
    fn write_errors<E: Sink>(&self, errors: &mut E) -> io::Result<()>
        ensures whole { OnOk result
            (Appends (E.contents errors.old) (E.contents errors.new) (on_errors self.now)) }
        ensures failed { IfErr result (WriteFails E.Writes errors.new) };
}

/// Refused memory: the status 3, and `no memory` for the errors.
impl Outcome for AllocError {
    ghost status = { λ why. 3 };

    ghost on_output = { λ why. [] };

    ghost on_errors = { λ why. codes "no memory\n" };

    fn status(&self) -> u8 {
        3
    }

    fn output(&self) -> &[u8] {
        &[]
    }

    fn write_errors<E: Sink>(&self, errors: &mut E) -> io::Result<()> {
        write_whole(errors, b"no memory\n")
    }
}

/// What was done, or why it was not.
impl<T: Outcome, F: Outcome> Outcome for Result<T, F> {
    ghost status = { either T.status F.status };

    ghost on_output = { either T.on_output F.on_output };

    ghost on_errors = { either T.on_errors F.on_errors };

    fn status(&self) -> u8 {
        match self {
            Ok(done) => done.status(),
            Err(why) => why.status(),
        }
    }

    fn output(&self) -> &[u8] {
        match self {
            Ok(done) => done.output(),
            Err(why) => why.output(),
        }
    }

    fn write_errors<E: Sink>(&self, errors: &mut E) -> io::Result<()> {
        match self {
            Ok(done) => done.write_errors(errors),
            Err(why) => why.write_errors(errors),
        }
    }
}

/// Writes an outcome, flushes both writers, and returns its status.
///
/// An error is that of the write or the flush that failed. Nothing was done to that stream after
/// it.
pub fn write_outcome<W: Sink, E: Sink, T: Outcome>(
    output: &mut W,
    errors: &mut E,
    outcome: &T,
) -> io::Result<u8>
    ensures range { IfOk result (λ status. status < 4) }
    ensures status { IfOk result (λ status. status ≡ T.status outcome.now) }
    ensures output { OnOk result
        (Appends (W.contents output.old) (W.contents output.new) (T.on_output outcome.now)) }
    ensures errors { OnOk result
        (Appends (E.contents errors.old) (E.contents errors.new) (T.on_errors outcome.now)) }
    ensures flushed { OnOk result
        (IsFlushed W.Flushes output.new × IsFlushed E.Flushes errors.new) }
    ensures failed { IfErr result (λ e. Fails W.Writes W.FailsToFlush output.new e
        ⊎ Fails E.Writes E.FailsToFlush errors.new e) }
    // Where the output did not get all, the errors got nothing.
    ensures first { OnErr result
        ((AppendsBeginning (W.contents output.old) (W.contents output.new)
        (T.on_output outcome.now) × (errors.new ≡ errors.old))
        ⊎ Appends (W.contents output.old) (W.contents output.new) (T.on_output outcome.now)) }
{
    write_whole(output, outcome.output())?;
    outcome.write_errors(errors)?;
    output.flush_pieces()?;
    errors.flush_pieces()?;
    Ok(outcome.status())
}

/// Reads all that the reader gives, works on it, writes the outcome, flushes both writers, and
/// returns the status. Where memory for what is read is refused, that is worked on.
///
/// An error is that of the read, the write or the flush that failed. Nothing was done to that
/// stream after it.
pub fn run_filter<R: Source, W: Sink, E: Sink, T: Outcome + Drop, F>(
    alloc: Global,
    input: &mut R,
    output: &mut W,
    errors: &mut E,
    work: F,
) -> io::Result<u8>
where
    F: FnOnce(Result<Vec<u8>, AllocError>) -> T,
    requires { F.IsAlwaysCallable work }
    ensures range { IfOk result (λ status. status < 4) }
    ensures ran { IfOk result (λ status. Ran (F.post work) T.status T.on_output T.on_errors status
        (R.remaining input.old) (R.remaining input.new)
        (W.contents output.old) (W.contents output.new)
        (E.contents errors.old) (E.contents errors.new)) }
    ensures flushed { OnOk result
        (IsFlushed W.Flushes output.new × IsFlushed E.Flushes errors.new) }
    // Where the read failed, nothing was written.
    ensures failed { IfErr result (StreamFails R.FailsBy W.Writes W.FailsToFlush E.Writes
        E.FailsToFlush input.new output.old output.new errors.old errors.new) }
{
    let outcome = work(read_all(alloc, input)?);
    write_outcome(output, errors, &outcome)
}

/// The status of a program, which is 3 where a stream failed. Then it is tried to write
/// `a stream failed` to the errors.
pub fn report_failure<E: Sink>(errors: &mut E, end: io::Result<u8>) -> u8
    ensures ok { IfOk end (λ status. result ≡ status × errors.new ≡ errors.old) }
    ensures err { OnErr end (result ≡ 3
        × ReportsFailure E.contents E.Writes errors.old errors.new) }
{
    match end {
        Ok(status) => status,
        Err(_) => {
            // Where this fails too, the status alone tells it.
            let _told = write_whole(errors, b"a stream failed\n");
            3
        }
    }
}
