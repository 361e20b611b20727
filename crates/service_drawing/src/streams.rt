//! The program: a description comes from a reader, and goes to a writer as text or as a picture.
ghost use Rattle.std.specs.Prelude.{[], ◌∷◌, drop, ◌≡◌, ◌<◌, ◌⊎◌, IfErr, IfOk, OnOk, MatchResult};
ghost use Rattle.std.specs.Prelude.{string_bytes};
ghost use Rattle.service_drawing.specs.Descriptions.{IsNotOver, IsOver};
ghost use Rattle.service_drawing.specs.Streams.{IsRequest, IsRequestOf, words_of, IsRead};
ghost use Rattle.service_drawing.specs.Streams.{IsDrawing, IsTextOrNoMemory, Draws, Answers, Reported};
ghost use Rattle.service_drawing.specs.Streams.{RequestsDrawing};
ghost use Rattle.std.specs.Io.KnownBytes.{IsAtEnd};
ghost use Rattle.line_streams.specs.Streams.{IsFlushed, ReadFails, StreamFails};

use crate::description::Description;
use crate::fault::{Fault, bad_line};
use crate::reading::read_description;
use crate::svg::picture_of;
use crate::text::write_text;
use config_report::{ReportError, read_file};
use iox2_config::config::Config;
use line_streams::{Outcome, Sink, Source, after_word, read_all, write_outcome, write_whole};
use memchr::memmem;
use std::alloc::{AllocError, Global};
use std::env::Args;
use std::io;
use std::io::{Error, ErrorKind};

/// What a description is drawn as.
#[derive(Clone, Copy)]
pub(crate) enum Form {
    /// As text.
    Text,
    /// As a picture, an SVG document.
    Svg,
}

/// What is requested.
#[derive(Clone, Copy)]
pub(crate) enum Request {
    /// To draw the description that is read.
    Drawing(Form),
    /// To say how the program is used.
    Help,
    /// To say the version.
    Version,
}

/// How the program is used.
pub(crate) const HELP: &str = "usage: iox2-describe [svg | -h | --help | --version] < DESCRIPTION

Reads the description of one service from standard input, and writes what the service is: its
name, hash text and files, its settings, where the parts of its messages lie, the memory of its
ports, and its attributes. Settings of its own may stand in front of it, between a line config and
a line end.

  svg         write a picture of the messages, an SVG document
  -h, --help  write this text and read nothing
  --version   write the version and read nothing

docs/DESCRIBE.md has the lines of descriptions, docs/CONFIG.md the settings. The status is 0 after
a drawing, 1 after a bad argument, line or setting, 2 where memory was refused, 3 where reading or
writing failed.
";

/// The version of the program, and that of the iceoryx2 whose layer it draws.
pub(crate) const VERSION: &str = "iox2-describe 0.1.0 (iceoryx2 0.9.3)\n";

/// What the arguments request. The first is the program's name.
pub(crate) fn request_by(arguments: io::Result<Args>) -> Result<Request, Fault>
    ensures { IsRequestOf arguments result }
{
    match arguments {
        Ok(words) => request_in(words),
        Err(why) if why.kind() == ErrorKind::OutOfMemory => Err(Fault::NoMemory),
        Err(_) => Err(Fault::BadArgument),
    }
}

/// What the words after the first request.
fn request_in(words: Args) -> Result<Request, Fault>
    ensures { IsRequest (drop 1 (words_of words)) result }
{
    let mut words = words;
    // The program's name asks for nothing.
    let _program = words.next();
    let Some(word) = words.next() else {
        return Ok(Request::Drawing(Form::Text));
    };
    if words.next().is_some() {
        return Err(Fault::BadArgument);
    }
    request_by_word(word.as_str())
}

/// What one word requests.
fn request_by_word(word: &str) -> Result<Request, Fault>
    ensures { IsRequest (word.now ∷ []) result }
{
    match word {
        "svg" => Ok(Request::Drawing(Form::Svg)),
        "-h" => Ok(Request::Help),
        "--help" => Ok(Request::Help),
        "--version" => Ok(Request::Version),
        _ => Err(Fault::BadArgument),
    }
}

/// How many bytes the word `config` has.
const CONFIG: usize = 6;

/// How many bytes a line `end` has, with the newline before it and its own.
const END: usize = 5;

/// What is left of an input, and the configuration over which it is read.
#[derive(Drop)]
struct Over<'a> {
    /// That of the block in front, or without a block the default one.
    base: Config,
    /// A line for each warning on the settings of the block.
    warnings: String,
    /// What follows the block.
    rest: &'a [u8],
}

/// The configuration over which a description is read, or what is wrong with the block in front.
fn base_of(alloc: Global, bytes: &[u8]) -> Result<Over<'_>, Fault>
    ensures { MatchResult result
        (λ over. IsOver over.base (string_bytes over.warnings) over.rest.now bytes.now)
        (λ fault. IsNotOver bytes.now fault) }
{
    let Some(_) = after_word(bytes, b"config\n") else {
        return Ok(Over {
            base: Config::default(),
            warnings: String::new(alloc),
            rest: bytes,
        });
    };
    // The newline of the line `config` too, so that lines have the numbers that they have in all.
    let block = &bytes[CONFIG..];
    let Some(end) = memmem::find(block, b"\nend\n") else {
        return Err(Fault::NoEnd);
    };
    match read_file(alloc, &block[..end + 1]) {
        Ok(file) => Ok(Over {
            base: file.config,
            warnings: file.warnings,
            rest: &block[end + END..],
        }),
        Err(ReportError::Refused(lines)) => Err(Fault::BadSettings(lines)),
        Err(ReportError::NoMemory) => Err(Fault::NoMemory),
    }
}

/// What is written to the output, and to the errors although there is no fault.
#[derive(Drop)]
struct Written {
    text: String,
    warnings: String,
}

/// What a description is drawn as, or why it is not drawn.
fn drawn(alloc: Global, form: Form, bytes: &[u8]) -> Result<Written, Fault>
    ensures { Draws form bytes.now result }
{
    let over = base_of(alloc, bytes)?;
    let service = match read_description(over.rest, over.base) {
        Ok(service) => service,
        Err(expected) => return Err(bad_line(alloc, bytes, expected)),
    };
    match drawing(alloc, form, &service) {
        Ok(text) => Ok(Written {
            text,
            warnings: over.warnings,
        }),
        Err(_) => Err(Fault::NoMemory),
    }
}

/// The drawing of a service.
fn drawing(alloc: Global, form: Form, service: &Description) -> Result<String, AllocError>
    ensures { IfOk result (λ text. IsDrawing form service.now (string_bytes text)) }
{
    match form {
        Form::Text => {
            let mut text = String::new(alloc);
            write_text(&mut text, service)?;
            Ok(text)
        }
        Form::Svg => picture_of(alloc, service),
    }
}

impl Outcome for Written {
    ghost status = { λ written. 0 };

    ghost on_output = { λ written. string_bytes written.text };

    ghost on_errors = { λ written. string_bytes written.warnings };

    fn status(&self) -> u8 {
        0
    }

    fn output(&self) -> &[u8] {
        self.text.as_bytes()
    }

    fn write_errors<E: Sink>(&self, errors: &mut E) -> io::Result<()> {
        write_whole(errors, self.warnings.as_bytes())
    }
}

/// What there is to write: a drawing of the description
/// that the reader gives, or what is reported without one.
fn answer<R: Source>(
    alloc: Global,
    request: Result<Request, Fault>,
    input: &mut R,
) -> io::Result<Result<Written, Fault>>
    ensures end_is { IfOk result (λ end. Answers (R.remaining input.old) request end) }
    ensures read { IfOk result (λ end. IfOk end (λ written.
        IsRead request → IsAtEnd (R.remaining input.new))) }
    ensures failed { IfErr result (ReadFails R.FailsBy input.new) }
    ensures unread { (input.new ≡ input.old) ⊎ IsRead request }
{
    match request {
        Ok(Request::Drawing(form)) => match read_all(alloc, input)? {
            Ok(bytes) => Ok(drawn(alloc, form, &bytes)),
            Err(_) => Ok(Err(Fault::NoMemory)),
        },
        Ok(Request::Help) => Ok(text_of(alloc, HELP)),
        Ok(Request::Version) => Ok(text_of(alloc, VERSION)),
        Err(fault) => Ok(Err(fault)),
    }
}

/// A text of its own.
fn text_of(alloc: Global, text: &str) -> Result<Written, Fault>
    ensures { IsTextOrNoMemory text.now result }
{
    match String::from_str(alloc, text) {
        Ok(text) => Ok(Written {
            text,
            warnings: String::new(alloc),
        }),
        Err(_) => Err(Fault::NoMemory),
    }
}

/// Does what is requested, and returns the status unless a stream fails.
#[tactic(auto, using(crate::proofs::Answered::reported_where_written))]
fn run<R: Source, W: Sink, E: Sink>(
    alloc: Global,
    arguments: io::Result<Args>,
    input: &mut R,
    output: &mut W,
    errors: &mut E,
) -> io::Result<u8>
    ensures reported { IfOk result (λ status. Reported arguments status
        (R.remaining input.old) (R.remaining input.new)
        (W.contents output.old) (W.contents output.new)
        (E.contents errors.old) (E.contents errors.new)) }
    ensures flushed { OnOk result
        (IsFlushed W.Flushes output.new × IsFlushed E.Flushes errors.new) }
    ensures failed { IfErr result (StreamFails R.FailsBy W.Writes W.FailsToFlush E.Writes
        E.FailsToFlush input.new output.old output.new errors.old errors.new) }
    // Nothing was read but for a drawing.
    ensures unread { (input.new ≡ input.old) ⊎ RequestsDrawing arguments }
{
    let end = answer(alloc, request_by(arguments), input)?;
    write_outcome(output, errors, &end)
}

/// Draws the description of a service that the reader gives, writes the drawing to `output`, and
/// answers the status of the program: as text without arguments, and as an SVG document with the
/// one argument `svg`. With `--help` or `--version` it reads nothing and writes how it is used, or
/// the version. The first argument is the program's name.
///
/// - 0: the whole input was read, is a description, and the drawing was written; to `errors` a line
///   for each warning on the settings in front of it, and else nothing.
/// - 1: an argument, a line or a setting is bad. Nothing was written to `output`, and to `errors`
///   the number of the first line that no description has there, why it is bad and what was
///   expected, or what is wrong with the settings in front.
/// - 2: memory was refused. Nothing was written to `output`, and `no memory` to `errors`.
/// - 3: a read, a write or a flush failed, for any cause. Nothing was done to that stream after it.
pub fn describe_streams<R: Source, W: Sink, E: Sink>(
    alloc: Global,
    arguments: io::Result<Args>,
    input: &mut R,
    output: &mut W,
    errors: &mut E,
) -> u8
    ensures range { result < 4 }
    // A status below 3 says whether what was asked for
    // was written, and the writers got what fits it.
    ensures reported { result < 3 → Reported arguments result
        (R.remaining input.old) (R.remaining input.new)
        (W.contents output.old) (W.contents output.new)
        (E.contents errors.old) (E.contents errors.new) }
    // Both writers were flushed last.
    ensures flushed { result < 3
        → IsFlushed W.Flushes output.new × IsFlushed E.Flushes errors.new }
    // A read, a write or a flush failed, and that stream was left as it was then.
    ensures failed { result ≡ 3 → (e : Error) × StreamFails R.FailsBy W.Writes W.FailsToFlush
        E.Writes E.FailsToFlush input.new output.old output.new errors.old errors.new e }
    // Nothing was read but for a drawing.
    ensures unread { (input.new ≡ input.old) ⊎ RequestsDrawing arguments }
{
    run(alloc, arguments, input, output, errors).unwrap_or(3)
}
