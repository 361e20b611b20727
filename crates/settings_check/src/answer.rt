//! The program: files come by their names, and what is answered to a request goes to writers.
ghost use Rattle.std.specs.Prelude.{◌≡◌, ◌<◌, ◌⊎◌, IfErr, IfOk, OnOk, option_copied};
ghost use Rattle.std.specs.Prelude.{option_map, string_bytes, true};
ghost use Rattle.std.specs.Bool.{MatchBool};
ghost use Rattle.std.specs.Io.KnownBytes.{IsAtEnd};
ghost use Rattle.line_streams.specs.Filters.{Ends, GivesUp, status_number};
ghost use Rattle.line_streams.specs.Streams.{IsFlushed, ReadFails, StreamFails};
ghost use Rattle.settings_check.specs.Answer.{status_of, IsChecked, IsTextOf, IsShown};
ghost use Rattle.settings_check.specs.Answer.{AreToml, AnswersFiles, omitted_in, with_compared};
ghost use Rattle.settings_check.specs.Answer.{IsDefaultAnswer, IsRefusedAnswer, IsSchemaAnswer, IsTextAnswer, Answers};
ghost use Rattle.settings_check.specs.Answer.{reads_input, input_is_read, AnswersArguments, Reported};
ghost use Rattle.settings_check.specs.Answer.{RequestsInput};
ghost use Rattle.settings_check.specs.Found.{found_view, valid_view};

use crate::arguments::{Request, RequestError, Task, request_of};
use crate::found::{Files, Found, ValidFile, add_differences, find_in};
use crate::lines::{
    Omitted, Style, errors_in, style_of, warnings_in, write_end, write_lines, write_unread,
};
use crate::schema::schema;
use config_report::{default_file, settings_text};
use iox2_config_file::SECTIONS;
use line_streams::{
    Outcome, Sink, Source, Status, read_all, report_failure, write_outcome, write_whole,
};
use std::alloc::{AllocError, Global};
use std::env::Args;
use std::io;

/// What is written, and the status.
#[derive(Drop)]
struct Answer {
    output: String,
    errors: String,
    status: Status,
}

impl Outcome for Answer {
    ghost status = { λ answer. status_number answer.status };

    ghost on_output = { λ answer. string_bytes answer.output };

    ghost on_errors = { λ answer. string_bytes answer.errors };

    fn status(&self) -> u8 {
        self.status.number()
    }

    fn output(&self) -> &[u8] {
        self.output.as_bytes()
    }

    fn write_errors<E: Sink>(&self, errors: &mut E) -> io::Result<()> {
        write_whole(errors, self.errors.as_bytes())
    }
}

/// How the program is used.
const HELP: &str = "usage: iox2-check [--strict] [--format text|json] FILE..
       iox2-check [--strict] --show FILE
       iox2-check [--strict] [--format text|json] --compare FILE FILE
       iox2-check --default > iceoryx2.toml
       iox2-check --schema > iceoryx2.schema.json

Checks files of settings of iceoryx2, version 0.9.3, and writes what is wrong in them, with the
line and the column, and what was probably meant: a line for each error and each warning, and a
last line that counts them. The name - is the standard input.

  --strict            let warnings count as errors
  --format json       write an object of JSON on a line for each error and each warning
  --show              write all settings, with a mark where they differ from the defaults, and the
                      directories, files and chunks that follow
  --compare           write which settings of two files differ; those of the table global must be
                      the same in all processes of one system
  --default           write the file of the default settings
  --schema            write the JSON Schema of these files, for editors
  -h, --help          write this text
  --version           write the version

The status is 0, or 1 for an error (with --strict for a warning too), 2 for bad arguments or a file
that cannot be read, 3 where memory was refused or a stream failed. docs/CONFIG.md has the settings.
";

/// The version of the program, and that of the iceoryx2 whose files it checks.
const VERSION: &str = "iox2-check 0.1.0 (iceoryx2 0.9.3)\n";

/// What is said of bad arguments.
const BAD_ARGUMENTS: &str =
    "bad arguments: expected FILE.., --show FILE, --compare FILE FILE, --default, --schema, -h, \
     --help or --version; for files also --strict, --format text or --format json\n";

/// The status: whether a file cannot be read, or there is an error.
fn status_of(strict: bool, found: &Found<'_>) -> Status
    ensures { result ≡ status_of strict (found_view found.now) }
{
    let reports = found.reports.as_slice();
    if !found.unread.is_empty() {
        Status::Unusable
    } else if errors_in(reports) > 0 || (strict && warnings_in(reports) > 0) {
        Status::Faulty
    } else {
        Status::Good
    }
}

/// What a report on files leaves out.
fn omitted_in(task: Task, found: &Found<'_>) -> Omitted
    ensures { result ≡ omitted_in task (found_view found.now) }
{
    Omitted {
        contradictions: errors_in(found.reports.as_slice()) > 0,
        differences: matches!(task, Task::Compare) && found.valid.len() < 2,
        files: !found.unread.is_empty(),
    }
}

/// What was found is reported, and what is left out.
fn checked(
    alloc: Global,
    style: Style,
    strict: bool,
    omitted: Omitted,
    found: &Found<'_>,
) -> Result<Answer, AllocError>
    ensures { IfOk result (IsChecked style strict omitted (found_view found.now)) }
{
    let mut output = String::new(alloc);
    let mut errors = String::new(alloc);
    write_lines(alloc, &mut output, style, found.reports.as_slice())?;
    write_end(&mut output, style, omitted, found.reports.as_slice())?;
    write_unread(alloc, &mut errors, found.unread.as_slice())?;
    Ok(Answer {
        output,
        errors,
        status: status_of(strict, found),
    })
}

/// The text of the settings of a file, or none.
#[tactic(auto, using(crate::proofs::Comparing::shown))]
fn text_of(alloc: Global, file: Option<&ValidFile<'_>>) -> Result<String, AllocError>
    ensures { IfOk result (λ text. IsTextOf
        (option_map valid_view (option_copied file.entry)) (string_bytes text)) }
{
    match file {
        Some(file) => settings_text(alloc, &file.config),
        None => Ok(String::new(alloc)),
    }
}

/// The settings of a file are shown, and what was found in it is reported beside them.
fn shown(alloc: Global, strict: bool, found: &Found<'_>) -> Result<Answer, AllocError>
    ensures { IfOk result (IsShown strict (found_view found.now)) }
{
    let output = text_of(alloc, found.valid.first())?;
    let mut errors = String::new(alloc);
    write_lines(alloc, &mut errors, Style::Plain, found.reports.as_slice())?;
    write_unread(alloc, &mut errors, found.unread.as_slice())?;
    Ok(Answer {
        output,
        errors,
        status: status_of(strict, found),
    })
}

/// Adds in what two files differ, those settings that all processes share first, if there are two
/// without errors.
fn add_compared(alloc: Global, found: &mut Found<'_>) -> Result<(), AllocError>
    requires { AreToml (found_view found.old).valid }
    ensures { OnOk result (found_view found.new ≡ with_compared (found_view found.old)) }
{
    match found.valid.as_slice() {
        [first, second, ..] => {
            add_differences(alloc, &mut found.reports, first, second, &SECTIONS)
        }
        _ => Ok(()),
    }
}

/// What is found in files is answered.
fn answer_files<F: Files>(
    alloc: Global,
    coloured: bool,
    files: &F,
    input: &[u8],
    request: &Request,
) -> Result<Answer, AllocError>
    ensures { IfOk result (AnswersFiles (F.Gives files.now) coloured input.now request.now) }
{
    let style = style_of(request.format, coloured);
    let mut found = find_in(alloc, files, input, request.files.as_slice())?;
    let omitted = omitted_in(request.task, &found);
    match request.task {
        Task::Show => shown(alloc, request.strict, &found),
        Task::Compare => {
            add_compared(alloc, &mut found)?;
            checked(alloc, style, request.strict, omitted, &found)
        }
        _ => checked(alloc, style, request.strict, omitted, &found),
    }
}

/// A text is answered.
fn text_answer(alloc: Global, text: String) -> Answer
    ensures { IsTextAnswer (string_bytes text) result }
{
    Answer {
        output: text,
        errors: String::new(alloc),
        status: Status::Good,
    }
}

/// The file of the default settings is answered.
fn default_answer(alloc: Global) -> Result<Answer, AllocError>
    ensures { IfOk result IsDefaultAnswer }
{
    let text = default_file(alloc)?;
    Ok(text_answer(alloc, text))
}

/// The JSON Schema is answered.
fn schema_answer(alloc: Global) -> Result<Answer, AllocError>
    ensures { IfOk result IsSchemaAnswer }
{
    let text = schema(alloc)?;
    Ok(text_answer(alloc, text))
}

/// Bad arguments are reported.
fn refused(alloc: Global) -> Result<Answer, AllocError>
    ensures { IfOk result IsRefusedAnswer }
{
    Ok(Answer {
        output: String::new(alloc),
        errors: String::from_str(alloc, BAD_ARGUMENTS)?,
        status: Status::Unusable,
    })
}

/// What is answered to arguments. `Err` where memory is refused.
fn respond<F: Files>(
    alloc: Global,
    coloured: bool,
    files: &F,
    input: &[u8],
    parsed: &Result<Request, RequestError>,
) -> Result<Answer, AllocError>
    ensures { IfOk result (Answers (F.Gives files.now) coloured input.now parsed.now) }
{
    match parsed {
        Ok(request) => match request.task {
            Task::DefaultFile => default_answer(alloc),
            Task::Schema => schema_answer(alloc),
            Task::Help => Ok(text_answer(alloc, String::from_str(alloc, HELP)?)),
            Task::Version => Ok(text_answer(alloc, String::from_str(alloc, VERSION)?)),
            Task::Check | Task::Show | Task::Compare => {
                answer_files(alloc, coloured, files, input, request)
            }
        },
        Err(RequestError::BadArguments) => refused(alloc),
        Err(RequestError::NoMemory) => Err(AllocError),
    }
}

/// Whether the standard input is one of the files.
fn reads_input(names: &[String]) -> bool
    ensures { result ≡ reads_input names.now }
{
    names.iter().any(|name| name.as_str() == "-")
}

/// Whether a request reads the standard input.
fn reads(parsed: &Result<Request, RequestError>) -> bool
    ensures { result ≡ input_is_read parsed.now }
{
    match parsed {
        Ok(request) => reads_input(request.files.as_slice()),
        Err(_) => false,
    }
}

/// What is answered to the arguments. The standard input is read only where it is one of the files.
fn answered<R: Source, F: Files>(
    alloc: Global,
    coloured: bool,
    files: &F,
    parsed: &Result<Request, RequestError>,
    input: &mut R,
) -> io::Result<Result<Answer, AllocError>>
    ensures answered { IfOk result (λ end. IfOk end (λ answer.
        AnswersArguments (F.Gives files.now) coloured parsed.now (R.remaining input.old) answer
        × MatchBool (input_is_read parsed.now) (IsAtEnd (R.remaining input.new))
        (R.remaining input.new ≡ R.remaining input.old))) }
    ensures failed { IfErr result (ReadFails R.FailsBy input.new) }
    ensures unread { (input.new ≡ input.old) ⊎ (input_is_read parsed.now ≡ true) }
{
    if !reads(parsed) {
        return Ok(respond(alloc, coloured, files, &[], parsed));
    }
    match read_all(alloc, input)? {
        Ok(bytes) => Ok(respond(alloc, coloured, files, &bytes, parsed)),
        Err(refused) => Ok(Err(refused)),
    }
}

/// Does what is requested, and returns the status unless a stream fails.
fn run<R: Source, W: Sink, E: Sink, F: Files>(
    alloc: Global,
    coloured: bool,
    arguments: io::Result<Args>,
    files: &F,
    input: &mut R,
    output: &mut W,
    errors: &mut E,
) -> io::Result<u8>
    ensures ends { IfOk result (λ status. Ends (λ n. Reported (F.Gives files.now) coloured
        arguments n (R.remaining input.old) (R.remaining input.new)
        (W.contents output.old) (W.contents output.new)
        (E.contents errors.old) (E.contents errors.new)) status
        (W.contents output.old) (W.contents output.new)
        (E.contents errors.old) (E.contents errors.new)) }
    ensures flushed { OnOk result
        (IsFlushed W.Flushes output.new × IsFlushed E.Flushes errors.new) }
    ensures failed { IfErr result (StreamFails R.FailsBy W.Writes W.FailsToFlush E.Writes
        E.FailsToFlush input.new output.old output.new errors.old errors.new) }
    ensures unread { (input.new ≡ input.old) ⊎ RequestsInput arguments }
{
    let parsed = request_of(alloc, arguments);
    let end = answered(alloc, coloured, files, &parsed, input)?;
    write_outcome(output, errors, &end)
}

/// Checks files of settings, shows or compares their settings, or writes the default file or the
/// schema, as the arguments request, and returns the status of the program. The first argument is
/// the program's name. Files are read by `files`, and the name `-` is `input`. With `coloured`, the
/// lines of findings on `output` are in colour.
///
/// - 0: what was requested was written to `output`. No file has an error, or, with `--strict`, a
///   warning.
/// - 1: the same, and a file has an error, or, with `--strict`, a warning.
/// - 2: the arguments are bad, or a file cannot be read: `errors` has a line for that.
/// - 3: memory was refused: nothing was written to `output`, and `no memory` to `errors`. Or a
///   read, a write or a flush failed, for any cause, and `a stream failed` was written to `errors`,
///   if that took it. Nothing else was done to that stream after it.
pub fn check_streams<R: Source, W: Sink, E: Sink, F: Files>(
    alloc: Global,
    coloured: bool,
    arguments: io::Result<Args>,
    files: &F,
    input: &mut R,
    output: &mut W,
    errors: &mut E,
) -> u8
    ensures range { result < 4 }
    // A status below 3 says what was found, and the writers got what fits it.
    ensures reported { result < 3 → Reported (F.Gives files.now) coloured arguments result
        (R.remaining input.old) (R.remaining input.new)
        (W.contents output.old) (W.contents output.new)
        (E.contents errors.old) (E.contents errors.new) }
    // Both writers were flushed last.
    ensures flushed { result < 3
        → IsFlushed W.Flushes output.new × IsFlushed E.Flushes errors.new }
    // Memory was refused, or a read, a write or a flush failed, and that was reported. Where the
    // read failed, nothing was written before that.
    ensures failed { result ≡ 3 → GivesUp R.FailsBy W.contents W.Writes W.FailsToFlush E.contents
        E.Writes E.FailsToFlush input.new output.old output.new errors.old errors.new }
    // Nothing was read from `input` but where it is one of the files.
    ensures unread { (input.new ≡ input.old) ⊎ RequestsInput arguments }
{
    let end = run(alloc, coloured, arguments, files, input, output, errors);
    report_failure(errors, end)
}
