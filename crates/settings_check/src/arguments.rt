//! What the arguments of the program request.
ghost use Rattle.std.specs.Prelude.{◌≡◌, ◌∷◌, ℕ, List, Some, None, IfOk, IfErr, drop, string_bytes};
ghost use Rattle.settings_check.specs.Words.{chosen_with, names_file, option_with, said};
ghost use Rattle.settings_check.specs.Words.{with_format, with_task};
ghost use Rattle.settings_check.specs.Words.{IsBadArguments, Requested, Requests, RequestsIn};
ghost use Rattle.settings_check.specs.Words.{takes_files, takes_options, texts_of, words_of};

use std::alloc::Global;
use std::env::Args;
use std::io;
use std::io::ErrorKind;

/// How findings are written.
#[derive(Clone, Copy)]
pub(crate) enum Format {
    /// A line for a person, or for an editor.
    Text,
    /// An object of JSON on a line.
    Json,
}

/// What is to be done.
#[derive(Clone, Copy)]
pub(crate) enum Task {
    /// To report what is found in files.
    Check,
    /// To show the settings of a file.
    Show,
    /// To compare the settings of two files.
    Compare,
    /// To write the file of the default settings.
    DefaultFile,
    /// To write the JSON Schema of such files.
    Schema,
    /// To say how the program is used.
    Help,
    /// To say the version.
    Version,
}

/// The options that were chosen.
#[derive(Clone, Copy)]
pub(crate) struct Chosen {
    /// Whether a warning makes the status 1.
    pub(crate) strict: bool,
    /// How findings are written, if that is chosen.
    pub(crate) format: Option<Format>,
    /// What is to be done, if that is chosen.
    pub(crate) task: Option<Task>,
    /// Whether the next word is a format.
    pub(crate) awaits_format: bool,
}

/// What is requested: the options, and the files.
#[derive(Drop)]
pub(crate) struct Request {
    pub(crate) strict: bool,
    pub(crate) format: Format,
    pub(crate) task: Task,
    pub(crate) files: Vec<String>,
}

/// Why the arguments are no request.
#[derive(Clone, Copy)]
pub(crate) enum RequestError {
    /// They are none that the program knows.
    BadArguments,
    /// Memory was refused.
    NoMemory,
}

/// What is chosen with a format, unless one was chosen before.
fn with_format(chosen: Chosen, format: Format) -> Option<Chosen>
    ensures { result ≡ with_format chosen format }
{
    match chosen.format {
        Some(_) => None,
        None => Some(Chosen {
            format: Some(format),
            awaits_format: false,
            ..chosen
        }),
    }
}

/// What is chosen with a task, unless one was chosen before.
fn with_task(chosen: Chosen, task: Task) -> Option<Chosen>
    ensures { result ≡ with_task chosen task }
{
    match chosen.task {
        Some(_) => None,
        None => Some(Chosen {
            task: Some(task),
            ..chosen
        }),
    }
}

/// What is chosen with an option.
fn option_with(chosen: Chosen, word: &str) -> Option<Chosen>
    ensures { result ≡ option_with chosen word.now }
{
    match word {
        "--strict" => Some(Chosen {
            strict: true,
            ..chosen
        }),
        "--format" if chosen.format.is_none() => Some(Chosen {
            awaits_format: true,
            ..chosen
        }),
        "--format=text" => with_format(chosen, Format::Text),
        "--format=json" => with_format(chosen, Format::Json),
        "--show" => with_task(chosen, Task::Show),
        "--compare" => with_task(chosen, Task::Compare),
        "--default" => with_task(chosen, Task::DefaultFile),
        "--schema" => with_task(chosen, Task::Schema),
        "-h" => with_task(chosen, Task::Help),
        "--help" => with_task(chosen, Task::Help),
        "--version" => with_task(chosen, Task::Version),
        _ => None,
    }
}

/// What is chosen with one word more, which names no file.
fn chosen_with(chosen: Chosen, word: &str) -> Option<Chosen>
    ensures { result ≡ chosen_with chosen word.now }
{
    if !chosen.awaits_format {
        return option_with(chosen, word);
    }
    match word {
        "text" => with_format(chosen, Format::Text),
        "json" => with_format(chosen, Format::Json),
        _ => None,
    }
}

/// Whether a word names a file: no format is awaited, and it begins with no dash, or is `-` alone.
fn names_file(chosen: Chosen, word: &str) -> bool
    ensures { result ≡ names_file chosen word.now }
{
    !chosen.awaits_format && !matches!(word.as_bytes(), [b'-', _, ..])
}

/// Takes one word more: the name of a file, or an option.
#[tactic(auto, using(crate::proofs::Lists::taken), unfolding(crate::specs::Words::said))]
fn take_word(chosen: Chosen, files: &mut Vec<String>, word: String) -> Result<Chosen, RequestError>
    ensures taken { IfOk result (λ next. (words : List (List ℕ))
        → said chosen (texts_of files.old.items) (string_bytes word ∷ words)
        ≡ said next (texts_of files.new.items) words) }
    ensures refused { IfErr result (λ why. IsBadArguments why → (words : List (List ℕ))
        → said chosen (texts_of files.old.items) (string_bytes word ∷ words) ≡ None) }
{
    if names_file(chosen, word.as_str()) {
        let Ok(()) = files.push(word) else {
            return Err(RequestError::NoMemory);
        };
        return Ok(chosen);
    }
    match chosen_with(chosen, word.as_str()) {
        Some(next) => Ok(next),
        None => Err(RequestError::BadArguments),
    }
}

/// Whether a task takes so many files.
fn takes_files(task: Task, files: usize) -> bool
    ensures { result ≡ takes_files task files }
{
    match task {
        Task::Check => files > 0,
        Task::Show => files == 1,
        Task::Compare => files == 2,
        Task::DefaultFile | Task::Schema | Task::Help | Task::Version => files == 0,
    }
}

/// Whether a task has a use for the options that were chosen beside it: a format is of lists of
/// findings, and what is written of no file has no warning.
fn takes_options(task: Task, chosen: Chosen) -> bool
    ensures { result ≡ takes_options task chosen }
{
    match task {
        Task::Show => chosen.format.is_none(),
        Task::DefaultFile | Task::Schema => !chosen.strict && chosen.format.is_none(),
        Task::Check | Task::Compare | Task::Help | Task::Version => true,
    }
}

/// The request of options and files.
fn request_with(chosen: Chosen, files: Vec<String>) -> Result<Request, RequestError>
    ensures requested { Requested (Some (chosen, texts_of files.items)) result }
    ensures bad { IfErr result IsBadArguments }
{
    let task = chosen.task.unwrap_or(Task::Check);
    if chosen.awaits_format {
        return Err(RequestError::BadArguments);
    }
    if !takes_files(task, files.len()) || !takes_options(task, chosen) {
        return Err(RequestError::BadArguments);
    }
    Ok(Request {
        strict: chosen.strict,
        format: chosen.format.unwrap_or(Format::Text),
        task,
        files,
    })
}

/// What the words after the first request.
#[tactic(auto, using(std::proofs::lemmas::List::nil_from_length, crate::proofs::Lists::words_end, crate::proofs::Lists::drop_first))]
fn request_in(alloc: Global, words: Args) -> Result<Request, RequestError>
    ensures { RequestsIn (drop 1 (words_of words)) result }
{
    let mut words = words;
    // The program's name requests nothing.
    let _program = words.next();
    let mut files = Vec::new(alloc);
    let mut chosen = Chosen {
        strict: false,
        format: None,
        task: None,
        awaits_format: false,
    };
    for word in words {
        chosen = take_word(chosen, &mut files, word)?;
    }
    request_with(chosen, files)
}

/// What the arguments request. The first is the program's name.
pub(crate) fn request_of(
    alloc: Global,
    arguments: io::Result<Args>,
) -> Result<Request, RequestError>
    ensures { Requests arguments result }
{
    match arguments {
        Ok(words) => request_in(alloc, words),
        Err(why) if why.kind() == ErrorKind::OutOfMemory => Err(RequestError::NoMemory),
        Err(_) => Err(RequestError::BadArguments),
    }
}
