//! What the arguments request.
ghost use Rattle.std.specs.Prelude.{◌∷◌, [], drop};
ghost use Rattle.iox2_conform.specs.Requests.{Requests, RequestsIn, words_of};

use history_logs::logs::Report;
use std::env::Args;
use std::io;
use std::io::{Error, ErrorKind};

/// What is requested.
pub(crate) enum Request {
    /// To judge the log on the standard input, and to report this of it.
    Check(Report),
    /// The same, and to show how far it was read.
    CheckWithProgress(Report),
    /// To judge it and draw it.
    Picture,
    /// To print how the program is used.
    Help,
    /// To print the version.
    Version,
}

/// Why the arguments are no request.
pub(crate) enum RequestError {
    /// There are arguments, and they are not known words that go together.
    BadArgument,
    /// Memory was refused.
    NoMemory,
}

/// What the arguments request: no word, `--witness`, `--progress` or both, `svg`, `-h`, `--help`
/// or `--version`. The first is the program's name.
pub(crate) fn request_of(arguments: io::Result<Args>) -> Result<Request, RequestError>
    ensures { Requests arguments result }
{
    match arguments {
        Ok(words) => request_in(words),
        Err(why) if why.kind() == ErrorKind::OutOfMemory => Err(RequestError::NoMemory),
        Err(_) => Err(RequestError::BadArgument),
    }
}

/// What a word alone requests.
fn request_of_one(word: &str) -> Result<Request, RequestError>
    ensures { RequestsIn (word.now ∷ []) result }
{
    match word {
        "--witness" => Ok(Request::Check(Report::Witness)),
        "--progress" => Ok(Request::CheckWithProgress(Report::Verdict)),
        "svg" => Ok(Request::Picture),
        "-h" => Ok(Request::Help),
        "--help" => Ok(Request::Help),
        "--version" => Ok(Request::Version),
        _ => Err(RequestError::BadArgument),
    }
}

/// What two words request.
fn request_of_two(first: &str, second: &str) -> Result<Request, RequestError>
    ensures { RequestsIn (first.now ∷ second.now ∷ []) result }
{
    match (first, second) {
        ("--witness", "--progress") => Ok(Request::CheckWithProgress(Report::Witness)),
        ("--progress", "--witness") => Ok(Request::CheckWithProgress(Report::Witness)),
        _ => Err(RequestError::BadArgument),
    }
}

/// What the words after the first request.
fn request_in(words: Args) -> Result<Request, RequestError>
    ensures { RequestsIn (drop 1 (words_of words)) result }
{
    let mut words = words;
    // The program's name requests nothing.
    let _program = words.next();
    let Some(first) = words.next() else {
        return Ok(Request::Check(Report::Verdict));
    };
    let Some(second) = words.next() else {
        return request_of_one(first.as_str());
    };
    if words.next().is_some() {
        return Err(RequestError::BadArgument);
    }
    request_of_two(first.as_str(), second.as_str())
}
