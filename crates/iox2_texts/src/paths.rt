//! Paths and the names of files.
//!
//! All of them hold bytes from 1 to 127 alone. Each maker refuses, in this order, the empty text
//! where that is forbidden (`InvalidContent`), a text that is too long (`ExceedsMaximumLength`),
//! and any other illegal content (`InvalidContent`). Nothing is normalised: no `//`, `.` or `..` is
//! taken out of a path.
ghost use Rattle.std.specs.Prelude.{◌≡◌, ◌↔◌, ◌⊎◌, All, IfOk, IsTrue, OnErr, codes};
ghost use Rattle.std.specs.List.{after_last};
ghost use Rattle.std.specs.Result.{result_map_both};
ghost use Rattle.iox2_texts.specs.Path.{MakesJoined, is_restricted, is_slash, needs_slash};
ghost use Rattle.iox2_texts.specs.Text.{IsTextUpTo};

use crate::bounded::{Content, SemanticString, SemanticStringError, StaticString};

/// The greatest number of bytes of a path and of a file name.
const MAX_PATH_LENGTH: usize = 255;

/// A path of at most 255 bytes, which may be empty.
///
/// From `crates/values_tests/src/texts/paths.rt`:
///
/// ```
/// let mut whole = path(rt, front);
/// whole.add_path_entry(&path(rt, entry)).expect(rt, "room");
/// ```
pub type Path = SemanticString<PathContent, MAX_PATH_LENGTH>;

/// What a path allows: every text.
pub enum PathContent {}

impl Content for PathContent {
    ghost use Rattle.std.specs.Prelude.{⊤};

    ghost Allows = { λ bytes. ⊤ };

    fn allows(_bytes: &[u8]) -> bool {
        true
    }
}

impl Path {
    /// Joins an entry to the path, with one `/` between
    /// them unless the path is empty or ends in `/`.
    ///
    /// Where that would be longer than 255 bytes it is refused, and the path stays as it was.
    pub fn add_path_entry(&mut self, entry: &Path) -> Result<(), SemanticStringError>
        ensures joined { MakesJoined self.old entry.now
            (result_map_both (λ _. self.new) (λ e. e) result) }
        ensures err { OnErr result (self.new ≡ self.old) }
    {
        *self = Self::of_allowed(joined(self.as_bytes(), entry.as_bytes())?);
        Ok(())
    }
}

/// The name of a file: 1 to 255 bytes without `/`, and neither `.` nor `..`.
///
/// From `crates/values_tests/src/texts/paths.rt`:
///
/// ```
/// FileName::new(bytes).expect(rt, "a name")
/// ```
pub type FileName = SemanticString<FileNameContent, MAX_PATH_LENGTH>;

/// What a file name allows: not the empty text, no `/`, and neither `.` nor `..`.
pub enum FileNameContent {}

impl Content for FileNameContent {
    ghost use Rattle.iox2_texts.specs.Path.{IsPlain};

    ghost Allows = { IsPlain };

    fn allows(bytes: &[u8]) -> bool {
        !bytes.is_empty() && !bytes.contains(&b'/') && !are_dots(bytes)
    }
}

/// Whether these bytes are `.` or `..`, which name no file.
fn are_dots(bytes: &[u8]) -> bool
    ensures { IsTrue result ↔ ((bytes.now ≡ codes ".") ⊎ (bytes.now ≡ codes "..")) }
{
    bytes == b".".as_slice() || bytes == b"..".as_slice()
}

/// The path of a file: 1 to 255 bytes, of which those after the last `/` are a file name. Where
/// there is no `/`, all of them are. `a/` and `a/..` are refused.
///
/// From `crates/values_tests/src/texts/paths.rt`:
///
/// ```
/// let file = FilePath::from_path_and_file(&path(&rt, b""), &name(&rt, b"a"));
/// assert_eq!(rt; file.expect(&rt, "a path").as_str(), "a");
/// ```
pub type FilePath = SemanticString<FilePathContent, MAX_PATH_LENGTH>;

/// What the path of a file allows: a last part that is a file name.
pub enum FilePathContent {}

impl Content for FilePathContent {
    ghost use Rattle.iox2_texts.specs.Path.{EndsPlain};

    ghost Allows = { EndsPlain };

    fn allows(bytes: &[u8]) -> bool {
        FileNameContent::allows(last_part(bytes))
    }
}

/// What stands after the last `/`, or all where there is none.
#[tactic(auto, using(std::proofs::lemmas::List::take_rest, crate::proofs::TextLemmas::last_part_is))]
fn last_part(bytes: &[u8]) -> &[u8]
    ensures { result.now ≡ after_last is_slash bytes.now }
{
    let mut start = bytes.len();
    while start > 0 && bytes[start - 1] != b'/' {
        start -= 1;
    }
    &bytes[start..]
}

impl FilePath {
    /// The file in the directory `path`, with one `/`
    /// between them unless the path is empty or ends in `/`.
    ///
    /// Refused where that would be longer than 255 bytes.
    pub fn from_path_and_file(path: &Path, file: &FileName) -> Result<Self, SemanticStringError>
        ensures { MakesJoined path.now file.now result }
    {
        Ok(Self::of_allowed(joined(path.as_bytes(), file.as_bytes())?))
    }
}

/// The name of a file: 1 to `N` letters `A` to `Z` and `a` to `z`, digits, `-`, `.`, `:` and `_`,
/// and neither `.` nor `..`.
///
/// From `crates/values_tests/src/texts/paths.rt`:
///
/// ```
/// let restricted = RestrictedFileName::<4>::new(b"c");
/// ```
pub type RestrictedFileName<const N: usize> = SemanticString<RestrictedFileNameContent, N>;

/// What a restricted name allows: not the empty text, letters, digits, `-`, `.`, `:` and `_` alone,
/// and neither `.` nor `..`.
pub enum RestrictedFileNameContent {}

impl Content for RestrictedFileNameContent {
    ghost use Rattle.iox2_texts.specs.Path.{IsRestricted};

    ghost Allows = { IsRestricted };

    fn allows(bytes: &[u8]) -> bool {
        !bytes.is_empty() && are_restricted(bytes) && !are_dots(bytes)
    }
}

/// Whether a byte may stand in a restricted name.
fn is_restricted(byte: u8) -> bool
    ensures { result ≡ is_restricted byte }
{
    matches!(byte, b'A'..=b'Z' | b'a'..=b'z' | b'0'..=b'9' | b'-' | b'.' | b':' | b'_')
}

/// Whether all bytes may stand in a restricted name.
fn are_restricted(bytes: &[u8]) -> bool
    ensures { IsTrue result ↔ All (λ b. IsTrue (is_restricted b)) bytes.now }
{
    bytes.iter().all(|b| is_restricted(*b))
}

/// Whether a `/` is needed before an entry.
fn needs_slash(path: &[u8]) -> bool
    ensures { result ≡ needs_slash path.now }
{
    !path.is_empty() && path[path.len() - 1] != b'/'
}

/// The path followed by the entry, with a `/` between them where it is needed.
fn joined(path: &[u8], entry: &[u8]) -> Result<StaticString<MAX_PATH_LENGTH>, SemanticStringError>
    requires path { IsTextUpTo 255 path.now }
    requires entry { IsTextUpTo 255 entry.now }
    ensures value { MakesJoined path.now entry.now result }
    ensures legal { IfOk result (IsTextUpTo 255) }
{
    let slash = if needs_slash(path) {
        b"/".as_slice()
    } else {
        &[]
    };
    if path.len() + slash.len() + entry.len() > MAX_PATH_LENGTH {
        return Err(SemanticStringError::ExceedsMaximumLength);
    }
    let mut text = StaticString::new();
    text.push_bytes(path);
    text.push_bytes(slash);
    text.push_bytes(entry);
    Ok(text)
}
