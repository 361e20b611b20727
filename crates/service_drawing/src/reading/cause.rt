//! Why a line is bad, and what was expected there.
ghost use Rattle.std.specs.Prelude.{◌≡◌, ◌==◌, ◌↔◌, ◌≤◌, ◌<◌, ◌+◌, ℕ, length, not};
ghost use Rattle.std.specs.Prelude.{IfSome, IsTrue, MatchOption, count_by, slice_index};
ghost use Rattle.std.specs.List.{find};
ghost use Rattle.service_drawing.specs.Lines.{is_plain};
ghost use Rattle.service_drawing.specs.Descriptions.{line_of, HasTwoSpaces, IsMisspelled};
ghost use Rattle.service_drawing.specs.Descriptions.{IsSpelled, IsCause, words_behind};
ghost use Rattle.service_drawing.specs.Settings.{word_of};

use line_streams::before_byte;

/// What was found out where a line was read.
#[derive(Clone, Copy, PartialEq, Eq)]
pub(crate) enum Reason {
    /// The service has a name as those of the system itself.
    InternalName,
    /// No setting of the pattern has the name.
    UnknownSetting,
    /// An earlier line has set the setting.
    SetTwice,
    /// A line of another form was expected.
    OtherForm,
}

/// Why a line is bad.
#[derive(Clone, Copy)]
pub(crate) enum Cause {
    /// No newline ends it.
    NoNewline,
    /// A carriage return stands before its newline.
    CarriageReturn,
    /// It holds this byte, which is not from 32 to 126.
    ForeignByte(u8),
    /// One space follows another where one separates words.
    TwoSpaces,
    /// It is a line, but another one was expected.
    Read(Reason),
}

/// What stands before the first newline.
fn first_line(bytes: &[u8]) -> &[u8]
    ensures value { result.now ≡ line_of bytes.now }
    ensures shorter { length result.now ≤ length bytes.now }
    ensures whole { length result.now ≡ length bytes.now → result.now ≡ bytes.now }
{
    match before_byte(bytes, b'\n') {
        Some((line, _)) => line,
        None => bytes,
    }
}

/// The first byte that is not from 32 to 126.
fn foreign_byte(line: &[u8]) -> Option<u8>
    ensures { result ≡ find (λ b. not (is_plain b)) line.now }
{
    line.iter().copied().find(|b| !(b' ' <= *b && *b <= b'~'))
}

/// What stands before the first space.
fn first_word(line: &[u8]) -> &[u8]
    ensures { result.now ≡ word_of line.now }
{
    match before_byte(line, b' ') {
        Some((word, _)) => word,
        None => line,
    }
}

/// How many words follow this one, with which a line begins: a name or a value that may have
/// spaces, and begin with them, is none.
fn words_behind(word: &[u8]) -> usize
    ensures { result ≡ words_behind word.now }
{
    if word.ends_with(b"payload") || word.ends_with(b"opener") {
        return 3;
    }
    if word.ends_with(b"require")
        || word.ends_with(b"require-key")
        || (word.ends_with(b"attribute") || word.ends_with(b"elements"))
    {
        return 1;
    }
    if word.ends_with(b"header") || word.ends_with(b"key") || word.ends_with(b"set") {
        return 2;
    }
    0
}

/// Where one space follows another for the first time.
fn two_spaces(line: &[u8]) -> Option<usize>
    ensures first { MatchOption result
        ((i : ℕ) → i + 1 < length line.now → slice_index line.now i ≡ 32
        → ¬ (slice_index line.now (i + 1) ≡ 32))
        (λ at. (i : ℕ) → i + 1 < length line.now → slice_index line.now i ≡ 32
        → slice_index line.now (i + 1) ≡ 32 → at ≤ i) }
    ensures there { IfSome result (λ at. (at + 1 < length line.now)
        × (slice_index line.now at ≡ 32) × (slice_index line.now (at + 1) ≡ 32)) }
{
    line.windows(2)
        .position(|pair| matches!(pair, [b' ', b' ']))
}

/// How many spaces the text has.
fn spaces(text: &[u8]) -> usize
    ensures { result ≡ count_by (λ b. b == 32) text.now }
{
    text.iter().filter(|b| **b == b' ').count()
}

/// Whether one space follows another where one separates words.
fn has_two_spaces(line: &[u8]) -> bool
    ensures { IsTrue result ↔ HasTwoSpaces line.now }
{
    match two_spaces(line) {
        Some(at) => spaces(&line[..at]) < words_behind(first_word(line)),
        None => false,
    }
}

/// Why what is left does not begin with a line, whatever that should say.
fn misspelling(bytes: &[u8]) -> Option<Cause>
    ensures { MatchOption result (IsSpelled bytes.now) (λ cause. IsMisspelled bytes.now cause) }
{
    if bytes.is_empty() {
        return None;
    }
    let line = first_line(bytes);
    if line.len() == bytes.len() {
        return Some(Cause::NoNewline);
    }
    if line.ends_with(b"\r") {
        return Some(Cause::CarriageReturn);
    }
    foreign_byte(line).map(Cause::ForeignByte)
}

/// Why the line is bad with which what is left begins: first because
/// it is not a line, then because its service has an internal name,
/// then because of two spaces, and then for what else was found out.
pub(crate) fn cause_of(bytes: &[u8], reason: Reason) -> Cause
    ensures { IsCause bytes.now reason result }
{
    match misspelling(bytes) {
        Some(cause) => cause,
        None if reason == Reason::InternalName => Cause::Read(reason),
        None if has_two_spaces(first_line(bytes)) => Cause::TwoSpaces,
        None => Cause::Read(reason),
    }
}

/// What was expected instead of what is left.
#[derive(Clone, Copy)]
pub(crate) struct Expected<'a> {
    /// What is left, from the beginning of the bad line on.
    pub(crate) rest: &'a [u8],
    /// What was found out of the bad line.
    pub(crate) reason: Reason,
    /// What a line of this message begins with.
    pub(crate) prefix: &'static str,
    /// What follows that.
    pub(crate) form: &'static str,
}

impl<'a> Expected<'a> {
    ghost use Rattle.service_drawing.specs.declared.reading.cause.Reason.TheVariants.{OtherForm};

    /// A line of another form, which begins with this prefix.
    pub(super) fn prefixed(rest: &'a [u8], prefix: &'static str, form: &'static str) -> Self
        ensures rest { result.rest.now ≡ rest.now }
        ensures reason { result.reason ≡ OtherForm }
    {
        Expected {
            rest,
            reason: Reason::OtherForm,
            prefix,
            form,
        }
    }
}
