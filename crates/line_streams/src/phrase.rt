//! Phrases: kinds of text that can begin the bytes of a line. The first is a decimal number.
ghost use Rattle.std.specs.Prelude.{◌≡◌, ◌≢◌, ◌==◌, ◌-◌, ◌<◌, ◌≤◌, ◌++◌, ℕ, List};
ghost use Rattle.std.specs.Prelude.{IfNone, IfOk, IfSome, MatchOption, get_or, length, map};
ghost use Rattle.std.specs.List.{before_first, position};
ghost use Rattle.std.specs.Option.{option_map};
ghost use Rattle.line_streams.specs.Spelling.{HasNo, IsDigit, OneWay, Reads, Spelling};
ghost use Rattle.line_streams.specs.Spelling.{after as after_it, before, line_end, listed};
ghost use Rattle.line_streams.specs.Spelling.{number, sequence};
ghost use Rattle.line_streams.specs.OneWay.{after_one, line_end_one, number_one, sequence_one};

use memchr::memchr;
use std::alloc::{AllocError, Global};

/// A kind of text that can begin the bytes of a line.
pub trait Phrase<'a> {
    /// What is read.
    type Value: Copy;

    /// What the definition of the text sees of a value.
    ghost Seen: { Type 0 };

    ghost view: { Self.Value → Seen };

    /// The texts of values, with what follows them.
    ghost spelling: { Self → Spelling Seen };

    /// The value that begins the bytes, and what follows it. `None` where no value begins them.
    fn read(&self, bytes: &'a [u8]) -> Option<(Self::Value, &'a [u8])>
        ensures read { Reads (spelling self.now).Fits (spelling self.now).text
            (option_map (λ found. (view found.0, found.1.now)) result) bytes.now }
        ensures shorter { IfSome result (λ found. length found.1.now ≤ length bytes.now) };

    /// No two values have one text.
    ghost one_way: { (phrase : Self) → OneWay (spelling phrase) };
}

/// The digit that a byte is the code of; above 9 where it is none.
#[inline(always)]
fn digit_of(byte: u8) -> u64
    ensures some { result ≤ 9 → IsDigit byte × (result ≡ byte - 48) }
    ensures none { 9 < result → ¬ (IsDigit byte) }
{
    (byte as u64).wrapping_sub(48)
}

/// The number that all the digits at the front are the text of, unless it is greater than `most`,
/// and what follows them. Its first digit is `first`, which is not 0.
#[inline(always)]
fn digits_before(bytes: &[u8], first: u64, most: u64) -> Option<(u64, &[u8])>
    requires some { 0 < length bytes.now }
    requires digit { IsDigit (get_or bytes.now 0 0) × (first ≡ get_or bytes.now 0 0 - 48) }
    requires own { (first ≢ 0) × (first ≤ most) }
    ensures { Reads (number most).Fits (number most).text
        (option_map (λ found. (found.0, found.1.now)) result) bytes.now }
{
    let (tens, ones) = (most / 10, most % 10);
    let mut rest = &bytes[1..];
    let mut value = first;
    while let Some((b, tail)) = rest.split_first() {
        let digit = digit_of(*b);
        if digit > 9 {
            return Some((value, rest));
        }
        if value >= tens && (value > tens || digit > ones) {
            return None;
        }
        value = value * 10 + digit;
        rest = tail;
    }
    Some((value, rest))
}

/// A number of at most so much, in decimal digits without a leading zero.
#[derive(Clone, Copy)]
pub struct Number(pub u64);

impl<'a> Phrase<'a> for Number {
    type Value = u64;

    ghost Seen = { ℕ };

    ghost view = { λ n. n };

    ghost spelling = { λ s. number s.0 };

    #[inline(always)]
    fn read(&self, bytes: &'a [u8]) -> Option<(u64, &'a [u8])> {
        let most = self.0;
        let Some((b, rest)) = bytes.split_first() else {
            return None;
        };
        let first = digit_of(*b);
        if first > 9 {
            return None;
        }
        if first > most {
            return None;
        }
        if first != 0 {
            return digits_before(bytes, first, most);
        }
        // A zero stands alone.
        let [next, ..] = rest else {
            return Some((0, rest));
        };
        if digit_of(*next) <= 9 {
            return None;
        }
        Some((0, rest))
    }

    ghost one_way = { λ s. number_one s.0 };
}

/// What ends a line.
#[derive(Clone, Copy)]
pub enum LineEnd {
    /// A newline.
    Newline,
    /// The end of the bytes.
    Bytes,
}

impl<'a> Phrase<'a> for LineEnd {
    type Value = ();

    ghost Seen = { Unit {0} };

    ghost view = { λ v. v };

    ghost spelling = { line_end };

    #[inline(always)]
    fn read(&self, bytes: &'a [u8]) -> Option<((), &'a [u8])> {
        match (self, bytes) {
            (LineEnd::Newline, [b'\n', rest @ ..]) => Some(((), rest)),
            (LineEnd::Bytes, []) => Some(((), bytes)),
            _ => None,
        }
    }

    ghost one_way = { line_end_one };
}

/// A phrase, and then another.
#[derive(Clone, Copy)]
pub struct Then<P, Q>(pub P, pub Q);

impl<'a, P: Phrase<'a>, Q: Phrase<'a>> Phrase<'a> for Then<P, Q> {
    type Value = (P::Value, Q::Value);

    ghost Seen = { P.Seen × Q.Seen };

    ghost view = { λ v. (P.view v.0, Q.view v.1) };

    ghost spelling = { λ s. sequence (P.spelling s.0) (Q.spelling s.1) };

    #[inline(always)]
    fn read(&self, bytes: &'a [u8]) -> Option<((P::Value, Q::Value), &'a [u8])> {
        let (first, rest) = self.0.read(bytes)?;
        let (second, rest) = self.1.read(rest)?;
        Some(((first, second), rest))
    }

    ghost one_way = { λ s. sequence_one (P.one_way s.0) (Q.one_way s.1) };
}

/// A phrase after a word.
#[derive(Clone, Copy)]
pub struct After<'w, P>(pub &'w [u8], pub P);

impl<'a, 'w, P: Phrase<'a>> Phrase<'a> for After<'w, P> {
    type Value = P::Value;

    ghost Seen = { P.Seen };

    ghost view = { P.view };

    ghost spelling = { λ s. after_it s.0.now (P.spelling s.1) };

    #[inline(always)]
    fn read(&self, bytes: &'a [u8]) -> Option<(P::Value, &'a [u8])> {
        self.1.read(after_word(bytes, self.0)?)
    }

    ghost one_way = { λ s. after_one s.0.now (P.one_way s.1) };
}

/// The list of a phrase that begins the bytes after a word, with a byte between two, and what
/// follows it. Where the word does not begin the bytes, the list is empty.
#[inline(always)]
pub fn list_before<'a, P: Phrase<'a>>(
    alloc: Global,
    bytes: &'a [u8],
    word: &[u8],
    byte: u8,
    phrase: &P,
) -> Result<Option<(Vec<P::Value>, &'a [u8])>, AllocError>
    ensures { IfOk result (λ found. Reads (listed word.now byte (P.spelling phrase.now)).Fits
        (listed word.now byte (P.spelling phrase.now)).text
        (option_map (λ found. (map P.view found.0.items, found.1.now)) found) bytes.now) }
{
    let mut items = Vec::new(alloc);
    let Some(mut tail) = after_word(bytes, word) else {
        return Ok(Some((items, bytes)));
    };
    'items: loop {
        let Some((item, rest)) = phrase.read(tail) else {
            return Ok(None);
        };
        items.push(item)?;
        match rest.split_first() {
            Some((first, next)) if *first == byte => tail = next,
            _ => return Ok(Some((items, rest))),
        }
    }
}

/// What follows this word, which is compared byte by byte.
#[inline(always)]
fn after_bytes<'a>(bytes: &'a [u8], word: &[u8]) -> Option<&'a [u8]>
    ensures some { IfSome result (λ rest. bytes.now ≡ word.now ++ rest.now) }
    ensures none { IfNone result ((rest : List ℕ) → bytes.now ≢ word.now ++ rest) }
{
    if bytes.len() < word.len() {
        return None;
    }
    for i in 0..word.len() {
        if bytes[i] != word[i] {
            return None;
        }
    }
    Some(&bytes[word.len()..])
}

/// What follows this word. Its first eight bytes, where it has so many, are compared as one number.
#[inline(always)]
pub fn after_word<'a>(bytes: &'a [u8], word: &[u8]) -> Option<&'a [u8]>
    ensures some { IfSome result (λ rest. bytes.now ≡ word.now ++ rest.now) }
    ensures none { IfNone result ((rest : List ℕ) → bytes.now ≢ word.now ++ rest) }
{
    let Some((wanted, more)) = word.split_first_chunk::<8>() else {
        return after_bytes(bytes, word);
    };
    let Some((front, rest)) = bytes.split_first_chunk::<8>() else {
        return None;
    };
    if u64::from_le_bytes(*front) != u64::from_le_bytes(*wanted) {
        return None;
    }
    after_bytes(rest, more)
}

/// The first index of this byte.
#[inline(always)]
#[tactic(auto, using(crate::proofs::Indices::found_first))]
fn index_of(bytes: &[u8], byte: u8) -> Option<usize>
    ensures { result ≡ position (λ b. b == byte) bytes.now }
{
    memchr(byte, bytes)
}

/// What comes before the first such byte, and what follows it.
#[inline(always)]
pub fn before_byte(bytes: &[u8], byte: u8) -> Option<(&[u8], &[u8])>
    ensures read { Reads (before byte).Fits (before byte).text
        (option_map (λ found. (found.0.now, found.1.now)) result) bytes.now }
    ensures none { IfNone result (HasNo byte bytes.now) }
    ensures first { MatchOption result (before_first (λ b. b == byte) bytes.now ≡ bytes.now)
        (λ found. found.0.now ≡ before_first (λ b. b == byte) bytes.now) }
{
    match index_of(bytes, byte) {
        Some(end) => Some((&bytes[..end], &bytes[end + 1..])),
        None => None,
    }
}
