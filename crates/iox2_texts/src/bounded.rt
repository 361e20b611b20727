//! Texts of a bounded length, those of them that have a meaning, the results of callbacks, and
//! least multiples.
//!
//! A text holds bytes from 1 to 127 alone: ASCII without the zero byte.
ghost use Rattle.std.specs.Prelude.{◌≡◌, ◌↔◌, ◌+◌, ◌<◌, ◌≤◌, ◌^◌, ◌++◌, [], Some, length, IsTrue};
ghost use Rattle.iox2_texts.specs.Multiple.{IsLeastMultiple, least_multiple};
ghost use Rattle.iox2_texts.specs.Text.{IsText, IsTextUpTo, MakesText, AppendsText};

mod semantic_string;

use arrayvec::ArrayVec;
pub use semantic_string::{Content, SemanticString};
use std::cmp::Ordering;
use std::marker::Model;
use std::{fmt, str};

/// Why a text was not made or changed.
#[derive(Clone, Copy, Debug, PartialEq, Eq)]
pub enum StringModificationError {
    /// The text would be longer than its capacity. It is reported before an illegal byte.
    InsertWouldExceedCapacity,
    /// A byte is not from 1 to 127.
    InvalidCharacter,
}

/// Why bytes are not a name, key, value or path.
#[derive(Clone, Copy, Debug, PartialEq, Eq)]
pub enum SemanticStringError {
    /// The bytes are short enough, but are empty where that is forbidden or hold what is forbidden.
    InvalidContent,
    /// There are more bytes than the greatest length allows. It is reported before an illegal byte.
    ExceedsMaximumLength,
}

/// Too long stays too long, and an illegal byte is an invalid content.
impl From<StringModificationError> for SemanticStringError {
    ghost use Rattle.iox2_texts.specs.Errors.{semantic_error};

    ghost from_gives = { λ e r. r ≡ semantic_error e };

    fn from(error: StringModificationError) -> Self {
        match error {
            StringModificationError::InsertWouldExceedCapacity =>
                SemanticStringError::ExceedsMaximumLength,
            StringModificationError::InvalidCharacter => SemanticStringError::InvalidContent,
        }
    }
}

/// Whether a callback wants to be called again.
#[derive(Clone, Copy, Debug, PartialEq, Eq)]
pub enum CallbackProgression {
    /// With the next item, if there is one.
    Continue,
    /// Not again.
    Stop,
}

/// The least multiple of `alignment` that is at least `value`.
#[tactic(auto, using(crate::proofs::Multiple::multiples, std::proofs::lemmas::Grind::common_steps), unfolding(crate::specs::Multiple::least_multiple))]
pub fn align(value: usize, alignment: usize) -> usize
    requires nonzero { 0 < alignment }
    requires fits { least_multiple value alignment < 2 ^ 64 }
    ensures value { result ≡ least_multiple value alignment }
    ensures least { IsLeastMultiple value alignment result }
{
    value.next_multiple_of(alignment)
}

/// A text of at most `N` bytes, each from 1 to 127. Comparisons go by its bytes.
#[derive(Debug, Drop, Eq, Hash)]
pub struct StaticString<const N: usize> {
    bytes: ArrayVec<u8, N>,
}

impl<const N: usize> Model for StaticString<N> {
    ghost use Rattle.std.specs.Prelude.{List, ℕ};
    ghost use Rattle.iox2_texts.specs.Text.{IsTextUpTo};

    ghost Value = { List ℕ };

    ghost view = { λ s. s.bytes.items };

    ghost invariant = { λ s. IsTextUpTo N s.bytes.items };

    ghost inverse = { λ bytes. record { bytes = record { items = bytes } } };
}

/// Whether every byte is one that a text may hold.
fn is_text(bytes: &[u8]) -> bool
    ensures { IsTrue result ↔ IsText bytes.now }
{
    bytes.iter().all(|b| 1 <= *b && *b <= 127)
}

impl<const N: usize> StaticString<N> {
    /// The empty text.
    pub fn new() -> Self
        ensures { result ≡ [] }
    {
        StaticString {
            bytes: ArrayVec::new(),
        }
    }

    /// The text of these bytes.
    ///
    /// More than `N` bytes are refused, and then a byte that is not from 1 to 127.
    pub fn from_bytes(bytes: &[u8]) -> Result<Self, StringModificationError>
        ensures { MakesText N bytes.now result }
    {
        let mut text = StaticString::new();
        text.try_push_bytes(bytes)?;
        Ok(text)
    }

    /// Appends these bytes, or changes nothing.
    ///
    /// What would be longer than `N` bytes is refused, and then a byte that is not from 1 to 127.
    pub(crate) fn try_push_bytes(&mut self, more: &[u8]) -> Result<(), StringModificationError>
        ensures { AppendsText N self.old more.now result self.new }
    {
        if more.len() > N - self.bytes.len() {
            return Err(StringModificationError::InsertWouldExceedCapacity);
        }
        if !is_text(more) {
            return Err(StringModificationError::InvalidCharacter);
        }
        self.push_bytes(more);
        Ok(())
    }

    /// Appends these legal bytes, for which there must be capacity left.
    pub fn push_bytes(&mut self, more: &[u8])
        requires room { length self.old + length more.now ≤ N }
        requires legal { IsText more.now }
        ensures value { self.new ≡ self.old ++ more.now }
        ensures legal { IsTextUpTo N self.new }
    {
        // Never refused: the caller leaves room for all of it.
        let _fits = self.bytes.try_extend_from_slice(more);
    }

    /// The text.
    #[tactic(auto, using(crate::proofs::TextLemmas::utf8_of_text))]
    pub fn as_str(&self) -> &str
        ensures value { result.now ≡ self.now }
        ensures legal { IsTextUpTo N result.now }
    {
        // A text is ASCII, and so UTF-8: no byte is looked at.
        unsafe { str::from_utf8_unchecked(self.bytes.as_slice()) }
    }

    /// The bytes of the text.
    pub fn as_bytes(&self) -> &[u8]
        ensures value { result.now ≡ self.now }
        ensures legal { IsTextUpTo N result.now }
    {
        self.bytes.as_slice()
    }

    /// The number of bytes.
    pub fn len(&self) -> usize
        ensures value { result ≡ length self.now }
        ensures bound { result ≤ N }
    {
        self.bytes.len()
    }

    /// Whether there is no byte.
    pub fn is_empty(&self) -> bool
        ensures { IsTrue result ↔ (self.now ≡ []) }
    {
        self.bytes.is_empty()
    }

    /// The greatest number of bytes, `N`.
    pub fn capacity() -> usize
        ensures { result ≡ N }
    {
        N
    }

    /// An equal text.
    pub fn copied(&self) -> Self
        ensures { result ≡ self.now }
    {
        let mut text = StaticString::new();
        text.push_bytes(self.as_bytes());
        text
    }
}

/// As of `&str`, which compares many bytes at a time.
impl<const N: usize> PartialEq for StaticString<N> {
    ghost use Rattle.std.specs.Prelude.{nat_eq};
    ghost use Rattle.std.specs.Cmp.{partial_equiv_from_equiv};
    ghost use Rattle.std.specs.Cmp.Lexicographic.{pointwise, nat_list_eq_equiv};

    ghost eq = { λ a b. pointwise nat_eq a b };

    ghost laws = { partial_equiv_from_equiv nat_list_eq_equiv };

    fn eq(&self, other: &Self) -> bool {
        self.as_str() == other.as_str()
    }
}

impl<const N: usize> PartialOrd for StaticString<N> {
    ghost use Rattle.std.specs.Ordering.{nat_cmp};
    ghost use Rattle.std.specs.Cmp.Lexicographic.{slice_cmp, texts_po};

    ghost partial_cmp = { λ a b. Some (slice_cmp nat_cmp a b) };

    ghost laws = { texts_po };

    fn partial_cmp(&self, other: &Self) -> Option<Ordering> {
        Some(self.cmp(other))
    }
}

/// As of `&str`, which compares many bytes at a time.
impl<const N: usize> Ord for StaticString<N> {
    ghost use Rattle.std.specs.Prelude.{refl};
    ghost use Rattle.std.specs.Ordering.{nat_cmp};
    ghost use Rattle.std.specs.Cmp.Lexicographic.{slice_cmp, nat_list_cmp_total, texts_ties};

    ghost cmp = { λ a b. slice_cmp nat_cmp a b };

    ghost total = { nat_list_cmp_total };

    ghost matches_partial_cmp = { λ a b. refl };

    ghost matches_eq = { λ a b. texts_ties a b };

    fn cmp(&self, other: &Self) -> Ordering {
        self.as_str().cmp(other.as_str())
    }
}

/// As `from_bytes` of the text's bytes.
impl<const N: usize> TryFrom<&str> for StaticString<N> {
    type Error = StringModificationError;

    ghost try_from_gives = { λ s r. MakesText N s.now r };

    fn try_from(value: &str) -> Result<Self, StringModificationError> {
        Self::from_bytes(value.as_bytes())
    }
}

/// The empty text.
impl<const N: usize> Default for StaticString<N> {
    ghost is_default = { λ s. s ≡ [] };

    fn default() -> Self {
        Self::new()
    }
}

/// The text itself.
impl<const N: usize> fmt::Display for StaticString<N> {
    ghost use Rattle.std.specs.Fmt.{styled_text};

    ghost output = { λ s. Some s };

    ghost styled_output = { λ s spec. Some (styled_text spec s) };

    fn fmt<W: fmt::Write>(&self, f: &mut fmt::Formatter<W>) -> fmt::Result {
        f.pad(self.as_str())
    }
}
