//! Texts with a meaning, which allows some contents alone.
ghost use Rattle.std.specs.Prelude.{◌≡◌, ◌↔◌, List, [], ℕ, Some, IsTrue, length};
ghost use Rattle.iox2_texts.specs.Name.{IsAllowed, MakesLegal};

use super::{SemanticStringError, StaticString};
use std::fmt;
use std::marker::{Model, PhantomData};

/// What a kind of semantic strings allows.
pub trait Content {
    /// The texts that are allowed.
    ghost Allows: { List ℕ → Type 0 };

    /// Whether the bytes of a text are allowed.
    fn allows(bytes: &[u8]) -> bool
        ensures { IsTrue result ↔ Allows bytes.now };
}

/// A text of at most `N` bytes, each from 1 to 127, that the content `C` allows.
///
/// From `crates/values_tests/src/texts/paths.rt`:
///
/// ```
/// let restricted = RestrictedFileName::<4>::new(b"c");
/// tells(&rt, &restricted.expect(&rt, "a name"), "c");
/// ```
#[derive(Drop)]
#[derive_where(Debug, PartialEq, Eq, PartialOrd, Ord, Hash)]
pub struct SemanticString<C: Content, const N: usize> {
    text: StaticString<N>,
    #[derive_where(skip)]
    content: PhantomData<C>,
}

impl<C: Content, const N: usize> Model for SemanticString<C, N> {
    ghost use Rattle.std.specs.Prelude.{List, ℕ};

    ghost Value = { List ℕ };

    ghost view = { λ s. s.text };

    ghost invariant = { λ s. C.Allows s.text };

    ghost inverse = { λ bytes. record { text = bytes; content = record {} } };
}

impl<C: Content, const N: usize> SemanticString<C, N> {
    /// The semantic string of these bytes.
    ///
    /// Errors, in this order: no byte at all where that is not allowed (`InvalidContent`), more
    /// than `N` bytes (`ExceedsMaximumLength`), and any other content that is not allowed
    /// (`InvalidContent`): a byte that is not from 1 to 127, or what `C` forbids.
    pub fn new(bytes: &[u8]) -> Result<Self, SemanticStringError>
        ensures { MakesLegal (IsAllowed C.Allows N) N bytes.now result }
    {
        let text: StaticString<N> = StaticString::from_bytes(bytes)?;
        if !C::allows(text.as_bytes()) {
            return Err(SemanticStringError::InvalidContent);
        }
        Ok(Self::of_allowed(text))
    }

    /// The semantic string of bytes that are known to be legal, at which it does not look.
    pub fn from_legal(bytes: &[u8]) -> Self
        requires { IsAllowed C.Allows N bytes.now }
        ensures { result ≡ bytes.now }
    {
        let mut text = StaticString::new();
        text.push_bytes(bytes);
        Self::of_allowed(text)
    }

    /// The semantic string of a text that is known to be allowed.
    pub(crate) fn of_allowed(text: StaticString<N>) -> Self
        requires { C.Allows text }
        ensures { result ≡ text.entry }
    {
        SemanticString {
            text,
            content: PhantomData,
        }
    }

    /// The text.
    pub fn as_str(&self) -> &str
        ensures value { result.now ≡ self.now }
        ensures legal { IsAllowed C.Allows N result.now }
    {
        self.text.as_str()
    }

    /// The bytes of the text.
    pub fn as_bytes(&self) -> &[u8]
        ensures value { result.now ≡ self.now }
        ensures legal { IsAllowed C.Allows N result.now }
    {
        self.text.as_bytes()
    }

    /// The number of bytes, at most `N`.
    pub fn len(&self) -> usize
        ensures value { result ≡ length self.now }
        ensures legal { IsAllowed C.Allows N self.now }
    {
        self.as_bytes().len()
    }

    /// Whether there is no byte.
    pub fn is_empty(&self) -> bool
        ensures { IsTrue result ↔ (self.now ≡ []) }
    {
        self.text.is_empty()
    }

    /// An equal semantic string.
    pub fn copied(&self) -> Self
        ensures { result ≡ self.now }
    {
        Self::of_allowed(self.text.copied())
    }
}

/// As `new` of the text's bytes.
impl<C: Content, const N: usize> TryFrom<&str> for SemanticString<C, N> {
    type Error = SemanticStringError;

    ghost try_from_gives = { λ s r. MakesLegal (IsAllowed C.Allows N) N s.now r };

    fn try_from(value: &str) -> Result<Self, SemanticStringError> {
        Self::new(value.as_bytes())
    }
}

/// The text itself.
impl<C: Content, const N: usize> fmt::Display for SemanticString<C, N> {
    ghost use Rattle.std.specs.Fmt.{styled_text};

    ghost output = { λ s. Some s };

    ghost styled_output = { λ s spec. Some (styled_text spec s) };

    fn fmt<W: fmt::Write>(&self, f: &mut fmt::Formatter<W>) -> fmt::Result {
        f.pad(self.as_str())
    }
}
