//! The names of services.
ghost use Rattle.std.specs.Prelude.{◌≡◌, ◌++◌, ◌↔◌, Some, IsTrue, nat_eq};
ghost use Rattle.std.specs.List.{starts_with};
ghost use lib.Chars.{codes};
ghost use Rattle.iox2_texts.specs.Name.{IsName, MakesServiceName, MakesPublicName};

use crate::bounded::{StaticString, StringModificationError};
use std::error::Error;
use std::fmt;
use std::marker::Model;

/// The prefix of the names that are kept for the system itself.
pub const INTERNAL_SERVICE_PREFIX: &str = "iox2://";

/// The greatest number of bytes of a name.
pub const MAX_SERVICE_NAME_LENGTH: usize = 255;

/// Why a text is not a service name.
#[derive(Clone, Copy, Debug, PartialEq, Eq)]
pub enum ServiceNameError {
    /// The name is empty, has a byte that is not from 1 to
    /// 127, or begins with the prefix where that is refused.
    InvalidContent,
    /// The name has more than 255 bytes. It is reported before an illegal byte.
    ExceedsMaximumLength,
}

/// Too long stays too long, and an illegal byte is an invalid content.
impl From<StringModificationError> for ServiceNameError {
    ghost use Rattle.iox2_texts.specs.Errors.{name_error};

    ghost from_gives = { λ e r. r ≡ name_error e };

    fn from(error: StringModificationError) -> Self {
        match error {
            StringModificationError::InsertWouldExceedCapacity =>
                ServiceNameError::ExceedsMaximumLength,
            StringModificationError::InvalidCharacter => ServiceNameError::InvalidContent,
        }
    }
}

/// The path of the variant.
impl fmt::Display for ServiceNameError {
    ghost use Rattle.iox2_texts.specs.Errors.{name_error_text};

    ghost output = { λ e. Some (name_error_text e) };

    fn fmt<W: fmt::Write>(&self, f: &mut fmt::Formatter<W>) -> fmt::Result {
        f.write_str(match self {
            ServiceNameError::InvalidContent => "ServiceNameError::InvalidContent",
            ServiceNameError::ExceedsMaximumLength => "ServiceNameError::ExceedsMaximumLength",
        })
    }
}

impl Error for ServiceNameError {}

/// The name of a service: 1 to 255 bytes, each from 1 to 127.
///
/// From `crates/values_tests/src/config/hash.rt`:
///
/// ```
/// let name = ServiceName::new("My/Funk/ServiceName").expect(&rt, "a name");
/// ```
#[derive(Debug, Drop, PartialEq, Eq, PartialOrd, Ord, Hash)]
pub struct ServiceName {
    text: StaticString<MAX_SERVICE_NAME_LENGTH>,
}

impl Model for ServiceName {
    ghost use Rattle.std.specs.Prelude.{List, ℕ, length, ◌≤◌};

    ghost Value = { List ℕ };

    ghost view = { λ s. s.text };

    ghost invariant = { λ s. 1 ≤ length s.text };

    ghost inverse = { λ bytes. record { text = bytes } };
}

impl ServiceName {
    /// A name that a user gives: one that begins with the prefix is refused as an invalid content,
    /// before anything else, and every other text is taken or refused as by `internal_new`.
    pub fn new(name: &str) -> Result<Self, ServiceNameError>
        ensures { MakesPublicName name.now result }
    {
        if Self::has_iox2_prefix(name) {
            return Err(ServiceNameError::InvalidContent);
        }
        Self::internal_new(name)
    }

    /// A name that may begin with the prefix. Errors, in this order: the empty text, more than 255
    /// bytes, and a byte that is not from 1 to 127.
    pub fn internal_new(name: &str) -> Result<Self, ServiceNameError>
        ensures { MakesServiceName name.now result }
    {
        if name.is_empty() {
            return Err(ServiceNameError::InvalidContent);
        }
        Ok(ServiceName {
            text: StaticString::try_from(name)?,
        })
    }

    /// As `internal_new` of the prefix followed by `name`.
    pub fn internal_new_prefixed(name: &str) -> Result<Self, ServiceNameError>
        ensures { MakesServiceName (codes "iox2://" ++ name.now) result }
    {
        let mut text = StaticString::new();
        text.push_bytes(INTERNAL_SERVICE_PREFIX.as_bytes());
        text.try_push_bytes(name.as_bytes())?;
        Ok(ServiceName { text })
    }

    /// Whether `name` begins with the prefix.
    pub fn has_iox2_prefix(name: &str) -> bool
        ensures { result ≡ starts_with nat_eq name.now (codes "iox2://") }
    {
        name.as_bytes()
            .starts_with(INTERNAL_SERVICE_PREFIX.as_bytes())
    }

    /// The greatest number of bytes of a name.
    pub fn max_len() -> usize
        ensures { result ≡ 255 }
    {
        MAX_SERVICE_NAME_LENGTH
    }

    /// The text of the name.
    pub fn as_str(&self) -> &str
        ensures value { result.now ≡ self.now }
        ensures legal { IsName 255 result.now }
    {
        self.text.as_str()
    }

    /// Whether the name is this text.
    pub fn equals_str(&self, other: &str) -> bool
        ensures { IsTrue result ↔ (self.now ≡ other.now) }
    {
        self.as_str() == other
    }

    /// An equal name.
    pub fn copied(&self) -> Self
        ensures { result ≡ self.now }
    {
        ServiceName {
            text: self.text.copied(),
        }
    }
}

/// As `internal_new`, so a name that begins with the prefix is taken.
impl TryFrom<&str> for ServiceName {
    type Error = ServiceNameError;

    ghost try_from_gives = { λ s r. MakesServiceName s.now r };

    fn try_from(value: &str) -> Result<Self, ServiceNameError> {
        Self::internal_new(value)
    }
}

/// The text of the name.
impl fmt::Display for ServiceName {
    ghost use Rattle.std.specs.Fmt.{styled_text};

    ghost output = { λ s. Some s };

    ghost styled_output = { λ s spec. Some (styled_text spec s) };

    fn fmt<W: fmt::Write>(&self, f: &mut fmt::Formatter<W>) -> fmt::Result {
        f.pad(self.as_str())
    }
}
