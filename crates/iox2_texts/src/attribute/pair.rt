//! The keys and the values of attributes, and pairs of them.
ghost use Rattle.std.specs.Prelude.{◌≡◌};
ghost use lib.Chars.{codes};

use crate::bounded::{Content, SemanticString};
use std::marker::Model;

/// The greatest number of bytes of a key.
pub const MAX_ATTRIBUTE_KEY_LENGTH: usize = 64;

/// The greatest number of bytes of a value.
pub const MAX_ATTRIBUTE_VALUE_LENGTH: usize = 256;

/// The key of an attribute: 1 to 64 bytes, each from 1 to 127.
///
/// From `crates/services_tests/src/examples/services.rt`:
///
/// ```
/// AttributeKey::try_from("color").expect(rt, "a key"),
/// ```
pub type AttributeKey = SemanticString<AttributeContent, MAX_ATTRIBUTE_KEY_LENGTH>;

/// The value of an attribute: 1 to 256 bytes, each from 1 to 127.
///
/// From `crates/services_tests/src/examples/services.rt`:
///
/// ```
/// AttributeValue::try_from(value).expect(rt, "a value"),
/// ```
pub type AttributeValue = SemanticString<AttributeContent, MAX_ATTRIBUTE_VALUE_LENGTH>;

/// What keys and values of attributes allow: every text but the empty one.
pub enum AttributeContent {}

impl Content for AttributeContent {
    ghost use Rattle.std.specs.Prelude.{◌≤◌, length};

    ghost Allows = { λ bytes. 1 ≤ length bytes };

    fn allows(bytes: &[u8]) -> bool {
        !bytes.is_empty()
    }
}

/// The key `-`, which fills unused elements of a list of fixed capacity.
impl Default for AttributeKey {
    ghost is_default = { λ k. k ≡ codes "-" };

    fn default() -> Self {
        AttributeKey::from_legal(b"-")
    }
}

/// The value `-`, which fills unused elements of a list of fixed capacity.
impl Default for AttributeValue {
    ghost is_default = { λ v. v ≡ codes "-" };

    fn default() -> Self {
        AttributeValue::from_legal(b"-")
    }
}

/// A key with a value, ordered by the bytes of the key and then by the bytes of the value.
#[derive(Debug, Drop, PartialEq, Eq, PartialOrd, Ord)]
pub struct Attribute {
    key: AttributeKey,
    value: AttributeValue,
}

impl Model for Attribute {
    ghost use Rattle.iox2_texts.specs.Pair.{Pair};

    ghost Value = { Pair };

    ghost view = { λ a. record { key = a.key; value = a.value } };

    ghost inverse = { λ p. record { key = p.key; value = p.value } };
}

impl Attribute {
    /// The pair of copies of `key` and `value`.
    pub fn new(key: &AttributeKey, value: &AttributeValue) -> Self
        ensures { result ≡ record { key = key.now; value = value.now } }
    {
        Attribute {
            key: key.copied(),
            value: value.copied(),
        }
    }

    /// The key of the pair.
    pub fn key(&self) -> &AttributeKey
        ensures { result.now ≡ self.now.key }
    {
        &self.key
    }

    /// The value of the pair.
    pub fn value(&self) -> &AttributeValue
        ensures { result.now ≡ self.now.value }
    {
        &self.value
    }

    /// An equal pair.
    pub fn copied(&self) -> Self
        ensures { result ≡ self.now }
    {
        Self::new(&self.key, &self.value)
    }
}

/// The key `-` with the value `-`.
impl Default for Attribute {
    ghost is_default = { λ p. p ≡ record { key = codes "-"; value = codes "-" } };

    fn default() -> Self {
        Attribute {
            key: AttributeKey::default(),
            value: AttributeValue::default(),
        }
    }
}
