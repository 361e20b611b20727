//! Sets of attributes.
ghost use Rattle.std.specs.Prelude.{◌≡◌, ◌+◌, ◌<◌, ◌≤◌, ◌↔◌, [], ◌∷◌, Some, length, IsOk};
ghost use Rattle.std.specs.Prelude.{IfOk, OnOk, OnErr, slice_get};
ghost use Rattle.std.specs.Option.{option_copied};
ghost use Rattle.std.specs.Fn.{CalledAt, TakesAt};
ghost use Rattle.iox2_texts.specs.Pair.{IsAttributes};
ghost use Rattle.iox2_texts.specs.Callbacks.{CanVisit};
ghost use Rattle.iox2_texts.specs.Attribute.{IsListing, Visits, values_of};

use super::pair::{Attribute, AttributeKey, AttributeValue};
use crate::bounded::CallbackProgression;
use arrayvec::ArrayVec;
use std::error::Error;
use std::fmt;
use std::marker::Model;

/// The greatest number of pairs of a set, and of the requirements of a verifier.
pub const MAX_ATTRIBUTES: usize = 16;

/// Why a pair or a key was not added.
#[derive(Clone, Copy, Debug, PartialEq, Eq)]
pub enum AttributeDefinitionError {
    /// There are 16 already.
    ExceedsMaxSupportedAttributes,
}

/// The path of the variant.
impl fmt::Display for AttributeDefinitionError {
    ghost use lib.Chars.{codes};

    ghost output = { λ e. Some (codes "AttributeDefinitionError::ExceedsMaxSupportedAttributes") };

    fn fmt<W: fmt::Write>(&self, f: &mut fmt::Formatter<W>) -> fmt::Result {
        f.write_str("AttributeDefinitionError::ExceedsMaxSupportedAttributes")
    }
}

impl Error for AttributeDefinitionError {}

/// Up to 16 pairs in rising order. A pair that was added twice is in it twice.
///
/// From `crates/services_tests/src/examples/services.rt`:
///
/// ```
/// let mut attributes = AttributeSet::new();
/// let (key, value) = color(rt, "red");
/// attributes.add(&key, &value).expect(rt, "room");
/// ```
#[derive(Debug, Drop, PartialEq, Eq)]
pub struct AttributeSet {
    attributes: ArrayVec<Attribute, MAX_ATTRIBUTES>,
}

impl Model for AttributeSet {
    ghost use Rattle.std.specs.Prelude.{List};
    ghost use Rattle.iox2_texts.specs.Pair.{Pair, IsAttributes};

    ghost Value = { List Pair };

    ghost view = { λ s. s.attributes.items };

    ghost invariant = { λ s. IsAttributes s.attributes.items };

    ghost inverse = { λ pairs. record { attributes = record { items = pairs } } };
}

impl AttributeSet {
    /// The empty set.
    pub fn new() -> Self
        ensures { result ≡ [] }
    {
        AttributeSet {
            attributes: ArrayVec::new(),
        }
    }

    /// Adds a pair. One that is there already is kept once more.
    ///
    /// Refused where there are 16 pairs; then the set stays as it was.
    #[tactic(auto, using(crate::proofs::ListingLemmas::pushed))]
    pub fn add(
        &mut self,
        key: &AttributeKey,
        value: &AttributeValue,
    ) -> Result<(), AttributeDefinitionError>
        ensures variant { IsOk result ↔ (length self.old < 16) }
        ensures added { OnOk result
            (IsListing (record { key = key.now; value = value.now } ∷ self.old) self.new) }
        ensures full { OnErr result (self.new ≡ self.old) }
        ensures len { OnOk result (length self.new ≡ length self.old + 1) }
        ensures bound { length self.new ≤ 16 }
    {
        if self.attributes.is_full() {
            return Err(AttributeDefinitionError::ExceedsMaxSupportedAttributes);
        }
        self.attributes.push(Attribute::new(key, value));
        // Linear: so short a list is sorted by insertion, and all but the last pair stand in order.
        self.attributes.sort_unstable();
        Ok(())
    }

    /// The pairs in rising order.
    pub fn as_slice(&self) -> &[Attribute]
        ensures value { result.now ≡ self.now }
        ensures legal { IsAttributes result.now }
    {
        self.attributes.as_slice()
    }

    /// The number of pairs, repeats counted.
    pub fn number_of_attributes(&self) -> usize
        ensures value { result ≡ length self.now }
        ensures bound { result ≤ 16 }
    {
        self.attributes.len()
    }

    /// The greatest number of pairs of a set.
    pub fn capacity() -> usize
        ensures { result ≡ 16 }
    {
        MAX_ATTRIBUTES
    }

    /// The number of pairs that have the key.
    #[tactic(auto, using(crate::proofs::ListingLemmas::filtered))]
    pub fn number_of_key_values(&self, key: &AttributeKey) -> usize
        ensures { result ≡ length (values_of self.now key.now) }
    {
        self.attributes
            .as_slice()
            .iter()
            .filter(|attribute| attribute.key() == key)
            .count()
    }

    /// The value at `index`, counted from 0, of the key's values in rising order, or `None` where
    /// there are not that many.
    pub fn key_value(&self, key: &AttributeKey, index: usize) -> Option<&AttributeValue>
        ensures { option_copied result ≡ slice_get (values_of self.now key.now) index }
    {
        let mut left = index;
        for attribute in self.attributes.as_slice() {
            if attribute.key() == key {
                if left == 0 {
                    return Some(attribute.value());
                }
                left -= 1;
            }
        }
        None
    }

    /// Calls `callback` with the key's values in rising order, up to and with the first `Stop`.
    ///
    /// It must be callable on them in turn, each time as the call before left it, and is left in
    /// the state after its last call. One that may always be called may be called again.
    pub fn iter_key_values<F: FnMut(&AttributeValue) -> CallbackProgression>(
        &self,
        key: &AttributeKey,
        callback: &mut F,
    )
        requires { CanVisit (TakesAt F.FnMut) (CalledAt F.FnMut)
            callback.old (values_of self.now key.now) }
        ensures visit { Visits (CalledAt F.FnMut)
            callback.old (values_of self.now key.now) callback.new }
        ensures callable { F.IsAlwaysCallable callback.old → F.IsAlwaysCallable callback.new }
    {
        for attribute in self.attributes.as_slice() {
            if attribute.key() == key {
                match callback(attribute.value()) {
                    CallbackProgression::Continue => {}
                    CallbackProgression::Stop => return,
                }
            }
        }
    }

    /// An equal set.
    pub fn copied(&self) -> Self
        ensures { result ≡ self.now }
    {
        let mut attributes: ArrayVec<Attribute, MAX_ATTRIBUTES> = ArrayVec::new();
        for attribute in self.attributes.as_slice() {
            attributes.push(attribute.copied());
        }
        AttributeSet { attributes }
    }
}

/// A set of attributes that is built pair by pair.
///
/// From `crates/values_tests/src/texts/attributes.rt`:
///
/// ```
/// AttributeSpecifier::new()
///     .define(&some, &value(rt, "some attribute value"))
///     .expect(rt, "room")
/// ```
#[derive(Debug, Drop)]
pub struct AttributeSpecifier {
    attributes: AttributeSet,
}

impl Model for AttributeSpecifier {
    ghost use Rattle.std.specs.Prelude.{List};
    ghost use Rattle.iox2_texts.specs.Pair.{Pair};

    ghost Value = { List Pair };

    ghost view = { λ s. s.attributes };
}

impl AttributeSpecifier {
    /// A specifier with no pair.
    pub fn new() -> Self
        ensures { result ≡ [] }
    {
        AttributeSpecifier {
            attributes: AttributeSet::new(),
        }
    }

    /// Adds a pair. Refused where there are 16; then the specifier is spent.
    pub fn define(
        self,
        key: &AttributeKey,
        value: &AttributeValue,
    ) -> Result<Self, AttributeDefinitionError>
        ensures variant { IsOk result ↔ (length self < 16) }
        ensures added { IfOk result
            (λ s. IsListing (record { key = key.now; value = value.now } ∷ self) s) }
    {
        let mut specifier = self;
        specifier.attributes.add(key, value)?;
        Ok(specifier)
    }

    /// The pairs that were defined.
    pub fn attributes(&self) -> &AttributeSet
        ensures { result.now ≡ self.now }
    {
        &self.attributes
    }

    /// An equal specifier.
    pub fn copied(&self) -> Self
        ensures { result ≡ self.now }
    {
        AttributeSpecifier {
            attributes: self.attributes.copied(),
        }
    }
}

/// A specifier with no pair.
impl Default for AttributeSpecifier {
    ghost is_default = { λ s. s ≡ [] };

    fn default() -> Self {
        Self::new()
    }
}
