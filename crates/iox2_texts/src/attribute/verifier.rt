//! What an opener requires of a set of attributes, and whether a set meets it.
ghost use Rattle.std.specs.Prelude.{◌≡◌, ◌+◌, ◌<◌, ◌≤◌, ◌↔◌, [], ◌∷◌, ◌++◌, length, Some, IsTrue};
ghost use Rattle.std.specs.Prelude.{Any, IsOk, IfOk, IfSome, MatchOption};
ghost use Rattle.iox2_texts.specs.Attribute.{IsListing};
ghost use Rattle.iox2_texts.specs.Verify.{Finds, Misses};
ghost use Rattle.iox2_texts.specs.VerifyErrors.{Verifies};

use super::pair::{Attribute, AttributeKey, AttributeValue};
use super::set::{AttributeDefinitionError, AttributeSet, MAX_ATTRIBUTES};
use arrayvec::ArrayVec;
use std::error::Error;
use std::fmt;
use std::marker::Model;

/// What a set of attributes lacks.
#[derive(Debug, Drop, PartialEq, Eq)]
pub enum AttributeVerificationError {
    /// No pair has this key, the first of the required keys that lacks one. It is reported only
    /// where no required pair is missing.
    NonExistingKey(AttributeKey),
    /// This pair is not in the set, the least of the required pairs that are not. The key may have
    /// other values, or none.
    IncompatibleAttribute((AttributeKey, AttributeValue)),
}

impl AttributeVerificationError {
    /// An equal error.
    pub fn copied(&self) -> Self
        ensures { result ≡ self.now }
    {
        match self {
            AttributeVerificationError::NonExistingKey(key) =>
                AttributeVerificationError::NonExistingKey(key.copied()),
            AttributeVerificationError::IncompatibleAttribute((key, value)) => {
                AttributeVerificationError::IncompatibleAttribute((key.copied(), value.copied()))
            }
        }
    }
}

/// The path of the variant with the key, or the key and the value, as they are between quotes.
impl fmt::Display for AttributeVerificationError {
    ghost use Rattle.iox2_texts.specs.VerifyErrors.{verification_error_text};

    ghost output = { λ e. Some (verification_error_text e) };

    fn fmt<W: fmt::Write>(&self, f: &mut fmt::Formatter<W>) -> fmt::Result {
        match self {
            AttributeVerificationError::NonExistingKey(key) => {
                write!(
                    f,
                    "AttributeVerificationError::NonExistingKey(\"{}\")",
                    key.as_str()
                )
            }
            AttributeVerificationError::IncompatibleAttribute((key, value)) => {
                write!(
                    f,
                    "AttributeVerificationError::IncompatibleAttribute((\"{}\", \"{}\"))",
                    key.as_str(),
                    value.as_str()
                )
            }
        }
    }
}

impl Error for AttributeVerificationError {}

/// The pairs and the keys that a set of attributes must have, at most 16 together.
///
/// From `crates/service_examples/src/builder.rt`:
///
/// ```
/// if let Err(missing) = opener
///     .verifier
///     .verify_requirements(description.attributes())
/// {
///     return Err(OpenError::IncompatibleAttributes(missing));
/// }
/// ```
#[derive(Debug, Drop)]
pub struct AttributeVerifier {
    attributes: AttributeSet,
    keys: ArrayVec<AttributeKey, MAX_ATTRIBUTES>,
}

impl Model for AttributeVerifier {
    ghost use Rattle.std.specs.Prelude.{◌+◌, ◌≤◌, length};
    ghost use Rattle.iox2_texts.specs.Verify.{Requirements};

    ghost Value = { Requirements };

    ghost view = { λ v. record { pairs = v.attributes; keys = v.keys.items } };

    ghost invariant = { λ v. length v.attributes + length v.keys.items ≤ 16 };
}

impl AttributeVerifier {
    /// A verifier that requires nothing.
    pub fn new() -> Self
        ensures { result ≡ record { pairs = []; keys = [] } }
    {
        AttributeVerifier {
            attributes: AttributeSet::new(),
            keys: ArrayVec::new(),
        }
    }

    /// Whether there are 16 pairs and keys together.
    fn is_full(&self) -> bool
        ensures { IsTrue result ↔ (length self.now.pairs + length self.now.keys ≡ 16) }
    {
        self.attributes.number_of_attributes() + self.keys.len() == MAX_ATTRIBUTES
    }

    /// Requires a pair too. Refused where pairs and keys
    /// are 16 together, and then the verifier is spent.
    pub fn require(
        self,
        key: &AttributeKey,
        value: &AttributeValue,
    ) -> Result<Self, AttributeDefinitionError>
        ensures variant { IsOk result ↔ (length self.pairs + length self.keys < 16) }
        ensures pairs { IfOk result
            (λ v. IsListing (record { key = key.now; value = value.now } ∷ self.pairs) v.pairs) }
        ensures keys { IfOk result (λ v. v.keys ≡ self.keys) }
    {
        let mut verifier = self;
        if verifier.is_full() {
            return Err(AttributeDefinitionError::ExceedsMaxSupportedAttributes);
        }
        verifier.attributes.add(key, value)?;
        Ok(verifier)
    }

    /// Requires a key too, with any value. Refused where pairs and keys are 16 together, and then
    /// the verifier is spent.
    pub fn require_key(self, key: &AttributeKey) -> Result<Self, AttributeDefinitionError>
        ensures variant { IsOk result ↔ (length self.pairs + length self.keys < 16) }
        ensures added { IfOk result
            (λ v. v ≡ record { pairs = self.pairs; keys = self.keys ++ key.now ∷ [] }) }
    {
        let mut verifier = self;
        if verifier.is_full() {
            return Err(AttributeDefinitionError::ExceedsMaxSupportedAttributes);
        }
        verifier.keys.push(key.copied());
        Ok(verifier)
    }

    /// The pairs that are required.
    pub fn required_attributes(&self) -> &AttributeSet
        ensures { result.now ≡ self.now.pairs }
    {
        &self.attributes
    }

    /// The keys that are required, in the order in which they were.
    pub fn required_keys(&self) -> &[AttributeKey]
        ensures { result.now ≡ self.now.keys }
    {
        self.keys.as_slice()
    }

    /// Whether `attributes` has each required pair, and for each required key some pair with it. A
    /// pair that is required twice is met by one.
    ///
    /// Refused with the least required pair that is missing,
    /// or else with the first required key that no pair has.
    pub fn verify_requirements(
        &self,
        attributes: &AttributeSet,
    ) -> Result<(), AttributeVerificationError>
        ensures { Verifies self.now attributes.now result }
    {
        let pairs = attributes.as_slice();
        let required = self.required_attributes().as_slice();
        if let Some(i) = first_missing(required, pairs) {
            let pair = &required[i];
            let missing = (pair.key().copied(), pair.value().copied());
            return Err(AttributeVerificationError::IncompatibleAttribute(missing));
        }
        let keys = self.keys.as_slice();
        match first_missing(keys, pairs) {
            Some(i) => Err(AttributeVerificationError::NonExistingKey(keys[i].copied())),
            None => Ok(()),
        }
    }

    /// An equal verifier.
    pub fn copied(&self) -> Self
        ensures { result ≡ self.now }
    {
        let mut keys: ArrayVec<AttributeKey, MAX_ATTRIBUTES> = ArrayVec::new();
        for key in self.keys.as_slice() {
            keys.push(key.copied());
        }
        AttributeVerifier {
            attributes: self.attributes.copied(),
            keys,
        }
    }
}

/// A verifier that requires nothing.
impl Default for AttributeVerifier {
    ghost is_default = { λ v. v ≡ record { pairs = []; keys = [] } };

    fn default() -> Self {
        Self::new()
    }
}

/// What pairs meet where one of them does, as a pair or a key that is required.
pub trait Requirement<P> {
    /// The pair meets it.
    ghost IsMetBy: { Self → P → Type 0 };

    /// Whether the pair meets it.
    fn is_met_by(&self, pair: &P) -> bool
        ensures { IsTrue result ↔ IsMetBy self.now pair.now };
}

/// The index of the first requirement that no pair meets.
///
/// Each is sought from the pair that meets the one before it, and then before that pair: where
/// both rise, one way through the pairs finds all of them.
pub fn first_missing<P, R: Requirement<P>>(required: &[R], pairs: &[P]) -> Option<usize>
    ensures misses { Misses (λ r. Any (R.IsMetBy r) pairs.now) required.now result }
    ensures bound { IfSome result (λ i. i < length required.now) }
{
    let mut from = 0;
    for (i, requirement) in required.iter().enumerate() {
        match index_near(pairs, from, requirement) {
            Some(index) => from = index,
            None => return Some(i),
        }
    }
    None
}

/// The index of a pair that meets the requirement. It is sought from `from` on, and then before.
#[tactic(auto, using(crate::proofs::VerifyLemmas::found_before, crate::proofs::VerifyLemmas::found_behind))]
fn index_near<P, R: Requirement<P>>(pairs: &[P], from: usize, requirement: &R) -> Option<usize>
    requires { from ≤ length pairs.now }
    ensures { MatchOption result (¬ (Any (R.IsMetBy requirement.now) pairs.now))
        (λ index. (index < length pairs.now) × Any (R.IsMetBy requirement.now) pairs.now) }
{
    match first_that_meets(&pairs[from..], requirement) {
        Some(further) => Some(from + further),
        None => first_that_meets(&pairs[..from], requirement),
    }
}

/// The index of the first pair that meets the requirement.
pub fn first_that_meets<P, R: Requirement<P>>(pairs: &[P], requirement: &R) -> Option<usize>
    ensures { Finds (R.IsMetBy requirement.now) pairs.now result }
{
    pairs.iter().position(|pair| requirement.is_met_by(pair))
}

/// A required pair is met by an equal one.
impl Requirement<Attribute> for Attribute {
    ghost IsMetBy = { λ required pair. pair ≡ required };

    fn is_met_by(&self, pair: &Attribute) -> bool {
        pair == self
    }
}

/// A required key is met by a pair that has it.
impl Requirement<Attribute> for AttributeKey {
    ghost IsMetBy = { λ required pair. pair.key ≡ required };

    fn is_met_by(&self, pair: &Attribute) -> bool {
        pair.key() == self
    }
}
