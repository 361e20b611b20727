//! Laws of texts, sets of attributes and least multiples that no single call carries.
//!
//! Texts of each type are equal, ordered and hashed
//! by their bytes, so `==`, `cmp` and hashing agree.
ghost use Rattle.std.specs.Prelude.{◌≡◌, ◌↔◌, IsTrue, IsOkAnd, IsPermutation, fold};
ghost use Rattle.iox2_texts.specs.Laws.{ListingsAreUnique, ValuesAreCounted};
ghost use Rattle.iox2_texts.specs.Laws.{LeastMultiplesAreUnique};
ghost use Rattle.iox2_texts.specs.Name.{IsAllowed, MakesLegal, MakesName};
ghost use Rattle.iox2_texts.specs.Path.{IsPlain, EndsPlain, IsRestricted};
ghost use Rattle.iox2_texts.specs.Pair.{text_cmp, text_writes, pair_cmp};
ghost use Rattle.iox2_texts.specs.Text.{IsTextUpTo};

use crate::attribute::{
    Attribute, AttributeDefinitionError, AttributeKey, AttributeSet, AttributeValue,
    AttributeVerificationError,
};
use crate::bounded::{
    CallbackProgression, Content, SemanticString, SemanticStringError, StaticString,
    StringModificationError,
};
use crate::paths::{FileName, FilePath, Path, RestrictedFileName};
use crate::service_name::{ServiceName, ServiceNameError};
use std::alloc::AllocError;
use std::cmp::Ordering;
use std::hash::{Hash, Hasher};

/// The pairs of a set, in any order and with their repeats, have one sorted listing.
pub fn listings_are_unique()
    ensures { ListingsAreUnique }
{}

/// Two sets are equal exactly where they hold the same pairs, each as often.
#[tactic(auto, using(crate::proofs::ListingLemmas::equal))]
pub fn sets_are_equal_by_pairs(one: &AttributeSet, other: &AttributeSet) -> bool
    ensures equal { IsTrue result ↔ (one.now ≡ other.now) }
    ensures pairs { IsTrue result ↔ IsPermutation one.now other.now }
{
    // Read for what they promise alone: a set's pairs rise.
    let _rises = one.as_slice();
    let _rises = other.as_slice();
    one == other
}

/// `key_value` returns `None` exactly from `number_of_key_values` on.
pub fn values_are_counted()
    ensures { ValuesAreCounted }
{}

/// Each nonzero alignment has one least multiple from a value on, which `align` returns.
pub fn least_multiples_are_unique()
    ensures { LeastMultiplesAreUnique }
{}

/// Bounded texts are equal, ordered and hashed by their bytes.
pub fn texts_go_by_bytes<const N: usize, H: Hasher>(
    one: &StaticString<N>,
    other: &StaticString<N>,
    state: &mut H,
) -> (bool, Ordering)
    ensures equal { IsTrue result.0 ↔ (one.now ≡ other.now) }
    ensures ordered { result.1 ≡ text_cmp one.now other.now }
    ensures hashed { state.new ≡ fold H.write state.old (text_writes one.now) }
{
    one.hash(state);
    (one == other, one.cmp(other))
}

/// Keys, values, file names and paths are equal, ordered and hashed by their bytes.
pub fn semantic_strings_go_by_bytes<C: Content, const N: usize, H: Hasher>(
    one: &SemanticString<C, N>,
    other: &SemanticString<C, N>,
    state: &mut H,
) -> (bool, Ordering)
    ensures equal { IsTrue result.0 ↔ (one.now ≡ other.now) }
    ensures ordered { result.1 ≡ text_cmp one.now other.now }
    ensures hashed { state.new ≡ fold H.write state.old (text_writes one.now) }
{
    one.hash(state);
    (one == other, one.cmp(other))
}

/// Names of services are equal, ordered and hashed by their bytes.
pub fn service_names_go_by_bytes<H: Hasher>(
    one: &ServiceName,
    other: &ServiceName,
    state: &mut H,
) -> (bool, Ordering)
    ensures equal { IsTrue result.0 ↔ (one.now ≡ other.now) }
    ensures ordered { result.1 ≡ text_cmp one.now other.now }
    ensures hashed { state.new ≡ fold H.write state.old (text_writes one.now) }
{
    one.hash(state);
    (one == other, one.cmp(other))
}

/// Keys of attributes have 1 to 64 bytes.
pub fn keys_have_up_to_64_bytes(bytes: &[u8]) -> Result<AttributeKey, SemanticStringError>
    ensures { MakesName 64 bytes.now result }
{
    AttributeKey::new(bytes)
}

/// Values of attributes have 1 to 256 bytes.
pub fn values_have_up_to_256_bytes(bytes: &[u8]) -> Result<AttributeValue, SemanticStringError>
    ensures { MakesName 256 bytes.now result }
{
    AttributeValue::new(bytes)
}

/// Paths have up to 255 bytes.
pub fn paths_have_up_to_255_bytes(bytes: &[u8]) -> Result<Path, SemanticStringError>
    ensures { MakesLegal (IsTextUpTo 255) 255 bytes.now result }
{
    Path::new(bytes)
}

/// Names of files have 1 to 255 bytes.
pub fn file_names_have_up_to_255_bytes(bytes: &[u8]) -> Result<FileName, SemanticStringError>
    ensures { MakesLegal (IsAllowed IsPlain 255) 255 bytes.now result }
{
    FileName::new(bytes)
}

/// Paths of files have 1 to 255 bytes.
pub fn file_paths_have_up_to_255_bytes(bytes: &[u8]) -> Result<FilePath, SemanticStringError>
    ensures { MakesLegal (IsAllowed EndsPlain 255) 255 bytes.now result }
{
    FilePath::new(bytes)
}

/// Restricted names have 1 to `N` bytes.
pub fn restricted_names_have_up_to_n_bytes<const N: usize>(
    bytes: &[u8],
) -> Result<RestrictedFileName<N>, SemanticStringError>
    ensures { MakesLegal (IsAllowed IsRestricted N) N bytes.now result }
{
    RestrictedFileName::<N>::new(bytes)
}

/// Attributes are equal by key and value, and ordered by the key's bytes and then the value's.
pub fn attributes_go_by_bytes(one: &Attribute, other: &Attribute) -> (bool, Ordering)
    ensures equal { IsTrue result.0 ↔ (one.now ≡ other.now) }
    ensures ordered { result.1 ≡ pair_cmp one.now other.now }
{
    (one == other, one.cmp(other))
}

/// A result of a callback, and an error of each type that has nothing but its variant.
pub type Variants = (
    CallbackProgression,
    StringModificationError,
    SemanticStringError,
    ServiceNameError,
    AttributeDefinitionError,
);

/// Results of callbacks and errors are equal exactly where they are the same, and a clone of one is
/// the same and takes no memory.
pub fn values_go_by_variant(
    one: &Variants,
    other: &Variants,
) -> (bool, Result<Variants, AllocError>)
    ensures equal { IsTrue result.0 ↔ (one.now ≡ other.now) }
    ensures cloned { IsOkAnd result.1 (λ copy. copy ≡ one.now) }
{
    (one == other, one.clone())
}

/// Errors of a verification are equal exactly where their variant, key and value are.
pub fn attribute_verification_errors_go_by_bytes(
    one: &AttributeVerificationError,
    other: &AttributeVerificationError,
) -> bool
    ensures { IsTrue result ↔ (one.now ≡ other.now) }
{
    one == other
}
