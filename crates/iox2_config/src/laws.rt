//! Laws of the definitions that the contracts cite, and of comparisons.
ghost use Rattle.std.specs.Prelude.{◌≡◌, ◌↔◌, IsTrue, IsOkAnd, fold, length, map};
ghost use Rattle.iox2_texts.specs.Pair.{text_cmp, text_writes};
ghost use Rattle.iox2_config.specs.Compatible.{IsCompatibleToItself, IsCompatibleThrough};
ghost use Rattle.iox2_config.specs.Compatible.{AreEqualBothWays};
ghost use Rattle.iox2_config.specs.HashWrites.{variant_writes, detail_writes, details_writes};
ghost use Rattle.iox2_config.specs.Hashing.{HashInputsDiffer, hash_input, sha1_text};
ghost use Rattle.iox2_config.specs.PlainTypes.{plain, plain_types};
ghost use Rattle.iox2_texts.specs.Path.{IsRestrictedName};

use crate::config::{AllocationStrategy, BackpressureStrategy, Config, DataSegmentType, EventId};
use crate::hash::{HashError, PatternKind, ServiceHash, ServiceHashError, Sha1Hasher, hash_input};
use crate::types::{
    Incompatibility, MessageTypeDetails, Places, SampleLayout, TypeDetail, TypeDetailError,
    TypeVariant, ZeroCopySend,
};
use iox2_texts::service_name::ServiceName;
use sha1::Sha1;
use std::alloc::AllocError;
use std::cmp::Ordering;
use std::hash::{Hash, Hasher};

/// Two services that differ in pattern or name differ in what is hashed of them.
pub fn hash_inputs_differ()
    ensures { HashInputsDiffer }
{}

/// The SHA-1 text of each input can be the name of a file, and has 27 bytes.
pub fn sha1_texts_are_file_names(input: &[u8])
    ensures restricted { IsRestrictedName 64 (sha1_text input.now) }
    ensures size { length (sha1_text input.now) ≡ 27 }
{
    let _digest = Sha1::digest(input);
}

/// SHA-1 makes a hash text of each name and pattern.
pub fn sha1_refuses_nothing(
    name: &ServiceName,
    kind: PatternKind,
) -> Result<ServiceHash, ServiceHashError>
    ensures { IsOkAnd result (λ hash. hash ≡ sha1_text (hash_input kind name.now)) }
{
    sha1_texts_are_file_names(hash_input(kind, name).as_bytes());
    ServiceHash::new::<Sha1Hasher>(name, kind)
}

/// The name of a type, its size and its alignment.
pub type PlainType = (&'static str, usize, usize);

/// What an implementation states of a type.
fn plain_type<T: ZeroCopySend>() -> PlainType
    ensures { plain result.0.now result.1 result.2 ≡ plain T.type_name T.SIZE T.ALIGNMENT }
{
    (T::type_name(), T::SIZE, T::ALIGNMENT)
}

/// The types of the language that may be sent without a copy have the names, sizes and alignments
/// of one table.
pub fn plain_types_are_those_of_the_table() -> [PlainType; 12]
    ensures { map (λ t. plain t.0.now t.1 t.2) result ≡ plain_types }
{
    [
        plain_type::<()>(),
        plain_type::<bool>(),
        plain_type::<i8>(),
        plain_type::<i16>(),
        plain_type::<i32>(),
        plain_type::<i64>(),
        plain_type::<u8>(),
        plain_type::<u16>(),
        plain_type::<u32>(),
        plain_type::<u64>(),
        plain_type::<isize>(),
        plain_type::<usize>(),
    ]
}

/// Details are compatible to themselves.
#[tactic(auto, using(crate::proofs::Compatible::compatible_to_itself))]
pub fn details_are_compatible_to_themselves()
    ensures { IsCompatibleToItself }
{}

/// Details that are compatible to some that are compatible to others are compatible to those.
#[tactic(auto, using(crate::proofs::Compatible::compatible_through))]
pub fn compatibility_goes_through()
    ensures { IsCompatibleThrough }
{}

/// Details that are compatible both ways are equal.
#[tactic(auto, using(crate::proofs::Compatible::equal_both_ways))]
pub fn details_compatible_both_ways_are_equal()
    ensures { AreEqualBothWays }
{}

/// Hash texts are equal, ordered and hashed by their bytes.
pub fn service_hashes_go_by_bytes<H: Hasher>(
    one: &ServiceHash,
    other: &ServiceHash,
    state: &mut H,
) -> (bool, Ordering)
    ensures equal { IsTrue result.0 ↔ (one.now ≡ other.now) }
    ensures ordered { result.1 ≡ text_cmp one.now other.now }
    ensures hashed { state.new ≡ fold H.write state.old (text_writes one.now) }
{
    one.hash(state);
    (one == other, one.cmp(other))
}

/// Details of types are equal exactly where all their parts are, and hashed by them in turn.
pub fn type_details_go_by_parts<H: Hasher>(
    one: &TypeDetail,
    other: &TypeDetail,
    state: &mut H,
) -> bool
    ensures equal { IsTrue result ↔ (one.now ≡ other.now) }
    ensures hashed { state.new ≡ fold H.write state.old (detail_writes one.now) }
{
    one.hash(state);
    one == other
}

/// Details of messages are equal exactly where all their parts are, and hashed by them in turn.
#[tactic(auto, using(crate::proofs::Equality::message_details_decide))]
pub fn message_details_go_by_parts<H: Hasher>(
    one: &MessageTypeDetails,
    other: &MessageTypeDetails,
    state: &mut H,
) -> bool
    ensures equal { IsTrue result ↔ (one.now ≡ other.now) }
    ensures hashed { state.new ≡ fold H.write state.old (details_writes one.now) }
{
    one.hash(state);
    one == other
}

/// Two configurations are equal exactly where all their fields are, and so are their parts: a
/// configuration is made of one of each kind of settings.
#[tactic(auto, using(crate::proofs::Equality::configurations_decide))]
pub fn configurations_are_equal_by_fields(one: &Config, other: &Config) -> bool
    ensures { IsTrue result ↔ (one.now ≡ other.now) }
{
    one == other
}

/// Variants of types are equal exactly where they are the same, are hashed by their number, and a
/// clone is the same.
pub fn type_variants_go_by_variant<H: Hasher>(
    one: &TypeVariant,
    other: &TypeVariant,
    state: &mut H,
) -> (bool, Result<TypeVariant, AllocError>)
    ensures equal { IsTrue result.0 ↔ (one.now ≡ other.now) }
    ensures cloned { IsOkAnd result.1 (λ copy. copy ≡ one.now) }
    ensures hashed { state.new ≡ fold H.write state.old (variant_writes one.now) }
{
    one.hash(state);
    (one == other, one.clone())
}

/// A strategy of each kind, a type of data segments, a kind of pattern, an event id, a layout and
/// offsets.
pub type Choices = (
    BackpressureStrategy,
    AllocationStrategy,
    DataSegmentType,
    PatternKind,
    EventId,
    SampleLayout,
    Places,
);

/// Strategies, types, kinds, event ids, layouts and offsets are equal exactly where they are the
/// same. A clone of one is the same and takes no memory.
pub fn choices_go_by_variant(one: &Choices, other: &Choices) -> (bool, Result<Choices, AllocError>)
    ensures equal { IsTrue result.0 ↔ (one.now ≡ other.now) }
    ensures cloned { IsOkAnd result.1 (λ copy. copy ≡ one.now) }
{
    (one == other, one.clone())
}

/// An error of details, of a hasher and of a hash text.
pub type Refusals = (TypeDetailError, HashError, ServiceHashError);

/// Errors are equal exactly where they are the same, and a clone of one is the same and takes no
/// memory.
pub fn refusals_go_by_variant(
    one: &Refusals,
    other: &Refusals,
) -> (bool, Result<Refusals, AllocError>)
    ensures equal { IsTrue result.0 ↔ (one.now ≡ other.now) }
    ensures cloned { IsOkAnd result.1 (λ copy. copy ≡ one.now) }
{
    (one == other, one.clone())
}

/// Incompatibilities, and so the differences in them, are equal exactly where they are the same. A
/// clone of one is the same and takes no memory.
pub fn incompatibilities_go_by_variant(
    one: &Incompatibility,
    other: &Incompatibility,
) -> (bool, Result<Incompatibility, AllocError>)
    ensures equal { IsTrue result.0 ↔ (one.now ≡ other.now) }
    ensures cloned { IsOkAnd result.1 (λ copy. copy ≡ one.now) }
{
    (one == other, one.clone())
}
