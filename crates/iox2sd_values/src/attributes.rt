//! Attributes without handles: a caller's arrays of keys and values.
ghost use Rattle.std.specs.Prelude.{◌≡◌, ◌≤◌, [], map, take, length, slice_get};
ghost use Rattle.std.specs.Option.{option_copied};
ghost use Rattle.iox2_texts.specs.Attribute.{IsListing, values_of};
ghost use Rattle.iox2sd_values.specs.Attributes.{ReportsSet, SortsSet, CountsValues, ReportsValue};
ghost use Rattle.iox2sd_values.specs.Attributes.{pair_of, text_of, set_refusal, required_refusal};
ghost use Rattle.iox2sd_values.specs.Attributes.{ChecksPairs, ChecksKeys, ReadsAsked, OfSet};
ghost use Rattle.iox2sd_values.specs.Attributes.{Judges, VerifiesSet, value_at};
ghost use Rattle.iox2sd_values.specs.Refusals.{ReportsMade};

use super::refusals::Refusal;
use super::texts::{iox2sd_attribute_key_check_at, iox2sd_attribute_value_check_at, is_name};
use iox2_texts::attribute::{
    AttributeKey, MAX_ATTRIBUTE_KEY_LENGTH, MAX_ATTRIBUTE_VALUE_LENGTH, MAX_ATTRIBUTES,
    Requirement, first_missing, first_that_meets,
};
use iox2sd_common::answers::{
    CountAnswer, PlaceAnswer, TextAnswer, count, no_text, position, write,
};
use iox2sd_common::status::Status;

/// A key and its value, each in the caller's memory.
#[repr(C)]
#[derive(Clone, Copy, PartialEq, Eq, PartialOrd, Ord)]
pub struct Attribute<'a> {
    /// 1 to 64 bytes, each from 1 to 127.
    pub key: &'a [u8],
    /// 1 to 256 bytes, each from 1 to 127.
    pub value: &'a [u8],
}

/// A key in the caller's memory.
#[repr(C)]
#[derive(Clone, Copy)]
pub struct Key<'a> {
    /// 1 to 64 bytes, each from 1 to 127.
    pub text: &'a [u8],
}

/// What is wrong with a pair.
#[derive(Clone, Copy)]
enum Fault {
    /// Its key is none, since its check answers the status of this number.
    Key(u32),
    /// Its value is none, since its check answers this one.
    Value(u32),
    /// It is the seventeenth.
    Number,
}

impl Fault {
    /// Why a pair of a set is refused for it.
    fn of_set(self) -> Refusal
        ensures { result ≡ set_refusal self }
    {
        match self {
            Fault::Key(cause) => Refusal::OfText(Status::BadKey, cause),
            Fault::Value(cause) => Refusal::OfText(Status::BadValue, cause),
            Fault::Number => Refusal::Because(Status::TooMany),
        }
    }

    /// Why a required pair is refused for it.
    fn of_required(self) -> Refusal
        ensures { result ≡ required_refusal self }
    {
        match self {
            Fault::Key(cause) => Refusal::OfText(Status::BadRequiredKey, cause),
            Fault::Value(cause) => Refusal::OfText(Status::BadRequiredValue, cause),
            Fault::Number => Refusal::Because(Status::TooManyRequired),
        }
    }
}

/// Whether the pairs are legal and sixteen at most, or the fault of the first that is not, and its
/// index.
#[tactic(auto, using(crate::proofs::Legal::searched))]
fn check_pairs(pairs: &[Attribute<'_>]) -> Result<(), (Fault, usize)>
    ensures { ChecksPairs pairs.now result }
{
    for (i, pair) in pairs.iter().enumerate() {
        if !is_name(pair.key, MAX_ATTRIBUTE_KEY_LENGTH) {
            return Err((
                Fault::Key(iox2sd_attribute_key_check_at(pair.key).status),
                i,
            ));
        }
        if !is_name(pair.value, MAX_ATTRIBUTE_VALUE_LENGTH) {
            return Err((
                Fault::Value(iox2sd_attribute_value_check_at(pair.value).status),
                i,
            ));
        }
        if i == MAX_ATTRIBUTES {
            return Err((Fault::Number, i));
        }
    }
    Ok(())
}

/// Whether these pairs are a set: at most sixteen, each of legal texts, in any order and with
/// repeats.
///
/// Reports the first pair of the first seventeen that is wrong, with its index: for a wrong key
/// `BadKey`, for a right key and a wrong value `BadValue`, for the seventeenth `TooMany`.
#[unsafe(no_mangle)]
pub extern "C" fn iox2sd_attributes_check_at(pairs: &[Attribute<'_>]) -> PlaceAnswer
    ensures { ReportsSet pairs.now result }
{
    match check_pairs(pairs) {
        Ok(()) => position(Status::Done, 0),
        Err((fault, at)) => fault.of_set().place(at),
    }
}

/// Sorts the pairs of a set by the bytes of their keys, and then of their values.
///
/// Refused as by `iox2sd_attributes_check`, and then the array stays as it was.
#[unsafe(no_mangle)]
pub extern "C" fn iox2sd_attributes_sort_at(pairs: &mut [Attribute<'_>]) -> PlaceAnswer
    ensures { SortsSet pairs.old result pairs.new }
{
    match check_pairs(pairs) {
        Ok(()) => {
            pairs.sort_unstable();
            position(Status::Done, 0)
        }
        Err((fault, at)) => fault.of_set().place(at),
    }
}

/// How many pairs have the key.
#[tactic(auto, using(crate::proofs::Sets::counted))]
fn count_values(pairs: &[Attribute<'_>], key: &[u8]) -> usize
    ensures { result ≡ length (values_of (map pair_of pairs.now) key.now) }
{
    pairs.iter().filter(|pair| pair.key == key).count()
}

/// The value at `index`, counted from 0, of those that the key has, in the order of the pairs.
fn value_at<'a>(pairs: &[Attribute<'a>], key: &[u8], index: usize) -> Option<&'a [u8]>
    ensures { option_copied result ≡ slice_get (values_of (map pair_of pairs.now) key.now) index }
{
    let mut left = index;
    for pair in pairs {
        if pair.key == key {
            if left == 0 {
                return Some(pair.value);
            }
            left -= 1;
        }
    }
    None
}

/// The pairs by the bytes of their keys, and then of their values, and empty ones behind them.
fn sorted<'a>(pairs: &[Attribute<'a>]) -> [Attribute<'a>; MAX_ATTRIBUTES]
    requires { length pairs.now ≤ 16 }
    ensures { IsListing (map pair_of pairs.now) (map pair_of (take (length pairs.now) result)) }
{
    let nothing = Attribute {
        key: &[],
        value: &[],
    };
    let mut copies = [nothing; MAX_ATTRIBUTES];
    let front = &mut copies[..pairs.len()];
    front.copy_from_slice(pairs);
    front.sort_unstable();
    copies
}

/// The key whose values are searched for, or why none are.
fn asked_key(pairs: &[Attribute<'_>], key: &[u8]) -> Result<AttributeKey, Refusal>
    ensures { ReadsAsked pairs.now key.now result }
{
    if let Err((fault, _)) = check_pairs(pairs) {
        return Err(fault.of_set());
    }
    match AttributeKey::new(key) {
        Ok(name) => Ok(name),
        Err(_) => {
            let cause = iox2sd_attribute_key_check_at(key).status;
            Err(Refusal::OfText(Status::BadAskedKey, cause))
        }
    }
}

/// How many values a key has in a set.
///
/// Refused are, in this order, pairs that `iox2sd_attributes_check` refuses, with its status, and a
/// wrong key (`BadAskedKey`).
#[tactic(auto, using(crate::proofs::Sets::as_in_listing))]
#[unsafe(no_mangle)]
pub extern "C" fn iox2sd_attributes_number_of_key_values_at(
    pairs: &[Attribute<'_>],
    key: &[u8],
) -> CountAnswer
    ensures { CountsValues pairs.now key.now result }
{
    match asked_key(pairs, key) {
        Ok(_) => count(Status::Done, count_values(pairs, key)),
        Err(refusal) => refusal.count(),
    }
}

/// Writes the value at `index`, counted from 0, of those that the key has, by their bytes from the
/// least.
fn write_value(pairs: &[Attribute<'_>], key: &[u8], index: usize, out: &mut [u8]) -> TextAnswer
    requires { length pairs.now ≤ 16 }
    ensures { OfSet pairs.now (λ set. ReportsMade (value_at set key.now index)
        out.old result out.new) }
{
    let copies = sorted(pairs);
    match value_at(&copies[..pairs.len()], key, index) {
        Some(value) => write(value, out),
        None => no_text(Status::NoSuchValue),
    }
}

/// Writes the value at `index`, counted from 0, of the values that a key has in a set, by their
/// bytes from the least.
///
/// Refused are, in this order, pairs that `iox2sd_attributes_check` refuses, with its status, a
/// wrong key (`BadAskedKey`), and an index that the key has no value for (`NoSuchValue`).
#[unsafe(no_mangle)]
pub extern "C" fn iox2sd_attributes_key_value_at(
    pairs: &[Attribute<'_>],
    key: &[u8],
    index: usize,
    out: &mut [u8],
) -> TextAnswer
    ensures { ReportsValue pairs.now key.now index out.old result out.new }
{
    match asked_key(pairs, key) {
        Ok(_) => write_value(pairs, key, index, out),
        Err(refusal) => refusal.text(),
    }
}

/// Whether the keys may be required beside so many pairs, or why the first that is wrong may not,
/// and its index.
#[tactic(auto, using(crate::proofs::Legal::searched))]
fn check_keys(keys: &[Key<'_>], pairs: usize) -> Result<(), (Refusal, usize)>
    requires { pairs ≤ 16 }
    ensures { ChecksKeys pairs keys.now result }
{
    for (i, key) in keys.iter().enumerate() {
        if !is_name(key.text, MAX_ATTRIBUTE_KEY_LENGTH) {
            let cause = iox2sd_attribute_key_check_at(key.text).status;
            return Err((Refusal::OfText(Status::BadAskedKey, cause), i));
        }
        if pairs + i == MAX_ATTRIBUTES {
            return Err((Refusal::Because(Status::TooManyRequired), i));
        }
    }
    Ok(())
}

/// A required pair is met by an equal one. Values are compared first: keys often begin alike.
impl<'a, 'b> Requirement<Attribute<'b>> for Attribute<'a> {
    ghost IsMetBy = { λ required pair. pair_of pair ≡ pair_of required };

    fn is_met_by(&self, pair: &Attribute<'b>) -> bool {
        pair.value == self.value && pair.key == self.key
    }
}

/// A required key is met by a pair that has it.
impl<'a, 'b> Requirement<Attribute<'b>> for Key<'a> {
    ghost IsMetBy = { λ required pair. pair.key.now ≡ text_of required };

    fn is_met_by(&self, pair: &Attribute<'b>) -> bool {
        pair.key == self.text
    }
}

/// Whether the set has the required pairs and keys.
fn verify(set: &[Attribute<'_>], required: &[Attribute<'_>], keys: &[Key<'_>]) -> PlaceAnswer
    requires { length required.now ≤ 16 }
    ensures { Judges set.now required.now keys.now result }
{
    let copies = sorted(required);
    let wanted = &copies[..required.len()];
    if let Some(i) = first_missing(wanted, set) {
        return match first_that_meets(required, &wanted[i]) {
            Some(at) => position(Status::MissingPair, at),
            None => unreachable!(),
        };
    }
    match first_missing(keys, set) {
        Some(i) => position(Status::MissingKey, i),
        None => position(Status::Done, 0),
    }
}

/// Whether a set has each required pair, and for each required key some pair with it.
///
/// Refused are, in this order, pairs that `iox2sd_attributes_check` refuses, with its answer; the
/// first invalid required pair, with its index: of an invalid key (`BadRequiredKey`), of a valid
/// key and an invalid value (`BadRequiredValue`), or the seventeenth (`TooManyRequired`); the first
/// invalid required key, with its index (`BadAskedKey`, or `TooManyRequired` of the seventeenth of
/// pairs and keys together); the least required pair that the set lacks (`MissingPair`), and then
/// the first required key that it lacks (`MissingKey`), with its first index.
#[unsafe(no_mangle)]
pub extern "C" fn iox2sd_attributes_verify_at(
    pairs: &[Attribute<'_>],
    required: &[Attribute<'_>],
    keys: &[Key<'_>],
) -> PlaceAnswer
    ensures { VerifiesSet pairs.now required.now keys.now result }
{
    if let Err((fault, at)) = check_pairs(pairs) {
        return fault.of_set().place(at);
    }
    if let Err((fault, at)) = check_pairs(required) {
        return fault.of_required().place(at);
    }
    if let Err((refusal, at)) = check_keys(keys, required.len()) {
        return refusal.place(at);
    }
    verify(pairs, required, keys)
}
