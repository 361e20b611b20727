//! Whether texts are names, keys, values and paths, and where they are not, which byte is wrong and
//! why; the names of services, and their hash texts.
ghost use Rattle.std.specs.Prelude.{◌↔◌, IsTrue, ◌≡◌, nat_eq, false, true};
ghost use Rattle.iox2_texts.specs.Name.{IsName};
ghost use Rattle.iox2_texts.specs.Text.{IsText};
ghost use Rattle.iox2_texts.specs.Verify.{Misses};
ghost use Rattle.iox2sd_values.specs.Texts.{IsLegal, Refused, ChecksName, ChecksUserName};
ghost use Rattle.iox2sd_values.specs.Texts.{ChecksPath, ChecksFileName, ChecksFilePath};
ghost use Rattle.iox2sd_values.specs.Texts.{ChecksRestricted};
ghost use Rattle.std.specs.List.{starts_with};
ghost use Rattle.iox2sd_values.specs.Texts.{ReadsAnyName, Prefixes, MakesText, Hashes};
ghost use Rattle.iox2sd_values.specs.Refusals.{ReportsBy};
ghost use lib.Chars.{codes};

use super::refusals::Refusal;
use iox2_config::hash::{PatternKind, ServiceHash, ServiceHashError, Sha1Hasher};
use iox2_texts::bounded::SemanticStringError;
use iox2_texts::paths::{FileName, FilePath, Path, RestrictedFileName};
use iox2_texts::service_name::{INTERNAL_SERVICE_PREFIX, ServiceName, ServiceNameError};
use iox2sd_common::answers::{PlaceAnswer, TextAnswer, position, write};
use iox2sd_common::read_settings::pattern_of;
use iox2sd_common::status::Status;
use std::str;

/// The bytes that a kind of texts may hold.
#[derive(Clone, Copy)]
pub(super) enum Alphabet {
    /// From 1 to 127.
    Text,
    /// The same without `/`.
    FileName,
    /// Letters, digits, `-`, `.`, `:` and `_`.
    Restricted,
}

impl Alphabet {
    /// Whether a text may hold the byte.
    fn has(self, byte: u8) -> bool
        ensures { IsTrue result ↔ IsLegal self byte }
    {
        match self {
            Alphabet::Text => 1 <= byte && byte <= 127,
            Alphabet::FileName => 1 <= byte && byte <= 127 && byte != b'/',
            Alphabet::Restricted =>
                matches!(byte, b'A'..=b'Z' | b'a'..=b'z' | b'0'..=b'9' | b'-' | b'.' | b':' | b'_'),
        }
    }
}

/// The index of the first byte that the text may not have.
fn first_illegal(text: &[u8], alphabet: Alphabet) -> Option<usize>
    ensures { Misses (IsLegal alphabet) text.now result }
{
    text.iter().position(|byte| !alphabet.has(*byte))
}

/// The answer on a text that was refused: why it is none of its kind, and which byte is wrong.
fn refusal(error: SemanticStringError, text: &[u8], alphabet: Alphabet, most: usize) -> PlaceAnswer
    ensures { Refused error text.now alphabet most result }
{
    match error {
        SemanticStringError::ExceedsMaximumLength => position(Status::TooLong, most),
        SemanticStringError::InvalidContent => {
            if text.is_empty() {
                return position(Status::Empty, 0);
            }
            match first_illegal(text, alphabet) {
                Some(i) => position(Status::IllegalByte, i),
                None => position(Status::NoFileName, 0),
            }
        }
    }
}

/// Whether every byte is from 1 to 127. No byte ends the loop early, so many are looked at at once.
fn is_text(bytes: &[u8]) -> bool
    ensures { IsTrue result ↔ IsText bytes.now }
{
    let mut legal = true;
    for byte in bytes {
        legal &= (1 <= *byte) & (*byte <= 127);
    }
    legal
}

/// Whether the bytes are a key, a value or a name of 1 to `most` bytes.
pub(super) fn is_name(bytes: &[u8], most: usize) -> bool
    ensures { IsTrue result ↔ IsName most bytes.now }
{
    1 <= bytes.len() && bytes.len() <= most && is_text(bytes)
}

/// Whether a text is a key, a value or a name of 1 to `most` bytes, and if not, why.
fn check_name(text: &[u8], most: usize) -> PlaceAnswer
    ensures { ChecksName most text.now result }
{
    if is_name(text, most) {
        return position(Status::Done, 0);
    }
    if text.len() > most {
        let error = SemanticStringError::ExceedsMaximumLength;
        return refusal(error, text, Alphabet::Text, most);
    }
    let error = SemanticStringError::InvalidContent;
    refusal(error, text, Alphabet::Text, most)
}

/// Whether a text is the name of a service, which may be one of the system's own: 1 to 255 bytes,
/// each from 1 to 127.
///
/// Errors, in this order: the empty text (`Empty`), more than 255 bytes (`TooLong`), and a byte
/// that is not from 1 to 127 (`IllegalByte`), with the index of the first wrong byte.
#[unsafe(no_mangle)]
pub extern "C" fn iox2sd_internal_service_name_check_at(text: &[u8]) -> PlaceAnswer
    ensures { ChecksName 255 text.now result }
{
    check_name(text, 255)
}

/// Whether a text is the name that a user gives to a service.
///
/// Refused are, in this order, one that begins with `iox2://` (`ReservedPrefix`), and what
/// `iox2sd_internal_service_name_check` refuses.
#[unsafe(no_mangle)]
pub extern "C" fn iox2sd_service_name_check_at(text: &[u8]) -> PlaceAnswer
    ensures { ChecksUserName text.now result }
{
    if text.starts_with(INTERNAL_SERVICE_PREFIX.as_bytes()) {
        return position(Status::ReservedPrefix, 0);
    }
    iox2sd_internal_service_name_check_at(text)
}

/// Whether a text is the key of an attribute: 1 to 64 bytes, each from 1 to 127.
///
/// Errors, in this order: the empty text (`Empty`), more than 64 bytes (`TooLong`), and a byte that
/// is not from 1 to 127 (`IllegalByte`), with the index of the first wrong byte.
#[unsafe(no_mangle)]
pub extern "C" fn iox2sd_attribute_key_check_at(text: &[u8]) -> PlaceAnswer
    ensures { ChecksName 64 text.now result }
{
    check_name(text, 64)
}

/// Whether a text is the value of an attribute: 1 to 256 bytes, each from 1 to 127. Refused as a
/// key is.
#[unsafe(no_mangle)]
pub extern "C" fn iox2sd_attribute_value_check_at(text: &[u8]) -> PlaceAnswer
    ensures { ChecksName 256 text.now result }
{
    check_name(text, 256)
}

/// Whether a text is a path: at most 255 bytes, each from 1 to 127. It may be empty.
///
/// Refused are, in this order, more than 255 bytes (`TooLong`), and a byte that is not from 1 to
/// 127 (`IllegalByte`).
#[unsafe(no_mangle)]
pub extern "C" fn iox2sd_path_check_at(text: &[u8]) -> PlaceAnswer
    ensures { ChecksPath text.now result }
{
    match Path::new(text) {
        Ok(_) => position(Status::Done, 0),
        Err(error) => refusal(error, text, Alphabet::Text, 255),
    }
}

/// Whether a text is the name of a file: 1 to 255 bytes, each from 1 to 127 and none a `/`, and
/// neither `.` nor `..`.
///
/// Refused are, in this order, the empty text (`Empty`), more than 255 bytes (`TooLong`), a byte
/// that may not stand there (`IllegalByte`), and `.` and `..` (`NoFileName`).
#[unsafe(no_mangle)]
pub extern "C" fn iox2sd_file_name_check_at(text: &[u8]) -> PlaceAnswer
    ensures { ChecksFileName text.now result }
{
    match FileName::new(text) {
        Ok(_) => position(Status::Done, 0),
        Err(error) => refusal(error, text, Alphabet::FileName, 255),
    }
}

/// Whether a text is the path of a file: 1 to 255 bytes, each from 1 to 127, of which those after
/// the last `/` are the name of a file.
///
/// Refused are, in this order, the empty text (`Empty`), more than 255 bytes (`TooLong`), a byte
/// that is not from 1 to 127 (`IllegalByte`), and a last part that is empty, `.` or `..`
/// (`NoFileName`).
#[unsafe(no_mangle)]
pub extern "C" fn iox2sd_file_path_check_at(text: &[u8]) -> PlaceAnswer
    ensures { ChecksFilePath text.now result }
{
    match FilePath::new(text) {
        Ok(_) => position(Status::Done, 0),
        Err(error) => refusal(error, text, Alphabet::Text, 255),
    }
}

/// Whether a text is a restricted name of a file, as hash texts are: 1 to 64 letters `A` to `Z` and
/// `a` to `z`, digits, `-`, `.`, `:` and `_`, and neither `.` nor `..`. Refused as the name of a
/// file is.
#[unsafe(no_mangle)]
pub extern "C" fn iox2sd_restricted_file_name_check_at(text: &[u8]) -> PlaceAnswer
    ensures { ChecksRestricted text.now result }
{
    match RestrictedFileName::<64>::new(text) {
        Ok(_) => position(Status::Done, 0),
        Err(error) => refusal(error, text, Alphabet::Restricted, 64),
    }
}

/// The name that a user gives, or one of the system's own where `internal` says so.
pub(super) fn any_service_name(text: &[u8], internal: bool) -> Result<ServiceName, Refusal>
    ensures { ReadsAnyName internal text.now result }
{
    let Ok(name) = str::from_utf8(text) else {
        return Err(Refusal::Because(Status::NotUtf8));
    };
    if internal {
        return match ServiceName::internal_new(name) {
            Ok(name) => Ok(name),
            Err(_) => {
                let cause = iox2sd_internal_service_name_check_at(text).status;
                Err(Refusal::OfText(Status::BadServiceName, cause))
            }
        };
    }
    match ServiceName::new(name) {
        Ok(name) => Ok(name),
        Err(_) => {
            let cause = iox2sd_service_name_check_at(text).status;
            Err(Refusal::OfText(Status::BadServiceName, cause))
        }
    }
}

/// The system's own name that ends in the text.
fn prefixed_name(text: &[u8]) -> Result<ServiceName, Refusal>
    ensures { Prefixes text.now result }
{
    let Ok(text) = str::from_utf8(text) else {
        return Err(Refusal::Because(Status::NotUtf8));
    };
    match ServiceName::internal_new_prefixed(text) {
        Ok(name) => Ok(name),
        Err(ServiceNameError::ExceedsMaximumLength) => Err(Refusal::Because(Status::TooLong)),
        Err(ServiceNameError::InvalidContent) => Err(Refusal::Because(Status::IllegalByte)),
    }
}

/// Whether a text begins with `iox2://`, as the names of the system's own services do.
#[unsafe(no_mangle)]
pub extern "C" fn iox2sd_has_iox2_prefix_at(text: &[u8]) -> bool
    ensures { result ≡ starts_with nat_eq text.now (codes "iox2://") }
{
    text.starts_with(INTERNAL_SERVICE_PREFIX.as_bytes())
}

/// Writes the name of one of the system's own services: `iox2://` and the text.
///
/// Refused are, in this order, bytes that are no UTF-8 (`NotUtf8`), more than 248 bytes
/// (`TooLong`), and a byte that is not from 1 to 127 (`IllegalByte`).
#[unsafe(no_mangle)]
pub extern "C" fn iox2sd_internal_service_name_at(text: &[u8], out: &mut [u8]) -> TextAnswer
    ensures { ReportsBy (Prefixes text.now) out.old result out.new }
{
    match prefixed_name(text) {
        Ok(name) => write(name.as_str().as_bytes(), out),
        Err(refusal) => refusal.text(),
    }
}

/// The hash text of a pattern and a name.
pub(super) fn hash_text(kind: PatternKind, name: &ServiceName) -> Result<ServiceHash, Refusal>
    ensures { MakesText kind name.now result }
{
    match ServiceHash::new::<Sha1Hasher>(name, kind) {
        Ok(hash) => Ok(hash),
        Err(ServiceHashError::IllegalText) => Err(Refusal::Because(Status::IllegalHash)),
        Err(ServiceHashError::HasherFailed) => unreachable!(),
    }
}

/// The hash text of a pattern's number and a name, which is read so.
fn hash_of(pattern: u64, name: &[u8], internal: bool) -> Result<ServiceHash, Refusal>
    ensures { Hashes internal pattern name.now result }
{
    let Some(kind) = pattern_of(pattern) else {
        return Err(Refusal::Because(Status::UnknownPattern));
    };
    hash_text(kind, &any_service_name(name, internal)?)
}

/// Writes the hash text, or reports why there is none.
fn write_hash(pattern: u64, name: &[u8], internal: bool, out: &mut [u8]) -> TextAnswer
    ensures { ReportsBy (Hashes internal pattern name.now) out.old result out.new }
{
    match hash_of(pattern, name, internal) {
        Ok(hash) => write(hash.as_str().as_bytes(), out),
        Err(refusal) => refusal.text(),
    }
}

/// Writes the hash text of a service's pattern and name, by SHA-1: 27 bytes.
///
/// Refused are, in this order, a number that is not that of a pattern (`UnknownPattern`), bytes
/// that are no UTF-8 (`NotUtf8`), what `iox2sd_service_name_check` refuses (`BadServiceName`), and
/// a hash text that cannot be the name of a file (`IllegalHash`).
#[unsafe(no_mangle)]
pub extern "C" fn iox2sd_hash_text_at(pattern: u64, name: &[u8], out: &mut [u8]) -> TextAnswer
    ensures { ReportsBy (Hashes false pattern name.now) out.old result out.new }
{
    write_hash(pattern, name, false, out)
}

/// As `iox2sd_hash_text`, for a name that may be one of the system's own.
#[unsafe(no_mangle)]
pub extern "C" fn iox2sd_internal_hash_text_at(
    pattern: u64,
    name: &[u8],
    out: &mut [u8],
) -> TextAnswer
    ensures { ReportsBy (Hashes true pattern name.now) out.old result out.new }
{
    write_hash(pattern, name, true, out)
}
