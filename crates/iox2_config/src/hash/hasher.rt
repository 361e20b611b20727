//! What a hasher is, the text that it returns, and the hasher that uses SHA-1.
ghost use Rattle.std.specs.Prelude.{◌≡◌, ◌≤◌, ◌↔◌, ℕ, List, length, IfOk, IfSome, IsSome, OnErr};
ghost use Rattle.base64.specs.Engines.{url_safe_no_pad};
ghost use Rattle.base64.specs.GeneralPurpose.{encode_of};
ghost use Rattle.iox2_texts.specs.Name.{MakesLegal};
ghost use Rattle.iox2_texts.specs.Path.{IsRestrictedName};

use super::service_hash::SERVICE_HASH_CAPACITY;
use arrayvec::ArrayVec;
use base64::engine::general_purpose::URL_SAFE_NO_PAD;
use iox2_texts::bounded::SemanticStringError;
use iox2_texts::paths::RestrictedFileName;
use sha1::Sha1;
use std::marker::Model;

/// The text of a hash: at most 128 bytes.
#[derive(Debug, Drop)]
pub struct HashValue {
    bytes: ArrayVec<u8, 128>,
    // Whether the bytes are known to be the name of a file.
    names_a_file: bool,
}

impl Model for HashValue {
    ghost use Rattle.std.specs.Prelude.{List, ℕ, IsTrue, length, ◌≤◌};
    ghost use Rattle.iox2_texts.specs.Path.{IsRestrictedName};

    ghost Value = { List ℕ };

    ghost view = { λ value. value.bytes.items };

    ghost invariant = { λ value. (length value.bytes.items ≤ 128)
        × (IsTrue value.names_a_file → IsRestrictedName 64 value.bytes.items) };
}

impl HashValue {
    /// The text of these bytes, or `None` exactly where they are more than 128.
    pub fn new(bytes: &[u8]) -> Option<HashValue>
        ensures fits { IsSome result ↔ (length bytes.now ≤ 128) }
        ensures value { IfSome result (λ value. value ≡ bytes.now) }
    {
        let mut text = ArrayVec::new();
        match text.try_extend_from_slice(bytes) {
            Ok(()) => Some(HashValue {
                bytes: text,
                names_a_file: false,
            }),
            Err(_) => None,
        }
    }

    /// The text of bytes that are known to be the name of a file: nothing looks at them again.
    pub fn of_file_name(bytes: &[u8]) -> HashValue
        requires { IsRestrictedName 64 bytes.now }
        ensures { result ≡ bytes.now }
    {
        let mut text = ArrayVec::new();
        // Never refused: the name has at most 64 bytes.
        let _fits = text.try_extend_from_slice(bytes);
        HashValue {
            bytes: text,
            names_a_file: true,
        }
    }

    /// The bytes of the text. They are as the hasher gave
    /// them: nothing checks that they are of an alphabet.
    pub fn as_base64url(&self) -> &[u8]
        ensures value { result.now ≡ self.now }
        ensures bound { length result.now ≤ 128 }
    {
        self.bytes.as_slice()
    }

    /// The name of a file that the text is, as `RestrictedFileName::new` makes it.
    pub(super) fn file_name(
        &self,
    ) -> Result<RestrictedFileName<SERVICE_HASH_CAPACITY>, SemanticStringError>
        ensures { MakesLegal (IsRestrictedName 64) 64 self.now result }
    {
        let bytes = self.bytes.as_slice();
        if self.names_a_file {
            return Ok(RestrictedFileName::from_legal(bytes));
        }
        RestrictedFileName::new(bytes)
    }
}

/// Why there is no hash.
#[derive(Clone, Copy, Debug, PartialEq, Eq)]
pub enum HashError {
    /// The hasher refused its input.
    HasherFailed,
}

/// A hasher of bytes.
///
/// What it means, and which inputs it may refuse, depend on the input alone: two hashers of one
/// type that were made of one input return the same text, or an error.
///
/// From `crates/values_tests/src/config/hash.rt`:
///
/// ```
/// impl Hash for Dot {
///     ghost use Rattle.std.specs.Prelude.{[], ◌∷◌};
///
///     ghost meaning = { λ input. 46 ∷ [] };
///
///     ghost may_refuse = { λ input. ⊥ };
///
///     ghost takes = { λ hasher input. Unit {0} };
///
///     fn new(_bytes: &[u8]) -> Self {
///         Dot
///     }
///
///     fn value(&self) -> Result<HashValue, HashError> {
///         match HashValue::new(b".") {
///             Some(value) => Ok(value),
///             None => unreachable!(),
///         }
///     }
/// }
/// ```
pub trait Hash: Drop {
    /// The text that the hasher means by an input.
    ghost meaning: { List ℕ → List ℕ };

    /// The inputs that the hasher may refuse.
    ghost may_refuse: { List ℕ → Type 0 };

    /// That a hasher was made of an input.
    ghost takes: { Self → List ℕ → Type 0 };

    /// A hasher of these bytes.
    fn new(bytes: &[u8]) -> Self
        ensures { takes result bytes.now };

    /// The text of the input, or an error, which occurs only for inputs that may be refused.
    fn value(&self) -> Result<HashValue, HashError>
        ensures ok { (input : List ℕ) → takes self.now input
            → IfOk result (λ text. text ≡ meaning input) }
        ensures err { (input : List ℕ) → takes self.now input → OnErr result (may_refuse input) };
}

/// The text of a digest. It is the name of a file, whatever the digest.
fn text_of(digest: [u8; 20]) -> HashValue
    ensures { result ≡ encode_of url_safe_no_pad digest }
{
    let mut text = [0u8; 27];
    // Always 27, the length of the text.
    let _length = URL_SAFE_NO_PAD.encode_slice(&digest, &mut text);
    HashValue::of_file_name(&text)
}

/// A hasher whose texts are the SHA-1 digest (FIPS 180-4, section 6.1) of the input in the URL-safe
/// alphabet (RFC 4648, section 5) without padding: 27 bytes. It refuses no input.
#[derive(Debug, Drop)]
pub struct Sha1Hasher {
    digest: [u8; 20],
}

impl Model for Sha1Hasher {
    ghost use Rattle.std.specs.Prelude.{List, ℕ};

    ghost Value = { List ℕ };

    ghost view = { λ hasher. hasher.digest };
}

impl Hash for Sha1Hasher {
    ghost use Rattle.sha1.specs.Sha1.{sha1};
    ghost use Rattle.iox2_config.specs.Hashing.{sha1_text};

    ghost meaning = { sha1_text };

    ghost may_refuse = { λ input. ⊥ };

    ghost takes = { λ hasher input. hasher ≡ sha1 input };

    fn new(bytes: &[u8]) -> Self {
        Sha1Hasher {
            digest: Sha1::digest(bytes),
        }
    }

    fn value(&self) -> Result<HashValue, HashError> {
        Ok(text_of(self.digest))
    }
}
