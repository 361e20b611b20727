//! The hash text of a service.
ghost use Rattle.std.specs.Prelude.{◌≡◌};
ghost use Rattle.iox2_texts.specs.Path.{IsRestrictedName};

use super::hasher::Hash;
use super::input::{PatternKind, hash_input};
use iox2_texts::paths::RestrictedFileName;
use iox2_texts::service_name::ServiceName;
use std::marker::Model;

/// The greatest number of bytes of a hash text.
pub const SERVICE_HASH_CAPACITY: usize = 64;

/// Why a service has no hash text.
#[derive(Clone, Copy, Debug, PartialEq, Eq)]
pub enum ServiceHashError {
    /// The hasher refused the service's pattern and name.
    HasherFailed,
    /// The hasher's text cannot be the name of a file: it is empty, has more than 64 bytes, has
    /// another character than letters, digits, `-`, `.`, `:` and `_`, or is `.` or `..`.
    IllegalText,
}

/// The hash text of a service, under which its files are found: the name of a file, of at most 64
/// bytes. Comparisons and hashes go by its bytes.
///
/// From `crates/values_tests/src/config/hash.rt`:
///
/// ```
/// let event = ServiceHash::new::<Sha1Hasher>(&name, PatternKind::Event).expect(&rt, "a hash");
/// assert_eq!(rt; event.as_str().len(), 27);
/// ```
#[derive(Debug, Drop, PartialEq, Eq, PartialOrd, Ord, Hash)]
pub struct ServiceHash {
    text: RestrictedFileName<SERVICE_HASH_CAPACITY>,
}

impl Model for ServiceHash {
    ghost use Rattle.std.specs.Prelude.{List, ℕ};

    ghost Value = { List ℕ };

    ghost view = { λ hash. hash.text };

    ghost inverse = { λ bytes. record { text = bytes } };
}

impl ServiceHash {
    ghost use Rattle.iox2_config.specs.Hashing.{hash_input, MakesHash};

    /// The text that hashers of the type `H` mean by the service's pattern and name.
    ///
    /// It is first reported that the hasher failed, which happens only where it may refuse this
    /// input; then that the text is not legal.
    pub fn new<H: Hash>(name: &ServiceName, kind: PatternKind) -> Result<Self, ServiceHashError>
        ensures { MakesHash H.meaning H.may_refuse (hash_input kind name.now) result }
    {
        let input = hash_input(kind, name);
        let hasher = H::new(input.as_bytes());
        let value = match hasher.value() {
            Ok(value) => value,
            Err(_) => return Err(ServiceHashError::HasherFailed),
        };
        match value.file_name() {
            Ok(text) => Ok(ServiceHash { text }),
            Err(_) => Err(ServiceHashError::IllegalText),
        }
    }

    /// The greatest number of bytes, 64.
    pub fn max_number_of_characters() -> usize
        ensures { result ≡ 64 }
    {
        SERVICE_HASH_CAPACITY
    }

    /// The text.
    pub fn as_str(&self) -> &str
        ensures value { result.now ≡ self.now }
        ensures legal { IsRestrictedName 64 result.now }
    {
        self.text.as_str()
    }

    /// An equal hash.
    pub fn copied(&self) -> Self
        ensures { result ≡ self.now }
    {
        ServiceHash {
            text: self.text.copied(),
        }
    }
}
