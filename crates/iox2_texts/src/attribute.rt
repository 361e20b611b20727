//! Attributes of services: pairs of a key and a value,
//! sets of them, and what an opener requires of a set.

mod pair;
mod set;
mod verifier;

pub use pair::{
    Attribute, AttributeContent, AttributeKey, AttributeValue, MAX_ATTRIBUTE_KEY_LENGTH,
    MAX_ATTRIBUTE_VALUE_LENGTH,
};
pub use set::{AttributeDefinitionError, AttributeSet, AttributeSpecifier, MAX_ATTRIBUTES};
pub use verifier::{
    AttributeVerificationError, AttributeVerifier, Requirement, first_missing, first_that_meets,
};
