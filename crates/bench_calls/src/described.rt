//! Calls on the description of a service.

use iox2_config::hash::{PatternKind, ServiceHash, Sha1Hasher};
use iox2_config::types::{MessageTypeDetails, TypeDetail, TypeVariant};
use iox2_texts::attribute::{AttributeKey, AttributeSet, AttributeValue, AttributeVerifier};
use iox2_texts::service_name::ServiceName;

/// Sizes and an alignment of the types of a message, which no compiler knows beforehand.
#[derive(Clone, Copy, Debug)]
pub(super) struct Sizes {
    pub(super) header: u32,
    pub(super) element: u32,
    pub(super) alignment: u32,
}

/// Lays out messages of 0, 1, 2 and this many elements, and adds up their sizes.
pub(super) fn layouts(given: Sizes, count: u32) -> u64 {
    let Some(types) = types(given) else {
        return 0;
    };
    if !types.has_alignments() {
        return 0;
    }
    let mut sizes = 0u64;
    for elements in 0..count {
        if let Some(layout) = types.sample_layout(elements as usize) {
            sizes = sizes.wrapping_add(layout.size() as u64);
        }
    }
    sizes
}

/// A header and a number of elements of these sizes, and a user header of 4 bytes.
fn types(given: Sizes) -> Option<MessageTypeDetails> {
    let (header, element) = (given.header as usize, given.element as usize);
    let alignment = given.alignment as usize;
    let fixed = TypeVariant::FixedSize;
    Some(MessageTypeDetails {
        header: TypeDetail::from_parts(fixed, "Header", header, alignment).ok()?,
        user_header: TypeDetail::from_parts(fixed, "Counter", 4, 4).ok()?,
        payload: TypeDetail::from_parts(TypeVariant::Dynamic, "Point", element, alignment).ok()?,
    })
}

/// Verifies 16 attributes this often, of which each second is required with its value and each
/// other by its key, and says how often they were as required.
pub(super) fn verifications(count: u32) -> u64 {
    let Some((attributes, verifier)) = attributes() else {
        return 0;
    };
    let mut met = 0u64;
    for _ in 0..count {
        met = met.wrapping_add(verifier.verify_requirements(&attributes).is_ok() as u64);
    }
    met
}

fn attributes() -> Option<(AttributeSet, AttributeVerifier)> {
    let mut attributes = AttributeSet::new();
    let mut verifier = AttributeVerifier::new();
    for number in 0..16u8 {
        let mut text = *b"camera-parameter-a";
        text[17] = b'a' + number;
        let key = AttributeKey::new(&text).ok()?;
        let value = AttributeValue::new(&text).ok()?;
        attributes.add(&key, &value).ok()?;
        verifier = if number % 2 == 0 {
            verifier.require(&key, &value).ok()?
        } else {
            verifier.require_key(&key).ok()?
        };
    }
    Some((attributes, verifier))
}

/// Makes the hash text of a service this often, and adds up their first bytes.
pub(super) fn hash_texts(count: u32) -> u64 {
    let Ok(name) = ServiceName::new("My/Funk/ServiceName") else {
        return 0;
    };
    let mut digest = 0u64;
    for _ in 0..count {
        let Ok(hash) = ServiceHash::new::<Sha1Hasher>(&name, PatternKind::PublishSubscribe) else {
            continue;
        };
        if let Some(first) = hash.as_str().as_bytes().first() {
            digest = digest.wrapping_add(*first as u64);
        }
    }
    digest
}
