//! What is printed at every length, and of the longest faults.

use iox2_texts::attribute::{AttributeKey, AttributeValue, AttributeVerificationError};
use iox2_texts::bounded::StaticString;
use iox2_texts::paths::{FileName, FilePath, Path, RestrictedFileName};
use iox2_texts::service_name::ServiceName;
use std::fmt::{Debug, Display};
use std::process::Abort;
use test_support::printing::is_printed_as;

const LONGEST: [u8; 256] = [b'a'; 256];

/// A value that is made of up to `most` bytes is printed as these, and `Debug` prints some text of
/// it.
fn is_printed_up_to<T: Display + Debug + Drop>(
    rt: &(impl Abort + AllocGlobal),
    most: usize,
    bytes: &[u8],
    made: Option<T>,
) {
    assert_eq!(rt; made.is_some(), bytes.len() <= most);
    if let Some(value) = made {
        let text = str::from_utf8(bytes).expect(rt, "a text");
        assert!(rt; is_printed_as(&value, text));
        assert!(rt; format!(in rt.alloc(); "{value:?}").is_ok());
    }
}

#[test]
fn texts_are_printed_at_every_length(rt: HostRuntime) {
    for length in 1..=LONGEST.len() {
        let bytes = &LONGEST[..length];
        is_printed_up_to(&rt, 7, bytes, StaticString::<7>::from_bytes(bytes).ok());
        is_printed_up_to(&rt, 256, bytes, StaticString::<256>::from_bytes(bytes).ok());
        is_printed_up_to(&rt, 64, bytes, AttributeKey::new(bytes).ok());
        is_printed_up_to(&rt, 256, bytes, AttributeValue::new(bytes).ok());
    }
}

#[test]
fn paths_are_printed_at_every_length(rt: HostRuntime) {
    for length in 1..=LONGEST.len() {
        let bytes = &LONGEST[..length];
        is_printed_up_to(&rt, 255, bytes, Path::new(bytes).ok());
        is_printed_up_to(&rt, 255, bytes, FileName::new(bytes).ok());
        is_printed_up_to(&rt, 255, bytes, FilePath::new(bytes).ok());
        is_printed_up_to(&rt, 9, bytes, RestrictedFileName::<9>::new(bytes).ok());
    }
}

#[test]
fn names_of_services_are_printed_at_every_length(rt: HostRuntime) {
    for length in 1..=LONGEST.len() {
        let bytes = &LONGEST[..length];
        let text = str::from_utf8(bytes).expect(&rt, "a text");
        is_printed_up_to(&rt, 255, bytes, ServiceName::new(text).ok());
    }
}

/// The fault of a missing key is printed with the key.
fn missing_is_printed(rt: &(impl Abort + AllocGlobal), key: AttributeKey) {
    let text = format!(in rt.alloc(); "AttributeVerificationError::NonExistingKey(\"{key}\")");
    let missing = AttributeVerificationError::NonExistingKey(key);
    assert!(rt; is_printed_as(&missing, text.expect(rt, "memory").as_str()));
}

/// The fault of a missing pair is printed with the pair.
fn incompatible_is_printed(
    rt: &(impl Abort + AllocGlobal),
    key: AttributeKey,
    value: AttributeValue,
) {
    let text = format!(in rt.alloc();
        "AttributeVerificationError::IncompatibleAttribute((\"{key}\", \"{value}\"))"
    );
    let other = AttributeVerificationError::IncompatibleAttribute((key, value));
    assert!(rt; is_printed_as(&other, text.expect(rt, "memory").as_str()));
}

#[test]
fn faults_are_printed_at_every_length(rt: HostRuntime) {
    for length in 1..=LONGEST.len() {
        let key = AttributeKey::new(&LONGEST[..length.min(64)]).expect(&rt, "a key");
        let value = AttributeValue::new(&LONGEST[..length]).expect(&rt, "a value");
        missing_is_printed(&rt, key.copied());
        incompatible_is_printed(&rt, key, value);
    }
}
