//! Values that are printed whole, and into a writer that fails.

use iox2_texts::attribute::{
    Attribute, AttributeDefinitionError, AttributeKey, AttributeSet, AttributeSpecifier,
    AttributeValue, AttributeVerificationError, AttributeVerifier,
};
use iox2_texts::bounded::{
    CallbackProgression, SemanticStringError, StaticString, StringModificationError,
};
use iox2_texts::paths::{FileName, FilePath, Path};
use iox2_texts::service_name::{ServiceName, ServiceNameError};
use std::process::Abort;
use test_support::printing::{is_printed_and_shown, is_shown};

#[test]
fn texts_fail_with_their_writer(rt: HostRuntime) {
    let text = StaticString::<2>::try_from("ab").expect(&rt, "a text");
    let name = ServiceName::new("a").expect(&rt, "a name");
    let key = AttributeKey::new(b"a").expect(&rt, "a key");
    let value = AttributeValue::new(b"1").expect(&rt, "a value");
    let path = Path::new(b"a/b").expect(&rt, "a path");
    let file = FileName::new(b"b").expect(&rt, "a name");
    let both = FilePath::new(b"a/b").expect(&rt, "a path");
    assert_eq!(rt;
        [
            is_printed_and_shown(&text),
            is_printed_and_shown(&name),
            is_printed_and_shown(&key),
            is_printed_and_shown(&value),
            is_printed_and_shown(&path),
            is_printed_and_shown(&file),
            is_printed_and_shown(&both),
        ],
        [true; 7]
    );
}

#[test]
fn errors_fail_with_their_writer(rt: HostRuntime) {
    let key = AttributeKey::new(&[b'k'; 64]).expect(&rt, "a key");
    let value = AttributeValue::new(&[b'v'; 256]).expect(&rt, "a value");
    let content = ServiceNameError::InvalidContent;
    let length = ServiceNameError::ExceedsMaximumLength;
    let many = AttributeDefinitionError::ExceedsMaxSupportedAttributes;
    let missing = AttributeVerificationError::NonExistingKey(key.copied());
    let other = AttributeVerificationError::IncompatibleAttribute((key, value));
    assert_eq!(rt;
        [
            is_printed_and_shown(&content),
            is_printed_and_shown(&length),
            is_printed_and_shown(&many),
            is_printed_and_shown(&missing),
            is_printed_and_shown(&other),
            is_shown(&SemanticStringError::InvalidContent),
            is_shown(&StringModificationError::InvalidCharacter),
            is_shown(&CallbackProgression::Stop),
        ],
        [true; 8]
    );
}

fn pair(rt: &impl Abort) -> (AttributeKey, AttributeValue) {
    (
        AttributeKey::new(b"a").expect(rt, "a key"),
        AttributeValue::new(b"1").expect(rt, "a value"),
    )
}

#[test]
fn sets_of_attributes_fail_with_their_writer(rt: HostRuntime) {
    let (key, value) = pair(&rt);
    let mut set = AttributeSet::new();
    set.add(&key, &value).expect(&rt, "room");
    let specifier = AttributeSpecifier::new()
        .define(&key, &value)
        .expect(&rt, "room");
    let verifier = AttributeVerifier::new()
        .require(&key, &value)
        .expect(&rt, "room")
        .require_key(&key)
        .expect(&rt, "room");
    let shown = set.as_slice().iter().all(|pair: &Attribute| is_shown(pair));
    assert_eq!(rt;
        [
            shown,
            is_shown(&set),
            is_shown(&specifier),
            is_shown(&verifier)
        ],
        [true; 4]
    );
}
