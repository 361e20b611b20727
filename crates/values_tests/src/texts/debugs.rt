//! What `Debug` prints of texts, sets and errors: each variant by name, each field by name and
//! value.
use iox2_texts::attribute::{
    Attribute, AttributeDefinitionError, AttributeKey, AttributeSet, AttributeSpecifier,
    AttributeValue, AttributeVerificationError, AttributeVerifier,
};
use iox2_texts::bounded::{
    CallbackProgression, SemanticStringError, StaticString, StringModificationError,
};
use iox2_texts::paths::{FileName, FilePath, Path, RestrictedFileName};
use iox2_texts::service_name::{ServiceName, ServiceNameError};
use std::process::Abort;
use test_support::printing::{are_shown_as, is_shown_as};

static PROGRESSIONS: [(CallbackProgression, &str); 2] = [
    (CallbackProgression::Continue, "Continue"),
    (CallbackProgression::Stop, "Stop"),
];

static MODIFICATIONS: [(StringModificationError, &str); 2] = [
    (
        StringModificationError::InsertWouldExceedCapacity,
        "InsertWouldExceedCapacity",
    ),
    (
        StringModificationError::InvalidCharacter,
        "InvalidCharacter",
    ),
];

static TEXTS: [(SemanticStringError, &str); 2] = [
    (SemanticStringError::InvalidContent, "InvalidContent"),
    (
        SemanticStringError::ExceedsMaximumLength,
        "ExceedsMaximumLength",
    ),
];

static NAMES: [(ServiceNameError, &str); 2] = [
    (ServiceNameError::InvalidContent, "InvalidContent"),
    (
        ServiceNameError::ExceedsMaximumLength,
        "ExceedsMaximumLength",
    ),
];

static DEFINITIONS: [(AttributeDefinitionError, &str); 1] = [(
    AttributeDefinitionError::ExceedsMaxSupportedAttributes,
    "ExceedsMaxSupportedAttributes",
)];

#[test]
fn answers_and_errors_are_shown_by_name(rt: HostRuntime) {
    assert_eq!(rt;
        [
            are_shown_as(&PROGRESSIONS),
            are_shown_as(&MODIFICATIONS),
            are_shown_as(&TEXTS),
            are_shown_as(&NAMES),
            are_shown_as(&DEFINITIONS),
        ],
        [true; 5]
    );
}

#[test]
fn texts_are_shown_by_their_bytes(rt: HostRuntime) {
    let text = StaticString::<3>::from_bytes(b"abc").expect(&rt, "a text");
    let name = ServiceName::new("a/b").expect(&rt, "a name");
    assert_eq!(rt;
        [
            is_shown_as(&StaticString::<3>::new(), "StaticString { bytes: [] }"),
            is_shown_as(&text, "StaticString { bytes: [97, 98, 99] }"),
            is_shown_as(
                &name,
                "ServiceName { text: StaticString { bytes: [97, 47, 98] } }",
            ),
        ],
        [true; 3]
    );
}

#[test]
fn semantic_strings_are_shown_by_their_text(rt: HostRuntime) {
    let shown = "SemanticString { text: StaticString { bytes: [97, 98] }, .. }";
    assert_eq!(rt;
        [
            is_shown_as(&AttributeKey::new(b"ab").expect(&rt, "a key"), shown),
            is_shown_as(&AttributeValue::new(b"ab").expect(&rt, "a value"), shown),
            is_shown_as(&Path::new(b"ab").expect(&rt, "a path"), shown),
            is_shown_as(&FileName::new(b"ab").expect(&rt, "a name"), shown),
            is_shown_as(&FilePath::new(b"ab").expect(&rt, "a path"), shown),
            is_shown_as(
                &RestrictedFileName::<2>::new(b"ab").expect(&rt, "a name"),
                shown,
            ),
        ],
        [true; 6]
    );
}

fn key(rt: &impl Abort) -> AttributeKey {
    AttributeKey::new(b"k").expect(rt, "a key")
}

fn value(rt: &impl Abort) -> AttributeValue {
    AttributeValue::new(b"v").expect(rt, "a value")
}

#[test]
fn a_pair_is_shown_by_key_and_value(rt: HostRuntime) {
    assert!(rt;
        is_shown_as(
            &Attribute::new(&key(&rt), &value(&rt)),
            "Attribute { key: SemanticString { text: StaticString { bytes: [107] }, .. }, \
            value: SemanticString { text: StaticString { bytes: [118] }, .. } }",
        )
    );
}

#[test]
fn a_set_is_shown_by_its_pairs(rt: HostRuntime) {
    let mut set = AttributeSet::new();
    set.add(&key(&rt), &value(&rt)).expect(&rt, "room");
    assert!(rt;
        is_shown_as(
            &set,
            "AttributeSet { attributes: [Attribute { \
            key: SemanticString { text: StaticString { bytes: [107] }, .. }, \
            value: SemanticString { text: StaticString { bytes: [118] }, .. } }] }",
        )
    );
}

#[test]
fn a_specifier_is_shown_by_its_set(rt: HostRuntime) {
    let specifier = AttributeSpecifier::new();
    let specifier = specifier.define(&key(&rt), &value(&rt)).expect(&rt, "room");
    assert!(rt;
        is_shown_as(
            &specifier,
            "AttributeSpecifier { attributes: AttributeSet { attributes: [Attribute { \
            key: SemanticString { text: StaticString { bytes: [107] }, .. }, \
            value: SemanticString { text: StaticString { bytes: [118] }, .. } }] } }",
        )
    );
}

#[test]
fn a_verifier_is_shown_by_pairs_and_keys(rt: HostRuntime) {
    let asked = AttributeKey::new(b"l").expect(&rt, "a key");
    let verifier = AttributeVerifier::new();
    let verifier = verifier.require_key(&asked).expect(&rt, "room");
    let verifier = verifier.require(&key(&rt), &value(&rt)).expect(&rt, "room");
    assert!(rt;
        is_shown_as(
            &verifier,
            "AttributeVerifier { attributes: AttributeSet { attributes: [Attribute { \
            key: SemanticString { text: StaticString { bytes: [107] }, .. }, \
            value: SemanticString { text: StaticString { bytes: [118] }, .. } }] }, \
            keys: [SemanticString { text: StaticString { bytes: [108] }, .. }] }",
        )
    );
}

#[test]
fn faults_of_a_set_are_shown_with_key_and_value(rt: HostRuntime) {
    let lacks = AttributeVerificationError::NonExistingKey(key(&rt));
    let other = AttributeVerificationError::IncompatibleAttribute((key(&rt), value(&rt)));
    assert_eq!(rt;
        [
            is_shown_as(
                &lacks,
                "NonExistingKey(SemanticString { text: StaticString { bytes: [107] }, .. })",
            ),
            is_shown_as(
                &other,
                "IncompatibleAttribute((\
                SemanticString { text: StaticString { bytes: [107] }, .. }, \
                SemanticString { text: StaticString { bytes: [118] }, .. }))",
            ),
        ],
        [true; 2]
    );
}
