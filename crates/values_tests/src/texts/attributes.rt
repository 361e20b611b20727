use iox2_texts::attribute::{
    Attribute, AttributeDefinitionError, AttributeKey, AttributeSet, AttributeSpecifier,
    AttributeValue, AttributeVerifier, MAX_ATTRIBUTE_KEY_LENGTH, MAX_ATTRIBUTE_VALUE_LENGTH,
    MAX_ATTRIBUTES,
};
use iox2_texts::bounded::{CallbackProgression, SemanticStringError};
use iox2_texts::laws::{
    attributes_go_by_bytes, keys_have_up_to_64_bytes, semantic_strings_go_by_bytes,
    sets_are_equal_by_pairs, values_have_up_to_256_bytes,
};
use std::cmp::Ordering;
use std::hash::DefaultHasher;
use std::process::Abort;
use test_support::printing::is_printed_as;

fn key(rt: &impl Abort, text: &str) -> AttributeKey {
    AttributeKey::try_from(text).expect(rt, "a key")
}

fn value(rt: &impl Abort, text: &str) -> AttributeValue {
    AttributeValue::try_from(text).expect(rt, "a value")
}

fn set_of(rt: &impl Abort, pairs: &[(&str, &str)]) -> AttributeSet {
    let mut set = AttributeSet::new();
    for (k, v) in pairs {
        set.add(&key(rt, k), &value(rt, v)).expect(rt, "room");
    }
    set
}

#[test]
fn keys_are_refused_in_order(rt: HostRuntime) {
    let mut long = [b'a'; 65];
    long[64] = 200;
    assert_eq!(rt;
        [
            AttributeKey::new(b"").err(),
            AttributeKey::new(&long).err(),
            AttributeKey::new(&[0]).err(),
            keys_have_up_to_64_bytes(&long[..64]).err(),
        ],
        [
            Some(SemanticStringError::InvalidContent),
            Some(SemanticStringError::ExceedsMaximumLength),
            Some(SemanticStringError::InvalidContent),
            None,
        ]
    );
}

#[test]
fn values_are_refused_by_length(rt: HostRuntime) {
    assert_eq!(rt;
        [
            values_have_up_to_256_bytes(&[b'a'; 256]).err(),
            AttributeValue::new(&[b'a'; 257]).err(),
        ],
        [None, Some(SemanticStringError::ExceedsMaximumLength)]
    );
}

#[test]
fn lengths_and_numbers_have_bounds(rt: HostRuntime) {
    assert_eq!(rt;
        [
            MAX_ATTRIBUTE_KEY_LENGTH,
            MAX_ATTRIBUTE_VALUE_LENGTH,
            AttributeSet::capacity(),
            MAX_ATTRIBUTES,
        ],
        [64, 256, 16, 16]
    );
}

#[test]
fn key_is_its_text(rt: HostRuntime) {
    let b = key(&rt, "b");
    assert_eq!(rt; (b.as_bytes(), b.len()), (b"b".as_slice(), 1));
    assert!(rt; is_printed_as(&b, "b"));
    assert!(rt; b.copied() == b);
}

#[test]
fn keys_go_by_bytes(rt: HostRuntime) {
    let mut hasher = DefaultHasher::new();
    assert_eq!(rt;
        semantic_strings_go_by_bytes(&key(&rt, "a"), &key(&rt, "b"), &mut hasher),
        (false, Ordering::Less)
    );
}

#[test]
fn default_pair_is_made_of_dashes(rt: HostRuntime) {
    let pair = Attribute::default();
    assert_eq!(rt; (pair.key().as_str(), pair.value().as_str()), ("-", "-"));
    assert!(rt; pair.copied() == pair);
}

#[test]
fn pairs_go_by_bytes(rt: HostRuntime) {
    let pair = Attribute::new(&key(&rt, "b"), &value(&rt, "1"));
    assert_eq!(rt;
        attributes_go_by_bytes(&pair, &Attribute::default()),
        (false, Ordering::Greater)
    );
}

fn texts(pair: &Attribute) -> (&str, &str) {
    (pair.key().as_str(), pair.value().as_str())
}

/// Two values for one key, and one value for another.
fn defined(rt: &impl Abort) -> AttributeSpecifier {
    let some = key(rt, "some attribute key");
    AttributeSpecifier::new()
        .define(&some, &value(rt, "some attribute value"))
        .expect(rt, "room")
        .define(
            &some,
            &value(rt, "another attribute value for the same key"),
        )
        .expect(rt, "room")
        .define(&key(rt, "another key"), &value(rt, "another value"))
        .expect(rt, "room")
}

#[test]
fn specifier_sorts_its_pairs(rt: HostRuntime) {
    let specifier = defined(&rt);
    let set = specifier.attributes();
    let pairs = set.as_slice();
    assert_eq!(rt; set.number_of_attributes(), 3);
    assert_eq!(rt; pairs.len(), 3);
    assert_eq!(rt;
        [texts(&pairs[0]), texts(&pairs[1]), texts(&pairs[2])],
        [
            ("another key", "another value"),
            (
                "some attribute key",
                "another attribute value for the same key",
            ),
            ("some attribute key", "some attribute value"),
        ]
    );
}

#[test]
fn values_of_a_key_are_counted_from_zero(rt: HostRuntime) {
    let specifier = defined(&rt);
    let some = key(&rt, "some attribute key");
    let set = specifier.attributes();
    assert!(rt; set.key_value(&some, 1) == Some(&value(&rt, "some attribute value")));
    assert!(rt; set.key_value(&some, 2).is_none());
}

#[test]
fn specifier_is_its_set(rt: HostRuntime) {
    let specifier = defined(&rt);
    assert!(rt; specifier.copied().attributes() == specifier.attributes());
    let nothing = AttributeSpecifier::default();
    assert_eq!(rt; nothing.attributes().number_of_attributes(), 0);
}

#[test]
fn set_keeps_sixteen_pairs(rt: HostRuntime) {
    let mut set = set_of(&rt, &[("a", "1"); 16]);
    let full = set.copied();
    let refused = set.add(&key(&rt, "a"), &value(&rt, "1"));
    assert_eq!(rt;
        (refused, set.number_of_attributes()),
        (
            Err(AttributeDefinitionError::ExceedsMaxSupportedAttributes),
            16,
        )
    );
    assert!(rt; set == full);
}

#[test]
fn seventeenth_pair_spends_the_specifier(rt: HostRuntime) {
    let (a, one) = (key(&rt, "a"), value(&rt, "1"));
    let mut specifier = AttributeSpecifier::new();
    for _ in 0..16 {
        specifier = specifier.define(&a, &one).expect(&rt, "room");
    }
    assert_eq!(rt;
        specifier.define(&a, &one).err(),
        Some(AttributeDefinitionError::ExceedsMaxSupportedAttributes)
    );
}

#[test]
fn set_keeps_repeats(rt: HostRuntime) {
    let twice = set_of(&rt, &[("a", "1"), ("a", "1")]);
    let full = set_of(&rt, &[("a", "1"); 16]);
    assert_eq!(rt; twice.number_of_key_values(&key(&rt, "a")), 2);
    assert!(rt; !sets_are_equal_by_pairs(&twice, &full));
}

#[test]
#[tactic(auto, using(iox2_texts::proofs::Callable::callbacks))]
fn visit_ends_with_the_first_stop(rt: HostRuntime) {
    let set = set_of(&rt, &[("a", "3"), ("b", "0"), ("a", "1"), ("a", "2")]);
    let mut seen = AttributeSpecifier::new().attributes().copied();
    let visited = key(&rt, "visited");
    set.iter_key_values(
        &key(&rt, "a"),
        &mut |item: &AttributeValue| {
            // A refusal would show in what was seen.
            let _fits = seen.add(&visited, item);
            if seen.number_of_attributes() == 2 {
                CallbackProgression::Stop
            } else {
                CallbackProgression::Continue
            }
        },
    );
    assert!(rt; seen == set_of(&rt, &[("visited", "1"), ("visited", "2")]));
}

/// The values of a key that a callback is given that never stops.
#[tactic(auto, using(iox2_texts::proofs::Callable::callbacks))]
fn visited(rt: &impl Abort, set: &AttributeSet, of: &str) -> AttributeSet {
    let mut seen = AttributeSet::new();
    let visited = key(rt, "visited");
    set.iter_key_values(
        &key(rt, of),
        &mut |item: &AttributeValue| {
            // A refusal would show in what was seen.
            let _fits = seen.add(&visited, item);
            CallbackProgression::Continue
        },
    );
    seen
}

#[test]
fn visit_that_is_never_stopped_ends(rt: HostRuntime) {
    let set = set_of(&rt, &[("a", "3"), ("b", "0"), ("a", "1"), ("a", "2")]);
    let all = set_of(&rt, &[("visited", "1"), ("visited", "2"), ("visited", "3")]);
    assert!(rt; visited(&rt, &set, "a") == all);
    assert!(rt; visited(&rt, &set, "c") == AttributeSet::new());
}

/// A verifier that requires the pair of "a" and "1" twice, and the key "b".
fn pair_and_key(rt: &impl Abort) -> AttributeVerifier {
    let (a, one) = (key(rt, "a"), value(rt, "1"));
    AttributeVerifier::new()
        .require(&a, &one)
        .expect(rt, "room")
        .require(&a, &one)
        .expect(rt, "room")
        .require_key(&key(rt, "b"))
        .expect(rt, "room")
}

#[test]
fn verifier_takes_what_it_requires(rt: HostRuntime) {
    let verifier = pair_and_key(&rt);
    let answer = verifier.verify_requirements(&set_of(&rt, &[("a", "1"), ("b", "9")]));
    assert_eq!(rt;
        (
            verifier.required_attributes().number_of_attributes(),
            verifier.required_keys().len(),
            answer,
        ),
        (2, 1, Ok(()))
    );
}

fn refuses(rt: &impl Abort, verifier: &AttributeVerifier, set: &AttributeSet, text: &str) {
    let error = verifier
        .verify_requirements(set)
        .expect_err(rt, "a refusal");
    assert!(rt; is_printed_as(&error, text));
    assert!(rt; error.copied() == error);
}

#[test]
fn verifier_names_what_is_missing(rt: HostRuntime) {
    let verifier = pair_and_key(&rt);
    let pair = "AttributeVerificationError::IncompatibleAttribute((\"a\", \"1\"))";
    let missing_key = "AttributeVerificationError::NonExistingKey(\"b\")";
    refuses(&rt, &verifier, &AttributeSet::new(), pair);
    refuses(
        &rt,
        &verifier.copied(),
        &set_of(&rt, &[("a", "1")]),
        missing_key,
    );
}

#[test]
fn verifier_names_the_first_pair_that_is_missing(rt: HostRuntime) {
    let (a, b, one) = (key(&rt, "a"), key(&rt, "b"), value(&rt, "1"));
    let verifier = AttributeVerifier::default()
        .require(&b, &one)
        .expect(&rt, "room")
        .require(&a, &one)
        .expect(&rt, "room");
    let pair = "AttributeVerificationError::IncompatibleAttribute((\"a\", \"1\"))";
    refuses(&rt, &verifier, &AttributeSet::new(), pair);
}

#[test]
fn verifier_names_the_first_key_that_is_missing(rt: HostRuntime) {
    let verifier = AttributeVerifier::new()
        .require_key(&key(&rt, "c"))
        .expect(&rt, "room")
        .require_key(&key(&rt, "b"))
        .expect(&rt, "room");
    refuses(
        &rt,
        &verifier,
        &set_of(&rt, &[("a", "1")]),
        "AttributeVerificationError::NonExistingKey(\"c\")",
    );
}

#[test]
fn verifier_takes_sixteen_requirements(rt: HostRuntime) {
    let (a, one) = (key(&rt, "a"), value(&rt, "1"));
    let mut verifier = AttributeVerifier::new().require_key(&a).expect(&rt, "room");
    for _ in 0..15 {
        verifier = verifier.require(&a, &one).expect(&rt, "room");
    }
    let full = verifier.copied();
    assert_eq!(rt;
        [full.require(&a, &one).err(), verifier.require_key(&a).err()],
        [Some(AttributeDefinitionError::ExceedsMaxSupportedAttributes); 2]
    );
}

#[test]
fn too_many_pairs_print_their_path(rt: HostRuntime) {
    let error = AttributeDefinitionError::ExceedsMaxSupportedAttributes;
    let text = "AttributeDefinitionError::ExceedsMaxSupportedAttributes";
    assert!(rt; is_printed_as(&error, text));
}
