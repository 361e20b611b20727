use iox2_texts::bounded::{StaticString, StringModificationError, align};
use iox2_texts::laws::texts_go_by_bytes;
use std::cmp::Ordering;
use std::hash::DefaultHasher;
use std::process::Abort;
use test_support::printing::is_printed_as;

#[test]
fn length_is_told_before_an_illegal_byte(rt: HostRuntime) {
    assert_eq!(rt;
        [
            StaticString::<2>::try_from("ab").err(),
            StaticString::<2>::try_from("abé").err(),
            StaticString::<2>::try_from("é").err(),
        ],
        [
            None,
            Some(StringModificationError::InsertWouldExceedCapacity),
            Some(StringModificationError::InvalidCharacter),
        ]
    );
}

fn text(rt: &impl Abort, text: &str) -> StaticString<2> {
    StaticString::try_from(text).expect(rt, "a text")
}

#[test]
fn text_tells_its_bytes(rt: HostRuntime) {
    let text = text(&rt, "ab");
    assert_eq!(rt;
        (text.as_str(), text.as_bytes(), text.len()),
        ("ab", b"ab".as_slice(), 2)
    );
    assert!(rt; is_printed_as(&text, "ab"));
    assert!(rt; text.copied() == text);
}

#[test]
fn default_text_is_empty(rt: HostRuntime) {
    assert_eq!(rt;
        [
            text(&rt, "ab").is_empty(),
            StaticString::<2>::default().is_empty()
        ],
        [false, true]
    );
    assert_eq!(rt; StaticString::<2>::capacity(), 2);
}

#[test]
fn texts_are_ordered_by_bytes(rt: HostRuntime) {
    let less = StaticString::from_bytes(b"a").expect(&rt, "a text");
    let mut hasher = DefaultHasher::new();
    assert_eq!(rt;
        texts_go_by_bytes(&less, &text(&rt, "ab"), &mut hasher),
        (false, Ordering::Less)
    );
}

#[test]
#[tactic(auto, unfolding(iox2_texts::specs::Multiple::least_multiple))]
fn least_multiples(rt: HostRuntime) {
    let most = 9223372036854775808;
    assert_eq!(rt;
        [
            align(0, 8),
            align(5, 8),
            align(8, 8),
            align(7, 3),
            align(1, most)
        ],
        [0, 8, 8, 9, most]
    );
}
