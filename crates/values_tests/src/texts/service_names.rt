use iox2_texts::bounded::StringModificationError;
use iox2_texts::laws::service_names_go_by_bytes;
use iox2_texts::service_name::{
    INTERNAL_SERVICE_PREFIX, MAX_SERVICE_NAME_LENGTH, ServiceName, ServiceNameError,
};
use std::cmp::Ordering;
use std::hash::DefaultHasher;
use std::process::Abort;
use std::str;
use test_support::printing::is_printed_as;

fn name(rt: &impl Abort, text: &str) -> ServiceName {
    ServiceName::new(text).expect(rt, "a name")
}

fn text<'a>(rt: &impl Abort, bytes: &'a [u8]) -> &'a str {
    str::from_utf8(bytes).expect(rt, "a text")
}

#[test]
fn prefix_is_kept_for_the_system(rt: HostRuntime) {
    assert_eq!(rt;
        [
            ServiceName::new("").err(),
            ServiceName::new("iox2://a").err()
        ],
        [Some(ServiceNameError::InvalidContent); 2]
    );
}

#[test]
fn names_of_the_system_have_the_prefix(rt: HostRuntime) {
    let any = ServiceName::try_from("iox2://a").expect(&rt, "a name");
    let internal = ServiceName::internal_new("iox2://a").expect(&rt, "a name");
    let prefixed = ServiceName::internal_new_prefixed("").expect(&rt, "a name");
    assert_eq!(rt;
        [any.as_str(), internal.as_str(), prefixed.as_str()],
        ["iox2://a", "iox2://a", "iox2://"]
    );
}

#[test]
fn prefix_has_seven_bytes(rt: HostRuntime) {
    assert_eq!(rt;
        [
            ServiceName::has_iox2_prefix("iox2://a"),
            ServiceName::has_iox2_prefix("iox2:/"),
        ],
        [true, false]
    );
    assert_eq!(rt; INTERNAL_SERVICE_PREFIX.len(), 7);
}

#[test]
fn length_is_told_before_an_illegal_byte(rt: HostRuntime) {
    let letters = [b'a'; 256];
    let mut accented = [b'a'; 256];
    accented[254] = 0xc3;
    accented[255] = 0xa9;
    let too_long = Some(ServiceNameError::ExceedsMaximumLength);
    assert_eq!(rt;
        [
            ServiceName::new(text(&rt, &letters[..255])).err(),
            ServiceName::new(text(&rt, &letters)).err(),
            ServiceName::new(text(&rt, &accented)).err(),
        ],
        [None, too_long, too_long]
    );
}

#[test]
fn other_bytes_than_ascii_are_refused(rt: HostRuntime) {
    assert_eq!(rt;
        [
            ServiceName::new("é").err(),
            ServiceName::internal_new("a\0").err(),
            ServiceName::new("\u{1}\u{7f}").err(),
        ],
        [
            Some(ServiceNameError::InvalidContent),
            Some(ServiceNameError::InvalidContent),
            None,
        ]
    );
}

#[test]
fn longest_name_prints_whole(rt: HostRuntime) {
    let letters = [b'a'; 255];
    let longest = name(&rt, text(&rt, &letters));
    assert!(rt; is_printed_as(&longest, text(&rt, &letters)));
}

#[test]
fn prefix_counts_for_the_length(rt: HostRuntime) {
    let letters = [b'a'; 249];
    let longest = ServiceName::internal_new_prefixed(text(&rt, &letters[..248]));
    let refused = ServiceName::internal_new_prefixed(text(&rt, &letters));
    assert_eq!(rt; refused.err(), Some(ServiceNameError::ExceedsMaximumLength));
    assert_eq!(rt;
        [
            longest.expect(&rt, "a name").as_str().len(),
            ServiceName::max_len(),
            MAX_SERVICE_NAME_LENGTH,
        ],
        [255; 3]
    );
}

#[test]
fn name_is_its_text(rt: HostRuntime) {
    let name = name(&rt, "a");
    assert_eq!(rt;
        [
            name.equals_str("a"),
            name.equals_str("A"),
            is_printed_as(&name, "a")
        ],
        [true, false, true]
    );
    assert!(rt; name.copied() == name);
}

#[test]
fn names_go_by_bytes(rt: HostRuntime) {
    let mut hasher = DefaultHasher::new();
    assert_eq!(rt;
        service_names_go_by_bytes(&name(&rt, "A"), &name(&rt, "a"), &mut hasher),
        (false, Ordering::Less)
    );
}

#[test]
fn errors_print_their_path(rt: HostRuntime) {
    let content = ServiceNameError::from(StringModificationError::InvalidCharacter);
    let length = ServiceNameError::from(StringModificationError::InsertWouldExceedCapacity);
    assert_eq!(rt;
        [
            is_printed_as(&content, "ServiceNameError::InvalidContent"),
            is_printed_as(&length, "ServiceNameError::ExceedsMaximumLength"),
        ],
        [true; 2]
    );
}
