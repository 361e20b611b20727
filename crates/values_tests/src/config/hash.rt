use base64::engine::general_purpose::STANDARD;
use iox2_config::hash::{
    Hash, HashError, HashValue, PatternKind, ServiceHash, ServiceHashError, Sha1Hasher, hash_input,
};
use iox2_texts::service_name::ServiceName;
use sha1::Sha1;

/// A hasher that means `N` letters by every input.
#[derive(Drop)]
struct Letters<const N: usize>;

impl<const N: usize> Hash for Letters<N> {
    ghost use Rattle.std.specs.Prelude.{◌<◌, replicate};

    ghost meaning = { λ input. replicate N 97 };

    ghost may_refuse = { λ input. 128 < N };

    ghost takes = { λ hasher input. Unit {0} };

    fn new(_bytes: &[u8]) -> Self {
        Letters
    }

    fn value(&self) -> Result<HashValue, HashError> {
        if N > 128 {
            return Err(HashError::HasherFailed);
        }
        HashValue::new(&[b'a'; N]).ok_or(HashError::HasherFailed)
    }
}

/// A hasher that means a single dot by every input.
#[derive(Drop)]
struct Dot;

impl Hash for Dot {
    ghost use Rattle.std.specs.Prelude.{[], ◌∷◌};

    ghost meaning = { λ input. 46 ∷ [] };

    ghost may_refuse = { λ input. ⊥ };

    ghost takes = { λ hasher input. Unit {0} };

    fn new(_bytes: &[u8]) -> Self {
        Dot
    }

    fn value(&self) -> Result<HashValue, HashError> {
        match HashValue::new(b".") {
            Some(value) => Ok(value),
            None => unreachable!(),
        }
    }
}

/// A hasher that refuses every input.
#[derive(Drop)]
struct Refusing;

impl Hash for Refusing {
    ghost use Rattle.std.specs.Prelude.{[]};

    ghost meaning = { λ input. [] };

    ghost may_refuse = { λ input. Unit {0} };

    ghost takes = { λ hasher input. Unit {0} };

    fn new(_bytes: &[u8]) -> Self {
        Refusing
    }

    fn value(&self) -> Result<HashValue, HashError> {
        Err(HashError::HasherFailed)
    }
}

#[test]
fn sha1_meets_its_vectors(rt: HostRuntime) {
    let digest = Sha1::digest(b"abc");
    assert!(rt;
        digest
            == [
                0xa9, 0x99, 0x3e, 0x36, 0x47, 0x06, 0x81, 0x6a, 0xba, 0x3e, 0x25, 0x71, 0x78, 0x50,
                0xc2, 0x6c, 0x9c, 0xd0, 0xd8, 0x9d,
            ]
    );
    let mut padded = [0u8; 28];
    assert!(rt; STANDARD.encode_slice(&digest, &mut padded) == Ok(28));
    assert!(rt; padded == *b"qZk+NkcGgWq6PiVxeFDCbJzQ2J0=");
    let value = <Sha1Hasher as Hash>::new(b"abc")
        .value()
        .expect(&rt, "a hash");
    assert!(rt; value.as_base64url() == b"qZk-NkcGgWq6PiVxeFDCbJzQ2J0".as_slice());
}

#[test]
fn patterns_have_numbers_and_words(rt: HostRuntime) {
    let numbered = [0, 3, 4].map(|number| PatternKind::of_number(number));
    let first_and_last = [
        Some(PatternKind::PublishSubscribe),
        Some(PatternKind::Blackboard),
        None,
    ];
    assert_eq!(rt; numbered, first_and_last);
    let words = PatternKind::ALL.map(|kind| kind.word());
    assert_eq!(rt;
        words,
        [
            "publish-subscribe",
            "event",
            "request-response",
            "blackboard"
        ]
    );
}

#[test]
fn pattern_and_name_are_hashed(rt: HostRuntime) {
    let name = ServiceName::new("My/Funk/ServiceName").expect(&rt, "a name");
    for (kind, wanted) in [
        (PatternKind::PublishSubscribe, "0My/Funk/ServiceName"),
        (PatternKind::Event, "1My/Funk/ServiceName"),
        (PatternKind::RequestResponse, "2My/Funk/ServiceName"),
        (PatternKind::Blackboard, "3My/Funk/ServiceName"),
    ] {
        assert_eq!(rt; hash_input(kind, &name).as_str(), wanted);
    }
}

#[test]
fn hash_of_a_service_has_27_letters(rt: HostRuntime) {
    let name = ServiceName::new("My/Funk/ServiceName").expect(&rt, "a name");
    let event = ServiceHash::new::<Sha1Hasher>(&name, PatternKind::Event).expect(&rt, "a hash");
    assert_eq!(rt; event.as_str().len(), 27);
    assert!(rt; event.copied() == event);
}

/// The values are those of another implementation of SHA-1 and of RFC 4648 section 5.
#[test]
fn services_that_differ_have_other_hash_texts(rt: HostRuntime) {
    for (kind, name, wanted) in [
        (
            PatternKind::PublishSubscribe,
            "a",
            "Z3mvvD6ZPFR8oIAKl1Tzem6A4O0",
        ),
        (PatternKind::Event, "a", "mywygMzqC6QIJwxFGFv7zTYWQjc"),
        (
            PatternKind::RequestResponse,
            "a",
            "s2GhNwmUEbEtiNUx9btoJocbKMc",
        ),
        (PatternKind::Blackboard, "a", "DRYJSGGCd2yYeqANMtUVaEW_nts"),
        (PatternKind::Event, "b", "LZGiCiD8rrCuYLUYm4EL34SBsdc"),
    ] {
        let name = ServiceName::new(name).expect(&rt, "a name");
        let hash = ServiceHash::new::<Sha1Hasher>(&name, kind).expect(&rt, "a hash");
        assert_eq!(rt; hash.as_str(), wanted);
    }
}

#[test]
fn any_hasher_serves(rt: HostRuntime) {
    let name = ServiceName::new("a").expect(&rt, "a name");
    let kind = PatternKind::Blackboard;
    let longest = ServiceHash::new::<Letters<64>>(&name, kind).expect(&rt, "a hash");
    assert_eq!(rt;
        longest.as_str().len(),
        ServiceHash::max_number_of_characters()
    );
}

#[test]
fn hashers_that_refuse_or_mean_an_illegal_text_are_told(rt: HostRuntime) {
    let name = ServiceName::new("a").expect(&rt, "a name");
    let kind = PatternKind::Blackboard;
    assert_eq!(rt;
        [
            ServiceHash::new::<Letters<65>>(&name, kind).err(),
            ServiceHash::new::<Letters<0>>(&name, kind).err(),
            ServiceHash::new::<Dot>(&name, kind).err(),
            ServiceHash::new::<Refusing>(&name, kind).err(),
        ],
        [
            Some(ServiceHashError::IllegalText),
            Some(ServiceHashError::IllegalText),
            Some(ServiceHashError::IllegalText),
            Some(ServiceHashError::HasherFailed),
        ]
    );
}

#[test]
fn hash_values_are_bounded(rt: HostRuntime) {
    assert!(rt; HashValue::new(&[b'a'; 128]).is_some());
    assert!(rt; HashValue::new(&[b'a'; 129]).is_none());
}
