use iox2_config::types::{
    Difference, Incompatibility, MessageTypeDetails, TypeDetail, TypeDetailError, TypeVariant,
    ZeroCopySend,
};
use iox2_texts::bounded::StringModificationError;
use std::process::Abort;

/// Two values of 64 bits.
struct Pair;

impl ZeroCopySend for Pair {
    ghost use lib.Chars.{codes};
    ghost use Rattle.iox2_config.specs.TypeLayouts.{units};

    ghost type_name = { codes "Pair" };

    ghost SIZE = { 16 };

    ghost ALIGNMENT = { 8 };

    const SIZE: usize = 16;

    const ALIGNMENT: usize = 8;

    fn type_name() -> &'static str {
        "Pair"
    }

    ghost lawful = { units 3 2 };
}

fn details<H: ZeroCopySend, U: ZeroCopySend, P: ZeroCopySend>(
    rt: &impl Abort,
) -> MessageTypeDetails {
    MessageTypeDetails::from::<H, U, P>(TypeVariant::Dynamic).expect(rt, "the names are legal")
}

fn is_described<T: ZeroCopySend>(rt: &impl Abort, name: &str, size: usize, alignment: usize) {
    let detail = TypeDetail::new::<T>(TypeVariant::FixedSize).expect(rt, "the name is legal");
    assert_eq!(rt; [detail.type_name().as_str(), T::type_name()], [name; 2]);
    assert_eq!(rt; [detail.size(), detail.alignment()], [size, alignment]);
}

fn part(rt: &impl Abort, size: usize, alignment: usize) -> TypeDetail {
    TypeDetail::from_parts(TypeVariant::FixedSize, "part", size, alignment).expect(
        rt,
        "the alignment is a power of two",
    )
}

fn room(rt: &impl Abort, details: &MessageTypeDetails, n: usize) -> Option<(usize, usize)> {
    assert!(rt; details.has_alignments());
    let layout = details.sample_layout(n)?;
    Some((layout.size(), layout.align()))
}

fn places(rt: &impl Abort, details: &MessageTypeDetails, header: usize) -> (usize, usize) {
    assert!(rt; details.has_places(header));
    let both = (
        details.user_header_ptr_from_header(header),
        details.payload_ptr_from_header(header),
    );
    let places = details
        .places(header)
        .map(|places| (places.user_header, places.payload));
    assert_eq!(rt; places, Some(both));
    both
}

#[test]
fn numbers_are_types(rt: HostRuntime) {
    is_described::<()>(&rt, "()", 0, 1);
    is_described::<bool>(&rt, "bool", 1, 1);
    is_described::<i8>(&rt, "i8", 1, 1);
    is_described::<i16>(&rt, "i16", 2, 2);
    is_described::<i32>(&rt, "i32", 4, 4);
    is_described::<i64>(&rt, "i64", 8, 8);
    is_described::<u8>(&rt, "u8", 1, 1);
    is_described::<u16>(&rt, "u16", 2, 2);
    is_described::<u32>(&rt, "u32", 4, 4);
    is_described::<u64>(&rt, "u64", 8, 8);
    is_described::<isize>(&rt, "isize", 8, 8);
    is_described::<usize>(&rt, "usize", 8, 8);
    is_described::<Pair>(&rt, "Pair", 16, 8);
}

fn has_parts(rt: &impl Abort, detail: &TypeDetail, variant: TypeVariant, name: &str, size: usize) {
    assert_eq!(rt;
        (
            detail.variant(),
            detail.type_name().as_str(),
            detail.size(),
            detail.alignment()
        ),
        (variant, name, size, size)
    );
}

#[test]
fn details_are_those_of_the_types(rt: HostRuntime) {
    let found = details::<i32, bool, i64>(&rt);
    has_parts(&rt, &found.header, TypeVariant::FixedSize, "i32", 4);
    has_parts(&rt, &found.user_header, TypeVariant::FixedSize, "bool", 1);
    has_parts(&rt, &found.payload, TypeVariant::Dynamic, "i64", 8);
}

#[test]
fn default_details_have_no_places(rt: HostRuntime) {
    let found = details::<i32, bool, i64>(&rt);
    let none_given = MessageTypeDetails::default();
    assert!(rt; found.copied() == found);
    assert!(rt; found != none_given);
    assert_eq!(rt;
        [none_given.has_alignments(), none_given.has_places(0)],
        [false; 2]
    );
}

#[test]
fn parts_are_refused_by_name(rt: HostRuntime) {
    let variant = TypeVariant::default();
    for alignment in [0, 3] {
        let found = TypeDetail::from_parts(variant, "part", 8, alignment);
        assert!(rt; matches!(found, Err(TypeDetailError::AlignmentNotPowerOfTwo)));
    }
    let long = [b'a'; 257];
    let long = str::from_utf8(&long).expect(&rt, "letters");
    let found = TypeDetail::from_parts(variant, long, 8, 3);
    assert!(rt;
        matches!(
            found,
            Err(TypeDetailError::Name(StringModificationError::InsertWouldExceedCapacity))
        )
    );
}

#[test]
fn rooms_are_as_worked_out(rt: HostRuntime) {
    let longs = details::<i64, i64, i64>(&rt);
    for (found, wanted) in [
        (room(&rt, &longs, 0), (32, 8)),
        (room(&rt, &longs, 2), (48, 8)),
        (room(&rt, &details::<i64, i64, bool>(&rt), 3), (32, 8)),
        (room(&rt, &details::<i64, i32, bool>(&rt), 11), (32, 8)),
        (room(&rt, &details::<i64, i64, Pair>(&rt), 2), (64, 8)),
        (room(&rt, &details::<i32, bool, i64>(&rt), 1), (20, 4)),
    ] {
        assert_eq!(rt; found, Some(wanted));
    }
}

#[test]
fn rooms_have_less_than_two_to_the_63_bytes(rt: HostRuntime) {
    let bytes = details::<(), (), u8>(&rt);
    assert_eq!(rt;
        [
            room(&rt, &bytes, (1 << 63) - 1),
            room(&rt, &bytes, 1 << 63),
            room(&rt, &details::<(), (), ()>(&rt), usize::MAX),
            room(&rt, &details::<u64, u64, u64>(&rt), usize::MAX),
        ],
        [Some((9223372036854775807, 1)), None, Some((0, 1)), None]
    );
}

#[test]
fn greatest_alignments_have_rooms(rt: HostRuntime) {
    let mut header = details::<(), (), ()>(&rt);
    header.header = part(&rt, 0, 1 << 63);
    let mut header_and_byte = details::<(), (), u8>(&rt);
    header_and_byte.header = part(&rt, 0, 1 << 63);
    let mut payload = details::<(), (), ()>(&rt);
    payload.payload = part(&rt, 0, 1 << 63);
    assert_eq!(rt;
        [
            room(&rt, &header, 0),
            room(&rt, &header_and_byte, 1),
            room(&rt, &payload, 1),
        ],
        [Some((0, 1 << 63)), None, Some((9223372036854775807, 1))]
    );
}

#[test]
fn greatest_alignment_has_places(rt: HostRuntime) {
    let mut payload = details::<(), (), ()>(&rt);
    payload.payload = part(&rt, 0, 1 << 63);
    assert_eq!(rt; places(&rt, &payload, 1), (1, 9223372036854775808));
    assert!(rt; !payload.has_places((1 << 63) + 1));
}

#[test]
fn places_are_as_worked_out(rt: HostRuntime) {
    let longs = details::<i64, i64, i64>(&rt);
    for (found, wanted) in [
        (places(&rt, &details::<i32, i32, i32>(&rt), 0), (4, 8)),
        (places(&rt, &details::<i32, bool, i64>(&rt), 0), (4, 8)),
        (places(&rt, &details::<i64, i32, i64>(&rt), 0), (8, 16)),
        (places(&rt, &longs, 0), (8, 16)),
        (
            places(&rt, &longs, 18446744073709551592),
            (18446744073709551600, 18446744073709551608),
        ),
    ] {
        assert_eq!(rt; found, wanted);
    }
    assert!(rt; !longs.has_places(18446744073709551600));
}

#[test]
fn compatible_is_what_is_aligned_as_much(rt: HostRuntime) {
    let longs = details::<i64, i64, i64>(&rt);
    let mut wider = longs.copied();
    let aligned = TypeDetail::from_parts(TypeVariant::FixedSize, "i64", 8, 16);
    wider.user_header = aligned.expect(&rt, "a detail");
    let aligned = TypeDetail::from_parts(TypeVariant::Dynamic, "i64", 8, 16);
    wider.payload = aligned.expect(&rt, "a detail");
    let signed = details::<i64, i64, i8>(&rt);
    assert_eq!(rt;
        [
            longs.is_compatible_to(&wider),
            wider.is_compatible_to(&longs),
            signed.is_compatible_to(&details::<i64, i64, u8>(&rt)),
            longs.is_compatible_to(&details::<i64, i64, i32>(&rt)),
        ],
        [true, false, false, false]
    );
}

/// Why an opener with these parts may not use messages whose parts all take 8 bytes, at multiples
/// of 8.
fn why(rt: &impl Abort, parts: [(usize, usize); 3]) -> Option<Incompatibility> {
    let service = MessageTypeDetails {
        header: part(rt, 8, 8),
        user_header: part(rt, 8, 8),
        payload: part(rt, 8, 8),
    };
    let [header, user_header, payload] = parts;
    let opener = MessageTypeDetails {
        header: part(rt, header.0, header.1),
        user_header: part(rt, user_header.0, user_header.1),
        payload: part(rt, payload.0, payload.1),
    };
    opener.first_incompatibility(&service)
}

#[test]
fn the_first_difference_is_returned(rt: HostRuntime) {
    for (parts, wanted) in [
        ([(8, 8), (8, 8), (8, 8)], None),
        ([(8, 8), (8, 4), (8, 1)], None),
        (
            [(8, 4), (8, 16), (16, 8)],
            Some(Incompatibility::Header(Difference::Alignment)),
        ),
        (
            [(16, 4), (8, 16), (16, 8)],
            Some(Incompatibility::Header(Difference::Size)),
        ),
        (
            [(8, 8), (8, 16), (16, 8)],
            Some(Incompatibility::UserHeader(Difference::Alignment)),
        ),
        (
            [(8, 8), (8, 8), (16, 16)],
            Some(Incompatibility::Payload(Difference::Size)),
        ),
    ] {
        assert_eq!(rt; why(&rt, parts), wanted);
    }
}

#[test]
fn names_and_variants_differ_before_sizes(rt: HostRuntime) {
    let longs = details::<i64, i64, i64>(&rt);
    let mut others = longs.copied();
    others.user_header = TypeDetail::default();
    let mut fixed = longs.copied();
    let payload = TypeDetail::from_parts(TypeVariant::FixedSize, "i64", 16, 16);
    fixed.payload = payload.expect(&rt, "a detail");
    assert_eq!(rt;
        [
            others.first_incompatibility(&longs),
            fixed.first_incompatibility(&longs),
        ],
        [
            Some(Incompatibility::UserHeader(Difference::Name)),
            Some(Incompatibility::Payload(Difference::Variant)),
        ]
    );
}
