use iox2_texts::bounded::{Content, SemanticString, SemanticStringError};
use iox2_texts::laws::{
    file_names_have_up_to_255_bytes, file_paths_have_up_to_255_bytes, paths_have_up_to_255_bytes,
    restricted_names_have_up_to_n_bytes, semantic_strings_go_by_bytes,
};
use iox2_texts::paths::{FileName, FilePath, Path, RestrictedFileName};
use std::cmp::Ordering;
use std::hash::DefaultHasher;
use std::process::Abort;
use test_support::printing::is_printed_as;

const ILLEGAL: Option<SemanticStringError> = Some(SemanticStringError::InvalidContent);

const TOO_LONG: Option<SemanticStringError> = Some(SemanticStringError::ExceedsMaximumLength);

fn path(rt: &impl Abort, bytes: &[u8]) -> Path {
    Path::new(bytes).expect(rt, "a path")
}

fn name(rt: &impl Abort, bytes: &[u8]) -> FileName {
    FileName::new(bytes).expect(rt, "a name")
}

fn joined(rt: &impl Abort, front: &[u8], entry: &[u8]) -> Path {
    let mut whole = path(rt, front);
    whole.add_path_entry(&path(rt, entry)).expect(rt, "room");
    whole
}

#[test]
fn entries_are_joined(rt: HostRuntime) {
    assert_eq!(rt;
        [
            joined(&rt, b"", b"a").as_str(),
            joined(&rt, b"a/", b"b").as_str(),
            joined(&rt, b"a", b"").as_str(),
        ],
        ["a", "a/b", "a/"]
    );
}

#[test]
fn empty_entry_ends_a_path_with_a_separator(rt: HostRuntime) {
    let whole = joined(&rt, &[b'a'; 254], b"");
    let bytes = whole.as_bytes();
    assert_eq!(rt; (bytes.len(), bytes.ends_with(b"/")), (255, true));
}

#[test]
fn full_path_is_left_as_it_was(rt: HostRuntime) {
    let letters = [b'a'; 255];
    let mut full = path(&rt, &letters);
    let refused = full.add_path_entry(&path(&rt, b"")).err();
    assert_eq!(rt; (refused, full.as_bytes()), (TOO_LONG, letters.as_slice()));
}

#[test]
fn file_in_the_empty_path_is_its_name(rt: HostRuntime) {
    let file = FilePath::from_path_and_file(&path(&rt, b""), &name(&rt, b"a"));
    assert_eq!(rt; file.expect(&rt, "a path").as_str(), "a");
}

#[test]
fn longest_names_and_paths_have_255_bytes(rt: HostRuntime) {
    let letters = [b'a'; 256];
    for (length, refusal) in [(255, None), (256, TOO_LONG)] {
        let bytes = &letters[..length];
        assert_eq!(rt;
            [
                paths_have_up_to_255_bytes(bytes).err(),
                file_names_have_up_to_255_bytes(bytes).err(),
                file_paths_have_up_to_255_bytes(bytes).err(),
                restricted_names_have_up_to_n_bytes::<255>(bytes).err(),
            ],
            [refusal; 4]
        );
    }
}

#[test]
fn longest_path_prints_whole(rt: HostRuntime) {
    let longest = path(&rt, &[b'a'; 255]);
    assert!(rt; is_printed_as(&longest, longest.as_str()));
}

#[test]
fn makers_refuse_in_order(rt: HostRuntime) {
    let mut long = [b'a'; 256];
    long[255] = 0;
    assert_eq!(rt;
        [Path::new(&long).err(), Path::new(&[128]).err()],
        [TOO_LONG, ILLEGAL]
    );
    for (bytes, refusal) in [
        (b"".as_slice(), ILLEGAL),
        (&long, TOO_LONG),
        (b"a\0", ILLEGAL),
        (b".", ILLEGAL),
        (b"..", ILLEGAL),
        (b"a/", ILLEGAL),
        (b"...", None),
    ] {
        assert_eq!(rt;
            [
                FileName::new(bytes).err(),
                FilePath::new(bytes).err(),
                RestrictedFileName::<255>::new(bytes).err(),
            ],
            [refusal; 3]
        );
    }
}

#[test]
fn separators_and_spaces_are_refused_by_some(rt: HostRuntime) {
    assert_eq!(rt;
        [
            FilePath::new(b"a/..").err(),
            FilePath::new(b"a/b").err(),
            FileName::new(b"a b").err(),
            RestrictedFileName::<4>::new(b"a b").err(),
            RestrictedFileName::<4>::new(b"-:_9").err(),
            RestrictedFileName::<4>::new(b"a.b.c").err(),
        ],
        [ILLEGAL, None, None, ILLEGAL, None, TOO_LONG]
    );
}

/// All that a semantic string answers of itself.
fn tells<C: Content, const N: usize>(
    rt: &(impl Abort + AllocGlobal),
    found: &SemanticString<C, N>,
    text: &str,
) {
    assert_eq!(rt;
        (found.as_str(), found.as_bytes(), found.len()),
        (text, text.as_bytes(), text.len())
    );
    assert!(rt; is_printed_as(found, text));
    let mut hasher = DefaultHasher::new();
    let agreement = semantic_strings_go_by_bytes(found, &found.copied(), &mut hasher);
    assert!(rt; agreement == (true, Ordering::Equal));
}

#[test]
fn paths_and_names_tell_their_texts(rt: HostRuntime) {
    tells(&rt, &path(&rt, b"a"), "a");
    tells(&rt, &name(&rt, b"b"), "b");
    let restricted = RestrictedFileName::<4>::new(b"c");
    tells(&rt, &restricted.expect(&rt, "a name"), "c");
}

#[test]
fn paths_of_files_tell_their_texts(rt: HostRuntime) {
    let joined = FilePath::from_path_and_file(&path(&rt, b"a"), &name(&rt, b"b"));
    tells(&rt, &joined.expect(&rt, "a path"), "a/b");
    tells(&rt, &FilePath::try_from("a/c").expect(&rt, "a path"), "a/c");
}
