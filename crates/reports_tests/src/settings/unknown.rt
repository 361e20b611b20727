use iox2_config_file::{Section, read_config};
use std::process::Abort;
use std::test::Fail;

/// A file, with the first of its unknown keys and what is proposed for it.
const UNKNOWN: [(&str, &str, Option<&'static str>); 9] = [
    (
        "defaults.publish-subscribe.max-subscriber = 1",
        "max-subscriber",
        Some("max-subscribers"),
    ),
    (
        "defaults.event.max-listtenres = 1",
        "max-listtenres",
        Some("max-listeners"),
    ),
    (
        "defaults.event.max-listeenrs = 1",
        "max-listeenrs",
        Some("max-listeners"),
    ),
    (
        "defaults.event.max-nodess = 1",
        "max-nodess",
        Some("max-nodes"),
    ),
    ("defaults.event.maxnodes = 1", "maxnodes", Some("max-nodes")),
    ("global.prefixes = 'a'", "prefixes", Some("prefix")),
    ("globl.prefix = 'a'", "globl", Some("global")),
    ("'' = 1", "", None),
    ("global.service.servers = 1", "servers", None),
];

/// Whether the first unknown key of a file is this one.
fn names(
    rt: &(impl Abort + AllocGlobal),
    text: &str,
    key: &str,
    meant: Option<&'static str>,
) -> bool {
    let read = read_config(rt.alloc(), text).expect(rt, "a file without faults");
    match read.unknown.first() {
        Some(unknown) => {
            unknown.key.as_str() == key && unknown.meant.map(|proposal| proposal.key) == meant
        }
        None => false,
    }
}

#[test]
fn unknown_keys_are_named_with_what_was_meant(rt: HostRuntime) {
    let mut differs = None;
    for (text, key, meant) in &UNKNOWN {
        if !names(&rt, text, key, *meant) {
            differs = Some(*text);
        }
    }
    assert_eq!(rt; differs, None);
}

#[test]
fn unknown_keys_come_by_tables_and_keys(rt: HostRuntime) {
    let text = "z = 1\n[defaults]\nb.c = 1\na = 2\n[global]\ny = 3";
    let read = read_config(rt.alloc(), text).expect(&rt, "a file without faults");
    let mut found = [(Section::Event, 0); 4];
    for (place, unknown) in found.iter_mut().zip(read.unknown.iter()) {
        *place = (unknown.section, unknown.key.len());
    }
    assert_eq!(rt;
        (read.unknown.len(), found),
        (
            4,
            [
                (Section::Root, 1),
                (Section::Global, 1),
                (Section::Defaults, 1),
                (Section::Defaults, 1),
            ]
        )
    );
}

/// A key of each length up to 64 bytes is reported: no length wants more memory than there is.
#[test]
fn unknown_keys_have_any_length(rt: HostRuntime) -> Result<(), Fail> {
    let mut key = String::new(rt.alloc());
    let mut text = String::new(rt.alloc());
    for _ in 0..64 {
        key.push('z')?;
        text.push_str(key.as_str())?;
        text.push_str(" = 1\n")?;
    }
    let read = read_config(rt.alloc(), text.as_str()).expect(&rt, "a file without faults");
    assert_eq!(rt; read.unknown.len(), 64);
    for (length, unknown) in (1..65).zip(read.unknown.iter()) {
        assert_eq!(rt; unknown.key.len(), length);
    }
    Ok(())
}
