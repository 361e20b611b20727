use iox2_config::config::Config;
use iox2_config_file::laws::what_is_written_is_read_back;
use iox2_config_file::{
    ConfigWriteError, Kind, Row, SECTIONS, Section, read_config, rows, write_config,
};
use iox2_texts::paths::{FileName, Path};
use std::process::Abort;
use std::time::Duration;
use test_support::printing::is_printed_as;

/// Parts of the text of the default settings, in their order.
const PARTS: [&str; 8] = [
    "# The settings of the middleware. A key that is left out has its default.\n",
    "\n# The settings that all services and nodes of one system share.\n[global]\n",
    "\n# The path below which everything else lies. By default \"/tmp/iceoryx2/\".\nroot-path = \"/tmp/iceoryx2/\"\n",
    "By default { nanos = 500000000, secs = 0 }.\ncreation-timeout = { nanos = 500000000, secs = 0 }\n",
    "\n# Whether a node that goes removes what dead nodes left. By default true.\ncleanup-dead-nodes-on-destruction = true\n",
    "\n# The settings of publish-subscribe services.\n[defaults.publish-subscribe]\n",
    "By default \"RetryUntilDelivered\".\nbackpressure-strategy = \"RetryUntilDelivered\"\n",
    "that may pass between two events. By default not set.\n# deadline is not set\n",
];

fn written(rt: &(impl Abort + AllocGlobal), config: &Config) -> String {
    match write_config(rt.alloc(), config) {
        Ok(text) => text,
        Err(_) => panic!(rt; "the configuration is refused"),
    }
}

fn config(rt: &(impl Abort + AllocGlobal), text: &str) -> Config {
    match read_config(rt.alloc(), text) {
        Ok(contents) => contents.config.expect(rt, "a file without faults"),
        Err(_) => panic!(rt; "the file is refused"),
    }
}

/// Whether the text of a configuration gives the same configuration, and no unknown key.
fn comes_back(rt: &(impl Abort + AllocGlobal), config: &Config) -> bool {
    match what_is_written_is_read_back(rt.alloc(), config) {
        Ok(Ok(back)) => match &back.config {
            Some(same) => *same == *config && back.unknown.is_empty(),
            None => false,
        },
        _ => false,
    }
}

/// The next of a row of numbers without a pattern.
fn next(state: &mut u64) -> u64 {
    *state ^= *state << 13;
    *state ^= *state >> 7;
    *state ^= *state << 17;
    *state
}

/// A string of TOML with bytes from 1 to 127, each as an escape.
fn string(rt: &(impl Abort + AllocGlobal), state: &mut u64, slashes: bool) -> String {
    let mut text = String::new(rt.alloc());
    text.push_str("\"").expect(rt, "memory");
    let length = 1 + next(state) % 255;
    for _ in 0..length {
        // Quotes, apostrophes, backslashes and newlines are frequent: they make the form of a
        // string.
        let byte = match next(state) % 10 {
            0 => 34,
            1 => 39,
            2 => 92,
            3 => 10,
            _ => 1 + next(state) % 127,
        };
        let byte = if byte == 47 && !slashes { 48 } else { byte };
        write!(text, "\\u{byte:04x}").expect(rt, "memory");
    }
    text.push_str("\"").expect(rt, "memory");
    text
}

/// A value of a kind in TOML.
fn value(rt: &(impl Abort + AllocGlobal), kind: Kind, state: &mut u64) -> String {
    let n = next(state);
    let name = |name: &str| String::from_str(rt.alloc(), name).expect(rt, "memory");
    match kind {
        Kind::Table => name("{}"),
        Kind::Number => {
            let shift = 1 + n % 63;
            format!(in rt.alloc(); "{}", next(state) >> shift).expect(rt, "memory")
        }
        Kind::Flag => name(if n % 2 == 0 { "true" } else { "false" }),
        Kind::Path => string(rt, state, true),
        Kind::FileName => string(rt, state, false),
        Kind::Backpressure => name(if n % 2 == 0 {
            "'RetryUntilDelivered'"
        } else {
            "'DiscardData'"
        }),
        Kind::Allocation => name(match n % 3 {
            0 => "'BestFit'",
            1 => "'PowerOfTwo'",
            _ => "'Static'",
        }),
        Kind::Duration => {
            let nanos = n % 1_000_000_000;
            let secs = next(state) >> 1;
            format!(in rt.alloc(); "{{ secs = {secs}, nanos = {nanos} }}").expect(rt, "memory")
        }
    }
}

/// Appends a setting with a value of its kind.
fn add(
    rt: &(impl Abort + AllocGlobal),
    text: &mut String,
    section: Section,
    row: &Row,
    state: &mut u64,
) {
    if row.kind != Kind::Table {
        let prefix = section.prefix();
        let key = row.key;
        let value = value(rt, row.kind, state);
        writeln!(text, "{prefix}{key} = {value}").expect(rt, "memory");
    }
}

#[test]
fn the_default_file_documents_the_defaults(rt: HostRuntime) {
    let text = written(&rt, &Config::default());
    let mut last = 0;
    let mut missing = None;
    for part in PARTS {
        match text.as_str().find(part) {
            Some(at) if at >= last => last = at,
            _ => missing = Some(part),
        }
    }
    assert_eq!(rt; missing, None);
    assert!(rt; comes_back(&rt, &Config::default()));
}

#[test]
fn each_setting_has_its_comment_and_its_key(rt: HostRuntime) {
    let text = written(&rt, &Config::default());
    let mut missing = None;
    for section in SECTIONS {
        for row in rows(section) {
            let about = row.about;
            let comment = format!(in rt.alloc(); "\n# {about}").expect(&rt, "memory");
            let has_key = row.kind == Kind::Table || text.as_str().contains(row.key);
            let has_comment = section == Section::Root || text.as_str().contains(comment.as_str());
            if !has_key || !has_comment {
                missing = Some(row.key);
            }
        }
    }
    assert_eq!(rt; missing, None);
}

#[test]
fn each_setting_alone_comes_back(rt: HostRuntime) {
    let mut state = 88_172_645_463_325_252;
    let mut differs = None;
    for section in SECTIONS {
        for row in rows(section) {
            let mut text = String::new(rt.alloc());
            add(&rt, &mut text, section, row, &mut state);
            if !comes_back(&rt, &config(&rt, text.as_str())) {
                differs = Some(row.key);
            }
        }
    }
    assert_eq!(rt; differs, None);
}

#[test]
fn all_settings_come_back(rt: HostRuntime) {
    let mut state = 362_436_069_521_288_629;
    let mut differ = false;
    for _ in 0..40 {
        let mut text = String::new(rt.alloc());
        for section in SECTIONS {
            for row in rows(section) {
                add(&rt, &mut text, section, row, &mut state);
            }
        }
        if !comes_back(&rt, &config(&rt, text.as_str())) {
            differ = true;
        }
    }
    assert!(rt; !differ);
}

#[test]
fn the_greatest_values_come_back(rt: HostRuntime) {
    let mut config = Config::default();
    config.global.creation_timeout = Duration::new((1 << 63) - 1, 999_999_999);
    config.defaults.event.event_id_max_value = (1 << 63) - 1;
    config.defaults.event.deadline = Some(Duration::new(0, 0));
    config.defaults.event.notifier_dead_event = Some((1 << 63) - 1);
    config.global.service.directory = Path::new(b"").expect(&rt, "a path");
    config.global.prefix = FileName::new(b"\"'\\\n'''\"\"\"\x7f\x01").expect(&rt, "a name");
    assert!(rt; comes_back(&rt, &config));
}

/// The error on a configuration prints this.
fn is_refused(rt: &(impl Abort + AllocGlobal), config: &Config, text: &str) {
    match write_config(rt.alloc(), config) {
        Ok(_) => panic!(rt; "the configuration is written"),
        Err(error) => assert!(rt; is_printed_as(&error, text)),
    }
}

#[test]
fn numbers_that_toml_does_not_have_are_refused(rt: HostRuntime) {
    let mut config = Config::default();
    config.defaults.blackboard.max_nodes = 1 << 63;
    is_refused(
        &rt,
        &config,
        "defaults.blackboard.max-nodes: is above 9223372036854775807, the greatest integer of TOML",
    );
    config.defaults.event.notifier_created_event = Some(18_446_744_073_709_551_615);
    is_refused(
        &rt,
        &config,
        "defaults.event.notifier-created-event: is above 9223372036854775807, \
         the greatest integer of TOML",
    );
    config.global.creation_timeout = Duration::new(1 << 63, 0);
    let first = matches!(
        write_config(rt.alloc(), &config),
        Err(ConfigWriteError::OutOfRange(misfit)) if misfit.section == Section::Global
    );
    assert!(rt; first);
}
