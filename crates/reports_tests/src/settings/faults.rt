use iox2_config_file::{ConfigFileError, Section, read_config};
use std::process::Abort;
use test_support::printing::is_printed_as;

/// A file, and what its first fault prints.
const FAULTS: [(&str, &str); 18] = [
    ("global = 1", "global: is an integer, and a table is wanted"),
    (
        "[global]\nprefix = 1.5",
        "global.prefix: is a float, and a string with the name of a file is wanted",
    ),
    (
        "[global]\nprefix = 'a/b'",
        "global.prefix: is no name of a file: it has a `/`",
    ),
    (
        "[global]\nprefix = ''",
        "global.prefix: is no name of a file: it is empty",
    ),
    (
        "[global]\nprefix = '..'",
        "global.prefix: is no name of a file: it is `.` or `..`",
    ),
    (
        "[global]\nprefix = 'é/'",
        "global.prefix: is no name of a file: it has a `/`",
    ),
    (
        "[global.node]\nmonitor-suffix = '.é'",
        "global.node.monitor-suffix: is no name of a file: it has a byte that is not from 1 to 127",
    ),
    (
        "[global]\nroot-path = 'ä'",
        "global.root-path: is no path: it has a byte that is not from 1 to 127",
    ),
    (
        "[global.creation-timeout]\nsecs = 1",
        "global.creation-timeout: is not `{ secs = S, nanos = N }` with two integers from 0 on",
    ),
    (
        "global.creation-timeout = { secs = 1, nanos = 2, millis = 3 }",
        "global.creation-timeout: is not `{ secs = S, nanos = N }` with two integers from 0 on",
    ),
    (
        "global.creation-timeout = { secs = 1, nanos = 4294967296 }",
        "global.creation-timeout: has `nanos` of 2^32 or more",
    ),
    (
        "global.service.cleanup-dead-nodes-on-open = 'true'",
        "global.service.cleanup-dead-nodes-on-open: is a string, and a boolean is wanted",
    ),
    (
        "global.node.directory = [1]",
        "global.node.directory: is an array, and a string with a path is wanted",
    ),
    (
        "defaults.event = 1979-05-27",
        "defaults.event: is a date-time, and a table is wanted",
    ),
    (
        "[defaults.publish-subscribe]\nmax-nodes = -1",
        "defaults.publish-subscribe.max-nodes: is not an integer from 0 to 9223372036854775807",
    ),
    (
        "[defaults.publish-subscribe]\nbackpressure-strategy = 'discarddata'",
        "defaults.publish-subscribe.backpressure-strategy: is not \"RetryUntilDelivered\" or \
         \"DiscardData\"",
    ),
    (
        "[defaults.request-response]\nclient-allocation-strategy = true",
        "defaults.request-response.client-allocation-strategy: is a boolean, and \"BestFit\", \
         \"PowerOfTwo\" or \"Static\" is wanted",
    ),
    (
        "[defaults.blackboard]\nmax-nodes = {}\nmax-readers = ''",
        "defaults.blackboard.max-readers: is a string, and an integer is wanted",
    ),
];

/// Whether a file has no settings, and its first fault prints so.
fn prints(rt: &(impl Abort + AllocGlobal), text: &str, want: &str) -> bool {
    let read = read_config(rt.alloc(), text).expect(rt, "a file");
    match read.faults.first() {
        Some(fault) => read.config.is_none() && is_printed_as(fault, want),
        None => false,
    }
}

/// Whether a file has settings and no fault.
fn has_settings(rt: &(impl Abort + AllocGlobal), text: &str) -> bool {
    let read = read_config(rt.alloc(), text).expect(rt, "a file");
    read.config.is_some() && read.faults.is_empty()
}

#[test]
fn faults_are_printed_with_their_keys(rt: HostRuntime) {
    let mut differs = None;
    for (text, want) in &FAULTS {
        if !prints(&rt, text, want) {
            differs = Some(*text);
        }
    }
    assert_eq!(rt; differs, None);
}

#[test]
fn a_path_is_long_enough_and_not_longer(rt: HostRuntime) {
    let ten = "abcdefghij"
        .repeat(rt.alloc(), 25)
        .expect(&rt, "memory for a text");
    let fits = format!(in rt.alloc(); "global.root-path = '{ten}12345'").expect(&rt, "memory");
    let long = format!(in rt.alloc(); "global.root-path = '{ten}123456'").expect(&rt, "memory");
    assert_eq!(rt;
        (
            has_settings(&rt, fits.as_str()),
            prints(
                &rt,
                long.as_str(),
                "global.root-path: is no path: it has more than 255 bytes"
            ),
        ),
        (true, true)
    );
}

#[test]
fn all_faults_are_reported_in_the_order_of_the_settings(rt: HostRuntime) {
    let text = "defaults.event.max-nodes = ''\ndefaults.blackboard = 1\nglobal.prefix = 2";
    let read = read_config(rt.alloc(), text).expect(&rt, "a file");
    let faults = read.faults;
    let mut found = [(Section::Event, 0); 3];
    for (place, fault) in found.iter_mut().zip(faults.iter()) {
        *place = (fault.section, fault.key.len());
    }
    assert_eq!(rt;
        (faults.len(), found),
        (
            3,
            [
                (Section::Global, "prefix".len()),
                (Section::Defaults, "blackboard".len()),
                (Section::Event, "max-nodes".len()),
            ]
        )
    );
}

#[test]
fn a_text_without_faults_reports_none(rt: HostRuntime) {
    assert!(rt; has_settings(&rt, "x = 1"));
}

#[test]
fn what_is_no_toml_is_refused_with_its_place(rt: HostRuntime) {
    let place = match read_config(rt.alloc(), "a = 1\nmax = ") {
        Err(ConfigFileError::Syntax(error)) => {
            let printed = format!(in rt.alloc(); "{error}").expect(&rt, "memory for a text");
            printed
                .as_str()
                .starts_with("TOML parse error at line 2, column 7")
        }
        _ => false,
    };
    assert!(rt; place);
}
