//! What is proposed for a misspelt key, and where.

use config_report::check_file;
use std::process::Abort;
use test_support::printing::is_printed_as;

/// A file with one unknown key, and what is said of it. The second to the ninth misspell a key: a
/// letter is dropped, doubled, swapped with the next one; `-` is `_`; letters are capital; the key
/// stands in another table; its path stands in quotes; its path is written with `_`. The last ones
/// stand in another table, and are written with `_` or capital letters.
const MISSPELT: [(&str, &str); 22] = [
    (
        "[defaults.event]\nmax-listener = 1\n",
        "2:1: warning: defaults.event.max-listener: this table has no such key, \
         defaults.event.max-listeners may be meant",
    ),
    (
        "[global]\n  creaton-timeout = 1\n",
        "2:3: warning: global.creaton-timeout: this table has no such key, \
         global.creation-timeout may be meant",
    ),
    (
        "[global]\n\ncreattion-timeout = 1\n",
        "3:1: warning: global.creattion-timeout: this table has no such key, \
         global.creation-timeout may be meant",
    ),
    (
        "[global]\ncraetion-timeout = 1\n",
        "2:1: warning: global.craetion-timeout: this table has no such key, \
         global.creation-timeout may be meant",
    ),
    (
        "[global]\ncreation_timeout = 1\n",
        "2:1: warning: global.creation_timeout: this table has no such key, \
         global.creation-timeout may be meant",
    ),
    (
        "[global]\nCreationTimeout = 1\n",
        "2:1: warning: global.CreationTimeout: this table has no such key, \
         global.creation-timeout may be meant",
    ),
    (
        "[global.service]\ncreation-timeout = 1\n",
        "2:1: warning: global.service.creation-timeout: this table has no such key, \
         global.creation-timeout may be meant",
    ),
    (
        "\"global.creation-timeout\" = 1\n",
        "1:1: warning: \"global.creation-timeout\": this table has no such key, \
         global.creation-timeout without the quotes may be meant",
    ),
    (
        "# a path\ndefaults.request_response.max_clients = 1\n",
        "2:1: warning: defaults.request_response: this table has no such key, \
         defaults.request-response may be meant",
    ),
    (
        "[global]\n'service.directory' = 'a'\n",
        "2:1: warning: global.\"service.directory\": this table has no such key, \
         global.service.directory without the quotes may be meant",
    ),
    (
        "[defaults.publish_subscribe]\nmax-nodes = 1\n",
        "1:2: warning: defaults.publish_subscribe: this table has no such key, \
         defaults.publish-subscribe may be meant",
    ),
    (
        "[event]\nmax-nodes = 1\n",
        "1:2: warning: event: this table has no such key, defaults.event may be meant",
    ),
    (
        "[global.defaults]\n",
        "1:2: warning: global.defaults: this table has no such key, defaults may be meant",
    ),
    (
        "[global]\nmax-nodes = 3\n",
        "2:1: warning: global.max-nodes: this table has no such key, \
         defaults.publish-subscribe.max-nodes may be meant",
    ),
    (
        "[defaults.event]\nmax-listtenres = 1\n",
        "2:1: warning: defaults.event.max-listtenres: this table has no such key, \
         defaults.event.max-listeners may be meant",
    ),
    (
        "[defaults.event]\nlisteners-at-once = 1\n",
        "2:1: warning: defaults.event.listeners-at-once: this table has no such key",
    ),
    (
        "[global]\n\"a\\u001b[31m\\nb\" = 1\n",
        "2:1: warning: global.\"a\\u001B[31m\\nb\": this table has no such key",
    ),
    (
        "[global]\n'a\tb\"' = 1\n",
        "2:1: warning: global.'a\\u{9}b\"': this table has no such key",
    ),
    (
        "[publish_subscribe]\nmax-nodes = 1\n",
        "1:2: warning: publish_subscribe: this table has no such key, \
         defaults.publish-subscribe may be meant",
    ),
    (
        "[requestResponse]\n",
        "1:2: warning: requestResponse: this table has no such key, \
         defaults.request-response may be meant",
    ),
    (
        "[global]\nmax_nodes = 3\n",
        "2:1: warning: global.max_nodes: this table has no such key, \
         defaults.publish-subscribe.max-nodes may be meant",
    ),
    (
        "[defaults.event]\nmax_clients = 1\n",
        "2:1: warning: defaults.event.max_clients: this table has no such key, \
         defaults.request-response.max-clients may be meant",
    ),
];

#[test]
fn misspelt_keys_have_a_proposal(rt: HostRuntime) {
    for (file, want) in &MISSPELT {
        let found = check_file(rt.alloc(), file.as_bytes()).expect(&rt, "memory");
        assert!(rt; found.config.is_some());
        match found.list.first() {
            Some(finding) => assert!(rt; is_printed_as(finding, want)),
            None => panic!(rt; "nothing is found"),
        }
        assert_eq!(rt; found.list.len(), 1);
    }
}

/// A file with faults and unknown keys, in the order of the file.
#[test]
fn all_that_is_found_comes_in_the_order_of_the_file(rt: HostRuntime) {
    let file = b"zero = 1\n[defaults.event]\nmax-nodes = -1\nmax-node = 1\n[global]\nprefix = 1\n";
    let want = [
        "1:1: warning: zero: this table has no such key",
        "3:1: error: defaults.event.max-nodes: is not an integer from 0 to 9223372036854775807",
        "4:1: warning: defaults.event.max-node: this table has no such key, \
         defaults.event.max-nodes may be meant",
        "6:1: error: global.prefix: is an integer, and a string with the name of a file is wanted",
    ];
    let found = check_file(rt.alloc(), file).expect(&rt, "memory");
    assert!(rt; found.config.is_none());
    assert_eq!(rt; found.list.len(), want.len());
    for (finding, line) in found.list.iter().zip(want.iter()) {
        assert!(rt; is_printed_as(finding, line));
    }
}

/// Files with 33 brackets at their ends, and where that is too deep: columns count bytes, also of
/// letters of two, and not those of a byte-order mark.
const DEEP: [(&str, &str); 3] = [
    (
        "a = 1\nb = ",
        "2:37: error: tables and arrays are more than 32 deep in one another",
    ),
    (
        "a = 1\n'ä' = ",
        "2:40: error: tables and arrays are more than 32 deep in one another",
    ),
    (
        "\u{feff}b = ",
        "1:37: error: tables and arrays are more than 32 deep in one another",
    ),
];

/// A file that is too deep is refused before anything is built of it.
#[test]
fn a_file_that_is_too_deep_is_refused_with_its_position(rt: HostRuntime) {
    for (front, want) in &DEEP {
        let mut file = String::from_str(rt.alloc(), front).expect(&rt, "memory");
        for _ in 0..33 {
            file.push('[').expect(&rt, "memory");
        }
        let found = check_file(rt.alloc(), file.as_str().as_bytes()).expect(&rt, "memory");
        assert!(rt; found.config.is_none());
        assert_eq!(rt; found.list.len(), 1);
        for finding in &found.list {
            assert!(rt; is_printed_as(finding, want));
        }
    }
}
