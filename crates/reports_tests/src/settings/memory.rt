//! Files where memory is refused. With ample memory they are read and written whole; where one
//! request is refused (`bench/refuse_memory` does that), the error says so, and nothing else is
//! wrong with them.

use iox2_config::config::Config;
use iox2_config_file::{ConfigFileError, ConfigWriteError, Section, read_config, write_config};
use std::alloc::{AllocError, Global};
use std::test::Fail;
use test_support::memory::may_be_refused;

/// A file with a setting of each kind and two keys that no setting has.
const FILE: &str = "[global]
prefix = 'a'
creation-timeout = { secs = 1, nanos = 2 }
[global.service]
cleanup-dead-nodes-on-open = false
[defaults.publish-subscribe]
max-subscriber = 1
max-subscribers = 2
\"backpressure-strategy\" = \"Discard\\u0044ata\"
[defaults.request-response]
client-allocation-strategy = 'BestFit'
servers = []
";

/// The number of unknown keys of the file, if memory for it was given.
fn unknown(alloc: Global, text: &str) -> Option<usize> {
    match read_config(alloc, text) {
        Ok(contents) => Some(contents.unknown.len()),
        Err(ConfigFileError::NoMemory(_)) => None,
        Err(_) => Some(usize::MAX),
    }
}

#[test]
fn a_file_is_read_whole_or_not_at_all(rt: HostRuntime) {
    match unknown(rt.alloc(), FILE) {
        Some(count) => assert_eq!(rt; count, 2),
        None => assert!(rt; may_be_refused(&rt)),
    }
}

#[test]
fn all_faults_are_reported_or_none(rt: HostRuntime) {
    match read_config(rt.alloc(), "global = 1\ndefaults.event.deadline = 'soon'") {
        Ok(read) => {
            let last = read.faults.last().map(|fault| fault.section);
            assert_eq!(rt; (read.faults.len(), last), (2, Some(Section::Event)));
        }
        Err(ConfigFileError::NoMemory(_)) => assert!(rt; may_be_refused(&rt)),
        Err(_) => panic!(rt; "the file is refused"),
    }
}

#[test]
fn a_configuration_is_written_whole_or_not_at_all(rt: HostRuntime) {
    match write_config(rt.alloc(), &Config::default()) {
        Ok(text) => assert!(rt; text.as_str().ends_with("\nmax-nodes = 20\n")),
        Err(ConfigWriteError::NoMemory) => assert!(rt; may_be_refused(&rt)),
        Err(ConfigWriteError::OutOfRange(_)) => panic!(rt; "the configuration is refused"),
    }
}

/// A file of more than 100,000 bytes, with one setting and one unknown key.
fn long_file(alloc: Global) -> Result<String, AllocError> {
    let mut text = "# a line of thirty-two bytes ...\n".repeat(alloc, 4_000)?;
    text.push_str("defaults.event.max-nodes = 7\nnodes = 1\n")?;
    Ok(text)
}

/// A long file is read: no size wants more memory than there is.
#[test]
fn a_long_file_is_read(rt: HostRuntime) -> Result<(), Fail> {
    let Ok(text) = long_file(rt.alloc()) else {
        assert!(rt; may_be_refused(&rt));
        return Ok(());
    };
    match unknown(rt.alloc(), text.as_str()) {
        Some(count) => assert_eq!(rt; count, 1),
        None => assert!(rt; may_be_refused(&rt)),
    }
    Ok(())
}
