use iox2_config::config::{AllocationStrategy, BackpressureStrategy, Config};
use iox2_config_file::{FileContents, read_config};
use iox2_texts::paths::{FileName, Path};
use std::process::Abort;
use std::time::Duration;

/// The documented defaults, all of them but those that are absent.
const DEFAULTS: &str = "[global]
root-path = '/tmp/iceoryx2/'
prefix = 'iox2_'
creation-timeout.secs = 0
creation-timeout.nanos = 500000000

[global.service]
directory = 'services'
data-segment-suffix = '.data'
static-config-storage-suffix = '.service'
dynamic-config-storage-suffix = '.dynamic'
connection-suffix = '.connection'
event-connection-suffix = '.event'
blackboard-mgmt-suffix = '.blackboard_mgmt'
blackboard-data-suffix = '.blackboard_data'
cleanup-dead-nodes-on-open = true

[global.node]
directory = 'nodes'
monitor-suffix = '.node_monitor'
static-config-suffix = '.details'
service-tag-suffix = '.service_tag'
port-tag-suffix = '.port_tag'
global-mgmt-suffix = '.global_mgmt'
cleanup-dead-nodes-on-creation = true
cleanup-dead-nodes-on-destruction = true

[defaults.publish-subscribe]
max-subscribers = 8
max-publishers = 2
max-nodes = 20
subscriber-max-buffer-size = 2
subscriber-max-borrowed-samples = 2
publisher-max-loaned-samples = 2
publisher-history-size = 0
enable-safe-overflow = true
backpressure-strategy = 'RetryUntilDelivered'
subscriber-expired-connection-buffer = 128
publisher-allocation-strategy = 'Static'

[defaults.event]
max-listeners = 16
max-notifiers = 16
max-nodes = 36
event-id-max-value = 255

[defaults.request-response]
enable-safe-overflow-for-requests = true
enable-safe-overflow-for-responses = true
max-active-requests-per-client = 4
max-response-buffer-size = 2
max-servers = 2
max-clients = 8
max-nodes = 20
max-borrowed-responses-per-pending-response = 2
max-loaned-requests = 2
server-max-loaned-responses-per-request = 2
client-backpressure-strategy = 'RetryUntilDelivered'
server-backpressure-strategy = 'RetryUntilDelivered'
client-expired-connection-buffer = 128
server-expired-connection-buffer = 128
enable-fire-and-forget-requests = true
client-allocation-strategy = 'Static'
server-allocation-strategy = 'Static'

[defaults.blackboard]
max-readers = 8
max-nodes = 20
";

/// A value of its own for some settings of each kind, in other forms of TOML.
const OTHERS: &str = "\u{FEFF}# a comment\r
global.root-path = \"/run/\\u0069ox/\"\r
global.prefix = 'own_'\r
global.creation-timeout = { nanos = 7, secs = 3 }\r
global.service = { directory = 'places', cleanup-dead-nodes-on-open = false }\r
[global.node]\r
monitor-suffix = '.alive' # and one behind a value\r
[defaults.publish-subscribe]\r
'max-subscribers' = 0x10\r
backpressure-strategy = 'DiscardData'\r
publisher-allocation-strategy = 'PowerOfTwo'\r
[defaults.event]\r
deadline = { secs = 0, nanos = 999999999 }\r
notifier-created-event = 0\r
notifier-dead-event = 9223372036854775807\r
[defaults.request-response]\r
client-allocation-strategy = 'BestFit'\r
[defaults.blackboard]\r
max-nodes = 1_000\r
";

fn contents(rt: &(impl Abort + AllocGlobal), text: &str) -> FileContents {
    match read_config(rt.alloc(), text) {
        Ok(contents) => contents,
        Err(_) => panic!(rt; "the file is refused"),
    }
}

fn path(rt: &impl Abort, text: &[u8]) -> Path {
    Path::new(text).expect(rt, "a path")
}

fn file_name(rt: &impl Abort, text: &[u8]) -> FileName {
    FileName::new(text).expect(rt, "the name of a file")
}

#[test]
fn the_documented_defaults_are_the_defaults(rt: HostRuntime) {
    let read = contents(&rt, DEFAULTS);
    assert_eq!(rt;
        (read.config == Some(Config::default()), read.unknown.len()),
        (true, 0)
    );
}

#[test]
fn an_empty_file_gives_the_defaults(rt: HostRuntime) {
    let read = contents(&rt, "");
    assert_eq!(rt;
        (read.config == Some(Config::default()), read.unknown.len()),
        (true, 0)
    );
}

#[test]
fn each_kind_of_value_is_read(rt: HostRuntime) {
    let mut want = Config::default();
    want.global.set_root_path(&path(&rt, b"/run/iox/"));
    want.global.prefix = file_name(&rt, b"own_");
    want.global.creation_timeout = Duration::new(3, 7);
    want.global.service.directory = path(&rt, b"places");
    want.global.service.cleanup_dead_nodes_on_open = false;
    want.global.node.monitor_suffix = file_name(&rt, b".alive");
    want.defaults.publish_subscribe.max_subscribers = 16;
    want.defaults.publish_subscribe.backpressure_strategy = BackpressureStrategy::DiscardData;
    want.defaults
        .publish_subscribe
        .publisher_allocation_strategy = AllocationStrategy::PowerOfTwo;
    want.defaults.event.deadline = Some(Duration::new(0, 999_999_999));
    want.defaults.event.notifier_created_event = Some(0);
    want.defaults.event.notifier_dead_event = Some(9_223_372_036_854_775_807);
    want.defaults.request_response.client_allocation_strategy = AllocationStrategy::BestFit;
    want.defaults.blackboard.max_nodes = 1000;
    let read = contents(&rt, OTHERS);
    assert_eq!(rt; (read.config == Some(want), read.unknown.len()), (true, 0));
}

/// Nanoseconds of a second or more are carried over, up to 32 bits of them.
#[test]
fn nanoseconds_are_carried_over(rt: HostRuntime) {
    let text = "global.creation-timeout = { secs = 9223372036854775807, nanos = 4294967295 }";
    let read = contents(&rt, text);
    assert_eq!(rt;
        read.config.map(|config| config.global.creation_timeout),
        Some(Duration::new(9_223_372_036_854_775_811, 294_967_295))
    );
}
