//! The tables of the file, and what stands in each.
ghost use Rattle.std.specs.Prelude.{◌≡◌, true, map, option_map, IfSome};
ghost use Rattle.iox2_config.specs.declared.config.Config.{Config};
ghost use Rattle.iox2_config_file.specs.Read.{rows_in, row_view, members_at, section_members};
ghost use Rattle.iox2_config_file.specs.Settings.{prefix_of, header_name, is_line};
ghost use Rattle.iox2_config_file.specs.Settings.{are_lines};
ghost use Rattle.toml.specs.Data.{get_member, no_members};
ghost use Rattle.toml.specs.View.{view, table_view};
ghost use Rattle.iox2_config_file.specs.Values.{member_count};

use crate::fault::Kind;
use crate::{
    blackboard_settings, event_settings, publish_subscribe_settings, request_response_settings,
};
use toml::{Table, Value};

/// A table of the file.
#[derive(Clone, Copy, Debug, PartialEq, Eq)]
pub enum Section {
    /// The whole file.
    Root,
    /// `global`: the settings of a whole system.
    Global,
    /// `global.service`: the settings of services' files.
    Service,
    /// `global.node`: the settings of nodes' files.
    Node,
    /// `defaults`: the settings that services get.
    Defaults,
    /// `defaults.publish-subscribe`.
    PublishSubscribe,
    /// `defaults.event`.
    Event,
    /// `defaults.request-response`.
    RequestResponse,
    /// `defaults.blackboard`.
    Blackboard,
}

impl Section {
    /// What stands before the keys of the table in their paths.
    pub fn prefix(self) -> &'static str
        ensures { result.now ≡ prefix_of self }
    {
        match self {
            Section::Root => "",
            Section::Global => "global.",
            Section::Service => "global.service.",
            Section::Node => "global.node.",
            Section::Defaults => "defaults.",
            Section::PublishSubscribe => "defaults.publish-subscribe.",
            Section::Event => "defaults.event.",
            Section::RequestResponse => "defaults.request-response.",
            Section::Blackboard => "defaults.blackboard.",
        }
    }
}

/// The tables of the file, each before those in it.
pub const SECTIONS: [Section; 9] = [
    Section::Root,
    Section::Global,
    Section::Service,
    Section::Node,
    Section::Defaults,
    Section::PublishSubscribe,
    Section::Event,
    Section::RequestResponse,
    Section::Blackboard,
];

/// A key of a table, and what its value may be.
#[derive(Clone, Copy, Debug, PartialEq, Eq)]
pub struct Row {
    /// The key.
    pub key: &'static str,
    /// What its value may be.
    pub kind: Kind,
    /// What its value means: one sentence.
    pub about: &'static str,
}

// The table of settings: of each its number in its table of the file, its field, its key, what its
// value may be, and what it means. `optional` stands where the field may be none. Each macro hands
// the rows of one table to the macro of the name that it is given.

/// The settings of services' files.
macro_rules! service_settings {
    ($then:ident $($given:tt)*) => {
        $then! { $($given)*
            0 => directory: "directory", Path, "The directory of services, below the root path.";
            1 => data_segment_suffix: "data-segment-suffix", FileName,
                "The end of the name of a port's data segment.";
            2 => static_config_storage_suffix: "static-config-storage-suffix", FileName,
                "The end of the name of a service's static configuration.";
            3 => dynamic_config_storage_suffix: "dynamic-config-storage-suffix", FileName,
                "The end of the name of a service's dynamic configuration.";
            4 => connection_suffix: "connection-suffix", FileName,
                "The end of the name of a connection between two ports.";
            5 => event_connection_suffix: "event-connection-suffix", FileName,
                "The end of the name of a connection by which events are sent.";
            6 => blackboard_mgmt_suffix: "blackboard-mgmt-suffix", FileName,
                "The end of the name of a blackboard's management segment.";
            7 => blackboard_data_suffix: "blackboard-data-suffix", FileName,
                "The end of the name of a blackboard's data segment.";
            8 => cleanup_dead_nodes_on_open: "cleanup-dead-nodes-on-open", Flag,
                "Whether one who opens a service first removes what dead nodes left in it.";
        }
    };
}

/// The settings of nodes' files.
macro_rules! node_settings {
    ($then:ident $($given:tt)*) => {
        $then! { $($given)*
            0 => directory: "directory", Path, "The directory of nodes, below the root path.";
            1 => monitor_suffix: "monitor-suffix", FileName,
                "The end of the name of the token by which others see that a node lives.";
            2 => static_config_suffix: "static-config-suffix", FileName,
                "The end of the name of a node's static configuration.";
            3 => service_tag_suffix: "service-tag-suffix", FileName,
                "The end of the name of a node's tag for each service that it uses.";
            4 => port_tag_suffix: "port-tag-suffix", FileName,
                "The end of the name of a node's tag for each of its ports.";
            5 => global_mgmt_suffix: "global-mgmt-suffix", FileName,
                "The end of the name of the segment with which nodes are managed.";
            6 => cleanup_dead_nodes_on_creation: "cleanup-dead-nodes-on-creation", Flag,
                "Whether one who creates a node first removes what dead nodes left.";
            7 => cleanup_dead_nodes_on_destruction: "cleanup-dead-nodes-on-destruction", Flag,
                "Whether a node that goes removes what dead nodes left.";
        }
    };
}

/// The settings of publish-subscribe services.
#[macro_export]
macro_rules! publish_subscribe_settings {
    ($then:ident $($given:tt)*) => {
        $then! { $($given)*
            0 => max_subscribers: "max-subscribers", Number,
                "How many subscribers may be attached at once.";
            1 => max_publishers: "max-publishers", Number,
                "How many publishers may be attached at once.";
            2 => max_nodes: "max-nodes", Number, "How many nodes may use the service at once.";
            3 => subscriber_max_buffer_size: "subscriber-max-buffer-size", Number,
                "The capacity of a subscriber's buffer, in samples.";
            4 => subscriber_max_borrowed_samples: "subscriber-max-borrowed-samples", Number,
                "How many samples a subscriber may hold at once.";
            5 => publisher_max_loaned_samples: "publisher-max-loaned-samples", Number,
                "How many samples a publisher may have taken and not yet sent.";
            6 => publisher_history_size: "publisher-history-size", Number,
                "How many of the last samples a publisher keeps for later subscribers.";
            7 => enable_safe_overflow: "enable-safe-overflow", Flag,
                "Whether a new sample replaces the oldest one where a buffer is full.";
            8 => backpressure_strategy: "backpressure-strategy", Backpressure,
                "What a publisher does where a buffer is full and may not overflow.";
            9 => subscriber_expired_connection_buffer:
                "subscriber-expired-connection-buffer", Number,
                "How many connections of publishers that are gone a subscriber keeps.";
            10 => publisher_allocation_strategy: "publisher-allocation-strategy", Allocation,
                "How a publisher's data segment grows for payloads of any length.";
        }
    };
}

/// The settings of event services.
#[macro_export]
macro_rules! event_settings {
    ($then:ident $($given:tt)*) => {
        $then! { $($given)*
            0 => max_listeners: "max-listeners", Number,
                "How many listeners may be attached at once.";
            1 => max_notifiers: "max-notifiers", Number,
                "How many notifiers may be attached at once.";
            2 => max_nodes: "max-nodes", Number, "How many nodes may use the service at once.";
            3 => event_id_max_value: "event-id-max-value", Number,
                "The greatest number of an event.";
            4 => deadline: "deadline", Duration optional,
                "The longest time, in seconds and nanoseconds, that may pass between two events.";
            5 => notifier_created_event: "notifier-created-event", Number optional,
                "The number of the event that reports a new notifier.";
            6 => notifier_dropped_event: "notifier-dropped-event", Number optional,
                "The number of the event that reports that a notifier went.";
            7 => notifier_dead_event: "notifier-dead-event", Number optional,
                "The number of the event that reports a notifier whose node died.";
        }
    };
}

/// The settings of request-response services.
#[macro_export]
macro_rules! request_response_settings {
    ($then:ident $($given:tt)*) => {
        $then! { $($given)*
            0 => enable_safe_overflow_for_requests: "enable-safe-overflow-for-requests", Flag,
                "Whether a new request replaces the oldest one where a server's buffer is full.";
            1 => enable_safe_overflow_for_responses: "enable-safe-overflow-for-responses", Flag,
                "Whether a new response replaces the oldest one where a client's buffer is full.";
            2 => max_active_requests_per_client: "max-active-requests-per-client", Number,
                "How many requests of one client may be open at each server at once.";
            3 => max_response_buffer_size: "max-response-buffer-size", Number,
                "The capacity of a client's buffer for the responses to one request.";
            4 => max_servers: "max-servers", Number, "How many servers may be attached at once.";
            5 => max_clients: "max-clients", Number, "How many clients may be attached at once.";
            6 => max_nodes: "max-nodes", Number, "How many nodes may use the service at once.";
            7 => max_borrowed_responses_per_pending_response:
                "max-borrowed-responses-per-pending-response", Number,
                "How many responses to one request a client may hold at once.";
            8 => max_loaned_requests: "max-loaned-requests", Number,
                "How many requests a client may have taken and not yet sent.";
            9 => server_max_loaned_responses_per_request:
                "server-max-loaned-responses-per-request", Number,
                "How many responses to one request a server may have taken and not yet sent.";
            10 => client_backpressure_strategy: "client-backpressure-strategy", Backpressure,
                "What a client does where a server's buffer is full and may not overflow.";
            11 => server_backpressure_strategy: "server-backpressure-strategy", Backpressure,
                "What a server does where a client's buffer is full and may not overflow.";
            12 => client_expired_connection_buffer: "client-expired-connection-buffer", Number,
                "How many connections of gone servers and gone pending responses a client keeps.";
            13 => server_expired_connection_buffer: "server-expired-connection-buffer", Number,
                "How many connections of gone clients each server keeps.";
            14 => enable_fire_and_forget_requests: "enable-fire-and-forget-requests", Flag,
                "Whether a client may send requests and wait for no response.";
            15 => client_allocation_strategy: "client-allocation-strategy", Allocation,
                "How a client's data segment grows for payloads of any length.";
            16 => server_allocation_strategy: "server-allocation-strategy", Allocation,
                "How a server's data segment grows for payloads of any length.";
        }
    };
}

/// The settings of blackboard services.
#[macro_export]
macro_rules! blackboard_settings {
    ($then:ident $($given:tt)*) => {
        $then! { $($given)*
            0 => max_readers: "max-readers", Number, "How many readers may be attached at once.";
            1 => max_nodes: "max-nodes", Number, "How many nodes may use the service at once.";
        }
    };
}

pub(crate) use node_settings;
pub(crate) use service_settings;

/// The rows of a table of settings.
macro_rules! setting_rows {
    ($(
        $number:literal => $field:ident: $key:literal, $kind:ident $($optional:ident)?,
            $about:literal;
    )*) => {
        rows! { $($key, $kind, $about;)* }
    };
}

/// Rows, each a key, the kind of its value, and what the value means.
macro_rules! rows {
    ($($key:literal, $kind:ident, $about:literal;)*) => {
        [$(Row {
            key: $key,
            kind: Kind::$kind,
            about: $about,
        }),*]
    };
}

const ROOT: [Row; 2] = rows! {
    "global", Table, "The settings that all services and nodes of one system share.";
    "defaults", Table, "The settings that services get where nothing else is said.";
};

const GLOBAL: [Row; 5] = rows! {
    "root-path", Path, "The path below which everything else lies.";
    "prefix", FileName, "What the name of each file begins with.";
    "creation-timeout", Duration,
        "How long, in seconds and nanoseconds, one who opens a thing waits for its creator.";
    "service", Table, "The directory of services, and how the names of their files end.";
    "node", Table, "The directory of nodes, and how the names of their files end.";
};

const SERVICE: &[Row] = &service_settings!(setting_rows);

const NODE: &[Row] = &node_settings!(setting_rows);

const DEFAULTS: [Row; 4] = rows! {
    "publish-subscribe", Table, "The settings of publish-subscribe services.";
    "event", Table, "The settings of event services.";
    "request-response", Table, "The settings of request-response services.";
    "blackboard", Table, "The settings of blackboard services.";
};

const PUBLISH_SUBSCRIBE: &[Row] = &publish_subscribe_settings!(setting_rows);

const EVENT: &[Row] = &event_settings!(setting_rows);

const REQUEST_RESPONSE: &[Row] = &request_response_settings!(setting_rows);

const BLACKBOARD: &[Row] = &blackboard_settings!(setting_rows);

/// The name of a table that has settings, as its header has it, and what the table is.
pub(crate) fn header(section: Section) -> Option<(&'static str, &'static str)>
    ensures name { option_map (λ h. h.0.now) result ≡ header_name section }
    ensures about { IfSome result (λ h. is_line h.1.now ≡ true) }
{
    match section {
        Section::Root | Section::Defaults => None,
        Section::Global => Some(("global", ROOT[0].about)),
        Section::Service => Some(("global.service", GLOBAL[3].about)),
        Section::Node => Some(("global.node", GLOBAL[4].about)),
        Section::PublishSubscribe => Some(("defaults.publish-subscribe", DEFAULTS[0].about)),
        Section::Event => Some(("defaults.event", DEFAULTS[1].about)),
        Section::RequestResponse => Some(("defaults.request-response", DEFAULTS[2].about)),
        Section::Blackboard => Some(("defaults.blackboard", DEFAULTS[3].about)),
    }
}

/// The keys that a table may have, in their order: its settings, and then the tables in it.
pub fn rows(section: Section) -> &'static [Row]
    ensures keys { (c : Config) → map row_view result.now ≡ rows_in section c }
    ensures lines { are_lines result.now ≡ true }
{
    match section {
        Section::Root => &ROOT,
        Section::Global => &GLOBAL,
        Section::Service => SERVICE,
        Section::Node => NODE,
        Section::Defaults => &DEFAULTS,
        Section::PublishSubscribe => PUBLISH_SUBSCRIBE,
        Section::Event => EVENT,
        Section::RequestResponse => REQUEST_RESPONSE,
        Section::Blackboard => BLACKBOARD,
    }
}

/// The value at a key.
#[tactic(auto, using(toml::proofs::Views::table_get))]
pub(crate) fn get<'a>(table: &'a Table, key: &str) -> Option<&'a Value>
    ensures { option_map (λ v. view v.now) result ≡ get_member key.now (table_view table.now) }
{
    table.get(key)
}

/// How many keys a table has.
#[tactic(auto, using(crate::proofs::Written::count_is))]
pub(crate) fn member_count(table: &Table) -> usize
    ensures { result ≡ member_count (table_view table.now) }
{
    table.len()
}

/// The table at a key, or the empty one.
fn table_at<'a>(table: &'a Table, key: &str, empty: &'a Table) -> &'a Table
    requires { table_view empty.now ≡ no_members }
    ensures { table_view result.now ≡ members_at key.now (table_view table.now) }
{
    match get(table, key) {
        Some(value) => match value.as_table() {
            Some(inner) => inner,
            None => empty,
        },
        None => empty,
    }
}

/// A table of the file, or the empty one.
pub(crate) fn section_table<'a>(file: &'a Table, section: Section, empty: &'a Table) -> &'a Table
    requires { table_view empty.now ≡ no_members }
    ensures { table_view result.now ≡ section_members section (table_view file.now) }
{
    let global = table_at(file, "global", empty);
    let defaults = table_at(file, "defaults", empty);
    match section {
        Section::Root => file,
        Section::Global => global,
        Section::Service => table_at(global, "service", empty),
        Section::Node => table_at(global, "node", empty),
        Section::Defaults => defaults,
        Section::PublishSubscribe => table_at(defaults, "publish-subscribe", empty),
        Section::Event => table_at(defaults, "event", empty),
        Section::RequestResponse => table_at(defaults, "request-response", empty),
        Section::Blackboard => table_at(defaults, "blackboard", empty),
    }
}
