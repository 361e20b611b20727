//! All settings as one plain value.
ghost use Rattle.std.specs.Prelude.{◌≡◌, ◌≤◌, length};
ghost use Rattle.iox2sd_config.specs.Files.{c_text, c_texts, c_config};

use iox2_config::config::{Config, Global};
use iox2sd_common::answers::zero_padded;
use iox2sd_common::settings::{
    BlackboardSettings, EventSettings, GlobalSettings, PublishSubscribeSettings,
    RequestResponseSettings, blackboard_of, event_of, global_of, publish_subscribe_of,
    request_response_of,
};

/// A path, or the name of a file.
#[repr(C)]
#[derive(Clone, Copy)]
pub struct PlainText {
    /// Its bytes, and then zeros.
    pub bytes: [u8; 256],
    /// How many bytes it has, at most 255.
    pub length: usize,
}

/// The texts of the settings.
#[repr(C)]
#[derive(Clone, Copy)]
pub struct PlainTexts {
    /// The path below which everything else lies.
    pub root_path: PlainText,
    /// What the name of each file begins with.
    pub prefix: PlainText,
    /// The directory of services, below the root path.
    pub service_directory: PlainText,
    /// The end of the name of a port's data segment.
    pub data_segment_suffix: PlainText,
    /// The end of the name of a service's static configuration.
    pub static_config_storage_suffix: PlainText,
    /// The end of the name of a service's dynamic configuration.
    pub dynamic_config_storage_suffix: PlainText,
    /// The end of the name of a connection between two ports.
    pub connection_suffix: PlainText,
    /// The end of the name of a connection by which events are sent.
    pub event_connection_suffix: PlainText,
    /// The end of the name of a blackboard's management segment.
    pub blackboard_mgmt_suffix: PlainText,
    /// The end of the name of a blackboard's data segment.
    pub blackboard_data_suffix: PlainText,
    /// The directory of nodes, below the root path.
    pub node_directory: PlainText,
    /// The end of the name of the token by which others see that a node lives.
    pub monitor_suffix: PlainText,
    /// The end of the name of a node's static configuration.
    pub node_static_config_suffix: PlainText,
    /// The end of the name of a node's tag for each service that it uses.
    pub service_tag_suffix: PlainText,
    /// The end of the name of a node's tag for each of its ports.
    pub port_tag_suffix: PlainText,
    /// The end of the name of the segment with which nodes are managed.
    pub global_mgmt_suffix: PlainText,
}

/// All settings.
#[repr(C)]
#[derive(Clone, Copy)]
pub struct PlainConfig {
    /// The settings of a system, beside its texts.
    pub global: GlobalSettings,
    /// The texts of a system's settings.
    pub texts: PlainTexts,
    /// The settings of publish-subscribe services.
    pub publish_subscribe: PublishSubscribeSettings,
    /// The settings of event services.
    pub event: EventSettings,
    /// The settings of request-response services.
    pub request_response: RequestResponseSettings,
    /// The settings of blackboard services.
    pub blackboard: BlackboardSettings,
}

/// A text with its length.
fn text_of(text: &[u8]) -> PlainText
    requires { length text.now ≤ 255 }
    ensures { result ≡ c_text text.now }
{
    PlainText {
        bytes: zero_padded(text),
        length: text.len(),
    }
}

/// The texts of a system's settings.
fn texts_of(global: &Global) -> PlainTexts
    ensures { result ≡ c_texts global.now }
{
    let service = &global.service;
    let node = &global.node;
    PlainTexts {
        root_path: text_of(global.root_path().as_bytes()),
        prefix: text_of(global.prefix.as_bytes()),
        service_directory: text_of(service.directory.as_bytes()),
        data_segment_suffix: text_of(service.data_segment_suffix.as_bytes()),
        static_config_storage_suffix: text_of(service.static_config_storage_suffix.as_bytes()),
        dynamic_config_storage_suffix: text_of(service.dynamic_config_storage_suffix.as_bytes()),
        connection_suffix: text_of(service.connection_suffix.as_bytes()),
        event_connection_suffix: text_of(service.event_connection_suffix.as_bytes()),
        blackboard_mgmt_suffix: text_of(service.blackboard_mgmt_suffix.as_bytes()),
        blackboard_data_suffix: text_of(service.blackboard_data_suffix.as_bytes()),
        node_directory: text_of(node.directory.as_bytes()),
        monitor_suffix: text_of(node.monitor_suffix.as_bytes()),
        node_static_config_suffix: text_of(node.static_config_suffix.as_bytes()),
        service_tag_suffix: text_of(node.service_tag_suffix.as_bytes()),
        port_tag_suffix: text_of(node.port_tag_suffix.as_bytes()),
        global_mgmt_suffix: text_of(node.global_mgmt_suffix.as_bytes()),
    }
}

/// All settings of a configuration.
#[inline(never)]
pub(crate) fn config_of(config: &Config) -> PlainConfig
    ensures { result ≡ c_config config.now }
{
    PlainConfig {
        global: global_of(&config.global),
        texts: texts_of(&config.global),
        publish_subscribe: publish_subscribe_of(&config.defaults.publish_subscribe),
        event: event_of(&config.defaults.event),
        request_response: request_response_of(&config.defaults.request_response),
        blackboard: blackboard_of(&config.defaults.blackboard),
    }
}
