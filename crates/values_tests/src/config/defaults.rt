use iox2_config::config::{
    AllocationStrategy, BackpressureStrategy, Config, DataSegmentType, EventId, Global,
};
use iox2_texts::bounded::SemanticStringError;
use iox2_texts::paths::Path;
use std::time::Duration;

#[test]
fn root_prefix_and_timeout_are_those_of_the_table(rt: HostRuntime) {
    let global = Global::default();
    assert_eq!(rt;
        (
            global.root_path().as_str(),
            global.prefix.as_str(),
            global.creation_timeout.as_millis(),
        ),
        ("/tmp/iceoryx2/", "iox2_", 500)
    );
}

#[test]
fn texts_of_services_are_those_of_the_table(rt: HostRuntime) {
    let service = &Global::default().service;
    for (found, wanted) in [
        (service.directory.as_str(), "services"),
        (service.data_segment_suffix.as_str(), ".data"),
        (service.static_config_storage_suffix.as_str(), ".service"),
        (service.dynamic_config_storage_suffix.as_str(), ".dynamic"),
        (service.connection_suffix.as_str(), ".connection"),
        (service.event_connection_suffix.as_str(), ".event"),
        (service.blackboard_mgmt_suffix.as_str(), ".blackboard_mgmt"),
        (service.blackboard_data_suffix.as_str(), ".blackboard_data"),
    ] {
        assert_eq!(rt; found, wanted);
    }
}

#[test]
fn texts_of_nodes_are_those_of_the_table(rt: HostRuntime) {
    let node = &Global::default().node;
    for (found, wanted) in [
        (node.directory.as_str(), "nodes"),
        (node.monitor_suffix.as_str(), ".node_monitor"),
        (node.static_config_suffix.as_str(), ".details"),
        (node.service_tag_suffix.as_str(), ".service_tag"),
        (node.port_tag_suffix.as_str(), ".port_tag"),
        (node.global_mgmt_suffix.as_str(), ".global_mgmt"),
    ] {
        assert_eq!(rt; found, wanted);
    }
}

#[test]
fn paths_of_the_file_are_those_of_the_table(rt: HostRuntime) {
    assert_eq!(rt;
        [
            Config::default_config_file_name().as_str(),
            Config::default_config_file_path().as_str(),
            Config::relative_config_path().as_str(),
            Config::default_user_config_file_path().as_str(),
        ],
        [
            "iceoryx2.toml",
            "config/iceoryx2.toml",
            "iceoryx2",
            "iceoryx2/iceoryx2.toml",
        ]
    );
}

#[test]
fn numbers_are_those_of_the_table(rt: HostRuntime) {
    let defaults = Config::default().defaults;
    let publish_subscribe = &defaults.publish_subscribe;
    let event = &defaults.event;
    let request_response = &defaults.request_response;
    for (found, wanted) in [
        (publish_subscribe.max_subscribers, 8),
        (publish_subscribe.max_publishers, 2),
        (publish_subscribe.max_nodes, 20),
        (publish_subscribe.subscriber_max_buffer_size, 2),
        (publish_subscribe.subscriber_max_borrowed_samples, 2),
        (publish_subscribe.publisher_max_loaned_samples, 2),
        (publish_subscribe.publisher_history_size, 0),
        (publish_subscribe.subscriber_expired_connection_buffer, 128),
        (event.max_listeners, 16),
        (event.max_notifiers, 16),
        (event.max_nodes, 36),
        (event.event_id_max_value, 255),
        (request_response.max_active_requests_per_client, 4),
        (request_response.max_response_buffer_size, 2),
        (request_response.max_servers, 2),
        (request_response.max_clients, 8),
        (request_response.max_nodes, 20),
        (
            request_response.max_borrowed_responses_per_pending_response,
            2,
        ),
        (request_response.max_loaned_requests, 2),
        (request_response.server_max_loaned_responses_per_request, 2),
        (request_response.client_expired_connection_buffer, 128),
        (request_response.server_expired_connection_buffer, 128),
        (defaults.blackboard.max_readers, 8),
        (defaults.blackboard.max_nodes, 20),
    ] {
        assert_eq!(rt; found, wanted);
    }
}

#[test]
fn switches_are_on_by_default(rt: HostRuntime) {
    let config = Config::default();
    let global = &config.global;
    let request_response = &config.defaults.request_response;
    assert_eq!(rt;
        [
            global.service.cleanup_dead_nodes_on_open,
            global.node.cleanup_dead_nodes_on_creation,
            global.node.cleanup_dead_nodes_on_destruction,
            config.defaults.publish_subscribe.enable_safe_overflow,
            request_response.enable_safe_overflow_for_requests,
            request_response.enable_safe_overflow_for_responses,
            request_response.enable_fire_and_forget_requests,
        ],
        [true; 7]
    );
}

#[test]
fn strategies_are_those_of_the_table(rt: HostRuntime) {
    let defaults = Config::default().defaults;
    let publish_subscribe = &defaults.publish_subscribe;
    let request_response = &defaults.request_response;
    assert_eq!(rt;
        [
            publish_subscribe.backpressure_strategy,
            request_response.client_backpressure_strategy,
            request_response.server_backpressure_strategy,
        ],
        [BackpressureStrategy::RetryUntilDelivered; 3]
    );
    assert_eq!(rt;
        [
            publish_subscribe.publisher_allocation_strategy,
            request_response.client_allocation_strategy,
            request_response.server_allocation_strategy,
        ],
        [AllocationStrategy::Static; 3]
    );
}

#[test]
fn events_have_no_deadline_and_tell_nothing_by_default(rt: HostRuntime) {
    let event = Config::default().defaults.event;
    assert_eq!(rt; event.deadline, None);
    assert_eq!(rt;
        [
            event.notifier_created_event,
            event.notifier_dropped_event,
            event.notifier_dead_event,
        ],
        [None; 3]
    );
}

#[test]
fn directories_lie_below_the_root(rt: HostRuntime) {
    let global = Global::default();
    let services = global.service_dir().expect(&rt, "a path");
    let nodes = global.node_dir().expect(&rt, "a path");
    assert_eq!(rt;
        (services.as_str(), services.as_bytes().len(), nodes.as_str()),
        ("/tmp/iceoryx2/services", 22, "/tmp/iceoryx2/nodes")
    );
}

#[test]
fn nothing_lies_below_the_longest_root(rt: HostRuntime) {
    let mut global = Global::default();
    let root = Path::new(&[b'a'; 255]).expect(&rt, "a path");
    global.set_root_path(&root);
    assert_eq!(rt; global.root_path().as_str(), root.as_str());
    assert_eq!(rt;
        [global.service_dir().err(), global.node_dir().err()],
        [Some(SemanticStringError::ExceedsMaximumLength); 2]
    );
}

#[test]
fn copies_are_equal(rt: HostRuntime) {
    let mut config = Config::default();
    assert!(rt; config.copied() == config);
    let before = config.copied();
    config.defaults.event.deadline = Some(Duration::from_millis(3));
    assert!(rt; config != before);
}

#[test]
fn choices_have_values(rt: HostRuntime) {
    assert_eq!(rt; EventId::new(7).as_value(), 7);
    assert!(rt; DataSegmentType::Dynamic != DataSegmentType::Static);
}
