//! What openers require of services: each setting changed in turn, and the names of settings.
use iox2_config::types::{MessageTypeDetails, TypeDetail};
use iox2_ids::identifiers::Time;
use iox2_static::static_config::event::Deadline;
use iox2_static::static_config::setting::Setting;
use iox2_static::static_config::{blackboard, event, publish_subscribe, request_response};
use std::time::Duration;
use test_support::printing::{is_printed_as, is_shown_as};

static NAMES: [(Setting, &str, &str); 25] = [
    (Setting::MaxSubscribers, "max_subscribers", "MaxSubscribers"),
    (Setting::MaxPublishers, "max_publishers", "MaxPublishers"),
    (Setting::HistorySize, "history_size", "HistorySize"),
    (
        Setting::SubscriberMaxBufferSize,
        "subscriber_max_buffer_size",
        "SubscriberMaxBufferSize",
    ),
    (
        Setting::SubscriberMaxBorrowedSamples,
        "subscriber_max_borrowed_samples",
        "SubscriberMaxBorrowedSamples",
    ),
    (
        Setting::EnableSafeOverflow,
        "enable_safe_overflow",
        "EnableSafeOverflow",
    ),
    (Setting::MaxNotifiers, "max_notifiers", "MaxNotifiers"),
    (Setting::MaxListeners, "max_listeners", "MaxListeners"),
    (
        Setting::EventIdMaxValue,
        "event_id_max_value",
        "EventIdMaxValue",
    ),
    (Setting::Deadline, "deadline", "Deadline"),
    (
        Setting::NotifierCreatedEvent,
        "notifier_created_event",
        "NotifierCreatedEvent",
    ),
    (
        Setting::NotifierDroppedEvent,
        "notifier_dropped_event",
        "NotifierDroppedEvent",
    ),
    (
        Setting::NotifierDeadEvent,
        "notifier_dead_event",
        "NotifierDeadEvent",
    ),
    (
        Setting::EnableSafeOverflowForRequests,
        "enable_safe_overflow_for_requests",
        "EnableSafeOverflowForRequests",
    ),
    (
        Setting::EnableSafeOverflowForResponses,
        "enable_safe_overflow_for_responses",
        "EnableSafeOverflowForResponses",
    ),
    (
        Setting::EnableFireAndForgetRequests,
        "enable_fire_and_forget_requests",
        "EnableFireAndForgetRequests",
    ),
    (
        Setting::MaxActiveRequestsPerClient,
        "max_active_requests_per_client",
        "MaxActiveRequestsPerClient",
    ),
    (
        Setting::MaxLoanedRequests,
        "max_loaned_requests",
        "MaxLoanedRequests",
    ),
    (
        Setting::MaxResponseBufferSize,
        "max_response_buffer_size",
        "MaxResponseBufferSize",
    ),
    (Setting::MaxServers, "max_servers", "MaxServers"),
    (Setting::MaxClients, "max_clients", "MaxClients"),
    (
        Setting::MaxBorrowedResponsesPerPendingResponse,
        "max_borrowed_responses_per_pending_response",
        "MaxBorrowedResponsesPerPendingResponse",
    ),
    (Setting::MaxReaders, "max_readers", "MaxReaders"),
    (Setting::MaxWriters, "max_writers", "MaxWriters"),
    (Setting::MaxNodes, "max_nodes", "MaxNodes"),
];

#[test]
fn settings_are_printed_by_name(rt: HostRuntime) {
    let all = NAMES.iter().all(|(setting, name, shown)| is_printed_as(setting, name)
        && is_shown_as(setting, shown));
    assert!(rt; all);
}

fn samples(numbers: [usize; 6], overflow: bool) -> publish_subscribe::StaticConfig {
    publish_subscribe::StaticConfig {
        max_subscribers: numbers[0],
        max_publishers: numbers[1],
        max_nodes: numbers[2],
        history_size: numbers[3],
        subscriber_max_buffer_size: numbers[4],
        subscriber_max_borrowed_samples: numbers[5],
        enable_safe_overflow: overflow,
        message_type_details: MessageTypeDetails::default(),
    }
}

static NUMBERS_OF_SAMPLES: [Setting; 6] = [
    Setting::MaxSubscribers,
    Setting::MaxPublishers,
    Setting::MaxNodes,
    Setting::HistorySize,
    Setting::SubscriberMaxBufferSize,
    Setting::SubscriberMaxBorrowedSamples,
];

#[test]
fn publishers_and_subscribers_are_as_many(rt: HostRuntime) {
    let service = samples([5; 6], true);
    for i in 0..6 {
        let (mut more, mut fewer) = ([5; 6], [5; 6]);
        more[i] = 6;
        fewer[i] = 4;
        assert_eq!(rt;
            (
                service.first_unmet(&samples(more, true)),
                service.satisfies(&samples(fewer, true)),
            ),
            (Some(NUMBERS_OF_SAMPLES[i]), true)
        );
    }
}

#[test]
fn the_first_of_two_settings_is_returned(rt: HostRuntime) {
    let service = samples([5; 6], true);
    assert_eq!(rt;
        [
            service.first_unmet(&samples([5; 6], false)),
            service.first_unmet(&samples([6; 6], false)),
        ],
        [
            Some(Setting::EnableSafeOverflow),
            Some(Setting::MaxSubscribers)
        ]
    );
}

fn events(numbers: [usize; 4], numbered: [Option<usize>; 3]) -> event::StaticConfig {
    event::StaticConfig {
        max_notifiers: numbers[0],
        max_listeners: numbers[1],
        max_nodes: numbers[2],
        event_id_max_value: numbers[3],
        deadline: None,
        notifier_created_event: numbered[0],
        notifier_dropped_event: numbered[1],
        notifier_dead_event: numbered[2],
    }
}

static NUMBERS_OF_EVENTS: [Setting; 4] = [
    Setting::MaxNotifiers,
    Setting::MaxListeners,
    Setting::MaxNodes,
    Setting::EventIdMaxValue,
];

static EVENTS: [Setting; 3] = [
    Setting::NotifierCreatedEvent,
    Setting::NotifierDroppedEvent,
    Setting::NotifierDeadEvent,
];

#[test]
fn notifiers_and_listeners_are_as_many(rt: HostRuntime) {
    let service = events([5; 4], [None; 3]);
    for i in 0..4 {
        let (mut more, mut fewer) = ([5; 4], [5; 4]);
        more[i] = 6;
        fewer[i] = 4;
        assert_eq!(rt;
            (
                service.first_unmet(&events(more, [None; 3])),
                service.satisfies(&events(fewer, [None; 3])),
            ),
            (Some(NUMBERS_OF_EVENTS[i]), true)
        );
    }
}

#[test]
fn events_are_the_same(rt: HostRuntime) {
    let service = events([5; 4], [Some(1), Some(2), None]);
    for i in 0..3 {
        let mut others = [Some(1), Some(2), None];
        others[i] = Some(0);
        assert_eq!(rt;
            service.first_unmet(&events([5; 4], others)),
            Some(EVENTS[i])
        );
    }
    assert!(rt; service.satisfies(&events([5; 4], [Some(1), Some(2), None])));
}

/// Events with a deadline of so many milliseconds, set at this second.
fn timely(seconds: u64, deadline: u64) -> event::StaticConfig {
    event::StaticConfig {
        deadline: Some(Deadline {
            creation_time: Time::new(seconds, 0),
            value: Duration::from_millis(deadline),
        }),
        ..events([5; 4], [None; 3])
    }
}

#[test]
fn deadlines_are_as_long(rt: HostRuntime) {
    let (service, never) = (timely(1, 30), events([5; 4], [None; 3]));
    assert_eq!(rt;
        [
            service.first_unmet(&timely(2, 30)),
            service.first_unmet(&timely(1, 29)),
            service.first_unmet(&never),
            never.first_unmet(&service),
        ],
        [
            None,
            Some(Setting::Deadline),
            Some(Setting::Deadline),
            Some(Setting::Deadline)
        ]
    );
}

fn requests(flags: [bool; 3], numbers: [usize; 7]) -> request_response::StaticConfig {
    request_response::StaticConfig {
        enable_safe_overflow_for_requests: flags[0],
        enable_safe_overflow_for_responses: flags[1],
        enable_fire_and_forget_requests: flags[2],
        max_active_requests_per_client: numbers[0],
        max_loaned_requests: numbers[1],
        max_response_buffer_size: numbers[2],
        max_servers: numbers[3],
        max_clients: numbers[4],
        max_nodes: numbers[5],
        max_borrowed_responses_per_pending_response: numbers[6],
        request_message_type_details: MessageTypeDetails::default(),
        response_message_type_details: MessageTypeDetails::default(),
    }
}

static FLAGS: [Setting; 3] = [
    Setting::EnableSafeOverflowForRequests,
    Setting::EnableSafeOverflowForResponses,
    Setting::EnableFireAndForgetRequests,
];

static NUMBERS_OF_REQUESTS: [Setting; 7] = [
    Setting::MaxActiveRequestsPerClient,
    Setting::MaxLoanedRequests,
    Setting::MaxResponseBufferSize,
    Setting::MaxServers,
    Setting::MaxClients,
    Setting::MaxNodes,
    Setting::MaxBorrowedResponsesPerPendingResponse,
];

#[test]
fn clients_and_servers_are_as_many(rt: HostRuntime) {
    let service = requests([true; 3], [5; 7]);
    for i in 0..7 {
        let (mut more, mut fewer) = ([5; 7], [5; 7]);
        more[i] = 6;
        fewer[i] = 4;
        assert_eq!(rt;
            (
                service.first_unmet(&requests([true; 3], more)),
                service.satisfies(&requests([true; 3], fewer)),
            ),
            (Some(NUMBERS_OF_REQUESTS[i]), true)
        );
    }
}

#[test]
fn requests_are_sent_in_the_same_way(rt: HostRuntime) {
    let service = requests([true; 3], [5; 7]);
    for i in 0..3 {
        let mut others = [true; 3];
        others[i] = false;
        assert_eq!(rt;
            service.first_unmet(&requests(others, [6; 7])),
            Some(FLAGS[i])
        );
    }
}

fn values(numbers: [usize; 3]) -> blackboard::StaticConfig {
    blackboard::StaticConfig {
        max_readers: numbers[0],
        max_writers: numbers[1],
        max_nodes: numbers[2],
        type_details: TypeDetail::default(),
    }
}

#[test]
fn readers_and_writers_are_as_many(rt: HostRuntime) {
    let service = values([5; 3]);
    assert_eq!(rt;
        [
            service.first_unmet(&values([6, 6, 6])),
            service.first_unmet(&values([4, 6, 6])),
            service.first_unmet(&values([4, 4, 6])),
            service.first_unmet(&values([4, 4, 4])),
        ],
        [
            Some(Setting::MaxReaders),
            Some(Setting::MaxWriters),
            Some(Setting::MaxNodes),
            None,
        ]
    );
    assert!(rt; service.satisfies(&values([5; 3])));
}
