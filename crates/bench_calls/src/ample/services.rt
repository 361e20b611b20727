//! The makers of services and of the ports of each pattern.
use super::{Called, is_given};
use iox2_dynamic::dynamic_config::{
    DynamicConfig, MessagingPatternSettings, blackboard, event, publish_subscribe, request_response,
};
use service_descriptions::hash::PatternKind;
use service_descriptions::replay::ServiceState;
use std::alloc::Global;

/// The capacities of a service: first ports, second ports and nodes.
type Capacities = (usize, usize, usize);

/// The ports alone, by the maker of the pattern.
fn makes_ports(alloc: Global, settings: &MessagingPatternSettings) -> bool {
    match settings {
        MessagingPatternSettings::PublishSubscribe(capacities) => {
            is_given(publish_subscribe::DynamicConfig::new(alloc, capacities, 7))
        }
        MessagingPatternSettings::Event(capacities) => {
            is_given(event::DynamicConfig::new(alloc, capacities, 7))
        }
        MessagingPatternSettings::RequestResponse(capacities) => {
            is_given(request_response::DynamicConfig::new(alloc, capacities, 7))
        }
        MessagingPatternSettings::Blackboard(capacities) => {
            is_given(blackboard::DynamicConfig::new(alloc, capacities, 7))
        }
    }
}

/// The ports of each pattern.
fn ports(alloc: Global, first: usize, second: usize) -> bool {
    let mut all = true;
    for pattern in PatternKind::ALL {
        let settings = MessagingPatternSettings::new(pattern, first, second);
        all = all && makes_ports(alloc, &settings);
    }
    all
}

/// A service of each pattern.
fn services(alloc: Global, (nodes, first, second): Capacities) -> bool {
    let mut all = true;
    for pattern in PatternKind::ALL {
        let settings = MessagingPatternSettings::new(pattern, first, second);
        all = all && is_given(DynamicConfig::new(alloc, &settings, nodes, 7));
    }
    all
}

/// A service of each pattern with this many tickets.
fn by_tickets(alloc: Global, tickets: u64) -> bool {
    let mut all = true;
    for pattern in PatternKind::ALL {
        let settings = MessagingPatternSettings::new(pattern, 1, 1);
        all = all && is_given(DynamicConfig::with_tickets(alloc, &settings, 1, 7, tickets));
    }
    all
}

/// The state of a service of each pattern.
fn states(alloc: Global, (nodes, first, second): Capacities) -> bool {
    let mut all = true;
    for pattern in PatternKind::ALL {
        let settings = MessagingPatternSettings::new(pattern, first, second);
        all = all && is_given(ServiceState::new(alloc, &settings, nodes, 7));
    }
    all
}

pub(super) fn calls(alloc: Global, size: usize) -> [Called; 9] {
    let tickets = size as u64;
    [
        ("the ports of a pattern by first", ports(alloc, size, 1)),
        ("the ports of a pattern by second", ports(alloc, 1, size)),
        ("DynamicConfig::new by nodes", services(alloc, (size, 1, 1))),
        ("DynamicConfig::new by first", services(alloc, (1, size, 1))),
        (
            "DynamicConfig::new by second",
            services(alloc, (1, 1, size)),
        ),
        ("DynamicConfig::with_tickets", by_tickets(alloc, tickets)),
        ("ServiceState::new by nodes", states(alloc, (size, 1, 1))),
        ("ServiceState::new by first", states(alloc, (1, size, 1))),
        ("ServiceState::new by second", states(alloc, (1, 1, size))),
    ]
}
