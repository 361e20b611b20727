//! Calls on who is attached to a service.

use iox2_config::config::DataSegmentType;
use iox2_container::container::{ContainerHandle, Role};
use iox2_dynamic::dynamic_config::{
    DynamicConfig, MessagingPatternSettings, PortCleanupAction, PortDetails, PublisherDetails,
    SubscriberDetails, publish_subscribe,
};
use iox2_ids::identifiers::{UniqueNodeId, UniquePortId, UniquePublisherId, UniqueSubscriberId};
use iox2_texts::bounded::CallbackProgression;
use std::alloc::{AllocError, Global};

/// The capacities of a publish-subscribe service for nodes and ports.
#[derive(Clone, Copy, Debug)]
pub(super) struct Capacities {
    pub(super) nodes: u32,
    pub(super) subscribers: u32,
    pub(super) publishers: u32,
}

/// A publish-subscribe service, and the handles of its nodes and subscribers.
#[derive(Drop)]
pub(super) struct Attached {
    capacities: Capacities,
    service: DynamicConfig,
    nodes: Vec<ContainerHandle>,
    subscribers: Vec<ContainerHandle>,
}

impl Attached {
    /// A service without nodes and ports.
    pub(super) fn new(alloc: Global, capacities: Capacities) -> Result<Self, AllocError> {
        let ports = publish_subscribe::DynamicConfigSettings {
            number_of_subscribers: capacities.subscribers as usize,
            number_of_publishers: capacities.publishers as usize,
        };
        let settings = MessagingPatternSettings::PublishSubscribe(ports);
        let nodes = Vec::with_capacity(alloc, capacities.nodes as usize)?;
        let subscribers = Vec::with_capacity(alloc, capacities.subscribers as usize)?;
        let service = DynamicConfig::new(alloc, &settings, capacities.nodes as usize, 7)?;
        Ok(Attached {
            capacities,
            service,
            nodes,
            subscribers,
        })
    }

    /// Registers all nodes.
    pub(super) fn register_all(&mut self) -> Result<(), AllocError> {
        self.register(self.capacities.nodes)?;
        Ok(())
    }

    /// Registers all nodes, and attaches all ports.
    pub(super) fn fill(&mut self) -> Result<(), AllocError> {
        self.register_all()?;
        self.attach_subscribers(self.capacities.subscribers)?;
        self.attach_publishers(self.capacities.publishers);
        Ok(())
    }

    /// Registers this many nodes, and says how many there are.
    pub(super) fn register(&mut self, count: u32) -> Result<u64, AllocError> {
        for number in 0..count {
            let Some(id) = node(number + 1) else {
                continue;
            };
            if let Ok(handle) = self.service.register_node_id(id) {
                self.nodes.push(handle)?;
            }
        }
        Ok(self.nodes.len() as u64)
    }

    /// Attaches this many subscribers, the first one to the
    /// last node and so on, and says how many there are.
    pub(super) fn attach_subscribers(&mut self, count: u32) -> Result<u64, AllocError> {
        for number in 0..count {
            let Some(node_id) = node(self.capacities.nodes.saturating_sub(number)) else {
                continue;
            };
            let details = PortDetails::Subscriber(SubscriberDetails {
                subscriber_id: UniqueSubscriberId::new(1, 0, 1, number),
                node_id,
                buffer_size: 2,
            });
            if let Some(handle) = self.attach(details) {
                self.subscribers.push(handle)?;
            }
        }
        Ok(self.subscribers.len() as u64)
    }

    /// Attaches this many publishers, the first one to the last node and so on.
    pub(super) fn attach_publishers(&mut self, count: u32) {
        for number in 0..count {
            let Some(node_id) = node(self.capacities.nodes.saturating_sub(number)) else {
                continue;
            };
            let _handle = self.attach(PortDetails::Publisher(PublisherDetails {
                publisher_id: UniquePublisherId::new(1, 0, 2, number),
                node_id,
                number_of_samples: 2,
                max_slice_len: 1,
                data_segment_type: DataSegmentType::Static,
                max_number_of_segments: 1,
            }));
        }
    }

    fn attach(&mut self, details: PortDetails) -> Option<ContainerHandle> {
        self.service.attach_if_has_role(details)?.ok()
    }

    /// Shows all subscribers to a callback this often, and adds up the last parts of their ids.
    #[tactic(auto, using(iox2_dynamic::proofs::Callbacks::callbacks))]
    pub(super) fn list(&self, count: u32) -> u64 {
        let mut digest = 0u64;
        let mut add = |details: &PortDetails| -> CallbackProgression {
            if let PortDetails::Subscriber(subscriber) = details {
                digest = digest.wrapping_add((subscriber.subscriber_id.value() % (1 << 32)) as u64);
            }
            CallbackProgression::Continue
        };
        for _ in 0..count {
            self.service.list_ports(Role::Subscriber, &mut add);
        }
        digest
    }

    /// Makes a list of all nodes this often, and adds
    /// up the last parts of the ids of its last node.
    pub(super) fn list_nodes(&self, alloc: Global, count: u32) -> Result<u64, AllocError> {
        let mut digest = 0u64;
        for _ in 0..count {
            if let Some(last) = self.service.nodes(alloc)?.last() {
                digest = digest.wrapping_add((last.value() % (1 << 32)) as u64);
            }
        }
        Ok(digest)
    }

    /// Makes a list of all subscribers this often, and
    /// adds up the last parts of the ids of its last one.
    pub(super) fn list_subscribers(&self, alloc: Global, count: u32) -> Result<u64, AllocError> {
        let mut digest = 0u64;
        for _ in 0..count {
            let Some(ports) = self.service.ports(alloc, Role::Subscriber)? else {
                continue;
            };
            if let Some(PortDetails::Subscriber(last)) = ports.last() {
                digest = digest.wrapping_add((last.subscriber_id.value() % (1 << 32)) as u64);
            }
        }
        Ok(digest)
    }

    /// Releases this many subscribers, and says how many went.
    pub(super) fn release(&mut self, count: u32) -> u64 {
        let mut gone = 0u64;
        for handle in self.subscribers.iter().take(count as usize) {
            gone = gone.wrapping_add(self.service.release_port(*handle).is_ok() as u64);
        }
        gone
    }

    /// Deregisters this many nodes, and says how many went.
    pub(super) fn deregister(&mut self, count: u32) -> u64 {
        let mut gone = 0u64;
        for handle in self.nodes.iter().take(count as usize) {
            gone = gone.wrapping_add(self.service.deregister_node_id(*handle).is_ok() as u64);
        }
        gone
    }

    /// So many nodes die, the last one first, and says how many ports they had.
    #[tactic(auto, using(iox2_dynamic::proofs::Callbacks::callbacks))]
    pub(super) fn die(&mut self, count: u32) -> u64 {
        let mut ports = 0u64;
        for number in 0..count {
            let Some(dead) = node(self.capacities.nodes.saturating_sub(number)) else {
                continue;
            };
            let mut remove = |_port: UniquePortId| -> PortCleanupAction {
                ports = ports.wrapping_add(1);
                PortCleanupAction::RemovePort
            };
            self.service.remove_dead_node_id(&dead, &mut remove);
        }
        ports
    }
}

/// The node of process 1 with this counter.
fn node(counter: u32) -> Option<UniqueNodeId> {
    UniqueNodeId::new(1, 0, 0, counter)
}
