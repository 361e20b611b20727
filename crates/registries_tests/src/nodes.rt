//! Ids of nodes.

use iox2_ids::identifiers::UniqueNodeId;
use std::test::Fail;

/// A node of this process with these seconds, no nanoseconds and this counter.
#[derive(Clone, Copy)]
pub(super) struct Node(pub(super) u32, pub(super) u32, pub(super) u32);

impl Node {
    pub(super) fn id(self) -> Result<UniqueNodeId, Fail> {
        let Node(process, seconds, counter) = self;
        Ok(UniqueNodeId::new(process, seconds, 0, counter).ok_or("no node has these parts")?)
    }
}

pub(super) const A: Node = Node(1, 0, 1);

pub(super) const B: Node = Node(2, 0, 1);

pub(super) const C: Node = Node(3, 0, 1);

/// Two nodes that share an owner id.
pub(super) const ONE_OF_FIVE: Node = Node(1, 1, 5);

pub(super) const TWO_OF_FIVE: Node = Node(1, 2, 5);
