//! Calls and replies, in words that a constant table may hold.
use crate::nodes::Node;
use iox2_container::container::*;
use iox2_ids::identifiers::UniqueNodeId;
use std::alloc::Global;
use std::test::Fail;

#[derive(Clone, Copy)]
pub(super) enum Call<'a> {
    Add(Node),
    Remove(usize, ReleaseMode),
    /// Recovers a dead node, but keeps the entries of these nodes.
    Recover(Node, &'a [Node], ReleaseMode),
    List,
    Len,
}

#[derive(Clone, Copy)]
pub(super) enum Reply<'a> {
    /// The handle of this slot and ticket.
    Handle(usize, u64),
    Refused(ContainerAddFailure),
    State(ReleaseState),
    NotOwned,
    NoHandle,
    Entries(&'a [Node]),
    Count(usize),
}

/// The ids of nodes.
fn ids(alloc: Global, nodes: &[Node]) -> Result<Vec<UniqueNodeId>, Fail> {
    let mut ids = Vec::new(alloc);
    for node in nodes {
        ids.push(node.id()?)?;
    }
    Ok(ids)
}

/// The keys of nodes.
fn keys(alloc: Global, nodes: &[Node]) -> Result<Vec<u128>, Fail> {
    let mut keys = Vec::new(alloc);
    for node in nodes {
        keys.push(node.id()?.value())?;
    }
    Ok(keys)
}

impl Call<'_> {
    fn whole(self, alloc: Global) -> Result<RegistryCall<UniqueNodeId>, Fail> {
        Ok(match self {
            Call::Add(node) => RegistryCall::Add(node.id()?),
            Call::Remove(k, mode) => RegistryCall::Remove(k, mode),
            Call::Recover(dead, kept, mode) => {
                RegistryCall::Recover(dead.id()?, keys(alloc, kept)?, mode)
            }
            Call::List => RegistryCall::List,
            Call::Len => RegistryCall::Len,
        })
    }
}

impl Reply<'_> {
    /// The reply of a registry with this service and role.
    pub(super) fn whole(
        self,
        alloc: Global,
        (service, role): (u64, Role),
    ) -> Result<RegistryReply<UniqueNodeId>, Fail> {
        Ok(match self {
            Reply::Handle(slot, ticket) => {
                RegistryReply::Handle(ContainerHandle::from_parts(service, role, slot, ticket))
            }
            Reply::Refused(why) => RegistryReply::Refused(why),
            Reply::State(state) => RegistryReply::State(state),
            Reply::NotOwned => RegistryReply::NotOwned,
            Reply::NoHandle => RegistryReply::NoHandle,
            Reply::Entries(nodes) => RegistryReply::Entries(ids(alloc, nodes)?),
            Reply::Count(count) => RegistryReply::Count(count),
        })
    }
}

pub(super) fn whole_calls(
    alloc: Global,
    calls: &[Call],
) -> Result<Vec<RegistryCall<UniqueNodeId>>, Fail> {
    let mut whole = Vec::new(alloc);
    for call in calls {
        whole.push(call.whole(alloc)?)?;
    }
    Ok(whole)
}

/// The replies of a registry with this service and role.
pub(super) fn whole_replies(
    alloc: Global,
    of: (u64, Role),
    replies: &[Reply],
) -> Result<Vec<RegistryReply<UniqueNodeId>>, Fail> {
    let mut whole = Vec::new(alloc);
    for reply in replies {
        whole.push(reply.whole(alloc, of)?)?;
    }
    Ok(whole)
}
