//! Replies of containers, compared with each other.
use super::calls::{Reply, whole_replies};
use crate::nodes::{A, B};
use iox2_container::container::*;
use iox2_container::laws::*;
use std::test::Fail;

static REPLIES: [Reply; 13] = [
    Reply::Handle(1, 2),
    Reply::Handle(1, 3),
    Reply::Refused(ContainerAddFailure::IsLocked),
    Reply::Refused(ContainerAddFailure::OutOfSpace),
    Reply::State(ReleaseState::Locked),
    Reply::State(ReleaseState::Unlocked),
    Reply::NotOwned,
    Reply::NoHandle,
    Reply::Entries(&[A, B]),
    Reply::Entries(&[B, A]),
    Reply::Entries(&[A]),
    Reply::Count(0),
    Reply::Count(1),
];

#[test]
fn laws_of_replies(rt: HostRuntime) -> Result<(), Fail> {
    let replies = whole_replies(rt.alloc(), (7, Role::Node), &REPLIES)?;
    for (i, one) in replies.iter().enumerate() {
        for (k, other) in replies.iter().enumerate() {
            assert_eq!(rt; (i, k, replies_go_by_fields(one, other)), (i, k, i == k));
        }
    }
    Ok(())
}
