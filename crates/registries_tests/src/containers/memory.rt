//! `compare` where memory is refused. With ample memory it gives its
//! full answer; where one request is refused (`bench/refuse_memory` does
//! that), both registries have made the calls of a beginning of it.
use super::calls::Reply;
use super::comparison::{Comparison, OF_SCAN, compared};
use crate::nodes::A;
use iox2_container::container::*;
use iox2_ids::identifiers::UniqueNodeId;
use std::alloc::{AllocError, Global};
use std::process::Abort;
use std::test::Fail;
use test_support::memory::may_be_refused;

/// How many calls `made` makes.
const CALLS: usize = 7;

/// How many entries there are after this many calls.
static ENTRIES_AFTER: [usize; 8] = [0, 1, 2, 3, 2, 1, 2, 2];

/// On the first replies of the scan, or all of them.
fn each_add_gave_its_handle(
    rt: &impl Abort,
    alloc: Global,
    replies: &[RegistryReply<UniqueNodeId>],
) -> Result<(), Fail> {
    for (k, slot, ticket) in [(0, 0, 0), (1, 1, 1), (2, 2, 2), (5, 0, 3)] {
        if let Some(reply) = replies.get(k) {
            assert_eq!(rt; reply, &Reply::Handle(slot, ticket).whole(alloc, OF_SCAN)?);
        }
    }
    Ok(())
}

/// Where either registry has made the calls of a beginning, the answer is `Ok` after all of them.
fn are_whole_or_a_beginning(rt: &impl Abort, found: &Comparison) {
    let made = found.of_scan.len();
    let answer = if made == CALLS {
        Ok(true)
    } else {
        Err(AllocError)
    };
    assert!(rt; made < ENTRIES_AFTER.len());
    let entries = ENTRIES_AFTER[made];
    assert_eq!(rt;
        (found.same, found.of_list.len(), found.entries),
        (answer, made, (entries, entries))
    );
}

/// Three entries of a node come, two go and one comes, and they are listed.
fn made(alloc: Global, a: UniqueNodeId) -> Result<Comparison, AllocError> {
    let calls = [
        RegistryCall::Add(a),
        RegistryCall::Add(a),
        RegistryCall::Add(a),
        RegistryCall::Remove(0, ReleaseMode::Default),
        RegistryCall::Remove(1, ReleaseMode::Default),
        RegistryCall::Add(a),
        RegistryCall::List,
    ];
    compared(alloc, (3, u64::MAX), &calls)
}

/// Whatever request for memory is refused, both registries
/// have made as many calls as there are replies.
#[test]
fn memory_is_taken_for_both_before_either_changes(rt: HostRuntime) -> Result<(), Fail> {
    let Ok(found) = made(rt.alloc(), A.id()?) else {
        assert!(rt; may_be_refused(&rt));
        return Ok(());
    };
    assert!(rt; found.of_scan.len() == CALLS || may_be_refused(&rt));
    are_whole_or_a_beginning(&rt, &found);
    each_add_gave_its_handle(&rt, rt.alloc(), &found.of_scan)
}
