//! Lists where memory is refused.
use super::services::*;
use service_examples::discovery::list_attached;
use std::test::Fail;
use test_support::memory::may_be_refused;

/// Whatever request for memory is refused, the list is whole or empty, also where it is used again.
#[test]
fn a_list_is_whole_or_empty(rt: HostRuntime) -> Result<(), Fail> {
    let alloc = rt.alloc();
    let Ok(mut service) = service(alloc, 24) else {
        assert!(rt; may_be_refused(&rt));
        return Ok(());
    };
    let mut members = Vec::new(alloc);
    for counter in 1..24 {
        service.register_node_id(node(&rt, 24 - counter))?;
        let reported = list_attached(alloc, &service, &mut members);
        let length = if reported.is_ok() {
            counter as usize
        } else {
            0
        };
        assert_eq!(rt; members.len(), length);
        assert!(rt; reported.is_ok() || may_be_refused(&rt));
    }
    Ok(())
}
