//! Makers with ample memory.
use super::memory::{EACH_KIND_HAS_ONE, listeners, publishers, readers, servers};
use super::patterns::*;
use super::rows::are_answered;
use std::alloc::{AllocError, Global};
use std::test::Fail;

/// How many first ports a new one of each pattern has.
fn first_ports(alloc: Global) -> Result<[usize; 4], AllocError> {
    Ok([
        publishers(alloc)?,
        listeners(alloc)?,
        servers(alloc)?,
        readers(alloc)?,
    ])
}

#[test]
fn each_pattern_has_a_maker(rt: HostRuntime) -> Result<(), Fail> {
    let counts = first_ports(rt.alloc())?;
    assert_eq!(rt; counts, [0; 4]);
    Ok(())
}

#[test]
fn a_service_is_made_with_one_ticket_of_each_kind(rt: HostRuntime) -> Result<(), Fail> {
    for pattern in &PATTERNS {
        let mut service = service_by_tickets(rt.alloc(), pattern.kind, (4, 4, 4), 1)?;
        are_answered(&rt, &mut service, pattern, &EACH_KIND_HAS_ONE)?;
    }
    Ok(())
}
