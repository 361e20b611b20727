//! What `Debug` prints of services, details, settings and answers: some text of each, which fails
//! where its writer does.
use super::patterns::*;
use super::rows::{Handle, Row, are_answered};
use crate::nodes::{A, ONE_OF_FIVE};
use iox2_config::hash::PatternKind;
use iox2_dynamic::dynamic_config::*;
use std::test::Fail;
use test_support::printing::is_shown;

/// Two nodes, and ports of both kinds.
static SOME_ARE_ATTACHED: [Row; 5] = [
    Row::Register(A, Ok(Handle(7, Kind::Node, 0, 0))),
    Row::Register(ONE_OF_FIVE, Ok(Handle(7, Kind::Node, 1, 1))),
    Row::Attach(Kind::First, 8, A, Ok(Handle(7, Kind::First, 0, 0))),
    Row::Attach(Kind::First, 9, A, Ok(Handle(7, Kind::First, 1, 1))),
    Row::Attach(Kind::Second, 9, A, Ok(Handle(7, Kind::Second, 0, 0))),
];

#[test]
fn services_are_shown_with_who_is_attached(rt: HostRuntime) -> Result<(), Fail> {
    for pattern in &PATTERNS {
        let mut service = service(rt.alloc(), pattern.kind, (3, 3, 3))?;
        assert!(rt; is_shown(&service));
        are_answered(&rt, &mut service, pattern, &SOME_ARE_ATTACHED)?;
        assert!(rt; is_shown(&service));
    }
    Ok(())
}

#[test]
fn details_and_settings_are_shown(rt: HostRuntime) -> Result<(), Fail> {
    let node = ONE_OF_FIVE.id()?;
    for pattern in &PATTERNS {
        assert_eq!(rt;
            [
                is_shown(&port(pattern.first, 9, node)?),
                is_shown(&port(pattern.second, 9, node)?),
                is_shown(&MessagingPatternSettings::new(pattern.kind, 3, 5)),
            ],
            [true; 3]
        );
    }
    Ok(())
}

#[test]
fn answers_are_shown(rt: HostRuntime) {
    assert_eq!(rt;
        [
            is_shown(&RegisterNodeResult::MarkedForDestruction),
            is_shown(&RegisterNodeResult::ExceedsMaxNumberOfNodes),
            is_shown(&DeregisterError::PortsStillAttached),
            is_shown(&DeregisterError::ContainerHandleNotOwnedByContainer),
            is_shown(&AttachError::ServiceIsLocked),
            is_shown(&AttachError::NodeNotRegistered),
            is_shown(&AttachError::OutOfSpace),
        ],
        [true; 7]
    );
}
