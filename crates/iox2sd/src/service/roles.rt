//! Numbers of ports.
ghost use Rattle.std.specs.Prelude.{◌≡◌, Some};
ghost use Rattle.iox2_dynamic.specs.Ports.{CountsIn};
ghost use Rattle.iox2_dynamic.specs.Service.{HasRole, first_role, second_role};
ghost use Rattle.iox2sd.specs.DeadNodes.{counted};

use iox2_container::container::Role;
use iox2_dynamic::dynamic_config::{DynamicConfig, PortRoles};

/// Numbers of ports of a pattern's first and second kind.
#[derive(Clone, Copy)]
pub(crate) struct Counts {
    pub(crate) first: usize,
    pub(crate) second: usize,
}

/// How many ports of the role there are.
fn count(service: &DynamicConfig, role: Role) -> usize
    requires { HasRole service.now.pattern role }
    ensures { CountsIn (first_role service.now.pattern) (second_role service.now.pattern)
        service.now.ports role (Some result) }
{
    match service.count_ports(role) {
        Some(count) => count,
        None => unreachable!(),
    }
}

impl Counts {
    /// How many ports of each kind there are.
    #[tactic(auto, using(crate::proofs::Counting::counts))]
    pub(crate) fn of(service: &DynamicConfig) -> Counts
        ensures { result ≡ counted service.now }
    {
        let (first, second) = service.kind().port_roles();
        Counts {
            first: count(service, first),
            second: count(service, second),
        }
    }
}
