//! A census: how many nodes and ports a service has.
ghost use Rattle.std.specs.Prelude.{◌≡◌, length};
ghost use Rattle.iox2_dynamic.specs.Service.{HasRole, first_role, second_role};

use iox2_container::container::Role;
use iox2_dynamic::dynamic_config::{DynamicConfig, PortRoles};

/// How many ports of one kind there are.
#[derive(Clone, Copy, Debug, PartialEq, Eq)]
pub struct PortCount {
    /// What the ports are.
    pub role: Role,
    /// How many there are.
    pub count: usize,
}

/// How many nodes and ports a service has.
#[derive(Clone, Copy, Debug, PartialEq, Eq)]
pub struct Census {
    /// How many handles of nodes there are: a node that is registered twice counts twice.
    pub nodes: usize,
    /// The ports of the pattern's first kind, which are recovered first.
    pub first: PortCount,
    /// The ports of the pattern's second kind.
    pub second: PortCount,
}

/// Counts the nodes and the ports of both kinds.
pub fn take_census(service: &DynamicConfig) -> Census
    ensures nodes { result.nodes ≡ length service.now.nodes.registry.entries }
    ensures first_role { result.first.role ≡ first_role service.now.pattern }
    ensures first { result.first.count ≡ length service.now.ports.first.registry.entries }
    ensures second_role { result.second.role ≡ second_role service.now.pattern }
    ensures second { result.second.count ≡ length service.now.ports.second.registry.entries }
{
    let (first, second) = service.kind().port_roles();
    Census {
        nodes: service.number_of_nodes(),
        first: count_of(service, first),
        second: count_of(service, second),
    }
}

/// How many ports there are of one of the pattern's roles.
fn count_of(service: &DynamicConfig, role: Role) -> PortCount
    requires { HasRole service.now.pattern role }
    ensures role { result.role ≡ role }
    ensures first { role ≡ first_role service.now.pattern →
        result.count ≡ length service.now.ports.first.registry.entries }
    ensures second { role ≡ second_role service.now.pattern →
        result.count ≡ length service.now.ports.second.registry.entries }
{
    match service.count_ports(role) {
        Some(count) => PortCount { role, count },
        None => unreachable!(),
    }
}
