//! Questions to a service: its pattern, its number, its lock, its roles, how many nodes and ports
//! there are and may be, whether one more may join, and what a handle stands for.
//!
//! Each refuses NULL (`Null`), then an object without a service (`NoService`), and then what it
//! names.
#![tactic(auto, using(crate::proofs::Lending::same_objects))]

ghost use Rattle.std.specs.Prelude.{◌≡◌, All, length};
ghost use Rattle.iox2_config.specs.Hashing.{pattern_number};
ghost use Rattle.iox2sd.specs.Answers.{id_answer, number_answer, port_answer, roles_answer};
ghost use Rattle.iox2sd.specs.Objects.{IsSoundObject, Answers};
ghost use Rattle.iox2sd.specs.Queries.{Gives, RoleAnswer, roles_in, PortsAnswer, RoomAnswer};
ghost use Rattle.iox2sd.specs.Queries.{NodeRoomAnswer, FindsNode, FindsPort};
ghost use Rattle.iox2sd_common.specs.Answers.{flag_answer, c_count};

use super::Service;
use crate::values::{
    Handle, IdAnswer, NumberAnswer, Port, PortAnswer, Roles, RolesAnswer, role_of,
};
use iox2_dynamic::dynamic_config::{DynamicConfig, PortRoles};
use iox2sd_common::answers::{CountAnswer, FlagAnswer};
use iox2sd_common::id::Id;
use iox2sd_common::status::Status;

/// The answer of this type on the service of the first object.
macro_rules! answer {
    ($objects:expr, $answer:ident, $service:ident => $found:expr) => {{
        let $service = lent_or_return!($objects, status => $answer::of(Err(status)));
        $answer::of($found)
    }};
}

/// Whether the pattern has ports of the role of this number.
fn has_role(service: &DynamicConfig, role: u64) -> Result<bool, Status>
    ensures { RoleAnswer role service.now result }
{
    let role = role_of(role).ok_or(Status::UnknownRole)?;
    Ok(service.has_role(role))
}

/// The numbers of the roles of the pattern's two kinds of ports.
fn port_roles(service: &DynamicConfig) -> Roles
    ensures { result ≡ roles_in service.now }
{
    let (first, second) = service.kind().port_roles();
    Roles {
        first: first as u64,
        second: second as u64,
    }
}

/// The number of the pattern.
#[unsafe(no_mangle)]
pub extern "C" fn iox2sd_messaging_pattern_at(objects: &mut [Service]) -> NumberAnswer
    requires { All IsSoundObject objects.old }
    ensures answer { Answers number_answer (Gives (λ s. pattern_number s.pattern))
        objects.old result }
    ensures unchanged { objects.new ≡ objects.old }
{
    answer!(objects, NumberAnswer, service => Ok(service.kind() as u64))
}

/// The roles of the pattern's two kinds of ports.
#[unsafe(no_mangle)]
pub extern "C" fn iox2sd_port_roles_at(objects: &mut [Service]) -> RolesAnswer
    requires { All IsSoundObject objects.old }
    ensures answer { Answers roles_answer (Gives roles_in) objects.old result }
    ensures unchanged { objects.new ≡ objects.old }
{
    answer!(objects, RolesAnswer, service => Ok(port_roles(service)))
}

/// The service's number, which each of its handles has.
#[unsafe(no_mangle)]
pub extern "C" fn iox2sd_service_number_at(objects: &mut [Service]) -> NumberAnswer
    requires { All IsSoundObject objects.old }
    ensures answer { Answers number_answer (Gives (λ s. s.nodes.registry.service))
        objects.old result }
    ensures unchanged { objects.new ≡ objects.old }
{
    answer!(objects, NumberAnswer, service => Ok(service.service_number()))
}

/// Whether the service is locked for good.
#[unsafe(no_mangle)]
pub extern "C" fn iox2sd_is_locked_at(objects: &mut [Service]) -> FlagAnswer
    requires { All IsSoundObject objects.old }
    ensures answer { Answers flag_answer (Gives (λ s. s.nodes.registry.locked)) objects.old result }
    ensures unchanged { objects.new ≡ objects.old }
{
    answer!(objects, FlagAnswer, service => Ok(service.is_locked()))
}

/// Whether the pattern has ports of the role. Refused is a number of no role (`UnknownRole`).
#[unsafe(no_mangle)]
pub extern "C" fn iox2sd_has_role_at(objects: &mut [Service], role: u64) -> FlagAnswer
    requires { All IsSoundObject objects.old }
    ensures answer { Answers flag_answer (RoleAnswer role) objects.old result }
    ensures unchanged { objects.new ≡ objects.old }
{
    answer!(objects, FlagAnswer, service => has_role(service, role))
}

/// How many ports of the role of this number there are.
fn count_ports(service: &DynamicConfig, role: u64) -> Result<usize, Status>
    ensures { PortsAnswer (λ r n. n ≡ length r.entries) role service.now result }
{
    let role = role_of(role).ok_or(Status::UnknownRole)?;
    service.count_ports(role).ok_or(Status::RoleNotInPattern)
}

/// How many ports of the role of this number there may be.
fn max_ports(service: &DynamicConfig, role: u64) -> Result<usize, Status>
    ensures { PortsAnswer (λ r n. n ≡ r.capacity) role service.now result }
{
    let role = role_of(role).ok_or(Status::UnknownRole)?;
    service.max_ports(role).ok_or(Status::RoleNotInPattern)
}

/// Whether a port of the role of this number can be attached.
fn has_room(service: &DynamicConfig, role: u64) -> Result<bool, Status>
    ensures { RoomAnswer role service.now result }
{
    let role = role_of(role).ok_or(Status::UnknownRole)?;
    if !service.has_role(role) {
        return Err(Status::RoleNotInPattern);
    }
    Ok(service.has_room(role))
}

/// Whether a node can be registered.
fn has_room_for_node(service: &DynamicConfig) -> Result<bool, Status>
    ensures { NodeRoomAnswer service.now result }
{
    Ok(service.has_room_for_node())
}

/// How many handles of nodes there are.
#[unsafe(no_mangle)]
pub extern "C" fn iox2sd_number_of_nodes_at(objects: &mut [Service]) -> CountAnswer
    requires { All IsSoundObject objects.old }
    ensures answer { Answers c_count (Gives (λ s. length s.nodes.registry.entries))
        objects.old result }
    ensures unchanged { objects.new ≡ objects.old }
{
    answer!(objects, CountAnswer, service => Ok(service.number_of_nodes()))
}

/// How many handles of nodes there may be at a time.
#[unsafe(no_mangle)]
pub extern "C" fn iox2sd_max_nodes_at(objects: &mut [Service]) -> CountAnswer
    requires { All IsSoundObject objects.old }
    ensures answer { Answers c_count (Gives (λ s. s.nodes.registry.capacity)) objects.old result }
    ensures unchanged { objects.new ≡ objects.old }
{
    answer!(objects, CountAnswer, service => Ok(service.max_nodes()))
}

/// Whether `iox2sd_register_node_id` would register a node.
#[unsafe(no_mangle)]
pub extern "C" fn iox2sd_has_room_for_node_at(objects: &mut [Service]) -> FlagAnswer
    requires { All IsSoundObject objects.old }
    ensures answer { Answers flag_answer NodeRoomAnswer objects.old result }
    ensures unchanged { objects.new ≡ objects.old }
{
    answer!(objects, FlagAnswer, service => has_room_for_node(service))
}

/// How many ports of the role there are. Refused are, in this order, a number of no role
/// (`UnknownRole`), and a role that the pattern does not have (`RoleNotInPattern`).
#[unsafe(no_mangle)]
pub extern "C" fn iox2sd_count_ports_at(objects: &mut [Service], role: u64) -> CountAnswer
    requires { All IsSoundObject objects.old }
    ensures answer { Answers c_count (PortsAnswer (λ r n. n ≡ length r.entries)
        role)
        objects.old result }
    ensures unchanged { objects.new ≡ objects.old }
{
    answer!(objects, CountAnswer, service => count_ports(service, role))
}

/// How many ports of the role there may be at a time. Refused as `iox2sd_count_ports` is.
#[unsafe(no_mangle)]
pub extern "C" fn iox2sd_max_ports_at(objects: &mut [Service], role: u64) -> CountAnswer
    requires { All IsSoundObject objects.old }
    ensures answer { Answers c_count (PortsAnswer (λ r n. n ≡ r.capacity) role) objects.old result }
    ensures unchanged { objects.new ≡ objects.old }
{
    answer!(objects, CountAnswer, service => max_ports(service, role))
}

/// Whether `iox2sd_attach` would attach a port of the role, if its node is registered. Refused as
/// `iox2sd_count_ports` is.
#[unsafe(no_mangle)]
pub extern "C" fn iox2sd_has_room_at(objects: &mut [Service], role: u64) -> FlagAnswer
    requires { All IsSoundObject objects.old }
    ensures answer { Answers flag_answer (RoomAnswer role) objects.old result }
    ensures unchanged { objects.new ≡ objects.old }
{
    answer!(objects, FlagAnswer, service => has_room(service, role))
}

/// The node of the handle.
fn find_node(service: &DynamicConfig, handle: Handle) -> Result<Id, Status>
    ensures { FindsNode handle service.now result }
{
    let handle = handle.read().ok_or(Status::UnknownRole)?;
    let node = service.node(handle).ok_or(Status::ForeignHandle)?;
    Ok(Id::of_number(node.value()))
}

/// The port of the handle.
fn find_port(service: &DynamicConfig, handle: Handle) -> Result<Port, Status>
    ensures { FindsPort handle service.now result }
{
    let handle = handle.read().ok_or(Status::UnknownRole)?;
    let details = service.port(handle).ok_or(Status::ForeignHandle)?;
    Ok(Port::of(&details))
}

/// The node that was registered with this handle. Refused are, in this order, a number of no role
/// (`UnknownRole`), and each handle that is not that of a node here (`ForeignHandle`).
#[unsafe(no_mangle)]
pub extern "C" fn iox2sd_node_at(objects: &mut [Service], handle: Handle) -> IdAnswer
    requires { All IsSoundObject objects.old }
    ensures answer { Answers id_answer (FindsNode handle) objects.old result }
    ensures unchanged { objects.new ≡ objects.old }
{
    answer!(objects, IdAnswer, service => find_node(service, handle))
}

/// The port that was attached with this handle. Refused are, in this order, a number of no role
/// (`UnknownRole`), and each handle that is not that of a port here (`ForeignHandle`).
#[unsafe(no_mangle)]
pub extern "C" fn iox2sd_port_at(objects: &mut [Service], handle: Handle) -> PortAnswer
    requires { All IsSoundObject objects.old }
    ensures answer { Answers port_answer (FindsPort handle) objects.old result }
    ensures unchanged { objects.new ≡ objects.old }
{
    answer!(objects, PortAnswer, service => find_port(service, handle))
}
