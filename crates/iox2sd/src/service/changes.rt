//! Calls that change a service: nodes register and deregister, ports are attached and released.
ghost use Rattle.std.specs.Prelude.{All, Err};
ghost use Rattle.iox2sd.specs.Answers.{handle_answer};
ghost use Rattle.iox2sd.specs.Changes.{Registers, Deregisters, Releases, AttachesAt};
ghost use Rattle.iox2sd.specs.Objects.{IsSoundObject, At};
ghost use Rattle.iox2sd.specs.Ports.{AttachesPort};
ghost use Rattle.iox2sd_common.specs.Status.{code};

use super::Service;
use crate::values::{Handle, HandleAnswer, Port};
use iox2_dynamic::dynamic_config::{
    AttachError, DeregisterError, DeregisterNodeState, DynamicConfig, RegisterNodeResult,
};
use iox2sd_common::given_or_return;
use iox2sd_common::id::Id;
use iox2sd_common::status::Status;

/// Registers a node.
fn register(service: &mut DynamicConfig, node: Id) -> Result<Handle, Status>
    ensures { Registers node service.old result service.new }
{
    let node = node.of_node().ok_or(Status::NoNode)?;
    match service.register_node_id(node) {
        Ok(made) => Ok(Handle::of(made)),
        Err(RegisterNodeResult::MarkedForDestruction) => Err(Status::IsLocked),
        Err(RegisterNodeResult::ExceedsMaxNumberOfNodes) => Err(Status::OutOfSpace),
    }
}

/// Registers a node, which may have several handles.
///
/// Errors, in this order: NULL, an object without a service, an id of no node, a locked service, no
/// slot or no ticket left.
#[unsafe(no_mangle)]
pub extern "C" fn iox2sd_register_node_id_at(objects: &mut [Service], node: Id) -> HandleAnswer
    requires { All IsSoundObject objects.old }
    ensures { At handle_answer Err (Registers node) objects.old result objects.new }
{
    let service = lent_or_return!(objects, status => HandleAnswer::of(Err(status)));
    HandleAnswer::of(register(service, node))
}

/// Deregisters a node.
fn deregister(service: &mut DynamicConfig, handle: Handle) -> Status
    ensures { Deregisters handle service.old result service.new }
{
    let Some(handle) = handle.read() else {
        return Status::UnknownRole;
    };
    match service.deregister_node_id(handle) {
        Ok(DeregisterNodeState::HasOwners) => Status::Done,
        Ok(DeregisterNodeState::NoMoreOwners) => Status::DoneLocked,
        Err(DeregisterError::ContainerHandleNotOwnedByContainer) => Status::ForeignHandle,
        Err(DeregisterError::PortsStillAttached) => Status::PortsStillAttached,
    }
}

/// Deregisters the node with this handle. Returns whether the service is locked for good, which it
/// is after the last one.
///
/// Errors, in this order: NULL, an object without a service, a number of no role, a handle that is
/// not that of a node here, and one that is the only one of its node while some port has that node.
#[unsafe(no_mangle)]
pub extern "C" fn iox2sd_deregister_node_id_at(objects: &mut [Service], handle: Handle) -> u32
    requires { All IsSoundObject objects.old }
    ensures { At code (λ s. s) (Deregisters handle) objects.old result objects.new }
{
    let service = lent_or_return!(objects, status => status.code());
    deregister(service, handle).code()
}

/// Attaches a port.
fn attach(service: &mut DynamicConfig, port: &Port) -> Result<Handle, Status>
    ensures { AttachesPort port.now service.old result service.new }
{
    let details = port.read()?;
    match service.attach_if_has_role(details) {
        Some(Ok(made)) => Ok(Handle::of(made)),
        Some(Err(AttachError::ServiceIsLocked)) => Err(Status::IsLocked),
        Some(Err(AttachError::NodeNotRegistered)) => Err(Status::NodeNotRegistered),
        Some(Err(AttachError::OutOfSpace)) => Err(Status::OutOfSpace),
        None => Err(Status::RoleNotInPattern),
    }
}

/// Attaches a port of one of the pattern's roles.
///
/// Errors, in this order: NULL for the port and for the object, an object without a service, an id
/// that is not a node's, a role that is not that of a port, an unknown kind of data segment, a role
/// that the pattern does not have, a locked service, a node that is not registered, by its whole
/// id, no slot or no ticket left.
#[unsafe(no_mangle)]
pub extern "C" fn iox2sd_attach_at(objects: &mut [Service], ports: &[Port]) -> HandleAnswer
    requires { All IsSoundObject objects.old }
    ensures { AttachesAt ports.now objects.old result objects.new }
{
    let port = given_or_return!(ports, HandleAnswer::of(Err(Status::Null)));
    let service = lent_or_return!(objects, status => HandleAnswer::of(Err(status)));
    HandleAnswer::of(attach(service, port))
}

/// Releases a port.
fn release(service: &mut DynamicConfig, handle: Handle) -> Status
    ensures { Releases handle service.old result service.new }
{
    let Some(handle) = handle.read() else {
        return Status::UnknownRole;
    };
    match service.release_port(handle) {
        Ok(()) => Status::Done,
        Err(_) => Status::ForeignHandle,
    }
}

/// Releases the port with this handle.
///
/// Errors, in this order: NULL, an object without a service, a number of no role, and a handle that
/// is not that of a port here.
#[unsafe(no_mangle)]
pub extern "C" fn iox2sd_release_port_at(objects: &mut [Service], handle: Handle) -> u32
    requires { All IsSoundObject objects.old }
    ensures { At code (λ s. s) (Releases handle) objects.old result objects.new }
{
    let service = lent_or_return!(objects, status => status.code());
    release(service, handle).code()
}
