//! The ports of one kind, seen as ports of any kind: how they are listed, and how those of a dead
//! node are recovered.
ghost use Rattle.std.specs.Prelude.{◌≡◌, ◌+◌, ◌≤◌, ◌<◌, ◌++◌, ◌∷◌, ◌||◌, [], IfOk, IsTrue, length};
ghost use Rattle.std.specs.Prelude.{nat_lt, not, vec_capacity, vec_len};
ghost use Rattle.std.specs.Fn.{CalledAt, TakesAt};
ghost use Rattle.iox2_container.specs.State.{container_as, registry_as};
ghost use Rattle.iox2_container.specs.Steps.{CanBeCalled, CanVisit, Visit, details_where};
ghost use Rattle.iox2_container.specs.Steps.{entries_of};
ghost use Rattle.iox2_container.specs.Steps.{is_of, listed};
ghost use Rattle.iox2_dynamic.specs.Details.{node_of, port_of};
ghost use Rattle.iox2_dynamic.specs.Ports.{CallsCleanup, PutsIf, RecoversPorts, ids_of_node};

use super::answers::PortCleanupAction;
use super::pattern::ServiceRegistry;
use super::port_details::{PortDetails, PortKind};
use iox2_container::container::{Attached, Registry, ReleaseMode};
use iox2_ids::identifiers::{UniqueNodeId, UniquePortId};
use iox2_texts::bounded::CallbackProgression;
use std::alloc::{AllocError, Global};

/// Shows each port.
pub(super) fn list_details<T: PortKind, F: FnMut(&PortDetails) -> CallbackProgression>(
    ports: &ServiceRegistry<T>,
    f: &mut F,
)
    requires { CanVisit (TakesAt F.FnMut) (CalledAt F.FnMut) f.old
        (listed (registry_as T.details ports.now.registry)) }
    ensures { Visit (CalledAt F.FnMut) f.old
        (listed (registry_as T.details ports.now.registry)) f.new }
{
    let mut show = |details: &T| -> CallbackProgression
        requires { TakesAt F.FnMut f.now (T.details details.now) }
        ensures called { CalledAt F.FnMut f.entry.now (T.details details.now) result f.exit.now }
        ensures same { f.exit.ghost_name ≡ f.entry.ghost_name }
    { f(&(*details).into_details()) };
    ports.for_each(&mut show);
}

/// The details of all ports, by rising slot, in a list of exactly that capacity.
pub(super) fn details<T: PortKind>(
    alloc: Global,
    ports: &ServiceRegistry<T>,
) -> Result<Vec<PortDetails>, AllocError>
    ensures listed { IfOk result (λ list.
        list.items ≡ listed (registry_as T.details ports.now.registry)) }
    ensures exact { IfOk result (λ list. vec_capacity list ≡ length list.items) }
{
    let mut list = Vec::with_capacity(alloc, ports.len())?;
    let mut put = |details: &T| -> CallbackProgression
        requires { vec_len list < vec_capacity list }
        ensures put { list.exit.items ≡ list.entry.items ++ T.details details.now ∷ [] }
        ensures len { vec_len list.exit ≡ vec_len list.entry + 1 }
        ensures capacity { vec_capacity list.exit ≡ vec_capacity list.entry }
        ensures goes_on { result ≡ CallbackProgression.Continue }
    {
        list.push_reserved((*details).into_details());
        CallbackProgression::Continue
    };
    ports.for_each(&mut put);
    Ok(list)
}

/// Appends the details of the node's ports to a list with the capacity for them.
pub(super) fn append_details_of<T: PortKind>(
    ports: &ServiceRegistry<T>,
    node: &UniqueNodeId,
    list: &mut Vec<PortDetails>,
)
    requires { vec_len list.old + entries_of T.Attached.node node.now ports.now.registry
        ≤ vec_capacity list.old }
    ensures items { list.new.items ≡ list.old.items
        ++ details_where (is_of node_of node.now) (registry_as T.details ports.now.registry) }
    ensures len { vec_len list.new ≡ vec_len list.old
        + entries_of T.Attached.node node.now ports.now.registry }
    ensures capacity { vec_capacity list.new ≡ vec_capacity list.old }
{
    let mut put = |details: &T| -> CallbackProgression
        requires { IsTrue (is_of T.Attached.node node.now details.now)
            → vec_len list.now < vec_capacity list.now }
        ensures put { PutsIf (is_of T.Attached.node node.entry.now details.now)
            (T.details details.now) list.entry.now list.exit.now }
        ensures same { list.exit.ghost_name ≡ list.entry.ghost_name }
        ensures goes_on { result ≡ CallbackProgression.Continue }
    {
        if details.node_id() == *node {
            list.push_reserved((*details).into_details());
        }
        CallbackProgression::Continue
    };
    ports.for_each(&mut put);
}

/// Calls the callback for each port of the node, and returns whether one is left.
pub(super) fn recover_ports<T: PortKind, F: FnMut(UniquePortId) -> PortCleanupAction>(
    ports: &mut ServiceRegistry<T>,
    dead: &UniqueNodeId,
    f: &mut F,
) -> bool
    requires { CanBeCalled F.pre F.step f.old
        (ids_of_node dead.now (container_as T.details ports.old)) }
    ensures recovered { RecoversPorts F.step dead.now
        (container_as T.details ports.old) f.old (container_as T.details ports.new) f.new }
    ensures left { result ≡
        nat_lt 0 (entries_of node_of dead.now (registry_as T.details ports.new.registry)) }
{
    let mut left = false;
    let mut goes = |details: &T| -> bool
        requires { F.pre f.now (port_of (T.details details.now)) }
        ensures called { CallsCleanup F.step f.entry.now
            (port_of (T.details details.now)) result f.exit.now }
        ensures noted { left.exit ≡ (left.entry || not result) }
        ensures same { f.exit.ghost_name ≡ f.entry.ghost_name }
    {
        let goes = f((*details).into_details().port_id()) == PortCleanupAction::RemovePort;
        if !goes {
            left = true;
        }
        goes
    };
    ports.recover(dead, &mut goes, ReleaseMode::Default);
    left
}
