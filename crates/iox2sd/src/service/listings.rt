//! Listings into a caller's array.
ghost use Rattle.std.specs.Prelude.{◌≡◌, ◌+◌, ℕ, All, IsTrue, length, map};
ghost use Rattle.iox2_container.specs.Steps.{is_of};
ghost use Rattle.iox2_dynamic.specs.Details.{node_of};
ghost use Rattle.iox2_dynamic.specs.Ports.{ports_as, ports_of_node};
ghost use Rattle.iox2sd.specs.Listings.{Puts, PutsAll, ports_in, ports_of_kind, ListsAll, ListsPorts};
ghost use Rattle.iox2sd.specs.Listings.{nodes_in, ListsNodes, listed_answer};
ghost use Rattle.iox2sd.specs.Listings.{Counts as CountsTo, PutsAt, Notes, NotesOfRole};
ghost use Rattle.iox2sd.specs.Listings.{AllFit, Stand, ListsPortsOf};
ghost use Rattle.iox2sd.specs.Objects.{IsSoundObject, AnswersQuery};
ghost use Rattle.iox2sd.specs.Ports.{c_port};
ghost use Rattle.iox2sd_common.specs.Ids.{id_of};
ghost use Rattle.iox2sd.specs.declared.service.listings.Listed.TheVariants as listed;

use super::Service;
use super::roles::Counts;
use crate::values::{Port, role_of};
use iox2_config::hash::PatternKind;
use iox2_container::container::Role;
use iox2_dynamic::dynamic_config::{
    DynamicConfig, PortDetails, PortKind, PortRegistries, PortRoles,
};
use iox2_ids::identifiers::UniqueNodeId;
use iox2_texts::bounded::CallbackProgression;
use iox2sd_common::answers::{CountAnswer, count};
use iox2sd_common::id::Id;
use iox2sd_common::status::Status;

/// What became of a listing.
pub(super) enum Listed {
    /// All stand at the front of the array; so many are listed.
    All(usize),
    /// The array is too short; so many are needed.
    TooShort(usize),
    /// The call was refused.
    Refused(Status),
}

impl Listed {
    /// The answer with it.
    pub(super) fn answer(self) -> CountAnswer
        ensures { result ≡ listed_answer self }
    {
        match self {
            Listed::All(number) => count(Status::Done, number),
            Listed::TooShort(number) => count(Status::BufferTooShort, number),
            Listed::Refused(status) => count(status, 0),
        }
    }
}

/// Puts an item at the next index, or stops where there is none.
#[inline(always)]
fn put<T: Copy>(out: &mut [T], used: &mut usize, item: T) -> CallbackProgression
    ensures { Puts (out.old, used.old) item result (out.new, used.new) }
{
    if *used < out.len() {
        out[*used] = item;
        *used += 1;
        CallbackProgression::Continue
    } else {
        CallbackProgression::Stop
    }
}

/// Puts the ids of the nodes at the front of the array.
#[tactic(auto, using(iox2_dynamic::proofs::Callbacks::callbacks))]
fn put_nodes(service: &DynamicConfig, out: &mut [Id], used: &mut usize)
    ensures { PutsAll (nodes_in service.now.nodes) (out.old, used.old) (out.new, used.new) }
{
    let mut note = |node: &UniqueNodeId| -> CallbackProgression
        ensures noted { Puts (out.entry.now, used.entry.now)
            (id_of node.now) result (out.exit.now, used.exit.now) }
        ensures same { out.exit.ghost_name ≡ out.entry.ghost_name }
    { put(out, used, Id::of_number(node.value())) };
    service.list_node_ids(&mut note);
}

/// Lists the ids of the nodes.
fn list_nodes(service: &DynamicConfig, out: &mut [Id]) -> Listed
    ensures { ListsNodes out.old service.now result out.new }
{
    let number = service.number_of_nodes();
    if number > out.len() {
        return Listed::TooShort(number);
    }
    let mut used = 0;
    put_nodes(service, out, &mut used);
    Listed::All(number)
}

/// Lists the ids of the nodes by rising slot, one for each handle, at the front of an array, whose
/// other elements stay as they were, and returns how many there are. Where the array is too short
/// for all, it stays as it was, and the length that it needs is returned.
///
/// Errors, in this order: NULL, an object without a service, and too short an array.
#[tactic(auto, using(crate::proofs::Lending::same_objects))]
#[unsafe(no_mangle)]
pub extern "C" fn iox2sd_nodes_at(objects: &mut [Service], out: &mut [Id]) -> CountAnswer
    requires { All IsSoundObject objects.old }
    ensures answer { AnswersQuery listed_answer listed.Refused (out.new ≡ out.old)
        (λ service made. ListsNodes out.old service made out.new) objects.old result }
    ensures unchanged { objects.new ≡ objects.old }
{
    let service = lent_or_return!(objects, status => Listed::Refused(status).answer());
    list_nodes(service, out).answer()
}

/// Puts the ports of the first kind behind those that were put before.
#[tactic(auto, using(iox2_dynamic::proofs::Callbacks::callbacks))]
fn put_first<A: PortKind, B: PortKind>(
    ports: &PortRegistries<A, B>,
    out: &mut [Port],
    used: &mut usize,
)
    ensures { PutsAll (ports_in (ports_as A.details B.details ports.now).first)
        (out.old, used.old) (out.new, used.new) }
{
    let mut note = |details: &A| -> CallbackProgression
        ensures noted { Puts (out.entry.now, used.entry.now)
            (c_port (A.details details.now)) result (out.exit.now, used.exit.now) }
        ensures same { out.exit.ghost_name ≡ out.entry.ghost_name }
    { put(out, used, Port::of(&(*details).into_details())) };
    ports.list_first(&mut note);
}

/// Puts the ports of the second kind behind those that were put before.
#[tactic(auto, using(iox2_dynamic::proofs::Callbacks::callbacks))]
fn put_second<A: PortKind, B: PortKind>(
    ports: &PortRegistries<A, B>,
    out: &mut [Port],
    used: &mut usize,
)
    ensures { PutsAll (ports_in (ports_as A.details B.details ports.now).second)
        (out.old, used.old) (out.new, used.new) }
{
    let mut note = |details: &B| -> CallbackProgression
        ensures noted { Puts (out.entry.now, used.entry.now)
            (c_port (B.details details.now)) result (out.exit.now, used.exit.now) }
        ensures same { out.exit.ghost_name ≡ out.entry.ghost_name }
    { put(out, used, Port::of(&(*details).into_details())) };
    ports.list_second(&mut note);
}

/// Puts the ports of one of the two kinds behind those that were put before.
fn put_kind<A: PortKind, B: PortKind>(
    ports: &PortRegistries<A, B>,
    is_first: bool,
    out: &mut [Port],
    used: &mut usize,
)
    ensures { PutsAll (ports_of_kind is_first (ports_as A.details B.details ports.now))
        (out.old, used.old) (out.new, used.new) }
{
    if is_first {
        put_first(ports, out, used);
    } else {
        put_second(ports, out, used);
    }
}

/// Puts the ports of one of the pattern's two kinds behind those that were put before. Each kind
/// has a callback of its own, which takes a third of the time of one for details of any kind.
fn put_ports(service: &DynamicConfig, is_first: bool, out: &mut [Port], used: &mut usize)
    ensures { PutsAll (ports_of_kind is_first service.now.ports)
        (out.old, used.old) (out.new, used.new) }
{
    match service.kind() {
        PatternKind::PublishSubscribe => {
            put_kind(service.publish_subscribe(), is_first, out, used);
        }
        PatternKind::Event => put_kind(service.event(), is_first, out, used),
        PatternKind::RequestResponse => {
            put_kind(service.request_response(), is_first, out, used);
        }
        PatternKind::Blackboard => put_kind(service.blackboard(), is_first, out, used),
    }
}

/// Lists the ports of the role of this number.
fn list_ports(service: &DynamicConfig, role: u64, out: &mut [Port]) -> Listed
    ensures { ListsPorts role out.old service.now result out.new }
{
    let Some(role) = role_of(role) else {
        return Listed::Refused(Status::UnknownRole);
    };
    let Some(number) = service.count_ports(role) else {
        return Listed::Refused(Status::RoleNotInPattern);
    };
    if number > out.len() {
        return Listed::TooShort(number);
    }
    let is_first = service.kind().side(role) == Some(true);
    let mut used = 0;
    put_ports(service, is_first, out, &mut used);
    Listed::All(number)
}

/// Lists the ports of a role by rising slot at the front of an array, whose other elements stay as
/// they were, and returns how many there are. Where the array is too short for all, it stays as it
/// was, and the length that it needs is returned.
///
/// Errors, in this order: NULL, an object without a service, a number of no role, a role that the
/// pattern does not have, and too short an array.
#[tactic(auto, using(crate::proofs::Lending::same_objects))]
#[unsafe(no_mangle)]
pub extern "C" fn iox2sd_ports_at(
    objects: &mut [Service],
    role: u64,
    out: &mut [Port],
) -> CountAnswer
    requires { All IsSoundObject objects.old }
    ensures answer { AnswersQuery listed_answer listed.Refused (out.new ≡ out.old)
        (λ service made. ListsPorts role out.old service made out.new) objects.old result }
    ensures unchanged { objects.new ≡ objects.old }
{
    let service = lent_or_return!(objects, status => Listed::Refused(status).answer());
    list_ports(service, role, out).answer()
}

/// One more, unless that is too large.
fn one_more(count: Option<usize>) -> Option<usize>
    ensures { (n : ℕ) → CountsTo n count → CountsTo (n + 1) result }
{
    count?.checked_add(1)
}

/// Puts the port with these details at this index, where there is one.
#[inline(always)]
fn put_at(out: &mut [Port], index: Option<usize>, details: &PortDetails)
    ensures { PutsAt index (c_port details.now) out.old out.new }
{
    if let Some(index) = index {
        if index < out.len() {
            out[index] = Port::of(details);
        }
    }
}

/// Puts the port with these details, if it is to be listed, behind those that were put before, as
/// far as the array goes, and counts it.
#[inline(always)]
#[tactic(auto, using(crate::proofs::Listings::noted))]
fn note(is_its: bool, out: &mut [Port], count: &mut Option<usize>, details: &PortDetails)
    ensures { Notes is_its (out.old, count.old) (c_port details.now) (out.new, count.new) }
{
    if !is_its {
        return;
    }
    put_at(out, *count, details);
    *count = one_more(*count);
}

/// Puts the ports of the role that have the node behind those that were put before, as far as the
/// array goes, and counts them.
#[tactic(auto, using(iox2_dynamic::proofs::Callbacks::callbacks))]
fn note_ports(
    service: &DynamicConfig,
    role: Role,
    node: &UniqueNodeId,
    out: &mut [Port],
    count: &mut Option<usize>,
)
    ensures { NotesOfRole service.now role node.now (out.old, count.old) (out.new, count.new) }
{
    let mut show = |details: &PortDetails| -> CallbackProgression
        ensures noted { Notes (is_of node_of node.entry.now details.now)
            (out.entry.now, count.entry.now) (c_port details.now)
            (out.exit.now, count.exit.now) }
        ensures same { out.exit.ghost_name ≡ out.entry.ghost_name }
        ensures same_count { count.exit.ghost_name ≡ count.entry.ghost_name }
        ensures goes_on { result ≡ CallbackProgression.Continue }
    {
        note(details.node_id() == *node, out, count, details);
        CallbackProgression::Continue
    };
    service.list_ports(role, &mut show);
}

/// Puts the ports of the node at the front of the array, as far as it goes, and counts them.
fn note_all(service: &DynamicConfig, node: &UniqueNodeId, out: &mut [Port]) -> Option<usize>
    ensures { Stand out.old (map c_port (ports_of_node node.now service.now.ports))
        out.new result }
{
    let (first, second) = service.kind().port_roles();
    let mut count = Some(0);
    note_ports(service, first, node, out, &mut count);
    note_ports(service, second, node, out, &mut count);
    count
}

/// Whether all ports that there are, of whatever node, would fit an array of this length.
fn all_fit(service: &DynamicConfig, length: usize) -> bool
    ensures { IsTrue result → AllFit service.now length }
{
    let ports = Counts::of(service);
    ports.first <= length && ports.second <= length - ports.first
}

/// Puts the ports of the node at the front of an array that all ports would fit, and counts them.
#[tactic(auto, using(crate::proofs::Listings::all_fit, crate::proofs::Listings::not_too_many))]
fn note_few(service: &DynamicConfig, node: &UniqueNodeId, out: &mut [Port]) -> usize
    requires { AllFit service.now (length out.old) }
    ensures { ListsAll (map c_port (ports_of_node node.now service.now.ports))
        out.old result out.new }
{
    let _fits = out.len();
    match note_all(service, node, out) {
        Some(number) => number,
        None => unreachable!(),
    }
}

/// Lists the ports of the node of these parts.
fn list_ports_of(service: &DynamicConfig, node: Id, out: &mut [Port]) -> Listed
    ensures { ListsPortsOf node out.old service.now result out.new }
{
    let Some(node) = node.of_node() else {
        return Listed::Refused(Status::NoNode);
    };
    if all_fit(service, out.len()) {
        return Listed::All(note_few(service, &node, out));
    }
    let Some(number) = note_all(service, &node, &mut []) else {
        return Listed::Refused(Status::TooLarge);
    };
    if number > out.len() {
        return Listed::TooShort(number);
    }
    note_all(service, &node, out);
    Listed::All(number)
}

/// Lists the ports of a node, by its whole id, at the front of an array, whose other elements stay
/// as they were, and returns how many there are: those of the pattern's first kind before those of
/// its second, each kind by rising slot, in the order of `iox2sd_remove_dead_node_id`. Where the
/// array is too short for all, it stays as it was, and the length that it needs is returned.
///
/// Errors, in this order: NULL, an object without a service, an id of no node, and too short an
/// array, or instead `TooLarge` where the length that it needs passes a `usize`.
#[tactic(auto, using(crate::proofs::Lending::same_objects))]
#[unsafe(no_mangle)]
pub extern "C" fn iox2sd_ports_of_at(
    objects: &mut [Service],
    node: Id,
    out: &mut [Port],
) -> CountAnswer
    requires { All IsSoundObject objects.old }
    ensures answer { AnswersQuery listed_answer listed.Refused (out.new ≡ out.old)
        (λ service made. ListsPortsOf node out.old service made out.new) objects.old result }
    ensures unchanged { objects.new ≡ objects.old }
{
    let service = lent_or_return!(objects, status => Listed::Refused(status).answer());
    list_ports_of(service, node, out).answer()
}
