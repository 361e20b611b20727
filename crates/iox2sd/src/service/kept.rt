//! The ports that stay.
ghost use Rattle.std.specs.Prelude.{◌≡◌, ◌↔◌, All, IsTrue};
ghost use Rattle.iox2sd.specs.DeadNodes.{IsPort, is_kept, order_at, is_at_most, AreSorted};

use crate::values::PortId;
use std::cmp::Ordering;
use std::marker::Model;

/// The ids of ports, of which it is known whether they are sorted by their numbers and then by
/// roles.
#[derive(Drop)]
pub(super) struct Kept<'a> {
    ports: &'a [PortId],
    is_sorted: bool,
}

impl<'a> Model for Kept<'a> {
    ghost use Rattle.std.specs.Prelude.{List, IsTrue};
    ghost use Rattle.iox2sd.specs.DeadNodes.{AreSorted};
    ghost use Rattle.iox2sd.specs.declared.values.PortId.{PortId};

    ghost Value = { List PortId };

    ghost view = { λ kept. kept.ports.now };

    ghost invariant = { λ kept. IsTrue kept.is_sorted → AreSorted kept.ports.now };
}

/// Whether each role is that of a port.
pub(super) fn are_ports(ports: &[PortId]) -> bool
    ensures { IsTrue result ↔ All IsPort ports.now }
{
    ports.iter().all(|port| 1 <= port.role && port.role <= 8)
}

impl PortId {
    /// How the port stands to that of this role with this number: numbers are compared first.
    fn order(&self, role: u64, value: u128) -> Ordering
        ensures { result ≡ order_at self.now role value }
    {
        let number = self.port.number();
        if number == value {
            self.role.cmp(&role)
        } else {
            number.cmp(&value)
        }
    }

    /// Whether the port stands before the other, or is the same.
    fn is_at_most(&self, other: &PortId) -> bool
        ensures { result ≡ is_at_most self.now other.now }
    {
        self.order(other.role, other.port.number()).is_le()
    }
}

/// Whether the ports are sorted.
fn are_sorted(ports: &[PortId]) -> bool
    ensures { IsTrue result → AreSorted ports.now }
{
    ports.is_sorted_by(|one, other| one.is_at_most(other))
}

/// Whether a port of this role with this number is one of these, which are sorted: it is looked up
/// by halves.
fn is_among_sorted(ports: &[PortId], role: u64, value: u128) -> bool
    requires { AreSorted ports.now }
    ensures { result ≡ is_kept ports.now role value }
{
    ports
        .binary_search_by(move |port| port.order(role, value))
        .is_ok()
}

/// Whether a port of this role with this number is one of these.
fn is_among(ports: &[PortId], role: u64, value: u128) -> bool
    ensures { result ≡ is_kept ports.now role value }
{
    ports
        .iter()
        .any(|port| port.role == role && port.port.number() == value)
}

impl Kept<'_> {
    /// These ports. Whether they are sorted is looked at once.
    pub(super) fn of(ports: &[PortId]) -> Kept<'_>
        ensures { result ≡ ports.now }
    {
        Kept {
            ports,
            is_sorted: are_sorted(ports),
        }
    }

    /// Whether a port of this role with this number is one of them.
    pub(super) fn has(&self, role: u64, value: u128) -> bool
        ensures { result ≡ is_kept self.now role value }
    {
        if self.is_sorted {
            is_among_sorted(self.ports, role, value)
        } else {
            is_among(self.ports, role, value)
        }
    }
}
