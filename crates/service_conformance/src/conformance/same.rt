//! Whether values are the same.
ghost use Rattle.std.specs.Prelude.{◌≡◌, ◌↔◌, IsTrue};

use iox2_dynamic::dynamic_config::PortDetails;
use iox2_ids::identifiers::UniqueNodeId;

/// Values that can be compared.
pub(super) trait Same {
    /// Whether two values are the same.
    fn same(&self, other: &Self) -> bool
        ensures { IsTrue result ↔ (self.now ≡ other.now) };
}

impl Same for UniqueNodeId {
    fn same(&self, other: &Self) -> bool {
        self == other
    }
}

impl Same for PortDetails {
    fn same(&self, other: &Self) -> bool {
        self == other
    }
}

/// Whether two lists are the same.
pub(super) fn are_same<T: Same>(one: &[T], other: &[T]) -> bool
    ensures { IsTrue result ↔ (one.now ≡ other.now) }
{
    if one.len() != other.len() {
        return false;
    }
    for index in 0..one.len() {
        if !one[index].same(&other[index]) {
            return false;
        }
    }
    true
}
