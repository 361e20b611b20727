//! How the answers of the callers are compared and copied.
ghost use Rattle.std.specs.Prelude.{◌≡◌, ◌↔◌, IsTrue, IsOkAnd};

use crate::builder::{OpenError, OpenedService};
use crate::census::Census;
use crate::discovery::Member;
use crate::factory::{DataSegment, Publisher, PublisherError, PublisherSettings};
use crate::join::{JoinError, Joined};
use std::alloc::AllocError;

/// Members are equal exactly where they are the same node or the same port, and a clone of one is
/// it and takes no memory.
pub fn members_go_by_fields(one: &Member, other: &Member) -> (bool, Result<Member, AllocError>)
    ensures equal { IsTrue result.0 ↔ (one.now ≡ other.now) }
    ensures cloned { IsOkAnd result.1 (λ copy. copy ≡ one.now) }
{
    (one == other, one.clone())
}

/// Who joined is equal exactly where both handles are, and a clone is equal and takes no memory.
pub fn joined_go_by_handles(one: &Joined, other: &Joined) -> (bool, Result<Joined, AllocError>)
    ensures equal { IsTrue result.0 ↔ (one.now ≡ other.now) }
    ensures cloned { IsOkAnd result.1 (λ copy. copy ≡ one.now) }
{
    (one == other, one.clone())
}

/// A segment, and a census with its counts of ports.
pub type Sizes = (DataSegment, Census);

/// These are equal exactly where all their numbers are, and a clone of one is equal and takes no
/// memory.
pub fn sizes_go_by_fields(one: &Sizes, other: &Sizes) -> (bool, Result<Sizes, AllocError>)
    ensures equal { IsTrue result.0 ↔ (one.now ≡ other.now) }
    ensures cloned { IsOkAnd result.1 (λ copy. copy ≡ one.now) }
{
    (one == other, one.clone())
}

/// Why a publisher was not attached, and why a node did not join.
pub type Causes = (PublisherError, JoinError);

/// These are equal exactly where they are the same, and a clone of one is it and takes no memory.
pub fn causes_go_by_variant(one: &Causes, other: &Causes) -> (bool, Result<Causes, AllocError>)
    ensures equal { IsTrue result.0 ↔ (one.now ≡ other.now) }
    ensures cloned { IsOkAnd result.1 (λ copy. copy ≡ one.now) }
{
    (one == other, one.clone())
}

/// Why a service was not opened is equal exactly where it is the same.
pub fn open_errors_go_by_fields(one: &OpenError, other: &OpenError) -> bool
    ensures { IsTrue result ↔ (one.now ≡ other.now) }
{
    one == other
}

/// What a publisher is to be, a publisher, and a service that was opened.
pub type Copied = (PublisherSettings, Publisher, OpenedService);

/// A clone of these is equal and takes no memory.
pub fn values_are_cloned(values: &Copied) -> Result<Copied, AllocError>
    ensures { IsOkAnd result (λ copy. copy ≡ values.now) }
{
    values.clone()
}
