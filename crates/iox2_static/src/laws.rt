//! Laws of static configurations: two of one type are equal exactly where all their fields are, and
//! each gives its fields in turn to a hasher, so `==` and hashing agree.
ghost use Rattle.std.specs.Prelude.{◌≡◌, ◌↔◌, IsTrue, IsOkAnd, fold};
ghost use Rattle.iox2_static.specs.HashWrites.{pattern_writes};

use crate::static_config::messaging_pattern::MessagingPattern;
use crate::static_config::setting::Setting;
use crate::static_config::{StaticConfig, event};
use std::alloc::AllocError;
use std::hash::{Hash, Hasher};

/// A deadline and a configuration of an event service.
pub type EventParts = (event::Deadline, event::StaticConfig);

/// A clone of a deadline, or of an event service's configuration, is equal and takes no memory.
pub fn events_are_cloned(events: &EventParts) -> Result<EventParts, AllocError>
    ensures { IsOkAnd result (λ copy. copy ≡ events.now) }
{
    events.clone()
}

/// Patterns are equal and hashed by kind and configuration, so configurations of each pattern are
/// equal and hashed by all their fields.
#[tactic(auto, using(crate::proofs::Equality::patterns_decide, crate::proofs::HashWrites::patterns_written))]
pub fn patterns_go_by_fields<H: Hasher>(
    one: &MessagingPattern,
    other: &MessagingPattern,
    state: &mut H,
) -> bool
    ensures equal { IsTrue result ↔ (one.now ≡ other.now) }
    ensures hashed { state.new ≡ fold H.write state.old (pattern_writes one.now) }
{
    one.hash(state);
    one == other
}

/// Two descriptions are equal exactly where their parts are.
#[tactic(auto, using(crate::proofs::Equality::descriptions_decide))]
pub fn descriptions_are_equal_by_fields(one: &StaticConfig, other: &StaticConfig) -> bool
    ensures { IsTrue result ↔ (one.now ≡ other.now) }
{
    one == other
}

/// Settings are equal exactly where they are the same. A clone of one is the same and takes no
/// memory.
pub fn settings_go_by_variant(one: &Setting, other: &Setting) -> (bool, Result<Setting, AllocError>)
    ensures equal { IsTrue result.0 ↔ (one.now ≡ other.now) }
    ensures cloned { IsOkAnd result.1 (λ copy. copy ≡ one.now) }
{
    (one == other, one.clone())
}
