//! Which openers may use a service's messages, and why others may not.
ghost use Rattle.std.specs.Prelude.{◌≡◌, ◌↔◌, IsTrue, MatchOption};
ghost use Rattle.iox2_config.specs.Compatible.{Compatible, Suits, DiffersIn, IsUnsuited};
ghost use Rattle.iox2_config.specs.Compatible.{FindsIncompatibility};

use super::message_details::MessageTypeDetails;
use super::type_detail::TypeDetail;

/// In what a type of an opener does not suit that of the service.
#[derive(Clone, Copy, Debug, PartialEq, Eq)]
pub enum Difference {
    /// It has another name.
    Name,
    /// It has another variant.
    Variant,
    /// It has another size.
    Size,
    /// As a header it has another alignment, and as another part a greater one.
    Alignment,
}

/// The first part of an opener's messages that does not suit that of the service, and the first
/// difference in it.
#[derive(Clone, Copy, Debug, PartialEq, Eq)]
pub enum Incompatibility {
    /// The headers are not equal.
    Header(Difference),
    /// The user header of the opener does not suit that of the service.
    UserHeader(Difference),
    /// The payload of the opener does not suit that of the service.
    Payload(Difference),
}

impl MessageTypeDetails {
    /// Why an opener with these details may not use a service with the details `service`, or `None`
    /// exactly where it may.
    ///
    /// The header is looked at first, then the user header, then the payload; of each the name, the
    /// variant, the size and then the alignment.
    pub fn first_incompatibility(&self, service: &Self) -> Option<Incompatibility>
        ensures { FindsIncompatibility self.now service.now result }
    {
        if let Some(found) = other(&self.header, &service.header) {
            return Some(Incompatibility::Header(found));
        }
        if let Some(found) = unsuited(&self.user_header, &service.user_header) {
            return Some(Incompatibility::UserHeader(found));
        }
        if let Some(found) = unsuited(&self.payload, &service.payload) {
            return Some(Incompatibility::Payload(found));
        }
        None
    }

    /// Whether an opener with these details may use a service with the
    /// details `rhs`: the headers are equal, and user headers and payloads
    /// are equal but for their alignments, which are at most those of `rhs`.
    pub fn is_compatible_to(&self, rhs: &Self) -> bool
        ensures { IsTrue result ↔ Compatible self.now rhs.now }
    {
        self.first_incompatibility(rhs).is_none()
    }
}

/// In what a header differs from that of the service.
fn other(opener: &TypeDetail, service: &TypeDetail) -> Option<Difference>
    ensures { MatchOption result (opener.now ≡ service.now) (λ first.
        DiffersIn first opener.now service.now (opener.now.alignment ≡ service.now.alignment)) }
{
    first_difference(opener, service, opener.alignment() == service.alignment())
}

/// In what a user header or a payload does not suit that of the service.
fn unsuited(opener: &TypeDetail, service: &TypeDetail) -> Option<Difference>
    ensures { MatchOption result (Suits opener.now service.now)
        (λ first. IsUnsuited first opener.now service.now) }
{
    first_difference(opener, service, opener.alignment() <= service.alignment())
}

/// In what a type does not suit that of the service, where this is whether its alignment does.
fn first_difference(
    opener: &TypeDetail,
    service: &TypeDetail,
    is_aligned: bool,
) -> Option<Difference>
    ensures { MatchOption result
        ((opener.now.type_name ≡ service.now.type_name)
        × (opener.now.variant ≡ service.now.variant)
        × (opener.now.size ≡ service.now.size) × IsTrue is_aligned)
        (λ first. DiffersIn first opener.now service.now (IsTrue is_aligned)) }
{
    if opener.type_name() != service.type_name() {
        return Some(Difference::Name);
    }
    if opener.variant() != service.variant() {
        return Some(Difference::Variant);
    }
    if opener.size() != service.size() {
        return Some(Difference::Size);
    }
    if !is_aligned {
        return Some(Difference::Alignment);
    }
    None
}
