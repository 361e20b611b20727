//! Where the parts of a message lie, and its layout.
ghost use Rattle.std.specs.Prelude.{◌≡◌, ◌^◌, ◌<◌, ◌≤◌, ◌↔◌, IsTrue, IfSome, IfNone, MatchOption};
ghost use Rattle.std.specs.Int.{is_power_of_two};
ghost use Rattle.iox2_texts.specs.Multiple.{least_multiple};
ghost use Rattle.iox2_config.specs.Blocks.{HoldsEverywhere};
ghost use Rattle.iox2_config.specs.Layout.{user_header_offset, payload_offset, sample_size, HaveAlignments};
ghost use Rattle.iox2_config.specs.Layout.{HasPlaces, places_in};
ghost use Rattle.iox2_config.specs.SampleLayoutParts.{IsSampleLayout};

use super::message_details::MessageTypeDetails;
use iox2_texts::bounded::align;
use std::marker::Model;

/// The positions of two parts of a message, as offsets or addresses like that of its header.
#[derive(Clone, Copy, Debug, PartialEq, Eq)]
pub struct Places {
    /// Of the user header.
    pub user_header: usize,
    /// Of the payload.
    pub payload: usize,
}

/// The layout of a message: size in bytes, and alignment.
#[derive(Clone, Copy, Debug, PartialEq, Eq)]
pub struct SampleLayout {
    size: usize,
    alignment: usize,
}

impl Model for SampleLayout {
    ghost use Rattle.iox2_config.specs.SampleLayoutParts.{SampleLayoutParts, IsSampleLayout};

    ghost Value = { SampleLayoutParts };

    ghost view = { λ layout. record { size = layout.size; alignment = layout.alignment } };

    ghost invariant = { λ layout. IsSampleLayout layout.size layout.alignment };

    ghost inverse = { λ parts. record { size = parts.size; alignment = parts.alignment } };
}

impl SampleLayout {
    /// The layout of this many bytes with this alignment.
    fn new(size: usize, alignment: usize) -> Self
        requires { IsSampleLayout size alignment }
        ensures { result ≡ record { size = size; alignment = alignment } }
    {
        SampleLayout { size, alignment }
    }

    /// How many bytes the message needs, at most 2^63 - 1.
    pub fn size(&self) -> usize
        ensures value { result ≡ self.now.size }
        ensures bound { result < 2 ^ 63 }
    {
        self.size
    }

    /// The alignment of the message, a power of two.
    pub fn align(&self) -> usize
        ensures value { result ≡ self.now.alignment }
        ensures power { IsTrue (is_power_of_two result) }
    {
        self.alignment
    }
}

/// The greatest size of a block of memory, 2^63 - 1.
const GREATEST_SIZE: usize = isize::MAX as usize;

impl MessageTypeDetails {
    /// Whether no alignment is 0, so that the details of all parts were given.
    pub fn has_alignments(&self) -> bool
        ensures { IsTrue result ↔ HaveAlignments self.now }
    {
        self.header.alignment() != 0
            && self.user_header.alignment() != 0
            && self.payload.alignment() != 0
    }

    /// The offsets of user header and payload in a message with its header at the offset `header`,
    /// or `None` exactly where `has_places` is false.
    #[tactic(auto, using(iox2_texts::proofs::Multiple::multiples))]
    pub fn places(&self, header: usize) -> Option<Places>
        ensures { MatchOption result (¬ (HasPlaces self.now header))
            (λ places. HasPlaces self.now header × (places ≡ places_in self.now header)) }
    {
        if !self.has_alignments() {
            return None;
        }
        let header_end = header.checked_add(self.header.size())?;
        let user_header = checked_align(header_end, self.user_header.alignment())?;
        let user_header_end = user_header.checked_add(self.user_header.size())?;
        let payload = checked_align(user_header_end, self.payload.alignment())?;
        Some(Places {
            user_header,
            payload,
        })
    }

    /// Whether a message with its header at the offset `header` has an offset for its payload: no
    /// alignment is 0, and the payload's offset is below 2^64.
    pub fn has_places(&self, header: usize) -> bool
        ensures { IsTrue result ↔ HasPlaces self.now header }
    {
        self.places(header).is_some()
    }

    /// The offset of the user header in a message with its header at the offset `header`, for which
    /// `has_places` is true.
    #[tactic(auto, using(iox2_texts::proofs::Multiple::multiples))]
    pub fn user_header_ptr_from_header(&self, header: usize) -> usize
        requires { HasPlaces self.now header }
        ensures { result ≡ user_header_offset self.now header }
    {
        align(header + self.header.size(), self.user_header.alignment())
    }

    /// The offset of the payload in a message with its header at the offset `header`, for which
    /// `has_places` is true.
    #[tactic(auto, using(iox2_texts::proofs::Multiple::multiples))]
    pub fn payload_ptr_from_header(&self, header: usize) -> usize
        requires { HasPlaces self.now header }
        ensures { result ≡ payload_offset self.now header }
    {
        align(
            self.user_header_ptr_from_header(header) + self.user_header.size(),
            self.payload.alignment(),
        )
    }

    /// The layout of a message whose payload has `n` elements, or `None` exactly where its size
    /// would pass 2^63 - 1 bytes. The details must be ones for which `has_alignments` is true.
    ///
    /// Wherever the header begins at a multiple of its alignment, all parts lie inside the layout,
    /// apart and aligned, for the service and for every compatible opener. The same holds of
    /// messages that lie end to end. A smaller layout may be possible.
    ///
    /// From `crates/service_examples/src/factory.rt`:
    ///
    /// ```
    /// let Some(block) = types.sample_layout(max_elements) else {
    ///     return Err(PublisherError::MessageTooLarge);
    /// };
    /// ```
    #[tactic(auto, using(iox2_texts::proofs::Multiple::multiples))]
    pub fn sample_layout(&self, n: usize) -> Option<SampleLayout>
        requires { HaveAlignments self.now }
        ensures some { IfSome result (λ layout.
            layout ≡ record {
              size = sample_size self.now n;
              alignment = self.now.header.alignment;
            }) }
        ensures limit { IfSome result (λ layout. layout.size < 2 ^ 63) }
        ensures none { IfNone result (2 ^ 63 ≤ sample_size self.now n) }
        ensures holds { IfSome result (λ layout. HoldsEverywhere self.now n layout.size) }
    {
        let elements = self.payload.size().checked_mul(n)?;
        let with_header = elements.checked_add(self.header.size())?;
        let with_user_header = with_header.checked_add(self.user_header.size())?;
        let with_first_gap = with_user_header.checked_add(self.user_header.alignment() - 1)?;
        let with_second_gap = with_first_gap.checked_add(self.payload.alignment() - 1)?;
        let size = checked_align(with_second_gap, self.header.alignment())?;
        if size > GREATEST_SIZE {
            return None;
        }
        Some(SampleLayout::new(size, self.header.alignment()))
    }
}

/// As `align` to a power of two, or `None` where the multiple does not fit.
#[tactic(auto, using(crate::proofs::Rounding::power_positive, crate::proofs::Rounding::rounded, crate::proofs::Rounding::not_rounded))]
fn checked_align(value: usize, alignment: usize) -> Option<usize>
    requires { IsTrue (is_power_of_two alignment) }
    ensures some { IfSome result (λ y. y ≡ least_multiple value alignment) }
    ensures none { IfNone result (2 ^ 64 ≤ least_multiple value alignment) }
{
    let mask = alignment - 1;
    let last = value.checked_add(mask)?;
    Some(last & !mask)
}
