//! Where the parts of a message lie.
ghost use Rattle.std.specs.Prelude.{◌≡◌, ◌<◌, ◌≤◌, ◌+◌, ◌*◌, IfSome};
ghost use Rattle.service_drawing.specs.Layout.{IsPartAt, IsWhole, fitting, layout_of, span};

use iox2_config::types::MessageTypeDetails;
use std::ops::Range;

/// The offsets of the parts of a message from its header, and its layout.
#[derive(Drop)]
pub(crate) struct MessageLayout {
    pub(crate) header: Range<usize>,
    /// Nothing lies between the header and the user header.
    pub(crate) first_gap: Range<usize>,
    pub(crate) user_header: Range<usize>,
    /// Nothing lies between the user header and the payload.
    pub(crate) second_gap: Range<usize>,
    pub(crate) payload: Range<usize>,
    /// Nothing lies behind the payload.
    pub(crate) spare: Range<usize>,
    /// How many bytes an element of the payload takes.
    pub(crate) element: usize,
    /// How many elements there are.
    pub(crate) elements: usize,
    /// How many bytes the message is given.
    pub(crate) size: usize,
}

/// What lies at a byte of a message.
#[derive(Clone, Copy)]
pub(crate) enum Part {
    Header,
    UserHeader,
    /// The element of this number, from 0 on.
    Element(usize),
    /// Nothing: the next part begins at a later multiple of its alignment.
    Gap,
    /// Nothing: the layout is larger than the message.
    Spare,
}

impl MessageLayout {
    /// The layout of a message of this many elements, or `None` where it would pass 2^63 - 1 bytes.
    #[tactic(auto, using(crate::proofs::Inside::ends_inside, iox2_texts::proofs::Multiple::multiples, crate::proofs::Inside::no_alignment, crate::proofs::Inside::too_large, crate::proofs::Inside::laid_out))]
    pub(crate) fn of(details: &MessageTypeDetails, elements: usize) -> Option<Self>
        ensures value { result ≡ layout_of details.now elements }
        ensures inside { IfSome result (λ layout. IsWhole layout) }
    {
        if !details.has_alignments() {
            return None;
        }
        let room = details.sample_layout(elements)?;
        let header_end = details.header.size();
        let user_header = details.user_header_ptr_from_header(0);
        let user_header_end = user_header + details.user_header.size();
        let payload = details.payload_ptr_from_header(0);
        let element = details.payload.size();
        let payload_end = payload + element * elements;
        Some(MessageLayout {
            header: 0..header_end,
            first_gap: header_end..user_header,
            user_header: user_header..user_header_end,
            second_gap: user_header_end..payload,
            payload: payload..payload_end,
            spare: payload_end..room.size(),
            element,
            elements,
            size: room.size(),
        })
    }

    /// Where the element of this number lies.
    #[tactic(auto, using(crate::proofs::Inside::element_inside))]
    pub(crate) fn element(&self, i: usize) -> Range<usize>
        requires whole { IsWhole self.now }
        requires there { i < self.now.elements }
        ensures { result ≡ span (self.now.payload.start + i * self.now.element) self.now.element }
    {
        let start = self.payload.start + i * self.element;
        start..start + self.element
    }

    /// Where the elements from this number on lie.
    #[tactic(auto, using(crate::proofs::Inside::elements_inside))]
    pub(crate) fn elements_from(&self, i: usize) -> Range<usize>
        requires whole { IsWhole self.now }
        requires there { i ≤ self.now.elements }
        ensures { result ≡ record {
          start = self.now.payload.start + i * self.now.element;
          end = self.now.payload.end;
        } }
    {
        self.payload.start + i * self.element..self.payload.end
    }

    /// What lies at the byte of this offset.
    pub(crate) fn part_at(&self, offset: usize) -> Part
        requires { IsWhole self.now }
        ensures { IsPartAt self.now offset result }
    {
        if self.header.contains(&offset) {
            Part::Header
        } else if self.user_header.contains(&offset) {
            Part::UserHeader
        } else if offset < self.payload.start {
            Part::Gap
        } else if offset < self.payload.end {
            Part::Element((offset - self.payload.start) / self.element)
        } else {
            Part::Spare
        }
    }

    /// How many bytes this many messages of each of so many ports take, or `None` where that passes
    /// 2^64 - 1.
    #[tactic(auto, using(crate::proofs::Inside::no_less, crate::proofs::Inside::fits_so), unfolding(crate::specs::Layout::fitting))]
    pub(crate) fn memory_of_all(&self, chunks: usize, ports: usize) -> Option<usize>
        ensures { result ≡ fitting ((chunks * self.now.size) * ports) }
    {
        match chunks.checked_mul(self.size) {
            Some(bytes) => bytes.checked_mul(ports),
            None if ports == 0 => Some(0),
            None => None,
        }
    }
}
