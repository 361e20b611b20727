//! What text and picture both say.
ghost use Rattle.std.specs.Prelude.{◌≡◌, ◌++◌, OnOk, Some, map, option_copied, string_bytes};
ghost use Rattle.service_drawing.specs.Layout.{IsOpenerSentence, bytes_text, chunk_number, chunks_text, counted_text, is_shown, memory_text, of_all_text, owner_text, opener_text, opener_types, padding_row, part_row, row_view, rows_of};

use crate::description::{Message, Segment};
use crate::layout::MessageLayout;
use iox2_config::types::{Incompatibility, TypeDetail};
use std::alloc::AllocError;
use std::fmt;
use std::ops::Range;

/// A number of things of one name: `1 byte`, `2 bytes`.
#[derive(Clone, Copy)]
pub(crate) struct Counted(pub(crate) usize, pub(crate) &'static str);

impl fmt::Display for Counted {
    ghost output = { λ counted. Some (counted_text counted) };

    fn fmt<W: fmt::Write>(&self, f: &mut fmt::Formatter<W>) -> fmt::Result {
        let Counted(number, name) = *self;
        match number {
            1 => write!(f, "{number} {name}"),
            _ => write!(f, "{number} {name}s"),
        }
    }
}

/// A part of a message, or the padding behind one.
#[derive(Clone, Copy)]
pub(crate) struct Row<'a> {
    /// Its letter in the bar of a text; empty for a payload, whose elements have digits there.
    pub(crate) letter: &'static str,
    /// Its class in the style sheet of a picture.
    pub(crate) class: &'static str,
    pub(crate) name: &'static str,
    pub(crate) span: &'a Range<usize>,
    /// The type of a part, and that which an opener has for it, if there is one.
    pub(crate) types: Option<(&'a TypeDetail, Option<&'a TypeDetail>)>,
}

impl Row<'_> {
    /// Whether it is shown: padding without bytes is not.
    pub(crate) fn is_shown(&self) -> bool
        ensures { result ≡ is_shown (row_view self.now) }
    {
        match self.types {
            Some(_) => true,
            None => self.span.start < self.span.end,
        }
    }
}

/// The row of a part.
fn part<'a>(
    letter: &'static str,
    class: &'static str,
    name: &'static str,
    span: &'a Range<usize>,
    detail: &'a TypeDetail,
    opener: Option<&'a TypeDetail>,
) -> Row<'a>
    ensures { row_view result
        ≡ part_row class.now name.now span.now detail.now (option_copied opener.entry) }
{
    Row {
        letter,
        class,
        name,
        span,
        types: Some((detail, opener)),
    }
}

/// The row of padding.
fn padding<'a>(letter: &'static str, span: &'a Range<usize>) -> Row<'a>
    ensures { row_view result ≡ padding_row span.now }
{
    Row {
        letter,
        class: "empty",
        name: "padding",
        span,
        types: None,
    }
}

/// The types that an opener has for the parts of a message, if there is an opener.
fn opener_types(message: &Message) -> [Option<&TypeDetail>; 3]
    ensures { map option_copied result ≡ opener_types message.now.opener }
{
    match &message.opener {
        Some(o) => [Some(&o.header), Some(&o.user_header), Some(&o.payload)],
        None => [None, None, None],
    }
}

/// The parts of a message and the padding behind each, in their order.
pub(crate) fn rows<'a>(message: &'a Message, layout: &'a MessageLayout) -> [Row<'a>; 6]
    ensures { map row_view result ≡ rows_of message.now layout.now }
{
    let types = &message.details;
    let [header, user, payload] = opener_types(message);
    [
        part(
            "H",
            "header",
            "header",
            &layout.header,
            &types.header,
            header,
        ),
        padding(".", &layout.first_gap),
        part(
            "U",
            "user-header",
            "user header",
            &layout.user_header,
            &types.user_header,
            user,
        ),
        padding(".", &layout.second_gap),
        part(
            "",
            "payload",
            "payload",
            &layout.payload,
            &types.payload,
            payload,
        ),
        padding("-", &layout.spare),
    ]
}

/// Whether the opener of a message may use it, and if not, why. `None` where there is no opener.
/// Its types are those of the message, so only an alignment can differ.
pub(crate) fn opener_sentence(message: &Message) -> Option<&'static str>
    ensures { IsOpenerSentence message.now (option_copied result) }
{
    match &message.opener {
        Some(opener) => Some(sentence_of(opener.first_incompatibility(&message.details))),
        None => None,
    }
}

/// What is said of an opener that may not use a message for this cause, or may.
fn sentence_of(cause: Option<Incompatibility>) -> &'static str
    ensures { result.now ≡ opener_text cause }
{
    match cause {
        None => "the opener is compatible",
        Some(Incompatibility::Header(_)) =>
            "the opener is not compatible: its header has another alignment",
        Some(Incompatibility::UserHeader(_)) => {
            "the opener is not compatible: its user header has a greater alignment"
        }
        Some(Incompatibility::Payload(_)) =>
            "the opener is not compatible: its payload has a greater alignment",
    }
}

/// Appends how many messages fit in the data segment of a port, the memory that they take, and that
/// of all such ports that the service may have.
#[tactic(auto, unfolding(crate::specs::Layout::memory_text))]
pub(crate) fn write_memory(
    out: &mut String,
    segment: Segment<'_>,
    layout: &MessageLayout,
) -> Result<(), AllocError>
    ensures { OnOk result (string_bytes out.new
        ≡ string_bytes out.old ++ memory_text segment.entry layout.now) }
{
    write_owner(out, segment.port)?;
    write_chunks(out, segment.port, segment.ports, layout, segment.chunks)
}

/// Appends of which port the memory is.
#[tactic(auto, unfolding(crate::specs::Layout::owner_text))]
fn write_owner(out: &mut String, port: &str) -> Result<(), AllocError>
    ensures { OnOk result (string_bytes out.new ≡ string_bytes out.old ++ owner_text port.now) }
{
    write!(out, "data segment of a {port}: ")
}

/// Appends how many messages fit, and the memory that they take.
#[tactic(auto, unfolding(crate::specs::Layout::chunks_text))]
fn write_chunks(
    out: &mut String,
    port: &'static str,
    ports: usize,
    layout: &MessageLayout,
    chunks: Option<usize>,
) -> Result<(), AllocError>
    ensures { OnOk result (string_bytes out.new
        ≡ string_bytes out.old ++ chunks_text port.now ports layout.now.size chunks) }
{
    match chunks {
        Some(chunks) => {
            write_number(out, chunks, layout.size)?;
            write_bytes(out, layout.memory_of_all(chunks, 1))?;
            write_of_all(out, port, ports)?;
            write_bytes(out, layout.memory_of_all(chunks, ports))
        }
        None => out.push_str("more than 18446744073709551615 chunks, too many"),
    }
}

/// Appends a number of chunks, and how large one is.
#[tactic(auto, unfolding(crate::specs::Layout::chunk_number))]
fn write_number(out: &mut String, chunks: usize, size: usize) -> Result<(), AllocError>
    ensures { OnOk result (string_bytes out.new
        ≡ string_bytes out.old ++ chunk_number chunks size) }
{
    let number = Counted(chunks, "chunk");
    let size = Counted(size, "byte");
    write!(out, "{number} of {size}, ")
}

/// Appends of how many ports the memory is.
#[tactic(auto, unfolding(crate::specs::Layout::of_all_text))]
fn write_of_all(out: &mut String, port: &'static str, ports: usize) -> Result<(), AllocError>
    ensures { OnOk result (string_bytes out.new
        ≡ string_bytes out.old ++ of_all_text port.now ports) }
{
    let ports = Counted(ports, port);
    write!(out, ", of all {ports}: ")
}

/// Appends a number of bytes, or that 64 bits do not have it.
fn write_bytes(out: &mut String, bytes: Option<usize>) -> Result<(), AllocError>
    ensures { OnOk result (string_bytes out.new ≡ string_bytes out.old ++ bytes_text bytes) }
{
    match bytes {
        Some(bytes) => {
            let bytes = Counted(bytes, "byte");
            write!(out, "{bytes}")
        }
        None => out.push_str("more than 18446744073709551615 bytes, too many"),
    }
}
