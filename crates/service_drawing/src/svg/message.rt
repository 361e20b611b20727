//! The layout of a message as a picture.
ghost use Rattle.std.specs.Prelude.{◌≡◌, ◌++◌, IfOk, IfSome, OnOk, map, option_copied, string_bytes};
ghost use Rattle.service_drawing.specs.Layout.{IsWhole, row_view, types_view};
ghost use Rattle.service_drawing.specs.Svg.{all_line, apart_line, begin_text, elements_line, layout_end, layout_end_of, layout_text, layout_text_of, length_text, located_text, message_end, message_text, notes_end, notes_text, offset_text, payload_text, place_text, row_end, row_text, rows_end, rows_text, size_text, span_text, square_text, summary_of, summary_text, type_line, types_end, types_text};

use super::bar::{drawn_apart, write_bar};
use super::lines::{NOTE, TYPE, below, write_lines};
use crate::description::{Message, Segment};
use crate::layout::MessageLayout;
use crate::sentences::{Counted, Row, rows, write_memory};
use iox2_config::types::TypeDetail;
use std::alloc::{AllocError, Global};
use std::ops::Range;

/// Draws the layout of a message, and states the memory of a port that sends it. Returns where the
/// next line begins.
#[tactic(auto, unfolding(crate::specs::Svg::message_text, crate::specs::Svg::message_end))]
pub(super) fn write_message(
    alloc: Global,
    out: &mut String,
    top: usize,
    segment: Segment<'_>,
) -> Result<usize, AllocError>
    ensures drawn { OnOk result (string_bytes out.new
        ≡ string_bytes out.old ++ message_text top segment.entry) }
    ensures end { IfOk result (λ end. end ≡ message_end top segment.entry) }
{
    let message = segment.message;
    let layout = MessageLayout::of(&message.details, message.elements);
    write_begin(out, top, segment.title)?;
    write_layout_if(alloc, out, below(top, 240), segment, layout)
}

/// Appends the begin of the line that says what a message is called, and how large it is.
#[tactic(auto, unfolding(crate::specs::Svg::begin_text))]
fn write_begin(out: &mut String, top: usize, title: &str) -> Result<(), AllocError>
    ensures { OnOk result (string_bytes out.new
        ≡ string_bytes out.old ++ begin_text top title.now) }
{
    write!(
        out,
        "<text x=\"200\" y=\"{top}\" dy=\"150\" font-size=\"150\">{title}: "
    )
}

/// Draws a message that has a layout, or that it has none.
fn write_layout_if(
    alloc: Global,
    out: &mut String,
    top: usize,
    segment: Segment<'_>,
    layout: Option<MessageLayout>,
) -> Result<usize, AllocError>
    requires { IfSome layout (λ l. IsWhole l) }
    ensures drawn { OnOk result (string_bytes out.new
        ≡ string_bytes out.old ++ layout_text_of top segment.entry layout) }
    ensures end { IfOk result (λ end. end ≡ layout_end_of top segment.entry layout) }
{
    match layout {
        Some(layout) => write_layout(alloc, out, top, segment, &layout),
        None => {
            out.push_str("no layout, since it would pass 9223372036854775807 bytes</text>\n")?;
            Ok(below(top, 120))
        }
    }
}

/// Draws a message that has a layout.
#[tactic(auto, unfolding(crate::specs::Svg::layout_text, crate::specs::Svg::layout_end))]
fn write_layout(
    alloc: Global,
    out: &mut String,
    top: usize,
    segment: Segment<'_>,
    layout: &MessageLayout,
) -> Result<usize, AllocError>
    requires { IsWhole layout.now }
    ensures drawn { OnOk result (string_bytes out.new
        ≡ string_bytes out.old ++ layout_text top segment.entry layout.now) }
    ensures end { IfOk result (λ end. end ≡ layout_end top segment.entry layout.now) }
{
    let message = segment.message;
    write_size(out, top, layout.size, message.details.header.alignment())?;
    write_bar(out, layout)?;
    out.push_str("</g>\n")?;
    let top = write_rows(alloc, out, below(top, 740), &rows(message, layout))?;
    let top = write_notes(alloc, out, top, segment, layout)?;
    Ok(below(top, 160))
}

/// Appends the size and the alignment of a message, and the begin of its bar.
#[tactic(auto, unfolding(crate::specs::Svg::size_text))]
fn write_size(out: &mut String, top: usize, size: usize, alignment: usize) -> Result<(), AllocError>
    ensures { OnOk result (string_bytes out.new
        ≡ string_bytes out.old ++ size_text top size alignment) }
{
    let size = Counted(size, "byte");
    writeln!(
        out,
        "{size}, alignment {alignment}</text>\n<g transform=\"translate(0 {top})\">"
    )
}

/// Appends a sentence that says where the parts of a message lie.
#[tactic(auto, unfolding(crate::specs::Svg::summary_text))]
pub(super) fn write_summary(
    out: &mut String,
    title: &str,
    message: &Message,
) -> Result<(), AllocError>
    ensures { OnOk result (string_bytes out.new
        ≡ string_bytes out.old ++ summary_text title.now message.now) }
{
    let layout = MessageLayout::of(&message.details, message.elements);
    write_places(out, title, layout.as_ref())
}

/// Appends where the parts of a message lie, if it has a layout.
fn write_places(
    out: &mut String,
    title: &str,
    layout: Option<&MessageLayout>,
) -> Result<(), AllocError>
    ensures { OnOk result (string_bytes out.new
        ≡ string_bytes out.old ++ summary_of title.now (option_copied layout.entry)) }
{
    match layout {
        Some(layout) => write_located(out, title, layout),
        None => write!(out, "A {title} without a layout."),
    }
}

/// Appends where the parts of a message lie.
#[tactic(auto, unfolding(crate::specs::Svg::located_text))]
fn write_located(out: &mut String, title: &str, layout: &MessageLayout) -> Result<(), AllocError>
    ensures { OnOk result (string_bytes out.new
        ≡ string_bytes out.old ++ located_text title.now layout.now) }
{
    let size = Counted(layout.size, "byte");
    write!(out, "A {title} of {size}: a header of ")?;
    write_span(out, &layout.header)?;
    out.push_str(", a user header of ")?;
    write_span(out, &layout.user_header)?;
    write_payload(out, layout.elements, layout.payload.start)
}

/// Appends how many bytes lie in a span, and from where on.
#[tactic(auto, unfolding(crate::specs::Svg::span_text))]
fn write_span(out: &mut String, span: &Range<usize>) -> Result<(), AllocError>
    ensures { OnOk result (string_bytes out.new ≡ string_bytes out.old ++ span_text span.now) }
{
    let size = Counted(span.end.saturating_sub(span.start), "byte");
    let offset = span.start;
    write!(out, "{size} at offset {offset}")
}

/// Appends how many elements there are, and from where on.
#[tactic(auto, unfolding(crate::specs::Svg::payload_text))]
fn write_payload(out: &mut String, elements: usize, offset: usize) -> Result<(), AllocError>
    ensures { OnOk result (string_bytes out.new
        ≡ string_bytes out.old ++ payload_text elements offset) }
{
    let elements = Counted(elements, "element");
    write!(out, ", a payload of {elements} at offset {offset}.")
}

/// Draws the parts of a message and its padding, below each other.
fn write_rows(
    alloc: Global,
    out: &mut String,
    top: usize,
    rows: &[Row<'_>],
) -> Result<usize, AllocError>
    ensures drawn { OnOk result (string_bytes out.new
        ≡ string_bytes out.old ++ rows_text top (map row_view rows.now)) }
    ensures end { IfOk result (λ end. end ≡ rows_end top (map row_view rows.now)) }
{
    let mut top = top;
    for row in rows {
        top = write_row(alloc, out, top, *row)?;
    }
    Ok(top)
}

/// Draws the color of a part or of padding, what it is and where it lies, and of a part the
/// alignments and the name of its type.
#[tactic(auto, unfolding(crate::specs::Svg::row_text, crate::specs::Svg::row_end))]
fn write_row(alloc: Global, out: &mut String, top: usize, row: Row<'_>) -> Result<usize, AllocError>
    ensures drawn { OnOk result (string_bytes out.new
        ≡ string_bytes out.old ++ row_text top (row_view row.entry)) }
    ensures end { IfOk result (λ end. end ≡ row_end top (row_view row.entry)) }
{
    if !row.is_shown() {
        return Ok(top);
    }
    write_square(out, top, row.class)?;
    write_place(out, top, row.name, row.span)?;
    let top = write_types(alloc, out, below(top, 200), row.types)?;
    Ok(below(top, 40))
}

/// Draws a square of this color.
#[tactic(auto, unfolding(crate::specs::Svg::square_text))]
fn write_square(out: &mut String, top: usize, class: &str) -> Result<(), AllocError>
    ensures { OnOk result (string_bytes out.new
        ≡ string_bytes out.old ++ square_text top class.now) }
{
    writeln!(
        out,
        "<rect x=\"200\" y=\"{top}\" width=\"140\" height=\"140\" class=\"part {class}\"/>"
    )
}

/// Draws what lies in a span, and its offset and size.
#[tactic(auto, unfolding(crate::specs::Svg::place_text))]
fn write_place(
    out: &mut String,
    top: usize,
    name: &str,
    span: &Range<usize>,
) -> Result<(), AllocError>
    ensures { OnOk result (string_bytes out.new
        ≡ string_bytes out.old ++ place_text top name.now span.now) }
{
    write_offset(out, top, name, span.start)?;
    write_length(out, span.end.saturating_sub(span.start))
}

/// Draws what lies in a span, and its offset.
#[tactic(auto, unfolding(crate::specs::Svg::offset_text))]
fn write_offset(out: &mut String, top: usize, name: &str, offset: usize) -> Result<(), AllocError>
    ensures { OnOk result (string_bytes out.new
        ≡ string_bytes out.old ++ offset_text top name.now offset) }
{
    write!(
        out,
        "<text x=\"440\" y=\"{top}\" dy=\"115\">{name}: offset {offset}, "
    )
}

/// Draws a size.
#[tactic(auto, unfolding(crate::specs::Svg::length_text))]
fn write_length(out: &mut String, size: usize) -> Result<(), AllocError>
    ensures { OnOk result (string_bytes out.new ≡ string_bytes out.old ++ length_text size) }
{
    let size = Counted(size, "byte");
    writeln!(out, "{size}</text>")
}

/// Draws the alignments and the name of the type of a part, if it is one.
#[tactic(auto, unfolding(crate::specs::Svg::types_text, crate::specs::Svg::types_end))]
fn write_types(
    alloc: Global,
    out: &mut String,
    top: usize,
    types: Option<(&TypeDetail, Option<&TypeDetail>)>,
) -> Result<usize, AllocError>
    ensures drawn { OnOk result (string_bytes out.new
        ≡ string_bytes out.old ++ types_text top (types_view types.entry)) }
    ensures end { IfOk result (λ end. end ≡ types_end top (types_view types.entry)) }
{
    let Some((detail, opener)) = types else {
        return Ok(top);
    };
    let text = type_line(alloc, detail, opener)?;
    write_lines(out, top, TYPE, text.as_str())
}

/// The alignment of a type, that which an opener has for it, if there is one, and its name.
#[tactic(auto, unfolding(crate::specs::Svg::type_line))]
fn type_line(
    alloc: Global,
    detail: &TypeDetail,
    opener: Option<&TypeDetail>,
) -> Result<String, AllocError>
    ensures { IfOk result (λ line. string_bytes line
        ≡ type_line detail.now (option_copied opener.entry)) }
{
    let alignment = detail.alignment();
    let name = detail.type_name();
    match opener {
        Some(opener) => {
            let other = opener.alignment();
            format!(in alloc; "alignment {alignment}, opener's {other}, {name}")
        }
        None => format!(in alloc; "alignment {alignment}, {name}"),
    }
}

/// Draws how many elements there are, the memory of a port, and whether the opener is compatible.
#[tactic(auto, unfolding(crate::specs::Svg::notes_text, crate::specs::Svg::notes_end))]
fn write_notes(
    alloc: Global,
    out: &mut String,
    top: usize,
    segment: Segment<'_>,
    layout: &MessageLayout,
) -> Result<usize, AllocError>
    ensures drawn { OnOk result (string_bytes out.new
        ≡ string_bytes out.old ++ notes_text top segment.entry layout.now) }
    ensures end { IfOk result (λ end. end ≡ notes_end top segment.entry layout.now) }
{
    let text = elements_line(alloc, layout)?;
    let top = write_lines(out, below(top, 60), NOTE, text.as_str())?;
    let mut text = String::new(alloc);
    write_memory(&mut text, segment, layout)?;
    let top = write_lines(out, top, NOTE, text.as_str())?;
    match segment.opener {
        Some(sentence) => write_lines(out, top, NOTE, sentence),
        None => Ok(top),
    }
}

/// How many elements there are, and how many of them are drawn one by one if others are not.
#[tactic(auto, unfolding(crate::specs::Svg::elements_line))]
fn elements_line(alloc: Global, layout: &MessageLayout) -> Result<String, AllocError>
    ensures { IfOk result (λ line. string_bytes line ≡ elements_line layout.now) }
{
    let apart = drawn_apart(layout);
    if apart == 0 || apart == layout.elements {
        return all_line(alloc, layout.elements, layout.element);
    }
    apart_line(
        alloc,
        layout.elements,
        layout.element,
        apart,
        layout.elements - apart,
    )
}

/// How many elements of which size there are.
#[tactic(auto, unfolding(crate::specs::Svg::all_line))]
fn all_line(alloc: Global, elements: usize, size: usize) -> Result<String, AllocError>
    ensures { IfOk result (λ line. string_bytes line ≡ all_line elements size) }
{
    let elements = Counted(elements, "element");
    let size = Counted(size, "byte");
    format!(in alloc; "{elements} of {size}")
}

/// The same, with how many are drawn one by one, and how many others.
#[tactic(auto, unfolding(crate::specs::Svg::apart_line))]
fn apart_line(
    alloc: Global,
    elements: usize,
    size: usize,
    apart: usize,
    others: usize,
) -> Result<String, AllocError>
    ensures { IfOk result (λ line.
        string_bytes line ≡ apart_line elements size apart others) }
{
    let mut line = all_line(alloc, elements, size)?;
    write!(line, ": {apart} one by one, and {others} more")?;
    Ok(line)
}
