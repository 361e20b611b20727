//! The bar of a message: its parts from left to right, and their offsets.
ghost use Rattle.std.specs.Prelude.{◌≡◌, ◌++◌, ◌+◌, ◌≤◌, IfOk, OnOk, length, string_bytes};
ghost use Rattle.std.specs.List.{fold};
ghost use Rattle.service_drawing.specs.Layout.{IsWhole, apart};
ghost use Rattle.service_drawing.specs.Bars.{all_marks_text, bar_text, box_text, color_of, elements_text, ends, first_mark_text, free_behind, headers_text, inner_marks_text, label_text, labelled, last_mark_text, mark_text, marks_text, number_width, rectangle_text, starts, x_of};

use crate::layout::MessageLayout;
use itoa::Buffer;
use std::alloc::AllocError;
use std::ops::Range;

/// Where a bar begins.
const LEFT: usize = 200;

/// How wide a bar is.
const WIDTH: usize = 7200;

/// How many elements are drawn one by one at most.
const APART: usize = 16;

/// How wide an element that is drawn alone is at least.
const LEAST: usize = 120;

/// How wide a digit or a letter is at most.
const LETTER: usize = 70;

/// The width that is kept free beside an offset.
const MARGIN: usize = 40;

/// How far to the right the byte at this offset is drawn.
fn x_of(offset: usize, size: usize) -> usize
    requires { offset ≤ size }
    ensures value { result ≡ x_of size offset }
    ensures bound { result ≤ LEFT + WIDTH }
{
    LEFT + (offset as u128 * WIDTH as u128 / size.max(1) as u128) as usize
}

/// How many elements are drawn one by one, the first ones: none where they would be too narrow to
/// be distinguished.
#[tactic(auto, unfolding(crate::specs::Layout::apart))]
pub(super) fn drawn_apart(layout: &MessageLayout) -> usize
    ensures value { result ≡ apart layout.now }
    ensures bound { result ≤ layout.now.elements }
    ensures few { result ≤ APART }
{
    let width = layout.element as u128 * WIDTH as u128;
    if LEAST as u128 * layout.size.max(1) as u128 <= width {
        layout.elements.min(APART)
    } else {
        0
    }
}

/// Appends the parts of a message, and below them the offsets at which they begin and end.
#[tactic(auto, unfolding(crate::specs::Bars::bar_text))]
pub(super) fn write_bar(out: &mut String, layout: &MessageLayout) -> Result<(), AllocError>
    requires { IsWhole layout.now }
    ensures { OnOk result (string_bytes out.new ≡ string_bytes out.old ++ bar_text layout.now) }
{
    write_headers(out, layout)?;
    write_elements(out, layout)?;
    write_rectangle(out, layout.size, "empty", &layout.spare)?;
    write_marks(out, layout)
}

/// Appends the header and the user header, and the padding behind each.
#[tactic(auto, unfolding(crate::specs::Bars::headers_text))]
fn write_headers(out: &mut String, layout: &MessageLayout) -> Result<(), AllocError>
    requires { IsWhole layout.now }
    ensures { OnOk result (string_bytes out.new
        ≡ string_bytes out.old ++ headers_text layout.now) }
{
    let size = layout.size;
    write_rectangle(out, size, "header", &layout.header)?;
    write_rectangle(out, size, "empty", &layout.first_gap)?;
    write_rectangle(out, size, "user-header", &layout.user_header)?;
    write_rectangle(out, size, "empty", &layout.second_gap)
}

/// Appends the rectangle of bytes that lie within the message, if there are any.
#[tactic(auto, unfolding(crate::specs::Bars::rectangle_text))]
fn write_rectangle(
    out: &mut String,
    size: usize,
    color: &str,
    span: &Range<usize>,
) -> Result<(), AllocError>
    requires { span.now.end ≤ size }
    ensures { OnOk result (string_bytes out.new
        ≡ string_bytes out.old ++ rectangle_text size color.now span.now) }
{
    if span.end <= span.start {
        return Ok(());
    }
    let left = x_of(span.start, size);
    let right = x_of(span.end, size);
    write_box(out, left, right.saturating_sub(left), color)
}

/// Appends a rectangle of this color.
#[tactic(auto, unfolding(crate::specs::Bars::box_text))]
fn write_box(out: &mut String, left: usize, width: usize, color: &str) -> Result<(), AllocError>
    ensures { OnOk result (string_bytes out.new
        ≡ string_bytes out.old ++ box_text left width color.now) }
{
    writeln!(
        out,
        "<rect x=\"{left}\" y=\"0\" width=\"{width}\" height=\"460\" class=\"part {color}\"/>"
    )
}

/// The class of an element in the style sheet: every other one has another color.
fn color_of(i: usize) -> &'static str
    ensures { result.now ≡ color_of i }
{
    match i % 2 {
        0 => "payload",
        _ => "other",
    }
}

/// Appends the first elements one by one, and all others as one.
#[tactic(auto, unfolding(crate::specs::Bars::elements_text))]
fn write_elements(out: &mut String, layout: &MessageLayout) -> Result<(), AllocError>
    requires { IsWhole layout.now }
    ensures { OnOk result (string_bytes out.new
        ≡ string_bytes out.old ++ elements_text layout.now) }
{
    let apart = drawn_apart(layout);
    for i in 0..apart {
        write_rectangle(out, layout.size, color_of(i), &layout.element(i))?;
    }
    let others = layout.elements - apart;
    let span = layout.elements_from(apart);
    write_rectangle(out, layout.size, "payload", &span)?;
    match apart {
        0 => write_label(out, layout.size, &span, others, " elements"),
        _ => write_label(out, layout.size, &span, others, " more"),
    }
}

/// Appends how many elements are drawn as one: with what they are where that fits, or else the
/// number alone.
#[tactic(auto, unfolding(crate::specs::Bars::label_text))]
fn write_label(
    out: &mut String,
    size: usize,
    span: &Range<usize>,
    elements: usize,
    what: &str,
) -> Result<(), AllocError>
    requires inside { span.now.end ≤ size }
    requires few { length what.now ≤ 100 }
    ensures { OnOk result (string_bytes out.new
        ≡ string_bytes out.old ++ label_text size span.now elements what.now) }
{
    if span.end <= span.start {
        return Ok(());
    }
    let left = x_of(span.start, size);
    let right = x_of(span.end, size);
    let room = right.saturating_sub(left);
    let width = number_width(elements) + LETTER;
    if room < width {
        return Ok(());
    }
    let x = (left + right) / 2;
    if width + LETTER * what.len() <= room {
        write_words(out, x, "", elements, what)
    } else {
        write_words(out, x, "+", elements, "")
    }
}

/// Appends a number of elements in the middle of those that are drawn as one.
#[tactic(auto, unfolding(crate::specs::Bars::labelled))]
fn write_words(
    out: &mut String,
    x: usize,
    sign: &str,
    elements: usize,
    what: &str,
) -> Result<(), AllocError>
    ensures { OnOk result (string_bytes out.new
        ≡ string_bytes out.old ++ labelled x sign.now elements what.now) }
{
    writeln!(
        out,
        "<text x=\"{x}\" y=\"270\" font-size=\"110\" text-anchor=\"middle\" class=\"label\">{sign}{elements}{what}</text>"
    )
}

/// How wide a number is drawn at most.
fn number_width(number: usize) -> usize
    ensures value { result ≡ number_width number }
    ensures bound { result ≤ 1400 }
{
    let mut digits = Buffer::new();
    LETTER * digits.format(number).len()
}

/// Appends an offset below its position in the bar, where it does not reach left of `free` or into
/// the last offset. Returns what is left free then.
#[tactic(auto, unfolding(crate::specs::Bars::mark_text, crate::specs::Bars::free_behind))]
fn write_mark(
    out: &mut String,
    size: usize,
    free: usize,
    offset: usize,
) -> Result<usize, AllocError>
    requires inside { offset ≤ size }
    requires room { free ≤ 10000 }
    ensures drawn { OnOk result (string_bytes out.new
        ≡ string_bytes out.old ++ mark_text size free offset) }
    ensures free { IfOk result (λ left. left ≡ free_behind size free offset) }
    ensures room { IfOk result (λ left. left ≤ 10000) }
{
    let half = number_width(offset) / 2 + MARGIN;
    let x = x_of(offset, size);
    if x < free + half {
        return Ok(free);
    }
    if LEFT + WIDTH < x + half + number_width(size) {
        return Ok(free);
    }
    writeln!(
        out,
        "<text x=\"{x}\" y=\"610\" font-size=\"110\" text-anchor=\"middle\">{offset}</text>"
    )?;
    Ok(x + half)
}

/// Appends the offsets of the elements that are drawn one by one and of the next one, as far as
/// they fit.
#[tactic(auto, using(crate::proofs::Inside::elements_inside))]
fn write_element_marks(
    out: &mut String,
    layout: &MessageLayout,
    free: usize,
) -> Result<usize, AllocError>
    requires whole { IsWhole layout.now }
    requires room { free ≤ 10000 }
    ensures drawn { OnOk result (string_bytes out.new
        ≡ string_bytes out.old ++ marks_text layout.now.size free (starts layout.now)) }
    ensures free { IfOk result (λ left.
        left ≡ fold (free_behind layout.now.size) free (starts layout.now)) }
    ensures room { IfOk result (λ left. left ≤ 10000) }
{
    let mut free = free;
    for i in 0..drawn_apart(layout) + 1 {
        free = write_mark(out, layout.size, free, layout.elements_from(i).start)?;
    }
    Ok(free)
}

/// Appends the offsets at which parts begin and end: the first and the last, and the others as far
/// as they fit.
#[tactic(auto, unfolding(crate::specs::Bars::all_marks_text))]
fn write_marks(out: &mut String, layout: &MessageLayout) -> Result<(), AllocError>
    requires { IsWhole layout.now }
    ensures { OnOk result (string_bytes out.new
        ≡ string_bytes out.old ++ all_marks_text layout.now) }
{
    write_first_mark(out)?;
    if layout.size == 0 {
        return Ok(());
    }
    write_inner_marks(out, layout)?;
    write_last_mark(out, layout.size)
}

/// Appends the offset 0.
#[tactic(auto, unfolding(crate::specs::Bars::first_mark_text))]
fn write_first_mark(out: &mut String) -> Result<(), AllocError>
    ensures { OnOk result (string_bytes out.new ≡ string_bytes out.old ++ first_mark_text) }
{
    writeln!(out, "<text x=\"200\" y=\"610\" font-size=\"110\">0</text>")
}

/// Appends the offset at which a message ends.
#[tactic(auto, unfolding(crate::specs::Bars::last_mark_text))]
fn write_last_mark(out: &mut String, size: usize) -> Result<(), AllocError>
    ensures { OnOk result (string_bytes out.new ≡ string_bytes out.old ++ last_mark_text size) }
{
    writeln!(
        out,
        "<text x=\"7400\" y=\"610\" font-size=\"110\" text-anchor=\"end\">{size}</text>"
    )
}

/// Appends the other offsets, as far as they fit.
#[tactic(auto, unfolding(crate::specs::Bars::inner_marks_text))]
fn write_inner_marks(out: &mut String, layout: &MessageLayout) -> Result<(), AllocError>
    requires { IsWhole layout.now }
    ensures { OnOk result (string_bytes out.new
        ≡ string_bytes out.old ++ inner_marks_text layout.now) }
{
    let free = write_end_marks(out, layout, LEFT + LETTER + MARGIN)?;
    let free = write_element_marks(out, layout, free)?;
    write_mark(out, layout.size, free, layout.payload.end)?;
    Ok(())
}

/// Appends where the headers end, and what follows each begins.
fn write_end_marks(
    out: &mut String,
    layout: &MessageLayout,
    free: usize,
) -> Result<usize, AllocError>
    requires whole { IsWhole layout.now }
    requires room { free ≤ 10000 }
    ensures drawn { OnOk result (string_bytes out.new
        ≡ string_bytes out.old ++ marks_text layout.now.size free (ends layout.now)) }
    ensures free { IfOk result (λ left.
        left ≡ fold (free_behind layout.now.size) free (ends layout.now)) }
    ensures room { IfOk result (λ left. left ≤ 10000) }
{
    let size = layout.size;
    let free = write_mark(out, size, free, layout.header.end)?;
    let free = write_mark(out, size, free, layout.user_header.start)?;
    let free = write_mark(out, size, free, layout.user_header.end)?;
    write_mark(out, size, free, layout.payload.start)
}
