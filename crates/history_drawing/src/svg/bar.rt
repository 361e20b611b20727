//! Calls as bars, and the points at which they took effect.
ghost use Rattle.std.specs.Prelude.{◌≡◌, ◌++◌, ◌≤◌, OnOk, length, string_bytes};
ghost use Rattle.history_drawing.specs.Svg.{bar_text, circle_text, class_of, end_text};
ghost use Rattle.history_drawing.specs.Svg.{front_text, mark_text, marks_text, outline_text, point_text, words_of, words_text};

use super::coordinates::{GAP, end_of, left, own_end, point_of, top};
use super::frame::Escaped;
use crate::timeline::{Bar, BarEnd, Point};
use std::alloc::AllocError;

/// Appends the number of a line, and a line down through the rows.
#[tactic(auto, unfolding(crate::specs::Svg::mark_text))]
fn write_mark(out: &mut String, x: usize, bottom: usize, line: usize) -> Result<(), AllocError>
    ensures { OnOk result (string_bytes out.new
        ≡ string_bytes out.old ++ mark_text x bottom line) }
{
    writeln!(
        out,
        "<path class=\"mark\" d=\"M{x} 48V{bottom}\"/><text class=\"line\" x=\"{x}\" y=\"62\" dx=\"5\">{line}</text>"
    )
}

/// Appends the marks of the lines in which a call begins and ends.
#[tactic(auto, unfolding(crate::specs::Svg::marks_text))]
pub(super) fn write_marks(
    out: &mut String,
    bars: &[Bar<'_>],
    bottom: usize,
    bar: &Bar<'_>,
) -> Result<(), AllocError>
    requires { length bars.now ≤ 200 }
    ensures { OnOk result (string_bytes out.new
        ≡ string_bytes out.old ++ marks_text bars.now bottom bar.now) }
{
    write_mark(out, left(bars, bar.begin), bottom, bar.begin)?;
    match own_end(bar) {
        Some(line) => write_mark(out, left(bars, line), bottom, line),
        None => Ok(()),
    }
}

/// The class of a call in the style sheet: another one where its reply is the one in this line.
fn class_of(end: &BarEnd<'_>, refused: Option<usize>) -> &'static str
    ensures { result.now ≡ class_of end.now refused }
{
    match (end, refused) {
        (BarEnd::Answered(line, _), Some(refused)) if *line == refused => "refused",
        _ => "call",
    }
}

/// What became of a call.
fn words_of<'a>(end: &BarEnd<'a>) -> &'a [u8]
    ensures { result.now ≡ words_of end.now }
{
    match end {
        BarEnd::Answered(_, words) => words,
        BarEnd::Crashed(_) => b"died",
        BarEnd::Open => b"open",
    }
}

/// Appends the begin of what is drawn of a call of this class: its command and what became of it,
/// which a browser shows where the pointer is.
#[tactic(auto, unfolding(crate::specs::Svg::front_text))]
fn write_front(
    out: &mut String,
    class: &str,
    command: &[u8],
    words: &[u8],
) -> Result<(), AllocError>
    ensures { OnOk result (string_bytes out.new
        ≡ string_bytes out.old ++ front_text class.now command.now words.now) }
{
    let command = Escaped(command);
    let words = Escaped(words);
    writeln!(
        out,
        "<g class=\"{class}\">\n<title>{command}: {words}</title>"
    )
}

/// Appends the outline of a bar, which has no line on the right.
#[tactic(auto, unfolding(crate::specs::Svg::outline_text))]
fn write_outline(out: &mut String, from: usize, to: usize, y: usize) -> Result<(), AllocError>
    ensures { OnOk result (string_bytes out.new ≡ string_bytes out.old ++ outline_text from to y) }
{
    writeln!(out, "<path class=\"bar\" d=\"M{to} {y}H{from}v44H{to}\"/>")
}

/// Appends the right end of a bar: a line where the call was answered, a cross where its caller
/// died, and none where it is open.
#[tactic(auto, unfolding(crate::specs::Svg::end_text))]
fn write_end(out: &mut String, to: usize, y: usize, end: &BarEnd<'_>) -> Result<(), AllocError>
    ensures { OnOk result (string_bytes out.new ≡ string_bytes out.old ++ end_text to y end.now) }
{
    match end {
        BarEnd::Answered(_, _) => { writeln!(out, "<path class=\"end\" d=\"M{to} {y}v44\"/>") }
        BarEnd::Crashed(_) => writeln!(
            out,
            "<path class=\"cross\" d=\"M{to} {y}m-8 14l16 16m0 -16l-16 16\"/>"
        ),
        BarEnd::Open => Ok(()),
    }
}

/// Appends the command of a call, and below it what became of it, cut off at the end of its bar.
#[tactic(auto, unfolding(crate::specs::Svg::words_text))]
fn write_words(
    out: &mut String,
    from: usize,
    width: usize,
    y: usize,
    command: &[u8],
    words: &[u8],
) -> Result<(), AllocError>
    ensures { OnOk result (string_bytes out.new
        ≡ string_bytes out.old ++ words_text from width y command.now words.now) }
{
    let command = Escaped(command);
    let words = Escaped(words);
    writeln!(
        out,
        "<svg x=\"{from}\" y=\"{y}\" width=\"{width}\" height=\"44\">\n<text x=\"7\" y=\"18\">{command}</text>\n<text class=\"reply\" x=\"7\" y=\"36\">{words}</text></svg></g>"
    )
}

/// Appends a call.
#[tactic(auto, unfolding(crate::specs::Svg::bar_text))]
pub(super) fn write_bar(
    out: &mut String,
    bars: &[Bar<'_>],
    refused: Option<usize>,
    bar: &Bar<'_>,
) -> Result<(), AllocError>
    requires few { length bars.now ≤ 200 }
    requires row { bar.now.row ≤ 200 }
    ensures { OnOk result (string_bytes out.new
        ≡ string_bytes out.old ++ bar_text bars.now refused bar.now) }
{
    let from = left(bars, bar.begin) + GAP;
    let to = end_of(bars, &bar.end);
    let y = top(bar.row);
    let words = words_of(&bar.end);
    write_front(out, class_of(&bar.end, refused), bar.command, words)?;
    write_outline(out, from, to, y)?;
    write_end(out, to, y, &bar.end)?;
    write_words(out, from, to.saturating_sub(from), y, bar.command, words)
}

/// Appends a number in a circle.
#[tactic(auto, unfolding(crate::specs::Svg::circle_text))]
fn write_circle(out: &mut String, x: usize, y: usize, number: usize) -> Result<(), AllocError>
    ensures { OnOk result (string_bytes out.new ≡ string_bytes out.old ++ circle_text x y number) }
{
    writeln!(
        out,
        "<circle class=\"point\" cx=\"{x}\" cy=\"{y}\" r=\"9\"/><text class=\"number\" x=\"{x}\" y=\"{y}\" dy=\"3\">{number}</text>"
    )
}

/// Appends the point at which a call took effect, right below its bar.
#[tactic(auto, unfolding(crate::specs::Svg::point_text))]
pub(super) fn write_point(
    out: &mut String,
    bars: &[Bar<'_>],
    point: &Point,
) -> Result<(), AllocError>
    requires few { length bars.now ≤ 200 }
    requires row { point.now.row ≤ 200 }
    requires part { point.now.part ≤ 400 }
    ensures { OnOk result (string_bytes out.new
        ≡ string_bytes out.old ++ point_text bars.now point.now) }
{
    let x = point_of(bars, point.line, point.part);
    write_circle(out, x, top(point.row) + 53, point.number)
}
