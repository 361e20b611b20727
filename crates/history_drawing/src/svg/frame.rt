//! Text in a document, and what stands around the calls of a picture.
ghost use Rattle.std.specs.Prelude.{◌≡◌, ◌++◌, OnOk, Some, string_bytes};
ghost use Rattle.history_drawing.specs.Svg.{escaped, heading_text, line_or, line_text};
ghost use Rattle.history_drawing.specs.Svg.{lines_text, names_text, notes_text, open_text, tail_text};

use std::alloc::AllocError;
use std::fmt;

/// Bytes as a document has them: `&`, `<` and `>` by their names, and what is no printable ASCII as
/// `?`.
#[derive(Clone, Copy)]
pub(super) struct Escaped<'a>(pub(super) &'a [u8]);

impl fmt::Display for Escaped<'_> {
    ghost output = { λ e. Some (escaped e.0.now) };

    fn fmt<W: fmt::Write>(&self, f: &mut fmt::Formatter<W>) -> fmt::Result {
        for byte in self.0 {
            match *byte {
                b'&' => f.write_str("&amp;")?,
                b'<' => f.write_str("&lt;")?,
                b'>' => f.write_str("&gt;")?,
                b' '..=b'~' => f.write_char(*byte as char)?,
                _ => f.write_str("?")?,
            }
        }
        Ok(())
    }
}

/// The style sheet: fonts, strokes and colours, also for those who read light on dark.
pub(super) const STYLE: &str = "<style>
text { fill: #222222; font-size: 12px }
.page { fill: #ffffff }
.heading { font-size: 15px; font-weight: bold }
.name { font-size: 13px; font-weight: bold }
.mark { stroke: #cccccc; stroke-dasharray: 2 3 }
.line { fill: #777777; font-size: 11px }
.bar { fill: #d6e4f2 }
.end, .bar { stroke: #4e79a7; stroke-width: 2 }
.reply { fill: #2c5a8c }
.cross { stroke: #222222; stroke-width: 3 }
.refused .bar { fill: #fbd5d5 }
.refused .end, .refused .bar { stroke: #c4161c; stroke-width: 4 }
.refused .reply { fill: #c4161c; font-weight: bold }
.point { fill: #222222 }
.number { fill: #ffffff; font-size: 9px; text-anchor: middle }
@media (prefers-color-scheme: dark) {
text { fill: #eeeeee }
.page { fill: #1b1b1b }
.mark { stroke: #555555 }
.line { fill: #aaaaaa }
.bar { fill: #24384c }
.reply { fill: #9cc4ee }
.cross { stroke: #eeeeee }
.refused .bar { fill: #4c1f22 }
.refused .reply { fill: #ff8f8f }
.point { fill: #eeeeee }
.number { fill: #1b1b1b }
}
</style>
";

/// Appends the begin of a document of this size.
#[tactic(auto, unfolding(crate::specs::Svg::open_text))]
pub(super) fn write_open(out: &mut String, width: usize, height: usize) -> Result<(), AllocError>
    ensures { OnOk result (string_bytes out.new ≡ string_bytes out.old ++ open_text width height) }
{
    writeln!(
        out,
        "<svg xmlns=\"http://www.w3.org/2000/svg\" viewBox=\"0 0 {width} {height}\" width=\"{width}\" role=\"img\" font-family=\"monospace\">"
    )
}

/// Appends the first line of the report, as the title and above the picture.
#[tactic(auto, unfolding(crate::specs::Svg::heading_text))]
pub(super) fn write_heading(out: &mut String, heading: &[u8]) -> Result<(), AllocError>
    ensures { OnOk result (string_bytes out.new
        ≡ string_bytes out.old ++ heading_text heading.now) }
{
    let heading = Escaped(heading);
    writeln!(
        out,
        "<title>{heading}</title>\n{STYLE}<rect class=\"page\" width=\"100%\" height=\"100%\"/>\n<text class=\"heading\" x=\"12\" y=\"28\">{heading}</text>"
    )
}

/// Appends a line of a text, so far below the one before.
#[tactic(auto, unfolding(crate::specs::Svg::line_text))]
fn write_line(out: &mut String, below: usize, line: &[u8]) -> Result<(), AllocError>
    ensures { OnOk result (string_bytes out.new
        ≡ string_bytes out.old ++ line_text below line.now) }
{
    let line = Escaped(line);
    writeln!(out, "<tspan x=\"12\" dy=\"{below}\">{line}</tspan>")
}

/// The line, or what stands for an empty one.
fn line_or<'a>(empty: &'a [u8], line: &'a [u8]) -> &'a [u8]
    ensures { result.now ≡ line_or empty.now line.now }
{
    match line {
        [] => empty,
        _ => line,
    }
}

/// Appends the lines of a text, each so far below the one before.
fn write_lines(
    out: &mut String,
    below: usize,
    empty: &[u8],
    lines: &[&[u8]],
) -> Result<(), AllocError>
    ensures { OnOk result (string_bytes out.new
        ≡ string_bytes out.old ++ lines_text below empty.now lines.now) }
{
    for line in lines {
        write_line(out, below, line_or(empty, line))?;
    }
    Ok(())
}

/// Appends the names of all callers, one a row. Calls alone have no caller.
#[tactic(auto, unfolding(crate::specs::Svg::names_text))]
pub(super) fn write_names(out: &mut String, names: &[&[u8]]) -> Result<(), AllocError>
    ensures { OnOk result (string_bytes out.new ≡ string_bytes out.old ++ names_text names.now) }
{
    out.push_str("<text class=\"name\" y=\"39\">\n")?;
    write_lines(out, 64, b"(alone)", names)?;
    out.push_str("</text>\n")
}

/// Appends how many more configurations there are, and the end of the document.
#[tactic(auto, unfolding(crate::specs::Svg::tail_text))]
fn write_tail(out: &mut String, more: usize) -> Result<(), AllocError>
    ensures { OnOk result (string_bytes out.new ≡ string_bytes out.old ++ tail_text more) }
{
    match more {
        0 => out.push_str("</text>\n</svg>\n"),
        _ => writeln!(
            out,
            "<tspan x=\"12\" dy=\"18\">and {more} more configurations</tspan>\n</text>\n</svg>"
        ),
    }
}

/// How many lines of a report stand below a picture at most: the reply, its call, the window and
/// the needed calls, a line each, and four for each of eight configurations.
pub(super) const MAX_NOTES: usize = 36;

/// Appends the lines of a report as far as they are shown, how many more configurations there are,
/// and the end of the document.
#[tactic(auto, unfolding(crate::specs::Svg::notes_text))]
pub(super) fn write_notes(out: &mut String, notes: &[&[u8]], y: usize) -> Result<(), AllocError>
    ensures { OnOk result (string_bytes out.new ≡ string_bytes out.old ++ notes_text notes.now y) }
{
    writeln!(out, "<text y=\"{y}\">")?;
    write_lines(out, 18, b"", &notes[..notes.len().min(MAX_NOTES)])?;
    write_tail(out, notes.len().saturating_sub(MAX_NOTES) / 4)
}
