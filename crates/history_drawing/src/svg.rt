//! A time line as a picture.
ghost use Rattle.std.specs.Prelude.{◌≡◌, ◌++◌, ◌≤◌, All, OnOk, length, string_bytes};
ghost use Rattle.std.specs.List.{flat_map};
ghost use Rattle.history_drawing.specs.Coordinates.{IsDrawable};
ghost use Rattle.history_drawing.specs.Svg.{bar_text, calls_text, marks_text, point_text, svg_text};
ghost use Rattle.history_drawing.specs.Svg.{width_for};
ghost use Rattle.history_drawing.specs.declared.timeline.Bar.{Bar};
ghost use Rattle.history_drawing.specs.declared.timeline.Point.{Point};

mod bar;
mod coordinates;
mod frame;

use crate::timeline::{Bar, Point, Timeline};
use bar::{write_bar, write_marks, write_point};
use coordinates::{right, top};
use frame::{MAX_NOTES, write_heading, write_names, write_notes, write_open};
use std::alloc::AllocError;

/// Appends the marks of the lines of calls.
fn write_all_marks(out: &mut String, bars: &[Bar<'_>], bottom: usize) -> Result<(), AllocError>
    requires { length bars.now ≤ 200 }
    ensures { OnOk result (string_bytes out.new
        ≡ string_bytes out.old ++ flat_map (marks_text bars.now bottom) bars.now) }
{
    for bar in bars {
        write_marks(out, bars, bottom, bar)?;
    }
    Ok(())
}

/// Appends calls.
fn write_bars(out: &mut String, bars: &[Bar<'_>], refused: Option<usize>) -> Result<(), AllocError>
    requires few { length bars.now ≤ 200 }
    requires rows { All (λ (b : Bar). b.row ≤ 200) bars.now }
    ensures { OnOk result (string_bytes out.new
        ≡ string_bytes out.old ++ flat_map (bar_text bars.now refused) bars.now) }
{
    for bar in bars {
        write_bar(out, bars, refused, bar)?;
    }
    Ok(())
}

/// Appends the points at which calls took effect.
fn write_points(out: &mut String, bars: &[Bar<'_>], points: &[Point]) -> Result<(), AllocError>
    requires few { length bars.now ≤ 200 }
    requires rows { All (λ (p : Point). p.row ≤ 200) points.now }
    requires parts { All (λ (p : Point). p.part ≤ 400) points.now }
    ensures { OnOk result (string_bytes out.new
        ≡ string_bytes out.old ++ flat_map (point_text bars.now) points.now) }
{
    for point in points {
        write_point(out, bars, point)?;
    }
    Ok(())
}

/// Appends the marks of lines, calls, and the points at which they took effect.
#[tactic(auto, unfolding(crate::specs::Svg::calls_text))]
fn write_calls(out: &mut String, timeline: &Timeline<'_>) -> Result<(), AllocError>
    requires { IsDrawable timeline.now }
    ensures { OnOk result (string_bytes out.new ≡ string_bytes out.old ++ calls_text timeline.now) }
{
    write_all_marks(out, &timeline.bars, top(timeline.rows.len()))?;
    write_bars(out, &timeline.bars, timeline.refused)?;
    write_points(out, &timeline.bars, &timeline.points)
}

/// How wide a picture is at least with these lines of a report: 8 pixels for each byte of the
/// longest one, of 1,000 at most.
fn width_for(notes: &[&[u8]]) -> usize
    ensures value { result ≡ width_for notes.now }
    ensures bound { result ≤ 8024 }
{
    let mut longest = 0;
    for note in notes {
        longest = note.len().max(longest);
    }
    24 + 8 * longest.min(1000)
}

/// Appends a picture of a time line, with the first line of a report above it and the others below.
#[tactic(auto, unfolding(crate::specs::Svg::svg_text))]
pub(crate) fn write_svg(
    out: &mut String,
    timeline: &Timeline<'_>,
    heading: &[u8],
    notes: &[&[u8]],
) -> Result<(), AllocError>
    requires { IsDrawable timeline.now }
    ensures { OnOk result (string_bytes out.new
        ≡ string_bytes out.old ++ svg_text timeline.now heading.now notes.now) }
{
    let bottom = top(timeline.rows.len());
    let shown = &notes[..notes.len().min(MAX_NOTES)];
    let width = (right(&timeline.bars) + 12).max(760).max(width_for(shown));
    let height = bottom + 40 + 18 * notes.len().min(MAX_NOTES + 1);
    write_open(out, width, height)?;
    write_heading(out, heading)?;
    write_names(out, &timeline.rows)?;
    write_calls(out, timeline)?;
    write_notes(out, notes, bottom + 12)
}
