//! Where things stand in a picture, in pixels.
ghost use Rattle.std.specs.Prelude.{◌≡◌, ◌+◌, ◌≤◌, ◌<◌, length};
ghost use Rattle.history_drawing.specs.Coordinates.{end_of, ends_above, left, own_end, point_of};
ghost use Rattle.history_drawing.specs.Coordinates.{right, top};

use crate::timeline::{Bar, BarEnd};

/// Where the first column begins.
const LEFT: usize = 144;

/// How wide a column is.
const COLUMN: usize = 118;

/// How far bars stay from the borders of columns.
pub(super) const GAP: usize = 4;

/// Where the first row begins.
const TOP: usize = 76;

/// How high a row is.
const ROW: usize = 64;

/// The line in which a call ends, where that is another one than that of its begin.
pub(super) fn own_end(bar: &Bar<'_>) -> Option<usize>
    ensures { result ≡ own_end bar.now }
{
    match bar.end {
        BarEnd::Answered(line, _) if bar.begin < line => Some(line),
        BarEnd::Crashed(line) if bar.begin < line => Some(line),
        _ => None,
    }
}

/// Whether the call ends in a line of its own above this one.
fn ends_above(bar: &Bar<'_>, line: usize) -> bool
    ensures { result ≡ ends_above line bar.now }
{
    match own_end(bar) {
        Some(end) => end < line,
        None => false,
    }
}

/// Where the column of this line begins: a column for each line above it in which a call begins or
/// ends.
pub(super) fn left(bars: &[Bar<'_>], line: usize) -> usize
    requires { length bars.now ≤ 200 }
    ensures value { result ≡ left bars.now line }
    ensures bound { result ≤ 100000 }
{
    let begun = bars.iter().filter(|bar| bar.begin < line).count();
    let ended = bars.iter().filter(|bar| ends_above(bar, line)).count();
    LEFT + COLUMN * (begun + ended)
}

/// Where the last column ends.
pub(super) fn right(bars: &[Bar<'_>]) -> usize
    requires { length bars.now ≤ 200 }
    ensures value { result ≡ right bars.now }
    ensures bound { result ≤ 100000 }
{
    LEFT + COLUMN * (bars.len() + bars.iter().filter(|bar| own_end(bar).is_some()).count())
}

/// Where a row begins.
pub(super) fn top(row: usize) -> usize
    requires { row ≤ 200 }
    ensures value { result ≡ top row }
    ensures bound { result ≤ 100000 }
{
    TOP + ROW * row
}

/// Where the bar of a call that ends so ends.
pub(super) fn end_of(bars: &[Bar<'_>], end: &BarEnd<'_>) -> usize
    requires { length bars.now ≤ 200 }
    ensures { result ≡ end_of bars.now end.now }
{
    match end {
        BarEnd::Answered(line, _) => left(bars, *line) + (COLUMN - GAP),
        BarEnd::Crashed(line) => left(bars, *line) + (COLUMN - GAP),
        BarEnd::Open => right(bars),
    }
}

/// Where a point stands: in the column of this line, behind so many others.
pub(super) fn point_of(bars: &[Bar<'_>], line: usize, part: usize) -> usize
    requires few { length bars.now ≤ 200 }
    requires part { part ≤ 400 }
    ensures { result ≡ point_of bars.now line part }
{
    left(bars, line) + COLUMN * (part + 1) / (part + 2)
}
