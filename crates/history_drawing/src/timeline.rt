//! Calls as bars on a time line.

ghost use Rattle.std.specs.Prelude.{◌≡◌, ◌++◌, ◌∷◌, [], ◌+◌, ◌≤◌, IfNone, IfOk, IfSome, IsFalse, IsTrue, OnOk};
ghost use Rattle.history_drawing.specs.Timelines.{AreApart, AreBars, Extends, HasMany, IsBarOf, IsOn};
ghost use Rattle.history_drawing.specs.Timelines.{IsRow, IsTimeline, IsUnknown, IsWanted};
ghost use Rattle.history_drawing.specs.declared.calls.LogCall.{LogCall};
ghost use Rattle.history_drawing.specs.declared.timeline.Bar.{Bar};

use crate::calls::{LogCall, call_at, text_at};
use std::alloc::{AllocError, Global};

/// How many calls a picture has at most.
pub(crate) const MAX_CALLS: usize = 200;

/// How a call ends.
#[derive(Clone, Copy, Debug)]
pub(crate) enum BarEnd<'a> {
    /// It was answered in this line, with these words.
    Answered(usize, &'a [u8]),
    /// Its caller died, as this line says.
    Crashed(usize),
    /// It is open where the picture ends.
    Open,
}

/// A call.
#[derive(Clone, Copy, Debug)]
pub(crate) struct Bar<'a> {
    /// The row of its caller.
    pub(crate) row: usize,
    /// The text of its command.
    pub(crate) command: &'a [u8],
    /// The line in which it begins.
    pub(crate) begin: usize,
    pub(crate) end: BarEnd<'a>,
}

/// A point at which a call took effect.
#[derive(Clone, Copy, Debug)]
pub(crate) struct Point {
    /// Its number in the order, from 1.
    pub(crate) number: usize,
    /// The row of the call.
    pub(crate) row: usize,
    /// The line below which it took effect, or in which, where it begins and ends there.
    pub(crate) line: usize,
    /// How many of the points before it have the same line.
    pub(crate) part: usize,
}

/// Calls of a log, as they are drawn.
#[derive(Drop)]
pub(crate) struct Timeline<'a> {
    /// The callers, each once. Calls alone have an empty name.
    pub(crate) rows: Vec<&'a [u8]>,
    /// The calls, by their begins.
    pub(crate) bars: Vec<Bar<'a>>,
    /// Where calls took effect, in order.
    pub(crate) points: Vec<Point>,
    /// The line of the reply that is refused.
    pub(crate) refused: Option<usize>,
}

/// Lines whose calls are drawn.
#[derive(Clone, Copy)]
pub(crate) struct Window {
    /// The first line.
    pub(crate) first: usize,
    /// The last line.
    pub(crate) last: usize,
    /// The number of the service whose calls are wanted; `None` for all.
    pub(crate) wanted: Option<u64>,
    /// The number of the first service of the log.
    pub(crate) service: Option<u64>,
}

/// Whether a call with this number of a service, or with none, is on a wanted one. Without a number
/// it is on the first service.
fn is_on(wanted: Option<u64>, first: Option<u64>, number: Option<u64>) -> bool
    ensures yes { IsTrue result → IsOn wanted first number }
    ensures no { IsOn wanted first number → IsTrue result }
{
    match (wanted, number) {
        (None, _) => true,
        (Some(_), None) => first == wanted,
        (Some(wanted), Some(number)) => number == wanted,
    }
}

/// The row of a caller that has one.
fn position_of(rows: &[&[u8]], caller: &[u8]) -> Option<usize>
    ensures some { IfSome result (λ row. IsRow rows.now row caller.now) }
    ensures none { IfNone result (IsUnknown rows.now caller.now) }
{
    for row in 0..rows.len() {
        if text_at(rows, row) == caller {
            return Some(row);
        }
    }
    None
}

/// The row of a caller, which is a new one where the caller has none.
fn row_of<'a>(rows: &mut Vec<&'a [u8]>, caller: &'a [u8]) -> Result<usize, AllocError>
    ensures there { IfOk result (λ row. IsRow rows.new.items row caller.now) }
    ensures kept { IfOk result (Extends rows.old.items rows.new.items) }
    ensures apart { OnOk result (AreApart rows.old.items → AreApart rows.new.items) }
{
    if let Some(row) = position_of(rows, caller) {
        return Ok(row);
    }
    let row = rows.len();
    rows.push(caller)?;
    Ok(row)
}

/// Adds a call that begins in this line.
fn add_bar<'a>(
    rows: &mut Vec<&'a [u8]>,
    bars: &mut Vec<Bar<'a>>,
    line: usize,
    call: LogCall<'a>,
) -> Result<(), AllocError>
    ensures bars { OnOk result ((b : Bar) × (bars.new.items ≡ bars.old.items ++ b ∷ [])
        × IsBarOf rows.new.items line call.entry b
        × Extends rows.old.items rows.new.items b.row) }
    ensures apart { OnOk result (AreApart rows.old.items → AreApart rows.new.items) }
{
    let row = row_of(rows, call.caller)?;
    bars.push(Bar {
        row,
        command: call.command,
        begin: line,
        end: call.end,
    })?;
    Ok(())
}

/// The wanted call that begins in this line.
fn wanted_at<'a>(
    alloc: Global,
    lines: &[&'a [u8]],
    window: &Window,
    line: usize,
) -> Result<Option<LogCall<'a>>, AllocError>
    ensures some { IfOk result (λ found. IfSome found (λ seen.
        IsWanted lines.now window.now line seen)) }
    ensures none { IfOk result (λ found. IfNone found ((seen : LogCall)
        → ¬ (IsWanted lines.now window.now line seen))) }
{
    let Some(call) = call_at(alloc, lines, line, window.last)? else {
        return Ok(None);
    };
    if is_on(window.wanted, window.service, call.service) {
        return Ok(Some(call));
    }
    Ok(None)
}

/// Adds the wanted call that begins in this line, if there is one. Returns whether it fits.
fn add_line<'a>(
    alloc: Global,
    lines: &[&'a [u8]],
    window: &Window,
    line: usize,
    rows: &mut Vec<&'a [u8]>,
    bars: &mut Vec<Bar<'a>>,
) -> Result<bool, AllocError>
    requires first { window.now.first ≤ line }
    requires last { line ≤ window.now.last }
    requires bars { AreBars lines.now window.now line rows.old.items bars.old.items }
    ensures fits { IfOk result (λ fits. IsTrue fits
        → AreBars lines.now window.now (line + 1) rows.new.items bars.new.items) }
    ensures many { IfOk result (λ fits. IsFalse fits → HasMany lines.now window.now) }
{
    let Some(call) = wanted_at(alloc, lines, window, line)? else {
        return Ok(true);
    };
    if bars.len() == MAX_CALLS {
        return Ok(false);
    }
    add_bar(rows, bars, line, call)?;
    Ok(true)
}

/// The wanted calls that begin in lines of a window. `None` where there are more than `MAX_CALLS`.
pub(crate) fn timeline_of<'a>(
    alloc: Global,
    lines: &[&'a [u8]],
    window: &Window,
    refused: Option<usize>,
) -> Result<Option<Timeline<'a>>, AllocError>
    ensures some { IfOk result (λ found. IfSome found (λ t.
        IsTimeline lines.now window.now refused t)) }
    ensures none { IfOk result (λ found. IfNone found (HasMany lines.now window.now)) }
{
    let mut rows = Vec::new(alloc);
    let mut bars = Vec::new(alloc);
    for line in window.first..=window.last {
        if !add_line(alloc, lines, window, line, &mut rows, &mut bars)? {
            return Ok(None);
        }
    }
    Ok(Some(Timeline {
        rows,
        bars,
        points: Vec::new(alloc),
        refused,
    }))
}
