//! Where calls took effect.
ghost use Rattle.std.specs.Prelude.{◌≡◌, ◌≢◌, ◌++◌, ◌<◌, ◌≤◌, All, AllPairs, Contains, IfNone};
ghost use Rattle.std.specs.Prelude.{IfOk, IfSome, IsFalse, IsTrue, List, OnOk};
ghost use Rattle.history_drawing.specs.Timelines.{ArePoints, ArePointsOf, Follows, IsPointOf, Reaches};
ghost use Rattle.history_drawing.specs.declared.timeline.Bar.{Bar};
ghost use Rattle.history_drawing.specs.declared.timeline.Point.{Point};

use crate::timeline::{Bar, BarEnd, Point};
use history_logs::logs::Order;
use std::alloc::{AllocError, Global};

/// How many points an order has at most.
const MAX_POINTS: usize = 400;

/// The call that begins in this line.
fn bar_at<'b, 'a>(bars: &'b [Bar<'a>], line: usize) -> Option<&'b Bar<'a>>
    ensures some { IfSome result (λ bar. Contains bars.now bar.now × (bar.now.begin ≡ line)) }
    ensures none { IfNone result (All (λ (b : Bar). b.begin ≢ line) bars.now) }
{
    bars.iter().find(|bar| bar.begin == line)
}

/// Whether the call is not over above this line.
fn reaches(end: &BarEnd<'_>, line: usize) -> bool
    ensures yes { IsTrue result → Reaches end.now line }
    ensures no { IsFalse result → ¬ (Reaches end.now line) }
{
    match end {
        BarEnd::Answered(end, _) => line <= *end,
        BarEnd::Crashed(end) => line <= *end,
        BarEnd::Open => true,
    }
}

/// The point of a call that takes effect after another one, or first, where the number of that one
/// is 0: in the line of its begin, or in that of the other point, if that is a later one.
fn point_after(bar: &Bar<'_>, before: &Point) -> Point
    requires number { before.now.number < 400 }
    requires part { before.now.part ≤ before.now.number }
    ensures follows { Follows bar.now.begin before.now result }
    ensures row { result.row ≡ bar.now.row }
    ensures part { result.part ≤ result.number }
{
    let line = bar.begin.max(before.line);
    let part = if before.number > 0 && line == before.line {
        before.part + 1
    } else {
        0
    };
    Point {
        number: before.number + 1,
        row: bar.row,
        line,
        part,
    }
}

/// The point of the call that begins in this line, after another one; `None` where there is no such
/// call, where it is over above that point, or where the order has its greatest number of points.
fn next_point(bars: &[Bar<'_>], line: usize, before: &Point) -> Option<Point>
    requires rising { AllPairs (λ (one other : Bar). one.begin < other.begin) bars.now }
    requires part { before.now.part ≤ before.now.number }
    ensures point { IfSome result (IsPointOf bars.now line) }
    ensures follows { IfSome result (Follows line before.now) }
    ensures part { IfSome result (λ p. p.part ≤ p.number) }
    ensures none { IfNone result (before.now.number < 400 → (p : Point)
        → before.now.line ≤ p.line → ¬ (IsPointOf bars.now line p)) }
{
    if before.number >= MAX_POINTS {
        return None;
    }
    let Some(bar) = bar_at(bars, line) else {
        return None;
    };
    let point = point_after(bar, before);
    if !reaches(&bar.end, point.line) {
        return None;
    }
    Some(point)
}

/// Adds a point for each call of an order, as far as each can lie in its bar.
fn add_order(bars: &[Bar<'_>], order: &[usize], points: &mut Vec<Point>) -> Result<(), AllocError>
    requires { AllPairs (λ (one other : Bar). one.begin < other.begin) bars.now }
    ensures { OnOk result ((ps : List Point) × (points.new.items ≡ points.old.items ++ ps)
        × ArePointsOf bars.now order.now ps) }
{
    let mut before = Point {
        number: 0,
        row: 0,
        line: 0,
        part: 0,
    };
    for line in order {
        let Some(point) = next_point(bars, *line, &before) else {
            return Ok(());
        };
        points.push(point)?;
        before = point;
    }
    Ok(())
}

/// The points of all orders, as far as each can lie in its bar.
pub(crate) fn points_of(
    alloc: Global,
    bars: &[Bar<'_>],
    orders: &[Order],
) -> Result<Vec<Point>, AllocError>
    requires { AllPairs (λ (one other : Bar). one.begin < other.begin) bars.now }
    ensures { IfOk result (λ points. ArePoints bars.now orders.now points.items) }
{
    let mut points = Vec::new(alloc);
    for order in orders {
        add_order(bars, &order.lines, &mut points)?;
    }
    Ok(points)
}
