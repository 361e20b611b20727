//! Pictures of logs.
ghost use Rattle.std.specs.Prelude.{◌≡◌, ◌+◌, ℕ, IfNone, IfOk, IfSome, IsFalse, IsTrue, List};
ghost use Rattle.std.specs.Prelude.{string_bytes};
ghost use Rattle.history_drawing.specs.Calls.{BeginsIn, IsAnsweredIn, IsElsewhere, IsServiceOf};
ghost use Rattle.history_drawing.specs.Drawings.{AreLines, Draws, DrawsAll, DrawsLines};
ghost use Rattle.history_drawing.specs.Drawings.{DrawsWindow, HasNoRoom, IsDrawingOf, IsDrawn};
ghost use Rattle.history_drawing.specs.Drawings.{IsPicture, IsUndrawn, IsWindow, status_for};
ghost use Rattle.history_drawing.specs.Coordinates.{IsDrawable};

use crate::calls::{LogCall, below_first, call_at, first_service, lines_of, text_at};
use crate::points::points_of;
use crate::svg::write_svg;
use crate::timeline::{BarEnd, Timeline, Window, timeline_of};
use history_logs::logs::{Order, Refusal, Verdict, order_log, report_on};
use line_streams::Status;
use std::alloc::{AllocError, Global};

/// What is drawn of a log.
#[derive(Drop)]
pub struct Drawing {
    /// The status of the program.
    pub status: Status,
    /// The picture, as SVG; empty where there is none.
    pub picture: String,
    /// What is reported where there is no picture; else empty.
    pub message: Vec<u8>,
}

/// What is reported where there are more calls than a picture can have.
const MANY_CALLS: &[u8] = b"no picture: there are more than 200 calls\n";

/// No picture, and this report.
fn undrawn(alloc: Global, report: &[u8]) -> Result<Drawing, AllocError>
    ensures { IfOk result (IsUndrawn report.now) }
{
    Ok(Drawing {
        status: Status::Unusable,
        picture: String::new(alloc),
        message: Vec::from_slice(alloc, report)?,
    })
}

/// No picture, since there are too many calls for one: the first line of the report, and that.
fn without_room(alloc: Global, report: &[u8]) -> Result<Drawing, AllocError>
    ensures { IfOk result (HasNoRoom report.now) }
{
    let notes = lines_of(alloc, report)?;
    let mut message = Vec::from_slice(alloc, text_at(&notes, 1))?;
    message.push(b'\n')?;
    message.extend_from_slice(MANY_CALLS)?;
    undrawn(alloc, &message)
}

/// The status of a picture, by the line of the reply that is refused.
fn status_for(refused: Option<usize>) -> Status
    ensures { result ≡ status_for refused }
{
    match refused {
        None => Status::Good,
        Some(_) => Status::Faulty,
    }
}

/// The picture of a time line, with a report.
fn drawn(alloc: Global, timeline: &Timeline<'_>, report: &[u8]) -> Result<Drawing, AllocError>
    requires { IsDrawable timeline.now }
    ensures { IfOk result (λ d. IsDrawn (status_for timeline.now.refused) d
        × IsPicture report.now timeline.now (string_bytes d.picture)) }
{
    let notes = lines_of(alloc, report)?;
    let mut picture = String::new(alloc);
    write_svg(
        &mut picture,
        timeline,
        text_at(&notes, 1),
        below_first(&notes),
    )?;
    Ok(Drawing {
        status: status_for(timeline.refused),
        picture,
        message: Vec::new(alloc),
    })
}

/// Whether a call is answered in this line.
fn is_answered(end: &BarEnd<'_>, line: usize) -> bool
    ensures yes { IsTrue result → IsAnsweredIn line end.now }
    ensures no { IsFalse result → ¬ (IsAnsweredIn line end.now) }
{
    match end {
        BarEnd::Answered(end, _) => *end == line,
        _ => false,
    }
}

/// The call that begins in this line, if it is answered in the refused one.
fn answered_at<'a>(
    alloc: Global,
    lines: &[&'a [u8]],
    line: usize,
    refused: usize,
) -> Result<Option<LogCall<'a>>, AllocError>
    ensures some { IfOk result (λ found. IfSome found (λ seen.
        BeginsIn lines.now line (refused + 1) seen × IsAnsweredIn refused seen.end)) }
    ensures none { IfOk result (λ found. IfNone found
        (IsElsewhere lines.now (refused + 1) refused line)) }
{
    let Some(call) = call_at(alloc, lines, line, refused)? else {
        return Ok(None);
    };
    if is_answered(&call.end, refused) {
        return Ok(Some(call));
    }
    Ok(None)
}

/// The number of the service of the call that is answered in a refused line: of those that begin in
/// the lines from one on up to it. That of the first service is given.
fn service_of(
    alloc: Global,
    lines: &[&[u8]],
    first: usize,
    refused: usize,
    service: Option<u64>,
) -> Result<Option<u64>, AllocError>
    ensures { IfOk result (IsServiceOf lines.now first (refused + 1) refused service) }
{
    for line in first..=refused {
        if let Some(call) = answered_at(alloc, lines, line, refused)? {
            return Ok(call.service.or(service));
        }
    }
    Ok(service)
}

/// The lines of a refused reply, with the service of its call.
fn window_of(alloc: Global, lines: &[&[u8]], reported: &Refusal) -> Result<Window, AllocError>
    ensures { IfOk result (λ w. (log : List ℕ) → AreLines log lines.now
        → IsWindow log reported.now lines.now w) }
{
    let service = first_service(alloc, lines)?;
    let wanted = service_of(alloc, lines, reported.window, reported.reply, service)?;
    Ok(Window {
        first: reported.window,
        last: reported.line,
        wanted,
        service,
    })
}

/// The picture of the calls of a window, or that there are too many for one.
fn draw_lines(
    alloc: Global,
    lines: &[&[u8]],
    window: &Window,
    refused: Option<usize>,
    orders: &[Order],
    report: &[u8],
) -> Result<Drawing, AllocError>
    ensures { IfOk result (DrawsLines lines.now window.now refused orders.now report.now) }
{
    let Some(mut timeline) = timeline_of(alloc, lines, window, refused)? else {
        return without_room(alloc, report);
    };
    timeline.points = points_of(alloc, &timeline.bars, orders)?;
    drawn(alloc, &timeline, report)
}

/// The picture of the window of a refused reply, or that it has too many calls for one.
fn draw_refused(
    alloc: Global,
    log: &[u8],
    reported: &Refusal,
    orders: &[Order],
    report: &[u8],
) -> Result<Drawing, AllocError>
    ensures { IfOk result (DrawsWindow log.now reported.now orders.now report.now) }
{
    let lines = lines_of(alloc, log)?;
    let lines = lines.as_slice();
    let window = window_of(alloc, lines, reported)?;
    draw_lines(alloc, lines, &window, Some(reported.reply), orders, report)
}

/// The picture of all calls of a log that conforms, with the points at which they took effect, or
/// that there are too many for one.
fn draw_whole(
    alloc: Global,
    log: &[u8],
    orders: &[Order],
    report: &[u8],
) -> Result<Drawing, AllocError>
    ensures { IfOk result (DrawsAll log.now orders.now report.now) }
{
    let lines = lines_of(alloc, log)?;
    let lines = lines.as_slice();
    let window = Window {
        first: 0,
        last: lines.len().saturating_sub(1),
        wanted: None,
        service: None,
    };
    draw_lines(alloc, lines, &window, None, orders, report)
}

/// What is drawn of a log, by its verdict, the orders that come with it, and the report on it.
fn draw(
    alloc: Global,
    log: &[u8],
    verdict: &Verdict,
    orders: &[Order],
    report: &[u8],
) -> Result<Drawing, AllocError>
    ensures { IfOk result (Draws log.now verdict.now orders.now report.now) }
{
    match verdict {
        Verdict::Refused(reported) => draw_refused(alloc, log, reported, orders, report),
        Verdict::Conforms(_, _) => draw_whole(alloc, log, orders, report),
        Verdict::ManyConfigs(_) => undrawn(alloc, report),
        Verdict::ManyOpen(_) => undrawn(alloc, report),
        Verdict::BadLine(_, _) => undrawn(alloc, report),
    }
}

/// Judges a log, as `order_log` does, and draws the window of the first reply that no order
/// explains, or all calls where it conforms.
pub fn draw_log(alloc: Global, log: &[u8]) -> Result<Drawing, AllocError>
    ensures { IfOk result (IsDrawingOf log.now) }
{
    let (verdict, orders) = order_log(alloc, log)?;
    let report = report_on(alloc, &verdict)?;
    let drawing = draw(alloc, log, &verdict, &orders, &report)?;
    Ok(drawing)
}
