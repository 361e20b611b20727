//! Checks of logs.
ghost use Rattle.std.specs.Prelude.{◌≡◌, ◌<◌, ◌^◌, IfOk, length, sum_by};
ghost use Rattle.history_logs.specs.Fields.{AreNumbers};
ghost use Rattle.history_logs.specs.Good.{IsReadTo};
ghost use Rattle.history_logs.specs.Judging.{end_verdict};
ghost use Rattle.history_logs.specs.Logs.{Judged};
ghost use Rattle.history_logs.specs.Orders.{HasOrders};
ghost use Rattle.history_logs.specs.Progress.{AddsCounts};
ghost use Rattle.history_logs.specs.Reports.{report_text};
ghost use Rattle.history_logs.specs.Seen.{Service};

mod callers;
mod conforming;
mod deciding;
mod judging;
mod named;
mod needed;
mod ordering;
mod progress;
mod reading;
mod report;
mod service;
mod settling;
mod streams;
mod verdict;

use conforming::find_conforming;
use deciding::decide;
use histories::Cut;
pub use log_lines::LogForm;
use ordering::judge_services;
pub use progress::{Counts, NoProgress, Progress};
use reading::{Reading, read_log};
use report::append_report;
use service::LogService;
use std::alloc::{AllocError, Global};
pub use streams::{Report, check_streams};
pub use verdict::{Configuration, Expected, Order, Refusal, Verdict};

/// How many calls were read.
fn count_calls(services: &[LogService]) -> usize
    requires { sum_by (λ (s : Service). length s.commands) services.now < 2 ^ 64 }
    ensures { result ≡ sum_by (λ (s : Service). length s.commands) services.now }
{
    services
        .iter()
        .map(|service| service.commands().len())
        .sum()
}

/// The verdict where orders explain all that was seen of the services, and all lines are good.
fn end_verdict(reading: &Reading) -> Verdict
    requires few { sum_by (λ (s : Service). length s.commands) reading.now.services.items
        < 2 ^ 64 }
    requires numbers { AreNumbers reading.now.numbers reading.now.services.items }
    ensures { result ≡ end_verdict reading.now.services.items }
{
    Verdict::Conforms(count_calls(&reading.services), reading.count_services())
}

/// Judges what was read of a log. Where what was seen is never cut, the orders come with the
/// verdict if the log conforms.
fn judge(
    alloc: Global,
    log: &[u8],
    reading: &Reading,
    bad: Option<(usize, Expected)>,
    cut: Cut,
) -> Result<(Verdict, Vec<Order>), AllocError>
    requires read { IsReadTo log.now reading.now.services.items bad }
    requires numbers { AreNumbers reading.now.numbers reading.now.services.items }
    ensures judged { IfOk result (λ found. Judged log.now found.0) }
    ensures orders { cut ≡ Cut.Never
        → IfOk result (λ found. HasOrders log.now found.0 found.1.items) }
{
    // For the proof: no more calls were read than the log has bytes.
    let _fits = log.len();
    match judge_services(alloc, log, &reading.services, cut)? {
        Ok(orders) => match bad {
            Some((line, expected)) => Ok((Verdict::BadLine(line, expected), Vec::new(alloc))),
            None => Ok((end_verdict(reading), orders)),
        },
        Err(found) => {
            let verdict = decide(alloc, log, found)?;
            Ok((verdict, Vec::new(alloc)))
        }
    }
}

/// Judges a log, as `check_log` does. Progress counts its lines.
fn check_with<P: Progress>(
    alloc: Global,
    log: &[u8],
    progress: &mut P,
) -> Result<Verdict, AllocError>
    ensures judged { IfOk result (Judged log.now) }
    ensures progress { AddsCounts (P.contents progress.old) (P.contents progress.new) }
{
    if let Some(verdict) = find_conforming(alloc, log, progress)? {
        return Ok(verdict);
    }
    let (reading, bad) = read_log(alloc, log, progress)?;
    let (verdict, _orders) = judge(alloc, log, &reading, bad, Cut::WhereQuiet)?;
    Ok(verdict)
}

/// Judges a log of services.
///
/// A log has lines of services, as `service_before` reads them, each with a number of its own, and
/// lines of what was seen of them, as `read_log_line` reads these. Lines that are empty or begin
/// with `#` may stand anywhere. Every line ends with a newline.
///
/// The line of a command is a call alone, of no caller. Below it stands `= ` and the words of its
/// reply; notes may be between. It begins and ends in the line of its reply. `A> COMMAND` begins a
/// call of the caller `A`, and `A< WORDS` ends it with the reply that was seen. A caller has one
/// call open at a time. `A!` says that it died: its open call took effect above this line or never,
/// and no line of it follows. A call that is open at the end took effect or not. `7: ` before a
/// command or a begin names the service with that number; it may be left out where no other service
/// is above.
///
/// A line `state ..` gives what is there of a service that was in use. Above all calls on it, it
/// says how the service begins. Below calls, where no caller has a call open on it, it begins the
/// service anew. What was seen above is then judged by itself, its number names the new one, and
/// calls are numbered from 0 again; it still counts as one service. A bound that is passed ends the
/// judging of a service only until it begins anew.
///
/// `A> list? ROLE` and `A> nodes?` begin a weak listing, which need not be a snapshot: it has each
/// id that was there all through it, and none that never was during it.
///
/// The calls on a service are numbered by their begins, from 0. A number stands for the handle that
/// the call's reply gave, where that reply stands above the line of the begin, else for none.
///
/// A log that conforms is judged while it is read. Beside the text it takes memory for the entries
/// of the services, for the commands and their handles, which later ones may name, for the links
/// since no call was open, and for what lies between the begin and the end of the longest call. A
/// log that does not conform is read once more, as a whole.
pub fn check_log(alloc: Global, log: &[u8]) -> Result<Verdict, AllocError>
    ensures { IfOk result (Judged log.now) }
{
    check_with(alloc, log, &mut NoProgress)
}

/// The text that reports a verdict.
pub fn report_on(alloc: Global, verdict: &Verdict) -> Result<Vec<u8>, AllocError>
    ensures { IfOk result (λ text. text.items ≡ report_text verdict.now) }
{
    let mut text = Vec::new(alloc);
    append_report(verdict, &mut text)?;
    Ok(text)
}

/// Judges a log, as `check_log` does: the verdict, and the text that reports it.
pub fn report_log(alloc: Global, log: &[u8]) -> Result<(Verdict, Vec<u8>), AllocError>
    ensures judged { IfOk result (λ found. Judged log.now found.0) }
    ensures text { IfOk result (λ found. found.1.items ≡ report_text found.0) }
{
    let verdict = check_log(alloc, log)?;
    let text = report_on(alloc, &verdict)?;
    Ok((verdict, text))
}

/// Judges a log, as `order_log` does. Progress counts its lines.
fn order_with<P: Progress>(
    alloc: Global,
    log: &[u8],
    progress: &mut P,
) -> Result<(Verdict, Vec<Order>), AllocError>
    ensures judged { IfOk result (λ found. Judged log.now found.0) }
    ensures orders { IfOk result (λ found. HasOrders log.now found.0 found.1.items) }
    ensures progress { AddsCounts (P.contents progress.old) (P.contents progress.new) }
{
    let (reading, bad) = read_log(alloc, log, progress)?;
    judge(alloc, log, &reading, bad, Cut::Never)
}

/// Judges a log, as `check_log` does. Where it conforms, there is an order for each service, by
/// their lines, and for each time that one begins anew. It is one of those that explain what was
/// seen of it. Else there is none.
///
/// All that is read is kept, also of a log that conforms. Memory grows by one link for each call in
/// each configuration in which it was made.
pub fn order_log(alloc: Global, log: &[u8]) -> Result<(Verdict, Vec<Order>), AllocError>
    ensures judged { IfOk result (λ found. Judged log.now found.0) }
    ensures orders { IfOk result (λ found. HasOrders log.now found.0 found.1.items) }
{
    order_with(alloc, log, &mut NoProgress)
}
