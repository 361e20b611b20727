//! Judging a log while it is read.
ghost use Rattle.std.specs.Prelude.{◌≡◌, ◌≤◌, ◌<◌, IfOk, IfSome, IsTrue, OnOk, length};
ghost use Rattle.history_logs.specs.Logs.{Judged};
ghost use Rattle.history_logs.specs.Progress.{AddsCounts};
ghost use Rattle.history_logs.specs.Settling.{AreRightShort, AreSameFronts, HaveShort, StayAll};

use super::end_verdict;
use super::progress::Progress;
use super::reading::Reading;
use super::service::LogService;
use super::settling::{is_explained, settle};
use super::verdict::Verdict;
use histories::Front;
use line_streams::before_byte;
use service_conformance::conformance::WatchedService;
use std::alloc::{AllocError, Global};

/// Services settle once in so many lines, or in as many as there are services, or as events were
/// left the last time, if these are more. So the cost of a line does not grow with either.
const LINES_A_SETTLING: usize = 4096;

/// Each of so many services has a front, or none yet.
fn add_fronts(
    fronts: &mut Vec<Option<Front<WatchedService>>>,
    count: usize,
) -> Result<(), AllocError>
    requires { length fronts.old.items ≤ count }
    ensures count { OnOk result (length fronts.new.items ≡ count) }
    ensures same { OnOk result (AreSameFronts fronts.old.items fronts.new.items) }
{
    while fronts.len() < count {
        fronts.push(None)?;
    }
    Ok(())
}

/// Settles what was seen of each service. Returns whether orders explain what is settled.
#[inline(never)]
fn settle_all(
    alloc: Global,
    services: &mut [LogService],
    fronts: &mut Vec<Option<Front<WatchedService>>>,
) -> Result<bool, AllocError>
    requires { HaveShort services.old fronts.old.items }
    ensures { IfOk result (λ yes. IsTrue yes
        → StayAll services.old fronts.old.items services.new fronts.new.items) }
{
    add_fronts(fronts, services.len())?;
    for at in 0..services.len() {
        if !settle(alloc, &mut services[at], &mut fronts[at])? {
            return Ok(false);
        }
    }
    Ok(true)
}

/// How many events of the services are kept, or the greatest number, if they are more.
fn count_kept(services: &[LogService]) -> usize {
    let mut count = 0usize;
    for service in services {
        count = count.saturating_add(service.events().len());
    }
    count
}

/// Settles what was seen of each service from the due line on, and says when that is due again.
/// Returns whether orders explain what is settled. The test is inlined, since most lines need no
/// more.
#[inline(always)]
fn settle_at(
    alloc: Global,
    line: usize,
    due: &mut usize,
    services: &mut [LogService],
    fronts: &mut Vec<Option<Front<WatchedService>>>,
) -> Result<bool, AllocError>
    requires { HaveShort services.old fronts.old.items }
    ensures { IfOk result (λ yes. IsTrue yes
        → StayAll services.old fronts.old.items services.new fronts.new.items) }
{
    if line < *due {
        return Ok(true);
    }
    let is_explained = settle_all(alloc, services, fronts)?;
    let many = services.len().max(count_kept(services));
    *due = line.saturating_add(LINES_A_SETTLING.max(many));
    Ok(is_explained)
}

/// Whether orders explain all that was seen of each service, where no more comes.
fn are_explained(
    alloc: Global,
    services: &[LogService],
    fronts: &mut Vec<Option<Front<WatchedService>>>,
) -> Result<bool, AllocError>
    requires { HaveShort services.now fronts.old.items }
    ensures { IfOk result (λ yes. IsTrue yes → AreRightShort services.now fronts.old.items) }
{
    add_fronts(fronts, services.len())?;
    for at in 0..services.len() {
        if !is_explained(alloc, &services[at], fronts[at].take())? {
            return Ok(false);
        }
    }
    Ok(true)
}

/// Judges a log while it is read, and forgets what has settled. Returns the verdict if the log
/// conforms.
///
/// It keeps the entries of the services, the commands and their handles, which later ones may name,
/// the links since no call was open, and what lies between the begin and the end of the longest
/// call.
pub(super) fn find_conforming<P: Progress>(
    alloc: Global,
    log: &[u8],
    progress: &mut P,
) -> Result<Option<Verdict>, AllocError>
    ensures judged { IfOk result (λ found. IfSome found (Judged log.now)) }
    ensures progress { AddsCounts (P.contents progress.old) (P.contents progress.new) }
{
    let mut reading = Reading::new(alloc);
    let mut fronts = Vec::new(alloc);
    let mut rest = log;
    let mut line = 1;
    let mut due = LINES_A_SETTLING;
    while let Some((text, after)) = before_byte(rest, b'\n') {
        let None = reading.read(alloc, text, line)? else {
            return Ok(None);
        };
        progress.count(line);
        if !settle_at(alloc, line, &mut due, &mut reading.services, &mut fronts)? {
            return Ok(None);
        }
        rest = after;
        line += 1;
    }
    if !rest.is_empty() {
        return Ok(None);
    }
    let None = reading.at_end() else {
        return Ok(None);
    };
    if !are_explained(alloc, &reading.services, &mut fronts)? {
        return Ok(None);
    }
    Ok(Some(end_verdict(&reading)))
}
