//! The line that decides: the first one down to which a reply is refused.
ghost use Rattle.std.specs.Prelude.{◌≡◌, [], IfOk, MatchOption, false};
ghost use Rattle.history_logs.specs.Judging.{IsFoundByAll, is_refused};
ghost use Rattle.history_logs.specs.Logs.{IsFirstRefused, Judged, RefusesIn, RefusesNoneIn};
ghost use Rattle.history_logs.specs.Logs.{first_lines};
ghost use Rattle.history_logs.specs.Orders.{HasOrders};

use super::judging::after_lines;
use super::ordering::judge_services;
use super::progress::NoProgress;
use super::reading::read_log;
use super::verdict::{Refusal, Verdict};
use histories::Cut;
use std::alloc::{AllocError, Global};

/// The first lines of a log, so many, or all, if it has fewer.
fn first_lines(log: &[u8], count: usize) -> &[u8]
    ensures { result.now ≡ first_lines count log.now }
{
    &log[..log.len() - after_lines(log, count).len()]
}

/// The reply that is refused, if one is.
fn refusal_of(found: Verdict) -> Option<Refusal>
    ensures { MatchOption result (is_refused found ≡ false) (λ reported.
        found ≡ Verdict.Refused reported) }
{
    match found {
        Verdict::Refused(reported) => Some(reported),
        Verdict::Conforms(_, _) | Verdict::BadLine(_, _) => None,
        Verdict::ManyConfigs(_) | Verdict::ManyOpen(_) => None,
    }
}

/// The reply that is refused in the good lines of a text, if one is.
fn refused_in(alloc: Global, text: &[u8]) -> Result<Option<Refusal>, AllocError>
    ensures { IfOk result (λ found. MatchOption found
        (RefusesNoneIn text.now) (RefusesIn text.now)) }
{
    let (reading, _bad) = read_log(alloc, text, &mut NoProgress)?;
    let judged = judge_services(alloc, text, &reading.services, Cut::WhereQuiet)?;
    drop(reading);
    match judged {
        Ok(_) => Ok(None),
        Err(found) => Ok(refusal_of(found)),
    }
}

/// The first line down to which a reply is refused, of a log in which one is.
///
/// Most often it is the line of the reply that is refused by all replies of the log, so that line
/// and the one above are tried first. Below them, each step is twice as long as the last one, up to
/// a line down to which a reply is refused; then it is half of what is left.
fn first_refused(alloc: Global, log: &[u8], reported: Refusal) -> Result<Refusal, AllocError>
    requires { RefusesIn log.now reported }
    ensures { IfOk result (IsFirstRefused log.now) }
{
    let mut found = reported;
    let mut above = 0;
    let mut line = log.len().max(1);
    let mut step = found.reply.saturating_sub(1).max(1);
    let mut next_step = 1usize;
    while line - above > 1 {
        let tried = above + step.min((line - above) / 2);
        match refused_in(alloc, first_lines(log, tried))? {
            Some(refused) => {
                found = refused;
                line = tried;
            }
            None => above = tried,
        }
        step = next_step;
        next_step = next_step.saturating_mul(2);
    }
    Ok(Refusal { line, ..found })
}

/// The verdict on a log, by what is found in all its good lines.
#[tactic(auto, unfolding(crate::specs::Logs::Judged))]
pub(super) fn decide(alloc: Global, log: &[u8], found: Verdict) -> Result<Verdict, AllocError>
    requires { IsFoundByAll log.now found }
    ensures judged { IfOk result (Judged log.now) }
    ensures orders { HasOrders log.now found [] → IfOk result (λ verdict.
        HasOrders log.now verdict []) }
{
    match found {
        Verdict::Refused(reported) => {
            let first = first_refused(alloc, log, reported)?;
            Ok(Verdict::Refused(first))
        }
        Verdict::Conforms(calls, services) => Ok(Verdict::Conforms(calls, services)),
        Verdict::ManyConfigs(line) => Ok(Verdict::ManyConfigs(line)),
        Verdict::ManyOpen(line) => Ok(Verdict::ManyOpen(line)),
        Verdict::BadLine(line, expected) => Ok(Verdict::BadLine(line, expected)),
    }
}
