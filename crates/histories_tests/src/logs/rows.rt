//! Logs as rows of a table, each with what it must be judged to be.

use history_logs::logs::{Expected, Refusal, Verdict, check_log};
use std::alloc::{AllocError, Global};
use std::process::Abort;
use std::test::Fail;

/// What a verdict says: its name, its numbers, and what is expected.
#[derive(Clone, Copy, Debug, PartialEq, Eq)]
pub(super) enum Said {
    /// With the numbers of calls and of services.
    Conforms(usize, usize),
    /// With the line of the reply, which decides, the line in which its window begins, and the
    /// number of configurations.
    Refused(usize, usize, usize),
    /// With the line that decides, and then the same of a reply above it.
    RefusedAbove(usize, usize, usize, usize),
    ManyConfigs(usize),
    ManyOpen(usize),
    BadLine(usize, Expected),
}

/// A log, or the end of one, and what it must be judged to be.
pub(super) type Row = (&'static str, Said);

/// What is said of a reply that is refused.
fn refusal(reported: &Refusal) -> Said {
    let many = reported.configurations.len();
    if reported.reply == reported.line {
        Said::Refused(reported.line, reported.window, many)
    } else {
        Said::RefusedAbove(reported.line, reported.reply, reported.window, many)
    }
}

/// The verdict on a log.
pub(super) fn verdict_on(alloc: Global, log: &[u8]) -> Result<Said, AllocError> {
    Ok(match check_log(alloc, log)? {
        Verdict::Conforms(calls, services) => Said::Conforms(calls, services),
        Verdict::Refused(reported) => refusal(&reported),
        Verdict::ManyConfigs(line) => Said::ManyConfigs(line),
        Verdict::ManyOpen(line) => Said::ManyOpen(line),
        Verdict::BadLine(line, expected) => Said::BadLine(line, expected),
    })
}

/// The verdict on a log of two parts.
fn verdict_after(alloc: Global, front: &str, rest: &str) -> Result<Said, AllocError> {
    let mut log = String::from_str(alloc, front)?;
    log.push_str(rest)?;
    verdict_on(alloc, log.as_bytes())
}

/// Logs that begin so and go on as the rows say are judged so.
pub(super) fn are_judged(
    rt: &(impl Abort + AllocGlobal),
    front: &str,
    rows: &[Row],
) -> Result<(), Fail> {
    for (rest, wanted) in rows {
        assert_eq!(rt;
            (rest, verdict_after(rt.alloc(), front, rest)?),
            (rest, *wanted)
        );
    }
    Ok(())
}
