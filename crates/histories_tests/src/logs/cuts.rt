//! Logs that are cut anywhere.

use super::rows::{Said, verdict_on};
use history_logs::logs::Expected;
use std::process::Abort;
use std::test::Fail;

/// A log that conforms, with all kinds of lines but notes.
const LOG: &str =
    "service event 7 3 2 2\nregister 1.0.0.1\n= handle 0 0\nA> register 2.0.0.2\nB> add listener 1.0.0.10 1.0.0.1\nB< handle 1 0\n7: B> release listener 1 0\nA< handle 2 1\nC> deregister 0\nB!\nnodes\n= list 1000000000000000000000001 2000000000000000000000002\nC< has-owners\nservice event 8 1 0 0\n8: A> nodes\nA< list\n7: state nodes 20\n7: state 1 3 register 3.0.0.3\n7: nodes\n= list 3000000000000000000000003\n";

/// Whether a line of the log is that of a service.
fn is_service(line: &str) -> bool {
    line.starts_with("service")
}

/// Whether a line of the log begins a caller's call.
fn is_begin(line: &str) -> bool {
    line.contains("> ")
}

/// Whether a line of the log is a call alone, whose reply stands below it.
fn is_alone(line: &str) -> bool {
    let is_end = line.contains("< ") || line.ends_with("!") || line.starts_with("= ");
    !is_service(line) && !is_begin(line) && !is_end && !line.contains("state ")
}

/// What the lines of a log, all of them whole, are judged to be where no reply is refused.
fn verdict_of_lines(lines: &str) -> Said {
    let count = lines.split_terminator('\n').count();
    let next = count.saturating_add(1);
    let services = lines
        .split_terminator('\n')
        .filter(|line| is_service(line))
        .count();
    let calls = lines
        .split_terminator('\n')
        .filter(|line| is_begin(line) || is_alone(line))
        .count();
    if services == 0 {
        return Said::BadLine(next, Expected::Service);
    }
    match lines.split_terminator('\n').last() {
        Some(line) if is_alone(line) => Said::BadLine(next, Expected::Reply),
        _ => Said::Conforms(calls, services),
    }
}

/// What the first bytes of the log are judged to be. What begins a history that conforms does.
fn verdict_of_front(front: &str) -> Said {
    if front.is_empty() || front.ends_with('\n') {
        return verdict_of_lines(front);
    }
    let whole = front.bytes().filter(|byte| *byte == b'\n').count();
    Said::BadLine(whole.saturating_add(1), Expected::Newline)
}

#[test]
fn a_log_is_cut_at_each_byte(rt: HostRuntime) -> Result<(), Fail> {
    for end in 0..LOG.len().saturating_add(1) {
        let front = LOG.get(..end).unwrap_or(LOG);
        let found = verdict_on(rt.alloc(), front.as_bytes())?;
        assert_eq!(rt; (end, found), (end, verdict_of_front(front)));
    }
    Ok(())
}
