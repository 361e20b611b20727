//! The command of a refused reply.

use history_logs::logs::{Verdict, check_log};
use std::alloc::{AllocError, Global};
use std::process::Abort;
use std::test::Fail;

/// The line and the text of the command of the reply that is refused in the log, if one is.
fn command_in(alloc: Global, log: &str) -> Result<(usize, Vec<u8>), AllocError> {
    match check_log(alloc, log.as_bytes())? {
        Verdict::Refused(reported) => Ok((reported.call, reported.command)),
        _ => Ok((0, Vec::new(alloc))),
    }
}

/// A log with a reply that is refused, and the line and the text of its command.
type Row = (&'static str, usize, &'static [u8]);

static COMMANDS: [Row; 7] = [
    (
        "service event 7 2 0 0\nnodes\n= list\nnodes\n= full\n",
        4,
        b"nodes",
    ),
    // Notes may stand between a command and its reply.
    (
        "service event 7 2 0 0\nnodes\n\n# a note\n= full\n",
        2,
        b"nodes",
    ),
    // Another call of A begins above, and one of B below.
    (
        "service event 7 2 0 0\nA> nodes\nA< list\nA> nodes\nB> nodes\nA< full\n",
        4,
        b"A> nodes",
    ),
    (
        "service event 7 2 0 0\nA> nodes\nB> nodes\nA< list\nB< full\n",
        3,
        b"B> nodes",
    ),
    // The number of the service belongs to the line.
    (
        "service event 7 2 0 0\nservice event 8 2 0 0\n8: A> nodes\n7: nodes\n= list\nA< full\n",
        3,
        b"8: A> nodes",
    ),
    (
        "service event 7 2 0 0\nservice event 8 2 0 0\n8: nodes\n= list\n8: nodes\n= full\n",
        5,
        b"8: nodes",
    ),
    // A weak listing is one command.
    (
        "service event 7 2 0 0\nA> nodes?\nA< list 1000000000000000000000001\n",
        2,
        b"A> nodes?",
    ),
];

#[test]
fn a_refused_reply_has_its_command(rt: HostRuntime) -> Result<(), Fail> {
    for (log, line, command) in &COMMANDS {
        let (found, text) = command_in(rt.alloc(), log)?;
        assert_eq!(rt; (log, found), (log, *line));
        assert_eq!(rt; (log, text.as_slice()), (log, *command));
    }
    Ok(())
}
