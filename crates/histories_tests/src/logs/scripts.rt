//! The worked scripts with their replies, as logs of calls that overlap nothing.

use super::rows::{Said, verdict_on};
use history_logs::logs::Expected;
use std::alloc::Global;
use std::process::Abort;
use std::test::Fail;
use test_support::scripts::ROWS;

/// Replies, of which no run of a worked script gives one in place of another.
static REPLIES: [&str; 9] = [
    "handle 99 0",
    "handle 0 99",
    "full",
    "no-owners",
    "released",
    "not-owned",
    "list 7",
    "count 7",
    "wrong-pattern",
];

/// Words of no reply to a command that has a line.
static WORDS: [&str; 10] = [
    "",
    "foo",
    "verified",
    "released ",
    "handle 0  0",
    "handle 01 0",
    "handle 0",
    "list A",
    "list ",
    "count -1",
];

/// How the log of a script has its calls.
#[derive(Clone, Copy)]
enum Form {
    Alone,
    /// Begun and ended by one caller.
    Begun,
}

/// Appends a call and its reply.
fn write_call(log: &mut String, form: Form, command: &str, words: &str) -> Result<(), Fail> {
    match form {
        Form::Alone => writeln!(log, "{command}\n= {words}")?,
        Form::Begun => writeln!(log, "A> {command}\nA< {words}")?,
    }
    Ok(())
}

/// The log of a script and its reply lines, with other words in place of one reply.
fn log_of(
    alloc: Global,
    form: Form,
    (script, lines): (&str, &str),
    changed: Option<(usize, &str)>,
) -> Result<String, Fail> {
    let (service, commands) = script.split_once('\n').ok_or("a service line")?;
    let mut log = String::from_str(alloc, service)?;
    log.push('\n')?;
    let replies = lines.split_terminator('\n');
    for (at, (command, reply)) in commands.split_terminator('\n').zip(replies).enumerate() {
        let words = match changed {
            Some((k, words)) if k == at => words,
            _ => reply,
        };
        write_call(&mut log, form, command, words)?;
    }
    Ok(log)
}

#[test]
fn worked_scripts_conform(rt: HostRuntime) -> Result<(), Fail> {
    for form in [Form::Alone, Form::Begun] {
        for row in &ROWS {
            let log = log_of(rt.alloc(), form, *row, None)?;
            let calls = row.1.split_terminator('\n').count();
            let found = verdict_on(rt.alloc(), log.as_bytes())?;
            assert_eq!(rt; found, Said::Conforms(calls, 1));
        }
    }
    Ok(())
}

/// What a changed reply is.
#[derive(Clone, Copy)]
enum Change {
    /// Another reply.
    Reply,
    /// Words of no reply.
    Words,
}

/// What a log is judged to be whose reply in this line was changed so.
fn said_of(change: Change, line: usize) -> Said {
    match change {
        Change::Reply => Said::Refused(line, line, 1),
        Change::Words => Said::BadLine(line, Expected::Reply),
    }
}

/// With each reply of a worked script changed to each of these words, its log is judged so.
fn finds_changes(
    rt: &(impl Abort + AllocGlobal),
    row: (&str, &str),
    words: &[&str],
    change: Change,
) -> Result<(), Fail> {
    for (at, reply) in row.1.split_terminator('\n').enumerate() {
        let line = at.saturating_add(at).saturating_add(3);
        for other in words {
            if *other != reply {
                let log = log_of(rt.alloc(), Form::Alone, row, Some((at, other)))?;
                let found = verdict_on(rt.alloc(), log.as_bytes())?;
                assert_eq!(rt; (other, found), (other, said_of(change, line)));
            }
        }
    }
    Ok(())
}

#[test]
fn a_changed_reply_is_refused_where_it_stands(rt: HostRuntime) -> Result<(), Fail> {
    for row in &ROWS {
        finds_changes(&rt, *row, &REPLIES, Change::Reply)?;
    }
    Ok(())
}

#[test]
fn other_words_are_a_bad_line(rt: HostRuntime) -> Result<(), Fail> {
    for row in &ROWS {
        finds_changes(&rt, *row, &WORDS, Change::Words)?;
    }
    Ok(())
}
