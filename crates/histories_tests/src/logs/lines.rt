//! Lines that are not what is expected.

use super::rows::{Row, Said, are_judged};
use history_logs::logs::{Expected, LogForm, report_log};
use std::test::Fail;

/// Where no service is above.
static FIRST: [Row; 15] = [
    ("", Said::BadLine(1, Expected::Service)),
    ("\n#\n", Said::BadLine(3, Expected::Service)),
    ("nodes\n= list\n", Said::BadLine(1, Expected::Service)),
    ("A> nodes\n", Said::BadLine(1, Expected::Service)),
    ("A< list\n", Said::BadLine(1, Expected::Service)),
    ("A!\n", Said::BadLine(1, Expected::Service)),
    ("= list\n", Said::BadLine(1, Expected::Service)),
    ("foo\n", Said::BadLine(1, Expected::Service)),
    ("service event 7 1 0\n", Said::BadLine(1, Expected::Service)),
    ("service event 7 1 0 0\n", Said::Conforms(0, 1)),
    ("service event 7 1 0 0", Said::BadLine(1, Expected::Newline)),
    ("#\r\n#\nservice event 7 1 0 0\n", Said::Conforms(0, 1)),
    (
        "service event 7 1 0 0\r\n",
        Said::BadLine(1, Expected::NoCarriageReturn),
    ),
    ("\r\n", Said::BadLine(1, Expected::NoCarriageReturn)),
    ("\r", Said::BadLine(1, Expected::Newline)),
];

#[test]
fn the_first_line_is_a_service(rt: HostRuntime) -> Result<(), Fail> {
    are_judged(&rt, "", &FIRST)
}

/// One line.
const SERVICE: &str = "service event 7 3 2 2\n";

/// What a caller may not do.
static CALLERS: [Row; 12] = [
    (
        "A> nodes\nA> nodes\n",
        Said::BadLine(3, Expected::IdleCaller),
    ),
    ("A< list\n", Said::BadLine(2, Expected::OpenCall)),
    (
        "A> nodes\nA< list\nA< list\n",
        Said::BadLine(4, Expected::OpenCall),
    ),
    ("A> nodes\na< list\n", Said::BadLine(3, Expected::OpenCall)),
    (
        "A> nodes\nA!\nA> nodes\n",
        Said::BadLine(4, Expected::LiveCaller),
    ),
    (
        "A> nodes\nA!\nA< list\n",
        Said::BadLine(4, Expected::LiveCaller),
    ),
    ("A> nodes\nA!\nA!\n", Said::BadLine(4, Expected::LiveCaller)),
    ("A!\n", Said::BadLine(2, Expected::KnownCaller)),
    ("A> nodes\nB!\n", Said::BadLine(3, Expected::KnownCaller)),
    // A name is one to sixteen letters and digits.
    ("7> nodes\n7< list\n", Said::Conforms(1, 1)),
    ("abcdefghijklmnop> nodes\n", Said::Conforms(1, 1)),
    (
        "abcdefghijklmnopq> nodes\n",
        Said::BadLine(2, Expected::Form(LogForm::Begin)),
    ),
];

#[test]
fn callers_have_one_call_open(rt: HostRuntime) -> Result<(), Fail> {
    are_judged(&rt, SERVICE, &CALLERS)
}

// What is told of a line that begins as none does; as those of one form do; of one on no service
// above; of a number that is taken; and of a reply without a call.
const NO_WORD: &str =
    "a line that begins with register, deregister, nodes, add, release, list, count, dead, \
    state, service or a caller, whose name has 1 to 16 letters and digits, is expected";

const REGISTER: &str = "register NODE is expected, as register 1.0.0.1, and no space behind it";

const DEREGISTER: &str =
    "deregister NUMBER or deregister SLOT TICKET is expected, as deregister 0 3, \
    and no space behind it";

const NODES: &str = "nodes is expected, and nothing behind it, not even a space";

const ADD: &str =
    "add ROLE PORT NODE is expected, as add listener 1.0.0.2 1.0.0.1, and no space behind it";

const RELEASE: &str =
    "release NUMBER or release ROLE SLOT TICKET is expected, as release listener 1 0, \
    and no space behind it";

const LIST: &str = "list ROLE is expected, as list listener, and no space behind it";

const COUNT: &str = "count ROLE is expected, as count listener, and no space behind it";

const DEAD: &str =
    "dead NODE or dead NODE skip PORT .. is expected, as dead 1.0.0.1, and no space behind it";

const WEAK_NODES: &str = "CALLER> nodes? is expected, as A> nodes?, and no space behind it";

const WEAK_LIST: &str =
    "CALLER> list? ROLE is expected, as A> list? listener, and no space behind it";

const BEGIN: &str =
    "CALLER> COMMAND is expected, as A> nodes; a name has 1 to 16 letters and digits";

const END: &str = "CALLER< REPLY is expected, as A< list, with no number before it; \
    a name has 1 to 16 letters and digits";

const CRASH: &str = "CALLER! is expected, as A!, with no number before it; \
    a name has 1 to 16 letters and digits";

const NUMBERED: &str =
    "NUMBER: COMMAND, NUMBER: CALLER> COMMAND or NUMBER: state .. is expected, as 7: A> nodes; \
    NUMBER is that of a service above";

const SERVICE_LINE: &str =
    "service PATTERN NUMBER NODES FIRST SECOND is expected, as service event 7 2 2 0; \
    a pattern is publish-subscribe, event, request-response or blackboard";

const STATE: &str =
    "state .. is expected, as state nodes 20, state nodes 20 locked, state listener 4, \
    state 0 17 register 1.0.0.1 or state 3 2 add listener 1.0.0.2 1.0.0.1";

const ON_NONE: &str = "a line on a service above, by its number, or a new service is expected";

const TAKEN: &str = "another number is expected: a service above has this one";

const NO_CALL: &str = "the command of a call is expected above its reply, as nodes above = list";

/// Lines that may not stand below that of a service, and what is told of them.
static BAD_LINES: [(&str, &str); 61] = [
    ("foo", NO_WORD),
    (" # a", NO_WORD),
    ("regster 1.0.0.1", NO_WORD),
    ("Register 1.0.0.1", NO_WORD),
    (" nodes", NO_WORD),
    ("overlap", NO_WORD),
    ("A", NO_WORD),
    ("A > nodes", NO_WORD),
    ("A-b> nodes", NO_WORD),
    ("thread_1> nodes", NO_WORD),
    ("=list", NO_WORD),
    ("7: ", NO_WORD),
    ("register", REGISTER),
    ("register 1.0.0", REGISTER),
    ("register  1.0.0.1", REGISTER),
    ("register 1.0.0.1 ", REGISTER),
    ("A> register 0.1.1.0", REGISTER),
    ("7: A> register 1.0.0.x", REGISTER),
    ("7: register 4294967296.0.0.0", REGISTER),
    ("deregister 0 0 0", DEREGISTER),
    ("deregister 0 01", DEREGISTER),
    ("A> deregister -1", DEREGISTER),
    ("nodes ", NODES),
    ("A> nodes 1", NODES),
    ("add listener 1.0.0.2", ADD),
    ("add listner 1.0.0.2 1.0.0.1", ADD),
    ("A> add listener 1.0.0.2,1.0.0.1", ADD),
    ("release node 0 0", RELEASE),
    ("release listener 0", RELEASE),
    ("list", LIST),
    ("list listeners", LIST),
    ("list listener ", LIST),
    ("A> list nodes", LIST),
    ("count", COUNT),
    ("dead 1.0.0.1 skip", DEAD),
    ("nodes?", WEAK_NODES),
    ("A> list? node", WEAK_LIST),
    ("A>nodes", BEGIN),
    ("A>", BEGIN),
    ("> nodes", BEGIN),
    ("A> ", BEGIN),
    ("A> leave", BEGIN),
    ("A> 7: nodes", BEGIN),
    ("7: A> Nodes", BEGIN),
    ("A> state nodes 2", BEGIN),
    ("A> service event 8 2 2 2", BEGIN),
    ("abcdefghijklmnopq> nodes", BEGIN),
    ("A<list", END),
    ("7: A< list", END),
    ("!", CRASH),
    ("A! ", CRASH),
    ("A!!", CRASH),
    ("A: nodes", NUMBERED),
    ("07: nodes", NUMBERED),
    ("7: service event 8 2 2 2", NUMBERED),
    ("service event 7 1 0", SERVICE_LINE),
    ("service pubsub 8 2 2 2", SERVICE_LINE),
    ("state nodes", STATE),
    ("= list", NO_CALL),
    ("8: nodes", ON_NONE),
    ("service event 7 1 0 0", TAKEN),
];

#[test]
fn what_is_told_of_bad_lines(rt: HostRuntime) -> Result<(), Fail> {
    for (line, told) in &BAD_LINES {
        let log = format!(in rt.alloc(); "{}{}\n", SERVICE, line)?;
        let (_, report) = report_log(rt.alloc(), log.as_bytes())?;
        let wanted = format!(in rt.alloc(); "line 2: {}\n", told)?;
        assert_eq!(rt; (line, report.as_slice()), (line, wanted.as_bytes()));
    }
    Ok(())
}

/// What is no reply, and how lines end.
static REPLIES: [Row; 19] = [
    ("nodes\n", Said::BadLine(3, Expected::Reply)),
    ("nodes\n#\n\n", Said::BadLine(5, Expected::Reply)),
    ("nodes\n#\n\n= list\n", Said::Conforms(1, 1)),
    ("nodes\nnodes\n", Said::BadLine(3, Expected::Reply)),
    ("nodes\nA> nodes\n", Said::BadLine(3, Expected::Reply)),
    ("nodes\n=list\n", Said::BadLine(3, Expected::Reply)),
    (
        "nodes\n= list\n= list\n",
        Said::BadLine(4, Expected::CallAlone),
    ),
    ("nodes\n= foo\n", Said::BadLine(3, Expected::Reply)),
    ("A> nodes\nA< foo\n", Said::BadLine(3, Expected::Reply)),
    ("A> nodes\nA< list A\n", Said::BadLine(3, Expected::Reply)),
    (
        "A> nodes\nA< handle 01 0\n",
        Said::BadLine(3, Expected::Reply),
    ),
    ("A> nodes\nA< \n", Said::BadLine(3, Expected::Reply)),
    ("nodes", Said::BadLine(2, Expected::Newline)),
    ("nodes\n= list", Said::BadLine(3, Expected::Newline)),
    ("nodes\r\n", Said::BadLine(2, Expected::NoCarriageReturn)),
    (
        "nodes\n= list\r\n",
        Said::BadLine(3, Expected::NoCarriageReturn),
    ),
    (
        "A> nodes\nA!\r\n",
        Said::BadLine(3, Expected::NoCarriageReturn),
    ),
    // A refused reply comes before a bad line below it, and a bad line before a reply below it.
    ("A> nodes\nA< full\nfoo\n", Said::Refused(3, 2, 1)),
    (
        "A> nodes\nfoo\nA< full\n",
        Said::BadLine(3, Expected::Form(LogForm::Unknown)),
    ),
];

#[test]
fn replies_and_ends_of_lines(rt: HostRuntime) -> Result<(), Fail> {
    are_judged(&rt, SERVICE, &REPLIES)
}
