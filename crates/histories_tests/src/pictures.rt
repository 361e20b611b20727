//! What is drawn of worked logs.

use history_drawing::draw_log;
use std::process::Abort;
use std::test::Fail;

/// Of a log this is drawn: the status, what is reported, and parts of the picture, if there is one.
struct Row {
    log: &'static str,
    status: u8,
    message: &'static str,
    parts: &'static [&'static str],
}

/// Two threads' registry that gives a ticket twice, with a service beside it.
const WINDOW: &str =
    "service event 7 2 2 0\nservice event 8 2 2 0\n7: A> register 1.0.0.1\nA< handle 0 0\n7: A> add listener 1.0.0.10 1.0.0.1\nA< handle 1 0\n\n# two at a time\n7: B> add listener 1.0.0.12 1.0.0.1\n7: A> add listener 1.0.0.11 1.0.0.1\nA< handle 0 1\n8: C> nodes\n7: A> release listener 1 0\nA< released\nB< handle 1 1\n";

/// Calls of each kind: alone, answered, open where its caller died, and open at the end.
const CALLS: &str =
    "service event 7 3 2 2\nregister 1.0.0.1\n= handle 0 0\nA> add listener 2.0.0.1 1.0.0.1\nB> add listener 2.0.0.2 1.0.0.1\nB< handle 0 0\nA< handle 1 1\nB> release listener 0 0\nA> list listener\nA< list 2000000000000000000000001\nB!\nC> register 1.0.0.2\n";

/// Three nodes die while a fourth registers: before the refused reply any of them may be gone, so
/// there are eight configurations.
const DEAD: &str =
    "service event 7 5 2 2\nregister 1.0.0.1\n= handle 0 0\nregister 1.0.0.2\n= handle 1 1\nregister 1.0.0.3\n= handle 2 2\nregister 1.0.0.4\n= handle 3 3\nA> dead 1.0.0.1\nB> dead 1.0.0.2\nC> dead 1.0.0.3\nregister 1.0.0.5\n= handle 4 4\nnodes\n= list\n";

/// A line that is bad.
const NODE: &str = "service event 7 2 0 1\nnode\n";

/// Only the lines from 9 on are drawn but 12, which is on the other service.
const REFUSED: Row = Row {
    log: WINDOW,
    status: 1,
    message: "",
    parts: &[
        "<title>line 15: no order of the calls explains this reply</title>",
        "<tspan x=\"12\" dy=\"64\">B</tspan>\n<tspan x=\"12\" dy=\"64\">A</tspan>\n</text>",
        "x=\"144\" y=\"62\" dx=\"5\">9</text>",
        "x=\"734\" y=\"62\" dx=\"5\">15</text>",
        "<g class=\"refused\">\n<title>add listener 1.0.0.12 1.0.0.1: handle 1 1</title>\n<path class=\"bar\" d=\"M848 76H148v44H848\"/>\n<path class=\"end\" d=\"M848 76v44\"/>",
        ">add listener 1.0.0.12 1.0.0.1</text>\n<text class=\"reply\" x=\"7\" y=\"36\">handle 1 1</text>",
        "</title>\n<path class=\"bar\" d=\"M494 140H266v44H494\"/>",
        "</title>\n<path class=\"bar\" d=\"M730 140H502v44H730\"/>",
        ">possible: handle 1 2</tspan>",
    ],
};

/// All of them, and the points of those whose order is sure.
const WHOLE: Row = Row {
    log: CALLS,
    status: 0,
    message: "",
    parts: &[
        "<title>conforms, 6 calls on 1 service</title>",
        "<tspan x=\"12\" dy=\"64\">(alone)</tspan>\n<tspan x=\"12\" dy=\"64\">A</tspan>\n<tspan x=\"12\" dy=\"64\">B</tspan>\n<tspan x=\"12\" dy=\"64\">C</tspan>\n</text>",
        // Alone, in the line of its reply: the first column.
        "<path class=\"bar\" d=\"M258 76H148v44H258\"/>\n<path class=\"end\" d=\"M258 76v44\"/>\n<svg x=\"148\" y=\"76\" width=\"110\" height=\"44\">\n<text x=\"7\" y=\"18\">register 1.0.0.1</text>",
        // From line 4 to line 7: the second to the fifth column.
        "<path class=\"bar\" d=\"M730 140H266v44H730\"/>",
        // From line 8 to line 11, where its caller died: the sixth to the ninth column.
        "<path class=\"bar\" d=\"M1202 204H738v44H1202\"/>\n<path class=\"cross\" d=\"M1202 204m-8 14l16 16m0 -16l-16 16\"/>",
        ">died</text>",
        // Open in line 12, the last of ten columns, up to the right border.
        "<path class=\"bar\" d=\"M1324 268H1210v44H1324\"/>\n<svg x=\"1210\"",
        ">open</text>",
        "<g class=\"call\">\n<title>register 1.0.0.1: handle 0 0</title>\n",
        // The listener with ticket 0 came first: in line 5, before that of line 4.
        "<circle class=\"point\" cx=\"203\" cy=\"129\" r=\"9\"/><text class=\"number\" x=\"203\" y=\"129\" dy=\"3\">1</text>",
        "<circle class=\"point\" cx=\"439\" cy=\"257\" r=\"9\"/><text class=\"number\" x=\"439\" y=\"257\" dy=\"3\">2</text>",
        "<circle class=\"point\" cx=\"458\" cy=\"193\" r=\"9\"/><text class=\"number\" x=\"458\" y=\"193\" dy=\"3\">3</text>",
    ],
};

/// All eight are below the calls, each with its four lines.
const EIGHT: Row = Row {
    log: DEAD,
    status: 1,
    message: "",
    parts: &[
        "<title>line 16: no order of the calls explains this reply</title>",
        ">made: lines 10 11 12</tspan>",
        ">ports:</tspan>\n</text>\n</svg>\n",
    ],
};

/// The report alone.
const BAD: Row = Row {
    log: NODE,
    status: 2,
    message: "line 2: a line that begins with register, deregister, nodes, add, release, list, \
        count, dead, state, service or a caller, whose name has 1 to 16 letters and digits, is \
        expected\n",
    parts: &[],
};

/// Of a log this is drawn.
fn is_drawn(
    rt: &(impl Abort + AllocGlobal),
    log: &str,
    (status, message): (u8, &str),
    parts: &[&str],
) -> Result<(), Fail> {
    let drawing = draw_log(rt.alloc(), log.as_bytes())?;
    assert_eq!(rt;
        (
            drawing.status.number(),
            drawing.message.as_slice(),
            drawing.picture.is_empty()
        ),
        (status, message.as_bytes(), parts.is_empty())
    );
    for part in parts {
        let found = drawing.picture.as_str().contains(part);
        assert_eq!(rt; (*part, found), (*part, true));
    }
    Ok(())
}

/// Of its log that of the row is drawn.
fn draws(rt: &(impl Abort + AllocGlobal), row: &Row) -> Result<(), Fail> {
    is_drawn(rt, row.log, (row.status, row.message), row.parts)
}

#[test]
fn a_window(rt: HostRuntime) -> Result<(), Fail> {
    draws(&rt, &REFUSED)
}

#[test]
fn eight_configurations(rt: HostRuntime) -> Result<(), Fail> {
    draws(&rt, &EIGHT)
}

#[test]
fn all_calls(rt: HostRuntime) -> Result<(), Fail> {
    draws(&rt, &WHOLE)
}

#[test]
fn no_picture(rt: HostRuntime) -> Result<(), Fail> {
    draws(&rt, &BAD)
}

/// A log of so many calls.
fn log_of(rt: &impl AllocGlobal, calls: usize) -> Result<String, Fail> {
    let mut log = String::from_str(rt.alloc(), "service event 7 1 0 0\n")?;
    for _ in 0..calls {
        log.push_str("nodes\n= list\n")?;
    }
    Ok(log)
}

#[test]
fn as_many_calls_as_fit(rt: HostRuntime) -> Result<(), Fail> {
    let log = log_of(&rt, 200)?;
    let last = ["x=\"23626\" y=\"62\" dx=\"5\">401</text>"];
    is_drawn(&rt, log.as_str(), (0, ""), &last)?;
    let log = log_of(&rt, 201)?;
    let report = "conforms, 201 calls on 1 service\nno picture: there are more than 200 calls\n";
    is_drawn(&rt, log.as_str(), (2, report), &[])?;
    Ok(())
}
