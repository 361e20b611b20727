//! Whole drawings, worked out by hand.

use super::expected::pictures::{
    COLORS, KEYS, MANY, NARROW, PICTURE, TWO_MESSAGES, WITHOUT_MESSAGES,
};
use super::expected::request_response::{REQUEST_RESPONSE, UNBOUNDED};
use super::expected::{BLACKBOARD, EVENT, LARGE, PUBLISH_SUBSCRIBE, SMALLEST};
use super::running::assert_run;
use std::test::Fail;

/// A service of each pattern, with each kind of opener, without one and with each verdict, and the
/// smallest message, large ones and one without a layout.
#[test]
fn each_pattern(rt: HostRuntime) {
    for (input, drawing) in [
        PUBLISH_SUBSCRIBE,
        EVENT,
        REQUEST_RESPONSE,
        BLACKBOARD,
        SMALLEST,
        LARGE,
        UNBOUNDED,
    ] {
        assert_run(&rt, rt.alloc(), &[], input, (0, drawing, ""));
    }
}

/// Pictures of no message, of one and of two, with an opener and without one, with a layout and
/// without one, and with more elements than are drawn one by one.
#[test]
fn pictures(rt: HostRuntime) -> Result<(), Fail> {
    let alloc = rt.alloc();
    for picture in [WITHOUT_MESSAGES, KEYS, PICTURE, TWO_MESSAGES, MANY, NARROW] {
        let drawing = format!(in alloc; "{}{COLORS}{}", picture.begin, picture.end)?;
        assert_run(
            &rt,
            alloc,
            &["svg"],
            picture.input,
            (0, drawing.as_str(), ""),
        );
    }
    Ok(())
}
