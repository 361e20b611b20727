//! Drawings where memory is refused. With ample memory they are whole; where one request is refused
//! (`bench/refuse_memory` does that), nothing is drawn, and the program says why.

use super::expected::own::OWN;
use super::expected::pictures::{COLORS, PICTURE};
use super::expected::{EVENT, PUBLISH_SUBSCRIBE};
use crate::arguments::arguments;
use service_drawing::describe_streams;
use std::alloc::{AllocError, Global};
use std::env::Env;
use std::process::Abort;
use test_support::memory::may_be_refused;

/// The status of a run, and what it writes to its output and its errors, which have room for it.
fn run(alloc: Global, words: &[&str], input: &str) -> Result<(u8, Vec<u8>, Vec<u8>), AllocError> {
    let words = arguments(alloc, "iox2-describe", words)?;
    let mut output = Vec::with_capacity(alloc, 16384)?;
    let mut errors = Vec::with_capacity(alloc, 200)?;
    let mut bytes = input.as_bytes();
    let status = describe_streams(alloc, Ok(words), &mut bytes, &mut output, &mut errors);
    Ok((status, output, errors))
}

/// A run draws all, or memory is refused and it draws nothing.
fn draws_all_or_nothing(
    rt: &(impl Abort + AllocGlobal + Env),
    words: &[&str],
    (input, drawing): (&str, &str),
) {
    let Ok((status, output, errors)) = run(rt.alloc(), words, input) else {
        assert!(rt; may_be_refused(rt));
        return;
    };
    if status == 2 {
        assert!(rt; may_be_refused(rt));
        assert_eq!(rt;
            (output.len(), errors.as_slice()),
            (0, b"no memory\n".as_slice())
        );
    } else {
        assert_eq!(rt;
            (status, errors.len(), output.as_slice()),
            (0, 0, drawing.as_bytes())
        );
    }
}

#[test]
fn a_text_is_whole_or_none(rt: HostRuntime) {
    draws_all_or_nothing(&rt, &[], PUBLISH_SUBSCRIBE);
    draws_all_or_nothing(&rt, &[], EVENT);
    draws_all_or_nothing(&rt, &[], OWN);
}

#[test]
fn a_picture_is_whole_or_none(rt: HostRuntime) {
    let Ok(drawing) = format!(in rt.alloc(); "{}{COLORS}{}", PICTURE.begin, PICTURE.end) else {
        return;
    };
    draws_all_or_nothing(&rt, &["svg"], (PICTURE.input, drawing.as_str()));
}
