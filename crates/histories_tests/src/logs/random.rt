//! Random bytes.

use super::rows::{Said, verdict_on};
use history_logs::logs::Expected;
use std::alloc::{AllocError, Global};
use std::process::Abort;
use std::test::Fail;

/// The next of numbers that follow no order (a linear congruence).
fn next(seed: &mut u64) -> u64 {
    *seed = seed
        .wrapping_mul(6364136223846793005)
        .wrapping_add(1442695040888963407);
    *seed >> 33
}

/// A byte, which is often one that ends a line or begins a note, and none that ends a call.
fn next_byte(seed: &mut u64) -> u8 {
    match next(seed) % 8 {
        0 => b'\n',
        1 => b'\r',
        2 => b'#',
        _ => match (next(seed) % 256) as u8 {
            b'!' | b'<' => b'>',
            byte => byte,
        },
    }
}

/// What random bytes behind so many lines are judged to be: notes may stand anywhere, and no other
/// random line is one of a log.
fn verdict_of(bytes: &[u8], above: usize, expected: Expected) -> Said {
    let mut line = above.saturating_add(1);
    // The first and the last byte of the line.
    let mut first = None;
    let mut last = None;
    for byte in bytes {
        if *byte != b'\n' {
            first = first.or(Some(*byte));
            last = Some(*byte);
            continue;
        }
        match (first, last) {
            (None, _) | (Some(b'#'), _) => {}
            (_, Some(b'\r')) => return Said::BadLine(line, Expected::NoCarriageReturn),
            _ => return Said::BadLine(line, expected),
        }
        line = line.saturating_add(1);
        first = None;
        last = None;
    }
    match (first, expected) {
        (Some(_), _) => Said::BadLine(line, Expected::Newline),
        (None, Expected::Service) => Said::BadLine(line, Expected::Service),
        (None, _) => Said::Conforms(0, 1),
    }
}

/// Random bytes behind these, so many.
fn random_log(
    alloc: Global,
    front: &str,
    count: u64,
    seed: &mut u64,
) -> Result<Vec<u8>, AllocError> {
    let mut log = Vec::from_slice(alloc, front.as_bytes())?;
    for _ in 0..count {
        log.push(next_byte(seed))?;
    }
    Ok(log)
}

#[test]
fn random_bytes_are_judged(rt: HostRuntime) -> Result<(), Fail> {
    let mut seed = 7;
    for turn in 0..2000u64 {
        for (front, above, expected) in [
            ("", 0, Expected::Service),
            ("service event 7 3 2 2\n", 1, Expected::Call),
        ] {
            let log = random_log(rt.alloc(), front, turn % 40, &mut seed)?;
            let wanted = verdict_of(log.get(front.len()..).unwrap_or(&[]), above, expected);
            let found = match verdict_on(rt.alloc(), &log)? {
                Said::BadLine(line, Expected::Form(_) | Expected::CallAlone) => {
                    Said::BadLine(line, Expected::Call)
                }
                other => other,
            };
            assert_eq!(rt; (turn, found), (turn, wanted));
        }
    }
    Ok(())
}
