//! Drawings of messages whose parts lie at odd places.

use super::expected::parts::ENDS;
use super::running::run;

#[test]
fn odd_places(rt: HostRuntime) {
    for (words, input, end) in ENDS {
        let (status, output, errors) = run(&rt, rt.alloc(), words, input);
        assert_eq!(rt;
            (
                status,
                errors.len(),
                output.as_slice().ends_with(end.as_bytes())
            ),
            (0, 0, true),
            "{input}"
        );
    }
}
