//! What is shown of the settings of a file.

use super::expected::shown::{CONSEQUENCES, OWN, UNKNOWN};
use super::running::{Known, run};
use std::test::Fail;

#[test]
fn settings_are_shown_with_what_follows(rt: HostRuntime) -> Result<(), Fail> {
    let files = Known(&[("own.toml", OWN.as_bytes())]);
    let (status, output, errors) = run(rt.alloc(), false, &["--show", "own.toml"], files, b"")?;
    assert_eq!(rt; (status, errors.as_slice()), (0, UNKNOWN.as_bytes()));
    for part in [
        "settings, with ! where they differ from the defaults\n",
        "\n! global.prefix = \"own_\", by default \"iox2_\"\n",
        "\n! defaults.publish-subscribe.max-subscribers = 10, by default 8\n",
        "\n  defaults.publish-subscribe.max-publishers = 2\n",
        "\n  defaults.event.deadline = not set\n",
        CONSEQUENCES,
    ] {
        let found = output
            .windows(part.len())
            .any(|piece| piece == part.as_bytes());
        assert!(rt; found, "{part}");
    }
    Ok(())
}

#[test]
fn control_characters_are_shown_escaped(rt: HostRuntime) -> Result<(), Fail> {
    let own: &[u8] = b"[global]\nroot-path = \"/\\u001b[31m\\u0007\"\nprefix = \"a\\tb\\nc\"\n";
    let files = Known(&[("own.toml", own)]);
    let (status, output, _) = run(rt.alloc(), false, &["--show", "own.toml"], files, b"")?;
    assert_eq!(rt; status, 0);
    for part in [
        "\n! global.root-path = \"/\\u001B[31m\\u0007\", by default \"/tmp/iceoryx2/\"\n",
        "\n! global.prefix = \"a\\tb\\nc\", by default \"iox2_\"\n",
        "\n  root                   /\\u{1b}[31m\\u{7}\n",
        "\n  static configuration   a\\u{9}b\\u{a}c*.service\n",
    ] {
        let found = output
            .windows(part.len())
            .any(|piece| piece == part.as_bytes());
        assert!(rt; found, "{part}");
    }
    assert!(rt; output.iter().all(|byte| *byte == b'\n' || 32 <= *byte));
    Ok(())
}
