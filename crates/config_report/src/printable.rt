//! Texts with their control characters escaped, so that each stands in one line and a terminal
//! takes nothing of them as a command.
ghost use Rattle.std.specs.Prelude.{◌≡◌, ◌++◌, IfOk, OnOk, string_bytes};
ghost use Rattle.config_report.specs.Printable.{printable, printable_char, printable_line};

use std::alloc::{AllocError, Global};

/// Appends a text with its control characters escaped.
#[tactic(auto, using(crate::proofs::Characters::printed_end))]
pub fn write_printable(out: &mut String, text: &str) -> Result<(), AllocError>
    ensures { OnOk result (string_bytes out.new ≡ string_bytes out.old ++ printable text.now) }
{
    for c in text.chars() {
        write_char(out, c)?;
    }
    Ok(())
}

/// Appends a character, escaped if it is a control character.
fn write_char(out: &mut String, c: char) -> Result<(), AllocError>
    ensures { OnOk result (string_bytes out.new ≡ string_bytes out.old ++ printable_char c) }
{
    if c.is_control() {
        let code = c as u32;
        write!(out, "\\u{{{code:x}}}")
    } else {
        out.push(c)
    }
}

/// Appends a text with its control characters escaped, as a line.
pub fn write_printable_line(out: &mut String, text: &str) -> Result<(), AllocError>
    ensures { OnOk result
        (string_bytes out.new ≡ string_bytes out.old ++ printable_line text.now) }
{
    write_printable(out, text)?;
    out.push_str("\n")
}

/// A text with its control characters escaped.
pub(crate) fn printable(alloc: Global, text: &str) -> Result<String, AllocError>
    ensures { IfOk result (λ escaped. string_bytes escaped ≡ printable text.now) }
{
    let mut escaped = String::new(alloc);
    write_printable(&mut escaped, text)?;
    Ok(escaped)
}
