//! Why nothing was drawn, and how it is reported.
ghost use Rattle.std.specs.Prelude.{◌≡◌, [], ℕ, List, Some, ◌+◌, ◌++◌, ◌==◌, count_by};
ghost use Rattle.service_drawing.specs.Streams.{cause_text, fault_text};
ghost use Rattle.service_drawing.specs.Streams.{ReportsBadLine, fault_status};

use crate::reading::Expected;
use crate::reading::cause::{Cause, Reason, cause_of};
use line_streams::{Outcome, Sink, write_whole};
use std::alloc::Global;
use std::{fmt, io};

/// Why nothing was drawn.
#[derive(Drop)]
pub(crate) enum Fault {
    /// There are arguments, and not one of the known words alone.
    BadArgument,
    /// A line is bad: what is reported of it, in a line.
    BadLine(String),
    /// The block of settings in front of a description is bad: what is wrong with it, in lines.
    BadSettings(String),
    /// No line `end` follows the line `config`.
    NoEnd,
    /// Memory was refused.
    NoMemory,
}

/// Why a line is bad, behind its number.
impl fmt::Display for Cause {
    ghost output = { λ cause. Some (cause_text cause) };

    fn fmt<W: fmt::Write>(&self, f: &mut fmt::Formatter<W>) -> fmt::Result {
        match self {
            Cause::NoNewline => f.write_str(": no newline ends it; "),
            Cause::CarriageReturn => f.write_str(
                ": it ends in a carriage return and a newline, and not in a newline alone; ",
            ),
            Cause::ForeignByte(byte) => write!(
                f,
                ": it holds the byte {byte}, and a line holds bytes from 32 to 126; "
            ),
            Cause::TwoSpaces => f.write_str(": two spaces stand where one separates words; "),
            Cause::Read(Reason::InternalName) => f.write_str(
                ": names that begin with iox2:// are those of internal services; ",
            ),
            Cause::Read(Reason::UnknownSetting) => f.write_str(
                ": the pattern has no such setting; ",
            ),
            Cause::Read(Reason::SetTwice) => f.write_str(": the setting was set before; "),
            Cause::Read(Reason::OtherForm) => f.write_str(": "),
        }
    }
}

/// The number of the line where what is left begins: 1,
/// and one more for each newline that was read before.
fn line_number(bytes: &[u8], rest: &[u8]) -> usize
    ensures { (read : List ℕ) → bytes.now ≡ read ++ rest.now
        → result ≡ count_by (λ b. b == 10) read + 1 }
{
    let read = bytes.len().saturating_sub(rest.len());
    bytes[..read].iter().filter(|b| **b == b'\n').count() + 1
}

/// The fault of a line where another was expected: its number, why it is bad, and what was
/// expected. Lines are numbered from 1.
pub(crate) fn bad_line(alloc: Global, bytes: &[u8], expected: Expected<'_>) -> Fault
    ensures { ReportsBadLine bytes.now expected.entry result }
{
    let line = line_number(bytes, expected.rest);
    let cause = cause_of(expected.rest, expected.reason);
    // A block of settings may stand in front too.
    let prefix = if line == 1 {
        "config, or "
    } else {
        expected.prefix
    };
    let form = expected.form;
    match format!(in alloc; "bad line {line}{cause}expected {prefix}{form}\n") {
        Ok(report) => Fault::BadLine(report),
        Err(_) => Fault::NoMemory,
    }
}

impl Outcome for Fault {
    ghost status = { fault_status };

    ghost on_output = { λ fault. [] };

    ghost on_errors = { fault_text };

    fn status(&self) -> u8 {
        match self {
            Fault::BadArgument | Fault::BadLine(_) | Fault::BadSettings(_) | Fault::NoEnd => 1,
            Fault::NoMemory => 2,
        }
    }

    fn output(&self) -> &[u8] {
        &[]
    }

    fn write_errors<E: Sink>(&self, errors: &mut E) -> io::Result<()> {
        match self {
            Fault::BadArgument => write_whole(
                errors,
                b"bad argument: expected svg, -h, --help, --version, or no argument; the description is \
                  read from the standard input\n",
            ),
            Fault::BadLine(report) => write_whole(errors, report.as_bytes()),
            Fault::BadSettings(lines) => write_whole(errors, lines.as_bytes()),
            Fault::NoEnd => write_whole(
                errors,
                b"bad settings: no line end, with a newline alone behind it, follows the line config\n",
            ),
            Fault::NoMemory => write_whole(errors, b"no memory\n"),
        }
    }
}
