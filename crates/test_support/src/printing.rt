//! Values that are printed into a writer that fails, or that takes one text alone.
use std::fmt;
use std::fmt::{Debug, Display, Write};

/// Takes all that is written to it, but for the call of this number.
#[derive(Drop)]
struct Failing {
    made: u64,
    failing: u64,
}

impl Write for Failing {
    fn write_str(&mut self, _text: &str) -> fmt::Result {
        let now = self.made;
        self.made = now.wrapping_add(1);
        if now == self.failing {
            Err(fmt::Error)
        } else {
            Ok(())
        }
    }
}

/// Whether the value is printed where this call fails, and how many calls it makes.
fn printed(value: &impl Display, failing: u64) -> (bool, u64) {
    let mut writer = Failing { made: 0, failing };
    let printed = write!(writer, "{value}").is_ok();
    (printed, writer.made)
}

/// As `printed`, by `Debug`.
fn shown(value: &impl Debug, failing: u64) -> (bool, u64) {
    let mut writer = Failing { made: 0, failing };
    let shown = write!(writer, "{value:?}").is_ok();
    (shown, writer.made)
}

/// Whether the value is printed, and is not at whichever call its writer fails. Then it makes no
/// further call.
pub fn is_printed(value: &impl Display) -> bool {
    let (whole, calls) = printed(value, u64::MAX);
    let mut fails = true;
    for failing in 0..calls {
        fails = fails && printed(value, failing) == (false, failing + 1);
    }
    whole && calls > 0 && fails
}

/// As `is_printed`, by `Debug`.
pub fn is_shown(value: &impl Debug) -> bool {
    let (whole, calls) = shown(value, u64::MAX);
    let mut fails = true;
    for failing in 0..calls {
        fails = fails && shown(value, failing) == (false, failing + 1);
    }
    whole && calls > 0 && fails
}

/// Whether the value is printed and shown, each as above.
pub fn is_printed_and_shown(value: &(impl Display + Debug)) -> bool {
    is_printed(value) && is_shown(value)
}

/// Takes the pieces of one text in turn, and fails at any other.
#[derive(Drop)]
struct Expected<'a> {
    left: &'a [u8],
}

impl Write for Expected<'_> {
    fn write_str(&mut self, text: &str) -> fmt::Result {
        match self.left.strip_prefix(text.as_bytes()) {
            Some(left) => {
                self.left = left;
                Ok(())
            }
            None => Err(fmt::Error),
        }
    }
}

/// Whether the value prints exactly this text.
pub fn is_printed_as(value: &impl Display, text: &str) -> bool {
    let mut writer = Expected {
        left: text.as_bytes(),
    };
    write!(writer, "{value}").is_ok() && writer.left.is_empty()
}

/// As `is_printed_as`, by `Debug`.
pub fn is_shown_as(value: &impl Debug, text: &str) -> bool {
    let mut writer = Expected {
        left: text.as_bytes(),
    };
    write!(writer, "{value:?}").is_ok() && writer.left.is_empty()
}

/// Whether each value shows the text beside it.
pub fn are_shown_as<T: Debug>(table: &[(T, &str)]) -> bool {
    table.iter().all(|(value, text)| is_shown_as(value, text))
}
