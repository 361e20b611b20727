//! What exports return beside a status: its cause, an index, a count, or a text for a buffer; and
//! how they take a struct that the caller may not have given.
ghost use Rattle.std.specs.Prelude.{◌≡◌, ◌≤◌, ◌++◌, length, drop};
ghost use Rattle.iox2sd_common.specs.Answers.{place_answer, count_answer, text_answer, Writes};
ghost use Rattle.iox2sd_common.specs.Answers.{Written, c_count, fit_status, flag_answer, zero_padded};

use super::status::Status;

/// The struct that the caller gave. Where it gave NULL, the export returns this answer.
#[macro_export]
macro_rules! given_or_return {
    ($given:expr, $null:expr) => {{
        let [given, ..] = $given else {
            return $null;
        };
        given
    }};
}

/// An index in what the caller passed.
#[repr(C)]
#[derive(Clone, Copy)]
pub struct PlaceAnswer {
    /// The number of a [`Status`].
    pub status: u32,
    /// The number of the [`Status`] that says why a text is refused; 0 where no text is.
    pub cause: u32,
    /// The index for which the status holds; 0 where it holds for none.
    pub at: usize,
}

/// A number of things.
#[repr(C)]
#[derive(Clone, Copy)]
pub struct CountAnswer {
    /// The number of a [`Status`].
    pub status: u32,
    /// The number of the [`Status`] that says why a text is refused; 0 where no text is.
    pub cause: u32,
    /// How many; also where the status is that of `BufferTooShort`: so many are needed.
    pub count: usize,
}

/// Yes or no.
#[repr(C)]
#[derive(Clone, Copy)]
pub struct FlagAnswer {
    /// The number of a [`Status`].
    pub status: u32,
    /// Whether it is so; false where the status is not that of `Done`.
    pub yes: bool,
}

/// What became of a text for a buffer.
#[repr(C)]
#[derive(Clone, Copy)]
pub struct TextAnswer {
    /// The number of a [`Status`].
    pub status: u32,
    /// The number of the [`Status`] that says why a text is refused; 0 where no text is.
    pub cause: u32,
    /// How many bytes the text has, whether they fitted or not; 0 where there is no text.
    pub length: usize,
}

/// The answer of this status with this index.
pub fn position(status: Status, at: usize) -> PlaceAnswer
    ensures { result ≡ place_answer status at }
{
    PlaceAnswer {
        status: status.code(),
        cause: 0,
        at,
    }
}

/// The answer of this status with this number.
pub fn count(status: Status, count: usize) -> CountAnswer
    ensures { result ≡ count_answer status count }
{
    CountAnswer {
        status: status.code(),
        cause: 0,
        count,
    }
}

impl CountAnswer {
    /// The answer that says how many, or why it does not.
    pub fn of(found: Result<usize, Status>) -> CountAnswer
        ensures { result ≡ c_count found }
    {
        match found {
            Ok(number) => count(Status::Done, number),
            Err(status) => count(status, 0),
        }
    }
}

impl FlagAnswer {
    /// The answer that says yes or no, or why it does not.
    pub fn of(found: Result<bool, Status>) -> FlagAnswer
        ensures { result ≡ flag_answer found }
    {
        match found {
            Ok(yes) => FlagAnswer {
                status: Status::Done.code(),
                yes,
            },
            Err(status) => FlagAnswer {
                status: status.code(),
                yes: false,
            },
        }
    }
}

/// The answer where there is no text.
pub fn no_text(status: Status) -> TextAnswer
    ensures { result ≡ text_answer status 0 }
{
    TextAnswer {
        status: status.code(),
        cause: 0,
        length: 0,
    }
}

/// Writes the elements to the front of the array.
fn write_front<T: Copy>(items: &[T], out: &mut [T])
    requires { length items.now ≤ length out.old }
    ensures { out.new ≡ items.now ++ drop (length items.now) out.old }
{
    let (front, _) = out.split_at_mut(items.len());
    front.copy_from_slice(items);
}

/// The text in an array, followed by zeros.
pub fn zero_padded<const N: usize>(text: &[u8]) -> [u8; N]
    requires { length text.now ≤ N }
    ensures { result ≡ zero_padded N text.now }
{
    let mut bytes = [0; N];
    write_front(text, &mut bytes);
    bytes
}

/// Writes the elements to the front of the array, as a text to that of a buffer, or nothing where
/// they do not fit, and says whether they fit.
pub fn put<T: Copy>(items: &[T], out: &mut [T]) -> bool
    ensures { Writes items.now out.old result out.new }
{
    if items.len() > out.len() {
        return false;
    }
    write_front(items, out);
    true
}

/// The status of what fits a buffer, or does not.
pub fn fit_status(fits: bool) -> Status
    ensures { result ≡ fit_status fits }
{
    if fits {
        Status::Done
    } else {
        Status::BufferTooShort
    }
}

/// Writes the text to the front of the buffer, or nothing where it does not fit, and returns its
/// length.
pub fn write(text: &[u8], out: &mut [u8]) -> TextAnswer
    ensures { Written text.now out.old result out.new }
{
    TextAnswer {
        status: fit_status(put(text, out)).code(),
        cause: 0,
        length: text.len(),
    }
}
