//! Numbers for services, for callers who have none.
ghost use Rattle.iox2sd.specs.Services.{NotesNumber, GivesNumber};

use crate::values::NumberAnswer;
use iox2_container::container::ServiceNumbers as Numbers;
use iox2sd_common::status::Status;

/// The number that was returned last; 0 before the first.
#[repr(C)]
#[derive(Clone, Copy)]
pub struct ServiceNumbers {
    /// The number.
    pub last: u64,
}

/// The next number, which is noted.
fn next(counter: &mut ServiceNumbers) -> Result<u64, Status>
    ensures { NotesNumber counter.old result counter.new }
{
    let mut numbers = Numbers::after(counter.last);
    let number = numbers.next_number();
    counter.last = numbers.last();
    number.ok_or(Status::OutOfSpace)
}

/// Returns the next number for a service: 1, 2, 3, .., each once.
///
/// Refused are, in this order, NULL (`Null`), and a call after the greatest number, 2^64 - 1
/// (`OutOfSpace`).
#[unsafe(no_mangle)]
pub extern "C" fn iox2sd_next_service_number_at(numbers: &mut [ServiceNumbers]) -> NumberAnswer
    ensures { GivesNumber numbers.old result numbers.new }
{
    match numbers {
        [] => NumberAnswer::of(Err(Status::Null)),
        [numbers, ..] => NumberAnswer::of(next(numbers)),
    }
}
