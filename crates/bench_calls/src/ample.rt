//! Each call of the layer that may take memory, at a size. With ample memory none is refused, which
//! no contract can say; `bench/refuse_memory` looks at that.

mod containers;
mod listings;
mod replaying;
mod services;

use std::alloc::{AllocError, Global};
use std::io;
use std::io::Write;

/// A call, and whether it was given what it wanted.
type Called = (&'static str, bool);

/// Whether what was to be made was given what it wanted. What was made goes.
fn is_given<T: Drop>(made: Result<T, AllocError>) -> bool {
    made.is_ok()
}

/// Writes a line for each call.
fn tell<W: Write>(output: &mut W, size: usize, calls: &[Called]) -> io::Result<()> {
    for (name, is_given) in calls {
        let end = if *is_given { "given" } else { "refused" };
        writeln!(output, "{size} {end} {name}")?;
    }
    Ok(())
}

/// Makes all calls at this size. For each it writes a line: the size, whether the call was `given`
/// what it wanted or `refused`, and what was called.
pub(super) fn call_all<W: Write>(alloc: Global, output: &mut W, size: usize) -> io::Result<()> {
    tell(output, size, &containers::calls(alloc, size))?;
    tell(output, size, &services::calls(alloc, size))?;
    tell(output, size, &replaying::calls(alloc, size))?;
    tell(output, size, &listings::calls(alloc, size))?;
    tell(output, size, &replaying::calls_on_scripts(alloc, size))
}
