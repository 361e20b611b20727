//! Makes calls by the lines of standard input, and writes what was answered. Where a line is a
//! number, each call that may take memory is made once at that size. Any other line names one kind
//! of call and how often it is made, to be measured beside a program without proofs.
#![tactic(auto)]

mod ample;
mod attached;
mod described;
mod task;

use std::alloc::Global;
use std::io;
use std::io::Write;
use task::Task;

/// Makes the calls of a line, and writes what was answered.
fn serve_line<W: Write>(alloc: Global, output: &mut W, line: &str) -> io::Result<()> {
    if let Ok(size) = line.parse() {
        return ample::call_all(alloc, output, size);
    }
    let Some(task) = Task::read(line) else {
        return writeln!(output, "no such call");
    };
    let digest = task.digest(alloc)?;
    writeln!(output, "{digest}")
}

fn main(rt: HostRuntime) -> io::Result<()> {
    let mut output = rt.stdout();
    for line in rt.lines(rt.alloc()) {
        serve_line(rt.alloc(), &mut output, line?.as_str())?;
    }
    Ok(())
}
