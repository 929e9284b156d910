//! Visitors of a console: they come, send, take and wait as the lines say, and what each is told, what
//! the hub is ordered and what the service is to do is printed. A bar stands for the end of a line.

use crate::bureau::Bureau;
use crate::pipe::Pipes;
use crate::script::{Step, step_of};
use std::io;

/// Plays the lines.
pub(crate) fn try_each<R: Print + AllocGlobal>(rt: &R, lines: &str) -> io::Result<()> {
    let pipes = Pipes::new(rt.alloc())?;
    let mut bureau = Bureau::open(rt.alloc(), &pipes)?;
    for line in lines.lines() {
        match step_of(line) {
            Step::Waits(time) => bureau.wait(time),
            Step::Runs => {
                let told = bureau.run()?;
                println!(rt; "{line}{told}")?;
            }
            Step::Nothing => println!(rt; "{line}")?,
            step => pipes.take(step),
        }
    }
    Ok(())
}
