//! Tries the whole program on the runs that are stored in `data`, and prints what came of it; the
//! file `stdout` has that. What tries it is `tests_trials`. Last it is the program itself on its
//! own arguments, whose tables are refused, and ends as the program ends then.
#![tactic(auto)]

use njh_program::{Failure, carry_out};
use std::alloc::Global;
use std::io;
use std::process::ExitCode;
use tests_trials::{Log, Program, Run, try_all};

/// The whole program, on this machine.
#[derive(Drop)]
struct WholeProgram<'a> {
    rt: &'a HostRuntime,
}

impl Program for WholeProgram<'_> {
    fn run(&self, words: &[&str], run: &mut Run<'_>) -> io::Result<u8> {
        let log = Log {
            bytes: &mut run.logged,
            peer: &mut run.peer,
        };
        match carry_out(self.rt, words, &mut run.source, &mut run.drain, log, false) {
            Ok(()) => Ok(0),
            Err(failure) => {
                let status = failure.status();
                keep_failure(self.rt.alloc(), &failure, run)?;
                Ok(status)
            }
        }
    }
}

/// Keeps the line of a failure, or what `clap` says of the arguments.
fn keep_failure(alloc: Global, failure: &Failure, run: &mut Run<'_>) -> io::Result<()> {
    let text = failure.to_string(alloc)?;
    match failure {
        Failure::Arguments(_) => run.refusal = text,
        _ => run.line = text,
    }
    Ok(())
}

fn main(rt: HostRuntime) -> ExitCode {
    match try_all(&rt, &WholeProgram { rt: &rt }) {
        Ok(()) => njh_program::run(&rt, &rt.stdout()),
        Err(error) => njh_program::end(Err(Failure::from(error)), &rt.stdout()),
    }
}
