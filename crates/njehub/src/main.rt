//! The program; `njh_program` has all of it.
#![tactic(auto)]

use std::process::ExitCode;

fn main(rt: HostRuntime) -> ExitCode {
    njh_program::run(&rt, &rt.stderr())
}
