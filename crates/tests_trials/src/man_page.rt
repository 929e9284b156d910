//! The help of each subcommand: the man page has each option that it tells of, and its examples are
//! runs.

use crate::examples::say_examples;
use crate::program::Program;
use crate::registry;
use crate::streams::{Calls, Run};
use std::rt::Files;
use std::{fs, io};

/// The file with the page.
const PAGE: &str = "njehub.1";

/// The subcommands.
const NAMES: [&str; 7] = [
    "replay", "serve", "decode", "encode", "check", "files", "ctl",
];

/// Says of each subcommand how many options the help has, and which of them the man page lacks; and
/// how many commands its examples have, and which of them no run has.
pub fn compare<R: Files + Print + AllocGlobal, P: Program>(rt: &R, program: &P) -> io::Result<()> {
    let page = fs::read_to_string(rt, PAGE)?;
    let table = fs::read_to_string(rt, registry::FILE)?;
    compare_all(rt, program, page.as_str(), table.as_str())
}

/// Says so of each subcommand, by the texts of the page and of the table.
fn compare_all<R: Print + AllocGlobal, P: Program>(
    rt: &R,
    program: &P,
    page: &str,
    table: &str,
) -> io::Result<()> {
    for name in NAMES {
        compare_one(rt, program, page, table, name)?;
    }
    Ok(())
}

/// Says so of a subcommand.
fn compare_one<R: Print + AllocGlobal, P: Program>(
    rt: &R,
    program: &P,
    page: &str,
    table: &str,
    name: &str,
) -> io::Result<()> {
    let mut run = Run::new(rt.alloc(), &[], Calls::good(), Calls::good());
    program.run(&["njehub", name, "--help"], &mut run)?;
    let help = help_in(&run);
    say_options(rt, page, name, help)?;
    say_examples(rt, table, name, help)
}

/// The help that a run gave: what it printed, or the text of its refusal.
fn help_in<'r>(run: &'r Run<'_>) -> &'r str {
    if run.drain.taken.is_empty() {
        return run.refusal.as_str();
    }
    str::from_utf8(&run.drain.taken).unwrap_or("")
}

/// Says how many options the help of a subcommand has, and which of them the page lacks.
fn say_options<R: Print + AllocGlobal>(
    rt: &R,
    page: &str,
    name: &str,
    help: &str,
) -> io::Result<()> {
    let mut options = 0u32;
    for line in help.lines() {
        if let Some(option) = option_in(line) {
            options = options.saturating_add(1);
            say_option(rt, page, name, option)?;
        }
    }
    println!(rt; "man page: {options} options of {name}")
}

/// Says of an option of a subcommand if the page lacks it.
fn say_option<R: Print + AllocGlobal>(
    rt: &R,
    page: &str,
    name: &str,
    option: &str,
) -> io::Result<()> {
    // A hyphen of the page is written with a backslash.
    let written = format!(in rt.alloc(); "\\-\\-{option}")?;
    if page.contains(written.as_str()) {
        return Ok(());
    }
    println!(rt; "man page: no --{option} of {name}")
}

/// The name of the long option that a line of help begins with, if it does.
fn option_in(line: &str) -> Option<&str> {
    let (short, rest) = line.split_once("--")?;
    if !short
        .chars()
        .all(|c| c == ' ' || c == '-' || c == ',' || c == 'h')
    {
        return None;
    }
    rest.split(' ').next()
}
