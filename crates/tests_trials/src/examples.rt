//! The examples of the help: each is a run of the table.

use crate::registry::entry_of;
use std::io;

/// Says how many commands the examples in a subcommand's help have, and which of them no run has.
pub(crate) fn say_examples<R: Print>(
    rt: &R,
    table: &str,
    name: &str,
    help: &str,
) -> io::Result<()> {
    let mut commands = 0u32;
    for line in help.lines() {
        if let Some(example) = line.strip_prefix("  njehub ") {
            for command in example.split(" | njehub ") {
                commands = commands.saturating_add(1);
                say_command(rt, table, name, words_of(command))?;
            }
        }
    }
    println!(rt; "examples: {commands} commands of {name}")
}

/// Says of a command if no run of the table has its words.
fn say_command<R: Print>(rt: &R, table: &str, name: &str, words: &str) -> io::Result<()> {
    if has_run(table, words) {
        return Ok(());
    }
    println!(rt; "examples: no run of {name} has {words}")
}

/// Whether a run of the table has these words.
fn has_run(table: &str, words: &str) -> bool {
    for line in table.lines() {
        if let Some(entry) = entry_of(line)
            && entry.with == words
        {
            return true;
        }
    }
    false
}

/// The words of a command, without the files that its streams are.
fn words_of(command: &str) -> &str {
    let mut words = command;
    for mark in [" < ", " > ", " 2>> "] {
        if let Some((before, _)) = words.split_once(mark) {
            words = before;
        }
    }
    words
}
