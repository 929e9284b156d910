//! The registry of the runs: the table of `README.md` in `data`, a line for each.

use std::alloc::{AllocError, Global};

/// The file with the table.
pub const FILE: &str = "README.md";

/// A run of the registry.
#[derive(Clone, Copy)]
pub struct Entry<'a> {
    /// Its name: `NAME.script` is what the program is given to read, and `NAME.out` what is told of
    /// it.
    pub name: &'a str,
    /// How it is tried.
    pub how: &'a str,
    /// The arguments of the program.
    pub with: &'a str,
    /// The status.
    pub status: u8,
    /// What it is about.
    pub about: &'a str,
}

/// The run of a line of the table, if the line is one.
pub fn entry_of(line: &str) -> Option<Entry<'_>> {
    entry_in(line.strip_prefix("| ")?.strip_suffix(" |")?)
}

/// The run of a row, if its fourth cell is a status.
fn entry_in(row: &str) -> Option<Entry<'_>> {
    let (name, rest) = first_cell(row);
    let (how, rest) = first_cell(rest);
    let (with, rest) = first_cell(rest);
    let (status, about) = first_cell(rest);
    let status = status.parse::<u8>().ok()?;
    Some(Entry {
        name,
        how,
        with,
        status,
        about,
    })
}

/// The first cell of a row, and the rest of it.
fn first_cell(row: &str) -> (&str, &str) {
    match row.split_once(" | ") {
        Some(cells) => cells,
        None => (row, ""),
    }
}

impl<'a> Entry<'a> {
    /// The words of the command line, of which the first is the name.
    pub fn words(&self, alloc: Global) -> Result<Vec<&'a str>, AllocError> {
        let mut words = Vec::new(alloc);
        self.add_words(&mut words)?;
        Ok(words)
    }

    /// Adds the words of the command line.
    fn add_words(&self, words: &mut Vec<&'a str>) -> Result<(), AllocError> {
        words.push(self.name)?;
        for word in self.with.split(' ') {
            if !word.is_empty() {
                words.push(word)?;
            }
        }
        Ok(())
    }

    /// What else is asked of the run: what stands behind these words in its part of `how`, if they
    /// are there.
    pub fn asked(&self, words: &str) -> Option<&'a str> {
        for part in self.how.split(", ") {
            if let Some(rest) = part.strip_prefix(words) {
                return Some(rest);
            }
        }
        None
    }

    /// Whether the script is about this: where it begins with a comment, that begins so.
    pub fn is_said_by(&self, script: &[u8]) -> bool {
        match script.strip_prefix(b"# ") {
            Some(comment) => comment.starts_with(self.about.as_bytes()),
            None => true,
        }
    }
}
