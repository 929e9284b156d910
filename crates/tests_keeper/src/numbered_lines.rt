//! Texts of any number of lines.

use njh_encode::{LetterFault, Letters};
use std::alloc::{AllocError, Global};

/// Texts whose names are numbers: each has so many lines, and each line says its number.
#[derive(Clone, Copy)]
pub struct NumberedLines;

impl Letters for NumberedLines {
    ghost use Rattle.std.specs.Prelude.{None};

    ghost texts = { λ letters. None };

    fn read(&self, alloc: Global, name: &str) -> Result<Vec<u8>, LetterFault> {
        let Ok(count) = name.parse::<u32>() else {
            return Err(LetterFault::NoFile);
        };
        numbered(alloc, count).map_err(|_| LetterFault::Memory)
    }
}

/// Lines with the numbers from 1 on.
fn numbered(alloc: Global, count: u32) -> Result<Vec<u8>, AllocError> {
    let mut text = Vec::new(alloc);
    for number in 0..count {
        let line = format!(in alloc; "LINE {number}\n")?;
        text.extend_from_slice(line.as_bytes())?;
    }
    Ok(text)
}
