//! The files whose lines go into a script that is said in words.

use njh_encode::{LetterFault, Letters};
use njh_io::{ReadFault, read_text};
use std::alloc::Global;
use std::fs::File;
use std::io::ErrorKind;
use std::rt::Files;

/// The most bytes of such a file, 16 MiB: more than a script may have.
const MAX_LETTER_BYTES: usize = 16_777_216;

/// Files by their paths. No clause says which bytes a file holds, nor that it holds the same the
/// next time.
#[derive(Drop)]
pub(crate) struct FileLetters<'a, R: Files> {
    rt: &'a R,
}

impl<'a, R: Files> FileLetters<'a, R> {
    /// The files that are reached so.
    pub(crate) fn new(rt: &'a R) -> FileLetters<'a, R> {
        FileLetters { rt }
    }
}

impl<R: Files> Letters for FileLetters<'_, R> {
    ghost use Rattle.std.specs.Prelude.{None};

    ghost texts = { λ _. None };

    /// The bytes of a file.
    fn read(&self, alloc: Global, name: &str) -> Result<Vec<u8>, LetterFault> {
        let mut file = match File::open(self.rt, name) {
            Ok(file) => file,
            Err(error) if error.kind() == ErrorKind::NotFound => return Err(LetterFault::NoFile),
            Err(error) if error.kind() == ErrorKind::OutOfMemory => return Err(LetterFault::Memory),
            Err(_) => return Err(LetterFault::Device),
        };
        match read_text(alloc, MAX_LETTER_BYTES, &mut file) {
            Ok(bytes) => Ok(bytes),
            Err(ReadFault::TooLong) => Err(LetterFault::TooLong),
            Err(ReadFault::Device) => Err(LetterFault::Device),
            Err(ReadFault::Memory) => Err(LetterFault::Memory),
        }
    }
}
