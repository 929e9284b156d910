//! A program, as all that tries it sees it.

use crate::streams::Run;
use crate::{man_page, runs};
use std::fs::File;
use std::io;
use std::net::{Net, TcpListener, TcpStream};
use std::rt::Files;

/// A program that is tried.
pub trait Program {
    /// Does what the words ask for, over the streams of a run, and answers the status.
    fn run(&self, words: &[&str], run: &mut Run<'_>) -> io::Result<u8>;
}

/// Tries all that is stored, and prints what came of it.
pub fn try_all<
    R: Files<File = File> + Net<Listener = TcpListener, Stream = TcpStream> + Print + AllocGlobal,
    P: Program,
>(rt: &R, program: &P) -> io::Result<()> {
    runs::compare_all(rt, program)?;
    man_page::compare(rt, program)
}
