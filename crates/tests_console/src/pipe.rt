//! Visitors in memory.

use crate::script::Step;
use std::alloc::{AllocError, Global};
use std::cell::{Cell, RefCell};
use std::io;
use std::io::{ErrorKind, Read, Write};

/// How many visitors there are.
pub(crate) const VISITORS: usize = 10;

/// One end of a visitor's connection.
#[derive(Drop)]
pub(crate) struct Pipe {
    /// It waits to be let in.
    waits: Cell<bool>,
    /// How many bytes come at once.
    step: Cell<usize>,
    coming: RefCell<Vec<u8>>,
    /// How many of those were read.
    read: Cell<usize>,
    ended: Cell<bool>,
    /// It has gone.
    gone: Cell<bool>,
    /// How many bytes it takes.
    room: Cell<usize>,
    told: RefCell<Vec<u8>>,
}

impl Pipe {
    fn new(alloc: Global) -> Pipe {
        Pipe {
            waits: Cell::new(false),
            step: Cell::new(0),
            coming: RefCell::new(Vec::new(alloc)),
            read: Cell::new(0),
            ended: Cell::new(false),
            gone: Cell::new(false),
            room: Cell::new(1_000_000),
            told: RefCell::new(Vec::new(alloc)),
        }
    }

    /// Comes anew; so many bytes of what it sends come at once.
    fn come(&self, count: usize) {
        self.waits.set(true);
        self.step.set(count);
        if let Ok(mut coming) = self.coming.try_borrow_mut() {
            coming.clear();
        }
        self.read.set(0);
        self.ended.set(false);
        self.gone.set(false);
        self.room.set(1_000_000);
    }

    /// Sends a text; a bar is the end of a line.
    fn send(&self, text: &str) {
        if let Ok(mut coming) = self.coming.try_borrow_mut() {
            for byte in text.as_bytes() {
                let _kept = if *byte == b'|' {
                    coming.extend_from_slice(b"\r\n").is_ok()
                } else {
                    coming.push(*byte).is_ok()
                };
            }
        }
    }

    /// Puts bytes that came into a buffer, and answers how many.
    fn fill(&self, into: &mut [u8]) -> usize {
        let Ok(coming) = self.coming.try_borrow() else {
            return 0;
        };
        let bytes = coming.get(self.read.get()..).unwrap_or(&[]);
        let count = bytes.len().min(self.step.get()).min(into.len());
        into[..count].copy_from_slice(&bytes[..count]);
        self.read.set(self.read.get().saturating_add(count));
        count
    }

    /// What it was told since this was asked last.
    pub(crate) fn take_told(&self, alloc: Global) -> Vec<u8> {
        match self.told.try_borrow_mut() {
            Ok(mut told) => std::mem::replace(&mut *told, Vec::new(alloc)),
            Err(_) => Vec::new(alloc),
        }
    }
}

/// The visitors.
#[derive(Drop)]
pub(crate) struct Pipes {
    pipes: Vec<Pipe>,
}

impl Pipes {
    pub(crate) fn new(alloc: Global) -> Result<Pipes, AllocError> {
        let mut pipes = Vec::new(alloc);
        for _ in 0..VISITORS {
            pipes.push(Pipe::new(alloc))?;
        }
        Ok(Pipes { pipes })
    }

    /// All of them.
    pub(crate) fn all(&self) -> &[Pipe] {
        &self.pipes
    }

    /// Does what a line says of a visitor.
    pub(crate) fn take(&self, step: Step<'_>) {
        match step {
            Step::Visits(visitor, count) => {
                if let Some(pipe) = self.pipes.get(visitor) {
                    pipe.come(count);
                }
            }
            Step::Sends(visitor, text) => {
                if let Some(pipe) = self.pipes.get(visitor) {
                    pipe.send(text);
                }
            }
            Step::Takes(visitor, count) => {
                if let Some(pipe) = self.pipes.get(visitor) {
                    pipe.room.set(count);
                }
            }
            Step::Ends(visitor) => {
                if let Some(pipe) = self.pipes.get(visitor) {
                    pipe.ended.set(true);
                }
            }
            Step::Goes(visitor) => {
                if let Some(pipe) = self.pipes.get(visitor) {
                    pipe.gone.set(true);
                }
            }
            Step::Waits(_) | Step::Runs | Step::Nothing => {}
        }
    }

    /// Whether somebody waits to be let in.
    pub(crate) fn has_guest(&self) -> bool {
        self.pipes.iter().any(|pipe| pipe.waits.get())
    }

    /// The first who waits is let in.
    pub(crate) fn let_in(&self) -> Option<Visit<'_>> {
        let pipe = self.pipes.iter().find(|pipe| pipe.waits.get())?;
        pipe.waits.set(false);
        Some(Visit { pipe })
    }
}

/// The console's end of a visitor's connection.
#[derive(Drop)]
pub(crate) struct Visit<'a> {
    pipe: &'a Pipe,
}

impl Read for Visit<'_> {
    fn read(&mut self, buf: &mut [u8]) -> io::Result<usize> {
        let count = self.pipe.fill(buf).min(buf.len());
        if count > 0 || self.pipe.ended.get() {
            return Ok(count);
        }
        Err(io::Error::from(ErrorKind::WouldBlock))
    }
}

impl Write for Visit<'_> {
    fn write(&mut self, buf: &[u8]) -> io::Result<usize> {
        if self.pipe.gone.get() {
            return Err(io::Error::from(ErrorKind::BrokenPipe));
        }
        let count = self.pipe.room.get().min(buf.len());
        if count == 0 {
            return Err(io::Error::from(ErrorKind::WouldBlock));
        }
        if let Ok(mut told) = self.pipe.told.try_borrow_mut() {
            let _kept = told.extend_from_slice(&buf[..count]).is_ok();
        }
        self.pipe
            .room
            .set(self.pipe.room.get().saturating_sub(count));
        Ok(count)
    }

    fn flush(&mut self) -> io::Result<()> {
        Ok(())
    }
}
