//! A console whose answers are stored, on one connection after another, and which keeps what was
//! sent.

use njh_ctl::{CtlFault, Machine};
use std::alloc::{AllocError, Global};
use std::cell::{Cell, RefCell};
use std::io;
use std::io::{Read, Write};

/// Eight days after the files came, in seconds since 1970.
pub(crate) const NOW: u64 = 1_791_341_203;

/// A connection: the answers that are read on it, and the requests that were written.
#[derive(Drop)]
struct Connection {
    answers: Vec<u8>,
    read: Cell<usize>,
    sent: RefCell<Vec<u8>>,
}

impl Connection {
    /// Adds an answer.
    fn add(&mut self, alloc: Global, status: u16, body: &str) -> Result<(), AllocError> {
        let length = body.len();
        let head = format!(in alloc; "HTTP/1.1 {status} so\r\ncontent-length: {length}\r\n\r\n")?;
        self.answers.extend_from_slice(head.as_bytes())?;
        self.answers.extend_from_slice(body.as_bytes())
    }

    /// Puts bytes of answers into a buffer, and answers how many; in pieces, so that heads and
    /// bodies are cut.
    fn fill(&self, into: &mut [u8]) -> usize {
        let rest = self.answers.get(self.read.get()..).unwrap_or(&[]);
        let count = rest.len().min(into.len()).min(17);
        into[..count].copy_from_slice(&rest[..count]);
        self.read.set(self.read.get().saturating_add(count));
        count
    }

    /// Prints what was sent.
    fn show_sent<R: Print>(&self, rt: &R) -> io::Result<()> {
        let Ok(sent) = self.sent.try_borrow() else {
            return Ok(());
        };
        for line in str::from_utf8(&sent).unwrap_or("").lines() {
            println!(rt; "> {line}")?;
        }
        Ok(())
    }
}

/// A console with its connections.
#[derive(Drop)]
pub(crate) struct Stored {
    connections: Vec<Connection>,
    /// How many of them were made.
    made: Cell<usize>,
}

impl Stored {
    /// With these answers on its only connection.
    pub(crate) fn of_one(alloc: Global, answers: &[(u16, &str)]) -> Result<Stored, AllocError> {
        let mut connections = Vec::new(alloc);
        connections.push(connection_of(alloc, answers)?)?;
        Ok(Stored {
            connections,
            made: Cell::new(0),
        })
    }

    /// With these answers on each connection.
    pub(crate) fn of(alloc: Global, answers: &[&[(u16, &str)]]) -> Result<Stored, AllocError> {
        let mut connections = Vec::new(alloc);
        for stored in answers {
            connections.push(connection_of(alloc, stored)?)?;
        }
        Ok(Stored {
            connections,
            made: Cell::new(0),
        })
    }

    /// Prints what was sent, with a line between two connections.
    pub(crate) fn show_sent<R: Print>(&self, rt: &R) -> io::Result<()> {
        let made = self.made.get();
        for (at, connection) in self.connections.iter().enumerate() {
            if at < made {
                if at > 0 {
                    println!(rt; "-- on another connection")?;
                }
                connection.show_sent(rt)?;
            }
        }
        Ok(())
    }
}

fn connection_of(alloc: Global, stored: &[(u16, &str)]) -> Result<Connection, AllocError> {
    let mut connection = Connection {
        answers: Vec::new(alloc),
        read: Cell::new(0),
        sent: RefCell::new(Vec::new(alloc)),
    };
    for (status, body) in stored {
        connection.add(alloc, *status, body)?;
    }
    Ok(connection)
}

/// What reaches a stored console.
#[derive(Clone, Copy, Drop)]
pub(crate) struct Reach<'a> {
    pub(crate) alloc: Global,
    pub(crate) stored: &'a Stored,
}

impl<'a> Machine<StoredStream<'a>> for Reach<'a> {
    fn connect(&self) -> Result<StoredStream<'a>, CtlFault> {
        let at = self.stored.made.get();
        match self.stored.connections.get(at) {
            Some(connection) => {
                self.stored.made.set(at.saturating_add(1));
                Ok(StoredStream { connection })
            }
            None => Err(CtlFault::NoConsole(String::from_str(self.alloc, "no hub has it open")?)),
        }
    }

    fn now(&self) -> u64 {
        NOW
    }
}

/// The end of a connection at which commands are given.
#[derive(Drop)]
pub(crate) struct StoredStream<'a> {
    connection: &'a Connection,
}

impl Read for StoredStream<'_> {
    fn read(&mut self, buf: &mut [u8]) -> io::Result<usize> {
        Ok(self.connection.fill(buf).min(buf.len()))
    }
}

impl Write for StoredStream<'_> {
    fn write(&mut self, buf: &[u8]) -> io::Result<usize> {
        if let Ok(mut sent) = self.connection.sent.try_borrow_mut() {
            sent.extend_from_slice(buf)?;
        }
        Ok(buf.len())
    }

    fn flush(&mut self) -> io::Result<()> {
        Ok(())
    }
}
