//! Standard error as the writer of a log, of which no write waits.

use libc::STDERR_FILENO;
use libc::net::{POLLERR, POLLHUP, POLLNVAL, POLLOUT, poll};
use libc::types::pollfd;
use std::io;
use std::io::{ErrorKind, Write};

/// The most bytes of a write: a pipe that has room at all takes so many at once.
const MOST: usize = 4096;

/// Standard error, of which no write waits. If one would, it takes nothing and answers
/// `WouldBlock`; if nobody reads any more, it answers `BrokenPipe`, and no signal comes of it.
#[derive(Drop)]
pub struct StandardError<'a, E: Print> {
    errors: &'a E,
}

impl<'a, E: Print> StandardError<'a, E> {
    /// Standard error, printed to by these means.
    pub(crate) fn new(errors: &'a E) -> StandardError<'a, E> {
        StandardError { errors }
    }
}

impl<E: Print> Write for StandardError<'_, E> {
    fn write(&mut self, buf: &[u8]) -> io::Result<usize> {
        look()?;
        io::writer(self.errors).write(&buf[..buf.len().min(MOST)])
    }

    fn flush(&mut self) -> io::Result<()> {
        Ok(())
    }
}

/// Looks whether standard error takes bytes now.
fn look() -> io::Result<()> {
    let mut looked = [pollfd {
        fd: STDERR_FILENO,
        events: POLLOUT,
        revents: 0,
    }];
    if poll(&mut looked, 0) < 0 {
        return Err(io::Error::from(ErrorKind::WouldBlock));
    }
    let found = looked[0].revents;
    if found & (POLLERR | POLLHUP | POLLNVAL) != 0 {
        return Err(io::Error::from(ErrorKind::BrokenPipe));
    }
    if found & POLLOUT == 0 {
        return Err(io::Error::from(ErrorKind::WouldBlock));
    }
    Ok(())
}
