//! The streams of a run, in memory; one of their calls may go amiss.

ghost use Rattle.std.specs.Prelude.{◌≤◌, IfOk};

use crate::peer::Peer;
use std::alloc::{AllocError, Global};
use std::io;
use std::io::{ErrorKind, Read, Write};

/// How many bytes a read gives at most, where one call goes amiss.
const PIECE: usize = 64;

/// What one call of a stream does.
#[derive(Clone, Copy)]
pub enum Mishap {
    /// It fails.
    Fails,
    /// It moves one byte at most.
    FallsShort,
    /// It is interrupted before it moves a byte, and is to be asked again.
    IsInterrupted,
}

/// How many calls a stream had, and which of them goes amiss, counted from 1; none where it is 0.
#[derive(Clone, Copy)]
pub struct Calls {
    pub had: u64,
    pub bad: u64,
    pub mishap: Mishap,
}

impl Calls {
    /// Calls of which none goes amiss.
    pub fn good() -> Calls {
        Calls::with(0, Mishap::FallsShort)
    }

    /// Calls of which one goes amiss.
    pub fn with(bad: u64, mishap: Mishap) -> Calls {
        Calls {
            had: 0,
            bad,
            mishap,
        }
    }

    /// Whether the one that goes amiss fails.
    pub(crate) fn fails(&self) -> bool {
        match self.mishap {
            Mishap::Fails => true,
            Mishap::FallsShort | Mishap::IsInterrupted => false,
        }
    }

    /// Counts a call, and says how many of so many bytes it may move, if it doesn't fail.
    fn take(&mut self, count: usize) -> io::Result<usize>
        ensures { IfOk result (λ moved. moved ≤ count) }
    {
        self.had = self.had.saturating_add(1);
        if self.had != self.bad {
            return Ok(count);
        }
        match self.mishap {
            Mishap::Fails => Err(io::Error::from(ErrorKind::BrokenPipe)),
            Mishap::FallsShort => Ok(count.min(1)),
            Mishap::IsInterrupted => Err(io::Error::from(ErrorKind::Interrupted)),
        }
    }
}

/// Gives a text in pieces.
#[derive(Drop)]
pub struct Source<'a> {
    left: &'a [u8],
    pub calls: Calls,
}

impl Read for Source<'_> {
    fn read(&mut self, buf: &mut [u8]) -> io::Result<usize> {
        let count = self.calls.take(buf.len().min(PIECE))?;
        self.left.read(&mut buf[..count])
    }
}

/// Keeps what is written.
#[derive(Drop)]
pub struct Drain {
    pub taken: Vec<u8>,
    pub calls: Calls,
}

impl Write for Drain {
    fn write(&mut self, buf: &[u8]) -> io::Result<usize> {
        let count = self.calls.take(buf.len())?;
        self.taken.extend_from_slice(&buf[..count])?;
        Ok(count)
    }

    fn flush(&mut self) -> io::Result<()> {
        match self.calls.mishap {
            Mishap::Fails | Mishap::FallsShort => {
                self.calls.take(0)?;
            }
            // Reads and writes alone are asked again.
            Mishap::IsInterrupted => {}
        }
        Ok(())
    }
}

/// A log in memory.
#[derive(Drop)]
pub struct Log<'a, 'b> {
    pub bytes: &'a mut Vec<u8>,
    /// The run's peer, who looks at each line whether the program is connected.
    pub peer: &'a mut Option<Peer<'b>>,
}

impl Write for Log<'_, '_> {
    fn write(&mut self, buf: &[u8]) -> io::Result<usize> {
        self.bytes.extend_from_slice(buf)?;
        if let Some(peer) = self.peer.as_mut() {
            peer.look();
        }
        Ok(buf.len())
    }

    fn flush(&mut self) -> io::Result<()> {
        Ok(())
    }
}

/// What a run of the program is given to read, and what it says.
#[derive(Drop)]
pub struct Run<'a> {
    pub source: Source<'a>,
    pub drain: Drain,
    /// The log of a service.
    pub logged: Vec<u8>,
    /// The line of its failure, if it has one.
    pub line: String,
    /// What `clap` says of arguments that are refused, or where help is asked for.
    pub refusal: String,
    /// Who plays a line that the program dials, if somebody does.
    pub peer: Option<Peer<'a>>,
}

impl<'a> Run<'a> {
    /// A run over a script, with what is known of the calls of its reader and of its writer.
    pub fn new(alloc: Global, script: &'a [u8], reads: Calls, writes: Calls) -> Run<'a> {
        Run {
            source: Source {
                left: script,
                calls: reads,
            },
            drain: Drain {
                taken: Vec::new(alloc),
                calls: writes,
            },
            logged: Vec::new(alloc),
            line: String::new(alloc),
            refusal: String::new(alloc),
            peer: None,
        }
    }

    /// A run over a script beside a peer.
    pub(crate) fn beside(alloc: Global, script: &'a [u8], peer: Peer<'a>) -> Run<'a> {
        let mut run = Run::new(alloc, script, Calls::good(), Calls::good());
        run.peer = Some(peer);
        run
    }

    /// All that the peer was sent, once the program has ended.
    pub(crate) fn heard(&mut self, alloc: Global) -> Result<Vec<u8>, AllocError> {
        match self.peer.as_mut() {
            Some(peer) => peer.heard(alloc),
            None => Ok(Vec::new(alloc)),
        }
    }

    /// What was printed, then the log without its times, then the line of the failure.
    pub fn told(&self, alloc: Global) -> Result<Vec<u8>, AllocError> {
        let mut told = Vec::from_slice(alloc, &self.drain.taken)?;
        for line in self.logged.split_inclusive(|byte| *byte == b'\n') {
            told.extend_from_slice(without_time(line))?;
        }
        told.extend_from_slice(self.line.as_bytes())?;
        Ok(told)
    }
}

/// A line of the log without its time.
fn without_time(line: &[u8]) -> &[u8] {
    match line.iter().position(|byte| *byte == b' ') {
        Some(blank) => &line[blank + 1..],
        None => line,
    }
}
