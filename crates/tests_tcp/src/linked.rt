//! A link whose line and peer are in memory.

use njh_link::Link;
use njh_tcp::Contact;
use std::alloc::{AllocError, Global};

/// A link, the bytes that its line was given, and those that went out on it.
#[derive(Drop)]
pub struct Linked {
    pub link: Link,
    pub line: Vec<u8>,
    pub out: Vec<u8>,
}

impl Linked {
    pub fn new(alloc: Global, contact: Contact) -> Result<Linked, AllocError> {
        Ok(Linked {
            link: Link::new(alloc, contact)?,
            line: Vec::new(alloc),
            out: Vec::new(alloc),
        })
    }

    /// Gives the line some bytes, if there are any.
    fn give(&mut self) -> Result<(), AllocError> {
        let mut buffer = [0; 5];
        let count = self.link.give(&mut buffer);
        self.line.extend_from_slice(&buffer[..count])
    }

    /// Gives the line all of a frame, or an Ack0 that it is owed.
    pub fn give_all(&mut self) -> Result<(), AllocError> {
        for _ in 0..10_000 {
            if self.link.is_given() {
                break;
            }
            self.give()?;
        }
        Ok(())
    }

    /// Bytes come, and each frame is given.
    pub fn hear(&mut self, bytes: &[u8]) -> Result<(), AllocError> {
        let mut rest = bytes;
        for _ in bytes {
            if self.link.is_given() {
                let taken = self.link.hear(rest);
                let (_, after) = rest.split_at(taken);
                rest = after;
            }
            self.give_all()?;
        }
        Ok(())
    }

    /// All that waits goes out.
    pub fn send(&mut self) -> Result<(), AllocError> {
        let waiting = self.link.waiting();
        let count = waiting.len();
        self.out.extend_from_slice(waiting)?;
        self.link.sent(count);
        Ok(())
    }

    /// The line writes bytes, and what is let out goes out.
    pub fn write(&mut self, bytes: &[u8]) -> Result<(), AllocError> {
        let mut rest = bytes;
        for _ in bytes {
            if self.link.is_sent() {
                let taken = self.link.write(rest);
                let (_, after) = rest.split_at(taken);
                rest = after;
            }
            self.send()?;
        }
        Ok(())
    }
}
