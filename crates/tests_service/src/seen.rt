//! What is seen of a hub, line by line.

use std::alloc::Global;
use std::cell::RefCell;
use std::io::Write;

/// What of a hub is seen beside what it sends, dials, logs and answers at the console.
#[derive(Clone, Copy)]
pub struct Shows {
    /// That it let go of a connection.
    pub closes: bool,
    /// For how long it waits.
    pub waits: bool,
    /// That it looks at the table file.
    pub looks: bool,
}

impl Shows {
    /// Nothing.
    pub const NOTHING: Shows = Shows {
        closes: false,
        waits: false,
        looks: false,
    };
}

/// What was seen so far.
#[derive(Drop)]
pub struct Seen {
    text: RefCell<Vec<u8>>,
}

impl Seen {
    /// Nothing.
    pub(crate) fn new(alloc: Global) -> Seen {
        Seen {
            text: RefCell::new(Vec::new(alloc)),
        }
    }

    /// At a moment the hub sent bytes to a peer.
    pub(crate) fn add_sent(&self, now: u64, number: usize, bytes: &[u8]) {
        if let Ok(mut text) = self.text.try_borrow_mut() {
            let _begun = write!(*text, "{now} to {number}: ").is_ok();
            for byte in bytes {
                let _kept = write!(*text, "{byte:02x}").is_ok();
            }
            let _ended = text.push(b'\n').is_ok();
        }
    }

    /// Something was done with so much, as a port.
    pub(crate) fn add_done(&self, now: u64, done: &str, number: u64) {
        if let Ok(mut text) = self.text.try_borrow_mut() {
            let _kept = writeln!(*text, "{now} {done} {number}").is_ok();
        }
    }

    /// Something was done.
    pub(crate) fn add_plain(&self, now: u64, done: &str) {
        if let Ok(mut text) = self.text.try_borrow_mut() {
            let _kept = writeln!(*text, "{now} {done}").is_ok();
        }
    }

    /// The console wrote this to a visitor. It stands on one line.
    pub(crate) fn add_told(&self, now: u64, bytes: &[u8]) {
        if let Ok(mut text) = self.text.try_borrow_mut() {
            let _begun = write!(*text, "{now} told: ").is_ok();
            for byte in bytes {
                add_byte(&mut text, *byte);
            }
            let _ended = text.push(b'\n').is_ok();
        }
    }

    /// The hub wrote this to its log.
    pub(crate) fn add_log(&self, bytes: &[u8]) {
        if let Ok(mut text) = self.text.try_borrow_mut() {
            let _kept = text.extend_from_slice(bytes).is_ok();
        }
    }

    /// All of it.
    pub(crate) fn into_bytes(self) -> Vec<u8> {
        let Seen { text } = self;
        text.into_inner()
    }
}

/// Adds a byte of what a visitor is told.
fn add_byte(text: &mut Vec<u8>, byte: u8) {
    let _kept = match byte {
        b'\r' => text.extend_from_slice(b"\\r").is_ok(),
        b'\n' => text.extend_from_slice(b"\\n").is_ok(),
        b'\\' => text.extend_from_slice(b"\\\\").is_ok(),
        _ => text.push(byte).is_ok(),
    };
}
