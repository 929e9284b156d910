//! Two hubs that are joined by a line in memory, their clock, and a peer on a further line of the
//! first hub.

ghost use Rattle.std.specs.Prelude.{◌≤◌, length};

use crate::world::copy_rest;
use njh_wire::Readiness;
use std::alloc::Global;
use std::cell::{Cell, RefCell};

/// By how much the second hub's clock is ahead, in milliseconds: the hubs' moments don't fall
/// together.
const AHEAD: u64 = 3;

/// The place of the line that joins the hubs, at both ends, and of the further line.
const JOINED: usize = 0;

const FURTHER: usize = 1;

/// How a text begins.
const TEXT: &[u8] = b"\x10\x02";

/// What one hub has of the line between them.
#[derive(Drop)]
struct End {
    /// What the other hub sent and this one didn't read.
    coming: RefCell<Vec<u8>>,
    /// Whether something came since it last waited.
    reads: Cell<bool>,
    /// Whether the other hub dialled, and this one didn't accept.
    waits: Cell<bool>,
    /// Whether its own dial was made, and it wasn't told.
    made: Cell<bool>,
    /// Until when it waits.
    until: Cell<u64>,
    /// How many frames it sent, and how many of them are texts.
    frames: Cell<u32>,
    texts: Cell<u32>,
    /// Whether the next frame that it sends is lost.
    loses: Cell<bool>,
    log: RefCell<Vec<u8>>,
}

impl End {
    fn new(alloc: Global) -> End {
        End {
            coming: RefCell::new(Vec::new(alloc)),
            reads: Cell::new(false),
            waits: Cell::new(false),
            made: Cell::new(false),
            until: Cell::new(0),
            frames: Cell::new(0),
            texts: Cell::new(0),
            loses: Cell::new(false),
            log: RefCell::new(Vec::new(alloc)),
        }
    }
}

/// The line between two hubs, their clock, and the peer.
#[derive(Drop)]
pub struct Joint<'a> {
    now: Cell<u64>,
    /// Whether something moved since that was last asked.
    moves: Cell<bool>,
    first: End,
    second: End,
    /// What the peer sends once it is connected, and how much of that was read.
    script: &'a [u8],
    read: Cell<usize>,
    /// Whether the peer is to be accepted, and the hub wasn't told of it yet.
    peer: Cell<bool>,
}

impl<'a> Joint<'a> {
    /// Nobody has dialled. The peer will send this.
    pub(crate) fn new(alloc: Global, script: &'a [u8]) -> Joint<'a> {
        Joint {
            now: Cell::new(0),
            moves: Cell::new(false),
            first: End::new(alloc),
            second: End::new(alloc),
            script,
            read: Cell::new(0),
            peer: Cell::new(false),
        }
    }

    /// One of the two ends: 0 and 1.
    fn end(&self, number: usize) -> &End {
        if number == 0 {
            &self.first
        } else {
            &self.second
        }
    }

    /// The other one.
    fn other(&self, number: usize) -> &End {
        if number == 0 {
            &self.second
        } else {
            &self.first
        }
    }

    /// The time of a hub's clock, in milliseconds.
    pub(crate) fn clock(&self, number: usize) -> u64 {
        let ahead = if number == 0 { 0 } else { AHEAD };
        self.now.get().saturating_add(ahead)
    }

    /// The time, in milliseconds.
    pub(crate) fn now(&self) -> u64 {
        self.now.get()
    }

    /// A hub waits so many milliseconds at most. Marks what is ready.
    pub(crate) fn wait(&self, number: usize, milliseconds: u64, ready: &mut [Readiness]) {
        let end = self.end(number);
        end.until.set(self.now.get().saturating_add(milliseconds));
        if let Some(joined) = ready.get_mut(JOINED) {
            joined.reads = end.reads.replace(false) || joined.reads;
            joined.listener = end.waits.get() || joined.listener;
            joined.writes = end.made.replace(false) || joined.writes;
        }
        if let Some(further) = ready.get_mut(FURTHER) {
            further.listener = (number == 0 && self.peer.get()) || further.listener;
        }
    }

    /// If nothing moved since this was last called, lets the time pass until a hub waits no
    /// longer.
    pub(crate) fn pass(&self) {
        if self.moves.replace(false) {
            return;
        }
        let next = self.first.until.get().min(self.second.until.get());
        self.now.set(self.now.get().max(next));
    }

    /// Whether a hub's wait is over: its time has passed, or something is ready.
    pub(crate) fn is_awake(&self, number: usize) -> bool {
        let end = self.end(number);
        let is_ready = end.reads.get() || end.waits.get() || end.made.get();
        is_ready || (number == 0 && self.peer.get()) || end.until.get() <= self.now.get()
    }

    /// A hub dials the other.
    pub(crate) fn dial(&self, number: usize) {
        self.moves.set(true);
        self.end(number).made.set(true);
        self.other(number).waits.set(true);
    }

    /// Whether somebody waited to be accepted on the line at a place, and now doesn't any more.
    pub(crate) fn accept(&self, number: usize, place: usize) -> bool {
        self.moves.set(true);
        if place == JOINED {
            self.end(number).waits.replace(false)
        } else {
            self.peer.replace(false)
        }
    }

    /// The peer connects to the first hub's further line, and sends.
    pub(crate) fn play(&self) {
        self.peer.set(true);
        self.moves.set(true);
    }

    /// The next frame of a hub is lost.
    pub(crate) fn lose(&self, number: usize) {
        self.end(number).loses.set(true);
    }

    /// Frames of a hub on the line at a place.
    pub(crate) fn send(&self, number: usize, place: usize, bytes: &[u8]) {
        if place != JOINED {
            return;
        }
        self.moves.set(true);
        let end = self.end(number);
        end.frames.set(end.frames.get().saturating_add(1));
        if bytes.starts_with(TEXT) {
            end.texts.set(end.texts.get().saturating_add(1));
        }
        if end.loses.replace(false) {
            return;
        }
        let other = self.other(number);
        other.reads.set(true);
        if let Ok(mut coming) = other.coming.try_borrow_mut() {
            let _kept = coming.extend_from_slice(bytes).is_ok();
        }
    }

    /// Reads what came for a hub on the line at a place, and answers how many bytes.
    pub fn read(&self, number: usize, place: usize, into: &mut [u8]) -> usize
        ensures { result ≤ length into.new }
    {
        let count = if place == JOINED {
            self.read_joined(number, into)
        } else {
            self.read_peer(into)
        };
        self.moves.set(self.moves.get() || count > 0);
        count
    }

    /// Reads what came of the other hub.
    fn read_joined(&self, number: usize, into: &mut [u8]) -> usize
        ensures { result ≤ length into.new }
    {
        match self.end(number).coming.try_borrow_mut() {
            Ok(mut coming) => take_front(&mut coming, into),
            Err(_) => 0,
        }
    }

    /// Reads what the peer sent.
    fn read_peer(&self, into: &mut [u8]) -> usize
        ensures { result ≤ length into.new }
    {
        let read = self.read.get();
        let count = copy_rest(self.script, read, into);
        self.read.set(read.saturating_add(count));
        count
    }

    /// A hub's log.
    pub(crate) fn tell(&self, number: usize, text: &[u8]) {
        if let Ok(mut log) = self.end(number).log.try_borrow_mut() {
            let _kept = log.extend_from_slice(text).is_ok();
        }
    }

    /// How many frames a hub sent on the line between them, and how many of them are texts.
    pub(crate) fn sent(&self, number: usize) -> (u32, u32) {
        let end = self.end(number);
        (end.frames.get(), end.texts.get())
    }

    /// How many lines of a hub's log have this.
    pub(crate) fn told(&self, number: usize, this: &str) -> usize {
        match self.end(number).log.try_borrow() {
            Ok(log) => count_lines(str::from_utf8(&log).unwrap_or(""), this),
            Err(_) => 0,
        }
    }
}

/// Moves bytes from the front of what came into a buffer, and answers how many.
fn take_front(coming: &mut Vec<u8>, into: &mut [u8]) -> usize
    ensures { result ≤ length into.new }
{
    let count = coming.len().min(into.len());
    into[..count].copy_from_slice(&coming[..count]);
    let left = coming.len() - count;
    coming.copy_within(count.., 0);
    coming.truncate(left);
    count
}

/// How many lines of a text have this.
fn count_lines(text: &str, this: &str) -> usize {
    let mut count = 0usize;
    for line in text.lines() {
        count = count.saturating_add(usize::from(line.contains(this)));
    }
    count
}
