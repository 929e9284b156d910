//! The other end of a connection.

use crate::act::{Answer, Deed};
use std::cell::Cell;

/// The other end of a connection of the hub.
#[derive(Drop)]
pub struct Peer {
    /// The port at which it waits to be accepted, 0 if it doesn't.
    waits_at: Cell<u16>,
    /// The line that it is connected to, if any.
    place: Cell<Option<usize>>,
    /// The number of the act whose bytes it sent last, if it sent some, and how many were read.
    sent: Cell<Option<usize>>,
    read: Cell<usize>,
    room: Cell<usize>,
    ended: Cell<bool>,
    broken: Cell<bool>,
    deaf: Cell<bool>,
    answer: Cell<Answer>,
    /// Whether a dial to it was answered and nobody was told.
    reports: Cell<bool>,
}

impl Peer {
    /// One that takes as many bytes as come, and answers no dial.
    pub(crate) fn new() -> Peer {
        Peer {
            waits_at: Cell::new(0),
            place: Cell::new(None),
            sent: Cell::new(None),
            read: Cell::new(0),
            room: Cell::new(1_000_000),
            ended: Cell::new(false),
            broken: Cell::new(false),
            deaf: Cell::new(false),
            answer: Cell::new(Answer::Nothing),
            reports: Cell::new(false),
        }
    }

    /// The port at which it waits to be accepted, 0 if it doesn't.
    pub(crate) fn waits_at(&self) -> u16 {
        self.waits_at.get()
    }

    /// The line that it is connected to, if any.
    pub(crate) fn place(&self) -> Option<usize> {
        self.place.get()
    }

    /// It has a new connection to a line.
    pub(crate) fn connect(&self, place: usize) {
        self.waits_at.set(0);
        self.place.set(Some(place));
    }

    /// It is dialled for a line: a connection begins, unless it refuses that at once.
    pub(crate) fn dial(&self, place: usize) {
        self.begin(0);
        self.connect(place);
        self.reports.set(self.answer.get() != Answer::Nothing);
    }

    /// Whether calls on its connection fail.
    pub(crate) fn is_broken(&self) -> bool {
        self.broken.get()
    }

    /// Whether sends on its connection fail.
    pub(crate) fn is_deaf(&self) -> bool {
        self.deaf.get() || self.broken.get()
    }

    /// Whether it sends no more.
    pub(crate) fn has_ended(&self) -> bool {
        self.ended.get()
    }

    /// What becomes of a dial to it.
    pub(crate) fn answer(&self) -> Answer {
        self.answer.get()
    }

    /// Whether a dial to it was answered and nobody was told.
    pub(crate) fn reports(&self) -> bool {
        self.reports.get()
    }

    /// Whether a dial to it was answered and nobody was told; from now on somebody was.
    pub(crate) fn report(&self) -> bool {
        self.reports.replace(false)
    }

    /// The number of the act whose bytes it sent last, if it sent some, and how many were read.
    pub(crate) fn coming(&self) -> (Option<usize>, usize) {
        (self.sent.get(), self.read.get())
    }

    /// So many bytes more of what it sent were read.
    pub(crate) fn leave(&self, count: usize) {
        self.read.set(self.read.get().saturating_add(count));
    }

    /// Takes up to so many bytes, and answers how many.
    pub(crate) fn take(&self, count: usize) -> usize {
        let room = self.room.get();
        let taken = count.min(room);
        self.room.set(room.saturating_sub(taken));
        taken
    }

    /// Does something on its connection by the act of this number.
    pub(crate) fn act(&self, number: usize, deed: Deed) {
        match deed {
            Deed::Connects(port) => self.begin(port),
            Deed::Sends => {
                self.sent.set(Some(number));
                self.read.set(0);
            }
            Deed::Takes(count) => self.room.set(count),
            Deed::Ends => self.ended.set(true),
            Deed::Resets => self.broken.set(true),
            Deed::Deafens => self.deaf.set(true),
            Deed::Answers(answer) => self.answer.set(answer),
            Deed::LogTakes(_) | Deed::Listening(_) | Deed::Visits => {}
            Deed::Changes | Deed::Stands(_) => {}
        }
    }

    /// Begins a connection afresh, at this port of the hub, or by a dial if that is 0.
    fn begin(&self, port: u16) {
        self.waits_at.set(port);
        self.place.set(None);
        self.sent.set(None);
        self.ended.set(false);
        self.broken.set(false);
        self.deaf.set(false);
    }
}
