//! The peers of a hub, their time, and what is seen of the hub.

ghost use Rattle.std.specs.Prelude.{◌≤◌, length};

use crate::act::{Act, Answer, Deed, Ports};
use crate::peer::Peer;
use crate::seen::{Seen, Shows};
use njh_presence::SpoolSeen;
use njh_wire::Readiness;
use std::alloc::Global;
use std::cell::Cell;

/// How many peers there are.
const PEERS: usize = 6;

/// How many lines may be served.
const LINES: usize = 40;

/// The port at which the first peer answers dials; the next peers have the next ports.
const FIRST_PORT: u16 = 9000;

/// What is ready by an act, and at which line.
#[derive(Clone, Copy)]
struct Mark {
    place: usize,
    listener: bool,
    reads: bool,
    writes: bool,
}

/// The peers, what they do and when, and what was seen.
#[derive(Drop)]
pub struct World<'a> {
    acts: &'a [Act],
    shows: Shows,
    /// The number of the next act, and whether none was seen by the wait that goes on.
    next: Cell<usize>,
    is_fresh: Cell<bool>,
    now: Cell<u64>,
    peers: [Peer; PEERS],
    /// On which port each line listens.
    ports: Cell<[u16; LINES]>,
    log_takes: Cell<usize>,
    /// What becomes of listening.
    listening: Cell<Ports>,
    /// The act of the visitor who waits to be let in.
    visit: Cell<Option<usize>>,
    /// The act that changed the table file, if that wasn't looked at since.
    change: Cell<Option<usize>>,
    /// The act that changed it last of those that were looked at.
    table: Cell<Option<usize>>,
    /// What stands at the paths of the spool file and of its log, if there is one.
    stands: Cell<Option<SpoolSeen>>,
    seen: Seen,
}

impl<'a> World<'a> {
    /// One in which this is done, in this order.
    pub(crate) fn new(alloc: Global, acts: &'a [Act], shows: Shows) -> World<'a> {
        World {
            acts,
            shows,
            next: Cell::new(0),
            is_fresh: Cell::new(true),
            now: Cell::new(0),
            peers: [
                Peer::new(),
                Peer::new(),
                Peer::new(),
                Peer::new(),
                Peer::new(),
                Peer::new(),
            ],
            ports: Cell::new([0; LINES]),
            log_takes: Cell::new(1_000_000),
            listening: Cell::new(Ports::Free),
            visit: Cell::new(None),
            change: Cell::new(None),
            table: Cell::new(None),
            stands: Cell::new(None),
            seen: Seen::new(alloc),
        }
    }

    /// Milliseconds since the beginning.
    pub(crate) fn now(&self) -> u64 {
        self.now.get()
    }

    /// A peer.
    pub(crate) fn peer(&self, number: usize) -> Option<&Peer> {
        self.peers.get(number)
    }

    /// A line is to listen on a port. Answers what becomes of that.
    pub(crate) fn listen(&self, place: usize, port: u16) -> Ports {
        self.see_ports();
        let answer = self.listening.get();
        if answer == Ports::Free {
            let mut ports = self.ports.get();
            if let Some(found) = ports.get_mut(place) {
                *found = port;
            }
            self.ports.set(ports);
        }
        answer
    }

    /// If the next act has come and says what becomes of listening, it does so from now on.
    fn see_ports(&self) {
        match self.acts.get(self.next.get()) {
            Some(next) if next.at <= self.now.get() => {
                if let Deed::Listening(ports) = next.deed {
                    self.listening.set(ports);
                }
            }
            _ => {}
        }
    }

    /// The first peer that waits at a port is connected to a line.
    pub(crate) fn accept(&self, place: usize, port: u16) -> Option<usize> {
        for (number, peer) in self.peers.iter().enumerate() {
            if peer.waits_at() == port {
                peer.connect(place);
                return Some(number);
            }
        }
        None
    }

    /// A line dials the peer of this port. None if that is refused at once.
    pub(crate) fn dial(&self, place: usize, port: u16) -> Option<usize> {
        self.seen.add_done(self.now.get(), "dial", u64::from(port));
        let number = usize::from(port.saturating_sub(FIRST_PORT));
        let peer = self.peers.get(number)?;
        if peer.answer() == Answer::Unreachable {
            return None;
        }
        peer.dial(place);
        Some(number)
    }

    /// Waits for the next act, so many milliseconds at most, and not at all if a dial was answered.
    /// Marks what is ready then.
    pub(crate) fn wait(&self, milliseconds: u64, ready: &mut [Readiness]) {
        let now = self.now.get();
        if self.shows.waits {
            self.seen.add_done(now, "waits", milliseconds);
        }
        self.wait_until(now.saturating_add(milliseconds));
        self.is_fresh.set(true);
        for _ in 0..u64::MAX {
            match self.next_mark() {
                Some(mark) => set(ready, mark),
                None => return,
            }
        }
    }

    /// Waits for the next act, until a moment at most.
    fn wait_until(&self, moment: u64) {
        if self.peers.iter().any(|peer| peer.reports()) {
            return;
        }
        match self.acts.get(self.next.get()) {
            Some(next) if next.at <= moment => self.now.set(self.now.get().max(next.at)),
            _ => self.now.set(moment),
        }
    }

    /// What the next act that has come, or an answer to a dial, makes ready, if there is one.
    fn next_mark(&self) -> Option<Mark> {
        for peer in &self.peers {
            if peer.report() {
                return Some(self.mark_of(Deed::Answers(peer.answer()), peer));
            }
        }
        let next = self.acts.get(self.next.get())?;
        if self.now.get() < next.at || (next.is_apart && !self.is_fresh.get()) {
            return None;
        }
        self.is_fresh.set(false);
        self.take(next)
    }

    /// The next act is done. What is ready by it.
    fn take(&self, act: &Act) -> Option<Mark> {
        let number = self.next.get();
        self.next.set(number.saturating_add(1));
        match act.deed {
            Deed::LogTakes(count) => self.log_takes.set(count),
            Deed::Listening(ports) => self.listening.set(ports),
            Deed::Visits => self.visit.set(Some(number)),
            Deed::Changes => self.change.set(Some(number)),
            Deed::Stands(seen) => self.stands.set(Some(seen)),
            _ => {}
        }
        let peer = self.peers.get(act.peer)?;
        peer.act(number, act.deed);
        Some(self.mark_of(act.deed, peer))
    }

    /// What is ready by something that a peer does. If it is at no line, nothing of any line.
    fn mark_of(&self, deed: Deed, peer: &Peer) -> Mark {
        let mut mark = Mark {
            place: peer.place().unwrap_or(LINES),
            listener: false,
            reads: false,
            writes: false,
        };
        match deed {
            Deed::Connects(port) => {
                mark.place = self.place_of(port);
                mark.listener = true;
            }
            Deed::Sends | Deed::Ends => mark.reads = true,
            Deed::Takes(_) | Deed::Answers(_) => mark.writes = true,
            Deed::Resets => {
                mark.reads = true;
                mark.writes = true;
            }
            _ => {}
        }
        mark
    }

    /// The line that listens on a port.
    fn place_of(&self, port: u16) -> usize {
        self.ports
            .get()
            .iter()
            .position(|found| *found == port)
            .unwrap_or(LINES)
    }

    /// The bytes of an act.
    fn bytes_of(&self, number: usize) -> &'a [u8] {
        match self.acts.get(number) {
            Some(act) => act.bytes.as_slice(),
            None => &[],
        }
    }

    /// Reads what a peer sent, and answers how many bytes.
    pub fn read(&self, number: usize, into: &mut [u8]) -> usize
        ensures { result ≤ length into.new }
    {
        let Some(peer) = self.peer(number) else {
            return 0;
        };
        let (Some(act), before) = peer.coming() else {
            return 0;
        };
        let count = copy_rest(self.bytes_of(act), before, into);
        peer.leave(count);
        count
    }

    /// Sends bytes to a peer, and answers how many it takes.
    pub(crate) fn send(&self, number: usize, bytes: &[u8]) -> Option<usize> {
        let peer = self.peer(number)?;
        if peer.is_deaf() {
            return None;
        }
        let count = peer.take(bytes.len()).min(bytes.len());
        if count > 0 {
            self.seen.add_sent(self.now.get(), number, &bytes[..count]);
        }
        Some(count)
    }

    /// The hub let go of a connection with a peer.
    pub(crate) fn close(&self, number: usize) {
        if self.shows.closes {
            let number = u64::try_from(number).unwrap_or(0);
            self.seen.add_done(self.now.get(), "lets go", number);
        }
    }

    /// What the visitor sends who is let in now, if one waits.
    pub(crate) fn let_in(&self) -> Option<&'a [u8]> {
        Some(self.bytes_of(self.visit.take()?))
    }

    /// The console wrote this to a visitor.
    pub(crate) fn tell(&self, bytes: &[u8]) {
        self.seen.add_told(self.now.get(), bytes);
    }

    /// The table file is looked at. What stands in it, if it changed since it was last.
    pub(crate) fn look(&self) -> Option<&'a [u8]> {
        if self.shows.looks {
            self.seen
                .add_plain(self.now.get(), "looks at the table file");
        }
        let change = self.change.take()?;
        self.table.set(Some(change));
        Some(self.bytes_of(change))
    }

    /// The table file is read, whether it changed or not. What stands in it.
    pub(crate) fn read_table(&self) -> &'a [u8] {
        if let Some(change) = self.change.take() {
            self.table.set(Some(change));
        }
        match self.table.get() {
            Some(change) => self.bytes_of(change),
            None => &[],
        }
    }

    /// What stands in the table file from the next act on that changes it.
    pub(crate) fn next_table(&self) -> &'a [u8] {
        for number in self.next.get()..self.acts.len() {
            if let Some(act) = self.acts.get(number) {
                if let Deed::Changes = act.deed {
                    return act.bytes.as_slice();
                }
            }
        }
        &[]
    }

    /// What stands at the paths of the spool file and of its log, if there is one: from the first
    /// act on, if that says so.
    pub(crate) fn stands(&self) -> Option<SpoolSeen> {
        match self.acts.get(self.next.get()) {
            Some(next) if next.at <= self.now.get() => {
                if let Deed::Stands(seen) = next.deed {
                    self.stands.set(Some(seen));
                }
            }
            _ => {}
        }
        self.stands.get()
    }

    /// The hub writes this to its log. Answers how many bytes are taken.
    pub(crate) fn log(&self, bytes: &[u8]) -> usize {
        let count = self.log_takes.get().min(bytes.len());
        self.seen.add_log(&bytes[..count]);
        count
    }

    /// What was seen.
    pub(crate) fn into_seen(self) -> Vec<u8> {
        self.seen.into_bytes()
    }
}

/// Copies what is left of bytes behind so many, as far as it fits, and answers how many those are.
pub fn copy_rest(bytes: &[u8], before: usize, into: &mut [u8]) -> usize
    ensures { result ≤ length into.new }
{
    if bytes.len() < before {
        return 0;
    }
    let coming = &bytes[before..];
    let count = coming.len().min(into.len());
    into[..count].copy_from_slice(&coming[..count]);
    count
}

/// Marks what is ready of a line, if there is one.
fn set(ready: &mut [Readiness], mark: Mark) {
    if let Some(found) = ready.get_mut(mark.place) {
        found.listener = found.listener || mark.listener;
        found.reads = found.reads || mark.reads;
        found.writes = found.writes || mark.writes;
    }
}
