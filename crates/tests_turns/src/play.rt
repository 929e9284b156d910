//! Plays steps on a wire of a line.

use crate::memory_connection::{MemoryConnection, Peer};
use njh_table::Protocol;
use njh_turns::{Reading, Wire, WireFault};
use njh_wire::{ConnectionEnd, LineWire, Saying};
use std::alloc::Global;
use std::process::Abort;
use std::test::Fail;

/// A step on a wire, or what is found of it then.
#[derive(Clone, Copy)]
pub enum Step {
    /// It is so many milliseconds.
    At(u64),
    /// The first or the second peer connects.
    Connect(usize),
    /// So many bytes come of a peer, and the wire is told.
    Comes(usize, usize),
    /// The next byte of a peer is this one.
    Gives(usize, u8),
    /// A session is up on the connection.
    Up,
    /// The wire's line is over TCP/IP.
    ByTcp,
    /// A peer's connection owes the line an answer.
    Owes(usize),
    /// A peer sends no more, and the wire is told.
    Ends(usize),
    /// A peer is gone, and the wire is told.
    Breaks(usize),
    /// A peer takes so many bytes more, and then none.
    Takes(usize, usize),
    /// A frame of so many bytes is written, which is Ok or not. It waits.
    Write(usize, bool),
    /// What waits is let out.
    Flush,
    /// The connection is closed from here.
    Close,
    /// Who leaves is let go on.
    Leave,
    /// The peer is told this.
    Say(Saying),
    /// A read answers this.
    Read(Result<Reading, WireFault>),
    /// A read that is prompted answers this.
    Prompt(Result<Reading, WireFault>),
    /// The wire is due then.
    Due(u64),
    /// Who leaves is to be let go on then.
    Leaves(u64),
    /// The peer is to be told then that this end is there.
    Alive(u64),
    /// A peer was told this last, and whether no more is sent to it.
    Told(usize, Option<Saying>, bool),
    /// The wire is ready or not, and something waits to go out on it or not.
    Is(bool, bool),
    /// A peer took so many bytes in so many sends.
    Took(usize, usize, usize),
    /// Why the last connection ended.
    Ended(Option<ConnectionEnd>),
}

/// A wire and the frames that were written on it.
#[derive(Drop)]
struct Player<'a> {
    wire: LineWire<MemoryConnection<'a>>,
    peers: &'a [Peer],
    written: u8,
    alloc: Global,
}

/// Plays steps on a new wire.
pub(crate) fn play<R: Abort>(
    rt: &R,
    alloc: Global,
    name: &str,
    steps: &[Step],
) -> Result<(), Fail> {
    let peers = [Peer::new(), Peer::new()];
    let mut player = Player {
        wire: LineWire::new(alloc, 0)?,
        peers: &peers,
        written: 0,
        alloc,
    };
    for step in steps {
        player.take(rt, name, *step)?;
    }
    Ok(())
}

impl<'a> Player<'a> {
    /// One step.
    fn take<R: Abort>(&mut self, rt: &R, name: &str, step: Step) -> Result<(), Fail> {
        match step {
            Step::At(now) => self.wire.set_clock(now),
            Step::Connect(at) => {
                let found = peer(rt, self.peers, at);
                let place = self.wire.place();
                self.wire.connect(MemoryConnection { peer: found, place });
            }
            Step::Comes(at, count) => {
                peer(rt, self.peers, at).coming.set(count);
                self.wire.mark_readable();
            }
            Step::Gives(at, byte) => peer(rt, self.peers, at).given.set(byte),
            Step::Up => self.wire.set_up(true),
            Step::ByTcp => self.wire.set_protocol(Protocol::Tcp),
            Step::Owes(at) => peer(rt, self.peers, at).owed.set(true),
            Step::Ends(at) => {
                peer(rt, self.peers, at).ended.set(true);
                self.wire.mark_readable();
            }
            Step::Breaks(at) => {
                peer(rt, self.peers, at).broken.set(true);
                self.wire.mark_readable();
            }
            Step::Takes(at, count) => peer(rt, self.peers, at).room.set(count),
            Step::Write(count, is_ok) => {
                let found = self.write(count)?;
                assert_eq!(rt; found, is_ok, "{name}");
            }
            Step::Flush => self.wire.flush(),
            Step::Close => self.wire.close(),
            Step::Leave => self.wire.let_leave(),
            Step::Say(saying) => self.wire.say(saying),
            _ => self.find(rt, name, step),
        }
        Ok(())
    }

    /// What is found.
    fn find<R: Abort>(&mut self, rt: &R, name: &str, step: Step) {
        match step {
            Step::Read(want) => self.read(rt, name, false, want),
            Step::Prompt(want) => self.read(rt, name, true, want),
            Step::Due(want) => assert_eq!(rt; self.wire.deadline(), want, "{name}"),
            Step::Leaves(want) => assert_eq!(rt; self.wire.leaves_at(), want, "{name}"),
            Step::Alive(want) => assert_eq!(rt; self.wire.alive_at(), want, "{name}"),
            Step::Told(at, want, is_shut) => {
                let found = peer(rt, self.peers, at);
                assert_eq!(rt; found.said.get(), want, "{name}");
                assert_eq!(rt; found.shut.get(), is_shut, "{name}");
            }
            Step::Is(ready, waits) => {
                assert_eq!(rt; self.wire.is_ready(), ready, "{name}");
                assert_eq!(rt; self.wire.waits_to_send(), waits, "{name}");
            }
            Step::Took(at, bytes, sends) => {
                let found = peer(rt, self.peers, at);
                assert_eq!(rt; found.taken.get(), bytes, "{name}");
                assert_eq!(rt; found.sends.get(), sends, "{name}");
                assert!(rt; !found.mixed.get(), "{name}");
            }
            Step::Ended(want) => assert_eq!(rt; self.wire.take_end(), want, "{name}"),
            _ => {}
        }
    }

    /// What a read answers that is prompted or isn't.
    fn read<R: Abort>(
        &mut self,
        rt: &R,
        name: &str,
        is_prompted: bool,
        want: Result<Reading, WireFault>,
    ) {
        let mut buffer = [0; 100];
        assert_eq!(rt; self.wire.read(&mut buffer, is_prompted), want, "{name}");
    }

    /// Writes a frame, and answers whether that was Ok. The bytes of all frames count up.
    fn write(&mut self, count: usize) -> Result<bool, Fail> {
        let mut frame = Vec::with_capacity(self.alloc, count)?;
        for _ in 0..count {
            frame.push(self.written)?;
            self.written = self.written.wrapping_add(1);
        }
        Ok(self.wire.write(&frame).is_ok())
    }
}

/// A peer.
fn peer<'a, R: Abort>(rt: &R, peers: &'a [Peer], at: usize) -> &'a Peer {
    peers.get(at).expect(rt, "one of two")
}
