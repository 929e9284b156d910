//! What a hub in memory is served on: the world of one hub, or one end of two hubs that are joined.

ghost use Rattle.std.specs.Prelude.{◌≤◌, length};

use crate::act::{Answer, Ports};
use crate::joint::Joint;
use crate::world::World;
use njh_presence::SpoolSeen;
use njh_wire::Readiness;
use std::net::{Ipv4Addr, SocketAddr};

/// The world of one hub, or one end of two hubs that are joined: 0 or 1.
#[derive(Clone, Copy)]
pub enum Scene<'a> {
    World(&'a World<'a>),
    Joint(&'a Joint<'a>, usize),
}

/// Where a peer connects from.
fn address_of(number: usize) -> SocketAddr {
    let last = u8::try_from(number).unwrap_or(255);
    SocketAddr::new(Ipv4Addr::new(10, 0, 0, last).into(), 5000)
}

impl<'a> Scene<'a> {
    /// A line is to listen on a port. Answers what becomes of that.
    pub(crate) fn listen(self, place: usize, port: u16) -> Ports {
        match self {
            Scene::World(world) => world.listen(place, port),
            Scene::Joint(_, _) => Ports::Free,
        }
    }

    /// Who waits is connected to a line: the number of the peer, and its address.
    pub(crate) fn accept(self, place: usize, port: u16) -> Option<(usize, SocketAddr)> {
        match self {
            Scene::World(world) => {
                let number = world.accept(place, port)?;
                Some((number, address_of(number)))
            }
            Scene::Joint(joint, end) => {
                if joint.accept(end, place) {
                    Some((0, address_of(1)))
                } else {
                    None
                }
            }
        }
    }

    /// A line dials a port. The number of its peer, unless that refuses at once.
    pub(crate) fn dial(self, place: usize, port: u16) -> Option<usize> {
        match self {
            Scene::World(world) => world.dial(place, port),
            Scene::Joint(joint, end) => {
                joint.dial(end);
                Some(0)
            }
        }
    }

    /// What became of a dial.
    pub(crate) fn answer(self, number: usize) -> Answer {
        match self {
            Scene::World(world) => match world.peer(number) {
                Some(peer) => peer.answer(),
                None => Answer::Unreachable,
            },
            Scene::Joint(_, _) => Answer::Made,
        }
    }

    /// Whether calls on the connection with a peer fail.
    pub(crate) fn is_broken(self, number: usize) -> bool {
        match self {
            Scene::World(world) => match world.peer(number) {
                Some(peer) => peer.is_broken(),
                None => true,
            },
            Scene::Joint(_, _) => false,
        }
    }

    /// Whether a peer sends no more.
    pub(crate) fn has_ended(self, number: usize) -> bool {
        match self {
            Scene::World(world) => match world.peer(number) {
                Some(peer) => peer.has_ended(),
                None => true,
            },
            Scene::Joint(_, _) => false,
        }
    }

    /// Reads what came of a peer on the line at a place, and answers how many bytes.
    pub fn read(self, number: usize, place: usize, into: &mut [u8]) -> usize
        ensures { result ≤ length into.new }
    {
        match self {
            Scene::World(world) => world.read(number, into),
            Scene::Joint(joint, end) => joint.read(end, place, into),
        }
    }

    /// Sends bytes to a peer, and answers how many it takes.
    pub(crate) fn send(self, number: usize, place: usize, bytes: &[u8]) -> Option<usize> {
        match self {
            Scene::World(world) => world.send(number, bytes),
            Scene::Joint(joint, end) => {
                joint.send(end, place, bytes);
                Some(bytes.len())
            }
        }
    }

    /// The connection with a peer is let go.
    pub(crate) fn close(self, number: usize) {
        match self {
            Scene::World(world) => world.close(number),
            Scene::Joint(_, _) => {}
        }
    }

    /// What a visitor sends who is let in now, if one waits.
    pub(crate) fn let_in(self) -> Option<&'a [u8]> {
        match self {
            Scene::World(world) => world.let_in(),
            Scene::Joint(_, _) => None,
        }
    }

    /// The console wrote this to a visitor.
    pub(crate) fn tell(self, bytes: &[u8]) {
        match self {
            Scene::World(world) => world.tell(bytes),
            Scene::Joint(_, _) => {}
        }
    }

    /// The log gets this. Answers how many bytes are taken.
    pub(crate) fn log(self, bytes: &[u8]) -> usize {
        match self {
            Scene::World(world) => world.log(bytes),
            Scene::Joint(joint, end) => {
                joint.tell(end, bytes);
                bytes.len()
            }
        }
    }

    /// The table file is looked at. What stands in it, if it changed since it was last.
    pub(crate) fn look(self) -> Option<&'a [u8]> {
        match self {
            Scene::World(world) => world.look(),
            Scene::Joint(_, _) => None,
        }
    }

    /// The table file is read, whether it changed or not. What stands in it.
    pub(crate) fn read_table(self) -> &'a [u8] {
        match self {
            Scene::World(world) => world.read_table(),
            Scene::Joint(_, _) => &[],
        }
    }

    /// What stands in the table file from the next act on that changes it.
    pub(crate) fn next_table(self) -> &'a [u8] {
        match self {
            Scene::World(world) => world.next_table(),
            Scene::Joint(_, _) => &[],
        }
    }

    /// What stands at the paths of the spool file and of its log, if there is one.
    pub(crate) fn stands(self) -> Option<SpoolSeen> {
        match self {
            Scene::World(world) => world.stands(),
            Scene::Joint(_, _) => None,
        }
    }

    /// Waits so many milliseconds at most, and marks what is ready.
    pub(crate) fn wait(self, milliseconds: u64, ready: &mut [Readiness]) {
        match self {
            Scene::World(world) => world.wait(milliseconds, ready),
            Scene::Joint(joint, end) => joint.wait(end, milliseconds, ready),
        }
    }

    /// Milliseconds on the hub's clock.
    pub(crate) fn clock(self) -> u64 {
        match self {
            Scene::World(world) => world.now(),
            Scene::Joint(joint, end) => joint.clock(end),
        }
    }

    /// Milliseconds since the beginning.
    pub(crate) fn now(self) -> u64 {
        match self {
            Scene::World(world) => world.now(),
            Scene::Joint(joint, _) => joint.now(),
        }
    }
}
