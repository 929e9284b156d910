//! A network in memory: its sockets, a visitor of the console, the log and the table file.

ghost use Rattle.std.specs.Prelude.{◌≡◌, ◌≤◌, length, IfOk};
ghost use Rattle.std.specs.Io.{ReadsAtMost, WritesAtMost};

use crate::act::{Answer, Ports};
use crate::scene::Scene;
use njh_presence::SpoolSeen;
use njh_revision::TableSource;
use njh_table::{Role, TableFault, Tables};
use njh_wire::{Connection, ConnectionFault, ConnectionRead, Network, Readiness};
use std::alloc::{AllocError, Global};
use std::io;
use std::io::{ErrorKind, Read, Write};
use std::net::SocketAddr;

/// A socket that listens for the line at a place.
#[derive(Drop)]
pub struct SceneListener {
    address: SocketAddr,
    place: usize,
}

/// A connection of the line at a place with the peer of this number. That it is let go is seen.
pub struct SceneConnection<'a> {
    scene: Scene<'a>,
    number: usize,
    place: usize,
}

impl Drop for SceneConnection<'_> {
    fn drop(self) {
        self.scene.close(self.number);
        let SceneConnection {
            scene: _,
            number: _,
            place: _,
        } = self;
    }
}

/// A visitor of the console who sends some bytes, and then waits.
#[derive(Drop)]
pub struct SceneVisitor<'a> {
    scene: Scene<'a>,
    coming: &'a [u8],
}

/// The writer of the log.
#[derive(Drop)]
pub struct SceneLog<'a> {
    pub scene: Scene<'a>,
}

/// The table file.
#[derive(Drop)]
pub struct SceneTables<'a> {
    pub alloc: Global,
    pub scene: Scene<'a>,
}

/// The network and its clock, which moves in `wait` alone.
#[derive(Drop)]
pub struct SceneNetwork<'a> {
    pub scene: Scene<'a>,
}

impl<'a> Network for SceneNetwork<'a> {
    type Listener = SceneListener;

    type Connection = SceneConnection<'a>;

    type Visitor = SceneVisitor<'a>;

    ghost address_of = { λ listener. listener.address };

    ghost listener_place = { λ listener. listener.place };

    fn listen(&mut self, address: SocketAddr, place: usize) -> io::Result<SceneListener> {
        match self.scene.listen(place, address.port()) {
            Ports::Free => Ok(SceneListener { address, place }),
            Ports::InUse => Err(io::Error::from(ErrorKind::AddrInUse)),
            Ports::NotPermitted => Err(io::Error::from(ErrorKind::PermissionDenied)),
        }
    }

    fn accept(
        &mut self,
        listener: &mut SceneListener,
    ) -> io::Result<Option<(SceneConnection<'a>, SocketAddr)>> {
        let place = listener.place;
        let Some((number, address)) = self.scene.accept(place, listener.address.port()) else {
            return Ok(None);
        };
        let connection = SceneConnection {
            scene: self.scene,
            number,
            place,
        };
        Ok(Some((connection, address)))
    }

    fn dial(&mut self, address: SocketAddr, place: usize) -> io::Result<SceneConnection<'a>> {
        match self.scene.dial(place, address.port()) {
            Some(number) => Ok(SceneConnection {
                scene: self.scene,
                number,
                place,
            }),
            None => Err(io::Error::from(ErrorKind::NetworkUnreachable)),
        }
    }

    fn is_connected(&mut self, connection: &mut SceneConnection<'a>) -> io::Result<bool> {
        match self.scene.answer(connection.number) {
            Answer::Made => Ok(true),
            Answer::Nothing => Ok(false),
            Answer::Refused | Answer::Unreachable => {
                Err(io::Error::from(ErrorKind::ConnectionRefused))
            }
        }
    }

    fn visitor(&mut self) -> Option<SceneVisitor<'a>> {
        let coming = self.scene.let_in()?;
        Some(SceneVisitor {
            scene: self.scene,
            coming,
        })
    }

    fn wait(&mut self, milliseconds: u64, ready: &mut [Readiness]) -> io::Result<()> {
        self.scene.wait(milliseconds, ready);
        Ok(())
    }

    fn now(&mut self) -> u64 {
        self.scene.clock()
    }

    fn utc(&mut self) -> i64 {
        i64::try_from(self.scene.now()).unwrap_or(0)
    }
}

impl<'a> Connection for SceneConnection<'a> {
    ghost use Rattle.std.specs.Prelude.{⊤};
    ghost use Rattle.njh_wire.specs.Moved.{IsReceived};

    // What moves is compared when the program runs.
    ghost moved = { λ before after came went. ⊤ };

    ghost stops = { λ connection stop. ⊤ };

    ghost place_of = { λ connection. connection.place };

    ghost none = { λ s. tt };

    ghost more = { λ a b c came next_came went next_went first then. tt };

    fn place(&self) -> usize {
        self.place
    }

    fn receive(&mut self, into: &mut [u8]) -> Result<ConnectionRead, ConnectionFault> {
        if self.scene.is_broken(self.number) {
            return Err(ConnectionFault);
        }
        let count = self.scene.read(self.number, self.place, into);
        if count > 0 {
            return Ok(ConnectionRead::Bytes(count));
        }
        if self.scene.has_ended(self.number) {
            return Ok(ConnectionRead::Ended);
        }
        Ok(ConnectionRead::Nothing)
    }

    fn send(&mut self, bytes: &[u8]) -> Result<usize, ConnectionFault> {
        match self.scene.send(self.number, self.place, bytes) {
            Some(count) => Ok(count.min(bytes.len())),
            None => Err(ConnectionFault),
        }
    }

    fn by_tcp(self, _alloc: Global, _role: Role) -> Result<SceneConnection<'a>, AllocError> {
        Ok(self)
    }
}

impl Read for SceneVisitor<'_> {
    fn read(&mut self, buf: &mut [u8]) -> io::Result<usize> {
        if self.coming.is_empty() {
            return Err(io::Error::from(ErrorKind::WouldBlock));
        }
        let count = self.coming.len().min(buf.len());
        let (front, rest) = self.coming.split_at(count);
        buf[..count].copy_from_slice(front);
        self.coming = rest;
        Ok(count)
    }
}

impl Write for SceneVisitor<'_> {
    fn write(&mut self, buf: &[u8]) -> io::Result<usize> {
        self.scene.tell(buf);
        Ok(buf.len())
    }

    fn flush(&mut self) -> io::Result<()> {
        Ok(())
    }
}

impl Write for SceneLog<'_> {
    fn write(&mut self, buf: &[u8]) -> io::Result<usize> {
        let count = self.scene.log(buf).min(buf.len());
        if count == 0 {
            return Err(io::Error::from(ErrorKind::WouldBlock));
        }
        Ok(count)
    }

    fn flush(&mut self) -> io::Result<()> {
        Ok(())
    }
}

impl TableSource for SceneTables<'_> {
    ghost use Rattle.std.specs.Prelude.{⊤};

    type Fault = TableFault;

    ghost gives = { λ _ _. ⊤ };

    fn seen(&self) -> Option<SpoolSeen> {
        self.scene.stands()
    }

    fn changed(&mut self) -> Option<Result<Tables, TableFault>> {
        let text = self.scene.look()?;
        Some(tables_of(self.alloc, text))
    }

    fn read(&mut self) -> Result<Tables, TableFault> {
        tables_of(self.alloc, self.scene.read_table())
    }

    /// The file of any name is the table file as it will be.
    fn read_at(&self, _name: &str) -> Result<Tables, TableFault> {
        tables_of(self.alloc, self.scene.next_table())
    }
}

/// The tables of a text.
fn tables_of(alloc: Global, text: &[u8]) -> Result<Tables, TableFault> {
    Tables::read(alloc, str::from_utf8(text).unwrap_or(""))
}
