//! What a service needs of a network and its clocks.

ghost use Rattle.std.specs.Prelude.{◌≡◌, ◌↔◌, IfOk};
ghost use Rattle.std.specs.Option.{option_map};
ghost use Rattle.njh_wire.specs.Places.{IsTaken};

use crate::connection::Connection;
use std::io;
use std::io::{Read, Write};
use std::net::SocketAddr;

/// What is ready of a line.
#[derive(Clone, Copy, Debug, PartialEq, Eq)]
pub struct Readiness {
    /// Somebody waits to be accepted.
    pub listener: bool,
    /// The connection has something to read.
    pub reads: bool,
    /// The connection takes bytes again, or one that was dialled was made or refused.
    pub writes: bool,
}

/// The sockets of a service, its clocks, and the wait for them. `place` is a line's place among
/// those that are served.
pub trait Network {
    ghost use Rattle.std.specs.Prelude.{ℕ};
    ghost use Rattle.std.specs.declared.net.socket_addr.SocketAddr.{SocketAddr};

    /// A socket that listens.
    type Listener: Drop;

    /// A connection of a line.
    type Connection: Connection + Drop;

    /// A visitor of the operator's console, whose calls never wait.
    type Visitor: Read + Write + Drop;

    /// Where a listener listens.
    ghost address_of: { Self.Listener → SocketAddr };

    /// The place of the line that it listens for.
    ghost listener_place: { Self.Listener → ℕ };

    /// Listens on an address for a line.
    fn listen(&mut self, address: SocketAddr, place: usize) -> io::Result<Self::Listener>
        ensures address { IfOk result (λ listener. address_of listener ≡ address) }
        ensures place { IfOk result (λ listener. listener_place listener ≡ place) };

    /// Takes a connection that waits, which is of the listener's line, and says of whom it is.
    /// `None`: nobody waits.
    fn accept(
        &mut self,
        listener: &mut Self::Listener,
    ) -> io::Result<Option<(Self::Connection, SocketAddr)>>
        ensures address { address_of listener.new ≡ address_of listener.old }
        ensures place { listener_place listener.new ≡ listener_place listener.old }
        ensures taken { IfOk result (IsTaken Self.Connection.place_of (listener_place listener.old)) };

    /// Begins to connect to an address, for a line.
    fn dial(&mut self, address: SocketAddr, place: usize) -> io::Result<Self::Connection>
        ensures place { IfOk result (λ connection. Self.Connection.place_of connection ≡ place) };

    /// Whether a connection that was dialled was made. A fault where it was refused.
    fn is_connected(&mut self, connection: &mut Self::Connection) -> io::Result<bool>
        ensures place { Self.Connection.place_of connection.new ≡ Self.Connection.place_of connection.old };

    /// A visitor of the console that waits to be let in. `None`: nobody waits, or there is no
    /// console.
    fn visitor(&mut self) -> Option<Self::Visitor>;

    /// Waits until something is ready, of a line or of the console, so many milliseconds at
    /// most, and marks what is ready of each line, by place. Clears no mark.
    fn wait(&mut self, milliseconds: u64, ready: &mut [Readiness]) -> io::Result<()>;

    /// Milliseconds on a clock that never goes back.
    fn now(&mut self) -> u64;

    /// Milliseconds since the beginning of 1970, in UTC, for the log.
    fn utc(&mut self) -> i64;
}
