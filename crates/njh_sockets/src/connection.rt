//! A connection over a socket.

use mio::net::TcpStream;
use njh_table::Role;
use njh_wire::{Connection, ConnectionFault, ConnectionRead};
use std::alloc::{AllocError, Global};
use std::io::{ErrorKind, Read, Write};
use std::net::Shutdown;

/// A connection over a socket whose calls never wait.
#[derive(Drop)]
pub struct MioConnection {
    pub(crate) stream: TcpStream,
    /// The place of its line among those that are served.
    pub(crate) place: usize,
}

impl Connection for MioConnection {
    ghost use Rattle.std.specs.Prelude.{⊤};

    // No clause says what a socket takes and gives, so this holds of any two states. That the bytes
    // are right is tested.
    ghost moved = { λ before after came went. ⊤ };

    ghost stops = { λ connection stop. ⊤ };

    ghost place_of = { λ connection. connection.place };

    ghost none = { λ s. tt };

    ghost more = { λ a b c came next_came went next_went first then. tt };

    fn place(&self) -> usize {
        self.place
    }

    fn receive(&mut self, into: &mut [u8]) -> Result<ConnectionRead, ConnectionFault> {
        match self.stream.read(into) {
            Ok(0) => Ok(ConnectionRead::Ended),
            Ok(count) => Ok(ConnectionRead::Bytes(count)),
            Err(error) if is_wait(error.kind()) => Ok(ConnectionRead::Nothing),
            Err(_) => Err(ConnectionFault),
        }
    }

    fn send(&mut self, bytes: &[u8]) -> Result<usize, ConnectionFault> {
        match self.stream.write(bytes) {
            Ok(count) => Ok(count),
            Err(error) if is_wait(error.kind()) => Ok(0),
            Err(_) => Err(ConnectionFault),
        }
    }

    fn by_tcp(self, _alloc: Global, _role: Role) -> Result<MioConnection, AllocError> {
        Ok(self)
    }

    fn shut(&mut self) -> bool {
        // One that can't be shut sends no more either.
        let _ = self.stream.shutdown(Shutdown::Write);
        true
    }
}

/// The call would have waited; a later one may do more.
pub(crate) fn is_wait(kind: ErrorKind) -> bool {
    match kind {
        ErrorKind::WouldBlock | ErrorKind::Interrupted => true,
        _ => false,
    }
}
