//! The connection of a line, by its protocol.

ghost use Rattle.std.specs.Prelude.{◌≡◌, take, length};
ghost use Rattle.njh_tcpwire.specs.LineConnections.{contact_of};

use crate::connection::TcpConnection;
use njh_table::Role;
use njh_tcp::Contact;
use njh_wire::{Connection, ConnectionFault, ConnectionRead, Saying};
use std::alloc::{AllocError, Global};

/// A connection of a line, which has the bytes of a bisync line or brings them in TTBs.
#[derive(Drop)]
pub enum LineConnection<C: Connection + Drop> {
    /// Of a bisync line.
    Bisync(C),
    /// Of a line over TCP/IP.
    Tcp(TcpConnection<C>),
}

impl<C: Connection + Drop> Connection for LineConnection<C> {
    ghost use Rattle.njh_tcpwire.specs.LineConnections.{line_moved, line_place, line_said, line_stops};
    ghost use Rattle.njh_tcpwire.specs.LineConnections.{IsOverTcp};
    ghost use Rattle.njh_tcpwire.specs.code.LineLaws.{line_more, line_none};

    ghost moved = { λ before after came went. line_moved C.moved before after came went };

    ghost stops = { λ connection stop. line_stops C.stops connection stop };

    ghost said = { λ before after saying. line_said C.said before after saying };

    ghost place_of = { λ connection. line_place C.place_of connection };

    ghost over_tcp = { λ role before after. IsOverTcp role before after };

    ghost none = { λ s. line_none C.moved C.none s };

    ghost more = { λ a b c came next_came went next_went first then.
        line_more C.moved C.more a b c came next_came went next_went first then };

    fn place(&self) -> usize {
        match self {
            LineConnection::Bisync(connection) => connection.place(),
            LineConnection::Tcp(connection) => connection.place(),
        }
    }

    fn receive(&mut self, into: &mut [u8]) -> Result<ConnectionRead, ConnectionFault> {
        match self {
            LineConnection::Bisync(connection) => connection.receive(into),
            LineConnection::Tcp(connection) => connection.receive(into),
        }
    }

    fn send(&mut self, bytes: &[u8]) -> Result<usize, ConnectionFault> {
        match self {
            LineConnection::Bisync(connection) => connection.send(bytes),
            LineConnection::Tcp(connection) => connection.send(bytes),
        }
    }

    fn acknowledge(&mut self, into: &mut [u8]) -> usize {
        match self {
            LineConnection::Bisync(connection) => connection.acknowledge(into),
            LineConnection::Tcp(connection) => connection.acknowledge(into),
        }
    }

    fn by_tcp(self, alloc: Global, role: Role) -> Result<LineConnection<C>, AllocError> {
        match self {
            LineConnection::Bisync(connection) => {
                let made = TcpConnection::new(alloc, connection, contact_of(role))?;
                Ok(LineConnection::Tcp(made))
            }
            LineConnection::Tcp(connection) => Ok(LineConnection::Tcp(connection)),
        }
    }

    fn say(&mut self, saying: Saying) {
        match self {
            LineConnection::Bisync(connection) => connection.say(saying),
            LineConnection::Tcp(connection) => connection.say(saying),
        }
    }

    fn shut(&mut self) -> bool {
        match self {
            LineConnection::Bisync(connection) => connection.shut(),
            LineConnection::Tcp(connection) => connection.shut(),
        }
    }
}

/// What the contact is to be at the end of this role: who dials calls.
fn contact_of(role: Role) -> Contact
    ensures { result ≡ contact_of role }
{
    match role {
        Role::Call => Contact::Calling,
        Role::Answer => Contact::Called,
    }
}
