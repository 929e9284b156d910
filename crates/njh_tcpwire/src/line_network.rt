//! A network whose connections are those of lines of either protocol.

ghost use Rattle.std.specs.Prelude.{◌≡◌, IfOk};
ghost use Rattle.njh_wire.specs.Places.{IsTaken};

use crate::line_connection::LineConnection;
use njh_wire::{Network, Readiness};
use std::io;
use std::net::SocketAddr;

/// A network whose connections are those of lines of either protocol. Each carries bytes at first.
#[derive(Drop)]
pub struct LineNetwork<N: Network + Drop> {
    inner: N,
}

impl<N: Network + Drop> LineNetwork<N> {
    /// One over this network.
    pub fn over(inner: N) -> LineNetwork<N> {
        LineNetwork { inner }
    }
}

impl<N: Network + Drop> Network for LineNetwork<N> {
    type Listener = N::Listener;

    type Connection = LineConnection<N::Connection>;

    type Visitor = N::Visitor;

    ghost address_of = { λ listener. N.address_of listener };

    ghost listener_place = { λ listener. N.listener_place listener };

    fn listen(&mut self, address: SocketAddr, place: usize) -> io::Result<N::Listener> {
        self.inner.listen(address, place)
    }

    fn accept(
        &mut self,
        listener: &mut N::Listener,
    ) -> io::Result<Option<(LineConnection<N::Connection>, SocketAddr)>> {
        match self.inner.accept(listener) {
            Ok(Some((connection, from))) => Ok(Some((LineConnection::Bisync(connection), from))),
            Ok(None) => Ok(None),
            Err(error) => Err(error),
        }
    }

    fn dial(
        &mut self,
        address: SocketAddr,
        place: usize,
    ) -> io::Result<LineConnection<N::Connection>> {
        match self.inner.dial(address, place) {
            Ok(connection) => Ok(LineConnection::Bisync(connection)),
            Err(error) => Err(error),
        }
    }

    fn is_connected(&mut self, connection: &mut LineConnection<N::Connection>) -> io::Result<bool> {
        match connection {
            LineConnection::Bisync(connection) => self.inner.is_connected(connection),
            LineConnection::Tcp(_) => Ok(true),
        }
    }

    fn visitor(&mut self) -> Option<N::Visitor> {
        self.inner.visitor()
    }

    fn wait(&mut self, milliseconds: u64, ready: &mut [Readiness]) -> io::Result<()> {
        self.inner.wait(milliseconds, ready)
    }

    fn now(&mut self) -> u64 {
        self.inner.now()
    }

    fn utc(&mut self) -> i64 {
        self.inner.utc()
    }
}
