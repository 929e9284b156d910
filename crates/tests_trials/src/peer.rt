//! A peer at the other end of a line that the program dials: it listens on this machine, and plays
//! what is stored of a line.

use std::alloc::{AllocError, Global};
use std::io;
use std::io::{Read, Write};
use std::net::{Ipv4Addr, Net, SocketAddr, TcpListener, TcpStream};
use std::time::Duration;

/// How many seconds the peer waits for bytes, once the program has ended.
const PATIENCE: u64 = 1;

/// A peer that listens.
#[derive(Drop)]
pub struct Peer<'a> {
    listener: TcpListener,
    /// All that it sends, once the program is connected.
    text: &'a [u8],
    connection: Option<TcpStream>,
}

impl<'a> Peer<'a> {
    /// It listens on a free port, and is to send this.
    pub fn new<R: Net<Listener = TcpListener, Stream = TcpStream>>(
        rt: &R,
        text: &'a [u8],
    ) -> io::Result<Peer<'a>> {
        let address = SocketAddr::new(Ipv4Addr::LOCALHOST.into(), 0);
        let listener = TcpListener::bind(rt, address)?;
        listener.set_nonblocking(true)?;
        Ok(Peer {
            listener,
            text,
            connection: None,
        })
    }

    /// The port on which it listens.
    pub fn port(&self) -> io::Result<u16> {
        Ok(self.listener.local_addr()?.port())
    }

    /// The program wrote to its log: if it has just connected, the peer sends all that it sends.
    pub(crate) fn look(&mut self) {
        if self.connection.is_some() {
            return;
        }
        if let Ok((mut connection, _)) = self.listener.accept() {
            let _sent = connection.write_all(self.text).is_ok();
            self.connection = Some(connection);
        }
    }

    /// All that it was sent, once the program has ended; nothing if the program never connected.
    pub(crate) fn heard(&mut self, alloc: Global) -> Result<Vec<u8>, AllocError> {
        let mut heard = Vec::new(alloc);
        if let Some(connection) = self.connection.as_mut() {
            let _ends = connection
                .set_read_timeout(Some(Duration::from_secs(PATIENCE)))
                .is_ok();
            let _whole = connection.read_to_end(&mut heard).is_ok();
        }
        Ok(heard)
    }
}
