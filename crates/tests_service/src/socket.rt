//! What a connection over a socket of this machine says that it took.

use mio::net::TcpStream;
use njh_sockets::{MioConnection, MioNetwork};
use njh_wire::{Connection, Network};
use std::io;
use std::io::{ErrorKind, Read};
use std::net::{Ipv4Addr, Net, SocketAddr};
use std::rt::Clock;

/// The port that is listened on.
const PORT: u16 = 27_523;

/// How many bytes a connection is given at once.
const PIECE: usize = 65_536;

/// More calls than fill the buffers of a connection, and empty them again.
const MANY: u32 = 1_000_000;

/// A connection whose peer reads nothing takes a part of what it is given in the end, and says how
/// much: once it is gone its peer reads as many bytes as it said, and no more.
pub(crate) fn play<R: Net + Clock + Print + AllocGlobal>(rt: &R) -> io::Result<()> {
    let mut network = MioNetwork::new(rt)?;
    let address = SocketAddr::new(Ipv4Addr::LOCALHOST.into(), PORT);
    let mut listener = network.listen(address, 0)?;
    let mut peer = TcpStream::connect(rt, address)?;
    let mut taken = None;
    for _ in 0..MANY {
        if let Some((mut connection, _)) = network.accept(&mut listener)? {
            taken = fill(&mut connection);
            drop(connection);
            break;
        }
    }
    let came = read_all(&mut peer)?;
    match taken {
        Some(taken) if taken == came => println!(rt; "ok tells_how_much_it_took"),
        Some(taken) => println!(rt; "tells_how_much_it_took: {taken} taken, {came} came"),
        None => println!(rt; "tells_how_much_it_took: nothing was taken in part"),
    }
}

/// Gives a connection bytes until it takes fewer than it is given. Answers how many it took in all;
/// `None` if it always took all, or failed.
fn fill(connection: &mut MioConnection) -> Option<usize> {
    let bytes = [0; PIECE];
    let mut taken: usize = 0;
    for _ in 0..MANY {
        let Ok(count) = connection.send(&bytes) else {
            return None;
        };
        taken = taken.saturating_add(count);
        if 0 < count && count < PIECE {
            return Some(taken);
        }
    }
    None
}

/// Reads until the other end is gone. Answers how many bytes came.
fn read_all(peer: &mut TcpStream) -> io::Result<usize> {
    let mut bytes = [0; PIECE];
    let mut came: usize = 0;
    for _ in 0..MANY {
        match peer.read(&mut bytes) {
            Ok(0) => return Ok(came),
            Ok(count) => came = came.saturating_add(count),
            Err(error) if error.kind() == ErrorKind::WouldBlock => {}
            Err(error) => return Err(error),
        }
    }
    Ok(came)
}
