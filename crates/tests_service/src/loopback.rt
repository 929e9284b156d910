//! A service over sockets of this machine, turn by turn beside its peers.

use crate::serving::{Plan, Player, Rounds, serve};
use crate::texts::bytes_of;
use mio::net::TcpStream;
use njh_log::LogStyle;
use njh_revision::NoSource;
use njh_sites::Listening;
use njh_sockets::MioNetwork;
use std::alloc::Global;
use std::io;
use std::io::{ErrorKind, Read, Write};
use std::net::{IpAddr, Ipv4Addr, Net, SocketAddr};
use std::rt::Clock;

/// The ports of the two lines.
const FIRST: u16 = 27_521;

const OTHER: u16 = 27_522;

const CONTACT: &[u8] = b"\x01\x2d";

const ANSWER: [u8; 2] = *b"\x10\x70";

/// How a text begins.
const TEXT: [u8; 2] = *b"\x10\x02";

/// How many contacts are sent at once: with a sign-on behind them no more bytes than a turn takes.
const CONTACTS: usize = 2000;

/// Within so many turns a peer is answered.
const TURNS: u32 = 100;

/// More turns than fill the buffers of a connection and pass a second.
const MANY: u32 = 1_000_000;

/// One line's peer closes, connects again, takes no answer until it is dropped, and connects again.
/// All the while the other line's peer is answered. Says what of it isn't so.
pub(crate) fn play<R: Net + Clock + Print + AllocGlobal>(
    rt: &R,
    texts: &str,
    tables: &str,
) -> io::Result<()> {
    let network = MioNetwork::new(rt)?;
    let sign_on = bytes_of(rt.alloc(), texts, "@sign_on_lyon")?;
    let flood = flood_of(rt.alloc(), &sign_on)?;
    let plan = Plan {
        alloc: rt.alloc(),
        tables,
        listening: Listening {
            address: IpAddr::V4(Ipv4Addr::LOCALHOST),
            strict: false,
        },
        style: LogStyle::PLAIN,
    };
    let mut peers = Peers {
        rt,
        sign_on: sign_on.as_slice(),
        flood: flood.as_slice(),
        wrong: Some("lines are not served"),
    };
    serve(plan, network, io::sink(), NoSource, &mut peers)?;
    match peers.wrong {
        None => println!(rt; "ok closes_stalls_and_connects_again"),
        Some(wrong) => println!(rt; "closes_stalls_and_connects_again: {wrong}"),
    }
}

/// Plays the peers, on sockets of this machine.
#[derive(Drop)]
struct Peers<'a, R> {
    rt: &'a R,
    /// A sign-on that fits the first line.
    sign_on: &'a [u8],
    /// What is sent again and again.
    flood: &'a [u8],
    /// What isn't as it is to be.
    wrong: Option<&'static str>,
}

impl<R: Net> Player for Peers<'_, R> {
    fn play<H: Rounds>(&mut self, hub: &mut H) -> io::Result<bool> {
        self.wrong = self.try_lines(hub)?;
        Ok(true)
    }
}

/// Contacts, and a sign-on behind them: whoever is in a session is then in a session again, of which
/// a read has many frames.
fn flood_of(alloc: Global, sign_on: &[u8]) -> io::Result<Vec<u8>> {
    let mut flood = Vec::new(alloc);
    for _ in 0..CONTACTS {
        flood.extend_from_slice(CONTACT)?;
    }
    flood.extend_from_slice(sign_on)?;
    Ok(flood)
}

impl<R: Net> Peers<'_, R> {
    /// All that is tried, in its order. What isn't as it is to be.
    fn try_lines<H: Rounds>(&self, hub: &mut H) -> io::Result<Option<&'static str>> {
        let rt = self.rt;
        if !is_refused(rt, hub)? {
            return Ok(Some("127.0.0.2 isn't refused"));
        }
        let mut other = connect(rt, 1, OTHER)?;
        if !is_answered(hub, &mut other)? {
            return Ok(Some("the other line"));
        }
        if !comes_and_goes(rt, hub)? {
            return Ok(Some("the first peer"));
        }
        if !is_answered(hub, &mut other)? {
            return Ok(Some("the other line, then"));
        }
        if !self.stalls(hub, &mut other)? {
            return Ok(Some("a peer that stalls"));
        }
        if !comes_and_goes(rt, hub)? {
            return Ok(Some("the next peer"));
        }
        Ok(None)
    }

    /// A peer of the first line signs on, sends contacts and reads no answer. Says whether it was
    /// dropped, and the other line's peer answered all the while.
    fn stalls<H: Rounds>(&self, hub: &mut H, other: &mut TcpStream) -> io::Result<bool> {
        let mut peer = connect(self.rt, 1, FIRST)?;
        if !is_answered(hub, &mut peer)? || !is_told(hub, &mut peer, self.sign_on, TEXT)? {
            return Ok(false);
        }
        let mut left = self.flood;
        for _ in 0..MANY {
            if left.is_empty() {
                left = self.flood;
            }
            match rest_of(&mut peer, left) {
                Ok(rest) => left = rest,
                Err(_) => return Ok(true),
            }
            if !is_answered(hub, other)? {
                return Ok(false);
            }
        }
        Ok(false)
    }
}

/// A connection to an address of this machine that is begun.
fn connect<R: Net>(rt: &R, last: u8, port: u16) -> io::Result<TcpStream> {
    let address = SocketAddr::new(Ipv4Addr::new(127, 0, 0, last).into(), port);
    TcpStream::connect(rt, address)
}

/// A peer of the first line makes contact, and closes. Says whether it was answered.
fn comes_and_goes<H: Rounds, R: Net>(rt: &R, hub: &mut H) -> io::Result<bool> {
    let mut peer = connect(rt, 1, FIRST)?;
    is_answered(hub, &mut peer)
}

/// Whether nobody listens at another address of this machine.
fn is_refused<H: Rounds, R: Net>(rt: &R, hub: &mut H) -> io::Result<bool> {
    let peer = match connect(rt, 2, FIRST) {
        Ok(peer) => peer,
        Err(error) => return Ok(error.kind() == ErrorKind::ConnectionRefused),
    };
    for _ in 0..TURNS {
        hub.round();
        if let Some(error) = peer.take_error()? {
            return Ok(error.kind() == ErrorKind::ConnectionRefused);
        }
        if peer.peer_addr().is_ok() {
            return Ok(false);
        }
    }
    Ok(false)
}

/// A peer makes contact. Says whether it is answered.
fn is_answered<H: Rounds>(hub: &mut H, peer: &mut TcpStream) -> io::Result<bool> {
    is_told(hub, peer, CONTACT, ANSWER)
}

/// A peer sends these bytes. Says whether what it is answered begins so.
fn is_told<H: Rounds>(
    hub: &mut H,
    peer: &mut TcpStream,
    bytes: &[u8],
    wanted: [u8; 2],
) -> io::Result<bool> {
    let mut is_sent = false;
    for _ in 0..TURNS {
        is_sent = is_sent || count_taken(peer, bytes)? > 0;
        hub.round();
        if let Some(answer) = heard(peer)? {
            return Ok(answer == wanted);
        }
    }
    Ok(false)
}

/// How many of these bytes a connection takes now.
fn count_taken(peer: &mut TcpStream, bytes: &[u8]) -> io::Result<usize> {
    match peer.write(bytes) {
        Ok(count) => Ok(count),
        Err(error) if is_early(error.kind()) => Ok(0),
        Err(error) => Err(error),
    }
}

/// What is left of these bytes once a connection took what it takes now.
fn rest_of<'a>(peer: &mut TcpStream, bytes: &'a [u8]) -> io::Result<&'a [u8]> {
    let count = count_taken(peer, bytes)?.min(bytes.len());
    let (_, rest) = bytes.split_at(count);
    Ok(rest)
}

/// The first two bytes of the answer that has come, if one has. What isn't two bytes is no answer,
/// and counts as two of 00.
fn heard(peer: &mut TcpStream) -> io::Result<Option<[u8; 2]>> {
    let mut answer = [0; 2];
    match peer.read(&mut answer) {
        Ok(2) => Ok(Some(answer)),
        Ok(_) => Ok(Some([0; 2])),
        Err(error) if is_early(error.kind()) => Ok(None),
        Err(error) => Err(error),
    }
}

/// Whether a later call may do what this one didn't.
fn is_early(kind: ErrorKind) -> bool {
    match kind {
        ErrorKind::WouldBlock | ErrorKind::NotConnected | ErrorKind::Interrupted => true,
        _ => false,
    }
}
