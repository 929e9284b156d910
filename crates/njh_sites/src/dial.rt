//! When a line is dialled.

ghost use Rattle.std.specs.Prelude.{◌≡◌, ◌↔◌, IsTrue, IsSome, true, false};
ghost use Rattle.njh_sites.specs.Dialling.{connection_in, dial_moment, failed, given_up_at, lost, next_dial};
ghost use Rattle.njh_sites.specs.Dialling.{pause_after, pause_behind, pause_now, resumed, IsAsking};
ghost use Rattle.njh_sites.specs.Dialling.{IsDialling, IsToCome};
ghost use Rattle.njh_sites.specs.declared.dial.DialState.TheVariants.{Connected, Dialling, Resting};

use njh_open::Caller;
use njh_wire::Network;
use std::io;
use std::net::SocketAddr;

/// How long after a session, or after a first failure, the next dial comes, in milliseconds.
const SOON: u64 = 1_000;

/// How long after a further failure it comes.
const LATER: u64 = 10_000;

/// How long after a connection without a session it comes at most.
const LONGEST: u64 = 60_000;

/// How long a dial may take.
const PATIENCE: u64 = 10_000;

/// The dials of a line: each is a connection that isn't made yet.
#[derive(Drop)]
pub struct Dial<C: Drop> {
    /// Where to.
    pub address: SocketAddr,
    /// What becomes of the dial.
    pub state: DialState<C>,
    /// Whether a dial failed since the last connection was made.
    pub has_failed: bool,
    /// For how long no dial comes after the next connection that ends without a session.
    pub pause: u64,
}

/// What becomes of a dial.
#[derive(Drop)]
pub enum DialState<C: Drop> {
    /// The next comes at this moment.
    Resting(u64),
    /// This connection isn't made yet, and is given up at this moment.
    Dialling(C, u64),
    /// This one was made to the peer of a line over TCP/IP, and its OPEN isn't answered yet.
    Asking(C, Caller),
    /// The line has a connection.
    Connected,
}

impl<C: Drop> Dial<C> {
    /// Dials to an address, of which the first comes at once.
    pub fn new(address: SocketAddr) -> Dial<C>
        ensures { result ≡ record { address = address; state = Resting 0; has_failed = false; pause = 1000 } }
    {
        Dial {
            address,
            state: DialState::Resting(0),
            has_failed: false,
            pause: SOON,
        }
    }

    /// Where to.
    pub fn address(&self) -> SocketAddr
        ensures { result ≡ self.now.address }
    {
        self.address
    }

    /// Whether a dial failed since the last connection was made.
    pub fn has_failed(&self) -> bool
        ensures { result ≡ self.now.has_failed }
    {
        self.has_failed
    }

    /// When it wants to be looked at.
    pub fn moment(&self) -> u64
        ensures { result ≡ dial_moment self.now.state }
    {
        match &self.state {
            DialState::Resting(moment) => *moment,
            DialState::Dialling(_, moment) => *moment,
            DialState::Asking(_, caller) => caller.deadline(),
            DialState::Connected => u64::MAX,
        }
    }

    /// Whether a dial is to come now.
    pub fn is_to_come(&self, now: u64) -> bool
        ensures { IsTrue result ↔ IsToCome self.now.state now }
    {
        match &self.state {
            DialState::Resting(moment) => *moment <= now,
            DialState::Dialling(_, _) => false,
            DialState::Asking(_, _) => false,
            DialState::Connected => false,
        }
    }

    /// Whether an answer to an OPEN is waited for.
    pub fn is_asking(&self) -> bool
        ensures { IsTrue result ↔ IsAsking self.now.state }
    {
        match &self.state {
            DialState::Resting(_) => false,
            DialState::Dialling(_, _) => false,
            DialState::Asking(_, _) => true,
            DialState::Connected => false,
        }
    }

    /// What the network says of the connection that isn't made yet, if there is one.
    pub fn ask<N: Network<Connection = C>>(&mut self, network: &mut N) -> Option<io::Result<bool>>
        ensures asked { IsSome result ↔ IsDialling self.old.state }
        ensures under_way { IsSome result → IsSome (connection_in self.old.state) }
        ensures address { self.new.address ≡ self.old.address }
    {
        match &mut self.state {
            DialState::Resting(_) => None,
            DialState::Dialling(connection, _) => Some(network.is_connected(connection)),
            DialState::Asking(_, _) => None,
            DialState::Connected => None,
        }
    }

    /// A dial has begun.
    pub fn begin(&mut self, connection: C, now: u64)
        ensures { self.new ≡ record self.old { state = Dialling connection (given_up_at now) } }
    {
        self.state = DialState::Dialling(connection, now.saturating_add(PATIENCE));
    }

    /// A dial failed.
    pub fn fail(&mut self, now: u64)
        ensures { self.new ≡ failed self.old now }
    {
        self.rest(now);
        self.has_failed = true;
    }

    /// The connection was made. Answers it.
    pub fn take(&mut self) -> Option<C>
        ensures connection { result ≡ connection_in self.old.state }
        ensures taken { self.new ≡ record self.old { state = Connected; has_failed = false } }
    {
        let mut state = DialState::Connected;
        std::mem::swap(&mut state, &mut self.state);
        self.has_failed = false;
        match state {
            DialState::Resting(_) => None,
            DialState::Dialling(connection, _) => Some(connection),
            DialState::Asking(connection, _) => Some(connection),
            DialState::Connected => None,
        }
    }

    /// The line has no connection any more; a session was up on it, or none was.
    pub fn lose(&mut self, had_session: bool, now: u64)
        ensures { self.new ≡ lost had_session self.old now }
    {
        self.pause = pause_now(had_session, self.pause);
        self.rest(now);
        self.pause = pause_behind(had_session, self.pause);
    }

    /// Nobody is dialled. A dial that is under way is given up.
    pub fn halt(&mut self)
        ensures { self.new ≡ record self.old { state = Resting 18446744073709551615 } }
    {
        self.state = DialState::Resting(u64::MAX);
    }

    /// The next dial comes now, if none is under way and the line has no connection.
    pub fn resume(&mut self, now: u64)
        ensures { self.new ≡ resumed self.old now }
    {
        match &mut self.state {
            DialState::Resting(moment) => *moment = now,
            DialState::Dialling(_, _) => {}
            DialState::Asking(_, _) => {}
            DialState::Connected => {}
        }
    }

    /// The next dial comes after the pause.
    fn rest(&mut self, now: u64)
        ensures { self.new ≡ record self.old { state = Resting (next_dial self.old.has_failed self.old.pause now) } }
    {
        let pause = pause_after(self.has_failed, self.pause);
        self.state = DialState::Resting(now.saturating_add(pause));
    }
}

/// For how long no dial comes.
fn pause_after(has_failed: bool, pause: u64) -> u64
    ensures { result ≡ pause_after has_failed pause }
{
    let least = if has_failed { LATER } else { SOON };
    if least < pause { pause } else { least }
}

/// For how long none comes after a connection on which a session was up, or none was.
fn pause_now(had_session: bool, pause: u64) -> u64
    ensures { result ≡ pause_now had_session pause }
{
    if had_session { SOON } else { pause }
}

/// For how long none comes after the next one without a session, then.
fn pause_behind(had_session: bool, pause: u64) -> u64
    ensures { result ≡ pause_behind had_session pause }
{
    if had_session {
        SOON
    } else {
        pause.saturating_mul(2).min(LONGEST)
    }
}
