//! The sockets of this machine, by readiness, and its clocks.

ghost use Rattle.std.specs.Prelude.{◌≡◌, ◌≤◌, ◌≤ℤ◌, pos, IfOk, length};

use crate::connection::{MioConnection, is_wait};
use crate::console_socket::{ConsoleFault, accept_visitor, listen_at};
use mio::event::Event;
use mio::net::{TcpListener, TcpStream, UnixListener, UnixStream};
use mio::{Events, Interest, Poll, Token};
use njh_wire::{Network, Readiness};
use std::alloc::Global;
use std::fs::Files;
use std::io;
use std::io::ErrorKind;
use std::marker::Model;
use std::net::{Net, SocketAddr};
use std::time::{Clock, Duration, Instant, SystemTime, UNIX_EPOCH};

/// How many events one wait gives at most; what is left is given by the next.
const EVENTS: usize = 512;

/// The console's listener and its visitors have numbers that no line has.
const CONSOLE: Token = Token(usize::MAX);

const VISITOR: Token = Token(usize::MAX - 1);

/// A socket that listens.
#[derive(Drop)]
pub struct MioListener {
    inner: TcpListener,
    address: SocketAddr,
    /// The place of its line among those that are served.
    place: usize,
}

/// The sockets of this machine and its clocks.
#[derive(Drop)]
pub struct MioNetwork<'a, R: Net + Clock> {
    rt: &'a R,
    poll: Poll,
    events: Events<Global>,
    start: Instant,
    now: u64,
    /// Where the console's visitors come in.
    console: Option<UnixListener>,
    /// Somebody may wait there.
    has_visitors: bool,
}

impl<'a, R: Net + Clock> Model for MioNetwork<'a, R> {
    ghost use Rattle.std.specs.Prelude.{ℕ};

    // what its clock showed last, in milliseconds
    ghost Value = { ℕ };

    ghost view = { λ network. network.now };
}

impl<'a, R: Net + Clock + AllocGlobal> MioNetwork<'a, R> {
    /// No sockets yet. Its clock begins now.
    pub fn new(rt: &'a R) -> io::Result<MioNetwork<'a, R>>
        ensures { IfOk result (λ network. network ≡ 0) }
    {
        Ok(MioNetwork {
            rt,
            poll: Poll::new(rt)?,
            events: Events::with_capacity(rt.alloc(), EVENTS)?,
            start: Instant::now(rt)?,
            now: 0,
            console: None,
            has_visitors: false,
        })
    }
}

impl<'a, R: Net + Clock + Files> MioNetwork<'a, R> {
    /// Lets the console's visitors in at this path, whose folder has to be its owner's alone. A
    /// socket there that nobody answers is replaced.
    pub fn open_console(&mut self, path: &str) -> Result<(), ConsoleFault>
        ensures clock { self.new ≡ self.old }
    {
        let mut listener = listen_at(self.rt, path)?;
        let registry = self.poll.registry();
        match registry.register(&mut listener, CONSOLE, Interest::READABLE) {
            Ok(()) => {
                self.console = Some(listener);
                self.has_visitors = true;
                Ok(())
            }
            Err(_) => Err(ConsoleFault::Device),
        }
    }
}

impl<'a, R: Net + Clock> Network for MioNetwork<'a, R> {
    type Listener = MioListener;

    type Connection = MioConnection;

    type Visitor = UnixStream;

    ghost address_of = { λ listener. listener.address };

    ghost listener_place = { λ listener. listener.place };

    fn listen(&mut self, address: SocketAddr, place: usize) -> io::Result<MioListener> {
        let mut inner = TcpListener::bind(self.rt, address)?;
        self.poll
            .registry()
            .register(&mut inner, listener_token(place), Interest::READABLE)?;
        Ok(MioListener {
            inner,
            address,
            place,
        })
    }

    fn accept(
        &mut self,
        listener: &mut MioListener,
    ) -> io::Result<Option<(MioConnection, SocketAddr)>> {
        match listener.inner.accept() {
            Ok((stream, from)) => {
                stream.set_nodelay(true)?;
                Ok(Some((watched(&self.poll, stream, listener.place)?, from)))
            }
            Err(error) if is_wait(error.kind()) => Ok(None),
            Err(error) => Err(error),
        }
    }

    fn dial(&mut self, address: SocketAddr, place: usize) -> io::Result<MioConnection> {
        watched(&self.poll, TcpStream::connect(self.rt, address)?, place)
    }

    fn is_connected(&mut self, connection: &mut MioConnection) -> io::Result<bool> {
        match connection.stream.take_error()? {
            Some(error) => Err(error),
            None => has_peer(&connection.stream),
        }
    }

    fn visitor(&mut self) -> Option<UnixStream> {
        if !self.has_visitors {
            return None;
        }
        let visitor = match &self.console {
            Some(console) => accept_visitor(console, &self.poll, VISITOR),
            None => None,
        };
        self.has_visitors = visitor.is_some();
        visitor
    }

    fn wait(&mut self, milliseconds: u64, ready: &mut [Readiness]) -> io::Result<()> {
        self.poll.poll(&mut self.events, Some(Duration::from_millis(milliseconds)))?;
        for event in &self.events {
            if event.token() == CONSOLE {
                self.has_visitors = true;
            }
            note(ready, event);
        }
        Ok(())
    }

    fn now(&mut self) -> u64
        ensures shown { result ≡ self.new }
        ensures rises { self.old ≤ self.new }
    {
        match self.start.elapsed(self.rt) {
            Ok(time) => self.now = self.now.max(milliseconds_of(time)),
            Err(_) => {}
        }
        self.now
    }

    fn utc(&mut self) -> i64 {
        utc_milliseconds(self.rt)
    }
}

/// Milliseconds since the beginning of 1970, 0 if the clock fails or shows an earlier time.
pub fn utc_milliseconds<R: Clock>(rt: &R) -> i64
    ensures { pos 0 ≤ℤ result }
{
    match SystemTime::now(rt) {
        Ok(time) => milliseconds_since_1970(time),
        Err(_) => 0,
    }
}

/// Has a connection of a line reported.
fn watched(poll: &Poll, mut stream: TcpStream, place: usize) -> io::Result<MioConnection>
    ensures { IfOk result (λ connection. connection.place ≡ place) }
{
    let interest = Interest::READABLE | Interest::WRITABLE;
    poll.registry()
        .register(&mut stream, connection_token(place), interest)?;
    Ok(MioConnection { stream, place })
}

/// Whether a connection that was dialled has a peer by now.
fn has_peer(stream: &TcpStream) -> io::Result<bool> {
    match stream.peer_addr() {
        Ok(_) => {
            stream.set_nodelay(true)?;
            Ok(true)
        }
        Err(error) if error.kind() == ErrorKind::NotConnected => Ok(false),
        Err(error) => Err(error),
    }
}

/// A line's listener has an even number, its connection the odd one above.
fn listener_token(place: usize) -> Token {
    Token(place.saturating_mul(2))
}

fn connection_token(place: usize) -> Token {
    Token(place.saturating_mul(2) | 1)
}

/// Notes what an event says to be ready of its line, if there is such a line.
fn note(ready: &mut [Readiness], event: &Event)
    ensures { length ready.new ≡ length ready.old }
{
    let Token(token) = event.token();
    match ready.get_mut(token / 2) {
        Some(line) if token % 2 == 0 => line.listener = true,
        Some(line) => note_connection(line, event),
        None => {}
    }
}

/// Notes what is ready of a connection. One that failed is ready for both: the call that follows
/// says so.
fn note_connection(line: &mut Readiness, event: &Event) {
    if event.is_readable() || event.is_read_closed() || event.is_error() {
        line.reads = true;
    }
    if event.is_writable() || event.is_write_closed() || event.is_error() {
        line.writes = true;
    }
}

fn milliseconds_of(time: Duration) -> u64 {
    u64::try_from(time.as_millis()).unwrap_or(u64::MAX)
}

/// None if the clock shows a time before 1970.
fn milliseconds_since_1970(time: SystemTime) -> i64
    ensures { pos 0 ≤ℤ result }
{
    match time.duration_since(UNIX_EPOCH) {
        Ok(since) => i64::try_from(milliseconds_of(since)).unwrap_or(i64::MAX),
        Err(_) => 0,
    }
}
