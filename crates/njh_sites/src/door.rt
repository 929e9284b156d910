//! Where the peers of a line with a port come in.

ghost use Rattle.std.specs.Prelude.{◌≡◌, ◌≢◌, Err, None, Some, IfErr, IfOk, IfSome, IsOk, IsSome, IsTrue, false};
ghost use Rattle.std.specs.declared.net.socket_addr.SocketAddr.{SocketAddr};
ghost use Rattle.njh_sites.specs.Doors.{begin_event, cause_in, door_address, to_try, IsTried};

use crate::opening::cause_of;
use crate::site::Site;
use njh_log::{ListenCause, LogEvent};
use njh_wire::Network;
use std::net::SocketAddr;

/// How long after a port couldn't be listened on it is tried again, in milliseconds.
const PAUSE: u64 = 10_000;

/// Where the peers of a line with a port come in: a socket that listens there, or none yet.
#[derive(Drop)]
pub enum Door<L> {
    /// This socket listens.
    Open(L),
    /// Nothing listens.
    Shut {
        /// At this address.
        address: SocketAddr,
        /// For this cause.
        cause: ListenCause,
        /// The port is tried again at this moment, on the service's clock.
        again: u64,
    },
}

impl<L> Door<L> {
    /// Why nothing listens, if nothing does.
    pub(crate) fn cause(&self) -> Option<ListenCause>
        ensures { result ≡ cause_in self.now }
    {
        match self {
            Door::Open(_) => None,
            Door::Shut { cause, .. } => Some(*cause),
        }
    }

    /// The address that is to be tried now, and why nothing listened there before.
    fn to_try(&self, now: u64) -> Option<(SocketAddr, ListenCause)>
        ensures found { result ≡ to_try self.now now }
        ensures address { (address_of : L → SocketAddr)
            → IfSome result (λ found. door_address address_of self.now ≡ found.0) }
        ensures cause { IfSome result (λ found. cause_in self.now ≡ Some found.1) }
    {
        match self {
            Door::Open(_) => None,
            Door::Shut {
                address,
                cause,
                again,
            } => {
                if *again <= now {
                    Some((*address, *cause))
                } else {
                    None
                }
            }
        }
    }
}

/// Listens on an address for the line at this place. If that fails, its door is shut for ten
/// seconds.
pub(crate) fn listen<N: Network>(
    network: &mut N,
    address: SocketAddr,
    place: usize,
    now: u64,
) -> Door<N::Listener>
    ensures address { door_address N.address_of result ≡ address }
    ensures tried { IsTried now result }
    ensures cause { cause_in result ≢ Some ListenCause.SamePort }
{
    match network.listen(address, place) {
        Ok(listener) => Door::Open(listener),
        Err(error) => Door::Shut {
            address,
            cause: cause_of(&error),
            again: now.saturating_add(PAUSE),
        },
    }
}

/// A door, if it is open or may be shut; else why nothing listens.
pub(crate) fn admitted<L: Drop>(door: Door<L>, strict: bool) -> Result<Door<L>, ListenCause>
    ensures same { IfOk result (λ admitted. admitted ≡ door) }
    ensures open { IsTrue strict → IfOk result (λ admitted. cause_in admitted ≡ None) }
    ensures shut { IfErr result (λ cause. cause_in door ≡ Some cause) }
    ensures lax { strict ≡ false → IsOk result }
{
    match door.cause() {
        Some(cause) if strict => Err(cause),
        _ => Ok(door),
    }
}

/// What is told of a line's site at the start, by the address on which it is to listen if it
/// doesn't dial.
pub fn begin_event<L>(address: SocketAddr, site: &Site<Door<L>, SocketAddr>) -> LogEvent
    ensures { result ≡ begin_event address site.now }
{
    match site {
        Site::Listens(Door::Open(_)) => LogEvent::Listening(address),
        Site::Listens(Door::Shut { cause, .. }) => LogEvent::ListenFailed(address, *cause),
        Site::Dials(peer) => LogEvent::Dials(*peer),
    }
}

/// What is told of a port that was tried again, by why nothing listened there before and why
/// nothing does now.
fn try_event(address: SocketAddr, before: ListenCause, now: Option<ListenCause>) -> Option<LogEvent>
    ensures had { now ≡ None → result ≡ Some (LogEvent.Listening address) }
    ensures same { now ≡ Some before → result ≡ None }
    ensures other { IfSome now (λ cause. cause ≢ before → result ≡ Some (LogEvent.ListenFailed address cause)) }
{
    match now {
        None => Some(LogEvent::Listening(address)),
        Some(cause) if cause == before => None,
        Some(cause) => Some(LogEvent::ListenFailed(address, cause)),
    }
}

/// Tries the port of a line again if nothing listens there and the time for that came. Answers what
/// is told of it: nothing, if nothing listens there for the same cause as before.
pub fn try_again<N: Network>(
    network: &mut N,
    place: usize,
    now: u64,
    door: &mut Door<N::Listener>,
) -> Option<LogEvent>
    ensures address { door_address N.address_of door.new ≡ door_address N.address_of door.old }
    ensures tried { IsSome (to_try door.old now) → IsTried now door.new }
    ensures waits { to_try door.old now ≡ None → door.new ≡ door.old }
    ensures told { cause_in door.new ≢ cause_in door.old → IsSome result }
    ensures silent { cause_in door.new ≡ cause_in door.old → result ≡ None }
{
    match door.to_try(now) {
        Some((address, before)) => {
            *door = listen(network, address, place, now);
            try_event(address, before, door.cause())
        }
        None => None,
    }
}
