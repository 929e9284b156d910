//! How a line gets a connection and loses it, and what is told of that.

ghost use Rattle.std.specs.Prelude.{◌≡◌, ◌<◌, ◌≤◌, ◌⊎◌, ◌↔◌, max, min, nat_lt, None, Some, false, IfSome, IsTrue};
ghost use Rattle.njh_wire.specs.Standing.{after_admission, after_displacement};
ghost use Rattle.njh_wire.specs.Tally.{tally};
ghost use Rattle.njh_anteroom.specs.declared.guest.Guest.{Guest};
ghost use Rattle.njh_lines.specs.Entrances.{away_at, left_after, next_guest, visited, wanted_at, AreAllowed};
ghost use Rattle.njh_lines.specs.TurningAway.{away_left, away_told};
ghost use Rattle.njh_lines.specs.Connecting.{end_event, place_of, told_connected, IsBarred, KeepsLine};
ghost use Rattle.njh_lines.specs.Connecting.{told_refusal};
ghost use Rattle.njh_log.specs.Limiting.{IsTold};
ghost use Rattle.njh_sites.specs.Admitting.{kept_until, listens_again};
ghost use Rattle.njh_sites.specs.declared.asking.Asking.{Asking};

use crate::entrance::Entrance;
use crate::surroundings::Surroundings;
use crate::turned_away::TurnedAway;
use njh_anteroom::{Entry, Guest};
use njh_line::Refusal;
use njh_log::{ConnectionFailure, LogEvent, Rebuff};
use njh_sight::{Label, refusal_event, refusals_event};
use njh_sites::{Admission, Asking, keeps_line, kept_until, listens_again};
use njh_wire::{Connection, ConnectionEnd, LineWire, Network};
use std::io::Write;
use std::net::SocketAddr;

/// How often connections of a line are told at most.
const TELL: u64 = 1_000;

/// How many connections are accepted of a line's listener at once.
const AT_ONCE: usize = 16;

/// Lets connections that wait to be accepted into a line's anteroom, a few at once, and tells of
/// those that were closed. Answers when the listener is to be looked at again.
pub(crate) fn let_in<N: Network + Drop, L: Write + Drop>(
    surroundings: &mut Surroundings<N, L>,
    listener: &mut N::Listener,
    entrance: &mut Entrance<Asking<N::Connection>>,
    label: &mut Label,
) -> u64
    ensures now { surroundings.new.now ≡ surroundings.old.now }
    ensures customers { surroundings.new.customers ≡ surroundings.old.customers }
    ensures address { N.address_of listener.new ≡ N.address_of listener.old }
    ensures label { label.new ≡ record label.old { again = label.new.again } }
    ensures again { (admission : Admission) × (result
        ≡ min (listens_again admission surroundings.old.now) (away_at entrance.new)) }
    ensures told { (away_told entrance.new.not_allowed surroundings.old.now ≡ None)
        × (away_told entrance.new.turned_away surroundings.old.now ≡ None) }
    ensures allowed { AreAllowed entrance.old → AreAllowed entrance.new }
    ensures remembered { entrance.new.anteroom.remembered ≡ entrance.old.anteroom.remembered }
    ensures peer { entrance.new.peer ≡ entrance.old.peer }
    ensures from { entrance.new.from ≡ entrance.old.from }
{
    let admission = accept_some(surroundings, listener, entrance, label);
    let not_allowed = &mut entrance.not_allowed;
    tell_away(surroundings, label, not_allowed, Rebuff::NotAllowed);
    tell_away(
        surroundings,
        label,
        &mut entrance.turned_away,
        Rebuff::NoRoom,
    );
    let again = listens_again(admission, surroundings.now);
    again.min(entrance.away_moment())
}

/// Accepts connections that wait, a few at once. Answers what came of the last.
fn accept_some<N: Network + Drop, L: Write + Drop>(
    surroundings: &mut Surroundings<N, L>,
    listener: &mut N::Listener,
    entrance: &mut Entrance<Asking<N::Connection>>,
    label: &mut Label,
) -> Admission
    ensures now { surroundings.new.now ≡ surroundings.old.now }
    ensures customers { surroundings.new.customers ≡ surroundings.old.customers }
    ensures address { N.address_of listener.new ≡ N.address_of listener.old }
    ensures label { label.new ≡ record label.old { again = label.new.again } }
    ensures allowed { AreAllowed entrance.old → AreAllowed entrance.new }
    ensures remembered { entrance.new.anteroom.remembered ≡ entrance.old.anteroom.remembered }
    ensures peer { entrance.new.peer ≡ entrance.old.peer }
    ensures from { entrance.new.from ≡ entrance.old.from }
{
    for _ in 0..AT_ONCE {
        let admission = accept(surroundings, listener, entrance, label);
        if admission != Admission::Taken {
            return admission;
        }
    }
    Admission::Taken
}

/// Accepts a connection that waits, if there is one: it waits in the anteroom then, or is closed.
#[tactic(auto, using(crate::proofs::AllowedLaws::came_allowed))]
fn accept<N: Network + Drop, L: Write + Drop>(
    surroundings: &mut Surroundings<N, L>,
    listener: &mut N::Listener,
    entrance: &mut Entrance<Asking<N::Connection>>,
    label: &mut Label,
) -> Admission
    ensures now { surroundings.new.now ≡ surroundings.old.now }
    ensures customers { surroundings.new.customers ≡ surroundings.old.customers }
    ensures address { N.address_of listener.new ≡ N.address_of listener.old }
    ensures label { label.new ≡ record label.old { again = label.new.again } }
    ensures allowed { AreAllowed entrance.old → AreAllowed entrance.new }
    ensures remembered { entrance.new.anteroom.remembered ≡ entrance.old.anteroom.remembered }
    ensures peer { entrance.new.peer ≡ entrance.old.peer }
    ensures from { entrance.new.from ≡ entrance.old.from }
    ensures same { (result ≡ Admission.Taken) ⊎ (entrance.new ≡ entrance.old) }
{
    match surroundings.network.accept(listener) {
        Ok(Some((connection, address))) => {
            let asking = Asking::new(connection, surroundings.now);
            receive(surroundings, entrance, asking, address);
            Admission::Taken
        }
        Ok(None) => Admission::NobodyWaits,
        Err(_) => {
            if label.again <= surroundings.now {
                label.again = surroundings.now.saturating_add(TELL);
                surroundings.tell(label, LogEvent::AcceptFailed);
            }
            Admission::NotTaken
        }
    }
}

/// A connection comes to a line from an address: it waits in the anteroom, or it is closed, before
/// anything of it is read, and counted.
fn receive<N: Network + Drop, L: Write + Drop>(
    surroundings: &mut Surroundings<N, L>,
    entrance: &mut Entrance<Asking<N::Connection>>,
    connection: Asking<N::Connection>,
    address: SocketAddr,
)
    ensures now { surroundings.new.now ≡ surroundings.old.now }
    ensures customers { surroundings.new.customers ≡ surroundings.old.customers }
    ensures came { entrance.new ≡ visited address (nat_lt surroundings.old.guests surroundings.old.most_guests)
        surroundings.old.now connection entrance.old }
{
    if !entrance.from.allows(address.ip()) {
        entrance.not_allowed.note();
        return;
    }
    let entry = surroundings.seat(&mut entrance.anteroom, connection, address);
    if let Entry::TurnedAway = entry {
        entrance.turned_away.note();
    }
}

/// Tells how many connections were closed as they came for this reason, if that is to be told now.
fn tell_away<N: Network + Drop, L: Write + Drop>(
    surroundings: &mut Surroundings<N, L>,
    label: &Label,
    away: &mut TurnedAway,
    rebuff: Rebuff,
)
    ensures now { surroundings.new.now ≡ surroundings.old.now }
    ensures customers { surroundings.new.customers ≡ surroundings.old.customers }
    ensures taken { away.new ≡ away_left away.old surroundings.old.now }
    ensures logged { IfSome (away_told away.old surroundings.old.now) (λ count.
        IsTold L.contents (place_of label.now) (LogEvent.TurnedAway rebuff count) surroundings.old.now
        surroundings.old.log surroundings.new.log) }
    ensures silent { away_told away.old surroundings.old.now ≡ None → surroundings.new ≡ surroundings.old }
{
    match away.take(surroundings.now) {
        Some(count) => surroundings.tell(label, LogEvent::TurnedAway(rebuff, count)),
        None => {}
    }
}

/// Gives the line to one who waits in its anteroom, if the line has no connection or one that was
/// without a session for ten seconds, and no sign-on was refused on it in the second before. Answers
/// when the anteroom is to be looked at again.
#[tactic(auto, using(crate::proofs::AllowedLaws::left_allowed))]
pub(crate) fn admit<N: Network + Drop, L: Write + Drop>(
    surroundings: &mut Surroundings<N, L>,
    entrance: &mut Entrance<Asking<N::Connection>>,
    label: &mut Label,
    wire: &mut LineWire<N::Connection>,
) -> u64
    ensures counts { wire.old.failures ≤ wire.new.failures }
    ensures tally { tally wire.new ≡ tally wire.old }
    ensures clock { wire.new.clock ≡ wire.old.clock }
    ensures now { surroundings.new.now ≡ surroundings.old.now }
    ensures customers { surroundings.new.customers ≡ surroundings.old.customers }
    ensures from { entrance.new.from ≡ entrance.old.from }
    ensures allowed { AreAllowed entrance.old → AreAllowed entrance.new }
    ensures barred { IsBarred label.old surroundings.old.now → (wire.new ≡ wire.old) × ((label.new ≡ label.old)
        × ((entrance.new ≡ entrance.old) × (result ≡ max label.old.barred_until (wanted_at entrance.old)))) }
    ensures kept { ¬ IsBarred label.old surroundings.old.now → KeepsLine wire.old label.old surroundings.old.now →
        (wire.new ≡ wire.old) × ((label.new ≡ label.old) × ((entrance.new ≡ entrance.old)
        × (result ≡ max (kept_until label.old.up label.old.no_session_since) (wanted_at entrance.old)))) }
    ensures nobody { ¬ IsBarred label.old surroundings.old.now → ¬ KeepsLine wire.old label.old surroundings.old.now →
        next_guest surroundings.old.now entrance.old ≡ None →
        (wire.new ≡ wire.old) × ((label.new ≡ label.old) × (result ≡ wanted_at entrance.new)) }
    ensures waiting { ¬ IsBarred label.old surroundings.old.now → ¬ KeepsLine wire.old label.old surroundings.old.now →
        entrance.new.anteroom.waiting ≡ left_after surroundings.old.now entrance.old }
    ensures given { ¬ IsBarred label.old surroundings.old.now → ¬ KeepsLine wire.old label.old surroundings.old.now →
        (guest : Guest (Asking N.Connection)) → next_guest surroundings.old.now entrance.old ≡ Some guest →
        N.Connection.place_of guest.connection.connection ≡ wire.old.place →
        (wire.new ≡ record (after_admission guest.connection.connection (after_displacement wire.old)) { end = None })
        × (entrance.new.peer ≡ Some guest.address) }
{
    let now = surroundings.now;
    if now < label.barred_until {
        return label.barred_until.max(entrance.anteroom.next_at());
    }
    let since = label.no_session_since;
    if keeps_line(wire.is_connected(), label.up, since, now) {
        return kept_until(label.up, since).max(entrance.anteroom.next_at());
    }
    match surroundings.next_of(&mut entrance.anteroom) {
        Some(guest) => {
            let address = guest.address;
            if connect(surroundings, entrance, label, wire, without_open(guest)) {
                tell_connected(surroundings, label, LogEvent::ConnectedFrom(address));
            }
            kept_until(label.up, label.no_session_since).max(entrance.anteroom.next_at())
        }
        None => entrance.anteroom.next_at(),
    }
}

/// Who waited, without what came of an OPEN.
pub(crate) fn without_open<C: Drop>(guest: Guest<Asking<C>>) -> Guest<C>
    ensures connection { result.connection ≡ guest.connection.connection }
    ensures address { result.address ≡ guest.address }
{
    let Guest {
        connection,
        address,
        since,
    } = guest;
    let Asking { connection, .. } = connection;
    Guest {
        connection,
        address,
        since,
    }
}

/// Gives a line a connection of its own, in place of one that it has, and answers whether it did.
/// One of another line is dropped.
pub(crate) fn connect<N: Network + Drop, L: Write + Drop>(
    surroundings: &mut Surroundings<N, L>,
    entrance: &mut Entrance<Asking<N::Connection>>,
    label: &mut Label,
    wire: &mut LineWire<N::Connection>,
    guest: Guest<N::Connection>,
) -> bool
    ensures counts { wire.old.failures ≤ wire.new.failures }
    ensures tally { tally wire.new ≡ tally wire.old }
    ensures clock { wire.new.clock ≡ wire.old.clock }
    ensures now { surroundings.new.now ≡ surroundings.old.now }
    ensures customers { surroundings.new.customers ≡ surroundings.old.customers }
    ensures own { IsTrue result ↔ (N.Connection.place_of guest.connection ≡ wire.old.place) }
    ensures taken { IsTrue result →
        wire.new ≡ record (after_admission guest.connection (after_displacement wire.old)) { end = None } }
    ensures refused { ¬ IsTrue result → (wire.new ≡ wire.old) × ((label.new ≡ label.old) × (entrance.new ≡ entrance.old)) }
    ensures came { IsTrue result → (label.new.no_session_since ≡ surroundings.old.now)
        × ((label.new.in_session ≡ false) × (label.new.had_session ≡ false)) }
    ensures given { IsTrue result → entrance.new.peer ≡ Some guest.address }
    ensures waiting { entrance.new.anteroom.waiting ≡ entrance.old.anteroom.waiting }
    ensures from { entrance.new.from ≡ entrance.old.from }
{
    let Guest {
        connection,
        address,
        ..
    } = guest;
    if connection.place() != wire.place() {
        return false;
    }
    wire.connect(connection);
    if let Some(end) = wire.take_end() {
        tell_end(surroundings, label, end, false);
        entrance.part(label.had_session, false, surroundings.now);
    }
    entrance.give(address);
    // That the session before used up its tries ends its own connection, and not this one.
    label.in_session = false;
    label.had_session = false;
    label.no_session_since = surroundings.now;
    label.connected_since = surroundings.now;
    label.awaits_again = 0;
    true
}

/// Tells of a new connection, unless one was told in the second before.
pub(crate) fn tell_connected<N: Network + Drop, L: Write + Drop>(
    surroundings: &mut Surroundings<N, L>,
    label: &mut Label,
    event: LogEvent,
)
    ensures told { label.new ≡ told_connected label.old surroundings.old.now }
    ensures now { surroundings.new.now ≡ surroundings.old.now }
    ensures customers { surroundings.new.customers ≡ surroundings.old.customers }
    ensures logged { label.old.again ≤ surroundings.old.now →
        IsTold L.contents (place_of label.old) event surroundings.old.now surroundings.old.log surroundings.new.log }
    ensures silent { surroundings.old.now < label.old.again → surroundings.new ≡ surroundings.old }
{
    label.connected = label.again <= surroundings.now;
    if !label.connected {
        return;
    }
    label.again = surroundings.now.saturating_add(TELL);
    surroundings.tell(label, event);
}

/// Tells of the end of a connection that was told, and which came early if its session was on
/// its way up.
pub(crate) fn tell_end<N: Network + Drop, L: Write + Drop>(
    surroundings: &mut Surroundings<N, L>,
    label: &mut Label,
    end: ConnectionEnd,
    is_early: bool,
)
    ensures told { label.new ≡ record label.old { connected = false } }
    ensures now { surroundings.new.now ≡ surroundings.old.now }
    ensures customers { surroundings.new.customers ≡ surroundings.old.customers }
    ensures logged { IsTrue label.old.connected → IsTold L.contents (place_of label.old) (end_event is_early end)
        surroundings.old.now surroundings.old.log surroundings.new.log }
    ensures silent { ¬ IsTrue label.old.connected → surroundings.new ≡ surroundings.old }
{
    if !label.connected {
        return;
    }
    label.connected = false;
    surroundings.tell(label, end_event(end, is_early));
}

/// What is told of a sign-on that was refused: from which address it came, and how many from there
/// were refused so far.
pub(crate) fn told_refusal<C: Drop>(why: Option<Refusal>, entrance: &Entrance<C>) -> LogEvent
    ensures { result ≡ told_refusal why entrance.now }
{
    match entrance.peer {
        Some(address) => {
            let count = entrance.anteroom.refusals_of(address.ip());
            refusals_event(why, address.ip(), count.max(1))
        }
        None => refusal_event(why),
    }
}

/// What is told of a connection's end, which may come early.
fn end_event(end: ConnectionEnd, is_early: bool) -> LogEvent
    ensures { result ≡ end_event is_early end }
{
    match end {
        ConnectionEnd::Ended => {
            if is_early {
                LogEvent::ClosedEarly
            } else {
                LogEvent::Closed
            }
        }
        ConnectionEnd::Closed => LogEvent::Closed,
        ConnectionEnd::Failed => LogEvent::Failed(ConnectionFailure::Broken),
        ConnectionEnd::Stalled => LogEvent::Failed(ConnectionFailure::Stalled),
        ConnectionEnd::Replaced => LogEvent::Failed(ConnectionFailure::Replaced),
        ConnectionEnd::Refused(fault) => LogEvent::Failed(ConnectionFailure::Unfit(fault)),
    }
}
