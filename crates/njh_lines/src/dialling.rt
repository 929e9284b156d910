//! How a line that is dialled gets its connection.

ghost use Rattle.std.specs.Prelude.{◌≡◌, ◌≤◌, ◌⊎◌, None, IsTrue};
ghost use Rattle.njh_wire.specs.Tally.{tally};
ghost use Rattle.njh_log.specs.Limiting.{IsTold};
ghost use Rattle.njh_sites.specs.Dialling.{connection_in, dial_moment, failed, given_up_at, next_dial, IsToCome};
ghost use Rattle.njh_lines.specs.Asking.{IsGivenByAck, IsJoined};
ghost use Rattle.njh_lines.specs.Connecting.{place_of};

use crate::asking::over_tcp;
use crate::connecting::{connect, tell_connected};
use crate::entrance::Entrance;
use crate::surroundings::Surroundings;
use njh_anteroom::Guest;
use njh_log::LogEvent;
use njh_open::{CallOutcome, NakReason, open_of};
use njh_sight::Label;
use njh_sites::{Asking, Dial, DialAnswer, answer_of};
use njh_table::{Protocol, Role};
use njh_wire::{LineWire, Network};
use std::io::Write;

/// Dials, or sees whether a dial was answered, and over TCP/IP the OPEN.
pub(crate) fn drive<N: Network + Drop, L: Write + Drop>(
    surroundings: &mut Surroundings<N, L>,
    dial: &mut Dial<N::Connection>,
    entrance: &mut Entrance<Asking<N::Connection>>,
    label: &mut Label,
    wire: &mut LineWire<N::Connection>,
)
    ensures counts { wire.old.failures ≤ wire.new.failures }
    ensures tally { tally wire.new ≡ tally wire.old }
    ensures clock { wire.new.clock ≡ wire.old.clock }
    ensures now { surroundings.new.now ≡ surroundings.old.now }
    ensures customers { surroundings.new.customers ≡ surroundings.old.customers }
    ensures address { dial.new.address ≡ dial.old.address }
    ensures from { entrance.new.from ≡ entrance.old.from }
    ensures begun { IsToCome dial.old.state surroundings.old.now →
        (dial_moment dial.new.state ≡ given_up_at surroundings.old.now)
        ⊎ (dial_moment dial.new.state ≡ next_dial dial.old.has_failed dial.old.pause surroundings.old.now) }
    ensures idle { ¬ IsToCome dial.old.state surroundings.old.now → connection_in dial.old.state ≡ None →
        wire.new ≡ wire.old }
{
    if dial.is_to_come(surroundings.now) {
        match surroundings.network.dial(dial.address(), wire.place()) {
            Ok(connection) => dial.begin(connection, surroundings.now),
            Err(_) => fail(surroundings, dial, label),
        }
        return;
    }
    if dial.is_asking() {
        hear_answer(surroundings, dial, entrance, label, wire);
        return;
    }
    let until = dial.moment();
    let Some(made) = dial.ask(&mut surroundings.network) else {
        return;
    };
    match answer_of(made, until, surroundings.now) {
        DialAnswer::Made => go_on(surroundings, dial, entrance, label, wire),
        DialAnswer::Waits => {}
        DialAnswer::Failed => fail(surroundings, dial, label),
    }
}

/// The connection of a dial was made: the line has it, or over TCP/IP asks for the link.
fn go_on<N: Network + Drop, L: Write + Drop>(
    surroundings: &mut Surroundings<N, L>,
    dial: &mut Dial<N::Connection>,
    entrance: &mut Entrance<Asking<N::Connection>>,
    label: &mut Label,
    wire: &mut LineWire<N::Connection>,
)
    ensures counts { wire.old.failures ≤ wire.new.failures }
    ensures tally { tally wire.new ≡ tally wire.old }
    ensures clock { wire.new.clock ≡ wire.old.clock }
    ensures now { surroundings.new.now ≡ surroundings.old.now }
    ensures customers { surroundings.new.customers ≡ surroundings.old.customers }
    ensures address { dial.new.address ≡ dial.old.address }
    ensures from { entrance.new.from ≡ entrance.old.from }
    ensures asks { wire.old.protocol ≡ Protocol.Tcp → wire.new ≡ wire.old }
{
    match wire.protocol() {
        Protocol::Bisync => join(surroundings, dial, entrance, label, wire),
        Protocol::Tcp => ask(surroundings, dial, label),
    }
}

/// The line has the connection of its dial.
fn join<N: Network + Drop, L: Write + Drop>(
    surroundings: &mut Surroundings<N, L>,
    dial: &mut Dial<N::Connection>,
    entrance: &mut Entrance<Asking<N::Connection>>,
    label: &mut Label,
    wire: &mut LineWire<N::Connection>,
)
    ensures counts { wire.old.failures ≤ wire.new.failures }
    ensures tally { tally wire.new ≡ tally wire.old }
    ensures clock { wire.new.clock ≡ wire.old.clock }
    ensures now { surroundings.new.now ≡ surroundings.old.now }
    ensures customers { surroundings.new.customers ≡ surroundings.old.customers }
    ensures address { dial.new.address ≡ dial.old.address }
    ensures from { entrance.new.from ≡ entrance.old.from }
{
    let address = dial.address();
    if let Some(connection) = dial.take() {
        let guest = Guest {
            connection,
            address,
            since: surroundings.now,
        };
        if connect(surroundings, entrance, label, wire, guest) {
            tell_connected(surroundings, label, LogEvent::ConnectedTo(address));
        }
    }
}

/// Asks for the link, on a connection that was made to the peer of a line over TCP/IP.
fn ask<N: Network + Drop, L: Write + Drop>(
    surroundings: &mut Surroundings<N, L>,
    dial: &mut Dial<N::Connection>,
    label: &mut Label,
)
    ensures now { surroundings.new.now ≡ surroundings.old.now }
    ensures customers { surroundings.new.customers ≡ surroundings.old.customers }
    ensures address { dial.new.address ≡ dial.old.address }
{
    let open = open_of(&label.hub, &label.node);
    if !dial.open(&open, surroundings.now) {
        fail(surroundings, dial, label);
    }
}

/// Hears what the peer answered to an OPEN: where that is ACK the line has the connection.
fn hear_answer<N: Network + Drop, L: Write + Drop>(
    surroundings: &mut Surroundings<N, L>,
    dial: &mut Dial<N::Connection>,
    entrance: &mut Entrance<Asking<N::Connection>>,
    label: &mut Label,
    wire: &mut LineWire<N::Connection>,
)
    ensures counts { wire.old.failures ≤ wire.new.failures }
    ensures tally { tally wire.new ≡ tally wire.old }
    ensures clock { wire.new.clock ≡ wire.old.clock }
    ensures now { surroundings.new.now ≡ surroundings.old.now }
    ensures customers { surroundings.new.customers ≡ surroundings.old.customers }
    ensures address { dial.new.address ≡ dial.old.address }
    ensures from { entrance.new.from ≡ entrance.old.from }
    ensures given { (wire.new ≡ wire.old) ⊎ IsGivenByAck N.Connection.moved N.Connection.over_tcp dial.old.state
        surroundings.old.now wire.old wire.new }
{
    match dial.hear(surroundings.now) {
        CallOutcome::Waits => {}
        CallOutcome::Acknowledged => join_by_tcp(surroundings, dial, entrance, label, wire),
        CallOutcome::Refused(reason) => {
            let event = LogEvent::PeerRefused(reason);
            give_up(surroundings, dial, label, Some(reason), event);
        }
        CallOutcome::NoAnswer => give_up(surroundings, dial, label, None, LogEvent::NoNje),
    }
}

/// The line has the connection of its dial, whose OPEN was acknowledged.
fn join_by_tcp<N: Network + Drop, L: Write + Drop>(
    surroundings: &mut Surroundings<N, L>,
    dial: &mut Dial<N::Connection>,
    entrance: &mut Entrance<Asking<N::Connection>>,
    label: &mut Label,
    wire: &mut LineWire<N::Connection>,
)
    ensures counts { wire.old.failures ≤ wire.new.failures }
    ensures tally { tally wire.new ≡ tally wire.old }
    ensures clock { wire.new.clock ≡ wire.old.clock }
    ensures now { surroundings.new.now ≡ surroundings.old.now }
    ensures customers { surroundings.new.customers ≡ surroundings.old.customers }
    ensures address { dial.new.address ≡ dial.old.address }
    ensures from { entrance.new.from ≡ entrance.old.from }
    ensures given { (wire.new ≡ wire.old) ⊎ IsJoined N.Connection.over_tcp dial.old.state wire.old wire.new }
{
    let address = dial.address();
    let Some(connection) = dial.take() else {
        return;
    };
    let guest = Guest {
        connection,
        address,
        since: surroundings.now,
    };
    let Some(guest) = over_tcp(surroundings.alloc, guest, Role::Call) else {
        return;
    };
    if !connect(surroundings, entrance, label, wire, guest) {
        return;
    }
    tell_connected(surroundings, label, LogEvent::ConnectedTo(address));
}

/// Nobody could be connected to.
fn fail<N: Network + Drop, L: Write + Drop>(
    surroundings: &mut Surroundings<N, L>,
    dial: &mut Dial<N::Connection>,
    label: &mut Label,
)
    ensures failed { dial.new ≡ failed dial.old surroundings.old.now }
    ensures now { surroundings.new.now ≡ surroundings.old.now }
    ensures customers { surroundings.new.customers ≡ surroundings.old.customers }
    ensures label { label.new ≡ record label.old { nak = None } }
    ensures told { IsTold L.contents (place_of label.old) (LogEvent.DialFailed dial.old.address) surroundings.old.now
        surroundings.old.log surroundings.new.log }
{
    let event = LogEvent::DialFailed(dial.address());
    give_up(surroundings, dial, label, None, event);
}

/// A dial failed, by what this event says; the peer answered NAK, or it didn't.
fn give_up<N: Network + Drop, L: Write + Drop>(
    surroundings: &mut Surroundings<N, L>,
    dial: &mut Dial<N::Connection>,
    label: &mut Label,
    nak: Option<NakReason>,
    event: LogEvent,
)
    ensures failed { dial.new ≡ failed dial.old surroundings.old.now }
    ensures now { surroundings.new.now ≡ surroundings.old.now }
    ensures customers { surroundings.new.customers ≡ surroundings.old.customers }
    ensures label { label.new ≡ record label.old { nak = nak } }
    ensures told { IsTold L.contents (place_of label.old) event surroundings.old.now surroundings.old.log
        surroundings.new.log }
{
    dial.fail(surroundings.now);
    label.nak = nak;
    surroundings.tell(label, event);
}
