//! Who asks for a line over TCP/IP, and who is given it.

ghost use Rattle.std.specs.Prelude.{◌≡◌, ◌≤◌, ◌⊎◌, Some, IfSome, IsTrue, slice_get};
ghost use Rattle.njh_wire.specs.Tally.{tally};
ghost use Rattle.njh_anteroom.specs.declared.guest.Guest.{Guest};
ghost use Rattle.njh_sites.specs.declared.asking.Asking.{Asking};
ghost use Rattle.njh_open.specs.declared.verdict.Verdict.TheVariants.{Connected, Second};
ghost use Rattle.njh_wire.specs.Leaving.{IsSaid};
ghost use Rattle.njh_wire.specs.declared.connection.Saying.TheVariants.{KeepAlive};
ghost use Rattle.njh_lines.specs.Asking.{first_late, vacancy_of, IsGivenByOpen, IsGivenByTcp};
ghost use Rattle.njh_lines.specs.Connecting.{KeepsLine};
ghost use Rattle.njh_lines.specs.Entrances.{AreAllowed};

use crate::connecting::{connect, tell_connected, without_open};
use crate::entrance::Entrance;
use crate::surroundings::Surroundings;
use crate::wires::say;
use njh_anteroom::Guest;
use njh_log::LogEvent;
use njh_open::{Vacancy, Verdict};
use njh_sight::Label;
use njh_sites::{Asking, Heard, keeps_line};
use njh_table::Role;
use njh_wire::{Connection, LineWire, Network, Saying};
use std::alloc::Global;
use std::io::Write;

/// Hears each who waits for a line over TCP/IP, once, and gives the line to whose OPEN names it, if
/// it is free. While a sign-on was refused on it in the second before nobody is heard. Answers when
/// it is to be looked at again.
pub(crate) fn hear_askers<N: Network + Drop, L: Write + Drop>(
    surroundings: &mut Surroundings<N, L>,
    entrance: &mut Entrance<Asking<N::Connection>>,
    label: &mut Label,
    wire: &mut LineWire<N::Connection>,
    is_stopped: bool,
) -> u64
    ensures counts { wire.old.failures ≤ wire.new.failures }
    ensures tally { tally wire.new ≡ tally wire.old }
    ensures clock { wire.new.clock ≡ wire.old.clock }
    ensures now { surroundings.new.now ≡ surroundings.old.now }
    ensures customers { surroundings.new.customers ≡ surroundings.old.customers }
    ensures from { entrance.new.from ≡ entrance.old.from }
    ensures allowed { AreAllowed entrance.old → AreAllowed entrance.new }
    ensures stopped { IsTrue is_stopped → wire.new ≡ wire.old }
{
    if surroundings.now < label.barred_until {
        return label.barred_until;
    }
    for _ in 0..entrance.anteroom.waiting().len() {
        hear_first(surroundings, entrance, label, wire, is_stopped);
    }
    tell_missing(surroundings, entrance, label);
    first_late(entrance.anteroom.waiting()).min(entrance.opens.moment())
}

/// Hears who waits before all others, and gives that one the line if its OPEN names the line, which
/// is free. One whose OPEN isn't whole waits on, behind all others. Answers whether the line was
/// given.
fn hear_first<N: Network + Drop, L: Write + Drop>(
    surroundings: &mut Surroundings<N, L>,
    entrance: &mut Entrance<Asking<N::Connection>>,
    label: &mut Label,
    wire: &mut LineWire<N::Connection>,
    is_stopped: bool,
) -> bool
    ensures counts { wire.old.failures ≤ wire.new.failures }
    ensures tally { tally wire.new ≡ tally wire.old }
    ensures clock { wire.new.clock ≡ wire.old.clock }
    ensures now { surroundings.new.now ≡ surroundings.old.now }
    ensures customers { surroundings.new.customers ≡ surroundings.old.customers }
    ensures from { entrance.new.from ≡ entrance.old.from }
    ensures allowed { AreAllowed entrance.old → AreAllowed entrance.new }
    ensures stopped { IsTrue is_stopped → wire.new ≡ wire.old }
    ensures keeps { KeepsLine wire.old label.old surroundings.old.now → ¬ IsTrue result }
    ensures kept { ¬ IsTrue result → (wire.new ≡ wire.old)
        ⊎ IsSaid N.Connection.moved N.Connection.said KeepAlive wire.old wire.new }
    ensures given { IsTrue result → (first : Guest (Asking N.Connection))
        × ((slice_get entrance.old.anteroom.waiting 0 ≡ Some first)
        × IsGivenByOpen N.Connection.moved N.Connection.over_tcp label.old.node label.old.hub first.connection wire.old
        wire.new) }
{
    let Some(mut guest) = surroundings.first_of(&mut entrance.anteroom) else {
        return false;
    };
    let now = surroundings.now;
    let vacancy = vacancy_on(is_stopped, label, wire, now);
    match guest.connection.hear(&label.node, &label.hub, vacancy, now) {
        Heard::Waits => {
            surroundings.put_back(&mut entrance.anteroom, guest);
            false
        }
        Heard::Gone => {
            entrance.opens.note_missing();
            false
        }
        Heard::Answered(verdict) => judge(surroundings, entrance, label, wire, guest, verdict),
    }
}

/// How a line is to who asks for it.
fn vacancy_on<C: Connection + Drop>(
    is_stopped: bool,
    label: &Label,
    wire: &LineWire<C>,
    now: u64,
) -> Vacancy
    ensures stopped { IsTrue is_stopped → result ≡ Vacancy.Stopped }
    ensures free { result ≡ Vacancy.Free → ¬ KeepsLine wire.now label.now now }
{
    let keeps = keeps_line(wire.is_connected(), label.up, label.no_session_since, now);
    vacancy_of(is_stopped, keeps)
}

/// By whether it is stopped, and keeps its connection.
fn vacancy_of(is_stopped: bool, keeps: bool) -> Vacancy
    ensures { result ≡ vacancy_of is_stopped keeps }
{
    if is_stopped {
        Vacancy::Stopped
    } else if keeps {
        Vacancy::Taken
    } else {
        Vacancy::Free
    }
}

/// Gives the line to who asked for it, or tells that this one was refused. Answers whether the line
/// was given.
fn judge<N: Network + Drop, L: Write + Drop>(
    surroundings: &mut Surroundings<N, L>,
    entrance: &mut Entrance<Asking<N::Connection>>,
    label: &mut Label,
    wire: &mut LineWire<N::Connection>,
    guest: Guest<Asking<N::Connection>>,
    verdict: Verdict,
) -> bool
    ensures counts { wire.old.failures ≤ wire.new.failures }
    ensures tally { tally wire.new ≡ tally wire.old }
    ensures clock { wire.new.clock ≡ wire.old.clock }
    ensures now { surroundings.new.now ≡ surroundings.old.now }
    ensures customers { surroundings.new.customers ≡ surroundings.old.customers }
    ensures from { entrance.new.from ≡ entrance.old.from }
    ensures waiting { entrance.new.anteroom.waiting ≡ entrance.old.anteroom.waiting }
    ensures right { IsTrue result → verdict ≡ Connected }
    ensures kept { ¬ IsTrue result → (wire.new ≡ wire.old)
        ⊎ ((verdict ≡ Second) × IsSaid N.Connection.moved N.Connection.said KeepAlive wire.old wire.new) }
    ensures given { IsTrue result →
        IsGivenByTcp N.Connection.over_tcp Role.Answer guest.connection.connection wire.old wire.new }
{
    match verdict {
        Verdict::Connected => give(surroundings, entrance, label, wire, guest),
        Verdict::NoOpen => {
            entrance.opens.note_missing();
            false
        }
        Verdict::Second => {
            say(wire, Saying::KeepAlive);
            tell_refused(
                surroundings,
                entrance,
                label,
                LogEvent::SecondOpen(label.node),
            );
            false
        }
        Verdict::WhileStopped => {
            tell_refused(
                surroundings,
                entrance,
                label,
                LogEvent::OpenWhileStopped(label.node),
            );
            false
        }
        Verdict::OtherNames(hosts) => {
            tell_refused(surroundings, entrance, label, LogEvent::OtherNames(hosts));
            false
        }
    }
}

/// Gives the line to who asked for it. Answers whether there was memory for that.
fn give<N: Network + Drop, L: Write + Drop>(
    surroundings: &mut Surroundings<N, L>,
    entrance: &mut Entrance<Asking<N::Connection>>,
    label: &mut Label,
    wire: &mut LineWire<N::Connection>,
    guest: Guest<Asking<N::Connection>>,
) -> bool
    ensures counts { wire.old.failures ≤ wire.new.failures }
    ensures tally { tally wire.new ≡ tally wire.old }
    ensures clock { wire.new.clock ≡ wire.old.clock }
    ensures now { surroundings.new.now ≡ surroundings.old.now }
    ensures customers { surroundings.new.customers ≡ surroundings.old.customers }
    ensures from { entrance.new.from ≡ entrance.old.from }
    ensures waiting { entrance.new.anteroom.waiting ≡ entrance.old.anteroom.waiting }
    ensures kept { ¬ IsTrue result → wire.new ≡ wire.old }
    ensures given { IsTrue result →
        IsGivenByTcp N.Connection.over_tcp Role.Answer guest.connection.connection wire.old wire.new }
{
    let address = guest.address;
    let Some(guest) = over_tcp(surroundings.alloc, without_open(guest), Role::Answer) else {
        return false;
    };
    if !connect(surroundings, entrance, label, wire, guest) {
        return false;
    }
    tell_connected(surroundings, label, LogEvent::ConnectedFrom(address));
    true
}

/// A connection that carries the frames of a line over TCP/IP, on which the hub has this role; none
/// if there is no memory for that.
pub(crate) fn over_tcp<C: Connection + Drop>(
    alloc: Global,
    guest: Guest<C>,
    role: Role,
) -> Option<Guest<C>>
    ensures { IfSome result (λ made. C.over_tcp role guest.connection made.connection) }
{
    let Guest {
        connection,
        address,
        since,
    } = guest;
    match connection.by_tcp(alloc, role) {
        Ok(connection) => Some(Guest {
            connection,
            address,
            since,
        }),
        Err(_) => None,
    }
}

/// Tells of an OPEN that was refused, unless one was told in the second before.
fn tell_refused<N: Network + Drop, L: Write + Drop>(
    surroundings: &mut Surroundings<N, L>,
    entrance: &mut Entrance<Asking<N::Connection>>,
    label: &Label,
    event: LogEvent,
)
    ensures now { surroundings.new.now ≡ surroundings.old.now }
    ensures customers { surroundings.new.customers ≡ surroundings.old.customers }
    ensures same { entrance.new ≡ record entrance.old { opens = entrance.new.opens } }
{
    if entrance.opens.note_refused(surroundings.now) {
        surroundings.tell(label, event);
    }
}

/// Tells on how many connections no OPEN came, if that is to be told now.
fn tell_missing<N: Network + Drop, L: Write + Drop>(
    surroundings: &mut Surroundings<N, L>,
    entrance: &mut Entrance<Asking<N::Connection>>,
    label: &Label,
)
    ensures now { surroundings.new.now ≡ surroundings.old.now }
    ensures customers { surroundings.new.customers ≡ surroundings.old.customers }
    ensures same { entrance.new ≡ record entrance.old { opens = entrance.new.opens } }
{
    match entrance.opens.take_missing(surroundings.now) {
        Some(count) => surroundings.tell(label, LogEvent::NoOpen(count)),
        None => {}
    }
}

/// When the first of those who ask is waited for no more.
fn first_late<C: Drop>(guests: &[Guest<Asking<C>>]) -> u64
    ensures { result ≡ first_late guests.now }
{
    let mut least = u64::MAX;
    for guest in guests {
        least = least.min(guest.connection.asker.deadline());
    }
    least
}
