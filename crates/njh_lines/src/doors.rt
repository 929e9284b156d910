//! What is done with the door of a line that has a port.

ghost use Rattle.std.specs.Prelude.{◌≡◌, ◌≢◌, ◌≤◌, None, IsSome, IsTrue};
ghost use Rattle.njh_wire.specs.Tally.{tally};
ghost use Rattle.njh_log.specs.Limiting.{IsTold};
ghost use Rattle.njh_log.specs.declared.entry.LogEvent.{LogEvent};
ghost use Rattle.njh_sites.specs.Doors.{cause_in, door_address, to_try, IsLookedAtAgain, IsTried};
ghost use Rattle.njh_lines.specs.Connecting.{place_of};
ghost use Rattle.njh_lines.specs.Entrances.{AreAllowed};

use crate::asking::hear_askers;
use crate::connecting::{admit, let_in};
use crate::entrance::Entrance;
use crate::surroundings::Surroundings;
use njh_sight::Label;
use njh_sites::{Asking, Door, try_again};
use njh_table::Protocol;
use njh_wire::{LineWire, Network};
use std::io::Write;

/// Tries the port of a line again if nothing listens there and the time for that came. If something
/// does, lets those in who wait to be accepted, and gives the line to one if it is free and isn't
/// stopped. Answers when the door is to be looked at again.
pub(crate) fn keep_door<N: Network + Drop, L: Write + Drop>(
    surroundings: &mut Surroundings<N, L>,
    door: &mut Door<N::Listener>,
    entrance: &mut Entrance<Asking<N::Connection>>,
    label: &mut Label,
    wire: &mut LineWire<N::Connection>,
    is_stopped: bool,
) -> u64
    ensures counts { wire.old.failures ≤ wire.new.failures }
    ensures tally { tally wire.new ≡ tally wire.old }
    ensures clock { wire.new.clock ≡ wire.old.clock }
    ensures now { surroundings.new.now ≡ surroundings.old.now }
    ensures customers { surroundings.new.customers ≡ surroundings.old.customers }
    ensures address { door_address N.address_of door.new ≡ door_address N.address_of door.old }
    ensures tried { IsSome (to_try door.old surroundings.old.now) → IsTried surroundings.old.now door.new }
    ensures from { entrance.new.from ≡ entrance.old.from }
    ensures allowed { AreAllowed entrance.old → AreAllowed entrance.new }
    ensures shut { IsLookedAtAgain door.new result }
    ensures stopped { IsTrue is_stopped → wire.new ≡ wire.old }
    ensures waits { to_try door.old surroundings.old.now ≡ None → IsSome (cause_in door.old) →
        (door.new ≡ door.old) × (wire.new ≡ wire.old) }
{
    try_door(surroundings, wire.place(), door, label);
    match door {
        Door::Open(listener) => {
            let again = let_in(surroundings, listener, entrance, label);
            look_in(surroundings, entrance, label, wire, is_stopped).min(again)
        }
        Door::Shut { again, .. } => *again,
    }
}

/// Gives the line to one who waits in its anteroom, or over TCP/IP to one whose OPEN names it. Answers
/// when the anteroom is to be looked at again.
fn look_in<N: Network + Drop, L: Write + Drop>(
    surroundings: &mut Surroundings<N, L>,
    entrance: &mut Entrance<Asking<N::Connection>>,
    label: &mut Label,
    wire: &mut LineWire<N::Connection>,
    is_stopped: bool,
) -> u64
    ensures counts { wire.old.failures ≤ wire.new.failures }
    ensures tally { tally wire.new ≡ tally wire.old }
    ensures clock { wire.new.clock ≡ wire.old.clock }
    ensures now { surroundings.new.now ≡ surroundings.old.now }
    ensures customers { surroundings.new.customers ≡ surroundings.old.customers }
    ensures from { entrance.new.from ≡ entrance.old.from }
    ensures allowed { AreAllowed entrance.old → AreAllowed entrance.new }
    ensures stopped { IsTrue is_stopped → wire.new ≡ wire.old }
{
    match wire.protocol() {
        Protocol::Bisync if is_stopped => u64::MAX,
        Protocol::Bisync => admit(surroundings, entrance, label, wire),
        Protocol::Tcp => hear_askers(surroundings, entrance, label, wire, is_stopped),
    }
}

/// Tries the port of a line again if the time for that came, and tells what became of it, unless it
/// is as before.
pub(crate) fn try_door<N: Network + Drop, L: Write + Drop>(
    surroundings: &mut Surroundings<N, L>,
    place: usize,
    door: &mut Door<N::Listener>,
    label: &Label,
)
    ensures address { door_address N.address_of door.new ≡ door_address N.address_of door.old }
    ensures tried { IsSome (to_try door.old surroundings.old.now) → IsTried surroundings.old.now door.new }
    ensures waits { to_try door.old surroundings.old.now ≡ None → door.new ≡ door.old }
    ensures now { surroundings.new.now ≡ surroundings.old.now }
    ensures customers { surroundings.new.customers ≡ surroundings.old.customers }
    ensures told { cause_in door.new ≢ cause_in door.old → (event : LogEvent)
        × IsTold L.contents (place_of label.now) event surroundings.old.now surroundings.old.log surroundings.new.log }
    ensures silent { cause_in door.new ≡ cause_in door.old → surroundings.new.log ≡ surroundings.old.log }
{
    let now = surroundings.now;
    match try_again(&mut surroundings.network, place, now, door) {
        Some(event) => surroundings.tell(label, event),
        None => {}
    }
}
