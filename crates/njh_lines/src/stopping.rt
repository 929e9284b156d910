//! What is done with a line that is stopped.

ghost use Rattle.std.specs.Prelude.{◌≡◌, ◌≤◌};
ghost use Rattle.njh_wire.specs.Tally.{tally};
ghost use Rattle.njh_lines.specs.Connecting.{IsConnected};
ghost use Rattle.njh_sites.specs.Doors.{door_address, IsLookedAtAgain};
ghost use Rattle.njh_sites.specs.Opened.{site_kept};

use crate::doors::{keep_door, try_door};
use crate::entrance::Entrance;
use crate::post::Post;
use crate::surroundings::Surroundings;
use njh_sight::Label;
use njh_sites::{Admission, Asking, Door, Site, listens_again};
use njh_table::Protocol;
use njh_wire::{LineWire, Network, Readiness};
use std::io::Write;

/// Keeps a line stopped: its connection ends, peers that wait are let go, and nobody is dialled.
pub(crate) fn hold<N: Network + Drop, L: Write + Drop>(
    surroundings: &mut Surroundings<N, L>,
    post: &mut Post<N::Listener, N::Connection>,
    wire: &mut LineWire<N::Connection>,
    mark: Readiness,
)
    ensures counts { wire.old.failures ≤ wire.new.failures }
    ensures tally { tally wire.new ≡ tally wire.old }
    ensures clock { wire.new.clock ≡ wire.old.clock }
    ensures line { post.new.line ≡ post.old.line }
    ensures site { site_kept N.address_of post.new.site ≡ site_kept N.address_of post.old.site }
    ensures state { post.new.state ≡ post.old.state }
    ensures from { post.new.entrance.from ≡ post.old.entrance.from }
    ensures ended { ¬ IsConnected wire.new }
    ensures now { surroundings.new.now ≡ surroundings.old.now }
    ensures customers { surroundings.new.customers ≡ surroundings.old.customers }
{
    wire.close();
    match &mut post.site {
        Site::Listens(door) => {
            let entrance = &mut post.entrance;
            if mark.listener || mark.reads || post.moment <= surroundings.now {
                post.moment = refuse(surroundings, door, entrance, &mut post.label, wire);
            }
        }
        Site::Dials(dial) => {
            dial.halt();
            post.moment = u64::MAX;
        }
    }
}

/// Lets go who waits; over TCP/IP each is heard, and answered that the line is stopped. Answers when
/// the door is to be looked at again.
fn refuse<N: Network + Drop, L: Write + Drop>(
    surroundings: &mut Surroundings<N, L>,
    door: &mut Door<N::Listener>,
    entrance: &mut Entrance<Asking<N::Connection>>,
    label: &mut Label,
    wire: &mut LineWire<N::Connection>,
) -> u64
    ensures counts { wire.old.failures ≤ wire.new.failures }
    ensures tally { tally wire.new ≡ tally wire.old }
    ensures clock { wire.new.clock ≡ wire.old.clock }
    ensures now { surroundings.new.now ≡ surroundings.old.now }
    ensures customers { surroundings.new.customers ≡ surroundings.old.customers }
    ensures from { entrance.new.from ≡ entrance.old.from }
    ensures address { door_address N.address_of door.new ≡ door_address N.address_of door.old }
    ensures shut { IsLookedAtAgain door.new result }
    ensures stands { wire.new ≡ wire.old }
{
    match wire.protocol() {
        Protocol::Bisync => {
            surroundings.clear(&mut entrance.anteroom);
            turn_away(surroundings, wire.place(), door, label)
        }
        Protocol::Tcp => keep_door(surroundings, door, entrance, label, wire, true),
    }
}

/// Lets go a peer that waits to be accepted. A port on which nothing listens is tried again if
/// the time for that came. Answers when the door is to be looked at again.
fn turn_away<N: Network + Drop, L: Write + Drop>(
    surroundings: &mut Surroundings<N, L>,
    place: usize,
    door: &mut Door<N::Listener>,
    label: &Label,
) -> u64
    ensures now { surroundings.new.now ≡ surroundings.old.now }
    ensures customers { surroundings.new.customers ≡ surroundings.old.customers }
    ensures address { door_address N.address_of door.new ≡ door_address N.address_of door.old }
    ensures shut { IsLookedAtAgain door.new result }
{
    try_door(surroundings, place, door, label);
    match door {
        Door::Open(listener) => {
            let admission = let_go(surroundings, listener);
            listens_again(admission, surroundings.now)
        }
        Door::Shut { again, .. } => *again,
    }
}

/// Accepts a peer that waits, if there is one, and ends its connection.
fn let_go<N: Network + Drop, L: Write + Drop>(
    surroundings: &mut Surroundings<N, L>,
    listener: &mut N::Listener,
) -> Admission
    ensures now { surroundings.new.now ≡ surroundings.old.now }
    ensures customers { surroundings.new.customers ≡ surroundings.old.customers }
    ensures address { N.address_of listener.new ≡ N.address_of listener.old }
{
    match surroundings.network.accept(listener) {
        Ok(Some(_)) => Admission::Taken,
        Ok(None) => Admission::NobodyWaits,
        Err(_) => Admission::NotTaken,
    }
}
