//! From where the peer of a line may connect, once that changed.

ghost use Rattle.std.specs.Prelude.{◌≡◌, ◌≢◌};
ghost use Rattle.njh_log.specs.Limiting.{IsToldText};
ghost use Rattle.njh_log.specs.declared.event_kind.EventKind.TheVariants.{Ports};
ghost use Rattle.njh_lines.specs.Connecting.{place_of};

use crate::post::Post;
use crate::surroundings::Surroundings;
use njh_log::{EventKind, Place, Severity};
use njh_table::{AddressRange, AddressRanges};
use njh_wire::Network;
use std::fmt;
use std::io::Write;

/// The peer of a line may connect from there from now on; who waits, waits on. If it isn't from
/// where it might before the log tells it.
pub(crate) fn take_from<N: Network + Drop, L: Write + Drop>(
    surroundings: &mut Surroundings<N, L>,
    post: &mut Post<N::Listener, N::Connection>,
    from: &AddressRanges,
)
    ensures taken { post.new ≡ record post.old { entrance = record post.old.entrance { from = from.now } } }
    ensures now { surroundings.new.now ≡ surroundings.old.now }
    ensures customers { surroundings.new.customers ≡ surroundings.old.customers }
    ensures silent { from.now ≡ post.old.entrance.from → surroundings.new ≡ surroundings.old }
    ensures logged { from.now ≢ post.old.entrance.from →
        IsToldText L.contents (place_of post.old.label) Ports surroundings.old.now surroundings.old.log
        surroundings.new.log }
{
    let stays = from.is_same(&post.entrance.from);
    post.entrance.from = from.copy();
    if !stays {
        tell_from(surroundings, post, from);
    }
}

/// The log tells from where a line takes connections now.
fn tell_from<N: Network + Drop, L: Write + Drop>(
    surroundings: &mut Surroundings<N, L>,
    post: &Post<N::Listener, N::Connection>,
    from: &AddressRanges,
)
    ensures now { surroundings.new.now ≡ surroundings.old.now }
    ensures customers { surroundings.new.customers ≡ surroundings.old.customers }
    ensures logged { IsToldText L.contents (place_of post.now.label) Ports surroundings.old.now surroundings.old.log
        surroundings.new.log }
{
    surroundings.tell_text(
        EventKind::Ports,
        Severity::Information,
        Place::Line(post.label.customer, post.label.line),
        &NewFrom(from),
    );
}

/// From where a line takes connections now.
#[derive(Clone, Copy, Drop)]
struct NewFrom<'a>(&'a AddressRanges);

impl fmt::Display for NewFrom<'_> {
    fn fmt<W: fmt::Write>(&self, f: &mut fmt::Formatter<W>) -> fmt::Result {
        f.write_str("takes connections from")?;
        let ranges = self.0.as_slice();
        if ranges.is_empty() {
            return f.write_str(" anywhere");
        }
        for range in ranges {
            write_range(f, range)?;
        }
        Ok(())
    }
}

/// Writes a range behind a blank: an address by itself, or an address and how many of its first bits
/// count.
fn write_range<W: fmt::Write>(f: &mut fmt::Formatter<W>, range: &AddressRange) -> fmt::Result {
    let address = range.address;
    if range.is_single() {
        return write!(f, " {address}");
    }
    write!(f, " {address}/{}", range.bits)
}
