//! What the attendant has around the lines.

ghost use Rattle.std.specs.Prelude.{◌≡◌, ◌<◌, ◌≤◌, [], ◌∷◌, ◌++◌, length, nat_lt, remove, slice_get, IfSome};
ghost use Rattle.std.specs.Net.Socket.{socket_ip};
ghost use Rattle.njh_table.specs.Ranges.{number_of};
ghost use Rattle.njh_anteroom.specs.Next.{entry_of, guest_at, next_place, without_place};
ghost use Rattle.njh_anteroom.specs.Waiting.{number_in, seated, HasPlace};
ghost use Rattle.njh_log.specs.Limiting.{AreTold, AreWritten, IsTold, IsToldText, Writes};
ghost use Rattle.njh_log.specs.Spells.{due_in};
ghost use Rattle.njh_lines.specs.Connecting.{place_of};
ghost use Rattle.njh_lines.specs.Entrances.{recounted};

use njh_anteroom::{Anteroom, Entry, Guest};
use njh_ebcdic::Name;
use njh_log::{EventKind, Heading, LimitedLog, Log, LogEvent, Place, Severity};
use njh_sight::{Customers, Label};
use njh_wire::Network;
use std::alloc::Global;
use std::fmt;
use std::io::Write;
use std::net::SocketAddr;

/// The network, the time on its clock, the log, and what is kept of each customer.
#[derive(Drop)]
pub(crate) struct Surroundings<N: Network + Drop, L: Write + Drop> {
    pub(crate) network: N,
    pub(crate) log: LimitedLog<L>,
    pub(crate) now: u64,
    pub(crate) customers: Customers,
    /// How many commands of users were carried out before the step that was followed last, and in
    /// it.
    pub(crate) commands: u64,
    /// How many wait in the anterooms of all lines, and how many may.
    pub(crate) guests: u64,
    pub(crate) most_guests: u64,
    /// Where anterooms take their memory, as lines are added, and connections over TCP/IP.
    pub(crate) alloc: Global,
}

impl<N: Network + Drop, L: Write + Drop> Surroundings<N, L> {
    /// The log, where nothing more is done.
    pub(crate) fn into_log(self) -> Log<L>
        ensures { AreWritten L.contents (due_in 18446744073709551615 self.log.spells) self.log.log result }
    {
        let Surroundings {
            mut network,
            log,
            ..
        } = self;
        let milliseconds = network.utc();
        log.into_log(milliseconds)
    }

    /// Tells of events that were counted in place of being told, where the time for that came.
    pub(crate) fn tell_counted(&mut self)
        ensures now { self.new.now ≡ self.old.now }
        ensures customers { self.new.customers ≡ self.old.customers }
        ensures looks { self.old.log.again ≤ self.old.now →
            AreTold L.contents self.old.now self.old.log self.new.log }
        ensures waits { self.old.now < self.old.log.again → self.new.log ≡ self.old.log }
    {
        let milliseconds = self.network.utc();
        self.log.look(milliseconds, self.now);
    }

    /// A connection comes to an anteroom, as long as in all of them no more wait than may.
    pub(crate) fn seat<C: Drop>(
        &mut self,
        anteroom: &mut Anteroom<C>,
        connection: C,
        address: SocketAddr,
    ) -> Entry
        ensures entry { result ≡ entry_of (number_of (socket_ip address)) self.old.now
            (nat_lt self.old.guests self.old.most_guests) anteroom.old.remembered anteroom.old.waiting }
        ensures waiting { anteroom.new.waiting ≡ seated result
            (record { connection = connection; address = address; since = self.old.now }) anteroom.old.waiting }
        ensures remembered { anteroom.new.remembered ≡ anteroom.old.remembered }
        ensures guests { self.new ≡ record self.old {
          guests =
              recounted self.old.guests (length anteroom.old.waiting) (length anteroom.new.waiting);
        } }
    {
        let before = anteroom.waiting().len();
        let may_grow = self.guests < self.most_guests;
        let entry = anteroom.come(connection, address, self.now, may_grow);
        self.recount(before, anteroom.waiting().len());
        entry
    }

    /// Takes out of an anteroom whom its line is to be given now.
    pub(crate) fn next_of<C: Drop>(&mut self, anteroom: &mut Anteroom<C>) -> Option<Guest<C>>
        ensures guest { result ≡ guest_at (next_place self.old.now anteroom.old.remembered anteroom.old.waiting)
            anteroom.old.waiting }
        ensures waiting { anteroom.new.waiting ≡ without_place
            (next_place self.old.now anteroom.old.remembered anteroom.old.waiting) anteroom.old.waiting }
        ensures remembered { anteroom.new.remembered ≡ anteroom.old.remembered }
        ensures guests { self.new ≡ record self.old {
          guests =
              recounted self.old.guests (length anteroom.old.waiting) (length anteroom.new.waiting);
        } }
    {
        let before = anteroom.waiting().len();
        let guest = anteroom.next(self.now);
        self.recount(before, anteroom.waiting().len());
        guest
    }

    /// Takes out of an anteroom who waits before all others, and may wait again.
    pub(crate) fn first_of<C: Drop>(&mut self, anteroom: &mut Anteroom<C>) -> Option<Guest<C>>
        ensures guest { result ≡ slice_get anteroom.old.waiting 0 }
        ensures now { self.new.now ≡ self.old.now }
        ensures waiting { anteroom.new ≡ record anteroom.old { waiting = remove anteroom.old.waiting 0 } }
        ensures returns { IfSome result (λ guest. HasPlace (number_in guest) anteroom.new.waiting) }
        ensures guests { self.new ≡ record self.old {
          guests =
              recounted self.old.guests (length anteroom.old.waiting) (length anteroom.new.waiting);
        } }
    {
        let before = anteroom.waiting().len();
        let guest = anteroom.take_first();
        self.recount(before, anteroom.waiting().len());
        guest
    }

    /// One that was taken out of an anteroom waits there again, behind all others.
    pub(crate) fn put_back<C: Drop>(&mut self, anteroom: &mut Anteroom<C>, guest: Guest<C>)
        requires { HasPlace (number_in guest) anteroom.old.waiting }
        ensures waiting { anteroom.new ≡ record anteroom.old { waiting = anteroom.old.waiting ++ guest ∷ [] } }
        ensures guests { self.new ≡ record self.old {
          guests =
              recounted self.old.guests (length anteroom.old.waiting) (length anteroom.new.waiting);
        } }
    {
        let before = anteroom.waiting().len();
        anteroom.put_last(guest);
        self.recount(before, anteroom.waiting().len());
    }

    /// Nobody waits in an anteroom any more.
    pub(crate) fn clear<C: Drop>(&mut self, anteroom: &mut Anteroom<C>)
        ensures waiting { anteroom.new ≡ record anteroom.old { waiting = [] } }
        ensures guests { self.new ≡ record self.old {
          guests =
              recounted self.old.guests (length anteroom.old.waiting) 0;
        } }
    {
        let before = anteroom.waiting().len();
        anteroom.close_all();
        self.recount(before, 0);
    }

    /// So many waited in an anteroom before, and so many do now.
    fn recount(&mut self, before: usize, after: usize)
        ensures { self.new ≡ record self.old { guests = recounted self.old.guests before after } }
    {
        let all = self.guests.saturating_add(after as u64);
        self.guests = all.saturating_sub(before as u64);
    }

    /// Tells of a line.
    pub(crate) fn tell(&mut self, label: &Label, event: LogEvent)
        ensures now { self.new.now ≡ self.old.now }
        ensures customers { self.new.customers ≡ self.old.customers }
        ensures told { IsTold L.contents (place_of label.now) event self.old.now self.old.log self.new.log }
    {
        self.tell_at(Place::Line(label.customer, label.line), event);
    }

    /// Tells of a customer.
    pub(crate) fn tell_of(&mut self, customer: Name, event: LogEvent)
        ensures now { self.new.now ≡ self.old.now }
        ensures customers { self.new.customers ≡ self.old.customers }
        ensures told { IsTold L.contents (Place.Customer customer) event self.old.now self.old.log self.new.log }
    {
        self.tell_at(Place::Customer(customer), event);
    }

    /// Tells what happened somewhere.
    pub(crate) fn tell_at(&mut self, place: Place, event: LogEvent)
        ensures now { self.new.now ≡ self.old.now }
        ensures customers { self.new.customers ≡ self.old.customers }
        ensures told { IsTold L.contents place event self.old.now self.old.log self.new.log }
    {
        let milliseconds = self.network.utc();
        self.log.tell(milliseconds, self.now, place, &event);
    }

    /// Tells of an event of a kind by this text.
    pub(crate) fn tell_text<T: fmt::Display>(
        &mut self,
        kind: EventKind,
        severity: Severity,
        place: Place,
        text: &T,
    )
        ensures now { self.new.now ≡ self.old.now }
        ensures customers { self.new.customers ≡ self.old.customers }
        ensures told { IsToldText L.contents place kind self.old.now self.old.log self.new.log }
    {
        let heading = Heading {
            milliseconds: self.network.utc(),
            severity,
            place,
        };
        self.log.tell_text(heading, self.now, kind, text);
    }

    /// Writes a line of the log, with the time, however many there are.
    pub(crate) fn write<T: fmt::Display>(&mut self, severity: Severity, place: Place, text: &T)
        ensures now { self.new.now ≡ self.old.now }
        ensures customers { self.new.customers ≡ self.old.customers }
        ensures written { Writes L.contents self.old.log.log self.new.log.log }
    {
        let heading = Heading {
            milliseconds: self.network.utc(),
            severity,
            place,
        };
        self.log.log.write(heading, text);
    }
}
