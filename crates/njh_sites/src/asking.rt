//! Who asks for a line over TCP/IP.

ghost use Rattle.std.specs.Prelude.{◌≡◌, []};
ghost use Rattle.njh_sites.specs.Asking.{IsAnswer, IsAsked};

use crate::controls::{receive_up_to, send_record};
use njh_ebcdic::Name;
use njh_open::{Asker, Vacancy, Verdict};
use njh_wire::Connection;

/// A connection that waits for its line, and what has come of its OPEN. On a bisync line none is
/// asked for.
#[derive(Drop)]
pub struct Asking<C: Drop> {
    /// The connection.
    pub connection: C,
    /// What has come of its OPEN.
    pub asker: Asker,
}

/// What came of who asks for a line.
#[derive(Clone, Copy, Debug, PartialEq, Eq)]
pub enum Heard {
    /// Its OPEN isn't whole.
    Waits,
    /// It sent no OPEN in time, or is gone.
    Gone,
    /// It was answered what this says.
    Answered(Verdict),
}

impl<C: Connection + Drop> Asking<C> {
    /// It came now, by the clock in milliseconds.
    pub fn new(connection: C, now: u64) -> Asking<C>
        ensures { result ≡ record { connection = connection; asker = record { came = []; since = now } } }
    {
        Asking {
            connection,
            asker: Asker::new(now),
        }
    }

    /// Hears its OPEN as far as it came, and nothing that is behind it. Once that is whole it is
    /// answered, by how the line of these names is to it.
    pub fn hear(&mut self, node: &Name, hub: &Name, vacancy: Vacancy, now: u64) -> Heard
        ensures answer { IsAnswer C.moved node.now hub.now vacancy self.old self.new result }
        ensures place { C.place_of self.new.connection ≡ C.place_of self.old.connection }
    {
        let is_over = self.listen();
        match self.asker.verdict(node, hub, vacancy) {
            None => {
                if is_over || self.asker.deadline() <= now {
                    Heard::Gone
                } else {
                    Heard::Waits
                }
            }
            Some((verdict, answer)) => {
                if send_record(&mut self.connection, &answer) {
                    Heard::Answered(verdict)
                } else {
                    Heard::Gone
                }
            }
        }
    }

    /// Hears its OPEN as far as it came. Answers whether no more comes.
    fn listen(&mut self) -> bool
        ensures heard { IsAsked C.moved self.old self.new [] }
        ensures place { C.place_of self.new.connection ≡ C.place_of self.old.connection }
    {
        let (bytes, is_over) = receive_up_to(&mut self.connection, self.asker.lacks());
        self.asker.take(bytes.as_slice());
        is_over
    }
}
