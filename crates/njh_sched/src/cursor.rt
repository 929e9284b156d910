//! The search for the files that may go on a line.

ghost use Rattle.std.specs.Prelude.{◌≡◌, ◌<◌, ◌≤◌, ◌-◌, ◌^◌, false, length, slice_get, ◌&&◌};
ghost use Rattle.std.specs.Option.{option_map};
ghost use Rattle.njh_spool.specs.Spools.{spool_at};
ghost use Rattle.njh_stream.specs.Sending.{destination_goes_by, node_goes_by};
ghost use Rattle.njh_table.specs.TableFile.{entry_of};
ghost use Rattle.njh_sched.specs.NextBlock.{is_ready, oldest, same_kind};
ghost use Rattle.njh_sched.specs.code.FileCursor.{GoesOn, HasPassed, IsOver, files_of, first_file, goes_of, index_of};
ghost use Rattle.njh_sched.specs.code.FileCursor.{is_known_to_go, cursor_at, other};

use crate::files::{Elsewhere, goes_there, is_among, is_ready, other, pass_where, same_kind};
use njh_header::Destination;
use njh_record::Kind;
use njh_spool::{FileId, FileSummary, Spool};
use njh_table::{LineId, NamedCustomer};
use std::marker::Model;

/// A search of a customer's whole files, oldest first, for those that may go on a line. For each
/// kind of file it has an index: no file of the kind before it is Ready and goes by the line.
#[derive(Drop)]
pub struct Cursor<'a> {
    entry: &'a NamedCustomer,
    id: LineId,
    sysin: u32,
    sysout: u32,
    /// Nodes that don't go by the line. Their files are passed without a look at the routes.
    elsewhere: Elsewhere,
}

impl<'a> Model for Cursor<'a> {
    ghost use Rattle.std.specs.Prelude.{◌≡◌, false};
    ghost use Rattle.std.specs.List.{list_any};
    ghost use Rattle.njh_stream.specs.Sending.{node_goes_by};
    ghost use Rattle.njh_table.specs.TableFile.{entry_of};
    ghost use Rattle.njh_sched.specs.code.FileCursor.{FileCursor};

    ghost Value = { FileCursor };

    ghost view = { λ x. record { entry = x.entry.now; id = x.id; sysin = x.sysin; sysout = x.sysout } };

    ghost invariant = { λ x. list_any (node_goes_by (entry_of x.entry.now) x.id.number) x.elsewhere.items ≡ false };
}

impl<'a> Cursor<'a> {
    /// Before the first file of a line's customer, whose entry is given.
    pub fn new(id: LineId, entry: &'a NamedCustomer) -> Self
        ensures { result ≡ first_file entry.now id }
    {
        Cursor {
            entry,
            id,
            sysin: 0,
            sysout: 0,
            elsewhere: Elsewhere::new(),
        }
    }

    /// The line.
    pub fn id(&self) -> LineId
        ensures { result ≡ self.now.id }
    {
        self.id
    }

    /// The index for a kind.
    fn index(&self, kind: Kind) -> u32
        ensures { result ≡ index_of kind self.now }
    {
        match kind {
            Kind::In => self.sysin,
            Kind::Out => self.sysout,
        }
    }

    /// Moves to an index for a kind, and to one for the other.
    fn set(&mut self, kind: Kind, index: u32, others: u32)
        ensures { self.new ≡ cursor_at kind index others self.old }
    {
        match kind {
            Kind::In => {
                self.sysin = index;
                self.sysout = others;
            }
            Kind::Out => {
                self.sysin = others;
                self.sysout = index;
            }
        }
    }

    /// Whether a node isn't known not to go by the line.
    fn may_reach(&self, node: &[u8; 8]) -> bool
        ensures { result ≡ false → node_goes_by (entry_of self.now.entry) self.now.id.number node.now ≡ false }
    {
        !is_among(&self.elsewhere, node)
    }

    /// Whether there is a destination, and its node isn't known not to go by the line.
    fn may_arrive(&self, destination: &Option<Destination>) -> bool
        ensures { result ≡ false
            → destination_goes_by (entry_of self.now.entry) self.now.id.number destination.now ≡ false }
    {
        match destination {
            Some(destination) => self.may_reach(&destination.node),
            None => false,
        }
    }

    /// Whether a file is Ready, of a kind, and not for a node that is known not to go by the line:
    /// others need no look at the routes.
    fn is_likely(&self, kind: Kind, file: &FileSummary) -> bool
        ensures { result ≡ false → is_known_to_go self.now kind file.now ≡ false }
    {
        if is_ready(file.state) && same_kind(file.kind, kind) {
            self.may_arrive(&file.headers.destination)
        } else {
            false
        }
    }

    /// Whether a destination's node goes by the line.
    fn is_destined(&mut self, destination: Option<Destination>) -> bool
        ensures goes { result ≡ destination_goes_by (entry_of self.old.entry) self.old.id.number destination }
        ensures cursor { self.new ≡ self.old }
    {
        match destination {
            Some(destination) => goes_there(
                self.entry,
                self.id.number,
                &destination.node,
                &mut self.elsewhere,
            ),
            None => false,
        }
    }

    /// Whether a file is Ready, of a kind, and goes by the line.
    fn may_go(&mut self, kind: Kind, file: &FileSummary) -> bool
        ensures may { result ≡ is_known_to_go self.old kind file.now }
        ensures cursor { self.new ≡ self.old }
    {
        if is_ready(file.state) && same_kind(file.kind, kind) {
            self.is_destined(file.headers.destination)
        } else {
            false
        }
    }

    /// The index of the first file, from the index for a kind on, that is likely to go, and the
    /// index for the other kind, moved on over the files that are looked at. Where there is no such
    /// file the first is how many files there are.
    // It stands apart, so that what the loop needs stays in registers.
    #[inline(never)]
    fn first_likely(&self, kind: Kind, spool: &Spool) -> (u32, u32)
        requires { IsOver self.now spool.now }
        ensures index { HasPassed (goes_of self.now) kind result.0 (files_of self.now spool.now) }
        ensures others { HasPassed (goes_of self.now) (other kind) result.1 (files_of self.now spool.now) }
        ensures onward { index_of kind self.now ≤ result.0 }
    {
        let customer = self.id().customer;
        let files = spool.files(customer);
        let mut others = self.index(other(kind));
        for index in self.index(kind)..files {
            let file = spool.summary_at(customer, index);
            pass_where(index, kind, &file, &mut others);
            if self.is_likely(kind, &file) {
                return (index, others);
            }
        }
        (files, others)
    }

    /// Moves on to the customer's oldest file that is Ready, of a kind, and goes by the line, and
    /// gives its number; behind the last one where there is none.
    pub fn oldest(&mut self, kind: Kind, spool: &Spool) -> Option<FileId>
        requires { IsOver self.old spool.now }
        ensures oldest { result
            ≡ option_map (λ f. f.number) (oldest (goes_of self.old) kind (files_of self.old spool.now)) }
        ensures cursor { GoesOn self.old self.new spool.now }
    {
        let customer = self.id().customer;
        let files = spool.files(customer);
        while self.index(kind) < files {
            let (index, others) = self.first_likely(kind, spool);
            self.set(kind, index, others);
            if index >= files {
                return None;
            }
            let file = spool.summary_at(customer, index);
            if self.may_go(kind, &file) {
                return Some(file.id);
            }
            self.set(kind, index + 1, others);
        }
        None
    }
}
