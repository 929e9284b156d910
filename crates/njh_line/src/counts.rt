//! The count rule (IBM SC23-0070, "Multileaving").

ghost use Rattle.std.specs.Prelude.{◌≡◌, ◌<◌};
ghost use Rattle.njh_line.specs.Counts.{after_acting, count_after, count_verdict, expected_count, is_repeat, is_taken};

use crate::session::Session;
use njh_block::{Bcb, Fcs, Numbering};

/// Counts go modulo 16.
pub(crate) const COUNTS: u8 = 16;

/// What a block does by its BCB.
#[derive(Clone, Copy)]
pub(crate) enum Counted {
    /// It is acted on.
    Acts,
    /// It is the last one again.
    Repeats,
    /// Its count isn't one of those taken.
    OutOfSequence,
}

impl Session {
    /// The count that the hub expects.
    pub(crate) fn expected(&self) -> u8
        ensures value { result ≡ expected_count self.now.last_bcb }
        ensures bound { result < 16 }
    {
        match self.last_bcb {
            None => 0,
            Some(last) => match last.numbering() {
                Numbering::Setting => last.count(),
                Numbering::Normal | Numbering::Unchecked => count_after(last),
            },
        }
    }

    /// Whether a count is one of those taken: before any block 0 and 1; after a block that set the
    /// count that one and the next; after another the next alone.
    fn takes(&self, count: u8) -> bool
        ensures { result ≡ is_taken self.now.last_bcb count }
    {
        match self.last_bcb {
            None => count == 0 || count == 1,
            Some(last) => match last.numbering() {
                Numbering::Setting => count == last.count() || count == count_after(last),
                Numbering::Normal | Numbering::Unchecked => count == count_after(last),
            },
        }
    }

    /// Whether a block is the last one again.
    fn repeats(&self, bcb: Bcb) -> bool
        ensures { result ≡ is_repeat self.now.last_bcb bcb }
    {
        match self.last_bcb {
            None => false,
            Some(last) => last.byte() == bcb.byte(),
        }
    }

    /// Only a block whose count isn't checked acts twice.
    pub(crate) fn counted(&self, bcb: Bcb) -> Counted
        ensures { result ≡ count_verdict self.now.last_bcb bcb }
    {
        let numbering = bcb.numbering();
        if numbering == Numbering::Unchecked {
            Counted::Acts
        } else if self.repeats(bcb) {
            Counted::Repeats
        } else if numbering == Numbering::Setting || self.takes(bcb.count()) {
            Counted::Acts
        } else {
            Counted::OutOfSequence
        }
    }

    /// The session once a block is acted on.
    pub(crate) fn after_acting(&self, bcb: Bcb, fcs: Fcs) -> Session
        ensures { result ≡ after_acting bcb fcs self.now }
    {
        let last_bcb = match bcb.numbering() {
            Numbering::Unchecked => self.last_bcb,
            Numbering::Normal | Numbering::Setting => Some(bcb),
        };
        Session {
            tries: 0,
            last_bcb,
            peer_fcs: fcs,
            ..*self
        }
    }
}

fn count_after(last: Bcb) -> u8
    ensures value { result ≡ count_after last }
    ensures bound { result < 16 }
{
    (last.count() + 1) % COUNTS
}
