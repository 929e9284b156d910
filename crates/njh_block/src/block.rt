//! Blocks, read.

ghost use Rattle.std.specs.Prelude.{◌≡◌, ◌↔◌, [], IsTrue, drop, slice_get, option_map};
ghost use Rattle.njh_block.specs.Blocks.{Block as Seen, read_block, general_first};
ghost use Rattle.njh_block.specs.Grammar.{IsBlock, IsFault};
ghost use Rattle.njh_block.specs.ItemViews.{given_item, first_contents};

use crate::bcb::Bcb;
use crate::fault::BlockFault;
use crate::fcs::Fcs;
use crate::front_record::{check_records, ends, read_first, read_general};
use crate::item::Item;
use njh_record::Record;
use std::marker::Model;

/// A block of which a text is the whole, and how far its records were taken. A contract sees the
/// records that are left.
#[derive(Drop)]
pub struct Block<'a> {
    bcb: Bcb,
    fcs: Fcs,
    rest: &'a [u8],
}

impl<'a> Model for Block<'a> {
    ghost use Rattle.std.specs.Prelude.{IsOk, []};
    ghost use Rattle.std.specs.Result.{result_unwrap_or};
    ghost use Rattle.njh_block.specs.Blocks.{Block as Seen, items_in};

    ghost Value = { Seen };

    ghost view = { λ b. record { bcb = b.bcb; fcs = b.fcs; items = result_unwrap_or (items_in b.rest.now) [] } };

    ghost invariant = { λ b. IsOk (items_in b.rest.now) };
}

impl<'a> Block<'a> {
    /// Reads a text (IBM SC23-0070, "Multileaving"). It is checked to its end before any record is
    /// given: `TooShort` comes first, and then the first fault from the left is told.
    pub fn read(text: &'a [u8]) -> Result<Self, BlockFault>
        // It is the block that the text is by the grammar, or the fault that the text has by it.
        ensures block { (block : Seen) → (result ≡ Ok block) ↔ IsBlock text.now block }
        ensures fault { (fault : BlockFault) → (result ≡ Err fault) ↔ IsFault text.now fault }

        ensures exact { result ≡ read_block text.now }
    {
        Self::of_text(text)
    }

    fn of_text(text: &'a [u8]) -> Result<Self, BlockFault>
        ensures { result ≡ read_block text.now }
    {
        let [bcb, first, second, rest @ ..] = text else {
            return Err(BlockFault::TooShort);
        };
        let bcb = Bcb::read(*bcb).ok_or(BlockFault::BadBcb)?;
        let fcs = Fcs::read(*first, *second).ok_or(BlockFault::BadFcs)?;
        check_records(rest)?;
        Ok(Block { bcb, fcs, rest })
    }

    /// Its block control byte.
    pub fn bcb(&self) -> Bcb
        ensures { result ≡ self.now.bcb }
    {
        self.bcb
    }

    /// Its function control sequence.
    pub fn fcs(&self) -> Fcs
        ensures { result ≡ self.now.fcs }
    {
        self.fcs
    }

    /// Whether no record is left: the text ends, or the end of the block comes next.
    pub fn is_empty(&self) -> bool
        ensures { IsTrue result ↔ (self.now.items ≡ []) }
    {
        ends(self.rest)
    }

    /// The next record, if it is a general one: its SRCB, and the rest of the text.
    #[tactic(auto, using(crate::proofs::GeneralLaws::general_first_in))]
    pub fn first_general(&self) -> Option<(u8, &'a [u8])>
        ensures { option_map (λ x. (x.0, x.1.now)) result ≡ general_first self.now.items }
    {
        read_general(self.rest)
    }

    /// Takes the next record. The bytes of a `Data` are put in `contents`, which any other leaves
    /// empty.
    pub fn next(&mut self, contents: &mut Record) -> Option<Item<'a>>
        ensures first { option_map (given_item contents.new.items) result ≡ slice_get self.old.items 0 }
        ensures bytes { contents.new.items ≡ first_contents self.old.items }
        ensures rest { self.new ≡ record self.old { items = drop 1 self.old.items } }
    {
        let Ok(first) = read_first(self.rest, contents) else {
            unreachable!()
        };
        let (item, rest) = first?;
        self.rest = rest;
        Some(item)
    }
}
