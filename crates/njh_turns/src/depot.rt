//! Who opens a hub with the whole files that were kept.

ghost use Rattle.std.specs.Prelude.{◌≡◌, map, IfOk};
ghost use Rattle.njh_hub.specs.Parts.{entries_of};
ghost use Rattle.njh_hub.specs.WholeHub.{SameLines, part_at_open};
ghost use Rattle.njh_turns.specs.Keeping.{IsSettled};

use crate::keeper::{Keeper, KeepsNothing};
use njh_hub::Hub;
use njh_table::Tables;
use std::alloc::Global;
use std::fmt;
use thiserror::Error;

/// Why no hub is opened.
#[derive(Clone, Copy, Debug, PartialEq, Eq, Error)]
pub enum DepotFault {
    /// There was no memory.
    #[error("U3 Memory")]
    Memory,
    /// What is kept can't be read or written.
    #[error("device")]
    Device,
    /// A whole file that was kept can't be put back. Which one, and why, the depot tells.
    #[error("a kept file can't be put back")]
    Refused,
}

/// Opens a hub whose customers have the whole files that a keeper keeps.
pub trait Depot: Keeper {
    ghost use Rattle.std.specs.Prelude.{List, Result};
    ghost use Rattle.njh_table.specs.TableFile.{TableFile};
    ghost use Rattle.njh_hub.specs.WholeHub.{Part};
    ghost use Rattle.njh_turns.specs.declared.depot.DepotFault.{DepotFault};

    /// Which customers' parts a hub of tables has that was just opened, by what was kept before the
    /// opening, and by the depot behind it.
    ghost opens: { Self → Self → TableFile → List Part → Type 0 };

    /// What may be there of the files that were kept once an opening has ended so, or was broken off,
    /// by what was kept before it, and by the depot behind it.
    ghost spares: { Self → Self → Result (List Part) DepotFault → Type 0 };

    /// Opens a hub of these tables. All lines are down, and each customer has those of its entry.
    fn open(&mut self, alloc: Global, tables: Tables) -> Result<Hub, DepotFault>
        ensures opened { IfOk result (λ hub. opens self.old self.new tables hub) }
        ensures lines { IfOk result (λ hub. SameLines (map part_at_open (entries_of tables)) hub) }
        ensures settled { IfOk result (λ hub. IsSettled Self.says self.new hub) }
        ensures spared { spares self.old self.new result };

    /// When the whole file at this index of a customer's, in their order of arrival, came to the hub
    /// that kept it, in seconds since the beginning of 1970; none if that isn't known. Asked right
    /// after an opening.
    fn came(&self, customer: u16, index: u32) -> Option<u64>;

    /// Writes the thing of this number, counted from 0, that an operator is to know of what was
    /// opened: a few words without an end of line. None if there are no more.
    fn tell<W: fmt::Write>(&self, number: usize, to: &mut W) -> Option<fmt::Result>;
}

impl Depot for KeepsNothing {
    ghost use Rattle.std.specs.Prelude.{◌≡◌, map, ⊤};
    ghost use Rattle.njh_hub.specs.Parts.{entries_of};
    ghost use Rattle.njh_hub.specs.WholeHub.{part_at_open};

    ghost opens = { λ before behind table parts. parts ≡ map part_at_open (entries_of table) };

    ghost spares = { λ before behind result. ⊤ };

    fn open(&mut self, alloc: Global, tables: Tables) -> Result<Hub, DepotFault> {
        match Hub::open(alloc, tables) {
            Ok(hub) => Ok(hub),
            Err(_) => Err(DepotFault::Memory),
        }
    }

    fn came(&self, _customer: u16, _index: u32) -> Option<u64> {
        None
    }

    fn tell<W: fmt::Write>(&self, _number: usize, _to: &mut W) -> Option<fmt::Result> {
        None
    }
}
