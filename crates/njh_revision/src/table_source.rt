//! Where the tables of a hub that runs come from when they change.

use njh_presence::SpoolSeen;
use njh_table::{TableFault, Tables};
use std::fmt;

/// What a hub that runs reads of files: its tables, and what stands where its files are kept.
pub trait TableSource {
    ghost use Rattle.std.specs.Prelude.{ℕ, List, IfSome, Option, None, Some, Result};
    ghost use Rattle.njh_table.specs.TableFile.{TableFile};

    /// Why it gives no tables.
    type Fault: fmt::Display + Drop;

    /// What a read of it gives; or one of the file of this name.
    ghost gives: { Option (List ℕ) → Result TableFile Self.Fault → Type 0 };

    /// What stands at the paths of the spool file and of its log, if the hub's files are kept.
    fn seen(&self) -> Option<SpoolSeen>;

    /// Its tables, or why it gives none, if it isn't as it was at the last look. It never waits.
    fn changed(&mut self) -> Option<Result<Tables, Self::Fault>>
        ensures { IfSome result (gives None) };

    /// Its tables, or why it gives none, whether it is as it was at the last look or not. It counts
    /// as looked at then.
    fn read(&mut self) -> Result<Tables, Self::Fault>
        ensures { gives None result };

    /// The tables of the file of this name, or why it gives none.
    fn read_at(&self, name: &str) -> Result<Tables, Self::Fault>
        ensures { gives (Some name.now) result };
}

/// What never changes, and can't be read.
#[derive(Clone, Copy, Debug, Drop)]
pub struct NoSource;

impl TableSource for NoSource {
    ghost use Rattle.std.specs.Prelude.{⊤};

    type Fault = TableFault;

    ghost gives = { λ _ _. ⊤ };

    fn seen(&self) -> Option<SpoolSeen> {
        None
    }

    fn changed(&mut self) -> Option<Result<Tables, TableFault>> {
        None
    }

    fn read(&mut self) -> Result<Tables, TableFault> {
        Err(TableFault::Memory)
    }

    fn read_at(&self, _name: &str) -> Result<Tables, TableFault> {
        Err(TableFault::Memory)
    }
}
