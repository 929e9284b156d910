//! The tables of a hub that runs, as it was opened with them and as they were taken last.

ghost use Rattle.std.specs.Prelude.{◌≡◌};

use njh_table::Tables;
use std::marker::Model;

/// The tables of a hub that runs.
#[derive(Drop)]
pub(crate) struct Known {
    /// Those that it was opened with.
    pub(crate) opened: Tables,
    /// Those that were taken last, if any were.
    taken: Option<Tables>,
}

impl Model for Known {
    ghost use Rattle.njh_revision.specs.Revisions.{last_of, KnownTables};

    ghost Value = { KnownTables };

    ghost view = { λ known. record {
      opened = known.opened;
      last = last_of known.opened known.taken;
    } };
}

impl Known {
    /// Tables with which a hub was opened.
    pub(crate) fn new(tables: Tables) -> Known
        ensures { result ≡ record { opened = tables; last = tables } }
    {
        Known {
            opened: tables,
            taken: None,
        }
    }

    /// The tables by which customers are given routes.
    pub(crate) fn last(&self) -> &Tables
        ensures { result.now ≡ self.now.last }
    {
        match &self.taken {
            Some(tables) => tables,
            None => &self.opened,
        }
    }

    /// Takes new tables. Answers those that were taken before, if any were.
    pub(crate) fn take(&mut self, tables: Tables) -> Option<Tables>
        ensures { self.new ≡ record self.old { last = tables } }
    {
        std::mem::replace(&mut self.taken, Some(tables))
    }
}
