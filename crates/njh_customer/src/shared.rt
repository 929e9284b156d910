//! What all customers share, and a step of one of them changes.

ghost use Rattle.std.specs.Prelude.{◌≡◌};

use crate::last_command::LastCommand;
use njh_block::{Bcb, BlockWriter, Fcs};
use njh_command::Replies;
use njh_spool::Spool;
use njh_table::Tables;

/// The tables and the files of all customers, and what a step writes in. Making it clears fourteen
/// thousand bytes, so it is made once, and lent to each step.
#[derive(Drop)]
pub struct Shared {
    /// What each customer may do, and which of its lines are up.
    pub tables: Tables,
    /// Each customer's files.
    pub spool: Spool,
    /// Room for the block that is being written.
    pub(crate) block: BlockWriter,
    /// Room for the replies to a command.
    pub(crate) replies: Replies,
    /// The last command that a user gave, for a log.
    pub(crate) last_command: LastCommand,
}

impl Shared {
    /// These tables and files, with room that nothing was put in.
    pub fn new(tables: Tables, spool: Spool) -> Shared
        ensures tables { result.tables ≡ tables }
        ensures spool { result.spool ≡ spool }
    {
        Shared {
            tables,
            spool,
            block: BlockWriter::new(300, Bcb::normal(0), Fcs::nothing_suspended()),
            replies: Replies::new(),
            last_command: LastCommand::none(),
        }
    }

    /// The last command that a user gave on a line, and how many were given.
    pub fn last_command(&self) -> &LastCommand {
        &self.last_command
    }
}
