//! The mark of a spool file to which a log belongs.

ghost use Rattle.std.specs.Prelude.{◌≡◌, true, false, IfOk, OnOk};
ghost use Rattle.sqlite.specs.State.{HasCleanDisk, Survives};
ghost use Rattle.njh_spoolfile.specs.CommitState.{Stands};
ghost use Rattle.njh_spoolfile.specs.Kept.{SpoolContents, Holds, is_marked};
ghost use Rattle.njh_spoolfile.specs.Shelf.{shown};

use crate::store::Store;
use sqlite::{Alter, Error};

impl<S: Alter> Store<S> {
    /// Marks the spool file as one to which a log belongs, in a commit, if it hasn't the mark.
    /// Answers whether it had it.
    pub fn set_mark(&mut self) -> Result<bool, Error>
        ensures had { HasCleanDisk (shown S.Store self.new) → IfOk result (λ had. had
            ≡ is_marked (shown S.Store self.old).now.trees) }
        ensures stands { HasCleanDisk (shown S.Store self.new) → OnOk result ((spool : SpoolContents)
            → Stands (record { now = spool; kept = spool }) (shown S.Store self.old)
            → Stands (record { now = spool; kept = spool }) (shown S.Store self.new)) }
        ensures marked { HasCleanDisk (shown S.Store self.new) → OnOk result ((spool : SpoolContents)
            → Holds spool (shown S.Store self.old).now.trees
            → (shown S.Store self.old).committed ≡ (shown S.Store self.old).now
            → is_marked (shown S.Store self.new).committed.trees ≡ true) }
        ensures crash { Survives (shown S.Store self.old) (shown S.Store self.new) (λ trees. (spool : SpoolContents)
            → Holds spool (shown S.Store self.old).now.trees → Holds spool trees) }
    {
        if self.is_marked()? {
            return Ok(true);
        }
        self.mark()?;
        self.commit()?;
        Ok(false)
    }

    /// Takes the mark away, in a commit, if the spool file has it, as before it is closed.
    pub fn clear_mark(&mut self) -> Result<(), Error>
        ensures stands { HasCleanDisk (shown S.Store self.new) → OnOk result ((spool : SpoolContents)
            → Stands (record { now = spool; kept = spool }) (shown S.Store self.old)
            → Stands (record { now = spool; kept = spool }) (shown S.Store self.new)) }
        ensures unmarked { HasCleanDisk (shown S.Store self.new) → OnOk result ((spool : SpoolContents)
            → Holds spool (shown S.Store self.old).now.trees
            → (shown S.Store self.old).committed ≡ (shown S.Store self.old).now
            → is_marked (shown S.Store self.new).committed.trees ≡ false) }
        ensures crash { Survives (shown S.Store self.old) (shown S.Store self.new) (λ trees. (spool : SpoolContents)
            → Holds spool (shown S.Store self.old).now.trees → Holds spool trees) }
    {
        if !self.is_marked()? {
            return Ok(());
        }
        self.unmark()?;
        self.commit()
    }
}
