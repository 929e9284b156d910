//! What the files of a store held when they were opened.

use sqlite::{Alter, FileFrom, FileStore, Start};

/// A store whose files were opened: which spool they held then. Nobody knows it but a proof.
pub trait Origin: Alter {
    ghost use Rattle.njh_spoolfile.specs.Kept.{SpoolContents};

    /// Its files held this spool, or were made then and hold none.
    ghost found: { SpoolContents → Type 0 };
}

impl<S: Start> Origin for FileStore<FileFrom<S>> {
    ghost use Rattle.sqlite.specs.WalFiles.{image_at};
    ghost use Rattle.njh_spoolfile.specs.Origin.{IsFoundIn};

    ghost found = { IsFoundIn (image_at S.Start) };
}
