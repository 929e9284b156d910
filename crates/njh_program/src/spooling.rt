//! What is done with spool files.

ghost use Rattle.std.specs.Prelude.{◌≡◌, ◌⊎◌, option_map, Some, IfErr, OnErr, OnOk};
ghost use Rattle.std.specs.Io.KnownBytes.{Keeps};
ghost use Rattle.njh_listing.specs.Faults.{IsOfSpool};
ghost use Rattle.njh_listing.specs.Listed.{IsListed, IsListedInPart};
ghost use Rattle.njh_listing.specs.Printed.{IsPrinted, IsPrintedInPart};
ghost use Rattle.njh_program.specs.ProgramOutcome.{AreServedOf, IsFilesEnd};
ghost use Rattle.njh_subcommands.specs.TableBytes.{AreRefused};

use crate::service::Options;
use crate::spool_service::serve_spool_file;
use njh_listing::{Asked, FilesFault, Move, SpoolFiles, copy_spool, print_spool};
use njh_log::Log;
use njh_subcommands::Failure;
use sqlite::Unknown;
use std::io::Write;
use std::net::Net;
use std::rt::{Clock, Files};

/// What serves over spool files, prints and copies them: whatever opens them does. Which type an open one
/// has is said here alone, and hidden from all above, since each function with a bound that names
/// it, and each crate, is proved at a price.
pub trait Spooling {
    /// Prints what is asked for of the spool file at a path, which has to be there.
    fn print_spool<W: Write>(
        &self,
        spool: &str,
        asked: &Asked<'_>,
        out: &mut W,
    ) -> Result<(), FilesFault>
        ensures done { OnOk result (IsPrinted (option_map (λ c. c.now) asked.now.customer) asked.now.file asked.now.raw
            (W.contents out.old) (W.contents out.new)) }
        ensures begun { OnErr result (Keeps (W.contents out.old) (W.contents out.new)
            ⊎ IsPrintedInPart (option_map (λ c. c.now) asked.now.customer) asked.now.file asked.now.raw
            (W.contents out.old) (W.contents out.new)) }
        ensures silent { IfErr result (λ fault. Keeps (W.contents out.old) (W.contents out.new) ⊎ IsOfSpool fault) };

    /// Copies whole files of the spool file at a path, which has to be there, into another.
    fn copy_spool<W: Write>(
        &self,
        spool: &str,
        moved: &Move<'_>,
        out: &mut W,
    ) -> Result<(), FilesFault>
        ensures done { OnOk result (IsListed (option_map (λ c. c.now) moved.now.customer) (W.contents out.old)
            (W.contents out.new)) }
        ensures begun { OnErr result (Keeps (W.contents out.old) (W.contents out.new)
            ⊎ IsListedInPart (option_map (λ c. c.now) moved.now.customer) (W.contents out.old) (W.contents out.new)) }
        ensures silent { IfErr result (λ fault. Keeps (W.contents out.old) (W.contents out.new) ⊎ IsOfSpool fault) };

    /// Serves the lines of a table file, and keeps whole files in the spool file at a path, which
    /// is made if it isn't there. If the table file can't be read, or its lines can't be served,
    /// the log says why.
    fn serve_spool<L: Write + Drop>(
        &self,
        path: &str,
        spool: &str,
        options: Options<'_>,
        log: Log<L>,
    ) -> Result<(), Failure>
        ensures served { OnOk result (AreServedOf path.now options.entry.turns (Some spool.now)) }
        ensures refused { IfErr result (λ failure. AreRefused (Some path.now) failure ⊎ IsFilesEnd failure) };
}

impl<F: SpoolFiles + Files + Net + Clock + AllocGlobal> Spooling for F {
    fn print_spool<W: Write>(
        &self,
        spool: &str,
        asked: &Asked<'_>,
        out: &mut W,
    ) -> Result<(), FilesFault> {
        print_spool(self, spool, Unknown, asked, out)
    }

    fn copy_spool<W: Write>(
        &self,
        spool: &str,
        moved: &Move<'_>,
        out: &mut W,
    ) -> Result<(), FilesFault> {
        copy_spool(self, spool, Unknown, moved, Unknown, out)
    }

    fn serve_spool<L: Write + Drop>(
        &self,
        path: &str,
        spool: &str,
        options: Options<'_>,
        log: Log<L>,
    ) -> Result<(), Failure> {
        serve_spool_file(self, path, spool, Unknown, options, log)
    }
}
