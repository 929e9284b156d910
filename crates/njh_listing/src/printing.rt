//! Prints what is asked for.

ghost use Rattle.std.specs.Prelude.{◌⊎◌, option_map, IfErr, OnErr, OnOk};
ghost use Rattle.std.specs.Io.KnownBytes.{Keeps};
ghost use Rattle.njh_listing.specs.Faults.{IsOfSpool};
ghost use Rattle.njh_listing.specs.Printed.{IsFaultOf, IsPrinted, IsPrintedInPart, IsPrintedOf};
ghost use Rattle.njh_spoolfile.specs.Kept.{Holds, SpoolContents};
ghost use Rattle.njh_spoolfile.specs.Shelf.{shown};
ghost use Rattle.njh_spoolfile.specs.Steps.{Stays};
ghost use Rattle.sqlite.specs.State.{HasCleanDisk, Survives};

use crate::exporting::export_file;
use crate::fault::FilesFault;
use crate::finding::Asked;
use crate::lending::{Task, lend_last};
use crate::listing::list_files;
use crate::opening::SpoolFiles;
use njh_spoolfile::Store;
use sqlite::{Alter, Start};
use std::alloc::Global;
use std::io::Write;

/// Prints what is asked for: the list of the files (`print_files`), or the records of a file: those
/// of data as characters of code page 37, a line a record, or all as they are. If there is no
/// such file, or none of the customer that is named, or several and no number is asked for, nothing
/// was written; after another fault a beginning of it was.
pub fn print<S: Alter, W: Write>(
    alloc: Global,
    store: &mut Store<S>,
    asked: &Asked<'_>,
    out: &mut W,
) -> Result<(), FilesFault>
    ensures kept { HasCleanDisk (shown S.Store store.new) → OnOk result ((spool : SpoolContents)
        → Holds spool (shown S.Store store.old).now.trees → IsPrintedOf (option_map (λ c. c.now) asked.now.customer)
        (option_map (λ f. f.now) asked.now.file) asked.now.number asked.now.raw spool (W.contents out.old)
        (W.contents out.new)) }
    ensures refused { HasCleanDisk (shown S.Store store.new) → IfErr result (λ fault. (spool : SpoolContents)
        → Holds spool (shown S.Store store.old).now.trees → IsFaultOf (option_map (λ c. c.now) asked.now.customer)
        (option_map (λ f. f.now) asked.now.file) asked.now.number spool fault) }
    ensures done { OnOk result (IsPrinted (option_map (λ c. c.now) asked.now.customer) asked.now.file asked.now.raw
        (W.contents out.old) (W.contents out.new)) }
    ensures begun { OnErr result (Keeps (W.contents out.old) (W.contents out.new)
        ⊎ IsPrintedInPart (option_map (λ c. c.now) asked.now.customer) asked.now.file asked.now.raw
        (W.contents out.old) (W.contents out.new)) }
    // The spool file stays as it was.
    ensures same { HasCleanDisk (shown S.Store store.new) → OnOk result (Stays (shown S.Store store.old)
        (shown S.Store store.new)) }
    ensures crash { Survives (shown S.Store store.old) (shown S.Store store.new) (λ _. ⊥) }
    ensures silent { IfErr result (λ fault. Keeps (W.contents out.old) (W.contents out.new) ⊎ IsOfSpool fault) }
{
    match asked.file {
        None => list_files(alloc, store, asked.customer, out),
        Some(name) => export_file(alloc, store, asked, name, out),
    }
}

/// Prints what is asked for of the spool file at a path, which has to be there (`print`).
pub fn print_spool<F: SpoolFiles + AllocGlobal, S: Start, W: Write>(
    rt: &F,
    path: &str,
    start: S,
    asked: &Asked<'_>,
    out: &mut W,
) -> Result<(), FilesFault>
    ensures done { OnOk result (IsPrinted (option_map (λ c. c.now) asked.now.customer) asked.now.file asked.now.raw
        (W.contents out.old) (W.contents out.new)) }
    ensures begun { OnErr result (Keeps (W.contents out.old) (W.contents out.new)
        ⊎ IsPrintedInPart (option_map (λ c. c.now) asked.now.customer) asked.now.file asked.now.raw
        (W.contents out.old) (W.contents out.new)) }
    ensures silent { IfErr result (λ fault. Keeps (W.contents out.old) (W.contents out.new) ⊎ IsOfSpool fault) }
{
    let alloc = rt.alloc();
    match rt.find_spool(path, start) {
        Ok(store) => lend_last(store, PrintAsked { alloc, asked }, out),
        Err(fault) => Err(fault),
    }
}

/// Prints what is asked for of a spool file.
#[derive(Drop)]
struct PrintAsked<'a> {
    alloc: Global,
    asked: &'a Asked<'a>,
}

impl<W: Write> Task<W> for PrintAsked<'_> {
    ghost use Rattle.std.specs.Prelude.{◌⊎◌, option_map};
    ghost use Rattle.std.specs.Io.KnownBytes.{Keeps};
    ghost use Rattle.njh_listing.specs.Faults.{IsOfSpool};
    ghost use Rattle.njh_listing.specs.Printed.{IsPrinted, IsPrintedInPart};

    ghost done = { λ task old new. IsPrinted (option_map (λ c. c.now) task.asked.now.customer) task.asked.now.file
        task.asked.now.raw (W.contents old) (W.contents new) };

    ghost failed = { λ task old new fault. (Keeps (W.contents old) (W.contents new)
        ⊎ IsPrintedInPart (option_map (λ c. c.now) task.asked.now.customer) task.asked.now.file task.asked.now.raw
        (W.contents old) (W.contents new)) × (Keeps (W.contents old) (W.contents new) ⊎ IsOfSpool fault) };

    ghost keeps = { λ task. ⊥ };

    fn run<A: Alter>(self, store: &mut Store<A>, out: &mut W) -> Result<(), FilesFault> {
        print(self.alloc, store, self.asked, out)
    }
}
