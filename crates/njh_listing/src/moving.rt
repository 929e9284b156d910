//! Copies whole files into another spool file, as for a customer that moves to another hub.

ghost use Rattle.std.specs.Prelude.{◌⊎◌, option_map, IfErr, OnErr, OnOk};
ghost use Rattle.std.specs.Io.KnownBytes.{Keeps};
ghost use Rattle.njh_listing.specs.Faults.{IsOfSpool};
ghost use Rattle.njh_listing.specs.Listed.{IsListed, IsListedInPart};
ghost use Rattle.njh_listing.specs.Moved.{IsMoved};
ghost use Rattle.njh_spoolfile.specs.Copies.{IsCopied};
ghost use Rattle.njh_spoolfile.specs.Kept.{Holds, SpoolContents};
ghost use Rattle.njh_spoolfile.specs.Shelf.{shown};
ghost use Rattle.njh_spoolfile.specs.Steps.{Stays};
ghost use Rattle.sqlite.specs.State.{HasCleanDisk, Survives};

use crate::fault::FilesFault;
use crate::lending::{Task, lend_last};
use crate::listing::print_files;
use crate::opening::SpoolFiles;
use njh_spoolfile::{CopyFault, Store, copy_files};
use sqlite::{Alter, FileFrom, FileStore, Start};
use std::alloc::{AllocError, Global};
use std::io::Write;

/// Which whole files are copied, and where to.
#[derive(Clone, Copy)]
pub struct Move<'a> {
    /// Whose files: the customer's name in the table file; all customers' if none is named.
    pub customer: Option<&'a str>,
    /// The path of the other spool file.
    pub into: &'a str,
    /// Whether that one is made, and may not be there yet.
    pub is_new: bool,
}

/// What says that a customer has files where some are to be copied.
fn taken(alloc: Global, customer: Option<&str>) -> Result<FilesFault, AllocError> {
    let customer = customer.unwrap_or("a customer");
    Ok(FilesFault::Taken(format!(in alloc; "{customer} has files in the other spool")?))
}

/// What it is told as that files weren't copied.
fn fault_of(alloc: Global, fault: CopyFault, customer: Option<&str>) -> FilesFault {
    match fault {
        CopyFault::Database(error) => FilesFault::from(error),
        CopyFault::Damaged => FilesFault::Damaged,
        CopyFault::Full => FilesFault::Full,
        CopyFault::Taken => match taken(alloc, customer) {
            Ok(fault) => fault,
            Err(_) => FilesFault::Memory,
        },
    }
}

/// Copies whole files into another spool file (`copy_files`), and then prints a line for each file
/// that the customer has there; for each that there is if no customer is named. After a fault of
/// the copying nothing was printed, after another a beginning was.
pub fn copy<S: Alter, T: Alter, W: Write>(
    alloc: Global,
    from: &mut Store<S>,
    into: &mut Store<T>,
    customer: Option<&str>,
    out: &mut W,
) -> Result<(), FilesFault>
    ensures moved { HasCleanDisk (shown S.Store from.new) → HasCleanDisk (shown T.Store into.new)
        → OnOk result ((spool before : SpoolContents) → Holds spool (shown S.Store from.old).now.trees
        → Holds before (shown T.Store into.old).now.trees
        → IsMoved (option_map (λ c. c.now) customer.entry) spool before (shown T.Store into.new)
        (W.contents out.old) (W.contents out.new)) }
    ensures same { HasCleanDisk (shown S.Store from.new) → OnOk result (Stays (shown S.Store from.old)
        (shown S.Store from.new)) }
    ensures crash_from { Survives (shown S.Store from.old) (shown S.Store from.new) (λ _. ⊥) }
    ensures crash { Survives (shown T.Store into.old) (shown T.Store into.new)
        (λ trees. HasCleanDisk (shown S.Store from.new) → (spool before : SpoolContents)
        → Holds spool (shown S.Store from.old).now.trees → Holds before (shown T.Store into.old).now.trees
        → (after : SpoolContents) × Holds after trees
        × IsCopied (option_map (λ c. c.now) customer.entry) spool before after) }
    ensures done { OnOk result (IsListed (option_map (λ c. c.now) customer.entry) (W.contents out.old)
        (W.contents out.new)) }
    ensures begun { OnErr result (Keeps (W.contents out.old) (W.contents out.new)
        ⊎ IsListedInPart (option_map (λ c. c.now) customer.entry) (W.contents out.old) (W.contents out.new)) }
    ensures silent { IfErr result (λ fault. Keeps (W.contents out.old) (W.contents out.new) ⊎ IsOfSpool fault) }
{
    match copy_files(alloc, from, into, customer) {
        Ok(_) => print_files(alloc, into, customer, out),
        Err(fault) => Err(fault_of(alloc, fault, customer)),
    }
}

/// Copies whole files (`copy`), and takes the mark away that a log belongs to the other spool file,
/// which is to be closed.
fn copy_unmarked<A: Alter, B: Alter, W: Write>(
    alloc: Global,
    from: &mut Store<A>,
    into: &mut Store<B>,
    customer: Option<&str>,
    out: &mut W,
) -> Result<(), FilesFault>
    ensures same { HasCleanDisk (shown A.Store from.new) → OnOk result (Stays (shown A.Store from.old)
        (shown A.Store from.new)) }
    ensures crash_from { Survives (shown A.Store from.old) (shown A.Store from.new) (λ _. ⊥) }
    ensures done { OnOk result (IsListed (option_map (λ c. c.now) customer.entry) (W.contents out.old)
        (W.contents out.new)) }
    ensures begun { OnErr result (Keeps (W.contents out.old) (W.contents out.new)
        ⊎ IsListedInPart (option_map (λ c. c.now) customer.entry) (W.contents out.old) (W.contents out.new)) }
    ensures silent { IfErr result (λ fault. Keeps (W.contents out.old) (W.contents out.new) ⊎ IsOfSpool fault) }
{
    match copy(alloc, from, into, customer, out) {
        Ok(()) => {}
        Err(fault) => return Err(fault),
    }
    match into.clear_mark() {
        Ok(()) => Ok(()),
        Err(error) => Err(FilesFault::from(error)),
    }
}

/// Copies whole files of the spool file at a path, which has to be there and stays as it is
/// (`copy`), and closes the other one: it has all that it holds without its log then. If it is the
/// closing that failed, the files were copied and listed, and it has them together with its log.
/// `start` and `other` are what a proof knows of the two before they are opened.
pub fn copy_spool<F: SpoolFiles + AllocGlobal, S: Start, T: Start, W: Write>(
    rt: &F,
    path: &str,
    start: S,
    moved: &Move<'_>,
    other: T,
    out: &mut W,
) -> Result<(), FilesFault>
    ensures done { OnOk result (IsListed (option_map (λ c. c.now) moved.now.customer) (W.contents out.old)
        (W.contents out.new)) }
    ensures begun { OnErr result (Keeps (W.contents out.old) (W.contents out.new)
        ⊎ IsListedInPart (option_map (λ c. c.now) moved.now.customer) (W.contents out.old) (W.contents out.new)) }
    ensures silent { IfErr result (λ fault. Keeps (W.contents out.old) (W.contents out.new) ⊎ IsOfSpool fault) }
{
    match rt.find_spool(path, start) {
        Ok(store) => lend_last(store, CopyFrom { rt, moved, other }, out),
        Err(fault) => Err(fault),
    }
}

/// Copies whole files of a spool file into another.
#[derive(Drop)]
struct CopyFrom<'a, F, S> {
    rt: &'a F,
    moved: &'a Move<'a>,
    other: S,
}

impl<F: SpoolFiles + AllocGlobal, S: Start, W: Write> Task<W> for CopyFrom<'_, F, S> {
    ghost use Rattle.std.specs.Prelude.{◌⊎◌, option_map};
    ghost use Rattle.std.specs.Io.KnownBytes.{Keeps};
    ghost use Rattle.njh_listing.specs.Faults.{IsOfSpool};
    ghost use Rattle.njh_listing.specs.Listed.{IsListed, IsListedInPart};

    ghost done = { λ task old new. IsListed (option_map (λ c. c.now) task.moved.now.customer) (W.contents old)
        (W.contents new) };

    ghost failed = { λ task old new fault. (Keeps (W.contents old) (W.contents new)
        ⊎ IsListedInPart (option_map (λ c. c.now) task.moved.now.customer) (W.contents old) (W.contents new))
        × (Keeps (W.contents old) (W.contents new) ⊎ IsOfSpool fault) };

    ghost keeps = { λ task. ⊥ };

    fn run<A: Alter>(self, from: &mut Store<A>, out: &mut W) -> Result<(), FilesFault> {
        let CopyFrom { rt, moved, other } = self;
        copy_from(rt, from, moved, other, out)
    }
}

/// Copies whole files of a spool file into another, which is opened or made for it, and closed.
fn copy_from<F: SpoolFiles + AllocGlobal, A: Alter, S: Start, W: Write>(
    rt: &F,
    from: &mut Store<A>,
    moved: &Move<'_>,
    start: S,
    out: &mut W,
) -> Result<(), FilesFault>
    ensures same { HasCleanDisk (shown A.Store from.new) → OnOk result (Stays (shown A.Store from.old)
        (shown A.Store from.new)) }
    ensures crash_from { Survives (shown A.Store from.old) (shown A.Store from.new) (λ _. ⊥) }
    ensures done { OnOk result (IsListed (option_map (λ c. c.now) moved.now.customer) (W.contents out.old)
        (W.contents out.new)) }
    ensures begun { OnErr result (Keeps (W.contents out.old) (W.contents out.new)
        ⊎ IsListedInPart (option_map (λ c. c.now) moved.now.customer) (W.contents out.old) (W.contents out.new)) }
    ensures silent { IfErr result (λ fault. Keeps (W.contents out.old) (W.contents out.new) ⊎ IsOfSpool fault) }
{
    let opened = if moved.is_new {
        rt.make_spool(moved.into, start)
    } else {
        rt.open_spool(moved.into, start)
    };
    match copy_into(rt.alloc(), from, opened, moved.customer, out) {
        Ok(into) => close(into),
        Err(fault) => Err(fault),
    }
}

/// Closes a spool file, whose log it has in itself then.
pub(crate) fn close<S: Start>(store: Store<FileStore<FileFrom<S>>>) -> Result<(), FilesFault>
    ensures { IfErr result IsOfSpool }
{
    match store.close() {
        Ok(files) => {
            drop(files);
            Ok(())
        }
        Err(error) => Err(FilesFault::from(error)),
    }
}

/// Copies whole files into a spool file that was opened, and gives it back; after a fault it is
/// dropped. It names no type of a store, since each call that does so is proved at the price of all
/// that the type's calls promise.
fn copy_into<A: Alter, B: Alter + Drop, W: Write>(
    alloc: Global,
    from: &mut Store<A>,
    opened: Result<Store<B>, FilesFault>,
    customer: Option<&str>,
    out: &mut W,
) -> Result<Store<B>, FilesFault>
    requires { IfErr opened IsOfSpool }
    ensures same { HasCleanDisk (shown A.Store from.new) → OnOk result (Stays (shown A.Store from.old)
        (shown A.Store from.new)) }
    ensures crash_from { Survives (shown A.Store from.old) (shown A.Store from.new) (λ _. ⊥) }
    ensures done { OnOk result (IsListed (option_map (λ c. c.now) customer.entry) (W.contents out.old)
        (W.contents out.new)) }
    ensures begun { OnErr result (Keeps (W.contents out.old) (W.contents out.new)
        ⊎ IsListedInPart (option_map (λ c. c.now) customer.entry) (W.contents out.old) (W.contents out.new)) }
    ensures silent { IfErr result (λ fault. Keeps (W.contents out.old) (W.contents out.new) ⊎ IsOfSpool fault) }
{
    let mut into = match opened {
        Ok(store) => store,
        Err(fault) => return Err(fault),
    };
    match copy_unmarked(alloc, from, &mut into, customer, out) {
        Ok(()) => Ok(into),
        Err(fault) => {
            drop(into);
            Err(fault)
        }
    }
}
