//! What is done with a spool file that is open. Beside `copy_from` these two functions alone make
//! calls at the type of one: each that does so is proved with all that they promise, at twenty
//! seconds.

ghost use Rattle.std.specs.Prelude.{◌≡◌, IfErr, IfOk, OnOk};

use crate::fault::FilesFault;
use njh_spoolfile::Store;
use sqlite::{Alter, FileFrom, FileStore, Start};

/// What is done with a spool file that is open, and with what is beside it.
pub(crate) trait Task<B> {
    ghost use Rattle.std.specs.Prelude.{◌≡◌, IfErr, OnOk};
    ghost use Rattle.njh_listing.specs.declared.fault.FilesFault.{FilesFault};

    /// What is so when it is done, of what is beside the spool file before and after.
    ghost done: { Self → B → B → Type 0 };

    /// What is so after a fault.
    ghost failed: { Self → B → B → FilesFault → Type 0 };

    /// Where this is so the spool file stays as it is.
    ghost keeps: { Self → Type 0 };

    /// Does it.
    fn run<A: Alter>(self, store: &mut Store<A>, beside: &mut B) -> Result<(), FilesFault>
        ensures done { OnOk result (done self beside.old beside.new) }
        ensures failed { IfErr result (failed self beside.old beside.new) }
        ensures kept { keeps self → store.new ≡ store.old };
}

/// Does a task with a spool file, and gives that back; after a fault it is dropped.
fn run_on<A: Alter + Drop, B, T: Task<B>>(
    store: Store<A>,
    task: T,
    beside: &mut B,
) -> Result<Store<A>, FilesFault>
    ensures done { OnOk result (T.done task beside.old beside.new) }
    ensures failed { IfErr result (T.failed task beside.old beside.new) }
    ensures kept { T.keeps task → IfOk result (λ kept. kept ≡ store) }
{
    let mut store = store;
    match task.run(&mut store, beside) {
        Ok(()) => Ok(store),
        Err(fault) => {
            drop(store);
            Err(fault)
        }
    }
}

/// Does a task with a spool file, and drops that.
fn run_last<A: Alter + Drop, B, T: Task<B>>(
    store: Store<A>,
    task: T,
    beside: &mut B,
) -> Result<(), FilesFault>
    ensures done { OnOk result (T.done task beside.old beside.new) }
    ensures failed { IfErr result (T.failed task beside.old beside.new) }
{
    let mut store = store;
    let done = task.run(&mut store, beside);
    drop(store);
    done
}

/// Does a task with an open spool file, and gives that back; after a fault it is dropped.
pub(crate) fn lend<S: Start, B, T: Task<B>>(
    store: Store<FileStore<FileFrom<S>>>,
    task: T,
    beside: &mut B,
) -> Result<Store<FileStore<FileFrom<S>>>, FilesFault>
    ensures done { OnOk result (T.done task beside.old beside.new) }
    ensures failed { IfErr result (T.failed task beside.old beside.new) }
    ensures kept { T.keeps task → IfOk result (λ kept. kept ≡ store) }
{
    run_on(store, task, beside)
}

/// Does a task with an open spool file, and drops that.
pub(crate) fn lend_last<S: Start, B, T: Task<B>>(
    store: Store<FileStore<FileFrom<S>>>,
    task: T,
    beside: &mut B,
) -> Result<(), FilesFault>
    ensures done { OnOk result (T.done task beside.old beside.new) }
    ensures failed { IfErr result (T.failed task beside.old beside.new) }
{
    run_last(store, task, beside)
}
