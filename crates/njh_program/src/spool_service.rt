//! Serves the lines of a table file, and keeps whole files in a spool file.

ghost use Rattle.std.specs.Prelude.{◌≡◌, ◌⊎◌, Some, OnOk, IfErr};
ghost use Rattle.njh_program.specs.ProgramOutcome.{AreServedOf, IsFilesEnd};
ghost use Rattle.njh_program.specs.SpoolService.{AreServedOver};
ghost use Rattle.njh_spoolfile.specs.Origin.{StandsAsFound};
ghost use Rattle.njh_spoolfile.specs.Shelf.{shown};
ghost use Rattle.njh_spoolfile.specs.Steps.{Stays};
ghost use Rattle.njh_subcommands.specs.TableBytes.{AreRefused};
ghost use Rattle.sqlite.specs.State.{HasCleanDisk};

use crate::service::{Options, serve_over};
use crate::spool_log::{log_cause, log_unopened};
use crate::start_log::log_failure;
use njh_keeper::SpoolKeeper;
use njh_listing::{FilesFault, SpoolFiles};
use njh_log::{Heading, Log};
use njh_sockets::utc_milliseconds;
use njh_spoolfile::{Origin, Store};
use njh_subcommands::{Failure, tables_of};
use sqlite::Start;
use std::alloc::Global;
use std::fmt;
use std::io::Write;
use std::net::Net;
use std::rt::{Clock, Files};

/// Serves the lines of a table file, and keeps whole files in a spool file. If the table file can't
/// be read, the spool file opened, or the lines served, the log says why. The table file's fault
/// comes before that of the spool file.
pub(crate) fn serve_spool_file<
    F: Files + SpoolFiles + Net + Clock + AllocGlobal,
    S: Start,
    L: Write + Drop,
>(
    rt: &F,
    path: &str,
    spool: &str,
    start: S,
    options: Options<'_>,
    mut log: Log<L>,
) -> Result<(), Failure>
    ensures served { OnOk result (AreServedOf path.now options.entry.turns (Some spool.now)) }
    ensures refused { IfErr result (λ failure. AreRefused (Some path.now) failure ⊎ IsFilesEnd failure) }
{
    match rt.mark_spool(spool) {
        Ok(is_gone) => log_gone(rt, spool, is_gone, &mut log),
        Err(fault) => return Err(refused(rt, path, spool, log, fault)),
    }
    match rt.open_spool(spool, start) {
        Ok(store) => serve_marked(rt, path, spool, options, log, store),
        Err(fault) => Err(refused(rt, path, spool, log, fault)),
    }
}

/// Logs that a spool file's log is gone, if it is.
fn log_gone<R: Clock, L: Write + Drop>(rt: &R, spool: &str, is_gone: bool, log: &mut Log<L>) {
    if is_gone {
        log.write(Heading::error(utc_milliseconds(rt)), &LogGone { spool });
    }
}

/// Logs why nothing is served, since the spool file isn't opened: the table file's fault, if it has
/// one, and else that of the spool file. Answers it.
fn refused<F: Files + Clock + AllocGlobal, L: Write + Drop>(
    rt: &F,
    path: &str,
    spool: &str,
    mut log: Log<L>,
    fault: FilesFault,
) -> Failure
    ensures { AreRefused (Some path.now) result ⊎ IsFilesEnd result }
{
    let failure = first_failure(rt, path, fault);
    log_failure(rt, path, &mut log, &failure);
    log_unopened(rt, spool, &mut log, &failure);
    failure
}

/// Serves the lines of a table file, and keeps whole files in a spool file that is open, which is
/// marked as one to which a log belongs, if an older program left it without the mark.
fn serve_marked<F: Files + Net + Clock + AllocGlobal, L: Write + Drop, S: Origin + Drop>(
    rt: &F,
    path: &str,
    spool: &str,
    options: Options<'_>,
    mut log: Log<L>,
    mut store: Store<S>,
) -> Result<(), Failure>
    requires { StandsAsFound S.Store S.found store }
    ensures served { OnOk result (AreServedOf path.now options.entry.turns (Some spool.now)) }
    ensures refused { IfErr result (λ failure. AreRefused (Some path.now) failure ⊎ IsFilesEnd failure) }
{
    match store.set_mark() {
        Ok(_) => serve_kept(rt, path, spool, options, log, store),
        Err(error) => {
            drop(store);
            log_cause(rt, spool, &mut log, Some(error));
            drop(log);
            Err(Failure::Files(FilesFault::from(error)))
        }
    }
}

/// Serves the lines of a table file, and keeps whole files in this spool file, which is open. If it
/// fails, the log says why.
fn serve_kept<F: Files + Net + Clock + AllocGlobal, L: Write + Drop, S: Origin + Drop>(
    rt: &F,
    path: &str,
    spool: &str,
    options: Options<'_>,
    mut log: Log<L>,
    store: Store<S>,
) -> Result<(), Failure>
    requires { StandsAsFound S.Store S.found store }
    ensures served { OnOk result (AreServedOf path.now options.entry.turns (Some spool.now)) }
    ensures kept { OnOk result (AreServedOver S.Store S.found store path.now options.entry.turns) }
    ensures refused { IfErr result (λ failure. AreRefused (Some path.now) failure ⊎ IsFilesEnd failure) }
{
    let mut keeper = SpoolKeeper::new(rt, rt.alloc(), store, options.listening.strict);
    match log_strangers(rt, path, spool, &mut keeper, &mut log) {
        Ok(()) => {}
        Err(failure) => {
            log_unopened(rt, spool, &mut log, &failure);
            drop(keeper);
            drop(log);
            return Err(failure);
        }
    }
    let (served, keeper, mut log) = serve_over(rt, path, options, log, keeper);
    log_cause(rt, spool, &mut log, keeper.cause());
    drop(log);
    let refusal = refusal_of(rt.alloc(), &keeper, options.listening.strict);
    drop(keeper);
    match served {
        Ok(()) => {
            drop(refusal);
            Ok(())
        }
        Err(failure) => Err(or_refusal(failure, refusal)),
    }
}

/// Logs how many whole files of a spool file are of customers that the table file doesn't have,
/// if there are any.
fn log_strangers<F: Files + Clock + AllocGlobal, R: Clock, S: Origin + Drop, L: Write + Drop>(
    rt: &F,
    path: &str,
    spool: &str,
    keeper: &mut SpoolKeeper<'_, R, S>,
    log: &mut Log<L>,
) -> Result<(), Failure>
    ensures refused { IfErr result IsFilesEnd }
    ensures stays { HasCleanDisk (shown S.Store keeper.new.store) → OnOk result (Stays (shown S.Store keeper.old.store)
        (shown S.Store keeper.new.store)) }
{
    let Ok(tables) = tables_of(rt, Some(path)) else {
        return Ok(());
    };
    let strangers = keeper.strangers(rt.alloc(), &tables);
    drop(tables);
    match strangers {
        Ok(0) => Ok(()),
        Ok(count) => {
            log.write(
                Heading::warning(utc_milliseconds(rt)),
                &Strangers { spool, count },
            );
            Ok(())
        }
        Err(error) => Err(Failure::Files(FilesFault::from(error))),
    }
}

/// The table file's failure, if it has one, and else that of the spool file.
fn first_failure<F: Files + AllocGlobal>(rt: &F, path: &str, fault: FilesFault) -> Failure
    ensures { AreRefused (Some path.now) result ⊎ IsFilesEnd result }
{
    match tables_of(rt, Some(path)) {
        Ok(tables) => {
            drop(tables);
            Failure::Files(fault)
        }
        Err(failure) => {
            drop(fault);
            failure
        }
    }
}

/// What is told of the whole file that refused the start, which it does only if the keeper
/// `is_strict`; none if there is no such file, or no memory.
fn refusal_of<R: Clock, S: Origin + Drop>(
    alloc: Global,
    keeper: &SpoolKeeper<'_, R, S>,
    is_strict: bool,
) -> Option<String> {
    if !is_strict {
        return None;
    }
    let refused = keeper.refused().first()?;
    let fault = refused.fault;
    let customer = refused.file.file.customer.as_str();
    format!(in alloc; "{fault}: customer {customer}").ok()
}

/// Why lines weren't served: a whole file that couldn't be put back, if there is one.
fn or_refusal(failure: Failure, refusal: Option<String>) -> Failure
    ensures { (result ≡ failure) ⊎ IsFilesEnd result }
{
    match refusal {
        Some(why) => {
            drop(failure);
            Failure::Files(FilesFault::Refused(why))
        }
        None => failure,
    }
}

/// Whole files of a spool file that are of customers which the table file doesn't have.
#[derive(Clone, Copy, Drop)]
struct Strangers<'a> {
    spool: &'a str,
    count: u32,
}

impl fmt::Display for Strangers<'_> {
    fn fmt<W: fmt::Write>(&self, f: &mut fmt::Formatter<W>) -> fmt::Result {
        write!(
            f,
            "spool file {}: {} files of customers that the table file doesn't have stay there",
            self.spool, self.count
        )
    }
}

/// A spool file whose log is gone.
#[derive(Clone, Copy, Drop)]
struct LogGone<'a> {
    spool: &'a str,
}

impl fmt::Display for LogGone<'_> {
    fn fmt<W: fmt::Write>(&self, f: &mut fmt::Formatter<W>) -> fmt::Result {
        write!(
            f,
            "spool file {}: its log {}-wal isn't there, and what it held is lost",
            self.spool, self.spool
        )
    }
}
