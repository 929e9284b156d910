//! Serves the lines of a table file.

ghost use Rattle.std.specs.Prelude.{◌≡◌, ◌≤◌, ⊤, None, Some, OnOk, IfErr, IfOk};
ghost use Rattle.njh_program.specs.ProgramOutcome.{AreServedOf, IsOfDevices, failure_of};
ghost use Rattle.njh_service.specs.Serving.{AreServedFrom};
ghost use Rattle.njh_subcommands.specs.TableBytes.{AreGiven, AreRefused};
ghost use Rattle.njh_table.specs.TableFile.{TableFile};

use crate::console_log::open_console;
use crate::handles::refuse_few;
use crate::start_log::log_failure;
use crate::table_source::TableFileSource;
use njh_arguments::VERSION;
use njh_console::Console;
use njh_lines::Exchange;
use njh_log::{Heading, Log};
use njh_revision::{Revision, TableSource};
use njh_service::{Bureau, ServeFault, serve};
use njh_sites::Listening;
use njh_sockets::{MioNetwork, utc_milliseconds};
use njh_subcommands::{Failure, tables_twice};
use njh_table::Tables;
use njh_tcpwire::LineNetwork;
use njh_turns::{Depot, KeepsNothing};
use njh_wire::Network;
use std::alloc::Global;
use std::io::Write;
use std::net::Net;
use std::rt::{Clock, Files};

/// How lines are served.
#[derive(Clone, Copy)]
pub struct Options<'a> {
    /// For how many turns, if they end.
    pub turns: Option<u32>,
    /// How those with a port listen.
    pub listening: Listening,
    /// Where the operator's console is, if there is one.
    pub console: Option<&'a str>,
    /// The file in which whole files are kept, if they are.
    pub spool: Option<&'a str>,
}

/// Serves the lines of a table file. No file is kept. If the table file can't be read, or its lines
/// can't be served, the log says why.
pub(crate) fn serve_file<F: Files + Net + Clock + AllocGlobal, L: Write + Drop>(
    rt: &F,
    path: &str,
    options: Options<'_>,
    log: Log<L>,
) -> Result<(), Failure>
    ensures served { OnOk result (AreServedOf {Spool = ⊤} path.now options.entry.turns None) }
    ensures refused { IfErr result (AreRefused (Some path.now)) }
{
    let (served, _, log) = serve_over(rt, path, options, log, KeepsNothing);
    drop(log);
    served
}

/// Serves the lines of a table file, over a depot. It and the log are given back.
pub(crate) fn serve_over<F: Files + Net + Clock + AllocGlobal, L: Write + Drop, D: Depot + Drop>(
    rt: &F,
    path: &str,
    options: Options<'_>,
    mut log: Log<L>,
    depot: D,
) -> (Result<(), Failure>, D, Log<L>)
    ensures served { OnOk result.0 ((tables : TableFile) × AreGiven (Some path.now) tables
        × AreServedFrom D.opens D.says depot result.1 tables options.entry.turns) }
    ensures refused { IfErr result.0 (AreRefused (Some path.now)) }
{
    match tables_and_revision(rt, path, options.spool) {
        Ok((tables, revision)) => match bureau_of(rt, &tables, options.console, log, revision) {
            Ok(bureau) => serve_tables(rt.alloc(), depot, tables, bureau, options),
            Err((failure, log)) => {
                drop(tables);
                (Err(failure), depot, log)
            }
        },
        Err(failure) => {
            log_failure(rt, path, &mut log, &failure);
            (Err(failure), depot, log)
        }
    }
}

/// The tables of a file, and where new ones come from.
fn tables_and_revision<'a, F: Files + AllocGlobal>(
    rt: &'a F,
    path: &'a str,
    spool: Option<&'a str>,
) -> Result<(Tables, Revision<TableFileSource<'a, F>>), Failure>
    ensures given { IfOk result (λ found. AreGiven (Some path.now) found.0) }
    ensures refused { IfErr result (AreRefused (Some path.now)) }
{
    // Before the tables are read, so that no change is missed.
    let source = match TableFileSource::new(rt, path, spool) {
        Ok(source) => source,
        Err(_) => return Err(Failure::Memory),
    };
    match tables_twice(rt, path) {
        Ok((tables, known)) => match Revision::new(rt.alloc(), known, source) {
            Ok(revision) => Ok((tables, revision)),
            Err(_) => {
                drop(tables);
                Err(Failure::Memory)
            }
        },
        Err(failure) => {
            drop(source);
            Err(failure)
        }
    }
}

/// An attendant of no line yet, on the sockets of this machine, for the lines of these tables and
/// the console, if there is to be one. If there is none the log is given back.
fn bureau_of<'a, R: Files + Net + Clock + AllocGlobal, L: Write + Drop, S: TableSource + Drop>(
    rt: &'a R,
    tables: &Tables,
    console: Option<&str>,
    mut log: Log<L>,
    revision: Revision<S>,
) -> Result<Bureau<LineNetwork<MioNetwork<'a, R>>, L, S>, (Failure, Log<L>)>
    ensures { IfErr result (λ refused. IsOfDevices refused.0) }
{
    match network_for(rt, tables, console, &mut log) {
        Ok((network, guests)) => {
            let network = LineNetwork::over(network);
            let exchange = Exchange::new(rt.alloc(), network, log, guests);
            bureau_on(rt.alloc(), exchange, revision)
        }
        Err(failure) => {
            drop(revision);
            Err((failure, log))
        }
    }
}

/// An attendant of no line yet and of a console. If there is none the log is given back.
fn bureau_on<N: Network + Drop, L: Write + Drop, S: TableSource + Drop>(
    alloc: Global,
    exchange: Exchange<N, L>,
    revision: Revision<S>,
) -> Result<Bureau<N, L, S>, (Failure, Log<L>)>
    ensures { IfErr result (λ refused. IsOfDevices refused.0) }
{
    match Console::new(alloc) {
        Ok(console) => Ok(Bureau::new(alloc, VERSION, exchange, revision, console)),
        Err(_) => {
            drop(revision);
            Err((Failure::Memory, exchange.into_log()))
        }
    }
}

/// The sockets of this machine, if the lines of these tables may have as many as they need, and the
/// console, if there is to be one; and how many may wait for a line.
fn network_for<'a, R: Files + Net + Clock + AllocGlobal, L: Write + Drop>(
    rt: &'a R,
    tables: &Tables,
    console: Option<&str>,
    log: &mut Log<L>,
) -> Result<(MioNetwork<'a, R>, u64), Failure>
    ensures refused { IfErr result IsOfDevices }
    ensures few { IfOk result (λ found. found.1 ≤ 64) }
{
    let guests = refuse_few(rt, tables, log)?;
    let mut network = network_on(rt, log)?;
    match open_console(rt, &mut network, console, log) {
        Ok(()) => Ok((network, guests)),
        Err(failure) => {
            drop(network);
            Err(failure)
        }
    }
}

/// The sockets of this machine. If they can't be waited for the log says so.
fn network_on<'a, R: Net + Clock + AllocGlobal, L: Write + Drop>(
    rt: &'a R,
    log: &mut Log<L>,
) -> Result<MioNetwork<'a, R>, Failure>
    ensures { IfErr result IsOfDevices }
{
    match MioNetwork::new(rt) {
        Ok(network) => Ok(network),
        Err(error) => {
            log.write(
                Heading::error(utc_milliseconds(rt)),
                &"the sockets of this machine can't be waited for",
            );
            Err(Failure::from(error))
        }
    }
}

/// Serves the lines of tables, over a depot. It and the log are given back.
fn serve_tables<N: Network + Drop, L: Write + Drop, S: TableSource + Drop, D: Depot + Drop>(
    alloc: Global,
    depot: D,
    tables: Tables,
    bureau: Bureau<N, L, S>,
    options: Options<'_>,
) -> (Result<(), Failure>, D, Log<L>)
    ensures served { OnOk result.0 (AreServedFrom D.opens D.says depot result.1 tables options.entry.turns) }
    ensures refused { IfErr result.0 IsOfDevices }
{
    match serve(
        alloc,
        depot,
        tables,
        bureau,
        options.listening,
        options.turns,
    ) {
        (Ok(()), depot, log) => (Ok(()), depot, log),
        (Err(fault), depot, log) => (Err(failure_of(fault)), depot, log),
    }
}

/// What it means for the program that lines weren't served.
fn failure_of(fault: ServeFault) -> Failure
    ensures is { result ≡ failure_of fault }
    ensures of { IsOfDevices result }
{
    match fault {
        ServeFault::Device | ServeFault::Refused => Failure::Device,
        ServeFault::Memory => Failure::Memory,
    }
}
