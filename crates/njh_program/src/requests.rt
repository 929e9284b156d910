//! Does what a request asks for.

ghost use Rattle.std.specs.Prelude.{◌≡◌, ◌⊎◌, option_map, Err, Some, None, IfErr, OnOk, OnErr};
ghost use Rattle.std.specs.Io.KnownBytes.{Keeps};
ghost use Rattle.njh_encode.specs.declared.fault.EncodeEnd.TheVariants.{BadLine};
ghost use Rattle.njh_encode.specs.declared.fault.EncodeFault.{EncodeFault};
ghost use Rattle.njh_program.specs.ProgramOutcome.{AreServedOf, Fails, FindsFault, HasBadWords, IsDone, IsDoneInPart};
ghost use Rattle.njh_program.specs.ProgramOutcome.{IsFilesEnd};
ghost use Rattle.njh_listing.specs.Listed.{IsListed, IsListedInPart};
ghost use Rattle.njh_listing.specs.Printed.{IsPrinted, IsPrintedInPart};
ghost use Rattle.njh_subcommands.specs.Status.{ComesFirst};
ghost use Rattle.njh_subcommands.specs.TableBytes.{AreRefused};

use crate::control::control;
use crate::service::{Options, serve_file};
use crate::spooling::Spooling;
use njh_arguments::Request;
use njh_listing::{Asked, Move};
use njh_log::{Log, LogStyle};
use njh_sites::Listening;
use njh_subcommands::{Failure, perform};
use std::io::{Read, Write};
use std::net::Net;
use std::random::RandomSource;
use std::rt::{Clock, Env, Files};

/// Does what a request asks for. The log of a service goes to `log`, each line behind its priority
/// if it is for a journal.
pub(crate) fn carry_out_request<
    F: Files + Spooling + Net + Clock + Env + RandomSource + AllocGlobal,
    R: Read,
    W: Write,
    L: Write + Drop,
>(
    rt: &F,
    request: Request<'_>,
    script: &mut R,
    out: &mut W,
    log: L,
    is_for_journal: bool,
) -> Result<(), Failure>
    ensures done { OnOk result (IsDone request.entry (R.remaining script.old) (W.contents out.old)
        (W.contents out.new)) }
    ensures failed { IfErr result (Fails request.entry (R.remaining script.old)) }
    ensures bad { (fault : EncodeFault) → result ≡ Err (Failure.Encode (BadLine fault))
        → HasBadWords request.entry fault
        (R.remaining script.old) (W.contents out.old) (W.contents out.new) }
    ensures found { result ≡ Err Failure.Found → FindsFault request.entry (W.contents out.old) (W.contents out.new) }
    ensures begun { OnErr result (Keeps (W.contents out.old) (W.contents out.new)
        ⊎ IsDoneInPart request.entry (R.remaining script.old) (W.contents out.old) (W.contents out.new)) }
    ensures silent { IfErr result (λ failure. ComesFirst failure → Keeps (W.contents out.old) (W.contents out.new)) }
{
    match request {
        Request::Task(task) => {
            drop(log);
            return perform(rt, task, script, out);
        }
        Request::Files {
            spool,
            customer,
            file,
            number,
            raw,
        } => {
            drop(log);
            let asked = Asked {
                customer,
                file,
                number,
                raw,
            };
            return print_files(rt, spool, &asked, out);
        }
        Request::Copy {
            spool,
            customer,
            into,
            is_new,
        } => {
            drop(log);
            let moved = Move {
                customer,
                into,
                is_new,
            };
            return copy_files(rt, spool, &moved, out);
        }
        Request::Serve {
            tables,
            turns,
            listen,
            strict,
            quiet,
            spool,
            console,
            json,
        } => {
            let style = LogStyle {
                is_json: json,
                has_priority: is_for_journal,
            };
            let log = Log::new(if quiet { None } else { Some(log) }, style);
            let options = Options {
                turns,
                listening: Listening {
                    address: listen,
                    strict,
                },
                console,
                spool,
            };
            return serve_lines(rt, tables, spool, options, log);
        }
        Request::Control {
            console,
            json,
            command,
        } => {
            drop(log);
            return control(rt, console, json, &command, out);
        }
    }
}

/// Prints what is asked for of the spool file at a path.
fn print_files<F: Spooling, W: Write>(
    rt: &F,
    path: &str,
    asked: &Asked<'_>,
    out: &mut W,
) -> Result<(), Failure>
    ensures done { OnOk result (IsPrinted (option_map (λ c. c.now) asked.now.customer) asked.now.file asked.now.raw
        (W.contents out.old) (W.contents out.new)) }
    ensures begun { OnErr result (Keeps (W.contents out.old) (W.contents out.new)
        ⊎ IsPrintedInPart (option_map (λ c. c.now) asked.now.customer) asked.now.file asked.now.raw
        (W.contents out.old) (W.contents out.new)) }
    ensures failed { IfErr result IsFilesEnd }
    ensures silent { IfErr result (λ failure. ComesFirst failure → Keeps (W.contents out.old) (W.contents out.new)) }
{
    match rt.print_spool(path, asked, out) {
        Ok(()) => Ok(()),
        Err(fault) => Err(Failure::Files(fault)),
    }
}

/// Copies whole files of the spool file at a path.
fn copy_files<F: Spooling, W: Write>(
    rt: &F,
    path: &str,
    moved: &Move<'_>,
    out: &mut W,
) -> Result<(), Failure>
    ensures done { OnOk result (IsListed (option_map (λ c. c.now) moved.now.customer) (W.contents out.old)
        (W.contents out.new)) }
    ensures begun { OnErr result (Keeps (W.contents out.old) (W.contents out.new)
        ⊎ IsListedInPart (option_map (λ c. c.now) moved.now.customer) (W.contents out.old) (W.contents out.new)) }
    ensures failed { IfErr result IsFilesEnd }
    ensures silent { IfErr result (λ failure. ComesFirst failure → Keeps (W.contents out.old) (W.contents out.new)) }
{
    match rt.copy_spool(path, moved, out) {
        Ok(()) => Ok(()),
        Err(fault) => Err(Failure::Files(fault)),
    }
}

/// Serves the lines of a table file, and keeps whole files in a spool file if one is named.
fn serve_lines<F: Files + Spooling + Net + Clock + AllocGlobal, L: Write + Drop>(
    rt: &F,
    path: &str,
    spool: Option<&str>,
    options: Options<'_>,
    log: Log<L>,
) -> Result<(), Failure>
    ensures served { OnOk result (AreServedOf path.now options.entry.turns spool.entry) }
    ensures refused { IfErr result (λ failure. AreRefused (Some path.now) failure ⊎ IsFilesEnd failure) }
{
    match spool {
        Some(spool) => rt.serve_spool(path, spool, options, log),
        None => serve_file(rt, path, options, log),
    }
}
