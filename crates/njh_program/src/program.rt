//! The whole of the program, on this machine and over any streams. What it calls is for any runtime;
//! that this machine has one is proved here, once for all programs that call it.

ghost use Rattle.std.specs.Prelude.{◌≡◌, ◌≤◌, ◌⊎◌, map, Err, IfErr, OnOk, OnErr};
ghost use Rattle.std.specs.Io.KnownBytes.{Keeps};
ghost use Rattle.std.specs.Process.{exit_status};
ghost use Rattle.njh_encode.specs.declared.fault.EncodeEnd.TheVariants.{BadLine};
ghost use Rattle.njh_encode.specs.declared.fault.EncodeFault.{EncodeFault};
ghost use Rattle.njh_program.specs.ProgramOutcome.{IsBegunFor, IsEncodedBefore, IsFailed, IsFound, IsRunDone};
ghost use Rattle.njh_subcommands.specs.Status.{status_after, ComesFirst};

use crate::refusals::show_or_refuse;
use crate::requests::carry_out_request;
use crate::standard_error::StandardError;
use njh_arguments::{not_utf8, request_of};
use njh_subcommands::Failure;
use std::convert::AsStr;
use std::io::{BufWriter, ErrorKind, Read, Write};
use std::process::ExitCode;
use std::rt::{Env, HostRuntime};
use std::{env, io};

/// How many bytes are written at once, at most: 64 kB.
const WRITTEN_AT_ONCE: usize = 65_536;

/// Runs the program, and answers the status to end with. Why it failed, if it did, goes to
/// `errors`.
pub fn run<E: Print>(rt: &HostRuntime, errors: &E) -> ExitCode
    ensures { exit_status result ≤ 3 }
{
    end(outcome_of(rt, errors), errors)
}

/// Says why the program failed, if it did, and answers the status to end with.
pub fn end<E: Print>(outcome: Result<(), Failure>, errors: &E) -> ExitCode
    ensures { exit_status result ≡ status_after outcome }
{
    match outcome {
        Ok(()) => ExitCode::SUCCESS,
        Err(failure) => {
            let status = failure.status();
            let _ = errors.print(failure);
            ExitCode::from(status)
        }
    }
}

/// Does what the program's own arguments ask for, over its own streams. The log of a service goes
/// to `errors`.
fn outcome_of<E: Print>(rt: &HostRuntime, errors: &E) -> Result<(), Failure> {
    let arguments = arguments_of(rt)?;
    let mut out = BufWriter::with_capacity(rt.alloc(), WRITTEN_AT_ONCE, io::writer(rt))?;
    let log = StandardError::new(errors);
    carry_out(
        rt,
        &arguments,
        &mut rt.reader(),
        &mut out,
        log,
        is_for_journal(rt),
    )
}

/// Whether systemd's journal takes standard error, which says so in the environment
/// (systemd.exec(5), "JOURNAL_STREAM").
fn is_for_journal<R: Env + AllocGlobal>(rt: &R) -> bool {
    match env::var(rt, "JOURNAL_STREAM") {
        Ok(value) => {
            drop(value);
            true
        }
        Err(_) => false,
    }
}

/// The program's arguments.
fn arguments_of<R: Env + AllocGlobal>(rt: &R) -> Result<Vec<String>, Failure> {
    match env::args(rt) {
        Ok(words) => {
            let mut arguments = Vec::new(rt.alloc());
            for word in words {
                arguments.push(word)?;
            }
            Ok(arguments)
        }
        Err(error) if error.kind() == ErrorKind::InvalidData => {
            Err(Failure::Arguments(not_utf8(rt.alloc())?))
        }
        Err(error) => Err(Failure::from(error)),
    }
}

/// Does what the arguments ask for: the arguments are checked first, then the tables, then the
/// script. The log of a service goes to `log`, each line behind its priority if it is for a journal.
/// `script` is what the program is given to read: a script, for `decode` a trace, for `encode` lines
/// in words.
pub fn carry_out<S: AsStr, R: Read, W: Write, L: Write + Drop>(
    rt: &HostRuntime,
    arguments: &[S],
    script: &mut R,
    out: &mut W,
    log: L,
    is_for_journal: bool,
) -> Result<(), Failure>
    ensures done { OnOk result (IsRunDone (map S.text arguments.now) (R.remaining script.old) (W.contents out.old)
        (W.contents out.new)) }
    ensures failed { IfErr result (IsFailed (map S.text arguments.now) (R.remaining script.old)) }
    // Of a bad line in words, and of what a check found, it is exact.
    ensures bad { (fault : EncodeFault) → result ≡ Err (Failure.Encode (BadLine fault)) → IsEncodedBefore
        (map S.text arguments.now) fault (R.remaining script.old) (W.contents out.old) (W.contents out.new) }
    ensures found { result ≡ Err Failure.Found
        → IsFound (map S.text arguments.now) (W.contents out.old) (W.contents out.new) }
    ensures begun { OnErr result (Keeps (W.contents out.old) (W.contents out.new)
        ⊎ IsBegunFor (map S.text arguments.now) (R.remaining script.old) (W.contents out.old) (W.contents out.new)) }
    ensures silent { IfErr result (λ failure. ComesFirst failure → Keeps (W.contents out.old) (W.contents out.new)) }
{
    match request_of(rt.alloc(), arguments) {
        Ok(request) => carry_out_request(rt, request, script, out, log, is_for_journal),
        Err(refusal) => {
            drop(log);
            show_or_refuse(rt.alloc(), arguments, refusal, out)
        }
    }
}
