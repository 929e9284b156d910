//! Carries out a command by the console of a hub that runs.

ghost use Rattle.std.specs.Prelude.{◌⊎◌, IfErr, OnErr, OnOk};
ghost use Rattle.std.specs.Io.KnownBytes.{Keeps};
ghost use Rattle.njh_program.specs.ProgramOutcome.{IsControlEnd, IsTold};
ghost use Rattle.njh_program.specs.ShownText.{IsTextBegun};
ghost use Rattle.njh_subcommands.specs.Status.{ComesFirst};

use crate::console_path::ConsoleOf;
use crate::orderer::giver_of;
use njh_arguments::ConsoleCommand;
use njh_ctl::{CtlFault, Ending, Giver, Machine, Operator};
use njh_io::write_bytes;
use njh_subcommands::Failure;
use std::alloc::Global;
use std::io::{Read, Write};
use std::net::Net;
use std::os::unix::net::UnixStream;
use std::random::RandomSource;
use std::rt::{Clock, Env};

/// Carries out a command by a console, and tells what it answers: as it came, or for people. What
/// came before a fault is told all the same.
pub(crate) fn control<F: Net + Env + Clock + RandomSource + AllocGlobal, W: Write>(
    rt: &F,
    console: Option<&str>,
    json: bool,
    command: &ConsoleCommand<'_>,
    out: &mut W,
) -> Result<(), Failure>
    ensures done { OnOk result (IsTold (W.contents out.old) (W.contents out.new)) }
    ensures failed { IfErr result IsControlEnd }
    ensures begun { OnErr result (Keeps (W.contents out.old) (W.contents out.new)
        ⊎ IsTextBegun (W.contents out.old) (W.contents out.new)) }
    ensures silent { IfErr result (λ failure. ComesFirst failure → Keeps (W.contents out.old) (W.contents out.new)) }
{
    match giver_of(rt) {
        Ok(giver) => {
            let alloc = rt.alloc();
            let speaker = Speaker { alloc, json, giver };
            command_by(ConsoleOf { rt, console }, speaker, command, out)
        }
        Err(fault) => Err(Failure::Control(fault)),
    }
}

/// Who gives a command, and how answers are told: as they came, or for people.
#[derive(Drop)]
struct Speaker {
    alloc: Global,
    json: bool,
    giver: Giver,
}

/// Gives a command to the console that a machine has, and tells what it answers.
fn command_by<M: Machine<UnixStream> + Drop, W: Write>(
    machine: M,
    speaker: Speaker,
    command: &ConsoleCommand<'_>,
    out: &mut W,
) -> Result<(), Failure>
    ensures done { OnOk result (IsTold (W.contents out.old) (W.contents out.new)) }
    ensures failed { IfErr result IsControlEnd }
    ensures begun { OnErr result (Keeps (W.contents out.old) (W.contents out.new)
        ⊎ IsTextBegun (W.contents out.old) (W.contents out.new)) }
    ensures silent { IfErr result (λ failure. ComesFirst failure → Keeps (W.contents out.old) (W.contents out.new)) }
{
    match Operator::new(speaker.alloc, machine, speaker.json, speaker.giver) {
        Ok(mut operator) => {
            let ended = carried_out(&mut operator, command);
            tell_ended(out, operator, ended)
        }
        Err(fault) => Err(Failure::Control(fault)),
    }
}

/// Carries out a command. If it isn't known whether its order was done that is asked once more.
fn carried_out<S: Read + Write + Drop, M: Machine<S> + Drop>(
    operator: &mut Operator<S, M>,
    command: &ConsoleCommand<'_>,
) -> Result<Ending, CtlFault> {
    match operator.carry_out(command) {
        Err(CtlFault::Lost(name)) => operator.ask_again(name),
        ended => ended,
    }
}

/// Tells what is to be told of a command that ended so.
#[tactic(auto, using(crate::proofs::ControlLaws::told_begun))]
fn tell_ended<S: Read + Write + Drop, M: Machine<S> + Drop, W: Write>(
    out: &mut W,
    operator: Operator<S, M>,
    ended: Result<Ending, CtlFault>,
) -> Result<(), Failure>
    ensures done { OnOk result (IsTold (W.contents out.old) (W.contents out.new)) }
    ensures failed { IfErr result IsControlEnd }
    ensures begun { OnErr result (Keeps (W.contents out.old) (W.contents out.new)
        ⊎ IsTextBegun (W.contents out.old) (W.contents out.new)) }
    ensures silent { IfErr result (λ failure. ComesFirst failure → Keeps (W.contents out.old) (W.contents out.new)) }
{
    let told = tell(out, operator.text());
    drop(operator);
    match told {
        Ok(()) => match ended {
            Ok(ending) => ended_so(ending.result()),
            Err(fault) => Err(Failure::Control(fault)),
        },
        Err(failure) => Err(failure),
    }
}

/// What the program ends with.
fn ended_so(ended: Result<(), CtlFault>) -> Result<(), Failure>
    ensures failed { IfErr result (λ failure. IsControlEnd failure × (ComesFirst failure → ⊥)) }
{
    match ended {
        Ok(()) => Ok(()),
        Err(fault) => Err(Failure::Control(fault)),
    }
}

/// Writes a text.
#[tactic(auto, using(crate::proofs::ControlLaws::bytes_begun, crate::proofs::ControlLaws::told_begun))]
fn tell<W: Write>(out: &mut W, text: &str) -> Result<(), Failure>
    ensures told { OnOk result (IsTold (W.contents out.old) (W.contents out.new)) }
    ensures failed { IfErr result IsControlEnd }
    ensures begun { OnErr result (Keeps (W.contents out.old) (W.contents out.new)
        ⊎ IsTextBegun (W.contents out.old) (W.contents out.new)) }
    ensures silent { IfErr result (λ failure. ComesFirst failure → Keeps (W.contents out.old) (W.contents out.new)) }
{
    match write_bytes(out, text.as_bytes()) {
        Ok(()) => {}
        Err(_) => return Err(Failure::Device),
    }
    match out.flush() {
        Ok(()) => Ok(()),
        Err(_) => Err(Failure::Device),
    }
}
