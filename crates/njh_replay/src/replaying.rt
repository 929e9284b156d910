//! Replays a script through a hub.

ghost use Rattle.std.specs.Prelude.{◌≡◌, ◌≤◌, ◌⊎◌, ℕ, length, map, All, IfOk, IfErr, OnOk, OnErr};
ghost use Rattle.std.specs.Io.KnownBytes.{Keeps};
ghost use Rattle.njh_replay.specs.LineNames.{customers_of, names_of};
ghost use Rattle.njh_replay.specs.Printed.{frames_text, run_text};
ghost use Rattle.njh_replay.specs.Replayed.{fault_after, text_by, text_of_run, HasBadLine, HasScript, HasTooLong};
ghost use Rattle.njh_replay.specs.Replayed.{IfHubs, IsBegun, IsOfMessage, IsRefusal, IsReplayed, IsReplayedToMessage};
ghost use Rattle.njh_replay.specs.Replayed.{IsReplayedToWant, IsRunShort, MayEnd, Prints, WereTaken};
ghost use Rattle.njh_replay.specs.ScriptRoutes.{IsNamedIn};
ghost use Rattle.njh_replay.specs.code.RunPieces.{IsFramesShort, IsNoOrder};
ghost use Rattle.njh_hub.specs.Parts.{entries_of};
ghost use Rattle.njh_hub.specs.Sent.{IsCounted};
ghost use Rattle.njh_hub.specs.WholeHub.{hub_run, part_at_open, AreTaken, IsNamed, SameLines};

use crate::answers::print_answers;
use crate::fault::ReplayFault;
use crate::files::{customer_names, print_files};
use crate::line_names::LineNames;
use crate::print::FrameRoom;
use crate::printer::Printer;
use crate::script::{MAX_SCRIPT_BYTES, events_of};
use njh_ebcdic::Name;
use njh_hub::{Cause, Event, Hub, HubFault};
use njh_io::read_text;
use njh_table::Tables;
use std::alloc::Global;
use std::io::{Read, Write};

/// Reads a whole script and checks it, then runs its events through a hub of these tables, and
/// prints the frames that the hub sends and the replies to orders, in the order in which they come,
/// and then the files that it holds.
pub fn replay<R: Read, W: Write>(
    alloc: Global,
    tables: Tables,
    script: &mut R,
    out: &mut W,
) -> Result<(), ReplayFault>
    // What is written is the text of the frames that a hub of these tables sends, and of what it
    // answers to orders, over the events of the script, which is good from its first line to its
    // last, and then of the files that each customer has.
    ensures replayed { OnOk result (IsReplayed tables (R.remaining script.old) (W.contents out.old)
        (W.contents out.new)) }

    // It is refused if it is too long, or else at its first bad line, and then nothing is
    // written.
    ensures long { result ≡ Err ReplayFault.TooLong → HasTooLong (R.remaining script.old) }
    ensures bad { (number : ℕ) → result ≡ Err (ReplayFault.Script number) →
        HasBadLine tables (R.remaining script.old) number }
    ensures silent { IfErr result (λ fault. IsRefusal fault → out.new ≡ out.old) }

    // Else a device failed, and a beginning of that text is written, or nothing; or memory ran out:
    // before anything was written, or at an event that gives routes or has an order before it; or
    // a message had no way or no room. What comes of the events before that one is written then.
    ensures faults { IfErr result MayEnd }
    ensures begun { OnErr result (Keeps (W.contents out.old) (W.contents out.new)
        ⊎ IsBegun tables (R.remaining script.old) (W.contents out.old) (W.contents out.new)) }
    ensures memory { result ≡ Err (ReplayFault.Hub HubFault.Memory) → Keeps (W.contents out.old) (W.contents out.new)
        ⊎ IsReplayedToWant tables (R.remaining script.old) (W.contents out.old) (W.contents out.new) }
    ensures message { (why : HubFault) → IsOfMessage why → result ≡ Err (ReplayFault.Hub why) →
        IsReplayedToMessage why tables (R.remaining script.old) (W.contents out.old) (W.contents out.new) }

    // So each message of a script that was run to its end had a way and room when it came.
    ensures orders { OnOk result (WereTaken tables (R.remaining script.old)) }
{
    let events = read_events(alloc, &tables, script)?;
    print_events(alloc, tables, &events, out)
}

/// Runs events through a hub of these tables, and prints each frame that it sends and each reply,
/// and then each file that it holds.
fn print_events<W: Write>(
    alloc: Global,
    tables: Tables,
    events: &[Event],
    out: &mut W,
) -> Result<(), ReplayFault>
    requires { All (IsNamedIn tables) events.now }
    ensures printed { Prints result (W.contents out.old) (W.contents out.new) (text_of_run tables events.now)
        (IsRunShort (names_of tables) (customers_of tables) (map part_at_open (entries_of tables)) events.now) }
    ensures orders { OnOk result (AreTaken (map part_at_open (entries_of tables)) events.now) }
{
    let names = LineNames::of(alloc, &tables)?;
    let customers = customer_names(alloc, &tables)?;
    let mut hub = Hub::open(alloc, tables)?;
    print_all(&mut hub, events, &names, &customers, out)
}

/// Runs events through a hub, and prints each frame that it sends and each reply, and then each file
/// that it holds.
fn print_all<W: Write>(
    hub: &mut Hub,
    events: &[Event],
    names: &LineNames,
    customers: &[Name],
    out: &mut W,
) -> Result<(), ReplayFault>
    requires named { All (IsNamed hub.old) events.now }
    requires all { length customers.now ≡ length hub.old }
    requires few { length customers.now ≤ 64 }
    ensures printed { Prints result (W.contents out.old) (W.contents out.new)
        (text_by names.now hub.old events.now customers.now)
        (IsRunShort names.now customers.now hub.old events.now) }
    ensures orders { OnOk result (AreTaken hub.old events.now) }
{
    let mut printer = Printer {
        out: &mut *out,
        names,
        room: FrameRoom::new(),
        failures: 0,
    };
    print_run(hub, events, customers, &mut printer)?;
    print_files(hub, customers, out)?;
    match out.flush() {
        Ok(()) => Ok(()),
        Err(_) => Err(ReplayFault::Device),
    }
}

/// Runs events through a hub, and prints each frame that it sends and each reply, in their order.
fn print_run<W: Write>(
    hub: &mut Hub,
    events: &[Event],
    customers: &[Name],
    printer: &mut Printer<'_, W>,
) -> Result<(), ReplayFault>
    requires named { All (IsNamed hub.old) events.now }
    requires all { length customers.now ≡ length hub.old }
    ensures printed { Prints result (W.contents printer.old.out.now) (W.contents printer.new.out.now)
        (run_text printer.old.names.now customers.now hub.old events.now)
        (IsRunShort printer.old.names.now customers.now hub.old events.now) }
    ensures orders { OnOk result (AreTaken hub.old events.now) }
    ensures same_reference { printer.new.out.ghost_name ≡ printer.old.out.ghost_name }
    ensures after { OnOk result (hub.new ≡ (hub_run hub.old events.now).parts) }
{
    let mut from = 0;
    for (index, event) in events.iter().enumerate() {
        if let Event::Order(customer, order) = event {
            print_frames(hub, &events[from..index], printer)?;
            let name = customers[usize::from(*customer)];
            print_answers(hub, *customer, order, name, printer.out)?;
            from = index + 1;
        }
    }
    print_frames(hub, &events[from..], printer)
}

/// Runs events of which none is an order through a hub, and prints each frame that it sends. A frame
/// that couldn't be printed is counted, and that alone is `Device`.
fn print_frames<W: Write>(
    hub: &mut Hub,
    events: &[Event],
    printer: &mut Printer<'_, W>,
) -> Result<(), ReplayFault>
    requires named { All (IsNamed hub.old) events.now }
    requires without { All IsNoOrder events.now }
    ensures printed { Prints result (W.contents printer.old.out.now) (W.contents printer.new.out.now)
        (frames_text printer.old.names.now (hub_run hub.old events.now).sent)
        (IsFramesShort printer.old.names.now hub.old events.now) }
    ensures names { OnOk result (printer.new.names.now ≡ printer.old.names.now) }
    ensures same_reference { printer.new.out.ghost_name ≡ printer.old.out.ghost_name }
    ensures counted { result ≡ Err ReplayFault.Device → IsCounted printer.old.failures printer.new.failures }
    ensures after { OnOk result (hub.new ≡ (hub_run hub.old events.now).parts) }
    ensures lines { SameLines hub.old hub.new }
{
    match hub.run(events, printer) {
        Ok(()) => Ok(()),
        Err(fault) => Err(fault_after(fault.cause)),
    }
}

/// The events of a script that comes from a reader.
fn read_events<R: Read>(
    alloc: Global,
    tables: &Tables,
    script: &mut R,
) -> Result<Vec<Event>, ReplayFault>
    ensures good { IfOk result (λ events. HasScript tables.now (R.remaining script.old) events.items) }
    ensures named { IfOk result (λ events. All (IsNamedIn tables.now) events.items) }
    ensures long { result ≡ Err ReplayFault.TooLong → HasTooLong (R.remaining script.old) }
    ensures bad { (number : ℕ) → result ≡ Err (ReplayFault.Script number) →
        HasBadLine tables.now (R.remaining script.old) number }
    ensures faults { IfErr result MayEnd }
    ensures memory { IfErr result (λ fault. IfHubs fault (λ why. why ≡ HubFault.Memory)) }
{
    let text = read_text(alloc, MAX_SCRIPT_BYTES, script)?;
    events_of(alloc, tables, &text)
}

/// The fault of a replay whose run was stopped by this cause.
fn fault_after(cause: Cause) -> ReplayFault
    ensures { result ≡ fault_after cause }
{
    match cause {
        Cause::Hub(fault) => ReplayFault::Hub(fault),
        Cause::Sink => ReplayFault::Device,
    }
}
