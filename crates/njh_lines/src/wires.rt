//! What is asked of a wire of a line, by the rules of its protocol.

ghost use Rattle.std.specs.Prelude.{◌≡◌, ◌↔◌, ◌<◌, ◌≤◌, [], length, IsSome, IsTrue, None};
ghost use Rattle.njh_wire.specs.Leaving.{IsSaid, Leaves};
ghost use Rattle.njh_wire.specs.Standing.{after_close, due, Standing};
ghost use Rattle.njh_wire.specs.declared.connection.Saying.TheVariants.{SignOff};
ghost use Rattle.njh_wire.specs.Tally.{tally};
ghost use Rattle.njh_lines.specs.Attention.{beside_at, stalled_at};
ghost use Rattle.njh_lines.specs.Connecting.{IsConnected, IsReady};
ghost use Rattle.njh_lines.specs.Wires.{IsFlushedOn, IsLeft, IsRefusedOn, IsTended};

use njh_table::Protocol;
use njh_wire::{Connection, LineWire, Saying};

/// Whether the hub is still to hear of something on a wire.
pub(crate) fn is_ready<C: Connection + Drop>(wire: &LineWire<C>) -> bool
    ensures { IsTrue result ↔ IsReady wire.now }
{
    wire.is_ready()
}

/// When its next read can answer something though nothing came.
pub(crate) fn deadline<C: Connection + Drop>(wire: &LineWire<C>) -> u64
    ensures waits { 0 < length wire.now.waiting → result ≡ stalled_at wire.now }
    ensures quiet { wire.now.waiting ≡ [] → IsSome wire.now.connection → result ≡ due wire.now }
    ensures absent { wire.now.waiting ≡ [] → wire.now.connection ≡ None → result ≡ u64.MAX }
{
    wire.deadline()
}

/// Sends on what waits, as far as it goes now.
pub(crate) fn let_out<C: Connection + Drop>(wire: &mut LineWire<C>)
    ensures idle { wire.old.waiting ≡ [] → wire.new ≡ wire.old }
    ensures flushed { 0 < length wire.old.waiting → IsFlushedOn wire.old.protocol C.moved wire.old wire.new }
{
    wire.flush();
}

/// Has its peer told what the line doesn't write, if somebody is connected.
pub(crate) fn say<C: Connection + Drop>(wire: &mut LineWire<C>, saying: Saying)
    ensures said { IsSaid C.moved C.said saying wire.old wire.new }
    ensures counts { wire.old.failures ≤ wire.new.failures }
    ensures tally { tally wire.new ≡ tally wire.old }
    ensures clock { wire.new.clock ≡ wire.old.clock }
    ensures protocol { wire.new.protocol ≡ wire.old.protocol }
{
    wire.say(saying);
}

/// Lets who leaves go on, and has the peer told that the hub is there, if nothing was sent for a
/// minute.
pub(crate) fn tend<C: Connection + Drop>(wire: &mut LineWire<C>, now: u64)
    ensures tended { IsTended C.moved C.stops C.said now wire.old wire.new }
    ensures counts { wire.old.failures ≤ wire.new.failures }
    ensures tally { tally wire.new ≡ tally wire.old }
    ensures clock { wire.new.clock ≡ wire.old.clock }
{
    let_leave(wire);
    if wire.alive_at() <= now {
        say(wire, Saying::KeepAlive);
    }
}

/// Lets who leaves go on.
fn let_leave<C: Connection + Drop>(wire: &mut LineWire<C>)
    ensures nobody { wire.old.leave.who ≡ None → wire.new ≡ wire.old }
    ensures leaves { IsSome wire.old.leave.who → Leaves C.moved C.stops wire.old wire.new }
    ensures counts { wire.old.failures ≤ wire.new.failures }
    ensures tally { tally wire.new ≡ tally wire.old }
    ensures clock { wire.new.clock ≡ wire.old.clock }
{
    wire.let_leave();
}

/// When a wire is to be looked at for what is beside its line: who leaves, and what the hub says.
pub(crate) fn beside_at<C: Connection + Drop>(wire: &LineWire<C>) -> u64
    ensures { result ≡ beside_at wire.now }
{
    wire.alive_at().min(wire.leaves_at())
}

/// Ends the connection of a peer whose sign-on was refused: over TCP/IP it is told so before.
pub(crate) fn refuse<C: Connection + Drop>(wire: &mut LineWire<C>)
    ensures ended { IsRefusedOn wire.old.protocol C.moved C.said wire.old wire.new }
    ensures gone { ¬ IsConnected wire.new }
    ensures left { IsLeft wire.old wire.new }
    ensures counts { wire.old.failures ≤ wire.new.failures }
    ensures tally { tally wire.new ≡ tally wire.old }
{
    match wire.protocol() {
        Protocol::Bisync => wire.close(),
        Protocol::Tcp => sign_off(wire),
    }
}

/// Has the peer of a line over TCP/IP told so, and ends its connection.
fn sign_off<C: Connection + Drop>(wire: &mut LineWire<C>)
    ensures said { (middle : Standing C)
        × (IsSaid C.moved C.said SignOff wire.old middle × (wire.new ≡ after_close middle)) }
    ensures gone { ¬ IsConnected wire.new }
    ensures left { IsLeft wire.old wire.new }
    ensures counts { wire.old.failures ≤ wire.new.failures }
    ensures tally { tally wire.new ≡ tally wire.old }
{
    say(wire, Saying::SignOff);
    wire.close();
}
