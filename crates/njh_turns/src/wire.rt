//! Wires: the way of a line's bytes and frames.

ghost use Rattle.std.specs.Prelude.{◌≡◌, ◌<◌, ◌≤◌, List, [], ◌∷◌, ◌++◌, length, OnOk, OnErr, IfOk, IsTrue, Ok};
ghost use Rattle.njh_hub.specs.Sent.{IsCounted};
ghost use Rattle.njh_turns.specs.Wires.{Sent, Unsent, answer_acts, heard_of, IsReading};

use crate::wire_reading::{Reading, WireFault};

/// A wire of a line: bytes come on it, and frames go out.
///
/// A wire in memory keeps what passes on it; one on a socket doesn't. A fault is answered only
/// where the count of failures rose, or stands at its greatest value.
pub trait Wire {
    ghost use Rattle.std.specs.Prelude.{List};
    ghost use Rattle.njh_turns.specs.Wires.{WireAct, WireSays};

    /// What it says of itself: what passed on it between two states, in this order, and nothing
    /// else; that between two no byte went out of it, so that what was written waits; and how often
    /// it failed.
    ghost says: { WireSays Self };

    /// How often it failed.
    fn failures(&self) -> u64
        ensures { result ≡ says.count self.now };

    /// Reads once: puts bytes that came at the front of the buffer, or says that there are none.
    /// Where it is prompted, which is for this read alone, bytes that came go first.
    fn read(&mut self, into: &mut [u8], is_prompted: bool) -> Result<Reading, WireFault>
        requires { 0 < length into.old }
        ensures answered { says.passed self.old self.new (answer_acts (heard_of result into.new)) }
        ensures prompted { result ≡ Ok Reading.Prompted → IsTrue is_prompted }
        ensures withheld { says.withheld self.old self.new }
        ensures within { IfOk result (IsReading (length into.new)) }
        ensures counts { says.count self.old ≤ says.count self.new }
        ensures counted { OnErr result (IsCounted (says.count self.old) (says.count self.new)) };

    /// Takes a frame whole, to be sent once it is let out, or answers a fault.
    fn write(&mut self, frame: &[u8]) -> Result<(), WireFault>
        ensures ok { OnOk result (says.passed self.old self.new (Sent frame.now ∷ [])) }
        ensures err { OnErr result (says.passed self.old self.new (Unsent frame.now ∷ [])) }
        ensures withheld { says.withheld self.old self.new }
        ensures counts { says.count self.old ≤ says.count self.new }
        ensures counted { OnErr result (IsCounted (says.count self.old) (says.count self.new)) };

    /// Nothing passed where nothing happened.
    ghost none: { (s : Self) → says.passed s s [] };

    /// Some acts, and then more.
    ghost more: { (a b c : Self) (xs ys : List WireAct)
        → says.passed a b xs → says.passed b c ys → says.passed a c (xs ++ ys) };

    /// Nothing goes out where nothing happens.
    ghost withheld_none: { (s : Self) → says.withheld s s };

    /// Nor in what comes after the other.
    ghost withheld_more: { (a b c : Self) → says.withheld a b → says.withheld b c → says.withheld a c };
}
