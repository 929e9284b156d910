//! Laws of what wires answer, each the contract of a function that does nothing.

ghost use Rattle.std.specs.Prelude.{◌≡◌, ◌≢◌, ℕ, ◌≤◌, Bool, List, [], length, Result, Ok};
ghost use Rattle.njh_bisync.specs.ByteSteps.{frames_after};
ghost use Rattle.njh_bisync.specs.Reading.{Rest};
ghost use Rattle.njh_turns.specs.declared.wire_reading.Reading.{Reading};
ghost use Rattle.njh_turns.specs.declared.wire_reading.Reading.TheVariants.{Pending};
ghost use Rattle.njh_turns.specs.declared.wire_reading.WireFault.{WireFault};
ghost use Rattle.njh_wire.specs.ByTcp.{HasRoom, IsReadByTcp, IsWaitByTcp};
ghost use Rattle.njh_wire.specs.OneFrame.{IsOneFrame};
ghost use Rattle.njh_wire.specs.Standing.{Standing};

use crate::connection::Connection;

/// Whatever came before, at most one frame ends in bytes of which only the last may end one.
pub fn one_frame_at_most()
    ensures { (rest : Rest) (bytes : List ℕ) → IsOneFrame bytes → length (frames_after rest bytes) ≤ 1 }
{}

/// On a line over TCP/IP the longest frame has room after each read that lets the line write, that
/// is, after each but one that answers that nothing came. So no write fails for want of room.
pub fn no_write_fails<C: Connection + Drop>()
    ensures waits { (s : Standing C) (result : Result Reading WireFault) (buffer : List ℕ) (new : Standing C) →
        IsWaitByTcp C.moved C.stops s result buffer new → result ≢ Ok Pending → HasRoom new }
    ensures reads { (s : Standing C) (is_prompted : Bool) (result : Result Reading WireFault) (buffer : List ℕ)
        (new : Standing C) → s.waiting ≡ [] → IsReadByTcp C.moved C.stops s is_prompted result buffer new →
        HasRoom new }
{}
