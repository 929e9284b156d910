//! The part of a TTB that is coming, and which part comes behind a whole head.

ghost use Rattle.std.specs.Prelude.{◌≡◌, ◌≤◌, [], IsTrue};
ghost use Rattle.njh_tcp.specs.ByteSteps.{after_head, after_ttr_head};
ghost use Rattle.njh_tcp.specs.Faults.{head_fault};
ghost use Rattle.njh_tcp.specs.code.Room.{has_room};
ghost use Rattle.njh_tcp.specs.code.Scanner.{step_to};

use crate::fault::TtbFault;
use crate::heads::{SHORTEST_TTB, TTR_HEAD};
use njh_bisync::LONGEST_TEXT;

/// The most data of a TTR: DLE STX and the longest text.
pub const LONGEST_TTR: usize = 2 + LONGEST_TEXT;

/// The part of a TTB that is coming.
#[derive(Clone, Copy, Debug)]
pub enum Place {
    /// Its head.
    Head,
    /// The head of a TTR, which may be the end: so many bytes of the TTB are behind it.
    TtrHead(usize),
    /// The data of a TTR: so many bytes of the TTB are behind them, and so many they are.
    Ttr(usize, usize),
}

/// The part behind the head of a TTB that tells so many bytes.
pub fn place_in_ttb(size: usize) -> Result<Place, TtbFault>
    ensures step { after_head size ≡ step_to result }
    ensures room { IsTrue (has_room result [] []) }
{
    if size < SHORTEST_TTB {
        return Err(TtbFault::ShortTtb(size));
    }
    Ok(Place::TtrHead(size - SHORTEST_TTB))
}

/// The part behind the head of a TTR that tells so many bytes of data, with so many bytes of the
/// TTB behind it.
pub fn place_in_ttr(behind: usize, size: usize) -> Result<Place, TtbFault>
    requires { size ≤ 65535 }
    ensures step { after_ttr_head behind size ≡ step_to result }
    ensures room { IsTrue (has_room result [] []) }
{
    if let Some(fault) = head_fault(behind, size) {
        return Err(fault);
    }
    if size == 0 {
        Ok(Place::Head)
    } else {
        Ok(Place::Ttr(behind - size, size))
    }
}

/// What is wrong with the head of a TTR that tells so many bytes of data, with so many bytes of the
/// TTB behind it. One that tells none is the end.
fn head_fault(behind: usize, size: usize) -> Option<TtbFault>
    requires { size ≤ 65535 }
    ensures { result ≡ head_fault behind size }
{
    if size == 0 {
        return end_fault(behind);
    }
    if size > LONGEST_TTR {
        return Some(TtbFault::LongTtr(size));
    }
    if behind < size + TTR_HEAD {
        return Some(TtbFault::PastEnd(size, behind.saturating_sub(TTR_HEAD)));
    }
    None
}

/// What is wrong with an end that has so many bytes of its TTB behind it.
fn end_fault(behind: usize) -> Option<TtbFault>
    ensures { result ≡ head_fault behind 0 }
{
    if behind == 0 {
        return None;
    }
    Some(TtbFault::EarlyEnd(behind))
}
