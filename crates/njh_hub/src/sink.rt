//! Where the frames go that the hub sends.

ghost use Rattle.std.specs.Prelude.{◌≡◌, ℕ, ◌≤◌, List, [], ◌∷◌, ◌++◌, OnOk, OnErr};
ghost use Rattle.njh_hub.specs.Sent.{IsCounted};

use njh_table::LineId;
use thiserror::Error;

/// A sink took no frame.
#[derive(Clone, Copy, Debug, PartialEq, Eq, Error)]
#[error("the sink took no frame")]
pub struct SinkFault;

/// Takes the frames that a run sends, each with its line.
///
/// A sink in memory takes pairs by keeping them; one that writes on a socket or a terminal, by
/// writing their text. A fault is answered only where the count of failures rose, or stands at its
/// greatest value.
pub trait Sink {
    ghost use Rattle.std.specs.Prelude.{ℕ, List};
    ghost use Rattle.njh_table.specs.declared.LineId.{LineId};

    /// Between these two states it took these pairs, in this order, and nothing else.
    ghost took: { Self → Self → List (LineId × List ℕ) → Type 0 };

    /// Between these two states it refused this pair.
    ghost refused: { Self → Self → LineId × List ℕ → Type 0 };

    /// How often it failed.
    ghost count: { Self → ℕ };

    fn failures(&self) -> u64
        ensures { result ≡ count self.now };

    fn send(&mut self, id: LineId, frame: &[u8]) -> Result<(), SinkFault>
        ensures ok { OnOk result (took self.old self.new ((id, frame.now) ∷ [])) }
        ensures err { OnErr result (refused self.old self.new (id, frame.now)) }
        ensures counts { count self.old ≤ count self.new }
        ensures counted { OnErr result (IsCounted (count self.old) (count self.new)) };

    /// No pair came where nothing happened.
    ghost none: { (s : Self) → took s s [] };

    /// Some pairs, and then more.
    ghost more: { (a b c : Self) (xs ys : List (LineId × List ℕ)) → took a b xs → took b c ys → took a c (xs ++ ys) };
}
