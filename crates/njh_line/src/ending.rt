//! Why a session ended.

ghost use Rattle.std.specs.Prelude.{◌≡◌, ℕ, List};
ghost use Rattle.njh_block.specs.ItemViews.{given_item};
ghost use Rattle.njh_line.specs.RecordEnds.{record_end};

use njh_block::{ControlRcb, Item};

/// Why a session ended (IBM GA27-3004; IBM SC23-0070, "Multileaving").
#[derive(Clone, Copy, Debug, PartialEq, Eq)]
pub enum SessionEnd {
    /// The peer signed off: the general control record B came.
    SignOff,
    /// EOT came, and the line was up.
    Eot,
    /// ENQ came, and the line was up: the peer makes contact anew.
    Contact,
    /// A sign-on came, and the line was up: the general control record I, J or K.
    SignOn,
    /// E0 came: the peer found a block of the hub out of sequence.
    SequenceError,
    /// A block came out of sequence, and the hub answered by E0.
    OutOfSequence,
    /// Five tries were made in a row, and a sixth was due.
    Tries,
    /// The adapter lost the line, and it was up.
    Lost,
}

impl SessionEnd {
    /// The end that a record makes of a session that is up, if it makes one: E0, the sign-off B
    /// (SRCB C2), and the sign-ons I (C9), J (D1) and K (D2).
    pub fn of_record(item: &Item<'_>) -> Option<SessionEnd>
        ensures { (bytes : List ℕ) → result ≡ record_end (given_item bytes item.now) }
    {
        match item {
            Item::Control { rcb, .. } => {
                if *rcb == ControlRcb::SequenceError {
                    Some(SessionEnd::SequenceError)
                } else {
                    None
                }
            }
            Item::General { srcb, .. } => match *srcb {
                0xc2 => Some(SessionEnd::SignOff),
                0xc9 | 0xd1 | 0xd2 => Some(SessionEnd::SignOn),
                _ => None,
            },
            Item::Data { .. } | Item::Abort { .. } | Item::Long { .. } => None,
        }
    }
}
