//! A line's session.

ghost use Rattle.std.specs.Prelude.{◌≡◌};
ghost use Rattle.njh_line.specs.Sessions.{fresh, entered_session, down_session, ended_session, refused_session};
ghost use Rattle.njh_line.specs.Sessions.{acknowledged_session};

use crate::Phase;
use crate::ending::SessionEnd;
use crate::refusal::Refusal;
use njh_block::{Bcb, Fcs};

/// The least size of a text that two ends may agree on.
pub(crate) const LEAST_SIZE: u16 = 300;

/// A line's session.
#[derive(Clone, Copy, Debug, PartialEq, Eq)]
pub struct Session {
    /// How far the line is.
    pub phase: Phase,
    /// How often in a row it tried again, 5 times at most.
    pub tries: u8,
    /// Whether the turn is the hub's.
    pub has_turn: bool,
    /// The BCB of the last block acted on in this session, those with an unchecked count aside.
    pub last_bcb: Option<Bcb>,
    /// The count of the hub's next block, modulo 16.
    pub next_count: u8,
    /// The most bytes of a text that the hub sends, 300 to 4,096.
    pub size: u16,
    /// The function control sequence of the last block of the peer that was acted on.
    pub peer_fcs: Fcs,
    /// The last function control sequence that the hub sent in this session.
    pub own_fcs: Fcs,
    /// How many blocks were acted on where a sign-on was due and none came that fits, over all
    /// sessions of the line; the count stays at the greatest `u64`.
    pub refusals: u64,
    /// Why the line's last session ended, if one did. Where the line only went down before it was
    /// up, by EOT, a loss or a refusal, no session ended.
    pub last_end: Option<SessionEnd>,
    /// Why the last sign-on was refused, if one was.
    pub last_refusal: Option<Refusal>,
}

impl Session {
    /// That of a line that never was up.
    pub(crate) fn fresh() -> Session
        ensures { result ≡ fresh }
    {
        Session {
            phase: Phase::Down,
            tries: 0,
            has_turn: false,
            last_bcb: None,
            next_count: 0,
            size: LEAST_SIZE,
            peer_fcs: Fcs::nothing_suspended(),
            own_fcs: Fcs::nothing_suspended(),
            refusals: 0,
            last_end: None,
            last_refusal: None,
        }
    }

    /// A session begins.
    pub(crate) fn entered(self, phase: Phase) -> Session
        ensures { result ≡ entered_session phase self }
    {
        Session {
            phase,
            tries: 0,
            has_turn: false,
            last_bcb: None,
            next_count: 0,
            own_fcs: Fcs::nothing_suspended(),
            ..self
        }
    }

    /// The line goes down, where it wasn't up.
    pub(crate) fn down(self) -> Session
        ensures { result ≡ down_session self }
    {
        Session {
            phase: Phase::Down,
            ..self
        }
    }

    /// The session ends so: the line goes down.
    pub(crate) fn ended(self, end: SessionEnd) -> Session
        ensures { result ≡ ended_session end self }
    {
        Session {
            phase: Phase::Down,
            last_end: Some(end),
            ..self
        }
    }

    /// The peer's sign-on is refused: the line goes down.
    pub(crate) fn refused(self, refusal: Refusal) -> Session
        ensures { result ≡ refused_session refusal self }
    {
        Session {
            phase: Phase::Down,
            refusals: self.refusals.saturating_add(1),
            last_refusal: Some(refusal),
            ..self
        }
    }

    /// The peer acknowledges.
    pub(crate) fn acknowledged(self) -> Session
        ensures { result ≡ acknowledged_session self }
    {
        Session { tries: 0, ..self }
    }
}
