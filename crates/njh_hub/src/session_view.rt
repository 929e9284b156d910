//! What is shown of a line's session, and how long a quiet lasts there.

ghost use Rattle.std.specs.Prelude.{◌≡◌};
ghost use Rattle.njh_hub.specs.Quiets.{patience, quiet_time};
ghost use Rattle.njh_hub.specs.Views.{session_view};

use njh_line::{Phase, Refusal, Session, SessionEnd};
use njh_table::Role;

/// How many milliseconds without a byte are a quiet where the hub is to ask or to send, and where
/// nobody called.
pub const QUIET_TIME: u64 = 100;

/// How many are one where the peer has the turn and the hub calls.
const CALLERS_PATIENCE: u64 = 200;

/// How many are one where the peer has the turn and the hub answers.
const ANSWERERS_PATIENCE: u64 = 250;

/// A line's session, as far as it is shown.
#[derive(Clone, Copy, Debug, PartialEq, Eq)]
pub struct SessionView {
    /// How far the line is.
    pub phase: Phase,
    /// How often in a row it tried again, 5 times at most.
    pub tries: u8,
    /// Whether the turn is the hub's; only a session that is up has turns.
    pub has_turn: bool,
    /// Whether the hub calls or answers.
    pub role: Role,
    /// The count of the hub's own next block, modulo 16: that of the last one that was sent, plus
    /// 1.
    pub next_count: u8,
    /// The BCB of the last block of the peer that was acted on in this session, those whose count
    /// isn't checked aside.
    pub last_bcb: Option<u8>,
    /// How many blocks were acted on where a sign-on was due and none came that fits, over all
    /// sessions of the line; the count stays at the greatest `u64`.
    pub refusals: u64,
    /// Why the line's last session ended, if one did.
    pub last_end: Option<SessionEnd>,
    /// Why the last sign-on was refused, if one was. What came as a password isn't shown.
    pub last_refusal: Option<Refusal>,
}

impl SessionView {
    /// What is shown of a line of this role in this session.
    pub(crate) fn of(session: Session, role: Role) -> SessionView
        ensures { result ≡ session_view role session }
    {
        SessionView {
            phase: session.phase,
            tries: session.tries,
            has_turn: session.has_turn,
            role,
            next_count: session.next_count,
            last_bcb: session.last_bcb.map(|bcb| bcb.byte()),
            refusals: session.refusals,
            last_end: session.last_end,
            last_refusal: session.last_refusal,
        }
    }

    /// How many milliseconds without a byte are a quiet on the line: 100 where the session is up
    /// and the turn is the hub's, and where the line calls or is down; else 200 where the hub
    /// calls, and 250 where it answers.
    ///
    /// A tenth quiet in a row is a tick. So an end with the turn has sent before its peer asks for
    /// what doesn't come, and two ends of which neither has the turn ask at different moments.
    pub fn quiet_time(&self) -> u64
        ensures { result ≡ quiet_time self.now }
    {
        match self.phase {
            Phase::Down | Phase::Calling => QUIET_TIME,
            Phase::Answered | Phase::SentI => patience(self.role),
            Phase::Up => {
                if self.has_turn {
                    QUIET_TIME
                } else {
                    patience(self.role)
                }
            }
        }
    }
}

/// How many milliseconds are a quiet where the hub waits for what its peer is to send.
fn patience(role: Role) -> u64
    ensures { result ≡ patience role }
{
    match role {
        Role::Call => CALLERS_PATIENCE,
        Role::Answer => ANSWERERS_PATIENCE,
    }
}
