//! What is seen of a line.

ghost use Rattle.std.specs.Prelude.{◌≡◌, ◌<◌, ◌↔◌, [], length, IsTrue};
ghost use Rattle.njh_hub.specs.Resting.{IsResting};
ghost use Rattle.njh_hub.specs.Views.{hub_line, line_view};
ghost use Rattle.njh_hub.specs.WholeHub.{HasLine};
ghost use Rattle.njh_sight.specs.Prompting.{speaks_unasked, HasSeen};

use crate::traffic::Sight;
use njh_hub::{Hub, SessionView};
use njh_line::Phase;
use njh_table::{LineId, Protocol, Role};
use njh_wire::{Connection, LineWire};

/// What is shown of a line that the hub doesn't have.
const NO_SESSION: SessionView = SessionView {
    phase: Phase::Down,
    tries: 0,
    has_turn: false,
    role: Role::Answer,
    next_count: 0,
    last_bcb: None,
    refusals: 0,
    last_end: None,
    last_refusal: None,
};

/// What is shown of a line's session.
pub fn session_of(hub: &Hub, id: LineId) -> SessionView
    ensures { HasLine hub.now id → result ≡ line_view (hub_line id hub.now).state }
{
    match hub.session(id) {
        Ok(session) => session,
        Err(_) => NO_SESSION,
    }
}

/// How a line is at the end of its turn.
pub fn sight_of<C: Connection + Drop>(id: LineId, hub: &Hub, wire: &LineWire<C>) -> Sight
    ensures session { HasLine hub.now id → HasSeen (line_view (hub_line id hub.now).state) result }
    ensures rests { IsTrue result.rests → IsResting hub.now id }
    ensures waits { IsTrue result.waits ↔ (0 < length wire.now.waiting) }
    ensures free { IsTrue result.rests → wire.now.waiting ≡ [] }
    ensures begun { result.begun ≡ wire.now.begun }
    ensures unasked { result.unasked ≡ speaks_unasked wire.now.protocol }
{
    let session = session_of(hub, id);
    let waits = wire.waits_to_send();
    Sight {
        is_up: session.phase == Phase::Up,
        next_count: session.next_count,
        last_bcb: session.last_bcb,
        rests: hub.is_resting(id) && wire.is_connected() && !waits,
        waits,
        begun: wire.begun(),
        unasked: speaks_unasked(wire.protocol()),
    }
}

/// Whether the peer of a line may speak unasked, by how its bytes are written: then it waits for no
/// block of the hub's to answer.
fn speaks_unasked(protocol: Protocol) -> bool
    ensures { result ≡ speaks_unasked protocol }
{
    match protocol {
        Protocol::Bisync => false,
        Protocol::Tcp => true,
    }
}
