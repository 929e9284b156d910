//! How the lines are served, as the operator wants it.

ghost use Rattle.std.specs.Prelude.{◌≡◌, Some, slice_get};
ghost use Rattle.njh_sight.specs.Streams.{is_free};
ghost use Rattle.njh_lines.specs.LineStates.{line_settled, line_wished};
ghost use Rattle.njh_lines.specs.LineStates.{state_after, state_settled, with_state, IsMadeAt};
ghost use Rattle.njh_lines.specs.Watching.{ServedLine};

use crate::exchange::Exchange;
use crate::line_state::{is_draining, state_wished};
use crate::waking::call;
use njh_hub::Hub;
use njh_request::{LineState, LineWish};
use njh_sight::is_free;
use njh_table::LineId;
use njh_wire::Network;
use std::io::Write;

/// The line at this place is served so from now on, if it is the one of this id.
pub(crate) fn wish_at<N: Network + Drop, L: Write + Drop>(
    exchange: &mut Exchange<N, L>,
    place: usize,
    id: LineId,
    wish: LineWish,
)
    ensures { IsMadeAt place (line_wished id wish) exchange.old.lines exchange.new.lines }
{
    let Some(post) = exchange.posts.get(place) else {
        return;
    };
    let state = state_after(id, wish, post.line, post.state);
    set_state(exchange, place, state);
}

/// The line at this place, if it is to be stopped once no file is on its streams, is stopped if
/// none is. Answers how it is served then.
pub(crate) fn settle_at<N: Network + Drop, L: Write + Drop>(
    exchange: &mut Exchange<N, L>,
    place: usize,
    hub: &Hub,
) -> LineState
    ensures made { IsMadeAt place (line_settled hub.now) exchange.old.lines exchange.new.lines }
    ensures state { (line : ServedLine) → slice_get exchange.new.lines place ≡ Some line → line.state ≡ result }
{
    let Some(post) = exchange.posts.get(place) else {
        return LineState::Started;
    };
    let state = state_settled(hub, post.line, post.state);
    set_state(exchange, place, state);
    state
}

/// The line at this place is served so from now on. If it wasn't before, the log tells it, and
/// the line is looked at in the next round.
fn set_state<N: Network + Drop, L: Write + Drop>(
    exchange: &mut Exchange<N, L>,
    place: usize,
    state: LineState,
)
    ensures { IsMadeAt place (with_state state) exchange.old.lines exchange.new.lines }
{
    if change(exchange, place, state) {
        call(exchange, place);
    }
}

/// The line at this place is served so from now on. If it wasn't before, the log tells it.
/// Answers whether it was served otherwise.
fn change<N: Network + Drop, L: Write + Drop>(
    exchange: &mut Exchange<N, L>,
    place: usize,
    state: LineState,
) -> bool
    ensures { IsMadeAt place (with_state state) exchange.old.lines exchange.new.lines }
{
    let now = exchange.surroundings.now;
    let Some(post) = exchange.posts.get_mut(place) else {
        return false;
    };
    let Some(event) = post.set_state(state, now) else {
        return false;
    };
    exchange.surroundings.tell(&post.label, event);
    true
}

/// How a line is served, once the one of this id is to be so.
fn state_after(id: LineId, wish: LineWish, line: LineId, state: LineState) -> LineState
    ensures { result ≡ state_after id wish line state }
{
    if id.customer == line.customer && id.number == line.number {
        state_wished(wish, state)
    } else {
        state
    }
}

/// How a line that was served so is served after a round.
fn state_settled(hub: &Hub, line: LineId, state: LineState) -> LineState
    ensures { result ≡ state_settled (is_free line hub.now) state }
{
    if is_draining(state) && is_free(line, hub) {
        LineState::Stopped
    } else {
        state
    }
}
