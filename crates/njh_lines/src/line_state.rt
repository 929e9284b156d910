//! How a line is served, and how the operator wants it to be.

ghost use Rattle.std.specs.Prelude.{◌≡◌};
ghost use Rattle.njh_lines.specs.LineStates.{change_event, is_draining, is_stopped, state_wished};

use njh_log::LogEvent;
use njh_request::{EndMoment, LineState, LineWish};

/// Whether a line lets none in.
pub(crate) fn is_stopped(state: LineState) -> bool
    ensures { result ≡ is_stopped state }
{
    match state {
        LineState::Started | LineState::Draining => false,
        LineState::Stopped => true,
    }
}

/// Whether a line is to be stopped once no file is on its streams.
pub(crate) fn is_draining(state: LineState) -> bool
    ensures { result ≡ is_draining state }
{
    match state {
        LineState::Started | LineState::Stopped => false,
        LineState::Draining => true,
    }
}

/// How a line is served once the operator wants it so.
pub(crate) fn state_wished(wish: LineWish, state: LineState) -> LineState
    ensures { result ≡ state_wished wish state }
{
    match wish {
        LineWish::Started => LineState::Started,
        LineWish::Stopped(EndMoment::AtOnce) => LineState::Stopped,
        LineWish::Stopped(EndMoment::WhenIdle) => match state {
            LineState::Started | LineState::Draining => LineState::Draining,
            LineState::Stopped => LineState::Stopped,
        },
    }
}

/// What is told of a line that was served so, and is served so now.
pub(crate) fn change_event(was: LineState, now: LineState) -> Option<LogEvent>
    ensures { result ≡ change_event was now }
{
    if was == now {
        return None;
    }
    Some(match now {
        LineState::Started => LogEvent::LineStarted,
        LineState::Draining => LogEvent::LineDrains,
        LineState::Stopped => LogEvent::LineStopped,
    })
}
