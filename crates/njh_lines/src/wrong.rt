//! What is wrong with a line now, and what the operator wants of it.

ghost use Rattle.std.specs.Prelude.{◌≡◌};
ghost use Rattle.njh_lines.specs.Wrong.{first_wrong, intended_on, wrong_dial, wrong_on, wrong_site, wrong_where};

use crate::post::Post;
use njh_hub::SessionView;
use njh_log::LogEvent;
use njh_open::NakReason;
use njh_request::LineState;
use njh_sight::wrong_session;
use njh_sites::{Dial, Door, Site};
use std::net::SocketAddr;

/// What is wrong with a line whose session is seen so, as the log tells it: the first of the things
/// that may be. Nothing is wrong with one that the operator stopped, or has stopped once it is idle.
pub fn wrong_on<Li: Drop, C: Drop>(
    post: &Post<Li, C>,
    session: &SessionView,
    is_connected: bool,
    now: u64,
) -> Option<LogEvent>
    ensures { result ≡ wrong_on post.now session.now is_connected now }
{
    let site = wrong_site(&post.site, post.label.nak);
    let session = wrong_session(&post.label, session, is_connected, now);
    wrong_where(post.state, first_wrong(site, session))
}

/// The first, or else the other.
fn first_wrong(event: Option<LogEvent>, other: Option<LogEvent>) -> Option<LogEvent>
    ensures { result ≡ first_wrong event other }
{
    match event {
        Some(event) => Some(event),
        None => other,
    }
}

/// What would be wrong with a line, if it is started.
fn wrong_where(state: LineState, event: Option<LogEvent>) -> Option<LogEvent>
    ensures { result ≡ wrong_where state event }
{
    match state {
        LineState::Started => event,
        LineState::Draining => None,
        LineState::Stopped => None,
    }
}

/// What the operator wants of a line that isn't started.
pub fn intended_on(state: LineState) -> Option<LogEvent>
    ensures { result ≡ intended_on state }
{
    match state {
        LineState::Started => None,
        LineState::Draining => Some(LogEvent::LineDrains),
        LineState::Stopped => Some(LogEvent::LineStopped),
    }
}

/// Its port can't be listened on, or its last dial failed, or was answered NAK.
fn wrong_site<Li: Drop, C: Drop>(
    site: &Site<Door<Li>, Dial<C>>,
    nak: Option<NakReason>,
) -> Option<LogEvent>
    ensures { result ≡ wrong_site nak site.now }
{
    match site {
        Site::Listens(Door::Open(_)) => None,
        Site::Listens(Door::Shut { address, cause, .. }) => {
            Some(LogEvent::ListenFailed(*address, *cause))
        }
        Site::Dials(dial) => {
            if dial.has_failed() {
                Some(wrong_dial(dial.address(), nak))
            } else {
                None
            }
        }
    }
}

/// A dial to an address failed, or was answered NAK.
fn wrong_dial(address: SocketAddr, nak: Option<NakReason>) -> LogEvent
    ensures { result ≡ wrong_dial address nak }
{
    match nak {
        Some(reason) => LogEvent::PeerRefused(reason),
        None => LogEvent::DialFailed(address),
    }
}
