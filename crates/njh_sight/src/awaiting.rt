//! What is due on a connection without a session, and what is wrong with it.

ghost use Rattle.std.specs.Prelude.{◌≡◌};
ghost use Rattle.njh_sight.specs.Awaiting.{awaits_again, due_next, is_told, told_awaited, told_due, wrong_session};

use crate::ending::refusal_event;
use crate::label::Label;
use njh_hub::SessionView;
use njh_line::Phase;
use njh_log::{Awaited, LogEvent};
use njh_table::Role;

/// For how long a connection is without a session before that is told, in milliseconds.
const PATIENCE: u64 = 10_000;

/// How often it is told, in milliseconds.
const MINUTE: u64 = 60_000;

/// What is due on a line of this role in this phase; nothing if its session is up.
fn due_next(phase: Phase, role: Role) -> Option<Awaited>
    ensures { result ≡ due_next phase role }
{
    match phase {
        Phase::Down => match role {
            Role::Call => Some(Awaited::Acknowledgement),
            Role::Answer => Some(Awaited::Contact),
        },
        Phase::Calling => Some(Awaited::Acknowledgement),
        Phase::Answered => Some(Awaited::SignOn),
        Phase::SentI => Some(Awaited::Response),
        Phase::Up => None,
    }
}

/// Whether it is told now that a connection is without a session since a moment, which may be told
/// again from another on.
fn is_told(since: u64, again: u64, now: u64) -> bool
    ensures { result ≡ is_told since again now }
{
    since.saturating_add(PATIENCE) <= now && again <= now
}

/// From when on it may be told again.
pub fn awaits_again(now: u64) -> u64
    ensures { result ≡ awaits_again now }
{
    now.saturating_add(MINUTE)
}

/// What is told of a line whose session was seen so, if it has a connection without a session.
pub fn awaited_event(
    label: &Label,
    session: &SessionView,
    is_connected: bool,
    now: u64,
) -> Option<LogEvent>
    ensures { result ≡ told_awaited label.now session.now is_connected now }
{
    if !(is_connected && is_told(label.no_session_since, label.awaits_again, now)) {
        return None;
    }
    due_event(session)
}

/// No session is up, and the last sign-on was refused, or its connection is without a session for
/// ten seconds.
pub fn wrong_session(
    label: &Label,
    session: &SessionView,
    is_connected: bool,
    now: u64,
) -> Option<LogEvent>
    ensures { result ≡ wrong_session label.now session.now is_connected now }
{
    if label.up {
        return None;
    }
    if label.up_since < label.barred_until {
        return Some(refusal_event(session.last_refusal));
    }
    if is_connected && is_told(label.no_session_since, 0, now) {
        return due_event(session);
    }
    None
}

/// What is told of a line without a session.
fn due_event(session: &SessionView) -> Option<LogEvent>
    ensures { result ≡ told_due (due_next session.now.phase session.now.role) }
{
    match due_next(session.phase, session.role) {
        Some(what) => Some(LogEvent::NoSession(what)),
        None => None,
    }
}
