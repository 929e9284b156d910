//! When a line is in a session, and what is told of a session's end.

ghost use Rattle.std.specs.Prelude.{◌≡◌};
ghost use Rattle.njh_sight.specs.Sessions.{is_session, is_up, no_session_since, session_change, session_end};
ghost use Rattle.njh_sight.specs.Sessions.{end_after, ended_on, in_session_after, refusal_event, refusals_event};
ghost use Rattle.njh_sight.specs.Sessions.{last_frame, tries_end, tries_since, up_since};

use njh_ebcdic::Name;
use njh_line::{Phase, Refusal};
use njh_log::{DownCause, LastFrame, LogEvent, SessionChange};
use njh_wire::LastBytes;
use std::net::IpAddr;

/// Whether a line in this phase is in a session.
pub fn is_session(phase: Phase) -> bool
    ensures { result ≡ is_session phase }
{
    match phase {
        Phase::Down | Phase::Calling => false,
        Phase::Answered | Phase::SentI | Phase::Up => true,
    }
}

/// Whether it is up.
pub fn is_up(phase: Phase) -> bool
    ensures { result ≡ is_up phase }
{
    match phase {
        Phase::Down | Phase::Calling | Phase::Answered | Phase::SentI => false,
        Phase::Up => true,
    }
}

/// Since when a session tries again that made so many tries in a row.
pub(crate) fn tries_since(was: Option<u64>, tries: u8, now: u64) -> Option<u64>
    ensures { result ≡ tries_since was tries now }
{
    if tries > 0 {
        Some(was.unwrap_or(now))
    } else {
        None
    }
}

/// Whether a line was in a session that may still be on its way up, now that its session was seen.
pub(crate) fn in_session_after(in_session: bool, was_up: bool, is_up: bool) -> bool
    ensures { result ≡ in_session_after in_session was_up is_up }
{
    if was_up && !is_up { false } else { in_session }
}

/// Since when a connection is without a session that is up, now that its session was seen.
pub(crate) fn no_session_since(since: u64, was_up: bool, is_up: bool, now: u64) -> u64
    ensures { result ≡ no_session_since since was_up is_up now }
{
    if was_up && !is_up { now } else { since }
}

/// Since when a session is up, or when the last one came up, now that it was seen.
pub(crate) fn up_since(since: u64, was_up: bool, is_up: bool, now: u64) -> u64
    ensures { result ≡ up_since since was_up is_up now }
{
    if !was_up && is_up { now } else { since }
}

/// Why the last session ended that was up, now that one was seen which ended so if it is down.
pub(crate) fn end_after(
    last: Option<DownCause>,
    was_up: bool,
    is_up: bool,
    end: DownCause,
) -> Option<DownCause>
    ensures { result ≡ end_after last was_up is_up end }
{
    if was_up && !is_up { Some(end) } else { last }
}

/// How a session ended that made five tries in a row: without an answer if nothing came since the
/// first of them.
pub fn tries_end(since: Option<u64>, silent: u64, now: u64, last: LastBytes) -> DownCause
    ensures { result ≡ tries_end since silent now last }
{
    let since = since.unwrap_or(now);
    if silent > now.saturating_sub(since) {
        DownCause::NoAnswer
    } else {
        DownCause::Tries(last_frame(last))
    }
}

/// What the last bytes that came on a line end.
fn last_frame(bytes: LastBytes) -> LastFrame
    ensures { result ≡ last_frame bytes }
{
    match (bytes.before, bytes.last) {
        (0x10, 0x70) => LastFrame::Ack0,
        (0x01, 0x2D) => LastFrame::Enquiry,
        (0x10, 0x26) => LastFrame::Text,
        (_, 0x3D) => LastFrame::Nak,
        (_, 0x37) => LastFrame::Eot,
        (_, _) => LastFrame::Other,
    }
}

/// Why a session ended that is down: it gave up so, or its line, which may be stopped, says how the
/// last one ended.
pub fn session_end(
    gave_up: Option<DownCause>,
    is_stopped: bool,
    last_end: Option<njh_line::SessionEnd>,
) -> DownCause
    ensures { result ≡ session_end gave_up is_stopped last_end }
{
    match gave_up {
        Some(end) => end,
        None => ended_on(is_stopped, last_end.unwrap_or(njh_line::SessionEnd::Lost)),
    }
}

/// Why a session ended of which its line says that it ended so: one that was lost on a line that is
/// stopped was stopped.
fn ended_on(is_stopped: bool, end: njh_line::SessionEnd) -> DownCause
    ensures { result ≡ ended_on is_stopped end }
{
    match end {
        njh_line::SessionEnd::Lost => {
            if is_stopped {
                DownCause::Stopped
            } else {
                DownCause::Ended(end)
            }
        }
        _ => DownCause::Ended(end),
    }
}

/// What is told of the last sign-on that was refused on a line.
pub fn refusal_event(last_refusal: Option<Refusal>) -> LogEvent
    ensures { result ≡ refusal_event last_refusal }
{
    LogEvent::SignOnRefused(last_refusal.unwrap_or(Refusal::NoSignOn))
}

/// What is told of the last sign-on that was refused from an address, and of how many were.
pub fn refusals_event(last_refusal: Option<Refusal>, address: IpAddr, count: u64) -> LogEvent
    ensures { result ≡ refusals_event last_refusal address count }
{
    LogEvent::SignOnsRefused(last_refusal.unwrap_or(Refusal::NoSignOn), address, count)
}

/// The change of a session with this node that was up or wasn't, and is now; if it is down, it ended
/// so.
pub(crate) fn session_change(
    was_up: bool,
    is_up: bool,
    node: Name,
    end: DownCause,
) -> Option<SessionChange>
    ensures { result ≡ session_change was_up is_up node end }
{
    if is_up == was_up {
        return None;
    }
    Some(if is_up {
        SessionChange::Up(node)
    } else {
        SessionChange::Down(end)
    })
}
