//! How grave what the log tells is.

ghost use Rattle.std.specs.Prelude.{◌≡◌};
ghost use Rattle.njh_log.specs.Severities.{change_severity, end_severity, severity_number, severity_of};

use crate::entry::{DownCause, LogEvent, SessionChange};
use std::fmt;

/// How grave a line of the log is, of the eight grades of RFC 5424.
#[derive(Clone, Copy, Debug, Drop, PartialEq, Eq)]
pub enum Severity {
    /// Something doesn't work, and somebody has to do something.
    Error,
    /// Something went wrong that may come again.
    Warning,
    /// All is well.
    Information,
}

impl Severity {
    /// Its number: 3, 4 or 6 (RFC 5424, "PRI"), as sd-daemon(3) reads it before a line.
    pub fn number(self) -> u8
        ensures { result ≡ severity_number self }
    {
        match self {
            Severity::Error => 3,
            Severity::Warning => 4,
            Severity::Information => 6,
        }
    }
}

impl fmt::Display for Severity {
    fn fmt<W: fmt::Write>(&self, f: &mut fmt::Formatter<W>) -> fmt::Result {
        f.write_str(match self {
            Severity::Error => "error",
            Severity::Warning => "warning",
            Severity::Information => "info",
        })
    }
}

/// How grave an event is.
pub fn severity_of(event: &LogEvent) -> Severity
    ensures { result ≡ severity_of event.now }
{
    match event {
        LogEvent::ListenFailed(_, _) => Severity::Error,
        LogEvent::AcceptFailed => Severity::Error,
        LogEvent::RoutesRefused(_) => Severity::Error,
        LogEvent::SpoolAstray(_) => Severity::Error,
        LogEvent::ClosedEarly => Severity::Warning,
        LogEvent::Failed(_) => Severity::Warning,
        LogEvent::DialFailed(_) => Severity::Warning,
        LogEvent::OpenToAll(_) => Severity::Warning,
        LogEvent::TurnedAway(_, _) => Severity::Warning,
        LogEvent::SecondOpen(_) => Severity::Warning,
        LogEvent::OtherNames(_) => Severity::Warning,
        LogEvent::NoOpen(_) => Severity::Warning,
        LogEvent::PeerRefused(_) => Severity::Warning,
        LogEvent::NoNje => Severity::Warning,
        LogEvent::SignOnRefused(_) => Severity::Warning,
        LogEvent::SignOnsRefused(_, _, _) => Severity::Warning,
        LogEvent::NoSession(_) => Severity::Warning,
        LogEvent::FileRefused(_) => Severity::Warning,
        LogEvent::ComingRefused(_, _) => Severity::Warning,
        LogEvent::ComingCutOff(_) => Severity::Warning,
        LogEvent::NearQuota(_, _) => Severity::Warning,
        LogEvent::NearFiles(_, _) => Severity::Warning,
        LogEvent::Unrouted(_) => Severity::Warning,
        LogEvent::RequestRefused(_) => Severity::Warning,
        LogEvent::NoRequest(_) => Severity::Warning,
        LogEvent::SessionChanged(change) => change_severity(*change),
        LogEvent::SessionsChanged(_, _) => Severity::Warning,
        _ => Severity::Information,
    }
}

/// How grave a change of a session is.
fn change_severity(change: SessionChange) -> Severity
    ensures { result ≡ change_severity change }
{
    match change {
        SessionChange::Up(_) => Severity::Information,
        SessionChange::Down(end) => end_severity(end),
    }
}

/// How grave the end of a session is: only a sign-off is in order, and a stop of its line.
fn end_severity(end: DownCause) -> Severity
    ensures { result ≡ end_severity end }
{
    match end {
        DownCause::Ended(njh_line::SessionEnd::SignOff) => Severity::Information,
        DownCause::Stopped => Severity::Information,
        _ => Severity::Warning,
    }
}
