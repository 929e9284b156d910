//! Of which kind an event is.

ghost use Rattle.std.specs.Prelude.{◌≡◌, ◌<◌};
ghost use Rattle.njh_log.specs.Kinds.{kind_number, kind_of};

use crate::entry::LogEvent;
use std::fmt;

/// Of which kind an event is: of each kind and place so many lines are written.
#[derive(Clone, Copy, Debug, Drop, PartialEq, Eq)]
pub enum EventKind {
    /// A connection was made.
    Connections,
    /// One ended.
    Ends,
    /// A port is listened on or can't be, or a peer is dialled.
    Ports,
    /// A dial failed.
    Dials,
    /// A connection could not be taken.
    Untaken,
    /// A sign-on was refused.
    Refusals,
    /// Connections were closed as they came, or over TCP/IP by what their OPEN said.
    Strangers,
    /// A connection is without a session.
    Waits,
    /// A session went up or down.
    Sessions,
    /// A file came or went.
    Files,
    /// A quota, or the number of files, is nearly reached.
    Limits,
    /// A customer has new routes, or was refused them.
    Routes,
    /// The operator gave an order.
    Orders,
    /// A request at the console was refused.
    Requests,
    /// A user gave a command.
    Commands,
    /// Something else.
    Others,
}

impl EventKind {
    /// Its number among the kinds, from 0 on.
    pub(crate) fn number(self) -> usize
        ensures number { result ≡ kind_number self }
        ensures within { result < 16 }
    {
        match self {
            EventKind::Connections => 0,
            EventKind::Ends => 1,
            EventKind::Ports => 2,
            EventKind::Dials => 3,
            EventKind::Untaken => 4,
            EventKind::Refusals => 5,
            EventKind::Strangers => 6,
            EventKind::Waits => 7,
            EventKind::Sessions => 8,
            EventKind::Files => 9,
            EventKind::Limits => 10,
            EventKind::Routes => 11,
            EventKind::Orders => 12,
            EventKind::Requests => 13,
            EventKind::Commands => 14,
            EventKind::Others => 15,
        }
    }

    /// The kind of a number.
    pub(crate) fn at(number: usize) -> EventKind
        ensures { number < 16 → kind_number result ≡ number }
    {
        match number {
            0 => EventKind::Connections,
            1 => EventKind::Ends,
            2 => EventKind::Ports,
            3 => EventKind::Dials,
            4 => EventKind::Untaken,
            5 => EventKind::Refusals,
            6 => EventKind::Strangers,
            7 => EventKind::Waits,
            8 => EventKind::Sessions,
            9 => EventKind::Files,
            10 => EventKind::Limits,
            11 => EventKind::Routes,
            12 => EventKind::Orders,
            13 => EventKind::Requests,
            14 => EventKind::Commands,
            _ => EventKind::Others,
        }
    }
}

impl fmt::Display for EventKind {
    fn fmt<W: fmt::Write>(&self, f: &mut fmt::Formatter<W>) -> fmt::Result {
        f.write_str(match self {
            EventKind::Connections => "connections",
            EventKind::Ends => "ends of connections",
            EventKind::Ports => "ports and dials",
            EventKind::Dials => "dials that failed",
            EventKind::Untaken => "connections that could not be taken",
            EventKind::Refusals => "sign-ons refused",
            EventKind::Strangers => "connections closed as they came",
            EventKind::Waits => "connections without a session",
            EventKind::Sessions => "changes of a session",
            EventKind::Files => "files",
            EventKind::Limits => "limits that are near",
            EventKind::Routes => "new routes",
            EventKind::Orders => "orders",
            EventKind::Requests => "requests",
            EventKind::Commands => "commands",
            EventKind::Others => "other events",
        })
    }
}

/// Of which kind an event is.
pub(crate) fn kind_of(event: &LogEvent) -> EventKind
    ensures { result ≡ kind_of event.now }
{
    match event {
        LogEvent::ConnectedFrom(_) => EventKind::Connections,
        LogEvent::ConnectedTo(_) => EventKind::Connections,
        LogEvent::Closed => EventKind::Ends,
        LogEvent::ClosedEarly => EventKind::Ends,
        LogEvent::Failed(_) => EventKind::Ends,
        LogEvent::ListenFailed(_, _) => EventKind::Ports,
        LogEvent::Listening(_) => EventKind::Ports,
        LogEvent::OpenToAll(_) => EventKind::Ports,
        LogEvent::Dials(_) => EventKind::Ports,
        LogEvent::DialFailed(_) => EventKind::Dials,
        LogEvent::PeerRefused(_) => EventKind::Dials,
        LogEvent::NoNje => EventKind::Dials,
        LogEvent::AcceptFailed => EventKind::Untaken,
        LogEvent::TurnedAway(_, _) => EventKind::Strangers,
        LogEvent::SecondOpen(_) => EventKind::Strangers,
        LogEvent::OpenWhileStopped(_) => EventKind::Strangers,
        LogEvent::OtherNames(_) => EventKind::Strangers,
        LogEvent::NoOpen(_) => EventKind::Strangers,
        LogEvent::SignOnRefused(_) => EventKind::Refusals,
        LogEvent::SignOnsRefused(_, _, _) => EventKind::Refusals,
        LogEvent::NoSession(_) => EventKind::Waits,
        LogEvent::SessionChanged(_) => EventKind::Sessions,
        LogEvent::SessionsChanged(_, _) => EventKind::Sessions,
        LogEvent::FileIn(_) => EventKind::Files,
        LogEvent::FileHeld(_) => EventKind::Files,
        LogEvent::FileOut(_) => EventKind::Files,
        LogEvent::FileRefused(_) => EventKind::Files,
        LogEvent::ComingRefused(_, _) => EventKind::Files,
        LogEvent::ComingCutOff(_) => EventKind::Files,
        LogEvent::FileLeft(_) => EventKind::Files,
        LogEvent::NearQuota(_, _) => EventKind::Limits,
        LogEvent::NearFiles(_, _) => EventKind::Limits,
        LogEvent::NewRoutes => EventKind::Routes,
        LogEvent::Route(_) => EventKind::Routes,
        LogEvent::MoreRoutes => EventKind::Routes,
        LogEvent::Unrouted(_) => EventKind::Routes,
        LogEvent::RoutesRefused(_) => EventKind::Routes,
        LogEvent::LineStarted => EventKind::Orders,
        LogEvent::LineDrains => EventKind::Orders,
        LogEvent::LineStopped => EventKind::Orders,
        LogEvent::ServiceEnds(_) => EventKind::Orders,
        LogEvent::OrderGiven(_, _) => EventKind::Orders,
        LogEvent::RequestRefused(_) => EventKind::Requests,
        LogEvent::NoRequest(_) => EventKind::Requests,
        LogEvent::SpoolAstray(_) => EventKind::Others,
        LogEvent::SpoolBack => EventKind::Others,
    }
}
