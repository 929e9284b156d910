//! What the log tells.

use crate::awaited::Awaited;
use crate::file_line::{FileLine, write_field};
use crate::last_frame::LastFrame;
use crate::listen_cause::ListenCause;
use crate::notice_line::NoticeLine;
use crate::order_line::write_giver;
use crate::reasons::{EndText, RefusalText};
use crate::route_news::RouteNews;
use njh_block::Stream;
use njh_ebcdic::Name;
use njh_hub::HubFault;
use njh_line::Refusal;
use njh_link::LinkFault;
use njh_open::NakReason;
use njh_presence::SpoolFaults;
use njh_record::Kind;
use njh_request::{EndMoment, RequestRefusal, Terms};
use njh_tcp::Hosts;
use std::fmt;
use std::net::{IpAddr, SocketAddr};

/// Something that an operator wants to know.
#[derive(Clone, Copy, Drop)]
pub enum LogEvent {
    /// A peer connected from this address.
    ConnectedFrom(SocketAddr),
    /// The hub connected to this address.
    ConnectedTo(SocketAddr),
    /// The port of this address can't be listened on, for this cause.
    ListenFailed(SocketAddr, ListenCause),
    /// The port of this address is listened on: from the start on, or now that it can be.
    Listening(SocketAddr),
    /// Anybody who reaches this port may sign on: it is listened on beyond this machine, and its
    /// line has no password and doesn't say from where it takes connections.
    OpenToAll(u16),
    /// This address is dialled.
    Dials(SocketAddr),
    /// The peer ended the connection, or the hub did after the tries.
    Closed,
    /// The peer ended it while a session was on its way up, as if it refused the hub's sign-on.
    ClosedEarly,
    /// The connection failed.
    Failed(ConnectionFailure),
    /// Nobody could be connected to at this address.
    DialFailed(SocketAddr),
    /// A connection that waits could not be taken.
    AcceptFailed,
    /// So many connections were closed as they came, for this reason, since it was told last.
    TurnedAway(Rebuff, u64),
    /// An OPEN of this node came, whose link is up or was not given up yet.
    SecondOpen(Name),
    /// An OPEN of this node came while its line is stopped.
    OpenWhileStopped(Name),
    /// An OPEN came with other names than its line has: who sent it, and to whom.
    OtherNames(Hosts),
    /// From so many connections no OPEN came, since it was told last.
    NoOpen(u64),
    /// The peer that was dialled answered the OPEN with NAK, for this reason.
    PeerRefused(NakReason),
    /// The peer that was dialled answered the OPEN with no control record, or not in time.
    NoNje,
    /// A sign-on was refused, for this reason: it doesn't fit, or none came where one was due.
    SignOnRefused(Refusal),
    /// So many from this address were refused so far, and the last of them for this reason.
    SignOnsRefused(Refusal, IpAddr, u64),
    /// A connection is without a session for ten seconds, or for a minute more, and this is due.
    NoSession(Awaited),
    /// The session went up or down.
    SessionChanged(SessionChange),
    /// It did both, so many times in all, and this was the last.
    SessionsChanged(SessionChange, u64),
    /// A file came whole, and waits.
    FileIn(FileLine),
    /// A file came whole, and is held.
    FileHeld(FileLine),
    /// A file went out whole.
    FileOut(FileLine),
    /// The peer refused a file, which stays with the hub.
    FileRefused(FileLine),
    /// The hub refused a file that was coming in on this stream, and told this to its owner, if it
    /// has one.
    ComingRefused(Stream, Option<NoticeLine>),
    /// A file that was coming in on this stream isn't kept: its peer gave it up, its session ended,
    /// or the hub refused it, had nobody to tell, and its rest came at once.
    ComingCutOff(Stream),
    /// A file came whole on this stream, and left in the same step.
    FileLeft(Stream),
    /// So many blocks of its quota are used.
    NearQuota(u32, u32),
    /// It has so many whole files, of those that it may have.
    NearFiles(u32, u32),
    /// It was given new routes.
    NewRoutes,
    /// New tables have another route for a node of it.
    Route(RouteNews),
    /// Further nodes have another, or stand elsewhere among many.
    MoreRoutes,
    /// So many of its files are held whose nodes have no route by its new ones.
    Unrouted(u32),
    /// Its new routes were refused.
    RoutesRefused(HubFault),
    /// The operator started the line.
    LineStarted,
    /// It is stopped once no file is on its streams.
    LineDrains,
    /// It is stopped: its connection ends, and it lets none in.
    LineStopped,
    /// The operator ends the service, at this moment.
    ServiceEnds(EndMoment),
    /// Who gave the order of this number, as these terms of it say.
    OrderGiven(u64, Terms),
    /// A request at the console was refused.
    RequestRefused(RequestRefusal),
    /// So many visitors of the console sent what is no request of HTTP.
    NoRequest(usize),
    /// What is open of the spool file and its log isn't what stands at their paths, for this.
    SpoolAstray(SpoolFaults),
    /// It is again.
    SpoolBack,
}

/// Why a connection failed.
#[derive(Clone, Copy, Debug, Drop, PartialEq, Eq)]
pub enum ConnectionFailure {
    /// A read or a write failed: the connection was reset, or more was to be sent than had room to
    /// wait.
    Broken,
    /// The peer didn't take its bytes within a second, or within half a minute over TCP/IP.
    Stalled,
    /// Another connection took its place.
    Replaced,
    /// What came on it, or a block that the line refused, can't stand on a line over TCP/IP.
    Unfit(LinkFault),
}

/// Why a connection was closed as it came.
#[derive(Clone, Copy, Debug, Drop, PartialEq, Eq)]
pub enum Rebuff {
    /// Its address isn't one of those from which the line takes connections.
    NotAllowed,
    /// So many wait on the line that it has no place for a further one.
    NoRoom,
}

/// A change of a line's session.
#[derive(Clone, Copy, Drop)]
pub enum SessionChange {
    /// It is up with this node.
    Up(Name),
    /// It is down.
    Down(DownCause),
}

/// Why a session is down.
#[derive(Clone, Copy, Debug, Drop, PartialEq, Eq)]
pub enum DownCause {
    /// Nothing came after the first of five tries in a row.
    NoAnswer,
    /// Five tries in a row were made, and this came last.
    Tries(LastFrame),
    /// Its line says that it ended so.
    Ended(njh_line::SessionEnd),
    /// The operator stopped its line.
    Stopped,
}

impl fmt::Display for LogEvent {
    fn fmt<W: fmt::Write>(&self, f: &mut fmt::Formatter<W>) -> fmt::Result {
        match self {
            LogEvent::ConnectedFrom(address) => write!(f, "connected from {address}"),
            LogEvent::ConnectedTo(address) => write!(f, "connected to {address}"),
            LogEvent::ListenFailed(address, cause) => write!(
                f,
                "can't listen on {address}: {cause}"
            ),
            LogEvent::Listening(address) => write!(f, "listens on {address}"),
            LogEvent::OpenToAll(port) => write!(f, "anybody who reaches port {port} may sign on"),
            LogEvent::Dials(address) => write!(f, "dials {address}"),
            LogEvent::Closed => write!(f, "closed"),
            LogEvent::ClosedEarly => write!(f, "closed before a session was up"),
            LogEvent::Failed(failure) => write!(f, "failed: {failure}"),
            LogEvent::DialFailed(address) => write!(f, "no connection to {address}"),
            LogEvent::AcceptFailed => write!(f, "a connection could not be taken"),
            LogEvent::TurnedAway(rebuff, 1) => write!(f, "a connection was closed: {rebuff}"),
            LogEvent::TurnedAway(rebuff, count) => {
                write!(f, "{count} connections were closed: {rebuff}")
            }
            LogEvent::SecondOpen(node) => write!(f, "a second OPEN of {node}"),
            LogEvent::OpenWhileStopped(node) => write!(f, "an OPEN of {node} while stopped"),
            LogEvent::OtherNames(hosts) => write_other_names(f, hosts),
            LogEvent::NoOpen(1) => f.write_str("no OPEN"),
            LogEvent::NoOpen(count) => write!(f, "no OPEN on {count} connections"),
            LogEvent::PeerRefused(reason) => write!(f, "the peer answered {reason}"),
            LogEvent::NoNje => f.write_str("the peer doesn't speak NJE"),
            LogEvent::SignOnRefused(refusal) => {
                write!(f, "sign-on refused: {}", RefusalText(*refusal))
            }
            LogEvent::SignOnsRefused(refusal, address, 1) => {
                let why = RefusalText(*refusal);
                write!(f, "sign-on refused: {why}, from {address}")
            }
            LogEvent::SignOnsRefused(refusal, address, count) => {
                let why = RefusalText(*refusal);
                write!(
                    f,
                    "sign-on refused: {why}, from {address}, the last of {count} from there"
                )
            }
            LogEvent::NoSession(due) => write!(f, "{due}"),
            LogEvent::SessionChanged(change) => write!(f, "{change}"),
            LogEvent::SessionsChanged(change, count) => {
                write!(f, "{change}, the last of {count} changes")
            }
            LogEvent::FileIn(file) => write!(f, "file in: {file}"),
            LogEvent::FileHeld(file) => write!(f, "file held: {file}"),
            LogEvent::FileOut(file) => write!(f, "file out: {file}"),
            LogEvent::FileRefused(file) => write!(f, "file refused: {file}"),
            LogEvent::ComingRefused(stream, None) => write!(
                f,
                "file in refused: {}",
                StreamName(*stream)
            ),
            LogEvent::ComingRefused(stream, Some(notice)) => write!(
                f,
                "file in refused: {}, {}",
                StreamName(*stream),
                notice
            ),
            LogEvent::ComingCutOff(stream) => write!(f, "file in cut off: {}", StreamName(*stream)),
            LogEvent::FileLeft(stream) => {
                write!(f, "file in and gone at once: {}", StreamName(*stream))
            }
            LogEvent::NearQuota(used, quota) => write!(f, "{used} of {quota} blocks are used"),
            LogEvent::NearFiles(files, most) => write!(f, "{files} of {most} files are there"),
            LogEvent::NewRoutes => write!(f, "new routes"),
            LogEvent::Route(news) => write!(f, "{news}"),
            LogEvent::MoreRoutes => write!(f, "further routes differ"),
            LogEvent::Unrouted(files) => {
                write!(f, "{files} files are held, since their nodes have no route")
            }
            LogEvent::RoutesRefused(fault) => write!(f, "new routes refused: {fault}"),
            LogEvent::LineStarted => f.write_str("started"),
            LogEvent::LineDrains => f.write_str("is stopped once no file is on its streams"),
            LogEvent::LineStopped => f.write_str("stopped"),
            LogEvent::ServiceEnds(EndMoment::AtOnce) => f.write_str(
                "the operator ends the service",
            ),
            LogEvent::ServiceEnds(EndMoment::WhenIdle) => {
                f.write_str("the operator ends the service once no file is on a stream")
            }
            LogEvent::OrderGiven(number, terms) => write_giver(f, *number, terms),
            LogEvent::RequestRefused(refusal) => write!(f, "request refused: {refusal}"),
            LogEvent::NoRequest(1) => f.write_str("a request was no HTTP"),
            LogEvent::NoRequest(visitors) => write!(f, "{visitors} requests were no HTTP"),
            LogEvent::SpoolAstray(faults) => write!(
                f,
                "spool file: {faults}; the hub goes on with what it has open"
            ),
            LogEvent::SpoolBack => f.write_str("spool file: it and its log are there again"),
        }
    }
}

impl fmt::Display for ConnectionFailure {
    fn fmt<W: fmt::Write>(&self, f: &mut fmt::Formatter<W>) -> fmt::Result {
        match self {
            ConnectionFailure::Broken => f.write_str("a read or a write failed"),
            ConnectionFailure::Stalled => f.write_str("the peer did not take its bytes in time"),
            ConnectionFailure::Replaced => f.write_str("replaced by another connection"),
            ConnectionFailure::Unfit(fault) => write!(f, "{fault}"),
        }
    }
}

impl fmt::Display for Rebuff {
    fn fmt<W: fmt::Write>(&self, f: &mut fmt::Formatter<W>) -> fmt::Result {
        f.write_str(match self {
            Rebuff::NotAllowed => "not from where the line takes them",
            Rebuff::NoRoom => "too many waited",
        })
    }
}

impl fmt::Display for SessionChange {
    fn fmt<W: fmt::Write>(&self, f: &mut fmt::Formatter<W>) -> fmt::Result {
        match self {
            SessionChange::Up(node) => write!(f, "session up with {node}"),
            SessionChange::Down(end) => write!(f, "session down: {end}"),
        }
    }
}

impl fmt::Display for DownCause {
    fn fmt<W: fmt::Write>(&self, f: &mut fmt::Formatter<W>) -> fmt::Result {
        match self {
            DownCause::NoAnswer => f.write_str("no answer after five tries"),
            DownCause::Tries(last) => write!(f, "five tries in a row, {last} came last"),
            DownCause::Ended(end) => write!(f, "{}", EndText(*end)),
            DownCause::Stopped => f.write_str("the operator stopped it"),
        }
    }
}

/// A stream, shown as SYSIN 1 to SYSOUT 4.
#[derive(Clone, Copy, Drop)]
struct StreamName(Stream);

impl fmt::Display for StreamName {
    fn fmt<W: fmt::Write>(&self, f: &mut fmt::Formatter<W>) -> fmt::Result {
        let kind = match self.0.kind() {
            Kind::In => "SYSIN",
            Kind::Out => "SYSOUT",
        };
        let number = self.0.number().saturating_add(1);
        write!(f, "{kind} {number}")
    }
}

/// Writes that an OPEN with these names was refused.
fn write_other_names<W: fmt::Write>(f: &mut fmt::Formatter<W>, hosts: &Hosts) -> fmt::Result {
    f.write_str("refused: an OPEN of ")?;
    write_field(f, &hosts.from)?;
    f.write_str(" for ")?;
    write_field(f, &hosts.to)
}
