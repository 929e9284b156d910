//! What the service knows that the hub doesn't.

use njh_request::LineState;
use njh_table::LineId;
use std::net::{IpAddr, SocketAddr};

/// What the service knows of a line. Moments are seconds since the beginning of 1970.
#[derive(Drop)]
pub struct LineView {
    /// The line.
    pub line: LineId,
    /// How it is served.
    pub state: LineState,
    /// Since when it is served so.
    pub state_since: u64,
    /// Where it listens or can't, or whom it dials.
    pub site: String,
    /// Since when it has its connection, if it has one.
    pub connected: Option<u64>,
    /// Since when its session is up, if it is.
    pub up: Option<u64>,
    /// Since when no session is up on it, if none is.
    pub down: Option<u64>,
    /// Why its last session ended; empty if none has.
    pub last_end: String,
    /// How many NAKs the hub sent on it since the service began.
    pub naks: u64,
    /// How many blocks it sent again since then.
    pub repeats: u64,
    /// What was counted on it since then.
    pub counts: LineCounts,
    /// Since when its streams to the hub stand as they stand, SYSIN 1 to 4 and SYSOUT 1 to 4.
    pub coming_since: Vec<u64>,
    /// Since when those from the hub do.
    pub going_since: Vec<u64>,
    /// Since when nodal messages wait on it, as far as that was seen, in their order.
    pub messages_since: Vec<Option<u64>>,
    /// What is wrong with it, if something is.
    pub wrong: Option<Trouble>,
    /// The address of the peer that is connected on it now, if one is.
    pub peer: Option<SocketAddr>,
    /// Who waits to be given it, in their order, at most eight.
    pub waiting: Vec<SocketAddr>,
    /// The addresses of which it is remembered that sign-ons were refused on it, at most 64, what
    /// was noted last behind all else.
    pub refused: Vec<Refused>,
}

/// How many came on a line, and how many went.
#[derive(Clone, Copy)]
pub struct BothWays {
    /// That came.
    pub came: u64,
    /// That went.
    pub went: u64,
}

/// What was counted of a line since the service began. Each count stays at the greatest `u64`.
#[derive(Clone, Copy)]
pub struct LineCounts {
    /// Blocks; those that went, but for those that were sent again.
    pub blocks: BothWays,
    /// Bytes on its connections.
    pub bytes: BothWays,
    /// Files that came or went whole.
    pub files: BothWays,
    /// Nodal messages.
    pub messages: BothWays,
    /// Nodal messages that were to go and were dropped, since 64 waited.
    pub dropped: u64,
    /// Their records.
    pub records: BothWays,
    /// Commands of users that came and were carried out.
    pub commands: u64,
    /// Files that were coming and aren't kept, of which it isn't known that the hub refused them.
    pub cut_off: u64,
    /// Files that the peer refused.
    pub returned: u64,
    /// Files that the hub refused.
    pub turned_away: TurnedAway,
}

/// How many files the hub refused, by why.
#[derive(Clone, Copy, Drop)]
pub struct TurnedAway {
    /// Their customer had as many files as it may have.
    pub files: u64,
    /// Their customer's files took as many blocks as they may take.
    pub quota: u64,
    /// Their nodes had no route.
    pub route: u64,
    /// All others.
    pub other: u64,
}

/// Something that is wrong, or that the operator wants so.
#[derive(Drop)]
pub struct Trouble {
    /// What it is, as the log says it.
    pub text: String,
    /// How grave it is: `error`, `warning` or `info`.
    pub severity: String,
    /// Since when it is so, if that is known.
    pub since: Option<u64>,
}

/// An address of which sign-ons were refused on a line.
#[derive(Clone, Copy)]
pub struct Refused {
    /// The address.
    pub address: IpAddr,
    /// How many so far.
    pub count: u64,
}

/// What the service knows of itself.
#[derive(Drop)]
pub struct ServiceView {
    /// What it is, as `--version` says it.
    pub version: String,
    /// Since when it runs, in seconds since the beginning of 1970.
    pub since: u64,
    /// The second that it is.
    pub clock: u64,
    /// How many bytes FILE has, if there is one.
    pub file_bytes: Option<u64>,
    /// How many its log has, if there is one.
    pub log_bytes: Option<u64>,
    /// What is wrong now.
    pub troubles: Vec<Trouble>,
    /// What isn't as the table file has it since the operator wants it so.
    pub intended: Vec<Trouble>,
}
