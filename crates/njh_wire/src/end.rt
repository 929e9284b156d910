//! How connections end.

use njh_link::LinkFault;

/// Why a connection of a line ended.
#[derive(Clone, Copy, Debug, PartialEq, Eq)]
pub enum ConnectionEnd {
    /// The other end sent no more.
    Ended,
    /// It could not be read or written, or took more answers than there is room for.
    Failed,
    /// It took no more of what came on it.
    Refused(LinkFault),
    /// Bytes waited for a second to go out; on a line over TCP/IP none went out for thirty.
    Stalled,
    /// Another connection took its place.
    Replaced,
    /// It was closed from here.
    Closed,
}

/// What the next read of a wire answers in place of reading.
#[derive(Clone, Copy, Debug, PartialEq, Eq)]
pub enum Parting {
    /// The other end is gone.
    Closed,
    /// The connection failed.
    Failed,
}

/// Why no more bytes were received.
#[derive(Clone, Copy, Debug, PartialEq, Eq)]
pub enum Stop {
    /// The buffer is full, or no more was asked for.
    Full,
    /// Nothing more is there now.
    Dry,
    /// The connection gives no more at this read, and may at the next.
    Paused,
    /// The other end sends no more.
    Ended,
    /// The connection failed.
    Failed,
    /// The connection takes no more of what comes.
    Refused(LinkFault),
}
