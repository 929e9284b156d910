//! What a wire answers.

use thiserror::Error;

/// A wire could not be read, or took no frame.
#[derive(Clone, Copy, Debug, PartialEq, Eq, Error)]
#[error("the wire could not be read, or took no frame")]
pub struct WireFault;

/// What the read of a wire answers.
#[derive(Clone, Copy, Debug, PartialEq, Eq)]
pub enum Reading {
    /// So many bytes came, at least 1, and stand at the front of the buffer.
    Bytes(usize),
    /// Nothing came.
    Quiet,
    /// Nothing came, and it isn't yet time to call that a quiet.
    Pending,
    /// Nothing came, and the line was asked for what it has to send: a tick now.
    Prompted,
    /// The other end is gone.
    Closed,
    /// Nobody is connected.
    Absent,
}
