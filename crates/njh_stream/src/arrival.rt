//! What comes on a stream.

/// One thing that comes on a stream to the hub.
#[derive(Clone, Copy, Debug)]
pub enum Arrival<'a> {
    /// The peer asks whether it may send a file.
    Request,
    /// A record; one without bytes is the end of file.
    Record {
        /// Its SRCB.
        srcb: u8,
        /// Its bytes, at most 256.
        bytes: &'a [u8],
    },
    /// A record of more than 256 bytes.
    TooLong,
    /// The peer gives the file up.
    Abort,
}
