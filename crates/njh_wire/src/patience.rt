//! How long bytes wait on a wire.

use njh_table::Protocol;

/// By which rules bytes wait to go out on a wire, and since when. A struct of its own: each field of
/// a type with a parameter costs proofs.
#[derive(Clone, Copy, Debug, PartialEq, Eq)]
pub(crate) struct Patience {
    /// The rules: those of the protocol of the wire's line.
    pub(crate) protocol: Protocol,
    /// Since when they wait, or over TCP/IP since when none went out, in milliseconds.
    pub(crate) since: u64,
    /// Over TCP/IP, when more than an ACK0 last went out, or the connection came, or was told to say
    /// what the line doesn't write.
    pub(crate) sent: u64,
}
