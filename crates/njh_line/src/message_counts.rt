//! How many nodal messages came and went on a line, for its operator. No step depends on it.

ghost use Rattle.std.specs.Prelude.{◌≡◌};

/// How many nodal messages came and went on a line since it was made. Nothing is said of it in a
/// clause: it is what people are shown. Each count stays at the greatest `u64`.
#[derive(Clone, Copy, Debug, PartialEq, Eq)]
pub struct MessageCounts {
    /// Those that the peer sent, whomever they were for.
    pub came: u64,
    /// Those that went to the peer, each in a block. The message that waits longest is the next.
    pub sent: u64,
    /// Those that were dropped, since 64 others waited.
    pub dropped: u64,
}

impl MessageCounts {
    /// None came, went or was dropped.
    pub fn none() -> MessageCounts
        ensures { result ≡ record { came = 0; sent = 0; dropped = 0 } }
    {
        MessageCounts {
            came: 0,
            sent: 0,
            dropped: 0,
        }
    }
}
