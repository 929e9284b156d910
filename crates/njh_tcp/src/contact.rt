//! Which end of a connection this is, and whether texts have begun.

/// What may still come before the first text (NJE over TCP/IP, the contact).
#[derive(Clone, Copy, Debug, PartialEq, Eq)]
pub enum Contact {
    /// The peer dialled: its enquiry is given.
    Called,
    /// The peer was dialled: its Ack0 is given.
    Calling,
    /// A text came or went: an enquiry is refused, and an Ack0 is a keep-alive.
    Over,
}
