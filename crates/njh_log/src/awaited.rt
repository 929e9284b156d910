//! What is due on a connection without a session.

use std::fmt;

/// What the peer of a connection without a session is to do next (IBM GA27-3004; IBM SC23-0070, "I
/// and J control records").
#[derive(Clone, Copy, Debug, Drop, PartialEq, Eq)]
pub enum Awaited {
    /// To make contact: the hub answers on this line.
    Contact,
    /// To answer the hub's contact.
    Acknowledgement,
    /// To sign on.
    SignOn,
    /// To answer the hub's sign-on.
    Response,
}

impl fmt::Display for Awaited {
    fn fmt<W: fmt::Write>(&self, f: &mut fmt::Formatter<W>) -> fmt::Result {
        f.write_str(match self {
            Awaited::Contact => "the peer makes no contact",
            Awaited::Acknowledgement => "the peer answers no contact",
            Awaited::SignOn => "the peer doesn't sign on",
            Awaited::Response => "the peer doesn't answer the sign-on",
        })
    }
}
