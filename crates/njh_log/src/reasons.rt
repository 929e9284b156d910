//! What the log says of a session's end, and of a sign-on that was refused.

use njh_line::{Refusal, SessionEnd};
use std::fmt;

/// How a session ended.
#[derive(Clone, Copy, Drop)]
pub(crate) struct EndText(pub(crate) SessionEnd);

impl fmt::Display for EndText {
    fn fmt<W: fmt::Write>(&self, f: &mut fmt::Formatter<W>) -> fmt::Result {
        f.write_str(match self.0 {
            SessionEnd::SignOff => "the peer signed off",
            SessionEnd::Eot => "the peer sent EOT",
            SessionEnd::Contact => "the peer made contact anew",
            SessionEnd::SignOn => "the peer sent a sign-on",
            SessionEnd::SequenceError => "the peer says that a block was out of sequence",
            SessionEnd::OutOfSequence => "a block of the peer was out of sequence",
            SessionEnd::Tries => "five tries in a row",
            SessionEnd::Lost => "the line was lost",
        })
    }
}

/// Why a sign-on was refused. What came as a password isn't told.
#[derive(Clone, Copy, Drop)]
pub(crate) struct RefusalText(pub(crate) Refusal);

impl fmt::Display for RefusalText {
    fn fmt<W: fmt::Write>(&self, f: &mut fmt::Formatter<W>) -> fmt::Result {
        match self.0 {
            Refusal::NoSignOn => f.write_str("none came where one was due"),
            Refusal::Unreadable => f.write_str("it can't be read"),
            Refusal::Node(node) => write!(f, "it is of node {node}"),
            Refusal::Size(bytes) => write!(f, "it takes texts of {bytes} bytes at most"),
            Refusal::Password => f.write_str("its password doesn't fit"),
        }
    }
}
