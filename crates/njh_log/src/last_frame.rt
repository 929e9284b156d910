//! What came last on a line.

use std::fmt;

/// What the last bytes that came on a line end (IBM GA27-3004).
#[derive(Clone, Copy, Debug, Drop, PartialEq, Eq)]
pub enum LastFrame {
    /// An ACK0.
    Ack0,
    /// A NAK.
    Nak,
    /// A contact.
    Enquiry,
    /// An EOT.
    Eot,
    /// A text.
    Text,
    /// No frame, or none that is whole.
    Other,
}

impl fmt::Display for LastFrame {
    fn fmt<W: fmt::Write>(&self, f: &mut fmt::Formatter<W>) -> fmt::Result {
        f.write_str(match self {
            LastFrame::Ack0 => "ACK0",
            LastFrame::Nak => "NAK",
            LastFrame::Enquiry => "a contact",
            LastFrame::Eot => "EOT",
            LastFrame::Text => "a text",
            LastFrame::Other => "no whole frame",
        })
    }
}
