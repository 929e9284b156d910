//! What the log tells of a notice.

ghost use Rattle.std.specs.Prelude.{◌≡◌, take};

use crate::file_line::write_user;
use njh_ebcdic::{FIELD, Name, text_of};
use njh_nmr::LONGEST_MESSAGE;
use njh_stream::Notice;
use std::fmt;

/// A copy of a notice, as the owner of a file was sent it.
#[derive(Clone, Copy, Drop)]
pub struct NoticeLine {
    /// The owner's node.
    node: Name,
    /// The owner there.
    user: [u8; FIELD],
    /// The text, and 0 after it.
    pub text: [u8; LONGEST_MESSAGE],
    /// How many bytes the text has.
    length: u8,
}

impl NoticeLine {
    /// A copy of a notice.
    pub fn of(notice: &Notice) -> NoticeLine
        ensures node { result.node ≡ notice.now.whom.node }
        ensures user { result.user ≡ notice.now.whom.user }
        ensures text { take result.length result.text ≡ notice.now.text }
    {
        let mut text = [0; LONGEST_MESSAGE];
        text[..notice.text.len()].copy_from_slice(&notice.text);
        NoticeLine {
            node: notice.node,
            user: notice.user,
            text,
            length: notice.text.len() as u8,
        }
    }
}

impl fmt::Display for NoticeLine {
    fn fmt<W: fmt::Write>(&self, f: &mut fmt::Formatter<W>) -> fmt::Result {
        write!(f, "{}", self.node)?;
        write_user(f, &self.user)?;
        f.write_str(" was told: ")?;
        for byte in self.text.iter().take(usize::from(self.length)) {
            f.write_char(text_of(*byte))?;
        }
        Ok(())
    }
}
