//! What the log tells of users' commands.

use crate::order_line::{write_reply, write_words};
use njh_header::User;
use njh_hub::LastCommand;
use std::fmt;

/// The last of some commands that came in one frame, and how many of them there were.
#[derive(Clone, Copy, Drop)]
pub struct CommandLine<'a> {
    /// Who gave it.
    pub who: User,
    /// The last of them, and the first reply to it.
    pub last: &'a LastCommand,
    /// How many there were.
    pub commands: u64,
}

impl fmt::Display for CommandLine<'_> {
    fn fmt<W: fmt::Write>(&self, f: &mut fmt::Formatter<W>) -> fmt::Result {
        f.write_str("command of ")?;
        write_words(f, &self.who, self.last.words())?;
        if self.last.replies() > 0 {
            write_reply(f, self.last.reply(), self.last.replies())?;
        }
        if self.commands > 1 {
            write!(f, ", the last of {} commands", self.commands)?;
        }
        Ok(())
    }
}
