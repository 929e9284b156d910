//! Why a line can't be encoded.

use njh_io::{PieceFault, WriteFault};
use std::alloc::AllocError;
use thiserror::Error;

/// Why a line can't be encoded.
#[derive(Clone, Copy, Debug, PartialEq, Eq, Error)]
pub enum Reason {
    /// What is left of the colon isn't 1 to 8 letters and digits of ASCII.
    #[error("no line's name before the colon")]
    NoLine,
    /// What is right of the colon begins with none of the words that there are, or goes on
    /// where it has to end.
    #[error("no such words")]
    NoSuchWords,
    /// A request or an answer names no stream: SYSIN 1 to 4, SYSOUT 1 to 4.
    #[error("no stream")]
    NoStream,
    /// A sign-on is not `as NODE block SIZE`, with or without `password WORD` after it.
    #[error("no sign-on")]
    NoSignOn,
    /// A message is not `from NODE to NODE USER: TEXT`.
    #[error("no message")]
    NoMessage,
    /// A command is not `from NODE USER to NODE: TEXT`.
    #[error("no command")]
    NoCommand,
    /// A file is not `LYON.42 of USER to USER@NODE, lines from FILE`.
    #[error("no file")]
    NoFile,
    /// There is no text of that name.
    #[error("no such file")]
    NoSuchFile,
    /// The text of a file has more bytes than its reader takes.
    #[error("too long a file")]
    LongFile,
    /// The text of a file can't be read.
    #[error("a file that can't be read")]
    UnreadFile,
    /// A character of a text has no byte in code page 37.
    #[error("a character that EBCDIC lacks")]
    NoCharacter,
    /// A text has too many characters: a message at most 148, a line of a file 256.
    #[error("too long a text")]
    TooLong,
    /// The line has more bytes than the limit of a line.
    #[error("too long a line")]
    LongLine,
    /// The line is no text in UTF-8.
    #[error("no text in UTF-8")]
    NoText,
    /// Memory was refused.
    #[error("memory")]
    Memory,
}

impl From<AllocError> for Reason {
    ghost use Rattle.std.specs.Prelude.{◌≡◌};
    ghost use Rattle.njh_encode.specs.declared.fault.Reason.TheVariants.{Memory};

    ghost from_gives = { λ _ reason. reason ≡ Memory };

    fn from(_error: AllocError) -> Self {
        Reason::Memory
    }
}

/// The first bad line, and why it is bad.
#[derive(Clone, Copy, Debug, PartialEq, Eq, Error)]
#[error("line {line}: {reason}")]
pub struct EncodeFault {
    /// Its number, counted from 1.
    pub line: u64,
    /// Why.
    pub reason: Reason,
}

/// Why a text in words isn't encoded to its end. What the lines before it become is written, or a
/// beginning of it.
#[derive(Clone, Copy, Debug, PartialEq, Eq, Error)]
pub enum EncodeEnd {
    /// A line is bad, for any reason but want of memory.
    #[error("{0}")]
    BadLine(EncodeFault),
    /// A read or a write failed.
    #[error("device")]
    Device,
    /// Memory was refused.
    #[error("U3 Memory")]
    Memory,
}

impl From<AllocError> for EncodeEnd {
    ghost use Rattle.std.specs.Prelude.{◌≡◌};
    ghost use Rattle.njh_encode.specs.declared.fault.EncodeEnd.TheVariants.{Memory};

    ghost from_gives = { λ _ end. end ≡ Memory };

    fn from(_error: AllocError) -> Self {
        EncodeEnd::Memory
    }
}

impl From<WriteFault> for EncodeEnd {
    ghost use Rattle.std.specs.Prelude.{◌≡◌};
    ghost use Rattle.njh_encode.specs.declared.fault.EncodeEnd.TheVariants.{Device};

    ghost from_gives = { λ _ end. end ≡ Device };

    fn from(_fault: WriteFault) -> Self {
        EncodeEnd::Device
    }
}

impl From<PieceFault> for EncodeEnd {
    ghost use Rattle.std.specs.Prelude.{◌≡◌};
    ghost use Rattle.njh_encode.specs.declared.fault.EncodeEnd.TheVariants.{Device};

    ghost from_gives = { λ _ end. end ≡ Device };

    fn from(_fault: PieceFault) -> Self {
        EncodeEnd::Device
    }
}
