//! Where the texts come from whose lines are a file's.

ghost use Rattle.std.specs.Prelude.{◌≡◌, ◌≢◌, Option, Ok, Err, Some, MatchResult};
ghost use Rattle.njh_encode.specs.Scripts.{Texts, reason_of};

use crate::fault::Reason;
use std::alloc::Global;

/// Why a text can't be had.
#[derive(Clone, Copy, Debug, PartialEq, Eq)]
pub enum LetterFault {
    /// There is none of this name.
    NoFile,
    /// It has more bytes than its reader takes.
    TooLong,
    /// It can't be read.
    Device,
    /// Memory was refused.
    Memory,
}

/// Texts by their names.
pub trait Letters {
    /// What each name gives, if that is known.
    ghost texts: { Self → Option Texts };

    /// The text of a name.
    fn read(&self, alloc: Global, name: &str) -> Result<Vec<u8>, LetterFault>
        ensures { (known : Texts) → texts self.now ≡ Some known
            → MatchResult result (λ text. known name.now ≡ Ok text.items)
            (λ fault. fault ≢ LetterFault.Memory → known name.now ≡ Err fault) };
}

impl LetterFault {
    /// Why the line that asked for it is bad.
    pub(crate) fn reason(self) -> Reason
        ensures { result ≡ reason_of self }
    {
        match self {
            LetterFault::NoFile => Reason::NoSuchFile,
            LetterFault::TooLong => Reason::LongFile,
            LetterFault::Device => Reason::UnreadFile,
            LetterFault::Memory => Reason::Memory,
        }
    }
}
