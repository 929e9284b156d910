//! Why a text wasn't read, or bytes weren't written.

ghost use Rattle.std.specs.Prelude.{◌≡◌};
ghost use Rattle.njh_io.specs.declared.fault.ReadFault.TheVariants.{Memory};

use std::alloc::{AllocError, AllocFailed};

/// Why a text wasn't read whole.
#[derive(Clone, Copy, Debug, PartialEq, Eq)]
pub enum ReadFault {
    /// It has more bytes than its limit.
    TooLong,
    /// A read failed.
    Device,
    /// There was no memory for its bytes.
    Memory,
}

impl From<AllocError> for ReadFault {
    ghost from_gives = { λ _ fault. fault ≡ Memory };

    fn from(_error: AllocError) -> ReadFault {
        ReadFault::Memory
    }
}

impl<T: Drop> From<AllocFailed<T>> for ReadFault {
    ghost from_gives = { λ _ fault. fault ≡ Memory };

    fn from(_error: AllocFailed<T>) -> ReadFault {
        ReadFault::Memory
    }
}

/// A device didn't take all that was written.
#[derive(Clone, Copy, Debug)]
pub struct WriteFault;

/// A device didn't give what was asked for.
#[derive(Clone, Copy, Debug)]
pub struct PieceFault;
