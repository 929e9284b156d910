//! Why a table file isn't checked to its end.

ghost use Rattle.std.specs.Prelude.{◌≡◌};
ghost use Rattle.njh_check.specs.declared.fault.CheckFault.TheVariants.{Device, Memory};

use njh_io::WriteFault;
use std::alloc::{AllocError, AllocFailed};
use thiserror::Error;

/// Why a table file isn't checked to its end.
#[derive(Clone, Copy, Debug, PartialEq, Eq, Error)]
pub enum CheckFault {
    /// Memory was refused.
    #[error("U3 Memory")]
    Memory,
    /// A write failed. A beginning of what was to be written is written.
    #[error("device")]
    Device,
}

impl From<AllocError> for CheckFault {
    ghost from_gives = { λ _ fault. fault ≡ Memory };

    fn from(_error: AllocError) -> CheckFault {
        CheckFault::Memory
    }
}

impl<T: Drop> From<AllocFailed<T>> for CheckFault {
    ghost from_gives = { λ _ fault. fault ≡ Memory };

    fn from(_error: AllocFailed<T>) -> CheckFault {
        CheckFault::Memory
    }
}

impl From<WriteFault> for CheckFault {
    ghost from_gives = { λ _ fault. fault ≡ Device };

    fn from(_fault: WriteFault) -> CheckFault {
        CheckFault::Device
    }
}
