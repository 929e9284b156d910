//! Why a trace isn't told to its end.

ghost use Rattle.std.specs.Prelude.{◌≡◌};
ghost use Rattle.njh_trace.specs.declared.fault.TraceFault.TheVariants.{Device, Memory};

use njh_io::{PieceFault, WriteFault};
use std::alloc::{AllocError, AllocFailed};
use thiserror::Error;

/// Why a trace isn't told to its end. What was told before is written, or a beginning of it.
#[derive(Clone, Copy, Debug, PartialEq, Eq, Error)]
pub enum TraceFault {
    /// A line of the trace has more bytes than the limit of a line.
    #[error("trace line too long")]
    TooLong,
    /// A read or a write failed.
    #[error("device")]
    Device,
    /// Memory was refused.
    #[error("U3 Memory")]
    Memory,
}

impl From<AllocError> for TraceFault {
    ghost from_gives = { λ _ fault. fault ≡ Memory };

    fn from(_error: AllocError) -> TraceFault {
        TraceFault::Memory
    }
}

impl<T: Drop> From<AllocFailed<T>> for TraceFault {
    ghost from_gives = { λ _ fault. fault ≡ Memory };

    fn from(_error: AllocFailed<T>) -> TraceFault {
        TraceFault::Memory
    }
}

impl From<WriteFault> for TraceFault {
    ghost from_gives = { λ _ fault. fault ≡ Device };

    fn from(_fault: WriteFault) -> TraceFault {
        TraceFault::Device
    }
}

impl From<PieceFault> for TraceFault {
    ghost from_gives = { λ _ fault. fault ≡ Device };

    fn from(_fault: PieceFault) -> TraceFault {
        TraceFault::Device
    }
}
