//! Why lines aren't served.

use njh_turns::DepotFault;
use std::alloc::{AllocError, AllocFailed};
use std::io;
use thiserror::Error;

/// Why lines weren't served, or not to the end.
#[derive(Clone, Copy, Debug, PartialEq, Eq, Error)]
pub enum ServeFault {
    /// A port that has to be listened on can't be, two lines have one port, or what is kept can't be
    /// read, and no wire was read; or files couldn't be kept.
    #[error("device")]
    Device,
    /// There was no memory, and no wire was read.
    #[error("U3 Memory")]
    Memory,
    /// A whole file that was kept can't be put back, and no wire was read. Which one, and why, the
    /// depot tells.
    #[error("a kept file can't be put back")]
    Refused,
}

impl From<DepotFault> for ServeFault {
    fn from(fault: DepotFault) -> ServeFault {
        match fault {
            DepotFault::Memory => ServeFault::Memory,
            DepotFault::Device => ServeFault::Device,
            DepotFault::Refused => ServeFault::Refused,
        }
    }
}

impl From<AllocError> for ServeFault {
    ghost use Rattle.std.specs.Prelude.{◌≡◌};
    ghost use Rattle.njh_service.specs.declared.fault.ServeFault.TheVariants.{Memory};

    ghost from_gives = { λ _ fault. fault ≡ Memory };

    fn from(_error: AllocError) -> ServeFault {
        ServeFault::Memory
    }
}

impl<T: Drop> From<AllocFailed<T>> for ServeFault {
    ghost use Rattle.std.specs.Prelude.{◌≡◌};
    ghost use Rattle.njh_service.specs.declared.fault.ServeFault.TheVariants.{Memory};

    ghost from_gives = { λ _ fault. fault ≡ Memory };

    fn from(_error: AllocFailed<T>) -> ServeFault {
        ServeFault::Memory
    }
}

impl From<io::Error> for ServeFault {
    fn from(error: io::Error) -> ServeFault {
        match error.kind() {
            io::ErrorKind::OutOfMemory => ServeFault::Memory,
            _ => ServeFault::Device,
        }
    }
}
