//! Why a replay ends early.

ghost use Rattle.std.specs.Prelude.{◌≡◌};
ghost use Rattle.njh_replay.specs.declared.fault.ReplayFault.TheVariants.{Device, Hub};
ghost use Rattle.njh_replay.specs.Replayed.{fault_of_read};
ghost use Rattle.njh_hub.specs.declared.fault.HubFault.TheVariants.{Memory};

use njh_hub::HubFault;
use njh_io::{ReadFault, WriteFault};
use std::alloc::{AllocError, AllocFailed};
use thiserror::Error;

/// Why a script wasn't replayed to its end.
///
/// `TooLong` comes before `Script`, and nothing was written then. After `Device` a beginning of the
/// whole output was written, or nothing. If memory ran out, nothing was written, or the frames
/// of all events before one that gives routes.
#[derive(Clone, Copy, Debug, PartialEq, Eq, Error)]
pub enum ReplayFault {
    /// The script has more bytes than its limit.
    #[error("script too long")]
    TooLong,
    /// A line of the script is bad.
    #[error("script line {line}")]
    Script {
        /// The number of the first bad line, counted from 1.
        line: u32,
    },
    /// A read or a write failed.
    #[error("device")]
    Device,
    /// The hub's fault; memory that runs out before the hub was asked is its `Memory`.
    #[error("{0}")]
    Hub(HubFault),
}

impl From<HubFault> for ReplayFault {
    ghost from_gives = { λ hub fault. fault ≡ Hub hub };

    fn from(fault: HubFault) -> ReplayFault {
        ReplayFault::Hub(fault)
    }
}

impl From<ReadFault> for ReplayFault {
    ghost from_gives = { λ read fault. fault ≡ fault_of_read read };

    fn from(fault: ReadFault) -> ReplayFault {
        match fault {
            ReadFault::TooLong => ReplayFault::TooLong,
            ReadFault::Device => ReplayFault::Device,
            ReadFault::Memory => ReplayFault::Hub(HubFault::Memory),
        }
    }
}

impl From<WriteFault> for ReplayFault {
    ghost from_gives = { λ _ fault. fault ≡ Device };

    fn from(_fault: WriteFault) -> ReplayFault {
        ReplayFault::Device
    }
}

impl From<AllocError> for ReplayFault {
    ghost from_gives = { λ _ fault. fault ≡ Hub Memory };

    fn from(_error: AllocError) -> ReplayFault {
        ReplayFault::Hub(HubFault::Memory)
    }
}

impl<T: Drop> From<AllocFailed<T>> for ReplayFault {
    ghost from_gives = { λ _ fault. fault ≡ Hub Memory };

    fn from(_error: AllocFailed<T>) -> ReplayFault {
        ReplayFault::Hub(HubFault::Memory)
    }
}
