//! Why the hub refuses.

ghost use Rattle.std.specs.Prelude.{◌≡◌, ◌+◌, ◌<◌, ◌^◌};

use njh_table::TableFault;
use std::alloc::{AllocError, AllocFailed};
use thiserror::Error;

/// Why a call of the hub was refused. Nothing has changed then.
#[derive(Clone, Copy, Debug, PartialEq, Eq, Error)]
pub enum HubFault {
    /// The hub has no such line.
    #[error("U1 UnknownLine")]
    UnknownLine,
    /// The hub has no such customer.
    #[error("U2 UnknownCustomer")]
    UnknownCustomer,
    /// There was no memory.
    #[error("U3 Memory")]
    Memory,
    /// No line leads to the node that a message is for.
    #[error("U6 NoRoute")]
    NoRoute,
    /// The queue of the line by which a message goes is full.
    #[error("U7 QueueFull")]
    QueueFull,
    /// The customer can't have these routes.
    #[error("U5 BadRoutes: {cause}")]
    BadRoutes {
        /// The first fault in them.
        cause: TableFault,
    },
}

impl From<AllocError> for HubFault {
    ghost use Rattle.std.specs.Prelude.{◌≡◌};
    ghost use Rattle.njh_hub.specs.declared.fault.HubFault.TheVariants.{Memory};

    ghost from_gives = { λ _ e. e ≡ Memory };

    fn from(_error: AllocError) -> HubFault {
        HubFault::Memory
    }
}

impl<T: Drop> From<AllocFailed<T>> for HubFault {
    ghost use Rattle.std.specs.Prelude.{◌≡◌};
    ghost use Rattle.njh_hub.specs.declared.fault.HubFault.TheVariants.{Memory};

    ghost from_gives = { λ _ e. e ≡ Memory };

    fn from(_error: AllocFailed<T>) -> HubFault {
        HubFault::Memory
    }
}

/// Who stopped a run.
#[derive(Clone, Copy, Debug, PartialEq, Eq, Error)]
pub enum Cause {
    /// The hub refused a step, new routes, or an order.
    #[error("{0}")]
    Hub(HubFault),
    /// The sink refused a frame.
    #[error("the sink took no frame")]
    Sink,
}

/// Where a run stopped: after so many whole events and so many bytes of the next.
///
/// With cause `Hub` the refused step hasn't happened. With cause `Sink` it has, and is counted; its
/// frame alone is missing.
#[derive(Clone, Copy, Debug, PartialEq, Eq, Error)]
#[error("{cause}: after {events} events and {bytes} bytes of the next")]
pub struct RunFault {
    /// How many events are done whole.
    pub events: usize,
    /// How many bytes of the next event are done.
    pub bytes: usize,
    /// Who stopped the run.
    pub cause: Cause,
}

impl RunFault {
    /// The same stop, counted from so many events earlier.
    pub(crate) fn after(self, events: usize) -> RunFault
        requires { self.events + events < 2 ^ 64 }
        ensures { result ≡ record self { events = events + self.events } }
    {
        RunFault {
            events: events + self.events,
            bytes: self.bytes,
            cause: self.cause,
        }
    }
}
