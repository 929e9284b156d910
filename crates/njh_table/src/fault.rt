//! Why a table file is refused.

ghost use Rattle.std.specs.Prelude.{◌≡◌};
ghost use Rattle.njh_table.specs.declared.fault.TableFault.TheVariants.{Memory};

use std::alloc::{AllocError, AllocFailed};
use thiserror::Error;

/// The first fault of a table file, in the order of the walk over it; `Memory` comes wherever
/// memory is refused.
#[derive(Clone, Copy, Debug, PartialEq, Eq, Error)]
pub enum TableFault {
    /// The text is no TOML.
    #[error("K1 BadToml")]
    BadToml,
    /// A key that must be there isn't, or the list of customers is empty.
    #[error("K2 MissingKey")]
    MissingKey,
    /// A value of another type or out of range, a customer's name twice, a route's second line that
    /// is its line, a line's `connect` beside a port, its `from` without one, or its `protocol` that
    /// wants the other role.
    #[error("K3 BadValue")]
    BadValue,
    /// A line's name twice on the whole hub.
    #[error("K4 DoubleLine")]
    DoubleLine,
    /// A second route for a node, or a route for the hub's own name.
    #[error("K5 DoubleNode")]
    DoubleNode,
    /// A route by a line that its customer doesn't have.
    #[error("K6 UnknownLine")]
    UnknownLine,
    /// The quotas add to more than the capacity.
    #[error("K7 QuotaOver")]
    QuotaOver,
    /// A customer, a line or a route past its limit.
    #[error("K8 TooMany")]
    TooMany,
    /// Memory was refused.
    #[error("K9 Memory")]
    Memory,
}

impl From<AllocError> for TableFault {
    ghost from_gives = { λ _ fault. fault ≡ Memory };

    fn from(_refused: AllocError) -> TableFault {
        TableFault::Memory
    }
}

impl<T: Drop> From<AllocFailed<T>> for TableFault {
    ghost from_gives = { λ _ fault. fault ≡ Memory };

    fn from(_refused: AllocFailed<T>) -> TableFault {
        TableFault::Memory
    }
}
