//! Want of memory as a fault of the spool.

ghost use Rattle.std.specs.Prelude.{◌≡◌};

use crate::SpoolFault;
use std::alloc::AllocError;

impl From<AllocError> for SpoolFault {
    ghost use Rattle.njh_spool.specs.declared.SpoolFault.TheVariants.{Memory};

    ghost from_gives = { λ _ fault. fault ≡ Memory };

    fn from(_error: AllocError) -> Self {
        SpoolFault::Memory
    }
}
