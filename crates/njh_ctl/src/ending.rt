//! How a command ends that was carried out.

ghost use Rattle.std.specs.Prelude.{◌≡◌};
ghost use Rattle.njh_ctl.specs.Orders.{result_of};

use crate::fault::CtlFault;
use crate::reply::Refusal;

/// How a command ends that was carried out.
#[derive(Clone, Copy, Debug, PartialEq, Eq)]
pub enum Ending {
    /// All was done, or told.
    Done,
    /// Something wasn't done, or not for all, as the replies say or what else was told.
    TurnedDown,
    /// Something is wrong with the hub, which was all that was asked.
    Wrong,
}

impl Ending {
    /// What is to be said of it besides, if not all was done.
    pub fn result(self) -> Result<(), CtlFault>
        ensures { result ≡ result_of self }
    {
        match self {
            Ending::Done => Ok(()),
            Ending::TurnedDown => Err(CtlFault::TurnedDown),
            Ending::Wrong => Err(CtlFault::Wrong),
        }
    }
}

/// What comes of an order that is given.
#[derive(Drop)]
pub(crate) enum Given {
    /// It was carried out, and ended so.
    Ended(Ending),
    /// The console refuses it, and it isn't carried out.
    Refused(Refusal),
}
