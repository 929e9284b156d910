//! Why a command to a console isn't carried out.

ghost use Rattle.std.specs.Prelude.{◌≡◌, ℕ};
ghost use Rattle.njh_ctl.specs.Exchanges.{Link};
ghost use Rattle.njh_ctl.specs.Faults.{IsAskedWhy, IsWhy};

use std::alloc::{AllocError, AllocFailed};
use std::fmt;

/// Why a command to a console isn't carried out, or not to its end.
#[derive(Debug, Drop)]
pub enum CtlFault {
    /// The console refuses it, with this sentence.
    Refused(String),
    /// What was ordered isn't done, and won't be: the console says why.
    NotDone(String),
    /// What was ordered wasn't done, or not for all, as was told.
    TurnedDown,
    /// What was ordered was carried out, but the console can't tell the replies, for this reason.
    Untold(String),
    /// It isn't known whether the order of this name was carried out.
    Lost(String),
    /// It isn't known whether the order of this name was carried out, and those that were to follow
    /// weren't given.
    CutOff(String),
    /// Something is wrong with the hub, which was all that was asked.
    Wrong,
    /// A name has a stroke, which no name of a customer or a line has.
    BadName,
    /// A text is neither a name nor a number of an order.
    NoOrder,
    /// No customer and no line has the name.
    NoLine,
    /// No line has the name.
    NotALine,
    /// An answer isn't one of a console.
    NotUnderstood,
    /// The console answered nothing for five seconds.
    Silent,
    /// The connection ended or failed.
    Broken,
    /// There is no console at this path, for this reason.
    NoConsole(String),
    /// There was no memory.
    Memory,
}

impl CtlFault {
    /// Why the order of a name may not be done. All that says nothing of it leaves open whether it is.
    pub(crate) fn lost(self, name: String) -> CtlFault
        ensures why { (link : Link) → IsWhy self link → IsWhy result link }
        ensures asked { (moment : ℕ) → (link : Link) → IsAskedWhy moment self link → IsAskedWhy moment result link }
    {
        match self {
            CtlFault::NotDone(why) => CtlFault::NotDone(why),
            CtlFault::Untold(why) => CtlFault::Untold(why),
            _ => CtlFault::Lost(name),
        }
    }

    /// The same of an order that was given among others.
    pub(crate) fn cut_off(self, name: String) -> CtlFault
        ensures { (link : Link) → IsWhy self link → IsWhy result link }
    {
        match self {
            CtlFault::Untold(why) => CtlFault::Untold(why),
            _ => CtlFault::CutOff(name),
        }
    }
}

impl fmt::Display for CtlFault {
    fn fmt<W: fmt::Write>(&self, f: &mut fmt::Formatter<W>) -> fmt::Result {
        match self {
            CtlFault::Refused(sentence) => f.write_str(sentence.as_str()),
            CtlFault::NotDone(sentence) => write!(f, "not done: {sentence}"),
            CtlFault::TurnedDown => f.write_str("not done, or not for all: see the replies"),
            CtlFault::Untold(why) => write!(f, "done, but its replies aren't told: {why}"),
            CtlFault::Lost(name) => write!(
                f,
                "it isn't known whether it was done: njehub ctl order {name} says so"
            ),
            CtlFault::CutOff(name) => write!(
                f,
                "it isn't known whether the last was done, and no other was given: \
                 njehub ctl order {name} says so"
            ),
            CtlFault::Wrong => f.write_str("something is wrong"),
            CtlFault::BadName => f.write_str("no customer and no line has a / in its name"),
            CtlFault::NoOrder => f.write_str(
                "an order has a number or a name: a letter, and at most 31 letters, digits, -, . and _",
            ),
            CtlFault::NoLine => f.write_str("no customer and no line has this name"),
            CtlFault::NotALine => f.write_str("no line has this name"),
            CtlFault::NotUnderstood => f.write_str("the console's answer isn't understood"),
            CtlFault::Silent => f.write_str("the console doesn't answer"),
            CtlFault::Broken => f.write_str("the console ended the connection"),
            CtlFault::NoConsole(why) => f.write_str(why.as_str()),
            CtlFault::Memory => f.write_str("out of memory"),
        }
    }
}

impl From<AllocError> for CtlFault {
    ghost use Rattle.njh_ctl.specs.declared.fault.CtlFault.TheVariants.{Memory};

    ghost from_gives = { λ _ fault. fault ≡ Memory };

    fn from(_error: AllocError) -> CtlFault {
        CtlFault::Memory
    }
}

impl<T: Drop> From<AllocFailed<T>> for CtlFault {
    ghost use Rattle.njh_ctl.specs.declared.fault.CtlFault.TheVariants.{Memory};

    ghost from_gives = { λ _ fault. fault ≡ Memory };

    fn from(_error: AllocFailed<T>) -> CtlFault {
        CtlFault::Memory
    }
}
