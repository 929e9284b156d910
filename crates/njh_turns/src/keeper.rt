//! Who keeps whole files, so that they outlive the program.

ghost use Rattle.std.specs.Prelude.{◌≡◌, ◌≤◌, List, OnOk, OnErr, ⊤};
ghost use Rattle.njh_hub.specs.Sent.{IsCounted};
ghost use Rattle.njh_hub.specs.WholeHub.{Part};
ghost use Rattle.njh_turns.specs.Keeping.{IsSettled, KeptIsOwn, LeadsHub, LeavesEither, LeavesNoMore, LeavesOnly};

use njh_hub::Hub;
use thiserror::Error;

/// A keeper could not keep a customer's files.
#[derive(Clone, Copy, Debug, PartialEq, Eq, Error)]
#[error("files could not be kept")]
pub struct KeepFault;

/// Keeps the whole files of a hub's customers, so that they are found again after a crash.
///
/// It follows each step of a customer, and settles once a round, before the round's frames go out.
/// A fault is answered only where the count of failures rose, or stands at its greatest value; else
/// it stays.
pub trait Keeper {
    ghost use Rattle.njh_turns.specs.Keeping.{KeeperSays};

    /// What it says of itself: what a crash at this moment may leave of customers' whole files;
    /// that it has taken in all that a hub has of files; and how often it failed.
    ghost says: { KeeperSays Self };

    /// How often it failed.
    fn failures(&self) -> u64
        ensures { result ≡ says.count self.now };

    /// Takes in what one step of a customer, new routes of it or an order for it made of its files.
    /// Nothing more is kept by that.
    fn follow(&mut self, hub: &Hub, customer: u16) -> Result<(), KeepFault>
        requires led { (before : List Part) × says.knows self.old before × LeadsHub customer before hub.now }
        ensures known { OnOk result (says.knows self.new hub.now) }
        ensures leaves { LeavesNoMore says self.old self.new }
        ensures faultless { OnOk result (says.count self.new ≡ says.count self.old) }
        ensures counts { says.count self.old ≤ says.count self.new }
        ensures counted { OnErr result (IsCounted (says.count self.old) (says.count self.new)) };

    /// Keeps all that it has taken in. After a fault, or where the call itself is broken off, a
    /// crash leaves what was kept before, or all.
    fn settle(&mut self) -> Result<(), KeepFault>
        ensures settled { OnOk result ((parts : List Part) → says.knows self.old parts
            → IsSettled says self.new parts) }
        ensures crash { (before parts : List Part) → LeavesOnly (says.may_leave self.old) before
            → says.knows self.old parts → LeavesEither (says.may_leave self.new) before parts }
        ensures faultless { OnOk result (says.count self.new ≡ says.count self.old) }
        ensures counts { says.count self.old ≤ says.count self.new }
        ensures counted { OnErr result (IsCounted (says.count self.old) (says.count self.new)) };
}

/// Keeps nothing: a crash leaves no files, of no customer.
#[derive(Clone, Copy, Debug, Drop)]
pub struct KeepsNothing;

impl Keeper for KeepsNothing {
    ghost says = { record { may_leave = λ keeper left. ⊥; knows = λ keeper parts. ⊤; count = λ keeper. 0 } };

    fn failures(&self) -> u64 {
        0
    }

    fn follow(&mut self, _hub: &Hub, _customer: u16) -> Result<(), KeepFault> {
        Ok(())
    }

    fn settle(&mut self) -> Result<(), KeepFault> {
        Ok(())
    }
}

/// Law: whatever events come, and whosever they are, what is to be kept of a customer's files, and
/// the frames on its lines, are those of that customer alone over its own events.
pub fn kept_is_own()
    ensures { KeptIsOwn }
{}
