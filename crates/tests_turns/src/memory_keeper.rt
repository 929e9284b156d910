//! A keeper in memory.

ghost use Rattle.std.specs.Prelude.{◌≤◌};
ghost use Rattle.njh_hub.specs.Sent.{IsCounted};

use njh_hub::Hub;
use njh_turns::{KeepFault, Keeper};

/// Counts what it is called for, and fails at one of its calls. It keeps nothing.
#[derive(Drop)]
pub struct MemoryKeeper {
    /// How many steps it was to follow.
    pub steps: u32,
    /// How often it was to settle.
    pub settlings: u32,
    /// Whose step it was to follow last.
    pub customer: u16,
    broken_step: u32,
    broken_settling: u32,
    failures: u64,
}

impl MemoryKeeper {
    /// One that fails at a step, and at a settling, by their numbers from 1 on; 0 is none.
    pub(crate) fn new(broken_step: u32, broken_settling: u32) -> MemoryKeeper {
        MemoryKeeper {
            steps: 0,
            settlings: 0,
            customer: 0,
            broken_step,
            broken_settling,
            failures: 0,
        }
    }

    /// Counts a failure.
    fn fail(&mut self)
        ensures counts { self.old.failures ≤ self.new.failures }
        ensures counted { IsCounted self.old.failures self.new.failures }
    {
        self.failures = self.failures.saturating_add(1);
    }
}

impl Keeper for MemoryKeeper {
    ghost use Rattle.std.specs.Prelude.{⊤};

    ghost says = { record {
      may_leave = λ keeper left. ⊥;
      knows = λ keeper parts. ⊤;
      count = λ keeper. keeper.failures;
    } };

    fn failures(&self) -> u64 {
        self.failures
    }

    fn follow(&mut self, _hub: &Hub, customer: u16) -> Result<(), KeepFault> {
        self.steps = self.steps.saturating_add(1);
        self.customer = customer;
        if self.steps == self.broken_step {
            self.fail();
            return Err(KeepFault);
        }
        Ok(())
    }

    fn settle(&mut self) -> Result<(), KeepFault> {
        self.settlings = self.settlings.saturating_add(1);
        if self.settlings == self.broken_settling {
            self.fail();
            return Err(KeepFault);
        }
        Ok(())
    }
}
