//! How many names of an order for many files came to what.

ghost use Rattle.std.specs.Prelude.{◌≡◌, ◌+◌, ◌-◌, ◌<◌, ◌≤◌, ◌^◌, IfOk, string_bytes};
ghost use Rattle.njh_ctl.specs.Many.{counts_text, counts_with, ending_of, no_counts};

use crate::ending::Ending;
use std::alloc::{AllocError, Global};

/// What came of a file's name.
#[derive(Clone, Copy)]
pub(crate) enum Outcome {
    /// It isn't chosen, or another file stands for it.
    Left,
    /// All was done, or would be ordered.
    Done,
    /// It wasn't done, or not for all, as the replies say.
    NotDone,
    /// The hub refuses the order.
    Refused,
    /// Not all files of the name are chosen.
    PassedOver,
}

/// How many names there are of each outcome.
#[derive(Clone, Copy)]
pub(crate) struct Counts {
    pub(crate) done: usize,
    pub(crate) not_done: usize,
    pub(crate) refused: usize,
    pub(crate) passed_over: usize,
}

impl Counts {
    /// None yet.
    pub(crate) const NONE: Counts = Counts {
        done: 0,
        not_done: 0,
        refused: 0,
        passed_over: 0,
    };

    /// With one more of an outcome.
    pub(crate) fn with(self, outcome: Outcome) -> Counts
        requires { self.done + self.not_done + self.refused + self.passed_over < 2 ^ 64 - 1 }
        ensures value { result ≡ counts_with outcome self }
        ensures all { result.done + result.not_done + result.refused + result.passed_over
            ≤ self.done + self.not_done + self.refused + self.passed_over + 1 }
    {
        let mut counts = self;
        match outcome {
            Outcome::Left => {}
            Outcome::Done => counts.done += 1,
            Outcome::NotDone => counts.not_done += 1,
            Outcome::Refused => counts.refused += 1,
            Outcome::PassedOver => counts.passed_over += 1,
        }
        counts
    }

    /// How many came to what.
    pub(crate) fn text(self, alloc: Global, dry_run: bool) -> Result<String, AllocError>
        ensures { IfOk result (λ text. string_bytes text ≡ counts_text dry_run self) }
    {
        let (done, passed) = (self.done, self.passed_over);
        if dry_run {
            return format!(in alloc; "nothing was ordered: {done} names, and {passed} passed over");
        }
        let (not_done, refused) = (self.not_done, self.refused);
        format!(in alloc;
            "done {done}, not done {not_done}, refused {refused}, passed over {passed}"
        )
    }

    /// How the command ends.
    pub(crate) fn ending(self) -> Ending
        requires { self.done + self.not_done + self.refused + self.passed_over < 2 ^ 64 }
        ensures { result ≡ ending_of self }
    {
        if self.not_done + self.refused + self.passed_over > 0 {
            Ending::TurnedDown
        } else {
            Ending::Done
        }
    }
}
