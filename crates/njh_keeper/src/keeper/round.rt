//! A round: each step is followed, rows of files that have left are dropped, what is kept is settled.

ghost use Rattle.std.specs.Prelude.{◌≡◌, ◌⊎◌, ◌≤◌, List, false, OnOk};
ghost use Rattle.sqlite.specs.State.{HasCleanDisk, Survives};
ghost use Rattle.njh_hub.specs.Sent.{IsCounted};
ghost use Rattle.njh_hub.specs.WholeHub.{Part};
ghost use Rattle.njh_turns.specs.Keeping.{LeadsHub};
ghost use Rattle.njh_spool.specs.Restoring.{KeptFile};
ghost use Rattle.njh_spoolfile.specs.Kept.{SpoolContents, Holds};
ghost use Rattle.njh_spoolfile.specs.Shelf.{shown};
ghost use Rattle.njh_spoolfile.specs.CommitState.{CommitState, Stands};
ghost use Rattle.njh_keeper.specs.Keeper.{IsAsKept, IsKeptNow, KnowsHub, MayLeave, left_in};
ghost use Rattle.njh_keeper.specs.code.Swept.{IsSwept};

use crate::fault::first_cause;
use crate::keeper::SpoolKeeper;
use crate::step::keep_step;
use crate::sweeping::{next_to_sweep, sweep};
use njh_hub::Hub;
use njh_spoolfile::Origin;
use sqlite::{Error, ErrorCode};
use std::rt::Clock;
use std::time::{SystemTime, UNIX_EPOCH};

impl<'a, R: Clock, S: Origin + Drop> SpoolKeeper<'a, R, S> {
    /// Writes what a step made of a customer's files. Nothing of it is committed.
    pub(super) fn follow_files(&mut self, hub: &Hub, customer: u16) -> Result<(), Error>
        ensures same { (self.new.failures ≡ self.old.failures) × (self.new.names ≡ self.old.names)
            × (self.new.is_fresh ≡ false) × (self.new.refused ≡ self.old.refused)
            × (self.new.is_strict ≡ self.old.is_strict) }
        ensures known { (before : List Part) → LeadsHub customer before hub.now
            → KnowsHub S.Store S.found self.old before
            → OnOk result (KnowsHub S.Store S.found self.new hub.now) }
        ensures crash { Survives (shown S.Store self.old.store) (shown S.Store self.new.store) (λ _. ⊥) }
    {
        self.is_fresh = false;
        if self.failures > 0 || usize::from(customer) >= self.customers.len() {
            return Err(Error::SqliteFailure(ErrorCode::Closed));
        }
        hub.files_are_sound(customer);
        self.writer.now = seconds_on(self.rt);
        let own = &mut self.customers[usize::from(customer)];
        keep_step(&mut self.writer, own, hub, customer)
    }

    /// Drops rows of files that have left of the customer whose turn it is, if one has any. So they go
    /// too while nothing comes on its lines. Nothing of it is committed.
    pub(super) fn sweep_in_turn(&mut self) -> Result<(), Error>
        ensures same { (self.new.failures ≡ self.old.failures) × (self.new.names ≡ self.old.names)
            × (self.new.refused ≡ self.old.refused) }
        ensures swept { OnOk result (IsSwept self.old.customers self.new.customers) }
        ensures known { (parts : List Part) → KnowsHub S.Store S.found self.old parts
            → OnOk result (KnowsHub S.Store S.found self.new parts) }
        ensures crash { Survives (shown S.Store self.old.store) (shown S.Store self.new.store) (λ _. ⊥) }
    {
        if self.failures > 0 {
            return Err(Error::SqliteFailure(ErrorCode::Closed));
        }
        let Some(place) = next_to_sweep(&self.customers, self.turn) else {
            return Ok(());
        };
        self.is_fresh = false;
        self.turn = place.saturating_add(1);
        let own = &mut self.customers[place];
        sweep(&mut self.writer, own, 0)
    }

    /// Commits what was written, if whole files changed or much waits.
    pub(super) fn settle_files(&mut self) -> Result<(), Error>
        ensures same { (self.new.failures ≡ self.old.failures) × (self.new.names ≡ self.old.names)
            × (self.new.customers ≡ self.old.customers) × (self.new.is_fresh ≡ false)
            × (self.new.refused ≡ self.old.refused) × (self.new.is_strict ≡ self.old.is_strict) }
        ensures numbers { OnOk result (self.new.numbers ≡ self.old.numbers) }
        ensures settled { HasCleanDisk (shown S.Store self.new.store) → OnOk result ((s : CommitState)
            → Stands s (shown S.Store self.old.store) → IsAsKept self.old s → IsKeptNow S.Store self.new s.now) }
        ensures clean { HasCleanDisk (shown S.Store self.new.store) → HasCleanDisk (shown S.Store self.old.store) }
        ensures crash { (left : List (List KeptFile)) → MayLeave S.Store self.new left
            → MayLeave S.Store self.old left
            ⊎ ((now : SpoolContents) → Holds now (shown S.Store self.old.store).now.trees
            → left ≡ left_in self.old.names now) }
    {
        self.is_fresh = false;
        if self.failures > 0 {
            return Err(Error::SqliteFailure(ErrorCode::Closed));
        }
        self.writer.settle()
    }

    /// Counts a failure, and notes why it came.
    pub(super) fn fail(&mut self, error: Error)
        ensures counts { self.old.failures ≤ self.new.failures }
        ensures counted { IsCounted self.old.failures self.new.failures }
        ensures others { self.new ≡ record self.old { failures = self.new.failures } }
    {
        self.failures = self.failures.saturating_add(1);
        self.cause = first_cause(self.cause, error);
    }
}

/// Seconds since the beginning of 1970 by the clock; 0 if it fails, stands before that, or past
/// the year 2105.
fn seconds_on<R: Clock>(rt: &R) -> u32 {
    match SystemTime::now(rt) {
        Ok(time) => match time.duration_since(UNIX_EPOCH) {
            Ok(since) => u32::try_from(since.as_secs()).unwrap_or(0),
            Err(_) => 0,
        },
        Err(_) => 0,
    }
}
