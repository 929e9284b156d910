//! A log that nobody can flood.

ghost use Rattle.std.specs.Prelude.{◌≡◌, ◌≢◌, ◌+◌, ◌<◌, ◌≤◌, ℕ, length, min, IsTrue, OnOk};
ghost use Rattle.njh_log.specs.Kinds.{kind_of};
ghost use Rattle.njh_log.specs.Limiting.{AreTold, AreWritten, IsTold, IsToldText, Writes};
ghost use Rattle.njh_log.specs.Spells.{after_telling, due_in, is_due, spell_at};

use crate::entry::LogEvent;
use crate::event_kind::{EventKind, kind_of};
use crate::heading::{Heading, Place};
use crate::log::Log;
use crate::severity::{Severity, severity_of};
use crate::spells::Spells;
use std::alloc::{AllocError, Global};
use std::fmt;
use std::io::Write;

/// How often it is looked whether spells are over, in milliseconds.
const LOOK: u64 = 1_000;

/// A log, and the spells of what it tells: of each kind and place so many lines are written in some
/// time, and what comes beyond is told as a count.
#[derive(Drop)]
pub struct LimitedLog<L: Write + Drop> {
    /// What is written goes there.
    pub log: Log<L>,
    /// How much more is written of each kind and place, and what was counted.
    pub spells: Spells,
    /// From when on it is looked whether spells are over, on the service's clock.
    pub again: u64,
}

impl<L: Write + Drop> LimitedLog<L> {
    /// That of a log, which counts nothing yet.
    pub fn new(alloc: Global, log: Log<L>) -> LimitedLog<L>
        ensures { result.log ≡ log }
    {
        LimitedLog {
            log,
            spells: Spells::none(alloc),
            again: 0,
        }
    }

    /// From now on events are counted, in all places. Out of memory is the only refusal.
    pub fn limit(&mut self, alloc: Global) -> Result<(), AllocError>
        ensures limited { OnOk result (length self.new.spells.places ≡ 321) }
        ensures log { self.new.log ≡ self.old.log }
    {
        self.spells = Spells::all(alloc)?;
        Ok(())
    }

    /// The log, where no further event comes: first it tells of each spell what was counted in it.
    pub fn into_log(mut self, milliseconds: i64) -> Log<L>
        ensures { AreWritten L.contents (due_in 18446744073709551615 self.spells) self.log result }
    {
        self.tell_spells(milliseconds, u64::MAX);
        let LimitedLog { log, .. } = self;
        log
    }

    /// Tells of an event that happened at this moment: in milliseconds since the beginning of 1970,
    /// and on the service's clock. One that is too many is counted.
    pub fn tell(&mut self, milliseconds: i64, now: u64, place: Place, event: &LogEvent)
        ensures { IsTold L.contents place event.now now self.old self.new }
    {
        let heading = Heading {
            milliseconds,
            severity: severity_of(event),
            place,
        };
        self.tell_text(heading, now, kind_of(event), event);
    }

    /// The same of an event of this kind that this text tells.
    pub fn tell_text<D: fmt::Display>(
        &mut self,
        heading: Heading,
        now: u64,
        kind: EventKind,
        text: &D,
    )
        ensures { IsToldText L.contents heading.place kind now self.old self.new }
    {
        if self.spells.note(heading.place, kind, now) {
            self.log.write(heading, text);
        }
    }

    /// Tells of the spells that are over, if it wasn't looked for such in the second before.
    pub fn look(&mut self, milliseconds: i64, now: u64)
        ensures waits { now < self.old.again → self.new ≡ self.old }
        ensures looks { self.old.again ≤ now → AreTold L.contents now self.old self.new }
        ensures again { self.old.again ≤ now → self.new.again ≡ min (now + 1000) 18446744073709551615 }
    {
        if now < self.again {
            return;
        }
        self.tell_spells(milliseconds, now);
        self.again = now.saturating_add(LOOK);
    }

    /// Tells of each spell that is over how many events were counted in it, if any were.
    fn tell_spells(&mut self, milliseconds: i64, now: u64)
        ensures told { AreTold L.contents now self.old self.new }
        ensures again { self.new.again ≡ self.old.again }
    {
        for index in 0..self.spells.count() {
            self.tell_spell(milliseconds, index, now);
        }
    }

    /// Tells of one, by its place among all.
    fn tell_spell(&mut self, milliseconds: i64, index: usize, now: u64)
        requires { index < length self.old.spells.spells }
        ensures own { spell_at index self.new.spells ≡ after_telling (spell_at index self.old.spells) now }
        ensures others { (other : ℕ) → other ≢ index → spell_at other self.new.spells ≡ spell_at other self.old.spells }
        ensures places { self.new.spells.places ≡ self.old.spells.places }
        ensures written { IsTrue (is_due (spell_at index self.old.spells) now) →
            Writes L.contents self.old.log self.new.log }
        ensures silent { ¬ IsTrue (is_due (spell_at index self.old.spells) now) → self.new.log ≡ self.old.log }
        ensures many { length self.new.spells.spells ≡ length self.old.spells.spells }
        ensures again { self.new.again ≡ self.old.again }
    {
        let Some(more) = self.spells.tell(index, now) else {
            return;
        };
        let (place, kind) = self.spells.place_of(index);
        let heading = Heading {
            milliseconds,
            severity: Severity::Warning,
            place,
        };
        let further = Further { kind, more };
        self.log.write(heading, &further);
    }
}

/// So many more events of a kind.
#[derive(Clone, Copy, Drop)]
struct Further {
    kind: EventKind,
    more: u64,
}

impl fmt::Display for Further {
    fn fmt<W: fmt::Write>(&self, f: &mut fmt::Formatter<W>) -> fmt::Result {
        let kind = self.kind;
        let more = self.more;
        write!(f, "{kind}: {more} more")
    }
}
