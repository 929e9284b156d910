//! What is known of a spool file and of its log, and when they are looked at.

ghost use Rattle.std.specs.Prelude.{◌≡◌, ◌≢◌, ◌↔◌, ◌≤◌, ℕ, IfSome, IfNone, IsTrue};
ghost use Rattle.njh_presence.specs.Presence.{first_known, no_faults, IsLook, IsTold};

use crate::fault::SpoolFaults;
use crate::opened::Opened;
use crate::seen::SpoolSeen;

/// How often it is looked, in milliseconds.
const SECOND: u64 = 1_000;

/// How often what is wrong is told.
const MINUTE: u64 = 60_000;

/// What is told of the paths of a spool file and of its log.
#[derive(Clone, Copy, Drop)]
pub enum PresenceNews {
    /// This is wrong at them.
    Wrong(SpoolFaults),
    /// What is open is there again.
    Right,
}

/// What is known of a spool file and of its log, which are open.
#[derive(Clone, Copy, Drop)]
pub struct Presence {
    /// The spool file.
    pub file: Opened,
    /// Its log.
    pub log: Opened,
    /// What was wrong at their paths at the last look.
    pub faults: SpoolFaults,
    /// When they are looked at next.
    pub next: u64,
    /// When what is wrong is told again.
    pub again: u64,
}

impl Presence {
    /// Files that were opened, and then seen so. Nothing is wrong until they are looked at, which
    /// is at once.
    pub fn new(seen: SpoolSeen) -> Presence
        ensures { result ≡ first_known seen }
    {
        Presence {
            file: Opened::new(seen.file),
            log: Opened::new(seen.log),
            faults: SpoolFaults::none(),
            next: 0,
            again: 0,
        }
    }

    /// Whether it is time to look.
    pub fn is_due(&self, now: u64) -> bool
        ensures { IsTrue result ↔ (self.now.next ≤ now) }
    {
        self.next <= now
    }

    /// What is wrong at the paths as of the last look, if something is.
    pub fn wrong(&self) -> Option<SpoolFaults>
        ensures wrong { IfSome result (λ faults. (faults ≡ self.now.faults) × (faults ≢ no_faults)) }
        ensures right { IfNone result (self.now.faults ≡ no_faults) }
    {
        if self.faults == SpoolFaults::none() {
            None
        } else {
            Some(self.faults)
        }
    }

    /// Looks: this is seen at the paths at this moment, in milliseconds. Answers what is to be told.
    pub fn look(&mut self, now: u64, seen: SpoolSeen) -> Option<PresenceNews>
        ensures { IsLook now seen self.old self.new result }
    {
        let before = self.faults;
        self.file = self.file.seen_again(seen.file);
        self.log = self.log.seen_again(seen.log);
        self.faults = SpoolFaults {
            file: self.file.fault_at(seen.file),
            log: self.log.fault_at(seen.log),
        };
        self.next = now.saturating_add(SECOND);
        let news = news_of(before, self.faults, self.again <= now);
        if news.is_some() {
            self.again = now.saturating_add(MINUTE);
        }
        news
    }
}

/// What is told of what is wrong, by what was wrong at the look before, and whether it is time to
/// tell the same again.
fn news_of(before: SpoolFaults, found: SpoolFaults, is_time: bool) -> Option<PresenceNews>
    ensures { (now again : ℕ) → (IsTrue is_time ↔ (again ≤ now)) → IsTold before found now again result }
{
    if found == SpoolFaults::none() {
        if before == found {
            None
        } else {
            Some(PresenceNews::Right)
        }
    } else if before == found && !is_time {
        None
    } else {
        Some(PresenceNews::Wrong(found))
    }
}
