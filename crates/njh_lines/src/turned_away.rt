//! Connections that were closed as they came.

ghost use Rattle.std.specs.Prelude.{◌≡◌};
ghost use Rattle.njh_lines.specs.TurningAway.{away_left, away_moment, away_told, nobody_away, one_more_away};

/// How often the log tells of them at most, in milliseconds.
const TELL: u64 = 60_000;

/// Connections to a line that were closed as they came, for one reason.
#[derive(Clone, Copy, Drop)]
pub struct TurnedAway {
    /// How many there were since the log told of some.
    pub count: u64,
    /// From which moment on the log may tell of some, in milliseconds.
    pub again: u64,
}

impl TurnedAway {
    /// None so far.
    pub(crate) fn none() -> TurnedAway
        ensures { result ≡ nobody_away }
    {
        TurnedAway { count: 0, again: 0 }
    }

    /// A further one was closed.
    pub(crate) fn note(&mut self)
        ensures { self.new ≡ one_more_away self.old }
    {
        self.count = self.count.saturating_add(1);
    }

    /// How many are to be told now, if some are. They are counted from none on then.
    pub(crate) fn take(&mut self, now: u64) -> Option<u64>
        ensures told { result ≡ away_told self.old now }
        ensures left { self.new ≡ away_left self.old now }
    {
        if self.count == 0 || now < self.again {
            return None;
        }
        let count = self.count;
        self.count = 0;
        self.again = now.saturating_add(TELL);
        Some(count)
    }

    /// When some are to be told; the last moment of all if there were none.
    pub(crate) fn moment(&self) -> u64
        ensures { result ≡ away_moment self.now }
    {
        if self.count == 0 {
            u64::MAX
        } else {
            self.again
        }
    }
}
