//! What is told of those who ask for a line over TCP/IP.

ghost use Rattle.std.specs.Prelude.{◌≡◌};
ghost use Rattle.njh_lines.specs.TurningAway.{missing_left, missing_moment, missing_told, no_opens, one_more_missing};
ghost use Rattle.njh_lines.specs.TurningAway.{open_told, tells_open};

/// How often the log tells of them at most, in milliseconds.
const TELL: u64 = 1_000;

/// OPENs to a line that were refused, and connections to it on which none came.
#[derive(Clone, Copy, Drop)]
pub struct Opens {
    /// From which moment on the log may tell of one that was refused, in milliseconds.
    pub again: u64,
    /// On how many connections none came since the log told of some.
    pub missing: u64,
    /// From which moment on it may tell of some.
    pub missing_again: u64,
}

impl Opens {
    /// None so far.
    pub(crate) fn none() -> Opens
        ensures { result ≡ no_opens }
    {
        Opens {
            again: 0,
            missing: 0,
            missing_again: 0,
        }
    }

    /// On a further connection none came.
    pub(crate) fn note_missing(&mut self)
        ensures { self.new ≡ one_more_missing self.old }
    {
        self.missing = self.missing.saturating_add(1);
    }

    /// On how many none came, if that is to be told now. They are counted from none on then.
    pub(crate) fn take_missing(&mut self, now: u64) -> Option<u64>
        ensures told { result ≡ missing_told self.old now }
        ensures left { self.new ≡ missing_left self.old now }
    {
        if self.missing == 0 || now < self.missing_again {
            return None;
        }
        let count = self.missing;
        self.missing = 0;
        self.missing_again = now.saturating_add(TELL);
        Some(count)
    }

    /// When that is to be told; the last moment of all if there were none.
    pub(crate) fn moment(&self) -> u64
        ensures { result ≡ missing_moment self.now }
    {
        if self.missing == 0 {
            u64::MAX
        } else {
            self.missing_again
        }
    }

    /// One was refused. Answers whether the log tells of it.
    pub(crate) fn note_refused(&mut self, now: u64) -> bool
        ensures told { result ≡ tells_open self.old now }
        ensures left { self.new ≡ open_told self.old now }
    {
        if now < self.again {
            return false;
        }
        self.again = now.saturating_add(TELL);
        true
    }
}
