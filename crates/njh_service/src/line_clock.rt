//! The service's clock beside that of the world.

ghost use Rattle.std.specs.Prelude.{◌≡◌};
ghost use Rattle.njh_service.specs.Bureaus.{seconds_at, seconds_if};

/// A moment on the service's clock, and what the world's clock shows then. Both are in
/// milliseconds, the second since the beginning of 1970.
#[derive(Clone, Copy, Drop)]
pub(crate) struct LineClock {
    pub(crate) now: u64,
    pub(crate) utc: u64,
}

impl LineClock {
    /// The second since the beginning of 1970 at which the service's clock showed this moment, if
    /// that is to be told.
    pub(crate) fn seconds_if(self, is_told: bool, moment: u64) -> Option<u64>
        ensures { result ≡ seconds_if self is_told moment }
    {
        if is_told {
            Some(self.seconds_at(moment))
        } else {
            None
        }
    }

    /// The second since the beginning of 1970 at which the service's clock showed this moment.
    pub(crate) fn seconds_at(self, moment: u64) -> u64
        ensures { result ≡ seconds_at self moment }
    {
        self.utc.saturating_sub(self.now.saturating_sub(moment)) / 1000
    }
}
