//! A file that is open, as it was seen at its path.

ghost use Rattle.std.specs.Prelude.{◌≡◌};
ghost use Rattle.njh_presence.specs.Presence.{cut_fault, fault_at, grown, opened_as, seen_again};

use crate::fault::PathFault;
use crate::seen::Seen;

/// A file that is open, as it was seen at its path.
#[derive(Clone, Copy, Drop)]
pub struct Opened {
    /// Which it is, and how many bytes it had at most; none if it wasn't seen when it was opened.
    pub seen: Option<Seen>,
    /// Whether it had fewer than at a look before. What is cut off is lost.
    pub is_cut: bool,
}

impl Opened {
    /// One that was opened, and then seen so.
    pub(crate) fn new(seen: Option<Seen>) -> Opened
        ensures { result ≡ opened_as seen }
    {
        Opened {
            seen,
            is_cut: false,
        }
    }

    /// The same, once this was seen at its path.
    pub(crate) fn seen_again(self, now: Option<Seen>) -> Opened
        ensures { result ≡ seen_again self now }
    {
        match (self.seen, now) {
            (Some(most), Some(now)) if most.is_same(now) => self.grown(most, now.size),
            _ => self,
        }
    }

    /// The same, which had so many bytes at most, and has so many now.
    fn grown(self, most: Seen, size: u64) -> Opened
        ensures { result ≡ grown self most size }
    {
        Opened {
            seen: Some(Seen {
                size: most.size.max(size),
                ..most
            }),
            is_cut: self.is_cut || size < most.size,
        }
    }

    /// What is wrong at its path, where this is seen.
    pub(crate) fn fault_at(self, now: Option<Seen>) -> Option<PathFault>
        ensures { result ≡ fault_at self now }
    {
        match (self.seen, now) {
            (_, None) => Some(PathFault::Gone),
            (Some(most), Some(now)) if most.is_same(now) => cut_fault(self.is_cut),
            _ => Some(PathFault::Other),
        }
    }
}

/// What is wrong with an open file where it stands.
fn cut_fault(is_cut: bool) -> Option<PathFault>
    ensures { result ≡ cut_fault is_cut }
{
    if is_cut { Some(PathFault::Cut) } else { None }
}
