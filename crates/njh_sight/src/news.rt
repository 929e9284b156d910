//! What is told of a line's sessions: a line of the log a second at most.

ghost use Rattle.std.specs.Prelude.{◌≡◌};
ghost use Rattle.njh_sight.specs.News.{after_telling, news_moment, no_news, told_now, untold_after, untold_event};
ghost use Rattle.njh_sight.specs.News.{with_change, IsTold};

use njh_log::{LogEvent, SessionChange};

/// How often changes of a line's sessions are told at most, in milliseconds.
const TELL: u64 = 1_000;

/// The changes of a line's sessions that weren't told yet, and when they may be.
#[derive(Clone, Copy, Drop)]
pub struct News {
    /// From when on some may be told, on the service's clock.
    pub again: u64,
    /// Those that weren't; none if all were.
    pub untold: Option<Untold>,
}

/// Changes of a line's sessions that weren't told yet.
#[derive(Clone, Copy, Drop)]
pub struct Untold {
    /// The last of them.
    pub last: SessionChange,
    /// How many there are.
    pub count: u64,
}

impl Untold {
    /// What is told of them.
    fn event(&self) -> LogEvent
        ensures { result ≡ untold_event self.now }
    {
        if self.count == 1 {
            LogEvent::SessionChanged(self.last)
        } else {
            LogEvent::SessionsChanged(self.last, self.count)
        }
    }
}

/// Those that weren't told, once there is one more.
fn untold_after(untold: Option<Untold>, change: SessionChange) -> Untold
    ensures { result ≡ untold_after untold change }
{
    let count = match untold {
        Some(untold) => untold.count.saturating_add(1),
        None => 1,
    };
    Untold {
        last: change,
        count,
    }
}

impl News {
    /// Nothing changed yet.
    pub fn none() -> News
        ensures { result ≡ no_news }
    {
        News {
            again: 0,
            untold: None,
        }
    }

    /// A session was seen that changed so, or didn't.
    pub fn add(&mut self, change: Option<SessionChange>)
        ensures { self.new ≡ with_change change self.old }
    {
        match change {
            Some(change) => self.untold = Some(untold_after(self.untold, change)),
            None => {}
        }
    }

    /// What is to be told now, if anything is. It counts as told then.
    pub fn take(&mut self, now: u64) -> Option<LogEvent>
        ensures event { result ≡ told_now self.old now }
        ensures news { self.new ≡ after_telling self.old now }
        ensures told { IsTold self.new now }
    {
        if now < self.again {
            return None;
        }
        match self.untold {
            Some(untold) => {
                self.again = now.saturating_add(TELL);
                self.untold = None;
                Some(untold.event())
            }
            None => None,
        }
    }

    /// When something is to be told; `u64::MAX` if nothing is.
    pub fn moment(&self) -> u64
        ensures { result ≡ news_moment self.now }
    {
        match self.untold {
            Some(_) => self.again,
            None => u64::MAX,
        }
    }
}
