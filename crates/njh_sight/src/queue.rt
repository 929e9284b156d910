//! Since when nodal messages wait on a line, as far as that was seen.

ghost use Rattle.std.specs.Prelude.{◌≡◌, ◌+◌, ◌%◌, min, replicate};

/// How many messages wait on a line at most.
const MESSAGES: usize = 64;

/// When messages were first seen to wait on a line, by their numbers: a message's is as many as went
/// before it on the line.
#[derive(Clone, Copy, Drop)]
pub struct Queue {
    /// Of a number at the place that is its remainder by 64, on the service's clock.
    pub moments: [u64; MESSAGES],
    /// The number of the first message that wasn't seen yet.
    pub next: u64,
}

impl Queue {
    ghost use Rattle.njh_sight.specs.Queues.{moment_in};

    /// That of a line on which none was seen.
    pub fn none() -> Queue
        ensures { result ≡ record { moments = replicate 64 0; next = 0 } }
    {
        Queue {
            moments: [0; MESSAGES],
            next: 0,
        }
    }

    /// So many messages went on the line so far, and so many wait: those that weren't seen before
    /// wait since now.
    pub fn note(&mut self, sent: u64, waiting: u64, now: u64)
        ensures { self.new.next ≡ min (sent + waiting) u64.MAX }
    {
        let end = sent.saturating_add(waiting);
        for number in self.next.max(sent)..end {
            if let Some(moment) = self.moments.get_mut(place_of(number)) {
                *moment = now;
            }
        }
        self.next = end;
    }

    /// Since when the message of a number waits, if it was seen.
    pub fn since(&self, number: u64) -> Option<u64>
        ensures { result ≡ moment_in self.now number }
    {
        if number < self.next {
            self.moments.get(place_of(number)).copied()
        } else {
            None
        }
    }
}

fn place_of(number: u64) -> usize
    ensures { result ≡ number % 64 }
{
    (number % 64) as usize
}
