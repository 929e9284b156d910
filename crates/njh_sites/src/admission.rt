//! When a line takes a connection.

ghost use Rattle.std.specs.Prelude.{◌≡◌};
ghost use Rattle.njh_sites.specs.Admitting.{answer_of, keeps_line, kept_until, listens_again};

use std::io;

/// For how long a connection is without a session when another may take its place, in
/// milliseconds.
const PATIENCE: u64 = 10_000;

/// How long after a failure to take a connection the next one is tried.
const PAUSE: u64 = 1_000;

/// What came of a look at a listener.
#[derive(Clone, Copy, Debug, Drop, PartialEq, Eq)]
pub enum Admission {
    /// A connection was taken, or dropped.
    Taken,
    /// Nobody waits.
    NobodyWaits,
    /// One that waits could not be taken.
    NotTaken,
}

/// What is known of a dial that is under way.
#[derive(Clone, Copy, Debug, Drop, PartialEq, Eq)]
pub enum DialAnswer {
    /// The connection was made.
    Made,
    /// Nobody answered yet.
    Waits,
    /// It was refused, or nobody answered for too long.
    Failed,
}

/// Whether a line keeps its connection, if another waits: its session is up, or it isn't and the
/// connection is without one since a moment.
pub fn keeps_line(is_connected: bool, is_up: bool, since: u64, now: u64) -> bool
    ensures { result ≡ keeps_line is_connected is_up since now }
{
    is_connected && (is_up || now.saturating_sub(since) < PATIENCE)
}

/// When the listener of a line that keeps its connection is looked at again; `u64::MAX` while its
/// session is up.
pub fn kept_until(is_up: bool, since: u64) -> u64
    ensures { result ≡ kept_until is_up since }
{
    if is_up {
        u64::MAX
    } else {
        since.saturating_add(PATIENCE)
    }
}

/// When a listener is looked at again.
pub fn listens_again(admission: Admission, now: u64) -> u64
    ensures { result ≡ listens_again admission now }
{
    match admission {
        Admission::Taken => now,
        Admission::NobodyWaits => u64::MAX,
        Admission::NotTaken => now.saturating_add(PAUSE),
    }
}

/// What is known of a dial that is given up at a moment, by what the network says.
pub fn answer_of(made: io::Result<bool>, until: u64, now: u64) -> DialAnswer
    ensures { result ≡ answer_of made until now }
{
    match made {
        Ok(true) => DialAnswer::Made,
        Ok(false) => {
            if until <= now {
                DialAnswer::Failed
            } else {
                DialAnswer::Waits
            }
        }
        Err(_) => DialAnswer::Failed,
    }
}
