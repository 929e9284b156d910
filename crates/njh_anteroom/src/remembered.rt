//! What is remembered of an address.

ghost use Rattle.std.specs.Prelude.{◌≡◌};
ghost use Rattle.njh_anteroom.specs.Remembered.{after_end, after_session, has_blemish, is_of, is_recent};
ghost use Rattle.njh_anteroom.specs.Remembered.{new_remembered, pause_after, rank_at};

use njh_table::number_of;
use std::net::IpAddr;

/// The pause after a first connection without a session, in milliseconds.
const FIRST_PAUSE: u64 = 1_000;

/// The longest pause.
const LONGEST_PAUSE: u64 = 60_000;

/// For how long a refusal is held against an address, and the length of a pause after it ended.
const MINUTE: u64 = 60_000;

/// The rank of an address on a connection of which a session was up.
pub(crate) const KNOWN: u8 = 0;

/// The rank of an address of which no session is known.
pub(crate) const NEW: u8 = 1;

/// The rank of an address of which a sign-on was refused in the last minute, or whose pause still
/// runs.
pub(crate) const BLEMISHED: u8 = 2;

/// What is remembered of an address. Moments are milliseconds.
#[derive(Clone, Copy)]
pub struct Remembered {
    /// The address.
    pub address: IpAddr,
    /// Whether a session was up on a connection of it.
    pub had_session: bool,
    /// How many of its sign-ons were refused.
    pub refusals: u64,
    /// When the last of them was, if there is one.
    pub refused: Option<u64>,
    /// How long its last pause is, in milliseconds; 0 if a session came up since.
    pub pause: u64,
    /// Until when that runs.
    pub until: u64,
}

impl Remembered {
    /// Nothing happened yet.
    pub(crate) fn new(address: IpAddr) -> Remembered
        ensures { result ≡ new_remembered address }
    {
        Remembered {
            address,
            had_session: false,
            refusals: 0,
            refused: None,
            pause: 0,
            until: 0,
        }
    }

    /// Whether it is of the address with this number.
    pub(crate) fn is_of(&self, number: u128) -> bool
        ensures { result ≡ is_of number self.now }
    {
        number_of(self.address) == number
    }

    /// Its rank.
    pub(crate) fn rank(&self, now: u64) -> u8
        ensures { result ≡ rank_at now self.now }
    {
        if self.has_blemish(now) {
            BLEMISHED
        } else if self.had_session {
            KNOWN
        } else {
            NEW
        }
    }

    /// Whether a sign-on was refused in the last minute, or the pause still runs.
    fn has_blemish(&self, now: u64) -> bool
        ensures { result ≡ has_blemish now self.now }
    {
        self.was_refused(now) || now < self.until
    }

    /// Whether a sign-on was refused in the last minute.
    fn was_refused(&self, now: u64) -> bool
        ensures { result ≡ is_recent now self.now.refused }
    {
        match self.refused {
            Some(moment) => now.saturating_sub(moment) < MINUTE,
            None => false,
        }
    }

    /// A connection ended without a session.
    pub(crate) fn after_end(self, was_refused: bool, now: u64) -> Remembered
        ensures { result ≡ after_end was_refused now self }
    {
        let pause = self.pause_after(now);
        let until = now.saturating_add(pause);
        if was_refused {
            Remembered {
                address: self.address,
                had_session: self.had_session,
                refusals: self.refusals.saturating_add(1),
                refused: Some(now),
                pause,
                until,
            }
        } else {
            Remembered {
                pause,
                until,
                ..self
            }
        }
    }

    /// How long the next pause is: twice the last, unless that ended a minute ago.
    fn pause_after(&self, now: u64) -> u64
        ensures { result ≡ pause_after now self.now }
    {
        if now.saturating_sub(self.until) < MINUTE {
            self.pause
                .saturating_mul(2)
                .max(FIRST_PAUSE)
                .min(LONGEST_PAUSE)
        } else {
            FIRST_PAUSE
        }
    }

    /// A session came up.
    pub(crate) fn after_session(self) -> Remembered
        ensures { result ≡ after_session self }
    {
        Remembered {
            had_session: true,
            pause: 0,
            until: 0,
            ..self
        }
    }
}
