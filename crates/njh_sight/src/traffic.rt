//! What was noted of a line, and when it is prompted because of that.

ghost use Rattle.std.specs.Prelude.{◌≡◌, ◌-◌, ◌<◌, ◌^◌, ◌↔◌, ◌&&◌, IsTrue};
ghost use Rattle.njh_hub.specs.Resting.{HasNext};
ghost use Rattle.njh_sight.specs.Prompting.{IsPrompted, has_text, is_recent, is_same_bcb, is_soon, moves_others};
ghost use Rattle.njh_sight.specs.Prompting.{held_until, is_silent, may_prompt, no_traffic, noted, paid_after, soon};
ghost use Rattle.njh_sight.specs.Prompting.{waits_for_peer};

use njh_hub::Hub;
use njh_table::LineId;

/// For how long after a text its line is prompted soon, in milliseconds.
const BUSY: u64 = 2_000;

/// After how long a silence that is, in milliseconds.
const PAUSE: u64 = 20;

/// For how many milliseconds a line pays for a block that it was asked for out of its rest.
const COST: u64 = 5;

/// For how many milliseconds it may be in debt: 64 blocks, and then one in five milliseconds.
const DEBT: u64 = 320;

/// How a line was at the end of its turn.
#[derive(Clone, Copy, Drop)]
pub struct Sight {
    /// Whether its session was up.
    pub is_up: bool,
    /// The count of the hub's next block, modulo 16.
    pub next_count: u8,
    /// The BCB of the last block of the peer's that was acted on.
    pub last_bcb: Option<u8>,
    /// Whether it rested, and its wire was free to send.
    pub rests: bool,
    /// Whether bytes waited to go out on its wire.
    pub waits: bool,
    /// Since when its wire was silent, on the service's clock; `u64::MAX` before its first turn.
    pub begun: u64,
    /// Whether its peer may speak unasked, as one over TCP/IP does.
    pub unasked: bool,
}

/// What was noted of a line.
#[derive(Clone, Copy, Drop)]
pub struct Traffic {
    /// How it was at the end of the last turn in which it was visited.
    pub seen: Sight,
    /// When a text was last taken or sent on it, on the service's clock; none if none was.
    pub text: Option<u64>,
    /// Until when it has paid for the blocks that it sent out of its rest, on the service's clock.
    pub paid: u64,
}

impl Traffic {
    /// That of a line that has had no turn.
    pub fn none() -> Traffic
        ensures { result ≡ no_traffic }
    {
        Traffic {
            seen: Sight {
                is_up: false,
                next_count: 0,
                last_bcb: None,
                rests: false,
                waits: false,
                begun: u64::MAX,
                unasked: false,
            },
            text: None,
            paid: 0,
        }
    }

    /// Notes how a line is at the end of its turn. Answers whether something came of the turn that
    /// may give a line of its customer something to send.
    pub fn note(&mut self, now: Sight, moment: u64) -> bool
        ensures noted { self.new ≡ noted self.old now moment }
        ensures moves { result ≡ moves_others self.old.seen now }
    {
        let was = self.seen;
        let has_text = has_text(was, now);
        if has_text {
            self.text = Some(moment);
        }
        if was.rests && now.next_count != was.next_count {
            self.paid = paid_after(self.paid, moment);
        }
        self.seen = now;
        has_text || was.is_up != now.is_up || (was.waits && !now.waits)
    }

    /// Whether the line, if it rests, is prompted: another line of its customer gave it something
    /// to send, and it doesn't owe for too many blocks of this kind; or texts were on it of late
    /// and its wire is silent for a while, unless its peer may speak unasked. Nothing of another
    /// customer is in it.
    pub fn prompts(&self, hub: &Hub, id: LineId, now: u64) -> bool
        ensures prompted { IsTrue result ↔ IsPrompted self.now hub.now id now }
        ensures unasked { IsTrue self.now.seen.unasked → IsTrue result → HasNext hub.now id }
    {
        self.is_soon(now) || (self.may_prompt(now) && hub.has_next(id))
    }

    /// Whether the line is to be visited at once: it rests, its wire is free to send, it doesn't
    /// owe for too many blocks, and it has something to send.
    pub fn wakes(&self, hub: &Hub, id: LineId, now: u64) -> bool
        ensures { IsTrue result ↔ (IsTrue (self.now.seen.rests && may_prompt self.now now) × HasNext hub.now id) }
    {
        (self.seen.rests && self.may_prompt(now)) && hub.has_next(id)
    }

    /// Until when the line, which rests, isn't asked for what it has to send, since it owes for too
    /// many blocks; `u64::MAX` if it may be asked.
    pub fn held_until(&self, now: u64) -> u64
        ensures { result ≡ held_until self.now now }
    {
        if self.seen.rests && !self.may_prompt(now) {
            self.paid.saturating_sub(DEBT)
        } else {
            u64::MAX
        }
    }

    /// Whether the line doesn't owe for too many blocks.
    fn may_prompt(&self, now: u64) -> bool
        ensures { result ≡ may_prompt self.now now }
    {
        self.paid <= now.saturating_add(DEBT)
    }

    /// When the line wants to be visited because texts were on it of late; `u64::MAX` if it
    /// doesn't, as if its peer may speak unasked. It is then prompted, if nothing comes before.
    pub fn soon(&self, now: u64) -> u64
        ensures soon { result ≡ soon self.now now }
        ensures later { now < 2 ^ 64 - 1 → now < result }
    {
        let moment = self.seen.begun.saturating_add(PAUSE);
        if self.waits_for_peer() && now < moment && self.is_recent(moment) {
            moment
        } else {
            u64::MAX
        }
    }

    /// Whether the line rests, and its peer can't speak unasked.
    fn waits_for_peer(&self) -> bool
        ensures { result ≡ waits_for_peer self.now.seen }
    {
        self.seen.rests && !self.seen.unasked
    }

    /// Whether texts were on the line of late, and its wire is silent for a while.
    fn is_soon(&self, now: u64) -> bool
        ensures { result ≡ is_soon self.now now }
    {
        !self.seen.unasked && self.is_silent(now)
    }

    /// Whether it is so, whoever its peer is.
    fn is_silent(&self, now: u64) -> bool
        ensures { result ≡ is_silent self.now now }
    {
        self.is_recent(now) && now.saturating_sub(self.seen.begun) >= PAUSE
    }

    /// Whether a text was taken or sent of late.
    fn is_recent(&self, now: u64) -> bool
        ensures { result ≡ is_recent self.now.text now }
    {
        match self.text {
            Some(moment) => now.saturating_sub(moment) < BUSY,
            None => false,
        }
    }
}

/// Until when a line has paid once it sent a block out of its rest.
fn paid_after(paid: u64, moment: u64) -> u64
    ensures { result ≡ paid_after paid moment }
{
    let begun = if paid < moment { moment } else { paid };
    let until = begun.saturating_add(COST);
    until.min(moment.saturating_add(DEBT + COST))
}

/// Whether a text was taken or sent between two sights of a line.
fn has_text(was: Sight, now: Sight) -> bool
    ensures { result ≡ has_text was now }
{
    now.next_count != was.next_count || !is_same_bcb(was.last_bcb, now.last_bcb)
}

/// Whether no further block was acted on.
fn is_same_bcb(last: Option<u8>, bcb: Option<u8>) -> bool
    ensures { result ≡ is_same_bcb last bcb }
{
    match (last, bcb) {
        (None, None) => true,
        (None, Some(_)) => false,
        (Some(_), None) => false,
        (Some(last), Some(bcb)) => last == bcb,
    }
}
