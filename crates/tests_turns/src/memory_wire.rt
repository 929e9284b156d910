//! A wire in memory.

ghost use Rattle.std.specs.Prelude.{◌≡◌, ◌≢◌, ◌≤◌, length};
ghost use Rattle.njh_hub.specs.Sent.{IsCounted};
ghost use Rattle.njh_turns.specs.Wires.{IsReading};

use arrayvec::ArrayVec;
use njh_turns::{Reading, Wire, WireFault};

/// A peer makes contact, LYON signs on, and ANNA there asks for LIST.
static ASKED: [u8; 93] =
    *b"\x01\x2d\x10\x02\xa0\x8f\xcf\xf0\xc9\x29\xd3\xe8\xd6\xd5\x40\x40\x40\x40\x01\x00\x00\x00\x00\x00\
    \x00\x04\x00\x40\x40\x40\x40\x40\x40\x40\x40\x40\x40\x40\x40\x40\x40\x40\x40\x00\x00\x00\x00\x00\
    \x00\x10\x26\x10\x02\x80\x8f\xcf\x9a\x80\xca\xa0\x77\x00\x04\xc2\xe4\xd9\xc5\xc1\xe4\x82\xc5\x00\
    \xc1\xd5\xd5\xc1\x84\xc4\xd3\xe8\xd6\xd5\x84\xc5\x00\xd3\xc9\xe2\xe3\x00\x00\x10\x26";

/// A peer makes contact, OSLO signs on, and ANNA there asks LYON for LIST.
static ASKED_LYON: [u8; 91] =
    *b"\x01\x2d\x10\x02\xa0\x8f\xcf\xf0\xc9\x29\xd6\xe2\xd3\xd6\x40\x40\x40\x40\x01\x00\x00\x00\x00\x00\
    \x00\x04\x00\x40\x40\x40\x40\x40\x40\x40\x40\x40\x40\x40\x40\x40\x40\x40\x40\x00\x00\x00\x00\x00\
    \x00\x10\x26\x10\x02\x80\x8f\xcf\x9a\x80\xc8\xa0\x77\x00\x04\xd3\xe8\xd6\xd5\x84\xc5\x00\xc1\xd5\
    \xd5\xc1\x84\xc4\xd6\xe2\xd3\xd6\x84\xc5\x00\xd3\xc9\xe2\xe3\x00\x00\x10\x26";

/// Answers what its steps say, and keeps the frames that it sends, one after the other.
#[derive(Drop)]
pub struct MemoryWire {
    steps: &'static str,
    sent: ArrayVec<u8, 256>,
    reads: u32,
    writes: u32,
    broken_write: u32,
    failures: u64,
}

impl MemoryWire {
    /// A wire with these steps: `contact`, `sign-on`, `list`, or `all` three in one; `half` of the
    /// sign-on; `begun`, the beginning of the list, and its `end`; `ack0`; `oslo`, all that OSLO
    /// says; `pending`, `closed` and `absent`; `fails`. Any other word is a quiet, or the answer to
    /// a prompt, and so is what comes after the last. The write of this number fails, from 1 on; 0
    /// is none.
    pub(crate) fn new(steps: &'static str, broken_write: u32) -> MemoryWire {
        MemoryWire {
            steps,
            sent: ArrayVec::new(),
            reads: 0,
            writes: 0,
            broken_write,
            failures: 0,
        }
    }

    /// All frames that were sent.
    pub(crate) fn sent(&self) -> &[u8] {
        self.sent.as_slice()
    }

    /// How often it was read.
    pub(crate) fn reads(&self) -> u32 {
        self.reads
    }

    /// How many frames it was to send.
    pub(crate) fn writes(&self) -> u32 {
        self.writes
    }

    /// The next step.
    fn step(&mut self) -> &'static str
        ensures { self.new.failures ≡ self.old.failures }
    {
        let (step, rest) = self.steps.split_once(" ").unwrap_or((self.steps, ""));
        self.steps = rest;
        self.reads = self.reads.saturating_add(1);
        step
    }

    /// Counts a failure.
    fn fail(&mut self)
        ensures counts { self.old.failures ≤ self.new.failures }
        ensures counted { IsCounted self.old.failures self.new.failures }
    {
        self.failures = self.failures.saturating_add(1);
    }
}

/// Puts bytes at the front of a buffer.
fn give(bytes: &[u8], into: &mut [u8]) -> Reading
    ensures within { IsReading (length into.new) result }
    ensures unprompted { result ≢ Reading.Prompted }
{
    let count = bytes.len().min(into.len());
    into[..count].copy_from_slice(&bytes[..count]);
    if count == 0 {
        Reading::Quiet
    } else {
        Reading::Bytes(count)
    }
}

/// What a step that doesn't fail answers.
fn answer(step: &str, into: &mut [u8]) -> Reading
    ensures within { IsReading (length into.new) result }
    ensures unprompted { result ≢ Reading.Prompted }
{
    match step {
        "oslo" => give(&ASKED_LYON, into),
        "ack0" => give(b"\x10\x70", into),
        "begun" => give(&ASKED[51..60], into),
        "end" => give(&ASKED[60..], into),
        "all" => give(&ASKED, into),
        "contact" => give(&ASKED[..2], into),
        "sign-on" => give(&ASKED[2..51], into),
        "half" => give(&ASKED[2..20], into),
        "list" => give(&ASKED[51..], into),
        "pending" => Reading::Pending,
        "closed" => Reading::Closed,
        "absent" => Reading::Absent,
        _ => Reading::Quiet,
    }
}

impl Wire for MemoryWire {
    ghost use Rattle.std.specs.Prelude.{⊤};

    // What passes is compared when a test runs.
    ghost says = { record {
      passed = λ before after acts. ⊤;
      withheld = λ before after. ⊤;
      count = λ wire. wire.failures;
    } };

    ghost none = { λ s. tt };

    ghost more = { λ a b c xs ys first then. tt };

    ghost withheld_none = { λ s. tt };

    ghost withheld_more = { λ a b c first then. tt };

    fn failures(&self) -> u64 {
        self.failures
    }

    fn read(&mut self, into: &mut [u8], is_prompted: bool) -> Result<Reading, WireFault> {
        let step = self.step();
        if step == "fails" {
            self.fail();
            return Err(WireFault);
        }
        match answer(step, into) {
            Reading::Quiet if is_prompted => Ok(Reading::Prompted),
            reading => Ok(reading),
        }
    }

    fn write(&mut self, frame: &[u8]) -> Result<(), WireFault> {
        self.writes = self.writes.saturating_add(1);
        if self.writes != self.broken_write && self.sent.try_extend_from_slice(frame).is_ok() {
            return Ok(());
        }
        self.fail();
        Err(WireFault)
    }
}
