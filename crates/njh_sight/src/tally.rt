//! What is counted of a line's files and commands since the service began.

ghost use Rattle.std.specs.Prelude.{◌≡◌, ◌≤◌, ◌<◌, length};
ghost use Rattle.njh_hub.specs.WholeHub.{part};
ghost use Rattle.njh_spool.specs.CustomerSpool.{used_blocks};
ghost use Rattle.njh_sight.specs.Tally.{answer_counted, answers_counted, coming_counted, counted, is_answer, no_tally};
ghost use Rattle.njh_sight.specs.Tally.{plus, refusal_by_number, refusal_counted, refusal_told, refusals_with};
ghost use Rattle.njh_sight.specs.Tally.{room_refusal, turned_away, went_out, with_commands, came_in};

use crate::steps::byte_at;
use njh_block::Rcb;
use njh_hub::Hub;
use njh_log::{LogEvent, NoticeLine};
use njh_spool::FileId;

/// The RCBs of the answers to a peer: permission, refusal, completion (IBM SC23-0070,
/// "Multileaving").
const PERMISSION: u8 = 0xA0;

const REFUSAL: u8 = 0xB0;

const COMPLETION: u8 = 0xC0;

/// Where a text's records begin: behind DLE, STX, the BCB and the two bytes of the FCS.
const RECORDS: u8 = 5;

/// How many bytes an answer takes.
const ANSWER: u8 = 3;

/// How many answers wait on a line at most.
const ANSWERS: u8 = 32;

/// How many streams of each kind a line has at most.
const OF_A_KIND: u8 = 4;

/// Why the hub refused a file.
#[derive(Clone, Copy, Debug, Drop, PartialEq, Eq)]
pub enum FileRefusal {
    /// Its customer has as many files as it may have.
    Files,
    /// Its customer's files take as many blocks as they may take.
    Quota,
    /// Its node has no route.
    Route,
    /// It goes to the hub itself, or back, or reads as no file; or its line has no such stream.
    Other,
}

/// How many files the hub refused on a line, by why. Each count stays at the greatest `u64`.
#[derive(Clone, Copy, Drop)]
pub struct FileRefusals {
    /// Their customer had as many files as it may have.
    pub files: u64,
    /// Their customer's files took as many blocks as they may take.
    pub quota: u64,
    /// Their nodes had no route.
    pub route: u64,
    /// All others.
    pub other: u64,
}

impl FileRefusals {
    /// One more.
    fn add(&mut self, why: FileRefusal)
        ensures { self.new ≡ refusals_with why self.old }
    {
        match why {
            FileRefusal::Files => self.files = plus(self.files, 1),
            FileRefusal::Quota => self.quota = plus(self.quota, 1),
            FileRefusal::Route => self.route = plus(self.route, 1),
            FileRefusal::Other => self.other = plus(self.other, 1),
        }
    }
}

/// What was counted of a line since the service began. Each count stays at the greatest `u64`.
#[derive(Clone, Copy, Drop)]
pub struct Tally {
    /// Files that came whole.
    pub files_in: u64,
    /// Their records, but of those that left in the step in which they came.
    pub records_in: u64,
    /// Files that went whole.
    pub files_out: u64,
    /// Their records.
    pub records_out: u64,
    /// Files that were coming and aren't kept, of which it isn't known that the hub refused them.
    pub cut_off: u64,
    /// Files that the peer refused.
    pub returned: u64,
    /// Files that the hub refused.
    pub refused: FileRefusals,
    /// Commands of users that came and were carried out.
    pub commands: u64,
}

/// What is known of a line as a block goes out on it.
#[derive(Clone, Copy, Drop)]
pub struct Answering {
    /// How many streams of each kind it has; four at most count.
    pub streams: u8,
    /// Why a file isn't let in for which there is no room.
    pub why: FileRefusal,
}

impl Tally {
    /// That of a line on which nothing happened yet.
    pub fn none() -> Tally
        ensures { result ≡ no_tally }
    {
        Tally {
            files_in: 0,
            records_in: 0,
            files_out: 0,
            records_out: 0,
            cut_off: 0,
            returned: 0,
            refused: FileRefusals {
                files: 0,
                quota: 0,
                route: 0,
                other: 0,
            },
            commands: 0,
        }
    }

    /// This was told of the line.
    pub fn note(&mut self, event: LogEvent)
        ensures { self.new ≡ counted event self.old }
    {
        match event {
            LogEvent::FileIn(line) => self.come(line.records),
            LogEvent::FileHeld(line) => self.come(line.records),
            LogEvent::FileLeft(_) => self.come(0),
            LogEvent::FileOut(line) => self.go(line.records),
            LogEvent::FileRefused(_) => self.returned = plus(self.returned, 1),
            LogEvent::ComingRefused(_, notice) => self.refuse(refusal_told(notice)),
            LogEvent::ComingCutOff(_) => self.cut_off = plus(self.cut_off, 1),
            _ => {}
        }
    }

    /// So many commands of users were carried out.
    pub fn note_commands(&mut self, commands: u64)
        ensures { self.new ≡ with_commands commands self.old }
    {
        self.commands = plus(self.commands, commands);
    }

    /// A block went out that didn't before: counts the requests for files that the answers in front
    /// of it refuse. What a refusal says of a stream on which a file came, as one of these did, was
    /// told by itself.
    pub fn note_block(&mut self, frame: &[u8], coming: &[Option<FileId>], known: Answering)
        ensures { self.new ≡ answers_counted 32 frame.now coming.now known self.old }
    {
        count_answers(self, frame, coming, known, ANSWERS);
    }

    /// A file of so many records came whole.
    fn come(&mut self, records: u32)
        ensures { self.new ≡ came_in records self.old }
    {
        self.files_in = plus(self.files_in, 1);
        self.records_in = plus(self.records_in, u64::from(records));
    }

    /// A file of so many records went whole.
    fn go(&mut self, records: u32)
        ensures { self.new ≡ went_out records self.old }
    {
        self.files_out = plus(self.files_out, 1);
        self.records_out = plus(self.records_out, u64::from(records));
    }

    /// The hub refused a file.
    fn refuse(&mut self, why: FileRefusal)
        ensures { self.new ≡ turned_away why self.old }
    {
        self.refused.add(why);
    }
}

/// So many more.
fn plus(count: u64, more: u64) -> u64
    ensures { result ≡ plus count more }
{
    count.saturating_add(more)
}

/// Why the hub refused a file, by what it told the owner.
fn refusal_told(notice: Option<NoticeLine>) -> FileRefusal
    ensures { result ≡ refusal_told notice }
{
    match notice {
        Some(notice) => refusal_by_number(byte_at(&notice.text, 4), byte_at(&notice.text, 5)),
        None => FileRefusal::Other,
    }
}

/// The same by the last two digits of the number of what it told, in EBCDIC: NJH020 of a node
/// without a route, NJH021 of a full quota.
fn refusal_by_number(tens: u8, ones: u8) -> FileRefusal
    ensures { result ≡ refusal_by_number tens ones }
{
    if tens == 0xF2 && ones == 0xF0 {
        FileRefusal::Route
    } else if tens == 0xF2 && ones == 0xF1 {
        FileRefusal::Quota
    } else {
        FileRefusal::Other
    }
}

/// Why a customer's file isn't let in for which there is no room.
pub fn room_refusal(hub: &Hub, customer: u16) -> FileRefusal
    ensures { customer < length hub.now → result ≡ room_refusal (used_blocks (part customer hub.now).customer.spool)
        (part customer hub.now).customer.entry.quota }
{
    let used = hub.used(customer).unwrap_or(0);
    let quota = hub.quota(customer).unwrap_or(0);
    refusal_by_blocks(used, quota)
}

fn refusal_by_blocks(used: u32, quota: u32) -> FileRefusal
    ensures { result ≡ room_refusal used quota }
{
    if used < quota {
        FileRefusal::Files
    } else {
        FileRefusal::Quota
    }
}

/// Counts what the last answers say that may stand in front of a block, so many.
#[tactic(auto, using(crate::proofs::TallyLaws::none_left, crate::proofs::TallyLaws::none_more, crate::proofs::TallyLaws::one_more))]
fn count_answers(
    tally: &mut Tally,
    frame: &[u8],
    coming: &[Option<FileId>],
    known: Answering,
    left: u8,
)
    requires { left ≤ 32 }
    ensures { tally.new ≡ answers_counted left frame.now coming.now known tally.old }
{
    if left == 0 {
        return;
    }
    let place = usize::from(RECORDS + ANSWER * (ANSWERS - left));
    let rcb = byte_at(frame, place);
    if !is_answer(rcb) {
        return;
    }
    let named = byte_at(frame, place + 1);
    count_answer(tally, rcb, named, coming, known);
    count_answers(tally, frame, coming, known, left - 1);
}

fn is_answer(rcb: u8) -> bool
    ensures { result ≡ is_answer rcb }
{
    rcb == PERMISSION || rcb == REFUSAL || rcb == COMPLETION
}

/// Counts an answer that names a stream.
fn count_answer(tally: &mut Tally, rcb: u8, named: u8, coming: &[Option<FileId>], known: Answering)
    ensures { tally.new ≡ answer_counted rcb named coming.now known tally.old }
{
    if rcb == REFUSAL {
        count_refusal(tally, named, coming, known);
    }
}

/// Counts a refusal that names a stream.
fn count_refusal(tally: &mut Tally, named: u8, coming: &[Option<FileId>], known: Answering)
    ensures { tally.new ≡ refusal_counted named coming.now known tally.old }
{
    let named = Rcb { byte: named };
    match named.stream(known.streams.min(OF_A_KIND)) {
        Some(stream) => count_coming(tally, usize::from(stream.place()), coming, known.why),
        None => tally.refuse(FileRefusal::Other),
    }
}

/// Counts a refusal on the stream of a place: of a request if no file came there before.
fn count_coming(tally: &mut Tally, place: usize, coming: &[Option<FileId>], why: FileRefusal)
    ensures { tally.new ≡ coming_counted place coming.now why tally.old }
{
    match coming.get(place) {
        Some(None) => tally.refuse(why),
        Some(Some(_)) => {}
        None => {}
    }
}
