//! Streams to the hub.

ghost use Rattle.std.specs.Prelude.{◌≡◌, ℕ, ◌<◌, ◌≤◌, length, slice_set, None, Some};
ghost use Rattle.std.specs.Option.{option_map};
ghost use Rattle.njh_block.specs.Codes.{kind_of};
ghost use Rattle.njh_record.specs.declared.Kind.{Kind};
ghost use Rattle.njh_spool.specs.Spools.{spool_at};
ghost use Rattle.njh_table.specs.Entries.{CustomerEntry};
ghost use Rattle.njh_table.specs.TableFile.{entry_of};
ghost use Rattle.njh_stream.specs.Arrivals.{answer_on, arrival_of, received_on, IsShort};
ghost use Rattle.njh_stream.specs.Receiving.{received_arrival, received_end, received_request, without_open};
ghost use Rattle.njh_stream.specs.Receiving.{Data, Long};
ghost use Rattle.njh_stream.specs.Steps.{IsStepOf};
ghost use Rattle.njh_stream.specs.code.Agreement.{Agrees, ends_whole};
ghost use Rattle.njh_stream.specs.code.Classes.{IsKept};
ghost use Rattle.njh_stream.specs.code.Verdicts.{IsAfter, IsUnread};

use crate::arrival::Arrival;
use crate::coming::{ComingFile, Origin, StreamRecord};
use crate::notice::Notice;
use crate::record_class::{RecordClass, class_of};
use crate::storing::{append, cancel, store, store_unread};
use njh_block::{Answer, ControlRcb, Stream};
use njh_ebcdic::FIELD;
use njh_header::srcb;
use njh_record::Kind;
use njh_spool::{FileId, Spool};
use njh_table::{LineId, Tables};

/// How far a file that comes in has got.
#[derive(Clone, Copy, Debug, PartialEq, Eq)]
pub enum Progress {
    /// No record has come.
    Beginning,
    /// Of an OUT file: its job header and continuations of that, and nothing else.
    JobHeader,
    /// The header that says where the file goes has come.
    Placed {
        /// The node that it goes to, as the header's field has it.
        node: [u8; FIELD],
        /// The SRCB of the last record.
        last: u8,
    },
}

impl Progress {
    /// Whether the last record that came is a trailer.
    fn is_whole(self) -> bool
        ensures { result ≡ ends_whole self }
    {
        match self {
            Progress::Placed { last, .. } => last == srcb::JOB_TRAILER,
            Progress::Beginning | Progress::JobHeader => false,
        }
    }
}

/// What a stream to the hub is about.
#[derive(Clone, Copy, Debug, PartialEq, Eq)]
pub enum Receiver {
    /// Nothing: all but requests is ignored.
    Idle,
    /// A file comes.
    Open {
        /// The partial file that its records go to.
        file: FileId,
        /// What has come of it.
        progress: Progress,
    },
    /// A file was given up, and the rest of it is ignored up to its end.
    Draining,
}

/// What an arrival asks for.
#[derive(Debug, Drop)]
pub struct StreamStep {
    /// The answer to the peer.
    pub answer: Option<Answer>,
    /// What the owner of the file is told.
    pub notice: Option<Notice>,
}

/// What an arrival leaves: the stream, the answer to the peer, and what the owner of the file is
/// told.
#[derive(Drop)]
pub(crate) struct After {
    pub receiver: Receiver,
    pub answer: Option<ControlRcb>,
    pub notice: Option<Notice>,
}

impl After {
    /// Nothing is answered.
    fn silent(receiver: Receiver) -> Self
        ensures receiver { result.receiver ≡ receiver }
        ensures answer { result.answer ≡ None }
        ensures notice { result.notice ≡ None }
    {
        After {
            receiver,
            answer: None,
            notice: None,
        }
    }

    /// Only the peer is answered.
    fn answered(receiver: Receiver, answer: ControlRcb) -> Self
        ensures receiver { result.receiver ≡ receiver }
        ensures answer { result.answer ≡ Some answer }
        ensures notice { result.notice ≡ None }
    {
        After {
            receiver,
            answer: Some(answer),
            notice: None,
        }
    }
}

impl Receiver {
    /// One arrival on a stream of a line. The stream, the customer's files, the answer to the peer
    /// and what the owner of the file is told are those of the definition. An answer carries the
    /// stream's RCB.
    pub fn step(
        &mut self,
        arrival: Arrival<'_>,
        stream: Stream,
        id: LineId,
        tables: &Tables,
        spool: &mut Spool,
    ) -> StreamStep
        requires known { id.customer < length tables.now.customers }
        requires spooled { id.customer < length spool.old }
        requires short { IsShort (arrival_of arrival) }
        requires agrees { Agrees (kind_of stream) self.old (spool_at id.customer spool.old) }
        ensures step { IsStepOf (received_on tables.now spool.old id stream self.old (arrival_of arrival.entry))
            stream id.customer spool.old spool.new self.new result }
        ensures agrees { Agrees (kind_of stream) self.new (spool_at id.customer spool.new) }
    {
        let receiver = *self;
        match receive_unread(receiver, &arrival, stream.kind(), id.customer, spool) {
            Some(after) => {
                *self = after;
                StreamStep {
                    answer: None,
                    notice: None,
                }
            }
            None => {
                let customer = tables.customer(id.customer);
                self.take(arrival, stream, &Origin { id, customer }, spool)
            }
        }
    }

    /// As `step`, with room for a notice.
    fn take(
        &mut self,
        arrival: Arrival<'_>,
        stream: Stream,
        from: &Origin<'_>,
        spool: &mut Spool,
    ) -> StreamStep
        requires spooled { from.now.id.customer < length spool.old }
        requires short { IsShort (arrival_of arrival) }
        requires agrees { Agrees (kind_of stream) self.old (spool_at from.now.id.customer spool.old) }
        ensures { IsStepOf (received_arrival (entry_of from.now.customer.now) from.now.id.number (kind_of stream)
            self.old (arrival_of arrival.entry) (spool_at from.now.id.customer spool.old))
            stream from.now.id.customer spool.old spool.new self.new result }
    {
        let receiver = *self;
        let after = receive(receiver, arrival, stream.kind(), from, spool);
        *self = after.receiver;
        StreamStep {
            answer: answer_of(after.answer, stream),
            notice: after.notice,
        }
    }
}

impl Receiver {
    /// The line's session ended: a file that is open is given up.
    pub fn end(&mut self, customer: u16, spool: &mut Spool)
        requires { customer < length spool.old }
        ensures receiver { self.new ≡ Receiver.Idle }
        ensures spool { spool.new ≡ slice_set spool.old customer (without_open self.old (spool_at customer spool.old)) }
    {
        let receiver = *self;
        give_up(receiver, customer, spool);
        *self = Receiver::Idle;
    }
}

/// The file of a stream that is open is given up.
fn give_up(receiver: Receiver, customer: u16, spool: &mut Spool)
    requires { customer < length spool.old }
    ensures { spool.new ≡ slice_set spool.old customer (without_open receiver (spool_at customer spool.old)) }
{
    match receiver {
        Receiver::Open { file, .. } => {
            spool.abandon(customer, file).ok();
        }
        Receiver::Idle | Receiver::Draining => {}
    }
}

/// An answer with a stream's RCB.
fn answer_of(answer: Option<ControlRcb>, stream: Stream) -> Option<Answer>
    ensures { result ≡ option_map (answer_on stream) answer }
{
    match answer {
        Some(rcb) => Some(Answer {
            rcb,
            stream: stream.rcb(),
        }),
        None => None,
    }
}

/// A record of which is known, without a look at its bytes, what it does: what the stream is about
/// then. Else none, and nothing is done.
fn receive_unread(
    receiver: Receiver,
    arrival: &Arrival<'_>,
    kind: Kind,
    customer: u16,
    spool: &mut Spool,
) -> Option<Receiver>
    requires spooled { customer < length spool.old }
    requires short { IsShort (arrival_of arrival.now) }
    requires agrees { Agrees kind receiver (spool_at customer spool.old) }
    ensures { IsUnread result spool.new spool.old customer (λ entry l. received_arrival entry l kind receiver
        (arrival_of arrival.now) (spool_at customer spool.old)) }
{
    match *arrival {
        Arrival::Record { srcb, bytes } => {
            let record = StreamRecord { srcb, bytes };
            store_unread(receiver, &record, kind, customer, spool)
        }
        Arrival::Request | Arrival::TooLong | Arrival::Abort => None,
    }
}

/// One arrival, by what the stream is about.
fn receive(
    receiver: Receiver,
    arrival: Arrival<'_>,
    kind: Kind,
    from: &Origin<'_>,
    spool: &mut Spool,
) -> After
    requires spooled { from.now.id.customer < length spool.old }
    requires short { IsShort (arrival_of arrival) }
    requires agrees { Agrees kind receiver (spool_at from.now.id.customer spool.old) }
    ensures { IsAfter result spool.new spool.old from.now.id.customer
        (received_arrival (entry_of from.now.customer.now) from.now.id.number kind receiver
        (arrival_of arrival.entry) (spool_at from.now.id.customer spool.old)) }
{
    let customer = from.id.customer;
    match arrival {
        Arrival::Request => {
            give_up(receiver, customer, spool);
            begin(customer, kind, spool)
        }
        Arrival::Record { srcb, bytes } => {
            let record = StreamRecord { srcb, bytes };
            receive_record(receiver, &record, kind, from, spool)
        }
        Arrival::TooLong => receive_too_long(receiver, customer, spool),
        Arrival::Abort => {
            give_up(receiver, customer, spool);
            After::silent(Receiver::Idle)
        }
    }
}

/// A record that is too long cancels the file that comes.
fn receive_too_long(receiver: Receiver, customer: u16, spool: &mut Spool) -> After
    requires { customer < length spool.old }
    ensures { (entry : CustomerEntry) (l : ℕ) (kind : Kind) → IsAfter result spool.new spool.old customer
        (received_arrival entry l kind receiver Long (spool_at customer spool.old)) }
{
    match receiver {
        Receiver::Open { file, .. } => cancel(customer, file, None, None, spool),
        Receiver::Idle | Receiver::Draining => After::silent(receiver),
    }
}

/// A record, by its class.
fn receive_record(
    receiver: Receiver,
    next: &StreamRecord<'_>,
    kind: Kind,
    from: &Origin<'_>,
    spool: &mut Spool,
) -> After
    requires spooled { from.now.id.customer < length spool.old }
    requires short { length next.now.bytes.now ≤ 256 }
    requires agrees { Agrees kind receiver (spool_at from.now.id.customer spool.old) }
    ensures { IsAfter result spool.new spool.old from.now.id.customer
        (received_arrival (entry_of from.now.customer.now) from.now.id.number kind receiver
        (Data next.now.srcb next.now.bytes.now) (spool_at from.now.id.customer spool.old)) }
{
    let customer = from.id.customer;
    spool.quota_holds(customer);
    match class_of(receiver, kind, next) {
        RecordClass::GoesBy(receiver) => After::silent(receiver),
        RecordClass::Ends(file) => close(customer, file, spool),
        RecordClass::Stored { file, progress } => {
            append(customer, file.number, progress, next, spool)
        }
        RecordClass::Judged(file) => store(from, file, next, spool),
    }
}

/// A new file begins, where the quota has room for one.
fn begin(customer: u16, kind: Kind, spool: &mut Spool) -> After
    requires { customer < length spool.old }
    ensures { IsAfter result spool.new spool.old customer (received_request kind (spool_at customer spool.old)) }
{
    match spool.begin(customer, kind) {
        Ok(file) => {
            let progress = Progress::Beginning;
            After::answered(Receiver::Open { file, progress }, ControlRcb::Permission)
        }
        Err(_) => After::answered(Receiver::Idle, ControlRcb::Refusal),
    }
}

/// A file ends: it is finished where it is whole, and given up otherwise.
fn close(customer: u16, file: ComingFile, spool: &mut Spool) -> After
    requires range { customer < length spool.old }
    requires kept { IsKept file (spool_at customer spool.old) }
    ensures { IsAfter result spool.new spool.old customer (received_end file.number (spool_at customer spool.old)) }
{
    if file.progress.is_whole() {
        spool.finish(customer, file.number).ok();
        After::answered(Receiver::Idle, ControlRcb::Completion)
    } else {
        spool.abandon(customer, file.number).ok();
        After::answered(Receiver::Idle, ControlRcb::Refusal)
    }
}
