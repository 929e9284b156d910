//! Streams from the hub.

ghost use Rattle.std.specs.Prelude.{◌≡◌, ◌+◌, ◌<◌, ◌^◌, [], length, slice_set, IsSome, IsNone};
ghost use Rattle.std.specs.Option.{option_map};
ghost use Rattle.njh_spool.specs.Spools.{spool_at};
ghost use Rattle.njh_stream.specs.Sending as sending;

use njh_record::Record;
use njh_spool::{FileId, Spool, State};

/// What a stream from the hub is about. A number that names no whole file of the customer is at its
/// end, and nothing is done to it.
#[derive(Clone, Copy, Debug, PartialEq, Eq)]
pub enum Sender {
    /// Nothing.
    Idle,
    /// The peer was asked whether this file may be sent.
    Requested(FileId),
    /// This file is being sent, and its record at this place, counted from 0, is next.
    Sending(FileId, u32),
    /// The end of this file was sent, and the peer hasn't said yet that it has it.
    EofSent(FileId),
    /// The peer has to be told that a file is given up.
    Aborting,
}

impl Sender {
    /// The peer permits the file (A0): its first record is next.
    pub fn granted(&mut self)
        ensures { self.new ≡ sending.after_grant self.old }
    {
        let was = *self;
        match was {
            Sender::Requested(file) => *self = Sender::Sending(file, 0),
            Sender::Idle | Sender::Sending(_, _) | Sender::EofSent(_) | Sender::Aborting => {}
        }
    }

    /// The peer refuses the file or gives it up (B0): the file is Refused.
    pub fn refused(&mut self, customer: u16, spool: &mut Spool)
        requires { customer < length spool.old }
        ensures sender { self.new ≡ (sending.after_refusal self.old (spool_at customer spool.old)).sender }
        ensures spool { spool.new
            ≡ slice_set spool.old customer (sending.after_refusal self.old (spool_at customer spool.old)).spool }
    {
        let was = *self;
        match was {
            Sender::Requested(file) | Sender::EofSent(file) => {
                spool.set_state(customer, file, State::Refused).ok();
                *self = Sender::Idle;
            }
            Sender::Sending(file, _) => {
                spool.set_state(customer, file, State::Refused).ok();
                *self = Sender::Aborting;
            }
            Sender::Idle | Sender::Aborting => {}
        }
    }

    /// The peer has the whole file (C0): it leaves the spool.
    pub fn completed(&mut self, customer: u16, spool: &mut Spool)
        requires { customer < length spool.old }
        ensures sender { self.new ≡ (sending.after_completion self.old (spool_at customer spool.old)).sender }
        ensures spool { spool.new
            ≡ slice_set spool.old customer (sending.after_completion self.old (spool_at customer spool.old)).spool }
    {
        let was = *self;
        match was {
            Sender::EofSent(file) => {
                spool.remove(customer, file).ok();
                *self = Sender::Idle;
            }
            Sender::Idle | Sender::Requested(_) | Sender::Sending(_, _) | Sender::Aborting => {}
        }
    }

    /// The line's session ended: the file may go again.
    pub fn ended(&mut self, customer: u16, spool: &mut Spool)
        requires { customer < length spool.old }
        ensures sender { self.new ≡ Sender.Idle }
        ensures spool { spool.new
            ≡ slice_set spool.old customer (sending.spool_after_session self.old (spool_at customer spool.old)) }
    {
        if let Some(file) = self.file() {
            spool.set_state(customer, file, State::Ready).ok();
        }
        *self = Sender::Idle;
    }

    /// Its file was removed by a command.
    pub fn abort(&mut self)
        ensures { self.new ≡ sending.after_abort self.old }
    {
        match *self {
            Sender::Requested(_) | Sender::Sending(_, _) => *self = Sender::Aborting,
            Sender::EofSent(_) => *self = Sender::Idle,
            Sender::Idle | Sender::Aborting => {}
        }
    }

    /// The file that it is about.
    pub fn file(&self) -> Option<FileId>
        ensures { result ≡ sending.file_in self.now }
    {
        match *self {
            Sender::Requested(file) | Sender::Sending(file, _) | Sender::EofSent(file) => Some(
                file,
            ),
            Sender::Idle | Sender::Aborting => None,
        }
    }

    /// Puts the record that is next in place of what `into` held, gives its SRCB and moves on by
    /// one. Where the end of file is next, or nothing is being sent, it gives none and `into` is
    /// empty; after the end of file the stream waits for the peer to say that it has the file.
    pub fn next(&mut self, customer: u16, spool: &mut Spool, into: &mut Record) -> Option<u8>
        requires { customer < length spool.old }
        ensures sender { self.new ≡ (sending.next_of self.old (spool_at customer spool.old)).sender }
        ensures stored { option_map (λ srcb. record { srcb = srcb; bytes = into.new.items }) result
            ≡ (sending.next_of self.old (spool_at customer spool.old)).stored }
        ensures empty { IsNone result → into.new.items ≡ [] }
        ensures spool { spool.new ≡ spool.old }
    {
        let was = *self;
        match was {
            Sender::Sending(file, place) => match read_next(customer, file, place, spool, into) {
                Some(srcb) => {
                    *self = Sender::Sending(file, place + 1);
                    Some(srcb)
                }
                None => {
                    *self = Sender::EofSent(file);
                    None
                }
            },
            Sender::Idle | Sender::Requested(_) | Sender::EofSent(_) | Sender::Aborting => {
                into.clear();
                None
            }
        }
    }
}

/// Puts a record of a whole file in place of what `into` held, and gives its SRCB; none past the
/// last one.
fn read_next(
    customer: u16,
    file: FileId,
    place: u32,
    spool: &mut Spool,
    into: &mut Record,
) -> Option<u8>
    requires { customer < length spool.old }
    ensures stored { option_map (λ srcb. record { srcb = srcb; bytes = into.new.items }) result
        ≡ sending.record_at file place (spool_at customer spool.old) }
    ensures before { IsSome result → place + 1 < 2 ^ 32 }
    ensures empty { IsNone result → into.new.items ≡ [] }
    ensures spool { spool.new ≡ spool.old }
{
    into.clear();
    spool.state(customer, file).ok()?;
    let records = spool.records(customer, file).ok()?;
    if place >= records {
        return None;
    }
    spool.read_on(customer, file, place, into).ok()
}
