//! Since when the streams of a line stand as they stand.

ghost use Rattle.std.specs.Prelude.{◌≡◌, false, None, replicate};
ghost use Rattle.njh_hub.specs.Views.{hub_line};
ghost use Rattle.njh_hub.specs.WholeHub.{part, HasLine};
ghost use Rattle.njh_sight.specs.Telling.{coming_at};
ghost use Rattle.njh_sight.specs.Stands.{coming_after, coming_records, drains_at, is_same_file, sender_at};
ghost use Rattle.njh_sight.specs.Stands.{AreComingStands, AreGoingStands, IsGoingStand};

use crate::streams::{STREAMS, coming_at};
use njh_hub::Hub;
use njh_spool::FileId;
use njh_stream::{Receiver, Sender};
use njh_table::LineId;

/// How a stream to the hub stands.
#[derive(Clone, Copy, Drop)]
pub struct ComingStand {
    /// The file that comes, if one does.
    pub file: Option<FileId>,
    /// Whether the rest of one that was given up is ignored.
    pub drains: bool,
    /// How many records came of the file.
    pub records: u32,
    /// Since when that is so, on the service's clock.
    pub since: u64,
}

/// How a stream from the hub stands.
#[derive(Clone, Copy, Drop)]
pub struct GoingStand {
    /// What it is about.
    pub sender: Sender,
    /// Since when that is so, on the service's clock.
    pub since: u64,
}

/// How the streams of a line stood after the last step on it, and since when.
#[derive(Clone, Copy, Drop)]
pub struct Stands {
    /// Those to the hub.
    pub coming: [ComingStand; STREAMS],
    /// Those from the hub.
    pub going: [GoingStand; STREAMS],
}

impl ComingStand {
    /// One that is about nothing.
    const IDLE: ComingStand = ComingStand {
        file: None,
        drains: false,
        records: 0,
        since: 0,
    };

    /// How the stream stands that was seen so now.
    fn after(self, file: Option<FileId>, drains: bool, records: u32, now: u64) -> ComingStand
        ensures { result ≡ coming_after self file drains records now }
    {
        let is_same = is_same_file(self.file, file);
        ComingStand {
            file,
            drains,
            records,
            since: if is_same && self.drains == drains && self.records == records {
                self.since
            } else {
                now
            },
        }
    }
}

impl GoingStand {
    /// One that is about nothing.
    const IDLE: GoingStand = GoingStand {
        sender: Sender::Idle,
        since: 0,
    };

    /// How the stream stands that was seen so now.
    fn after(self, sender: Sender, now: u64) -> GoingStand
        ensures { IsGoingStand self sender now result }
    {
        if self.sender == sender {
            return self;
        }
        GoingStand { sender, since: now }
    }
}

impl Stands {
    /// Those of streams that are about nothing.
    pub fn idle() -> Stands
        ensures coming { result.coming
            ≡ replicate 8 (record { file = None; drains = false; records = 0; since = 0 }) }
        ensures going { result.going ≡ replicate 8 (record { sender = Sender.Idle; since = 0 }) }
    {
        Stands {
            coming: [ComingStand::IDLE; STREAMS],
            going: [GoingStand::IDLE; STREAMS],
        }
    }

    /// A step on the line left its streams so.
    pub fn note(&mut self, id: LineId, hub: &Hub, now: u64)
        ensures coming { HasLine hub.now id → AreComingStands self.old.coming (hub_line id hub.now).receivers
            (part id.customer hub.now).customer.spool now self.new.coming }
        ensures going { HasLine hub.now id →
            AreGoingStands self.old.going (hub_line id hub.now).senders now self.new.going }
    {
        self.note_coming(id, hub, now);
        self.note_going(id, hub, now);
    }

    fn note_coming(&mut self, id: LineId, hub: &Hub, now: u64)
        ensures coming { HasLine hub.now id → AreComingStands self.old.coming (hub_line id hub.now).receivers
            (part id.customer hub.now).customer.spool now self.new.coming }
        ensures going { self.new.going ≡ self.old.going }
    {
        match hub.receivers(id) {
            Ok(receivers) => {
                self.coming = coming_stands(&self.coming, receivers, hub, id.customer, now);
            }
            Err(_) => {}
        }
    }

    fn note_going(&mut self, id: LineId, hub: &Hub, now: u64)
        ensures going { HasLine hub.now id →
            AreGoingStands self.old.going (hub_line id hub.now).senders now self.new.going }
        ensures coming { self.new.coming ≡ self.old.coming }
    {
        match hub.senders(id) {
            Ok(senders) => self.going = going_stands(&self.going, senders, now),
            Err(_) => {}
        }
    }
}

/// How the streams to the hub stand that are about this now, of files of a customer.
fn coming_stands(
    was: &[ComingStand; STREAMS],
    receivers: &[Receiver],
    hub: &Hub,
    customer: u16,
    now: u64,
) -> [ComingStand; STREAMS]
    ensures { AreComingStands was.now receivers.now (part customer hub.now).customer.spool now result }
{
    let mut stands = [ComingStand::IDLE; STREAMS];
    for place in 0..STREAMS {
        let records = records_at(receivers, place, hub, customer);
        let drains = drains_at(receivers, place);
        stands[place] = was[place].after(coming_at(receivers, place), drains, records, now);
    }
    stands
}

/// How the streams from the hub stand that are about this now.
fn going_stands(was: &[GoingStand; STREAMS], senders: &[Sender], now: u64) -> [GoingStand; STREAMS]
    ensures { AreGoingStands was.now senders.now now result }
{
    let mut stands = [GoingStand::IDLE; STREAMS];
    for place in 0..STREAMS {
        stands[place] = was[place].after(sender_at(senders, place), now);
    }
    stands
}

/// Whether two streams are about the same file, or both about none.
fn is_same_file(file: Option<FileId>, other: Option<FileId>) -> bool
    ensures { result ≡ is_same_file file other }
{
    match (file, other) {
        (None, None) => true,
        (Some(_), None) => false,
        (None, Some(_)) => false,
        (Some(file), Some(other)) => file == other,
    }
}

/// Whether the rest of a file is ignored on the stream of a place.
pub(crate) fn drains_at(receivers: &[Receiver], place: usize) -> bool
    ensures { result ≡ drains_at receivers.now place }
{
    match receivers.get(place) {
        Some(Receiver::Draining) => true,
        Some(_) => false,
        None => false,
    }
}

fn sender_at(senders: &[Sender], place: usize) -> Sender
    ensures { result ≡ sender_at senders.now place }
{
    match senders.get(place) {
        Some(sender) => *sender,
        None => Sender::Idle,
    }
}

/// How many records came of the file that comes on the stream of a place, if one does.
fn records_at(receivers: &[Receiver], place: usize, hub: &Hub, customer: u16) -> u32
    ensures { result ≡ coming_records (part customer hub.now).customer.spool (coming_at receivers.now place) }
{
    match coming_at(receivers, place) {
        Some(file) => hub.record_count(customer, file),
        None => 0,
    }
}
