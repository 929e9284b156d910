//! What is told of a line's files and commands, and of its customer's quota.

ghost use Rattle.std.specs.Prelude.{◌≡◌, ◌<◌};
ghost use Rattle.njh_log.specs.Limiting.{IsTold, IsToldText};
ghost use Rattle.njh_lines.specs.Connecting.{place_of};
ghost use Rattle.njh_sight.specs.Tally.{counted};

use crate::surroundings::Surroundings;
use njh_arrivals::Arrivals;
use njh_block::Stream;
use njh_command::Replies;
use njh_hub::{Hub, HubFault};
use njh_log::{CommandLine, EventKind, FileLine, LogEvent, OrderLine, Place, Severity};
use njh_sight::{
    CUSTOMERS, Came, Label, STREAMS, Streams, Tally, arrival, ended, event_of_gone, files_coming,
    files_going, first_gone, loss_on, summary_of,
};
use njh_spool::FileId;
use njh_table::LineId;
use njh_turns::{Depot, NewOrder};
use njh_wire::Network;
use std::io::Write;

/// A line after a step on it, and the hub that made the step.
#[derive(Clone, Copy, Drop)]
pub(crate) struct LineStep<'a> {
    pub(crate) id: LineId,
    pub(crate) label: &'a Label,
    pub(crate) hub: &'a Hub,
}

/// A file that came in on the stream of a place of a line, and comes no more, as these came.
#[derive(Clone, Copy, Drop)]
struct Ended {
    place: usize,
    file: FileId,
    came: Came,
}

impl LineStep<'_> {
    /// Whether the line's customer has a whole file of this number.
    fn has(&self, file: FileId) -> bool {
        self.hub.file_summary(self.id.customer, file).is_some()
    }

    /// What is told of that file as it came in, if the customer has it.
    fn arrival_of(&self, file: FileId) -> Option<LogEvent> {
        let summary = self.hub.file_summary(self.id.customer, file)?;
        Some(arrival(summary.state, FileLine::of(&summary)))
    }

    /// What is told of a file that comes in no more, and which the customer hasn't.
    fn loss_of(&self, ended: Ended) -> LogEvent
        requires { ended.place < 8 }
    {
        let Ended { place, came, .. } = ended;
        if came.files > 0 && !came.are_there {
            LogEvent::FileLeft(Stream::at(place as u8))
        } else {
            loss_on(self.hub, self.id, place)
        }
    }
}

/// Tells which files of a line came, went out or were refused by a step on it, and whether its
/// customer has come near its quota, or near the number of files that it may have.
pub(crate) fn tell_files<N: Network + Drop, L: Write + Drop>(
    surroundings: &mut Surroundings<N, L>,
    step: &LineStep<'_>,
    streams: &mut Streams,
    arrivals: &mut Arrivals,
)
    ensures now { surroundings.new.now ≡ surroundings.old.now }
    ensures customers { surroundings.new.customers ≡ surroundings.old.customers }
{
    tell_coming(surroundings, step, streams, arrivals);
    tell_going(surroundings, step, streams);
    tell_quota(surroundings, step);
    tell_file_count(surroundings, step);
}

/// Tells of the files that came in, and notes when.
fn tell_coming<N: Network + Drop, L: Write + Drop>(
    surroundings: &mut Surroundings<N, L>,
    step: &LineStep<'_>,
    streams: &mut Streams,
    arrivals: &mut Arrivals,
)
    ensures now { surroundings.new.now ≡ surroundings.old.now }
    ensures customers { surroundings.new.customers ≡ surroundings.old.customers }
{
    let came = surroundings
        .customers
        .count_files(step.id.customer, step.hub);
    if came.are_there {
        tell_newest(surroundings, step, came.files, arrivals, &mut streams.tally);
    }
    let Ok(receivers) = step.hub.receivers(step.id) else {
        return;
    };
    let now = files_coming(receivers);
    if now == streams.coming {
        return;
    }
    for _ in 0..STREAMS {
        let Some(place) = first_gone(&streams.coming, &now) else {
            break;
        };
        if let Some(file) = streams.coming[place] {
            let ended = Ended { place, file, came };
            tell_ended(surroundings, step, ended, arrivals, &mut streams.tally);
        }
        streams.coming[place] = None;
    }
    streams.coming = now;
}

/// Tells of the newest files of a line's customer, so many, which are those that came in.
fn tell_newest<N: Network + Drop, L: Write + Drop>(
    surroundings: &mut Surroundings<N, L>,
    step: &LineStep<'_>,
    files: u32,
    arrivals: &mut Arrivals,
    tally: &mut Tally,
)
    ensures now { surroundings.new.now ≡ surroundings.old.now }
    ensures customers { surroundings.new.customers ≡ surroundings.old.customers }
{
    let customer = step.id.customer;
    let count = step.hub.file_count(customer);
    for index in count.saturating_sub(files)..count {
        let file = step.hub.number_at(customer, index);
        tell_arrival(surroundings, step, file, arrivals, tally);
    }
}

/// Tells of a file that comes in no more, unless it is among the newest, which were told.
fn tell_ended<N: Network + Drop, L: Write + Drop>(
    surroundings: &mut Surroundings<N, L>,
    step: &LineStep<'_>,
    ended: Ended,
    arrivals: &mut Arrivals,
    tally: &mut Tally,
)
    requires { ended.place < 8 }
    ensures now { surroundings.new.now ≡ surroundings.old.now }
    ensures customers { surroundings.new.customers ≡ surroundings.old.customers }
{
    if !step.has(ended.file) {
        tell_file(surroundings, step.label, tally, &step.loss_of(ended));
    } else if !ended.came.are_there {
        tell_arrival(surroundings, step, ended.file, arrivals, tally);
    }
}

/// Tells of a file that came in, if the line's customer has it, and notes when.
fn tell_arrival<N: Network + Drop, L: Write + Drop>(
    surroundings: &mut Surroundings<N, L>,
    step: &LineStep<'_>,
    file: FileId,
    arrivals: &mut Arrivals,
    tally: &mut Tally,
)
    ensures now { surroundings.new.now ≡ surroundings.old.now }
    ensures customers { surroundings.new.customers ≡ surroundings.old.customers }
{
    if let Some(event) = step.arrival_of(file) {
        arrivals.note(step.id.customer, file, seconds(surroundings));
        tell_file(surroundings, step.label, tally, &event);
    }
}

/// Tells what became of a file of a line, and counts it.
fn tell_file<N: Network + Drop, L: Write + Drop>(
    surroundings: &mut Surroundings<N, L>,
    label: &Label,
    tally: &mut Tally,
    event: &LogEvent,
)
    ensures now { surroundings.new.now ≡ surroundings.old.now }
    ensures customers { surroundings.new.customers ≡ surroundings.old.customers }
    ensures told { IsTold L.contents (place_of label.now) event.now surroundings.old.now surroundings.old.log
        surroundings.new.log }
    ensures counted { tally.new ≡ counted event.now tally.old }
{
    tally.note(*event);
    surroundings.tell(label, *event);
}

/// The time, in seconds since the beginning of 1970.
fn seconds<N: Network + Drop, L: Write + Drop>(surroundings: &mut Surroundings<N, L>) -> u64
    ensures now { surroundings.new.now ≡ surroundings.old.now }
    ensures customers { surroundings.new.customers ≡ surroundings.old.customers }
{
    u64::try_from(surroundings.network.utc() / 1000).unwrap_or(0)
}

/// Tells of the files that went out, and keeps what is to be told of those that go out now.
fn tell_going<N: Network + Drop, L: Write + Drop>(
    surroundings: &mut Surroundings<N, L>,
    step: &LineStep<'_>,
    streams: &mut Streams,
)
    ensures now { surroundings.new.now ≡ surroundings.old.now }
    ensures customers { surroundings.new.customers ≡ surroundings.old.customers }
{
    let Ok(senders) = step.hub.senders(step.id) else {
        return;
    };
    let now = files_going(senders);
    if now != streams.going {
        tell_gone(surroundings, step, streams, &now);
        streams.going = now;
    }
    streams.ended = ended(senders);
}

/// Tells of the files that streams from the hub are about no more, now that they are about
/// these.
fn tell_gone<N: Network + Drop, L: Write + Drop>(
    surroundings: &mut Surroundings<N, L>,
    step: &LineStep<'_>,
    streams: &mut Streams,
    now: &[Option<FileId>; STREAMS],
)
    ensures now { surroundings.new.now ≡ surroundings.old.now }
    ensures customers { surroundings.new.customers ≡ surroundings.old.customers }
{
    let customer = step.id.customer;
    for _ in 0..STREAMS {
        let Some(place) = first_gone(&streams.going, now) else {
            break;
        };
        if let Some(event) = event_of_gone(step.hub, customer, streams, place) {
            tell_file(surroundings, step.label, &mut streams.tally, &event);
        }
        streams.going[place] = None;
    }
    for place in 0..STREAMS {
        if let Some(file) = now[place]
            && streams.going[place].is_none()
        {
            streams.lines[place] = summary_of(step.hub, customer, file);
        }
    }
}

/// Tells of a customer that has come near the number of files that it may have.
fn tell_file_count<N: Network + Drop, L: Write + Drop>(
    surroundings: &mut Surroundings<N, L>,
    step: &LineStep<'_>,
)
    ensures now { surroundings.new.now ≡ surroundings.old.now }
    ensures customers { surroundings.new.customers ≡ surroundings.old.customers }
{
    let customer = step.id.customer;
    let files = step.hub.file_count(customer);
    let now = surroundings.now;
    match surroundings
        .customers
        .has_come_near_files(usize::from(customer), files, now)
    {
        Some(most) => {
            surroundings.tell_of(step.label.customer, LogEvent::NearFiles(files, most));
        }
        None => {}
    }
}

/// Tells of a customer that has come near its quota.
fn tell_quota<N: Network + Drop, L: Write + Drop>(
    surroundings: &mut Surroundings<N, L>,
    step: &LineStep<'_>,
)
    ensures now { surroundings.new.now ≡ surroundings.old.now }
    ensures customers { surroundings.new.customers ≡ surroundings.old.customers }
{
    let customer = step.id.customer;
    let (Ok(used), Ok(quota)) = (step.hub.used(customer), step.hub.quota(customer)) else {
        return;
    };
    let now = surroundings.now;
    if surroundings
        .customers
        .has_come_near_quota(customer, used, quota, now)
    {
        surroundings.tell_of(step.label.customer, LogEvent::NearQuota(used, quota));
    }
}

/// Tells of the commands that a step on a line carried out, if there are some, and counts them: by
/// one line of the log, with the last of them, who gave it, and the first reply.
pub(crate) fn tell_commands<N: Network + Drop, L: Write + Drop>(
    surroundings: &mut Surroundings<N, L>,
    label: &Label,
    tally: &mut Tally,
    hub: &Hub,
)
    ensures now { surroundings.new.now ≡ surroundings.old.now }
    ensures customers { surroundings.new.customers ≡ surroundings.old.customers }
{
    let last = hub.last_command();
    let commands = last.count().saturating_sub(surroundings.commands);
    surroundings.commands = last.count();
    tally.note_commands(commands);
    match last.who() {
        Some(who) if commands > 0 => {
            let line = CommandLine {
                who,
                last,
                commands,
            };
            let place = Place::Line(label.customer, label.line);
            surroundings.tell_text(EventKind::Commands, Severity::Information, place, &line);
        }
        _ => {}
    }
}

/// Tells what came of an order: in whose name it was given or whom it is for, its words, and its
/// first reply, or why it was refused.
pub(crate) fn tell_order<N: Network + Drop, L: Write + Drop>(
    surroundings: &mut Surroundings<N, L>,
    new: &NewOrder,
    answer: Result<(), HubFault>,
    replies: &Replies,
)
    ensures now { surroundings.new.now ≡ surroundings.old.now }
    ensures customers { surroundings.new.customers ≡ surroundings.old.customers }
    ensures told { (place : Place)
        × IsToldText L.contents place EventKind.Orders surroundings.old.now surroundings.old.log surroundings.new.log }
{
    let severity = if answer.is_ok() {
        Severity::Information
    } else {
        Severity::Warning
    };
    let place = match surroundings.customers.name(new.customer) {
        Some(name) => Place::Customer(name),
        None => Place::Hub,
    };
    let line = OrderLine {
        order: &new.order,
        answer,
        replies,
    };
    surroundings.tell_text(EventKind::Orders, severity, place, &line);
}

/// Notes of each file of a hub that a depot opened when it came, as far as the depot knows.
pub(crate) fn note_kept<D: Depot>(arrivals: &mut Arrivals, depot: &D, hub: &Hub) {
    for customer in 0..CUSTOMERS as u16 {
        for index in 0..hub.file_count(customer) {
            if let Some(moment) = depot.came(customer, index) {
                arrivals.note(customer, hub.number_at(customer, index), moment);
            }
        }
    }
}
