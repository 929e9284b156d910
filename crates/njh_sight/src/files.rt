//! What is told of a line's files.

ghost use Rattle.std.specs.Prelude.{◌≡◌, ◌<◌, ℕ, Bool, Some, None, option_map, slice_get, IsSomeAnd};
ghost use Rattle.njh_stream.specs.Receiving.{Notice};
ghost use Rattle.njh_hub.specs.Views.{file_summary, hub_line, whole_file_on};
ghost use Rattle.njh_hub.specs.WholeHub.{HasLine};
ghost use Rattle.njh_log.specs.FileLines.{line_of};
ghost use Rattle.njh_sight.specs.Stands.{drains_at};
ghost use Rattle.njh_sight.specs.Telling.{arrival, departure, loss, state_on, Copies, IsTold};
ghost use Rattle.njh_log.specs.declared.file_line.FileLine.{FileLine};

use crate::stands::drains_at;
use crate::streams::Streams;
use njh_block::Stream;
use njh_hub::Hub;
use njh_log::{FileLine, LogEvent, NoticeLine};
use njh_spool::{FileId, State};
use njh_table::LineId;

/// What is told of a file that came in on the stream of a place and isn't kept.
pub fn loss_on(hub: &Hub, id: LineId, place: usize) -> LogEvent
    requires { place < 8 }
    ensures noticed { (notice : Notice) → HasLine hub.now id
        → slice_get (hub_line id hub.now).notices place ≡ Some (Some notice) → IsTold place notice result }
    ensures unnoticed { HasLine hub.now id → slice_get (hub_line id hub.now).notices place ≡ Some None
        → result ≡ loss place (drains_at (hub_line id hub.now).receivers place) None }
{
    let drains = drains_on(hub, id, place);
    let notice = notice_on(hub, id, place);
    loss(Stream::at(place as u8), drains, notice)
}

/// Whether the rest of a file is ignored that came in on the stream of a place.
fn drains_on(hub: &Hub, id: LineId, place: usize) -> bool
    ensures { HasLine hub.now id → result ≡ drains_at (hub_line id hub.now).receivers place }
{
    match hub.receivers(id) {
        Ok(receivers) => drains_at(receivers, place),
        Err(_) => false,
    }
}

/// A copy of what its owner was told, if that was so.
fn notice_on(hub: &Hub, id: LineId, place: usize) -> Option<NoticeLine>
    ensures noticed { (notice : Notice) → HasLine hub.now id
        → slice_get (hub_line id hub.now).notices place ≡ Some (Some notice) → IsSomeAnd result (Copies notice) }
    ensures unnoticed { HasLine hub.now id → slice_get (hub_line id hub.now).notices place ≡ Some None
        → result ≡ None }
{
    match hub.notices(id) {
        Ok(notices) => match notices.get(place) {
            Some(Some(notice)) => Some(NoticeLine::of(notice)),
            Some(None) | None => None,
        },
        Err(_) => None,
    }
}

/// What is told of a file that came whole.
pub fn arrival(state: State, line: FileLine) -> LogEvent
    ensures { result ≡ arrival state line }
{
    if state == State::Held {
        LogEvent::FileHeld(line)
    } else {
        LogEvent::FileIn(line)
    }
}

/// What is told of a file that came in on a stream and isn't kept. `drains` if its rest is
/// ignored, `notice` if its owner was told something: then the hub refused it. Else its peer
/// gave it up, or its session ended.
fn loss(stream: Stream, drains: bool, notice: Option<NoticeLine>) -> LogEvent
    ensures { result ≡ loss stream drains notice }
{
    if drains || notice.is_some() {
        LogEvent::ComingRefused(stream, notice)
    } else {
        LogEvent::ComingCutOff(stream)
    }
}

/// What is told of the file that a stream from the hub is about no more.
pub fn event_of_gone(hub: &Hub, customer: u16, streams: &Streams, place: usize) -> Option<LogEvent>
    requires { place < 8 }
    ensures { (file : ℕ) → (line : FileLine) → (ended : Bool) → slice_get streams.now.going place ≡ Some (Some file)
        → slice_get streams.now.lines place ≡ Some (Some line) → slice_get streams.now.ended place ≡ Some ended
        → result ≡ departure (state_on customer file hub.now) ended line }
{
    let file = streams.going[place]?;
    let line = streams.lines[place]?;
    let kept = match hub.file_summary(customer, file) {
        Some(summary) => Some(summary.state),
        None => None,
    };
    departure(kept, streams.ended[place], line)
}

/// What became of a file that went out, of which the end was sent or wasn't: `kept` is how it
/// waits if the customer still has it.
fn departure(kept: Option<State>, ended: bool, line: FileLine) -> Option<LogEvent>
    ensures { result ≡ departure kept ended line }
{
    match kept {
        Some(State::Refused) => Some(LogEvent::FileRefused(line)),
        Some(_) => None,
        None => {
            if ended {
                Some(LogEvent::FileOut(line))
            } else {
                None
            }
        }
    }
}

/// What is told of a customer's whole file, if it has one of this number.
pub fn summary_of(hub: &Hub, customer: u16, file: FileId) -> Option<FileLine>
    ensures { result ≡ option_map line_of (option_map file_summary (whole_file_on customer file hub.now)) }
{
    let summary = hub.file_summary(customer, file)?;
    Some(FileLine::of(&summary))
}
