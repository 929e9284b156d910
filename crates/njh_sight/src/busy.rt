//! Whether files are on a line's streams.

ghost use Rattle.std.specs.Prelude.{◌≡◌};
ghost use Rattle.std.specs.List.{list_any};
ghost use Rattle.njh_hub.specs.Views.{hub_line};
ghost use Rattle.njh_sight.specs.Streams.{is_coming, is_free, is_going};

use njh_hub::Hub;
use njh_stream::{Receiver, Sender};
use njh_table::LineId;

/// Whether no file is on a line's streams.
pub fn is_free(line: LineId, hub: &Hub) -> bool
    ensures { result ≡ is_free line hub.now }
{
    !is_any_coming(line, hub) && !is_any_going(line, hub)
}

/// Whether a stream of a line to the hub is about a file.
fn is_any_coming(line: LineId, hub: &Hub) -> bool
    ensures { result ≡ list_any is_coming (hub_line line hub.now).receivers }
{
    match hub.receivers(line) {
        Ok(receivers) => receivers.iter().any(|receiver| is_coming(receiver)),
        Err(_) => false,
    }
}

/// Whether a stream of a line from the hub is about a file.
fn is_any_going(line: LineId, hub: &Hub) -> bool
    ensures { result ≡ list_any is_going (hub_line line hub.now).senders }
{
    match hub.senders(line) {
        Ok(senders) => senders.iter().any(|sender| is_going(sender)),
        Err(_) => false,
    }
}

/// Whether a stream to the hub is about a file, or what is left of one.
fn is_coming(receiver: &Receiver) -> bool
    ensures { result ≡ is_coming receiver.now }
{
    match receiver {
        Receiver::Idle => false,
        Receiver::Open { .. } => true,
        Receiver::Draining => true,
    }
}

/// Whether a stream from the hub is about a file, or what is left of one.
fn is_going(sender: &Sender) -> bool
    ensures { result ≡ is_going sender.now }
{
    match sender {
        Sender::Idle => false,
        Sender::Requested(_) => true,
        Sender::Sending(_, _) => true,
        Sender::EofSent(_) => true,
        Sender::Aborting => true,
    }
}
