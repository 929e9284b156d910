//! What the peer answers that was dialled for a line over TCP/IP.

ghost use Rattle.std.specs.Prelude.{◌≡◌, ◌⊎◌, [], IsTrue};
ghost use Rattle.std.specs.Option.{option_map};
ghost use Rattle.njh_sites.specs.Asking.{IsCallHeard, IsHeard, IsOpened, IsOutcome};
ghost use Rattle.njh_sites.specs.Dialling.{connection_in};

use crate::controls::{receive_up_to, send_record};
use crate::dial::{Dial, DialState};
use njh_open::{CallOutcome, Caller};
use njh_tcp::ControlRecord;
use njh_wire::Connection;

impl<C: Connection + Drop> Dial<C> {
    /// The connection was made: an OPEN goes out on it, and its answer is waited for. Answers whether
    /// all of it went out.
    pub fn open(&mut self, control: &ControlRecord, now: u64) -> bool
        ensures opened { IsTrue result → IsOpened C.moved self.old.state self.new.state control.now now }
        ensures place { option_map C.place_of (connection_in self.new.state)
            ≡ option_map C.place_of (connection_in self.old.state) }
        ensures same { self.new ≡ record self.old { state = self.new.state } }
    {
        let mut state = DialState::Connected;
        std::mem::swap(&mut state, &mut self.state);
        match state {
            DialState::Dialling(mut connection, _) => {
                let went = send_record(&mut connection, control);
                self.state = DialState::Asking(connection, Caller::new(now));
                went
            }
            DialState::Asking(connection, caller) => {
                self.state = DialState::Asking(connection, caller);
                false
            }
            DialState::Resting(moment) => {
                self.state = DialState::Resting(moment);
                false
            }
            DialState::Connected => false,
        }
    }

    /// Hears the answer to its OPEN as far as it came, and nothing that is behind it. Answers what
    /// became of that.
    pub fn hear(&mut self, now: u64) -> CallOutcome
        ensures heard { IsCallHeard C.moved self.old.state self.new.state now result }
        ensures place { option_map C.place_of (connection_in self.new.state)
            ≡ option_map C.place_of (connection_in self.old.state) }
        ensures same { self.new ≡ record self.old { state = self.new.state } }
    {
        match &mut self.state {
            DialState::Asking(connection, caller) => hear_answer(connection, caller, now),
            DialState::Resting(_) => CallOutcome::Waits,
            DialState::Dialling(_, _) => CallOutcome::Waits,
            DialState::Connected => CallOutcome::Waits,
        }
    }
}

/// Hears an answer as far as it came. Answers what became of the OPEN.
fn hear_answer<C: Connection>(connection: &mut C, caller: &mut Caller, now: u64) -> CallOutcome
    ensures heard { IsHeard C.moved connection.old connection.new caller.old caller.new [] }
    ensures outcome { IsOutcome caller.new now result }
    ensures place { C.place_of connection.new ≡ C.place_of connection.old }
{
    let (bytes, is_over) = receive_up_to(connection, caller.lacks());
    caller.take(bytes.as_slice());
    last_outcome(caller.outcome(now), is_over)
}

/// What became of an OPEN by what came, or else, if no more comes, that there is no answer.
fn last_outcome(outcome: CallOutcome, is_over: bool) -> CallOutcome
    ensures { (result ≡ outcome) ⊎ ((outcome ≡ CallOutcome.Waits) × (result ≡ CallOutcome.NoAnswer)) }
{
    match outcome {
        CallOutcome::Waits if is_over => CallOutcome::NoAnswer,
        _ => outcome,
    }
}
