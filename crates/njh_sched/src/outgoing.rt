//! What a line has to send.

ghost use Rattle.std.specs.Prelude.{◌≡◌, slice_get};
ghost use Rattle.std.specs.Option.{option_map};
ghost use Rattle.njh_sched.specs.NextBlock.{Outlet, without_answer, without_message, sender_at, with_sender};
ghost use Rattle.njh_sched.specs.NextBlock.{with_served};

use njh_block::{Answer, Fcs, Stream};
use njh_record::Record;
use njh_stream::Sender;

/// A line, as it is sent from: what waits, what its streams from the hub are about, and what its
/// peer lets them send. A contract sees it as an `Outlet`.
pub trait Outgoing {
    ghost outlet: { Self → Outlet };

    // The line without what its outlet shows.
    ghost rest: { Self → Self };

    /// How many streams of each kind it has.
    fn streams(&self) -> u8
        ensures { result ≡ (outlet self.now).streams };

    /// The peer's last function control sequence.
    fn peer_fcs(&self) -> Fcs
        ensures { result ≡ (outlet self.now).peer_fcs };

    /// The answer that waits longest.
    fn front_answer(&self) -> Option<Answer>
        ensures { result ≡ slice_get (outlet self.now).answers 0 };

    /// Takes the answer that waits longest away.
    fn pop_answer(&mut self)
        ensures outlet { outlet self.new ≡ without_answer (outlet self.old) }
        ensures rest { rest self.new ≡ rest self.old };

    /// The nodal message that waits longest.
    fn front_message(&self) -> Option<&Record>
        ensures { option_map (λ m. m.now.items) result ≡ slice_get (outlet self.now).messages 0 };

    /// Takes the nodal message that waits longest away.
    fn pop_message(&mut self)
        ensures outlet { outlet self.new ≡ without_message (outlet self.old) }
        ensures rest { rest self.new ≡ rest self.old };

    /// What a stream from the hub is about.
    fn sender(&self, stream: Stream) -> Sender
        ensures { result ≡ sender_at stream (outlet self.now) };

    /// Says what a stream from the hub is about.
    fn set_sender(&mut self, stream: Stream, sender: Sender)
        ensures outlet { outlet self.new ≡ with_sender stream sender (outlet self.old) }
        ensures rest { rest self.new ≡ rest self.old };

    /// The stream that was served last.
    fn served(&self) -> Stream
        ensures { result ≡ (outlet self.now).served };

    /// Says which stream was served last.
    fn set_served(&mut self, stream: Stream)
        ensures outlet { outlet self.new ≡ with_served stream (outlet self.old) }
        ensures rest { rest self.new ≡ rest self.old };
}
