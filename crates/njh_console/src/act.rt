//! What is ordered of the service itself.

use njh_answer::Ticket;
use njh_request::{EndMoment, LineWish, RequestRefusal, Terms};
use njh_table::LineId;

/// What is the service's own to do.
#[derive(Clone, Copy, Debug, PartialEq, Eq)]
pub enum Act {
    /// A line is to be so.
    Line(LineId, LineWish),
    /// The service is to end.
    Stop(EndMoment),
}

/// What a round leaves to the service.
#[derive(Drop)]
pub enum Asked {
    /// Nothing.
    Nothing,
    /// A request was refused so: the log tells it.
    Refused(RequestRefusal),
    /// An order for the hub was taken, under this number and on these terms: the log tells who gave
    /// it.
    Given(u64, Terms),
    /// This is to be done, as it was ordered.
    Act(Ticket, Act),
    /// Tables are to be read, as this orders it.
    Tables(Ticket),
}
