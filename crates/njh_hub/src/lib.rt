//! The hub: events of many customers' lines, and what each customer is sent.
#![tactic(auto)]

mod event;
mod fault;
mod file_summary;
mod file_view;
mod given_routes;
mod headline;
mod hub;
mod laws;
mod opening;
mod run;
mod session_view;
mod sink;

pub use event::{Event, Piece, SHORT_PIECE};
pub use fault::{Cause, HubFault, RunFault};
pub use file_summary::FileSummaryView;
pub use file_view::{FileRecord, FileView};
pub use given_routes::GivenRoutes;
pub use headline::{Trial, outcome, two_runs};
pub use hub::Hub;
pub use laws::{
    customers_never_meet, each_is_alone, others_stay, own_step_is_own, sent_in_order,
    taken_messages_wait, two_lists_are_like,
};
pub use njh_customer::{GivenOrder, LastCommand, OrderText, Signal, cuts_are_like};
pub use njh_line::MessageCounts;
pub use njh_spool::RestoreFault;
pub use session_view::{QUIET_TIME, SessionView};
pub use sink::{Sink, SinkFault};
