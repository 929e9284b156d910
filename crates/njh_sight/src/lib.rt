//! What was seen and noted of a line's session, of its steps, streams and files, of its traffic, and
//! of customers.
#![tactic(auto)]

mod awaiting;
mod busy;
mod customers;
mod ending;
mod files;
mod label;
mod news;
mod queue;
mod seeing;
mod stands;
mod steps;
mod streams;
mod tally;
mod traffic;

pub use awaiting::{awaited_event, awaits_again, wrong_session};
pub use busy::is_free;
pub use customers::{CUSTOMERS, Came, Customers, Row};
pub use ending::{is_session, is_up, refusal_event, refusals_event, session_end, tries_end};
pub use files::{arrival, event_of_gone, loss_on, summary_of};
pub use label::{Label, LineNames};
pub use news::{News, Untold};
pub use queue::Queue;
pub use seeing::{session_of, sight_of};
pub use stands::{ComingStand, GoingStand, Stands};
pub use steps::{SentFrame, Steps};
pub use streams::{STREAMS, Streams, ended, files_coming, files_going, first_gone, near_after};
pub use tally::{FileRefusal, FileRefusals, Tally, room_refusal};
pub use traffic::{Sight, Traffic};
