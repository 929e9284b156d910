//! The log of a service: an event is this line of the log, or is counted as lost.
#![tactic(auto)]

mod awaited;
mod command_line;
mod entry;
mod event_kind;
mod file_line;
mod heading;
mod last_frame;
mod limited;
mod line_text;
mod listen_cause;
mod log;
mod log_time;
mod notice_line;
mod order_line;
mod reasons;
mod route_news;
mod severity;
mod spells;

pub use awaited::Awaited;
pub use command_line::CommandLine;
pub use entry::{ConnectionFailure, DownCause, LogEvent, Rebuff, SessionChange};
pub use event_kind::EventKind;
pub use file_line::FileLine;
pub use heading::{Heading, Place};
pub use last_frame::LastFrame;
pub use limited::LimitedLog;
pub use line_text::LineText;
pub use listen_cause::ListenCause;
pub use log::{Log, LogStyle};
pub use notice_line::NoticeLine;
pub use order_line::OrderLine;
pub use route_news::RouteNews;
pub use severity::{Severity, severity_of};
pub use spells::{Limit, Spell, Spells};
