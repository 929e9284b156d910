//! Transmissions to the hub and from it (IBM SC23-0070, "Multileaving"): what comes on a stream
//! becomes a file, and a file goes out record by record.
#![tactic(auto)]

mod arrival;
mod coming;
mod ending;
mod holding;
mod judging;
mod laws;
mod notice;
mod receiver;
mod record_class;
mod routing;
mod sender;
mod spool_file;
mod storing;

pub use arrival::Arrival;
pub use ending::{end_receivers, end_senders};
pub use holding::hold_unrouted;
pub use laws::{
    files_have_headers, one_outcome, streams_end_so, streams_stay_tied, whole_files_have_headers,
};
pub use notice::Notice;
pub use receiver::{Progress, Receiver, StreamStep};
pub use routing::{goes_by, node_goes_by, retry_refused};
pub use sender::Sender;
pub use spool_file::SpoolFile;
