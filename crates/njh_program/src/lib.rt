//! All of the program: what its arguments ask for is done. That is to serve lines on sockets, to
//! print what a spool file holds, or a task of njh_subcommands.
#![tactic(auto)]

mod console_log;
mod console_path;
mod control;
mod handles;
mod orderer;
mod program;
mod refusals;
mod requests;
mod service;
mod spool_log;
mod spool_paths;
mod spool_service;
mod spooling;
mod standard_error;
mod start_log;
mod table_source;

pub use njh_subcommands::{Failure, tables_of};
pub use program::{carry_out, end, run};
pub use service::Options;
pub use spooling::Spooling;
pub use standard_error::StandardError;
pub use table_source::{ChangeFault, TableFileSource};
