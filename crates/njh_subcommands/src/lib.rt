//! What the program does that needs no socket and no spool file: it replays a script, says a trace
//! in words, makes a script of lines in words, and checks a table file or a script. Here too is why
//! the program fails.
#![tactic(auto)]

mod checking;
mod encoding;
mod failure;
mod letters;
mod performing;
mod replaying;
mod table_check;
mod table_file;
mod tracing;
mod words;

pub use failure::Failure;
pub use performing::perform;
pub use table_file::{table_bytes, tables_in, tables_of, tables_twice};
