//! Tries a program on what is stored, and prints what came of it.
//!
//! Each line of the table of `README.md` in `data` is a run: the words of the command line, what
//! the program is given to read, what it must print, and its status. Then each option that the
//! program's help tells of is looked for in the man page, and each of its examples in the table.
//!
//! A run may have a peer, who plays a line that the program dials, and more may be asked of its spool
//! file than what the program says of it.
//!
//! Nothing is known of the program but how it is called, so this is proved beside it. `tests_runs`
//! calls it, and has the stored runs.
#![tactic(auto)]

mod examples;
mod likeness;
mod man_page;
mod mishaps;
mod peer;
mod plays;
mod program;
mod registry;
mod runs;
mod spool_file;
mod streams;
mod texts;
mod trial;

pub use program::{Program, try_all};
pub use streams::{Calls, Drain, Log, Mishap, Run, Source};
