//! What a spool file holds, printed for people: its whole files, and a file's records; and copied into
//! another spool file.
#![tactic(auto)]

mod copying;
mod exporting;
mod fault;
mod finding;
mod lending;
mod listing;
mod moving;
mod opening;
mod order;
mod printing;
mod unopened;
mod writing;

pub use fault::FilesFault;
pub use finding::Asked;
pub use listing::print_files;
pub use moving::{Move, copy, copy_spool};
pub use opening::SpoolFiles;
pub use printing::{print, print_spool};
