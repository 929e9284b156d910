//! What the hub says to users: the texts of replies and notices, each with its NJH number.
#![tactic(auto)]

mod files;
mod laws;
mod pieces;
mod texts;

pub use files::file_text;
pub use laws::decimal_digits;
pub use pieces::{MessageText, push_ascii, push_digits, push_file_name, push_trimmed};
pub use texts::{
    bad_command, being_sent, cancelled, files_line, held, no_files_for, node_unknown, not_found,
    put_file_line, released, rerouted_to, routed_back, spool_full,
};
