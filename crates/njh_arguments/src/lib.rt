//! What the arguments of the command line ask for.
#![tactic(auto)]

mod arguments;
mod check_options;
mod choices;
mod console_command;
mod console_words;
mod ctl_options;
mod decode_options;
mod encode_options;
mod files_options;
mod options;
mod replay_options;
mod serve_options;
mod shown;

pub use arguments::{Request, Task, not_utf8, request_of};
pub use console_command::{Change, Choice, ConsoleCommand, FileKind, FileState, Owner};
pub use shown::{VERSION, is_shown};
