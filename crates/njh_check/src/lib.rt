//! What a table file says, for people: a report of right tables, or the first fault with its place.
//! And of a script how many events it has, or its first bad line and why that is one.
#![tactic(auto)]

mod checking;
mod elements;
mod fault;
mod line;
mod order_reasons;
mod reasons;
mod report;
mod route_reasons;
mod script_check;
mod script_reason;
mod script_reasons;
mod script_words;
mod unknown_keys;
mod warnings;
mod words;

pub use checking::{check, fault_text};
pub use fault::CheckFault;
pub use script_check::check_script;
pub use script_reasons::bad_lines_have_reasons;
