//! The console of the bureau's operator: requests by HTTP, from four visitors at most, one a round,
//! and the orders that were taken. It does no input and output of its own: a visitor's socket is
//! what reads and writes.
#![tactic(auto)]

mod act;
mod console;
mod desk;
mod keys;
mod order_book;
mod page;
mod queue;
mod situation;
mod talk;
mod visitor;

pub use act::{Act, Asked};
pub use console::Console;
pub use order_book::{REMEMBERED, WaitingOrder};
pub use situation::Situation;
pub use visitor::{PATIENCE, SEATS};
