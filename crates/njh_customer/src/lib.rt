//! A customer by itself: its files and its lines, and what bytes and signals on one of these do and
//! send.
//!
//! No step reads or changes another customer's entry or files.
#![tactic(auto)]

mod acting;
mod customer;
mod customer_line;
mod customer_lines;
mod frame_buffer;
mod given_order;
mod last_command;
mod laws;
mod lines;
mod new_routes;
mod orders;
mod sending;
mod shared;
mod signal;

pub use frame_buffer::FrameBuffer;
pub use given_order::{GivenOrder, OrderText};
pub use last_command::LastCommand;
pub use laws::{
    bad_texts_change_nothing, customers_stay_in_order, cuts_are_like, events_keep_entries,
    events_move_so, files_grow, files_leave_so, files_survive, first_bytes_send_first,
    frames_do_so, lost_lines_leave_files, marks_are_right, no_bytes_do_nothing, opened_is_coherent,
    records_change_so, steps_follow_bytes, streams_move_so, ticks_send_next,
};
pub use lines::Lines;
pub use new_routes::{routes_keep_coherent, unrouted_files_stay};
pub use orders::{orders_do_as_commands, orders_keep_coherent};
pub use shared::Shared;
pub use signal::Signal;
