//! The sockets of this machine, and its clock, as a network for a service.
#![tactic(auto)]

mod connection;
mod console_socket;
mod network;

pub use connection::MioConnection;
pub use console_socket::ConsoleFault;
pub use network::{MioListener, MioNetwork, utc_milliseconds};
