//! The connection of a line over TCP/IP, over another connection (NJE over TCP/IP).
#![tactic(auto)]

mod connection;
mod line_connection;
mod line_network;
mod unheard;

pub use connection::TcpConnection;
pub use line_connection::LineConnection;
pub use line_network::LineNetwork;
