//! Wires of lines over connections that never wait, and what a service needs of a network.
#![tactic(auto)]

mod calls;
mod connection;
mod counts;
mod departure;
mod end;
mod ending;
mod farewell;
mod frame_end;
mod last_bytes;
mod laws;
mod line_wire;
mod marks;
mod network;
mod outbox;
mod patience;
mod silence;

pub use calls::receive_byte;
pub use connection::{Connection, ConnectionFault, ConnectionRead, Saying};
pub use end::{ConnectionEnd, Parting, Stop};
pub use last_bytes::LastBytes;
pub use laws::{no_write_fails, one_frame_at_most};
pub use line_wire::{LineWire, STALL_TIME, TCP_STALL_TIME};
pub use network::{Network, Readiness};
pub use outbox::ROOM;
