//! A line's site gives it its connections: a port on which its peer comes in, or an address that is
//! dialled.
#![tactic(auto)]

mod admission;
mod asking;
mod calling;
mod controls;
mod dial;
mod door;
mod endpoints;
mod handles;
mod opening;
mod port_refusal;
mod site;

pub use admission::{Admission, DialAnswer, answer_of, keeps_line, kept_until, listens_again};
pub use asking::{Asking, Heard};
pub use dial::{Dial, DialState};
pub use door::{Door, begin_event, try_again};
pub use endpoints::{Endpoint, endpoints_of};
pub use handles::handles_needed;
pub use opening::{ListenFault, Listening, open};
pub use port_refusal::PortRefusal;
pub use site::Site;
