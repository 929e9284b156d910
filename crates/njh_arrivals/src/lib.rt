//! When files came: an arrival that is noted is told of its file, and changes nothing of other
//! customers' files.
#![tactic(auto)]

mod arrivals;
mod laws;

pub use arrivals::Arrivals;
pub use laws::noted_is_told;
