//! Answers to the peer's streams.

ghost use Rattle.std.specs.Prelude.{◌≡◌};
ghost use Rattle.njh_block.specs.Blocks.{Control, control_byte};
ghost use Rattle.njh_block.specs.ItemViews.{outgoing_item};

use crate::out::Out;
use crate::rcb::{ControlRcb, Rcb};

/// What the hub answers to a stream of the peer.
#[derive(Clone, Copy, Debug, PartialEq, Eq)]
pub struct Answer {
    /// What is answered.
    pub rcb: ControlRcb,
    /// The RCB of the stream that it is answered to.
    pub stream: Rcb,
}

impl Answer {
    /// The record that says so.
    pub fn record<'a>(self) -> Out<'a>
        ensures { outgoing_item result ≡ Control (control_byte self.rcb) self.stream.byte }
    {
        Out::Control {
            rcb: self.rcb,
            srcb: self.stream.byte,
        }
    }
}
