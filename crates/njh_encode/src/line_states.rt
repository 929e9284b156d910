//! What is kept of each line.

ghost use Rattle.std.specs.Prelude.{◌≡◌, ◌<◌, ◌%◌, OnOk, OnErr, position, IfSome, length};
ghost use Rattle.njh_encode.specs.LineStates.{counted, is_named, signed_on, state_of, with_state};

use crate::words::LINE_NAME;
use std::alloc::AllocError;

/// How many counts there are.
const COUNTS: u8 = 16;

/// What is kept of a line of the hub.
#[derive(Clone, Copy, Debug, PartialEq, Eq)]
pub(crate) struct LineState {
    /// Its name.
    pub name: [u8; LINE_NAME],
    /// The count of its next block, modulo 16.
    pub count: u8,
    /// The block size that it signed on with, 0 if it didn't.
    pub size: u16,
}

/// What is kept of a line of this name.
#[tactic(auto, unfolding(crate::specs::LineStates::state_of))]
pub(crate) fn state_of(name: [u8; LINE_NAME], states: &[LineState]) -> LineState
    ensures { result ≡ state_of name states.now }
{
    match place_of(name, states) {
        Some(place) => states[place],
        None => LineState {
            name,
            count: 0,
            size: 0,
        },
    }
}

/// Keeps this in place of what was kept of its line.
#[tactic(auto, unfolding(crate::specs::LineStates::with_state))]
pub(crate) fn keep(state: LineState, states: &mut Vec<LineState>) -> Result<(), AllocError>
    ensures kept { OnOk result (states.new.items ≡ with_state state states.old.items) }
    ensures same { OnErr result (states.new.items ≡ states.old.items) }
{
    match place_of(state.name, states) {
        Some(place) => {
            states[place] = state;
            Ok(())
        }
        None => {
            states.push(state)?;
            Ok(())
        }
    }
}

/// Where the state of a line is.
fn place_of(name: [u8; LINE_NAME], states: &[LineState]) -> Option<usize>
    ensures place { result ≡ position (is_named name) states.now }
    ensures within { IfSome result (λ place. place < length states.now) }
{
    states.iter().position(|state| state.name == name)
}

impl LineState {
    /// The count of its next block.
    pub fn next_count(&self) -> u8
        ensures value { result ≡ self.now.count % 16 }
        ensures bound { result < 16 }
    {
        self.count % COUNTS
    }

    /// This, if one more block went out.
    #[tactic(auto, unfolding(crate::specs::LineStates::counted))]
    pub fn counted(self) -> LineState
        ensures { result ≡ counted self }
    {
        LineState {
            count: (self.count % COUNTS + 1) % COUNTS,
            ..self
        }
    }

    /// This, if a sign-on went out.
    #[tactic(auto, unfolding(crate::specs::LineStates::signed_on))]
    pub fn signed_on(self, size: u16) -> LineState
        ensures { result ≡ signed_on size self }
    {
        LineState {
            count: 0,
            size,
            ..self
        }
    }
}
