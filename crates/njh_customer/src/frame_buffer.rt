//! The frame that a step sends.

ghost use Rattle.std.specs.Prelude.{◌≡◌, ◌≤◌, ◌↔◌, [], length, IsTrue};
ghost use Rattle.std.specs.Vec.{vec_capacity};
ghost use Rattle.njh_bisync.specs.Written.{text_bytes, control_bytes};

use njh_bisync::{Control, LONGEST_FRAME, LONGEST_TEXT, put_control, put_text};
use std::marker::Model;

/// One frame, or nothing if none is sent, with the room for the longest. A caller sees its
/// bytes.
#[derive(Drop)]
pub struct FrameBuffer {
    bytes: Vec<u8>,
}

impl Model for FrameBuffer {
    ghost use Rattle.std.specs.Prelude.{List, ℕ, ◌≤◌, length};
    ghost use Rattle.std.specs.Vec.{vec_capacity};
    ghost use Rattle.njh_bisync.specs.declared.frame.TheConstants.{LONGEST_FRAME};

    ghost Value = { List ℕ };

    ghost view = { λ x. x.bytes.items };

    ghost invariant = { λ x. (LONGEST_FRAME ≤ vec_capacity x.bytes) × (length x.bytes.items ≤ LONGEST_FRAME) };
}

impl FrameBuffer {
    /// No frame yet, in the room of a vector; what it held goes.
    pub fn of(bytes: Vec<u8>) -> FrameBuffer
        requires { LONGEST_FRAME ≤ vec_capacity bytes }
        ensures { result ≡ [] }
    {
        let mut bytes = bytes;
        bytes.clear();
        FrameBuffer { bytes }
    }

    /// The vector with the frame.
    pub fn into_bytes(self) -> Vec<u8>
        ensures bytes { result.items ≡ self }
        ensures room { LONGEST_FRAME ≤ vec_capacity result }
    {
        self.bytes
    }

    /// The frame; empty if there is none.
    pub fn bytes(&self) -> &[u8]
        ensures same { result.now ≡ self.now }
        ensures short { length result.now ≤ LONGEST_FRAME }
    {
        self.bytes.as_slice()
    }

    /// Whether there is no frame.
    pub fn is_empty(&self) -> bool
        ensures { IsTrue result ↔ (self.now ≡ []) }
    {
        self.bytes.is_empty()
    }

    /// Takes the frame away.
    pub fn clear(&mut self)
        ensures { self.new ≡ [] }
    {
        self.bytes.clear();
    }

    /// Puts a text of these bytes in the place of the frame.
    pub fn set_text(&mut self, text: &[u8])
        requires { length text.now ≤ LONGEST_TEXT }
        ensures { self.new ≡ text_bytes text.now }
    {
        self.bytes.clear();
        put_text(text, &mut self.bytes).unwrap();
    }

    /// Puts a control frame in the place of the frame.
    pub fn set_control(&mut self, control: Control)
        ensures { self.new ≡ control_bytes control }
    {
        self.bytes.clear();
        put_control(control, &mut self.bytes).unwrap();
    }

    /// Puts a whole frame in the place of the frame.
    pub fn set_frame(&mut self, frame: &[u8])
        requires { length frame.now ≤ LONGEST_FRAME }
        ensures { self.new ≡ frame.now }
    {
        self.bytes.clear();
        self.bytes.extend_from_slice(frame).unwrap();
    }
}
