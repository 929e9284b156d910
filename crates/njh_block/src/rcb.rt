//! Record control bytes.

ghost use Rattle.std.specs.Prelude.{◌≡◌, ◌<◌, ◌≤◌};
ghost use Rattle.njh_block.specs.Blocks.{control_byte, form_of, stream_number, stream_of};

use crate::stream::Stream;

/// What a two-byte record says (IBM SC23-0070, "Multileaving").
#[derive(Clone, Copy, Debug, PartialEq, Eq)]
pub enum ControlRcb {
    /// A stream asks to be sent.
    Request,
    /// The stream may come.
    Permission,
    /// The stream may not come, or its receiver gives it up.
    Refusal,
    /// The stream came whole.
    Completion,
    /// A receiver is ready, which is ignored.
    Ready,
    /// A block came out of sequence.
    SequenceError,
}

const REQUEST: u8 = 0x90;

const PERMISSION: u8 = 0xa0;

const REFUSAL: u8 = 0xb0;

const COMPLETION: u8 = 0xc0;

const READY: u8 = 0xd0;

const SEQUENCE_ERROR: u8 = 0xe0;

impl ControlRcb {
    /// Its byte.
    pub fn byte(self) -> u8
        ensures { result ≡ control_byte self }
    {
        match self {
            ControlRcb::Request => REQUEST,
            ControlRcb::Permission => PERMISSION,
            ControlRcb::Refusal => REFUSAL,
            ControlRcb::Completion => COMPLETION,
            ControlRcb::Ready => READY,
            ControlRcb::SequenceError => SEQUENCE_ERROR,
        }
    }
}

/// What comes after a byte in the place of an RCB.
#[derive(Clone, Copy, Debug, PartialEq, Eq)]
pub enum Form {
    /// Nothing: the byte ends the block.
    End,
    /// Nothing that is allowed.
    Bad,
    /// An SRCB and the rest of the text.
    General,
    /// An SRCB alone.
    Control(ControlRcb),
    /// An SRCB and a spelling.
    Spelled,
}

/// A byte in the place of a record control byte.
#[derive(Clone, Copy, Debug, PartialEq, Eq)]
pub struct Rcb {
    /// The byte, of any value.
    pub byte: u8,
}

/// What ends a block in the place of an RCB.
pub(crate) const END: u8 = 0x00;

/// What a two-byte record has after it if another byte follows.
pub(crate) const OWN_ZERO: u8 = 0x00;

/// The RCB of a general control record.
pub(crate) const GENERAL: u8 = 0xf0;

/// The first byte that is an RCB.
const FIRST: u8 = 0x80;

/// How far the RCBs of two streams of a kind that follow each other lie apart.
pub(crate) const STEP: u8 = 16;

/// What the RCB of each stream is at least.
pub(crate) const FIRST_OF_STREAMS: u8 = 0x90;

/// The last four bits of the RCB of a SYSIN stream.
pub(crate) const SYSIN: u8 = 8;

/// The last four bits of the RCB of a SYSOUT stream.
pub(crate) const SYSOUT: u8 = 9;

impl Rcb {
    /// That of a nodal message.
    pub const MESSAGE: Rcb = Rcb { byte: 0x9a };

    /// What comes after it.
    pub fn form(self) -> Form
        ensures { result ≡ form_of self.byte }
    {
        match self.byte {
            END => Form::End,
            ..FIRST => Form::Bad,
            REQUEST => Form::Control(ControlRcb::Request),
            PERMISSION => Form::Control(ControlRcb::Permission),
            REFUSAL => Form::Control(ControlRcb::Refusal),
            COMPLETION => Form::Control(ControlRcb::Completion),
            READY => Form::Control(ControlRcb::Ready),
            SEQUENCE_ERROR => Form::Control(ControlRcb::SequenceError),
            GENERAL => Form::General,
            _ => Form::Spelled,
        }
    }

    /// Which of SYSIN 1 to 7 or of SYSOUT 1 to 7 it names, counted from 0.
    pub fn stream_number(self) -> Option<u8>
        ensures { result ≡ stream_number self.byte }
    {
        let kind = self.byte % STEP;
        if self.byte >= FIRST_OF_STREAMS && (kind == SYSIN || kind == SYSOUT) {
            Some((self.byte - FIRST_OF_STREAMS) / STEP)
        } else {
            None
        }
    }

    /// The stream that it names, if a line has so many streams of each kind.
    pub fn stream(self, streams: u8) -> Option<Stream>
        requires { streams ≤ 4 }
        ensures { result ≡ stream_of streams self.byte }
    {
        let number = self.stream_number()?;
        if number >= streams {
            return None;
        }
        Some(if self.byte % STEP == SYSIN {
            Stream::sysin(number)
        } else {
            Stream::sysout(number)
        })
    }
}
