//! The lines of a script that statements become.

ghost use Rattle.std.specs.Prelude.{◌≡◌, ◌++◌, ◌∷◌, [], OnOk, IfOk, Ok, Some};
ghost use Rattle.njh_nmr.specs.Nodal.{nodal_of, record_of};
ghost use Rattle.njh_block.specs.ItemViews.{IsWritable, outgoing_item};
ghost use Rattle.njh_encode.specs.LineStates.{counted, signed_on};
ghost use Rattle.njh_block.specs.Blocks.{Control, Data, General, control_byte, rcb_of, stream_of};
ghost use Rattle.njh_encode.specs.Encoded.{bytes_line, bytes_of_frame, frame_of_block, block_with, next_block};
ghost use Rattle.njh_encode.specs.Encoded.{ReadsAsSaid, ReadsBlock, said_line, state_after};
ghost use Rattle.njh_header.specs.SignOns.{sign_on, sign_on_bytes};

use crate::line_states::LineState;
use crate::putting::{put_block, put_control_frame, put_end, put_script_line};
use crate::statement::{Message, Statement};
use arrayvec::ArrayVec;
use njh_block::{Bcb, ControlRcb, Out, Rcb, Stream};
use njh_header::SignOn;
use njh_record::{Record, put_bytes};
use std::alloc::AllocError;

/// The SRCB of a sign-off.
const SIGN_OFF: u8 = 0xc2;

/// The RCB and the SRCB of a nodal message.
const NODAL: Rcb = Rcb { byte: 0x9a };

const NODAL_SRCB: u8 = 0x80;

/// The level, the type and the qualifiers of a node that has no members.
const LEVEL: u8 = 0x77;

const KIND: u8 = 0x00;

const NO_QUALIFIER: u8 = 0x00;

/// Appends the line of a statement, and answers what is kept of the hub's line then.
pub(crate) fn put_statement(
    script: &mut Vec<u8>,
    state: LineState,
    name: &str,
    statement: &Statement,
) -> Result<LineState, AllocError>
    ensures said { OnOk result (script.new.items
        ≡ script.old.items ++ said_line state name.now statement.now) }
    ensures state { IfOk result (λ after. after ≡ state_after state statement.now) }
    ensures reads { OnOk result (ReadsAsSaid state statement.now) }
{
    match statement {
        Statement::Control(control) => {
            put_control_frame(script, name, *control)?;
            Ok(state)
        }
        Statement::End => {
            put_end(script, name)?;
            Ok(state)
        }
        Statement::Tick => {
            put_script_line(script, "TICK ", name, b"")?;
            Ok(state)
        }
        Statement::Garbled => {
            put_script_line(script, "GARBLED ", name, b"")?;
            Ok(state)
        }
        Statement::Lost => {
            put_script_line(script, "LOST ", name, b"")?;
            Ok(state)
        }
        Statement::Request(rcb, stream) => put_request(script, state, name, *rcb, *stream),
        Statement::SignOn(srcb, sign_on) => put_sign_on(script, state, name, *srcb, sign_on),
        Statement::SignOff => put_sign_off(script, state, name),
        Statement::Message(message) => put_message(script, state, name, message),
    }
}

/// Appends the line of a request or an answer to one.
pub(crate) fn put_request(
    script: &mut Vec<u8>,
    state: LineState,
    name: &str,
    rcb: ControlRcb,
    stream: Stream,
) -> Result<LineState, AllocError>
    ensures said { OnOk result (script.new.items ≡ script.old.items ++ bytes_line name.now
        (bytes_of_frame (frame_of_block (next_block state (Control (control_byte rcb) (rcb_of stream)))))) }
    ensures state { IfOk result (λ after. after ≡ counted state) }
    ensures reads { OnOk result (ReadsBlock (next_block state (Control (control_byte rcb) (rcb_of stream)))
        × (stream_of 4 (rcb_of stream) ≡ Some stream)) }
{
    let srcb = stream.rcb().byte;
    put_counted(script, state, name, Out::Control { rcb, srcb })
}

/// Appends the line of a sign-on.
fn put_sign_on(
    script: &mut Vec<u8>,
    state: LineState,
    name: &str,
    srcb: u8,
    on: &SignOn,
) -> Result<LineState, AllocError>
    ensures said { OnOk result (script.new.items ≡ script.old.items ++ bytes_line name.now
        (bytes_of_frame (frame_of_block (block_with 0xa0 (General srcb (sign_on_bytes on.now)))))) }
    ensures state { IfOk result (λ after. after ≡ signed_on on.now.block state) }
    ensures reads { OnOk result (ReadsBlock (block_with 0xa0 (General srcb (sign_on_bytes on.now)))
        × (sign_on (sign_on_bytes on.now ++ 0 ∷ []) ≡ Ok on.now)) }
{
    let mut bytes = ArrayVec::new();
    on.write(&mut bytes);
    let bytes = &bytes;
    put_block(script, name, Bcb::setting(0), Out::General { srcb, bytes })?;
    Ok(state.signed_on(on.block))
}

/// Appends the line of a sign-off.
fn put_sign_off(script: &mut Vec<u8>, state: LineState, name: &str) -> Result<LineState, AllocError>
    ensures said { OnOk result (script.new.items ≡ script.old.items ++ bytes_line name.now
        (bytes_of_frame (frame_of_block (next_block state (General 0xc2 []))))) }
    ensures state { IfOk result (λ after. after ≡ counted state) }
    ensures reads { OnOk result (ReadsBlock (next_block state (General 0xc2 []))) }
{
    let end = Out::General {
        srcb: SIGN_OFF,
        bytes: &[],
    };
    put_counted(script, state, name, end)
}

/// Appends the line of a nodal message.
fn put_message(
    script: &mut Vec<u8>,
    state: LineState,
    name: &str,
    message: &Message,
) -> Result<LineState, AllocError>
    ensures said { OnOk result (script.new.items ≡ script.old.items ++ bytes_line name.now
        (bytes_of_frame (frame_of_block (next_block state (Data 0x9a 0x80 (record_of message.now)))))) }
    ensures state { IfOk result (λ after. after ≡ counted state) }
    ensures reads { OnOk result (ReadsBlock (next_block state (Data 0x9a 0x80 (record_of message.now)))
        × (nodal_of (record_of message.now) ≡ Ok message.now)) }
{
    let record = message.record();
    let out = Out::Data {
        rcb: NODAL,
        srcb: NODAL_SRCB,
        bytes: &record,
    };
    put_counted(script, state, name, out)
}

/// Appends the line of a block of one record under the line's next count, and counts it.
fn put_counted(
    script: &mut Vec<u8>,
    state: LineState,
    name: &str,
    out: Out<'_>,
) -> Result<LineState, AllocError>
    requires { IsWritable out }
    ensures said { OnOk result (script.new.items ≡ script.old.items ++ bytes_line name.now
        (bytes_of_frame (frame_of_block (next_block state (outgoing_item out.entry))))) }
    ensures state { IfOk result (λ after. after ≡ counted state) }
    ensures reads { OnOk result (ReadsBlock (next_block state (outgoing_item out.entry))) }
{
    put_block(script, name, Bcb::normal(state.next_count()), out)?;
    Ok(state.counted())
}

impl Message {
    ghost use Rattle.std.specs.Prelude.{◌≡◌, Ok};
    ghost use Rattle.njh_nmr.specs.Nodal.{nodal_of, record_of};

    /// Its record.
    fn record(&self) -> Record
        ensures bytes { result.items ≡ record_of self.now }
        ensures reads { nodal_of (record_of self.now) ≡ Ok self.now }
    {
        let mut record = ArrayVec::new();
        let length = self.text.len() as u8;
        put_bytes(&mut record, &[self.flag, LEVEL, KIND, length]);
        put_bytes(&mut record, &self.ends.to.bytes());
        record.push(NO_QUALIFIER);
        put_bytes(&mut record, &self.ends.user.bytes());
        put_bytes(&mut record, &self.ends.origin.bytes());
        record.push(NO_QUALIFIER);
        put_bytes(&mut record, &self.text);
        record
    }
}
