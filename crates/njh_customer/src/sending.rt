//! What a line sends. Every frame is put into `out`, which is empty then if none is sent, and
//! the line keeps what it sent.

ghost use Rattle.std.specs.Prelude.{◌≡◌, ◌≤◌, ◌||◌};
ghost use Rattle.njh_block.specs.Blocks.{all_suspended, same_fcs};
ghost use Rattle.njh_customer.specs.Sending as sending;

use crate::frame_buffer::FrameBuffer;
use njh_bisync::Control;
use njh_block::{Bcb, BlockWriter, ControlRcb, Fcs, Out};
use njh_line::{Line, Opening, Sent};

/// Sends a control frame. A NAK isn't sent again.
pub(crate) fn send_control(line: &mut Line, control: Control, out: &mut FrameBuffer)
    ensures line { line.new ≡ (sending.sending_of_control control line.old).line }
    ensures frame { out.new ≡ (sending.sending_of_control control line.old).frame }
{
    out.set_control(control);
    match control {
        Control::Enquiry | Control::Ack0 => line.sent(&Sent::Frame(out.bytes())),
        Control::Nak => line.sent(&Sent::Nak),
    }
}

/// Sends the last transmission again.
pub(crate) fn send_again(line: &mut Line, out: &mut FrameBuffer)
    ensures line { line.new ≡ (sending.sending_again line.old).line }
    ensures frame { out.new ≡ (sending.sending_again line.old).frame }
{
    out.set_frame(line.last());
    line.sent(&Sent::Again);
}

/// Sends the I or the J block. `block` is room for it.
pub(crate) fn send_opening(
    line: &mut Line,
    kind: Opening,
    block: &mut BlockWriter,
    out: &mut FrameBuffer,
)
    ensures line { line.new ≡ (sending.sending_of_opening kind line.old).line }
    ensures frame { out.new ≡ (sending.sending_of_opening kind line.old).frame }
{
    line.config().write_opening(kind, block);
    out.set_text(block.text());
    line.sent(&Sent::Frame(out.bytes()));
}

/// Begins a block of the hub's own count, without records.
pub(crate) fn begin_block(line: &Line, fcs: Fcs, block: &mut BlockWriter)
    ensures begun { block.new ≡ sending.own_block fcs line.now }
    ensures room { 300 ≤ block.new.limit }
{
    let session = line.session();
    block.restart(
        usize::from(session.size),
        Bcb::normal(session.next_count),
        fcs,
    );
}

/// Sends a block of the hub's own count.
fn send_block(line: &mut Line, block: &BlockWriter, fcs: Fcs, out: &mut FrameBuffer)
    requires { block.now.fcs ≡ fcs }
    ensures line { line.new ≡ (sending.sending_of_block block.now line.old).line }
    ensures frame { out.new ≡ (sending.sending_of_block block.now line.old).frame }
{
    out.set_text(block.text());
    line.sent(&Sent::Block {
        frame: out.bytes(),
        fcs,
    });
}

/// Tells the peer which count the hub expected.
pub(crate) fn send_sequence(
    line: &mut Line,
    expected: Bcb,
    fcs: Fcs,
    block: &mut BlockWriter,
    out: &mut FrameBuffer,
)
    ensures line { line.new ≡ (sending.sending_of_sequence fcs expected line.old).line }
    ensures frame { out.new ≡ (sending.sending_of_sequence fcs expected line.old).frame }
{
    begin_block(line, fcs, block);
    block.add(Out::Control {
        rcb: ControlRcb::SequenceError,
        srcb: expected.byte(),
    });
    send_block(line, block, fcs, out);
}

/// Sends ACK0 in the place of a block, or nothing.
fn send_no_block(line: &mut Line, or_ack0: bool, out: &mut FrameBuffer)
    ensures line { line.new ≡ (sending.sending_of_no_block or_ack0 line.old).line }
    ensures frame { out.new ≡ (sending.sending_of_no_block or_ack0 line.old).frame }
{
    if or_ack0 {
        send_control(line, Control::Ack0, out);
    } else {
        out.clear();
        line.sent(&Sent::Nothing);
    }
}

/// Whether a block without records isn't sent: the peer suspends all, or it tells no new function
/// control sequence.
pub(crate) fn tells_nothing(line: &Line, fcs: Fcs) -> bool
    ensures tells { result ≡ (all_suspended line.now.session.peer_fcs || same_fcs fcs line.now.session.own_fcs) }
    ensures room { 300 ≤ line.now.session.size }
{
    let session = line.session();
    session.peer_fcs.all_suspended() || fcs == session.own_fcs
}

/// Sends a block that was written, or what there is in its place.
pub(crate) fn send_written(
    line: &mut Line,
    or_ack0: bool,
    block: &BlockWriter,
    fcs: Fcs,
    out: &mut FrameBuffer,
)
    requires { block.now.fcs ≡ fcs }
    ensures line { line.new ≡ (sending.sending_of_written or_ack0 block.now line.old).line }
    ensures frame { out.new ≡ (sending.sending_of_written or_ack0 block.now line.old).frame }
{
    if block.is_empty() && tells_nothing(line, fcs) {
        send_no_block(line, or_ack0, out);
    } else {
        send_block(line, block, fcs, out);
    }
}
