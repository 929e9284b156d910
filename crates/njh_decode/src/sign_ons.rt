//! What two-byte records and general control records say.

ghost use Rattle.std.specs.Prelude.{◌≡◌, ◌++◌, OnOk};
ghost use Rattle.njh_block.specs.Blocks.{control_byte};
ghost use Rattle.njh_decode.specs.Words.{byte_words, label, stream_words};
ghost use Rattle.njh_decode.specs.Records.{control_words, features_words, general_words};
ghost use Rattle.njh_decode.specs.Records.{node_and_size_words, sign_on_or_fault, sign_on_words};

use crate::characters::put_named;
use crate::faults::header_fault_words;
use crate::words::{put_both, put_byte, put_hex, put_numbered, put_stream, put_words};
use njh_block::ControlRcb;
use njh_header::{HeaderFault, SignOn};
use std::alloc::AllocError;

/// The SRCB of an initial sign-on.
const INITIAL: u8 = 0xc9;

/// The SRCB of a response to one.
const RESPONSE: u8 = 0xd1;

/// The SRCB of a sign-on that begins anew.
const RESET: u8 = 0xd2;

/// The SRCB of a sign-off.
const SIGN_OFF: u8 = 0xc2;

/// Where a sign-on's features begin, from its length byte on.
const FEATURES: usize = 35;

/// Where they end.
const END_OF_FEATURES: usize = 39;

/// Appends what a two-byte record says.
#[tactic(auto, unfolding(crate::specs::Records::control_words))]
pub(crate) fn put_control(line: &mut Vec<u8>, rcb: ControlRcb, srcb: u8) -> Result<(), AllocError>
    ensures { OnOk result (line.new.items ≡ line.old.items ++ control_words (control_byte rcb) srcb) }
{
    match rcb {
        ControlRcb::Request => put_of_stream(line, "request ", srcb),
        ControlRcb::Permission => put_of_stream(line, "permission ", srcb),
        ControlRcb::Refusal => put_of_stream(line, "refusal ", srcb),
        ControlRcb::Completion => put_of_stream(line, "transmission complete ", srcb),
        ControlRcb::Ready => put_with_byte(line, "ready ", srcb),
        ControlRcb::SequenceError => put_with_byte(line, "block sequence error, expected ", srcb),
    }
}

/// Appends words and a stream.
fn put_of_stream(line: &mut Vec<u8>, words: &str, rcb: u8) -> Result<(), AllocError>
    ensures { OnOk result (line.new.items ≡ line.old.items ++ label words.now ++ stream_words rcb) }
{
    put_words(line, words)?;
    put_stream(line, rcb)
}

/// Appends words and a byte in hexadecimal.
fn put_with_byte(line: &mut Vec<u8>, words: &str, byte: u8) -> Result<(), AllocError>
    ensures { OnOk result (line.new.items ≡ line.old.items ++ label words.now ++ byte_words byte) }
{
    put_words(line, words)?;
    put_byte(line, byte)
}

/// Appends what a general control record says.
#[tactic(auto, unfolding(crate::specs::Records::general_words))]
pub(crate) fn put_general(line: &mut Vec<u8>, srcb: u8, rest: &[u8]) -> Result<(), AllocError>
    ensures { OnOk result (line.new.items ≡ line.old.items ++ general_words srcb rest.now) }
{
    match srcb {
        INITIAL => put_sign_on(line, "sign-on I", rest),
        RESPONSE => put_sign_on(line, "sign-on J", rest),
        RESET => put_words(line, "sign-on K"),
        SIGN_OFF => put_words(line, "sign-off"),
        _ => put_with_byte(line, "general control ", srcb),
    }
}

/// Appends words and what a sign-on says.
fn put_sign_on(line: &mut Vec<u8>, words: &str, rest: &[u8]) -> Result<(), AllocError>
    ensures { OnOk result (line.new.items ≡ line.old.items ++ label words.now ++ sign_on_words rest.now) }
{
    put_words(line, words)?;
    put_fields(line, rest)
}

/// Appends what a sign-on says.
#[tactic(auto, unfolding(crate::specs::Records::sign_on_words))]
fn put_fields(line: &mut Vec<u8>, rest: &[u8]) -> Result<(), AllocError>
    ensures { OnOk result (line.new.items ≡ line.old.items ++ sign_on_words rest.now) }
{
    put_sign_on_or_fault(line, rest, SignOn::read(rest))
}

/// Appends what a sign-on that was read says, or its fault.
fn put_sign_on_or_fault(
    line: &mut Vec<u8>,
    rest: &[u8],
    read: Result<SignOn, HeaderFault>,
) -> Result<(), AllocError>
    ensures { OnOk result (line.new.items ≡ line.old.items ++ sign_on_or_fault rest.now read) }
{
    match read {
        Ok(sign_on) => {
            put_node_and_size(line, &sign_on)?;
            put_features(line, rest)
        }
        Err(fault) => put_both(line, ": ", header_fault_words(fault)),
    }
}

/// Appends the node and the block size of a sign-on.
#[tactic(auto, unfolding(crate::specs::Records::node_and_size_words))]
fn put_node_and_size(line: &mut Vec<u8>, sign_on: &SignOn) -> Result<(), AllocError>
    ensures { OnOk result (line.new.items ≡ line.old.items ++ node_and_size_words sign_on.now) }
{
    put_named(line, ": node ", sign_on.node)?;
    put_numbered(line, ", block size ", sign_on.block)
}

/// Appends the features of a sign-on, if they are whole.
#[tactic(auto, unfolding(crate::specs::Records::features_words))]
fn put_features(line: &mut Vec<u8>, rest: &[u8]) -> Result<(), AllocError>
    ensures { OnOk result (line.new.items ≡ line.old.items ++ features_words rest.now) }
{
    if rest.len() < END_OF_FEATURES {
        return Ok(());
    }
    put_words(line, ", features ")?;
    put_hex(line, &rest[FEATURES..END_OF_FEATURES])
}
