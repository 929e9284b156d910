//! What the records of a block say.

ghost use Rattle.std.specs.Prelude.{◌≡◌, ◌≤◌, ◌++◌, codes, length, OnOk};
ghost use Rattle.njh_block.specs.ItemViews.{given_item};
ghost use Rattle.njh_decode.specs.Words.{label};
ghost use Rattle.njh_decode.specs.Records as records;

use crate::characters::{put_labelled, put_named, put_named_user, put_user};
use crate::faults::{header_fault_words, nmr_fault_words};
use crate::sign_ons::{put_control, put_general};
use crate::words::{put_both, put_byte, put_hex, put_numbered, put_stream, put_words};
use njh_block::{Item, Rcb};
use njh_ebcdic::put_characters;
use njh_header::{DataSetHeader, HeaderFault, JobHeader, srcb};
use njh_nmr::{Nmr, NmrFault};
use std::alloc::AllocError;

/// What the flag of a nodal message that is a command is at least: its first bit.
const COMMAND: u8 = 0x80;

/// Appends what a record says, whose bytes are these.
#[tactic(auto, unfolding(crate::specs::Records::record_words))]
pub(crate) fn put_record(
    line: &mut Vec<u8>,
    item: Item<'_>,
    bytes: &[u8],
    hex: bool,
) -> Result<(), AllocError>
    requires { length bytes.now ≤ 256 }
    ensures { OnOk result
        (line.new.items ≡ line.old.items ++ records.record_words hex (given_item bytes.now item.entry)) }
{
    match item {
        Item::Data { rcb, srcb } => {
            put_spelled(line, rcb.byte, srcb, bytes)?;
            put_hex_beside(line, hex, bytes)
        }
        Item::Abort { rcb, .. } => {
            put_owner(line, rcb.byte)?;
            put_words(line, " abort")
        }
        Item::Long { rcb, .. } => {
            put_owner(line, rcb.byte)?;
            put_words(line, " C3 TooLong")
        }
        Item::Control { rcb, srcb } => put_control(line, rcb, srcb),
        Item::General { srcb, rest } => put_general(line, srcb, rest),
    }
}

/// Appends the bytes of a record in hexadecimal, if they are asked for and there are any.
#[tactic(auto, unfolding(crate::specs::Records::hex_words))]
fn put_hex_beside(line: &mut Vec<u8>, hex: bool, bytes: &[u8]) -> Result<(), AllocError>
    requires { length bytes.now ≤ 256 }
    ensures { OnOk result (line.new.items ≡ line.old.items ++ records.hex_words hex bytes.now) }
{
    if bytes.is_empty() {
        return Ok(());
    }
    if hex {
        put_words(line, " ")?;
        put_hex(line, bytes)?;
    }
    Ok(())
}

/// Appends whose record it is.
#[tactic(auto, unfolding(crate::specs::Records::owner_words))]
fn put_owner(line: &mut Vec<u8>, rcb: u8) -> Result<(), AllocError>
    ensures { OnOk result (line.new.items ≡ line.old.items ++ records.owner_words rcb) }
{
    if rcb == Rcb::MESSAGE.byte {
        put_words(line, "nodal message")
    } else {
        put_stream(line, rcb)
    }
}

/// Appends what a record says that was spelled whole.
#[tactic(auto, unfolding(crate::specs::Records::spelled_words))]
fn put_spelled(line: &mut Vec<u8>, rcb: u8, srcb: u8, bytes: &[u8]) -> Result<(), AllocError>
    ensures { OnOk result (line.new.items ≡ line.old.items ++ records.spelled_words rcb srcb bytes.now) }
{
    if rcb == Rcb::MESSAGE.byte {
        return put_message(line, bytes);
    }
    put_stream(line, rcb)?;
    put_contents(line, rcb, srcb, bytes)
}

/// Appends what a record carries that is no nodal message.
#[tactic(auto, unfolding(crate::specs::Records::contents_words))]
fn put_contents(line: &mut Vec<u8>, rcb: u8, srcb: u8, bytes: &[u8]) -> Result<(), AllocError>
    ensures { OnOk result (line.new.items ≡ line.old.items ++ records.contents_words rcb srcb bytes.now) }
{
    if (Rcb { byte: rcb }).stream_number().is_some() {
        put_file_record(line, srcb, bytes)
    } else {
        put_data(line, srcb, bytes)
    }
}

/// Appends what a record of a stream says.
#[tactic(auto, unfolding(crate::specs::Records::file_record_words))]
fn put_file_record(line: &mut Vec<u8>, srcb: u8, bytes: &[u8]) -> Result<(), AllocError>
    ensures { OnOk result (line.new.items ≡ line.old.items ++ records.file_record_words srcb bytes.now) }
{
    if bytes.is_empty() {
        return put_words(line, " end of file");
    }
    match srcb {
        srcb::JOB_HEADER => put_job(line, bytes),
        srcb::DATA_SET_HEADER => put_data_set(line, bytes),
        srcb::JOB_TRAILER => put_words(line, " job trailer"),
        _ => put_data(line, srcb, bytes),
    }
}

/// Appends bytes under an SRCB.
#[tactic(auto, unfolding(crate::specs::Records::data_words))]
fn put_data(line: &mut Vec<u8>, srcb: u8, bytes: &[u8]) -> Result<(), AllocError>
    ensures { OnOk result (line.new.items ≡ line.old.items ++ records.data_words srcb bytes.now) }
{
    put_words(line, " data ")?;
    put_byte(line, srcb)?;
    put_quoted(line, bytes)
}

/// Appends bytes as characters in quotes.
#[tactic(auto, unfolding(crate::specs::Records::quoted_words))]
fn put_quoted(line: &mut Vec<u8>, bytes: &[u8]) -> Result<(), AllocError>
    ensures { OnOk result (line.new.items ≡ line.old.items ++ records.quoted_words bytes.now) }
{
    put_words(line, " '")?;
    put_characters(line, bytes)?;
    put_words(line, "'")
}

/// Appends what a job header says.
#[tactic(auto, unfolding(crate::specs::Records::job_words))]
fn put_job(line: &mut Vec<u8>, bytes: &[u8]) -> Result<(), AllocError>
    ensures { OnOk result (line.new.items ≡ line.old.items ++ records.job_words bytes.now) }
{
    put_job_or_fault(line, JobHeader::read(bytes))
}

/// Appends what a job header that was read says, or its fault.
fn put_job_or_fault(
    line: &mut Vec<u8>,
    read: Result<JobHeader, HeaderFault>,
) -> Result<(), AllocError>
    ensures { OnOk result (line.new.items ≡ line.old.items ++ records.job_or_fault read) }
{
    match read {
        Ok(header) => {
            put_job_file(line, &header)?;
            put_job_name(line, &header)?;
            put_job_ends(line, &header)
        }
        Err(fault) => put_both(line, " no job header: ", header_fault_words(fault)),
    }
}

/// Appends the name of a job's file.
#[tactic(auto, unfolding(crate::specs::Records::job_file_words))]
fn put_job_file(line: &mut Vec<u8>, header: &JobHeader) -> Result<(), AllocError>
    ensures { OnOk result (line.new.items ≡ line.old.items ++ records.job_file_words header.now) }
{
    put_named(line, " job header: ", header.origin_node())?;
    put_numbered(line, ".", header.number())
}

/// Appends a job's name, and the user who gave it.
#[tactic(auto, unfolding(crate::specs::Records::job_name_words))]
fn put_job_name(line: &mut Vec<u8>, header: &JobHeader) -> Result<(), AllocError>
    ensures { OnOk result (line.new.items ≡ line.old.items ++ records.job_name_words header.now) }
{
    put_labelled(line, ", name ", &header.name())?;
    put_labelled(line, ", user ", &header.user())
}

/// Appends where a job comes from, and where it is to run.
#[tactic(auto, unfolding(crate::specs::Records::job_ends_words))]
fn put_job_ends(line: &mut Vec<u8>, header: &JobHeader) -> Result<(), AllocError>
    ensures { OnOk result (line.new.items ≡ line.old.items ++ records.job_ends_words header.now) }
{
    put_named_user(line, ", from ", header.origin_node(), &header.origin_user())?;
    put_user(
        line,
        ", execution ",
        &header.execution_node(),
        &header.execution_user(),
    )
}

/// Appends what a data set header says.
#[tactic(auto, unfolding(crate::specs::Records::data_set_words))]
fn put_data_set(line: &mut Vec<u8>, bytes: &[u8]) -> Result<(), AllocError>
    ensures { OnOk result (line.new.items ≡ line.old.items ++ records.data_set_words bytes.now) }
{
    put_data_set_or_fault(line, DataSetHeader::read(bytes))
}

/// Appends what a data set header that was read says, or its fault.
fn put_data_set_or_fault(
    line: &mut Vec<u8>,
    read: Result<DataSetHeader, HeaderFault>,
) -> Result<(), AllocError>
    ensures { OnOk result (line.new.items ≡ line.old.items ++ records.data_set_or_fault read) }
{
    match read {
        Ok(header) => {
            put_named_user(
                line,
                " data set header: destination ",
                header.destination_node(),
                &header.destination_user(),
            )
        }
        Err(fault) => put_both(line, " no data set header: ", header_fault_words(fault)),
    }
}

/// Appends what a nodal message says.
#[tactic(auto, unfolding(crate::specs::Records::message_words))]
fn put_message(line: &mut Vec<u8>, bytes: &[u8]) -> Result<(), AllocError>
    ensures { OnOk result (line.new.items ≡ line.old.items ++ records.message_words bytes.now) }
{
    put_message_or_fault(line, bytes, Nmr::read(bytes))
}

/// Appends what a nodal message that was read says, or its fault.
fn put_message_or_fault(
    line: &mut Vec<u8>,
    bytes: &[u8],
    read: Result<Nmr, NmrFault>,
) -> Result<(), AllocError>
    ensures { OnOk result (line.new.items ≡ line.old.items ++ records.message_or_fault bytes.now read) }
{
    match read {
        Ok(message) => put_nodal(line, is_command(bytes), &message),
        Err(fault) => put_both(line, "no nodal message: ", nmr_fault_words(fault)),
    }
}

/// Whether the flag of a nodal message says that it is a command.
fn is_command(bytes: &[u8]) -> bool
    ensures { result ≡ records.is_command bytes.now }
{
    match bytes {
        [flag, ..] => *flag >= COMMAND,
        [] => false,
    }
}

/// Appends the fields of a nodal message.
fn put_nodal(line: &mut Vec<u8>, command: bool, message: &Nmr) -> Result<(), AllocError>
    ensures { OnOk result (line.new.items
        ≡ line.old.items ++ records.ends_words command message.now ++ label (codes ":")
        ++ records.quoted_words message.now.message) }
{
    put_ends(line, command, message)?;
    put_words(line, ":")?;
    put_quoted(line, message.message())
}

/// Appends where a nodal message comes from and where it goes.
#[tactic(auto, unfolding(crate::specs::Records::ends_words))]
fn put_ends(line: &mut Vec<u8>, command: bool, message: &Nmr) -> Result<(), AllocError>
    ensures { OnOk result (line.new.items ≡ line.old.items ++ records.ends_words command message.now) }
{
    if command {
        put_command_ends(line, message)
    } else {
        put_message_ends(line, message)
    }
}

/// Appends the ends of a command.
#[tactic(auto, unfolding(crate::specs::Records::command_ends_words))]
fn put_command_ends(line: &mut Vec<u8>, message: &Nmr) -> Result<(), AllocError>
    ensures { OnOk result (line.new.items ≡ line.old.items ++ records.command_ends_words message.now) }
{
    put_named_user(line, "command from ", message.origin(), &message.user())?;
    put_named(line, " to ", message.to())
}

/// Appends the ends of a message.
#[tactic(auto, unfolding(crate::specs::Records::message_ends_words))]
fn put_message_ends(line: &mut Vec<u8>, message: &Nmr) -> Result<(), AllocError>
    ensures { OnOk result (line.new.items ≡ line.old.items ++ records.message_ends_words message.now) }
{
    put_named(line, "message from ", message.origin())?;
    put_named_user(line, " to ", message.to(), &message.user())
}
