//! The lines of a script that a file becomes.

ghost use Rattle.std.specs.Prelude.{◌≡◌, ◌≢◌, ◌++◌, ◌∷◌, ◌≤◌, ℕ, [], List, IfOk, IfErr, MatchResult, OnOk, Ok, Err};
ghost use Rattle.std.specs.Prelude.{length, map};
ghost use Rattle.njh_io.specs.Lines.{lines_of};
ghost use Rattle.njh_encode.specs.Packing.{blocks_script, counted_by, data_set_record, file_blocks, job_record};
ghost use Rattle.njh_encode.specs.Packing.{record_of_line, records_of, sysout};
ghost use Rattle.njh_encode.specs.code.Puts.{Puts};

use crate::characters::bytes_of_text;
use crate::fault::Reason;
use crate::line_states::LineState;
use crate::packing::Packing;
use crate::posting::Posting;
use crate::sentences::put_request;
use arrayvec::ArrayVec;
use njh_block::{ControlRcb, Stream};
use njh_header::srcb::{DATA_SET_HEADER, JOB_HEADER, JOB_TRAILER};
use njh_io::next_line;
use njh_record::{Record, put_bytes};
use std::str;

/// The SRCB of a line of text, and of the end of a file.
const LINE: u8 = 0x80;

/// A blank.
const BLANK: u8 = 0x40;

/// The prefix of a job header, and its general section up to the job's number: their lengths are
/// 100 and 96.
const JOB_HEAD: [u8; 8] = [0, 100, 0, 0, 0, 96, 0, 0];

/// What is between the job's number and its name.
const BEHIND_NUMBER: [u8; 18] = [0; 18];

/// What is between the user who gave the job and its origin.
const BEHIND_USER: [u8; 24] = [0; 24];

/// The prefix of a data set header, and its general section up to its destination: their lengths
/// are 24 and 20.
const DATA_SET_HEAD: [u8; 8] = [0, 24, 0, 0, 0, 20, 0, 0];

/// A job trailer: a prefix alone.
const TRAILER: [u8; 4] = [0, 4, 0, 0];

impl Posting {
    /// The job header. The job is called as its owner.
    fn job_header(&self) -> Record
        ensures bytes { result.items ≡ job_record self.now }
        ensures few { length result.items ≤ 256 }
    {
        let mut record = ArrayVec::new();
        put_bytes(&mut record, &JOB_HEAD);
        put_bytes(&mut record, &self.number.to_be_bytes());
        put_bytes(&mut record, &BEHIND_NUMBER);
        put_bytes(&mut record, &self.owner.bytes());
        put_bytes(&mut record, &self.owner.bytes());
        put_bytes(&mut record, &BEHIND_USER);
        put_bytes(&mut record, &self.origin.bytes());
        put_bytes(&mut record, &self.owner.bytes());
        put_bytes(&mut record, &self.destination.bytes());
        put_bytes(&mut record, &self.receiver.bytes());
        record
    }

    /// The data set header.
    fn data_set_header(&self) -> Record
        ensures bytes { result.items ≡ data_set_record self.now }
        ensures few { length result.items ≤ 256 }
    {
        let mut record = ArrayVec::new();
        put_bytes(&mut record, &DATA_SET_HEAD);
        put_bytes(&mut record, &self.destination.bytes());
        put_bytes(&mut record, &self.receiver.bytes());
        record
    }
}

/// The record of a line of text. An empty line is a blank, since a record without bytes ends a
/// file.
fn record_of_line(line: &[u8]) -> Result<Record, Reason>
    ensures taken { MatchResult result (λ taken. record_of_line line.now ≡ Ok taken.items)
        (λ reason. record_of_line line.now ≡ Err reason) }
    ensures few { IfOk result (λ taken. length taken.items ≤ 256) }
{
    if line.is_empty() {
        let mut record = ArrayVec::new();
        record.push(BLANK);
        return Ok(record);
    }
    match str::from_utf8(line) {
        Ok(text) => bytes_of_text(256, text),
        Err(_) => Err(Reason::NoText),
    }
}

/// Adds a line of text.
fn put_text_line(
    script: &mut Vec<u8>,
    name: &str,
    packing: &mut Packing,
    line: &[u8],
) -> Result<(), Reason>
    ensures put { OnOk result ((bytes : List ℕ) × (record_of_line line.now ≡ Ok bytes)
        × Puts name.now packing.old (sysout 0x80 bytes ∷ []) packing.new script.old.items script.new.items) }
    ensures refused { IfErr result (λ reason. reason ≢ Reason.Memory → record_of_line line.now ≡ Err reason) }
{
    let record = record_of_line(line)?;
    packing.add(script, name, LINE, &record)?;
    Ok(())
}

/// Adds the lines of a text.
fn put_lines(
    script: &mut Vec<u8>,
    name: &str,
    packing: &mut Packing,
    text: &[u8],
) -> Result<(), Reason>
    ensures put { OnOk result ((records : List (List ℕ)) × (records_of (lines_of text.now) ≡ Ok records)
        × Puts name.now packing.old (map (sysout 0x80) records) packing.new script.old.items script.new.items) }
    ensures refused { IfErr result (λ reason. reason ≢ Reason.Memory → records_of (lines_of text.now) ≡ Err reason) }
{
    let mut left = text;
    while let Some((line, behind)) = next_line(left) {
        put_text_line(script, name, packing, line)?;
        left = behind;
    }
    Ok(())
}

/// Appends the lines of a file that has the lines of a text, and answers what is kept of the hub's
/// line then.
pub(crate) fn put_file(
    script: &mut Vec<u8>,
    state: LineState,
    name: &str,
    posting: &Posting,
    text: &[u8],
) -> Result<LineState, Reason>
    ensures put { IfOk result (λ after. (records : List (List ℕ)) × (records_of (lines_of text.now) ≡ Ok records)
        × (script.new.items ≡ script.old.items ++ blocks_script name.now (file_blocks state posting.now records))
        × (after ≡ counted_by (file_blocks state posting.now records) state)) }
    ensures refused { IfErr result (λ reason. reason ≢ Reason.Memory → records_of (lines_of text.now) ≡ Err reason) }
{
    let state = put_request(script, state, name, ControlRcb::Request, Stream::sysout(0))?;
    let mut packing = Packing::new(state);
    packing.add(script, name, JOB_HEADER, &posting.job_header())?;
    packing.add(script, name, DATA_SET_HEADER, &posting.data_set_header())?;
    put_lines(script, name, &mut packing, text)?;
    packing.add(script, name, JOB_TRAILER, &TRAILER)?;
    packing.add(script, name, LINE, b"")?;
    packing.end(script, name)?;
    Ok(packing.state())
}
