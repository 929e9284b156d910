//! Checks a script, and says why its first bad line is one.

ghost use Rattle.std.specs.Prelude.{◌≡◌, ◌≤◌, length, get_or, is_ok, false, [], Err, IfOk, OnOk, OnErr};
ghost use Rattle.std.specs.Io.KnownBytes.{Appends};
ghost use Rattle.njh_io.specs.Lines.{lines_of};
ghost use Rattle.njh_io.specs.Written.{AppendsBeginning};
ghost use Rattle.njh_check.specs.ScriptChecks.{check_words, found_words, is_right, long_words};
ghost use Rattle.njh_replay.specs.Script.{max_script_bytes, script_of};

use crate::fault::CheckFault;
use crate::script_reasons::reason_of;
use crate::script_words::{bad_words, right_words};
use njh_io::{next_line, write_bytes};
use njh_replay::{MAX_SCRIPT_BYTES, ReplayFault, events_of};
use njh_table::Tables;
use std::alloc::{AllocError, Global};
use std::io::Write;

/// Writes one line of a script: how many events it has if it is right; or the number of its first
/// bad line, and the first thing that is wrong with that, from its left to its right; or that it is
/// too long. Says whether it is right.
pub fn check_script<W: Write>(
    alloc: Global,
    tables: &Tables,
    text: &[u8],
    out: &mut W,
) -> Result<bool, CheckFault>
    ensures right { IfOk result (λ right. right ≡ is_right tables.now text.now) }
    ensures told { OnOk result (Appends (W.contents out.old) (W.contents out.new) (check_words tables.now text.now)) }
    // Else a device failed, or memory ran out, and a beginning of that line is written, or nothing.
    ensures begun { OnErr result (AppendsBeginning (W.contents out.old) (W.contents out.new)
        (check_words tables.now text.now)) }
    ensures memory { result ≡ Err CheckFault.Memory → W.contents out.new ≡ W.contents out.old }
{
    let finding = finding_of(alloc, tables, text)?;
    write_bytes(out, &finding.words)?;
    match out.flush() {
        Ok(()) => Ok(finding.is_right),
        Err(_) => Err(CheckFault::Device),
    }
}

/// What is said of a script, and whether it is right.
#[derive(Drop)]
struct Finding {
    is_right: bool,
    words: Vec<u8>,
}

/// What is said of a script.
fn finding_of(alloc: Global, tables: &Tables, text: &[u8]) -> Result<Finding, AllocError>
    ensures right { IfOk result (λ finding. finding.is_right ≡ is_right tables.now text.now) }
    ensures words { IfOk result (λ finding. finding.words.items ≡ check_words tables.now text.now) }
{
    if text.len() > MAX_SCRIPT_BYTES {
        return too_long(alloc);
    }
    events_found(alloc, tables, text)
}

/// What is said of a script that isn't too long.
fn events_found(alloc: Global, tables: &Tables, text: &[u8]) -> Result<Finding, AllocError>
    requires { length text.now ≤ max_script_bytes }
    ensures right { IfOk result (λ finding. finding.is_right ≡ is_ok (script_of tables.now text.now)) }
    ensures words { IfOk result (λ finding. finding.words.items
        ≡ found_words tables.now text.now (script_of tables.now text.now)) }
{
    match events_of(alloc, tables, text) {
        Ok(events) => Ok(Finding {
            is_right: true,
            words: right_words(alloc, events.len())?,
        }),
        Err(ReplayFault::Script { line }) => {
            let reason = reason_of(alloc, tables, line_after(text, line.saturating_sub(1)))?;
            Ok(Finding {
                is_right: false,
                words: bad_words(alloc, line, reason)?,
            })
        }
        Err(_) => Err(AllocError),
    }
}

/// What is said of a script that is too long.
fn too_long(alloc: Global) -> Result<Finding, AllocError>
    ensures right { IfOk result (λ finding. finding.is_right ≡ false) }
    ensures words { IfOk result (λ finding. finding.words.items ≡ long_words) }
{
    Ok(Finding {
        is_right: false,
        words: Vec::from_slice(alloc, b"script: more than 1048576 bytes\n")?,
    })
}

/// The line after so many others, or nothing if there is none.
fn line_after(text: &[u8], before: u32) -> &[u8]
    ensures { result.now ≡ get_or (lines_of text.now) before [] }
{
    let mut rest = text;
    let mut left = before;
    while let Some((line, after)) = next_line(rest) {
        if left == 0 {
            return line;
        }
        left -= 1;
        rest = after;
    }
    &[]
}
