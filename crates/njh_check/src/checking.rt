//! Checks a table file and tells what it says.

ghost use Rattle.std.specs.Prelude.{◌≡◌, ◌≢◌, ◌≤◌, ◌++◌, ◌∷◌, [], ℕ, List, Option, IfErr, IfOk, OnOk, None, Err};
ghost use Rattle.std.specs.Prelude.{length};
ghost use Rattle.std.specs.Prelude.{MatchOption, option_map};
ghost use Rattle.std.specs.Prelude.{string_bytes};
ghost use Rattle.std.specs.Io.KnownBytes.{Appends};
ghost use Rattle.njh_io.specs.Written.{AppendsBeginning};
ghost use Rattle.njh_table.specs.declared.places.PlacedFault.{PlacedFault};
ghost use Rattle.njh_table.specs.Walk.{walk_of};
ghost use Rattle.njh_check.specs.Checks.{IsReport, Tells, TellsFault};
ghost use Rattle.njh_check.specs.FaultTexts.{IsFaultText, line_at, line_ends};

use crate::fault::CheckFault;
use crate::line::{fault_words, toml_words};
use crate::report::report_of;
use crate::warnings::put_warnings;
use njh_io::write_bytes;
use njh_table::{PlacedFault, TableFault, Tables};
use std::alloc::Global;
use std::io::Write;

/// How many lines end in a text.
fn line_ends(text: &[u8]) -> usize
    ensures ends { result ≡ line_ends text.now }
    ensures few { result ≤ length text.now }
{
    text.iter().filter(|byte| **byte == b'\n').count()
}

/// The number of the line, from 1 on, in which a place of a text is.
#[tactic(auto, unfolding(crate::specs::FaultTexts::line_at))]
fn line_number(text: &str, place: usize) -> usize
    requires { place ≤ length text.now }
    ensures { result ≡ line_at text.now place }
{
    let before = &text.as_bytes()[..place];
    line_ends(before) + 1
}

/// The text of a fault of a table file.
fn told_of(alloc: Global, text: &str, placed: PlacedFault) -> Result<String, CheckFault>
    ensures told { IfOk result (λ told. IsFaultText text.now placed (string_bytes told)) }
    ensures memory { IfErr result (λ fault. fault ≡ CheckFault.Memory) }
{
    match toml::table_from_str(alloc, text) {
        Ok(document) => Ok(fault_words(alloc, &document, placed)?),
        Err(error) => match error.span() {
            Some(span) => Ok(toml_words(alloc, line_number(text, span.start))?),
            None => Err(CheckFault::Memory),
        },
    }
}

/// A fault of a table file's contents; want of memory is none.
fn fault_of_file(placed: PlacedFault) -> Result<PlacedFault, CheckFault>
    ensures same { IfOk result (λ found. found ≡ placed) }
    ensures file { OnOk result (placed.fault ≢ TableFault.Memory) }
    ensures memory { IfErr result (λ fault. fault ≡ CheckFault.Memory) }
{
    match placed.fault {
        TableFault::Memory => Err(CheckFault::Memory),
        _ => Ok(placed),
    }
}

/// The first fault of a table file; none if the tables are right.
fn first_fault(alloc: Global, text: &str) -> Result<Option<PlacedFault>, CheckFault>
    ensures first { IfOk result (λ found. MatchOption found (IfErr (walk_of text.now) (λ _. ⊥))
        (λ placed. walk_of text.now ≡ Err placed)) }
    ensures memory { IfErr result (λ fault. fault ≡ CheckFault.Memory) }
{
    match Tables::check(alloc, text) {
        Ok(_) => Ok(None),
        Err(placed) => Ok(Some(fault_of_file(placed)?)),
    }
}

/// The text of the first fault of a table file, in one line of ASCII without its end; none if
/// the tables are right. Want of memory is the only refusal. It reads a file with a fault twice.
pub fn fault_text(alloc: Global, text: &str) -> Result<Option<String>, CheckFault>
    ensures told { IfOk result (λ found. TellsFault text.now (option_map string_bytes found)) }
    ensures memory { IfErr result (λ fault. fault ≡ CheckFault.Memory) }
{
    match first_fault(alloc, text)? {
        None => Ok(None),
        Some(placed) => Ok(Some(told_of(alloc, text, placed)?)),
    }
}

/// The line of a fault of a table file.
fn fault_line(alloc: Global, text: &str, placed: PlacedFault) -> Result<Vec<u8>, CheckFault>
    ensures told { IfOk result (λ line.
        (told : List ℕ) × IsFaultText text.now placed told × (line.items ≡ told ++ 10 ∷ [])) }
    ensures memory { IfErr result (λ fault. fault ≡ CheckFault.Memory) }
{
    let told = told_of(alloc, text, placed)?;
    let mut line = told.into_bytes();
    line.push(b'\n')?;
    Ok(line)
}

/// What a check found, and all that it tells.
fn outcome(alloc: Global, text: &str) -> Result<(Option<PlacedFault>, Vec<u8>), CheckFault>
    ensures told { IfOk result (λ outcome. Tells text.now outcome.0 outcome.1.items) }
    ensures memory { IfErr result (λ fault. fault ≡ CheckFault.Memory) }
{
    match Tables::check(alloc, text) {
        Ok(tables) => report_outcome(alloc, text, &tables),
        Err(placed) => fault_outcome(alloc, text, placed),
    }
}

/// That of tables that are right.
fn report_outcome(
    alloc: Global,
    text: &str,
    tables: &Tables,
) -> Result<(Option<PlacedFault>, Vec<u8>), CheckFault>
    ensures told { IfOk result (λ outcome. (outcome.0 ≡ None) × IsReport text.now tables.now outcome.1.items) }
    ensures memory { IfErr result (λ fault. fault ≡ CheckFault.Memory) }
{
    match toml::table_from_str(alloc, text) {
        Ok(document) => {
            let mut report = report_of(alloc, tables)?;
            put_warnings(alloc, &mut report, &document, tables)?;
            Ok((None, report))
        }
        Err(_) => Err(CheckFault::Memory),
    }
}

/// That of a table file with a fault.
fn fault_outcome(
    alloc: Global,
    text: &str,
    placed: PlacedFault,
) -> Result<(Option<PlacedFault>, Vec<u8>), CheckFault>
    requires { placed.fault ≢ TableFault.Memory → walk_of text.now ≡ Err placed }
    ensures told { IfOk result (λ outcome. Tells text.now outcome.0 outcome.1.items) }
    ensures memory { IfErr result (λ fault. fault ≡ CheckFault.Memory) }
{
    let found = fault_of_file(placed)?;
    Ok((Some(found), fault_line(alloc, text, found)?))
}

/// Checks a table file, and writes the report of its tables, or the line of its first fault.
/// Answers that fault, or none if the tables are right.
///
/// The report has a line for each customer, after it two for each of its lines and one for each of
/// its routes, then one for the spool, and at the end one for each thing that may be a mistake. The
/// line of a fault is `fault_text`, ended by 0A. If memory is refused nothing was written.
pub fn check<W: Write>(
    alloc: Global,
    text: &str,
    out: &mut W,
) -> Result<Option<PlacedFault>, CheckFault>
    ensures told { IfOk result (λ found. (written : List ℕ) × Tells text.now found written
        × Appends (W.contents out.old) (W.contents out.new) written) }
    ensures device { result ≡ Err CheckFault.Device → (found : Option PlacedFault) × (written : List ℕ)
        × Tells text.now found written × AppendsBeginning (W.contents out.old) (W.contents out.new) written }
    ensures memory { result ≡ Err CheckFault.Memory → W.contents out.new ≡ W.contents out.old }
{
    let (found, told) = outcome(alloc, text)?;
    write_bytes(out, &told)?;
    match out.flush() {
        Ok(()) => Ok(found),
        Err(_) => Err(CheckFault::Device),
    }
}
