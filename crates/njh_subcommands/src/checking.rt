//! Checks a script in a file, and says what is wrong with it.

ghost use Rattle.std.specs.Prelude.{◌≡◌, ◌⊎◌, true, false, Err, IfErr, OnOk, OnErr};
ghost use Rattle.std.specs.Io.KnownBytes.{Keeps};
ghost use Rattle.njh_subcommands.specs.Checks.{FindsBad, FindsInPart, IsBegunBy, IsCheckEnd, IsSaidBy, IsScriptChecked};
ghost use Rattle.njh_subcommands.specs.Checks.{IsScriptEnd, IsUnreadScript};
ghost use Rattle.njh_subcommands.specs.TableBytes.{tables_in};
ghost use Rattle.njh_subcommands.specs.TableChecks.{IsTablesBegun, IsToldOf, MayTell};
ghost use Rattle.njh_subcommands.specs.Status.{ComesFirst};

use crate::failure::Failure;
use crate::table_check::tell_tables;
use crate::table_file::{table_bytes, tables_in};
use njh_check::{CheckFault, check_script};
use njh_io::{ReadFault, read_text};
use njh_replay::ReplayFault;
use njh_table::{TableFault, Tables};
use std::alloc::Global;
use std::fs::File;
use std::io::Write;
use std::rt::Files;

/// The most bytes of a script that is read to be checked, 16 MiB: more than a script may have.
const MAX_CHECKED_BYTES: usize = 16_777_216;

/// Checks the script of a file by the tables of another, or the base tables if none is named,
/// and says what is wrong with it. One with a bad line is `Found`; so are tables with a fault, of
/// which that is said, and nothing of the script.
///
/// No clause says which bytes a file holds, so no more is known than that what is said is said of
/// some bytes.
pub(crate) fn check_script_file<R: Files + AllocGlobal, W: Write>(
    rt: &R,
    tables: Option<&str>,
    path: &str,
    out: &mut W,
) -> Result<(), Failure>
    ensures right { OnOk result (IsScriptChecked tables.entry true (W.contents out.old) (W.contents out.new)) }
    ensures found { result ≡ Err Failure.Found
        → FindsBad tables.entry (W.contents out.old) (W.contents out.new) }
    ensures failed { IfErr result (IsCheckEnd tables.entry) }
    ensures begun { OnErr result (Keeps (W.contents out.old) (W.contents out.new)
        ⊎ FindsInPart tables.entry (W.contents out.old) (W.contents out.new)) }
    ensures silent { IfErr result (λ failure. ComesFirst failure → Keeps (W.contents out.old) (W.contents out.new)) }
{
    match tables {
        None => {
            let tables = Tables::base(rt.alloc())?;
            say_script(rt, &tables, path, out)
        }
        Some(file) => {
            let bytes = table_bytes(rt, file)?;
            match tables_in(rt.alloc(), &bytes) {
                Ok(tables) => say_script(rt, &tables, path, out),
                Err(TableFault::Memory) => Err(Failure::Memory),
                Err(_) => tell_fault(rt.alloc(), &bytes, out),
            }
        }
    }
}

/// Says what is wrong with the script of a file.
fn say_script<R: Files + AllocGlobal, W: Write>(
    rt: &R,
    tables: &Tables,
    path: &str,
    out: &mut W,
) -> Result<(), Failure>
    ensures right { OnOk result (IsSaidBy tables.now true (W.contents out.old) (W.contents out.new)) }
    ensures found { result ≡ Err Failure.Found
        → IsSaidBy tables.now false (W.contents out.old) (W.contents out.new) }
    ensures failed { IfErr result IsScriptEnd }
    ensures begun { OnErr result (Keeps (W.contents out.old) (W.contents out.new)
        ⊎ IsBegunBy tables.now (W.contents out.old) (W.contents out.new)) }
    ensures silent { IfErr result (λ failure. ComesFirst failure → Keeps (W.contents out.old) (W.contents out.new)) }
{
    let text = script_bytes(rt, path)?;
    match check_script(rt.alloc(), tables, &text, out) {
        Ok(true) => Ok(()),
        Ok(false) => Err(Failure::Found),
        Err(CheckFault::Memory) => Err(Failure::Memory),
        Err(CheckFault::Device) => Err(Failure::Device),
    }
}

/// Says the fault of the bytes of a table file, which have one.
fn tell_fault<W: Write>(alloc: Global, bytes: &[u8], out: &mut W) -> Result<(), Failure>
    requires { OnOk (tables_in bytes.now) ⊥ }
    ensures found { result ≡ Err Failure.Found → IsToldOf false bytes.now (W.contents out.old) (W.contents out.new) }
    ensures failed { IfErr result MayTell }
    ensures begun { OnErr result (Keeps (W.contents out.old) (W.contents out.new)
        ⊎ IsTablesBegun (W.contents out.old) (W.contents out.new)) }
    ensures fault { OnOk result ⊥ }
{
    tell_tables(alloc, bytes, out)
}

/// The bytes of a script.
fn script_bytes<R: Files + AllocGlobal>(rt: &R, path: &str) -> Result<Vec<u8>, Failure>
    ensures { IfErr result IsUnreadScript }
{
    let mut file = File::open(rt, path)?;
    match read_text(rt.alloc(), MAX_CHECKED_BYTES, &mut file) {
        Ok(bytes) => Ok(bytes),
        Err(ReadFault::TooLong) => Err(Failure::Replay(ReplayFault::TooLong)),
        Err(ReadFault::Device) => Err(Failure::Device),
        Err(ReadFault::Memory) => Err(Failure::Memory),
    }
}
