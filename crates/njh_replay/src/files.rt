//! Prints the files that a hub holds.

ghost use Rattle.std.specs.Prelude.{◌≡◌, ◌+◌, ◌<◌, ◌≤◌, ◌++◌, length, IfOk, OnOk, OnErr};
ghost use Rattle.std.specs.Io.KnownBytes.{Appends};
ghost use Rattle.njh_ebcdic.specs.Characters.{shown_text};
ghost use Rattle.njh_hub.specs.Files.{files_at};
ghost use Rattle.njh_replay.specs.LineNames.{customers_of};
ghost use Rattle.njh_io.specs.Written.{AppendsBeginning};
ghost use Rattle.njh_replay.specs.Printed.{files_from, files_text, summary_text, told_line};

use arrayvec::ArrayVec;
use njh_ebcdic::{Name, text_of};
use njh_hub::{FileSummaryView, Hub};
use njh_io::{WriteFault, write_bytes};
use njh_table::Tables;
use std::alloc::{AllocError, Global};
use std::io::Write;

/// Room for the line of a file or of a reply: at most 8 bytes of its customer's name, a blank, at
/// most 148 of what that is told, and the line's end.
pub(crate) type FileLine = ArrayVec<u8, 158>;

/// The names of the customers, in their order. Out of memory is the only refusal.
pub fn customer_names(alloc: Global, tables: &Tables) -> Result<Vec<Name>, AllocError>
    ensures names { IfOk result (λ names. names.items ≡ customers_of tables.now) }
    ensures few { IfOk result (λ names. length names.items ≤ 64) }
{
    let mut names = Vec::new(alloc);
    for customer in tables.customers() {
        names.push(customer.name())?;
    }
    Ok(names)
}

/// Prints the files of each customer, in the customers' order and then in order of arrival. It
/// copies no record and takes no memory. After a fault a beginning of them was printed.
pub fn print_files<W: Write>(hub: &Hub, customers: &[Name], out: &mut W) -> Result<(), WriteFault>
    requires all { length customers.now ≡ length hub.now }
    requires few { length customers.now ≤ 64 }
    ensures ok { OnOk result (Appends (W.contents out.old) (W.contents out.new)
        (files_from 0 customers.now hub.now)) }
    ensures err { OnErr result (AppendsBeginning (W.contents out.old) (W.contents out.new)
        (files_from 0 customers.now hub.now)) }
{
    for (customer, name) in customers.iter().enumerate() {
        print_customer(hub, customer as u16, *name, out)?;
    }
    Ok(())
}

/// Prints a customer's files. After a fault a beginning of them was printed.
fn print_customer<W: Write>(
    hub: &Hub,
    customer: u16,
    name: Name,
    out: &mut W,
) -> Result<(), WriteFault>
    requires { customer < length hub.now }
    ensures ok { OnOk result (Appends (W.contents out.old) (W.contents out.new)
        (files_text name (files_at customer hub.now))) }
    ensures err { OnErr result (AppendsBeginning (W.contents out.old) (W.contents out.new)
        (files_text name (files_at customer hub.now))) }
{
    for index in 0..hub.file_count(customer) {
        let file = hub.summary_at(customer, index);
        write_bytes(out, &line_of(name, &file))?;
    }
    Ok(())
}

/// The line of a file whose customer has this name.
#[tactic(auto, unfolding(crate::specs::Printed::summary_text))]
fn line_of(name: Name, file: &FileSummaryView) -> FileLine
    ensures { result.items ≡ summary_text name file.now }
{
    told_line(name, &file.line())
}

/// A customer's name, a blank, what it is told, in EBCDIC, and the line's end.
#[tactic(auto, unfolding(crate::specs::Printed::told_line))]
pub(crate) fn told_line(name: Name, told: &[u8]) -> FileLine
    requires { length told.now ≤ 148 }
    ensures { result.items ≡ told_line name told.now }
{
    let mut line = FileLine::new();
    push_shown(&mut line, name.trimmed());
    line.push(b' ');
    push_shown(&mut line, told);
    line.push(b'\n');
    line
}

/// Appends EBCDIC as text, with `?` for each byte that has no character.
fn push_shown(line: &mut FileLine, ebcdic: &[u8])
    requires { length line.old.items + length ebcdic.now ≤ 158 }
    ensures { line.new.items ≡ line.old.items ++ shown_text ebcdic.now }
{
    for byte in ebcdic {
        line.push(text_of(*byte) as u8);
    }
}
