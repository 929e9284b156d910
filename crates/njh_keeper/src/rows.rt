//! The row of a whole file.

ghost use Rattle.std.specs.Prelude.{◌≡◌, ℕ, List, true, string_bytes, IfOk};
ghost use Rattle.njh_ebcdic.specs.Names.{is_name};
ghost use Rattle.njh_spool.specs.CustomerSpool.{WholeFile};
ghost use Rattle.njh_hub.specs.Views.{file_summary};
ghost use Rattle.njh_turns.specs.Keeping.{is_held};
ghost use Rattle.njh_spoolfile.specs.Kept.{file_of};
ghost use Rattle.njh_spoolfile.specs.Sent.{with_mark};
ghost use Rattle.njh_keeper.specs.Opened.{is_name_of, is_own};
ghost use Rattle.njh_keeper.specs.code.Remembered.{IsRowOf};
ghost use Rattle.njh_keeper.specs.code.Shown.{IsShown, field_text};

use crate::own_files::KeptWhole;
use njh_ebcdic::{Name, text_of, trim_blanks};
use njh_hub::FileSummaryView;
use njh_spool::State;
use njh_spoolfile::{FileRow, kind_word, with_mark};
use std::alloc::{AllocError, Global};

/// Whether a file is Held.
pub(crate) fn is_held(state: State) -> bool
    ensures { result ≡ is_held state }
{
    match state {
        State::Held => true,
        State::Ready => false,
        State::Refused => false,
        State::Sending => false,
    }
}

/// The characters of a field, without the blanks after them.
fn field_text(alloc: Global, field: &[u8]) -> Result<String, AllocError>
    ensures { IfOk result (λ text. string_bytes text ≡ field_text field.now) }
{
    let mut text = String::new(alloc);
    for byte in trim_blanks(field) {
        text.push(text_of(*byte))?;
    }
    Ok(text)
}

/// The characters of a node's field, with the mark if a file was sent there.
fn node_text(alloc: Global, is_sent: bool, field: &[u8]) -> Result<String, AllocError>
    ensures { IfOk result (λ text. string_bytes text ≡ with_mark is_sent (field_text field.now)) }
{
    let node = field_text(alloc, field)?;
    with_mark(alloc, is_sent, node)
}

/// Whether a node's field is a name.
pub(crate) fn is_name(field: &[u8; 8]) -> bool
    ensures { result ≡ is_name field.now }
{
    Name::of_field(field).is_ok()
}

/// A customer's name as each row of its files has it: a text that reads as this very name.
pub(crate) fn name_text(alloc: Global, name: Name) -> Result<String, AllocError>
    ensures { IfOk result (λ text. is_name_of (string_bytes text) name ≡ true) }
{
    field_text(alloc, &name.bytes())
}

/// Whether a text is this name.
pub(crate) fn reads_as(text: &str, name: Name) -> bool
    ensures { result ≡ is_name_of text.now name }
{
    match Name::of_text(text) {
        Ok(read) => read == name,
        Err(_) => false,
    }
}

/// The row of a whole file of a customer whose name is this text, and whose job has this name.
pub(crate) fn row_of(
    alloc: Global,
    customer: &str,
    kept: &KeptWhole,
    file: &FileSummaryView,
    job: [u8; 8],
) -> Result<FileRow, AllocError>
    ensures row { (f : WholeFile) → file.now ≡ file_summary f
        → IfOk result (λ row. IsRowOf kept.now.key f (file_of row)) }
    ensures owned { (name : List ℕ) → is_name_of customer.now name ≡ true
        → IfOk result (λ row. is_own name (file_of row) ≡ true) }
    ensures node { IfOk result (λ row. (file_of row).to_node
        ≡ with_mark kept.now.is_sent (field_text file.now.destination.node)) }
    ensures shown { IfOk result (λ row. IsShown kept.now.is_sent job file.now kept.now.came (file_of row)) }
{
    Ok(FileRow {
        customer: String::from_str(alloc, customer)?,
        key: kept.key,
        kind: String::from_str(alloc, kind_word(file.kind))?,
        job: field_text(alloc, &job)?,
        number: u32::from(file.name.number),
        owner_node: field_text(alloc, &file.owner.node.bytes())?,
        owner_user: field_text(alloc, &file.owner.user)?,
        to_node: node_text(alloc, kept.is_sent, &file.destination.node)?,
        to_user: field_text(alloc, &file.destination.user)?,
        held: is_held(file.state),
        records: file.records,
        blocks: file.blocks,
        came: kept.came,
    })
}
