//! The mark of a whole file that is set aside, before its customer's name.

ghost use Rattle.std.specs.Prelude.{◌≡◌, string_bytes, IfOk};
ghost use Rattle.njh_keeper.specs.SetAside.{file_aside, file_taken_up, is_aside, set_aside, taken_up};
ghost use Rattle.njh_spoolfile.specs.Kept.{file_of};

use njh_spoolfile::FileRow;
use std::alloc::{AllocError, Global};

/// It is in no name.
const MARK: char = '!';

/// Whether a customer's text has the mark.
pub(crate) fn is_aside(text: &str) -> bool
    ensures { result ≡ is_aside text.now }
{
    text.strip_prefix(MARK).is_some()
}

/// A customer's text without the mark.
pub(crate) fn taken_up(text: &str) -> &str
    ensures { result.now ≡ taken_up text.now }
{
    match text.strip_prefix(MARK) {
        Some(name) => name,
        None => text,
    }
}

/// The row of a whole file of a customer of this text, in place of its own.
fn with_customer(alloc: Global, file: &FileRow, customer: String) -> Result<FileRow, AllocError>
    ensures { IfOk result (λ row. file_of row ≡ record (file_of file.now) { customer = string_bytes customer }) }
{
    Ok(FileRow {
        customer,
        key: file.key,
        kind: String::from_str(alloc, file.kind.as_str())?,
        job: String::from_str(alloc, file.job.as_str())?,
        number: file.number,
        owner_node: String::from_str(alloc, file.owner_node.as_str())?,
        owner_user: String::from_str(alloc, file.owner_user.as_str())?,
        to_node: String::from_str(alloc, file.to_node.as_str())?,
        to_user: String::from_str(alloc, file.to_user.as_str())?,
        held: file.held,
        records: file.records,
        blocks: file.blocks,
        came: file.came,
    })
}

/// A customer's text with the mark.
fn set_aside(alloc: Global, text: &str) -> Result<String, AllocError>
    ensures { IfOk result (λ marked. string_bytes marked ≡ set_aside text.now) }
{
    let mut marked = String::from_str(alloc, "!")?;
    marked.push_str(taken_up(text))?;
    Ok(marked)
}

/// The row of a whole file with the mark.
pub(crate) fn row_aside(alloc: Global, file: &FileRow) -> Result<FileRow, AllocError>
    ensures { IfOk result (λ row. file_of row ≡ file_aside (file_of file.now)) }
{
    let customer = set_aside(alloc, file.customer.as_str())?;
    with_customer(alloc, file, customer)
}

/// The row of a whole file without the mark.
pub(crate) fn row_taken_up(alloc: Global, file: &FileRow) -> Result<FileRow, AllocError>
    ensures { IfOk result (λ row. file_of row ≡ file_taken_up (file_of file.now)) }
{
    let customer = String::from_str(alloc, taken_up(file.customer.as_str()))?;
    with_customer(alloc, file, customer)
}
