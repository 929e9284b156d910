//! Finds the file that is asked for.

ghost use Rattle.std.specs.Prelude.{◌≡◌, ◌++◌, ◌&&◌, [], ◌∷◌, map, option_map, bytes_eq, cond};
ghost use Rattle.std.specs.Prelude.{IfErr, IfOk, None, OnOk};
ghost use Rattle.njh_listing.specs.Asked.{FitsFault, IsRefusedOf, asked_in, asked_of, key_in};
ghost use Rattle.njh_listing.specs.Listed.{name_text};
ghost use Rattle.njh_listing.specs.code.FindingSteps.{is_number};
ghost use Rattle.njh_listing.specs.code.Lent.{entries_of};
ghost use Rattle.njh_spoolfile.specs.Kept.{entry_of, file_of};

use crate::fault::FilesFault;
use crate::listing::{name_text, said_of};
use crate::order::listed_files;
use njh_spoolfile::{FileRow, StoredFile};
use std::alloc::{AllocError, Global};

/// What is said of files of one name, before the list of them.
const SEVERAL: &str = "several files, say which by --number";

/// What is said if none of them has the number.
const WRONG_NUMBER: &str = "wrong number, say which by --number";

/// Which files are asked for, or which one, and how its records are to be written.
#[derive(Clone, Copy)]
pub struct Asked<'a> {
    /// Whose files: the customer's name in the table file; all customers' if none is named.
    pub customer: Option<&'a str>,
    /// The file whose records are written, as LYON.42; if none is named the files are listed.
    pub file: Option<&'a str>,
    /// Which of these files it is: the number of its line in their list, counted from 1.
    pub number: Option<u32>,
    /// All records as they are, without characters or lines.
    pub raw: bool,
}

/// Whether a file is called so.
fn is_called(alloc: Global, name: &str, file: &FileRow) -> Result<bool, AllocError>
    ensures { IfOk result (λ called. called ≡ bytes_eq (name_text (file_of file.now)) name.now) }
{
    let text = name_text(alloc, file)?;
    Ok(text.as_str() == name)
}

/// Whether it is this number that is asked for, if one is.
fn is_number(asked: Option<u32>, at: usize) -> bool
    ensures { result ≡ is_number asked at }
{
    match asked {
        Some(number) => number as usize == at,
        None => true,
    }
}

/// Appends the key of a file if it is asked for: its name, and the number of its line.
fn put_key(
    alloc: Global,
    keys: &mut Vec<u32>,
    number: Option<u32>,
    name: &str,
    at: usize,
    file: &FileRow,
) -> Result<(), AllocError>
    ensures { OnOk result (keys.new.items ≡ keys.old.items
        ++ cond (is_number number at && bytes_eq (name_text (file_of file.now)) name.now) (file.now.key ∷ []) []) }
{
    if is_number(number, at) && is_called(alloc, name, file)? {
        keys.push(file.key)?;
    }
    Ok(())
}

/// The keys of the files of a list that are asked for.
fn keys_of(
    alloc: Global,
    list: &[&StoredFile],
    number: Option<u32>,
    name: &str,
) -> Result<Vec<u32>, AllocError>
    ensures { IfOk result (λ keys. keys.items ≡ map key_in (asked_in number name.now (entries_of list.now))) }
{
    let mut keys = Vec::new(alloc);
    for at in 0..list.len() {
        let stored = list[at];
        put_key(alloc, &mut keys, number, name, at + 1, &stored.file)?;
    }
    Ok(keys)
}

/// Appends a line for a file if it is asked for, after the number of its line.
fn put_line(
    alloc: Global,
    text: &mut String,
    number: Option<u32>,
    name: &str,
    at: usize,
    file: &FileRow,
) -> Result<(), AllocError> {
    if is_number(number, at) && is_called(alloc, name, file)? {
        let customer = file.customer.as_str();
        let said = said_of(alloc, file)?;
        let line = format!(in alloc; "\n{at} {customer} {said}")?;
        text.push_str(line.as_str())?;
    }
    Ok(())
}

/// What is said of files of a list, and a further line for each of those that are asked for.
fn lines_after(
    alloc: Global,
    said: &str,
    list: &[&StoredFile],
    number: Option<u32>,
    name: &str,
) -> Result<String, AllocError> {
    let mut text = String::from_str(alloc, said)?;
    for at in 0..list.len() {
        let stored = list[at];
        put_line(alloc, &mut text, number, name, at + 1, &stored.file)?;
    }
    Ok(text)
}

/// The fault if none of a list has the name, or none of those has the number.
fn none_of(alloc: Global, list: &[&StoredFile], name: &str) -> Result<FilesFault, AllocError>
    ensures { IfOk result (FitsFault [] (map key_in (asked_in None name.now (entries_of list.now)))) }
{
    let named = keys_of(alloc, list, None, name)?;
    match named.as_slice() {
        [] => Ok(FilesFault::NoFile(String::from_str(alloc, name)?)),
        _ => Ok(FilesFault::Several(lines_after(alloc, WRONG_NUMBER, list, None, name)?)),
    }
}

/// The key of the one file of a list that is asked for.
fn key_listed(
    alloc: Global,
    list: &[&StoredFile],
    number: Option<u32>,
    name: &str,
) -> Result<u32, FilesFault>
    ensures found { IfOk result (λ key. map key_in (asked_in number name.now (entries_of list.now)) ≡ key ∷ []) }
    ensures refused { IfErr result (FitsFault (map key_in (asked_in number name.now (entries_of list.now)))
        (map key_in (asked_in None name.now (entries_of list.now)))) }
{
    let keys = keys_of(alloc, list, number, name)?;
    match keys.as_slice() {
        [] => Err(none_of(alloc, list, name)?),
        [key] => Ok(*key),
        _ => Err(FilesFault::Several(lines_after(alloc, SEVERAL, list, number, name)?)),
    }
}

/// The key of the one file that is asked for.
pub(crate) fn key_of(
    alloc: Global,
    files: &[StoredFile],
    asked: &Asked<'_>,
    name: &str,
) -> Result<u32, FilesFault>
    ensures found { IfOk result (λ key. map key_in (asked_of (option_map (λ c. c.now) asked.now.customer)
        asked.now.number name.now (map entry_of files.now)) ≡ key ∷ []) }
    ensures refused { IfErr result (IsRefusedOf (option_map (λ c. c.now) asked.now.customer) asked.now.number name.now
        (map entry_of files.now)) }
{
    let list = listed_files(alloc, asked.customer, files)?;
    key_listed(alloc, list.as_slice(), asked.number, name)
}
