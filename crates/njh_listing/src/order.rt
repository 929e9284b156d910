//! The order in which whole files are listed.

ghost use Rattle.std.specs.Prelude.{◌≡◌, ◌++◌, ◌<◌, [], ◌∷◌, cond, length, map, option_map, IfOk, OnOk};
ghost use Rattle.std.specs.List.{list_any};
ghost use Rattle.njh_listing.specs.Listed.{files_of, files_up_to, first_files, is_of, listed_files};
ghost use Rattle.njh_listing.specs.code.Lent.{entries_of};
ghost use Rattle.njh_spoolfile.specs.Kept.{entry_of};

use njh_spoolfile::StoredFile;
use std::alloc::{AllocError, Global};

/// Whether a file is a customer's.
fn is_of(customer: &str, stored: &StoredFile) -> bool
    ensures { result ≡ is_of customer.now (entry_of stored.now) }
{
    stored.file.customer.as_str() == customer
}

/// Whether one of some files is a customer's.
fn has_customer(customer: &str, files: &[StoredFile]) -> bool
    ensures { result ≡ list_any (λ s. is_of customer.now (entry_of s)) files.now }
{
    files.iter().any(|stored| is_of(customer, stored))
}

/// Appends a file if it is a customer's.
fn put_own<'a>(
    list: &mut Vec<&'a StoredFile>,
    customer: &str,
    stored: &'a StoredFile,
) -> Result<(), AllocError>
    ensures { OnOk result (entries_of list.new.items ≡ entries_of list.old.items
        ++ cond (is_of customer.now (entry_of stored.now)) (entry_of stored.now ∷ []) []) }
{
    if is_of(customer, stored) {
        list.push(stored)?;
    }
    Ok(())
}

/// Appends a customer's files.
fn put_customer<'a>(
    list: &mut Vec<&'a StoredFile>,
    customer: &str,
    files: &'a [StoredFile],
) -> Result<(), AllocError>
    ensures { OnOk result (entries_of list.new.items ≡ entries_of list.old.items
        ++ files_of customer.now (map entry_of files.now)) }
{
    for stored in files {
        put_own(list, customer, stored)?;
    }
    Ok(())
}

/// Appends the files of a file's customer, if no earlier file is this customer's.
fn put_first<'a>(
    list: &mut Vec<&'a StoredFile>,
    files: &'a [StoredFile],
    at: usize,
) -> Result<(), AllocError>
    requires { at < length files.now }
    ensures { OnOk result (entries_of list.new.items ≡ entries_of list.old.items
        ++ first_files at (map entry_of files.now)) }
{
    let customer = files[at].file.customer.as_str();
    if has_customer(customer, &files[..at]) {
        return Ok(());
    }
    put_customer(list, customer, files)
}

/// Appends all files, the customers in the order of their first files.
fn put_all<'a>(list: &mut Vec<&'a StoredFile>, files: &'a [StoredFile]) -> Result<(), AllocError>
    ensures { OnOk result (entries_of list.new.items ≡ entries_of list.old.items
        ++ files_up_to (length files.now) (map entry_of files.now)) }
{
    for at in 0..files.len() {
        put_first(list, files, at)?;
    }
    Ok(())
}

/// Appends all files, or a customer's.
fn put_listed<'a>(
    list: &mut Vec<&'a StoredFile>,
    customer: Option<&str>,
    files: &'a [StoredFile],
) -> Result<(), AllocError>
    ensures { OnOk result (entries_of list.new.items ≡ entries_of list.old.items
        ++ listed_files (option_map (λ c. c.now) customer.entry) (map entry_of files.now)) }
{
    match customer {
        None => put_all(list, files),
        Some(customer) => put_customer(list, customer, files),
    }
}

/// All files, the customers in the order of their first files, or one customer's; each customer's
/// in their order of arrival.
pub(crate) fn listed_files<'a>(
    alloc: Global,
    customer: Option<&str>,
    files: &'a [StoredFile],
) -> Result<Vec<&'a StoredFile>, AllocError>
    ensures { IfOk result (λ list. entries_of list.items
        ≡ listed_files (option_map (λ c. c.now) customer.entry) (map entry_of files.now)) }
{
    let mut list = Vec::new(alloc);
    put_listed(&mut list, customer, files)?;
    Ok(list)
}
