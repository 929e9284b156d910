//! The numbers under which a spool file has its files' records.

ghost use Rattle.std.specs.Prelude.{◌≡◌, true, map, IfOk, OnOk};
ghost use Rattle.njh_keeper.specs.code.Apart.{AreFilesApart, have_low_ids, rises};

use crate::writer::astray;
use njh_spoolfile::{GREATEST_ID, StoredFile};
use sqlite::Error;
use std::alloc::{AllocError, Global};

/// Whether the numbers of these files can be gone on with: two files whose records have one number
/// are damage, and so is a file whose row or whose records have the greatest number.
pub(crate) fn check_numbers(alloc: Global, files: &[StoredFile]) -> Result<(), Error>
    ensures { OnOk result (AreFilesApart files.now × (have_low_ids files.now ≡ true)) }
{
    let apart = are_apart(alloc, files)?;
    let low = ids_are_low(files);
    if apart && low {
        return Ok(());
    }
    Err(astray())
}

/// Whether each of these files has its records under a number of its own, which isn't the greatest.
fn are_apart(alloc: Global, files: &[StoredFile]) -> Result<bool, AllocError>
    ensures { IfOk result (λ apart. apart ≡ true → AreFilesApart files.now) }
{
    let mut keys = keys_of(alloc, files)?;
    keys.sort_unstable();
    let apart = do_rise(&keys);
    drop(keys);
    Ok(apart)
}

/// The numbers that the records of these files have.
fn keys_of(alloc: Global, files: &[StoredFile]) -> Result<Vec<u32>, AllocError>
    ensures { IfOk result (λ keys. keys.items ≡ map (λ f. f.file.key) files.now) }
{
    let mut keys = Vec::with_capacity(alloc, files.len())?;
    for stored in files {
        keys.push(stored.file.key)?;
    }
    Ok(keys)
}

/// Whether each is above those before it, and none is the greatest.
fn do_rise(keys: &[u32]) -> bool
    ensures { result ≡ rises 0 keys.now }
{
    let mut least = 0;
    for key in keys {
        if *key < least || *key >= u32::MAX {
            return false;
        }
        least = *key + 1;
    }
    true
}

/// Whether none of these files' rows has the greatest number.
fn ids_are_low(files: &[StoredFile]) -> bool
    ensures { result ≡ have_low_ids files.now }
{
    for stored in files {
        if stored.id >= GREATEST_ID {
            return false;
        }
    }
    true
}
