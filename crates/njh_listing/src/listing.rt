//! Prints the whole files of a spool file.

ghost use Rattle.std.specs.Prelude.{◌≡◌, ◌<◌, ◌++◌, ◌⊎◌, ℕ, List, length, map, option_map, string_bytes, IfErr, IfOk};
ghost use Rattle.std.specs.Prelude.{OnErr, OnOk, Some, flat_map};
ghost use Rattle.std.specs.Io.KnownBytes.{Appends, Keeps};
ghost use Rattle.sqlite.specs.State.{HasCleanDisk, Survives};
ghost use Rattle.njh_listing.specs.Faults.{IsOfSpool};
ghost use Rattle.njh_listing.specs.Listed.{IsListed, IsListedInPart, file_line, kind_words, listing_text, name_text};
ghost use Rattle.njh_listing.specs.Listed.{said_of, state_words, user_words};
ghost use Rattle.njh_listing.specs.Printed.{HasLine, IsUnlisted};
ghost use Rattle.njh_io.specs.Written.{AppendsBeginning};
ghost use Rattle.njh_spoolfile.specs.Kept.{File, Holds, SpoolContents, entry_of, file_of};
ghost use Rattle.njh_spoolfile.specs.Shelf.{shown};
ghost use Rattle.njh_spoolfile.specs.Steps.{Stays};

use crate::fault::FilesFault;
use crate::order::listed_files;
use crate::writing::write_text;
use njh_spoolfile::{FileRow, Store, StoredFile, without_mark};
use sqlite::Alter;
use std::alloc::{AllocError, Global};
use std::io::Write;

/// A file's name: node, full stop, number.
#[tactic(auto, unfolding(crate::specs::Listed::name_text))]
pub(crate) fn name_text(alloc: Global, file: &FileRow) -> Result<String, AllocError>
    ensures { IfOk result (λ text. string_bytes text ≡ name_text (file_of file.now)) }
{
    let node = file.owner_node.as_str();
    let number = file.number;
    format!(in alloc; "{node}.{number}")
}

/// A blank and a user, if there is one.
#[tactic(auto, unfolding(crate::specs::Listed::user_words))]
fn user_words(alloc: Global, user: &str) -> Result<String, AllocError>
    ensures { IfOk result (λ text. string_bytes text ≡ user_words user.now) }
{
    if user == "" {
        return String::from_str(alloc, "");
    }
    format!(in alloc; " {user}")
}

/// What kind of file it is.
#[tactic(auto, unfolding(crate::specs::Listed::kind_words))]
fn kind_words(kind: &str) -> &str
    ensures { result.now ≡ kind_words kind.now }
{
    if kind == "SYSIN" {
        return "IN";
    }
    if kind == "SYSOUT" {
        return "OUT";
    }
    kind
}

/// A file's state.
#[tactic(auto, unfolding(crate::specs::Listed::state_words))]
fn state_words(held: bool) -> &'static str
    ensures { result.now ≡ state_words held }
{
    if held { "HELD" } else { "READY" }
}

/// What NJH001 says of a file, after its number.
#[tactic(auto, unfolding(crate::specs::Listed::said_of))]
pub(crate) fn said_of(alloc: Global, file: &FileRow) -> Result<String, AllocError>
    ensures { IfOk result (λ text. string_bytes text ≡ said_of (file_of file.now)) }
{
    let name = name_text(alloc, file)?;
    let user = user_words(alloc, file.to_user.as_str())?;
    let node = without_mark(file.to_node.as_str());
    let kind = kind_words(file.kind.as_str());
    let records = file.records;
    let state = state_words(file.held);
    format!(in alloc; "{name} TO {node}{user} {kind} {records} RECORDS {state}")
}

/// The line of a file.
#[tactic(auto, unfolding(crate::specs::Listed::file_line))]
fn file_line(alloc: Global, file: &FileRow) -> Result<String, AllocError>
    ensures { IfOk result (λ line. string_bytes line ≡ file_line (file_of file.now)) }
{
    let said = said_of(alloc, file)?;
    let customer = file.customer.as_str();
    format!(in alloc; "{customer} {said}\n")
}

/// Appends the line of a file.
fn put_line(alloc: Global, text: &mut Vec<u8>, file: &FileRow) -> Result<(), AllocError>
    ensures { OnOk result (text.new.items ≡ text.old.items ++ file_line (file_of file.now)) }
{
    let line = file_line(alloc, file)?;
    text.extend_from_slice(line.as_bytes())?;
    Ok(())
}

/// The lines of files.
fn lines_of(alloc: Global, list: &[&StoredFile]) -> Result<Vec<u8>, AllocError>
    ensures { IfOk result (λ text. text.items ≡ flat_map (λ s. file_line (file_of s.now.file)) list.now) }
{
    let mut text = Vec::new(alloc);
    for stored in list {
        put_line(alloc, &mut text, &stored.file)?;
    }
    Ok(text)
}

/// The lines of all files, or of a customer's.
fn listing_text(
    alloc: Global,
    customer: Option<&str>,
    files: &[StoredFile],
) -> Result<Vec<u8>, AllocError>
    ensures { IfOk result (λ text. text.items
        ≡ listing_text (option_map (λ c. c.now) customer.entry) (map entry_of files.now)) }
{
    let list = listed_files(alloc, customer, files)?;
    lines_of(alloc, list.as_slice())
}

/// The lines of all files of a spool file, or of a customer's.
fn listing<S: Alter>(
    alloc: Global,
    store: &mut Store<S>,
    customer: Option<&str>,
) -> Result<Vec<u8>, FilesFault>
    ensures kept { HasCleanDisk (shown S.Store store.new) → IfOk result (λ text. (spool : SpoolContents)
        → Holds spool (shown S.Store store.old).now.trees
        → text.items ≡ listing_text (option_map (λ c. c.now) customer.entry) spool.files) }
    ensures some { IfOk result (λ text. (files : List (ℕ × File))
        × (text.items ≡ listing_text (option_map (λ c. c.now) customer.entry) files)) }
    ensures same { HasCleanDisk (shown S.Store store.new) → OnOk result (Stays (shown S.Store store.old)
        (shown S.Store store.new)) }
    ensures crash { Survives (shown S.Store store.old) (shown S.Store store.new) (λ _. ⊥) }
    ensures fault { IfErr result IsOfSpool }
{
    let files = store.files(alloc)?;
    Ok(listing_text(alloc, customer, files.as_slice())?)
}

/// Prints the whole files that a spool file has, a line a file: all, the customers in the order of
/// their first files there, or one customer's; each customer's in their order of arrival. After a
/// fault a beginning of them was printed.
pub fn print_files<S: Alter, W: Write>(
    alloc: Global,
    store: &mut Store<S>,
    customer: Option<&str>,
    out: &mut W,
) -> Result<(), FilesFault>
    ensures kept { HasCleanDisk (shown S.Store store.new) → OnOk result ((spool : SpoolContents)
        → Holds spool (shown S.Store store.old).now.trees → Appends (W.contents out.old) (W.contents out.new)
        (listing_text (option_map (λ c. c.now) customer.entry) spool.files)) }
    ensures done { OnOk result (IsListed (option_map (λ c. c.now) customer.entry) (W.contents out.old)
        (W.contents out.new)) }
    ensures begun { OnErr result (Keeps (W.contents out.old) (W.contents out.new)
        ⊎ IsListedInPart (option_map (λ c. c.now) customer.entry) (W.contents out.old) (W.contents out.new)) }
    ensures same { HasCleanDisk (shown S.Store store.new) → OnOk result (Stays (shown S.Store store.old)
        (shown S.Store store.new)) }
    ensures crash { Survives (shown S.Store store.old) (shown S.Store store.new) (λ _. ⊥) }
    ensures fault { IfErr result IsOfSpool }
{
    let text = listing(alloc, store, customer)?;
    write_text(out, &text)
}

/// Prints them so, but refuses a customer that is named and has none.
pub(crate) fn list_files<S: Alter, W: Write>(
    alloc: Global,
    store: &mut Store<S>,
    customer: Option<&str>,
    out: &mut W,
) -> Result<(), FilesFault>
    ensures kept { HasCleanDisk (shown S.Store store.new) → OnOk result ((spool : SpoolContents)
        → Holds spool (shown S.Store store.old).now.trees
        → HasLine (option_map (λ c. c.now) customer.entry) (listing_text (option_map (λ c. c.now) customer.entry)
        spool.files)
        × Appends (W.contents out.old) (W.contents out.new) (listing_text (option_map (λ c. c.now) customer.entry)
        spool.files)) }
    ensures refused { HasCleanDisk (shown S.Store store.new) → IfErr result (λ fault. (spool : SpoolContents)
        → Holds spool (shown S.Store store.old).now.trees → IsUnlisted (option_map (λ c. c.now) customer.entry)
        (listing_text (option_map (λ c. c.now) customer.entry) spool.files) fault) }
    ensures done { OnOk result (IsListed (option_map (λ c. c.now) customer.entry) (W.contents out.old)
        (W.contents out.new)) }
    ensures begun { OnErr result (Keeps (W.contents out.old) (W.contents out.new)
        ⊎ IsListedInPart (option_map (λ c. c.now) customer.entry) (W.contents out.old) (W.contents out.new)) }
    ensures same { HasCleanDisk (shown S.Store store.new) → OnOk result (Stays (shown S.Store store.old)
        (shown S.Store store.new)) }
    ensures crash { Survives (shown S.Store store.old) (shown S.Store store.new) (λ _. ⊥) }
    ensures silent { IfErr result (λ fault. Keeps (W.contents out.old) (W.contents out.new) ⊎ IsOfSpool fault) }
{
    let text = listing(alloc, store, customer)?;
    write_listing(alloc, customer, &text, out)
}

/// Writes a listing, unless it is a customer's and empty. After another fault a beginning of it was
/// written.
fn write_listing<W: Write>(
    alloc: Global,
    customer: Option<&str>,
    text: &[u8],
    out: &mut W,
) -> Result<(), FilesFault>
    ensures ok { OnOk result (HasLine (option_map (λ c. c.now) customer.entry) text.now
        × Appends (W.contents out.old) (W.contents out.new) text.now) }
    ensures refused { IfErr result (IsUnlisted (option_map (λ c. c.now) customer.entry) text.now) }
    ensures err { OnErr result (Keeps (W.contents out.old) (W.contents out.new)
        ⊎ AppendsBeginning (W.contents out.old) (W.contents out.new) text.now) }
    ensures silent { IfErr result (λ fault. Keeps (W.contents out.old) (W.contents out.new) ⊎ IsOfSpool fault) }
{
    match customer {
        Some(name) => write_lines_of(alloc, name, text, out),
        None => write_text(out, text),
    }
}

/// Writes a customer's lines, of which there must be one.
fn write_lines_of<W: Write>(
    alloc: Global,
    customer: &str,
    text: &[u8],
    out: &mut W,
) -> Result<(), FilesFault>
    ensures ok { OnOk result ((0 < length text.now) × Appends (W.contents out.old) (W.contents out.new) text.now) }
    ensures refused { IfErr result (IsUnlisted (Some customer.now) text.now) }
    ensures err { OnErr result (Keeps (W.contents out.old) (W.contents out.new)
        ⊎ AppendsBeginning (W.contents out.old) (W.contents out.new) text.now) }
    ensures silent { IfErr result (λ fault. Keeps (W.contents out.old) (W.contents out.new) ⊎ IsOfSpool fault) }
{
    if text.is_empty() {
        return Err(FilesFault::NoFile(format!(in alloc; "of {customer}")?));
    }
    write_text(out, text)
}
