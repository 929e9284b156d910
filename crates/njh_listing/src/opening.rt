//! Opens the spool file of a path.

ghost use Rattle.std.specs.Prelude.{◌≡◌, IfErr, IfOk};
ghost use Rattle.sqlite.specs.Files.{file_state};
ghost use Rattle.sqlite.specs.State.{HasCleanDisk};
ghost use Rattle.sqlite.specs.WalFiles.{image_at};
ghost use Rattle.njh_spoolfile.specs.Kept.{SpoolContents};
ghost use Rattle.njh_spoolfile.specs.Origin.{IsFoundIn};
ghost use Rattle.njh_spoolfile.specs.CommitState.{Stands};
ghost use Rattle.njh_listing.specs.Faults.{IsOfSpool};
ghost use Rattle.njh_listing.specs.Taken.{is_other};

use crate::copying::{copy_files, fault_of, hold, make_folder, real_path, remove_folder};
use crate::fault::FilesFault;
use crate::lending::{Task, lend};
use crate::moving::close;
use crate::unopened::{log_of, told_by_files};
use njh_spoolfile::Store;
use sqlite::{Alter, FileFrom, FileStore, Start, Unknown};
use std::fs;
use std::fs::{File, OpenOptions, Permissions};
use std::io::{ErrorKind, Read};
use std::os::unix::fs::{OpenOptionsExt, PermissionsExt};
use std::rt::HostRuntime;

/// The mode of a spool file and of its log: whole files are their users' letters, and none of other
/// users of the host.
const MODE: u32 = 0o600;

/// How many bytes a log has that was copied into its spool file; none of them counts.
const EMPTY_LOG: u64 = 41;

/// What opens spool files. `start` is what a proof knows of the files before they are opened. No
/// impl says of which type an open one is, so that a crate that only has what opens them doesn't
/// prove how the parts of that type are dropped.
pub trait SpoolFiles {
    /// Opens the spool file at the path, or makes it, and gives it and its log the mode 0600. What
    /// is no spool file isn't written.
    fn open_spool<S: Start>(
        &self,
        path: &str,
        start: S,
    ) -> Result<Store<FileStore<FileFrom<S>>>, FilesFault>
        ensures found { IfOk result (λ store. HasCleanDisk (file_state store.conn) → (spool : SpoolContents)
            → IsFoundIn (image_at S.Start) spool
            → Stands (record { now = spool; kept = spool }) (file_state store.conn)) }
        ensures refused { IfErr result IsOfSpool };

    /// Marks the spool file at the path, in itself, as one to which a log belongs, if its log holds
    /// nothing or isn't there; makes it if it isn't there. Answers whether it had the mark and its
    /// log isn't there, so that what the log held is lost.
    fn mark_spool(&self, path: &str) -> Result<bool, FilesFault>
        ensures { IfErr result IsOfSpool };

    /// Makes the spool file at the path, where nothing may be, as `open_spool` does.
    fn make_spool<S: Start>(
        &self,
        path: &str,
        start: S,
    ) -> Result<Store<FileStore<FileFrom<S>>>, FilesFault>
        ensures { IfErr result IsOfSpool };

    /// Opens a copy of the spool file at the path, which has to be there and need not be writable.
    /// It stays as it is, and nothing is left beside it; the copy is gone when this returns.
    fn find_spool<S: Start>(
        &self,
        path: &str,
        start: S,
    ) -> Result<Store<FileStore<FileFrom<S>>>, FilesFault>
        ensures { IfErr result IsOfSpool };
}

/// Whether SQLite takes a path for none of a file.
fn is_no_file(path: &str) -> bool {
    path == ":memory:" || path.starts_with("file:")
}

/// Makes an empty file, where nothing may be: a database that has nothing yet.
fn make_new(rt: &HostRuntime, path: &str) -> Result<(), FilesFault>
    ensures { IfErr result IsOfSpool }
{
    if is_no_file(path) {
        return Err(FilesFault::Device);
    }
    let made = OpenOptions::new()
        .write(true)
        .create_new(true)
        .mode(MODE)
        .open(rt, path);
    match made {
        Ok(file) => {
            drop(file);
            Ok(())
        }
        Err(error) => match error.kind() {
            ErrorKind::AlreadyExists => Err(FilesFault::AlreadyThere),
            _ => Err(fault_of(error)),
        },
    }
}

/// Sets the mode of a file, if it is there.
fn set_mode(rt: &HostRuntime, path: &str) -> Result<(), FilesFault>
    ensures { IfErr result IsOfSpool }
{
    match fs::set_permissions(rt, path, Permissions::from_mode(MODE)) {
        Ok(()) => Ok(()),
        Err(error) => match error.kind() {
            ErrorKind::NotFound => Ok(()),
            _ => Err(fault_of(error)),
        },
    }
}

/// Sets the mode of a spool file and of its log, which lie where links lead.
fn set_modes(rt: &HostRuntime, path: &str) -> Result<(), FilesFault>
    ensures { IfErr result IsOfSpool }
{
    let file = real_path(rt, path)?;
    set_mode(rt, file.as_str())?;
    let log = log_of(rt, file.as_str())?;
    set_mode(rt, log.as_str())
}

/// How many bytes a spool file's log has, if it is there.
fn log_len(rt: &HostRuntime, path: &str) -> Option<u64> {
    let file = real_path(rt, path).ok()?;
    let log = log_of(rt, file.as_str()).ok()?;
    match fs::metadata(rt, log.as_str()) {
        Ok(found) => Some(found.len()),
        Err(_) => None,
    }
}

/// Marks a spool file as one to which a log belongs, and closes it, so that it has the mark in
/// itself. Answers whether it had it.
fn mark<S: Start>(store: Store<FileStore<FileFrom<S>>>) -> Result<bool, FilesFault>
    ensures { IfErr result IsOfSpool }
{
    let mut had = false;
    match lend(store, SetMark, &mut had) {
        Ok(store) => match close(store) {
            Ok(()) => Ok(had),
            Err(fault) => Err(fault),
        },
        Err(fault) => Err(fault),
    }
}

/// Sets the mark that a log belongs to a spool file, and says whether it had it.
#[derive(Drop)]
struct SetMark;

impl Task<bool> for SetMark {
    ghost use Rattle.std.specs.Prelude.{⊤};
    ghost use Rattle.njh_listing.specs.Faults.{IsOfSpool};

    ghost done = { λ task old new. ⊤ };

    ghost failed = { λ task old new fault. IsOfSpool fault };

    ghost keeps = { λ task. ⊥ };

    fn run<A: Alter>(self, store: &mut Store<A>, had: &mut bool) -> Result<(), FilesFault> {
        match store.set_mark() {
            Ok(marked) => {
                *had = marked;
                Ok(())
            }
            Err(error) => Err(FilesFault::from(error)),
        }
    }
}

/// How many bytes a file has; none if it isn't there.
fn len_of(rt: &HostRuntime, path: &str) -> u64 {
    match fs::metadata(rt, path) {
        Ok(found) => found.len(),
        Err(_) => 0,
    }
}

/// Whether a file is somebody else's, by its first bytes and by how many its log has.
fn is_other(file: &[u8], log: u64) -> bool
    ensures { result ≡ is_other file.now log }
{
    match file {
        [first] => *first != 0 || log == 0,
        _ => false,
    }
}

/// The first two bytes of a file, if it has as many.
fn first_bytes(rt: &HostRuntime, path: &str) -> Result<Vec<u8>, FilesFault>
    ensures { IfErr result IsOfSpool }
{
    let file = match File::open(rt, path) {
        Ok(file) => file,
        Err(error) => return Err(fault_of(error)),
    };
    let mut bytes = Vec::new(rt.alloc());
    match file.take(2).read_to_end(&mut bytes) {
        Ok(_) => Ok(bytes),
        Err(error) => Err(fault_of(error)),
    }
}

/// Refuses a file that is somebody else's and too short for SQLite to see that: it would take it
/// for one that is new.
fn refuse_other(rt: &HostRuntime, path: &str) -> Result<(), FilesFault>
    ensures { IfErr result IsOfSpool }
{
    let file = real_path(rt, path)?;
    let log = log_of(rt, file.as_str())?;
    let bytes = first_bytes(rt, file.as_str())?;
    if is_other(&bytes, len_of(rt, log.as_str())) {
        return Err(FilesFault::Damaged);
    }
    Ok(())
}

/// Makes a file that isn't there, and refuses one that is somebody else's.
fn make_or_refuse(rt: &HostRuntime, path: &str) -> Result<(), FilesFault>
    ensures { IfErr result IsOfSpool }
{
    match make_new(rt, path) {
        Ok(()) => {}
        Err(FilesFault::AlreadyThere) => {}
        Err(fault) => return Err(fault),
    }
    refuse_other(rt, path)
}

/// Opens the spool file at the path, or makes it.
fn open_store<S: Start>(
    rt: &HostRuntime,
    path: &str,
    start: S,
) -> Result<Store<FileStore<FileFrom<S>>>, FilesFault>
    ensures found { IfOk result (λ store. HasCleanDisk (file_state store.conn) → (spool : SpoolContents)
        → IsFoundIn (image_at S.Start) spool
        → Stands (record { now = spool; kept = spool }) (file_state store.conn)) }
    ensures refused { IfErr result IsOfSpool }
{
    match Store::open(rt, path, start) {
        Ok(store) => Ok(store),
        Err(fault) => Err(FilesFault::from(fault)),
    }
}

/// A spool file that is open, if the modes of its files were set.
fn where_set<S: Start>(
    store: Store<FileStore<FileFrom<S>>>,
    set: Result<(), FilesFault>,
) -> Result<Store<FileStore<FileFrom<S>>>, FilesFault>
    requires { IfErr set IsOfSpool }
    ensures same { IfOk result (λ kept. kept ≡ store) }
    ensures refused { IfErr result IsOfSpool }
{
    lend(store, WhereSet(set), &mut ())
}

/// Nothing is done, if this was.
#[derive(Drop)]
struct WhereSet(Result<(), FilesFault>);

impl Task<()> for WhereSet {
    ghost use Rattle.std.specs.Prelude.{◌≡◌, Err, ⊤};

    ghost done = { λ task old new. ⊤ };

    ghost failed = { λ task old new fault. task.0 ≡ Err fault };

    ghost keeps = { λ task. ⊤ };

    fn run<A: Alter>(self, _store: &mut Store<A>, _beside: &mut ()) -> Result<(), FilesFault> {
        let WhereSet(set) = self;
        set
    }
}

/// Copies a spool file into a folder, and opens the copy.
fn open_in<S: Start>(
    rt: &HostRuntime,
    path: &str,
    folder: &str,
    start: S,
) -> Result<Store<FileStore<FileFrom<S>>>, FilesFault>
    ensures { IfErr result IsOfSpool }
{
    let copy = match copy_to(rt, path, folder) {
        Ok(copy) => copy,
        Err(fault) => return Err(fault),
    };
    open_store(rt, copy.as_str(), start)
}

/// Copies a spool file into a folder, and says where the copy is.
fn copy_to(rt: &HostRuntime, path: &str, folder: &str) -> Result<String, FilesFault>
    ensures { IfErr result IsOfSpool }
{
    let copy = format!(in rt.alloc(); "{folder}/spool")?;
    copy_files(rt, path, copy.as_str())?;
    refuse_other(rt, copy.as_str())?;
    Ok(copy)
}

/// Opens a copy of a spool file, which is gone when this returns.
fn open_copy<S: Start>(
    rt: &HostRuntime,
    path: &str,
    start: S,
) -> Result<Store<FileStore<FileFrom<S>>>, FilesFault>
    ensures { IfErr result IsOfSpool }
{
    let folder = match make_folder(rt) {
        Ok(folder) => folder,
        Err(fault) => return Err(fault),
    };
    let opened = open_in(rt, path, folder.as_str(), start);
    let removed = remove_folder(rt, folder.as_str());
    match opened {
        Ok(store) => where_set(store, removed),
        Err(fault) => Err(fault),
    }
}

/// A spool file that is there, held so that nobody writes it.
fn find(rt: &HostRuntime, path: &str) -> Result<(String, File), FilesFault>
    ensures { IfErr result IsOfSpool }
{
    if is_no_file(path) {
        return Err(FilesFault::Device);
    }
    let real = real_path(rt, path)?;
    let held = hold(rt, real.as_str())?;
    Ok((real, held))
}

impl SpoolFiles for HostRuntime {
    fn open_spool<S: Start>(
        &self,
        path: &str,
        start: S,
    ) -> Result<Store<FileStore<FileFrom<S>>>, FilesFault> {
        match make_or_refuse(self, path) {
            Ok(()) => {}
            Err(fault) => return Err(fault),
        }
        match open_store(self, path, start) {
            Ok(store) => where_set(store, set_modes(self, path)),
            Err(fault) => Err(told_by_files(self, path, fault)),
        }
    }

    fn mark_spool(&self, path: &str) -> Result<bool, FilesFault> {
        let log = log_len(self, path);
        if log.unwrap_or(0) > EMPTY_LOG {
            return Ok(false);
        }
        match self.open_spool(path, Unknown) {
            Ok(store) => match mark(store) {
                Ok(had) => Ok(had && log.is_none()),
                Err(fault) => Err(fault),
            },
            Err(fault) => Err(fault),
        }
    }

    fn make_spool<S: Start>(
        &self,
        path: &str,
        start: S,
    ) -> Result<Store<FileStore<FileFrom<S>>>, FilesFault> {
        match make_new(self, path) {
            Ok(()) => self.open_spool(path, start),
            Err(fault) => Err(fault),
        }
    }

    fn find_spool<S: Start>(
        &self,
        path: &str,
        start: S,
    ) -> Result<Store<FileStore<FileFrom<S>>>, FilesFault> {
        let (real, held) = match find(self, path) {
            Ok(found) => found,
            Err(fault) => return Err(fault),
        };
        let opened = open_copy(self, real.as_str(), start);
        drop(held);
        opened
    }
}
