//! Records of files that have left are dropped step by step: each customer's in its own steps, and one
//! customer's in each round.

ghost use Rattle.std.specs.Prelude.{◌≡◌, ◌<◌, ◌≤◌, ◌+◌, ◌⊎◌, ◌++◌, [], ◌∷◌, length, max, min, slice_get, None};
ghost use Rattle.std.specs.Prelude.{IfOk, IfSome, IsSomeAnd, OnOk};
ghost use Rattle.std.specs.List.{AllByRecursion};
ghost use Rattle.sqlite.specs.State.{HasCleanDisk, Survives};
ghost use Rattle.njh_spool.specs.CustomerSpool.{CustomerSpool};
ghost use Rattle.njh_spoolfile.specs.Shelf.{shown};
ghost use Rattle.njh_spoolfile.specs.Steps.{Changes};
ghost use Rattle.njh_keeper.specs.code.Counting.{CountsMore};
ghost use Rattle.njh_keeper.specs.code.Partly.{KeepsPartly};
ghost use Rattle.njh_keeper.specs.code.Swept.{HasNoSweeps, HasSweeps};
ghost use Rattle.njh_keeper.specs.code.Writing.{dead_in, dead_of, freed_by, left_of, sweep_of, without_swept};

use crate::own_files::{OwnFiles, Sweep};
use crate::writer::{PLACES, SpoolWriter};
use sqlite::{Alter, Error};

/// At how many places of files that have left a step drops rows at least, if there are so many.
const SWEPT_AT_LEAST: u32 = 512;

/// Has so many records under this number dropped step by step: those of a file that has left.
pub(crate) fn sweep_later(own: &mut OwnFiles, key: u32, end: u32) -> Result<(), Error>
    ensures later { OnOk result (own.new.sweeps.items ≡ own.old.sweeps.items ++ sweep_of key end ∷ []) }
    ensures others { own.new ≡ record own.old { sweeps = own.new.sweeps } }
{
    let end = end.min(PLACES);
    own.sweeps.push(Sweep { key, next: 0, end })?;
    Ok(())
}

/// Whose turn it is to have rows dropped between its own steps: the first customer from a place on,
/// or else the first one, that has files that have left.
pub(crate) fn next_to_sweep(customers: &[OwnFiles], from: usize) -> Option<usize>
    ensures within { IfSome result (λ place. place < length customers.now) }
    ensures has { IfSome result (λ place. IsSomeAnd (slice_get customers.now place) HasSweeps) }
    ensures none { result ≡ None → AllByRecursion HasNoSweeps customers.now }
{
    let (before, behind) = customers.split_at(from.min(customers.len()));
    match first_to_sweep(behind) {
        Some(place) => Some(before.len() + place),
        None => first_to_sweep(before),
    }
}

/// The first customer that has files that have left.
fn first_to_sweep(customers: &[OwnFiles]) -> Option<usize>
    ensures within { IfSome result (λ place. place < length customers.now) }
    ensures has { IfSome result (λ place. IsSomeAnd (slice_get customers.now place) HasSweeps) }
    ensures none { result ≡ None → AllByRecursion HasNoSweeps customers.now }
{
    for place in 0..customers.len() {
        if !customers[place].sweeps.is_empty() {
            return Some(place);
        }
    }
    None
}

/// Drops rows of a customer's files that have left: those at as many places as its step wrote
/// records, and at 512 at least, or all.
pub(crate) fn sweep<S: Alter + Drop>(
    writer: &mut SpoolWriter<S>,
    own: &mut OwnFiles,
    wrote: u32,
) -> Result<(), Error>
    ensures kept { (now : CustomerSpool) → OnOk result (KeepsPartly S.Store now writer.old own.old writer.new own.new) }
    ensures swept { OnOk result ((own.new.sweeps.items ≡ [])
        ⊎ (dead_of own.new.sweeps.items + max wrote 512 ≤ dead_of own.old.sweeps.items)) }
    ensures others { own.new ≡ record own.old { sweeps = own.new.sweeps } }
    ensures crash { Survives (shown S.Store writer.old.store) (shown S.Store writer.new.store) (λ _. ⊥) }
{
    let mut left = wrote.max(SWEPT_AT_LEAST);
    while left > 0 {
        let Some(sweep) = own.sweeps.pop() else {
            return Ok(());
        };
        left -= sweep_some(writer, own, sweep, left)?;
    }
    Ok(())
}

/// Drops the rows at so many places at most of a file that has left, and says at how many. Those
/// that are left are dropped later; if none is, their number is free.
fn sweep_some<S: Alter + Drop>(
    writer: &mut SpoolWriter<S>,
    own: &mut OwnFiles,
    sweep: Sweep,
    most: u32,
) -> Result<u32, Error>
    ensures count { IfOk result (λ count. count ≡ min most (dead_in sweep)) }
    ensures dropped { HasCleanDisk (shown S.Store writer.new.store) → OnOk result (Changes (without_swept most sweep)
        (shown S.Store writer.old.store) (shown S.Store writer.new.store)) }
    ensures left { OnOk result ((own.new.sweeps.items ≡ own.old.sweeps.items ++ left_of most sweep)
        × (writer.new.free_keys.items ≡ writer.old.free_keys.items ++ freed_by most sweep)) }
    ensures writer { writer.new ≡ record writer.old {
      store = writer.new.store;
      free_keys = writer.new.free_keys;
      waiting = writer.new.waiting;
    } }
    ensures counts { CountsMore 0 writer.old writer.new }
    ensures others { own.new ≡ record own.old { sweeps = own.new.sweeps } }
    ensures crash { Survives (shown S.Store writer.old.store) (shown S.Store writer.new.store) (λ _. ⊥) }
{
    let key = sweep.key;
    let end = sweep.end.min(PLACES);
    let first = sweep.next.min(end);
    let count = most.min(end - first);
    let next = first + count;
    writer.drop_records(key, first, next)?;
    if next < end {
        own.sweeps.push(Sweep { key, next, end })?;
    } else {
        writer.free_key(key)?;
    }
    Ok(count)
}
