//! Several records of a file stand in one row.

ghost use Rattle.std.specs.Prelude.{◌≡◌, ◌<◌, ◌≤◌, ◌+◌, ◌++◌, ◌⊎◌, ◌∷◌, [], ℕ, List, Option, Some, None, length, map};
ghost use Rattle.std.specs.Prelude.{true, false, IsTrue, OnOk, option_map};
ghost use Rattle.njh_spoolfile.specs.Kept.{as_stands, contents_of};
ghost use Rattle.njh_spoolfile.specs.Packed.{first_packed, packed_one, placed_from, unpacked_row};

use crate::kept::StoredRecord;
use arrayvec::ArrayVec;
use sqlite::{Error, ErrorCode};
use std::alloc::Global;
use std::marker::Model;

/// The SRCB of a row in which several records stand.
pub const SEVERAL: u16 = 256;

/// How many bytes a row of several records has at most: it fits into a page of 4,096.
const ROOM: usize = 4_000;

/// Records of a file one after the other, for one row. Of each there are its subrecord control
/// byte, how many bytes it has, in two bytes, and those.
#[derive(Drop)]
pub struct Pack {
    bytes: ArrayVec<u8, ROOM>,
}

impl Model for Pack {
    ghost Value = { List ℕ };

    ghost view = { λ p. p.bytes.items };

    ghost invariant = { λ p. length p.bytes.items ≤ 4000 };
}

impl Pack {
    /// One with no record.
    pub fn new() -> Pack
        ensures { result ≡ [] }
    {
        Pack {
            bytes: ArrayVec::new(),
        }
    }

    /// Whether a record of so many bytes still fits.
    pub fn has_room(&self, len: usize) -> bool
        requires { len ≤ 256 }
        ensures room { result ≡ true → length self.now + 3 + len ≤ 4000 }
        ensures full { result ≡ false → 4000 < length self.now + 3 + len }
    {
        self.bytes.len() + 3 + len <= ROOM
    }

    /// Adds a record that has room.
    pub fn push(&mut self, srcb: u8, bytes: &[u8])
        requires short { length bytes.now ≤ 256 }
        requires room { length self.old + 3 + length bytes.now ≤ 4000 }
        ensures { self.new ≡ self.old ++ packed_one (srcb, bytes.now) }
    {
        self.bytes.push(srcb);
        self.bytes.push((bytes.len() / 256) as u8);
        self.bytes.push((bytes.len() % 256) as u8);
        self.bytes.try_extend_from_slice(bytes).unwrap();
    }

    /// Begins anew, with no record.
    pub fn clear(&mut self)
        ensures { self.new ≡ [] }
    {
        self.bytes.clear()
    }

    /// The bytes of the row.
    pub fn bytes(&self) -> &[u8]
        ensures { result.now ≡ self.now }
    {
        &self.bytes
    }
}

/// The first of several records, and the bytes behind it.
fn first_packed(packed: &[u8]) -> Option<(u8, &[u8], &[u8])>
    ensures { option_map (λ first. ((first.0, first.1.now), first.2.now)) result ≡ first_packed packed.now }
{
    let [srcb, high, low, bytes @ ..] = packed else {
        return None;
    };
    let len = usize::from(*high) * 256 + usize::from(*low);
    if len > bytes.len() {
        return None;
    }
    Some((*srcb, &bytes[..len], &bytes[len..]))
}

/// Adds a record.
fn add(
    alloc: Global,
    place: u32,
    srcb: u32,
    bytes: &[u8],
    into: &mut Vec<StoredRecord>,
) -> Result<(), Error>
    ensures { OnOk result (map contents_of into.new.items ≡ map contents_of into.old.items
        ++ (place, srcb, bytes.now) ∷ []) }
{
    let bytes = Vec::from_slice(alloc, bytes)?;
    into.push(StoredRecord { place, srcb, bytes })?;
    Ok(())
}

/// Adds the records of a row, each with its place.
pub(crate) fn unpack(
    alloc: Global,
    row: StoredRecord,
    into: &mut Vec<StoredRecord>,
) -> Result<(), Error>
    ensures { OnOk result (map contents_of into.new.items ≡ map contents_of into.old.items
        ++ placed_from row.place (unpacked_row row.srcb row.bytes.items)) }
{
    if row.srcb != u32::from(SEVERAL) {
        into.push(row)?;
        return Ok(());
    }
    let mut place = row.place;
    let mut rest = row.bytes.as_slice();
    for _ in 0..row.bytes.len() {
        let Some((srcb, bytes, behind)) = first_packed(rest) else {
            break;
        };
        add(alloc, place, u32::from(srcb), bytes, into)?;
        if behind.is_empty() {
            return Ok(());
        }
        rest = behind;
        match place.checked_add(1) {
            Some(next) => place = next,
            None => return Err(Error::SqliteFailure(ErrorCode::DatabaseCorrupt)),
        }
    }
    add(alloc, place, u32::from(SEVERAL), rest, into)
}
