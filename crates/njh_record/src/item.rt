//! The items of a spelling (IBM SC23-0070, "Compression").

ghost use Rattle.std.specs.Prelude.{◌≡◌, ◌+◌, ◌≤◌, ◌++◌, length, replicate};
ghost use Rattle.njh_record.specs.Spelling.{added_bytes, item_bytes, IsItem};
ghost use Rattle.njh_record.specs.code.Parts.{item_of, IsCounted, Takes};

use crate::Record;
use crate::scb::{BLANK, BLANKS, LITERAL, LONGEST_RUN, REPEAT};
use arrayvec::ArrayVec;

/// What one string control byte and the bytes that belong to it say.
#[derive(Clone, Copy)]
pub enum Item<'a> {
    /// So many blanks.
    Blanks(usize),
    /// A byte, so many times.
    Repeat { byte: u8, count: usize },
    /// Bytes as they are.
    Literal(&'a [u8]),
}

impl Item<'_> {
    /// How many bytes of the record it spells.
    pub fn len(self) -> usize
        ensures { result ≡ length (added_bytes (item_of self.entry)) }
    {
        match self {
            Item::Blanks(count) | Item::Repeat { count, .. } => count,
            Item::Literal(bytes) => bytes.len(),
        }
    }

    /// How many bytes it takes.
    pub fn spelled_len(self) -> usize
        requires { IsItem (item_of self) }
        ensures { result ≡ length (item_bytes (item_of self.entry)) }
    {
        match self {
            Item::Blanks(_) => 1,
            Item::Repeat { .. } => 2,
            Item::Literal(bytes) => 1 + bytes.len(),
        }
    }

    /// Writes it after what `out` has.
    pub fn put<const N: usize>(self, out: &mut ArrayVec<u8, N>)
        requires item { IsItem (item_of self) }
        requires room { length out.old.items + length (item_bytes (item_of self)) ≤ N }
        ensures { out.new.items ≡ out.old.items ++ item_bytes (item_of self.entry) }
    {
        match self {
            Item::Blanks(count) => out.push(BLANKS + count as u8),
            Item::Repeat { byte, count } => {
                out.push(REPEAT + count as u8);
                out.push(byte);
            }
            Item::Literal(bytes) => {
                out.push(LITERAL + bytes.len() as u8);
                out.try_extend_from_slice(bytes).unwrap();
            }
        }
    }

    /// Adds what it spells if it all has room, and says whether it had.
    pub fn add_to(self, contents: &mut Record) -> bool
        requires { IsCounted (item_of self) }
        ensures { Takes result contents.old.items (added_bytes (item_of self.entry)) contents.new.items }
    {
        match self {
            Item::Blanks(count) => add_copies(contents, BLANK, count),
            Item::Repeat { byte, count } => add_copies(contents, byte, count),
            Item::Literal(bytes) => add_bytes(contents, bytes),
        }
    }
}

/// Adds bytes if they all have room, and says whether they had.
fn add_bytes(contents: &mut Record, bytes: &[u8]) -> bool
    ensures { Takes result contents.old.items bytes.now contents.new.items }
{
    contents.try_extend_from_slice(bytes).is_ok()
}

/// Adds copies of a byte if they all have room, and says whether they had.
fn add_copies(contents: &mut Record, byte: u8, count: usize) -> bool
    requires { count ≤ 31 }
    ensures { Takes result contents.old.items (replicate count byte) contents.new.items }
{
    let copies = [byte; LONGEST_RUN];
    add_bytes(contents, &copies[..count])
}
