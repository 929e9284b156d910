//! Writing: from a record to the one spelling that is written of it.

ghost use Rattle.std.specs.Prelude.{◌≡◌, ◌+◌, ◌≤◌, ◌<◌, ◌++◌, ◌==◌, false, length, take, min};
ghost use Rattle.std.specs.List.{prefix_len};
ghost use Rattle.njh_record.specs.code.Parts.{item_of};
ghost use Rattle.njh_record.specs.Spelling.{added_bytes, item_bytes};
ghost use Rattle.njh_record.specs.Writing.{run_of, begins_run, before_run, run_item, first_item, spelling_of};
ghost use Rattle.njh_record.specs.code.Written.{AreApart, NoRunBefore, SpellsFront};

use crate::item::Item;
use crate::scb::{BLANK, END_OF_RECORD, LONGEST_LITERAL, LONGEST_RUN};
use arrayvec::ArrayVec;
use std::simd::prelude::*;

/// How many bytes are looked at at once.
const GROUP: usize = 16;

/// How many bytes equal to the first are at the front, 31 at most.
fn run_len(bytes: &[u8]) -> usize
    requires { 0 < length bytes.now }
    ensures { result ≡ run_of bytes.now }
{
    let first = bytes[0];
    if bytes.len() < GROUP {
        return front_len(bytes, first, LONGEST_RUN);
    }
    let len = same_len(bytes, first);
    if len < GROUP {
        return len;
    }
    let (_, rest) = bytes.split_at(GROUP);
    GROUP + front_len(rest, first, LONGEST_RUN - GROUP)
}

/// How many bytes at the front are this one, so many at most.
fn front_len(bytes: &[u8], first: u8, most: usize) -> usize
    ensures { result ≡ prefix_len (λ b. b == first) (take most bytes.now) }
{
    bytes
        .iter()
        .take(most)
        .take_while(|byte| **byte == first)
        .count()
}

/// How many of the 16 bytes in front come before one that isn't this.
fn same_len(bytes: &[u8], first: u8) -> usize
    requires { GROUP ≤ length bytes.now }
    ensures { result ≡ prefix_len (λ b. b == first) (take GROUP bytes.now) }
{
    let other = u8x16::from_slice(bytes)
        .simd_ne(u8x16::splat(first))
        .to_bitmask();
    if other == 0 {
        GROUP
    } else {
        other.trailing_zeros() as usize
    }
}

/// Whether a run that is worth an item of its own begins the bytes: two blanks, or three equal
/// bytes.
fn begins_run(bytes: &[u8]) -> bool
    requires { 0 < length bytes.now }
    ensures { result ≡ begins_run bytes.now }
{
    match bytes {
        [first, second, rest @ ..] if *first == *second => {
            *first == BLANK || matches!(rest, [third, ..] if *third == *first)
        }
        _ => false,
    }
}

/// How many of the 16 bytes in front come before the first that equals the next.
fn apart_len(bytes: &[u8]) -> usize
    requires { GROUP < length bytes.now }
    ensures within { result ≤ GROUP }
    ensures apart { AreApart result bytes.now }
{
    let front = u8x16::from_slice(bytes);
    let next = u8x16::from_slice(&bytes[1..]);
    let equal = front.simd_eq(next).to_bitmask();
    if equal == 0 {
        GROUP
    } else {
        equal.trailing_zeros() as usize
    }
}

/// How many bytes in front were looked at, none of which begins a run: at least the first, which is
/// known to begin none.
fn passed_len(bytes: &[u8]) -> usize
    requires some { 0 < length bytes.now }
    requires first { begins_run bytes.now ≡ false }
    ensures some { 0 < result }
    ensures within { result ≤ length bytes.now }
    ensures passed { NoRunBefore bytes.now result }
{
    let (_, rest) = bytes.split_at(1);
    if rest.len() > GROUP {
        1 + apart_len(rest)
    } else {
        1
    }
}

/// How many bytes come before the first run, 63 at most, if none begins the bytes.
fn literal_len(bytes: &[u8]) -> usize
    requires some { 0 < length bytes.now }
    requires first { begins_run bytes.now ≡ false }
    ensures within { result ≤ length bytes.now }
    ensures front { take result bytes.now ≡ take 63 (before_run bytes.now) }
{
    let limit = bytes.len().min(LONGEST_LITERAL);
    let mut place = passed_len(bytes);
    while place < limit {
        let (_, rest) = bytes.split_at(place);
        if rest.len() <= GROUP + 1 {
            return end_len(bytes, place, limit);
        }
        if begins_run(rest) {
            return place;
        }
        place += passed_len(rest);
    }
    limit
}

/// The same, after so many bytes were looked at, byte by byte.
fn end_len(bytes: &[u8], passed: usize, limit: usize) -> usize
    requires limit { limit ≡ min (length bytes.now) 63 }
    requires passed { NoRunBefore bytes.now passed }
    requires within { passed ≤ limit }
    ensures within { result ≤ length bytes.now }
    ensures front { take result bytes.now ≡ take 63 (before_run bytes.now) }
{
    for place in passed..limit {
        let (_, rest) = bytes.split_at(place);
        if begins_run(rest) {
            return place;
        }
    }
    limit
}

/// The item that spells a run.
fn run_item(byte: u8, count: usize) -> Item<'static>
    ensures { item_of result ≡ run_item byte count }
{
    if byte == BLANK {
        Item::Blanks(count)
    } else {
        Item::Repeat { byte, count }
    }
}

/// The item that spells the front of some bytes.
fn first_item(bytes: &[u8]) -> Item<'_>
    requires { 0 < length bytes.now }
    ensures item { item_of result ≡ first_item bytes.now }
    ensures front { SpellsFront bytes.now (item_of result) }
{
    if begins_run(bytes) {
        run_item(bytes[0], run_len(bytes))
    } else {
        Item::Literal(&bytes[..literal_len(bytes)])
    }
}

/// Writes the one spelling of a record (IBM SC23-0070, "Compression") after what `out` holds: at
/// each place the run of equal bytes there, 31 at most, if it has 2 blanks or 3 other bytes at
/// least, else a literal of 63 bytes at most that stops where such a run begins. Of a record of 256
/// bytes it takes 262 at most: the law `spelling_bounds`.
pub fn add_spelling<const N: usize>(contents: &[u8], out: &mut ArrayVec<u8, N>)
    requires { length out.old.items + length (spelling_of contents.now) ≤ N }
    ensures { out.new.items ≡ out.old.items ++ spelling_of contents.now }
{
    let mut rest = contents;
    while !rest.is_empty() {
        let item = first_item(rest);
        item.put(out);
        let (_, after) = rest.split_at(item.len());
        rest = after;
    }
    out.push(END_OF_RECORD);
}

/// How many bytes of the record the item spells that spells the front of some bytes, and how many
/// it takes.
fn first_lens(bytes: &[u8]) -> (usize, usize)
    requires { 0 < length bytes.now }
    ensures spells { result.0 ≡ length (added_bytes (first_item bytes.now)) }
    ensures takes { result.1 ≡ length (item_bytes (first_item bytes.now)) }
    ensures some { 0 < result.0 }
    ensures within { result.0 ≤ length bytes.now }
{
    if begins_run(bytes) {
        let item = run_item(bytes[0], run_len(bytes));
        (item.len(), item.spelled_len())
    } else {
        let len = literal_len(bytes);
        (len, 1 + len)
    }
}

/// How many bytes `add_spelling` writes of a record, without writing them.
pub fn spelled_len(contents: &[u8]) -> usize
    requires { length contents.now ≤ 256 }
    ensures { result ≡ length (spelling_of contents.now) }
{
    let mut len = 1;
    let mut rest = contents;
    while !rest.is_empty() {
        let (spells, takes) = first_lens(rest);
        len += takes;
        let (_, after) = rest.split_at(spells);
        rest = after;
    }
    len
}
