//! Where the records of a file lie.

ghost use Rattle.std.specs.Prelude.{◌≡◌, ◌+◌, ◌<◌, ◌≤◌, ◌++◌, length, IsSomeAnd, slice_get, Some};
ghost use Rattle.std.specs.Option.{option_map};
ghost use Rattle.njh_spool.specs.code.Chains.{chain_at, IsBlockOf};
ghost use Rattle.njh_spool.specs.code.Packing.{packed_record, unpacked_records};
ghost use Rattle.njh_spool.specs.code.Slots.{IsFile, IsPlace};

use crate::file_slot::{FileSlot, KeptPlaces, RecordPlace};
use crate::store::BlockStore;
use crate::store::chain_block::ChainBlock;
use byteorder::{BigEndian, ByteOrder};
use njh_record::Record;

/// What a record takes before its bytes: its SRCB and its length.
pub const RECORD_HEAD: usize = 3;

/// A record's head, and a block to read its bytes from.
#[derive(Clone, Copy)]
pub struct Head {
    pub srcb: u8,
    pub length: u16,
    pub block: ChainBlock,
}

/// Reads the head of the record at a place. `into` is room for it.
pub fn read_head(
    store: &BlockStore,
    at: u32,
    slot: &FileSlot,
    from: RecordPlace,
    into: &mut Record,
) -> Head
    requires range { at < length store.now.chains }
    requires file { IsFile slot.now (chain_at at store.now) }
    requires place { IsPlace (unpacked_records slot.now.count (chain_at at store.now).bytes)
        (chain_at at store.now).keys from }
    requires more { from.record_index < slot.now.count }
    ensures head { IsSomeAnd (slice_get (unpacked_records slot.now.count
        (chain_at at store.now).bytes) from.record_index)
        (λ r. (r.srcb ≡ result.srcb) × (length r.bytes ≡ result.length)) }
    ensures block { IsBlockOf (chain_at at store.now).keys result.block }
{
    let block = store.read(at, from.block, from.place, RECORD_HEAD, into);
    Head {
        srcb: into[0],
        length: BigEndian::read_u16(&into[1..]),
        block,
    }
}

/// Where the n-th record begins, looked for from the last of the places that the slot keeps that
/// isn't behind it.
pub fn place_of_record(store: &BlockStore, at: u32, slot: &FileSlot, n: u32) -> RecordPlace
    requires range { at < length store.now.chains }
    requires file { IsFile slot.now (chain_at at store.now) }
    requires within { n < slot.now.count }
    ensures place { IsPlace (unpacked_records slot.now.count (chain_at at store.now).bytes)
        (chain_at at store.now).keys result }
    ensures index { result.record_index ≡ n }
{
    let KeptPlaces { last, next } = slot.places;
    let mut place = if next.record_index <= n {
        next
    } else if last.record_index <= n {
        last
    } else {
        RecordPlace::FIRST
    };
    while place.record_index < n {
        let (_srcb, behind) = pass_record(store, at, slot, place);
        place = behind;
    }
    place
}

/// Where a record would begin that is put last.
pub fn place_of_end(store: &BlockStore, at: u32, slot: &FileSlot) -> RecordPlace
    requires range { at < length store.now.chains }
    requires file { IsFile slot.now (chain_at at store.now) }
    ensures place { IsPlace (unpacked_records slot.now.count (chain_at at store.now).bytes)
        (chain_at at store.now).keys result }
    ensures index { result.record_index ≡ slot.now.count }
{
    RecordPlace {
        record_index: slot.count,
        place: store.len(at),
        block: store.last_block(at),
    }
}

/// Puts the bytes of the record at a place into `into`, and gives its SRCB and where the next
/// record begins.
pub fn read_record(
    store: &BlockStore,
    at: u32,
    slot: &FileSlot,
    from: RecordPlace,
    into: &mut Record,
) -> (u8, RecordPlace)
    requires range { at < length store.now.chains }
    requires file { IsFile slot.now (chain_at at store.now) }
    requires place { IsPlace (unpacked_records slot.now.count (chain_at at store.now).bytes)
        (chain_at at store.now).keys from }
    requires more { from.record_index < slot.now.count }
    ensures record { slice_get (unpacked_records slot.now.count (chain_at at store.now).bytes) from.record_index
        ≡ Some (record { srcb = result.0; bytes = into.new.items }) }
    ensures place { IsPlace (unpacked_records slot.now.count (chain_at at store.now).bytes)
        (chain_at at store.now).keys result.1 }
    ensures next { result.1.record_index ≡ from.record_index + 1 }
{
    let head = read_head(store, at, slot, from, into);
    let begins = from.place + RECORD_HEAD as u32;
    let block = store.read(at, head.block, begins, usize::from(head.length), into);
    let next = RecordPlace {
        record_index: from.record_index + 1,
        place: begins + u32::from(head.length),
        block,
    };
    (head.srcb, next)
}

/// The SRCB of the record at a place, and where the next record begins.
pub fn pass_record(
    store: &BlockStore,
    at: u32,
    slot: &FileSlot,
    from: RecordPlace,
) -> (u8, RecordPlace)
    requires range { at < length store.now.chains }
    requires file { IsFile slot.now (chain_at at store.now) }
    requires place { IsPlace (unpacked_records slot.now.count (chain_at at store.now).bytes)
        (chain_at at store.now).keys from }
    requires more { from.record_index < slot.now.count }
    ensures srcb { option_map (λ r. r.srcb) (slice_get (unpacked_records slot.now.count
        (chain_at at store.now).bytes) from.record_index) ≡ Some result.0 }
    ensures place { IsPlace (unpacked_records slot.now.count (chain_at at store.now).bytes)
        (chain_at at store.now).keys result.1 }
    ensures next { result.1.record_index ≡ from.record_index + 1 }
{
    let mut room = Record::new();
    let head = read_head(store, at, slot, from, &mut room);
    let next = RecordPlace {
        record_index: from.record_index + 1,
        place: from.place + RECORD_HEAD as u32 + u32::from(head.length),
        block: head.block,
    };
    (head.srcb, next)
}

/// What stands in front of a record's bytes: its SRCB and its length.
pub fn head_of(srcb: u8, bytes: &[u8]) -> [u8; RECORD_HEAD]
    requires { length bytes.now ≤ 256 }
    ensures { result ++ bytes.now ≡ packed_record (record { srcb = srcb; bytes = bytes.now }) }
{
    let mut length = [0; 2];
    BigEndian::write_u16(&mut length, bytes.len() as u16);
    [srcb, length[0], length[1]]
}
