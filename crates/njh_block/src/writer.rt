//! Blocks, written.

ghost use Rattle.std.specs.Prelude.{◌≡◌, ◌+◌, ◌≤◌, ◌++◌, [], ◌↔◌, length, IsTrue};
ghost use Rattle.njh_block.specs.Blocks.{written_bytes, text_of};
ghost use Rattle.njh_block.specs.ItemViews.{outgoing_item, IsWritable};
ghost use Rattle.njh_block.specs.Writing.{is_general, has_room, with_last};

use crate::bcb::Bcb;
use crate::fcs::Fcs;
use crate::out::Out;
use crate::rcb::{END, GENERAL, OWN_ZERO};
use arrayvec::ArrayVec;
use njh_record::{ABORT, add_spelling, put_bytes, spelled_len};
use std::marker::Model;

/// The text of a block: at most 4,096 bytes.
pub type BlockText = ArrayVec<u8, 4096>;

/// How many bytes the text of a block without records has.
const WITHOUT_RECORDS: usize = 4;

/// Puts the text of a block without records where nothing is yet.
fn put_header(text: &mut BlockText, bcb: Bcb, fcs: Fcs)
    requires { text.old.items ≡ [] }
    ensures { text.new.items ≡ text_of bcb fcs [] }
{
    let (first, second) = fcs.bytes();
    put_bytes(text, &[bcb.byte(), first, second, END]);
}

/// How many bytes a record takes.
#[tactic(auto, using(crate::proofs::WritingLaws::spelling_bounds))]
fn written_len(out: &Out<'_>) -> usize
    requires { IsWritable out.now }
    ensures value { result ≡ length (written_bytes (outgoing_item out.now)) }
    ensures bound { result ≤ 264 }
{
    match out {
        Out::Data { bytes, .. } => 2 + spelled_len(bytes),
        Out::Abort { .. } | Out::Control { .. } => 3,
        Out::General { bytes, .. } => 2 + bytes.len(),
    }
}

/// A bound on how many bytes a record takes, which looks at none of its bytes.
#[tactic(auto, using(crate::proofs::WritingLaws::spelling_bounds))]
fn most_written(out: &Out<'_>) -> usize
    requires { IsWritable out.now }
    ensures enough { length (written_bytes (outgoing_item out.now)) ≤ result }
    ensures bound { result ≤ 512 }
{
    match out {
        // A literal has a byte in front of 63 of its own at most.
        Out::Data { bytes, .. } => 2 + bytes.len() + (bytes.len() + 125) / 63,
        Out::Abort { .. } | Out::Control { .. } => 3,
        Out::General { bytes, .. } => 2 + bytes.len(),
    }
}

fn is_general(out: &Out<'_>) -> bool
    ensures { result ≡ is_general (outgoing_item out.now) }
{
    matches!(out, Out::General { .. })
}

/// Adds a record that has room.
fn put_record(text: &mut BlockText, out: Out<'_>)
    requires writable { IsWritable out }
    requires room { length text.old.items + length (written_bytes (outgoing_item out)) ≤ 4096 }
    ensures { text.new.items ≡ text.old.items ++ written_bytes (outgoing_item out.entry) }
{
    match out {
        Out::Data { rcb, srcb, bytes } => {
            put_bytes(text, &[rcb.byte, srcb]);
            add_spelling(bytes, text);
        }
        Out::Abort { rcb, srcb } => put_bytes(text, &[rcb.byte, srcb, ABORT]),
        Out::Control { rcb, srcb } => put_bytes(text, &[rcb.byte(), srcb, OWN_ZERO]),
        Out::General { srcb, bytes } => {
            put_bytes(text, &[GENERAL, srcb]);
            put_bytes(text, bytes);
        }
    }
}

/// A block that is being written, in a text of at most so many bytes. A contract sees the records
/// that were added.
///
/// The text lies in the writer itself, and making one clears all its 4,096 bytes: a writer that is
/// kept, `restart`ed for each block and read by `text` clears and copies no more than was written.
#[derive(Drop)]
pub struct BlockWriter {
    limit: usize,
    text: BlockText,
    ended: bool,
}

impl Model for BlockWriter {
    ghost use Rattle.njh_block.specs.Writing.{Writing, writing_of, IsWriting};

    ghost Value = { Writing };

    ghost view = { λ w. writing_of w.limit w.text.items };

    ghost invariant = { λ w. IsWriting (writing_of w.limit w.text.items) w.text.items w.ended };
}

impl BlockWriter {
    /// A block without records.
    pub fn new(limit: usize, bcb: Bcb, fcs: Fcs) -> Self
        requires low { 300 ≤ limit }
        requires high { limit ≤ 4096 }
        ensures { result ≡ record { limit = limit; bcb = bcb; fcs = fcs; items = [] } }
    {
        let mut text = ArrayVec::new();
        put_header(&mut text, bcb, fcs);
        BlockWriter {
            limit,
            text,
            ended: false,
        }
    }

    /// Begins another block, without records, in place of this one.
    pub fn restart(&mut self, limit: usize, bcb: Bcb, fcs: Fcs)
        requires low { 300 ≤ limit }
        requires high { limit ≤ 4096 }
        ensures { self.new ≡ record { limit = limit; bcb = bcb; fcs = fcs; items = [] } }
    {
        self.limit = limit;
        self.ended = false;
        self.text.clear();
        put_header(&mut self.text, bcb, fcs);
    }

    /// Whether nothing was added.
    pub fn is_empty(&self) -> bool
        ensures { IsTrue result ↔ (self.now.items ≡ []) }
    {
        self.text.len() == WITHOUT_RECORDS
    }

    /// Whether a record has room, with the closing 00 after it. After a general one nothing has,
    /// and in a block without records each has.
    pub fn fits(&self, out: &Out<'_>) -> bool
        requires { IsWritable out.now }
        ensures exact { result ≡ has_room self.now (outgoing_item out.now) }
        ensures first { self.now.items ≡ [] → IsTrue result }
    {
        if self.ended {
            return false;
        }
        let len = self.text.len();
        len + most_written(out) <= self.limit || len + written_len(out) <= self.limit
    }

    /// Adds a record that has room.
    pub fn add(&mut self, out: Out<'_>)
        requires writable { IsWritable out }
        requires room { IsTrue (has_room self.old (outgoing_item out)) }
        ensures { self.new ≡ with_last (outgoing_item out.entry) self.old }
    {
        self.ended = is_general(&out);
        let _end = self.text.pop();
        put_record(&mut self.text, out);
        self.text.push(END);
    }

    /// The text, with the closing 00.
    pub fn text(&self) -> &[u8]
        ensures text { result.now ≡ text_of self.now.bcb self.now.fcs self.now.items }
        ensures within { length result.now ≤ self.now.limit }
        ensures longest { length result.now ≤ 4096 }
    {
        &self.text
    }

    /// The text, with the closing 00.
    pub fn finish(self) -> BlockText
        ensures text { result.items ≡ text_of self.bcb self.fcs self.items }
        ensures within { length result.items ≤ self.limit }
    {
        let BlockWriter { text, .. } = self;
        text
    }
}
