//! Blocks that a file's records go out in.

ghost use Rattle.std.specs.Prelude.{◌≡◌, ◌++◌, ◌∷◌, ◌≤◌, [], IsTrue, OnOk, length};
ghost use Rattle.njh_block.specs.Writing.{has_room};
ghost use Rattle.njh_block.specs.ItemViews.{IsWritable, outgoing_item};
ghost use Rattle.njh_encode.specs.LineStates.{counted};
ghost use Rattle.njh_encode.specs.Packing.{block_of, blocks_script, sysout, text_limit, writing_on};
ghost use Rattle.njh_encode.specs.code.Puts.{Puts};

use crate::line_states::LineState;
use crate::putting::put_block_text;
use njh_block::{Bcb, BlockWriter, Fcs, Out, Rcb};
use std::alloc::AllocError;
use std::marker::Model;

/// The RCB of the stream SYSOUT 1.
const SYSOUT: Rcb = Rcb { byte: 0x99 };

/// The most bytes of a text if the line didn't sign on.
const USUAL_LIMIT: usize = 1024;

/// The fewest and the most bytes that a text's limit may be.
const LOWEST_LIMIT: usize = 300;

const HIGHEST_LIMIT: usize = 4096;

/// How many bytes a text has at most on a line that signed on with this size.
#[tactic(auto, unfolding(crate::specs::Packing::text_limit))]
fn text_limit(size: u16) -> usize
    ensures value { result ≡ text_limit size }
    ensures low { 300 ≤ result }
    ensures high { result ≤ 4096 }
{
    if size == 0 {
        USUAL_LIMIT
    } else {
        usize::from(size).max(LOWEST_LIMIT).min(HIGHEST_LIMIT)
    }
}

/// Records that go out on a line, block by block: what is kept of the line, and the block that is
/// open.
#[derive(Drop)]
pub(crate) struct Packing {
    state: LineState,
    writer: BlockWriter,
}

impl Model for Packing {
    ghost use Rattle.std.specs.Prelude.{◌≡◌};
    ghost use Rattle.njh_encode.specs.Packing.{writing_on};
    ghost use Rattle.njh_encode.specs.code.Puts.{OpenBlock};

    ghost Value = { OpenBlock };

    ghost view = { λ p. record { state = p.state; items = p.writer.items } };

    ghost invariant = { λ p. p.writer ≡ writing_on p.state p.writer.items };
}

impl Packing {
    /// A block without records, of the line's next count.
    pub(crate) fn new(state: LineState) -> Packing
        ensures { result ≡ record { state = state; items = [] } }
    {
        let bcb = Bcb::normal(state.next_count());
        Packing {
            state,
            writer: BlockWriter::new(text_limit(state.size), bcb, Fcs::nothing_suspended()),
        }
    }

    /// What is kept of the line.
    pub(crate) fn state(&self) -> LineState
        ensures { result ≡ self.now.state }
    {
        self.state
    }

    /// Adds a record of the file. If the block has no room for it, the block's line is appended
    /// first.
    pub(crate) fn add(
        &mut self,
        script: &mut Vec<u8>,
        name: &str,
        srcb: u8,
        bytes: &[u8],
    ) -> Result<(), AllocError>
        requires { length bytes.now ≤ 256 }
        ensures { OnOk result (Puts name.now self.old (sysout srcb bytes.now ∷ []) self.new script.old.items
            script.new.items) }
    {
        let out = Out::Data {
            rcb: SYSOUT,
            srcb,
            bytes,
        };
        if self.fits(&out) {
            self.put(out);
            return Ok(());
        }
        self.end(script, name)?;
        let fits = self.fits(&out);
        prove!(fits);
        self.put(out);
        Ok(())
    }

    /// Whether the block has room for a record.
    fn fits(&self, out: &Out<'_>) -> bool
        requires { IsWritable out.now }
        ensures exact { result ≡ has_room (writing_on self.now.state self.now.items) (outgoing_item out.now) }
        ensures first { self.now.items ≡ [] → IsTrue result }
    {
        self.writer.fits(out)
    }

    /// Puts a record that has room into the block.
    fn put(&mut self, out: Out<'_>)
        requires writable { IsWritable out }
        requires room { IsTrue (has_room (writing_on self.old.state self.old.items) (outgoing_item out)) }
        ensures { self.new ≡ record self.old { items = self.old.items ++ outgoing_item out.entry ∷ [] } }
    {
        self.writer.add(out);
    }

    /// Appends the block's line, and begins the next block.
    pub(crate) fn end(&mut self, script: &mut Vec<u8>, name: &str) -> Result<(), AllocError>
        ensures line { OnOk result (script.new.items ≡ script.old.items
            ++ blocks_script name.now (block_of self.old.state self.old.items ∷ [])) }
        ensures next { OnOk result (self.new ≡ record { state = counted self.old.state; items = [] }) }
    {
        put_block_text(script, name, self.writer.text())?;
        self.state = self.state.counted();
        let bcb = Bcb::normal(self.state.next_count());
        self.writer
            .restart(text_limit(self.state.size), bcb, Fcs::nothing_suspended());
        Ok(())
    }
}
