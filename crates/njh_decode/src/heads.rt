//! What a block control byte and a function control sequence say.

ghost use Rattle.std.specs.Prelude.{◌≡◌, ◌++◌, OnOk};
ghost use Rattle.njh_decode.specs.Words.{label};
ghost use Rattle.njh_decode.specs.Heads.{count_words, fcs_words, head_words, messages_words, numbering_words, on_words};
ghost use Rattle.njh_decode.specs.Heads.{streams_words, suspended_words, sysin_words, sysout_words};

use crate::words::{put_number, put_stream, put_words};
use njh_block::{Bcb, Fcs, Numbering, Stream};
use std::alloc::AllocError;

/// Appends the head of a block.
#[tactic(auto, unfolding(crate::specs::Heads::head_words))]
pub(crate) fn put_head(line: &mut Vec<u8>, bcb: Bcb, fcs: Fcs) -> Result<(), AllocError>
    ensures { OnOk result (line.new.items ≡ line.old.items ++ head_words bcb fcs) }
{
    put_count(line, bcb)?;
    put_fcs(line, fcs)
}

/// Appends the count of a block, and what it does.
#[tactic(auto, unfolding(crate::specs::Heads::count_words))]
fn put_count(line: &mut Vec<u8>, bcb: Bcb) -> Result<(), AllocError>
    ensures { OnOk result (line.new.items ≡ line.old.items ++ count_words bcb) }
{
    put_words(line, "block ")?;
    put_number(line, u16::from(bcb.count()))?;
    put_words(line, numbering_words(bcb))
}

/// What a block's count does.
#[tactic(auto, unfolding(crate::specs::Heads::numbering_words))]
fn numbering_words(bcb: Bcb) -> &'static str
    ensures { result.now ≡ numbering_words bcb }
{
    match bcb.numbering() {
        Numbering::Normal => "",
        Numbering::Unchecked => " unchecked",
        Numbering::Setting => " sets the count",
    }
}

/// Appends which streams may come, and whether messages may.
#[tactic(auto, unfolding(crate::specs::Heads::fcs_words))]
fn put_fcs(line: &mut Vec<u8>, fcs: Fcs) -> Result<(), AllocError>
    ensures { OnOk result (line.new.items ≡ line.old.items ++ fcs_words fcs) }
{
    put_suspended(line, fcs)?;
    put_streams(line, fcs)?;
    put_messages(line, fcs)
}

/// Appends whether all streams are suspended.
fn put_suspended(line: &mut Vec<u8>, fcs: Fcs) -> Result<(), AllocError>
    ensures { OnOk result (line.new.items ≡ line.old.items ++ label (suspended_words fcs)) }
{
    put_words(line, suspended_words(fcs))
}

/// Appends whether messages may come.
fn put_messages(line: &mut Vec<u8>, fcs: Fcs) -> Result<(), AllocError>
    ensures { OnOk result (line.new.items ≡ line.old.items ++ label (messages_words fcs)) }
{
    put_words(line, messages_words(fcs))
}

/// Whether all streams are suspended.
#[tactic(auto, unfolding(crate::specs::Heads::suspended_words))]
fn suspended_words(fcs: Fcs) -> &'static str
    ensures { result.now ≡ suspended_words fcs }
{
    if fcs.all_suspended() {
        ", all suspended"
    } else {
        ""
    }
}

/// Whether messages may come.
#[tactic(auto, unfolding(crate::specs::Heads::messages_words))]
fn messages_words(fcs: Fcs) -> &'static str
    ensures { result.now ≡ messages_words fcs }
{
    if fcs.messages_on() {
        " messages"
    } else {
        " no messages"
    }
}

/// Appends the streams that may come.
#[tactic(auto, unfolding(crate::specs::Heads::streams_words))]
fn put_streams(line: &mut Vec<u8>, fcs: Fcs) -> Result<(), AllocError>
    ensures { OnOk result (line.new.items ≡ line.old.items ++ streams_words fcs) }
{
    put_words(line, ", on:")?;
    put_sysin(line, fcs)?;
    put_sysout(line, fcs)
}

/// Appends the SYSIN streams that may come.
#[tactic(auto, unfolding(crate::specs::Heads::sysin_words))]
fn put_sysin(line: &mut Vec<u8>, fcs: Fcs) -> Result<(), AllocError>
    ensures { OnOk result (line.new.items ≡ line.old.items ++ sysin_words fcs) }
{
    put_on(line, fcs, Stream::sysin(0))?;
    put_on(line, fcs, Stream::sysin(1))?;
    put_on(line, fcs, Stream::sysin(2))?;
    put_on(line, fcs, Stream::sysin(3))
}

/// Appends the SYSOUT streams that may come.
#[tactic(auto, unfolding(crate::specs::Heads::sysout_words))]
fn put_sysout(line: &mut Vec<u8>, fcs: Fcs) -> Result<(), AllocError>
    ensures { OnOk result (line.new.items ≡ line.old.items ++ sysout_words fcs) }
{
    put_on(line, fcs, Stream::sysout(0))?;
    put_on(line, fcs, Stream::sysout(1))?;
    put_on(line, fcs, Stream::sysout(2))?;
    put_on(line, fcs, Stream::sysout(3))
}

/// Appends a stream if it may come.
#[tactic(auto, unfolding(crate::specs::Heads::on_words))]
fn put_on(line: &mut Vec<u8>, fcs: Fcs, stream: Stream) -> Result<(), AllocError>
    ensures { OnOk result (line.new.items ≡ line.old.items ++ on_words fcs stream) }
{
    if fcs.is_on(stream) {
        put_words(line, " ")?;
        put_stream(line, stream.rcb().byte)?;
    }
    Ok(())
}
