//! Reading: the record at the front of some bytes.

ghost use Rattle.std.specs.Prelude.{◌≡◌, ◌↔◌, ℕ, [], Err, IsOk, IsTrue, MatchResult, None, Ok, option_map};
ghost use Rattle.njh_block.specs.Blocks.{form_of, after_control, record_of_spelling, record_of_form, first_record};
ghost use Rattle.njh_block.specs.Blocks.{items_in};
ghost use Rattle.njh_record.specs.Unspelled.{record_at_front};
ghost use Rattle.njh_block.specs.code.Skipped.{rest_shown, rest_behind};
ghost use Rattle.njh_block.specs.ItemViews.{first_shown, general_at, contents_after};

use crate::fault::BlockFault;
use crate::item::Item;
use crate::rcb::{END, Form, GENERAL, OWN_ZERO, Rcb};
use njh_record::{End, Record, RecordFault, skip, unspell};

/// A record, and the bytes after it.
type First<'a> = (Item<'a>, &'a [u8]);

/// What follows a two-byte record: a 00 that another byte follows is its own.
fn skip_own_zero(rest: &[u8]) -> &[u8]
    ensures { result.now ≡ after_control rest.now }
{
    match rest {
        [OWN_ZERO, after @ ..] if !after.is_empty() => after,
        _ => rest,
    }
}

/// A record whose spelling begins the bytes.
fn read_spelled<'a>(
    rcb: Rcb,
    srcb: u8,
    bytes: &'a [u8],
    contents: &mut Record,
) -> Result<Option<First<'a>>, BlockFault>
    ensures first { first_shown result contents.new.items
        ≡ record_of_spelling rcb.byte srcb (record_at_front bytes.now) }
    ensures contents { contents.new.items
        ≡ contents_after (record_of_spelling rcb.byte srcb (record_at_front bytes.now)) }
{
    match unspell(bytes, contents) {
        Ok((used, End::Record)) => Ok(Some((Item::Data { rcb, srcb }, &bytes[used..]))),
        Ok((used, End::Abort)) => Ok(Some((Item::Abort { rcb, srcb }, &bytes[used..]))),
        Err(RecordFault::TooLong { used }) => Ok(Some((Item::Long { rcb, srcb }, &bytes[used..]))),
        Err(RecordFault::BadScb) => Err(BlockFault::BadRecord),
        Err(RecordFault::Truncated) => Err(BlockFault::BadRecord),
    }
}

/// A record by its RCB, the byte after it, and what follows the two.
// A function of its own, so that the end of a block is found without a call.
#[inline(never)]
fn read_formed<'a>(
    rcb: Rcb,
    srcb: u8,
    rest: &'a [u8],
    contents: &mut Record,
) -> Result<Option<First<'a>>, BlockFault>
    requires { contents.old.items ≡ [] }
    ensures first { first_shown result contents.new.items ≡ record_of_form (form_of rcb.byte) rcb.byte srcb rest.now }
    ensures contents { contents.new.items ≡ contents_after (record_of_form (form_of rcb.byte) rcb.byte srcb rest.now) }
{
    let (item, rest) = match rcb.form() {
        Form::End => return Ok(None),
        Form::Bad => return Err(BlockFault::BadRcb),
        Form::General => (Item::General { srcb, rest }, &[][..]),
        Form::Control(control) => (Item::Control { rcb: control, srcb }, skip_own_zero(rest)),
        Form::Spelled => return read_spelled(rcb, srcb, rest, contents),
    };
    Ok(Some((item, rest)))
}

/// The record at the front of the bytes after a function control sequence; none if the block
/// ends. A record other than `Data` leaves `contents` empty.
#[inline(always)]
pub(crate) fn read_first<'a>(
    bytes: &'a [u8],
    contents: &mut Record,
) -> Result<Option<First<'a>>, BlockFault>
    ensures first { first_shown result contents.new.items ≡ first_record bytes.now }
    ensures contents { contents.new.items ≡ contents_after (first_record bytes.now) }
{
    contents.clear();
    match bytes {
        [] => Ok(None),
        [rcb] => match (Rcb { byte: *rcb }).form() {
            Form::End => Ok(None),
            Form::Bad => Err(BlockFault::BadRcb),
            _ => Err(BlockFault::BadRecord),
        },
        [rcb, srcb, rest @ ..] => read_formed(Rcb { byte: *rcb }, *srcb, rest, contents),
    }
}

/// Whether no record is at the front of the bytes after a function control sequence: they end, or
/// the block does.
pub(crate) fn ends(bytes: &[u8]) -> bool
    ensures { IsTrue result ↔ (first_record bytes.now ≡ Ok None) }
{
    match bytes {
        [] => true,
        [first, ..] => *first == END,
    }
}

/// Whether the bytes after a function control sequence are whole records up to their end, or the
/// first fault from the left.
pub(crate) fn check_records(bytes: &[u8]) -> Result<(), BlockFault>
    ensures { MatchResult result (λ _. IsOk (items_in bytes.now)) (λ e. items_in bytes.now ≡ Err e) }
{
    match bytes {
        // A block without records is found at once.
        [END] => Ok(()),
        _ => check_each(bytes),
    }
}

/// The same, record by record.
fn check_each(bytes: &[u8]) -> Result<(), BlockFault>
    ensures { MatchResult result (λ _. IsOk (items_in bytes.now)) (λ e. items_in bytes.now ≡ Err e) }
{
    let mut rest = bytes;
    while let Some(after) = skip_first(rest)? {
        rest = after;
    }
    Ok(())
}

/// What follows the record at the front of the bytes after a function control sequence; none if the
/// block ends.
fn skip_first(bytes: &[u8]) -> Result<Option<&[u8]>, BlockFault>
    ensures { rest_shown result ≡ rest_behind (first_record bytes.now) }
{
    match bytes {
        [] => Ok(None),
        [rcb] => match (Rcb { byte: *rcb }).form() {
            Form::End => Ok(None),
            Form::Bad => Err(BlockFault::BadRcb),
            _ => Err(BlockFault::BadRecord),
        },
        [rcb, _, rest @ ..] => skip_formed(Rcb { byte: *rcb }, rest),
    }
}

/// The same, of a record by its RCB and what follows the byte after it.
fn skip_formed(rcb: Rcb, rest: &[u8]) -> Result<Option<&[u8]>, BlockFault>
    ensures { (srcb : ℕ) → rest_shown result ≡ rest_behind (record_of_form (form_of rcb.byte) rcb.byte srcb rest.now) }
{
    match rcb.form() {
        Form::End => Ok(None),
        Form::Bad => Err(BlockFault::BadRcb),
        Form::General => Ok(Some(&[][..])),
        Form::Control(_) => Ok(Some(skip_own_zero(rest))),
        Form::Spelled => skip_spelled(rest),
    }
}

/// What follows the spelling at the front of the bytes.
fn skip_spelled(bytes: &[u8]) -> Result<Option<&[u8]>, BlockFault>
    ensures { (rcb srcb : ℕ)
        → rest_shown result ≡ rest_behind (record_of_spelling rcb srcb (record_at_front bytes.now)) }
{
    match skip(bytes) {
        Some(after) => Ok(Some(after)),
        None => Err(BlockFault::BadRecord),
    }
}

/// A general record at the front of the bytes: its SRCB, and the rest of the text.
pub(crate) fn read_general(bytes: &[u8]) -> Option<(u8, &[u8])>
    ensures { option_map (λ x. (x.0, x.1.now)) result ≡ general_at bytes.now }
{
    match bytes {
        [GENERAL, srcb, rest @ ..] => Some((*srcb, rest)),
        _ => None,
    }
}
