//! Where in a text its fault is, and what isn't read of it.

ghost use Rattle.std.specs.Prelude.{◌≡◌, ◌≤◌, ◌+◌, length, option_map};
ghost use Rattle.njh_block.specs.Blocks.{after_control, first_record};
ghost use Rattle.njh_decode.specs.Frames as frames;

use njh_block::{BlockFault, Form, Rcb};
use njh_record::skip;

/// The place of the fault of a text.
#[tactic(auto, unfolding(crate::specs::Frames::fault_place))]
pub(crate) fn fault_place(text: &[u8], fault: BlockFault) -> usize
    ensures place { result ≡ frames.fault_place text.now fault }
    ensures within { result ≤ length text.now + 1 }
{
    match fault {
        BlockFault::TooShort => text.len(),
        BlockFault::BadBcb => 0,
        BlockFault::BadFcs => 1,
        BlockFault::BadRcb => records_end(text),
        BlockFault::BadRecord => records_end(text),
    }
}

/// How many bytes come after the 00 that ends a block.
#[tactic(auto, unfolding(crate::specs::Frames::unread_count))]
pub(crate) fn unread_count(text: &[u8]) -> usize
    ensures count { result ≡ frames.unread_count text.now }
    ensures few { result ≤ length text.now }
{
    text.len()
        .saturating_sub(records_end(text))
        .saturating_sub(1)
}

/// The place after the last record that is whole.
#[tactic(auto, unfolding(crate::specs::Frames::records_end))]
fn records_end(text: &[u8]) -> usize
    ensures place { result ≡ frames.records_end text.now }
    ensures within { result ≤ length text.now }
{
    let (_, rest) = text.split_at(text.len().min(3));
    text.len()
        .saturating_sub(left_within(text.len(), rest).len())
}

/// What is left after the records that come one after the other, of at most so many.
fn left_within(count: usize, bytes: &[u8]) -> &[u8]
    ensures { result.now ≡ frames.left_within count bytes.now }
{
    let mut rest = bytes;
    for _ in 0..count {
        match behind_record(rest) {
            Some(after) => rest = after,
            None => return rest,
        }
    }
    rest
}

/// What follows the record at the front of some bytes, if one is there.
fn behind_record(bytes: &[u8]) -> Option<&[u8]>
    ensures { option_map (λ rest. rest.now) result ≡ frames.behind_record (first_record bytes.now) }
{
    match bytes {
        [] => None,
        [_] => None,
        [rcb, _, rest @ ..] => match (Rcb { byte: *rcb }).form() {
            Form::End => None,
            Form::Bad => None,
            Form::General => Some(&[][..]),
            Form::Control(_) => Some(behind_own_zero(rest)),
            Form::Spelled => skip(rest),
        },
    }
}

/// What follows a two-byte record: a 00 that another byte follows is its own.
fn behind_own_zero(rest: &[u8]) -> &[u8]
    ensures { result.now ≡ after_control rest.now }
{
    match rest {
        [0, after @ ..] if !after.is_empty() => after,
        _ => rest,
    }
}
