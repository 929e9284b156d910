//! Reading: from a spelling to the record that it spells.

ghost use Rattle.std.specs.Prelude.{◌≡◌, [], option_map};
ghost use Rattle.njh_record.specs.code.Parts.{LeadsToPart, kept_by};
ghost use Rattle.njh_record.specs.Reading.{Unspells};
ghost use Rattle.njh_record.specs.Unspelled.{record_at_front};
ghost use Rattle.njh_record.specs.Skipped.{behind};

use crate::item::Item;
use crate::scb::{ABORT, BLANKS, END_OF_RECORD, LITERAL, REPEAT};
use crate::{End, Record, RecordFault};

/// What a spelling says first.
#[derive(Clone, Copy)]
enum SpellingPart<'a> {
    /// An item.
    Item(Item<'a>),
    /// Its end.
    End(End),
}

/// The first part of a spelling, and the bytes after it.
fn next_part(bytes: &[u8]) -> Result<(SpellingPart<'_>, &[u8]), RecordFault>
    ensures { LeadsToPart bytes.now result }
{
    let [scb, rest @ ..] = bytes else {
        return Err(RecordFault::Truncated);
    };
    match *scb {
        END_OF_RECORD => Ok((SpellingPart::End(End::Record), rest)),
        ABORT => Ok((SpellingPart::End(End::Abort), rest)),
        ..BLANKS => Err(RecordFault::BadScb),
        BLANKS..REPEAT => Ok((
            SpellingPart::Item(Item::Blanks(usize::from(*scb - BLANKS))),
            rest,
        )),
        REPEAT..LITERAL => {
            let [byte, rest @ ..] = rest else {
                return Err(RecordFault::Truncated);
            };
            let count = usize::from(*scb - REPEAT);
            Ok((
                SpellingPart::Item(Item::Repeat { byte: *byte, count }),
                rest,
            ))
        }
        LITERAL.. => {
            let count = usize::from(*scb - LITERAL);
            let Some((literal, rest)) = rest.split_at_checked(count) else {
                return Err(RecordFault::Truncated);
            };
            Ok((SpellingPart::Item(Item::Literal(literal)), rest))
        }
    }
}

/// Reads parts up to an end. Only a record that is whole leaves its contents.
fn read_parts(bytes: &[u8], contents: &mut Record) -> Result<(usize, End), RecordFault>
    requires { contents.old.items ≡ [] }
    ensures { Unspells bytes.now result (kept_by result contents.new.items) }
{
    let mut rest = bytes;
    let mut fits = true;
    loop {
        let (part, after) = next_part(rest)?;
        match part {
            SpellingPart::Item(item) => fits = fits && item.add_to(contents),
            SpellingPart::End(end) => {
                let used = bytes.len() - after.len();
                match end {
                    End::Abort => return Ok((used, End::Abort)),
                    End::Record => {
                        if fits {
                            return Ok((used, End::Record));
                        }
                        return Err(RecordFault::TooLong { used });
                    }
                }
            }
        }
        rest = after;
    }
}

/// Reads the record that is spelled at the front of some bytes (IBM SC23-0070, "Compression"): how
/// many bytes its spelling takes, and how it ends.
///
/// `BadScb` and `Truncated` come at the first place from the left that has them. `TooLong` comes
/// if the spelling is good and ends a record, of more than 256 bytes; a spelling that is given
/// up is `Abort` whatever its length. After a fault or an abort `contents` is empty. Nothing else
/// has this relation to the bytes: the law `one_answer`.
pub fn unspell(bytes: &[u8], contents: &mut Record) -> Result<(usize, End), RecordFault>
    ensures { Unspells bytes.now result contents.new.items }
{
    contents.clear();
    let answer = read_parts(bytes, contents);
    if !matches!(answer, Ok((_, End::Record))) {
        contents.clear();
    }
    answer
}

/// What follows the spelling at the front of some bytes, if one is there. It is not put
/// together, and may be of any length.
pub fn skip(bytes: &[u8]) -> Option<&[u8]>
    ensures { option_map (λ rest. rest.now) result ≡ behind (record_at_front bytes.now) }
{
    let mut rest = bytes;
    loop {
        let Ok((part, after)) = next_part(rest) else {
            return None;
        };
        match part {
            SpellingPart::Item(_) => rest = after,
            SpellingPart::End(_) => return Some(after),
        }
    }
}
