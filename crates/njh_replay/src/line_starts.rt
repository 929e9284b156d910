//! What lines of `BYTES` begin with.

ghost use Rattle.std.specs.Prelude.{◌≡◌, ◌∷◌, IfSome};
ghost use Rattle.njh_replay.specs.code.LineStarts.{Begins, IsStart};

use memchr::memchr;
use njh_table::{LineId, Tables};

/// What the lines of `BYTES` for a line of the hub begin with: the word, a blank, the name and a
/// blank.
#[derive(Clone, Copy)]
pub struct Start<'a> {
    /// Those bytes.
    pub front: &'a [u8],
    /// The line of the hub.
    pub line: LineId,
}

/// What a line of a script begins with. It is looked up only if that isn't what the line before
/// began with.
pub fn start_of<'a>(tables: &Tables, line: &'a [u8], before: Option<Start<'a>>) -> Option<Start<'a>>
    requires { IfSome before (λ start. IsStart tables.now start.front.now start.line) }
    ensures start { IfSome result (λ start. IsStart tables.now start.front.now start.line) }
    ensures begins { IfSome result (λ start. Begins start.front.now line.now) }
{
    match before {
        Some(start) if line.starts_with(start.front) => before,
        _ => found_start(tables, line),
    }
}

/// What a line begins with, looked up.
fn found_start<'a>(tables: &Tables, line: &'a [u8]) -> Option<Start<'a>>
    ensures start { IfSome result (λ start. IsStart tables.now start.front.now start.line) }
    ensures begins { IfSome result (λ start. Begins start.front.now line.now) }
{
    let rest = behind_word(line)?;
    let len = memchr(b' ', rest)?;
    let (name, _) = rest.split_at(len);
    let Ok(name) = str::from_utf8(name) else {
        return None;
    };
    let owner = tables.line_owner(name)?;
    // The word and the two blanks are 7 bytes.
    let (front, _) = line.split_at(len + 7);
    Some(Start { front, line: owner })
}

/// What comes after the word `BYTES` and a blank.
fn behind_word(line: &[u8]) -> Option<&[u8]>
    ensures { IfSome result (λ rest. line.now ≡ 66 ∷ 89 ∷ 84 ∷ 69 ∷ 83 ∷ 32 ∷ rest.now) }
{
    match line {
        [b'B', b'Y', b'T', b'E', b'S', b' ', rest @ ..] => Some(rest),
        _ => None,
    }
}
