//! The event of one line of a script.

ghost use Rattle.std.specs.Prelude.{◌≡◌, ◌∷◌, Some, IfOk, IfSome};
ghost use Rattle.njh_table.specs.TableFile.{line_named};
ghost use Rattle.njh_hub.specs.OwnEvents.{line_of_event};
ghost use Rattle.njh_replay.specs.Script.{bytes_on, script_event, event_by_kind, event_of_words, event_on_line};
ghost use Rattle.njh_replay.specs.Script.{piece_of, signal_of};
ghost use Rattle.njh_replay.specs.Script.{words_of};
ghost use Rattle.njh_replay.specs.ScriptOrders.{order_kind};
ghost use Rattle.njh_replay.specs.ScriptRoutes.{IsNamedIn};
ghost use Rattle.njh_replay.specs.code.LineStarts.{Begins, IsStart};

use crate::line_starts::Start;
use crate::script_orders::{event_of_order, order_kind};
use crate::script_routes::event_of_routes;
use hex::FromHexError;
use njh_hub::{Event, Piece, SHORT_PIECE};
use njh_table::{LineId, Tables};
use std::alloc::{AllocError, Global};

/// The event of a line, if it has one; it names what the tables have. Out of memory is the only
/// refusal.
#[tactic(auto, unfolding(crate::specs::Script::script_event))]
pub fn event_of(
    alloc: Global,
    tables: &Tables,
    line: &[u8],
    start: Option<Start<'_>>,
) -> Result<Option<Event>, AllocError>
    requires start { IfSome start (λ start. IsStart tables.now start.front.now start.line) }
    requires begins { IfSome start (λ start. Begins start.front.now line.now) }
    ensures event { IfOk result (λ event. event ≡ script_event tables.now line.now) }
    ensures named { IfOk result (λ event. IfSome event (IsNamedIn tables.now)) }
{
    let Some(start) = start else {
        return any_event(alloc, tables, line);
    };
    match plain_event(alloc, tables, line, start)? {
        Some(event) => Ok(Some(event)),
        None => any_event(alloc, tables, line),
    }
}

/// The event of a line of `BYTES` that is as it should be and begins so.
/// If there is none the line is looked at again, whole.
fn plain_event(
    alloc: Global,
    tables: &Tables,
    line: &[u8],
    start: Start<'_>,
) -> Result<Option<Event>, AllocError>
    requires start { IsStart tables.now start.front.now start.line }
    requires begins { Begins start.front.now line.now }
    ensures event { IfOk result (λ event. IfSome event (λ e. script_event tables.now line.now ≡ Some e)) }
    ensures named { IfOk result (λ event. IfSome event (IsNamedIn tables.now)) }
{
    let (_, digits) = line.split_at(start.front.len());
    match piece_of(alloc, digits)? {
        Some(piece) => Ok(Some(Event::Bytes(start.line, piece))),
        None => Ok(None),
    }
}

/// The event of a line of any form.
#[tactic(auto, unfolding(crate::specs::Script::script_event))]
fn any_event(alloc: Global, tables: &Tables, line: &[u8]) -> Result<Option<Event>, AllocError>
    ensures event { IfOk result (λ event. event ≡ script_event tables.now line.now) }
    ensures named { IfOk result (λ event. IfSome event (IsNamedIn tables.now)) }
{
    match str::from_utf8(line) {
        Ok(line) => event_of_text(alloc, tables, line),
        Err(_) => Ok(None),
    }
}

/// The event of a line that is text.
fn event_of_text(alloc: Global, tables: &Tables, line: &str) -> Result<Option<Event>, AllocError>
    ensures event { IfOk result (λ event. event ≡ event_of_words tables.now (words_of line.now)) }
    ensures named { IfOk result (λ event. IfSome event (IsNamedIn tables.now)) }
{
    let Some((word, rest)) = line.split_once(' ') else {
        return Ok(None);
    };
    if word == "ROUTES" {
        return event_of_routes(alloc, tables, rest);
    }
    event_of_other(alloc, tables, word, rest)
}

/// The event of a word that gives no routes, and of what comes after it.
fn event_of_other(
    alloc: Global,
    tables: &Tables,
    word: &str,
    rest: &str,
) -> Result<Option<Event>, AllocError>
    ensures event { IfOk result (λ event. event
        ≡ event_by_kind tables.now (order_kind word.now) word.now (words_of rest.now)) }
    ensures named { IfOk result (λ event. IfSome event (IsNamedIn tables.now)) }
{
    match order_kind(word) {
        Some(kind) => event_of_order(alloc, tables, kind, rest),
        None => event_on_line(alloc, tables, word, rest),
    }
}

/// The event of a word and what comes after it: the name of a line, and digits if it is
/// `BYTES`.
#[tactic(auto, using(crate::proofs::LineForms::named_on))]
fn event_on_line(
    alloc: Global,
    tables: &Tables,
    word: &str,
    rest: &str,
) -> Result<Option<Event>, AllocError>
    ensures event { IfOk result (λ event. event
        ≡ event_on_line (line_named tables.now) (word.now ∷ words_of rest.now)) }
    ensures named { IfOk result (λ event. IfSome event (IsNamedIn tables.now)) }
{
    match rest.split_once(' ') {
        None => Ok(tables.line_owner(rest).and_then(|id| signal_of(word, id))),
        Some((name, digits)) => match tables.line_owner(name) {
            None => Ok(None),
            Some(id) => bytes_on(alloc, word, digits, id),
        },
    }
}

/// The event of a word alone on a line of the hub.
fn signal_of(word: &str, id: LineId) -> Option<Event>
    ensures event { result ≡ signal_of word.now id }
    ensures line { IfSome result (λ e. line_of_event e ≡ Some id) }
{
    match word {
        "TICK" => Some(Event::Tick(id)),
        "GARBLED" => Some(Event::Garbled(id)),
        "LOST" => Some(Event::Lost(id)),
        _ => None,
    }
}

/// The event of `BYTES` with hex digits on a line of the hub.
fn bytes_on(
    alloc: Global,
    word: &str,
    digits: &str,
    id: LineId,
) -> Result<Option<Event>, AllocError>
    ensures event { IfOk result (λ event. event ≡ bytes_on word.now digits.now id) }
    ensures line { IfOk result (λ event. IfSome event (λ e. line_of_event e ≡ Some id)) }
{
    if word != "BYTES" {
        return Ok(None);
    }
    match piece_of(alloc, digits.as_bytes())? {
        Some(piece) => Ok(Some(Event::Bytes(id, piece))),
        None => Ok(None),
    }
}

/// The bytes that hex digits spell, if they spell any. Few take no memory.
#[tactic(auto, unfolding(hex::specs::Hex::decode_sized))]
fn piece_of(alloc: Global, digits: &[u8]) -> Result<Option<Piece>, AllocError>
    ensures { IfOk result (λ piece. piece ≡ piece_of digits.now) }
{
    let len = digits.len() / 2;
    if len > SHORT_PIECE {
        return long_piece_of(alloc, digits);
    }
    let mut room = [0; SHORT_PIECE];
    match hex::decode_to_slice(digits, &mut room[..len]) {
        Ok(()) if len == 0 => Ok(None),
        Ok(()) => Ok(Some(Piece::of_short(alloc, room, len))),
        Err(_) => Ok(None),
    }
}

/// The same of any number of digits.
fn long_piece_of(alloc: Global, digits: &[u8]) -> Result<Option<Piece>, AllocError>
    ensures { IfOk result (λ piece. piece ≡ piece_of digits.now) }
{
    match hex::decode(alloc, digits) {
        Ok(bytes) if bytes.is_empty() => Ok(None),
        Ok(bytes) => Ok(Some(Piece::of_vec(bytes))),
        Err(FromHexError::OutOfMemory) => Err(AllocError),
        Err(_) => Ok(None),
    }
}
