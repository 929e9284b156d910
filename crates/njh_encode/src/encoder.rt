//! Encoding a script, line by line.

use crate::fault::Reason;
use crate::line_states::{LineState, keep, state_of};
use crate::posted::put_file;
use crate::posting::Posting;
use crate::putting::{put_digits, put_line, put_script_line};
use crate::sentences::put_statement;
use crate::statements::statement_of;
use crate::words::{LINE_NAME, is_name, line_of, next_word, parted};
use std::alloc::{AllocError, Global};
use std::marker::Model;

/// What is kept of each line of the hub while a script is encoded: the count of its next block, and
/// the size that it signed on with.
#[derive(Drop)]
pub struct Encoder {
    states: Vec<LineState>,
}

impl Model for Encoder {
    ghost use Rattle.std.specs.Prelude.{List};
    ghost use Rattle.njh_encode.specs.declared.line_states.LineState as declared;

    ghost Value = { List declared.LineState };

    ghost view = { λ e. e.states.items };
}

impl Encoder {
    ghost use Rattle.std.specs.Prelude.{◌≡◌, []};
    ghost use Rattle.njh_encode.specs.Encoded.{IsAppended, line_outcome};
    ghost use Rattle.njh_io.specs.Lines.{lines_of};
    ghost use Rattle.njh_encode.specs.Packing.{records_of};
    ghost use Rattle.njh_encode.specs.Scripts.{posted};

    /// One before the first line of a script.
    pub fn new(alloc: Global) -> Self
        ensures { result ≡ [] }
    {
        Encoder {
            states: Vec::new(alloc),
        }
    }

    /// Takes a line of words, without its end, and appends what it becomes to the script. After a
    /// refusal nothing has changed, but if memory was refused.
    pub fn take_line(&mut self, line: &str, script: &mut Vec<u8>) -> Result<(), Reason>
        // What is appended, and what is then kept of each line, are as the definitions have it; or
        // the line is refused for the reason that they have.
        ensures { IsAppended result (line_outcome self.old line.now) self.old self.new script.old.items
            script.new.items }
    {
        put_any_line(line, &mut self.states, script)
    }

    /// Appends the lines of a file on a line of the hub with this name, and keeps its count. The
    /// file has the lines of a text.
    pub(crate) fn take_file(
        &mut self,
        field: [u8; LINE_NAME],
        name: &str,
        posting: &Posting,
        text: &[u8],
        script: &mut Vec<u8>,
    ) -> Result<(), Reason>
        ensures { IsAppended result (posted self.old field name.now posting.now (records_of (lines_of text.now)))
            self.old self.new script.old.items script.new.items }
    {
        let state = state_of(field, &self.states);
        let mut lines = Vec::new(*script.allocator());
        let after = put_file(&mut lines, state, name, posting, text)?;
        keep(after, &mut self.states)?;
        script.extend_from_slice(&lines)?;
        Ok(())
    }
}

ghost use Rattle.std.specs.Prelude.{◌≡◌, List};
ghost use Rattle.hex.specs.Hex.{is_hex_digit};
ghost use Rattle.std.specs.List.{list_all};
ghost use Rattle.njh_encode.specs.Encoded.{IsAppended, are_hex, bytes_outcome, colon_outcome, is_direction};
ghost use Rattle.njh_encode.specs.Encoded.{is_indented, is_kept, is_left_out, is_of_frame};
ghost use Rattle.njh_encode.specs.Encoded.{is_order_word, is_script_word, line_outcome, named_outcome};
ghost use Rattle.njh_encode.specs.Encoded.{statement_outcome, words_outcome};
ghost use Rattle.njh_encode.specs.declared.line_states.LineState as declared;

/// Appends what a line becomes.
#[tactic(auto, unfolding(crate::specs::Encoded::line_outcome))]
fn put_any_line(line: &str, states: &mut Vec<LineState>, script: &mut Vec<u8>) -> Result<(), Reason>
    ensures { IsAppended result (line_outcome states.old.items line.now)
        states.old.items states.new.items script.old.items script.new.items }
{
    if is_left_out(line) {
        return Ok(());
    }
    let (word, rest) = next_word(line);
    if is_kept(line) {
        put_line(script, line)?;
        return Ok(());
    }
    if word == "routes" {
        put_script_line(script, "ROUTES ", rest, b"")?;
        return Ok(());
    }
    put_colon_line(line, states, script)
}

/// Whether a line is in words of `decode`.
#[tactic(auto, unfolding(crate::specs::Encoded::is_left_out))]
fn is_left_out(line: &str) -> bool
    ensures { result ≡ is_left_out line.now }
{
    is_indented(line) || is_of_frame(line)
}

fn is_indented(text: &str) -> bool
    ensures { result ≡ is_indented text.now }
{
    matches!(text.as_bytes(), [b' ', ..])
}

/// Whether a line is the words of a frame, with the line of the hub and the direction before them.
#[tactic(auto, unfolding(crate::specs::Encoded::is_of_frame))]
fn is_of_frame(line: &str) -> bool
    ensures { result ≡ is_of_frame line.now }
{
    let (name, rest) = next_word(line);
    let (direction, words) = parted(rest, ':');
    is_name(name) && is_direction(direction) && is_indented(words)
}

#[tactic(auto, unfolding(crate::specs::Encoded::is_direction))]
fn is_direction(word: &str) -> bool
    ensures { result ≡ is_direction word.now }
{
    word == "in" || word == "out"
}

#[tactic(auto, unfolding(crate::specs::Encoded::is_kept))]
fn is_kept(line: &str) -> bool
    ensures { result ≡ is_kept line.now }
{
    match line.as_bytes() {
        [] => true,
        [b'#', ..] => true,
        _ => {
            let (word, _) = next_word(line);
            is_script_word(word)
        }
    }
}

#[tactic(auto, unfolding(crate::specs::Encoded::is_script_word))]
fn is_script_word(word: &str) -> bool
    ensures { result ≡ is_script_word word.now }
{
    word == "BYTES"
        || word == "TICK"
        || word == "GARBLED"
        || word == "LOST"
        || word == "ROUTES"
        || is_order_word(word)
}

fn is_order_word(word: &str) -> bool
    ensures { result ≡ is_order_word word.now }
{
    word == "ORDER" || word == "TELL"
}

/// Appends what a line with a colon becomes.
#[tactic(auto, unfolding(crate::specs::Encoded::colon_outcome))]
fn put_colon_line(
    line: &str,
    states: &mut Vec<LineState>,
    script: &mut Vec<u8>,
) -> Result<(), Reason>
    ensures { IsAppended result (colon_outcome states.old.items line.now)
        states.old.items states.new.items script.old.items script.new.items }
{
    let (name, rest) = parted(line, ':');
    let Some(field) = line_of(name) else {
        return Err(Reason::NoLine);
    };
    let (word, text) = next_word(rest);
    if !word.is_empty() {
        return Err(Reason::NoSuchWords);
    }
    put_words_on(field, name, text, states, script)
}

/// Appends what words on a line become.
#[tactic(auto, unfolding(crate::specs::Encoded::words_outcome))]
fn put_words_on(
    field: [u8; LINE_NAME],
    name: &str,
    text: &str,
    states: &mut Vec<LineState>,
    script: &mut Vec<u8>,
) -> Result<(), Reason>
    ensures { IsAppended result (words_outcome states.old.items field name.now text.now)
        states.old.items states.new.items script.old.items script.new.items }
{
    let (word, rest) = next_word(text);
    if word == "bytes" {
        put_bytes_on(name, rest, script)
    } else {
        put_statement_on(field, name, text, states, script)
    }
}

/// Appends bytes that are said in hex.
#[tactic(auto, unfolding(crate::specs::Encoded::bytes_outcome))]
fn put_bytes_on(name: &str, digits: &str, script: &mut Vec<u8>) -> Result<(), Reason>
    ensures { (states : List declared.LineState) → IsAppended result (bytes_outcome states name.now digits.now)
        states states script.old.items script.new.items }
{
    if !are_hex(digits.as_bytes()) {
        return Err(Reason::NoSuchWords);
    }
    put_digits(script, name, digits.as_bytes())?;
    Ok(())
}

#[tactic(auto, unfolding(crate::specs::Encoded::are_hex))]
fn are_hex(digits: &[u8]) -> bool
    ensures { result ≡ are_hex digits.now }
{
    !digits.is_empty() && digits.len() % 2 == 0 && each_is_hex(digits)
}

fn each_is_hex(digits: &[u8]) -> bool
    ensures { result ≡ list_all is_hex_digit digits.now }
{
    digits.iter().all(|byte| is_hex_digit(*byte))
}

fn is_hex_digit(byte: u8) -> bool
    ensures { result ≡ is_hex_digit byte }
{
    matches!(byte, b'0'..=b'9' | b'A'..=b'F' | b'a'..=b'f')
}

/// Appends what a statement becomes.
#[tactic(auto, unfolding(crate::specs::Encoded::statement_outcome))]
fn put_statement_on(
    field: [u8; LINE_NAME],
    name: &str,
    text: &str,
    states: &mut Vec<LineState>,
    script: &mut Vec<u8>,
) -> Result<(), Reason>
    ensures { IsAppended result (statement_outcome states.old.items field name.now text.now)
        states.old.items states.new.items script.old.items script.new.items }
{
    match statement_of(text) {
        Ok(statement) => {
            let state = state_of(field, states);
            let after = put_statement(script, state, name, &statement)?;
            keep(after, states)?;
            Ok(())
        }
        Err(reason) => Err(reason),
    }
}
