//! The text of one line.

ghost use Rattle.std.specs.Prelude.{◌≡◌, ◌+◌, ◌<◌, ◌≤◌, [], ◌++◌, drop, length, IsTrue};
ghost use Rattle.njh_log.specs.Logging.{IsLine};
ghost use Rattle.njh_log.specs.Objects.{in_string};

use crate::heading::{Heading, Place};
use crate::log::LogStyle;
use crate::log_time::LogTime;
use crate::severity::Severity;
use arrayvec::ArrayString;
use std::fmt;
use std::fmt::Write as _;
use std::marker::Model;

/// How many bytes a line of the log has at most, with its end.
const LONGEST: usize = 512;

/// How many bytes a string of an object leaves free: for its quotation mark, the object's end and
/// the line's.
const RESERVE: usize = 3;

/// Room for the text of one line. What is too long is cut, and a control character is shown as `?`,
/// so that one line stays one.
#[derive(Drop)]
pub struct LineText {
    text: ArrayString<LONGEST>,
    /// Whether what is added is part of a string of an object.
    is_string: bool,
}

impl Model for LineText {
    ghost use Rattle.std.specs.Prelude.{List, ℕ};

    ghost Value = { List ℕ };

    ghost view = { λ line. line.text.bytes };
}

impl LineText {
    /// No text.
    pub fn new() -> LineText
        ensures { result ≡ [] }
    {
        LineText {
            text: ArrayString::new(),
            is_string: false,
        }
    }

    /// No text any more.
    pub(crate) fn clear(&mut self)
        ensures { self.new ≡ [] }
    {
        self.text.clear();
    }

    /// Its bytes but the first so many.
    pub(crate) fn after(&self, out: usize) -> &[u8]
        ensures bytes { result.now ≡ drop out self.now }
        ensures fits { length self.now ≤ LONGEST }
    {
        let bytes = self.text.as_str().as_bytes();
        &bytes[out.min(bytes.len())..]
    }

    /// Ends the line.
    #[tactic(auto, using(crate::proofs::LineLaws::one_byte))]
    pub(crate) fn end(&mut self)
        ensures { IsLine self.new }
    {
        self.make_room();
        self.text.push('\n');
    }

    /// Adds a line that is written so, but for its end.
    pub(crate) fn add<D: fmt::Display>(&mut self, style: LogStyle, heading: &Heading, text: &D) {
        if style.has_priority {
            self.add_priority(heading.severity);
        }
        if style.is_json {
            self.add_object(heading, text);
        } else {
            self.add_text(heading, text);
        }
    }

    /// Adds the priority of a line so grave (sd-daemon(3)).
    fn add_priority(&mut self, severity: Severity) {
        let number = severity.number();
        let _whole = write!(*self, "<{number}>").is_ok();
    }

    /// Adds a line as a text: its time, where it happened, and what.
    fn add_text<D: fmt::Display>(&mut self, heading: &Heading, text: &D) {
        let time = LogTime(heading.milliseconds);
        let place = &heading.place;
        let _whole = write!(*self, "{time} {place}{text}").is_ok();
    }

    /// Adds a line as an object (RFC 8259): its time, how grave it is, its customer and line if it
    /// has them, and what happened.
    fn add_object<D: fmt::Display>(&mut self, heading: &Heading, text: &D) {
        let time = LogTime(heading.milliseconds);
        let severity = heading.severity;
        let _begun = write!(*self, "{{\"time\":\"{time}\",\"severity\":\"{severity}\"").is_ok();
        self.add_place(&heading.place);
        self.add_member("text", text);
        let _ended = write!(*self, "}}").is_ok();
    }

    /// Adds the members of an object that say where it happened.
    fn add_place(&mut self, place: &Place) {
        match place {
            Place::Hub => {}
            Place::Customer(customer) => self.add_member("customer", customer),
            Place::Line(customer, line) => {
                self.add_member("customer", customer);
                self.add_member("line", line);
            }
        }
    }

    /// Adds a further member of an object, a string.
    fn add_member<D: fmt::Display>(&mut self, key: &str, value: &D) {
        let _begun = write!(*self, ",\"{key}\":\"").is_ok();
        self.is_string = true;
        let _whole = write!(*self, "{value}").is_ok();
        self.is_string = false;
        let _ended = write!(*self, "\"").is_ok();
    }

    /// Adds a character of a string of an object, if there is room for it. Says whether it did.
    #[tactic(auto, using(crate::proofs::LineLaws::backslash))]
    fn push_in_string(&mut self, character: char) -> bool
        ensures added { IsTrue result → self.new ≡ self.old ++ in_string character }
        ensures room { IsTrue result → length self.new + RESERVE ≤ LONGEST }
        ensures full { ¬ IsTrue result → self.new ≡ self.old }
    {
        if self.text.remaining_capacity() < character.len_utf8() + (1 + RESERVE) {
            return false;
        }
        if character == '"' || character == '\\' {
            self.text.push('\\');
        }
        self.text.push(character);
        true
    }

    /// Adds a character, if there is room for it. Says whether it did.
    fn push_shown(&mut self, character: char) -> bool {
        let shown = if character.is_control() {
            '?'
        } else {
            character
        };
        if self.is_string {
            self.push_in_string(shown)
        } else {
            self.text.try_push(shown).is_ok()
        }
    }

    /// If it is full, drops its last character.
    fn make_room(&mut self)
        ensures { length self.new < LONGEST }
    {
        if !self.text.is_full() {
            return;
        }
        self.text.pop();
    }
}

impl fmt::Write for LineText {
    fn write_str(&mut self, text: &str) -> fmt::Result {
        for character in text.chars() {
            if !self.push_shown(character) {
                return Ok(());
            }
        }
        Ok(())
    }
}

impl fmt::Display for LineText {
    fn fmt<W: fmt::Write>(&self, f: &mut fmt::Formatter<W>) -> fmt::Result {
        f.write_str(self.text.as_str())
    }
}
