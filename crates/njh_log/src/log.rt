//! The log: a line of text for each thing that an operator wants to know.

ghost use Rattle.std.specs.Prelude.{◌≡◌, ◌≤◌, ℕ, List, [], None, IsSome, length, take};
ghost use Rattle.std.specs.Option.{option_copied};
ghost use Rattle.std.specs.Bool.{OnTrue, OnFalse};
ghost use Rattle.std.specs.Io.KnownBytes.{Appends};
ghost use Rattle.njh_log.specs.Logging.{log_onto, one_dropped, IsLine, IsLogged, Begins, GoesOut};
ghost use Rattle.njh_log.specs.code.Logs.{HasTold, Sends, Tells};

use crate::heading::Heading;
use crate::line_text::LineText;
use std::fmt;
use std::io::Write;
use std::marker::Model;

/// How the lines of a log are written.
#[derive(Clone, Copy, Debug, Drop, PartialEq, Eq)]
pub struct LogStyle {
    /// Each as an object (RFC 8259); else as a text.
    pub is_json: bool,
    /// Each behind its priority, as `<4>` (sd-daemon(3)).
    pub has_priority: bool,
}

impl LogStyle {
    /// Texts without a priority.
    pub const PLAIN: LogStyle = LogStyle {
        is_json: false,
        has_priority: false,
    };
}

/// Writes lines, each with its time. It never waits for its writer and never fails.
///
/// A line of which the writer takes nothing is dropped and counted. If it takes a part, the rest
/// goes out before the next line. The first line that it takes after that says how many were
/// dropped.
#[derive(Drop)]
pub struct Log<L: Write + Drop> {
    writer: Option<L>,
    style: LogStyle,
    line: LineText,
    /// How many bytes of `line` went out.
    out: usize,
    dropped: u64,
}

impl<L: Write + Drop> Model for Log<L> {
    ghost use Rattle.std.specs.Prelude.{drop};
    ghost use Rattle.njh_log.specs.Logging.{Logging};

    ghost Value = { Logging L };

    ghost view = { λ log. record { writer = log.writer; left = drop log.out log.line; dropped = log.dropped } };
}

impl<L: Write + Drop> Log<L> {
    /// A log onto a writer, or none, of lines that are written so.
    pub fn new(writer: Option<L>, style: LogStyle) -> Log<L>
        ensures { result ≡ log_onto writer }
    {
        Log {
            writer,
            style,
            line: LineText::new(),
            out: 0,
            dropped: 0,
        }
    }

    /// Where lines go, if anywhere.
    pub fn writer(&self) -> Option<&L>
        ensures { option_copied result ≡ self.now.writer }
    {
        self.writer.as_ref()
    }

    /// How many lines were dropped, of which no line told yet.
    pub fn dropped(&self) -> u64
        ensures { result ≡ self.now.dropped }
    {
        self.dropped
    }

    /// Writes a line.
    pub fn write<D: fmt::Display>(&mut self, heading: Heading, text: &D)
        ensures none { self.old.writer ≡ None → self.new ≡ self.old }
        ensures logged { IsSome self.old.writer → IsLogged L.contents self.old self.new }
    {
        if self.writer.is_none() {
            return;
        }
        if !self.hand_on(heading, text) {
            self.count();
        }
    }

    /// Counts a line that is dropped.
    fn count(&mut self)
        ensures { self.new ≡ one_dropped self.old }
    {
        self.dropped = self.dropped.saturating_add(1);
    }

    /// Hands the writer a line. Says whether it goes out, in whole or in part.
    fn hand_on<D: fmt::Display>(&mut self, heading: Heading, text: &D) -> bool
        requires { IsSome self.old.writer }
        ensures out { OnTrue result (IsLogged L.contents self.old self.new) }
        ensures dropped { OnFalse result (IsLogged L.contents self.old (one_dropped self.new)) }
    {
        self.make_way(heading.milliseconds) && self.begin(heading, text)
    }

    /// Makes way for a line: hands the writer what is left of one, and tells how many were dropped,
    /// if any. Says whether nothing is left then.
    fn make_way(&mut self, milliseconds: i64) -> bool
        requires { IsSome self.old.writer }
        ensures free { OnTrue result ((telling : List ℕ) × HasTold L.contents self.old self.new telling) }
        ensures dropped { OnFalse result (IsLogged L.contents self.old (one_dropped self.new)) }
    {
        if !self.go_on() {
            return false;
        }
        self.tell_dropped(milliseconds) && self.go_on()
    }

    /// Tells how many lines were dropped, if any. Says whether a further line may follow it.
    fn tell_dropped(&mut self, milliseconds: i64) -> bool
        requires writer { IsSome self.old.writer }
        requires left { self.old.left ≡ [] }
        ensures told { OnTrue result ((telling : List ℕ) × Tells L.contents self.old self.new telling) }
        ensures gone { OnFalse result (GoesOut L.contents self.old self.new [] × (self.new.left ≡ [])) }
        ensures dropped { OnFalse result (self.new.dropped ≡ self.old.dropped) }
    {
        if self.dropped == 0 {
            return true;
        }
        let dropped = Dropped(self.dropped);
        if self.begin(Heading::warning(milliseconds), &dropped) {
            self.dropped = 0;
            return true;
        }
        false
    }

    /// Hands the writer a new line. If it takes nothing of it, the line is gone.
    fn begin<D: fmt::Display>(&mut self, heading: Heading, text: &D) -> bool
        requires writer { IsSome self.old.writer }
        requires left { self.old.left ≡ [] }
        ensures begun { OnTrue result ((line : List ℕ) × Begins L.contents self.old self.new [] line) }
        ensures gone { OnFalse result (GoesOut L.contents self.old self.new [] × (self.new.left ≡ [])) }
        ensures dropped { self.new.dropped ≡ self.old.dropped }
    {
        self.set(heading, text);
        if self.send() == 0 {
            self.line.clear();
            return false;
        }
        true
    }

    /// Makes a line.
    fn set<D: fmt::Display>(&mut self, heading: Heading, text: &D)
        ensures line { IsLine self.new.left }
        ensures rest { self.new ≡ record self.old { left = self.new.left } }
    {
        self.out = 0;
        self.line.clear();
        self.line.add(self.style, &heading, text);
        self.line.end();
    }

    /// Hands the writer what is left of the line. Says whether nothing is left then.
    fn go_on(&mut self) -> bool
        requires { IsSome self.old.writer }
        ensures all { OnTrue result (self.new.left ≡ []) }
        ensures out { GoesOut L.contents self.old self.new [] }
        ensures left { length self.new.left ≤ length self.old.left }
        ensures dropped { self.new.dropped ≡ self.old.dropped }
    {
        self.send();
        self.line.after(self.out).is_empty()
    }

    /// Hands the writer what is left of the line, and answers how many bytes it took.
    fn send(&mut self) -> usize
        requires { IsSome self.old.writer }
        ensures { Sends L.contents self.old self.new result }
    {
        let Some(writer) = &mut self.writer else {
            return 0;
        };
        let left = self.line.after(self.out);
        if left.is_empty() {
            return 0;
        }
        let count = write_some(writer, left);
        self.out += count;
        count
    }
}

/// Hands a writer these bytes, and answers how many it took.
fn write_some<L: Write>(writer: &mut L, bytes: &[u8]) -> usize
    ensures within { result ≤ length bytes.now }
    ensures taken { Appends (L.contents writer.old) (L.contents writer.new) (take result bytes.now) }
{
    match writer.write(bytes) {
        Ok(count) => count,
        Err(_) => 0,
    }
}

/// So many lines were dropped.
#[derive(Clone, Copy, Drop)]
struct Dropped(u64);

impl fmt::Display for Dropped {
    fn fmt<W: fmt::Write>(&self, f: &mut fmt::Formatter<W>) -> fmt::Result {
        let count = self.0;
        write!(f, "log: {count} lines were dropped")
    }
}
