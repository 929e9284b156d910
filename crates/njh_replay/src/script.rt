//! The events of a script.

ghost use Rattle.std.specs.Prelude.{◌≡◌, ℕ, ◌≤◌, ◌⊎◌, ◌++◌, [], length, All, IfOk, IfErr, IfSome, OnOk};
ghost use Rattle.std.specs.List.{cons_option};
ghost use Rattle.njh_replay.specs.Script.{can_stand, event_in, is_skipped, max_script_bytes, script_of};
ghost use Rattle.njh_replay.specs.ScriptRoutes.{IsNamedIn};
ghost use Rattle.njh_replay.specs.code.LineStarts.{Begins, IsStart};

use crate::fault::ReplayFault;
use crate::line::event_of;
use crate::line_starts::{Start, start_of};
use njh_hub::{Event, HubFault};
use njh_io::next_line;
use njh_table::Tables;
use std::alloc::{AllocError, Global};

/// How many bytes a script has at most.
pub const MAX_SCRIPT_BYTES: usize = 1_048_576;

/// The events of a script, all of which name what the tables have, or the number of its first bad
/// line, counted from 1. The only other refusal is out of memory.
pub fn events_of(alloc: Global, tables: &Tables, text: &[u8]) -> Result<Vec<Event>, ReplayFault>
    requires { length text.now ≤ max_script_bytes }
    ensures events { IfOk result (λ events. script_of tables.now text.now ≡ Ok events.items) }
    ensures named { IfOk result (λ events. All (IsNamedIn tables.now) events.items) }
    ensures bad { (number : ℕ) → result ≡ Err (ReplayFault.Script number) → script_of tables.now text.now ≡ Err number }
    ensures refused { IfErr result (λ fault. (fault ≡ ReplayFault.Hub HubFault.Memory)
        ⊎ ((number : ℕ) × (fault ≡ ReplayFault.Script number))) }
{
    let mut events = Vec::new(alloc);
    let mut number = 0;
    let mut rest = text;
    let mut start = None;
    while let Some((line, after)) = next_line(rest) {
        number += 1;
        start = start_of(tables, line, start);
        if !add_event(alloc, tables, line, start, &mut events)? {
            return Err(ReplayFault::Script { line: number });
        }
        rest = after;
    }
    Ok(events)
}

/// Adds the event of a line that isn't skipped. Says whether the line may be in a script; if
/// not, nothing was added.
#[tactic(auto, unfolding(crate::specs::Script::can_stand, crate::specs::Script::event_in))]
fn add_event(
    alloc: Global,
    tables: &Tables,
    line: &[u8],
    start: Option<Start<'_>>,
    events: &mut Vec<Event>,
) -> Result<bool, AllocError>
    requires start { IfSome start (λ start. IsStart tables.now start.front.now start.line) }
    requires begins { IfSome start (λ start. Begins start.front.now line.now) }
    ensures stands { IfOk result (λ stands. stands ≡ can_stand tables.now line.now) }
    ensures added { OnOk result (events.new.items
        ≡ events.old.items ++ cons_option (event_in tables.now line.now) []) }
    ensures named { All (IsNamedIn tables.now) events.old.items
        → OnOk result (All (IsNamedIn tables.now) events.new.items) }
{
    if is_skipped(line) {
        return Ok(true);
    }
    match event_of(alloc, tables, line, start)? {
        Some(event) => {
            events.push(event)?;
            Ok(true)
        }
        None => Ok(false),
    }
}

/// Whether a line is empty or a comment.
fn is_skipped(line: &[u8]) -> bool
    ensures { result ≡ is_skipped line.now }
{
    matches!(line, [] | [b'#', ..])
}
