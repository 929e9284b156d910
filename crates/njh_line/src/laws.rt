//! Laws of the line table, each the contract of a function that does nothing.

ghost use Rattle.std.specs.Prelude.{◌≡◌, ℕ, ◌+◌, ◌%◌, ◌<◌, ◌≤◌, ◌==◌, ◌||◌, Bool, true, false, Option, Some, None};
ghost use Rattle.njh_line.specs.Answering.{ActingIsAnswered, DownStaysDown};
ghost use Rattle.njh_line.specs.declared.config.Config.{Config};
ghost use Rattle.njh_line.specs.declared.counts.Counted.TheVariants.{Acts, Repeats, OutOfSequence};
ghost use Rattle.njh_line.specs.declared.ending.SessionEnd.TheVariants.{Tries};
ghost use Rattle.njh_line.specs.declared.session.Session.{Session};
ghost use Rattle.njh_line.specs.Counts.{bcb_count, bcb_type, count_verdict, is_taken};
ghost use Rattle.njh_line.specs.Ends.{EndsAreTold, RefusalsAreTold, refusals_after};
ghost use Rattle.njh_line.specs.Laws.{KeepsRest, MovesTriesAlone, is_disregarded, last_bcb_after};
ghost use Rattle.njh_line.specs.Laws.{sets_tries};
ghost use Rattle.njh_line.specs.LineTable.{Block, Input, table_outcome, end, try_again};
ghost use Rattle.njh_line.specs.Lines.{LineState, after_input};
ghost use Rattle.njh_line.specs.Openings.{First};
ghost use Rattle.njh_line.specs.Sessions.{in_session};
ghost use Rattle.njh_line.specs.Up.{InputsKeepUp};

/// A text to be disregarded, one that is no block, and a block whose check failed move nothing but
/// the tries; where five were made before, the session ends. No input changes a line but in its
/// session: not the last transmission, nor what waits.
pub fn disregarded_changes_nothing()
    ensures rest { (line : LineState) (input : Input) → KeepsRest line (after_input input line) }
    ensures stays { (line : Config) (s : Session) (input : Input) → is_disregarded input ≡ true → s.tries < 5
        → MovesTriesAlone s (table_outcome line input s) }
    ensures over { (line : Config) (s : Session) (input : Input) → is_disregarded input ≡ true
        → in_session s.phase ≡ true → s.tries ≡ 5
        → table_outcome line input s ≡ end Tries s }
{}

/// A repeat acts on nothing and is a try, with the last transmission again. Only a block with the
/// BCB of the last one acted on repeats, and it always does.
pub fn repeats_are_tries()
    ensures tries { (line : Config) (s : Session) (bcb : ℕ) (fcs : ℕ × ℕ) (first : First) → in_session s.phase ≡ true
        → count_verdict s.last_bcb bcb ≡ Repeats → table_outcome line (Block bcb fcs first) s ≡ try_again s }
    ensures stays { (line : Config) (s : Session) (bcb : ℕ) (fcs : ℕ × ℕ) (first : First) → in_session s.phase ≡ true
        → count_verdict s.last_bcb bcb ≡ Repeats → s.tries < 5
        → MovesTriesAlone s (table_outcome line (Block bcb fcs first) s) }
    ensures same { (last : Option ℕ) (bcb : ℕ) → count_verdict last bcb ≡ Repeats → last ≡ Some bcb }
    ensures always { (bcb : ℕ) → (bcb_type bcb == 1) ≡ false → count_verdict (Some bcb) bcb ≡ Repeats }
{}

/// Within a session the tries never fall but by a block that is acted on and by ACK0 where the line
/// is up.
pub fn tries_stay()
    ensures { (line : Config) (s : Session) (input : Input) → in_session s.phase ≡ true
        → (table_outcome line input s).verdict.ended ≡ false
        → sets_tries input s ≡ false → s.tries ≤ (table_outcome line input s).session.tries }
{}

/// Within a session the counts taken are those of the BCB of the last block acted on whose count
/// isn't unchecked, and of nothing else.
pub fn counts_are_of_the_last_block()
    ensures kept { (line : Config) (s : Session) (input : Input) → in_session s.phase ≡ true
        → (table_outcome line input s).verdict.ended ≡ false
        → (table_outcome line input s).session.last_bcb ≡ last_bcb_after input s }
    ensures at_first { (k : ℕ) → is_taken None k ≡ ((k == 0) || (k == 1)) }
    ensures set { (bcb k : ℕ) → bcb_type bcb ≡ 2
        → is_taken (Some bcb) k ≡ ((k == bcb_count bcb) || (k == (bcb_count bcb + 1) % 16)) }
    ensures checked { (bcb k : ℕ) → bcb_type bcb ≡ 0 → is_taken (Some bcb) k ≡ (k == (bcb_count bcb + 1) % 16) }
{}

/// A session begins with no tries, and before any block.
pub fn sessions_begin_afresh()
    ensures { (line : Config) (s : Session) (input : Input) → in_session s.phase ≡ false
        → in_session (table_outcome line input s).session.phase ≡ true
        → ((table_outcome line input s).session.tries ≡ 0) × ((table_outcome line input s).session.last_bcb ≡ None) }
{}

/// A block that is acted on where a sign-on is due, and whose first record is none that fits, is
/// one refusal more, and why is kept. Every other input leaves their count and why the last one
/// was, in all phases, where a session ends or begins too.
pub fn refusals_are_counted()
    ensures count { (line : Config) (s : Session) (input : Input)
        → (table_outcome line input s).session.refusals ≡ refusals_after line input s }
    ensures told { RefusalsAreTold }
{}

/// A session ends by an input exactly where the input makes an end of it: ENQ, EOT and a loss where
/// it is up; a block out of sequence; where five tries were made, a NAK, a repeat, a text that acts
/// on nothing, and a tick without the turn. Which it was is kept until the next session ends.
pub fn ends_are_told()
    ensures { EndsAreTold }
{}

/// A line that is up stays so until its session ends, and then it isn't. Records act, and the next
/// block goes, only on a line that is up then.
pub fn inputs_keep_up()
    ensures { InputsKeepUp }
{}

/// A block whose records act is answered by the next block, or by ACK0 in its place. On a line that
/// is down what comes does nothing and leaves it down, or a control frame is sent for it; no record
/// acts.
pub fn inputs_are_answered()
    ensures acting { ActingIsAnswered }
    ensures down { DownStaysDown }
{}
