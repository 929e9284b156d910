//! A sink that prints.

ghost use Rattle.std.specs.Prelude.{◌≡◌, [], ◌∷◌, refl};
ghost use Rattle.std.specs.Bool.{OnTrue, OnFalse};
ghost use Rattle.njh_replay.specs.Printed.{IsPrinted, IsPrintedInPart};
ghost use Rattle.njh_replay.specs.code.PrintedLaws.{IsPrinted-none, IsPrinted-more, same_then};

use crate::line_names::LineNames;
use crate::print::{FrameRoom, print_frame};
use njh_hub::{Sink, SinkFault};
use njh_table::LineId;
use std::io::Write;

/// Prints each frame that a run sends, with the name of its line. It counts the frames that it
/// couldn't print.
#[derive(Drop)]
pub struct Printer<'a, W> {
    /// Where it prints.
    pub out: &'a mut W,
    /// The names of the lines.
    pub names: &'a LineNames,
    /// Room for the text of a frame.
    pub room: FrameRoom,
    /// How many frames it couldn't print.
    pub failures: u64,
}

impl<W: Write> Printer<'_, W> {
    /// Prints a frame, and says whether it is printed whole.
    fn print(&mut self, id: LineId, frame: &[u8]) -> bool
        ensures whole { OnTrue result (IsPrinted self.old.names.now self.new.names.now
            (W.contents self.old.out.now) (W.contents self.new.out.now) ((id, frame.now) ∷ [])) }
        ensures part { OnFalse result (IsPrintedInPart self.old.names.now self.new.names.now
            (W.contents self.old.out.now) (W.contents self.new.out.now) (id, frame.now)) }
        ensures same_reference { self.new.out.ghost_name ≡ self.old.out.ghost_name }
        ensures failures { self.new.failures ≡ self.old.failures }
    {
        match self.names.get(id) {
            Some(name) => match print_frame(self.out, name, frame, &mut self.room) {
                Ok(()) => true,
                Err(_) => false,
            },
            None => false,
        }
    }
}

impl<W: Write> Sink for Printer<'_, W> {
    // It writes on where it wrote.
    ghost took = { λ before after pairs. (after.out.ghost_name ≡ before.out.ghost_name)
        × IsPrinted before.names.now after.names.now (W.contents before.out.now) (W.contents after.out.now) pairs };

    // A frame that was refused may be printed in part.
    ghost refused = { λ before after pair. (after.out.ghost_name ≡ before.out.ghost_name)
        × IsPrintedInPart before.names.now after.names.now (W.contents before.out.now)
        (W.contents after.out.now) pair };

    ghost count = { λ printer. printer.failures };

    ghost none = { λ s. (refl, IsPrinted-none s.names.now (W.contents s.out.now)) };

    ghost more = { λ a b c xs ys front back. let held = W.contents in (
      same_then front.0 back.0,
      IsPrinted-more a.names.now b.names.now c.names.now (held a.out.now) (held b.out.now)
          (held c.out.now) xs ys front.1 back.1,
    ) };

    fn failures(&self) -> u64 {
        self.failures
    }

    fn send(&mut self, id: LineId, frame: &[u8]) -> Result<(), SinkFault> {
        if self.print(id, frame) {
            return Ok(());
        }
        self.failures = self.failures.saturating_add(1);
        Err(SinkFault)
    }
}
