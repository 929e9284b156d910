//! What a step made of a customer's files is written.

ghost use Rattle.std.specs.Prelude.{◌≡◌, ◌<◌, ◌≤◌, ◌-◌, ◌^◌, ◌⊎◌, [], OnOk};
ghost use Rattle.sqlite.specs.State.{HasCleanDisk, Survives};
ghost use Rattle.njh_hub.specs.WholeHub.{part};
ghost use Rattle.njh_spool.specs.Spools.{IsSound};
ghost use Rattle.njh_spoolfile.specs.Shelf.{shown};
ghost use Rattle.njh_stream.specs.WholeFiles.{HaveHeaders};
ghost use Rattle.njh_keeper.specs.code.Counting.{rows_of};
ghost use Rattle.njh_keeper.specs.code.Following.{memory_of};
ghost use Rattle.njh_keeper.specs.code.Knowing.{LeadsStep};

use crate::following::follow;
use crate::own_files::OwnFiles;
use crate::portions::keep_portions;
use crate::writer::SpoolWriter;
use njh_hub::Hub;
use sqlite::{Alter, Error};

/// Keeps a customer's files as a step left them: first those that are whole, and then records of
/// the others. Nothing is committed. Then no more records of the customer stand there than before,
/// or none of files that have left.
pub(crate) fn keep_step<S: Alter + Drop>(
    writer: &mut SpoolWriter<S>,
    own: &mut OwnFiles,
    hub: &Hub,
    customer: u16,
) -> Result<(), Error>
    ensures led { IsSound (part customer hub.now).customer.spool
        → HaveHeaders (part customer hub.now).customer.spool.whole → HasCleanDisk (shown S.Store writer.new.store)
        → OnOk result (LeadsStep (memory_of writer.old own.old) (memory_of writer.new own.new) writer.old.is_changed
        writer.new.is_changed (part customer hub.now) (shown S.Store writer.old.store)
        (shown S.Store writer.new.store)) }
    ensures bounded { IsSound (part customer hub.now).customer.spool → writer.new.waiting < 2 ^ 32 - 1
        → OnOk result ((own.new.sweeps.items ≡ []) ⊎ (rows_of own.new ≤ rows_of own.old)) }
    ensures crash { Survives (shown S.Store writer.old.store) (shown S.Store writer.new.store) (λ _. ⊥) }
{
    let before = writer.waiting;
    follow(writer, own, hub, customer)?;
    keep_portions(writer, own, hub, customer, before)
}
