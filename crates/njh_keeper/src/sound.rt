//! What is known of each customer of a hub.

ghost use Rattle.std.specs.Prelude.{ℕ, ◌<◌, OnOk};
ghost use Rattle.njh_hub.specs.WholeHub.{part};
ghost use Rattle.njh_spool.specs.Spools.{IsSound};
ghost use Rattle.njh_stream.specs.WholeFiles.{HaveHeaders};

use crate::writer::astray;
use njh_hub::Hub;
use sqlite::Error;

/// The files of the first so many customers are sound, and the headers of those that are whole
/// read; or the customers are more than a hub may have.
pub(crate) fn see_sound(hub: &Hub, count: usize) -> Result<(), Error>
    ensures { OnOk result ((c : ℕ) → c < count → IsSound (part c hub.now).customer.spool
        × HaveHeaders (part c hub.now).customer.spool.whole) }
{
    for at in 0..count {
        let Ok(customer) = u16::try_from(at) else {
            return Err(astray());
        };
        hub.files_are_sound(customer);
    }
    Ok(())
}
