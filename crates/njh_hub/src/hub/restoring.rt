//! A whole file that was kept elsewhere comes back to its customer.

ghost use Rattle.std.specs.Prelude.{◌≡◌, ◌<◌, length, slice_set, MatchOption, IsOk, OnOk, OnErr, Err};
ghost use Rattle.njh_spool.specs.Restoring.{kept, restore_fault};
ghost use Rattle.njh_hub.specs.Restored.{part_with_file};
ghost use Rattle.njh_hub.specs.WholeHub.{part};

use crate::hub::Hub;
use njh_header::FileRecords;
use njh_record::Kind;
use njh_spool::{RestoreFault, restore};
use njh_stream::hold_unrouted;

impl Hub {
    /// Puts a whole file back, last in its customer's order of arrival. One that was Held is Held
    /// again; any other is Ready, or Held where its node has no route. No frame goes out, and
    /// nothing else changes.
    ///
    /// `BadHeader` comes where a header of the file doesn't read; then `FilesOver`; then
    /// `QuotaOver`. After each nothing has changed.
    pub fn restore<F: FileRecords>(
        &mut self,
        customer: u16,
        kind: Kind,
        held: bool,
        file: &F,
    ) -> Result<(), RestoreFault>
        requires { customer < length self.old }
        ensures hub { OnOk result (self.new ≡ slice_set self.old customer
            (part_with_file (kept kind held (F.records file.now)) (part customer self.old))) }
        ensures fault { MatchOption (restore_fault (kept kind held (F.records file.now))
            (part customer self.old).customer.spool)
            (IsOk result) (λ fault. result ≡ Err fault) }
        ensures err { OnErr result (self.new ≡ self.old) }
    {
        match restore(&mut self.shared.spool, customer, kind, held, file) {
            Ok(()) => {}
            Err(fault) => return Err(fault),
        }
        hold_unrouted(
            self.shared.tables.customer(customer),
            customer,
            &mut self.shared.spool,
        );
        Ok(())
    }
}
