//! A customer that is given new routes.

ghost use Rattle.std.specs.Prelude.{◌≡◌, ◌<◌, length, slice_set};
ghost use Rattle.njh_spool.specs.Spools.{spool_at};
ghost use Rattle.njh_table.specs.TableFile.{customer_at, entry_of};
ghost use Rattle.njh_customer.specs.Part.{part_with};
ghost use Rattle.njh_customer.specs.NewRoutes.{UnroutedFilesStay, part_after_routes};
ghost use Rattle.njh_customer.specs.code.Coherence.{RoutesKeepCoherent};

use crate::lines::Lines;
use njh_spool::Spool;
use njh_stream::hold_unrouted;
use njh_table::Tables;

impl Lines {
    /// The tables have new routes for the customer: its files that are Ready or Refused and whose
    /// node has no route now are Held. Its lines stay as they are, and no frame goes out.
    pub fn set_routes(&self, customer: u16, tables: &Tables, spool: &mut Spool)
        requires known { customer < length tables.now.customers }
        requires spooled { customer < length spool.old }
        ensures part { part_with (entry_of (customer_at tables.now customer)) (spool_at customer spool.new) self.now
            ≡ part_after_routes (entry_of (customer_at tables.now customer)).routes
            (part_with (entry_of (customer_at tables.now customer)) (spool_at customer spool.old) self.now) }
        ensures others { spool.new ≡ slice_set spool.old customer (spool_at customer spool.new) }
    {
        hold_unrouted(tables.customer(customer), customer, spool);
    }
}

/// A customer that is given new routes stays coherent.
pub fn routes_keep_coherent()
    ensures { RoutesKeepCoherent }
{}

/// A file whose node has no route goes by no line: none asks for it, also after its session ends
/// and it is Ready again.
#[tactic(auto, using(crate::proofs::RoutesMoves::unrouted_stay))]
pub fn unrouted_files_stay()
    ensures { UnroutedFilesStay }
{}
