//! A customer that is given new routes while the hub runs.

ghost use Rattle.std.specs.Prelude.{◌≡◌, ◌<◌, length, slice_set, OnOk, OnErr, Ok, Err};
ghost use Rattle.njh_customer.specs.NewRoutes.{part_after_routes};
ghost use Rattle.njh_table.specs.NewRoutes.{new_routes_of, routes_checked, entries_of_routes, with_routes};
ghost use Rattle.njh_table.specs.TableFile.{customer_at, entry_of};
ghost use Rattle.njh_table.specs.declared.fault.TableFault.{TableFault};
ghost use Rattle.njh_hub.specs.Steps.{GivenLeaves};
ghost use Rattle.njh_hub.specs.WholeHub.{part};

use crate::fault::HubFault;
use crate::hub::Hub;
use njh_table::{GivenRoute, Tables};

impl Hub {
    /// Gives a customer these routes in place of its own. Its files that are Ready or Refused and
    /// whose node has no route now are Held; no frame goes out, and nothing else changes.
    ///
    /// `UnknownCustomer` comes where the hub has no such customer; then `BadRoutes`, with the first
    /// fault in the routes, by the customer's own entry alone; then `Memory` where there was none
    /// for them. After each nothing has changed.
    pub fn set_routes(&mut self, customer: u16, routes: &[GivenRoute]) -> Result<(), HubFault>
        ensures hub { OnOk result (self.new
            ≡ slice_set self.old customer (part_after_routes (entries_of_routes (new_routes_of customer routes.now))
            (part customer self.old))) }
        ensures stays { GivenLeaves self.old customer result self.new }
        ensures known { OnOk result (customer < length self.old) }
        ensures checked { OnOk result (routes_checked (part customer self.old).customer.entry
            (new_routes_of customer routes.now) ≡ Ok tt) }
        ensures unknown { ¬ (customer < length self.old) → result ≡ Err HubFault.UnknownCustomer }
        ensures refused { customer < length self.old → (cause : TableFault) →
            routes_checked (part customer self.old).customer.entry (new_routes_of customer routes.now) ≡ Err cause →
            result ≡ Err (HubFault.BadRoutes cause) }
        ensures memory { customer < length self.old →
            routes_checked (part customer self.old).customer.entry (new_routes_of customer routes.now) ≡ Ok tt →
            OnErr result (result ≡ Err HubFault.Memory) }
    {
        if usize::from(customer) >= self.lines.len() {
            return Err(HubFault::UnknownCustomer);
        }
        match set_in_tables(&mut self.shared.tables, customer, routes) {
            Ok(()) => {}
            Err(fault) => return Err(fault),
        }
        let lines = &self.lines[usize::from(customer)];
        lines.set_routes(customer, &self.shared.tables, &mut self.shared.spool);
        Ok(())
    }
}

/// The tables have these routes for a customer, if it may have them.
fn set_in_tables(tables: &mut Tables, customer: u16, routes: &[GivenRoute]) -> Result<(), HubFault>
    requires { customer < length tables.old.customers }
    ensures routes { OnOk result (tables.new ≡ with_routes customer (new_routes_of customer routes.now) tables.old) }
    ensures checked { OnOk result (routes_checked (entry_of (customer_at tables.old customer))
        (new_routes_of customer routes.now) ≡ Ok tt) }
    ensures refused { (cause : TableFault) →
        routes_checked (entry_of (customer_at tables.old customer)) (new_routes_of customer routes.now) ≡ Err cause →
        result ≡ Err (HubFault.BadRoutes cause) }
    ensures memory { routes_checked (entry_of (customer_at tables.old customer)) (new_routes_of customer routes.now)
        ≡ Ok tt →
        OnErr result (result ≡ Err HubFault.Memory) }
    ensures err { OnErr result (tables.new ≡ tables.old) }
{
    match tables.check_routes(customer, routes) {
        Ok(()) => {}
        Err(cause) => return Err(HubFault::BadRoutes { cause }),
    }
    match tables.set_routes(customer, routes) {
        Ok(()) => Ok(()),
        Err(_) => Err(HubFault::Memory),
    }
}
