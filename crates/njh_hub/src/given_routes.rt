//! Routes that a customer is given by an event.

ghost use Rattle.std.specs.Prelude.{◌≡◌, IfOk};

use njh_table::GivenRoute;
use std::alloc::{AllocError, Global};
use std::marker::Model;

/// Some routes of a customer, of any number; a caller sees them as a list.
#[derive(Drop)]
pub struct GivenRoutes {
    routes: Vec<GivenRoute>,
}

impl Model for GivenRoutes {
    ghost use Rattle.std.specs.Prelude.{List};
    ghost use Rattle.njh_table.specs.declared.new_routes.GivenRoute.{GivenRoute};

    ghost Value = { List GivenRoute };

    ghost view = { λ list. list.routes.items };
}

impl GivenRoutes {
    /// A copy of the routes. Out of memory is the only refusal.
    pub fn of(alloc: Global, routes: &[GivenRoute]) -> Result<GivenRoutes, AllocError>
        ensures { IfOk result (λ list. list ≡ routes.now) }
    {
        Ok(GivenRoutes {
            routes: Vec::from_slice(alloc, routes)?,
        })
    }

    /// The routes.
    pub fn routes(&self) -> &[GivenRoute]
        ensures { result.now ≡ self.now }
    {
        self.routes.as_slice()
    }
}
