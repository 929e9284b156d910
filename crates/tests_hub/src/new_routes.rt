//! Routes that a customer can't have, and some that it can, by the call.

use crate::trial::{A1, A2, B1, of_hub};
use njh_ebcdic::Name;
use njh_hub::{Hub, HubFault};
use njh_table::{GivenRoute, LineId};
use std::io;

/// A route to a node by a line, and by a second one if there is one.
fn route_by(node: &str, id: LineId, second: Option<LineId>) -> io::Result<GivenRoute> {
    match Name::of_text(node) {
        Ok(node) => Ok(GivenRoute {
            node,
            line: id,
            second,
        }),
        Err(_) => Err(of_hub(HubFault::UnknownCustomer)),
    }
}

/// What comes of routes for a customer.
fn set_routes<R: Print>(
    rt: &R,
    hub: &mut Hub,
    customer: u16,
    routes: &[GivenRoute],
) -> io::Result<()> {
    match hub.set_routes(customer, routes) {
        Ok(()) => println!(rt; "routes: taken")?,
        Err(fault) => println!(rt; "routes: {fault}")?,
    }
    Ok(())
}

/// Says which routes are refused.
pub(crate) fn refuse<R: Print>(rt: &R, hub: &mut Hub) -> io::Result<()> {
    let lyon = route_by("LYON", A1, None)?;
    set_routes(rt, hub, 0, &[route_by("LYON", B1, None)?])?;
    set_routes(rt, hub, 0, &[lyon, lyon])?;
    set_routes(rt, hub, 0, &[route_by("BUREAU", A1, None)?])?;
    set_routes(rt, hub, 0, &[lyon; 513])?;
    set_routes(rt, hub, 9, &[lyon])?;
    set_routes(rt, hub, 0, &[lyon])?;
    set_routes(rt, hub, 0, &[route_by("BUREAU", B1, Some(B1))?])?;
    set_routes(rt, hub, 0, &[route_by("BUREAU", A1, Some(B1))?])?;
    set_routes(rt, hub, 0, &[route_by("LYON", A1, Some(B1))?])?;
    set_routes(rt, hub, 0, &[route_by("LYON", A1, Some(A2))?])
}
