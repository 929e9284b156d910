//! The lines of tables that are served, each with its site.

ghost use Rattle.std.specs.Prelude.{◌≡◌, ◌++◌, [], All, IfOk, IfSome, OnOk};
ghost use Rattle.std.specs.List.{cons_option};
ghost use Rattle.njh_table.specs.TableFile.{HasLine};
ghost use Rattle.njh_sites.specs.Endpoints.{endpoint_of, endpoints_in, endpoints_of, site_of};

use crate::site::Site;
use njh_table::{LineId, NamedCustomer, NamedLine, Protocol, Tables};
use std::alloc::{AllocError, Global};
use std::net::SocketAddr;

/// A line that is served.
#[derive(Clone, Copy, Drop)]
pub struct Endpoint {
    /// The line.
    pub line: LineId,
    /// The port on which the hub listens for its peer, or the peer's address, which the hub dials.
    pub site: Site<u16, SocketAddr>,
    /// How its bytes are written on its connections.
    pub protocol: Protocol,
}

/// The lines of the tables that have a port or a peer, in their order. Out of memory is the only
/// refusal.
pub fn endpoints_of(alloc: Global, tables: &Tables) -> Result<Vec<Endpoint>, AllocError>
    ensures all { IfOk result (λ endpoints. endpoints.items ≡ endpoints_of tables.now) }
    ensures known { IfOk result (λ endpoints. All (λ endpoint. HasLine tables.now endpoint.line) endpoints.items) }
{
    let mut endpoints = Vec::new(alloc);
    for customer in tables.customers() {
        add_endpoints(tables, customer, &mut endpoints)?;
    }
    Ok(endpoints)
}

/// Adds those of a customer.
fn add_endpoints(
    tables: &Tables,
    customer: &NamedCustomer,
    endpoints: &mut Vec<Endpoint>,
) -> Result<(), AllocError>
    ensures added { OnOk result (endpoints.new.items ≡ endpoints.old.items ++ endpoints_in tables.now customer.now) }
    ensures known { All (λ endpoint. HasLine tables.now endpoint.line) endpoints.old.items
        → OnOk result (All (λ endpoint. HasLine tables.now endpoint.line) endpoints.new.items) }
{
    for line in customer.lines() {
        add_endpoint(tables, line, endpoints)?;
    }
    Ok(())
}

/// Adds a line that is served.
fn add_endpoint(
    tables: &Tables,
    line: &NamedLine,
    endpoints: &mut Vec<Endpoint>,
) -> Result<(), AllocError>
    ensures added { OnOk result (endpoints.new.items
        ≡ endpoints.old.items ++ cons_option (endpoint_of tables.now line.now) []) }
    ensures known { All (λ endpoint. HasLine tables.now endpoint.line) endpoints.old.items
        → OnOk result (All (λ endpoint. HasLine tables.now endpoint.line) endpoints.new.items) }
{
    match endpoint_of(tables, line) {
        Some(endpoint) => endpoints.push(endpoint)?,
        None => {}
    }
    Ok(())
}

/// A line with its site, if it is served.
fn endpoint_of(tables: &Tables, line: &NamedLine) -> Option<Endpoint>
    ensures found { result ≡ endpoint_of tables.now line.now }
    ensures known { IfSome result (λ endpoint. HasLine tables.now endpoint.line) }
{
    let site = site_of(line)?;
    let owner = tables.line_owner(line.name())?;
    Some(Endpoint {
        line: owner,
        site,
        protocol: line.protocol(),
    })
}

/// Where a line listens, or whom it dials, if it is served.
fn site_of(line: &NamedLine) -> Option<Site<u16, SocketAddr>>
    ensures { result ≡ site_of line.now }
{
    match line.peer() {
        Some(peer) => Some(Site::Dials(peer)),
        None if line.port() == 0 => None,
        None => Some(Site::Listens(line.port())),
    }
}
