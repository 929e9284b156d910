//! The attendant opens the sockets of its lines.

ghost use Rattle.std.specs.Prelude.{◌≡◌, ◌++◌, ◌↔◌, [], map, All, IfOk, IsTrue, OnOk};
ghost use Rattle.std.specs.declared.net.ip_addr.IpAddr.{IpAddr};
ghost use Rattle.njh_table.specs.TableFile.{HasLine};
ghost use Rattle.njh_sites.specs.Endpoints.{endpoints_of};
ghost use Rattle.njh_sites.specs.Opened.{IsApart, site_on, site_opened};
ghost use Rattle.njh_lines.specs.Watching.{served_on};
ghost use Rattle.njh_service.specs.Opening.{IsOpenToAll};

use crate::fault::ServeFault;
use njh_lines::Exchange;
use njh_log::{ListenCause, LogEvent, Place, Severity};
use njh_sight::{Label, LineNames};
use njh_sites::{Door, Endpoint, Listening, PortRefusal, Site, begin_event, endpoints_of};
use njh_table::{LineId, NamedLine, Tables};
use njh_wire::Network;
use std::alloc::{AllocError, Global};
use std::io::Write;
use std::net::{IpAddr, SocketAddr};

/// Opens the sockets of the lines of tables that have a port or a peer, and serves these lines.
/// Answers them. If one can't be opened, or there is none and one is `needed`, the log says
/// why. A port that can't be listened on and doesn't have to be is tried again.
pub(crate) fn open_lines<N: Network + Drop, L: Write + Drop>(
    exchange: &mut Exchange<N, L>,
    alloc: Global,
    tables: &Tables,
    listening: Listening,
    needed: bool,
) -> Result<Vec<Endpoint>, ServeFault>
    ensures all { IfOk result (λ endpoints. endpoints.items ≡ endpoints_of tables.now) }
    ensures known { IfOk result (λ endpoints. All (λ endpoint. HasLine tables.now endpoint.line) endpoints.items) }
    ensures apart { IfOk result (λ endpoints. IsApart endpoints.items) }
    ensures served { IfOk result (λ endpoints.
        exchange.new.lines ≡ exchange.old.lines ++ map (served_on tables.now listening.address) endpoints.items) }
{
    let endpoints = endpoints_of(alloc, tables)?;
    if needed && endpoints.is_empty() {
        exchange.write(
            Severity::Error,
            Place::Hub,
            &"no line of the tables has a port or a peer",
        );
        return Err(ServeFault::Device);
    }
    exchange.know_customers(alloc, tables)?;
    let sites = sites_on(exchange, alloc, tables, listening, &endpoints)?;
    add_lines(exchange, tables, listening.address, &endpoints, sites)?;
    Ok(endpoints)
}

/// The sockets of lines. If one can't be opened the log says why.
fn sites_on<N: Network + Drop, L: Write + Drop>(
    exchange: &mut Exchange<N, L>,
    alloc: Global,
    tables: &Tables,
    listening: Listening,
    endpoints: &[Endpoint],
) -> Result<Vec<Site<Door<N::Listener>, SocketAddr>>, ServeFault>
    ensures apart { OnOk result (IsApart endpoints.now) }
    ensures opened { IfOk result (λ sites. map (site_opened N.address_of) sites.items
        ≡ map (λ endpoint. site_on listening.address endpoint.site) endpoints.now) }
    ensures lines { exchange.new.lines ≡ exchange.old.lines }
{
    match exchange.open(alloc, listening, endpoints) {
        Ok(sites) => Ok(sites),
        Err(fault) => {
            let refusal = PortRefusal::of(tables, endpoints, fault);
            exchange.write(Severity::Error, Place::Hub, &refusal);
            Err(fault_of(fault.cause))
        }
    }
}

/// Serves lines of tables, each at its site. The log tells where each listens or what it dials,
/// and of the ports that can't be listened on.
fn add_lines<N: Network + Drop, L: Write + Drop>(
    exchange: &mut Exchange<N, L>,
    tables: &Tables,
    own: IpAddr,
    endpoints: &[Endpoint],
    sites: Vec<Site<Door<N::Listener>, SocketAddr>>,
) -> Result<(), AllocError>
    requires { All (λ endpoint. HasLine tables.now endpoint.line) endpoints.now }
    ensures { (address : IpAddr) → map (site_opened N.address_of) sites.items
        ≡ map (λ endpoint. site_on address endpoint.site) endpoints.now
        → OnOk result (exchange.new.lines ≡ exchange.old.lines ++ map (served_on tables.now address) endpoints.now) }
{
    let mut left = sites.into_iter();
    for endpoint in endpoints {
        let Some(site) = left.next() else {
            return Ok(());
        };
        tell_site(exchange, tables, own, endpoint, &site);
        let names = names_of(tables, endpoint.line);
        let from = tables.line(endpoint.line).from();
        exchange.add(endpoint.line, &names, from, site)?;
    }
    Ok(())
}

/// Tells of the site of a line of tables, which listens on this address if it doesn't dial, and
/// whether anybody who reaches it there may sign on.
fn tell_site<N: Network + Drop, L: Write + Drop>(
    exchange: &mut Exchange<N, L>,
    tables: &Tables,
    own: IpAddr,
    endpoint: &Endpoint,
    site: &Site<Door<N::Listener>, SocketAddr>,
)
    requires { HasLine tables.now endpoint.now.line }
    ensures lines { exchange.new.lines ≡ exchange.old.lines }
{
    let address = address_in(own, endpoint);
    exchange.tell(place_of(tables, endpoint.line), begin_event(address, site));
    if is_open_to_all(tables.line(endpoint.line), own) {
        exchange.tell(
            place_of(tables, endpoint.line),
            LogEvent::OpenToAll(address.port()),
        );
    }
}

/// What the log calls a line of tables.
fn place_of(tables: &Tables, id: LineId) -> Place
    requires { HasLine tables.now id }
{
    let label = Label::of(&names_of(tables, id));
    Place::Line(label.customer, label.line)
}

/// Whether anybody who reaches a line may sign on: it has a port on this address, which others than
/// this machine reach, takes connections from everywhere, and wants no password.
fn is_open_to_all(line: &NamedLine, own: IpAddr) -> bool
    ensures { IsTrue result ↔ IsOpenToAll line.now own }
{
    line.port() != 0 && takes_from_all(line) && wants_no_password(line) && !own.is_loopback()
}

/// Whether a line takes connections from everywhere.
fn takes_from_all(line: &NamedLine) -> bool
    ensures { IsTrue result ↔ (line.now.from ≡ []) }
{
    line.from().as_slice().is_empty()
}

/// Whether a sign-on on a line needs no password.
fn wants_no_password(line: &NamedLine) -> bool
    ensures { IsTrue result ↔ (line.now.entry.password ≡ []) }
{
    match line.password() {
        Some(password) => password.trimmed().is_empty(),
        None => true,
    }
}

/// Where a line is connected: on this address if it listens, or at its peer's.
fn address_in(own: IpAddr, endpoint: &Endpoint) -> SocketAddr {
    match endpoint.site {
        Site::Listens(port) => SocketAddr::new(own, port),
        Site::Dials(peer) => peer,
    }
}

/// Why lines aren't served if a socket can't be opened.
fn fault_of(cause: ListenCause) -> ServeFault {
    match cause {
        ListenCause::Memory => ServeFault::Memory,
        _ => ServeFault::Device,
    }
}

/// What a line is called.
fn names_of<'a>(tables: &'a Tables, id: LineId) -> LineNames<'a>
    requires { HasLine tables.now id }
{
    let entry = tables.line(id);
    LineNames {
        customer: tables.customer(id.customer).name(),
        line: entry.name(),
        node: entry.node(),
        hub: tables.customer(id.customer).hub(),
        streams: entry.streams(),
    }
}
