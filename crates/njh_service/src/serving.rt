//! Serves the lines of tables.

ghost use Rattle.std.specs.Prelude.{◌≡◌, ◌++◌, length, map, All, IfOk, OnOk};
ghost use Rattle.njh_hub.specs.WholeHub.{HasLine as HubHasLine};
ghost use Rattle.njh_turns.specs.Keeping.{IsSettled};
ghost use Rattle.njh_turns.specs.Turns.{no_quiets};
ghost use Rattle.njh_table.specs.TableFile.{HasLine};
ghost use Rattle.njh_sites.specs.Endpoints.{endpoints_of, lines_of};
ghost use Rattle.njh_sites.specs.Opened.{IsApart};
ghost use Rattle.njh_service.specs.Serving.{AreServedFrom, ArePlaced, HaveProtocols, IsOpened, IsOpenedOn};
ghost use Rattle.njh_wire.specs.Standing.{first_standing};
ghost use Rattle.njh_lines.specs.Watching.{served_on};

use crate::bureau::Bureau;
use crate::fault::ServeFault;
use crate::service::Service;
use njh_hub::Hub;
use njh_log::Log;
use njh_revision::TableSource;
use njh_sites::{Endpoint, Listening};
use njh_table::{Protocol, Tables};
use njh_turns::Depot;
use njh_wire::{Connection, LineWire, Network};
use std::alloc::{AllocError, Global};
use std::io::Write;

/// Serves the lines of tables that have a port or a peer, by an attendant that serves no line yet,
/// for so many turns; if no number is given, until the program is ended. Lines with a port listen
/// as they are to. Each customer has the whole files that the depot kept of it, and what becomes
/// of them is kept there before it shows on a line. What the depot tells of what it opened stands
/// in the log. The depot and the log are given back.
///
/// `Device` if a port that has to be listened on can't be, if two lines have one port, if what is
/// kept can't be read, or if no line has a port or a peer and no number of turns is given: of ports
/// and lines the log says why. `Refused` if a
/// kept file can't be put back. `Memory` if there is no room for the hub or its wires. Nothing was
/// read then. `Device` too if files couldn't be kept: nothing was read or written after that.
pub fn serve<N: Network + Drop, L: Write + Drop, S: TableSource + Drop, D: Depot + Drop>(
    alloc: Global,
    depot: D,
    tables: Tables,
    bureau: Bureau<N, L, S>,
    listening: Listening,
    turns: Option<u32>,
) -> (Result<(), ServeFault>, D, Log<L>)
    ensures { OnOk result.0 (AreServedFrom D.opens D.says depot result.1 tables turns) }
{
    match service_on(alloc, depot, tables, bureau, listening, turns.is_none()) {
        Ok(mut service) => match service.run(turns) {
            Ok(()) => {
                let (depot, log) = ended(service);
                (Ok(()), depot, log)
            }
            Err(_fault) => {
                let (depot, log) = ended(service);
                (Err(ServeFault::Device), depot, log)
            }
        },
        Err((fault, depot, bureau)) => (Err(fault), depot, bureau.into_log()),
    }
}

/// What is left of a service of which no more lines are served: its depot and its log.
fn ended<W: Drop, N: Network + Drop, L: Write + Drop, S: TableSource + Drop, D: Drop>(
    service: Service<W, Bureau<N, L, S>, D>,
) -> (D, Log<L>)
    ensures { result.0 ≡ service.depot }
{
    let (depot, bureau) = service.into_parts();
    (depot, bureau.into_log())
}

/// A service of the lines of tables that have a port or a peer, of a hub that the depot opens. If
/// such a line is `needed`, tables without one are refused. What is refused gives back the depot
/// and the attendant.
///
/// Refusals are those of `serve`.
pub fn service_on<N: Network + Drop, L: Write + Drop, S: TableSource + Drop, D: Depot + Drop>(
    alloc: Global,
    depot: D,
    tables: Tables,
    mut bureau: Bureau<N, L, S>,
    listening: Listening,
    needed: bool,
) -> Result<Service<LineWire<N::Connection>, Bureau<N, L, S>, D>, (ServeFault, D, Bureau<N, L, S>)>
    ensures opened { IfOk result (λ service. IsOpened (D.opens depot service.depot tables) tables service) }
    ensures attended { IfOk result (λ service. service.attendant.exchange.lines
        ≡ bureau.exchange.lines ++ map (served_on tables listening.address) (endpoints_of tables)) }
    ensures places { IfOk result (λ service. ArePlaced service.wires) }
    ensures protocols { IfOk result (λ service. HaveProtocols (endpoints_of tables) service.wires) }
    ensures settled { IfOk result (λ service. IsSettled D.says service.depot service.hub) }
{
    match bureau.open_lines(alloc, &tables, listening, needed) {
        Ok(endpoints) => service_of(alloc, depot, tables, &endpoints, bureau),
        Err(fault) => Err((fault, depot, bureau)),
    }
}

/// A service of lines of tables, by an attendant that serves these and tells what the depot opened.
fn service_of<N: Network + Drop, L: Write + Drop, S: TableSource + Drop, D: Depot + Drop>(
    alloc: Global,
    mut depot: D,
    tables: Tables,
    endpoints: &[Endpoint],
    mut bureau: Bureau<N, L, S>,
) -> Result<Service<LineWire<N::Connection>, Bureau<N, L, S>, D>, (ServeFault, D, Bureau<N, L, S>)>
    requires known { All (λ endpoint. HasLine tables endpoint.line) endpoints.now }
    requires apart { IsApart endpoints.now }
    ensures opened { IfOk result (λ service. IsOpenedOn (D.opens depot service.depot tables) endpoints.now service) }
    ensures attended { IfOk result (λ service. service.attendant ≡ record bureau {
      exchange = record bureau.exchange { arrivals = service.attendant.exchange.arrivals };
    }) }
    ensures places { IfOk result (λ service. ArePlaced service.wires) }
    ensures protocols { IfOk result (λ service. HaveProtocols endpoints.now service.wires) }
    ensures settled { IfOk result (λ service. IsSettled D.says service.depot service.hub) }
{
    let customers = tables.customers().len();
    match depot.open(alloc, tables) {
        Ok(hub) => {
            bureau.know_arrivals(&depot, &hub);
            bureau.tell_opened(&depot);
            bureau.tell_ready(customers, endpoints.len(), &hub);
            service_over(alloc, hub, depot, endpoints, bureau)
        }
        Err(fault) => Err((ServeFault::from(fault), depot, bureau)),
    }
}

/// A service of lines of a hub, with its depot.
fn service_over<N: Network + Drop, L: Write + Drop, S: TableSource + Drop, D: Drop>(
    alloc: Global,
    hub: Hub,
    depot: D,
    endpoints: &[Endpoint],
    bureau: Bureau<N, L, S>,
) -> Result<Service<LineWire<N::Connection>, Bureau<N, L, S>, D>, (ServeFault, D, Bureau<N, L, S>)>
    requires { All (λ endpoint. HubHasLine hub endpoint.line) endpoints.now }
    ensures hub { IfOk result (λ service. service.hub ≡ hub) }
    ensures depot { IfOk result (λ service. service.depot ≡ depot) }
    ensures lines { IfOk result (λ service. service.lines ≡ lines_of endpoints.now) }
    ensures calm { IfOk result (λ service. service.quiets ≡ no_quiets (lines_of endpoints.now)) }
    ensures attended { IfOk result (λ service. service.attendant ≡ bureau) }
    ensures places { IfOk result (λ service. ArePlaced service.wires) }
    ensures protocols { IfOk result (λ service. HaveProtocols endpoints.now service.wires) }
{
    let wires = match wires_for(alloc, endpoints) {
        Ok(wires) => wires,
        Err(_) => return Err((ServeFault::Memory, depot, bureau)),
    };
    match Service::new(alloc, hub, depot, endpoints, wires, bureau) {
        Ok(service) => Ok(service),
        Err((_, depot, bureau)) => Err((ServeFault::Memory, depot, bureau)),
    }
}

/// A wire for each, with the place and the protocol of its line, on which nobody is connected.
fn wires_for<C: Connection + Drop>(
    alloc: Global,
    endpoints: &[Endpoint],
) -> Result<Vec<LineWire<C>>, AllocError>
    ensures many { IfOk result (λ wires. length wires.items ≡ length endpoints.now) }
    ensures places { IfOk result (λ wires. ArePlaced wires.items) }
    ensures protocols { IfOk result (λ wires. HaveProtocols endpoints.now wires.items) }
{
    let mut wires = Vec::new(alloc);
    for place in 0..endpoints.len() {
        wires.push(wire_for(alloc, place, endpoints[place].protocol)?)?;
    }
    Ok(wires)
}

/// The wire of the line at this place, which waits by the rules of the line's protocol.
fn wire_for<C: Connection + Drop>(
    alloc: Global,
    place: usize,
    protocol: Protocol,
) -> Result<LineWire<C>, AllocError>
    ensures { IfOk result (λ wire. wire ≡ record (first_standing place) { protocol = protocol }) }
{
    let mut wire = LineWire::new(alloc, place)?;
    wire.set_protocol(protocol);
    Ok(wire)
}
