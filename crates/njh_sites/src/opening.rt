//! Opens the sockets of lines: each listens on its port, or has the address that it dials.

ghost use Rattle.std.specs.Prelude.{◌≡◌, ◌≢◌, ◌⊎◌, ◌∷◌, ◌++◌, [], None, map, All, IfOk, IfErr, IfSome, IsOk, OnOk};
ghost use Rattle.std.specs.Prelude.{false};
ghost use Rattle.std.specs.List.{list_any, Contains};
ghost use Rattle.njh_log.specs.declared.listen_cause.ListenCause.TheVariants as cause;
ghost use Rattle.njh_sites.specs.Doors.{IsBegun};
ghost use Rattle.njh_sites.specs.Opened.{IsApart, IsRepeated, is_same_port, site_on, site_opened};

use crate::door::{Door, admitted, listen};
use crate::endpoints::Endpoint;
use crate::site::Site;
use njh_log::ListenCause;
use njh_wire::Network;
use std::alloc::Global;
use std::io;
use std::io::ErrorKind;
use std::net::{IpAddr, SocketAddr};

/// How lines with a port listen.
#[derive(Clone, Copy)]
pub struct Listening {
    /// At this address.
    pub address: IpAddr,
    /// Whether each has to. Else a port that can't be listened on is tried again each ten seconds.
    pub strict: bool,
}

/// A line whose socket could not be opened.
#[derive(Clone, Copy, Drop)]
pub struct ListenFault {
    /// The line, and its port.
    pub endpoint: Endpoint,
    /// Why.
    pub cause: ListenCause,
}

/// Opens the sockets of lines, in their order, at this moment of the service's clock. Those that
/// have a port listen there, or have a door that is shut, unless each has to listen.
///
/// Two lines on one port are refused before any is listened on. What was opened before a fault is
/// closed.
pub fn open<N: Network>(
    alloc: Global,
    network: &mut N,
    listening: Listening,
    now: u64,
    endpoints: &[Endpoint],
) -> Result<Vec<Site<Door<N::Listener>, SocketAddr>>, ListenFault>
    ensures opened { IfOk result (λ sites. map (site_opened N.address_of) sites.items
        ≡ map (λ endpoint. site_on listening.address endpoint.site) endpoints.now) }
    ensures begun { IfOk result (λ sites. All (IsBegun listening.strict now) sites.items) }
    ensures lax { listening.strict ≡ false → IfErr result (λ fault.
        (fault.cause ≡ cause.SamePort) ⊎ (fault.cause ≡ cause.Memory)) }
    ensures apart { IfOk result (λ sites. IsApart endpoints.now) }
    ensures same { IfErr result (λ fault. fault.cause ≡ cause.SamePort → IsRepeated endpoints.now fault.endpoint) }
    ensures other { IfErr result (λ fault. fault.cause ≢ cause.SamePort → IsApart endpoints.now) }
    ensures known { IfErr result (λ fault. Contains endpoints.now fault.endpoint) }
{
    match repeated(endpoints) {
        Some(endpoint) => Err(ListenFault {
            endpoint,
            cause: ListenCause::SamePort,
        }),
        None => open_all(alloc, network, listening, now, endpoints),
    }
}

/// The first whose port is that of one before it.
fn repeated(endpoints: &[Endpoint]) -> Option<Endpoint>
    ensures apart { result ≡ None → IsApart endpoints.now }
    ensures same { IfSome result (IsRepeated endpoints.now) }
{
    for place in 0..endpoints.len() {
        let endpoint = endpoints[place];
        if has_port(&endpoints[..place], endpoint) {
            return Some(endpoint);
        }
    }
    None
}

/// Whether one of these has the same port.
fn has_port(before: &[Endpoint], endpoint: Endpoint) -> bool
    ensures { result ≡ list_any (is_same_port endpoint) before.now }
{
    before.iter().any(|other| is_same_port(&endpoint, other))
}

fn is_same_port(endpoint: &Endpoint, other: &Endpoint) -> bool
    ensures { result ≡ is_same_port endpoint.now other.now }
{
    match (endpoint.site, other.site) {
        (Site::Listens(port), Site::Listens(taken)) => port == taken,
        _ => false,
    }
}

/// Opens the sockets of lines whose ports differ.
fn open_all<N: Network>(
    alloc: Global,
    network: &mut N,
    listening: Listening,
    now: u64,
    endpoints: &[Endpoint],
) -> Result<Vec<Site<Door<N::Listener>, SocketAddr>>, ListenFault>
    ensures opened { IfOk result (λ sites. map (site_opened N.address_of) sites.items
        ≡ map (λ endpoint. site_on listening.address endpoint.site) endpoints.now) }
    ensures begun { IfOk result (λ sites. All (IsBegun listening.strict now) sites.items) }
    ensures lax { listening.strict ≡ false → IfErr result (λ fault. fault.cause ≡ cause.Memory) }
    ensures cause { IfErr result (λ fault. fault.cause ≢ cause.SamePort) }
    ensures known { IfErr result (λ fault. Contains endpoints.now fault.endpoint) }
{
    let mut sites = Vec::new(alloc);
    for place in 0..endpoints.len() {
        let endpoint = endpoints[place];
        match add_site(network, listening, now, endpoint.site, &mut sites) {
            Ok(()) => {}
            Err(cause) => return Err(ListenFault { endpoint, cause }),
        }
    }
    Ok(sites)
}

/// Adds a line's site with its door, if it listens.
fn add_site<N: Network>(
    network: &mut N,
    listening: Listening,
    now: u64,
    site: Site<u16, SocketAddr>,
    sites: &mut Vec<Site<Door<N::Listener>, SocketAddr>>,
) -> Result<(), ListenCause>
    ensures opened { OnOk result (map (site_opened N.address_of) sites.new.items
        ≡ map (site_opened N.address_of) sites.old.items ++ site_on listening.address site ∷ []) }
    ensures begun { All (IsBegun listening.strict now) sites.old.items
        → OnOk result (All (IsBegun listening.strict now) sites.new.items) }
    ensures lax { listening.strict ≡ false → IfErr result (λ why. why ≡ cause.Memory) }
    ensures cause { IfErr result (λ why. why ≢ cause.SamePort) }
{
    let opened = open_site(network, listening, now, site, sites.len())?;
    match sites.push(opened) {
        Ok(()) => Ok(()),
        Err(_) => Err(ListenCause::Memory),
    }
}

/// Listens on a line's port, if it has one.
fn open_site<N: Network>(
    network: &mut N,
    listening: Listening,
    now: u64,
    site: Site<u16, SocketAddr>,
    place: usize,
) -> Result<Site<Door<N::Listener>, SocketAddr>, ListenCause>
    ensures opened { IfOk result (λ opened. site_opened N.address_of opened ≡ site_on listening.address site) }
    ensures begun { IfOk result (IsBegun listening.strict now) }
    ensures lax { listening.strict ≡ false → IsOk result }
    ensures cause { IfErr result (λ why. why ≢ cause.SamePort) }
{
    match site {
        Site::Listens(port) => {
            let address = SocketAddr::new(listening.address, port);
            let door = listen(network, address, place, now);
            Ok(Site::Listens(admitted(door, listening.strict)?))
        }
        Site::Dials(peer) => Ok(Site::Dials(peer)),
    }
}

/// Why a port could not be listened on.
pub(crate) fn cause_of(error: &io::Error) -> ListenCause
    ensures { result ≢ cause.SamePort }
{
    match error.raw_os_error() {
        Some(number) if is_out_of_files(number) => ListenCause::TooManyFiles,
        _ => cause_by_kind(error.kind()),
    }
}

/// Whether the system says that the process (24), or the machine (23), may have no more files open.
fn is_out_of_files(number: i32) -> bool {
    number == 24 || number == 23
}

fn cause_by_kind(kind: ErrorKind) -> ListenCause
    ensures { result ≢ cause.SamePort }
{
    match kind {
        ErrorKind::AddrInUse => ListenCause::PortInUse,
        ErrorKind::PermissionDenied => ListenCause::NotPermitted,
        ErrorKind::AddrNotAvailable => ListenCause::NotHere,
        ErrorKind::OutOfMemory => ListenCause::Memory,
        _ => ListenCause::Device,
    }
}
