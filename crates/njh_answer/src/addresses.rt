//! Addresses in an answer: who is on a line, who waits for it, and who was refused on it.

ghost use Rattle.std.specs.Prelude.{◌≡◌, IfOk, map, option_map, string_bytes};
ghost use Rattle.std.specs.Net.Addr.{ipv4_octets};
ghost use Rattle.serde_json.specs.Data.{array};
ghost use Rattle.serde_json.specs.View.{items_of, view};
ghost use Rattle.njh_answer.specs.Addresses.{address_text, guest_data, mapped_octets, peer_data, refused_data};
ghost use Rattle.njh_answer.specs.Addresses.{site_text, v6_site_text, v6_text};

use crate::views::Refused;
use serde_json::{Value, json};
use std::alloc::{AllocError, Global};
use std::net::{IpAddr, Ipv4Addr, Ipv6Addr, SocketAddr, SocketAddrV6};

/// The IPv4 address that is mapped into this one, if one is.
fn mapped(ip: &Ipv6Addr) -> Option<Ipv4Addr>
    ensures { option_map ipv4_octets result ≡ mapped_octets ip.now }
{
    ip.to_ipv4_mapped()
}

/// An address.
fn address_text(alloc: Global, address: IpAddr) -> Result<String, AllocError>
    ensures { IfOk result (λ text. string_bytes text ≡ address_text address) }
{
    match address {
        IpAddr::V4(ip) => format!(in alloc; "{ip}"),
        IpAddr::V6(ip) => v6_text(alloc, ip),
    }
}

fn v6_text(alloc: Global, ip: Ipv6Addr) -> Result<String, AllocError>
    ensures { IfOk result (λ text. string_bytes text ≡ v6_text (mapped_octets ip) ip) }
{
    match mapped(&ip) {
        Some(ip) => format!(in alloc; "{ip}"),
        None => format!(in alloc; "{ip}"),
    }
}

/// An address with its port.
fn site_text(alloc: Global, site: SocketAddr) -> Result<String, AllocError>
    ensures { IfOk result (λ text. string_bytes text ≡ site_text site) }
{
    match site {
        SocketAddr::V4(site) => format!(in alloc; "{site}"),
        SocketAddr::V6(site) => v6_site_text(alloc, site),
    }
}

fn v6_site_text(alloc: Global, site: SocketAddrV6) -> Result<String, AllocError>
    ensures { IfOk result (λ text. string_bytes text ≡ v6_site_text (mapped_octets site.ip) site) }
{
    match mapped(site.ip()) {
        Some(ip) => {
            let port = site.port();
            format!(in alloc; "{ip}:{port}")
        }
        None => format!(in alloc; "{site}"),
    }
}

/// Who is on a line, if somebody is.
pub(crate) fn peer_value(alloc: Global, peer: Option<SocketAddr>) -> Result<Value, AllocError>
    ensures { IfOk result (λ value. view value ≡ peer_data peer) }
{
    match peer {
        Some(peer) => guest_value(alloc, peer),
        None => Ok(Value::Null),
    }
}

fn guest_value(alloc: Global, guest: SocketAddr) -> Result<Value, AllocError>
    ensures { IfOk result (λ value. view value ≡ guest_data guest) }
{
    Ok(Value::String(site_text(alloc, guest)?))
}

/// Who waits for a line, as a list.
pub(crate) fn waiting_value(alloc: Global, waiting: &[SocketAddr]) -> Result<Value, AllocError>
    ensures { IfOk result (λ value. view value ≡ array (items_of (map guest_data waiting.now))) }
{
    Ok(Value::Array(guest_values(alloc, waiting)?))
}

fn guest_values(alloc: Global, waiting: &[SocketAddr]) -> Result<Vec<Value>, AllocError>
    ensures { IfOk result (λ values. map view values.items ≡ map guest_data waiting.now) }
{
    let mut values = Vec::new(alloc);
    for guest in waiting {
        values.push(guest_value(alloc, *guest)?)?;
    }
    Ok(values)
}

/// An address, and how many of its sign-ons were refused.
fn refusals_value(alloc: Global, refused: Refused) -> Result<Value, AllocError>
    ensures { IfOk result (λ value. view value ≡ refused_data refused) }
{
    let address = address_text(alloc, refused.address)?;
    json!(in alloc; {"address": address, "count": refused.count})
}

/// The addresses of which sign-ons were refused on a line, as a list.
pub(crate) fn refused_value(alloc: Global, refused: &[Refused]) -> Result<Value, AllocError>
    ensures { IfOk result (λ value. view value ≡ array (items_of (map refused_data refused.now))) }
{
    Ok(Value::Array(refused_values(alloc, refused)?))
}

fn refused_values(alloc: Global, refused: &[Refused]) -> Result<Vec<Value>, AllocError>
    ensures { IfOk result (λ values. map view values.items ≡ map refused_data refused.now) }
{
    let mut values = Vec::new(alloc);
    for address in refused {
        values.push(refusals_value(alloc, *address)?)?;
    }
    Ok(values)
}
