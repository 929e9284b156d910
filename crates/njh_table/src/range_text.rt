//! The ranges of addresses that a table file writes: an address by itself, or an address, a slash and
//! how many of its first bits count.

ghost use Rattle.std.specs.Prelude.{◌≡◌, ◌≤◌, length, option_map};
ghost use Rattle.std.specs.List.{list_all};
ghost use Rattle.toml.specs.View.{view, items_view};
ghost use Rattle.njh_table.specs.Addresses.{ip_of};
ghost use Rattle.njh_table.specs.Keys.{bits_of, from, halves, is_decimal, is_digit, leads, may_have, range, range_of};
ghost use Rattle.njh_table.specs.Keys.{range_with, ranges_in};
ghost use Rattle.njh_table.specs.Limits.{max_ranges};

use crate::address_range::AddressRange;
use crate::address_ranges::AddressRanges;
use crate::limits::MAX_RANGES;
use arrayvec::ArrayVec;
use std::net::IpAddr;
use toml::Value;

/// From where the peer of a line with this port may connect.
pub(crate) fn from_in(value: &Value, port: u16) -> Option<AddressRanges>
    ensures { result ≡ from port (view value.now) }
{
    let values = value.as_array()?;
    if may_have(port, values.len()) {
        ranges_in(values.as_slice())
    } else {
        None
    }
}

/// Whether a line with this port may have so many ranges.
fn may_have(port: u16, count: usize) -> bool
    ensures { result ≡ may_have port count }
{
    port != 0 && 1 <= count && count <= MAX_RANGES
}

/// The ranges that some texts write, in their order.
#[tactic(auto, using(crate::proofs::RangeLaws::after_none, crate::proofs::RangeLaws::after_all))]
fn ranges_in(values: &[Value]) -> Option<AddressRanges>
    requires { length values.now ≤ max_ranges }
    ensures { result ≡ ranges_in (items_view values.now) }
{
    let mut ranges = ArrayVec::new();
    for value in values {
        let range = range_in(value)?;
        ranges.push(range);
    }
    Some(AddressRanges::of(ranges))
}

fn range_in(value: &Value) -> Option<AddressRange>
    ensures { result ≡ range (view value.now) }
{
    range_of(value.as_str()?)
}

/// The range that a text writes.
fn range_of(text: &str) -> Option<AddressRange>
    ensures { result ≡ range_of text.now }
{
    match halves(text) {
        None => Some(AddressRange::of(ip_of(text)?)),
        Some((address, bits)) => range_with(ip_of(address)?, bits_of(bits)?),
    }
}

/// What stands before the first slash of a text, and what after it.
fn halves(text: &str) -> Option<(&str, &str)>
    ensures { option_map (λ h. (h.0.now, h.1.now)) result ≡ halves text.now }
{
    text.split_once('/')
}

/// An address and its first bits, if a table file may have that range.
fn range_with(address: IpAddr, bits: u8) -> Option<AddressRange>
    ensures { result ≡ range_with address bits }
{
    let range = AddressRange { address, bits };
    range.is_range().then_some(range)
}

fn ip_of(text: &str) -> Option<IpAddr>
    ensures { result ≡ ip_of text.now }
{
    IpAddr::parse_ascii(text.as_bytes()).ok()
}

/// The number below 256 that a text writes in decimal.
fn bits_of(text: &str) -> Option<u8>
    ensures { result ≡ bits_of text.now }
{
    if !is_decimal(text.as_bytes()) {
        return None;
    }
    text.parse::<u8>().ok()
}

/// Whether it is digits alone, of which the first of several isn't 0.
fn is_decimal(text: &[u8]) -> bool
    ensures { result ≡ is_decimal text.now }
{
    are_digits(text) && leads(text)
}

fn are_digits(text: &[u8]) -> bool
    ensures { result ≡ list_all is_digit text.now }
{
    text.iter().all(|c| is_digit(*c))
}

fn is_digit(c: u8) -> bool
    ensures { result ≡ is_digit c }
{
    matches!(c, b'0'..=b'9')
}

/// Whether there is a first byte, and it isn't a 0 before others.
fn leads(text: &[u8]) -> bool
    ensures { result ≡ leads text.now }
{
    match text.first().copied() {
        Some(first) => text.len() == 1 || first != b'0',
        None => false,
    }
}
