//! Ranges of addresses: from where a line's peer may connect.

ghost use Rattle.std.specs.Prelude.{◌≡◌, ◌≤◌};
ghost use Rattle.njh_table.specs.Ranges.{contains, ends_in_zeros, is_range, is_single, number_of, open_bits};
ghost use Rattle.njh_table.specs.Ranges.{own_range, width, without_last};

use std::net::{IpAddr, Ipv4Addr};

/// The number of an IPv4 address that is mapped into IPv6 (RFC 4291, 2.5.5.2) is this and its own.
const MAPPED: u128 = 0xffff_0000_0000;

/// The addresses that are alike in their first bits. An IPv4 address is the same as the one into
/// which it is mapped in IPv6, so a range of IPv6 may have addresses of IPv4.
#[derive(Clone, Copy, Drop, PartialEq, Eq)]
pub struct AddressRange {
    /// One of the addresses.
    pub address: IpAddr,
    /// How many of its first bits they have: 32 or 128, which are all, for this address alone.
    pub bits: u8,
}

impl AddressRange {
    /// The range of an address by itself.
    pub fn of(address: IpAddr) -> AddressRange
        ensures { result ≡ own_range address }
    {
        AddressRange {
            address,
            bits: width(address),
        }
    }

    /// Whether it is an address by itself.
    pub fn is_single(&self) -> bool
        ensures { result ≡ is_single self.now }
    {
        self.bits == width(self.address)
    }

    /// Whether an address is one of them.
    #[tactic(auto, unfolding(crate::specs::Ranges::contains))]
    pub fn contains(&self, address: IpAddr) -> bool
        ensures { result ≡ contains self.now address }
    {
        let open = self.open_bits();
        without_last(open, address) == without_last(open, self.address)
    }

    /// Whether a table file may have it: it fixes no more bits than its address has, and those
    /// behind them are 0.
    pub(crate) fn is_range(&self) -> bool
        ensures { result ≡ is_range self.now }
    {
        self.bits <= width(self.address) && ends_in_zeros(self.open_bits(), self.address)
    }

    /// How many of the last bits of an address it leaves open.
    fn open_bits(&self) -> u8
        ensures value { result ≡ open_bits self.now }
        ensures few { result ≤ 128 }
    {
        width(self.address).saturating_sub(self.bits)
    }
}

/// The address that no peer has.
impl Default for AddressRange {
    fn default() -> AddressRange {
        AddressRange::of(IpAddr::V4(Ipv4Addr::UNSPECIFIED))
    }
}

/// How many bits an address has.
fn width(address: IpAddr) -> u8
    ensures value { result ≡ width address }
    ensures few { result ≤ 128 }
{
    match address {
        IpAddr::V4(_) => 32,
        IpAddr::V6(_) => 128,
    }
}

/// The number by which an address is known: that of IPv6. An IPv4 address has the number of the one
/// into which it is mapped.
#[tactic(auto, unfolding(crate::specs::Ranges::number_of))]
pub fn number_of(address: IpAddr) -> u128
    ensures { result ≡ number_of address }
{
    match address {
        IpAddr::V4(ip) => MAPPED + u128::from(ip.to_bits()),
        IpAddr::V6(ip) => ip.to_bits(),
    }
}

/// The number of an address without so many of its last bits.
#[tactic(auto, unfolding(crate::specs::Ranges::without_last))]
fn without_last(bits: u8, address: IpAddr) -> u128
    requires { bits ≤ 128 }
    ensures { result ≡ without_last bits address }
{
    let number = number_of(address);
    match 2u128.checked_pow(u32::from(bits)) {
        Some(power) => number / power,
        None => 0,
    }
}

/// Whether so many of an address's last bits are 0.
#[tactic(auto, unfolding(crate::specs::Ranges::ends_in_zeros))]
fn ends_in_zeros(bits: u8, address: IpAddr) -> bool
    requires { bits ≤ 128 }
    ensures { result ≡ ends_in_zeros bits address }
{
    let number = number_of(address);
    match 2u128.checked_pow(u32::from(bits)) {
        Some(power) => number % power == 0,
        None => number == 0,
    }
}
