//! From where a line takes connections.

ghost use Rattle.std.specs.Prelude.{◌≡◌, ◌↔◌, [], IsTrue};
ghost use Rattle.std.specs.List.{list_any};
ghost use Rattle.njh_table.specs.Ranges.{allows, contains};

use crate::address_range::AddressRange;
use crate::limits::MAX_RANGES;
use arrayvec::ArrayVec;
use std::marker::Model;
use std::net::IpAddr;

/// From where a line takes connections: from the addresses of up to 16 ranges, or, if there is no
/// range, from all.
#[derive(Drop)]
pub struct AddressRanges {
    ranges: ArrayVec<AddressRange, MAX_RANGES>,
}

impl Model for AddressRanges {
    ghost use Rattle.std.specs.Prelude.{List};
    ghost use Rattle.njh_table.specs.declared.address_range.AddressRange.{AddressRange};

    ghost Value = { List AddressRange };

    ghost view = { λ r. r.ranges.items };
}

impl AddressRanges {
    /// From all addresses.
    pub fn all() -> AddressRanges
        ensures { result ≡ [] }
    {
        AddressRanges {
            ranges: ArrayVec::new(),
        }
    }

    /// From the addresses of these ranges.
    pub(crate) fn of(ranges: ArrayVec<AddressRange, MAX_RANGES>) -> AddressRanges
        ensures { result ≡ ranges.items }
    {
        AddressRanges { ranges }
    }

    /// The ranges.
    pub fn as_slice(&self) -> &[AddressRange]
        ensures { result.now ≡ self.now }
    {
        self.ranges.as_slice()
    }

    /// Whether a connection from an address is taken.
    pub fn allows(&self, address: IpAddr) -> bool
        ensures { result ≡ allows self.now address }
    {
        let ranges = self.as_slice();
        ranges.is_empty() || is_in_any(address, ranges)
    }

    /// Whether they are the same ranges, in the same order.
    pub fn is_same(&self, other: &AddressRanges) -> bool
        ensures { IsTrue result ↔ (self.now ≡ other.now) }
    {
        self.as_slice() == other.as_slice()
    }

    /// The same once more. It takes no memory.
    pub fn copy(&self) -> AddressRanges
        ensures { result ≡ self.now }
    {
        let mut ranges = ArrayVec::new();
        let _room = ranges.try_extend_from_slice(self.ranges.as_slice()).is_ok();
        AddressRanges { ranges }
    }
}

/// Whether an address is in one of some ranges.
fn is_in_any(address: IpAddr, ranges: &[AddressRange]) -> bool
    ensures { result ≡ list_any (λ range. contains range address) ranges.now }
{
    ranges.iter().any(|range| range.contains(address))
}
