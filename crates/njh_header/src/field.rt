//! Fields of bytes, by place.

ghost use Rattle.std.specs.Prelude.{◌≡◌, ◌+◌, ◌≤◌, length, IfErr, IfOk, is_ok};
ghost use Rattle.njh_record.specs.Bytes.{field, number_at};
ghost use Rattle.njh_ebcdic.specs.Names.{is_name};

use crate::fault::HeaderFault;
use byteorder::{BigEndian, ByteOrder};
use njh_ebcdic::Name;
use njh_record::field_at;

/// The number in the two bytes at a place, the high byte first.
pub fn read_number(bytes: &[u8], place: usize) -> u16
    requires { place + 2 ≤ length bytes.now }
    ensures { result ≡ number_at place bytes.now }
{
    BigEndian::read_u16(&bytes[place..])
}

/// The name in the eight bytes at a place.
pub fn read_name(bytes: &[u8], place: usize) -> Result<Name, HeaderFault>
    requires { place + 8 ≤ length bytes.now }
    ensures named { is_ok result ≡ is_name (field place 8 bytes.now) }
    ensures name { IfOk result (λ name. name ≡ field place 8 bytes.now) }
    ensures fault { IfErr result (λ fault. fault ≡ HeaderFault.BadName) }
{
    Name::of_field(&field_at(bytes, place)).map_err(|_| HeaderFault::BadName)
}
