//! Fields of bytes, by place.

ghost use Rattle.std.specs.Prelude.{◌≡◌, ◌+◌, ◌≤◌, ◌++◌, length};
ghost use Rattle.njh_record.specs.Bytes.{field};

use arrayvec::ArrayVec;

/// The eight bytes at a place: the size of a field that holds a name.
pub fn field_at(bytes: &[u8], place: usize) -> [u8; 8]
    requires { place + 8 ≤ length bytes.now }
    ensures { result ≡ field place 8 bytes.now }
{
    let mut eight = [0; 8];
    eight.copy_from_slice(&bytes[place..place + 8]);
    eight
}

/// Adds bytes that have room.
pub fn put_bytes<const N: usize>(out: &mut ArrayVec<u8, N>, bytes: &[u8])
    requires { length out.old.items + length bytes.now ≤ N }
    ensures { out.new.items ≡ out.old.items ++ bytes.now }
{
    out.try_extend_from_slice(bytes).unwrap();
}
