//! The heads of TTBs and TTRs.

ghost use Rattle.std.specs.Prelude.{◌≡◌, ◌≤◌, length};
ghost use Rattle.njh_tcp.specs.Blocks.{length_in};

use byteorder::{BigEndian, ByteOrder};

/// How many bytes the head of a TTB has.
pub const TTB_HEAD: usize = 8;

/// How many bytes the head of a TTR has, and the end of a TTB.
pub const TTR_HEAD: usize = 4;

/// How many bytes a TTB has at least: its head and its end.
pub const SHORTEST_TTB: usize = TTB_HEAD + TTR_HEAD;

/// The length that a head tells.
pub fn length_in(head: &[u8]) -> usize
    requires { 4 ≤ length head.now }
    ensures exact { result ≡ length_in head.now }
    ensures small { result ≤ 65535 }
{
    usize::from(BigEndian::read_u16(&head[2..]))
}
