//! Runs of bytes without a DLE.
ghost use Rattle.std.specs.Prelude.{◌≡◌, ◌≤◌, length};
ghost use Rattle.njh_bisync.specs.code.PlainBytes.{plain_len};

use crate::line_byte::DLE;

/// How many bytes are searched at once.
const GROUP: usize = 32;

/// How many bytes come before the first DLE, or all if there is none.
#[tactic(auto, using(crate::proofs::PlainLaws::plain_within))]
pub fn plain_len(bytes: &[u8]) -> usize
    ensures exact { result ≡ plain_len bytes.now }
    ensures within { result ≤ length bytes.now }
{
    let mut rest = bytes;
    while let Some((group, after)) = rest.split_first_chunk::<GROUP>() {
        if group.contains(&DLE) {
            break;
        }
        rest = after;
    }
    bytes.len() - rest.len() + first_dle(rest)
}

/// The same, byte by byte.
#[tactic(auto, using(crate::proofs::PlainLaws::plain_within))]
fn first_dle(bytes: &[u8]) -> usize
    ensures exact { result ≡ plain_len bytes.now }
    ensures within { result ≤ length bytes.now }
{
    for (index, byte) in bytes.iter().enumerate() {
        if *byte == DLE {
            return index;
        }
    }
    bytes.len()
}
