//! The walk over a header's sections.

ghost use Rattle.std.specs.Prelude.{◌≡◌, ◌+◌, ◌≤◌, length, IfOk};
ghost use Rattle.njh_header.specs.Walk.{general_section};

use crate::fault::HeaderFault;
use crate::field::read_number;
use crate::places::{head, prefix};

/// Where the general section of a header begins, which has to have this size.
pub fn find_general(bytes: &[u8], size: usize) -> Result<usize, HeaderFault>
    ensures found { result ≡ general_section size bytes.now }
    ensures within { IfOk result (λ place. place + size ≤ length bytes.now) }
{
    if bytes.len() < prefix::SIZE {
        return Err(HeaderFault::TooShort);
    }
    let (_, mut rest) = bytes.split_at(prefix::SIZE);
    while !rest.is_empty() {
        if rest.len() < head::SIZE {
            return Err(HeaderFault::SectionOverrun);
        }
        let length = usize::from(read_number(rest, head::LENGTH));
        if length < head::SIZE {
            return Err(HeaderFault::SectionOverrun);
        }
        if read_number(rest, head::KIND) == head::GENERAL {
            return if length < size || rest.len() < size {
                Err(HeaderFault::TooShort)
            } else {
                Ok(bytes.len() - rest.len())
            };
        }
        if rest.len() < length {
            return Err(HeaderFault::SectionOverrun);
        }
        let (_, after) = rest.split_at(length);
        rest = after;
    }
    Err(HeaderFault::NoGeneralSection)
}
